//! Where a new child comes in a text with comments. These are hints: no contract says that they are
//! right.

use crate::change::{Change, Comma, Kind};
use crate::gap::{end_before, gap_of};
use crate::texts::Texts;
use jsonptr_text_layout::layout::Container;
use jsonptr_text_piece::child::Child;
use jsonptr_text_piece::piece::Piece;
use jsonptr_text_piece::span::{Span, slice};
use std::alloc::{AllocError, Global};

/// A new child, as it comes into the text without comments.
#[derive(Clone, Copy, Debug)]
struct PieceParts<'t> {
    /// Its name, if it is a member.
    name: &'t str,
    /// What is between the name and the value.
    colon: &'t str,
    /// Its value.
    value: &'t str,
    /// The white space between a comma and the next child.
    space: &'t str,
}

impl<'t> PieceParts<'t> {
    /// Returns the child of the piece with this white space, with comments in the array or object or not.
    ///
    /// Where a sibling has comments, the edit without comments copies white space that is as long.
    fn of(piece: &'t Piece, space: &'t str, is_commented: bool) -> PieceParts<'t> {
        let text = piece.text.as_str();
        let field = slice(text, piece.child.span.from, piece.child.value);
        let name_end = match field.rfind('"') {
            Some(quote) => quote.saturating_add(1),
            None => 0,
        };
        let colon = slice(field, name_end, field.len());
        PieceParts {
            name: slice(field, 0, name_end),
            colon: if is_commented && colon.len() > 2 {
                ": "
            } else {
                colon
            },
            value: slice(text, piece.child.value, piece.child.span.to),
            space: if is_commented {
                from_last_break(space)
            } else {
                space
            },
        }
    }
}

/// Returns the white space from its last line break on. On one line, returns a space at most.
fn from_last_break(space: &str) -> &str {
    let Some(at) = space.rfind('\n') else {
        return slice(space, 0, space.len().min(1));
    };
    let start = if slice(space, 0, at).ends_with('\r') {
        at.saturating_sub(1)
    } else {
        at
    };
    slice(space, start, space.len())
}

/// A insertion of a new child.
#[derive(Clone, Copy, Debug)]
struct Insertion {
    /// A comma that comes before it.
    comma: Comma,
    /// What is replaced.
    replaced: Span,
}

/// Returns the change that adds the child of the piece at the position.
///
/// # Errors
///
/// [`AllocError`] if an allocation fails.
pub fn addition(
    alloc: Global,
    texts: Texts<'_>,
    container: Container<'_>,
    position: usize,
    piece: &Piece,
) -> Result<Change, AllocError> {
    let span = container.span;
    let is_commented = slice(texts.text, span.from, span.to)
        != slice(texts.bare, span.from, span.to);
    let Some(last) = container.children.last() else {
        return first(alloc, texts, container, piece);
    };
    let Some(next) = container.children.get(position) else {
        let child = PieceParts::of(piece, space_before(piece), is_commented);
        return append(alloc, texts, container, *last, child);
    };
    let child = PieceParts::of(piece, space_after(piece), is_commented);
    let gap = Span {
        from: end_before(container, position),
        to: next.span.from,
    };
    insert(alloc, texts, gap, child)
}

/// Returns the white space between the comma before the child of the piece and the child.
fn space_before(piece: &Piece) -> &str {
    after_comma(slice(piece.text.as_str(), 0, piece.child.span.from))
}

/// Returns the white space after the comma after the child of the piece.
fn space_after(piece: &Piece) -> &str {
    let text = piece.text.as_str();
    after_comma(slice(text, piece.child.span.to, text.len()))
}

/// Returns what is after the comma, or an empty text if there is none.
fn after_comma(gap: &str) -> &str {
    match gap.find(',') {
        Some(comma) => slice(gap, comma.saturating_add(1), gap.len()),
        None => "",
    }
}

/// Returns the change that puts the child after the last one: after the comments on its line, with a
/// trailing comma if that has one.
fn append(
    alloc: Global,
    texts: Texts<'_>,
    container: Container<'_>,
    last: Child,
    new: PieceParts<'_>,
) -> Result<Change, AllocError> {
    let from = last.span.to;
    let gap = gap_of(texts.text, from, container.span.to.saturating_sub(1));
    let is_over_lines = new.space.contains('\n');
    if gap.has_line_comment && !is_over_lines {
        return put(
            alloc,
            at(from),
            &[",", new.space, new.name, new.colon, new.value],
        );
    }
    match gap.comma {
        Some(comma) => {
            let after = gap.tail.max(comma.saturating_add(1));
            put(
                alloc,
                at(after),
                &[new.space, new.name, new.colon, new.value, ","],
            )
        }
        None => if is_over_lines && gap.tail > from {
            let insertion = Insertion {
                comma: Comma::Put(from),
                replaced: empty(gap.tail),
            };
            put(
                alloc,
                insertion,
                &[new.space, new.name, new.colon, new.value],
            )
        } else {
            put(
                alloc,
                at(gap.tail),
                &[",", new.space, new.name, new.colon, new.value],
            )
        },
    }
}

/// Returns the change that puts the child into the gap before another one. Comments that are on lines
/// of their own stay before that one.
fn insert(
    alloc: Global,
    texts: Texts<'_>,
    span: Span,
    new: PieceParts<'_>,
) -> Result<Change, AllocError> {
    let gap = gap_of(texts.text, span.from, span.to);
    if gap.ends_line {
        return if new.space.contains('\n') {
            let comma = gap.comma.unwrap_or(span.from.saturating_sub(1));
            let after = gap.tail.max(comma.saturating_add(1));
            put(
                alloc,
                at(after),
                &[new.space, new.name, new.colon, new.value, ","],
            )
        } else {
            put(
                alloc,
                at(span.to),
                &[new.name, new.colon, new.value, ",", new.space],
            )
        };
    }
    match gap.comma {
        Some(comma) => put(
            alloc,
            at(comma.saturating_add(1)),
            &[new.space, new.name, new.colon, new.value, ","],
        ),
        None => if gap.comments_end.is_some() {
            put(
                alloc,
                at(span.from),
                &[new.name, new.colon, new.value, ",", new.space],
            )
        } else {
            put(
                alloc,
                at(span.to),
                &[new.name, new.colon, new.value, ",", new.space],
            )
        },
    }
}

/// Returns the change that puts the only child into an empty array or object, after its comments.
fn first(
    alloc: Global,
    texts: Texts<'_>,
    container: Container<'_>,
    piece: &Piece,
) -> Result<Change, AllocError> {
    let from = container.span.from.saturating_add(1);
    let to = container.span.to.saturating_sub(1);
    let text = piece.text.as_str();
    let child = piece.child.span;
    let lead = slice(text, 0, child.from);
    let body = slice(text, child.from, child.to);
    let trail = slice(text, child.to, text.len());
    let Some(after) = gap_of(texts.text, from, to).comments_end else {
        return put(alloc, replacing(from, to), &[lead, body, trail]);
    };
    let rest = slice(texts.text, after, to);
    if !lead.contains('\n') {
        put(alloc, at(after), &[" ", body])
    } else if rest.contains('\n') {
        put(alloc, at(after), &[lead, body])
    } else {
        put(alloc, replacing(after, to), &[lead, body, trail])
    }
}

/// Returns the empty span at the offset.
fn empty(offset: usize) -> Span {
    Span {
        from: offset,
        to: offset,
    }
}

/// Returns the insertion at the offset.
fn at(offset: usize) -> Insertion {
    replacing(offset, offset)
}

/// Returns the insertion instead of what is between the offsets.
fn replacing(from: usize, to: usize) -> Insertion {
    Insertion {
        comma: Comma::Same,
        replaced: Span { from, to },
    }
}

/// Returns the change that puts the texts to the insertion, one after another.
fn put(alloc: Global, insertion: Insertion, parts: &[&str]) -> Result<Change, AllocError> {
    let mut piece = String::new(alloc);
    for part in parts {
        piece.push_str(*part)?;
    }
    Ok(Change {
        comma: insertion.comma,
        replaced: insertion.replaced,
        kind: Kind::Space,
        piece,
    })
}
