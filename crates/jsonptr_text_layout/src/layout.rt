//! The white space around what an edit brings or removes, so that a text keeps its layout. These
//! are hints: no contract says that they are right.

use crate::place::Place;
use crate::spread::{Lines, OneLine, on_line, spread};
use crate::style::{
    Flat, find_outside_strings, indent_of, is_filled, is_own_line, line_before, margin_of,
    newline_of, row_above, unit_of,
};
use crate::value_text::ValueText;
use jsonptr_text_piece::child::{Child, trimmed_end};
use jsonptr_text_piece::piece::Piece;
use jsonptr_text_piece::span::{Span, slice};
use std::alloc::{AllocError, Global};

/// Returns the text of the value at the span, as it is there: its numbers, its strings and the order
/// of its members are kept.
///
/// # Errors
///
/// [`AllocError`] if an allocation fails.
pub fn text_at(alloc: Global, text: &str, span: Span) -> Result<ValueText, AllocError> {
    let indent = indent_of(line_before(text, span.from));
    let mut flat = String::new(alloc);
    let mut lines = String::new(alloc);
    let mut is_first = true;
    for line in slice(text, span.from, span.to).split('\n') {
        let line = line.strip_suffix('\r').unwrap_or(line);
        if is_first {
            flat.push_str(line)?;
            lines.push_str(line)?;
        } else {
            flat.push_str(line.trim_start())?;
            lines.push('\n')?;
            lines.push_str(line.strip_prefix(indent).unwrap_or(line.trim_start()))?;
        }
        is_first = false;
    }
    Ok(ValueText { flat, lines })
}

/// An array or an object in a text, and its children.
#[derive(Clone, Copy, Debug)]
pub struct Container<'t> {
    /// The whole text.
    pub text: &'t str,
    /// Where the container is.
    pub span: Span,
    /// Where its children are, in order.
    pub children: &'t [Child],
}

/// Returns the text that replaces the value that was located by another one.
///
/// The new text spans lines if the old one does, or if the old one is a scalar or an empty container
/// on a line of its own.
///
/// # Errors
///
/// [`AllocError`] if an allocation fails.
pub fn replacement(
    alloc: Global,
    text: &str,
    place: &Place,
    printed: &ValueText,
) -> Result<String, AllocError> {
    if !printed.lines.as_str().contains('\n') {
        return printed.lines.clone();
    }
    let span = place.value;
    let old = slice(text, span.from, span.to);
    let line = line_before(text, span.from);
    let is_spread = old.contains('\n');
    if is_spread || (!is_filled(old) && is_own_line(line)) {
        let container = if is_spread { span } else { place.container };
        let at = Lines {
            newline: newline_of(text, span.to),
            indent: margin_of(text, span.from),
            is_deeper: false,
            unit: unit_of(text, container),
        };
        return spread(alloc, at, printed);
    }
    let around = slice(text, place.container.from, place.container.to);
    let line_flat = Flat::before(line).or(Flat::of(text));
    let at = OneLine {
        flat: Flat::of(old).or(Flat::of(around).inside(line_flat)),
        is_over_lines: line.starts_with('\n'),
    };
    on_line(alloc, at, printed)
}

/// Returns the piece that adds a child to the array or object, before the child at the position or
/// after the last one. A member has a key, which is JSON text.
///
/// # Errors
///
/// [`AllocError`] if an allocation fails.
pub fn addition(
    alloc: Global,
    container: Container<'_>,
    position: usize,
    key: Option<&str>,
    printed: &ValueText,
) -> Result<Piece, AllocError> {
    let Some(last) = container.children.last() else {
        return first_child(alloc, container, key, printed);
    };
    let gap = container.gap(position);
    let value = container.value_after(alloc, position, gap, printed)?;
    let body = body_of(alloc, key, container.colon(last), value.as_str())?;
    match container.children.get(position) {
        Some(next) => framed(alloc, empty_at(next.span.from), ("", ""), &body, (",", gap)),
        None => framed(alloc, empty_at(last.span.to), (",", gap), &body, ("", "")),
    }
}

impl<'t> Container<'t> {
    /// Returns the white space between a comma and the child that comes at the position. Before a last
    /// child it is that of the last ones.
    fn gap(&self, position: usize) -> &'t str {
        let count = self.children.len();
        if count < 2 {
            return self.gap_of_only();
        }
        if position < count {
            return self.space_before(position.max(1));
        }
        let last = self.space_before(count.saturating_sub(1));
        let other = self.space_before(count.saturating_sub(2).max(1));
        if breaks(other) < breaks(last) {
            other
        } else {
            last
        }
    }

    /// Returns the white space before the child at the position.
    fn space_before(&self, position: usize) -> &'t str {
        match self.children.get(position) {
            Some(child) => space_before(self.text, child.span.from),
            None => "",
        }
    }

    /// Returns the white space for a second child: that before the only one if it has a line break.
    fn gap_of_only(&self) -> &'t str {
        let lead = self.space_before(0);
        if lead.contains('\n') {
            return lead;
        }
        let line = self.line();
        line.flat.after_comma(line.is_over_lines)
    }

    /// Returns what is between the key and the value of a member.
    fn colon(&self, member: &Child) -> &'t str {
        let field = slice(self.text, member.span.from, member.value);
        match field.rfind('"') {
            Some(at) => field.get(at.saturating_add(1)..).unwrap_or(": "),
            None => ": ",
        }
    }

    /// Returns what is around the tokens of the container if it is on one line.
    fn line(&self) -> OneLine<'t> {
        let inner = slice(self.text, self.span.from, self.span.to);
        let line = line_before(self.text, self.span.from);
        OneLine {
            flat: Flat::of(inner).inside(Flat::before(line).or(Flat::of(self.text))),
            is_over_lines: line.starts_with('\n'),
        }
    }

    /// Returns the text of a value that comes at the position, after this white space.
    fn value_after(
        &self,
        alloc: Global,
        position: usize,
        gap: &str,
        printed: &ValueText,
    ) -> Result<String, AllocError> {
        if !printed.lines.as_str().contains('\n') {
            return printed.lines.clone();
        }
        if !gap.contains('\n') {
            return on_line(alloc, self.line(), printed);
        }
        if let Some(row) = self.like_row(position, printed) {
            let at = OneLine {
                flat: Flat::of(row).or(self.line().flat),
                is_over_lines: true,
            };
            return on_line(alloc, at, printed);
        }
        let at = Lines {
            newline: if gap.contains("\r\n") { "\r\n" } else { "\n" },
            indent: last_line(gap),
            is_deeper: false,
            unit: unit_of(self.text, self.span),
        };
        spread(alloc, at, printed)
    }

    /// Returns the child beside the position, if it is an array or an object with children on one line,
    /// as the value is one.
    fn like_row(&self, position: usize, printed: &ValueText) -> Option<&'t str> {
        let beside = match position.checked_sub(1) {
            Some(before) => self.children.get(before)?,
            None => self.children.first()?,
        };
        let row = slice(self.text, beside.value, beside.span.to);
        let is_like = row.as_bytes().first() == printed.flat.as_str().as_bytes().first();
        if is_like && is_filled(row) && !row.contains('\n') {
            Some(row)
        } else {
            None
        }
    }

    /// Returns whether a first child of an empty container comes on a line of its own: if the container
    /// is over lines, or is on a line of its own and the one above it is not on one line.
    fn fills_lines(&self) -> bool {
        if slice(self.text, self.span.from, self.span.to).contains('\n') {
            return true;
        }
        is_own_line(line_before(self.text, self.span.from)) && self.row_above().is_none()
    }

    /// Returns the array or object with children that ends the line above, if it is on that line.
    fn row_above(&self) -> Option<&'t str> {
        let row = row_above(self.text, self.span.from)?;
        let at = match self.text.as_bytes().get(self.span.from) {
            Some(b'{') => if row.ends_with('}') {
                find_outside_strings(row, b"{")?
            } else {
                return None
            },
            _ => if row.ends_with(']') {
                find_outside_strings(row, b"[")?
            } else {
                return None
            },
        };
        let inner = row.get(at..)?;
        if is_filled(inner) { Some(inner) } else { None }
    }
}

/// Returns the piece that makes a child the only one of an empty array or object.
fn first_child(
    alloc: Global,
    container: Container<'_>,
    key: Option<&str>,
    printed: &ValueText,
) -> Result<Piece, AllocError> {
    if container.fills_lines() {
        first_on_line(alloc, container, key, printed)
    } else {
        only_on_line(alloc, container, key, printed)
    }
}

/// Returns the piece that makes a child, on a line of its own, the only one of an empty array or
/// object.
fn first_on_line(
    alloc: Global,
    container: Container<'_>,
    key: Option<&str>,
    printed: &ValueText,
) -> Result<Piece, AllocError> {
    let line = line_before(container.text, container.span.from);
    let at = Lines {
        newline: newline_of(container.text, container.span.to),
        indent: margin_of(container.text, container.span.from),
        is_deeper: true,
        unit: unit_of(container.text, container.span),
    };
    let text = spread(alloc, at, printed)?;
    let colon = Flat::before(line).around_colon(true);
    let body = body_of(alloc, key, colon, text.as_str())?;
    let mut lead = String::from_str(alloc, at.newline)?;
    lead.push_str(at.indent)?;
    framed(
        alloc,
        inside(container.span),
        (lead.as_str(), at.unit),
        &body,
        (at.newline, at.indent),
    )
}

/// Returns the piece that makes a child the only one of an empty array or object on one line.
fn only_on_line(
    alloc: Global,
    container: Container<'_>,
    key: Option<&str>,
    printed: &ValueText,
) -> Result<Piece, AllocError> {
    let span = inside(container.span);
    let mut line = container.line();
    if let Some(row) = container.row_above() {
        line.flat = Flat::of(row).or(line.flat);
    }
    let text = on_line(alloc, line, printed)?;
    let colon = line.flat.around_colon(line.is_over_lines);
    let body = body_of(alloc, key, colon, text.as_str())?;
    let inner = slice(container.text, span.from, span.to);
    let pad = if !inner.is_empty() {
        inner
    } else if key.is_some() {
        line.flat.brace.unwrap_or("")
    } else {
        line.flat.bracket.unwrap_or("")
    };
    framed(alloc, span, (pad, ""), &body, (pad, ""))
}

/// The text of a child. It owns the text.
#[derive(Debug, Drop)]
struct Body {
    /// The key, if the child is a member, and the value.
    text: String,
    /// Where the value begins.
    value: usize,
}

/// Returns the text of a child: its key, if it is a member, and its value.
fn body_of(alloc: Global, key: Option<&str>, colon: &str, value: &str) -> Result<Body, AllocError> {
    let mut text = String::new(alloc);
    if let Some(key) = key {
        text.push_str(key)?;
        text.push_str(colon)?;
    }
    let start = text.len();
    text.push_str(value)?;
    Ok(Body { text, value: start })
}

/// Returns the piece with the child between two texts on each side.
fn framed(
    alloc: Global,
    span: Span,
    before: (&str, &str),
    body: &Body,
    after: (&str, &str),
) -> Result<Piece, AllocError> {
    let mut text = String::from_str(alloc, before.0)?;
    text.push_str(before.1)?;
    let from = text.len();
    text.push_str(body.text.as_str())?;
    let to = text.len();
    text.push_str(after.0)?;
    text.push_str(after.1)?;
    let value = from.saturating_add(body.value);
    let child = Child {
        span: Span { from, to },
        value,
    };
    Ok(Piece { span, text, child })
}

/// Returns the empty span at the offset.
fn empty_at(offset: usize) -> Span {
    Span {
        from: offset,
        to: offset,
    }
}

/// Returns the span between the brackets of an array or object.
fn inside(container: Span) -> Span {
    let from = container.from.saturating_add(1);
    let to = container.to.saturating_sub(1);
    Span { from, to }
}

/// Returns the span to cut out so that the array or object loses the child at the position: with its
/// comma and the white space that belongs to it. `None` if there is no such child.
///
/// The last child of a row takes the comma before it, so that the row still ends where it did.
pub fn removal(container: Container<'_>, position: usize) -> Option<Span> {
    let child = container.children.get(position)?.span;
    let next = container.children.get(position.saturating_add(1));
    let Some(at) = position.checked_sub(1) else {
        return match next {
            Some(next) => Some(Span {
                from: child.from,
                to: next.span.from,
            }),
            None => Some(inside(container.span)),
        };
    };
    let before = Span {
        from: container.children.get(at)?.span.to,
        to: child.to,
    };
    match next {
        Some(next) => if container.ends_row(child, next.span) {
            Some(before)
        } else {
            Some(Span {
                from: child.from,
                to: next.span.from,
            })
        },
        None => Some(before),
    }
}

impl<'t> Container<'t> {
    /// Returns whether a line ends after the child, which is not the first one on it.
    fn ends_row(&self, child: Span, next: Span) -> bool {
        space_before(self.text, next.from).contains('\n')
            && !space_before(self.text, child.from).contains('\n')
    }
}

/// Returns how many line breaks the text has.
pub fn breaks(text: &str) -> usize {
    text.bytes().filter(|byte| *byte == b'\n').count()
}

/// Returns what is after the last line feed of white space.
fn last_line(space: &str) -> &str {
    match space.rfind('\n') {
        Some(at) => space.get(at.saturating_add(1)..).unwrap_or(""),
        None => space,
    }
}

/// Returns the white space before the offset.
fn space_before(text: &str, offset: usize) -> &str {
    slice(text, trimmed_end(text.as_bytes(), offset), offset)
}
