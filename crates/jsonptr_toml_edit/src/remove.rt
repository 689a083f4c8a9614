//! What is cut out to delete a value. These are hints: no contract says that they are right.
use crate::inline::{InlineChild, InlineContainer, container_of};
use crate::items::ItemKind;
use crate::keys::{push_keys, push_pointer};
use crate::outline::{ItemRun, Outline, Role, indent_of, outline_of};
use crate::plan::{EmptiedParent, Keys, RemovalPlan, RemovedChild};
use crate::span::{
    blank_lines_above, comments_above, ends_line, line_start, newline_of, next_line,
    skip_blank_lines, skip_blanks, skip_own_comments, text_start,
};
use jsonptr::{Pointer, PointerBuf};
use jsonptr_text_piece::span::Span;
use std::alloc::{AllocError, Global};
use toml_parser::text::byte_at;

/// Returns what is cut out to delete the value that the pointer resolves to.
///
/// # Errors
///
/// [`AllocError`] if an allocation fails.
pub fn plan_removal(
    alloc: Global,
    text: &str,
    pointer: Pointer<'_>,
) -> Result<Option<RemovalPlan>, AllocError> {
    let outline = outline_of(alloc, text, pointer)?;
    if outline.count() == 0 {
        return Ok(None);
    }
    if let Some(index) = outline.first_with(Role::Exact) {
        return remove_pair(alloc, text, &outline, index);
    }
    if let Some(index) = outline.first_with(Role::Through) {
        return remove_child(alloc, text, &outline, index);
    }
    match outline.run() {
        Some(run) => remove_run(alloc, text, &outline, run),
        None => Ok(None),
    }
}

/// Returns the removal of what is at the span, with the child whose text is at the offsets.
fn removal(span: Span, from: usize, to: usize, left: Option<EmptiedParent>) -> RemovalPlan {
    let child = RemovedChild::Text(Span {
        from: from.saturating_sub(span.from),
        to: to.saturating_sub(span.from),
    });
    RemovalPlan { span, child, left }
}

/// Returns the removal of a pair, with its line.
fn remove_pair(
    alloc: Global,
    text: &str,
    outline: &Outline,
    index: usize,
) -> Result<Option<RemovalPlan>, AllocError> {
    let Some(item) = outline.items.get(index) else {
        return Ok(None);
    };
    let from = outline.table_of(index);
    let (key, value) = (item.key.from, item.value.to);
    let run = ItemRun {
        first: index,
        last: index,
    };
    let span = Span {
        from: item.line,
        to: item.end,
    };
    if outline.is_mentioned(outline.count().saturating_sub(1), run)
        || from.saturating_add(1) >= outline.count()
    {
        return Ok(Some(removal(with_comment(text, span), key, value, None)));
    }
    let left = left_pair(alloc, text, outline, from, index)?;
    Ok(Some(removal(span, key, value, Some(left))))
}

/// Returns the lines with the comment directly above them, if no key follows it directly once they are
/// cut out.
fn with_comment(text: &str, span: Span) -> Span {
    match byte_at(text, skip_blanks(text, span.to)) {
        0 | b'\n' | b'\r' | b'#' | b'[' | b']' | b'}' => Span {
            from: comments_above(text, span.from),
            to: span.to,
        },
        _ => span,
    }
}

/// Returns the pair of the table above the item, which is left empty.
fn left_pair(
    alloc: Global,
    text: &str,
    outline: &Outline,
    from: usize,
    index: usize,
) -> Result<EmptiedParent, AllocError> {
    let count = outline.count().saturating_sub(1);
    let is_array = outline.is_element(count);
    let mut piece = String::new(alloc);
    if let Some(item) = outline.items.get(index) {
        piece.push_str(indent_of(text, item))?;
    }
    push_keys(alloc, &mut piece, &outline.path.tokens, from, count)?;
    piece.push_str(if is_array { " = []" } else { " = {}" })?;
    piece.push_str(newline_of(text))?;
    Ok(EmptiedParent {
        piece,
        keys: Keys::Some(outline.keys_between(alloc, from, count)?),
        is_array,
    })
}

/// Returns the header of the table above the item, which is left empty.
fn left_header(
    alloc: Global,
    text: &str,
    outline: &Outline,
    index: usize,
) -> Result<EmptiedParent, AllocError> {
    let count = outline.count().saturating_sub(1);
    let mut piece = String::new(alloc);
    if let Some(item) = outline.items.get(index) {
        piece.push_str(indent_of(text, item))?;
    }
    let keys = outline.header_keys(alloc, count)?;
    piece.push('[')?;
    push_pointer(alloc, &mut piece, keys.as_ptr())?;
    piece.push(']')?;
    piece.push_str(newline_of(text))?;
    Ok(EmptiedParent {
        piece,
        keys: Keys::Some(keys),
        is_array: false,
    })
}

/// Returns the removal of the items of a table or an array of tables.
fn remove_run(
    alloc: Global,
    text: &str,
    outline: &Outline,
    run: ItemRun,
) -> Result<Option<RemovalPlan>, AllocError> {
    let (Some(first), Some(last)) = (outline.items.get(run.first), outline.items.get(run.last))
    else {
        return Ok(None);
    };
    let above = outline.count().saturating_sub(1);
    let from = outline.table_of(run.first);
    let is_pair = first.kind == ItemKind::Pair;
    let keys = if is_pair {
        outline.last_keys(alloc, from)?
    } else {
        outline.header_keys(alloc, outline.count())?
    };
    if above <= from || outline.is_mentioned(above, run) {
        return Ok(Some(RemovalPlan {
            span: section(text, first.line, last.end),
            child: RemovedChild::Items(keys),
            left: None,
        }));
    }
    let left = if is_pair || outline.is_element(above) {
        let table = if is_pair {
            from
        } else {
            outline.table_above(above)
        };
        left_pair(alloc, text, outline, table, run.first)?
    } else {
        left_header(alloc, text, outline, run.first)?
    };
    let span = Span {
        from: first.line,
        to: last.end,
    };
    Ok(Some(RemovalPlan {
        span,
        child: RemovedChild::Items(keys),
        left: Some(left),
    }))
}

/// Returns the lines of a section, with the comment above it, and the blank lines after it or, at the end
/// of the text, before it. A comment at the start of the text is about the whole text, and stays.
fn section(text: &str, line: usize, end: usize) -> Span {
    let above = comments_above(text, line);
    let from = if above <= text_start(text) {
        line
    } else {
        above
    };
    let to = skip_blank_lines(text, skip_own_comments(text, end));
    if to >= text.len() {
        Span {
            from: blank_lines_above(text, from),
            to,
        }
    } else {
        Span { from, to }
    }
}

/// Returns the removal of an element of an array or a member of an inline table.
fn remove_child(
    alloc: Global,
    text: &str,
    outline: &Outline,
    index: usize,
) -> Result<Option<RemovalPlan>, AllocError> {
    let (Some(item), Some(trace)) = (outline.items.get(index), outline.traces.get(index)) else {
        return Ok(None);
    };
    let Some(container) = container_of(alloc, text, item.value, &outline.path, trace.shared)? else {
        return Ok(None);
    };
    let Some(found) = container.found else {
        return Ok(None);
    };
    if found.count != outline.count() {
        return Ok(None);
    }
    let span = child_span(text, &container, &found.child);
    let whole = found.child.whole;
    Ok(Some(removal(span, whole.from, whole.to, None)))
}

/// Returns what is cut out with a child: its line, if it has one of its own, or its comma.
fn child_span(text: &str, container: &InlineContainer, child: &InlineChild) -> Span {
    let whole = child.whole;
    let line = line_start(text, whole.from);
    let after = child.comma.unwrap_or(whole.to);
    let is_own_line = line > container.span.from && skip_blanks(text, line) == whole.from;
    if is_own_line && ends_line(text, after) {
        let span = Span {
            from: line,
            to: next_line(text, after),
        };
        return with_comment(text, span);
    }
    match container.children.get(child.index.saturating_add(1)) {
        Some(next) => Span {
            from: whole.from,
            to: after.max(skip_blanks(text, after).min(next.whole.from)),
        },
        None => match container.children.get(child.index.saturating_sub(1)) {
            Some(last) if child.index > 0 => Span {
                from: last.whole.to,
                to: whole.to,
            },
            _ => Span {
                from: whole.from,
                to: skip_blanks(text, after),
            },
        },
    }
}
