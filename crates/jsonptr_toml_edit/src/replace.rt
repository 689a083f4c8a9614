//! Where the text of a value is, to replace it. These are hints: no contract says that they are right.
use crate::alone::{empty_table, holds};
use crate::inline::container_of;
use crate::items::{ItemKind, TomlItem};
use crate::keys::{push_keys, push_pointer};
use crate::outline::{ItemRun, Outline, Role, indent_of, outline_of};
use crate::piece::{has_headers, section_text};
use crate::plan::{LastItem, ReplacedItems, ReplacementPlan};
use crate::span::{newline_of, slice};
use jsonptr::{Pointer, PointerBuf};
use jsonptr_text_piece::span::Span;
use std::alloc::{AllocError, Global};
use toml::Value;

/// Returns how the text of the value that the pointer resolves to is replaced.
///
/// # Errors
///
/// [`AllocError`] if an allocation fails.
pub fn plan_replacement(
    alloc: Global,
    text: &str,
    pointer: Pointer<'_>,
    value: &Value,
) -> Result<Option<ReplacementPlan>, AllocError> {
    let outline = outline_of(alloc, text, pointer)?;
    if outline.count() == 0 {
        return Ok(None);
    }
    if let Some(span) = value_span(alloc, text, &outline)? {
        return Ok(Some(ReplacementPlan {
            span,
            piece: value.to_string(alloc)?,
            items: None,
        }));
    }
    match outline.run() {
        Some(run) => replace_run(alloc, text, &outline, run, value),
        None => Ok(None),
    }
}

/// Returns where the text of the value is, if it is written as a value.
fn value_span(alloc: Global, text: &str, outline: &Outline) -> Result<Option<Span>, AllocError> {
    if let Some(index) = outline.first_with(Role::Exact) {
        return Ok(outline.items.get(index).map(|item| item.value));
    }
    let Some(index) = outline.first_with(Role::Through) else {
        return Ok(None);
    };
    let (Some(item), Some(trace)) = (outline.items.get(index), outline.traces.get(index)) else {
        return Ok(None);
    };
    let Some(container) = container_of(alloc, text, item.value, &outline.path, trace.shared)? else {
        return Ok(None);
    };
    match container.found {
        Some(found) if found.count == outline.count() => Ok(Some(found.child.value)),
        _ => Ok(None),
    }
}

/// Returns how the items of a table or an array of tables are replaced.
fn replace_run(
    alloc: Global,
    text: &str,
    outline: &Outline,
    run: ItemRun,
    value: &Value,
) -> Result<Option<ReplacementPlan>, AllocError> {
    let (Some(first), Some(last)) = (outline.items.get(run.first), outline.items.get(run.last))
    else {
        return Ok(None);
    };
    let span = Span {
        from: first.line,
        to: last.end,
    };
    let is_pair = first.kind == ItemKind::Pair;
    let keys = if is_pair {
        outline.last_keys(alloc, outline.table_of(run.first))?
    } else {
        outline.header_keys(alloc, outline.count())?
    };
    let Some(written) = (if !is_pair && needs_header(outline, value) {
        section_of(alloc, text, outline, first, value)?
    } else {
        Some(pair_of(alloc, text, outline, run.first, value)?)
    }) else {
        return Ok(None);
    };
    let Written {
        keys: new_keys,
        piece,
    } = written;
    let is_last = !slice(text, span).ends_with('\n');
    Ok(Some(ReplacementPlan {
        span,
        piece: ended(alloc, piece, is_last)?,
        items: Some(ReplacedItems {
            old_keys: keys,
            new_keys,
            last: LastItem {
                line: last.line.saturating_sub(first.line),
                span: Span {
                    from: last.key.from.saturating_sub(last.line),
                    to: last.value.to.saturating_sub(last.line),
                },
            },
        }),
    }))
}

/// Returns whether the value is written below a header: if it is a table or an array of tables, or if
/// the table that it is in has no header to put a pair below.
fn needs_header(outline: &Outline, value: &Value) -> bool {
    let above = outline.count().saturating_sub(1);
    value.is_table() || has_headers(value) || (above > 0 && !outline.has_header(above))
}

/// Headers and pairs, and the keys at which they hold a value.
#[derive(Debug, Drop)]
struct Written {
    keys: PointerBuf,
    piece: String,
}

/// Returns headers and pairs that hold the value, below the header of the item if that is its own.
fn section_of(
    alloc: Global,
    text: &str,
    outline: &Outline,
    first: &TomlItem,
    value: &Value,
) -> Result<Option<Written>, AllocError> {
    let keys = outline.header_keys(alloc, outline.count())?;
    let Some(section) = section_text(alloc, keys.as_ptr(), value, newline_of(text))? else {
        return Ok(None);
    };
    let line = Span {
        from: first.line,
        to: first.end,
    };
    let mut header = String::from_str(alloc, "[")?;
    push_pointer(alloc, &mut header, keys.as_ptr())?;
    header.push(']')?;
    header.push_str(newline_of(text))?;
    let body = match section.as_str().strip_prefix(header.as_str()) {
        Some(body) if holds(alloc, slice(text, line), keys.as_ptr(), &empty_table(alloc))? => body,
        _ => {
            return Ok(Some(Written {
                keys,
                piece: section,
            }));
        }
    };
    let mut piece = String::from_str(alloc, slice(text, line))?;
    piece.push_str(body)?;
    Ok(Some(Written { keys, piece }))
}

/// Returns the line of a pair that holds the value, instead of the item: with the tokens from its table
/// on, or with the last one instead of a header.
fn pair_of(
    alloc: Global,
    text: &str,
    outline: &Outline,
    index: usize,
    value: &Value,
) -> Result<Written, AllocError> {
    let mut piece = String::new(alloc);
    let mut from = outline.count().saturating_sub(1);
    if let Some(item) = outline.items.get(index) {
        piece.push_str(indent_of(text, item))?;
        if item.kind == ItemKind::Pair {
            from = outline.table_of(index);
        }
    }
    push_keys(
        alloc,
        &mut piece,
        &outline.path.tokens,
        from,
        outline.count(),
    )?;
    piece.push_str(" = ")?;
    piece.push_str(value.to_string(alloc)?.as_str())?;
    piece.push_str(newline_of(text))?;
    let keys = outline.last_keys(alloc, from)?;
    Ok(Written { keys, piece })
}

/// Returns the text, at the end of a text without a line break at its end.
fn ended(alloc: Global, text: String, is_last: bool) -> Result<String, AllocError> {
    if !is_last {
        return Ok(text);
    }
    let line = text.as_str().strip_suffix('\n').unwrap_or(text.as_str());
    String::from_str(alloc, line.strip_suffix('\r').unwrap_or(line))
}
