//! Where a member or an element is put in. These are hints: no contract says that they are right.
use crate::inline_child::add_child;
use crate::items::{ItemKind, TomlItem};
use crate::keys::{index_of, key_text, push_keys, push_token};
use crate::outline::{Outline, Role, indent_of, outline_of};
use crate::piece::{has_headers, section_text};
use crate::plan::{AdditionPlan, Keys, TomlChild};
use crate::span::{
    comments_above, is_blank_line, is_tight, line_start, newline_of, skip_blank_lines,
    skip_comment_lines, skip_own_comments, slice, text_start,
};
use jsonptr::{Pointer, PointerBuf};
use jsonptr_text_piece::span::Span;
use std::alloc::{AllocError, Global};
use toml::Value;
use toml_parser::text::byte_at;

/// Returns how the value is put in at the pointer, which does not resolve.
///
/// # Errors
///
/// [`AllocError`] if an allocation fails.
pub fn plan_addition(
    alloc: Global,
    text: &str,
    document: &Value,
    pointer: Pointer<'_>,
    value: &Value,
) -> Result<Option<AdditionPlan>, AllocError> {
    let outline = outline_of(alloc, text, pointer)?;
    let (count, above) = resolved(document, &outline.path.tokens);
    let is_table = match above {
        Value::Table(_) => true,
        Value::Array(_) => false,
        _ => return Ok(None),
    };
    if outline.first_with(Role::Through).is_some() {
        return add_child(alloc, text, &outline, count, value);
    }
    if is_table {
        add_member(alloc, text, &outline, count, value)
    } else if count.saturating_add(1) == outline.count() && value.is_table() {
        let mut keys = outline.header_keys(alloc, count)?;
        push_token(alloc, &mut keys, "-")?;
        add_section(alloc, text, gap_of(text, &outline, count), keys, value)
    } else {
        Ok(None)
    }
}

/// Returns how many tokens lead to a value, and that value.
fn resolved<'v>(document: &'v Value, tokens: &Vec<String>) -> (usize, &'v Value) {
    let mut here = document;
    let mut count = 0usize;
    for token in tokens {
        match child_of(here, token.as_str()) {
            Some(child) => here = child,
            None => break,
        }
        count = count.saturating_add(1);
    }
    (count, here)
}

/// Returns the child of the value that the token names.
fn child_of<'v>(value: &'v Value, token: &str) -> Option<&'v Value> {
    match value {
        Value::Table(table) => table.get(token),
        Value::Array(elements) => elements.get(index_of(token)?),
        _ => None,
    }
}

/// Returns how a member is added to the table that so many tokens lead to, which is not an inline
/// table.
fn add_member(
    alloc: Global,
    text: &str,
    outline: &Outline,
    count: usize,
    value: &Value,
) -> Result<Option<AdditionPlan>, AllocError> {
    let is_deep = count.saturating_add(1) < outline.count();
    let is_home = count == 0 || outline.has_header(count);
    let is_section = (is_deep || has_headers(value)) && prefers_headers(text, outline, count);
    let sibling = if is_home {
        last_pair(outline, count)
    } else {
        last_dotted(outline, count)
    };
    if is_section || !(is_home || sibling.is_some()) {
        let keys = outline.header_keys(alloc, outline.count())?;
        return add_section(alloc, text, gap_of(text, outline, count), keys, value);
    }
    let from = match sibling {
        Some(index) if !is_home => outline.table_of(index),
        _ => count,
    };
    let line = Line {
        sibling,
        from,
        count,
    };
    add_line(alloc, text, outline, &line, value)
}

/// Returns whether tables in the table that so many tokens lead to have headers.
fn prefers_headers(text: &str, outline: &Outline, count: usize) -> bool {
    let mut has_inline = false;
    for (item, trace) in outline.items.iter().zip(outline.traces.iter()) {
        if trace.shared < count {
            continue;
        }
        if item.kind == ItemKind::Pair {
            let is_inline = byte_at(text, item.value.from) == b'{' || is_dotted_key(text, item);
            has_inline = has_inline || (is_inline && trace.table == Some(count));
        } else if trace.role != Role::Above || trace.shared > count {
            return true;
        }
    }
    count == 0 && !has_inline
}

/// Returns whether the key of the item has a dot.
fn is_dotted_key(text: &str, item: &TomlItem) -> bool {
    slice(text, item.key).contains('.')
}

/// Returns the last pair of the table that so many tokens lead to, or its header if it has no pair.
fn last_pair(outline: &Outline, count: usize) -> Option<usize> {
    let traces = outline.traces.as_slice();
    let pair = traces.iter().rposition(|trace| trace.table == Some(count));
    if pair.is_some() || count == 0 {
        return pair;
    }
    traces
        .iter()
        .rposition(|trace| trace.role == Role::Above && trace.shared == count)
}

/// Returns the last pair whose dotted key leads along at least so many tokens.
fn last_dotted(outline: &Outline, count: usize) -> Option<usize> {
    outline
        .traces
        .iter()
        .rposition(|trace| trace.table.is_some() && trace.shared >= count)
}

/// A line for a pair.
#[derive(Clone, Copy, Debug)]
struct Line {
    /// The item that it comes after.
    sibling: Option<usize>,
    /// The number of the first token of its key.
    from: usize,
    /// How many tokens lead to the table that it is added to.
    count: usize,
}

/// Returns how the line of a pair is added.
fn add_line(
    alloc: Global,
    text: &str,
    outline: &Outline,
    line: &Line,
    value: &Value,
) -> Result<Option<AdditionPlan>, AllocError> {
    let sibling = line.sibling.and_then(|index| outline.items.get(index));
    let at = match sibling {
        Some(item) => item.end,
        None => after_first_comment(text),
    };
    let mut piece = lines_of(alloc, text, outline, line, value)?;
    if sibling.is_none() && at < text.len() && !is_blank_line(text, at) {
        piece.push_str(newline_of(text))?;
    }
    let keys = outline.last_keys(alloc, line.from)?;
    Ok(Some(whole_lines(alloc, text, at, piece, keys)?))
}

/// Returns the offset after the comment at the start of the text, and the blank lines after that.
fn after_first_comment(text: &str) -> usize {
    let start = text_start(text);
    let end = skip_comment_lines(text, start);
    if end == start {
        start
    } else {
        skip_blank_lines(text, end)
    }
}

/// Returns the line of a pair, or a line for each of its members where its siblings have dotted keys.
fn lines_of(
    alloc: Global,
    text: &str,
    outline: &Outline,
    line: &Line,
    value: &Value,
) -> Result<String, AllocError> {
    let sibling = line.sibling.and_then(|index| outline.items.get(index));
    let mut start = String::new(alloc);
    if let Some(item) = sibling {
        start.push_str(indent_of(text, item))?;
    }
    push_keys(
        alloc,
        &mut start,
        &outline.path.tokens,
        line.from,
        outline.count(),
    )?;
    let equals = equals_of(text, sibling);
    match value {
        Value::Table(table) if !table.is_empty() && is_spread(text, outline, line) => {
            let mut lines = String::new(alloc);
            for (key, member) in table.iter() {
                lines.push_str(start.as_str())?;
                lines.push('.')?;
                lines.push_str(key_text(alloc, key.as_str())?.as_str())?;
                push_value(alloc, &mut lines, equals, member, newline_of(text))?;
            }
            Ok(lines)
        }
        _ => {
            push_value(alloc, &mut start, equals, value, newline_of(text))?;
            Ok(start)
        }
    }
}

/// Adds what follows the key of a pair, and the line break.
fn push_value(
    alloc: Global,
    line: &mut String,
    equals: &str,
    value: &Value,
    newline: &str,
) -> Result<(), AllocError> {
    line.push_str(equals)?;
    line.push_str(value.to_string(alloc)?.as_str())?;
    line.push_str(newline)
}

/// Returns whether tables beside the line have dotted keys.
fn is_spread(text: &str, outline: &Outline, line: &Line) -> bool {
    if line.from < line.count {
        return true;
    }
    let pairs = outline.items.iter().zip(outline.traces.iter());
    for (item, trace) in pairs {
        if trace.table == Some(line.count) && is_dotted_key(text, item) {
            return true;
        }
    }
    false
}

/// Returns the equals sign of the item, with the white space that is usual there.
fn equals_of(text: &str, sibling: Option<&TomlItem>) -> &'static str {
    match sibling {
        Some(item) if item.kind == ItemKind::Pair && is_tight(text, item.key, item.value) => "=",
        _ => " = ",
    }
}

/// Where headers and pairs are added.
#[derive(Clone, Copy, Debug)]
struct Gap {
    /// The offset.
    at: usize,
    /// Whether blank lines are wanted around them.
    is_spaced: bool,
}

/// Returns where headers and pairs are added to the table that so many tokens lead to.
fn gap_of(text: &str, outline: &Outline, count: usize) -> Gap {
    Gap {
        at: section_end(text, outline, count),
        is_spaced: is_spaced(text, outline),
    }
}

/// Returns how headers and pairs are added that hold the value at the keys.
fn add_section(
    alloc: Global,
    text: &str,
    gap: Gap,
    keys: PointerBuf,
    value: &Value,
) -> Result<Option<AdditionPlan>, AllocError> {
    let Gap { at, is_spaced } = gap;
    let newline = newline_of(text);
    let Some(section) = section_text(alloc, keys.as_ptr(), value, newline)? else {
        return Ok(None);
    };
    let mut piece = String::new(alloc);
    let above = line_start(text, at.saturating_sub(1));
    if is_spaced && at > text_start(text) && !is_blank_line(text, above) {
        piece.push_str(newline)?;
    }
    piece.push_str(section.as_str())?;
    if is_spaced && at < text.len() && !is_blank_line(text, at) {
        piece.push_str(newline)?;
    }
    Ok(Some(whole_lines(alloc, text, at, piece, keys)?))
}

/// Returns whether the last header has a blank line above it, with the comment there. Without headers
/// that is wanted.
fn is_spaced(text: &str, outline: &Outline) -> bool {
    match outline
        .items
        .iter()
        .rposition(|item| item.kind != ItemKind::Pair)
    {
        Some(index) => match outline.items.get(index) {
            Some(item) if index > 0 => {
                let line = comments_above(text, item.line);
                is_blank_line(text, line_start(text, line.saturating_sub(1)))
            }
            _ => true,
        },
        None => true,
    }
}

/// Returns the offset at which a table is added to the table that so many tokens lead to.
fn section_end(text: &str, outline: &Outline, count: usize) -> usize {
    if count == 0 {
        return text.len();
    }
    match outline
        .last_sharing(count)
        .and_then(|index| outline.items.get(index))
    {
        Some(item) => skip_own_comments(text, item.end),
        None => text.len(),
    }
}

/// Returns the addition of whole lines at the offset. At the end of a text without a line break there,
/// the break comes before them.
fn whole_lines(
    alloc: Global,
    text: &str,
    at: usize,
    lines: String,
    keys: PointerBuf,
) -> Result<AdditionPlan, AllocError> {
    let is_broken = at > text_start(text) && byte_at(text, at.saturating_sub(1)) != b'\n';
    let rest = if is_broken {
        let mut rest = String::from_str(alloc, newline_of(text))?;
        let line = lines.as_str().strip_suffix('\n').unwrap_or(lines.as_str());
        rest.push_str(line.strip_suffix('\r').unwrap_or(line))?;
        rest
    } else {
        lines
    };
    let child = TomlChild {
        span: Span {
            from: 0,
            to: rest.len(),
        },
        keys: Keys::Some(keys),
    };
    Ok(AdditionPlan {
        span: Span { from: at, to: at },
        lead: String::new(alloc),
        rest,
        child,
    })
}
