//! The strings of a text, with their escapes as they are written.
ghost use Rattle.std.specs.Prelude.{◌≡◌, IfOk, string_bytes};
ghost use Rattle.json.specs.Lex.{tokens as lexed};

use jsonptr_text_check::one_child::is_value_of;
use jsonptr_text_layout::value_text::ValueText;
use jsonptr_text_piece::buffers::Buffers;
use jsonptr_text_piece::span::{Span, slice};
use std::alloc::{AllocError, Global};

/// Returns the text, whose last tokens are those of `written`, with each of their strings as it is written
/// there. Brackets may follow them. Returns the text itself if that fails.
///
/// # Errors
///
/// [`AllocError`] if an allocation fails.
pub fn as_written(alloc: Global, printed: ValueText, written: &str) -> Result<ValueText, AllocError>
    ensures { IfOk result (λ t. lexed (string_bytes t.flat) ≡ lexed (string_bytes printed.flat)) }
{
    if has_escape(written) {
        with_escapes(alloc, printed, written)
    } else {
        Ok(printed)
    }
}

/// Does what [`as_written`] does, for a text that may have escapes. If the flat text has them already, no text
/// is read. Its buffers are large locals, which each call clears.
#[inline(never)]
fn with_escapes(alloc: Global, printed: ValueText, written: &str) -> Result<ValueText, AllocError>
    ensures { IfOk result (λ t. lexed (string_bytes t.flat) ≡ lexed (string_bytes printed.flat)) }
{
    let flat = with_strings(alloc, printed.flat.as_str(), written)?;
    let lines = with_strings(alloc, printed.lines.as_str(), written)?;
    if flat.as_str() == printed.flat.as_str() {
        let ValueText { flat: same, .. } = printed;
        return Ok(ValueText { flat: same, lines });
    }
    let mut buffers = Buffers::new(alloc);
    if is_value_of(&mut buffers, flat.as_str(), printed.flat.as_str())? {
        Ok(ValueText { flat, lines })
    } else {
        Ok(printed)
    }
}

/// Returns whether a string of the text may have an escape.
fn has_escape(text: &str) -> bool {
    text.contains('\\')
}

/// Returns the text with its last strings replaced by those of the other one, in order.
fn with_strings(alloc: Global, text: &str, written: &str) -> Result<String, AllocError> {
    let own = strings_in(alloc, written)?;
    let spans = strings_in(alloc, text)?;
    let others = spans.len().saturating_sub(own.len());
    let mut new = String::new(alloc);
    let mut end = 0usize;
    for (index, span) in spans.iter().enumerate() {
        new.push_str(slice(text, end, span.from))?;
        match index.checked_sub(others) {
            Some(position) => new.push_str(string_at(written, &own, position))?,
            None => new.push_str(slice(text, span.from, span.to))?,
        }
        end = span.to;
    }
    new.push_str(slice(text, end, text.len()))?;
    Ok(new)
}

/// Returns the string at the position, or an empty text if there is none.
fn string_at<'t>(text: &'t str, strings: &[Span], position: usize) -> &'t str {
    match strings.get(position) {
        Some(span) => slice(text, span.from, span.to),
        None => "",
    }
}

/// Returns where the strings of the text are, with their quotation marks.
fn strings_in(alloc: Global, text: &str) -> Result<Vec<Span>, AllocError> {
    let mut spans = Vec::new(alloc);
    let mut from = 0usize;
    let mut is_inside = false;
    let mut is_escaped = false;
    for (offset, byte) in text.as_bytes().iter().enumerate() {
        if is_escaped {
            is_escaped = false;
        } else if *byte == b'"' {
            if is_inside {
                let to = offset.saturating_add(1);
                spans.push(Span { from, to })?;
            }
            from = offset;
            is_inside = !is_inside;
        } else {
            is_escaped = is_inside && *byte == b'\\';
        }
    }
    Ok(spans)
}
