//! Whether a piece of a text is headers and pairs, from the first to the last.
ghost use Rattle.std.specs.Prelude.{◌≡◌, [], ◌-◌, ◌⊎◌, length, slice_index, IsTrue, IfOk};
ghost use Rattle.jsonptr_toml_edit.specs.Bytes.{IsHeaderLine, IsPairLine, IsItemRun};

use crate::lines::{is_line, is_rest_of_line, starts_key};
use crate::pair::is_some_pair;
use crate::plan::LastItem;
use jsonptr_text_piece::cut::cut_at;
use jsonptr_text_piece::span::Span;
use std::alloc::{AllocError, Global};
use toml_parser::text::{byte_at, first, skip_ws};

/// Returns whether the text begins with a header or a pair, and ends with one and the rest of its line.
///
/// # Errors
///
/// [`AllocError`] if an allocation fails.
pub fn is_run(alloc: Global, text: &str, last: LastItem) -> Result<bool, AllocError>
    ensures { IfOk result (λ is. IsTrue is → IsItemRun text.now) }
{
    let Some((above, line)) = text.split_at_checked(last.line) else {
        return Ok(false);
    };
    if first(skip_ws(text)) != b'[' && !starts_key(text) {
        return Ok(false);
    }
    Ok(ends_line(above) && is_item_line(alloc, line, last.span)?)
}

/// Returns whether what follows the text begins a line.
fn ends_line(text: &str) -> bool
    ensures { IsTrue result
        → (text.now ≡ []) ⊎ (slice_index text.now (length text.now - 1) ≡ 10) }
{
    text.is_empty() || byte_at(text, text.len().saturating_sub(1)) == b'\n'
}

/// Returns whether the text is the line of a header, or the pair at the span with the rest of its line.
fn is_item_line(alloc: Global, line: &str, span: Span) -> Result<bool, AllocError>
    ensures { IfOk result (λ is. IsTrue is → IsHeaderLine line.now ⊎ IsPairLine line.now) }
{
    if first(skip_ws(line)) == b'[' {
        return Ok(is_line(line));
    }
    let Some(cut) = cut_at(line, span.from, span.to) else {
        return Ok(false);
    };
    if !skip_ws(cut.before).is_empty() {
        return Ok(false);
    }
    Ok(is_some_pair(alloc, cut.middle)? && is_rest_of_line(alloc, cut.after)?)
}
