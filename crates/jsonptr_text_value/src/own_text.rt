//! The text of a value, beside the value.
ghost use Rattle.std.specs.Prelude.{◌≡◌, Some, IfOk, IfSome, IsTrue, string_bytes};
ghost use Rattle.json.specs.Lex.{tokens as lexed};
ghost use Rattle.serde_json.specs.Read.{read};
ghost use Rattle.serde_json.specs.View.{view};
ghost use Rattle.jsonptr_text_value.specs.Raw.{value_of_raw};

use crate::as_written::as_written;
use crate::raw_value::RawValue;
use jsonptr_text_layout::value_text::ValueText;
use jsonptr_text_resolve::{Scratch, format_both};
use jsonptr_text_search::decide::is_text;
use jsonptr_value::{MAX_DEPTH, if_json, nests_within};
use serde_json::Value;
use std::alloc::{AllocError, Global};

impl RawValue {
    /// Returns the text of the value as it is written, or `None` if `text` is not read as the value.
    ///
    /// Reads the text once and prints the value once. If that is not the text, as `1.1` for `1.10`, the text
    /// is read once more, and what it is read as is printed.
    ///
    /// # Errors
    ///
    /// [`AllocError`] if an allocation fails.
    pub(crate) fn of_value_in(
        alloc: Global,
        scratch: &mut Scratch,
        text: &str,
        value: &Value,
    ) -> Result<Option<RawValue>, AllocError>
        ensures value { IfOk result (λ found. IfSome found (λ raw. value_of_raw raw ≡ view value.now)) }
        ensures same { IfOk result (λ found. IfSome found
            (λ raw. lexed (string_bytes raw.printed.flat) ≡ lexed text.now)) }
    {
        let Some(both) = format_both(alloc, scratch, text)? else {
            return Ok(None);
        };
        let is_own = is_read_as(alloc, both.compact.as_str(), value)?;
        if !is_own {
            return Ok(None);
        }
        let formatted = ValueText {
            flat: both.compact,
            lines: both.pretty,
        };
        let printed = as_written(alloc, formatted, text)?;
        Ok(Some(RawValue { printed }))
    }
}

/// Returns whether the text is read as the value. The value is printed, and if that is not the text, so is
/// what the text is read as.
///
/// # Errors
///
/// [`AllocError`] if an allocation fails.
pub fn is_read_as(alloc: Global, text: &str, value: &Value) -> Result<bool, AllocError>
    ensures { IfOk result (λ b. IsTrue b → read text.now ≡ Some (view value.now)) }
{
    let Some(own) = flat_text(alloc, value)? else {
        return Ok(false);
    };
    if is_text(own.as_str(), text) {
        return Ok(true);
    }
    let Some(again) = if_json(jsonptr_value::read(alloc, text))? else {
        return Ok(false);
    };
    let Some(other) = flat_text(alloc, &again)? else {
        return Ok(false);
    };
    Ok(is_text(own.as_str(), other.as_str()))
}

/// Prints the value on one line. Returns `None` if it nests too deep to be read.
fn flat_text(alloc: Global, value: &Value) -> Result<Option<String>, AllocError>
    ensures { IfOk result (λ text. IfSome text
        (λ t. read (string_bytes t) ≡ Some (view value.now))) }
{
    if !nests_within(value, MAX_DEPTH) {
        return Ok(None);
    }
    Ok(Some(value.to_string(alloc)?))
}
