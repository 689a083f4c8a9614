//! Reading and printing the text of a value, and expanding it.
ghost use Rattle.std.specs.Prelude.{◌≡◌, ◌≤◌, ◌<◌, Some, IfOk, IfErr, IfSome, MatchOption, string_bytes};
ghost use Rattle.json.specs.Lex.{tokens as lexed};
ghost use Rattle.serde_json.specs.Data.{Data, depth};
ghost use Rattle.serde_json.specs.Read.{read, max_depth};
ghost use Rattle.serde_json.specs.View.{view};
ghost use Rattle.jsonptr.specs.Pointer.{tokens};
ghost use Rattle.jsonptr.specs.Json.{nodes};
ghost use Rattle.jsonptr_value.specs.Reading.{IsReadError};
ghost use Rattle.jsonptr_text_value.specs.Raw.{value_of_raw};
ghost use Rattle.jsonptr_text_value.specs.Wrapping.{IsExpanded};
ghost use Rattle.jsonptr_text_value.specs.Wrapping.{wrapped};

use crate::as_written::as_written;
use crate::raw_value::RawValue;
use crate::wrap::expanded;
use jsonptr::Pointer;
use jsonptr_text_layout::value_text::{ValueText, text_of_value};
use jsonptr_text_resolve::{Format, Scratch, format_both, format_text, is_document};
use jsonptr_value::{MAX_DEPTH, ReadError, nests_within};
use serde_json::Value;
use std::alloc::{AllocError, Global};

impl RawValue {
    /// Reads a JSON text.
    ///
    /// Its tokens stay as they are written, with the escapes of its strings. Only the white space
    /// between them goes. Reads the text twice, and once more for escapes that would not be printed.
    ///
    /// # Errors
    ///
    /// - [`ReadError::NotJson`] if `serde_json` does not read the text.
    /// - [`ReadError::Memory`] if an allocation fails.
    ///
    /// # Examples
    ///
    /// ```rust
    /// let price = RawValue::parse(alloc, "{\"price\": 1.10, \"currency\": \"EUR\"}")?;
    /// assert_eq!(rt; price.printed.flat.as_str(), "{\"price\":1.10,\"currency\":\"EUR\"}");
    /// let name = RawValue::parse(alloc, "\"caf\\u00e9\"")?;
    /// assert_eq!(rt; name.printed.flat.as_str(), "\"caf\\u00e9\"");
    /// ```
    pub fn parse(alloc: Global, text: &str) -> Result<RawValue, ReadError>
        ensures value { IfOk result (λ r. read text.now ≡ Some (value_of_raw r)) }
        ensures same { IfOk result (λ r. lexed (string_bytes r.printed.flat) ≡ lexed text.now) }
        ensures refused { IfErr result (IsReadError text.now) }
    {
        let mut scratch = Scratch::new(alloc);
        let is_json = is_document(&mut scratch, text)?;
        if !is_json {
            return Err(ReadError::NotJson);
        }
        let Some(both) = format_both(alloc, &mut scratch, text)? else {
            return Err(ReadError::NotJson);
        };
        let formatted = ValueText {
            flat: both.compact,
            lines: both.pretty,
        };
        let own = as_written(alloc, formatted, text)?;
        Ok(RawValue { printed: own })
    }

    /// Returns the value.
    ///
    /// # Errors
    ///
    /// [`AllocError`] if an allocation fails.
    ///
    /// # Examples
    ///
    /// ```rust
    /// let value = RawValue::parse(alloc, "[1.10, 2]")?.to_value(alloc)?;
    /// assert_eq!(rt; value.to_string(alloc)?.as_str(), "[1.1,2]");
    /// ```
    pub fn to_value(&self, alloc: Global) -> Result<Value, AllocError>
        ensures { IfOk result (λ v. view v ≡ value_of_raw self.now) }
    {
        match Value::from_str(alloc, self.printed.flat.as_str()) {
            Ok(value) => Ok(value),
            // The text is JSON, so an allocation failed.
            Err(_error) => Err(AllocError),
        }
    }

    /// Prints a value. Returns `None` if it nests deeper than 127, so that no text of it is read.
    ///
    /// # Errors
    ///
    /// [`AllocError`] if an allocation fails.
    ///
    /// # Examples
    ///
    /// ```rust
    /// let name = Value::String(String::from_str(alloc, "Ada \"L\"")?);
    /// let raw = RawValue::from_value(alloc, &name)?;
    /// assert!(rt; raw.is_some_and(|raw| raw.printed.flat.as_str() == "\"Ada \\\"L\\\"\""));
    /// ```
    pub fn from_value(alloc: Global, value: &Value) -> Result<Option<RawValue>, AllocError>
        ensures { IfOk result (λ o. MatchOption o (max_depth < depth (view value.now))
            (λ r. value_of_raw r ≡ view value.now)) }
    {
        if nests_within(value, MAX_DEPTH) {
            Ok(Some(RawValue::print(alloc, value)?))
        } else {
            Ok(None)
        }
    }

    /// Prints a value.
    fn print(alloc: Global, value: &Value) -> Result<RawValue, AllocError>
        requires { depth (view value.now) ≤ max_depth }
        ensures { IfOk result (λ r. value_of_raw r ≡ view value.now) }
    {
        let printed = text_of_value(alloc, value)?;
        Ok(RawValue { printed })
    }
}

/// Returns the text of the value, expanded by the tokens of the pointer, or `None` if that nests too
/// deep to be read.
///
/// # Errors
///
/// [`AllocError`] if an allocation fails.
pub fn expanded_text(
    alloc: Global,
    scratch: &mut Scratch,
    pointer: Pointer<'_>,
    raw: &RawValue,
) -> Result<Option<ValueText>, AllocError>
    ensures value { IfOk result (λ text. IfSome text
        (IsExpanded (tokens pointer.entry) (nodes (value_of_raw raw.now)))) }
    ensures same { IfOk result (λ text. IfSome text (λ t. lexed (string_bytes t.flat)
        ≡ wrapped (tokens pointer.entry) (lexed (string_bytes raw.now.printed.flat)))) }
{
    if pointer.count() > MAX_DEPTH {
        return Ok(None);
    }
    let Some(flat) = expanded(alloc, scratch, raw.printed.flat.as_str(), pointer)? else {
        return Ok(None);
    };
    lay_out(alloc, scratch, flat, raw.printed.flat.as_str())
}

/// Returns the text in both layouts, its last strings as they are written. Returns `None` if it is not
/// JSON.
fn lay_out(
    alloc: Global,
    scratch: &mut Scratch,
    flat: String,
    written: &str,
) -> Result<Option<ValueText>, AllocError>
    ensures same { IfOk result (λ text. IfSome text
        (λ t. lexed (string_bytes t.flat) ≡ lexed (string_bytes flat))) }
    ensures reads { IfOk result (λ text. IfSome text
        (λ t. (e : Data) × (read (string_bytes t.flat) ≡ Some e))) }
{
    match format_text(alloc, scratch, flat.as_str(), Format::Pretty) {
        Ok(lines) => {
            let own = as_written(alloc, ValueText { flat, lines }, written)?;
            Ok(Some(own))
        }
        Err(ReadError::NotJson) => Ok(None),
        Err(ReadError::Memory(error)) => Err(error),
    }
}
