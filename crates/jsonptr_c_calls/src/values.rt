//! Values of a document.
ghost use Rattle.std.specs.Prelude.{◌≡◌, ◌≤◌, IfErr, IfOk, IsUtf8, OnErr, OnOk, take, length};
ghost use Rattle.serde_json.specs.View.{view};
ghost use Rattle.jsonptr_c_calls.specs.Failures.{Unfound, IsNotPrinted, IsNotQuoted, IsNotRead};
ghost use Rattle.serde_json.specs.Data.{string as json_string};
ghost use Rattle.jsonptr_c_calls.specs.Values.{FindsAtPointer, IsJsonText, FindsTextOf, FindsString};
ghost use Rattle.jsonptr_text_resolve.specs.declared.format.Format.TheVariants.{Compact};

use crate::buffer::copy_to;
use crate::call_error::{Argument, CallError};
use crate::pointers::{parse, text_of};
use jsonptr::Fault;
use jsonptr_text_resolve::Format;
use serde_json::Value;
use std::alloc::{AllocError, Global};

/// Returns the value that the pointer resolves to.
///
/// # Errors
///
/// - Those of [`parse`].
/// - [`CallError::Resolve`] if the pointer does not resolve to a value.
/// - [`CallError::Memory`] if an allocation fails. Only a token that contains `~` needs one.
pub fn find<'v>(alloc: Global, document: &'v Value, pointer: &[u8]) -> Result<&'v Value, CallError>
    ensures found { IfOk result (λ v. FindsAtPointer (view document.now) pointer.now (view v.now)) }
    ensures utf8 { OnOk result (IsUtf8 pointer.now) }
    ensures refused { IfErr result (Unfound (view document.now) pointer.now) }
{
    match parse(pointer)?.resolve(alloc, document) {
        Ok(value) => Ok(value),
        Err(Fault::Refused(error)) => Err(CallError::Resolve(error)),
        Err(Fault::Memory(error)) => Err(CallError::Memory(error)),
    }
}

/// Returns the JSON text of the value.
///
/// # Errors
///
/// [`AllocError`] if an allocation fails.
pub fn json_text(alloc: Global, value: &Value, format: Format) -> Result<Vec<u8>, AllocError>
    ensures { IfOk result (λ text. IsJsonText format (view value.now) text.items) }
{
    match format {
        Format::Compact => value.to_vec(alloc),
        Format::Pretty => value.to_vec_pretty(alloc),
    }
}

/// Copies the JSON text of the value that the pointer resolves to to the buffer, and returns its
/// length.
///
/// # Errors
///
/// Those of [`find`], and [`CallError::NoRoom`] if the buffer is shorter than the text. The buffer is
/// unchanged.
pub fn get(
    alloc: Global,
    document: &Value,
    pointer: &[u8],
    format: Format,
    out: &mut [u8],
) -> Result<usize, CallError>
    ensures printed { IfOk result (λ n.
        FindsTextOf format (view document.now) pointer.now (take n out.new)) }
    ensures fits { IfOk result (λ n. n ≤ length out.new) }
    ensures utf8 { OnOk result (IsUtf8 pointer.now) }
    ensures refused { IfErr result
        (IsNotPrinted format (view document.now) pointer.now (length out.old)) }
    ensures output_unchanged { OnErr result (out.new ≡ out.old) }
{
    let value = find(alloc, document, pointer)?;
    let text = json_text(alloc, value, format)?;
    copy_to(&text, out)
}

/// Copies the string that the pointer resolves to to the buffer, and returns its length in bytes.
///
/// # Errors
///
/// - Those of [`find`].
/// - [`CallError::OtherType`] if the value is not a string.
/// - [`CallError::NoRoom`] if the buffer is shorter than the string.
///
/// The buffer is unchanged.
pub fn string(
    alloc: Global,
    document: &Value,
    pointer: &[u8],
    out: &mut [u8],
) -> Result<usize, CallError>
    ensures string { IfOk result (λ n.
        FindsString (view document.now) pointer.now (take n out.new)) }
    ensures fits { IfOk result (λ n. n ≤ length out.new) }
    ensures utf8 { OnOk result (IsUtf8 pointer.now) }
    ensures refused { IfErr result (IsNotRead (view document.now) pointer.now (length out.old)) }
    ensures output_unchanged { OnErr result (out.new ≡ out.old) }
{
    match find(alloc, document, pointer)?.as_str() {
        Some(text) => copy_to(text.as_bytes(), out),
        None => Err(CallError::OtherType),
    }
}

/// Copies the JSON text of the string to the buffer, with its quotation marks and its escapes, and returns its
/// length.
///
/// # Errors
///
/// - [`CallError::NotUtf8`].
/// - [`CallError::NoRoom`] if the buffer is shorter than the text.
/// - [`CallError::Memory`] if an allocation fails.
///
/// The buffer is unchanged.
///
/// # Examples
///
/// ```rust
/// let mut out = [0u8; 6];
/// assert_eq!(rt; values::quote(alloc, b"a\"b", &mut out).ok(), Some(6));
/// assert_eq!(rt; out, *b"\"a\\\"b\"");
/// ```
pub fn quote(alloc: Global, string: &[u8], out: &mut [u8]) -> Result<usize, CallError>
    ensures quoted { IfOk result (λ n. IsJsonText Compact (json_string string.now) (take n out.new)) }
    ensures fits { IfOk result (λ n. n ≤ length out.new) }
    ensures utf8 { OnOk result (IsUtf8 string.now) }
    ensures refused { IfErr result (IsNotQuoted string.now (length out.old)) }
    ensures output_unchanged { OnErr result (out.new ≡ out.old) }
{
    let value = Value::String(String::from_str(alloc, text_of(Argument::Text, string)?)?);
    copy_to(&json_text(alloc, &value, Format::Compact)?, out)
}
