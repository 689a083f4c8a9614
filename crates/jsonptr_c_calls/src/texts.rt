//! Calls on a JSON text.
ghost use Rattle.std.specs.Prelude.{◌≡◌, ◌≤◌, IfErr, IfOk, IfSome, IsUtf8, MatchOption, OnErr, OnOk, Some, length, take};
ghost use Rattle.serde_json.specs.Data.{Data};
ghost use Rattle.serde_json.specs.Read.{read as read_text};
ghost use Rattle.jsonptr_text_digits.specs.Digits.{KeepsDigits};
ghost use Rattle.jsonptr_text_digits.specs.Lost.{Loses};
ghost use Rattle.jsonptr_text_digits.specs.declared.lost.Lost.{Lost as SpecLost};
ghost use Rattle.jsonptr_c_calls.specs.Exactness.{IsNotPointedTo, LacksPointerOfNumber, PointsTo};
ghost use Rattle.jsonptr_c_calls.specs.InTexts.{FindsAtPointerInText, FindsTextIn, IsNotInText, IsNotPrintedFrom};

use crate::buffer::copy_to;
use crate::call_error::{Argument, CallError};
use crate::pointers::{parse, text_of};
use crate::read::{lost_of, read, stop};
use crate::values::json_text;
use jsonptr_text_digits::Lost;
use jsonptr_text_resolve::{Format, InTextError, resolve_in_text};
use serde_json::Value;
use std::alloc::Global;

/// Returns the value that the pointer resolves to in the document that the text is.
///
/// # Errors
///
/// - Those of [`parse`], for the pointer.
/// - [`CallError::NotUtf8`] and [`CallError::NotJson`], for the text. It is read again to find where
///   reading stops.
/// - [`CallError::Resolve`] if the pointer does not resolve to a value.
/// - [`CallError::Memory`] if an allocation fails.
fn find_in(alloc: Global, text: &[u8], pointer: &[u8]) -> Result<Value, CallError>
    ensures found { IfOk result (FindsAtPointerInText text.now pointer.now) }
    ensures pointer_utf8 { OnOk result (IsUtf8 pointer.now) }
    ensures text_utf8 { OnOk result (IsUtf8 text.now) }
    ensures refused { IfErr result (IsNotInText text.now pointer.now) }
{
    let pointer = parse(pointer)?;
    let text = text_of(Argument::Text, text)?;
    match resolve_in_text(alloc, text, pointer) {
        Ok(value) => Ok(value),
        Err(InTextError::NotJson) => Err(CallError::NotJson {
            offset: stop(alloc, text)?,
        }),
        Err(InTextError::Resolve(error)) => Err(CallError::Resolve(error)),
        Err(InTextError::Memory(error)) => Err(CallError::Memory(error)),
    }
}

/// Copies the JSON text of the value that the pointer resolves to to the buffer, and returns its
/// length. The text is read in one pass.
///
/// # Errors
///
/// - [`CallError::NotUtf8`] and [`CallError::NotPointer`], for the pointer.
/// - [`CallError::NotUtf8`] and [`CallError::NotJson`], for the text. It is read again to find where
///   reading stops.
/// - [`CallError::Resolve`] if the pointer does not resolve to a value.
/// - [`CallError::NoRoom`] if the buffer is shorter than the text of the value.
/// - [`CallError::Memory`] if an allocation fails.
///
/// The buffer is unchanged.
///
/// # Examples
///
/// ```rust
/// let mut out = [0u8; 8];
/// let printed = resolve(alloc, b"{\"a\": [1, 2]}", b"/a", Format::Compact, &mut out);
/// assert_eq!(rt; printed.ok(), Some(5));
/// assert!(rt; out.starts_with(b"[1,2]"));
/// ```
pub fn resolve(
    alloc: Global,
    text: &[u8],
    pointer: &[u8],
    format: Format,
    out: &mut [u8],
) -> Result<usize, CallError>
    ensures printed { IfOk result (λ n. FindsTextIn format text.now pointer.now (take n out.new)) }
    ensures fits { IfOk result (λ n. n ≤ length out.new) }
    ensures pointer_utf8 { OnOk result (IsUtf8 pointer.now) }
    ensures text_utf8 { OnOk result (IsUtf8 text.now) }
    ensures refused { IfErr result (IsNotPrintedFrom format text.now pointer.now (length out.old)) }
    ensures output_unchanged { OnErr result (out.new ≡ out.old) }
{
    match find_in(alloc, text, pointer) {
        Ok(value) => copy_to(&json_text(alloc, &value, format)?, out),
        Err(call_error) => Err(call_error),
    }
}

/// Copies the pointer of the first number of the JSON text that loses digits to the buffer, and
/// returns its length, or `None` if each number keeps its digits.
///
/// # Errors
///
/// - [`CallError::NotUtf8`] and [`CallError::NotJson`].
/// - [`CallError::NotExact`] if that number has no pointer: the key of a member that it is in comes again.
/// - [`CallError::NoRoom`] if the buffer is shorter than the pointer.
/// - [`CallError::Memory`] if an allocation fails.
///
/// The buffer is unchanged.
///
/// # Examples
///
/// ```rust
/// let mut out = [0u8; 8];
/// let found = lost_number(alloc, b"{\"a\": [1.10, 1e-400]}", &mut out);
/// assert_eq!(rt; found.ok(), Some(Some(4)));
/// assert!(rt; out.starts_with(b"/a/1"));
/// assert_eq!(rt; lost_number(alloc, b"[1.10]", &mut out).ok(), Some(None));
/// ```
pub fn lost_number(alloc: Global, text: &[u8], out: &mut [u8]) -> Result<Option<usize>, CallError>
    ensures found { IfOk result (λ o. MatchOption o (KeepsDigits text.now)
        (λ n. (lost : SpecLost) × Loses text.now lost × PointsTo (take n out.new) lost)) }
    ensures fits { IfOk result (λ o. IfSome o (λ n. n ≤ length out.new)) }
    ensures read { OnOk result ((d : Data) × (read_text text.now ≡ Some d)) }
    ensures utf8 { OnOk result (IsUtf8 text.now) }
    ensures refused { IfErr result (IsNotPointedTo text.now (length out.old)) }
    ensures output_unchanged { OnErr result (out.new ≡ out.old) }
{
    let _document = read(alloc, text)?;
    match lost_of(alloc, text)? {
        Some(lost) => Ok(Some(copy_pointer(lost, out)?)),
        None => Ok(None),
    }
}

/// Copies the pointer of the number to the buffer, and returns its length.
///
/// # Errors
///
/// [`CallError::NotExact`] if the number has no pointer, and [`CallError::NoRoom`] if the buffer is shorter.
/// The buffer is unchanged.
fn copy_pointer(lost: Lost, out: &mut [u8]) -> Result<usize, CallError>
    ensures copied { IfOk result (λ n. PointsTo (take n out.new) lost) }
    ensures fits { IfOk result (λ n. n ≤ length out.new) }
    ensures refused { IfErr result (LacksPointerOfNumber lost (length out.old)) }
    ensures output_unchanged { OnErr result (out.new ≡ out.old) }
{
    if let Some(pointer) = &lost.pointer {
        return copy_to(pointer.as_ptr().as_str().as_bytes(), out);
    }
    Err(CallError::NotExact(lost))
}
