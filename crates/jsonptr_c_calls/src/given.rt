//! Values and patches that are put into a text.
ghost use Rattle.std.specs.Prelude.{IfErr, IfOk, IsUtf8, OnOk};
ghost use Rattle.jsonptr_c_calls.specs.Failures.{IsNotParsed};
ghost use Rattle.jsonptr_c_calls.specs.OpenTexts.{IsNoPatchOf, IsPatchOf, IsRawOf};

use crate::call_error::{Argument, CallError};
use crate::pointers::text_of;
use crate::read::{read, stop};
use jsonptr_text_value::{PatchText, PatchTextError, RawValue};
use jsonptr_value::ReadError;
use std::alloc::Global;

/// Returns the value that the bytes are the text of. It has the JSON tokens of that text.
///
/// # Errors
///
/// - [`CallError::NotUtf8`] and [`CallError::NotJson`].
/// - [`CallError::Memory`] if an allocation fails.
pub fn read_value(alloc: Global, bytes: &[u8]) -> Result<RawValue, CallError>
    ensures value { IfOk result (IsRawOf bytes.now) }
    ensures utf8 { OnOk result (IsUtf8 bytes.now) }
    ensures refused { IfErr result (IsNotParsed bytes.now) }
{
    let text = text_of(Argument::Text, bytes)?;
    match RawValue::parse(alloc, text) {
        Ok(value) => Ok(value),
        Err(ReadError::NotJson) => Err(CallError::NotJson {
            offset: stop(alloc, text)?,
        }),
        Err(ReadError::Memory(error)) => Err(CallError::Memory(error)),
    }
}

/// Returns the patch document that the bytes are the text of. Its values have the JSON tokens of their texts.
///
/// # Errors
///
/// - [`CallError::NotUtf8`] and [`CallError::NotJson`].
/// - [`CallError::NotPatch`] if the document is not a patch.
/// - [`CallError::NotLocated`] if the text of a value is not found. No text is known of which one is not.
/// - [`CallError::Memory`] if an allocation fails.
pub fn read_patch(alloc: Global, bytes: &[u8]) -> Result<PatchText, CallError>
    ensures patch { IfOk result (IsPatchOf bytes.now) }
    ensures utf8 { OnOk result (IsUtf8 bytes.now) }
    ensures refused { IfErr result (IsNoPatchOf bytes.now) }
{
    let document = read(alloc, bytes)?;
    let text = text_of(Argument::Text, bytes)?;
    match PatchText::of(alloc, text, document) {
        Ok(patch) => Ok(patch),
        Err(PatchTextError::NotPatch(error)) => Err(CallError::NotPatch(error)),
        Err(PatchTextError::NotLocated) => Err(CallError::NotLocated),
        Err(PatchTextError::TooDeep) => unreachable!(),
        Err(PatchTextError::Memory(error)) => Err(CallError::Memory(error)),
    }
}
