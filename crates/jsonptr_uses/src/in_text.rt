//! A number or a text in the text of a JSON document, as in a file of settings or a message.
ghost use Rattle.std.specs.Prelude.{◌≡◌, IfOk, IsTrue, None, Err};
ghost use Rattle.std.specs.Str.{IsUtf8};
ghost use Rattle.serde_json.specs.Data.{Data, string};
ghost use Rattle.serde_json.specs.Read.{read};
ghost use Rattle.jsonptr.specs.Pointer.{tokens};
ghost use Rattle.jsonptr_text_resolve.specs.InText.{FindsInText};
ghost use Rattle.jsonptr_uses.specs.InText.{IsNumberAt, IsRangeAt};
ghost use Rattle.jsonptr_uses.specs.declared.sessions.TextError.TheVariants.{NotJson};

use crate::sessions::TextError;
use jsonptr::Pointer;
use jsonptr_text_resolve::{InTextError, resolve_in_slice, resolve_in_text};
use std::alloc::Global;

/// Returns the number that the pointer resolves to in the document that the text contains, or
/// `None` if it resolves to no value, or to one that is not a whole number from 0 to 2^64 - 1.
///
/// The document is not read into a `Value`, and the result is a fact about it.
///
/// # Errors
///
/// [`TextError::NotJson`] if the text is not JSON, and [`TextError::Memory`] if an allocation
/// fails.
pub fn number_in_text(
    alloc: Global,
    text: &str,
    pointer: Pointer<'_>,
) -> Result<Option<u64>, TextError>
    ensures number { IfOk result (λ n. (d : Data) × (read text.now ≡ Some d)
        × IsNumberAt d (tokens pointer.entry) n) }
    ensures not_json { result ≡ Err NotJson → read text.now ≡ None }
{
    match resolve_in_text(alloc, text, pointer) {
        Ok(value) => Ok(value.as_u64()),
        Err(InTextError::Resolve(_error)) => Ok(None),
        Err(InTextError::NotJson) => Err(TextError::NotJson),
        Err(InTextError::Memory(error)) => Err(TextError::Memory(error)),
    }
}

/// Returns the numbers at two pointers in one document, as the ends of a range, if both are there
/// and the first is at most the second.
///
/// Each number is searched for by itself. Both are in the same document, since a text is read as at
/// most one.
///
/// # Errors
///
/// As [`number_in_text`].
pub fn range_in_text(
    alloc: Global,
    text: &str,
    first: Pointer<'_>,
    last: Pointer<'_>,
) -> Result<Option<(u64, u64)>, TextError>
    ensures range { IfOk result (λ r. (d : Data) × (read text.now ≡ Some d)
        × IsRangeAt d (tokens first.entry) (tokens last.entry) r) }
{
    let first = number_in_text(alloc, text, first)?;
    let last = number_in_text(alloc, text, last)?;
    match first {
        None => Ok(None),
        Some(first) => match last {
            None => Ok(None),
            Some(last) => if first <= last {
                Ok(Some((first, last)))
            } else {
                Ok(None)
            },
        },
    }
}

/// Returns whether the bytes of a message have this text at the pointer, as a server asks for the
/// type of a message. No document is built.
///
/// # Errors
///
/// [`InTextError::NotJson`] if the bytes are not JSON, and [`InTextError::Memory`] if an
/// allocation fails.
pub fn has_text_at(
    alloc: Global,
    message: &[u8],
    pointer: Pointer<'_>,
    wanted: &str,
) -> Result<bool, InTextError>
    ensures { IfOk result (λ found. IsTrue found → IsUtf8 message.now
        × FindsInText message.now (tokens pointer.entry) (string wanted.now)) }
{
    match resolve_in_slice(alloc, message, pointer) {
        Ok(value) => match value.as_str() {
            Some(text) => Ok(text == wanted),
            None => Ok(false),
        },
        Err(InTextError::Resolve(_error)) => Ok(false),
        Err(error) => Err(error),
    }
}
