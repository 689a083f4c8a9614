//! Reading the pointer of a fragment.
ghost use Rattle.std.specs.Prelude.{◌≡◌, ◌∷◌, IfOk};
ghost use Rattle.jsonptr.specs.Fault.{IfRefused, HasMemory};
ghost use Rattle.jsonptr_fragment.specs.Fragment.{Encodes, IsFragment, IsFragmentOf};
ghost use Rattle.jsonptr_fragment.specs.FragmentError.{IsFragmentErrorOf};

use crate::error::FragmentError;
use crate::units::{first_fault, offset_of};
use jsonptr::{Fault, Pointer, PointerBuf};
use percent_encoding::percent_decode;
use std::alloc::Global;
use std::str::from_utf8;

/// Returns the pointer of a fragment: a `#`, and the percent-encoded UTF-8 of the pointer's text (RFC
/// 6901, section 6).
///
/// The text begins with `#`, as in the table of the RFC and in a `$ref`. The parser of a URL may
/// return a fragment without it: put a `#` before such a text. Any byte may be percent-encoded, with
/// hexadecimal digits in either case. Takes time linear in the text.
///
/// # Errors
///
/// [`Fault::Refused`] with a [`FragmentError`], and [`Fault::Memory`] if an allocation fails. A byte
/// that a fragment may not have is found before anything is allocated.
///
/// # Examples
///
/// ```rust
/// let pointer = from_fragment(alloc, "#/c%25d/%c3%bc")?;
/// assert_eq!(rt; pointer.as_ptr().as_str(), "/c%d/ü");
/// for (text, offset) in [("#/a b", 3), ("#/ü", 2)] {
///     let error = from_fragment(alloc, text).err().ok_or("an error")?.refused()?;
///     assert_eq!(rt; error, FragmentError::BadByte { offset });
/// }
/// ```
pub fn from_fragment(alloc: Global, text: &str) -> Result<PointerBuf, Fault<FragmentError>>
    ensures pointer { IfOk result (IsFragmentOf text.now) }
    ensures refused { IfRefused result (IsFragmentErrorOf text.now) }
    ensures memory { ¬ (IsFragment text.now) → HasMemory result }
{
    let Some((b'#', fragment)) = text.as_bytes().split_first() else {
        return Err(Fault::Refused(FragmentError::NoHash));
    };
    if let Some(error) = first_fault(fragment) {
        return Err(Fault::Refused(error));
    }
    let mut decoded = Vec::new(alloc);
    percent_decode(fragment).append_to(&mut decoded)?;
    read_decoded(alloc, fragment, decoded.as_slice())
}

/// Returns the pointer whose text a fragment encodes, given the bytes that it encodes.
fn read_decoded(
    alloc: Global,
    fragment: &[u8],
    decoded: &[u8],
) -> Result<PointerBuf, Fault<FragmentError>>
    requires { Encodes fragment.now decoded.now }
    ensures pointer { IfOk result (IsFragmentOf (35 ∷ fragment.now)) }
    ensures refused { IfRefused result (IsFragmentErrorOf (35 ∷ fragment.now)) }
{
    let text = match from_utf8(decoded) {
        Ok(text) => text,
        Err(error) => {
            let offset = offset_of(fragment, error.valid_up_to());
            return Err(Fault::Refused(FragmentError::NotUtf8 { offset }));
        }
    };
    match Pointer::parse(text) {
        Ok(pointer) => Ok(pointer.to_buf(alloc)?),
        Err(cause) => {
            let offset = offset_of(fragment, cause.complete_offset());
            Err(Fault::Refused(FragmentError::NotPointer { offset, cause }))
        }
    }
}
