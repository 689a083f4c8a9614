//! Writing the fragment of a pointer.
ghost use Rattle.std.specs.Prelude.{◌≡◌, IfOk, string_bytes};
ghost use Rattle.jsonptr.specs.Pointer.{tokens};
ghost use Rattle.jsonptr_fragment.specs.Fragment.{fragment_of};

use crate::set::ENCODED;
use jsonptr::Pointer;
use percent_encoding::utf8_percent_encode;
use std::alloc::{AllocError, Global};

/// Returns the fragment of the pointer: a `#`, and its text with each byte percent-encoded that a
/// fragment may not have (RFC 6901, section 6; RFC 3986, section 3.5).
///
/// The hexadecimal digits are in upper case. Takes time linear in the pointer.
///
/// # Errors
///
/// [`AllocError`] if an allocation fails.
///
/// # Examples
///
/// ```rust
/// let pointer = Pointer::parse("/a~1b/ /x?")?;
/// assert_eq!(rt; to_fragment(alloc, pointer)?.as_str(), "#/a~1b/%20/x?");
/// ```
pub fn to_fragment(alloc: Global, pointer: Pointer<'_>) -> Result<String, AllocError>
    ensures { IfOk result (λ s. string_bytes s ≡ fragment_of (tokens pointer.entry)) }
{
    let mut fragment = String::from_str(alloc, "#")?;
    utf8_percent_encode(pointer.as_str(), ENCODED).append_to(&mut fragment)?;
    Ok(fragment)
}
