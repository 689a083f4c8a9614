//! JSON Pointers as fragments of URIs (RFC 6901, section 6).
ghost use Rattle.std.specs.Prelude.{◌≡◌, ◌≤◌, IfErr, IfOk, IsUtf8, OnErr, OnOk, take, length as list_length};
ghost use Rattle.jsonptr_fragment.specs.Fragment.{IsFragmentOf};
ghost use Rattle.jsonptr_c_calls.specs.Fragments.{IsFragmentFor, IsNoFragment, IsNotFromFragment, IsNotToFragment, IsPointerIn};

use crate::buffer::copy_to;
use crate::call_error::{Argument, CallError};
use crate::pointers::{parse, text_of};
use jsonptr::{Fault, PointerBuf};
use std::alloc::Global;

/// Copies the pointer of a fragment to the buffer, and returns its length in bytes.
///
/// The fragment begins with `#`, as in the `$ref` of a JSON Schema. Any byte of the pointer may be
/// percent-encoded in it, with hexadecimal digits in either case. Takes time linear in the fragment.
///
/// # Errors
///
/// - [`CallError::NotUtf8`] if the bytes are not UTF-8.
/// - [`CallError::NotFragment`] if they are not the fragment of a pointer.
/// - [`CallError::NoRoom`] if the buffer is shorter than the pointer.
/// - [`CallError::Memory`] if an allocation fails. A byte that a fragment may not have is found before
///   anything is allocated.
///
/// # Examples
///
/// ```rust
/// let mut out = [0u8; 8];
/// assert_eq!(rt; from_fragment(alloc, b"#/c%25d", &mut out).ok(), Some(4));
/// assert!(rt; out.starts_with(b"/c%d"));
/// let space = from_fragment(alloc, b"#/a b", &mut out);
/// assert!(rt; matches!(space, Err(CallError::NotFragment(_))));
/// ```
pub fn from_fragment(alloc: Global, fragment: &[u8], out: &mut [u8]) -> Result<usize, CallError>
    ensures pointer { IfOk result (λ n. IsPointerIn fragment.now (take n out.new)) }
    ensures fits { IfOk result (λ n. n ≤ list_length out.new) }
    ensures utf8 { OnOk result (IsUtf8 fragment.now) }
    ensures refused { IfErr result (IsNotFromFragment fragment.now (list_length out.old)) }
    ensures output_unchanged { OnErr result (out.new ≡ out.old) }
{
    match pointer_of(alloc, fragment) {
        Ok(pointer) => copy_to(pointer.as_ptr().as_str().as_bytes(), out),
        Err(call_error) => Err(call_error),
    }
}

/// Returns the pointer of a fragment.
///
/// # Errors
///
/// Those of [`from_fragment`], except that of a short buffer.
fn pointer_of(alloc: Global, fragment: &[u8]) -> Result<PointerBuf, CallError>
    ensures pointer { IfOk result (IsFragmentOf fragment.now) }
    ensures utf8 { OnOk result (IsUtf8 fragment.now) }
    ensures refused { IfErr result (IsNoFragment fragment.now) }
{
    let text = text_of(Argument::Text, fragment)?;
    match jsonptr_fragment::from_fragment(alloc, text) {
        Ok(pointer) => Ok(pointer),
        Err(Fault::Refused(error)) => Err(CallError::NotFragment(error)),
        Err(Fault::Memory(error)) => Err(CallError::Memory(error)),
    }
}

/// Copies the fragment of a pointer to the buffer, and returns its length in bytes.
///
/// The fragment is a `#`, and the text of the pointer with each byte percent-encoded that a fragment
/// may not have (RFC 3986, section 3.5). The hexadecimal digits are in upper case. Takes time linear
/// in the pointer.
///
/// # Errors
///
/// - [`CallError::NotUtf8`] and [`CallError::NotPointer`].
/// - [`CallError::NoRoom`] if the buffer is shorter than the fragment.
/// - [`CallError::Memory`] if an allocation fails.
///
/// # Examples
///
/// ```rust
/// let mut out = [0u8; 8];
/// assert_eq!(rt; to_fragment(alloc, b"/c%d", &mut out).ok(), Some(7));
/// assert!(rt; out.starts_with(b"#/c%25d"));
/// let short = to_fragment(alloc, b"/c%d", &mut out[..6]);
/// assert!(rt; matches!(short, Err(CallError::NoRoom { needed: 7 })));
/// ```
pub fn to_fragment(alloc: Global, pointer: &[u8], out: &mut [u8]) -> Result<usize, CallError>
    ensures fragment { IfOk result (λ n. IsFragmentFor pointer.now (take n out.new)) }
    ensures fits { IfOk result (λ n. n ≤ list_length out.new) }
    ensures utf8 { OnOk result (IsUtf8 pointer.now) }
    ensures refused { IfErr result (IsNotToFragment pointer.now (list_length out.old)) }
    ensures output_unchanged { OnErr result (out.new ≡ out.old) }
{
    let fragment = jsonptr_fragment::to_fragment(alloc, parse(pointer)?)?;
    copy_to(fragment.as_str().as_bytes(), out)
}
