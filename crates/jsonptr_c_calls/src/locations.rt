//! Where values are in a JSON text that is not read into a document.
ghost use Rattle.std.specs.Prelude.{◌≡◌, ◌≤◌, IfErr, IfOk, IsUtf8, List, OnErr, OnOk, length, take};
ghost use Rattle.jsonptr.specs.Text.{Text};
ghost use Rattle.jsonptr_text_step.specs.Locating.{IsLocateError};
ghost use Rattle.jsonptr_c_calls.specs.Locations.{IsNotLocated, IsNotPointedAt, LacksLocation, LocatesInText, PointsAt};

use crate::buffer::copy_to;
use crate::call_error::{Argument, CallError};
use crate::pointers::{parse, text_of};
use crate::read::stop;
use jsonptr_text_step::{Buffers, LocateError};
use std::alloc::Global;

/// The bytes of a value in a JSON text.
#[derive(Clone, Copy, Debug)]
pub struct TextSpan {
    /// The offset of the first byte.
    pub start: usize,
    /// The offset after the last byte.
    pub end: usize,
}

/// Returns where the value that the pointer resolves to is in the JSON text, without white space
/// around it. Of a repeated key the last member counts.
///
/// # Errors
///
/// - Those of [`parse`], for the pointer.
/// - [`CallError::NotUtf8`] and [`CallError::NotJson`], for the text. It is read again to find where
///   reading stops.
/// - [`CallError::Resolve`] if the pointer does not resolve to a value.
/// - [`CallError::NotLocated`] if the check of the offsets fails.
/// - [`CallError::Memory`] if an allocation fails.
///
/// # Examples
///
/// ```rust
/// let span = locate(alloc, b"{\"a\": [1.0, 2]}", b"/a/0").ok().ok_or("a value")?;
/// assert_eq!(rt; (span.start, span.end), (7, 10));
/// ```
pub fn locate(alloc: Global, text: &[u8], pointer: &[u8]) -> Result<TextSpan, CallError>
    ensures located { IfOk result (λ s. LocatesInText text.now pointer.now s.start s.end) }
    ensures pointer_utf8 { OnOk result (IsUtf8 pointer.now) }
    ensures text_utf8 { OnOk result (IsUtf8 text.now) }
    ensures refused { IfErr result (IsNotLocated text.now pointer.now) }
{
    let pointer = parse(pointer)?;
    let text = text_of(Argument::Text, text)?;
    let mut buffers = Buffers::new(alloc);
    match jsonptr_text_step::locate(&mut buffers, text, pointer) {
        Ok(located) => Ok(TextSpan {
            start: located.before.len(),
            end: text.len() - located.after.len(),
        }),
        Err(error) => Err(location_error(alloc, text, error)),
    }
}

/// Copies the pointer of a value whose text contains the byte at the offset to the buffer, and
/// returns its length. It is the innermost one, except in a member whose key comes again: there it is a
/// value around that member. That it is the innermost one is tested.
///
/// # Errors
///
/// - [`CallError::NotUtf8`] and [`CallError::NotJson`]. The text is read again to find where reading
///   stops.
/// - [`CallError::NotLocated`] if the document cannot be located.
/// - [`CallError::NoValue`] if the byte is before or after the document, or if the text ends before it.
/// - [`CallError::NoRoom`] if the buffer is shorter than the pointer.
/// - [`CallError::Memory`] if an allocation fails.
///
/// The buffer is unchanged.
///
/// # Examples
///
/// ```rust
/// let mut out = [0u8; 8];
/// assert_eq!(rt; pointer_at(alloc, b"{\"a\": [1.0, 2]}", 8, &mut out).ok(), Some(4));
/// assert!(rt; out.starts_with(b"/a/0"));
/// ```
pub fn pointer_at(
    alloc: Global,
    text: &[u8],
    offset: usize,
    out: &mut [u8],
) -> Result<usize, CallError>
    ensures pointed { IfOk result (λ n. PointsAt text.now offset (take n out.new)) }
    ensures fits { IfOk result (λ n. n ≤ length out.new) }
    ensures utf8 { OnOk result (IsUtf8 text.now) }
    ensures refused { IfErr result (IsNotPointedAt text.now offset (length out.old)) }
    ensures output_unchanged { OnErr result (out.new ≡ out.old) }
{
    let text = text_of(Argument::Text, text)?;
    let mut buffers = Buffers::new(alloc);
    match jsonptr_text_step::pointer_at(&mut buffers, text, offset) {
        Ok(Some(found)) => copy_to(found.pointer.as_ptr().as_str().as_bytes(), out),
        Ok(None) => Err(CallError::NoValue { offset }),
        Err(error) => Err(location_error(alloc, text, error)),
    }
}

/// Returns the error of a call on the text in which a value is not located.
fn location_error(alloc: Global, text: &str, error: LocateError) -> CallError
    ensures { (tokens : List Text) → IsLocateError text.now tokens error
        → LacksLocation text.now tokens result }
{
    match error {
        LocateError::NotLocated => CallError::NotLocated,
        LocateError::NotJson => match stop(alloc, text) {
            Ok(offset) => CallError::NotJson { offset },
            Err(error) => CallError::Memory(error),
        },
        LocateError::Resolve(error) => CallError::Resolve(error),
        LocateError::Memory(error) => CallError::Memory(error),
    }
}
