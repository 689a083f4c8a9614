//! Which value of a text is at an offset.
ghost use Rattle.std.specs.Prelude.{◌≡◌, [], false, IfOk, IfErr, IfSome, IsTrue, MatchOption};
ghost use Rattle.jsonptr_text_step.specs.Locating.{IsLocatedAt, IsOutside, Contains, IsLocateError};

use crate::located::{LocateError, Located, locate};
use json::Reader;
use jsonptr::{Pointer, PointerBuf};
use jsonptr_text_piece::buffers::Buffers;
use jsonptr_text_resolve::path::Path;
use std::alloc::AllocError;

/// A value of a text, and its pointer. It owns the pointer, and borrows the text.
#[derive(Debug, Drop)]
pub struct PointerAt<'t> {
    /// The pointer.
    pub pointer: PointerBuf,
    /// The value.
    pub located: Located<'t>,
}

/// Returns the pointer of a value whose text contains the byte at the offset, and where that text is.
/// Returns `None` if the byte is before or after the document, or if the text ends before it.
///
/// The bytes of a value are those from its first to its last one, as in [`locate`]: the byte of a
/// key, or of white space between the members of an object, is one of that object. Of all such values
/// it is the innermost one, except in a member whose key comes again: no pointer leads there, and the
/// value is one around that member, perhaps the whole document.
///
/// Reads the text up to the offset, and two to three times for each value that is looked at: as a rule one
/// or two. That it is the innermost one is tested.
///
/// # Errors
///
/// Those of [`locate`] at the root.
///
/// # Examples
///
/// ```rust
/// let mut buffers = Buffers::new(alloc);
/// let text = r#"{"name": "app", "sizes": [1.0, 5]}"#;
/// let at = pointer_at(&mut buffers, text, 31)?.ok_or("a value")?;
/// assert_eq!(rt; (at.pointer.as_ptr().as_str(), at.located.value), ("/sizes/1", "5"));
/// let key = pointer_at(&mut buffers, text, 2)?.ok_or("a value")?;
/// assert_eq!(rt; key.pointer.as_ptr().as_str(), "");
/// ```
///
/// [`locate`]: crate::locate
pub fn pointer_at<'t>(
    buffers: &mut Buffers,
    text: &'t str,
    offset: usize,
) -> Result<Option<PointerAt<'t>>, LocateError>
    ensures located { IfOk result (λ found. MatchOption found (IsOutside text.now offset)
        (λ at. IsLocatedAt text.now offset at.pointer
        at.located.before.now at.located.value.now at.located.after.now)) }
    ensures refused { IfErr result (IsLocateError text.now []) }
{
    let deepest = path_to(buffers, text, offset)?;
    if let Some(found) = value_around(buffers, text, offset, deepest.as_ptr())? {
        return Ok(Some(found));
    }
    if let Some(parent) = deepest.as_ptr().parent() {
        if let Some(found) = value_around(buffers, text, offset, parent)? {
            return Ok(Some(found));
        }
    }
    root_at(buffers, text, offset)
}

/// Returns the pointer of the value that the last token before the offset, or at it, belongs to. It is a
/// hint.
///
/// # Errors
///
/// [`AllocError`] if an allocation fails.
fn path_to(buffers: &mut Buffers, text: &str, offset: usize) -> Result<PointerBuf, AllocError> {
    let alloc = buffers.alloc;
    let mut reader = Reader::new(text, &mut buffers.old)?;
    let mut path = Path::new(alloc);
    'tokens: while let Some(token) = reader.next() {
        path.enter(alloc, token)?;
        if reader.offset() > offset {
            return Ok(path.into_pointer());
        }
        path.leave(alloc, token)?;
    }
    Ok(path.into_pointer())
}

/// Returns the value that the pointer resolves to, if its text contains the byte at the offset.
///
/// # Errors
///
/// [`AllocError`] if an allocation fails.
fn value_around<'t>(
    buffers: &mut Buffers,
    text: &'t str,
    offset: usize,
    pointer: Pointer<'_>,
) -> Result<Option<PointerAt<'t>>, AllocError>
    ensures { IfOk result (λ found. IfSome found (λ at. IsLocatedAt text.now offset at.pointer
        at.located.before.now at.located.value.now at.located.after.now)) }
{
    let alloc = buffers.alloc;
    match locate(buffers, text, pointer) {
        Ok(located) => if contains(&located, offset) {
            let pointer = pointer.to_buf(alloc)?;
            Ok(Some(PointerAt { pointer, located }))
        } else {
            Ok(None)
        },
        Err(LocateError::Memory(error)) => Err(error),
        Err(_) => Ok(None),
    }
}

/// Returns the document, if its text contains the byte at the offset.
fn root_at<'t>(
    buffers: &mut Buffers,
    text: &'t str,
    offset: usize,
) -> Result<Option<PointerAt<'t>>, LocateError>
    ensures located { IfOk result (λ found. MatchOption found (IsOutside text.now offset)
        (λ at. IsLocatedAt text.now offset at.pointer
        at.located.before.now at.located.value.now at.located.after.now)) }
    ensures refused { IfErr result (IsLocateError text.now []) }
{
    let alloc = buffers.alloc;
    let located = locate(buffers, text, Pointer::root())?;
    if contains(&located, offset) {
        let pointer = PointerBuf::new(alloc);
        Ok(Some(PointerAt { pointer, located }))
    } else {
        Ok(None)
    }
}

/// Returns whether the text of the value contains the byte at the offset.
fn contains(located: &Located<'_>, offset: usize) -> bool
    ensures inside { IsTrue result → Contains located.now.before.now located.now.value.now offset }
    ensures outside { result ≡ false → Contains located.now.before.now located.now.value.now offset → ⊥ }
{
    let from = located.before.len();
    from <= offset && offset - from < located.value.len()
}
