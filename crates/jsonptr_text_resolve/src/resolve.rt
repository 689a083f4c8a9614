//! Resolving a pointer in a text.
ghost use Rattle.std.specs.Prelude.{◌≡◌, IfOk, IfErr};
ghost use Rattle.std.specs.Bool.{MatchBool};
ghost use Rattle.std.specs.Str.{IsUtf8};
ghost use Rattle.serde_json.specs.Data.{Data};
ghost use Rattle.serde_json.specs.View.{view};
ghost use Rattle.jsonptr.specs.Pointer.{tokens};
ghost use Rattle.jsonptr.specs.declared.resolve.Error.{Error};
ghost use Rattle.jsonptr_text_resolve.specs.InText.{FindsInText, RefusesInText, IsInTextError, IsInSliceError, in_text_of_read};
ghost use Rattle.jsonptr_value.specs.Reading.{IsReadError};
ghost use Rattle.jsonptr_text_resolve.specs.declared.resolve.InTextError.TheVariants.{Memory};

use crate::error_at::error_at;
use crate::selectors::selectors_of;
use crate::with_child::{error_above_child, selectors_with_child};
use json::Scratch;
use jsonptr::{Pointer, resolve};
use jsonptr_text_search::find::find_in_text_with;
use jsonptr_text_search::outcome::Outcome;
use jsonptr_value::ReadError;
use serde_json::Value;
use simdutf8::basic::from_utf8;
use std::alloc::{AllocError, Global};
use thiserror::Error;

/// Why a pointer was not resolved in a text.
///
/// # Examples
///
/// ```rust
/// let pointer = Pointer::parse("/sizes/2")?;
/// let cut = resolve_in_text(alloc, r#"{"sizes": [3, 5"#, pointer);
/// let message = format!(in alloc; "{}", cut.err().ok_or("an error")?)?;
/// assert_eq!(rt; message.as_str(), "text is not JSON");
/// ```
#[derive(Debug, Drop, Error)]
pub enum InTextError {
    /// `serde_json` does not read the text, or the bytes are not UTF-8. `Value::from_str` and
    /// `Value::from_slice` report the line and the column.
    #[error("text is not JSON")]
    NotJson,
    /// The text is a document in which the pointer does not resolve to a value.
    #[error(transparent)]
    Resolve(resolve::Error),
    /// An allocation failed.
    #[error("out of memory")]
    Memory(AllocError),
}

impl From<AllocError> for InTextError {
    ghost from_gives = { λ error fault. fault ≡ Memory error };

    fn from(error: AllocError) -> InTextError {
        InTextError::Memory(error)
    }
}

impl From<ReadError> for InTextError {
    ghost from_gives = { λ error fault. fault ≡ in_text_of_read error };

    fn from(error: ReadError) -> InTextError {
        match error {
            ReadError::NotJson => InTextError::NotJson,
            ReadError::Memory(error) => InTextError::Memory(error),
        }
    }
}

/// Returns the value that the pointer resolves to in the document that the text contains.
///
/// The result is that of `Value::from_str` and then [`Pointer::resolve`], in one pass over the
/// text. Allocates as much as the text is long, to unescape strings, and for the pointer's tokens and
/// the value.
///
/// # Errors
///
/// - [`InTextError::NotJson`] if `serde_json` does not read the text.
/// - [`InTextError::Resolve`] if the pointer does not resolve to a value.
/// - [`InTextError::Memory`] if an allocation fails.
///
/// # Examples
///
/// ```rust
/// let text = r#"{"sizes": [3, 5]}"#;
/// let size = resolve_in_text(alloc, text, Pointer::parse("/sizes/1")?)?;
/// assert_eq!(rt; size.as_u64(), Some(5));
/// let Err(InTextError::Resolve(error)) =
///     resolve_in_text(alloc, text, Pointer::parse("/sizes/2")?)
/// else {
///     return Err("an error".into());
/// };
/// assert_eq!(rt; (error.position(), error.offset()), (1, 6));
/// ```
pub fn resolve_in_text(
    alloc: Global,
    text: &str,
    pointer: Pointer<'_>,
) -> Result<Value, InTextError>
    ensures found { IfOk result (λ v. FindsInText text.now (tokens pointer.entry) (view v)) }
    ensures refused { IfErr result (IsInTextError text.now (tokens pointer.entry)) }
{
    let mut scratch = Scratch::new(alloc);
    resolve_in_text_with(alloc, &mut scratch, text, pointer)
}

/// Returns the value that the pointer resolves to in the document that the text contains, as
/// [`resolve_in_text`] does, in a scratch of the caller.
///
/// A caller that resolves in many texts keeps one [`Scratch`]. It has room for unescaped strings, as
/// much as the longest text so far, and an index of 16 KiB, which [`Scratch::new`] clears. So on short
/// texts a call takes about half the time of [`resolve_in_text`]. The scratch of a call that failed is
/// as good as any.
///
/// # Errors
///
/// Those of [`resolve_in_text`].
///
/// # Examples
///
/// ```rust
/// let pointer = Pointer::parse("/size")?;
/// let mut scratch = Scratch::new(alloc);
/// let first = resolve_in_text_with(alloc, &mut scratch, "{\"size\": 3}", pointer)?;
/// assert_eq!(rt; first.as_u64(), Some(3));
/// let cut = resolve_in_text_with(alloc, &mut scratch, "{\"size\": ", pointer);
/// assert!(rt; matches!(cut, Err(InTextError::NotJson)));
/// let last = resolve_in_text_with(alloc, &mut scratch, "{\"size\": 5}", pointer)?;
/// assert_eq!(rt; last.as_u64(), Some(5));
/// ```
pub fn resolve_in_text_with(
    alloc: Global,
    scratch: &mut Scratch,
    text: &str,
    pointer: Pointer<'_>,
) -> Result<Value, InTextError>
    ensures found { IfOk result (λ v. FindsInText text.now (tokens pointer.entry) (view v)) }
    ensures refused { IfErr result (IsInTextError text.now (tokens pointer.entry)) }
{
    let selectors = selectors_of(alloc, pointer)?;
    match find_in_text_with(alloc, scratch, text, &selectors) {
        Ok(Outcome::Found(value)) => Ok(value),
        Ok(Outcome::Stopped { left, kind }) => {
            let error = error_at(pointer, left, kind);
            Err(InTextError::Resolve(error))
        }
        Err(error) => Err(InTextError::from(error)),
    }
}

/// Returns the value that the pointer resolves to in the document that the bytes contain.
///
/// The result is that of `Value::from_slice` and then [`Pointer::resolve`]. The bytes must be UTF-8,
/// all of them, and are tested before the search. Apart from that test it costs as much as
/// [`resolve_in_text`].
///
/// # Errors
///
/// - [`InTextError::NotJson`] if the bytes are not UTF-8, or `serde_json` does not read them.
/// - [`InTextError::Resolve`] if the pointer does not resolve to a value.
/// - [`InTextError::Memory`] if an allocation fails.
///
/// # Examples
///
/// ```rust
/// let size = resolve_in_slice(alloc, br#"{"sizes": [3, 5]}"#, Pointer::parse("/sizes/1")?)?;
/// assert_eq!(rt; size.as_u64(), Some(5));
/// let latin = resolve_in_slice(alloc, b"{\"caf\xe9\": 1}", Pointer::parse("/a")?);
/// assert!(rt; matches!(latin, Err(InTextError::NotJson)));
/// ```
pub fn resolve_in_slice(
    alloc: Global,
    bytes: &[u8],
    pointer: Pointer<'_>,
) -> Result<Value, InTextError>
    ensures found { IfOk result (λ v. IsUtf8 bytes.now
        × FindsInText bytes.now (tokens pointer.entry) (view v)) }
    ensures refused { IfErr result (IsInSliceError bytes.now (tokens pointer.entry)) }
{
    let mut scratch = Scratch::new(alloc);
    resolve_in_slice_with(alloc, &mut scratch, bytes, pointer)
}

/// Returns the value that the pointer resolves to in the document that the bytes contain, as
/// [`resolve_in_slice`] does, in a scratch of the caller, as [`resolve_in_text_with`] uses it.
///
/// # Errors
///
/// Those of [`resolve_in_slice`].
///
/// # Examples
///
/// ```rust
/// let mut scratch = Scratch::new(alloc);
/// let size = Pointer::parse("/size")?;
/// let latin = resolve_in_slice_with(alloc, &mut scratch, b"{\"caf\xe9\": 1}", size);
/// assert!(rt; matches!(latin, Err(InTextError::NotJson)));
/// let three = resolve_in_slice_with(alloc, &mut scratch, b"{\"size\": 3}", size)?;
/// assert_eq!(rt; three.as_u64(), Some(3));
/// ```
pub fn resolve_in_slice_with(
    alloc: Global,
    scratch: &mut Scratch,
    bytes: &[u8],
    pointer: Pointer<'_>,
) -> Result<Value, InTextError>
    ensures found { IfOk result (λ v. IsUtf8 bytes.now
        × FindsInText bytes.now (tokens pointer.entry) (view v)) }
    ensures refused { IfErr result (IsInSliceError bytes.now (tokens pointer.entry)) }
{
    match from_utf8(bytes) {
        Ok(text) => resolve_in_text_with(alloc, scratch, text, pointer),
        Err(_error) => Err(InTextError::NotJson),
    }
}

/// Returns whether the pointer resolves to a value in the document that the text contains.
///
/// Costs as much as [`resolve_in_text`], and does not allocate for the value. It searches for a child
/// of the value, with an empty key, and allocates for that child if there is one.
///
/// # Errors
///
/// - [`ReadError::NotJson`] if `serde_json` does not read the text.
/// - [`ReadError::Memory`] if an allocation fails.
///
/// # Examples
///
/// ```rust
/// let text = r#"{"sizes": [3, 5]}"#;
/// assert_eq!(rt; exists_in_text(alloc, text, Pointer::parse("/sizes/1")?)?, true);
/// assert_eq!(rt; exists_in_text(alloc, text, Pointer::parse("/sizes/2")?)?, false);
/// ```
pub fn exists_in_text(alloc: Global, text: &str, pointer: Pointer<'_>) -> Result<bool, ReadError>
    ensures exists { IfOk result (λ found. MatchBool found
        ((d : Data) × FindsInText text.now (tokens pointer.entry) d)
        ((e : Error) × RefusesInText text.now (tokens pointer.entry) e)) }
    ensures refused { IfErr result (IsReadError text.now) }
{
    let mut scratch = Scratch::new(alloc);
    exists_in_text_with(alloc, &mut scratch, text, pointer)
}

/// Returns whether the pointer resolves to a value in the document that the text contains, as
/// [`exists_in_text`] does, in a scratch of the caller, as [`resolve_in_text_with`] uses it.
///
/// # Errors
///
/// Those of [`exists_in_text`].
///
/// # Examples
///
/// ```rust
/// let mut scratch = Scratch::new(alloc);
/// let size = Pointer::parse("/size")?;
/// let text = "{\"size\": 3}";
/// assert_eq!(rt; exists_in_text_with(alloc, &mut scratch, text, size)?, true);
/// assert_eq!(rt; exists_in_text_with(alloc, &mut scratch, "[]", size)?, false);
/// ```
pub fn exists_in_text_with(
    alloc: Global,
    scratch: &mut Scratch,
    text: &str,
    pointer: Pointer<'_>,
) -> Result<bool, ReadError>
    ensures exists { IfOk result (λ found. MatchBool found
        ((d : Data) × FindsInText text.now (tokens pointer.entry) d)
        ((e : Error) × RefusesInText text.now (tokens pointer.entry) e)) }
    ensures refused { IfErr result (IsReadError text.now) }
{
    let selectors = selectors_with_child(alloc, pointer)?;
    match find_in_text_with(alloc, scratch, text, &selectors)? {
        Outcome::Found(_value) => Ok(true),
        Outcome::Stopped { left, kind } => match error_above_child(pointer, left, kind) {
            None => Ok(true),
            Some(_error) => Ok(false),
        },
    }
}
