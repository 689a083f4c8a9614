//! The location at which an assignment stores its value, as a pointer.
ghost use Rattle.std.specs.Prelude.{◌≡◌, [], ◌∷◌, ◌++◌, length, List, IfOk};
ghost use Rattle.jsonptr.specs.Node.{NodeMap};
ghost use Rattle.jsonptr.specs.Pointer.{tokens};
ghost use Rattle.jsonptr.specs.Resolve.{Refuses};
ghost use Rattle.jsonptr.specs.Text.{Text};
ghost use Rattle.jsonptr_tree.specs.PrivateUndoing.{NamesLanding};

use crate::document::SessionDocument;
use jsonptr::resolve::Error;
use jsonptr::{Pointer, PointerBuf, Token};
use std::alloc::{AllocError, Global};

/// Returns a pointer to the location where `assign(pointer, ..)` would store its value. The result
/// is unspecified if it would fail.
///
/// # Errors
///
/// [`AllocError`] if an allocation fails.
pub fn landing_of<D: SessionDocument>(
    alloc: Global,
    document: &D,
    pointer: Pointer<'_>,
) -> Result<PointerBuf, AllocError>
    ensures { IfOk result (NamesLanding (D.nodes document.now) (tokens pointer.entry)) }
{
    match document.find_at(alloc, pointer) {
        Ok(()) => pointer.to_buf(alloc),
        Err(fault) => landing_before(alloc, pointer, &fault.refused()?),
    }
}

/// Returns the location of an assignment at a pointer whose evaluation fails with `error`. A scalar
/// is replaced, an object gets a new member named by the token at fault, and an array gets a new
/// last element.
///
/// # Errors
///
/// [`AllocError`] if an allocation fails.
fn landing_before(
    alloc: Global,
    pointer: Pointer<'_>,
    error: &Error,
) -> Result<PointerBuf, AllocError>
    ensures { IfOk result (λ landing. (n : NodeMap)
        → Refuses n (tokens pointer.entry) error.now
        → NamesLanding n (tokens pointer.entry) landing) }
{
    match error {
        Error::Unreachable { position, .. } => prefix_before(alloc, pointer, *position),
        Error::NotFound { position, .. } => prefix_through(alloc, pointer, *position),
        // The value becomes the last element, whose index is the array's length. The token fails to
        // parse as that index only if the length exceeds `usize`.
        Error::FailedToParseIndex { position, .. } => prefix_through(alloc, pointer, *position),
        Error::OutOfBounds {
            position,
            source,
            ..
        } => {
            let mut landing = prefix_before(alloc, pointer, *position)?;
            landing.push_back(Token::from_number(alloc, source.length)?)?;
            Ok(landing)
        }
    }
}

/// Returns a copy of the pointer of the tokens before `position`.
///
/// # Errors
///
/// [`AllocError`] if an allocation fails.
fn prefix_before(
    alloc: Global,
    pointer: Pointer<'_>,
    position: usize,
) -> Result<PointerBuf, AllocError>
    ensures { IfOk result (λ part. (front rest : List Text)
        → tokens pointer.entry ≡ front ++ rest
        → position ≡ length front
        → part ≡ front) }
{
    match pointer.get(..position) {
        Some(part) => part.to_buf(alloc),
        None => Ok(PointerBuf::root(alloc)),
    }
}

/// Returns a copy of the pointer of the tokens up to `position`, and the token at it.
///
/// # Errors
///
/// [`AllocError`] if an allocation fails.
fn prefix_through(
    alloc: Global,
    pointer: Pointer<'_>,
    position: usize,
) -> Result<PointerBuf, AllocError>
    ensures { IfOk result (λ part. (front : List Text) (x : Text) (rest : List Text)
        → tokens pointer.entry ≡ front ++ x ∷ rest
        → position ≡ length front
        → part ≡ front ++ x ∷ []) }
{
    match pointer.get(..=position) {
        Some(part) => part.to_buf(alloc),
        None => Ok(PointerBuf::root(alloc)),
    }
}
