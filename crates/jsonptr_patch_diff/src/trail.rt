//! Locations of values in a document.
ghost use Rattle.std.specs.Prelude.{◌≡◌, IfOk};
ghost use Rattle.jsonptr_patch_diff.specs.PrivateDiff.{tokens_of};

use jsonptr::{PointerBuf, Token};
use std::alloc::{AllocError, Global};
use std::borrow::CowStr;

/// The location of a value: the steps to it from the root, last one first.
///
/// A location borrows that of its parent, so a step needs no allocation.
#[derive(Clone, Copy)]
pub enum Trail<'a> {
    /// The root.
    Root,
    /// The member of the object at this location that has this key.
    Member(&'a Trail<'a>, &'a str),
    /// The element of the array at this location that has this index.
    Element(&'a Trail<'a>, usize),
}

/// Returns the pointer to a location.
///
/// # Errors
///
/// [`AllocError`] if an allocation fails.
pub fn to_pointer(alloc: Global, at: &Trail<'_>) -> Result<PointerBuf, AllocError>
    ensures { IfOk result (λ path. path ≡ tokens_of at.now) }
{
    match at {
        Trail::Root => Ok(PointerBuf::new(alloc)),
        Trail::Member(parent, key) => {
            let mut path = to_pointer(alloc, parent)?;
            path.push_back(Token::new(alloc, CowStr::Borrowed(key))?)?;
            Ok(path)
        }
        Trail::Element(parent, index) => {
            let mut path = to_pointer(alloc, parent)?;
            path.push_back(Token::from_number(alloc, *index)?)?;
            Ok(path)
        }
    }
}
