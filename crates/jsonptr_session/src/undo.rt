//! Assignments that can be undone. The modules [`json`] and [`toml_value`] have the functions for
//! either type of document.
//!
//! An assignment returns an [`Undo`], which undoes it in the document that the assignment left.

pub mod json;
pub mod toml_value;

use jsonptr::{Fault, PointerBuf, resolve};

/// How to undo an assignment. It owns its pointer and its value. `V` is the type of the document.
///
/// ```rust
/// let mut document = json!(in alloc; {"size": 3})?;
/// let size = Pointer::parse("/size")?;
/// let back = assign_with_undo(alloc, &mut document, size, Value::from(4))?;
/// assert!(rt; matches!(&back, Undo::Put(_, old) if *old == Value::from(3)));
/// let depth = Pointer::parse("/depth")?;
/// let back = assign_with_undo(alloc, &mut document, depth, Value::from(9))?;
/// assert!(rt; matches!(&back, Undo::Remove(pointer) if pointer.as_ptr() == depth));
/// ```
#[derive(Debug, Drop)]
pub enum Undo<V> {
    /// Replaces the value that the pointer resolves to by this one, which the assignment had
    /// replaced.
    Put(PointerBuf, V),
    /// Removes the value that the pointer resolves to, which the assignment had added.
    Remove(PointerBuf),
}

/// The error of an undo. The document is unchanged.
///
/// ```rust
/// let mut document = json!(in alloc; {"size": 3})?;
/// let back = Undo::Remove(PointerBuf::from_text(alloc, "/depth")?);
/// let undone = undo(alloc, &mut document, back);
/// let UndoRefused { undo: _, cause } = undone.err().ok_or("an error")?;
/// assert!(rt; cause.refused()?.is_not_found());
/// ```
#[derive(Debug, Drop)]
pub struct UndoRefused<V> {
    /// The undo, which can be used again.
    pub undo: Undo<V>,
    /// Why its pointer does not resolve to a value, or that an allocation failed.
    pub cause: Fault<resolve::Error>,
}
