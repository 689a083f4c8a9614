//! Assigning a value and undoing it, in a document of any type.
ghost use Rattle.std.specs.Prelude.{◌≡◌, IfOk, IfErr, OnErr};
ghost use Rattle.jsonptr.specs.Assign.{RefusesAssign};
ghost use Rattle.jsonptr.specs.Fault.{IfRefused, IsRefusedAnd, HasMemory};
ghost use Rattle.jsonptr.specs.Node.{Path, NodeMap, Names};
ghost use Rattle.jsonptr.specs.Pointer.{tokens};
ghost use Rattle.jsonptr.specs.Removing.{Deletes};
ghost use Rattle.jsonptr.specs.Resolve.{Refuses};
ghost use Rattle.jsonptr.specs.Text.{HasNoTilde, text};
ghost use Rattle.jsonptr_session.specs.Undo.{tokens_at, IfPut, IsUndoError, AssignsWithUndo, Undoes};

use crate::document::SessionDocument;
use crate::landing::landing_of;
use crate::undo::{Undo, UndoRefused};
use jsonptr::{Fault, Pointer, assign, resolve};
use std::alloc::Global;

/// Assigns a value at the pointer, and returns how to undo that. Allocates the pointer of the undo
/// before the document changes.
///
/// # Errors
///
/// [`Fault::Refused`] if no value can be assigned there, and [`Fault::Memory`] if an allocation
/// fails. The document is unchanged.
pub fn assign_undoable<D: SessionDocument>(
    alloc: Global,
    document: &mut D,
    pointer: Pointer<'_>,
    value: D,
) -> Result<Undo<D>, Fault<assign::Error>>
    ensures assigned { IfOk result (AssignsWithUndo D.nodes (D.nodes document.old)
        (tokens pointer.entry) (D.nodes value) (D.nodes document.new)) }
    ensures inverse { IfOk result (λ u. (m : NodeMap)
        → Undoes D.nodes D.blank (D.nodes document.new) u m → m ≡ D.nodes document.old) }
    ensures sorted { IfOk result (λ _.
        D.has_sorted_keys value → D.has_sorted_keys document.old → D.has_sorted_keys document.new) }
    ensures returned_sorted { IfOk result (λ u.
        IfPut u (λ v. D.has_sorted_keys document.old → D.has_sorted_keys v)) }
    ensures refused { IfRefused result
        (RefusesAssign (D.nodes document.old) (tokens pointer.entry)) }
    ensures unchanged { OnErr result (D.is_same document.old document.new) }
{
    let landing = landing_of(alloc, &*document, pointer)?;
    match document.assign_at(alloc, pointer, value)? {
        Some(old) => Ok(Undo::Put(landing, old)),
        None => Ok(Undo::Remove(landing)),
    }
}

/// Undoes an assignment.
///
/// # Errors
///
/// [`UndoRefused`] if the undo's pointer does not resolve to a value, or if an allocation fails. It
/// contains the undo, and the document is unchanged.
pub fn take_back<D: SessionDocument>(
    alloc: Global,
    document: &mut D,
    undo: Undo<D>,
) -> Result<(), UndoRefused<D>>
    ensures undone { IfOk result (λ _.
        Undoes D.nodes D.blank (D.nodes document.old) undo (D.nodes document.new)) }
    ensures sorted { IfOk result (λ _.
        IfPut undo D.has_sorted_keys → D.has_sorted_keys document.old
        → D.has_sorted_keys document.new) }
    ensures refused { IfErr result (λ r.
        IsUndoError (D.nodes document.old) (tokens_at undo) r.cause) }
    ensures returned { IfErr result (λ r. r.undo ≡ undo) }
    ensures unchanged { OnErr result (D.is_same document.old document.new) }
    ensures no_memory { HasNoTilde (text (tokens_at undo))
        → IfErr result (λ r.
        IsRefusedAnd r.cause (Refuses (D.nodes document.old) (tokens_at undo))) }
{
    match undo {
        Undo::Put(pointer, value) => {
            let mut value = value;
            match document.swap_at(alloc, pointer.as_ptr(), &mut value) {
                Ok(()) => Ok(()),
                Err(cause) => Err(UndoRefused {
                    undo: Undo::Put(pointer, value),
                    cause,
                }),
            }
        }
        Undo::Remove(pointer) => match remove_at(alloc, document, pointer.as_ptr()) {
            Ok(()) => Ok(()),
            Err(cause) => Err(UndoRefused {
                undo: Undo::Remove(pointer),
                cause,
            }),
        },
    }
}

/// Removes the value that the pointer resolves to.
///
/// # Errors
///
/// [`Fault::Refused`] if the pointer does not resolve to a value, and [`Fault::Memory`] if an
/// allocation fails. The document is unchanged.
fn remove_at<D: SessionDocument>(
    alloc: Global,
    document: &mut D,
    pointer: Pointer<'_>,
) -> Result<(), Fault<resolve::Error>>
    ensures named { IfOk result (λ _.
        (w : Path) × Names (D.nodes document.old) (tokens pointer.entry) w) }
    ensures removed { IfOk result (λ _.
        Deletes (D.nodes document.old) (tokens pointer.entry) D.blank (D.nodes document.new)) }
    ensures sorted { IfOk result (λ _.
        D.has_sorted_keys document.old → D.has_sorted_keys document.new) }
    ensures refused { IfRefused result (Refuses (D.nodes document.old) (tokens pointer.entry)) }
    ensures unchanged { OnErr result (D.is_same document.old document.new) }
    ensures no_memory { HasNoTilde (text (tokens pointer.entry)) → HasMemory result }
{
    match document.delete_at(alloc, pointer)? {
        Some(_) => Ok(()),
        None => document.find_at(alloc, pointer),
    }
}
