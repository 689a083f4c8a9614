//! The operation `copy` (RFC 6902, section 4.5).
ghost use Rattle.std.specs.Prelude.{◌≡◌, IfOk, OnErr};
ghost use Rattle.serde_json.specs.View.{view};
ghost use Rattle.jsonptr.specs.Fault.{IfRefused};
ghost use Rattle.jsonptr.specs.Following.{Finds};
ghost use Rattle.jsonptr.specs.Json.{nodes, HasSortedKeys};
ghost use Rattle.jsonptr.specs.Pointer.{tokens};
ghost use Rattle.jsonptr_patch.specs.Operating.{Copies, RefusesTarget, RefusesCopy};
ghost use Rattle.jsonptr_patch.specs.PrivateRecording.{Records};

use crate::add::{add, add_last};
use crate::failed_operation::{FailedOperation, PatchPointer};
use crate::target::no_target;
use crate::turn::Turn;
use jsonptr::{Fault, Pointer};
use jsonptr_patch_journal::journal::Journal;
use serde_json::Value;

/// Adds a copy of the value at `from` at `path`, for the operation of this turn.
///
/// # Errors
///
/// [`Fault::Refused`] if `from` does not resolve to a value, or if the copy cannot be added.
/// [`Fault::Memory`] if an allocation fails.
pub fn copy(
    turn: Turn,
    document: &mut Value,
    journal: &mut Journal,
    from: Pointer<'_>,
    path: Pointer<'_>,
) -> Result<(), Fault<FailedOperation>>
    ensures copied { IfOk result (λ _. Copies (nodes (view document.old)) (tokens from.entry)
        (tokens path.entry) (nodes (view document.new))) }
    ensures sorted { IfOk result (λ _.
        HasSortedKeys (view document.old) → HasSortedKeys (view document.new)) }
    ensures refused { IfRefused result (RefusesCopy (nodes (view document.old)) turn.number
        (tokens from.entry) (tokens path.entry)) }
    ensures undone { Records journal.old document.old journal.new document.new }
{
    let value = copy_of(turn, document, PatchPointer::From, from)?;
    add(turn, document, journal, path, value)
}

/// Adds a copy, as [`copy`] does, for the last operation of a patch.
///
/// # Errors
///
/// Those of [`copy`]. The document is unchanged.
pub fn copy_last(
    turn: Turn,
    document: &mut Value,
    from: Pointer<'_>,
    path: Pointer<'_>,
) -> Result<(), Fault<FailedOperation>>
    ensures copied { IfOk result (λ _. Copies (nodes (view document.old)) (tokens from.entry)
        (tokens path.entry) (nodes (view document.new))) }
    ensures sorted { IfOk result (λ _.
        HasSortedKeys (view document.old) → HasSortedKeys (view document.new)) }
    ensures refused { IfRefused result (RefusesCopy (nodes (view document.old)) turn.number
        (tokens from.entry) (tokens path.entry)) }
    ensures unchanged { OnErr result (view document.new ≡ view document.old) }
{
    let value = copy_of(turn, document, PatchPointer::From, from)?;
    add_last(turn, document, path, value)
}

/// Returns a copy of the value that the pointer resolves to, which is this one of the operation.
///
/// # Errors
///
/// [`Fault::Refused`] if the pointer does not resolve to a value, and [`Fault::Memory`] if an
/// allocation fails.
pub fn copy_of(
    turn: Turn,
    document: &Value,
    pointer: PatchPointer,
    from: Pointer<'_>,
) -> Result<Value, Fault<FailedOperation>>
    ensures found { IfOk result (λ v. Finds (nodes (view document.now)) (tokens from.entry)
        (nodes (view v))) }
    ensures sorted { IfOk result (λ v. HasSortedKeys (view document.now) → HasSortedKeys (view v)) }
    ensures refused { IfRefused result
        (RefusesTarget (nodes (view document.now)) turn.number pointer (tokens from.entry)) }
{
    match from.resolve(turn.alloc, document) {
        Ok(value) => Ok(jsonptr_value::copy(turn.alloc, value)?),
        Err(fault) => Err(no_target(turn.number, pointer, fault)),
    }
}
