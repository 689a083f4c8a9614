//! The operation `remove` (RFC 6902, section 4.2).
ghost use Rattle.std.specs.Prelude.{◌≡◌, IfOk, OnErr};
ghost use Rattle.serde_json.specs.View.{view};
ghost use Rattle.jsonptr.specs.Fault.{IfRefused, HasMemory};
ghost use Rattle.jsonptr.specs.Json.{nodes, HasSortedKeys};
ghost use Rattle.jsonptr.specs.Node.{NodeMap};
ghost use Rattle.jsonptr.specs.Pointer.{tokens};
ghost use Rattle.jsonptr.specs.Text.{HasNoTilde, text};
ghost use Rattle.jsonptr_patch.specs.Operating.{Takes, RefusesTarget};
ghost use Rattle.jsonptr_patch.specs.PrivateRecording.{CanUndo, Records};
ghost use Rattle.jsonptr_patch.specs.declared.failed_operation.PatchPointer.TheVariants as pointer;

use crate::drop::discard_small;
use crate::failed_operation::{FailedOperation, PatchPointer};
use crate::target::{no_target, target};
use crate::turn::Turn;
use jsonptr::{Fault, Pointer};
use jsonptr_patch_journal::journal::Journal;
use jsonptr_patch_journal::locate::resolve_error;
use serde_json::Value;

/// Removes the value that the pointer resolves to, for the operation of this turn. Removing the
/// root leaves `null`.
///
/// # Errors
///
/// [`Fault::Refused`] if the pointer does not resolve to a value, and [`Fault::Memory`] if an
/// allocation fails.
///
/// # Conditions
///
/// The journal can be undone in the document.
pub fn remove(
    turn: Turn,
    document: &mut Value,
    journal: &mut Journal,
    path: Pointer<'_>,
) -> Result<(), Fault<FailedOperation>>
    requires { CanUndo journal.old document.old }
    ensures removed { IfOk result (λ _. (v : NodeMap)
        × Takes (nodes (view document.old)) (tokens path.entry) v (nodes (view document.new))) }
    ensures sorted { IfOk result (λ _.
        HasSortedKeys (view document.old) → HasSortedKeys (view document.new)) }
    ensures refused { IfRefused result
        (RefusesTarget (nodes (view document.old)) turn.number pointer.Path (tokens path.entry)) }
    ensures undone { Records journal.old document.old journal.new document.new }
{
    let location = target(turn, document, PatchPointer::Path, path)?;
    journal.remove(turn.alloc, document, location)?;
    Ok(())
}

/// Removes the value that the pointer resolves to, as [`remove`] does, for the last operation of a
/// patch.
///
/// # Errors
///
/// Those of [`remove`]. The document is unchanged.
pub fn remove_last(
    turn: Turn,
    document: &mut Value,
    path: Pointer<'_>,
) -> Result<(), Fault<FailedOperation>>
    ensures removed { IfOk result (λ _. (v : NodeMap)
        × Takes (nodes (view document.old)) (tokens path.entry) v (nodes (view document.new))) }
    ensures sorted { IfOk result (λ _.
        HasSortedKeys (view document.old) → HasSortedKeys (view document.new)) }
    ensures refused { IfRefused result
        (RefusesTarget (nodes (view document.old)) turn.number pointer.Path (tokens path.entry)) }
    ensures unchanged { OnErr result (view document.new ≡ view document.old) }
    ensures no_memory { HasNoTilde (text (tokens path.entry)) → HasMemory result }
{
    match path.delete(turn.alloc, document)? {
        Some(value) => {
            discard_small(value);
            Ok(())
        }
        None => {
            let fault = resolve_error(turn.alloc, document, path);
            Err(no_target(turn.number, PatchPointer::Path, fault))
        }
    }
}
