//! The value that a pointer of an operation resolves to.
ghost use Rattle.std.specs.Prelude.{◌≡◌, IfOk};
ghost use Rattle.serde_json.specs.View.{view};
ghost use Rattle.jsonptr.specs.Fault.{IfRefused};
ghost use Rattle.jsonptr.specs.Json.{nodes};
ghost use Rattle.jsonptr.specs.Node.{Names};
ghost use Rattle.jsonptr.specs.Pointer.{tokens};
ghost use Rattle.jsonptr_patch_journal.specs.Location.{path_of};
ghost use Rattle.jsonptr_patch.specs.Operating.{RefusesTarget};
ghost use Rattle.jsonptr_patch.specs.Failing.{fault_at};

use crate::failed_operation::{FailedOperation, PatchPointer};
use crate::operation::PatchError;
use crate::turn::Turn;
use jsonptr::{Fault, Pointer, resolve};
use jsonptr_patch_journal::locate::locate;
use jsonptr_patch_journal::location::Location;
use serde_json::Value;

/// Converts the fault of this pointer, which does not resolve, to that of the operation with this number.
pub fn no_target(
    number: usize,
    pointer: PatchPointer,
    fault: Fault<resolve::Error>,
) -> Fault<FailedOperation>
    ensures { result ≡ fault_at number pointer fault }
{
    fault.map(|cause| FailedOperation {
        error: PatchError::NoTarget {
            operation: number,
            cause,
        },
        pointer: Some(pointer),
    })
}

/// Returns the location of the value that the pointer resolves to, which is this one of the operation.
///
/// # Errors
///
/// [`Fault::Refused`] if the pointer does not resolve to a value, and [`Fault::Memory`] if an
/// allocation fails.
pub fn target(
    turn: Turn,
    document: &Value,
    pointer: PatchPointer,
    path: Pointer<'_>,
) -> Result<Location, Fault<FailedOperation>>
    ensures found { IfOk result (λ location.
        Names (nodes (view document.now)) (tokens path.entry) (path_of location)) }
    ensures refused { IfRefused result
        (RefusesTarget (nodes (view document.now)) turn.number pointer (tokens path.entry)) }
{
    match locate(turn.alloc, document, path) {
        Ok(located) => Ok(located.location),
        Err(fault) => Err(no_target(turn.number, pointer, fault)),
    }
}
