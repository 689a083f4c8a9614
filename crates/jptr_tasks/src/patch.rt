//! The operations of a patch document.
ghost use Rattle.std.specs.Prelude.{IfOk, IfErr};
ghost use Rattle.serde_json.specs.View.{view};
ghost use Rattle.jsonptr_patch_document.specs.Document.{IsPatch};
ghost use Rattle.jptr_tasks.specs.PrivateResults.{IsNotPatch};

use crate::task_error::TaskError;
use jsonptr::Fault;
use jsonptr_patch::Operation;
use jsonptr_patch_document::read_patch;
use serde_json::Value;
use std::alloc::Global;

/// Reads the operations of a patch document.
///
/// # Errors
///
/// [`TaskError::NotPatch`] if it is not a patch, and [`TaskError::Memory`] if an allocation fails.
pub fn operations_of(alloc: Global, patch: &Value) -> Result<Vec<Operation>, TaskError>
    ensures patch { IfOk result (λ v. IsPatch (view patch.now) v.items) }
    ensures refused { IfErr result (IsNotPatch (view patch.now)) }
{
    match read_patch(alloc, patch) {
        Ok(operations) => Ok(operations),
        Err(Fault::Refused(error)) => Err(TaskError::NotPatch(error)),
        Err(Fault::Memory(error)) => Err(TaskError::Memory(error)),
    }
}
