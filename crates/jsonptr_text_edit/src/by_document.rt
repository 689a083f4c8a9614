//! Applying a patch to the document of a text.
ghost use Rattle.std.specs.Prelude.{◌≡◌, IfOk, IfErr, string_bytes};
ghost use Rattle.jsonptr_text_step.specs.PatchInText.{PatchesInText};
ghost use Rattle.jsonptr_patch_document.specs.Same.{AreSameOperations};
ghost use Rattle.jsonptr_text_value.specs.Operations.{operations_in};
ghost use Rattle.jsonptr_text_edit.specs.Errors.{FailsToPatch};
ghost use Rattle.jsonptr_text_edit.specs.PrivateErrors.{of_patch_error};

use crate::edit_error::EditError;
use jsonptr::Fault;
use jsonptr_patch::{FailedOperation, Operation};
use jsonptr_patch_document::laws::patch_document_law;
use jsonptr_patch_document::read_patch;
use jsonptr_text_step as text_step;
use jsonptr_text_value::PatchText;
use std::alloc::{AllocError, Global};

/// Reads the text, applies the patch to the document, and prints it.
///
/// # Errors
///
/// Those of [`edit_text`](crate::edit_text) for a patch.
pub fn apply_and_print(alloc: Global, text: &str, patch: &PatchText) -> Result<String, EditError>
    ensures edited { IfOk result (λ s. PatchesInText text.now
        (operations_in patch.now.operations.items) (string_bytes s)) }
    ensures refused { IfErr result
        (FailsToPatch text.now (operations_in patch.now.operations.items)) }
{
    let operations = operations_of(alloc, patch)?;
    match text_step::apply_and_print(alloc, text, operations) {
        Ok(new) => Ok(new),
        Err(error) => Err(patch_error(error)),
    }
}

/// Reads the operations of the patch from its document once more. They are the same, with values in other
/// memory.
///
/// # Errors
///
/// [`AllocError`] if an allocation fails.
fn operations_of(alloc: Global, patch: &PatchText) -> Result<Vec<Operation>, AllocError>
    ensures { IfOk result (λ v.
        AreSameOperations v.items (operations_in patch.now.operations.items)) }
{
    patch_document_law();
    match read_patch(alloc, &patch.document) {
        Ok(operations) => Ok(operations),
        Err(Fault::Refused(_error)) => unreachable!(),
        Err(Fault::Memory(error)) => Err(error),
    }
}

/// Returns the error of a patch.
fn patch_error(error: text_step::StepError<FailedOperation>) -> EditError
    ensures { result ≡ of_patch_error error }
{
    match error {
        text_step::StepError::NotJson => EditError::NotJson,
        text_step::StepError::Refused(error) => EditError::Patch(error),
        text_step::StepError::TooDeep => EditError::TooDeep,
        text_step::StepError::Memory(error) => EditError::Memory(error),
    }
}
