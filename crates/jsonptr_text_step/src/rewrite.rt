//! Changing a document that is read from a text and printed anew.
ghost use Rattle.std.specs.Prelude.{◌≡◌, IfOk, IfErr, Some, MatchOption, string_bytes};
ghost use Rattle.serde_json.specs.Read.{read};
ghost use Rattle.serde_json.specs.View.{view};
ghost use Rattle.jsonptr.specs.Pointer.{tokens};
ghost use Rattle.jsonptr.specs.Json.{nodes};
ghost use Rattle.jsonptr_value.specs.Reading.{IsReadError};
ghost use Rattle.jsonptr_text_step.specs.EditInText.{AssignsInText, DeletesInText, LacksInText, IsAssignError};
ghost use Rattle.jsonptr_text_step.specs.PrivateRewriting.{IsShortened, IsPrintError};
ghost use Rattle.jsonptr_text_step.specs.PatchInText.{PatchesInText, IsPatchError};

use crate::stepped::StepError;
use jsonptr::{Assign, Delete, Fault, Pointer, assign};
use jsonptr_patch::{Comparison, FailedOperation, Operation, apply_naming_pointer};
use jsonptr_value::{MAX_DEPTH, ReadError, discard, nests_within};
use serde_json::Value;
use std::alloc::Global;

/// Reads the text, assigns the value at the pointer, and prints the document.
///
/// # Errors
///
/// Those of [`assign_in_text`](crate::assign_in_text).
pub fn assign_and_print(
    alloc: Global,
    text: &str,
    pointer: Pointer<'_>,
    value: Value,
) -> Result<String, StepError<assign::Error>>
    ensures assigned { IfOk result (λ s. AssignsInText text.now (tokens pointer.entry)
        (nodes (view value)) (string_bytes s)) }
    ensures refused { IfErr result (IsAssignError text.now (tokens pointer.entry)
        (view value)) }
{
    let mut document = jsonptr_value::read(alloc, text)?;
    match document.assign(alloc, shortened(pointer), value) {
        Ok(_) => print_document(alloc, document),
        Err(Fault::Refused(error)) => Err(StepError::Refused(error)),
        Err(Fault::Memory(error)) => Err(StepError::Memory(error)),
    }
}

/// Reads the text, applies the operations, and prints the document.
///
/// # Errors
///
/// Those of [`apply_in_text`](crate::apply_in_text).
pub fn apply_and_print(
    alloc: Global,
    text: &str,
    operations: Vec<Operation>,
) -> Result<String, StepError<FailedOperation>>
    ensures applied { IfOk result
        (λ s. PatchesInText text.now operations.items (string_bytes s)) }
    ensures refused { IfErr result (IsPatchError text.now operations.items) }
{
    let mut document = jsonptr_value::read(alloc, text)?;
    match apply_naming_pointer(alloc, &mut document, operations, Comparison::Numeric) {
        Ok(()) => print_document(alloc, document),
        Err(Fault::Refused(failed)) => Err(StepError::Refused(failed)),
        Err(Fault::Memory(error)) => Err(StepError::Memory(error)),
    }
}

/// Reads the text, deletes the value that the pointer resolves to, and prints the document. Returns
/// `None` if the pointer resolves to nothing.
///
/// # Errors
///
/// Those of [`delete_in_text`](crate::delete_in_text).
pub fn delete_and_print(
    alloc: Global,
    text: &str,
    pointer: Pointer<'_>,
) -> Result<Option<String>, ReadError>
    ensures deleted { IfOk result (λ o. MatchOption o (LacksInText text.now (tokens pointer.entry))
        (λ s. DeletesInText text.now (tokens pointer.entry) (string_bytes s))) }
    ensures refused { IfErr result (IsReadError text.now) }
{
    let mut document = jsonptr_value::read(alloc, text)?;
    match document.delete(alloc, pointer)? {
        None => Ok(None),
        // A deletion makes no document deeper, so its text is read again.
        Some(_) => Ok(Some(document.to_string(alloc)?)),
    }
}

/// Returns the first 128 tokens of the pointer, or all of them if it has fewer.
///
/// A document that is read nests at most 127 deep. So an assignment at the pointer fails for the same
/// token as one at these, and if it does not fail, both documents nest deeper than 127.
fn shortened<'a>(pointer: Pointer<'a>) -> Pointer<'a>
    ensures { IsShortened (tokens pointer.entry) (tokens result) }
{
    match pointer.split_at(MAX_DEPTH + 1) {
        Some((front, _rest)) => front,
        None => pointer,
    }
}

/// Prints the document, and drops it.
///
/// # Errors
///
/// [`StepError::TooDeep`] if it nests deeper than 127, and [`StepError::Memory`] if an allocation
/// fails.
pub fn print_document<E>(alloc: Global, document: Value) -> Result<String, StepError<E>>
    ensures printed { IfOk result (λ s. read (string_bytes s) ≡ Some (view document)) }
    ensures refused { IfErr result (IsPrintError (view document)) }
{
    if nests_within(&document, MAX_DEPTH) {
        return Ok(document.to_string(alloc)?);
    }
    discard(document);
    Err(StepError::TooDeep)
}
