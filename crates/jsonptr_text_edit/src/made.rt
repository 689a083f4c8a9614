//! An edit of a text by its kind.
ghost use Rattle.std.specs.Prelude.{◌≡◌, IfOk, IfErr};
ghost use Rattle.jsonptr.specs.Pointer.{tokens};
ghost use Rattle.jsonptr.specs.Json.{nodes};
ghost use Rattle.jsonptr_text_step.specs.Bytes.{KeepsBytes, DeletesBytes};
ghost use Rattle.jsonptr_text_step.specs.EditInText.{edited_text, AssignsInText, DeletesInText};
ghost use Rattle.jsonptr_text_step.specs.Giving.{AssignsGiven};
ghost use Rattle.jsonptr_text_step.specs.PatchInText.{PatchesInText};
ghost use Rattle.jsonptr_text_step.specs.RawPatching.{RawPatchBytes};
ghost use Rattle.jsonptr_text_step.specs.Renaming.{RenamesInText, RenamesBytes};
ghost use Rattle.jsonptr_text_value.specs.Operations.{operations_in};
ghost use Rattle.jsonptr_text_value.specs.Raw.{value_of_raw};
ghost use Rattle.jsonptr_text_edit.specs.Edits.{EditsText, EditBytes};
ghost use Rattle.jsonptr_text_edit.specs.Errors.{FailsToAssign, FailsToDelete, FailsToRename, FailsToPatch, IsEditError};
ghost use Rattle.jsonptr_text_edit.specs.PrivateErrors.{of_assign_error, of_read_error, of_rename_error};

use crate::by_document::apply_and_print;
use crate::edit::Edit;
use crate::edit_error::EditError;
use jsonptr::{Pointer, assign};
use jsonptr_text_piece::buffers::Buffers;
use jsonptr_text_step as text_step;
use jsonptr_text_step::{
    RenameError, apply_in_text, assign_in_text, delete_in_text, rename_in_text,
};
use jsonptr_text_value::{PatchText, RawValue};
use jsonptr_value::ReadError;

/// Makes the edit in the text: in place if that is possible, and else in the document, which is printed.
///
/// # Errors
///
/// Those of [`edit_text`](crate::edit_text).
pub fn make(
    buffers: &mut Buffers,
    text: &str,
    edit: &Edit<'_>,
) -> Result<text_step::Stepped, EditError>
    ensures edited { IfOk result (λ e. EditsText text.now edit.now (edited_text e)) }
    ensures bytes { IfOk result (KeepsBytes (EditBytes text.now edit.now)) }
    ensures refused { IfErr result (IsEditError text.now edit.now) }
{
    match edit {
        Edit::Assign(pointer, raw) => assigned(buffers, text, *pointer, raw),
        Edit::Delete(pointer) => deleted(buffers, text, *pointer),
        Edit::Rename(pointer, key) => renamed(buffers, text, *pointer, key),
        Edit::Patch(patch) => patched(buffers, text, patch),
    }
}

/// Assigns the value at the pointer.
fn assigned(
    buffers: &mut Buffers,
    text: &str,
    pointer: Pointer<'_>,
    raw: &RawValue,
) -> Result<text_step::Stepped, EditError>
    ensures edited { IfOk result (λ e. AssignsInText text.now (tokens pointer.entry)
        (nodes (value_of_raw raw.now)) (edited_text e)) }
    ensures bytes { IfOk result
        (KeepsBytes (AssignsGiven text.now (tokens pointer.entry) raw.now)) }
    ensures refused { IfErr result (FailsToAssign text.now (tokens pointer.entry) raw.now) }
{
    match assign_in_text(buffers, text, pointer, raw) {
        Ok(edited) => Ok(edited),
        Err(error) => Err(assign_error(error)),
    }
}

/// Deletes the value that the pointer resolves to.
fn deleted(
    buffers: &mut Buffers,
    text: &str,
    pointer: Pointer<'_>,
) -> Result<text_step::Stepped, EditError>
    ensures edited { IfOk result
        (λ e. DeletesInText text.now (tokens pointer.entry) (edited_text e)) }
    ensures bytes { IfOk result (KeepsBytes (DeletesBytes text.now (tokens pointer.entry))) }
    ensures refused { IfErr result (FailsToDelete text.now (tokens pointer.entry)) }
{
    match delete_in_text(buffers, text, pointer) {
        Ok(Some(edited)) => Ok(edited),
        Ok(None) => Err(EditError::NotThere),
        Err(error) => Err(read_error(error)),
    }
}

/// Renames the member that the pointer resolves to.
fn renamed(
    buffers: &mut Buffers,
    text: &str,
    pointer: Pointer<'_>,
    key: &str,
) -> Result<text_step::Stepped, EditError>
    ensures edited { IfOk result
        (λ e. RenamesInText text.now (tokens pointer.entry) key.now (edited_text e)) }
    ensures bytes { IfOk result
        (KeepsBytes (RenamesBytes text.now (tokens pointer.entry) key.now)) }
    ensures refused { IfErr result (FailsToRename text.now (tokens pointer.entry) key.now) }
{
    match rename_in_text(buffers, text, pointer, key) {
        Ok(edited) => Ok(edited),
        Err(error) => Err(rename_error(error)),
    }
}

/// Applies the patch.
fn patched(
    buffers: &mut Buffers,
    text: &str,
    patch: &PatchText,
) -> Result<text_step::Stepped, EditError>
    ensures edited { IfOk result (λ e. PatchesInText text.now
        (operations_in patch.now.operations.items) (edited_text e)) }
    ensures bytes { IfOk result (KeepsBytes (RawPatchBytes text.now patch.now.operations.items)) }
    ensures refused { IfErr result
        (FailsToPatch text.now (operations_in patch.now.operations.items)) }
{
    match apply_in_text(buffers, text, patch.operations.as_slice())? {
        Some(new) => Ok(text_step::Stepped::InPlace(new)),
        None => Ok(text_step::Stepped::Rewritten(apply_and_print(buffers.alloc, text, patch)?)),
    }
}

/// Returns the error of an assignment.
fn assign_error(error: text_step::StepError<assign::Error>) -> EditError
    ensures { result ≡ of_assign_error error }
{
    match error {
        text_step::StepError::NotJson => EditError::NotJson,
        text_step::StepError::Refused(error) => EditError::Assign(error),
        text_step::StepError::TooDeep => EditError::TooDeep,
        text_step::StepError::Memory(error) => EditError::Memory(error),
    }
}

/// Returns the error of a deletion.
fn read_error(error: ReadError) -> EditError
    ensures { result ≡ of_read_error error }
{
    match error {
        ReadError::NotJson => EditError::NotJson,
        ReadError::Memory(error) => EditError::Memory(error),
    }
}

/// Returns the error of a renaming.
fn rename_error(error: text_step::StepError<RenameError>) -> EditError
    ensures { result ≡ of_rename_error error }
{
    match error {
        text_step::StepError::NotJson => EditError::NotJson,
        text_step::StepError::Refused(error) => EditError::Rename(error),
        text_step::StepError::TooDeep => EditError::TooDeep,
        text_step::StepError::Memory(error) => EditError::Memory(error),
    }
}
