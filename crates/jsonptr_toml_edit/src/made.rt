//! An edit of a TOML text by its kind.
ghost use Rattle.std.specs.Prelude.{IfOk, IfErr, List};
ghost use Rattle.toml.specs.Data.{Data};
ghost use Rattle.toml.specs.View.{view};
ghost use Rattle.jsonptr.specs.Pointer.{tokens};
ghost use Rattle.jsonptr.specs.Text.{Text};
ghost use Rattle.jsonptr_toml.specs.InToml.{AssignsAndPrintsToml, DeletesAndPrintsToml};
ghost use Rattle.jsonptr_text_step.specs.Bytes.{KeepsBytes};
ghost use Rattle.jsonptr_text_step.specs.EditInText.{edited_text};
ghost use Rattle.jsonptr_toml_edit.specs.EditInToml.{AssignsInToml, DeletesInToml, IsPrinted};
ghost use Rattle.jsonptr_toml_edit.specs.Bytes.{AssignsTomlBytes, DeletesTomlBytes};
ghost use Rattle.jsonptr_toml_edit.specs.Failing.{IsAssignInTomlError, IsDeleteInTomlError};
ghost use Rattle.jsonptr_toml_edit.specs.Giving.{AssignsTomlGiven};
ghost use Rattle.jsonptr_toml_edit.specs.Renaming.{RenamesInToml, RenamesAndPrintsToml, RenamesTomlBytes, IsRenameInTomlError};
ghost use Rattle.jsonptr_toml_edit.specs.TomlEdits.{EditsToml, TomlEditBytes, EditsAndPrintsToml};
ghost use Rattle.jsonptr_toml_edit.specs.TomlEditErrors.{FailsToAssignInToml, FailsToDeleteInToml, FailsToRenameInToml, IsTomlEditError};

use crate::assign::assign_value_in_toml;
use crate::assign_given::assign_in_toml;
use crate::delete::delete_in_toml;
use crate::edit::TomlEdit;
use crate::edit_error::TomlEditError;
use crate::raw_value::RawTomlValue;
use crate::rename::rename_in_toml;
use jsonptr::{Pointer, assign};
use jsonptr_text_step as text_step;
use jsonptr_text_step::RenameError;
use jsonptr_toml::EditTomlError;
use std::alloc::Global;
use std::convert::Infallible;
use toml::Value;

/// Makes the edit in the text: in place if that is possible, and else in the document, which is printed.
///
/// # Errors
///
/// Those of [`edit_toml`](crate::edit_toml).
pub fn make(
    alloc: Global,
    text: &str,
    edit: &TomlEdit<'_>,
) -> Result<text_step::Stepped, TomlEditError>
    ensures edited { IfOk result (λ e. EditsToml text.now edit.now (edited_text e)) }
    ensures bytes { IfOk result (KeepsBytes (TomlEditBytes text.now edit.now)) }
    ensures printed { IfOk result (IsPrinted (EditsAndPrintsToml text.now edit.now)) }
    ensures refused { IfErr result (IsTomlEditError text.now edit.now) }
{
    match edit {
        TomlEdit::Assign(pointer, raw) => assigned(alloc, text, *pointer, raw),
        TomlEdit::AssignValue(pointer, value) => value_assigned(alloc, text, *pointer, value),
        TomlEdit::Delete(pointer) => deleted(alloc, text, *pointer),
        TomlEdit::Rename(pointer, key) => renamed(alloc, text, *pointer, key),
    }
}

/// Assigns the value with its own text at the pointer.
fn assigned(
    alloc: Global,
    text: &str,
    pointer: Pointer<'_>,
    raw: &RawTomlValue,
) -> Result<text_step::Stepped, TomlEditError>
    ensures edited { IfOk result (λ e. AssignsInToml text.now (tokens pointer.entry)
        (view raw.now.value) (edited_text e)) }
    ensures bytes { IfOk result (KeepsBytes (λ s. AssignsTomlBytes text.now
        (tokens pointer.entry) (view raw.now.value) s
        × AssignsTomlGiven text.now (tokens pointer.entry) raw.now s)) }
    ensures printed { IfOk result (IsPrinted
        (AssignsAndPrintsToml text.now (tokens pointer.entry) (view raw.now.value))) }
    ensures refused { IfErr result
        (FailsToAssignInToml text.now (tokens pointer.entry) (view raw.now.value)) }
{
    match assign_in_toml(alloc, text, pointer, raw) {
        Ok(edited) => Ok(edited),
        Err(error) => Err(assign_error(error)),
    }
}

/// Assigns the value at the pointer.
fn value_assigned(
    alloc: Global,
    text: &str,
    pointer: Pointer<'_>,
    value: &Value,
) -> Result<text_step::Stepped, TomlEditError>
    ensures edited { IfOk result (λ e. AssignsInToml text.now (tokens pointer.entry)
        (view value.now) (edited_text e)) }
    ensures bytes { IfOk result (KeepsBytes
        (AssignsTomlBytes text.now (tokens pointer.entry) (view value.now))) }
    ensures printed { IfOk result (IsPrinted
        (AssignsAndPrintsToml text.now (tokens pointer.entry) (view value.now))) }
    ensures refused { IfErr result
        (FailsToAssignInToml text.now (tokens pointer.entry) (view value.now)) }
{
    match assign_value_in_toml(alloc, text, pointer, value) {
        Ok(edited) => Ok(edited),
        Err(error) => Err(assign_error(error)),
    }
}

/// Deletes the value that the pointer resolves to.
fn deleted(
    alloc: Global,
    text: &str,
    pointer: Pointer<'_>,
) -> Result<text_step::Stepped, TomlEditError>
    ensures edited { IfOk result
        (λ e. DeletesInToml text.now (tokens pointer.entry) (edited_text e)) }
    ensures bytes { IfOk result
        (KeepsBytes (DeletesTomlBytes text.now (tokens pointer.entry))) }
    ensures printed { IfOk result
        (IsPrinted (DeletesAndPrintsToml text.now (tokens pointer.entry))) }
    ensures refused { IfErr result (FailsToDeleteInToml text.now (tokens pointer.entry)) }
{
    match delete_in_toml(alloc, text, pointer) {
        Ok(Some(edited)) => Ok(edited),
        Ok(None) => Err(TomlEditError::NotThere),
        Err(error) => Err(delete_error(error)),
    }
}

/// Renames the member that the pointer resolves to.
fn renamed(
    alloc: Global,
    text: &str,
    pointer: Pointer<'_>,
    key: &str,
) -> Result<text_step::Stepped, TomlEditError>
    ensures edited { IfOk result
        (λ e. RenamesInToml text.now (tokens pointer.entry) key.now (edited_text e)) }
    ensures bytes { IfOk result
        (KeepsBytes (RenamesTomlBytes text.now (tokens pointer.entry) key.now)) }
    ensures printed { IfOk result
        (IsPrinted (RenamesAndPrintsToml text.now (tokens pointer.entry) key.now)) }
    ensures refused { IfErr result (FailsToRenameInToml text.now (tokens pointer.entry) key.now) }
{
    match rename_in_toml(alloc, text, pointer, key) {
        Ok(edited) => Ok(edited),
        Err(error) => Err(rename_error(error)),
    }
}

/// Returns the error of an assignment.
fn assign_error(error: EditTomlError<assign::Error>) -> TomlEditError
    ensures { (old : Text) (ts : List Text) (v : Data)
        → IsAssignInTomlError old ts v error → FailsToAssignInToml old ts v result }
{
    match error {
        EditTomlError::NotToml => TomlEditError::NotToml,
        EditTomlError::DocumentTooDeep => TomlEditError::DocumentTooDeep,
        EditTomlError::Refused(error) => TomlEditError::Assign(error),
        EditTomlError::TooDeep => TomlEditError::TooDeep,
        EditTomlError::NoText => TomlEditError::NoText,
        EditTomlError::Memory(error) => TomlEditError::Memory(error),
    }
}

/// Returns the error of a deletion.
fn delete_error(error: EditTomlError<Infallible>) -> TomlEditError
    ensures { (old : Text) (ts : List Text)
        → IsDeleteInTomlError old ts error → FailsToDeleteInToml old ts result }
{
    match error {
        EditTomlError::NotToml => TomlEditError::NotToml,
        EditTomlError::DocumentTooDeep => TomlEditError::DocumentTooDeep,
        EditTomlError::Refused(error) => match error {},
        EditTomlError::TooDeep => TomlEditError::TooDeep,
        EditTomlError::NoText => TomlEditError::NoText,
        EditTomlError::Memory(error) => TomlEditError::Memory(error),
    }
}

/// Returns the error of a renaming.
fn rename_error(error: EditTomlError<RenameError>) -> TomlEditError
    ensures { (old : Text) (ts : List Text) (k : Text)
        → IsRenameInTomlError old ts k error → FailsToRenameInToml old ts k result }
{
    match error {
        EditTomlError::NotToml => TomlEditError::NotToml,
        EditTomlError::DocumentTooDeep => TomlEditError::DocumentTooDeep,
        EditTomlError::Refused(error) => TomlEditError::Rename(error),
        EditTomlError::TooDeep => TomlEditError::TooDeep,
        EditTomlError::NoText => TomlEditError::NoText,
        EditTomlError::Memory(error) => TomlEditError::Memory(error),
    }
}
