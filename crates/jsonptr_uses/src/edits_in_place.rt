//! Edits of a text that people keep under version control: in place only the bytes of the edit change.
ghost use Rattle.std.specs.Prelude.{◌≡◌, ◌⊎◌, ◌∷◌, [], IfOk, IfErr, IfSome, MatchOption, string_bytes};
ghost use Rattle.serde_json.specs.Data.{Data};
ghost use Rattle.jsonptr.specs.Pointer.{tokens};
ghost use Rattle.jsonptr.specs.declared.resolve.Error.{Error};
ghost use Rattle.jsonptr_text_resolve.specs.InText.{FindsInText, RefusesInText};
ghost use Rattle.jsonptr_text_step.specs.EditInText.{LacksInText};
ghost use Rattle.jsonptr_text_step.specs.OneLine.{StaysOneLine};
ghost use Rattle.jsonptr_text_step.specs.PatchInText.{PatchesInText, MovesBytes};
ghost use Rattle.jsonptr_patch.specs.declared.failed_operation.FailedOperation.{FailedOperation as a_failed_operation};
ghost use Rattle.jsonptr_patch.specs.declared.operation.Operation.TheVariants.{Move};
ghost use Rattle.jsonptr_text_value.specs.Operations.{operations_in};
ghost use Rattle.jsonptr_text_edit.specs.Edited.{text_of, IfInPlace};
ghost use Rattle.jsonptr_text_edit.specs.Edits.{EditsText, EditBytes};
ghost use Rattle.jsonptr_text_edit.specs.Errors.{FailsToPatch, IsEditError};
ghost use Rattle.jsonptr_text_edit.specs.declared.edit.Edit.TheVariants.{Assign, Delete};
ghost use Rattle.jsonptr_text_edit.specs.declared.edit_error.EditError.TheVariants.{NotThere, Patch};

use jsonptr::{Pointer, PointerBuf};
use jsonptr_patch::Operation;
use jsonptr_text_edit::{Buffers, Edit, EditError, Edited, PatchText, RawValue, edit_text};
use jsonptr_text_resolve::exists_in_text;
use jsonptr_value::ReadError;
use std::alloc::{AllocError, Global};

/// Assigns the value at a pointer that resolves already, and returns the new text. Returns `None` for
/// any other pointer, so that a misspelt one creates nothing.
///
/// # Errors
///
/// Those of [`edit_text`] for [`Edit::Assign`].
pub fn set_existing(
    buffers: &mut Buffers,
    text: &str,
    pointer: Pointer<'_>,
    raw: RawValue,
) -> Result<Option<Edited>, EditError>
    ensures assigned { IfOk result (λ o. MatchOption o
        ((e : Error) × RefusesInText text.now (tokens pointer.entry) e)
        (λ new. ((d : Data) × FindsInText text.now (tokens pointer.entry) d)
        × EditsText text.now (Assign pointer.entry raw) (text_of new))) }
    ensures bytes { IfOk result (λ o. IfSome o
        (IfInPlace (EditBytes text.now (Assign pointer.entry raw)))) }
    ensures refused { IfErr result (IsEditError text.now (Assign pointer.entry raw)) }
{
    match exists_in_text(buffers.alloc, text, pointer) {
        Ok(true) => {
            let new = edit_text(buffers, text, &Edit::Assign(pointer, raw))?;
            Ok(Some(new))
        }
        Ok(false) => Ok(None),
        Err(ReadError::NotJson) => Err(EditError::NotJson),
        Err(ReadError::Memory(error)) => Err(EditError::Memory(error)),
    }
}

/// Returns the text without the value that the pointer resolves to, or the text itself if there is
/// none.
///
/// # Errors
///
/// Those of [`edit_text`] for [`Edit::Delete`], except [`EditError::NotThere`].
pub fn without(buffers: &mut Buffers, text: &str, pointer: Pointer<'_>) -> Result<Edited, EditError>
    ensures deleted { IfOk result (λ e.
        (EditsText text.now (Delete pointer.entry) (text_of e)
        × IfInPlace (EditBytes text.now (Delete pointer.entry)) e)
        ⊎ (LacksInText text.now (tokens pointer.entry) × (text_of e ≡ text.now))) }
    ensures one_line { IfOk result (IfInPlace (StaysOneLine text.now)) }
    ensures refused { IfErr result (IsEditError text.now (Delete pointer.entry)) }
    ensures never_missing { IfErr result (λ e. e ≡ NotThere → ⊥) }
{
    match edit_text(buffers, text, &Edit::Delete(pointer)) {
        Ok(edited) => Ok(edited),
        Err(EditError::NotThere) => Ok(Edited::InPlace(String::from_str(buffers.alloc, text)?)),
        Err(error) => Err(error),
    }
}

/// Moves the value at `from` to `path`, and returns the new text. The value keeps its own text.
///
/// # Errors
///
/// Those of [`edit_text`] for [`Edit::Patch`], for the operation with the number 0.
pub fn moved(
    buffers: &mut Buffers,
    text: &str,
    from: PointerBuf,
    path: PointerBuf,
) -> Result<Edited, EditError>
    ensures moved { IfOk result (λ e. PatchesInText text.now (Move from path ∷ []) (text_of e)) }
    ensures bytes { IfOk result (IfInPlace (MovesBytes text.now from path)) }
    ensures refused { IfErr result (FailsToPatch text.now (Move from path ∷ [])) }
{
    let patch = patch_of_move(buffers.alloc, from, path)?;
    edit_text(buffers, text, &Edit::Patch(patch))
}

/// Returns the patch of one move.
fn patch_of_move(alloc: Global, from: PointerBuf, path: PointerBuf) -> Result<PatchText, AllocError>
    ensures { IfOk result (λ p. operations_in p.operations.items ≡ Move from path ∷ []) }
{
    PatchText::from_operations(alloc, vec![in alloc; Operation::Move { from, path }]?)
}

/// Brings a text to a new form by an edit, and returns `None` if an operation of its patch fails, as a `test`
/// in a text that has the new form already. One migration serves many texts.
///
/// # Errors
///
/// Those of [`edit_text`], except [`EditError::Patch`].
pub fn migrated(
    buffers: &mut Buffers,
    text: &str,
    migration: &Edit<'_>,
) -> Result<Option<String>, EditError>
    ensures migrated { IfOk result (λ o. MatchOption o
        ((f : a_failed_operation) × IsEditError text.now migration.now (Patch f))
        (λ s. EditsText text.now migration.now (string_bytes s))) }
    ensures refused { IfErr result (IsEditError text.now migration.now) }
    ensures never_refused { IfErr result (λ e. (f : a_failed_operation) → e ≡ Patch f → ⊥) }
{
    match edit_text(buffers, text, migration) {
        Ok(edited) => Ok(Some(edited.or_reprinted())),
        Err(EditError::Patch(_failed)) => Ok(None),
        Err(error) => Err(error),
    }
}
