//! Two edits in a TOML text that keep its comments, as in a manifest that people keep by hand.
ghost use Rattle.std.specs.Prelude.{IfOk, IfSome, MatchOption, string_bytes};
ghost use Rattle.toml.specs.View.{view};
ghost use Rattle.jsonptr.specs.Pointer.{tokens};
ghost use Rattle.jsonptr_toml.specs.InToml.{LacksInToml};
ghost use Rattle.jsonptr_toml_edit.specs.Bytes.{AssignsTomlBytes, DeletesTomlBytes};
ghost use Rattle.jsonptr_toml_edit.specs.EditInToml.{AssignsInToml, DeletesInToml};
ghost use Rattle.jsonptr_uses.specs.EditsInToml.{AssignsAndDeletes, AssignsAndLacks};

use jsonptr::Pointer;
use jsonptr_toml_edit::{Edited, TomlEdit, TomlEditError, edit_toml};
use std::alloc::Global;
use thiserror::Error;
use toml::Value;

/// Why the two edits are not made.
#[derive(Debug, Drop, Error)]
pub enum TwoEditsError {
    /// The new value is not assigned.
    #[error(transparent)]
    Assign(TomlEditError),
    /// The old value is not deleted.
    #[error(transparent)]
    Delete(TomlEditError),
    /// One of them would lose the comments and the layout.
    #[error("document cannot be edited in place")]
    NotInPlace,
}

/// Assigns a value at one pointer and deletes the one at another, in place or not at all, as an option that
/// another one replaces. Returns `None` if there is nothing to delete.
///
/// # Errors
///
/// [`TwoEditsError::Assign`] and [`TwoEditsError::Delete`] with the error of [`edit_toml`], and
/// [`TwoEditsError::NotInPlace`] where it prints the document anew. The text is borrowed, so nothing is
/// changed by half.
pub fn replace_in_toml(
    alloc: Global,
    text: &str,
    new: Pointer<'_>,
    value: Value,
    old: Pointer<'_>,
) -> Result<Option<String>, TwoEditsError>
    ensures { IfOk result (λ o. MatchOption o
        (AssignsAndLacks text.now (tokens new.entry) (view value) (tokens old.entry))
        (λ s. AssignsAndDeletes text.now (tokens new.entry) (view value)
        (tokens old.entry) (string_bytes s))) }
{
    let both = assigned(alloc, text, new, value)?;
    deleted(alloc, both.as_str(), old)
}

/// Assigns the value at the pointer in place.
fn assigned(
    alloc: Global,
    text: &str,
    pointer: Pointer<'_>,
    value: Value,
) -> Result<String, TwoEditsError>
    ensures assigned { IfOk result (λ s.
        AssignsInToml text.now (tokens pointer.entry) (view value) (string_bytes s)) }
    ensures bytes { IfOk result (λ s.
        AssignsTomlBytes text.now (tokens pointer.entry) (view value) (string_bytes s)) }
{
    match edit_toml(alloc, text, &TomlEdit::AssignValue(pointer, value)) {
        Ok(Edited::InPlace(new)) => Ok(new),
        Ok(Edited::Reprinted(_new)) => Err(TwoEditsError::NotInPlace),
        Err(error) => Err(TwoEditsError::Assign(error)),
    }
}

/// Deletes the value that the pointer resolves to in place. Returns `None` if it resolves to nothing.
fn deleted(alloc: Global, text: &str, pointer: Pointer<'_>) -> Result<Option<String>, TwoEditsError>
    ensures deleted { IfOk result (λ o. MatchOption o (LacksInToml text.now (tokens pointer.entry))
        (λ s. DeletesInToml text.now (tokens pointer.entry) (string_bytes s))) }
    ensures bytes { IfOk result (λ o. IfSome o
        (λ s. DeletesTomlBytes text.now (tokens pointer.entry) (string_bytes s))) }
{
    match edit_toml(alloc, text, &TomlEdit::Delete(pointer)) {
        Ok(Edited::InPlace(new)) => Ok(Some(new)),
        Ok(Edited::Reprinted(_new)) => Err(TwoEditsError::NotInPlace),
        Err(TomlEditError::NotThere) => Ok(None),
        Err(error) => Err(TwoEditsError::Delete(error)),
    }
}
