//! A TOML file of settings: a default, a setting that goes, and a check of the leaves.
ghost use Rattle.std.specs.Prelude.{◌≡◌, ◌⊎◌, IfOk, IfErr, IsTrue, MatchOption, string_bytes};
ghost use Rattle.toml.specs.Data.{Data};
ghost use Rattle.toml.specs.View.{view};
ghost use Rattle.jsonptr.specs.Pointer.{tokens};
ghost use Rattle.jsonptr_toml.specs.InToml.{FindsInToml, AssignsAndPrintsToml, DeletesAndPrintsToml, LacksInToml, ListsInToml, IsAssignAndPrintError, IsDeleteAndPrintError, IsReadTomlError};
ghost use Rattle.jsonptr_text_paths.specs.declared.listing.Listed.TheVariants.{Leaves};

use jsonptr::{Pointer, assign};
use jsonptr_text_paths::listing::Listed;
use jsonptr_toml::{
    EditTomlError, InTomlError, ReadTomlError, assign_and_print_toml, delete_and_print_toml,
    list_in_toml, resolve_in_toml,
};
use std::alloc::Global;
use std::convert::Infallible;
use toml::Value;

/// Assigns a default value where the pointer resolves to none, and returns the new text. Returns
/// `None` if there is a value.
///
/// # Errors
///
/// Those of [`assign_and_print_toml`].
pub fn with_default(
    alloc: Global,
    text: &str,
    pointer: Pointer<'_>,
    value: Value,
) -> Result<Option<String>, EditTomlError<assign::Error>>
    ensures assigned { IfOk result (λ o. MatchOption o
        ((v : Data) × FindsInToml text.now (tokens pointer.entry) v)
        (λ s. AssignsAndPrintsToml text.now (tokens pointer.entry) (view value) (string_bytes s))) }
    ensures refused { IfErr result (IsAssignAndPrintError text.now (tokens pointer.entry) (view value)) }
{
    match resolve_in_toml(alloc, text, pointer) {
        Ok(_found) => Ok(None),
        Err(InTomlError::Resolve(_error)) => {
            let new = assign_and_print_toml(alloc, text, pointer, value)?;
            Ok(Some(new))
        }
        Err(InTomlError::NotToml) => Err(EditTomlError::NotToml),
        Err(InTomlError::DocumentTooDeep) => Err(EditTomlError::DocumentTooDeep),
        Err(InTomlError::Memory(error)) => Err(EditTomlError::Memory(error)),
    }
}

/// Returns the text without a setting, or the text itself if it has none.
///
/// # Errors
///
/// Those of [`delete_and_print_toml`].
pub fn without_setting(
    alloc: Global,
    text: &str,
    pointer: Pointer<'_>,
) -> Result<String, EditTomlError<Infallible>>
    ensures deleted { IfOk result (λ s. DeletesAndPrintsToml text.now (tokens pointer.entry) (string_bytes s)
        ⊎ (LacksInToml text.now (tokens pointer.entry) × (string_bytes s ≡ text.now))) }
    ensures refused { IfErr result (IsDeleteAndPrintError text.now (tokens pointer.entry)) }
{
    match delete_and_print_toml(alloc, text, pointer)? {
        Some(new) => Ok(new),
        None => Ok(String::from_str(alloc, text)?),
    }
}

/// Returns whether the leaves of the document of the text are these lines, as a test of a file of
/// settings asks.
///
/// # Errors
///
/// Those of [`list_in_toml`].
pub fn has_leaves(alloc: Global, text: &str, lines: &str) -> Result<bool, ReadTomlError>
    ensures leaves { IfOk result (λ same. IsTrue same → ListsInToml Leaves text.now lines.now) }
    ensures refused { IfErr result (IsReadTomlError text.now) }
{
    let listed = list_in_toml(alloc, text, Listed::Leaves)?;
    Ok(listed.as_str() == lines)
}
