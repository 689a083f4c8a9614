//! Finding, assigning and deleting in a TOML text.
ghost use Rattle.std.specs.Prelude.{IfOk, IfErr, MatchOption, string_bytes};
ghost use Rattle.toml.specs.View.{view};
ghost use Rattle.jsonptr.specs.Pointer.{tokens};
ghost use Rattle.jsonptr_toml.specs.InToml.{FindsInToml, AssignsAndPrintsToml, DeletesAndPrintsToml, LacksInToml, IsInTomlError, IsAssignAndPrintError, IsDeleteAndPrintError};

use crate::depth::has_too_many_tokens;
use crate::document::{print_toml, read_toml};
use crate::error::{EditTomlError, InTomlError};
use jsonptr::{Assign, Delete, Fault, Pointer, Resolve, assign};
use std::alloc::Global;
use std::convert::Infallible;
use toml::Value;

/// Returns the value that the pointer resolves to in the document that the text contains.
///
/// # Errors
///
/// - [`InTomlError::NotToml`] if the text is not TOML.
/// - [`InTomlError::DocumentTooDeep`] if the values of the document nest deeper than 80.
/// - [`InTomlError::Resolve`] if the pointer does not resolve to a value.
/// - [`InTomlError::Memory`] if an allocation fails.
///
/// # Examples
///
/// ```rust
/// let port = Pointer::parse("/server/port")?;
/// let value = resolve_in_toml(alloc, "[server]\nport = 80\n", port)?;
/// assert_eq!(rt; value.as_integer(), Some(80));
/// ```
pub fn resolve_in_toml(
    alloc: Global,
    text: &str,
    pointer: Pointer<'_>,
) -> Result<Value, InTomlError>
    ensures found { IfOk result (λ v. FindsInToml text.now (tokens pointer.entry) (view v)) }
    ensures refused { IfErr result (IsInTomlError text.now (tokens pointer.entry)) }
{
    let document = read_toml(alloc, text)?;
    match document.resolve(alloc, pointer) {
        Ok(found) => Ok(found.clone()?),
        Err(Fault::Refused(error)) => Err(InTomlError::Resolve(error)),
        Err(Fault::Memory(error)) => Err(InTomlError::Memory(error)),
    }
}

/// Assigns the value at the pointer, and returns the text of the new document.
///
/// # Errors
///
/// - [`EditTomlError::NotToml`] if the text is not TOML.
/// - [`EditTomlError::DocumentTooDeep`] if the values of the document nest deeper than 80.
/// - [`EditTomlError::TooDeep`] if the pointer has more than 81 tokens.
/// - [`EditTomlError::Refused`] if no value can be assigned at the pointer.
/// - [`EditTomlError::TooDeep`] if the values of the new document nest deeper than 80.
/// - [`EditTomlError::NoText`] if the new document is not a table, or has a date-time that TOML has no
///   text for.
/// - [`EditTomlError::Memory`] if an allocation fails.
///
/// # Examples
///
/// ```rust
/// let port = Pointer::parse("/port")?;
/// let new = assign_and_print_toml(alloc, "port = 80 # as ever\n", port, 8080.into())?;
/// assert_eq!(rt; new.as_str(), "port = 8080\n");
/// ```
pub fn assign_and_print_toml(
    alloc: Global,
    text: &str,
    pointer: Pointer<'_>,
    value: Value,
) -> Result<String, EditTomlError<assign::Error>>
    ensures assigned { IfOk result (λ s. AssignsAndPrintsToml text.now (tokens pointer.entry) (view value)
        (string_bytes s)) }
    ensures refused { IfErr result (IsAssignAndPrintError text.now (tokens pointer.entry) (view value)) }
{
    let mut document = read_toml(alloc, text)?;
    if has_too_many_tokens(pointer) {
        return Err(EditTomlError::TooDeep);
    }
    match document.assign(alloc, pointer, value) {
        Ok(_) => Ok(print_toml(alloc, document)?),
        Err(Fault::Refused(error)) => Err(EditTomlError::Refused(error)),
        Err(Fault::Memory(error)) => Err(EditTomlError::Memory(error)),
    }
}

/// Deletes the value that the pointer resolves to, and returns the text of the new document. Returns
/// `None` if it resolves to nothing. Deleting the root leaves an empty document.
///
/// # Errors
///
/// - [`EditTomlError::NotToml`] if the text is not TOML.
/// - [`EditTomlError::DocumentTooDeep`] if the values of the document nest deeper than 80.
/// - [`EditTomlError::Memory`] if an allocation fails.
///
/// The clause also allows [`EditTomlError::TooDeep`] and [`EditTomlError::NoText`], as for
/// [`assign_and_print_toml`]. No document is known that has them.
///
/// # Examples
///
/// ```rust
/// let port = Pointer::parse("/port")?;
/// let new = delete_and_print_toml(alloc, "port = 80\nname = 'a'\n", port)?;
/// assert_eq!(rt; new.ok_or("a value")?.as_str(), "name = \"a\"\n");
/// ```
pub fn delete_and_print_toml(
    alloc: Global,
    text: &str,
    pointer: Pointer<'_>,
) -> Result<Option<String>, EditTomlError<Infallible>>
    ensures deleted { IfOk result (λ o. MatchOption o (LacksInToml text.now (tokens pointer.entry))
        (λ s. DeletesAndPrintsToml text.now (tokens pointer.entry) (string_bytes s))) }
    ensures refused { IfErr result (IsDeleteAndPrintError text.now (tokens pointer.entry)) }
{
    let mut document = read_toml(alloc, text)?;
    match document.delete(alloc, pointer)? {
        Some(_) => Ok(Some(print_toml(alloc, document)?)),
        None => Ok(None),
    }
}
