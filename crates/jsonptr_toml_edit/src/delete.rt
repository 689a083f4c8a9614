//! Deleting in a text.
ghost use Rattle.std.specs.Prelude.{◌≡◌, [], ◌⊎◌, IsTrue, IfOk, IfErr, IfSome, MatchOption, string_bytes};
ghost use Rattle.toml.specs.Data.{Data};
ghost use Rattle.toml.specs.View.{view};
ghost use Rattle.jsonptr.specs.Pointer.{tokens};
ghost use Rattle.jsonptr.specs.TomlValue.{FindsValue};
ghost use Rattle.jsonptr_toml.specs.InToml.{ReadsAsToml, DeletesAndPrintsToml, LacksInToml};
ghost use Rattle.jsonptr_text_step.specs.Bytes.{KeepsBytes};
ghost use Rattle.jsonptr_text_step.specs.EditInText.{edited_text};
ghost use Rattle.jsonptr_toml_edit.specs.EditInToml.{DeletesInToml, IsPrinted};
ghost use Rattle.jsonptr_toml_edit.specs.Bytes.{DeletesTomlBytes, IsEmptyToml, Empties};
ghost use Rattle.jsonptr_toml_edit.specs.Failing.{IsDeleteInTomlError};

use crate::alone::{empty_table, is_alone};
use crate::assign::choose;
use crate::cut_out::is_one_removed;
use crate::plan::{EmptiedParent, RemovalPlan};
use crate::remove::plan_removal;
use jsonptr::{Delete, Fault, Pointer, Resolve};
use jsonptr_text_piece::cut::{cut_at, splice};
use jsonptr_text_step::Stepped;
use jsonptr_toml::EditTomlError;
use jsonptr_toml::document::read_toml;
use std::alloc::{AllocError, Global};
use std::convert::Infallible;
use toml::Value;

/// Deletes the value that the pointer resolves to in the document that the text contains. Returns `None` if
/// it resolves to nothing.
///
/// # Errors
///
/// Those of [`edit_toml`](crate::edit_toml) for a deletion, except that nothing is there.
pub fn delete_in_toml(
    alloc: Global,
    text: &str,
    pointer: Pointer<'_>,
) -> Result<Option<Stepped>, EditTomlError<Infallible>>
    ensures deleted { IfOk result (λ o. MatchOption o (LacksInToml text.now (tokens pointer.entry))
        (λ e. DeletesInToml text.now (tokens pointer.entry) (edited_text e))) }
    ensures bytes { IfOk result (λ o. IfSome o
        (KeepsBytes (DeletesTomlBytes text.now (tokens pointer.entry)))) }
    ensures printed { IfOk result (λ o. IfSome o
        (IsPrinted (DeletesAndPrintsToml text.now (tokens pointer.entry)))) }
    ensures refused { IfErr result (IsDeleteInTomlError text.now (tokens pointer.entry)) }
{
    let mut document = read_toml(alloc, text)?;
    let candidate = candidate_of(alloc, text, &document, pointer)?;
    match document.delete(alloc, pointer)? {
        Some(_) => Ok(Some(choose(alloc, candidate, document)?)),
        None => Ok(None),
    }
}

/// Returns the text with one piece cut out, if there is a plan for it.
fn candidate_of(
    alloc: Global,
    text: &str,
    document: &Value,
    pointer: Pointer<'_>,
) -> Result<Option<String>, AllocError>
    ensures { ReadsAsToml text.now (view document.now) → IfOk result (λ new. IfSome new
        (λ s. DeletesTomlBytes text.now (tokens pointer.entry) (string_bytes s))) }
{
    match document.resolve(alloc, pointer) {
        Ok(found) => match plan_removal(alloc, text, pointer)? {
            Some(plan) => removed(alloc, text, pointer, found, &plan),
            None => Ok(None),
        },
        Err(Fault::Refused(_)) => Ok(None),
        Err(Fault::Memory(error)) => Err(error),
    }
}

/// Returns the text without the member or element that was found, if the plan is right.
fn removed(
    alloc: Global,
    text: &str,
    pointer: Pointer<'_>,
    found: &Value,
    plan: &RemovalPlan,
) -> Result<Option<String>, AllocError>
    ensures { (d : Data) → ReadsAsToml text.now d → FindsValue d (tokens pointer.entry) (view found.now)
        → IfOk result (λ new. IfSome new
        (λ s. DeletesTomlBytes text.now (tokens pointer.entry) (string_bytes s))) }
{
    let Some(cut) = cut_at(text, plan.span.from, plan.span.to) else {
        return Ok(None);
    };
    if !is_one_removed(alloc, &cut, pointer, &plan.child, found)? {
        return Ok(None);
    }
    let Some(left) = &plan.left else {
        return Ok(Some(splice(alloc, &cut, "")?));
    };
    if !is_left(alloc, pointer, left)? {
        return Ok(None);
    }
    Ok(Some(splice(alloc, &cut, left.piece.as_str())?))
}

/// Returns whether the text is that of an empty table or array above the value.
fn is_left(alloc: Global, pointer: Pointer<'_>, left: &EmptiedParent) -> Result<bool, AllocError>
    ensures { IfOk result (λ is. IsTrue is
        → Empties (tokens pointer.entry) (string_bytes left.now.piece)) }
{
    let Some((front, _last)) = pointer.split_back() else {
        return Ok(false);
    };
    let empty = empty_value(alloc, left.is_array);
    is_alone(alloc, left.piece.as_str(), front, &left.keys, &empty)
}

/// Returns an empty array or table.
fn empty_value(alloc: Global, is_array: bool) -> Value
    ensures { IsEmptyToml (view result) }
{
    if is_array {
        Value::Array(Vec::new(alloc))
    } else {
        empty_table(alloc)
    }
}
