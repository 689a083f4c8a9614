//! Assigning in a text.
ghost use Rattle.std.specs.Prelude.{◌≡◌, IsTrue, IfOk, IfErr, IfSome, IsSome, string_bytes};
ghost use Rattle.toml.specs.Data.{Data};
ghost use Rattle.toml.specs.View.{view};
ghost use Rattle.jsonptr.specs.Pointer.{tokens};
ghost use Rattle.jsonptr.specs.TomlValue.{FindsValue};
ghost use Rattle.jsonptr_toml.specs.InToml.{ReadsAsToml, AssignsAndPrintsToml, PrintsAs, IsPrintTomlError};
ghost use Rattle.jsonptr_text_step.specs.Bytes.{KeepsBytes};
ghost use Rattle.jsonptr_text_step.specs.EditInText.{edited_text};
ghost use Rattle.jsonptr_toml_edit.specs.EditInToml.{AssignsInToml, IsPrinted};
ghost use Rattle.jsonptr_toml_edit.specs.Bytes.{AssignsTomlBytes, IsWholeText, ReplacesOne};
ghost use Rattle.jsonptr_toml_edit.specs.Failing.{IsAssignInTomlError};

use crate::add::plan_addition;
use crate::alone::{are_items_of, is_filler, is_one_toml_child, joined};
use crate::open::make_alone;
use crate::plan::{AdditionPlan, ReplacementPlan};
use crate::read_back::{has_deep_values, is_document_of, is_text_of};
use crate::replace::plan_replacement;
use crate::run::is_run;
use jsonptr::{Assign, Fault, Pointer, Resolve, assign};
use jsonptr_text_piece::cut::{Cut, cut_at, splice};
use jsonptr_text_step::Stepped;
use jsonptr_toml::depth::{MAX_TOML_DEPTH, has_too_many_tokens, toml_nests_within};
use jsonptr_toml::document::{print_toml, read_toml};
use jsonptr_toml::{EditTomlError, PrintTomlError};
use jsonptr_value::discard;
use std::alloc::{AllocError, Global};
use toml::Value;
use toml_parser::bytes::is_word;
use toml_parser::text::{byte_at, first};

/// Assigns the value, which has no text of its own, at the pointer in the document that the text contains.
///
/// # Errors
///
/// Those of [`edit_toml`](crate::edit_toml) for an assignment.
pub fn assign_value_in_toml(
    alloc: Global,
    text: &str,
    pointer: Pointer<'_>,
    value: &Value,
) -> Result<Stepped, EditTomlError<assign::Error>>
    ensures assigned { IfOk result (λ e. AssignsInToml text.now (tokens pointer.entry)
        (view value.now) (edited_text e)) }
    ensures bytes { IfOk result (KeepsBytes
        (AssignsTomlBytes text.now (tokens pointer.entry) (view value.now))) }
    ensures printed { IfOk result (IsPrinted
        (AssignsAndPrintsToml text.now (tokens pointer.entry) (view value.now))) }
    ensures refused { IfErr result
        (IsAssignInTomlError text.now (tokens pointer.entry) (view value.now)) }
{
    let mut document = read_toml(alloc, text)?;
    if has_too_many_tokens(pointer) {
        return Err(EditTomlError::TooDeep);
    }
    let candidate = candidate_of(alloc, text, &document, pointer, value)?;
    let copy = value.clone()?;
    match document.assign(alloc, pointer, copy) {
        Ok(_) => Ok(choose(alloc, candidate, document)?),
        Err(Fault::Refused(error)) => Err(EditTomlError::Refused(error)),
        Err(Fault::Memory(error)) => Err(EditTomlError::Memory(error)),
    }
}

/// Returns the candidate if it is a text of the document, and the document printed anew if not. Drops
/// the document.
///
/// # Errors
///
/// Those of [`print_toml`].
pub fn choose(
    alloc: Global,
    candidate: Option<String>,
    document: Value,
) -> Result<Stepped, PrintTomlError>
    ensures document { IfOk result (λ e. ReadsAsToml (edited_text e) (view document)) }
    ensures in_place { IfOk result (KeepsBytes (λ s. IfSome candidate (λ c. s ≡ string_bytes c))) }
    ensures has_candidate { IfOk result (KeepsBytes (λ s. IsSome candidate)) }
    ensures printed { IfOk result (IsPrinted (PrintsAs (view document))) }
    ensures refused { IfErr result (IsPrintTomlError (view document)) }
{
    if has_deep_values(&document) {
        discard(document);
        return Err(PrintTomlError::TooDeep);
    }
    if let Some(new) = candidate {
        if is_document_of(alloc, new.as_str(), &document)? {
            return Ok(Stepped::InPlace(new));
        }
    }
    Ok(Stepped::Rewritten(print_toml(alloc, document)?))
}

/// Returns the text with one piece changed, if there is a plan for it.
fn candidate_of(
    alloc: Global,
    text: &str,
    document: &Value,
    pointer: Pointer<'_>,
    value: &Value,
) -> Result<Option<String>, AllocError>
    ensures { ReadsAsToml text.now (view document.now) → IfOk result (λ new. IfSome new
        (λ s. AssignsTomlBytes text.now (tokens pointer.entry) (view value.now) (string_bytes s))) }
{
    // a deeper value makes the document too deep
    if !toml_nests_within(value, MAX_TOML_DEPTH) {
        return Ok(None);
    }
    match document.resolve(alloc, pointer) {
        Ok(found) => match plan_replacement(alloc, text, pointer, value)? {
            Some(plan) => {
                let exchange = Exchange {
                    pointer,
                    old: found,
                    new: value,
                };
                replaced(alloc, text, &exchange, &plan)
            }
            None => Ok(None),
        },
        Err(Fault::Refused(_)) => match plan_addition(alloc, text, document, pointer, value)? {
            Some(plan) => added(alloc, text, pointer, value, &plan),
            None => Ok(None),
        },
        Err(Fault::Memory(error)) => Err(error),
    }
}

/// A value that becomes another one.
#[derive(Clone, Copy, Debug)]
pub struct Exchange<'v> {
    /// The pointer that resolves to it.
    pub pointer: Pointer<'v>,
    /// The value.
    pub old: &'v Value,
    /// The other value.
    pub new: &'v Value,
}

/// Returns the text with the text of the old value, or what makes it, replaced, if the plan is right.
///
/// # Errors
///
/// [`AllocError`] if an allocation fails.
pub fn replaced(
    alloc: Global,
    text: &str,
    exchange: &Exchange<'_>,
    plan: &ReplacementPlan,
) -> Result<Option<String>, AllocError>
    ensures { (d : Data) → ReadsAsToml text.now d
        → FindsValue d (tokens exchange.now.pointer) (view exchange.now.old.now)
        → IfOk result (λ new. IfSome new (λ s. AssignsTomlBytes text.now
        (tokens exchange.now.pointer) (view exchange.now.new.now) (string_bytes s))) }
{
    let Some(cut) = cut_at(text, plan.span.from, plan.span.to) else {
        return Ok(None);
    };
    if !is_replacement(alloc, &cut, exchange, plan)? {
        return Ok(None);
    }
    Ok(Some(splice(alloc, &cut, plan.piece.as_str())?))
}

/// Returns whether the piece that is cut is the text of the old value, and the new one a text of the
/// new value. Or, if headers or dotted keys make the old value, whether the piece is these, without
/// what is above and below, and the new one pairs and headers that hold the new value.
fn is_replacement(
    alloc: Global,
    cut: &Cut<'_>,
    exchange: &Exchange<'_>,
    plan: &ReplacementPlan,
) -> Result<bool, AllocError>
    ensures { IfOk result (λ is. IsTrue is
        → ReplacesOne (tokens exchange.now.pointer) (view exchange.now.old.now)
        (view exchange.now.new.now) cut.now.middle.now (string_bytes plan.now.piece)
        cut.now.before.now cut.now.after.now) }
{
    let Exchange { pointer, old, new } = *exchange;
    let piece = plan.piece.as_str();
    match &plan.items {
        None => Ok(is_whole_text(alloc, cut, old)? && is_text_of(alloc, piece, new)?),
        Some(items) => Ok(
            make_alone(alloc, cut.middle, pointer, items.old_keys.as_ptr(), old)?
                && is_run(alloc, cut.middle, items.last)?
                && are_items_of(alloc, piece, pointer, items.new_keys.as_ptr(), new)?,
        ),
    }
}

/// Returns whether the piece that is cut is a text of the value, and no number, date-time or word goes
/// on beside it.
fn is_whole_text(alloc: Global, cut: &Cut<'_>, value: &Value) -> Result<bool, AllocError>
    ensures { IfOk result (λ is. IsTrue is → IsWholeText (view value.now) cut.now.middle.now
        cut.now.before.now cut.now.after.now) }
{
    let last = byte_at(cut.before, cut.before.len().saturating_sub(1));
    Ok(!is_word(last) && !is_word(first(cut.after)) && is_text_of(alloc, cut.middle, value)?)
}

/// Returns the text with a member or an element added, if the plan is right.
///
/// # Errors
///
/// [`AllocError`] if an allocation fails.
pub fn added(
    alloc: Global,
    text: &str,
    pointer: Pointer<'_>,
    value: &Value,
    plan: &AdditionPlan,
) -> Result<Option<String>, AllocError>
    ensures { IfOk result (λ new. IfSome new
        (λ s. AssignsTomlBytes text.now (tokens pointer.entry) (view value.now) (string_bytes s))) }
{
    let Some(cut) = cut_at(text, plan.span.from, plan.span.to) else {
        return Ok(None);
    };
    let piece = joined(alloc, plan.lead.as_str(), cut.middle, plan.rest.as_str())?;
    if !is_one_toml_child(alloc, piece.as_str(), pointer, &plan.child, value)? {
        return Ok(None);
    }
    if !is_filler(alloc, cut.middle)? {
        return Ok(None);
    }
    Ok(Some(splice(alloc, &cut, piece.as_str())?))
}
