//! Assigning the text of a value in a text.
ghost use Rattle.std.specs.Prelude.{◌≡◌, Some, IfOk, IfErr, IfSome, string_bytes};
ghost use Rattle.toml.specs.View.{view};
ghost use Rattle.jsonptr.specs.Pointer.{tokens};
ghost use Rattle.jsonptr_toml.specs.InToml.{ReadsAsToml, AssignsAndPrintsToml};
ghost use Rattle.jsonptr_text_step.specs.Bytes.{KeepsBytes};
ghost use Rattle.jsonptr_text_step.specs.EditInText.{edited_text};
ghost use Rattle.jsonptr_toml_edit.specs.EditInToml.{AssignsInToml, IsPrinted};
ghost use Rattle.jsonptr_toml_edit.specs.Bytes.{AssignsTomlBytes};
ghost use Rattle.jsonptr_toml_edit.specs.Failing.{IsAssignInTomlError};
ghost use Rattle.jsonptr_toml_edit.specs.Giving.{AssignsTomlGiven};

use crate::assign::{Exchange, added, choose, replaced};
use crate::given::{RawAssignment, is_given};
use crate::given_plan::{GivenForm, plan_given_addition, plan_given_replacement};
use crate::raw_value::RawTomlValue;
use jsonptr::{Assign, Fault, Pointer, Resolve, assign};
use jsonptr_text_step::Stepped;
use jsonptr_toml::EditTomlError;
use jsonptr_toml::depth::{MAX_TOML_DEPTH, has_too_many_tokens, toml_nests_within};
use jsonptr_toml::document::read_toml;
use std::alloc::{AllocError, Global};

/// Assigns the value with its own text at the pointer in the document that the text contains.
///
/// Reads the old text once and the new one twice, once with another value, and scans the old one twice.
/// Copies the document once.
///
/// # Errors
///
/// Those of [`edit_toml`](crate::edit_toml) for an assignment.
pub fn assign_in_toml(
    alloc: Global,
    text: &str,
    pointer: Pointer<'_>,
    raw: &RawTomlValue,
) -> Result<Stepped, EditTomlError<assign::Error>>
    ensures assigned { IfOk result (λ e. AssignsInToml text.now (tokens pointer.entry)
        (view raw.now.value) (edited_text e)) }
    ensures bytes { IfOk result (KeepsBytes
        (AssignsTomlBytes text.now (tokens pointer.entry) (view raw.now.value))) }
    ensures given { IfOk result (KeepsBytes
        (AssignsTomlGiven text.now (tokens pointer.entry) raw.now)) }
    ensures printed { IfOk result (IsPrinted
        (AssignsAndPrintsToml text.now (tokens pointer.entry) (view raw.now.value))) }
    ensures refused { IfErr result
        (IsAssignInTomlError text.now (tokens pointer.entry) (view raw.now.value)) }
{
    let mut document = read_toml(alloc, text)?;
    if has_too_many_tokens(pointer) {
        return Err(EditTomlError::TooDeep);
    }
    let assignment = RawAssignment {
        text,
        document: &document,
        pointer,
        raw,
    };
    let candidate = candidate_of(alloc, &assignment)?;
    let value = raw.value.clone()?;
    match document.assign(alloc, pointer, value) {
        Ok(_) => Ok(choose(alloc, candidate, document)?),
        Err(Fault::Refused(error)) => Err(EditTomlError::Refused(error)),
        Err(Fault::Memory(error)) => Err(EditTomlError::Memory(error)),
    }
}

/// Returns the text with one piece changed, in which the raw value has its text, if there is a plan for
/// it.
fn candidate_of(alloc: Global, assignment: &RawAssignment<'_>) -> Result<Option<String>, AllocError>
    ensures bytes { ReadsAsToml assignment.now.text.now (view assignment.now.document.now)
        → IfOk result (λ new. IfSome new (λ s. AssignsTomlBytes assignment.now.text.now
        (tokens assignment.now.pointer) (view assignment.now.raw.now.value) (string_bytes s))) }
    ensures given { ReadsAsToml assignment.now.text.now (view assignment.now.document.now)
        → IfOk result (λ new. IfSome new (λ s. AssignsTomlGiven assignment.now.text.now
        (tokens assignment.now.pointer) assignment.now.raw.now (string_bytes s))) }
{
    let RawAssignment {
        text,
        document,
        pointer,
        raw,
    } = *assignment;
    // a deeper value makes the document too deep
    if !toml_nests_within(&raw.value, MAX_TOML_DEPTH) {
        return Ok(None);
    }
    match document.resolve(alloc, pointer) {
        Ok(found) => {
            let Some(given) = plan_given_replacement(alloc, text, pointer, raw)? else {
                return Ok(None);
            };
            let exchange = Exchange {
                pointer,
                old: found,
                new: &raw.value,
            };
            let new = replaced(alloc, text, &exchange, &given.plan)?;
            if_given(alloc, assignment, new, &given.form)
        }
        Err(Fault::Refused(_)) => {
            let Some(given) = plan_given_addition(alloc, text, document, pointer, raw)? else {
                return Ok(None);
            };
            let new = added(alloc, text, pointer, &raw.value, &given.plan)?;
            if_given(alloc, assignment, new, &given.form)
        }
        Err(Fault::Memory(error)) => Err(error),
    }
}

/// Returns the new text, if the raw value is in it as the form says.
fn if_given(
    alloc: Global,
    assignment: &RawAssignment<'_>,
    new: Option<String>,
    form: &GivenForm,
) -> Result<Option<String>, AllocError>
    ensures same { IfOk result (λ kept. IfSome kept (λ s. new ≡ Some s)) }
    ensures given { ReadsAsToml assignment.now.text.now (view assignment.now.document.now)
        → IfOk result (λ kept. IfSome kept (λ s. AssignsTomlGiven assignment.now.text.now
        (tokens assignment.now.pointer) assignment.now.raw.now (string_bytes s))) }
{
    let Some(new) = new else {
        return Ok(None);
    };
    if is_given(alloc, assignment, new.as_str(), form)? {
        Ok(Some(new))
    } else {
        Ok(None)
    }
}
