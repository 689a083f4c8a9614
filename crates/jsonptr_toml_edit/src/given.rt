//! Whether a value has its own text where it is assigned.
ghost use Rattle.std.specs.Prelude.{◌≡◌, ◌++◌, IsTrue, IfOk, string_bytes};
ghost use Rattle.toml.specs.View.{view};
ghost use Rattle.jsonptr.specs.Pointer.{tokens};
ghost use Rattle.jsonptr_toml.specs.InToml.{ReadsAsToml};
ghost use Rattle.jsonptr_toml_edit.specs.Giving.{TakesOther, HasText, PutsHeaders, AssignsTomlGiven};

use crate::alone::joined;
use crate::given_plan::{GivenForm, GivenHeaders};
use crate::open::make_alone;
use crate::raw_value::RawTomlValue;
use crate::read_back::{is_document_of, is_text_of};
use jsonptr::{Assign, Fault, Pointer};
use jsonptr_text_piece::cut::{Cut, cut_at, splice};
use jsonptr_text_piece::span::Span;
use std::alloc::{AllocError, Global};
use toml::Value;
use toml_parser::bytes::is_word;
use toml_parser::text::{byte_at, first};

/// An assignment of a raw value in a text.
#[derive(Clone, Copy, Debug)]
pub struct RawAssignment<'a> {
    /// The text.
    pub text: &'a str,
    /// The document that it contains.
    pub document: &'a Value,
    /// The pointer.
    pub pointer: Pointer<'a>,
    /// The raw value.
    pub raw: &'a RawTomlValue,
}

/// Returns whether the raw value is in the new text as the form says.
///
/// # Errors
///
/// [`AllocError`] if an allocation fails.
pub fn is_given(
    alloc: Global,
    assignment: &RawAssignment<'_>,
    new: &str,
    form: &GivenForm,
) -> Result<bool, AllocError>
    ensures { ReadsAsToml assignment.now.text.now (view assignment.now.document.now)
        → IfOk result (λ is. IsTrue is → AssignsTomlGiven assignment.now.text.now
        (tokens assignment.now.pointer) assignment.now.raw.now new.now) }
{
    match form {
        GivenForm::Text(span) => has_text(alloc, assignment, new, *span),
        GivenForm::Headers(headers) => puts_headers(alloc, assignment, new, headers),
    }
}

/// Returns whether the text of the raw value is at the span of the new text, and is that of the value at
/// the pointer.
fn has_text(
    alloc: Global,
    assignment: &RawAssignment<'_>,
    new: &str,
    span: Span,
) -> Result<bool, AllocError>
    ensures { ReadsAsToml assignment.now.text.now (view assignment.now.document.now)
        → IfOk result (λ has. IsTrue has → HasText assignment.now.text.now
        (tokens assignment.now.pointer) (view assignment.now.raw.now.value)
        (string_bytes assignment.now.raw.now.text) new.now) }
{
    let Some(cut) = cut_at(new, span.from, span.to) else {
        return Ok(false);
    };
    if cut.middle != assignment.raw.text.as_str() {
        return Ok(false);
    }
    let last = byte_at(cut.before, cut.before.len().saturating_sub(1));
    Ok(!is_word(last) && !is_word(first(cut.after)) && takes_other(alloc, assignment, &cut)?)
}

/// Returns whether a text of another value, instead of what is cut out, assigns that value.
fn takes_other(
    alloc: Global,
    assignment: &RawAssignment<'_>,
    cut: &Cut<'_>,
) -> Result<bool, AllocError>
    ensures { ReadsAsToml assignment.now.text.now (view assignment.now.document.now)
        → IfOk result (λ takes. IsTrue takes → TakesOther assignment.now.text.now
        (tokens assignment.now.pointer) (view assignment.now.raw.now.value) cut.now.before.now
        cut.now.after.now) }
{
    let other = other_value(alloc, &assignment.raw.value);
    let text = other.to_string(alloc)?;
    if !is_text_of(alloc, text.as_str(), &other)? {
        return Ok(false);
    }
    let whole = joined(alloc, cut.before, text.as_str(), cut.after)?;
    let mut want = assignment.document.clone()?;
    match want.assign(alloc, assignment.pointer, other) {
        Ok(_) => is_document_of(alloc, whole.as_str(), &want),
        Err(Fault::Refused(_)) => Ok(false),
        Err(Fault::Memory(error)) => Err(error),
    }
}

/// Returns a value that is not the value: 0 or an empty string.
fn other_value(alloc: Global, value: &Value) -> Value
    ensures { view result ≡ view value.now → ⊥ }
{
    match value {
        Value::String(_) => Value::Integer(0),
        Value::Integer(_) => Value::String(String::new(alloc)),
        Value::Float(_) => Value::String(String::new(alloc)),
        Value::Boolean(_) => Value::String(String::new(alloc)),
        Value::Datetime(_) => Value::String(String::new(alloc)),
        Value::Array(_) => Value::String(String::new(alloc)),
        Value::Table(_) => Value::String(String::new(alloc)),
    }
}

/// Returns whether the new text is the old one with the headers and pairs put in, which make the value
/// alone.
fn puts_headers(
    alloc: Global,
    assignment: &RawAssignment<'_>,
    new: &str,
    headers: &GivenHeaders,
) -> Result<bool, AllocError>
    ensures { IfOk result (λ puts. IsTrue puts → PutsHeaders assignment.now.text.now
        (tokens assignment.now.pointer) (view assignment.now.raw.now.value) new.now) }
{
    let Some(cut) = cut_at(assignment.text, headers.span.from, headers.span.to) else {
        return Ok(false);
    };
    let piece = headers.piece.as_str();
    let same = splice(alloc, &cut, piece)?;
    if same.as_str() != new {
        return Ok(false);
    }
    make_alone(
        alloc,
        piece,
        assignment.pointer,
        headers.keys.as_ptr(),
        &assignment.raw.value,
    )
}
