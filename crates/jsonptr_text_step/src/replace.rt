//! Replacing a value in a text.
ghost use Rattle.std.specs.Prelude.{◌≡◌, Some, IfOk, IfSome, IsTrue, string_bytes};
ghost use Rattle.serde_json.specs.Data.{Data};
ghost use Rattle.serde_json.specs.Read.{read};
ghost use Rattle.serde_json.specs.View.{view};
ghost use Rattle.jsonptr.specs.Pointer.{tokens};
ghost use Rattle.jsonptr_text_step.specs.Steps.{ReplacesByText};
ghost use Rattle.jsonptr_text_step.specs.Bytes.{IsScalar};
ghost use Rattle.jsonptr_text_step.specs.PrivateReaching.{ReachedInText, ReplacesCut, IsValueEdit, Becomes, ScalarBecomes, ReplacesScalarByText};

use crate::change_at::{ValueChangeAt, change_value_at};
use crate::plan::{Made, Plan, ReplacedValue};
use crate::site::Site;
use jsonptr::Pointer;
use jsonptr_text_check::change::{Change, ChangeAt};
use jsonptr_text_check::one_child::is_value_of;
use jsonptr_text_layout::layout::replacement;
use jsonptr_text_layout::place::place_at;
use jsonptr_text_layout::value_text::ValueText;
use jsonptr_text_piece::buffers::Buffers;
use jsonptr_text_piece::cut::{Cut, cut_at};
use jsonptr_text_piece::spacing::is_trimmed;
use jsonptr_text_resolve::selectors::selectors_of;
use jsonptr_text_search::find::find_in_text_with;
use jsonptr_text_search::outcome::Outcome;
use jsonptr_value::if_json;
use serde_json::Value;
use std::alloc::AllocError;

/// Replaces the value that the pointer resolves to. Returns `None` if that is not possible.
///
/// # Errors
///
/// [`AllocError`] if an allocation fails.
pub fn replace_at(
    buffers: &mut Buffers,
    text: &str,
    pointer: Pointer<'_>,
    printed: &ValueText,
) -> Result<Option<Made>, AllocError>
    ensures reached { IfOk result (λ new. IfSome new (λ s. ReachedInText text.now (string_bytes s.text)
        (tokens pointer.entry) (Becomes (string_bytes printed.now.flat)))) }
    ensures bytes { IfOk result (λ new. IfSome new (λ s. ReplacesByText text.now
        (string_bytes s.text) (tokens pointer.entry) (string_bytes printed.now.flat))) }
{
    let alloc = buffers.alloc;
    let selectors = selectors_of(alloc, pointer)?;
    let Some(place) = place_at(buffers, text, &selectors)? else {
        return Ok(None);
    };
    let site = Site {
        text,
        pointer,
        place: &place,
    };
    replace(buffers, &site, printed)
}

/// Replaces the value at the site. Returns `None` if that is not possible.
///
/// # Errors
///
/// [`AllocError`] if an allocation fails.
pub fn replace(
    buffers: &mut Buffers,
    site: &Site<'_>,
    printed: &ValueText,
) -> Result<Option<Made>, AllocError>
    ensures reached { IfOk result (λ new. IfSome new (λ s. ReachedInText site.now.text.now (string_bytes s.text)
        (tokens site.now.pointer) (Becomes (string_bytes printed.now.flat)))) }
    ensures bytes { IfOk result (λ new. IfSome new (λ s. ReplacesByText site.now.text.now
        (string_bytes s.text) (tokens site.now.pointer) (string_bytes printed.now.flat))) }
{
    let Some(cut) = cut_at(site.text, site.place.value.from, site.place.value.to) else {
        return Ok(None);
    };
    replace_cut(buffers, &cut, site, printed)
}

/// Replaces the scalar at the site. Returns `None` if that is not possible.
///
/// # Errors
///
/// [`AllocError`] if an allocation fails.
pub fn replace_scalar(
    buffers: &mut Buffers,
    site: &Site<'_>,
    printed: &ValueText,
) -> Result<Option<Made>, AllocError>
    ensures reached { IfOk result (λ new. IfSome new (λ s. ReachedInText site.now.text.now (string_bytes s.text)
        (tokens site.now.pointer) (ScalarBecomes (string_bytes printed.now.flat)))) }
    ensures bytes { IfOk result (λ new. IfSome new (λ s. ReplacesScalarByText site.now.text.now
        (string_bytes s.text) (tokens site.now.pointer) (string_bytes printed.now.flat))) }
{
    let Some(cut) = cut_at(site.text, site.place.value.from, site.place.value.to) else {
        return Ok(None);
    };
    if !is_scalar_text(buffers, cut.middle)? {
        return Ok(None);
    }
    replace_cut(buffers, &cut, site, printed)
}

/// An edit that replaces a value, and what it puts into the text.
#[derive(Debug, Drop)]
pub struct ValueChange {
    /// The edit.
    pub change: Change,
    /// The text of the new value, laid out as the document is.
    pub piece: String,
}

/// Returns the edit that replaces the value at the site, which was cut out. Returns `None` if there is
/// white space around the value, or if the new text is not of the printed value.
///
/// # Errors
///
/// [`AllocError`] if an allocation fails.
pub fn value_edit(
    buffers: &mut Buffers,
    cut: &Cut<'_>,
    site: &Site<'_>,
    printed: &ValueText,
) -> Result<Option<ValueChange>, AllocError>
    ensures { IfOk result (λ made. IfSome made
        (IsValueEdit cut.now.middle.now (string_bytes printed.now.flat))) }
{
    let alloc = buffers.alloc;
    if !is_trimmed(cut.middle) {
        return Ok(None);
    }
    let change = Change::Replace {
        old: String::from_str(alloc, cut.middle)?,
        new: printed.flat.clone()?,
    };
    let piece = replacement(alloc, cut.text, site.place, printed)?;
    if !is_value_of(buffers, piece.as_str(), printed.flat.as_str())? {
        return Ok(None);
    }
    Ok(Some(ValueChange { change, piece }))
}

/// Replaces the value at the site, which was cut out.
fn replace_cut(
    buffers: &mut Buffers,
    cut: &Cut<'_>,
    site: &Site<'_>,
    printed: &ValueText,
) -> Result<Option<Made>, AllocError>
    ensures reached { IfOk result (λ new. IfSome new (λ s. ReachedInText cut.now.text.now
        (string_bytes s.text) (tokens site.now.pointer)
        (ReplacesCut cut.now.middle.now (string_bytes printed.now.flat)))) }
    ensures bytes { IfOk result (λ new. IfSome new (λ s. ReplacesByText cut.now.text.now
        (string_bytes s.text) (tokens site.now.pointer) (string_bytes printed.now.flat))) }
    ensures scalar { (d : Data) → read cut.now.middle.now ≡ Some d → IsScalar d → IfOk result
        (λ new. IfSome new (λ s. ReplacesScalarByText cut.now.text.now
        (string_bytes s.text) (tokens site.now.pointer) (string_bytes printed.now.flat))) }
{
    let alloc = buffers.alloc;
    let Some(made) = value_edit(buffers, cut, site, printed)? else {
        return Ok(None);
    };
    let selectors = selectors_of(alloc, site.pointer)?;
    let change = ChangeAt {
        selectors: &selectors,
        positions: &site.place.positions,
        change: &made.change,
    };
    let at = ValueChangeAt {
        change,
        path: &selectors,
        piece: made.piece.as_str(),
    };
    let Some(text) = change_value_at(buffers, cut, at)? else {
        return Ok(None);
    };
    let plan = Plan::Replaced(ReplacedValue {
        value: site.place.value,
        depth: site.place.depth,
        piece: made.piece,
    });
    Ok(Some(Made { text, plan }))
}

/// Returns whether the text is that of a scalar.
fn is_scalar_text(buffers: &mut Buffers, text: &str) -> Result<bool, AllocError>
    ensures { IfOk result (λ b. IsTrue b → (d : Data) × (read text.now ≡ Some d) × IsScalar d) }
{
    let alloc = buffers.alloc;
    if text.starts_with('{') || text.starts_with('[') {
        return Ok(false);
    }
    match if_json(find_in_text_with(alloc, &mut buffers.old, text, &[]))? {
        Some(Outcome::Found(value)) => Ok(is_scalar(&value)),
        Some(Outcome::Stopped { left: _, kind: _ }) | None => Ok(false),
    }
}

/// Returns whether the value is neither an array nor an object.
fn is_scalar(value: &Value) -> bool
    ensures { IsTrue result → IsScalar (view value.now) }
{
    match value {
        Value::Null => true,
        Value::Bool(_) => true,
        Value::Number(_) => true,
        Value::String(_) => true,
        Value::Array(_) => false,
        Value::Object(_) => false,
    }
}
