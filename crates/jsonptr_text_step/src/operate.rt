//! One operation of a patch in a text (RFC 6902, section 4).
ghost use Rattle.std.specs.Prelude.{IfOk, IfSome, IsTrue, string_bytes};
ghost use Rattle.serde_json.specs.View.{view};
ghost use Rattle.jsonptr.specs.Pointer.{tokens};
ghost use Rattle.jsonptr.specs.Json.{nodes};
ghost use Rattle.jsonptr_text_value.specs.Fitting.{IsRawTextOf};
ghost use Rattle.jsonptr_text_step.specs.Steps.{PassesInText};
ghost use Rattle.jsonptr_text_step.specs.PatchInText.{MovesBytes, CopiesBytes};
ghost use Rattle.jsonptr_text_step.specs.PrivateOperating.{PutsInText, AddsValueInText, MovesInText, CopiesInText, OperatesInText};
ghost use Rattle.jsonptr_text_step.specs.RawPatching.{AddsGiven, ReplacesGiven, GivenBytes};

use crate::add::add_at;
use crate::delete::cut_out;
use crate::plan::{Made, Plan};
use crate::replace::replace_at;
use crate::shallow::value_text;
use crate::value_at::value_at;
use jsonptr::Pointer;
use jsonptr_patch::{Comparison, Operation, is_equal, is_proper_prefix};
use jsonptr_text_piece::buffers::Buffers;
use jsonptr_text_resolve::{InTextError, resolve_in_text_with};
use jsonptr_text_value::{RawOperation, RawValue};
use serde_json::Value;
use std::alloc::AllocError;

/// Applies the operation to the text. A value that it puts there has its own text, if one comes with it.
/// Returns `None` if that is not possible, and for every error of the operation.
///
/// # Errors
///
/// [`AllocError`] if an allocation fails.
pub fn operate(
    buffers: &mut Buffers,
    text: &str,
    operation: &RawOperation,
) -> Result<Option<Made>, AllocError>
    ensures applied { IfOk result (λ new. IfSome new
        (λ s. OperatesInText text.now operation.now.operation (string_bytes s.text))) }
    ensures bytes { IfOk result (λ new. IfSome new
        (λ s. GivenBytes text.now operation.now.operation operation.now.raw (string_bytes s.text))) }
{
    let alloc = buffers.alloc;
    let raw = &operation.raw;
    match &operation.operation {
        Operation::Add { path, value } => {
            let given = Given { value, raw };
            add_given(buffers, text, path.as_ptr(), given)
        }
        Operation::Remove { path } => cut_out(buffers, text, path.as_ptr()),
        Operation::Replace { path, value } => {
            let given = Given { value, raw };
            replace_given(buffers, text, path.as_ptr(), given)
        }
        Operation::Move { from, path } => move_value(buffers, text, from.as_ptr(), path.as_ptr()),
        Operation::Copy { from, path } => copy_value(buffers, text, from.as_ptr(), path.as_ptr()),
        Operation::Test { path, value } => {
            if passes(buffers, text, path.as_ptr(), value)? {
                let copy = String::from_str(alloc, text)?;
                let plan = Plan::Unchanged;
                Ok(Some(Made { text: copy, plan }))
            } else {
                Ok(None)
            }
        }
    }
}

/// A value that an operation brings.
#[derive(Clone, Copy, Debug)]
struct Given<'a> {
    /// The value.
    value: &'a Value,
    /// Its own text, if there is one.
    raw: &'a Option<RawValue>,
}

/// Adds the value at the pointer, with its own text if there is one.
fn add_given(
    buffers: &mut Buffers,
    text: &str,
    pointer: Pointer<'_>,
    given: Given<'_>,
) -> Result<Option<Made>, AllocError>
    requires { IsRawTextOf given.value.now given.raw.now }
    ensures added { IfOk result (λ new. IfSome new (λ s. AddsValueInText text.now
        (tokens pointer.entry) (nodes (view given.entry.value.now)) (string_bytes s.text))) }
    ensures bytes { IfOk result (λ new. IfSome new (λ s. AddsGiven text.now
        (tokens pointer.entry) (view given.entry.value.now) given.entry.raw.now (string_bytes s.text))) }
{
    let alloc = buffers.alloc;
    match given.raw {
        Some(raw) => add_at(buffers, text, pointer, &raw.printed),
        None => {
            let Some(printed) = value_text(alloc, given.value)? else {
                return Ok(None);
            };
            add_at(buffers, text, pointer, &printed)
        }
    }
}

/// Replaces the value that the pointer resolves to, by the own text of the other value if there is one.
fn replace_given(
    buffers: &mut Buffers,
    text: &str,
    pointer: Pointer<'_>,
    given: Given<'_>,
) -> Result<Option<Made>, AllocError>
    requires { IsRawTextOf given.value.now given.raw.now }
    ensures put { IfOk result (λ new. IfSome new (λ s. PutsInText text.now
        (tokens pointer.entry) (nodes (view given.entry.value.now)) (string_bytes s.text))) }
    ensures bytes { IfOk result (λ new. IfSome new (λ s. ReplacesGiven text.now
        (tokens pointer.entry) (view given.entry.value.now) given.entry.raw.now (string_bytes s.text))) }
{
    let alloc = buffers.alloc;
    match given.raw {
        Some(raw) => replace_at(buffers, text, pointer, &raw.printed),
        None => {
            let Some(printed) = value_text(alloc, given.value)? else {
                return Ok(None);
            };
            replace_at(buffers, text, pointer, &printed)
        }
    }
}

/// Moves the value at one pointer to another one.
fn move_value(
    buffers: &mut Buffers,
    text: &str,
    from: Pointer<'_>,
    path: Pointer<'_>,
) -> Result<Option<Made>, AllocError>
    ensures moved { IfOk result (λ new. IfSome new (λ s. MovesInText text.now
        (tokens from.entry) (tokens path.entry) (string_bytes s.text))) }
    ensures bytes { IfOk result (λ new. IfSome new (λ s.
        MovesBytes text.now (tokens from.entry) (tokens path.entry) (string_bytes s.text))) }
{
    if is_proper_prefix(from, path) {
        return Ok(None);
    }
    let Some(printed) = value_at(buffers, text, from)? else {
        return Ok(None);
    };
    let Some(left) = cut_out(buffers, text, from)? else {
        return Ok(None);
    };
    add_at(buffers, left.text.as_str(), path, &printed)
}

/// Adds a copy of the value at one pointer at another one.
fn copy_value(
    buffers: &mut Buffers,
    text: &str,
    from: Pointer<'_>,
    path: Pointer<'_>,
) -> Result<Option<Made>, AllocError>
    ensures copied { IfOk result (λ new. IfSome new (λ s. CopiesInText text.now
        (tokens from.entry) (tokens path.entry) (string_bytes s.text))) }
    ensures bytes { IfOk result (λ new. IfSome new (λ s.
        CopiesBytes text.now (tokens from.entry) (tokens path.entry) (string_bytes s.text))) }
{
    let Some(printed) = value_at(buffers, text, from)? else {
        return Ok(None);
    };
    add_at(buffers, text, path, &printed)
}

/// Returns whether the value at the pointer equals the other one, with numbers compared by their
/// values. `false` also if there is no such value.
///
/// # Errors
///
/// [`AllocError`] if an allocation fails.
///
/// # Examples
///
/// ```rust
/// let mut buffers = Buffers::new(alloc);
/// let size = Pointer::parse("/size")?;
/// assert!(rt; passes(&mut buffers, "{\"size\": 1.0}", size, &Value::from(1))?);
/// assert!(rt; !passes(&mut buffers, "{}", size, &Value::from(1))?);
/// ```
pub fn passes(
    buffers: &mut Buffers,
    text: &str,
    pointer: Pointer<'_>,
    value: &Value,
) -> Result<bool, AllocError>
    ensures { IfOk result (λ b. IsTrue b
        → PassesInText text.now (tokens pointer.entry) (nodes (view value.now))) }
{
    let alloc = buffers.alloc;
    match resolve_in_text_with(alloc, &mut buffers.old, text, pointer) {
        Ok(found) => Ok(is_equal(&found, value, Comparison::Numeric)),
        Err(InTextError::Memory(error)) => Err(error),
        Err(InTextError::NotJson) => Ok(false),
        Err(InTextError::Resolve(_error)) => Ok(false),
    }
}
