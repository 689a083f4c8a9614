//! Renaming a member in a document that is read from a text and printed anew.
ghost use Rattle.std.specs.Prelude.{◌≡◌, ◌↔◌, [], ◌∷◌, IfOk, IfErr, IfSome, IsTrue, MatchOption, string_bytes};
ghost use Rattle.serde_json.specs.View.{view};
ghost use Rattle.jsonptr.specs.Content.{label_of};
ghost use Rattle.jsonptr.specs.Json.{content, nodes};
ghost use Rattle.jsonptr.specs.Node.{an_object};
ghost use Rattle.jsonptr.specs.Pointer.{tokens};
ghost use Rattle.jsonptr_patch.specs.declared.operation.Operation.TheVariants.{Move};
ghost use Rattle.jsonptr_text_step.specs.PrivateRenaming.{IsThere, IsObjectAt, IsMemberOf, IsMemberInText, IsTarget, IsTargetError};
ghost use Rattle.jsonptr_text_step.specs.Renaming.{IsMember, RenamesInText, IsRenameError};

use crate::plan::{Made, Plan};
use crate::rename::RenameError;
use crate::rewrite::print_document;
use crate::stepped::StepError;
use jsonptr::{Fault, Pointer, PointerBuf, Resolve, Token};
use jsonptr_patch::{Operation, apply};
use jsonptr_text_search::decide::is_text;
use jsonptr_value::if_json;
use jsonptr_walk::put::key_of;
use serde_json::Value;
use std::alloc::{AllocError, Global};
use std::borrow::CowStr;

/// Reads the text, renames the member, and prints the document.
///
/// # Errors
///
/// Those of [`rename_in_text`](crate::rename_in_text).
pub fn rename_and_print(
    alloc: Global,
    text: &str,
    pointer: Pointer<'_>,
    key: &str,
) -> Result<String, StepError<RenameError>>
    ensures renamed { IfOk result
        (λ s. RenamesInText text.now (tokens pointer.entry) key.now (string_bytes s)) }
    ensures refused { IfErr result (IsRenameError text.now (tokens pointer.entry) key.now) }
{
    let mut document = jsonptr_value::read(alloc, text)?;
    let path = target_of(alloc, &document, pointer, key)?;
    let patch = move_between(alloc, pointer, path)?;
    match apply(alloc, &mut document, patch) {
        Ok(()) => print_document(alloc, document),
        Err(Fault::Refused(_)) => unreachable!(),
        Err(Fault::Memory(error)) => Err(StepError::Memory(error)),
    }
}

/// Returns the patch that moves the value at a pointer to another one.
fn move_between(
    alloc: Global,
    pointer: Pointer<'_>,
    path: PointerBuf,
) -> Result<Vec<Operation>, AllocError>
    ensures { IfOk result (λ patch. patch.items ≡ Move (tokens pointer.entry) path ∷ []) }
{
    let from = pointer.to_buf(alloc)?;
    let mut patch = Vec::new(alloc);
    patch.push(Operation::Move { from, path })?;
    Ok(patch)
}

/// Returns a copy of the text, if the pointer resolves to a member of an object in its document.
///
/// # Errors
///
/// [`AllocError`] if an allocation fails.
pub fn kept(alloc: Global, text: &str, pointer: Pointer<'_>) -> Result<Option<Made>, AllocError>
    ensures same { IfOk result (λ new. IfSome new (λ s. string_bytes s.text ≡ text.now)) }
    ensures member { IfOk result
        (λ new. IfSome new (λ s. IsMemberInText text.now (tokens pointer.entry))) }
{
    let Some(document) = if_json(jsonptr_value::read(alloc, text))? else {
        return Ok(None);
    };
    match member_of(alloc, &document, pointer)? {
        Some(_) => Ok(Some(Made {
            text: String::from_str(alloc, text)?,
            plan: Plan::Unchanged,
        })),
        None => Ok(None),
    }
}

/// Returns the pointer to the member with the new key.
///
/// # Errors
///
/// [`StepError::Refused`] if the member cannot get the key, and [`StepError::Memory`] if an allocation fails.
fn target_of(
    alloc: Global,
    document: &Value,
    pointer: Pointer<'_>,
    key: &str,
) -> Result<PointerBuf, StepError<RenameError>>
    ensures target { IfOk result
        (IsTarget (nodes (view document.now)) (tokens pointer.entry) key.now) }
    ensures refused { IfErr result
        (IsTargetError (nodes (view document.now)) (tokens pointer.entry) key.now) }
{
    if !is_there(alloc, document, pointer)? {
        return Err(StepError::Refused(RenameError::NotThere));
    }
    let Some((front, from)) = member_of(alloc, document, pointer)? else {
        return Err(StepError::Refused(RenameError::NotAMember));
    };
    let to = Token::new(alloc, CowStr::Borrowed(key))?;
    let target = front.with_trailing_token(alloc, to)?;
    let old_key = key_of(alloc, &from)?;
    if is_text(key, old_key.as_str()) {
        return Ok(target);
    }
    if is_there(alloc, document, target.as_ptr())? {
        return Err(StepError::Refused(RenameError::KeyTaken));
    }
    Ok(target)
}

/// Returns the pointer of the object and the token of its member, if the pointer resolves to a member.
fn member_of<'a>(
    alloc: Global,
    document: &Value,
    pointer: Pointer<'a>,
) -> Result<Option<(Pointer<'a>, Token<'a>)>, AllocError>
    ensures { IfOk result (λ o. MatchOption o
        (IsMember (nodes (view document.now)) (tokens pointer.entry) → ⊥)
        (λ r. IsMemberOf (nodes (view document.now)) (tokens pointer.entry) (tokens r.0) r.1)) }
{
    let Some((front, token)) = pointer.split_back() else {
        return Ok(None);
    };
    if !is_object_at(alloc, document, front)? {
        return Ok(None);
    }
    if is_there(alloc, document, pointer)? {
        Ok(Some((front, token)))
    } else {
        Ok(None)
    }
}

/// Returns whether the pointer resolves to an object.
fn is_object_at(alloc: Global, document: &Value, pointer: Pointer<'_>) -> Result<bool, AllocError>
    ensures { IfOk result
        (λ b. IsTrue b ↔ IsObjectAt (nodes (view document.now)) (tokens pointer.entry)) }
{
    match document.resolve(alloc, pointer) {
        Ok(value) => Ok(is_object(value)),
        Err(Fault::Refused(_)) => Ok(false),
        Err(Fault::Memory(error)) => Err(error),
    }
}

/// Returns whether the pointer resolves to a value.
fn is_there(alloc: Global, document: &Value, pointer: Pointer<'_>) -> Result<bool, AllocError>
    ensures { IfOk result
        (λ b. IsTrue b ↔ IsThere (nodes (view document.now)) (tokens pointer.entry)) }
{
    match document.resolve(alloc, pointer) {
        Ok(_) => Ok(true),
        Err(Fault::Refused(_)) => Ok(false),
        Err(Fault::Memory(error)) => Err(error),
    }
}

/// Returns whether the value is an object.
fn is_object(value: &Value) -> bool
    ensures { IsTrue result ↔ (label_of (content (view value.now)) ≡ an_object) }
{
    match value {
        Value::Null => false,
        Value::Bool(_) => false,
        Value::Number(_) => false,
        Value::String(_) => false,
        Value::Array(_) => false,
        Value::Object(_) => true,
    }
}
