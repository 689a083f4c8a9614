//! Renaming a member of a table in a document.
ghost use Rattle.std.specs.Prelude.{◌≡◌, ◌↔◌, IfOk, IfErr, IsTrue, MatchOption};
ghost use Rattle.toml.specs.View.{view};
ghost use Rattle.jsonptr.specs.Content.{label_of};
ghost use Rattle.jsonptr.specs.TomlValue.{content, nodes, HasSortedKeys};
ghost use Rattle.jsonptr.specs.Node.{an_object};
ghost use Rattle.jsonptr.specs.Pointer.{tokens};
ghost use Rattle.jsonptr_text_step.specs.PrivateRenaming.{IsThere, IsObjectAt, IsMemberOf, IsTarget};
ghost use Rattle.jsonptr_text_step.specs.Renaming.{IsMember};
ghost use Rattle.jsonptr_toml_edit.specs.Renaming.{RenamesTo, IsRenameInTomlError};
ghost use Rattle.jsonptr_toml_edit.specs.PrivateRenaming.{IsTargetError};

use jsonptr::{Assign, Delete, Fault, Pointer, PointerBuf, Resolve, Token};
use jsonptr_laws::assign::assign_law;
use jsonptr_text_step::RenameError;
use jsonptr_toml::EditTomlError;
use jsonptr_toml::document::read_toml;
use std::alloc::{AllocError, Global};
use std::borrow::CowStr;
use toml::Value;

/// Reads the text, and renames the member that the pointer resolves to.
///
/// # Errors
///
/// Those of [`edit_toml`](crate::edit_toml) for a renaming, except for those of the new document.
pub fn renamed_document(
    alloc: Global,
    text: &str,
    pointer: Pointer<'_>,
    key: &str,
) -> Result<Value, EditTomlError<RenameError>>
    ensures renamed { IfOk result
        (λ v. RenamesTo text.now (tokens pointer.entry) key.now (view v)) }
    ensures sorted { IfOk result (λ v. HasSortedKeys (view v)) }
    ensures refused { IfErr result (IsRenameInTomlError text.now (tokens pointer.entry) key.now) }
{
    let mut document = read_toml(alloc, text)?;
    let target = target_of(alloc, &document, pointer, key)?;
    assign_law();
    match document.delete(alloc, pointer)? {
        Some(member) => match document.assign(alloc, target.as_ptr(), member) {
            Ok(_) => Ok(document),
            Err(Fault::Refused(_)) => unreachable!(),
            Err(Fault::Memory(error)) => Err(EditTomlError::Memory(error)),
        },
        None => unreachable!(),
    }
}

/// Returns the pointer to the member with the new key.
///
/// # Errors
///
/// [`EditTomlError::Refused`] if the member cannot get the key, and [`EditTomlError::Memory`] if an
/// allocation fails.
fn target_of(
    alloc: Global,
    document: &Value,
    pointer: Pointer<'_>,
    key: &str,
) -> Result<PointerBuf, EditTomlError<RenameError>>
    ensures target { IfOk result
        (IsTarget (nodes (view document.now)) (tokens pointer.entry) key.now) }
    ensures refused { IfErr result
        (IsTargetError (nodes (view document.now)) (tokens pointer.entry) key.now) }
{
    if !is_there(alloc, document, pointer)? {
        return Err(EditTomlError::Refused(RenameError::NotThere));
    }
    let Some((front, from)) = member_of(alloc, document, pointer)? else {
        return Err(EditTomlError::Refused(RenameError::NotAMember));
    };
    let to = Token::new(alloc, CowStr::Borrowed(key))?;
    let target = front.with_trailing_token(alloc, to)?;
    let old_key = from.decoded(alloc)?;
    if is_same_text(key, old_key.as_str()) {
        return Ok(target);
    }
    if is_there(alloc, document, target.as_ptr())? {
        return Err(EditTomlError::Refused(RenameError::KeyTaken));
    }
    Ok(target)
}

/// Returns whether the two texts are equal.
pub fn is_same_text(text: &str, other: &str) -> bool
    ensures { IsTrue result ↔ (text.now ≡ other.now) }
{
    text == other
}

/// Returns the pointer of the table and the token of its member, if the pointer resolves to a member.
fn member_of<'a>(
    alloc: Global,
    document: &Value,
    pointer: Pointer<'a>,
) -> Result<Option<(Pointer<'a>, Token<'a>)>, AllocError>
    ensures { IfOk result (λ o. MatchOption o
        (IsMember (nodes (view document.now)) (tokens pointer.entry) → ⊥)
        (λ r. IsMemberOf (nodes (view document.now)) (tokens pointer.entry) (tokens r.0) r.1)) }
{
    let Some((front, token)) = pointer.split_back() else {
        return Ok(None);
    };
    if !is_table_at(alloc, document, front)? {
        return Ok(None);
    }
    if is_there(alloc, document, pointer)? {
        Ok(Some((front, token)))
    } else {
        Ok(None)
    }
}

/// Returns whether the pointer resolves to a table.
fn is_table_at(alloc: Global, document: &Value, pointer: Pointer<'_>) -> Result<bool, AllocError>
    ensures { IfOk result
        (λ b. IsTrue b ↔ IsObjectAt (nodes (view document.now)) (tokens pointer.entry)) }
{
    match document.resolve(alloc, pointer) {
        Ok(value) => Ok(is_table(value)),
        Err(Fault::Refused(_)) => Ok(false),
        Err(Fault::Memory(error)) => Err(error),
    }
}

/// Returns whether the pointer resolves to a value.
fn is_there(alloc: Global, document: &Value, pointer: Pointer<'_>) -> Result<bool, AllocError>
    ensures { IfOk result
        (λ b. IsTrue b ↔ IsThere (nodes (view document.now)) (tokens pointer.entry)) }
{
    match document.resolve(alloc, pointer) {
        Ok(_) => Ok(true),
        Err(Fault::Refused(_)) => Ok(false),
        Err(Fault::Memory(error)) => Err(error),
    }
}

/// Returns whether the value is a table.
fn is_table(value: &Value) -> bool
    ensures { IsTrue result ↔ (label_of (content (view value.now)) ≡ an_object) }
{
    match value {
        Value::String(_) => false,
        Value::Integer(_) => false,
        Value::Float(_) => false,
        Value::Boolean(_) => false,
        Value::Datetime(_) => false,
        Value::Array(_) => false,
        Value::Table(_) => true,
    }
}
