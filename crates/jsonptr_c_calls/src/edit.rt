//! Changes of a document.
ghost use Rattle.std.specs.Prelude.{◌≡◌, IfErr, IfOk, IsUtf8, OnErr, OnOk};
ghost use Rattle.serde_json.specs.View.{view};
ghost use Rattle.jsonptr.specs.Json.{HasSortedKeys};
ghost use Rattle.jsonptr_c_calls.specs.Editing.{AssignsAtPointer, DeletesAtPointer, IsNotAssigned, IsNotDeleted};

use crate::call_error::CallError;
use crate::depths::is_short;
use crate::pointers::parse;
use jsonptr::Fault;
use serde_json::Value;
use std::alloc::Global;

/// Assigns a value at the location that the pointer identifies, and frees the value that it
/// replaces. What is missing on the way is created, as `jsonptr::assign` explains.
///
/// # Errors
///
/// - Those of [`parse`].
/// - [`CallError::TooDeep`] if the pointer has more than 10,000 tokens.
/// - [`CallError::Assign`] if the pointer leads to an array that has no such index.
/// - [`CallError::Memory`] if an allocation fails.
///
/// The document is unchanged.
pub fn assign(
    alloc: Global,
    document: &mut Value,
    pointer: &[u8],
    value: Value,
) -> Result<(), CallError>
    ensures assigned { IfOk result (λ _.
        AssignsAtPointer (view document.old) pointer.now (view value) (view document.new)) }
    ensures sorted { IfOk result (λ _. HasSortedKeys (view value)
        → HasSortedKeys (view document.old) → HasSortedKeys (view document.new)) }
    ensures utf8 { OnOk result (IsUtf8 pointer.now) }
    ensures refused { IfErr result (IsNotAssigned (view document.old) pointer.now) }
    ensures unchanged { OnErr result (view document.new ≡ view document.old) }
{
    let pointer = parse(pointer)?;
    if !is_short(&pointer) {
        return Err(CallError::TooDeep);
    }
    match pointer.assign(alloc, document, value) {
        Ok(_replaced) => Ok(()),
        Err(Fault::Refused(error)) => Err(CallError::Assign(error)),
        Err(Fault::Memory(error)) => Err(CallError::Memory(error)),
    }
}

/// Removes and frees the value that the pointer resolves to, and returns whether there was one.
///
/// # Errors
///
/// - Those of [`parse`].
/// - [`CallError::Memory`] if an allocation fails. Only a token that contains `~` needs one.
///
/// The document is unchanged.
pub fn delete(alloc: Global, document: &mut Value, pointer: &[u8]) -> Result<bool, CallError>
    ensures deleted { IfOk result (λ found.
        DeletesAtPointer (view document.old) pointer.now found (view document.new)) }
    ensures sorted { IfOk result (λ _.
        HasSortedKeys (view document.old) → HasSortedKeys (view document.new)) }
    ensures utf8 { OnOk result (IsUtf8 pointer.now) }
    ensures refused { IfErr result (IsNotDeleted pointer.now) }
    ensures unchanged { OnErr result (view document.new ≡ view document.old) }
{
    let deleted = parse(pointer)?.delete(alloc, document)?;
    Ok(deleted.is_some())
}
