//! Reading a patch document (RFC 6902, sections 3 and 4).
ghost use Rattle.std.specs.Prelude.{◌≡◌, ◌++◌, ◌∷◌, [], ⊤, ℕ, List, IfOk, IsOk, MatchOption};
ghost use Rattle.serde_json.specs.Data.{array, no_items};
ghost use Rattle.serde_json.specs.View.{view, items_view};
ghost use Rattle.jsonptr.specs.Fault.{IfRefused, HasMemory};
ghost use Rattle.jsonptr_patch.specs.declared.operation.Operation.{Operation};
ghost use Rattle.jsonptr_patch_document.specs.Object.{IsOperationObject, IsNoOperationObject};
ghost use Rattle.jsonptr_patch_document.specs.Document.{AreOperations, HasNoOperation, IsPatch, IsNoPatch};
ghost use Rattle.jsonptr_patch_document.specs.declared.error.PatchDocumentError.{PatchDocumentError};

use crate::error::PatchDocumentError;
use crate::laws::patch_document_law;
use crate::parts::parts_of;
use jsonptr::Fault;
use jsonptr_patch::Operation;
use serde_json::Value;
use std::alloc::{AllocError, Global};

/// Returns the operations of a patch document (RFC 6902, sections 3 and 4). Their values are copies
/// of those in the document.
///
/// The document is an array of objects. Each has a member `op`, which is `add`, `remove`, `replace`,
/// `move`, `copy` or `test`, and the members that this operation requires. `path` and `from` are
/// strings that are JSON Pointers, and `value` is any value. Other members are ignored, in any
/// order.
///
/// A document that is not a patch needs no allocation, nor does an empty array. Takes time linear in
/// the size of the document. It is read twice: it is checked first, and then copied.
///
/// # Errors
///
/// [`Fault::Refused`] with the first error of the first operation at fault, in the order that
/// [`PatchDocumentError`] states, and [`Fault::Memory`] if an allocation fails.
///
/// # Examples
///
/// ```rust
/// let document = json!(in alloc; [{"op": "add", "path": "/tags/-", "value": "new"}])?;
/// let patch = read_patch(alloc, &document)?;
/// let mut tagged = json!(in alloc; {"tags": ["draft"]})?;
/// apply(alloc, &mut tagged, patch)?;
/// assert_eq!(rt; tagged.to_string(alloc)?.as_str(), r#"{"tags":["draft","new"]}"#);
/// ```
pub fn read_patch(
    alloc: Global,
    document: &Value,
) -> Result<Vec<Operation>, Fault<PatchDocumentError>>
    ensures patch { IfOk result (λ patch. IsPatch (view document.now) patch.items) }
    ensures refused { IfRefused result (IsNoPatch (view document.now)) }
    ensures no_memory { (e : PatchDocumentError)
        → IsNoPatch (view document.now) e → HasMemory result }
    ensures empty { view document.now ≡ array no_items → IsOk result }
{
    patch_document_law();
    let Some(entries) = document.as_array() else {
        return Err(Fault::Refused(PatchDocumentError::NotArray));
    };
    match first_error(entries) {
        Some(error) => Err(Fault::Refused(error)),
        None => read_elements(alloc, entries),
    }
}

/// Returns the error of the first element that is not an operation, or `None` if all are.
fn first_error(entries: &Vec<Value>) -> Option<PatchDocumentError>
    ensures { MatchOption result
        ((os : List Operation) × AreOperations (items_view entries.now.items) os)
        (HasNoOperation (items_view entries.now.items) 0) }
{
    for (operation, entry) in entries.iter().enumerate() {
        if let Err(error) = parts_of(entry, operation) {
            return Some(error);
        }
    }
    None
}

/// Returns the operations that the elements are.
///
/// # Errors
///
/// Those of [`read_patch`].
fn read_elements(
    alloc: Global,
    entries: &Vec<Value>,
) -> Result<Vec<Operation>, Fault<PatchDocumentError>>
    ensures patch { IfOk result (λ patch.
        AreOperations (items_view entries.now.items) patch.items) }
    ensures refused { IfRefused result (HasNoOperation (items_view entries.now.items) 0) }
    ensures empty { entries.now.items ≡ [] → IsOk result }
{
    let mut patch = Vec::new(alloc);
    for (operation, entry) in entries.iter().enumerate() {
        let read = read_operation(alloc, entry, operation)?;
        append(&mut patch, read)?;
    }
    Ok(patch)
}

/// Returns the operation that the element with this number is.
///
/// # Errors
///
/// [`Fault::Refused`] if it is not an operation, and [`Fault::Memory`] if an allocation fails.
fn read_operation(
    alloc: Global,
    entry: &Value,
    operation: usize,
) -> Result<Operation, Fault<PatchDocumentError>>
    ensures operation { IfOk result (IsOperationObject (view entry.now)) }
    ensures refused { IfRefused result (IsNoOperationObject (view entry.now) operation) }
{
    match parts_of(entry, operation) {
        Ok(parts) => Ok(parts.to_operation(alloc)?),
        Err(error) => Err(Fault::Refused(error)),
    }
}

/// Appends an operation to the patch.
///
/// A function of its own, so that the proof of the loop can name it.
///
/// # Errors
///
/// [`AllocError`] if an allocation fails.
fn append(patch: &mut Vec<Operation>, operation: Operation) -> Result<(), AllocError>
    ensures { IfOk result (λ _. patch.new.items ≡ patch.old.items ++ operation ∷ []) }
{
    patch.push(operation)?;
    Ok(())
}
