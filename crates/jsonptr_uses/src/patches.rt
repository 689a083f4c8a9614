//! Changes of a JSON document that patches undo: a deletion, and a patch by its inverse.
ghost use Rattle.std.specs.Prelude.{◌≡◌, ◌⊎◌, ◌∷◌, [], All, IfOk, OnErr};
ghost use Rattle.serde_json.specs.Data.{Data, null};
ghost use Rattle.serde_json.specs.View.{view};
ghost use Rattle.jsonptr.specs.Fault.{IfRefused, IsRefused};
ghost use Rattle.jsonptr.specs.Json.{nodes, HasSortedKeys};
ghost use Rattle.jsonptr.specs.Node.{NodeMap};
ghost use Rattle.jsonptr.specs.Pointer.{tokens};
ghost use Rattle.jsonptr.specs.Removing.{Deletes};
ghost use Rattle.jsonptr_patch.specs.Operating.{Applies};
ghost use Rattle.jsonptr_patch.specs.Order.{OperationHasSortedKeys};
ghost use Rattle.jsonptr_patch.specs.Patching.{Patches, RefusesPatch};

use jsonptr::tree::json::json_map_law;
use jsonptr::{Fault, Pointer};
use jsonptr_patch::laws::patch::patch_law;
use jsonptr_patch::{Operation, PatchError, apply, apply_with_inverse, delete_with_undo};
use serde_json::Value;
use std::alloc::{AllocError, Global};

/// Removes the value that the pointer resolves to, if any, and adds it again. The document then has
/// the same node map as before, and is the same value if the keys of its objects are in ascending
/// order. Those of parsed documents are.
///
/// # Errors
///
/// [`Fault::Memory`] if an allocation fails, and no other error.
pub fn deleted_and_put_back(
    alloc: Global,
    document: &mut Value,
    pointer: Pointer<'_>,
) -> Result<(), Fault<PatchError>>
    ensures restored { IfOk result (λ _. nodes (view document.new) ≡ nodes (view document.old)) }
    ensures same { IfOk result (λ _.
        HasSortedKeys (view document.old) → view document.new ≡ view document.old) }
    ensures left { OnErr result ((view document.new ≡ view document.old)
        ⊎ Deletes (nodes (view document.old)) (tokens pointer.entry)
        (nodes null) (nodes (view document.new))) }
    ensures never_refused { IsRefused result → ⊥ }
{
    json_map_law();
    match delete_with_undo(alloc, document, pointer)? {
        Some(undo) => put_back(alloc, document, undo),
        None => Ok(()),
    }
}

/// Applies an operation that is known to apply to the document.
fn put_back(alloc: Global, document: &mut Value, undo: Operation) -> Result<(), Fault<PatchError>>
    requires { (m : NodeMap) × Applies (nodes (view document.old)) undo m }
    ensures restored { IfOk result (λ _. (m : NodeMap)
        → Applies (nodes (view document.old)) undo m → nodes (view document.new) ≡ m) }
    ensures sorted { IfOk result (λ _. OperationHasSortedKeys undo
        → HasSortedKeys (view document.old) → HasSortedKeys (view document.new)) }
    ensures unchanged { OnErr result (view document.new ≡ view document.old) }
    ensures never_refused { IsRefused result → ⊥ }
{
    patch_law();
    let patch = patch_of(alloc, undo)?;
    apply(alloc, document, patch)
}

/// Returns the patch of one operation.
fn patch_of(alloc: Global, operation: Operation) -> Result<Vec<Operation>, AllocError>
    ensures { IfOk result (λ patch. patch.items ≡ operation ∷ []) }
{
    let mut patch = Vec::new(alloc);
    patch.push(operation)?;
    Ok(patch)
}

/// Undoes a patch, as an editor does: applies the inverse that
/// [`apply_with_inverse`](jsonptr_patch::apply_with_inverse) returned. The document then has the node
/// map that it had before the patch. It is the same value if the keys of each object are in ascending order
/// in the document before the patch and in the values of the patch, as in parsed ones.
///
/// # Errors
///
/// [`Fault::Memory`] if an allocation fails, and no other error. The document is unchanged.
///
/// # Conditions
///
/// The operations apply to the document, as an inverse does to the one that its patch left.
pub fn undo(
    alloc: Global,
    document: &mut Value,
    inverse: Vec<Operation>,
) -> Result<(), Fault<PatchError>>
    requires { (old : NodeMap) × Patches (nodes (view document.old)) inverse.items old }
    ensures undone { IfOk result (λ _. (old : NodeMap)
        → Patches (nodes (view document.old)) inverse.items old
        → nodes (view document.new) ≡ old) }
    ensures same { IfOk result (λ _. (old : Data)
        → Patches (nodes (view document.old)) inverse.items (nodes old) → HasSortedKeys old
        → HasSortedKeys (view document.old) → All OperationHasSortedKeys inverse.items
        → view document.new ≡ old) }
    ensures unchanged { OnErr result (view document.new ≡ view document.old) }
    ensures never_refused { IsRefused result → ⊥ }
{
    patch_law();
    json_map_law();
    apply(alloc, document, inverse)
}

/// Applies the patch, keeps its inverse, and undoes it. The document then has the same node map as
/// before, and is the same value if the keys of its objects and of the values in the patch are in
/// ascending order.
///
/// # Errors
///
/// [`Fault::Refused`] if an operation of the patch fails, and [`Fault::Memory`] if an allocation
/// fails. The document is the one before the patch, or the one after it.
pub fn changed_and_undone(
    alloc: Global,
    document: &mut Value,
    patch: Vec<Operation>,
) -> Result<(), Fault<PatchError>>
    ensures restored { IfOk result (λ _. nodes (view document.new) ≡ nodes (view document.old)) }
    ensures same { IfOk result (λ _. All OperationHasSortedKeys patch.items
        → HasSortedKeys (view document.old) → view document.new ≡ view document.old) }
    ensures refused { IfRefused result (RefusesPatch (nodes (view document.old)) patch.items) }
    ensures left { OnErr result ((view document.new ≡ view document.old)
        ⊎ Patches (nodes (view document.old)) patch.items (nodes (view document.new))) }
{
    let inverse = apply_with_inverse(alloc, document, patch)?;
    undo(alloc, document, inverse)
}
