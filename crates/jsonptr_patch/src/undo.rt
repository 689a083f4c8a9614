//! Deletions that can be undone.
ghost use Rattle.std.specs.Prelude.{◌≡◌, IfOk, IfSome, OnErr, MatchOption};
ghost use Rattle.serde_json.specs.Data.{null};
ghost use Rattle.serde_json.specs.View.{view};
ghost use Rattle.jsonptr.specs.Delete.{NamesNothing};
ghost use Rattle.jsonptr.specs.Json.{nodes, HasSortedKeys};
ghost use Rattle.jsonptr.specs.Node.{NodeMap};
ghost use Rattle.jsonptr.specs.Pointer.{tokens};
ghost use Rattle.jsonptr.specs.Removing.{Deletes};
ghost use Rattle.jsonptr_patch.specs.Operating.{Applies, RestoresAt};
ghost use Rattle.jsonptr_patch.specs.Order.{OperationHasSortedKeys};

use crate::operation::Operation;
use jsonptr::Pointer;
use serde_json::Value;
use std::alloc::{AllocError, Global};

/// Removes the value that the pointer resolves to, as [`Pointer::delete`] does, and returns the
/// [`Operation::Add`] that restores it. Returns `None` if the pointer does not resolve; the
/// document is then unchanged.
///
/// The operation owns the value and its pointer, which is allocated before the document changes. If
/// the keys of each object of the document are in ascending order, they are so in what is left and
/// in the removed value.
///
/// ```rust
/// let mut document = json!(in alloc; {"size": 3})?;
/// let size = Pointer::parse("/size")?;
/// let undo = delete_with_undo(alloc, &mut document, size)?.ok_or("a value")?;
/// assert!(rt; delete_with_undo(alloc, &mut document, size)?.is_none());
/// apply(alloc, &mut document, vec![in alloc; undo]?)?;
/// assert_eq!(rt; document.to_string(alloc)?.as_str(), r#"{"size":3}"#);
/// ```
///
/// # Errors
///
/// [`AllocError`] if an allocation fails. The document is unchanged.
pub fn delete_with_undo(
    alloc: Global,
    doc: &mut Value,
    ptr: Pointer<'_>,
) -> Result<Option<Operation>, AllocError>
    ensures deleted { IfOk result (λ _. Deletes (nodes (view doc.old)) (tokens ptr.entry)
        (nodes null) (nodes (view doc.new))) }
    ensures restores { IfOk result (λ undo. MatchOption undo
        (NamesNothing (nodes (view doc.old)) (tokens ptr.entry) × (view doc.new ≡ view doc.old))
        (RestoresAt (nodes (view doc.old)) (tokens ptr.entry))) }
    ensures inverse { IfOk result (λ undo. IfSome undo (λ operation.
        Applies (nodes (view doc.new)) operation (nodes (view doc.old)))) }
    ensures sorted { IfOk result (λ _.
        HasSortedKeys (view doc.old) → HasSortedKeys (view doc.new)) }
    ensures inverse_sorted { IfOk result (λ undo. IfSome undo (λ operation.
        HasSortedKeys (view doc.old) → OperationHasSortedKeys operation)) }
    ensures unchanged { OnErr result (view doc.new ≡ view doc.old) }
{
    let path = ptr.to_buf(alloc)?;
    match ptr.delete(alloc, doc)? {
        Some(value) => Ok(Some(Operation::Add { path, value })),
        None => Ok(None),
    }
}
