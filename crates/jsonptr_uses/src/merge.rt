//! Two people's changes of one document, and a difference that is sent to others.
ghost use Rattle.std.specs.Prelude.{◌≡◌, ◌++◌, List, IfOk, OnErr, IsTrue, IsFalse, string_bytes};
ghost use Rattle.serde_json.specs.View.{view};
ghost use Rattle.jsonptr.specs.Json.{nodes};
ghost use Rattle.jsonptr_value.specs.JsonText.{IsCompact};
ghost use Rattle.jsonptr_patch.specs.Apart.{PatchesAreApart};
ghost use Rattle.jsonptr_patch.specs.Patching.{Patches};
ghost use Rattle.jsonptr_patch.specs.declared.operation.Operation.{Operation as an_operation};
ghost use Rattle.jsonptr_patch_document.specs.Writing.{document_of};

use jsonptr::Fault;
use jsonptr_patch::laws::apart::apart_law;
use jsonptr_patch::{Operation, PatchError, apply, are_apart};
use jsonptr_patch_diff::diff;
use jsonptr_patch_document::write_patch;
use serde_json::Value;
use std::alloc::{AllocError, Global};

/// Applies the patches of two people if they are apart at the document, and returns whether they are.
///
/// The document then is the one that both orders make. If they are not apart, the document is
/// unchanged: somebody has to look at it.
///
/// # Errors
///
/// That of the first operation that fails, counted through both patches, or [`Fault::Memory`] if an
/// allocation fails. The document is unchanged.
pub fn merge(
    alloc: Global,
    document: &mut Value,
    hers: Vec<Operation>,
    his: Vec<Operation>,
) -> Result<bool, Fault<PatchError>>
    ensures merged { IfOk result (λ merged. IsTrue merged
        → Patches (nodes (view document.old)) (hers.items ++ his.items) (nodes (view document.new))
        × Patches (nodes (view document.old)) (his.items ++ hers.items) (nodes (view document.new))) }
    ensures conflict { IfOk result (λ merged. IsFalse merged
        → (view document.new ≡ view document.old)
        × (PatchesAreApart (nodes (view document.old)) hers.items his.items → ⊥)) }
    ensures unchanged { OnErr result (view document.new ≡ view document.old) }
{
    apart_law();
    if !are_apart(alloc, document, &hers, &his)? {
        return Ok(false);
    }
    let mut both = hers;
    let mut his = his;
    both.append(&mut his)?;
    apply(alloc, document, both)?;
    Ok(true)
}

/// Returns the text of the patch document that turns `old` into `new`, to be sent to whoever has
/// `old`.
///
/// # Errors
///
/// [`AllocError`] if an allocation fails.
pub fn published_difference(alloc: Global, old: &Value, new: &Value) -> Result<String, AllocError>
    ensures { IfOk result (λ text. (patch : List an_operation)
        × Patches (nodes (view old.now)) patch (nodes (view new.now))
        × IsCompact (document_of patch) (string_bytes text)) }
{
    let patch = diff(alloc, old, new)?;
    let document = write_patch(alloc, &patch)?;
    let text = document.to_string(alloc)?;
    Ok(text)
}
