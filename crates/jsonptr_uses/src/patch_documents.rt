//! A patch document that is applied to a document.
ghost use Rattle.std.specs.Prelude.{◌≡◌, List, IfOk, OnErr};
ghost use Rattle.serde_json.specs.Data.{Data};
ghost use Rattle.serde_json.specs.View.{view};
ghost use Rattle.jsonptr.specs.Fault.{IfRefused};
ghost use Rattle.jsonptr.specs.Json.{nodes, HasSortedKeys};
ghost use Rattle.jsonptr_patch.specs.Patching.{Patches};
ghost use Rattle.jsonptr_patch.specs.declared.operation.Operation.{Operation};
ghost use Rattle.jsonptr_patch_document.specs.Document.{IsPatch};
ghost use Rattle.jsonptr_uses.specs.PatchDocuments.{RefusesDocument};

use jsonptr::Fault;
use jsonptr::tree::json::json_map_law;
use jsonptr_patch::laws::patch::patch_law;
use jsonptr_patch::{PatchError, apply};
use jsonptr_patch_document::laws::patch_document_law;
use jsonptr_patch_document::{PatchDocumentError, read_patch};
use serde_json::Value;
use std::alloc::Global;

/// Why a patch document cannot be applied.
#[derive(Debug, Drop)]
pub enum ApplyError {
    /// It is not a patch.
    Document(PatchDocumentError),
    /// One of its operations fails.
    Operation(PatchError),
}

/// Applies a patch document. If the keys of the objects are in ascending order in both, the new
/// document is the one value that the operations make of the old one. Those of parsed documents are.
///
/// # Errors
///
/// [`Fault::Refused`] if it is not a patch or an operation fails, and [`Fault::Memory`] if an
/// allocation fails. The document is unchanged.
pub fn apply_document(
    alloc: Global,
    document: &mut Value,
    patch: &Value,
) -> Result<(), Fault<ApplyError>>
    ensures applied { IfOk result (λ _. (os : List Operation) → IsPatch (view patch.now) os
        → Patches (nodes (view document.old)) os (nodes (view document.new))) }
    ensures sorted { IfOk result (λ _. HasSortedKeys (view document.old)
        → HasSortedKeys (view patch.now) → HasSortedKeys (view document.new)) }
    ensures value { IfOk result (λ _. (os : List Operation) (d : Data)
        → HasSortedKeys (view document.old) → HasSortedKeys (view patch.now) → HasSortedKeys d
        → IsPatch (view patch.now) os → Patches (nodes (view document.old)) os (nodes d)
        → view document.new ≡ d) }
    ensures refused { IfRefused result (RefusesDocument (view document.old) (view patch.now)) }
    ensures unchanged { OnErr result (view document.new ≡ view document.old) }
{
    patch_document_law();
    patch_law();
    json_map_law();
    match read_patch(alloc, patch) {
        Ok(operations) => match apply(alloc, document, operations) {
            Ok(()) => Ok(()),
            Err(Fault::Refused(error)) => Err(Fault::Refused(ApplyError::Operation(error))),
            Err(Fault::Memory(error)) => Err(Fault::Memory(error)),
        },
        Err(Fault::Refused(error)) => Err(Fault::Refused(ApplyError::Document(error))),
        Err(Fault::Memory(error)) => Err(Fault::Memory(error)),
    }
}
