//! The inverse of a patch document: the one that takes it back.
ghost use Rattle.std.specs.Prelude.{All, IfOk, IfErr};
ghost use Rattle.serde_json.specs.View.{view};
ghost use Rattle.jsonptr.specs.Json.{nodes, HasSortedKeys};
ghost use Rattle.jsonptr_patch.specs.Inverse.{TakesAllBackBy};
ghost use Rattle.jsonptr_patch.specs.Order.{OperationHasSortedKeys};
ghost use Rattle.jsonptr_patch.specs.Patching.{Patches, PatchesBy};
ghost use Rattle.jsonptr_patch.specs.declared.comparison.Comparison.TheVariants.{Numeric};
ghost use Rattle.jptr_tasks.specs.Inverting.{IsInverse, TakesPatchBack, FailsToInvert};
ghost use Rattle.jptr_tasks.specs.PrivateResults.{IsApplyFault};

use crate::difference::{PrintedPatch, patch_text};
use crate::layout::{Layout, read_document};
use crate::patch::operations_of;
use crate::task_error::TaskError;
use jsonptr::Fault;
use jsonptr_patch::{Comparison, Operation, apply_naming_pointer_with_inverse};
use jsonptr_patch_document::laws::patch_document_law;
use serde_json::Value;
use std::alloc::Global;

/// Returns the inverse of the patch document: it turns the document of the text after the patch into
/// the document of the text.
///
/// [`Edit::Patch`](jsonptr_text_edit::Edit::Patch) applies both. In a layout other than
/// [`Layout::Raw`], what is printed after both is read as the document of the text
/// ([`printed_inverse_law`](crate::laws::printed_inverse_law)).
///
/// # Errors
///
/// - [`TaskError::NotPatch`] if the patch document is not a patch, and [`TaskError::PatchFailed`] if an
///   operation fails.
/// - [`TaskError::NotJson`] if the text is not JSON.
/// - [`TaskError::PatchTooDeep`] if the inverse nests deeper than 127. Its values are some that the patch
///   removes, replaces or moves, two levels deeper. So one of them nests deeper than 125
///   ([`inverse_depth_law`](crate::laws::inverse_depth_law)).
/// - [`TaskError::Memory`] if an allocation fails.
///
/// # Examples
///
/// ```rust
/// let patch = json!(in alloc; [{"op": "move", "from": "/draft", "path": "/title"}])?;
/// let undo = inverse_of(alloc, r#"{"draft": 1}"#, &patch, Layout::Compact)?;
/// let text = r#"[{"from":"/title","op":"move","path":"/draft"}]"#;
/// assert_eq!(rt; undo.text.as_str(), text);
/// ```
pub fn inverse_of(
    alloc: Global,
    text: &str,
    patch: &Value,
    layout: Layout,
) -> Result<PrintedPatch, TaskError>
    ensures inverse { IfOk result (IsInverse text.now (view patch.now) layout) }
    ensures taken_back { IfOk result (TakesPatchBack text.now (view patch.now)) }
    ensures refused { IfErr result (FailsToInvert text.now (view patch.now)) }
{
    patch_document_law();
    let operations = operations_of(alloc, patch)?;
    let mut document = read_document(alloc, text)?;
    let inverse = apply_numerically_with_inverse(alloc, &mut document, operations)?;
    let text = patch_text(alloc, &inverse, layout)?;
    let is_empty = inverse.is_empty();
    Ok(PrintedPatch { text, is_empty })
}

/// Applies the operations, and returns their inverse.
///
/// # Errors
///
/// [`TaskError::PatchFailed`] if an operation fails, and [`TaskError::Memory`] if an allocation fails.
fn apply_numerically_with_inverse(
    alloc: Global,
    document: &mut Value,
    operations: Vec<Operation>,
) -> Result<Vec<Operation>, TaskError>
    ensures applied { IfOk result (λ _.
        PatchesBy Numeric (nodes (view document.old)) operations.items
        (nodes (view document.new))) }
    ensures inverse { IfOk result (λ inverse.
        Patches (nodes (view document.new)) inverse.items (nodes (view document.old))) }
    ensures taken_back { IfOk result (λ inverse.
        TakesAllBackBy Numeric (nodes (view document.old)) operations.items inverse.items) }
    ensures sorted { IfOk result (λ inverse. All OperationHasSortedKeys operations.items
        → HasSortedKeys (view document.old) → All OperationHasSortedKeys inverse.items) }
    ensures refused { IfErr result (IsApplyFault (nodes (view document.old)) operations.items) }
{
    match apply_naming_pointer_with_inverse(alloc, document, operations, Comparison::Numeric) {
        Ok(inverse) => Ok(inverse),
        Err(Fault::Refused(error)) => Err(TaskError::PatchFailed(error)),
        Err(Fault::Memory(error)) => Err(TaskError::Memory(error)),
    }
}
