//! The difference of two documents, as a patch document.
ghost use Rattle.std.specs.Prelude.{◌≡◌, Some, IfOk, IfErr, string_bytes};
ghost use Rattle.serde_json.specs.Read.{read};
ghost use Rattle.serde_json.specs.View.{view};
ghost use Rattle.jsonptr.specs.Json.{nodes};
ghost use Rattle.jsonptr_patch_document.specs.Writing.{document_of};
ghost use Rattle.jptr_tasks.specs.Layouts.{ShowsInLayout};
ghost use Rattle.jptr_tasks.specs.PrivateResults.{IsPatchTextFault};
ghost use Rattle.jptr_tasks.specs.Differences.{HasChanges, IsDifference, IsNoneIfSame, FailsToDiffer};

use crate::layout::{Layout, show};
use crate::task_error::TaskError;
use jsonptr_patch::Operation;
use jsonptr_patch_diff::diff;
use jsonptr_patch_document::write_patch;
use jsonptr_value::{MAX_DEPTH, nests_within};
use serde_json::Value;
use std::alloc::Global;

/// The difference of two documents.
#[derive(Debug, Drop)]
pub struct PrintedPatch {
    /// The JSON text of the patch document (RFC 6902), with no line break after it.
    pub text: String,
    /// Whether the patch has no operation.
    pub is_empty: bool,
}

/// Returns the patch document that turns one document into the other.
///
/// It has no operation if both are the same, floats by their bits.
///
/// Its text reads as the patch document, so [`Edit::Patch`](jsonptr_text_edit::Edit::Patch) applies it to
/// `old`, and the result is `new` ([`printed_difference_law`](crate::laws::printed_difference_law)).
///
/// # Errors
///
/// - [`TaskError::PatchTooDeep`], only if `new` nests deeper than 125: a value is two levels deeper in
///   the patch document, less the levels of its pointer. That this one nests deeper than 127 is tested.
/// - [`TaskError::Memory`] if an allocation fails.
///
/// # Examples
///
/// ```rust
/// let old = Value::from_str(alloc, r#"{"a": 1}"#)?;
/// let new = Value::from_str(alloc, r#"{"a": 2}"#)?;
/// let difference = difference_of(alloc, &old, &new, Layout::Compact)?;
/// let text = r#"[{"op":"replace","path":"/a","value":2}]"#;
/// assert_eq!(rt; difference.text.as_str(), text);
/// assert_eq!(rt; difference.is_empty, false);
/// ```
pub fn difference_of(
    alloc: Global,
    old: &Value,
    new: &Value,
    layout: Layout,
) -> Result<PrintedPatch, TaskError>
    ensures patch { IfOk result
        (IsDifference (nodes (view old.now)) (nodes (view new.now)) layout) }
    ensures same { IfOk result
        (IsNoneIfSame (nodes (view old.now)) (nodes (view new.now))) }
    ensures changes { IfOk result (HasChanges (nodes (view old.now)) (nodes (view new.now))) }
    ensures refused { IfErr result (FailsToDiffer (view new.now)) }
{
    let patch = diff(alloc, old, new)?;
    let text = patch_text(alloc, &patch, layout)?;
    let is_empty = patch.is_empty();
    Ok(PrintedPatch { text, is_empty })
}

/// Returns the text of the patch document of the operations.
///
/// # Errors
///
/// [`TaskError::PatchTooDeep`] if it nests deeper than 127, and [`TaskError::Memory`] if an allocation
/// fails.
pub(crate) fn patch_text(
    alloc: Global,
    patch: &Vec<Operation>,
    layout: Layout,
) -> Result<String, TaskError>
    ensures shown { IfOk result
        (λ s. ShowsInLayout layout (document_of patch.now.items) (string_bytes s)) }
    ensures read_back { IfOk result
        (λ s. read (string_bytes s) ≡ Some (document_of patch.now.items)) }
    ensures refused { IfErr result (IsPatchTextFault patch.now.items) }
{
    let document = write_patch(alloc, patch)?;
    if !nests_within(&document, MAX_DEPTH) {
        return Err(TaskError::PatchTooDeep);
    }
    let text = show(alloc, &document, layout)?;
    Ok(text)
}
