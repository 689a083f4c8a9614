//! A text that is patched, with a patch that takes that back.
ghost use Rattle.std.specs.Prelude.{◌≡◌, Some, IfOk, string_bytes};
ghost use Rattle.serde_json.specs.Data.{Data};
ghost use Rattle.serde_json.specs.Read.{read};
ghost use Rattle.serde_json.specs.View.{view};
ghost use Rattle.jsonptr.specs.Text.{Text};
ghost use Rattle.jsonptr_text_step.specs.RawPatching.{RawPatchBytes};
ghost use Rattle.jptr_tasks.specs.Results.{PatchesBytesInLayout};
ghost use Rattle.jptr_tasks.specs.declared.layout.Layout.TheVariants.{Kept};

use jptr_tasks::inverse::inverse_of;
use jptr_tasks::laws::{patch_law, printed_inverse_law};
use jptr_tasks::layout::Layout;
use jptr_tasks::result::result_in_text;
use jptr_tasks::task::Task;
use jptr_tasks::task_error::TaskError;
use jsonptr_text_edit::{Edit, PatchText};
use std::alloc::Global;

/// The text of a document after a patch, and the text of a patch that takes it back.
#[derive(Debug, Drop)]
pub struct PatchedText {
    /// The new text, in the layout of the old one.
    pub new: String,
    /// The text of a patch document.
    pub undo: String,
}

/// Applies the patch to the text. What the patch `undo` makes of the new text is read as the document
/// of the old one. Each value that the patch puts there has its own text.
///
/// # Errors
///
/// Those of [`inverse_of`] and of [`Edit::Patch`].
pub fn patched_text(alloc: Global, text: &str, patch: PatchText) -> Result<PatchedText, TaskError>
    ensures applied { IfOk result (λ p.
        PatchesBytesInLayout text.now (view patch.document) Kept (string_bytes p.new)) }
    ensures carries { IfOk result (λ p.
        RawPatchBytes text.now patch.operations.items (string_bytes p.new)) }
    ensures undone { IfOk result (λ p. (d back : Data) (again : Text)
        → read text.now ≡ Some d → read (string_bytes p.undo) ≡ Some back
        → PatchesBytesInLayout (string_bytes p.new) back Kept again → read again ≡ Some d) }
{
    patch_law();
    printed_inverse_law();
    let inverse = inverse_of(alloc, text, &patch.document, Layout::Compact)?;
    let task = Task::Edit(Edit::Patch(patch));
    let new = result_in_text(alloc, text, &task, Layout::Kept)?;
    let undo = inverse.text;
    Ok(PatchedText { new, undo })
}
