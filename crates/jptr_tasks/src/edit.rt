//! Changing a document in its text: in place, or by printing it anew where that is wanted.
ghost use Rattle.std.specs.Prelude.{IfOk, IfErr, string_bytes};
ghost use Rattle.jsonptr_text_edit.specs.Edited.{text_of};
ghost use Rattle.jptr_tasks.specs.Layouts.{Lays};
ghost use Rattle.jptr_tasks.specs.PrivateResults.{IsLayoutError};
ghost use Rattle.jptr_tasks.specs.Results.{EditsInLayout, FailsToEdit};

use crate::layout::{Layout, lay_out};
use crate::task_error::TaskError;
use jsonptr_text_edit::{Buffers, Edit, Edited, edit_text};

/// Makes the edit in the text, and returns the new document in this layout.
///
/// With [`Layout::Kept`] the edit is made in place. In another layout the new text is laid out as [`Layout`]
/// says.
///
/// # Errors
///
/// Those of [`result_in_text`](crate::result::result_in_text) for `Task::Edit`.
pub fn edit(
    buffers: &mut Buffers,
    text: &str,
    edit: &Edit<'_>,
    layout: Layout,
) -> Result<String, TaskError>
    ensures edited { IfOk result (λ s. EditsInLayout text.now edit.now layout (string_bytes s)) }
    ensures refused { IfErr result (FailsToEdit text.now edit.now layout) }
{
    let edited = edit_text(buffers, text, edit)?;
    match layout {
        Layout::Kept => edited.in_place().ok_or(TaskError::NotInPlace),
        _ => laid_out(buffers, edited, layout),
    }
}

/// Returns the text of the document with its tokens laid out anew.
fn laid_out(buffers: &mut Buffers, edited: Edited, layout: Layout) -> Result<String, TaskError>
    ensures laid_out { IfOk result (λ s. Lays layout (text_of edited) (string_bytes s)) }
    ensures refused { IfErr result (IsLayoutError (text_of edited)) }
{
    let new = edited.or_reprinted();
    lay_out(buffers.alloc, &mut buffers.old, new.as_str(), layout)
}
