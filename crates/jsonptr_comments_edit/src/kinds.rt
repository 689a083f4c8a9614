//! An edit of a text with comments by its kind, in place.
ghost use Rattle.std.specs.Prelude.{IfOk, IfSome, string_bytes};
ghost use Rattle.jsonptr_comments_step.specs.EditWithComments.{Becomes};
ghost use Rattle.jsonptr_text_edit.specs.Edits.{EditsText};
ghost use Rattle.jsonptr_comments_edit.specs.Commented.{CommentedBytes};

use jsonptr_comments::CommentedText;
use jsonptr_comments_step::{
    apply_with_comments, assign_with_comments, delete_with_comments, rename_with_comments,
};
use jsonptr_text_edit::{Buffers, Edit};
use std::alloc::AllocError;

/// Makes the edit in place. Returns `None` if that is not possible, and for each error of the edit.
///
/// # Errors
///
/// [`AllocError`] if an allocation fails.
pub fn make(
    buffers: &mut Buffers,
    text: &CommentedText<'_>,
    edit: &Edit<'_>,
) -> Result<Option<String>, AllocError>
    ensures edited { IfOk result (λ o. IfSome o (λ s. Becomes
        (λ old new. EditsText old edit.now new) text.now.text.now (string_bytes s))) }
    ensures bytes { IfOk result (λ o. IfSome o
        (λ s. CommentedBytes text.now.text.now edit.now (string_bytes s))) }
{
    match edit {
        Edit::Assign(pointer, raw) => assign_with_comments(buffers, text, *pointer, raw),
        Edit::Delete(pointer) => delete_with_comments(buffers, text, *pointer),
        Edit::Rename(pointer, key) => rename_with_comments(buffers, text, *pointer, key),
        Edit::Patch(patch) => apply_with_comments(buffers, text, patch.operations.as_slice()),
    }
}
