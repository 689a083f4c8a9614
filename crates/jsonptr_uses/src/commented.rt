//! Settings in a JSON text with comments.
ghost use Rattle.std.specs.Prelude.{IfOk, IfErr, IfSome, MatchOption};
ghost use Rattle.serde_json.specs.View.{view};
ghost use Rattle.jsonptr.specs.Pointer.{tokens};
ghost use Rattle.jsonptr_comments_step.specs.EditWithComments.{Becomes};
ghost use Rattle.jsonptr_text_edit.specs.Edited.{text_of, IfInPlace};
ghost use Rattle.jsonptr_text_edit.specs.Edits.{EditsText};
ghost use Rattle.jsonptr_comments_edit.specs.Commented.{CommentedBytes, IsCommentedError};
ghost use Rattle.jsonptr_uses.specs.Commented.{HasSetting, IsSettingError, FailsTest};

use jsonptr::{Fault, Pointer};
use jsonptr_comments::{CommentError, without_comments};
use jsonptr_comments_edit::{Buffers, CommentedText, Edit, EditError, Edited, edit_commented};
use jsonptr_patch::{FailedOperation, PatchError};
use jsonptr_text_resolve::{InTextError, resolve_in_text};
use serde_json::Value;
use std::alloc::{AllocError, Global};

/// Why a setting is not found.
#[derive(Debug, Drop)]
pub enum SettingError {
    /// A comment is not closed.
    Comment(CommentError),
    /// The pointer does not resolve in the text without comments.
    InText(InTextError),
    /// An allocation failed.
    Memory(AllocError),
}

/// Returns the value that the pointer resolves to in a JSON text with comments and trailing commas.
///
/// # Errors
///
/// [`SettingError::Comment`] if a block comment is not closed, [`SettingError::InText`] with the error of
/// `resolve_in_text` on the text without comments, and [`SettingError::Memory`] if an allocation fails.
pub fn setting(alloc: Global, text: &str, pointer: Pointer<'_>) -> Result<Value, SettingError>
    ensures found { IfOk result (λ v. HasSetting text.now (tokens pointer.entry) (view v)) }
    ensures refused { IfErr result (IsSettingError text.now (tokens pointer.entry)) }
{
    match without_comments(alloc, text) {
        Ok(bare) => match resolve_in_text(alloc, bare.as_str(), pointer) {
            Ok(value) => Ok(value),
            Err(error) => Err(SettingError::InText(error)),
        },
        Err(Fault::Refused(error)) => Err(SettingError::Comment(error)),
        Err(Fault::Memory(error)) => Err(SettingError::Memory(error)),
    }
}

/// Makes an upgrade of the settings, as a patch, and keeps their comments if it is made in place. Returns
/// `None` if a test of the upgrade fails, so that it is not for these settings.
///
/// # Errors
///
/// Those of [`edit_commented`], except that a test fails.
pub fn upgraded(
    buffers: &mut Buffers,
    settings: &CommentedText<'_>,
    upgrade: &Edit<'_>,
) -> Result<Option<Edited>, EditError>
    ensures upgraded { IfOk result (λ o. MatchOption o
        (FailsTest settings.now.text.now upgrade.now)
        (λ e. Becomes (λ old new. EditsText old upgrade.now new)
        settings.now.text.now (text_of e))) }
    ensures bytes { IfOk result (λ o. IfSome o
        (IfInPlace (CommentedBytes settings.now.text.now upgrade.now))) }
    ensures refused { IfErr result (IsCommentedError settings.now.text.now upgrade.now) }
{
    match edit_commented(buffers, settings, upgrade) {
        Ok(edited) => Ok(Some(edited)),
        Err(
            EditError::Patch(
                FailedOperation {
                    error: PatchError::TestFailed { .. },
                    ..
                },
            ),
        ) => Ok(None),
        Err(error) => Err(error),
    }
}
