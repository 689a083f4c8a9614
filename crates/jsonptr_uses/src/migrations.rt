//! A setting that has another name in the next version of a program, in files with comments.
ghost use Rattle.std.specs.Prelude.{◌≡◌, ◌⊎◌, IfOk, IfErr, IfSome, MatchOption};
ghost use Rattle.jsonptr.specs.Pointer.{tokens};
ghost use Rattle.jsonptr.specs.Text.{Text};
ghost use Rattle.jsonptr_comments.specs.Comments.{IsWithoutComments};
ghost use Rattle.jsonptr_text_step.specs.EditInText.{LacksInText};
ghost use Rattle.jsonptr_text_step.specs.Renaming.{RenamesInText};
ghost use Rattle.jsonptr_comments_step.specs.EditWithComments.{Becomes};
ghost use Rattle.jsonptr_comments_step.specs.Edits.{IsRenaming};
ghost use Rattle.jsonptr_text_edit.specs.Edited.{text_of, IfInPlace};
ghost use Rattle.jsonptr_text_edit.specs.declared.edit.Edit.TheVariants.{Rename};
ghost use Rattle.jsonptr_text_edit.specs.declared.edit_error.EditError.TheVariants as error;
ghost use Rattle.jsonptr_text_step.specs.declared.rename.RenameError.TheVariants.{NotThere};
ghost use Rattle.jsonptr_comments_edit.specs.Commented.{IsCommentedError};

use jsonptr::Pointer;
use jsonptr_comments_edit::{
    Buffers, CommentedText, Edit, EditError, Edited, RenameError, edit_commented,
};

/// Renames the setting. In place, it keeps its place, its value and all comments. Returns `None` if the file does
/// not have the setting.
///
/// # Errors
///
/// Those of [`edit_commented`], except that there is no such setting.
pub fn migrated(
    buffers: &mut Buffers,
    file: &CommentedText<'_>,
    setting: Pointer<'_>,
    name: &str,
) -> Result<Option<Edited>, EditError>
    ensures migrated { IfOk result (λ o. MatchOption o
        ((old : Text) × IsWithoutComments file.now.text.now old × LacksInText old (tokens setting.entry))
        (λ e. Becomes (λ old new. RenamesInText old (tokens setting.entry) name.now new)
        file.now.text.now (text_of e))) }
    ensures in_place { IfOk result (λ o. IfSome o (IfInPlace (λ new.
        (new ≡ file.now.text.now) ⊎ IsRenaming file.now.text.now (tokens setting.entry) new))) }
    ensures refused { IfErr result
        (IsCommentedError file.now.text.now (Rename setting.entry name.entry)) }
    ensures never_missing { IfErr result (λ e. e ≡ error.Rename NotThere → ⊥) }
{
    match edit_commented(buffers, file, &Edit::Rename(setting, name)) {
        Ok(edited) => Ok(Some(edited)),
        Err(EditError::Rename(RenameError::NotThere)) => Ok(None),
        Err(error) => Err(error),
    }
}
