//! Editing a text with comments.
ghost use Rattle.std.specs.Prelude.{IfOk, IfErr};
ghost use Rattle.jsonptr_text_step.specs.OneLine.{StaysOneLine};
ghost use Rattle.jsonptr_comments_step.specs.EditWithComments.{Becomes};
ghost use Rattle.jsonptr_text_edit.specs.Edited.{text_of, IfInPlace};
ghost use Rattle.jsonptr_text_edit.specs.Edits.{EditsText};
ghost use Rattle.jsonptr_comments_edit.specs.Commented.{CommentedBytes, IsCommentedError};

use crate::kinds::make;
use crate::reprint::reprint;
use jsonptr_comments::CommentedText;
use jsonptr_text_edit::{Buffers, Edit, EditError, Edited};
use jsonptr_text_step::stays_one_line;

/// Makes the edit in the document that the text with comments contains, and returns the new text.
///
/// | Edit in place | Comments |
/// |---|---|
/// | a value is replaced | those inside it go; all others stay |
/// | a child is added | all stay; those on the line of the child before it stay on its line |
/// | a child is removed | those inside it go, and those after it on its line, also after its comma |
/// | a value is moved | all stay: a value with a comment in it, or beside it on its line, is not moved |
/// | a member is renamed | all stay |
///
/// If the edit is possible, but not in place, the document is printed anew, without comments:
/// [`Edited::Reprinted`].
///
/// Takes the comments out of the text once more, and out of each new text once.
///
/// # Errors
///
/// Those of [`edit_text`](jsonptr_text_edit::edit_text) for the text without comments.
///
/// # Examples
///
/// ```rust
/// let mut buffers = Buffers::new(alloc);
/// let text = CommentedText::read(alloc, "[\n  1, // one\n  2, // two\n  3\n]\n")?;
/// let edited = edit_commented(&mut buffers, &text, &Edit::Delete(Pointer::parse("/1")?))?;
/// let new = edited.in_place().ok_or("an edit in place")?;
/// assert_eq!(rt; new.as_str(), "[\n  1, // one\n  3\n]\n");
/// ```
pub fn edit_commented(
    buffers: &mut Buffers,
    text: &CommentedText<'_>,
    edit: &Edit<'_>,
) -> Result<Edited, EditError>
    ensures edited { IfOk result (λ e. Becomes
        (λ old new. EditsText old edit.now new) text.now.text.now (text_of e)) }
    ensures bytes { IfOk result (IfInPlace (CommentedBytes text.now.text.now edit.now)) }
    ensures one_line { IfOk result (IfInPlace (StaysOneLine text.now.text.now)) }
    ensures refused { IfErr result (IsCommentedError text.now.text.now edit.now) }
{
    if let Some(new) = make(buffers, text, edit)? {
        if stays_one_line(text.text, new.as_str()) {
            return Ok(Edited::InPlace(new));
        }
    }
    Ok(Edited::Reprinted(reprint(buffers, text, edit)?))
}
