//! A document that is edited and printed anew, without comments.
ghost use Rattle.std.specs.Prelude.{◌≡◌, Some, IfOk, IfErr, string_bytes};
ghost use Rattle.serde_json.specs.Data.{Data};
ghost use Rattle.serde_json.specs.Read.{read};
ghost use Rattle.jsonptr_comments_step.specs.EditWithComments.{Becomes};
ghost use Rattle.jsonptr_text_edit.specs.Edits.{EditsText};
ghost use Rattle.jsonptr_text_edit.specs.Errors.{IsEditError};
ghost use Rattle.jsonptr_comments_edit.specs.Commented.{IsCommentedError};

use jsonptr_comments::CommentedText;
use jsonptr_comments::laws::{bare_law, json_text_law, plain_law};
use jsonptr_text_edit::{Buffers, Edit, EditError, Edited, edit_text};
use jsonptr_value::ReadError;
use std::alloc::{AllocError, Global};

/// Makes the edit in the text without comments, and prints the document.
///
/// # Errors
///
/// Those of [`edit_commented`](crate::edit_commented).
pub fn reprint(
    buffers: &mut Buffers,
    text: &CommentedText<'_>,
    edit: &Edit<'_>,
) -> Result<String, EditError>
    ensures edited { IfOk result (λ s. Becomes
        (λ old new. EditsText old edit.now new) text.now.text.now (string_bytes s)) }
    ensures refused { IfErr result (IsCommentedError text.now.text.now edit.now) }
{
    bare_law();
    json_text_law();
    plain_law();
    edit_and_print(buffers, text.bare.as_str(), edit)
}

/// Makes the edit in the text, and prints the document.
///
/// # Errors
///
/// Those of [`edit_text`].
fn edit_and_print(buffers: &mut Buffers, text: &str, edit: &Edit<'_>) -> Result<String, EditError>
    ensures edited { IfOk result (λ s. EditsText text.now edit.now (string_bytes s)) }
    ensures refused { IfErr result (IsEditError text.now edit.now) }
{
    match edit_text(buffers, text, edit)? {
        Edited::InPlace(new) => Ok(printed(buffers.alloc, new.as_str())?),
        Edited::Reprinted(new) => Ok(new),
    }
}

/// Reads the text and prints its document.
///
/// # Errors
///
/// [`AllocError`] if an allocation fails.
fn printed(alloc: Global, text: &str) -> Result<String, AllocError>
    requires { (d : Data) × (read text.now ≡ Some d) }
    ensures { IfOk result (λ s. read (string_bytes s) ≡ read text.now) }
{
    match jsonptr_value::read(alloc, text) {
        Ok(document) => document.to_string(alloc),
        Err(ReadError::NotJson) => unreachable!(),
        Err(ReadError::Memory(error)) => Err(error),
    }
}
