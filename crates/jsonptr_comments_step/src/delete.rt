//! Deleting in a text with comments.
ghost use Rattle.std.specs.Prelude.{IfOk, IfSome, string_bytes};
ghost use Rattle.jsonptr.specs.Pointer.{tokens};
ghost use Rattle.jsonptr_text_step.specs.Bytes.{DeletesBytes};
ghost use Rattle.jsonptr_text_step.specs.EditInText.{DeletesInText};
ghost use Rattle.jsonptr_comments_step.specs.EditWithComments.{Becomes, EditsAs};
ghost use Rattle.jsonptr_comments_step.specs.Edits.{IsOneEdit};

use crate::step::take_commented_step;
use crate::texts::{Texts, TextsBuf, has_bare};
use jsonptr::Pointer;
use jsonptr_comments::CommentedText;
use jsonptr_text_piece::buffers::Buffers;
use jsonptr_text_step::Step;
use std::alloc::AllocError;

/// Deletes the value that the pointer resolves to in the document that the text with comments contains, in one
/// piece. Returns `None` if that is not possible, as where the object has several members with the key, and if
/// there is no such value.
///
/// The comments inside the child go with it, and those after it on its line, also after its comma. Those
/// on lines above it stay, and so do those between its line and a comma that is on a later line. Where it
/// shares a line with a child that follows, the comments between that one and the comma stay. If the last
/// child is removed, the one before it keeps its comma only if the list has a trailing comma.
///
/// # Errors
///
/// [`AllocError`] if an allocation fails.
///
/// # Examples
///
/// ```rust
/// let mut buffers = Buffers::new(alloc);
/// let text = "[\n  1, // one\n  // above two\n  2, // two\n  3\n]\n";
/// let read = CommentedText::read(alloc, text)?;
/// let new = delete_with_comments(&mut buffers, &read, Pointer::parse("/1")?)?;
/// let want = "[\n  1, // one\n  // above two\n  3\n]\n";
/// assert_eq!(rt; new.ok_or("an edit in place")?.as_str(), want);
/// ```
pub fn delete_with_comments(
    buffers: &mut Buffers,
    text: &CommentedText<'_>,
    pointer: Pointer<'_>,
) -> Result<Option<String>, AllocError>
    ensures deleted { IfOk result (λ o. IfSome o (λ s. Becomes
        (λ old new. DeletesInText old (tokens pointer.entry) new) text.now.text.now (string_bytes s))) }
    ensures bytes { IfOk result (λ o. IfSome o (λ s. EditsAs
        (λ old new. DeletesBytes old (tokens pointer.entry) new) text.now.text.now (string_bytes s))) }
    ensures pieces { IfOk result (λ o. IfSome o
        (λ s. IsOneEdit text.now.text.now (tokens pointer.entry) (string_bytes s))) }
{
    has_bare(text);
    let texts = Texts {
        text: text.text,
        bare: text.bare.as_str(),
    };
    let Some(new) = take_commented_step(buffers, texts, Step::Delete(pointer))? else {
        return Ok(None);
    };
    let TextsBuf { text: made, .. } = new;
    Ok(Some(made))
}
