//! Assigning in a text with comments.
ghost use Rattle.std.specs.Prelude.{IfOk, IfSome, string_bytes};
ghost use Rattle.jsonptr.specs.Pointer.{tokens};
ghost use Rattle.jsonptr.specs.Json.{nodes};
ghost use Rattle.jsonptr_text_value.specs.Raw.{value_of_raw};
ghost use Rattle.jsonptr_text_step.specs.Giving.{AssignsGiven};
ghost use Rattle.jsonptr_text_step.specs.EditInText.{AssignsInText};
ghost use Rattle.jsonptr_comments_step.specs.EditWithComments.{Becomes, EditsAs};
ghost use Rattle.jsonptr_comments_step.specs.Edits.{IsOneEdit};

use crate::step::take_commented_step;
use crate::texts::{Texts, TextsBuf, has_bare};
use jsonptr::Pointer;
use jsonptr_comments::CommentedText;
use jsonptr_text_piece::buffers::Buffers;
use jsonptr_text_step::{RawValue, Step};
use std::alloc::AllocError;

/// Assigns the value at the pointer in the document that the text with comments contains, in one piece. Returns
/// `None` if that is not possible, and if no value can be assigned at the pointer.
///
/// | Edit | Comments |
/// |---|---|
/// | a value is replaced | those inside the old value go with it; all others stay |
/// | a member or an element is added at the end | all stay; those on the line of the last child stay on its line |
///
/// A list over lines with a trailing comma has one after the edit, and others have none. An empty
/// container keeps its comments, and the new child comes after them.
///
/// In place of an old value or as a new one, the value has the tokens of its own text, one for one: its members in
/// their order, and its numbers as they are written.
///
/// Takes the comments out of the result once, and reads both new texts without comments once, beside what
/// [`take_step`](jsonptr_text_step::take_step) reads. Where a value is replaced, also finds it, as
/// [`locate`](jsonptr_text_step::locate) does.
///
/// # Errors
///
/// [`AllocError`] if an allocation fails.
///
/// # Examples
///
/// ```rust
/// let mut buffers = Buffers::new(alloc);
/// let text = "{\n  \"sizes\": [\n    1, // one\n    2 // two\n  ]\n}\n";
/// let read = CommentedText::read(alloc, text)?;
/// let path = Pointer::parse("/sizes/-")?;
/// let raw = RawValue::parse(alloc, "3.0")?;
/// let new = assign_with_comments(&mut buffers, &read, path, &raw)?;
/// let want = "{\n  \"sizes\": [\n    1, // one\n    2, // two\n    3.0\n  ]\n}\n";
/// assert_eq!(rt; new.ok_or("an edit in place")?.as_str(), want);
/// ```
pub fn assign_with_comments(
    buffers: &mut Buffers,
    text: &CommentedText<'_>,
    pointer: Pointer<'_>,
    raw: &RawValue,
) -> Result<Option<String>, AllocError>
    ensures assigned { IfOk result (λ o. IfSome o (λ s. Becomes (λ old new. AssignsInText old
        (tokens pointer.entry) (nodes (value_of_raw raw.now)) new) text.now.text.now (string_bytes s))) }
    ensures bytes { IfOk result (λ o. IfSome o (λ s. EditsAs
        (λ old new. AssignsGiven old (tokens pointer.entry) raw.now new) text.now.text.now (string_bytes s))) }
    ensures pieces { IfOk result (λ o. IfSome o
        (λ s. IsOneEdit text.now.text.now (tokens pointer.entry) (string_bytes s))) }
{
    has_bare(text);
    let texts = Texts {
        text: text.text,
        bare: text.bare.as_str(),
    };
    let Some(new) = take_commented_step(buffers, texts, Step::Assign(pointer, raw))? else {
        return Ok(None);
    };
    let TextsBuf { text: made, .. } = new;
    Ok(Some(made))
}
