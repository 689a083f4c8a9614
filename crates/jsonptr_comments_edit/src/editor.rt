//! A text that is edited many times.
ghost use Rattle.std.specs.Prelude.{◌≡◌, IfOk, IfErr, IfSome, MatchOption, OnErr, IsTrue, string_bytes, ⊤};
ghost use Rattle.std.proofs.Props.{props};
ghost use Rattle.jsonptr.specs.Text.{Text};
ghost use Rattle.jsonptr_comments.specs.Faults.{IsCommentFault};
ghost use Rattle.jsonptr_text_step.specs.OneLine.{StaysOneLine};
ghost use Rattle.jsonptr_comments_step.specs.EditWithComments.{Becomes};
ghost use Rattle.jsonptr_text_edit.specs.Edited.{text_of, IfInPlace};
ghost use Rattle.jsonptr_text_edit.specs.Edits.{EditsText};
ghost use Rattle.jsonptr_comments_edit.specs.Commented.{CommentedBytes, IsCommentedError};
ghost use Rattle.jsonptr_comments_edit.specs.Closed.{IsClosed};

use crate::commented::edit_commented;
use jsonptr::Fault;
use jsonptr_comments::laws::bare_law;
use jsonptr_comments::{CommentError, CommentedText};
use jsonptr_text_edit::{Buffers, Edit, EditError, Edited};
use std::alloc::Global;
use std::mem::replace;

/// A JSON text, with comments or without, that is edited many times. It owns the text and its memory.
///
/// # Examples
///
/// ```rust
/// let text = String::from_str(alloc, "{\n  \"size\": 3 // px\n}\n")?;
/// let mut editor = TextEditor::new(alloc, text)?;
/// let size = Pointer::parse("/size")?;
/// let edit = Edit::Assign(size, RawValue::parse(alloc, "4.0")?);
/// let before = editor.edit_in_place(&edit)?.ok_or("an edit in place")?;
/// assert_eq!(rt; editor.text.as_str(), "{\n  \"size\": 4.0 // px\n}\n");
/// assert_eq!(rt; before.as_str(), "{\n  \"size\": 3 // px\n}\n");
/// ```
#[derive(Drop)]
pub struct TextEditor {
    /// The text.
    pub text: String,
    /// The memory of its edits.
    pub buffers: Buffers,
    pub ghost is_closed: { IsClosed (string_bytes text) } by { Prim.hlevel props },
}

/// What [`TextEditor::edit_or_reprint`] did.
#[derive(Debug, Drop)]
pub struct Replaced {
    /// The text before the edit.
    pub before: String,
    /// Whether the edit is made in place.
    pub is_in_place: bool,
}

impl TextEditor {
    /// Makes an editor of the text.
    ///
    /// # Errors
    ///
    /// - [`Fault::Refused`] if a block comment is not closed.
    /// - [`Fault::Memory`] if an allocation fails.
    pub fn new(alloc: Global, text: String) -> Result<TextEditor, Fault<CommentError>>
        ensures text { IfOk result (λ editor. editor.text ≡ text) }
        ensures refused { IfErr result (IsCommentFault (string_bytes text)) }
    {
        check_closed(alloc, text.as_str())?;
        let buffers = Buffers::new(alloc);
        Ok(TextEditor { text, buffers })
    }

    /// Makes the edit in place, and returns the text before, so that the caller can put it back. Returns
    /// `None` if the edit is possible, but not in place. Then, and after an error, the text is unchanged.
    ///
    /// # Errors
    ///
    /// Those of [`edit_commented`].
    ///
    /// # Examples
    ///
    /// ```rust
    /// let mut editor = TextEditor::new(alloc, String::from_str(alloc, "[1.0, /* a */ 2]")?)?;
    /// let edit = Edit::Delete(Pointer::parse("/0")?);
    /// assert!(rt; editor.edit_in_place(&edit)?.is_some());
    /// assert!(rt; editor.edit_in_place(&edit)?.is_some());
    /// assert!(rt; matches!(editor.edit_in_place(&edit), Err(EditError::NotThere)));
    /// ```
    pub fn edit_in_place(&mut self, edit: &Edit<'_>) -> Result<Option<String>, EditError>
        ensures edited { IfOk result (λ o. IfSome o (λ _. Becomes
            (λ old new. EditsText old edit.now new) (string_bytes self.old.text) (string_bytes self.new.text))) }
        ensures bytes { IfOk result (λ o. IfSome o (λ _.
            CommentedBytes (string_bytes self.old.text) edit.now (string_bytes self.new.text))) }
        ensures one_line { IfOk result (λ o. IfSome o (λ _.
            StaysOneLine (string_bytes self.old.text) (string_bytes self.new.text))) }
        ensures possible { IfOk result (λ o. MatchOption o ((new : Text) × Becomes
            (λ old new. EditsText old edit.now new) (string_bytes self.old.text) new) (λ _. ⊤)) }
        ensures before { IfOk result (λ o.
            MatchOption o (self.new.text ≡ self.old.text) (λ before. before ≡ self.old.text)) }
        ensures unchanged { OnErr result (self.new.text ≡ self.old.text) }
        ensures refused { IfErr result (IsCommentedError (string_bytes self.old.text) edit.now) }
    {
        match edit_closed(&mut self.buffers, self.text.as_str(), edit)? {
            Edited::InPlace(new) => Ok(Some(replace(&mut self.text, new))),
            Edited::Reprinted(_new) => Ok(None),
        }
    }

    /// Makes the edit, in place or not, and returns the text before. After an error the text is unchanged.
    ///
    /// If the edit is not made in place, the new text is the document without its layout and its comments.
    ///
    /// # Errors
    ///
    /// Those of [`edit_commented`].
    pub fn edit_or_reprint(&mut self, edit: &Edit<'_>) -> Result<Replaced, EditError>
        ensures edited { IfOk result (λ _. Becomes (λ old new. EditsText old edit.now new)
            (string_bytes self.old.text) (string_bytes self.new.text)) }
        ensures bytes { IfOk result (λ r. IsTrue r.is_in_place
            → CommentedBytes (string_bytes self.old.text) edit.now (string_bytes self.new.text)) }
        ensures one_line { IfOk result (λ r. IsTrue r.is_in_place
            → StaysOneLine (string_bytes self.old.text) (string_bytes self.new.text)) }
        ensures before { IfOk result (λ r. r.before ≡ self.old.text) }
        ensures unchanged { OnErr result (self.new.text ≡ self.old.text) }
        ensures refused { IfErr result (IsCommentedError (string_bytes self.old.text) edit.now) }
    {
        let edited = edit_closed(&mut self.buffers, self.text.as_str(), edit)?;
        let is_in_place = edited.is_in_place();
        let before = replace(&mut self.text, edited.or_reprinted());
        Ok(Replaced {
            before,
            is_in_place,
        })
    }
}

/// Returns an error if a block comment of the text is not closed.
///
/// # Errors
///
/// Those of [`TextEditor::new`].
fn check_closed(alloc: Global, text: &str) -> Result<(), Fault<CommentError>>
    ensures closed { IfOk result (λ _. IsClosed text.now) }
    ensures refused { IfErr result (IsCommentFault text.now) }
{
    bare_law();
    let _read = CommentedText::read(alloc, text)?;
    Ok(())
}

/// Makes the edit in the text, whose comments are closed.
///
/// # Errors
///
/// Those of [`edit_commented`].
fn edit_closed(buffers: &mut Buffers, text: &str, edit: &Edit<'_>) -> Result<Edited, EditError>
    requires { IsClosed text.now }
    ensures edited { IfOk result (λ e. Becomes
        (λ old new. EditsText old edit.now new) text.now (text_of e)) }
    ensures bytes { IfOk result (IfInPlace (CommentedBytes text.now edit.now)) }
    ensures one_line { IfOk result (IfInPlace (StaysOneLine text.now)) }
    ensures closed { IfOk result (λ e. IsClosed (text_of e)) }
    ensures refused { IfErr result (IsCommentedError text.now edit.now) }
{
    bare_law();
    let alloc = buffers.alloc;
    match CommentedText::read(alloc, text) {
        Ok(read) => edit_commented(buffers, &read, edit),
        Err(Fault::Refused(_error)) => unreachable!(),
        Err(Fault::Memory(error)) => Err(EditError::Memory(error)),
    }
}
