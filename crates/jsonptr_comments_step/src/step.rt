//! One edit of a text with comments.
ghost use Rattle.std.specs.Prelude.{◌≡◌, IfOk, IfSome, string_bytes};
ghost use Rattle.json.specs.Lex.{tokens as lexed};
ghost use Rattle.jsonptr.specs.Pointer.{tokens};
ghost use Rattle.jsonptr_comments.specs.Comments.{IsWithoutComments};
ghost use Rattle.jsonptr_comments_step.specs.PrivateStepping.{step_tokens, IsStepped, IsPutAs};

use crate::adjust::adjusted;
use crate::change::changed;
use crate::same_tokens::have_same_tokens;
use crate::texts::{Texts, TextsBuf};
use jsonptr::{Fault, Pointer};
use jsonptr_comments::without_comments;
use jsonptr_text_piece::buffers::Buffers;
use jsonptr_text_step::plan::Made;
use jsonptr_text_step::{Step, take_step};
use std::alloc::{AllocError, Global};

/// Makes the edit in the text with comments: in the text without them, and then what was done there in the text
/// with them. Returns `None` if one of the two is not possible, or if the new text has not the tokens of the
/// edit.
///
/// Takes the comments out of the new text once, and reads that text once.
///
/// # Errors
///
/// [`AllocError`] if an allocation fails.
pub fn take_commented_step(
    buffers: &mut Buffers,
    texts: Texts<'_>,
    step: Step<'_>,
) -> Result<Option<TextsBuf>, AllocError>
    requires { IsWithoutComments texts.text.now texts.bare.now }
    ensures { IfOk result (λ made. IfSome made (λ new. IsStepped texts.entry.text.now
        texts.entry.bare.now step.entry (string_bytes new.text) (string_bytes new.bare))) }
{
    let Some(made) = take_step(buffers, texts.bare, step)? else {
        return Ok(None);
    };
    put_made(buffers, texts, pointer_of(step), made)
}

/// Returns where the edit is.
fn pointer_of<'a>(step: Step<'a>) -> Pointer<'a>
    ensures { tokens result ≡ step_tokens step.entry }
{
    match step {
        Step::Assign(pointer, _) => pointer,
        Step::Delete(pointer) => pointer,
        Step::Add(pointer, _) => pointer,
        Step::Replace(pointer, _) => pointer,
        Step::Rename(pointer, _) => pointer,
    }
}

/// Does in the text with comments what was done in the text without them. Returns `None` if that is not an edit
/// at the pointer, or if the new text has not the same tokens.
///
/// # Errors
///
/// [`AllocError`] if an allocation fails.
fn put_made(
    buffers: &mut Buffers,
    texts: Texts<'_>,
    pointer: Pointer<'_>,
    made: Made,
) -> Result<Option<TextsBuf>, AllocError>
    requires { IsWithoutComments texts.text.now texts.bare.now }
    ensures { IfOk result (λ put. IfSome put (λ new. IsPutAs (string_bytes made.text)
        texts.entry.text.now (tokens pointer.entry) (string_bytes new.text) (string_bytes new.bare))) }
{
    let alloc = buffers.alloc;
    let Made { text: new, plan } = made;
    let Some(change) = adjusted(alloc, texts, plan)? else {
        return Ok(None);
    };
    let Some(text) = changed(buffers, texts, pointer, &change)? else {
        return Ok(None);
    };
    let Some(bare) = bare_of(alloc, text.as_str())? else {
        return Ok(None);
    };
    if have_same_tokens(buffers, bare.as_str(), new.as_str())? {
        Ok(Some(TextsBuf { text, bare }))
    } else {
        Ok(None)
    }
}

/// Returns the text without its comments, or `None` if a block comment is not closed.
///
/// # Errors
///
/// [`AllocError`] if an allocation fails.
pub fn bare_of(alloc: Global, text: &str) -> Result<Option<String>, AllocError>
    ensures { IfOk result (λ found. IfSome found
        (λ bare. IsWithoutComments text.now (string_bytes bare))) }
{
    match without_comments(alloc, text) {
        Ok(bare) => Ok(Some(bare.into_owned(alloc)?)),
        Err(Fault::Refused(_error)) => Ok(None),
        Err(Fault::Memory(error)) => Err(error),
    }
}
