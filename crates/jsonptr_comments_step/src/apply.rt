//! Applying a patch in a text with comments (RFC 6902).
ghost use Rattle.std.specs.Prelude.{◌≡◌, [], Some, IfOk, IfSome, string_bytes};
ghost use Rattle.serde_json.specs.Data.{Data};
ghost use Rattle.serde_json.specs.Read.{read};
ghost use Rattle.jsonptr_comments.specs.Comments.{IsWithoutComments};
ghost use Rattle.jsonptr_text_step.specs.PatchInText.{PatchesInText};
ghost use Rattle.jsonptr_text_value.specs.Operations.{operations_in};
ghost use Rattle.jsonptr_comments_step.specs.EditWithComments.{Becomes};
ghost use Rattle.jsonptr_comments_step.specs.Patches.{PatchEdits, CommentedPatchBytes};
ghost use Rattle.jsonptr_comments_step.specs.PrivateStepping.{IsPatched};

use crate::operate::operate;
use crate::texts::{TextsBuf, has_bare};
use jsonptr_comments::CommentedText;
use jsonptr_text_piece::buffers::Buffers;
use jsonptr_text_resolve::is_document;
use jsonptr_text_step::RawOperation;
use std::alloc::AllocError;

/// Applies the operations in order to the document that the text with comments contains (RFC 6902, section 5).
/// A `test` compares numbers by their values. Returns `None` if one of them is not made in the text with
/// comments, and for each error of the patch.
///
/// | Operation | Comments |
/// |---|---|
/// | `add`, `replace`, `copy` | as for [`assign_with_comments`](crate::assign_with_comments); a copy has none, and is on one line if they are left out |
/// | `remove` | as for [`delete_with_comments`](crate::delete_with_comments) |
/// | `move` | all stay: a value with a comment in it, or beside it on its line, is not moved |
/// | `test` | all stay |
///
/// Each operation reads the text some ten times, and takes the comments out of the new one once. A move counts as
/// two. The operations are borrowed, so one list serves many texts.
///
/// # Errors
///
/// [`AllocError`] if an allocation fails.
///
/// # Examples
///
/// ```rust
/// let mut buffers = Buffers::new(alloc);
/// let read = CommentedText::read(alloc, "{\n  \"size\": 3, // px\n  \"old\": true\n}\n")?;
/// let path = PointerBuf::from_text(alloc, "/size")?;
/// let replace = Operation::Replace { path, value: Value::from(4) };
/// let remove = Operation::Remove { path: PointerBuf::from_text(alloc, "/old")? };
/// let patch = vec![in alloc; RawOperation::new(replace), RawOperation::new(remove)]?;
/// let new = apply_with_comments(&mut buffers, &read, &patch)?;
/// let want = "{\n  \"size\": 4 // px\n}\n";
/// assert_eq!(rt; new.ok_or("an edit in place")?.as_str(), want);
/// ```
pub fn apply_with_comments(
    buffers: &mut Buffers,
    text: &CommentedText<'_>,
    operations: &[RawOperation],
) -> Result<Option<String>, AllocError>
    ensures applied { IfOk result (λ made. IfSome made (λ s. Becomes
        (λ old new. PatchesInText old (operations_in operations.now) new) text.now.text.now (string_bytes s))) }
    ensures bytes { IfOk result (λ made. IfSome made
        (λ s. CommentedPatchBytes text.now.text.now operations.now (string_bytes s))) }
    ensures pieces { IfOk result (λ made. IfSome made
        (λ s. PatchEdits text.now.text.now (operations_in operations.now) (string_bytes s))) }
{
    has_bare(text);
    let alloc = buffers.alloc;
    let texts = TextsBuf {
        text: String::from_str(alloc, text.text)?,
        bare: String::from_str(alloc, text.bare.as_str())?,
    };
    let Some(new) = operate_all(buffers, texts, operations)? else {
        return Ok(None);
    };
    let TextsBuf { text: made, .. } = new;
    Ok(Some(made))
}

/// Applies the operations in order. Returns `None` if one is not possible, or if the text without comments is not
/// a document.
///
/// # Errors
///
/// [`AllocError`] if an allocation fails.
fn operate_all(
    buffers: &mut Buffers,
    texts: TextsBuf,
    operations: &[RawOperation],
) -> Result<Option<TextsBuf>, AllocError>
    requires { IsWithoutComments (string_bytes texts.text) (string_bytes texts.bare) }
    ensures { IfOk result (λ made. IfSome made (λ new. IsPatched (string_bytes texts.text)
        (string_bytes texts.bare) operations.now (string_bytes new.text) (string_bytes new.bare))) }
{
    let Some((first, rest)) = operations.split_first() else {
        return unchanged(buffers, texts);
    };
    let Some(next) = operate(buffers, texts, first)? else {
        return Ok(None);
    };
    operate_rest(buffers, next, rest)
}

/// Returns the texts, if the one without comments is a document.
fn unchanged(buffers: &mut Buffers, texts: TextsBuf) -> Result<Option<TextsBuf>, AllocError>
    requires { IsWithoutComments (string_bytes texts.text) (string_bytes texts.bare) }
    ensures { IfOk result (λ made. IfSome made (λ new. IsPatched (string_bytes texts.text)
        (string_bytes texts.bare) [] (string_bytes new.text) (string_bytes new.bare))) }
{
    let is_json = is_document(&mut buffers.old, texts.bare.as_str())?;
    if is_json { Ok(Some(texts)) } else { Ok(None) }
}

/// Applies the operations in order to the text, which is a document without its comments.
fn operate_rest(
    buffers: &mut Buffers,
    texts: TextsBuf,
    operations: &[RawOperation],
) -> Result<Option<TextsBuf>, AllocError>
    requires { IsWithoutComments (string_bytes texts.text) (string_bytes texts.bare) }
    ensures { (d : Data) → read (string_bytes texts.bare) ≡ Some d → IfOk result (λ made. IfSome made
        (λ new. IsPatched (string_bytes texts.text) (string_bytes texts.bare) operations.now
        (string_bytes new.text) (string_bytes new.bare))) }
{
    let mut current = texts;
    'operations: for operation in operations {
        let Some(next) = operate(buffers, current, operation)? else {
            return Ok(None);
        };
        current = next;
    }
    Ok(Some(current))
}
