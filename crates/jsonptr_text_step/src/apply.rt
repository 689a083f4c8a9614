//! Applying a patch in a text (RFC 6902).
ghost use Rattle.std.specs.Prelude.{◌≡◌, [], Some, IfOk, IfSome, string_bytes};
ghost use Rattle.serde_json.specs.Data.{Data};
ghost use Rattle.serde_json.specs.Read.{read};
ghost use Rattle.jsonptr_text_step.specs.PatchInText.{PatchesInText};
ghost use Rattle.jsonptr_text_value.specs.Operations.{operations_in};
ghost use Rattle.jsonptr_text_step.specs.RawPatching.{RawPatchBytes};

use crate::operate::operate;
use jsonptr_text_piece::buffers::Buffers;
use jsonptr_text_resolve::is_document;
use jsonptr_text_value::RawOperation;
use std::alloc::AllocError;

/// Applies the operations in order to the document that the text contains, in place (RFC 6902, section 5).
/// A `test` compares numbers by their values. Returns `None` if that is not possible, and for each error of
/// the patch: [`apply_and_print`](crate::apply_and_print) says which.
///
/// Each operation changes the text that the one before left, as [`assign_in_text`](crate::assign_in_text) and
/// [`delete_in_text`](crate::delete_in_text) do. A value that an operation brings has the tokens of its own
/// text, if it has one. One that is moved or copied keeps the form of its numbers and strings, and the order
/// of its members.
///
/// Reads the text of each operation two to five times, and the new one once or twice. The operations are
/// borrowed, so one list serves many texts.
///
/// # Errors
///
/// [`AllocError`] if an allocation fails.
///
/// # Examples
///
/// ```rust
/// let mut buffers = Buffers::new(alloc);
/// let given = r#"[{"op": "move", "from": "/b", "path": "/a/0"}]"#;
/// let patch = PatchText::of(alloc, given, Value::from_str(alloc, given)?)?;
/// let operations = patch.operations.as_slice();
/// for (text, want) in [
///     ("{\"a\": [], \"b\": 1.0}", "{\"a\": [1.0]}"),
///     ("{\"a\": [ 2 ],\n \"b\": 1e5}\n", "{\"a\": [ 1e5, 2 ]}\n"),
/// ] {
///     let new = apply_in_text(&mut buffers, text, operations)?.ok_or("a new text")?;
///     assert_eq!(rt; new.as_str(), want);
/// }
/// assert!(rt; apply_in_text(&mut buffers, "{\"a\": []}", operations)?.is_none());
/// ```
pub fn apply_in_text(
    buffers: &mut Buffers,
    text: &str,
    operations: &[RawOperation],
) -> Result<Option<String>, AllocError>
    ensures applied { IfOk result (λ new. IfSome new
        (λ s. PatchesInText text.now (operations_in operations.now) (string_bytes s))) }
    ensures bytes { IfOk result (λ new. IfSome new
        (λ s. RawPatchBytes text.now operations.now (string_bytes s))) }
{
    let Some((first, rest)) = operations.split_first() else {
        return unchanged(buffers, text);
    };
    let Some(next) = operate(buffers, text, first)? else {
        return Ok(None);
    };
    apply_rest(buffers, next.text, rest)
}

/// Returns the text, if it is a document.
fn unchanged(buffers: &mut Buffers, text: &str) -> Result<Option<String>, AllocError>
    ensures applied { IfOk result (λ new. IfSome new
        (λ s. PatchesInText text.now [] (string_bytes s))) }
    ensures same { IfOk result (λ new. IfSome new (λ s. string_bytes s ≡ text.now)) }
{
    let alloc = buffers.alloc;
    let is_json = is_document(&mut buffers.old, text)?;
    if is_json {
        Ok(Some(String::from_str(alloc, text)?))
    } else {
        Ok(None)
    }
}

/// Applies the operations in order to the text, which is a document, each in place.
fn apply_rest(
    buffers: &mut Buffers,
    text: String,
    operations: &[RawOperation],
) -> Result<Option<String>, AllocError>
    ensures applied { (d : Data) → read (string_bytes text) ≡ Some d → IfOk result
        (λ new. IfSome new (λ s.
        PatchesInText (string_bytes text) (operations_in operations.now) (string_bytes s))) }
    ensures bytes { IfOk result (λ new. IfSome new
        (λ s. RawPatchBytes (string_bytes text) operations.now (string_bytes s))) }
{
    let mut current = text;
    'operations: for operation in operations {
        let Some(next) = operate(buffers, current.as_str(), operation)? else {
            return Ok(None);
        };
        current = next.text;
    }
    Ok(Some(current))
}
