//! Deleting in a text.
ghost use Rattle.std.specs.Prelude.{◌≡◌, [], IfOk, IfErr, IfSome, MatchOption, string_bytes};
ghost use Rattle.serde_json.specs.Data.{null};
ghost use Rattle.jsonptr.specs.Pointer.{tokens};
ghost use Rattle.jsonptr_value.specs.Reading.{IsReadError};
ghost use Rattle.jsonptr_text_step.specs.Bytes.{KeepsBytes, DeletesBytes, ReplacesBytes};
ghost use Rattle.jsonptr_text_step.specs.EditInText.{edited_text, DeletesInText, LacksInText};

use crate::plan::Made;
use crate::remove::cut_children;
use crate::replace::replace_at;
use crate::rewrite::delete_and_print;
use crate::shallow::value_text;
use crate::site::Site;
use crate::stepped::Stepped;
use jsonptr::Pointer;
use jsonptr_text_layout::place::place_at;
use jsonptr_text_piece::buffers::Buffers;
use jsonptr_text_resolve::selectors::selectors_of;
use jsonptr_value::ReadError;
use serde_json::Value;
use std::alloc::AllocError;

/// Deletes the value that the pointer resolves to in the document that the text contains, as
/// [`Delete::delete`](jsonptr::delete::Delete) does. Returns `None` if it resolves to nothing.
///
/// A member or an element is cut out with its comma and the white space that belongs to it. Of
/// several members with the same key each is cut out, since the one before the last would else come
/// to light. The last child leaves `{}` or `[]`. Deleting the root leaves `null`.
///
/// The new text is read side by side with the old one before it is returned. If that fails, the
/// document is read, changed and printed, and the result is [`Stepped::Rewritten`].
///
/// Reads the old text four or five times and the new one once, and allocates for both texts and for
/// their unescaped strings. `buffers` keep their memory from text to text.
///
/// # Errors
///
/// - [`ReadError::NotJson`] if `serde_json` does not read the text.
/// - [`ReadError::Memory`] if an allocation fails.
///
/// # Examples
///
/// ```rust
/// let mut buffers = Buffers::new(alloc);
/// let first = Pointer::parse("/0")?;
/// let edited = delete_in_text(&mut buffers, "[1.0, 2]", first)?;
/// assert_eq!(rt; edited.ok_or("a value")?.as_str(), "[2]");
/// assert!(rt; delete_in_text(&mut buffers, "[]", first)?.is_none());
/// ```
pub fn delete_in_text(
    buffers: &mut Buffers,
    text: &str,
    pointer: Pointer<'_>,
) -> Result<Option<Stepped>, ReadError>
    ensures deleted { IfOk result (λ o. MatchOption o (LacksInText text.now (tokens pointer.entry))
        (λ e. DeletesInText text.now (tokens pointer.entry) (edited_text e))) }
    ensures bytes { IfOk result (λ o. IfSome o
        (KeepsBytes (DeletesBytes text.now (tokens pointer.entry)))) }
    ensures refused { IfErr result (IsReadError text.now) }
{
    if let Some(new) = cut_out(buffers, text, pointer)? {
        return Ok(Some(Stepped::InPlace(new.text)));
    }
    match delete_and_print(buffers.alloc, text, pointer)? {
        Some(new) => Ok(Some(Stepped::Rewritten(new))),
        None => Ok(None),
    }
}

/// Deletes the value that the pointer resolves to, with one piece of the text cut out. Returns `None`
/// if that is not possible, and if there is no such value.
///
/// # Errors
///
/// [`AllocError`] if an allocation fails.
pub fn cut_out(
    buffers: &mut Buffers,
    text: &str,
    pointer: Pointer<'_>,
) -> Result<Option<Made>, AllocError>
    ensures deleted { IfOk result (λ new. IfSome new (λ s.
        DeletesInText text.now (tokens pointer.entry) (string_bytes s.text))) }
    ensures bytes { IfOk result (λ new. IfSome new (λ s.
        DeletesBytes text.now (tokens pointer.entry) (string_bytes s.text))) }
{
    let alloc = buffers.alloc;
    match pointer.split_back() {
        None => delete_root(buffers, text, pointer),
        Some((front, last)) => {
            let selectors = selectors_of(alloc, pointer)?;
            let Some(place) = place_at(buffers, text, &selectors)? else {
                return Ok(None);
            };
            let site = Site {
                text,
                pointer: front,
                place: &place,
            };
            cut_children(buffers, &site, &last)
        }
    }
}

/// Replaces the root by `null`.
fn delete_root(
    buffers: &mut Buffers,
    text: &str,
    pointer: Pointer<'_>,
) -> Result<Option<Made>, AllocError>
    ensures deleted { tokens pointer.entry ≡ [] → IfOk result (λ new. IfSome new (λ s.
        DeletesInText text.now (tokens pointer.entry) (string_bytes s.text))) }
    ensures bytes { IfOk result (λ new. IfSome new
        (λ s. ReplacesBytes text.now (string_bytes s.text) (tokens pointer.entry) null)) }
{
    let alloc = buffers.alloc;
    let Some(null) = value_text(alloc, &Value::Null)? else {
        return Ok(None);
    };
    replace_at(buffers, text, pointer, &null)
}
