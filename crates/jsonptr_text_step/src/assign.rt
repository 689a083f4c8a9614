//! Assigning in a text.
ghost use Rattle.std.specs.Prelude.{◌≡◌, ◌∷◌, ◌++◌, List, ℕ, IfOk, IfErr, IfSome, string_bytes};
ghost use Rattle.jsonptr.specs.Pointer.{tokens};
ghost use Rattle.jsonptr.specs.Json.{nodes};
ghost use Rattle.jsonptr_text_step.specs.Bytes.{KeepsBytes, AssignsBytes};
ghost use Rattle.jsonptr_text_value.specs.Raw.{value_of_raw};
ghost use Rattle.jsonptr_text_step.specs.EditInText.{edited_text, AssignsInText, IsAssignError};
ghost use Rattle.jsonptr_text_step.specs.Giving.{AssignsGiven};
ghost use Rattle.jsonptr_text_step.specs.PrivateGiving.{ReplacesWith, AddsWith, ExpandsWith};

use crate::insert::{add_member, append};
use crate::plan::Made;
use crate::replace::{replace, replace_scalar};
use crate::rewrite::assign_and_print;
use crate::site::Site;
use crate::stepped::{StepError, Stepped};
use jsonptr::{Pointer, Token, assign};
use jsonptr_text_layout::place::place_of;
use jsonptr_text_piece::buffers::Buffers;
use jsonptr_text_resolve::selectors::selectors_of;
use jsonptr_text_value::{RawValue, expanded_text};
use std::alloc::AllocError;

/// Assigns the value at the pointer in the document that the text contains, as
/// [`Assign::assign`](jsonptr::assign::Assign) does, with path expansion.
///
/// In place, one piece of the text changes. A value that is there is replaced, byte for byte. A new
/// member or element is put after the last one, with the white space that its siblings have. Of
/// members with the same key the last one counts, and the others stay.
///
/// In place, the value that the pointer leads to afterwards has the tokens of its own text, one for one: its
/// members in their order, and its numbers as they are written. Where the value is expanded by tokens that
/// name nothing yet, the arrays and objects that are made are around it.
///
/// The new text is read side by side with the old one before it is returned. If that fails, the
/// document is read, changed and printed, and the result is [`Stepped::Rewritten`].
///
/// Reads the old text and the new one two to four times each, and allocates for both texts, for
/// their unescaped strings, and for the value. `buffers` keep their memory from text to text: the unescaped
/// strings of three texts, and three indices of 16 KiB, which [`Buffers::new`] clears. No call minds what an
/// earlier one left, also after an error.
///
/// # Errors
///
/// - [`StepError::NotJson`] if `serde_json` does not read the text.
/// - [`StepError::Refused`] with the error of `assign`, if no value can be assigned at the pointer.
/// - [`StepError::TooDeep`] if the new document nests deeper than 127.
/// - [`StepError::Memory`] if an allocation fails.
///
/// # Examples
///
/// ```rust
/// let mut buffers = Buffers::new(alloc);
/// let price = RawValue::parse(alloc, "{ \"price\": 1.10, \"currency\": \"EUR\" }")?;
/// let path = Pointer::parse("/goods/-")?;
/// let edited = assign_in_text(&mut buffers, "{\"goods\": []}", path, &price)?;
/// let new = "{\"goods\": [{\"price\": 1.10, \"currency\": \"EUR\"}]}";
/// assert_eq!(rt; edited.as_str(), new);
/// ```
pub fn assign_in_text(
    buffers: &mut Buffers,
    text: &str,
    pointer: Pointer<'_>,
    raw: &RawValue,
) -> Result<Stepped, StepError<assign::Error>>
    ensures assigned { IfOk result (λ e. AssignsInText text.now (tokens pointer.entry)
        (nodes (value_of_raw raw.now)) (edited_text e)) }
    ensures bytes { IfOk result
        (KeepsBytes (AssignsBytes text.now (tokens pointer.entry) (value_of_raw raw.now))) }
    ensures given { IfOk result
        (KeepsBytes (AssignsGiven text.now (tokens pointer.entry) raw.now)) }
    ensures refused { IfErr result (IsAssignError text.now (tokens pointer.entry)
        (value_of_raw raw.now)) }
{
    if let Some(new) = assign_at(buffers, text, pointer, raw)? {
        return Ok(Stepped::InPlace(new.text));
    }
    let alloc = buffers.alloc;
    let new = assign_and_print(alloc, text, pointer, raw.to_value(alloc)?)?;
    Ok(Stepped::Rewritten(new))
}

/// Assigns the value at the pointer in the text, with one piece of the text replaced. Returns `None`
/// if that is not possible, and for each error of the pointer.
///
/// # Errors
///
/// [`AllocError`] if an allocation fails.
pub fn assign_at(
    buffers: &mut Buffers,
    text: &str,
    pointer: Pointer<'_>,
    raw: &RawValue,
) -> Result<Option<Made>, AllocError>
    ensures assigned { IfOk result (λ new. IfSome new (λ s.
        AssignsInText text.now (tokens pointer.entry) (nodes (value_of_raw raw.now)) (string_bytes s.text))) }
    ensures bytes { IfOk result (λ new. IfSome new (λ s.
        AssignsGiven text.now (tokens pointer.entry) raw.now (string_bytes s.text))) }
{
    let alloc = buffers.alloc;
    let selectors = selectors_of(alloc, pointer)?;
    let Some(place) = place_of(buffers, text, &selectors)? else {
        return Ok(None);
    };
    let Some((front, rest)) = pointer.split_at(place.depth) else {
        return Ok(None);
    };
    let site = Site {
        text,
        pointer: front,
        place: &place,
    };
    assign_from(buffers, &site, rest, raw)
}

/// Assigns the value at the pointer of the site and then at the other one, whose first token leads to no
/// child of the value at the site.
fn assign_from(
    buffers: &mut Buffers,
    site: &Site<'_>,
    rest: Pointer<'_>,
    raw: &RawValue,
) -> Result<Option<Made>, AllocError>
    ensures assigned { IfOk result (λ new. IfSome new (λ s. AssignsInText site.now.text.now
        (tokens site.now.pointer ++ tokens rest.entry) (nodes (value_of_raw raw.now)) (string_bytes s.text))) }
    ensures bytes { IfOk result (λ new. IfSome new (λ s. AssignsGiven site.now.text.now
        (tokens site.now.pointer ++ tokens rest.entry) raw.now (string_bytes s.text))) }
{
    let Some((token, after)) = rest.split_front() else {
        return assign_there(buffers, site, raw);
    };
    let text_there = site.slice();
    if text_there.starts_with('{') || text_there.starts_with('[') {
        let missing = Missing {
            token: &token,
            after,
        };
        assign_child(buffers, site, &missing, raw)
    } else {
        assign_scalar(buffers, site, rest, raw)
    }
}

/// Replaces the value at the site.
fn assign_there(
    buffers: &mut Buffers,
    site: &Site<'_>,
    raw: &RawValue,
) -> Result<Option<Made>, AllocError>
    ensures assigned { IfOk result (λ new. IfSome new (λ s. AssignsInText site.now.text.now
        (tokens site.now.pointer) (nodes (value_of_raw raw.now)) (string_bytes s.text))) }
    ensures bytes { IfOk result (λ new. IfSome new (λ s. ReplacesWith raw.now site.now.text.now
        (string_bytes s.text) (tokens site.now.pointer))) }
{
    replace(buffers, site, &raw.printed)
}

/// The tokens of a pointer that name nothing.
#[derive(Clone, Copy, Debug)]
struct Missing<'a> {
    /// The first of them.
    token: &'a Token<'a>,
    /// The others.
    after: Pointer<'a>,
}

/// Adds a child to the array or object at the site, at its end: the value, expanded by the tokens after
/// the first one that is missing.
fn assign_child(
    buffers: &mut Buffers,
    site: &Site<'_>,
    missing: &Missing<'_>,
    raw: &RawValue,
) -> Result<Option<Made>, AllocError>
    ensures assigned { IfOk result (λ new. IfSome new (λ s. AssignsInText site.now.text.now
        (tokens site.now.pointer ++ missing.now.token.now ∷ tokens missing.now.after)
        (nodes (value_of_raw raw.now)) (string_bytes s.text))) }
    ensures bytes { IfOk result (λ new. IfSome new (λ s. AddsWith raw.now site.now.text.now
        (string_bytes s.text) (tokens site.now.pointer) missing.now.token.now
        (tokens missing.now.after))) }
{
    let alloc = buffers.alloc;
    let Some(printed) = expanded_text(alloc, &mut buffers.value, missing.after, raw)? else {
        return Ok(None);
    };
    if site.slice().starts_with('{') {
        add_member(buffers, site, missing.token, &printed)
    } else {
        append(buffers, site, missing.token, &printed)
    }
}

/// Replaces the scalar at the site by the value, expanded by at least one token.
fn assign_scalar(
    buffers: &mut Buffers,
    site: &Site<'_>,
    rest: Pointer<'_>,
    raw: &RawValue,
) -> Result<Option<Made>, AllocError>
    ensures assigned { (x : List ℕ) (after : List (List ℕ)) → tokens rest.entry ≡ x ∷ after
        → IfOk result (λ new. IfSome new (λ s. AssignsInText site.now.text.now
        (tokens site.now.pointer ++ x ∷ after) (nodes (value_of_raw raw.now)) (string_bytes s.text))) }
    ensures bytes { IfOk result (λ new. IfSome new (λ s. ExpandsWith raw.now site.now.text.now
        (string_bytes s.text) (tokens site.now.pointer) (tokens rest.entry))) }
{
    let alloc = buffers.alloc;
    let Some(printed) = expanded_text(alloc, &mut buffers.value, rest, raw)? else {
        return Ok(None);
    };
    replace_scalar(buffers, site, &printed)
}
