//! Renaming a member of an object in a text.
ghost use Rattle.std.specs.Prelude.{◌≡◌, [], ◌∷◌, ◌++◌, IfOk, IfErr, IfSome, IsTrue, string_bytes};
ghost use Rattle.serde_json.specs.Data.{string};
ghost use Rattle.jsonptr.specs.Pointer.{tokens};
ghost use Rattle.jsonptr_text_check.specs.Child.{IsValueText};
ghost use Rattle.jsonptr_text_check.specs.Editing.{RenamesMember};
ghost use Rattle.jsonptr_text_piece.specs.Spacing.{IsSpaced, IsTrimmed};
ghost use Rattle.jsonptr_text_step.specs.Bytes.{KeepsBytes};
ghost use Rattle.jsonptr_text_step.specs.EditInText.{edited_text};
ghost use Rattle.jsonptr_text_step.specs.Placing.{IsAt};
ghost use Rattle.jsonptr_text_step.specs.PrivateOperating.{FindsText};
ghost use Rattle.jsonptr_text_step.specs.PrivateReaching.{ReachedInText};
ghost use Rattle.jsonptr_text_step.specs.PrivateRenaming.{IsNamedAnew};
ghost use Rattle.jsonptr_text_step.specs.Renaming.{RenamesInText, RenamesName, RenamesBytes, IsRenameError};

use crate::change_at::{ChangeAtPointer, make_change_at};
use crate::front::child_selectors;
use crate::plan::{Made, Plan, RenamedMember};
use crate::rename_document::{kept, rename_and_print};
use crate::site::Site;
use crate::stepped::{StepError, Stepped};
use jsonptr::{Pointer, Token};
use jsonptr_text_check::change::{Change, Renaming};
use jsonptr_text_check::lead::{ValueAt, leads_to};
use jsonptr_text_check::member::{MemberText, member_in};
use jsonptr_text_check::one_child::is_name;
use jsonptr_text_layout::place::{children_of, place_at};
use jsonptr_text_piece::buffers::Buffers;
use jsonptr_text_piece::cut::Cut;
use jsonptr_text_piece::span::Span;
use jsonptr_text_resolve::selectors::selectors_of;
use jsonptr_text_search::decide::is_text;
use jsonptr_walk::put::key_of;
use serde_json::Value;
use std::alloc::AllocError;
use std::borrow::CowStr;
use thiserror::Error;

/// Why a member is not renamed.
#[derive(Clone, Copy, Debug, Drop, PartialEq, Eq, Error)]
pub enum RenameError {
    /// The pointer resolves to nothing.
    #[error("rename failed: pointer resolves to nothing")]
    NotThere,
    /// The pointer resolves to the root or to an element of an array.
    #[error("rename failed: value is not a member of an object")]
    NotAMember,
    /// Another member of the object has the key.
    #[error("rename failed: another member has the key")]
    KeyTaken,
}

/// Renames the member of an object that the pointer resolves to, in the document that the text contains. The
/// document becomes what the operation `move` makes of it, from the pointer to the same object with the new
/// key (RFC 6902, section 4.4).
///
/// Only the name of the member changes: the member keeps its place among the others, its value and the white
/// space around it. If it has the key already, the text is unchanged. The key is not escaped as in a pointer.
///
/// The new text is read side by side with the old one before it is returned. If that fails, the document is
/// read, changed and printed, and the result is [`Stepped::Rewritten`]. So it is where the object has several
/// members with the old key: the last one counts.
///
/// Reads the old text some four times and the new one twice, and allocates for both texts and for their
/// unescaped strings. After an error the document is read once more. `buffers` keep their memory from text to
/// text.
///
/// # Errors
///
/// - [`StepError::NotJson`] if `serde_json` does not read the text.
/// - [`StepError::Refused`] with [`RenameError::NotThere`] if the pointer resolves to nothing,
///   [`RenameError::NotAMember`] if it resolves to the root or to an element of an array, and
///   [`RenameError::KeyTaken`] if another member of the object has the key.
/// - [`StepError::Memory`] if an allocation fails. It is never [`StepError::TooDeep`].
///
/// # Examples
///
/// ```rust
/// let mut buffers = Buffers::new(alloc);
/// let text = "{\n  \"size\" : 1.0,\n  \"name\": \"app\"\n}\n";
/// let edited = rename_in_text(&mut buffers, text, Pointer::parse("/size")?, "width/cm")?;
/// let new = "{\n  \"width/cm\" : 1.0,\n  \"name\": \"app\"\n}\n";
/// assert_eq!(rt; edited.as_str(), new);
/// let taken = rename_in_text(&mut buffers, text, Pointer::parse("/size")?, "name");
/// assert!(rt; matches!(taken, Err(StepError::Refused(RenameError::KeyTaken))));
/// ```
pub fn rename_in_text(
    buffers: &mut Buffers,
    text: &str,
    pointer: Pointer<'_>,
    key: &str,
) -> Result<Stepped, StepError<RenameError>>
    ensures renamed { IfOk result
        (λ e. RenamesInText text.now (tokens pointer.entry) key.now (edited_text e)) }
    ensures bytes { IfOk result (KeepsBytes (RenamesBytes text.now (tokens pointer.entry) key.now)) }
    ensures refused { IfErr result (IsRenameError text.now (tokens pointer.entry) key.now) }
{
    if let Some(new) = rename_at(buffers, text, pointer, key)? {
        return Ok(Stepped::InPlace(new.text));
    }
    let new = rename_and_print(buffers.alloc, text, pointer, key)?;
    Ok(Stepped::Rewritten(new))
}

/// Renames the member that the pointer resolves to where it is. Returns `None` if that is not
/// possible, and for each error of [`rename_in_text`] but a failed allocation.
///
/// # Errors
///
/// [`AllocError`] if an allocation fails.
pub fn rename_at(
    buffers: &mut Buffers,
    text: &str,
    pointer: Pointer<'_>,
    key: &str,
) -> Result<Option<Made>, AllocError>
    ensures renamed { IfOk result (λ new. IfSome new
        (λ s. RenamesInText text.now (tokens pointer.entry) key.now (string_bytes s.text))) }
    ensures bytes { IfOk result (λ new. IfSome new
        (λ s. RenamesBytes text.now (tokens pointer.entry) key.now (string_bytes s.text))) }
{
    let alloc = buffers.alloc;
    let Some((front, from)) = pointer.split_back() else {
        return Ok(None);
    };
    let old_key = key_of(alloc, &from)?;
    if is_text(key, old_key.as_str()) {
        return kept(alloc, text, pointer);
    }
    let selectors = selectors_of(alloc, pointer)?;
    let Some(place) = place_at(buffers, text, &selectors)? else {
        return Ok(None);
    };
    let site = Site {
        text,
        pointer: front,
        place: &place,
    };
    let to = Token::new(alloc, CowStr::Borrowed(key))?;
    put_name(buffers, &site, &from, &to)
}

/// Replaces the name of the member at the site. The tokens refer to it before and after.
fn put_name(
    buffers: &mut Buffers,
    site: &Site<'_>,
    from: &Token<'_>,
    to: &Token<'_>,
) -> Result<Option<Made>, AllocError>
    ensures reached { IfOk result (λ new. IfSome new (λ s. ReachedInText site.now.text.now
        (string_bytes s.text) (tokens site.now.pointer) (RenamesMember from.now to.now))) }
    ensures bytes { IfOk result (λ new. IfSome new (λ s. RenamesName site.now.text.now
        (tokens site.now.pointer) from.now to.now (string_bytes s.text))) }
{
    let alloc = buffers.alloc;
    let old_key = key_of(alloc, from)?;
    let key = key_of(alloc, to)?;
    let Some(member) = member_at(buffers, site, old_key.as_str())? else {
        return Ok(None);
    };
    let was = AtSite {
        site,
        token: from,
        member: &member,
    };
    if !leads_to_member(buffers, site.text, was)? {
        return Ok(None);
    }
    let renaming = Renaming {
        from: old_key,
        to: key,
    };
    let Some(new) = replace_name(buffers, site, &member.cut, renaming)? else {
        return Ok(None);
    };
    let is = AtSite {
        site,
        token: to,
        member: &member,
    };
    if leads_to_member(buffers, new.text.as_str(), is)? {
        Ok(Some(new))
    } else {
        Ok(None)
    }
}

/// Returns the text cut around the name of the member at the site, which has the key.
fn member_at<'t>(
    buffers: &mut Buffers,
    site: &Site<'t>,
    key: &str,
) -> Result<Option<MemberText<'t>>, AllocError>
    ensures text { IfOk result (λ found. IfSome found (λ m. m.cut.text.now ≡ site.now.text.now)) }
    ensures named { IfOk result (λ found. IfSome found (λ m. IsValueText (string key.now) m.cut.middle.now)) }
    ensures spaced { IfOk result (λ found. IfSome found (λ m. IsSpaced 58 m.colon.now)) }
    ensures trimmed { IfOk result (λ found. IfSome found (λ m. IsTrimmed m.value.now)) }
{
    let Some(position) = site.place.positions.last() else {
        return Ok(None);
    };
    let Some(members) = children_of(buffers, site.text, site.place.container)? else {
        return Ok(None);
    };
    let Some(member) = members.get(*position) else {
        return Ok(None);
    };
    member_in(buffers, site.text, *member, key)
}

/// Replaces the name, which was cut out, if that gives the member the other key.
fn replace_name(
    buffers: &mut Buffers,
    site: &Site<'_>,
    cut: &Cut<'_>,
    renaming: Renaming,
) -> Result<Option<Made>, AllocError>
    ensures reached { IfOk result (λ new. IfSome new (λ s. ReachedInText cut.now.text.now
        (string_bytes s.text) (tokens site.now.pointer)
        (RenamesMember (string_bytes renaming.from) (string_bytes renaming.to)))) }
    ensures named { IfOk result (λ new. IfSome new (λ s. IsNamedAnew (string_bytes renaming.to)
        cut.now.before.now cut.now.after.now (string_bytes s.text))) }
{
    let alloc = buffers.alloc;
    let Some((_, above)) = site.place.positions.split_last() else {
        return Ok(None);
    };
    let name = Value::String(renaming.to.clone()?).to_string(alloc)?;
    if !is_name(&mut buffers.old, name.as_str(), renaming.to.as_str())? {
        return Ok(None);
    }
    let change = Change::Rename(renaming);
    let at = ChangeAtPointer {
        pointer: site.pointer,
        positions: above,
        change: &change,
    };
    let Some(text) = make_change_at(buffers, cut, &at, name.as_str())? else {
        return Ok(None);
    };
    let from = cut.before.len();
    let to = from.saturating_add(cut.middle.len());
    let plan = Plan::Renamed(RenamedMember {
        name: Span { from, to },
        piece: name,
    });
    Ok(Some(Made { text, plan }))
}

/// A member at a site, and the token that refers to it.
#[derive(Clone, Copy, Debug)]
struct AtSite<'a, 't> {
    /// The site.
    site: &'a Site<'t>,
    /// The token.
    token: &'a Token<'t>,
    /// Its text.
    member: &'a MemberText<'t>,
}

/// Returns whether the pointer of the member leads in the text to its value.
fn leads_to_member(
    buffers: &mut Buffers,
    text: &str,
    renamed: AtSite<'_, '_>,
) -> Result<bool, AllocError>
    ensures at { IfOk result (λ b. IsTrue b → IsAt text.now
        (tokens renamed.entry.site.now.pointer ++ renamed.entry.token.now ∷ [])
        renamed.entry.member.now.value.now renamed.entry.member.now.after.now) }
    ensures found { IfOk result (λ b. IsTrue b → FindsText text.now
        (tokens renamed.entry.site.now.pointer ++ renamed.entry.token.now ∷ [])
        renamed.entry.member.now.value.now) }
{
    let alloc = buffers.alloc;
    let selectors = child_selectors(alloc, renamed.site.pointer, renamed.token)?;
    let there = ValueAt {
        selectors: &selectors,
        positions: &renamed.site.place.positions,
        value: renamed.member.value,
        tail: renamed.member.tail,
    };
    leads_to(buffers, text, there)
}
