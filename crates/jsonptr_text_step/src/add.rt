//! Adding a value in a text, as an operation of a patch does (RFC 6902, section 4.1).
ghost use Rattle.std.specs.Prelude.{[], ◌∷◌, ◌++◌, IfOk, IfSome, string_bytes};
ghost use Rattle.jsonptr.specs.Pointer.{tokens};
ghost use Rattle.jsonptr_text_search.specs.Search.{choices};
ghost use Rattle.jsonptr_text_step.specs.Steps.{AddsInText, AddsAtByText};
ghost use Rattle.jsonptr_text_step.specs.PrivateOperating.{AreMemberChoices};
ghost use Rattle.jsonptr_text_step.specs.PrivateReaching.{AddsByText};

use crate::change_at::{ValueChangeAt, change_value_at};
use crate::front::child_selectors;
use crate::insert::{add_member, append, insert};
use crate::plan::{Made, Plan, ReplacedValue};
use crate::replace::{replace_at, value_edit};
use crate::site::Site;
use jsonptr::{Pointer, Token};
use jsonptr_text_check::change::ChangeAt;
use jsonptr_text_layout::place::place_of;
use jsonptr_text_layout::value_text::ValueText;
use jsonptr_text_piece::buffers::Buffers;
use jsonptr_text_piece::cut::cut_at;
use jsonptr_text_resolve::selectors::selectors_of;
use jsonptr_text_search::selector::Selector;
use jsonptr_walk::put::key_of;
use std::alloc::{AllocError, Global};

/// Adds the value at the pointer. Returns `None` if that is not possible.
///
/// # Errors
///
/// [`AllocError`] if an allocation fails.
pub fn add_at(
    buffers: &mut Buffers,
    text: &str,
    pointer: Pointer<'_>,
    printed: &ValueText,
) -> Result<Option<Made>, AllocError>
    ensures added { IfOk result (λ new. IfSome new (λ s. AddsInText text.now
        (tokens pointer.entry) (string_bytes printed.now.flat) (string_bytes s.text))) }
    ensures bytes { IfOk result (λ new. IfSome new (λ s. AddsAtByText text.now
        (tokens pointer.entry) (string_bytes printed.now.flat) (string_bytes s.text))) }
{
    let alloc = buffers.alloc;
    match pointer.split_back() {
        None => replace_at(buffers, text, pointer, printed),
        Some((front, token)) => {
            let selectors = member_selectors(alloc, front, &token)?;
            let Some(place) = place_of(buffers, text, &selectors)? else {
                return Ok(None);
            };
            let site = Site {
                text,
                pointer: front,
                place: &place,
            };
            if place.depth == selectors.len() {
                replace_member(buffers, &site, &token, printed)
            } else if place.depth.checked_add(1) == Some(selectors.len()) {
                add_new(buffers, &site, &token, printed)
            } else {
                Ok(None)
            }
        }
    }
}

/// Returns the selectors of the pointer, and one of the member with the key of the token.
fn member_selectors(
    alloc: Global,
    pointer: Pointer<'_>,
    token: &Token<'_>,
) -> Result<Vec<Selector>, AllocError>
    ensures { IfOk result
        (λ v. AreMemberChoices (tokens pointer.entry) token.now (choices v.items)) }
{
    let mut selectors = selectors_of(alloc, pointer)?;
    let key = key_of(alloc, token)?;
    selectors.push(Selector { key, index: None })?;
    Ok(selectors)
}

/// Replaces the member with the key of the token, of the object that the pointer resolves to. The site is
/// that of the member.
fn replace_member(
    buffers: &mut Buffers,
    site: &Site<'_>,
    token: &Token<'_>,
    printed: &ValueText,
) -> Result<Option<Made>, AllocError>
    ensures added { IfOk result (λ new. IfSome new (λ s. AddsInText site.now.text.now
        (tokens site.now.pointer ++ token.now ∷ []) (string_bytes printed.now.flat)
        (string_bytes s.text))) }
    ensures bytes { IfOk result (λ new. IfSome new (λ s. AddsAtByText site.now.text.now
        (tokens site.now.pointer ++ token.now ∷ []) (string_bytes printed.now.flat)
        (string_bytes s.text))) }
{
    let alloc = buffers.alloc;
    let span = site.place.value;
    let Some(cut) = cut_at(site.text, span.from, span.to) else {
        return Ok(None);
    };
    let Some(made) = value_edit(buffers, &cut, site, printed)? else {
        return Ok(None);
    };
    let selectors = member_selectors(alloc, site.pointer, token)?;
    let path = child_selectors(alloc, site.pointer, token)?;
    let change = ChangeAt {
        selectors: &selectors,
        positions: &site.place.positions,
        change: &made.change,
    };
    let at = ValueChangeAt {
        change,
        path: &path,
        piece: made.piece.as_str(),
    };
    let Some(text) = change_value_at(buffers, &cut, at)? else {
        return Ok(None);
    };
    let plan = Plan::Replaced(ReplacedValue {
        value: span,
        depth: site.place.depth,
        piece: made.piece,
    });
    Ok(Some(Made { text, plan }))
}

/// Adds the value as a new child of the array or object at the site.
fn add_new(
    buffers: &mut Buffers,
    site: &Site<'_>,
    token: &Token<'_>,
    printed: &ValueText,
) -> Result<Option<Made>, AllocError>
    ensures added { IfOk result (λ new. IfSome new (λ s. AddsInText site.now.text.now
        (tokens site.now.pointer ++ token.now ∷ []) (string_bytes printed.now.flat)
        (string_bytes s.text))) }
    ensures bytes { IfOk result (λ new. IfSome new (λ s. AddsByText site.now.text.now
        (string_bytes s.text) (tokens site.now.pointer) token.now (string_bytes printed.now.flat))) }
{
    if site.slice().starts_with('{') {
        add_member(buffers, site, token, printed)
    } else if token.is_next() {
        append(buffers, site, token, printed)
    } else {
        insert(buffers, site, token, printed)
    }
}
