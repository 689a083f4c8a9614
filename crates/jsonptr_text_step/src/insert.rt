//! Adding a child to an array or an object in a text.
ghost use Rattle.std.specs.Prelude.{◌≡◌, ◌⊎◌, [], ◌∷◌, ◌++◌, Some, IfOk, IfSome, codes, option_map, string_bytes};
ghost use Rattle.jsonptr.specs.Pointer.{tokens};
ghost use Rattle.jsonptr.specs.Text.{dec};
ghost use Rattle.jsonptr_text_resolve.specs.Selecting.{IsChoiceOf};
ghost use Rattle.jsonptr_text_search.specs.Search.{choice_of};
ghost use Rattle.jsonptr_text_check.specs.Editing.{Makes};
ghost use Rattle.jsonptr_text_step.specs.PrivateOperating.{ElementInserted};
ghost use Rattle.jsonptr_text_step.specs.PrivateReaching.{ReachedInText, MemberAdded, ElementAppended, AddsPieceByText, AddsByText};

use crate::change_at::{ChangeAtPointer, make_change_at};
use crate::front::{ChildAt, Front, is_child_after};
use crate::plan::{AddedChild, Made, Plan};
use crate::site::Site;
use jsonptr::Token;
use jsonptr::index::Index;
use jsonptr_text_check::change::{Change, ChildValue};
use jsonptr_text_check::one_child::one_child;
use jsonptr_text_layout::layout::{Container, addition};
use jsonptr_text_layout::place::children_of;
use jsonptr_text_layout::value_text::ValueText;
use jsonptr_text_piece::buffers::Buffers;
use jsonptr_text_piece::cut::cut_at;
use jsonptr_text_piece::piece::Piece;
use jsonptr_text_piece::spacing::is_blank;
use jsonptr_text_resolve::selectors::selector_of;
use jsonptr_text_search::selector::Selector;
use serde_json::Value;
use std::alloc::{AllocError, Global};

/// Adds a member with the key of the token to the object at the site. Returns `None` if that is not
/// possible.
///
/// # Errors
///
/// [`AllocError`] if an allocation fails.
pub fn add_member(
    buffers: &mut Buffers,
    site: &Site<'_>,
    token: &Token<'_>,
    printed: &ValueText,
) -> Result<Option<Made>, AllocError>
    ensures reached { IfOk result (λ new. IfSome new (λ s. ReachedInText site.now.text.now
        (string_bytes s.text) (tokens site.now.pointer)
        (MemberAdded token.now (string_bytes printed.now.flat)))) }
    ensures bytes { IfOk result (λ new. IfSome new (λ s. AddsByText site.now.text.now
        (string_bytes s.text) (tokens site.now.pointer) token.now (string_bytes printed.now.flat))) }
{
    let alloc = buffers.alloc;
    let Some(members) = children_of(buffers, site.text, site.place.value)? else {
        return Ok(None);
    };
    let position = members.len();
    let child = child_of(alloc, token, position, printed)?;
    let key = child.selector.key.clone()?;
    let quoted = Value::String(key.clone()?).to_string(alloc)?;
    let container = Container {
        text: site.text,
        span: site.place.value,
        children: members.as_slice(),
    };
    let piece = addition(alloc, container, position, Some(quoted.as_str()), printed)?;
    let name = Some(key.as_str());
    let new = ChildPiece {
        piece: &piece,
        key: name,
        value: printed.flat.as_str(),
        token,
        position,
    };
    let Some(text) = put_child(buffers, site, new, &Change::Add(child))? else {
        return Ok(None);
    };
    let plan = Plan::Added(AddedChild {
        container: site.place.value,
        children: members,
        position,
        piece,
    });
    Ok(Some(Made { text, plan }))
}

/// Adds an element at the end of the array at the site, if the token refers to the index after its
/// last element. Returns `None` if that is not possible.
///
/// # Errors
///
/// [`AllocError`] if an allocation fails.
pub fn append(
    buffers: &mut Buffers,
    site: &Site<'_>,
    token: &Token<'_>,
    printed: &ValueText,
) -> Result<Option<Made>, AllocError>
    ensures reached { IfOk result (λ new. IfSome new (λ s. ReachedInText site.now.text.now
        (string_bytes s.text) (tokens site.now.pointer)
        (ElementAppended token.now (string_bytes printed.now.flat)))) }
    ensures bytes { IfOk result (λ new. IfSome new (λ s. AddsByText site.now.text.now
        (string_bytes s.text) (tokens site.now.pointer) token.now (string_bytes printed.now.flat))) }
{
    let alloc = buffers.alloc;
    let Some(elements) = children_of(buffers, site.text, site.place.value)? else {
        return Ok(None);
    };
    let position = elements.len();
    let Some(index) = append_index(token, position) else {
        return Ok(None);
    };
    let child = element(alloc, index, printed)?;
    let container = Container {
        text: site.text,
        span: site.place.value,
        children: elements.as_slice(),
    };
    let piece = addition(alloc, container, position, None, printed)?;
    let refers = Token::from_number(alloc, index)?;
    let new = ChildPiece {
        piece: &piece,
        key: None,
        value: printed.flat.as_str(),
        token: &refers,
        position,
    };
    let Some(text) = put_child(buffers, site, new, &Change::Append(child))? else {
        return Ok(None);
    };
    let plan = Plan::Added(AddedChild {
        container: site.place.value,
        children: elements,
        position,
        piece,
    });
    Ok(Some(Made { text, plan }))
}

/// Inserts an element into the array at the site, before the one at the index that the token is or
/// after the last one. Returns `None` if that is not possible.
///
/// # Errors
///
/// [`AllocError`] if an allocation fails.
pub fn insert(
    buffers: &mut Buffers,
    site: &Site<'_>,
    token: &Token<'_>,
    printed: &ValueText,
) -> Result<Option<Made>, AllocError>
    ensures reached { IfOk result (λ new. IfSome new (λ s. ReachedInText site.now.text.now
        (string_bytes s.text) (tokens site.now.pointer)
        (ElementInserted token.now (string_bytes printed.now.flat)))) }
    ensures bytes { IfOk result (λ new. IfSome new (λ s. AddsByText site.now.text.now
        (string_bytes s.text) (tokens site.now.pointer) token.now (string_bytes printed.now.flat))) }
{
    let alloc = buffers.alloc;
    let Ok(Index::Num(index)) = token.to_index() else {
        return Ok(None);
    };
    let Some(elements) = children_of(buffers, site.text, site.place.value)? else {
        return Ok(None);
    };
    let child = child_of(alloc, token, index, printed)?;
    let container = Container {
        text: site.text,
        span: site.place.value,
        children: elements.as_slice(),
    };
    let piece = addition(alloc, container, index, None, printed)?;
    let new = ChildPiece {
        piece: &piece,
        key: None,
        value: printed.flat.as_str(),
        token,
        position: index,
    };
    let Some(text) = put_child(buffers, site, new, &Change::Insert(child))? else {
        return Ok(None);
    };
    let plan = Plan::Added(AddedChild {
        container: site.place.value,
        children: elements,
        position: index,
        piece,
    });
    Ok(Some(Made { text, plan }))
}

/// A child that is put into an array or an object.
#[derive(Clone, Copy, Debug)]
struct ChildPiece<'p, 'k, 'v, 't> {
    /// What comes into the text.
    piece: &'p Piece,
    /// Its key, if it is a member.
    key: Option<&'k str>,
    /// A JSON text of its value.
    value: &'v str,
    /// The token that refers to it in the new text.
    token: &'p Token<'t>,
    /// Its position among all children in the new text.
    position: usize,
}

/// Puts the text of a child into the array or object at the site, if that makes the edit, and if the pointer
/// of the child leads to its value there.
fn put_child(
    buffers: &mut Buffers,
    site: &Site<'_>,
    child: ChildPiece<'_, '_, '_, '_>,
    change: &Change,
) -> Result<Option<String>, AllocError>
    ensures reached { IfOk result (λ new. IfSome new (λ s. ReachedInText site.now.text.now
        (string_bytes s) (tokens site.now.pointer) (Makes change.now))) }
    ensures bytes { IfOk result (λ new. IfSome new (λ s. AddsPieceByText site.now.text.now
        (string_bytes s) (tokens site.now.pointer ++ child.entry.token.now ∷ [])
        (option_map (λ k. k.now) child.entry.key) child.entry.value.now)) }
{
    let piece = child.piece;
    let Some(cut) = cut_at(site.text, piece.span.from, piece.span.to) else {
        return Ok(None);
    };
    let added = piece.text.as_str();
    if !is_blank(cut.middle) {
        return Ok(None);
    }
    let Some(parts) = one_child(buffers, added, piece.child, child.key, Some(child.value))? else {
        return Ok(None);
    };
    let at = ChangeAtPointer {
        pointer: site.pointer,
        positions: &site.place.positions,
        change,
    };
    let Some(new) = make_change_at(buffers, &cut, &at, added)? else {
        return Ok(None);
    };
    let text = Front {
        text: new.as_str(),
        front: cut.before,
    };
    let there = ChildAt {
        pointer: site.pointer,
        token: child.token,
        above: &site.place.positions,
        position: child.position,
    };
    if is_child_after(buffers, text, there, &parts)? {
        Ok(Some(new))
    } else {
        Ok(None)
    }
}

/// Returns the child that the token selects, with the value.
fn child_of(
    alloc: Global,
    token: &Token<'_>,
    position: usize,
    printed: &ValueText,
) -> Result<ChildValue, AllocError>
    ensures selects { IfOk result (λ child. IsChoiceOf token.now (choice_of child.selector)) }
    ensures value { IfOk result
        (λ child. string_bytes child.value ≡ string_bytes printed.now.flat) }
{
    let selector = selector_of(alloc, token)?;
    let value = printed.flat.clone()?;
    Ok(ChildValue {
        selector,
        position,
        value,
    })
}

/// Returns the element with the index and the value.
fn element(alloc: Global, index: usize, printed: &ValueText) -> Result<ChildValue, AllocError>
    ensures index { IfOk result (λ child. child.selector.index ≡ Some index) }
    ensures value { IfOk result
        (λ child. string_bytes child.value ≡ string_bytes printed.now.flat) }
{
    let selector = Selector {
        key: String::new(alloc),
        index: Some(index),
    };
    let value = printed.flat.clone()?;
    Ok(ChildValue {
        selector,
        position: index,
        value,
    })
}

/// Returns the index that the token refers to: its number, or the length for `-`.
fn append_index(token: &Token<'_>, length: usize) -> Option<usize>
    ensures { IfSome result (λ i. (token.now ≡ codes "-") ⊎ (token.now ≡ dec i)) }
{
    match token.to_index() {
        Ok(Index::Num(index)) => Some(index),
        Ok(Index::Next) => Some(length),
        Err(_) => None,
    }
}
