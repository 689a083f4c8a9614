//! Removing a child of an array or an object from a text.
ghost use Rattle.std.specs.Prelude.{◌≡◌, [], ◌∷◌, ◌++◌, List, ℕ, Some, IfOk, IfSome, IsTrue, option_map, string_bytes};
ghost use Rattle.serde_json.specs.Data.{Data};
ghost use Rattle.jsonptr.specs.Pointer.{tokens};
ghost use Rattle.jsonptr_text_check.specs.Child.{IsReadAs};
ghost use Rattle.jsonptr_text_step.specs.Bytes.{CutsBytes, CutsInTurn, CutsMembers, CutsElement, CutsChild};
ghost use Rattle.jsonptr_text_step.specs.EditInText.{DeletesInText};

use crate::change_at::{ChangeAtPointer, is_changed_at};
use crate::front::{ChildAt, Front, is_child_after};
use crate::plan::{Made, Plan, RemovedChild};
use crate::site::Site;
use jsonptr::Token;
use jsonptr_text_check::change::{Change, ChildValue};
use jsonptr_text_check::one_child::one_child;
use jsonptr_text_layout::layout::{Container, removal};
use jsonptr_text_layout::place::children_of;
use jsonptr_text_piece::buffers::Buffers;
use jsonptr_text_piece::child::Child;
use jsonptr_text_piece::cut::{cut_at, splice};
use jsonptr_text_piece::span::{Span, slice};
use jsonptr_text_resolve::selectors::selector_of;
use std::alloc::AllocError;

/// Cuts out each child that the token selects of the value that the pointer resolves to. The site is that
/// of the last one. Returns `None` if that is not possible.
///
/// # Errors
///
/// [`AllocError`] if an allocation fails.
pub fn cut_children(
    buffers: &mut Buffers,
    site: &Site<'_>,
    token: &Token<'_>,
) -> Result<Option<Made>, AllocError>
    ensures deleted { IfOk result (λ new. IfSome new (λ s.
        DeletesInText site.now.text.now (tokens site.now.pointer ++ token.now ∷ []) (string_bytes s.text))) }
    ensures bytes { IfOk result (λ new. IfSome new (λ s.
        CutsChild site.now.text.now (string_bytes s.text) (tokens site.now.pointer) token.now)) }
{
    let span = site.place.container;
    let container = slice(site.text, span.from, span.to);
    if container.starts_with('{') {
        cut_members(buffers, site, token)
    } else {
        cut_element(buffers, site, token)
    }
}

/// Cuts out each member with the key of the token of the object that the pointer resolves to, the
/// last one first.
fn cut_members(
    buffers: &mut Buffers,
    site: &Site<'_>,
    token: &Token<'_>,
) -> Result<Option<Made>, AllocError>
    ensures deleted { IfOk result (λ new. IfSome new (λ s.
        DeletesInText site.now.text.now (tokens site.now.pointer ++ token.now ∷ []) (string_bytes s.text))) }
    ensures bytes { IfOk result (λ new. IfSome new (λ s.
        CutsMembers site.now.text.now (string_bytes s.text) (tokens site.now.pointer) token.now)) }
{
    let alloc = buffers.alloc;
    let Some((position, above)) = site.place.positions.split_last() else {
        return Ok(None);
    };
    let Some(last) = site.place.duplicates.last() else {
        return Ok(None);
    };
    let selector = selector_of(alloc, token)?;
    let key = selector.key.as_str();
    let value = site.slice();
    let removed = CutOut {
        container: site.place.container,
        at: ChildAt {
            pointer: site.pointer,
            token,
            above,
            position: *last,
        },
        key: Some(key),
        value: Some(value),
    };
    let Some(first) = cut_child(buffers, site.text, removed)? else {
        return Ok(None);
    };
    let earlier = Earlier {
        site,
        token,
        above,
        key,
    };
    let Some(new) = cut_in_turn(buffers, earlier, first.text)? else {
        return Ok(None);
    };
    let name = String::from_str(alloc, key)?;
    let change = Change::Add(ChildValue {
        selector,
        position: *position,
        value: String::from_str(alloc, value)?,
    });
    let at = ChangeAtPointer {
        pointer: site.pointer,
        positions: above,
        change: &change,
    };
    if is_changed_at(buffers, new.as_str(), site.text, &at)? {
        let plan = Plan::Removed(RemovedChild {
            container: site.place.container,
            children: first.children,
            position: *last,
            key: Some(name),
            others: site.place.duplicates.len().saturating_sub(1),
        });
        Ok(Some(Made { text: new, plan }))
    } else {
        Ok(None)
    }
}

/// Cuts out the element that the token refers to, of the array that the pointer resolves to.
fn cut_element(
    buffers: &mut Buffers,
    site: &Site<'_>,
    token: &Token<'_>,
) -> Result<Option<Made>, AllocError>
    ensures deleted { IfOk result (λ new. IfSome new (λ s.
        DeletesInText site.now.text.now (tokens site.now.pointer ++ token.now ∷ []) (string_bytes s.text))) }
    ensures bytes { IfOk result (λ new. IfSome new (λ s.
        CutsElement site.now.text.now (string_bytes s.text) (tokens site.now.pointer) token.now)) }
{
    let alloc = buffers.alloc;
    let Some((position, above)) = site.place.positions.split_last() else {
        return Ok(None);
    };
    let value = site.slice();
    let removed = CutOut {
        container: site.place.container,
        at: ChildAt {
            pointer: site.pointer,
            token,
            above,
            position: *position,
        },
        key: None,
        value: Some(value),
    };
    let Some(new) = cut_child(buffers, site.text, removed)? else {
        return Ok(None);
    };
    let change = Change::Insert(ChildValue {
        selector: selector_of(alloc, token)?,
        position: *position,
        value: String::from_str(alloc, value)?,
    });
    let at = ChangeAtPointer {
        pointer: site.pointer,
        positions: above,
        change: &change,
    };
    if is_changed_at(buffers, new.text.as_str(), site.text, &at)? {
        let plan = Plan::Removed(RemovedChild {
            container: site.place.container,
            children: new.children,
            position: *position,
            key: None,
            others: 0,
        });
        let text = new.text;
        Ok(Some(Made { text, plan }))
    } else {
        Ok(None)
    }
}

/// A child that is cut out.
#[derive(Clone, Copy, Debug)]
struct CutOut<'a, 't> {
    /// Where the array or object is that has it.
    container: Span,
    /// Which child it is.
    at: ChildAt<'a, 't>,
    /// Its key, if it is a member.
    key: Option<&'a str>,
    /// The text of its value, if one is given.
    value: Option<&'a str>,
}

/// The members with a key before the one at a site.
#[derive(Clone, Copy, Debug)]
struct Earlier<'a, 't> {
    /// The site.
    site: &'a Site<'t>,
    /// The token that refers to each of them, if there is no later one.
    token: &'a Token<'t>,
    /// The position, among all children, of each child on the way to the object.
    above: &'a [usize],
    /// The key.
    key: &'a str,
}

/// Cuts out these members, the last one first. The one at the site was cut out of the text.
fn cut_in_turn(
    buffers: &mut Buffers,
    members: Earlier<'_, '_>,
    text: String,
) -> Result<Option<String>, AllocError>
    ensures { members.entry.key.now ≡ members.entry.token.now → IfOk result (λ new. IfSome new
        (λ s. (mids : List (List ℕ)) × CutsInTurn (tokens members.entry.site.now.pointer)
        members.entry.token.now (string_bytes text) mids (string_bytes s))) }
{
    let site = members.site;
    let Some((_, earlier)) = site.place.duplicates.split_last() else {
        return Ok(None);
    };
    let mut container = shortened(site.place.container, site.text, text.as_str());
    let mut current = text;
    'cuts: for position in earlier.iter().rev() {
        let old = current.as_str();
        let removed = CutOut {
            container,
            at: ChildAt {
                pointer: site.pointer,
                token: members.token,
                above: members.above,
                position: *position,
            },
            key: Some(members.key),
            value: None,
        };
        let Some(next) = cut_child(buffers, old, removed)? else {
            return Ok(None);
        };
        container = shortened(container, old, next.text.as_str());
        current = next.text;
    }
    Ok(Some(current))
}

/// Returns where the container is after a child was cut out of it.
fn shortened(container: Span, old: &str, new: &str) -> Span {
    Span {
        from: container.from,
        to: container
            .to
            .saturating_sub(old.len().saturating_sub(new.len())),
    }
}

/// A text without a child that was cut out, and the children that its array or object had before. It owns
/// both.
#[derive(Debug, Drop)]
struct Shorter {
    /// The text.
    text: String,
    /// The children.
    children: Vec<Child>,
}

/// Cuts out the child.
fn cut_child(
    buffers: &mut Buffers,
    text: &str,
    removed: CutOut<'_, '_>,
) -> Result<Option<Shorter>, AllocError>
    ensures { IfOk result (λ new. IfSome new (λ s. (v : Data)
        × IsReadAs (option_map (λ t. t.now) removed.entry.value) v
        × CutsBytes text.now (string_bytes s.text) (tokens removed.entry.at.pointer ++ removed.entry.at.token.now ∷ [])
        (option_map (λ k. k.now) removed.entry.key) v)) }
{
    let alloc = buffers.alloc;
    let Some(children) = children_of(buffers, text, removed.container)? else {
        return Ok(None);
    };
    let Some(child) = children.get(removed.at.position) else {
        return Ok(None);
    };
    let there = Container {
        text,
        span: removed.container,
        children: children.as_slice(),
    };
    let Some(span) = removal(there, removed.at.position) else {
        return Ok(None);
    };
    let Some(cut) = cut_at(text, span.from, span.to) else {
        return Ok(None);
    };
    let child = within(*child, span.from);
    let Some(parts) = one_child(buffers, cut.middle, child, removed.key, removed.value)? else {
        return Ok(None);
    };
    let place = Front {
        text,
        front: cut.before,
    };
    if !is_child_after(buffers, place, removed.at, &parts)? {
        return Ok(None);
    }
    let text = splice(alloc, &cut, "")?;
    Ok(Some(Shorter { text, children }))
}

/// Returns the child in a text that begins at the offset.
fn within(child: Child, from: usize) -> Child {
    let span = Span {
        from: child.span.from.saturating_sub(from),
        to: child.span.to.saturating_sub(from),
    };
    let value = child.value.saturating_sub(from);
    Child { span, value }
}
