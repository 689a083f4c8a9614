//! The check that a piece of a text is the text of the value that a pointer leads to.
ghost use Rattle.std.specs.Prelude.{◌≡◌, List, ℕ, [], ◌∷◌, ◌++◌, IfOk, IfSome, IsTrue};
ghost use Rattle.jsonptr.specs.Pointer.{tokens};
ghost use Rattle.jsonptr_text_resolve.specs.Selecting.{AreChoicesOf};
ghost use Rattle.jsonptr_text_search.specs.Search.{choices};
ghost use Rattle.jsonptr_text_check.specs.Leading.{LeadsInText, BeginsAt};
ghost use Rattle.jsonptr_text_step.specs.Placing.{IsAt};

use jsonptr::{Pointer, Token};
use jsonptr_text_check::lead::{ValueAt, leads_to};
use jsonptr_text_check::one_child::ChildText;
use jsonptr_text_piece::buffers::Buffers;
use jsonptr_text_piece::cut::after_front;
use jsonptr_text_resolve::selectors::{selector_of, selectors_of};
use jsonptr_text_search::selector::Selector;
use std::alloc::{AllocError, Global};

/// The way to a value in a text, and the text of the value.
#[derive(Clone, Copy, Debug)]
pub struct Target<'a> {
    /// The selectors that lead to the value.
    pub selectors: &'a [Selector],
    /// The position, among all children, of each child on the way.
    pub positions: &'a [usize],
    /// The text of the value.
    pub value: &'a str,
}

/// Returns whether the selectors lead in the text to the value after `front`, with which the text begins.
///
/// # Errors
///
/// [`AllocError`] if an allocation fails.
pub fn leads_after(
    buffers: &mut Buffers,
    text: &str,
    front: &str,
    target: Target<'_>,
) -> Result<bool, AllocError>
    ensures leads { IfOk result (λ b. IsTrue b
        → LeadsInText text.now (choices target.entry.selectors.now) target.entry.value.now) }
    ensures begins { (after : List ℕ) → text.now ≡ front.now ++ (target.entry.value.now ++ after)
        → IfOk result (λ b. IsTrue b → BeginsAt (choices target.entry.selectors.now) text.now
        target.entry.value.now (target.entry.value.now ++ after)) }
{
    let Some(tail) = after_front(text, front) else {
        return Ok(false);
    };
    let there = ValueAt {
        selectors: target.selectors,
        positions: target.positions,
        value: target.value,
        tail,
    };
    leads_to(buffers, text, there)
}

/// A child of an array or an object in a text.
#[derive(Clone, Copy, Debug)]
pub struct ChildAt<'a, 't> {
    /// The pointer of the array or object.
    pub pointer: Pointer<'a>,
    /// The token that refers to the child.
    pub token: &'a Token<'t>,
    /// The position, among all children, of each child on the way to the array or object.
    pub above: &'a [usize],
    /// The position of the child.
    pub position: usize,
}

/// Returns whether the pointer of the child leads in the text to the value of the parts, which are after
/// `front`, with which the text begins.
///
/// # Errors
///
/// [`AllocError`] if an allocation fails.
pub fn is_child_after(
    buffers: &mut Buffers,
    text: Front<'_>,
    child: ChildAt<'_, '_>,
    parts: &ChildText<'_>,
) -> Result<bool, AllocError>
    ensures { (after : List ℕ) → text.entry.text.now ≡ text.entry.front.now ++ ((parts.now.lead.now
        ++ (parts.now.name.now ++ (parts.now.value.now ++ parts.now.trail.now))) ++ after)
        → IfOk result (λ b. IsTrue b → IsAt text.entry.text.now
        (tokens child.entry.pointer ++ child.entry.token.now ∷ []) parts.now.value.now
        (parts.now.trail.now ++ after)) }
{
    let alloc = buffers.alloc;
    let Some(tail) = tail_at(text, parts) else {
        return Ok(false);
    };
    let selectors = child_selectors(alloc, child.pointer, child.token)?;
    let mut positions = Vec::new(alloc);
    positions.extend_from_slice(child.above)?;
    positions.push(child.position)?;
    let there = ValueAt {
        selectors: &selectors,
        positions: &positions,
        value: parts.value,
        tail,
    };
    leads_to(buffers, text.text, there)
}

/// A text and what it begins with.
#[derive(Clone, Copy, Debug)]
pub struct Front<'t> {
    /// The text.
    pub text: &'t str,
    /// What it begins with.
    pub front: &'t str,
}

/// Returns the text from the value of the parts on, which are after the front.
fn tail_at<'t>(text: Front<'t>, parts: &ChildText<'_>) -> Option<&'t str>
    ensures { (after : List ℕ) → text.entry.text.now ≡ text.entry.front.now ++ ((parts.now.lead.now
        ++ (parts.now.name.now ++ (parts.now.value.now ++ parts.now.trail.now))) ++ after)
        → IfSome result (λ t. t.now ≡ parts.now.value.now ++ (parts.now.trail.now ++ after)) }
{
    let child = after_front(text.text, text.front)?;
    let named = after_front(child, parts.lead)?;
    after_front(named, parts.name)
}

/// Returns the selectors of the pointer and that of the token.
pub fn child_selectors(
    alloc: Global,
    pointer: Pointer<'_>,
    token: &Token<'_>,
) -> Result<Vec<Selector>, AllocError>
    ensures { IfOk result (λ v. AreChoicesOf (tokens pointer.entry ++ token.now ∷ []) (choices v.items)) }
{
    let mut selectors = selectors_of(alloc, pointer)?;
    let selector = selector_of(alloc, token)?;
    selectors.push(selector)?;
    Ok(selectors)
}
