//! One edit of a text, with the check that it is that edit.
ghost use Rattle.std.specs.Prelude.{◌≡◌, ◌++◌, IfOk, IfSome, IsTrue, string_bytes};
ghost use Rattle.jsonptr.specs.Pointer.{tokens};
ghost use Rattle.jsonptr_text_search.specs.Search.{choices};
ghost use Rattle.jsonptr_text_check.specs.Editing.{IsEdited, Makes};
ghost use Rattle.jsonptr_text_step.specs.PrivateReaching.{ReachedInText, SplicesAt};

use crate::front::{Target, leads_after};
use jsonptr::Pointer;
use jsonptr_text_check::change::{Change, ChangeAt};
use jsonptr_text_check::check::is_edited;
use jsonptr_text_piece::buffers::Buffers;
use jsonptr_text_piece::cut::{Cut, splice};
use jsonptr_text_resolve::selectors::selectors_of;
use jsonptr_text_search::selector::Selector;
use std::alloc::AllocError;

/// An edit, and the pointer of the value that it changes.
#[derive(Clone, Copy, Debug)]
pub struct ChangeAtPointer<'a> {
    /// The pointer that resolves to the value.
    pub pointer: Pointer<'a>,
    /// The position, among all children, of each child on the way.
    pub positions: &'a [usize],
    /// The edit.
    pub change: &'a Change,
}

/// Puts the piece into the text, if that makes the edit of the value that the selectors lead to.
///
/// # Errors
///
/// [`AllocError`] if an allocation fails.
fn make_change(
    buffers: &mut Buffers,
    cut: &Cut<'_>,
    at: ChangeAt<'_>,
    piece: &str,
) -> Result<Option<String>, AllocError>
    ensures edited { IfOk result (λ new. IfSome new (λ s.
        IsEdited cut.now.text.now (string_bytes s) (choices at.entry.selectors.now) at.entry.change.now)) }
    ensures spliced { IfOk result (λ new. IfSome new (λ s.
        string_bytes s ≡ cut.now.before.now ++ (piece.now ++ cut.now.after.now))) }
{
    let alloc = buffers.alloc;
    let new = splice(alloc, cut, piece)?;
    if is_edited(buffers, cut.text, new.as_str(), at)? {
        Ok(Some(new))
    } else {
        Ok(None)
    }
}

/// An edit that replaces a value.
#[derive(Clone, Copy, Debug)]
pub struct ValueChangeAt<'a> {
    /// The edit.
    pub change: ChangeAt<'a>,
    /// The selectors of the pointer of the value. Its positions are those of the edit.
    pub path: &'a [Selector],
    /// The text of the new value.
    pub piece: &'a str,
}

/// Puts the text of the new value into the text, if that makes the edit, and if the selectors of the path
/// lead to both values: in the old text to the one that is cut out, and in the new text to the new one.
///
/// # Errors
///
/// [`AllocError`] if an allocation fails.
pub fn change_value_at(
    buffers: &mut Buffers,
    cut: &Cut<'_>,
    at: ValueChangeAt<'_>,
) -> Result<Option<String>, AllocError>
    ensures edited { IfOk result (λ new. IfSome new (λ s. IsEdited cut.now.text.now (string_bytes s)
        (choices at.entry.change.selectors.now) at.entry.change.change.now)) }
    ensures placed { IfOk result (λ new. IfSome new (λ s. SplicesAt (choices at.entry.path.now)
        cut.now.text.now (string_bytes s) cut.now.middle.now at.entry.piece.now)) }
{
    let alloc = buffers.alloc;
    let was = Target {
        selectors: at.path,
        positions: at.change.positions,
        value: cut.middle,
    };
    if !leads_after(buffers, cut.text, cut.before, was)? {
        return Ok(None);
    }
    let new = splice(alloc, cut, at.piece)?;
    if !is_edited(buffers, cut.text, new.as_str(), at.change)? {
        return Ok(None);
    }
    let is = Target {
        selectors: at.path,
        positions: at.change.positions,
        value: at.piece,
    };
    if leads_after(buffers, new.as_str(), cut.before, is)? {
        Ok(Some(new))
    } else {
        Ok(None)
    }
}

/// Returns whether the new text reads as the old one with the edit of the value that the pointer
/// resolves to.
///
/// # Errors
///
/// [`AllocError`] if an allocation fails.
pub fn is_changed_at(
    buffers: &mut Buffers,
    old: &str,
    new: &str,
    at: &ChangeAtPointer<'_>,
) -> Result<bool, AllocError>
    ensures { IfOk result (λ b. IsTrue b
        → ReachedInText old.now new.now (tokens at.now.pointer) (Makes at.now.change.now)) }
{
    let alloc = buffers.alloc;
    let selectors = selectors_of(alloc, at.pointer)?;
    let by = ChangeAt {
        selectors: &selectors,
        positions: at.positions,
        change: at.change,
    };
    is_edited(buffers, old, new, by)
}

/// Puts the piece into the text, if that makes the edit of the value that the pointer resolves to.
///
/// # Errors
///
/// [`AllocError`] if an allocation fails.
pub fn make_change_at(
    buffers: &mut Buffers,
    cut: &Cut<'_>,
    at: &ChangeAtPointer<'_>,
    piece: &str,
) -> Result<Option<String>, AllocError>
    ensures reached { IfOk result (λ new. IfSome new (λ s. ReachedInText cut.now.text.now
        (string_bytes s) (tokens at.now.pointer) (Makes at.now.change.now))) }
    ensures spliced { IfOk result (λ new. IfSome new (λ s.
        string_bytes s ≡ cut.now.before.now ++ (piece.now ++ cut.now.after.now))) }
{
    let alloc = buffers.alloc;
    let selectors = selectors_of(alloc, at.pointer)?;
    let by = ChangeAt {
        selectors: &selectors,
        positions: at.positions,
        change: at.change,
    };
    make_change(buffers, cut, by, piece)
}
