//! The check that an edit replaces the name of the member at its pointer.
ghost use Rattle.std.specs.Prelude.{IfOk, IfSome, IsTrue};
ghost use Rattle.jsonptr.specs.Pointer.{tokens};
ghost use Rattle.jsonptr_comments.specs.Comments.{IsWithoutComments};
ghost use Rattle.jsonptr_comments_step.specs.Edits.{IsRenaming};
ghost use Rattle.jsonptr_comments_step.specs.PrivateChecking.{AreRunsOfName, IsNameAt, IsNameCut};

use crate::draft::{Draft, has_new_run, has_same_tail};
use crate::part::{Part, is_one_run, is_run};
use crate::value::find_value;
use jsonptr_comments::piece::Allowed;
use jsonptr_text_check::one_child::is_name;
use jsonptr_text_piece::buffers::Buffers;
use jsonptr_text_piece::spacing::is_colon;
use jsonptr_text_piece::span::Span;
use std::alloc::AllocError;

/// Returns whether what is replaced is the name of the member to whose value the pointer leads, and no comment
/// comes or goes with it.
///
/// # Errors
///
/// [`AllocError`] if an allocation fails.
pub fn is_renaming(buffers: &mut Buffers, draft: &Draft<'_>) -> Result<bool, AllocError>
    requires { IsWithoutComments draft.now.text.now draft.now.bare.now }
    ensures { IfOk result (λ b. IsTrue b → IsRenaming draft.now.text.now (tokens draft.now.pointer)
        draft.now.made.now) }
{
    if !are_runs(draft) {
        return Ok(false);
    }
    is_name_at(buffers, draft)
}

/// Returns whether both texts are the same pieces, except for pieces without a comment, which are replaced.
fn are_runs(draft: &Draft<'_>) -> bool
    ensures { IsTrue result → AreRunsOfName draft.now.text.now draft.now.replaced.from draft.now.replaced.to
        draft.now.made.now draft.now.new.from draft.now.new.to }
{
    let text = draft.text;
    let made = draft.made;
    let head = Part {
        text,
        from: 0,
        to: draft.replaced.from,
    };
    let new_head = Part {
        text: made,
        from: 0,
        to: draft.new.from,
    };
    if !is_one_run(head, new_head) {
        return false;
    }
    let name = Part {
        text,
        from: draft.replaced.from,
        to: draft.replaced.to,
    };
    if !is_run(name, Allowed::NoComment) {
        return false;
    }
    if !has_new_run(draft) {
        return false;
    }
    has_same_tail(draft)
}

/// Returns whether what is replaced in the text without comments is the name of the member to whose value the
/// pointer leads.
///
/// # Errors
///
/// [`AllocError`] if an allocation fails.
fn is_name_at(buffers: &mut Buffers, draft: &Draft<'_>) -> Result<bool, AllocError>
    ensures { IfOk result (λ b. IsTrue b → IsNameAt draft.now.bare.now (tokens draft.now.pointer)
        draft.now.replaced.from draft.now.replaced.to) }
{
    let Some((_, last)) = draft.pointer.split_back() else {
        return Ok(false);
    };
    let key = last.decoded(buffers.alloc)?;
    let Some(located) = find_value(buffers, draft.bare, draft.pointer)? else {
        return Ok(false);
    };
    let Some(cut) = cut_name(draft.bare, draft.replaced, located.before.len()) else {
        return Ok(false);
    };
    if !is_colon(cut.colon) {
        return Ok(false);
    }
    is_name(&mut buffers.old, cut.name, key.as_str())
}

/// A text that is cut around a name and the colon after it. It borrows the text.
#[derive(Clone, Copy, Debug, Drop)]
struct NameCut<'t> {
    before: &'t str,
    name: &'t str,
    colon: &'t str,
    after: &'t str,
}

/// Cuts the text at the ends of the name and where the value begins. Returns `None` if these are not in order,
/// or not between characters.
fn cut_name(text: &str, name: Span, value: usize) -> Option<NameCut<'_>>
    ensures { IfSome result (λ c. IsNameCut text.now name.from name.to value
        c.before.now c.name.now c.colon.now c.after.now) }
{
    let (before, rest) = text.split_at_checked(name.from)?;
    let (inner, rest) = rest.split_at_checked(name.to.checked_sub(name.from)?)?;
    let (colon, after) = rest.split_at_checked(value.checked_sub(name.to)?)?;
    Some(NameCut {
        before,
        name: inner,
        colon,
        after,
    })
}
