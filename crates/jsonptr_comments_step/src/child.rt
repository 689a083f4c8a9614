//! The check that an edit removes the child at its pointer.
ghost use Rattle.std.specs.Prelude.{IfOk, IfSome, IsTrue};
ghost use Rattle.jsonptr.specs.Pointer.{tokens};
ghost use Rattle.jsonptr_comments_step.specs.PrivateChecking.{IsChanged, IsChildAt, IsChildCut, IsExactChild, BeginsChild, AreRunsOfChild};

use crate::draft::Draft;
use crate::part::{Part, is_one_run, is_run};
use crate::value::{find_value, is_at};
use jsonptr_comments::piece::Allowed;
use jsonptr_text_check::one_child::{have_one_comma, one_child};
use jsonptr_text_piece::buffers::Buffers;
use jsonptr_text_piece::child::Child;
use jsonptr_text_piece::spacing::is_space;
use jsonptr_text_piece::span::Span;
use std::alloc::AllocError;

/// A child that is removed.
#[derive(Debug, Drop)]
pub struct CommentedChild {
    /// Where it is in the text.
    pub at: Child,
    /// Its key, if it is a member.
    pub key: Option<String>,
    /// What stays after it. The comments between it and this go with it.
    pub kept: Span,
}

/// Returns whether what is replaced is the child to whose value the pointer leads, with at most one comma
/// beside it; and whether all its comments stay, except those in the child and those after it, on its line.
///
/// # Errors
///
/// [`AllocError`] if an allocation fails.
pub fn is_removal(
    buffers: &mut Buffers,
    draft: &Draft<'_>,
    child: &CommentedChild,
) -> Result<bool, AllocError>
    ensures { IfOk result (λ b. IsTrue b → IsChanged draft.now.bare.now (tokens draft.now.pointer)
        draft.now.text.now draft.now.replaced.from draft.now.replaced.to
        draft.now.made.now draft.now.new.from draft.now.new.to) }
{
    if !are_runs(draft, child.at.span, child.kept) {
        return Ok(false);
    }
    is_child_at(buffers, draft, child)
}

/// Returns whether what is replaced is pieces without a comment, the child, pieces without a line break, those
/// that stay, and pieces without a comment.
fn are_runs(draft: &Draft<'_>, child: Span, kept: Span) -> bool
    ensures { IsTrue result → AreRunsOfChild draft.now.text.now draft.now.replaced.from
        child.from child.to kept.from kept.to draft.now.replaced.to
        draft.now.made.now draft.now.new.from draft.now.new.to }
{
    let text = draft.text;
    let lead = Part {
        text,
        from: draft.replaced.from,
        to: child.from,
    };
    if !is_run(lead, Allowed::NoComment) {
        return false;
    }
    let inside = Part {
        text,
        from: child.from,
        to: child.to,
    };
    if !is_run(inside, Allowed::Any) {
        return false;
    }
    let beside = Part {
        text,
        from: child.to,
        to: kept.from,
    };
    if !is_run(beside, Allowed::NoBreak) {
        return false;
    }
    let rest = Part {
        text,
        from: kept.to,
        to: draft.replaced.to,
    };
    if !is_run(rest, Allowed::NoComment) {
        return false;
    }
    let stays = Part {
        text,
        from: kept.from,
        to: kept.to,
    };
    let new = Part {
        text: draft.made,
        from: draft.new.from,
        to: draft.new.to,
    };
    is_one_run(stays, new)
}

/// Returns whether the text without comments has the child there, to whose value the pointer leads.
fn is_child_at(
    buffers: &mut Buffers,
    draft: &Draft<'_>,
    child: &CommentedChild,
) -> Result<bool, AllocError>
    ensures { IfOk result (λ b. IsTrue b → IsChildAt draft.now.bare.now (tokens draft.now.pointer)
        draft.now.replaced.from child.now.at.span.from child.now.at.span.to draft.now.replaced.to) }
{
    let Some(cut) = cut_around(draft.bare, draft.replaced, child.at.span) else {
        return Ok(false);
    };
    if !have_one_comma(cut.lead, cut.trail) {
        return Ok(false);
    }
    let Some(value) = value_of(buffers, cut.child, child)? else {
        return Ok(false);
    };
    let Some(located) = find_value(buffers, draft.bare, draft.pointer)? else {
        return Ok(false);
    };
    let from = child.at.span.to.saturating_sub(value.len());
    let to = child.at.span.to;
    Ok(is_at(&located, Span { from, to }))
}

/// A text that is cut around a child and what is beside it. It borrows the text.
#[derive(Clone, Copy, Debug, Drop)]
struct ChildCut<'t> {
    before: &'t str,
    lead: &'t str,
    child: &'t str,
    trail: &'t str,
    after: &'t str,
}

/// Cuts the text at the ends of both spans. Returns `None` if the second one is not within the first one, or if
/// they do not begin and end between characters.
fn cut_around(text: &str, all: Span, child: Span) -> Option<ChildCut<'_>>
    ensures { IfSome result (λ c. IsChildCut text.now all.from child.from child.to all.to
        c.before.now c.lead.now c.child.now c.trail.now c.after.now) }
{
    let (before, rest) = text.split_at_checked(all.from)?;
    let (lead, rest) = rest.split_at_checked(child.from.checked_sub(all.from)?)?;
    let (inner, rest) = rest.split_at_checked(child.to.checked_sub(child.from)?)?;
    let (trail, after) = rest.split_at_checked(all.to.checked_sub(child.to)?)?;
    Some(ChildCut {
        before,
        lead,
        child: inner,
        trail,
        after,
    })
}

/// Returns the text of the value of the child, or `None` if the text is not exactly that of the child.
fn value_of<'t>(
    buffers: &mut Buffers,
    text: &'t str,
    child: &CommentedChild,
) -> Result<Option<&'t str>, AllocError>
    ensures { IfOk result (λ found. IfSome found (λ value. IsExactChild text.entry.now value.now)) }
{
    let at = Child {
        span: Span {
            from: 0,
            to: text.len(),
        },
        value: child.at.value.saturating_sub(child.at.span.from),
    };
    let key = match &child.key {
        Some(key) => Some(key.as_str()),
        None => None,
    };
    let Some(parts) = one_child(buffers, text, at, key, None)? else {
        return Ok(None);
    };
    if parts.trail.is_empty() && begins_child(text) {
        Ok(Some(parts.value))
    } else {
        Ok(None)
    }
}

/// Returns whether the text begins with neither white space nor a comma.
fn begins_child(text: &str) -> bool
    ensures { IsTrue result → BeginsChild text.now }
{
    let bytes = text.as_bytes();
    if bytes.is_empty() {
        return false;
    }
    !is_space(bytes[0]) && bytes[0] != b','
}
