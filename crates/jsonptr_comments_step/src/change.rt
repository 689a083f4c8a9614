//! A change of a text: one piece is replaced, and a comma may come or go before it.
ghost use Rattle.std.specs.Prelude.{IfOk, IfSome, IsTrue, string_bytes};
ghost use Rattle.jsonptr.specs.Pointer.{tokens};
ghost use Rattle.jsonptr_comments.specs.Comments.{IsWithoutComments};
ghost use Rattle.jsonptr_comments_step.specs.Edits.{IsOneEdit};
ghost use Rattle.jsonptr_comments_step.specs.PrivateChecking.{IsChanged};

use crate::child::{CommentedChild, is_removal};
use crate::draft::{Draft, is_addition, is_framed};
use crate::texts::Texts;
use crate::value::is_replacement;
use jsonptr::Pointer;
use jsonptr_text_piece::buffers::Buffers;
use jsonptr_text_piece::span::Span;
use std::alloc::{AllocError, Global};

/// A comma that comes or goes. The offset is one of the text before the change.
#[derive(Clone, Copy, Debug)]
pub enum Comma {
    /// None does.
    Same,
    /// A comma is put in at the offset.
    Put(usize),
    /// The comma at the offset is taken out.
    Taken(usize),
}

/// What is replaced in a text.
#[derive(Debug, Drop)]
pub enum Kind {
    /// White space.
    Space,
    /// A value, to which as many tokens of the pointer lead.
    Value(usize),
    /// A child, which is removed, and what is beside it.
    Child(CommentedChild),
}

/// A change of a text.
#[derive(Debug, Drop)]
pub struct Change {
    /// A comma that comes or goes before the piece.
    pub comma: Comma,
    /// Where what is replaced is in the text.
    pub replaced: Span,
    /// What it is.
    pub kind: Kind,
    /// What replaces it.
    pub piece: String,
}

/// Returns the text after the change, or `None` if its offsets do not fit the text, or if it is not an edit at
/// the pointer.
///
/// # Errors
///
/// [`AllocError`] if an allocation fails.
pub fn changed(
    buffers: &mut Buffers,
    texts: Texts<'_>,
    pointer: Pointer<'_>,
    change: &Change,
) -> Result<Option<String>, AllocError>
    requires { IsWithoutComments texts.text.now texts.bare.now }
    ensures { IfOk result (λ made. IfSome made
        (λ s. IsOneEdit texts.entry.text.now (tokens pointer.entry) (string_bytes s))) }
{
    let (comma, added) = span_of(change.comma, change.replaced.from);
    let Some(made) = joined(buffers.alloc, texts.text, comma, added, change)? else {
        return Ok(None);
    };
    let start = change
        .replaced
        .from
        .saturating_add(added.len())
        .saturating_sub(comma.to.saturating_sub(comma.from));
    let draft = Draft {
        text: texts.text,
        bare: texts.bare,
        made: made.as_str(),
        pointer,
        comma,
        added: Span {
            from: comma.from,
            to: comma.from.saturating_add(added.len()),
        },
        replaced: change.replaced,
        new: Span {
            from: start,
            to: start.saturating_add(change.piece.len()),
        },
    };
    if !is_framed(&draft) {
        return Ok(None);
    }
    if is_made(buffers, &draft, &change.kind)? {
        Ok(Some(made))
    } else {
        Ok(None)
    }
}

/// Returns whether what is replaced is of that kind, and what replaces it loses no other comment.
///
/// # Errors
///
/// [`AllocError`] if an allocation fails.
fn is_made(buffers: &mut Buffers, draft: &Draft<'_>, kind: &Kind) -> Result<bool, AllocError>
    ensures { IfOk result (λ b. IsTrue b → IsChanged draft.now.bare.now (tokens draft.now.pointer)
        draft.now.text.now draft.now.replaced.from draft.now.replaced.to
        draft.now.made.now draft.now.new.from draft.now.new.to) }
{
    match kind {
        Kind::Space => Ok(is_addition(draft)),
        Kind::Value(depth) => is_replacement(buffers, draft, *depth),
        Kind::Child(child) => is_removal(buffers, draft, child),
    }
}

/// Returns the text with the change, or `None` if its offsets do not fit the text.
///
/// # Errors
///
/// [`AllocError`] if an allocation fails.
fn joined(
    alloc: Global,
    text: &str,
    comma: Span,
    added: &str,
    change: &Change,
) -> Result<Option<String>, AllocError> {
    let Some(rest) = rest_of(text, comma, change.replaced) else {
        return Ok(None);
    };
    let mut made = String::new(alloc);
    made.push_str(rest.before)?;
    made.push_str(added)?;
    made.push_str(rest.between)?;
    made.push_str(change.piece.as_str())?;
    made.push_str(rest.after)?;
    Ok(Some(made))
}

/// A text that is cut at four offsets, without what is replaced. It borrows the text.
#[derive(Clone, Copy, Debug)]
struct Rest<'t> {
    before: &'t str,
    between: &'t str,
    after: &'t str,
}

/// Returns where the comma is that is taken out, and the one that is put in there. If there is neither,
/// the span is at the offset.
fn span_of(comma: Comma, offset: usize) -> (Span, &'static str) {
    let (from, to, added) = match comma {
        Comma::Same => (offset, offset, ""),
        Comma::Put(at) => (at, at, ","),
        Comma::Taken(at) => (at, at.saturating_add(1), ""),
    };
    (Span { from, to }, added)
}

/// Rest the text at the ends of both spans. Returns `None` if these are not in order, or not between
/// characters.
fn rest_of(text: &str, comma: Span, replaced: Span) -> Option<Rest<'_>> {
    let (before, rest) = text.split_at_checked(comma.from)?;
    let (_, rest) = rest.split_at_checked(comma.to.checked_sub(comma.from)?)?;
    let (between, rest) = rest.split_at_checked(replaced.from.checked_sub(comma.to)?)?;
    let (_, after) = rest.split_at_checked(replaced.to.checked_sub(replaced.from)?)?;
    Some(Rest {
        before,
        between,
        after,
    })
}
