//! A text that is to be another one after one edit.
ghost use Rattle.std.specs.Prelude.{length, IsTrue};
ghost use Rattle.jsonptr.specs.Pointer.{tokens};
ghost use Rattle.jsonptr_comments_step.specs.PrivateChecking.{IsRun, IsOneRun, IsFramed, IsChanged};
ghost use Rattle.jsonptr_comments.specs.declared.piece.Allowed.TheVariants.{NoComment};

use crate::part::{Part, is_comma_or_none, is_one_run, is_run};
use jsonptr::Pointer;
use jsonptr_comments::piece::Allowed;
use jsonptr_text_piece::span::Span;

/// A text, the same text after an edit, and where they differ. It borrows the texts.
#[derive(Clone, Copy, Debug)]
pub struct Draft<'a> {
    /// The text before the edit.
    pub text: &'a str,
    /// That text without comments. It has the same length.
    pub bare: &'a str,
    /// The text after the edit.
    pub made: &'a str,
    /// Where the edit is.
    pub pointer: Pointer<'a>,
    /// The comma in `text` that goes, or an empty span.
    pub comma: Span,
    /// The comma in `made` that comes, or an empty span.
    pub added: Span,
    /// What is replaced in `text`.
    pub replaced: Span,
    /// What replaces it in `made`.
    pub new: Span,
}

/// Returns whether both texts are the same pieces, apart from what is replaced and from a comma.
pub fn is_framed(draft: &Draft<'_>) -> bool
    ensures { IsTrue result → IsFramed draft.now.text.now draft.now.replaced.from draft.now.replaced.to
        draft.now.made.now draft.now.new.from draft.now.new.to }
{
    let text = draft.text;
    let made = draft.made;
    let taken = Part {
        text,
        from: draft.comma.from,
        to: draft.comma.to,
    };
    let put = Part {
        text: made,
        from: draft.added.from,
        to: draft.added.to,
    };
    if !is_comma_or_none(taken) {
        return false;
    }
    if !is_comma_or_none(put) {
        return false;
    }
    let head = Part {
        text,
        from: 0,
        to: draft.comma.from,
    };
    let new_head = Part {
        text: made,
        from: 0,
        to: draft.added.from,
    };
    if !is_one_run(head, new_head) {
        return false;
    }
    let gap = Part {
        text,
        from: draft.comma.to,
        to: draft.replaced.from,
    };
    let new_gap = Part {
        text: made,
        from: draft.added.to,
        to: draft.new.from,
    };
    if !is_one_run(gap, new_gap) {
        return false;
    }
    has_same_tail(draft)
}

/// Returns whether what follows the edit in both texts is whole pieces, and the same ones.
pub fn has_same_tail(draft: &Draft<'_>) -> bool
    ensures { IsTrue result → IsOneRun draft.now.text.now draft.now.replaced.to (length draft.now.text.now)
        draft.now.made.now draft.now.new.to (length draft.now.made.now) }
{
    let tail = Part {
        text: draft.text,
        from: draft.replaced.to,
        to: draft.text.len(),
    };
    let new_tail = Part {
        text: draft.made,
        from: draft.new.to,
        to: draft.made.len(),
    };
    is_one_run(tail, new_tail)
}

/// Returns whether white space becomes pieces without a comment.
pub fn is_addition(draft: &Draft<'_>) -> bool
    ensures { IsTrue result → IsChanged draft.now.bare.now (tokens draft.now.pointer)
        draft.now.text.now draft.now.replaced.from draft.now.replaced.to
        draft.now.made.now draft.now.new.from draft.now.new.to }
{
    let was = Part {
        text: draft.text,
        from: draft.replaced.from,
        to: draft.replaced.to,
    };
    if !is_run(was, Allowed::Blank) {
        return false;
    }
    has_new_run(draft)
}

/// Returns whether what comes is pieces without a comment.
pub fn has_new_run(draft: &Draft<'_>) -> bool
    ensures { IsTrue result → IsRun NoComment draft.now.made.now draft.now.new.from draft.now.new.to }
{
    let new = Part {
        text: draft.made,
        from: draft.new.from,
        to: draft.new.to,
    };
    is_run(new, Allowed::NoComment)
}
