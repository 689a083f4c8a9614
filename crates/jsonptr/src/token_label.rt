//! Labels on the token of a pointer that an error identifies by its position and the offset of its
//! slash.
ghost use Rattle.std.specs.Prelude.{None, IfSome, IfOk, IsOk, MatchOption};
ghost use Rattle.jsonptr_diagnostic.specs.Diagnostic.{listed};
ghost use Rattle.jsonptr.specs.TokenLabel.{IsSpan, HasNoSpan, IsTokenLabelled};
ghost use Rattle.jsonptr.specs.Pointer.{tokens};

use crate::pointer::{Pointer, PointerBuf};
use jsonptr_base::diagnostic::Label;
use std::alloc::{AllocError, Global};
use std::fmt;

/// Returns a label with the text that `words` displays, on the token at this position. Returns
/// `None` if the token has no span.
///
/// # Errors
///
/// [`AllocError`] if an allocation fails. Without a span nothing is allocated.
pub(crate) fn token_label<W: fmt::Display>(
    alloc: Global,
    subject: &PointerBuf,
    position: usize,
    offset: usize,
    words: &W,
) -> Result<Option<Vec<Label>>, AllocError>
    ensures labels { IfSome (W.output words.now) (λ text. IfOk result (λ answer.
        IsTokenLabelled text position offset subject.now (listed answer))) }
    ensures no_memory { IfSome (W.output words.now) (λ text.
        IsTokenLabelled text position offset subject.now None → IsOk result) }
{
    let Some((start, len)) = span_of(subject.as_ptr(), position, offset) else {
        return Ok(None);
    };
    let text = words.to_string(alloc)?;
    Ok(Some(vec![in alloc; Label::new(text, start, len)]?))
}

/// Returns the span of the token: the offset at which it starts, and the length of its encoded
/// text, both in bytes.
///
/// An empty last token starts at its slash, since no byte follows. Returns `None` if there is no
/// token at this position, or if the offset after the slash does not fit `usize`.
fn span_of(pointer: Pointer<'_>, position: usize, offset: usize) -> Option<(usize, usize)>
    ensures { MatchOption result
        (HasNoSpan (tokens pointer.entry) position offset)
        (λ r. IsSpan (tokens pointer.entry) position offset r.0 r.1) }
{
    let token = pointer.get(position)?;
    let after = offset.checked_add(1)?;
    let start = if after < pointer.len() { after } else { offset };
    Some((start, token.encoded().len()))
}
