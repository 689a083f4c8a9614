//! The check that an edit replaces the value at its pointer.
ghost use Rattle.std.specs.Prelude.{◌≡◌, ◌⊎◌, ◌+◌, length, true, IfOk, IfSome, IsTrue};
ghost use Rattle.jsonptr.specs.Pointer.{tokens};
ghost use Rattle.jsonptr_text_step.specs.Locating.{IsLocated};
ghost use Rattle.jsonptr_comments_step.specs.Edits.{IsScalarText};
ghost use Rattle.jsonptr_comments_step.specs.PrivateChecking.{IsChanged, IsValueAt};

use crate::draft::{Draft, has_new_run};
use crate::part::{Part, is_run};
use jsonptr::Pointer;
use jsonptr_comments::piece::Allowed;
use jsonptr_text_piece::buffers::Buffers;
use jsonptr_text_piece::span::Span;
use jsonptr_text_step::{LocateError, Located, locate};
use std::alloc::AllocError;

/// Returns whether what is replaced is the value to which the first `depth` tokens of the pointer lead, and
/// becomes pieces without a comment. If there are more tokens, it is a scalar.
///
/// # Errors
///
/// [`AllocError`] if an allocation fails.
pub fn is_replacement(
    buffers: &mut Buffers,
    draft: &Draft<'_>,
    depth: usize,
) -> Result<bool, AllocError>
    ensures { IfOk result (λ b. IsTrue b → IsChanged draft.now.bare.now (tokens draft.now.pointer)
        draft.now.text.now draft.now.replaced.from draft.now.replaced.to
        draft.now.made.now draft.now.new.from draft.now.new.to) }
{
    let was = Part {
        text: draft.text,
        from: draft.replaced.from,
        to: draft.replaced.to,
    };
    if !is_run(was, Allowed::Any) {
        return Ok(false);
    }
    if !has_new_run(draft) {
        return Ok(false);
    }
    let Some((way, more)) = draft.pointer.split_at(depth) else {
        return Ok(false);
    };
    is_value_at(buffers, draft, way, more.is_empty())
}

/// Returns whether what is replaced is the value to which `way` leads: a scalar, unless `is_end`.
fn is_value_at(
    buffers: &mut Buffers,
    draft: &Draft<'_>,
    way: Pointer<'_>,
    is_end: bool,
) -> Result<bool, AllocError>
    ensures { IfOk result (λ b. IsTrue b → IsValueAt draft.now.bare.now (tokens way.entry) is_end
        draft.now.replaced.from draft.now.replaced.to) }
{
    let Some(located) = find_value(buffers, draft.bare, way)? else {
        return Ok(false);
    };
    if !may_be_replaced(located.value, is_end) {
        return Ok(false);
    }
    Ok(is_at(&located, draft.replaced))
}

/// Returns where the value is to which the pointer leads in the text, or `None` if it is not found.
///
/// # Errors
///
/// [`AllocError`] if an allocation fails.
pub fn find_value<'t>(
    buffers: &mut Buffers,
    text: &'t str,
    pointer: Pointer<'_>,
) -> Result<Option<Located<'t>>, AllocError>
    ensures { IfOk result (λ found. IfSome found (λ l. IsLocated text.entry.now (tokens pointer.entry)
        l.before.now l.value.now l.after.now)) }
{
    match locate(buffers, text, pointer) {
        Ok(located) => Ok(Some(located)),
        Err(LocateError::Memory(error)) => Err(error),
        Err(_error) => Ok(None),
    }
}

/// Returns whether the value is between the offsets.
pub fn is_at(located: &Located<'_>, span: Span) -> bool
    ensures { IsTrue result → (length located.now.before.now ≡ span.from)
        × (span.from + length located.now.value.now ≡ span.to) }
{
    if located.before.len() != span.from || span.to < span.from {
        return false;
    }
    located.value.len() == span.to - span.from
}

/// Returns whether a value with the text may be replaced: it is a scalar, or all tokens lead to it.
fn may_be_replaced(value: &str, is_end: bool) -> bool
    ensures { IsTrue result → (is_end ≡ true) ⊎ IsScalarText value.now }
{
    if is_end {
        return true;
    }
    is_scalar(value)
}

/// Returns whether the text of a value is that of a scalar.
fn is_scalar(value: &str) -> bool
    ensures { IsTrue result → IsScalarText value.now }
{
    let bytes = value.as_bytes();
    if bytes.is_empty() {
        return false;
    }
    bytes[0] != b'[' && bytes[0] != b'{'
}
