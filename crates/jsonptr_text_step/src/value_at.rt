//! The text of a value that is copied or moved.
ghost use Rattle.std.specs.Prelude.{IfOk, IfSome, string_bytes};
ghost use Rattle.jsonptr.specs.Pointer.{tokens};
ghost use Rattle.jsonptr_text_step.specs.PrivateOperating.{FindsText};

use jsonptr::Pointer;
use jsonptr_text_check::lead::{ValueAt, leads_to};
use jsonptr_text_layout::layout::text_at;
use jsonptr_text_layout::place::place_at;
use jsonptr_text_layout::value_text::ValueText;
use jsonptr_text_piece::buffers::Buffers;
use jsonptr_text_piece::span::slice;
use jsonptr_text_resolve::selectors::selectors_of;
use std::alloc::AllocError;

/// Returns the text of the value that the pointer resolves to, with its numbers and strings as they
/// are there. Returns `None` if that is not possible.
///
/// # Errors
///
/// [`AllocError`] if an allocation fails.
pub fn value_at(
    buffers: &mut Buffers,
    text: &str,
    pointer: Pointer<'_>,
) -> Result<Option<ValueText>, AllocError>
    ensures { IfOk result (λ found. IfSome found
        (λ t. FindsText text.now (tokens pointer.entry) (string_bytes t.flat))) }
{
    let alloc = buffers.alloc;
    let selectors = selectors_of(alloc, pointer)?;
    let Some(place) = place_at(buffers, text, &selectors)? else {
        return Ok(None);
    };
    let printed = text_at(alloc, text, place.value)?;
    let target = ValueAt {
        selectors: &selectors,
        positions: &place.positions,
        value: printed.flat.as_str(),
        tail: slice(text, place.value.from, text.len()),
    };
    if leads_to(buffers, text, target)? {
        Ok(Some(printed))
    } else {
        Ok(None)
    }
}
