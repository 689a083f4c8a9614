//! Two edits in the text of one document, as in a file that people keep by hand.
ghost use Rattle.std.specs.Prelude.{IfOk};
ghost use Rattle.jsonptr_text_edit.specs.Edited.{text_of, IfInPlace};
ghost use Rattle.jsonptr_uses.specs.EditsInText.{EditsBoth, EditBothBytes};

use jsonptr_text_edit::{Buffers, Edit, EditError, Edited, edit_text};

/// Makes two edits in the text: the second one in the text that the first one leaves.
///
/// The new text reads as the document after both edits. If both are in place, so is the result: each
/// changed the bytes at its own location, and all others are those of the text.
///
/// # Errors
///
/// Those of [`edit_text`], of the first edit or of the second.
pub fn edit_both(
    buffers: &mut Buffers,
    text: &str,
    first: &Edit<'_>,
    second: &Edit<'_>,
) -> Result<Edited, EditError>
    ensures meaning { IfOk result (λ e. EditsBoth text.now first.now second.now (text_of e)) }
    ensures bytes { IfOk result (IfInPlace (EditBothBytes text.now first.now second.now)) }
{
    match edit_text(buffers, text, first)? {
        Edited::InPlace(mid) => edit_text(buffers, mid.as_str(), second),
        Edited::Reprinted(mid) => {
            let last = edit_text(buffers, mid.as_str(), second)?;
            Ok(Edited::Reprinted(last.or_reprinted()))
        }
    }
}
