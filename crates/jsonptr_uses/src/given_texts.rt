//! A patch document that is applied with the texts of its values, as somebody wrote them.
ghost use Rattle.std.specs.Prelude.{List, All, IfOk, IfSome, string_bytes};
ghost use Rattle.jsonptr_text_step.specs.PatchInText.{PatchesInText};
ghost use Rattle.jsonptr_text_value.specs.Operations.{operations_in, IsGivenIn};
ghost use Rattle.jsonptr_text_step.specs.RawPatching.{RawPatchBytes};
ghost use Rattle.jsonptr_text_value.specs.declared.raw_operation.RawOperation.{RawOperation};

use jsonptr_text_edit::{Buffers, Edit, EditError, PatchText, edit_text};
use jsonptr_text_value::PatchTextError;
use jsonptr_value::if_json;
use std::alloc::{AllocError, Global};

/// Applies the patch document whose text is `given` to the text, in place. What each `add` and `replace`
/// puts there holds the tokens of its value, as `given` has them. Returns `None` if that is not possible.
///
/// # Errors
///
/// [`AllocError`] if an allocation fails.
pub fn patched_as_written(
    buffers: &mut Buffers,
    text: &str,
    given: &str,
) -> Result<Option<String>, AllocError>
    ensures { IfOk result (λ new. IfSome new (λ s. (rs : List RawOperation)
        × All (IsGivenIn given.now) rs
        × PatchesInText text.now (operations_in rs) (string_bytes s)
        × RawPatchBytes text.now rs (string_bytes s))) }
{
    let Some(patch) = as_written(buffers.alloc, given)? else {
        return Ok(None);
    };
    match edit_text(buffers, text, &Edit::Patch(patch)) {
        Ok(edited) => Ok(edited.in_place()),
        Err(EditError::Memory(error)) => Err(error),
        Err(_error) => Ok(None),
    }
}

/// Returns the patch with this text, and with the texts of its values, or `None` if it is not a patch.
fn as_written(alloc: Global, given: &str) -> Result<Option<PatchText>, AllocError>
    ensures { IfOk result (λ found. IfSome found
        (λ p. All (IsGivenIn given.now) p.operations.items)) }
{
    let Some(document) = if_json(jsonptr_value::read(alloc, given))? else {
        return Ok(None);
    };
    match PatchText::of(alloc, given, document) {
        Ok(patch) => Ok(Some(patch)),
        Err(PatchTextError::Memory(error)) => Err(error),
        Err(_error) => Ok(None),
    }
}
