//! Edits of an open text, by a pointer as bytes.
ghost use Rattle.std.specs.Prelude.{◌≡◌, false, IfErr, IfOk, IfSome, IsUtf8, MatchOption, OnErr, OnOk, ⊤};
ghost use Rattle.jsonptr_text_edit.specs.declared.edit.Edit.{Edit as AskedEdit};
ghost use Rattle.jsonptr_c_calls.specs.OpenTexts.{Assigns, Deletes, IsEdited, IsNotAt, IsNotEdited, IsSame, LacksEdit, Patches, Renames};

use crate::call_error::CallError;
use crate::change::Change;
use crate::open_text::OpenText;
use crate::pointers::parse;
use jsonptr_comments_edit::Edit;
use jsonptr_text_value::{PatchText, RawValue};

/// Assigns the value at the location that the pointer identifies.
///
/// # Errors
///
/// Those of [`parse`](crate::pointers::parse), and of [`OpenText::edit`]. The text is unchanged.
pub fn assign(
    text: &mut OpenText,
    pointer: &[u8],
    raw: RawValue,
    may_reformat: bool,
) -> Result<Change, CallError>
    ensures edited { IfOk result (λ change. (edit : AskedEdit) × Assigns pointer.now raw edit
        × IsEdited text.old edit text.new change) }
    ensures allowed { may_reformat ≡ false → IfOk result (λ change. change.is_reformatted ≡ false) }
    ensures utf8 { OnOk result (IsUtf8 pointer.now) }
    ensures unchanged { OnErr result (IsSame text.old text.new) }
    ensures refused { IfErr result (IsNotAt may_reformat text.old pointer.now (Assigns pointer.now raw)) }
{
    let edit = Edit::Assign(parse(pointer)?, raw);
    match text.edit(&edit, may_reformat) {
        Ok(made) => match made {
            Some(change) => Ok(change),
            None => unreachable!(),
        },
        Err(error) => Err(error),
    }
}

/// Deletes the value that the pointer resolves to. Returns `None` if there is none.
///
/// # Errors
///
/// Those of [`parse`](crate::pointers::parse), and of [`OpenText::edit`]. The text is unchanged.
pub fn delete(
    text: &mut OpenText,
    pointer: &[u8],
    may_reformat: bool,
) -> Result<Option<Change>, CallError>
    ensures edited { IfOk result (λ o. IfSome o (λ change. (edit : AskedEdit) × Deletes pointer.now edit
        × IsEdited text.old edit text.new change)) }
    ensures allowed { may_reformat ≡ false
        → IfOk result (λ o. IfSome o (λ change. change.is_reformatted ≡ false)) }
    ensures nothing { IfOk result (λ o. MatchOption o ((edit : AskedEdit) × Deletes pointer.now edit
        × LacksEdit text.old edit × IsSame text.old text.new) (λ _. ⊤)) }
    ensures utf8 { OnOk result (IsUtf8 pointer.now) }
    ensures unchanged { OnErr result (IsSame text.old text.new) }
    ensures refused { IfErr result (IsNotAt may_reformat text.old pointer.now (Deletes pointer.now)) }
{
    let edit = Edit::Delete(parse(pointer)?);
    text.edit(&edit, may_reformat)
}

/// Renames the member that the pointer resolves to.
///
/// # Errors
///
/// Those of [`parse`](crate::pointers::parse), and of [`OpenText::edit`]. The text is unchanged.
pub fn rename(
    text: &mut OpenText,
    pointer: &[u8],
    key: &str,
    may_reformat: bool,
) -> Result<Change, CallError>
    ensures edited { IfOk result (λ change. (edit : AskedEdit) × Renames pointer.now key.now edit
        × IsEdited text.old edit text.new change) }
    ensures allowed { may_reformat ≡ false → IfOk result (λ change. change.is_reformatted ≡ false) }
    ensures utf8 { OnOk result (IsUtf8 pointer.now) }
    ensures unchanged { OnErr result (IsSame text.old text.new) }
    ensures refused { IfErr result
        (IsNotAt may_reformat text.old pointer.now (Renames pointer.now key.now)) }
{
    let edit = Edit::Rename(parse(pointer)?, key);
    match text.edit(&edit, may_reformat) {
        Ok(made) => match made {
            Some(change) => Ok(change),
            None => unreachable!(),
        },
        Err(error) => Err(error),
    }
}

/// Applies the patch, whole or not at all.
///
/// # Errors
///
/// Those of [`OpenText::edit`]. The text is unchanged.
pub fn patch(text: &mut OpenText, patch: PatchText, may_reformat: bool) -> Result<Change, CallError>
    ensures edited { IfOk result (λ change. (edit : AskedEdit) × Patches patch edit
        × IsEdited text.old edit text.new change) }
    ensures allowed { may_reformat ≡ false → IfOk result (λ change. change.is_reformatted ≡ false) }
    ensures unchanged { OnErr result (IsSame text.old text.new) }
    ensures refused { IfErr result (λ e. (edit : AskedEdit) × Patches patch edit
        × IsNotEdited may_reformat text.old edit e) }
{
    let edit = Edit::Patch(patch);
    match text.edit(&edit, may_reformat) {
        Ok(made) => match made {
            Some(change) => Ok(change),
            None => unreachable!(),
        },
        Err(error) => Err(error),
    }
}
