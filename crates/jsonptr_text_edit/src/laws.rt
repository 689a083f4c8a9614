//! Laws of edits of a text. Each law is the contract of a function that does nothing.
ghost use Rattle.std.specs.Prelude.{◌≡◌};
ghost use Rattle.serde_json.specs.Read.{read};
ghost use Rattle.jsonptr.specs.Text.{Text};
ghost use Rattle.jsonptr_text_edit.specs.Edits.{EditsText};
ghost use Rattle.jsonptr_text_edit.specs.Errors.{IsEditError};
ghost use Rattle.jsonptr_text_edit.specs.Outcomes.{EditHasSortedKeys, IsMemory};
ghost use Rattle.jsonptr_text_edit.specs.declared.edit.Edit.{Edit};
ghost use Rattle.jsonptr_text_edit.specs.declared.edit_error.EditError.{EditError};

use jsonptr_laws::assign::assign_law;
use jsonptr_patch::laws::operation::comparing_operation_law;
use jsonptr_patch::laws::patch::comparing_patch_law;

/// States that an edit of a text has one outcome, except that an allocation may fail: one document, or one
/// error.
///
/// - All texts that the edit makes of a text are read as the same document (`one_document`).
/// - An edit that is possible has no error (`not_both`). The keys of the values of a patch are sorted, as
///   those of each value that is read.
/// - An edit has at most one error, with one value in each of its fields (`one_error`).
pub fn edit_law()
    ensures one_document { (old new other : Text) (edit : Edit)
        → EditsText old edit new → EditsText old edit other → read new ≡ read other }
    ensures not_both { (old new : Text) (edit : Edit) (e : EditError) → EditHasSortedKeys edit
        → EditsText old edit new → IsEditError old edit e → IsMemory e }
    ensures one_error { (old : Text) (edit : Edit) (e f : EditError)
        → (IsMemory e → ⊥) → (IsMemory f → ⊥)
        → IsEditError old edit e → IsEditError old edit f → e ≡ f }
{
    assign_law();
    comparing_operation_law();
    comparing_patch_law();
}
