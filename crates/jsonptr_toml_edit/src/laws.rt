//! Laws of edits in TOML text. Each law is the contract of a function that does nothing.
ghost use Rattle.std.specs.Prelude.{◌≡◌, List};
ghost use Rattle.std.specs.declared.convert.Infallible.{Infallible};
ghost use Rattle.toml.specs.Data.{Data};
ghost use Rattle.jsonptr.specs.Text.{Text};
ghost use Rattle.jsonptr.specs.TomlValue.{HasSortedKeys};
ghost use Rattle.jsonptr.specs.declared.assign.Error.{Error};
ghost use Rattle.jsonptr_toml.specs.declared.error.EditTomlError.{EditTomlError};
ghost use Rattle.jsonptr_toml.specs.InToml.{LacksInToml};
ghost use Rattle.jsonptr_toml_edit.specs.EditInToml.{DeletesInToml};
ghost use Rattle.jsonptr_toml_edit.specs.Bytes.{MakeAlone, IsTomlContainer, IsWholeText, ReplacesOne};
ghost use Rattle.jsonptr_toml_edit.specs.Failing.{IsAssignInTomlError, IsDeleteInTomlError, IsTomlOutOfMemory, AreOneError};
ghost use Rattle.jsonptr_toml_edit.specs.TomlEditErrors.{IsTomlEditError};
ghost use Rattle.jsonptr_toml_edit.specs.TomlOutcomes.{TomlEditHasSortedKeys, IsTomlMemory};
ghost use Rattle.jsonptr_toml_edit.specs.declared.edit.TomlEdit.{TomlEdit};
ghost use Rattle.jsonptr_toml_edit.specs.declared.edit_error.TomlEditError.{TomlEditError};

use jsonptr_laws::assign::assign_law;
use jsonptr_patch::laws::operation::comparing_operation_law;

/// States that an edit of a text has at most one error, with one value in each of its fields, except that
/// an allocation may fail (`edit`). The keys of a value that is assigned are sorted, as those of each value
/// that is read are.
///
/// The other clauses say it of the parts of that error. A text, a pointer and a value have at most one
/// (`assign`, `delete`). If the pointer of a deletion resolves to nothing, there is no other error
/// (`lacking`), and no new text either (`not_both`).
pub fn one_error_law()
    ensures edit { (old : Text) (edit : TomlEdit) (e f : TomlEditError) → TomlEditHasSortedKeys edit
        → (IsTomlMemory e → ⊥) → (IsTomlMemory f → ⊥)
        → IsTomlEditError old edit e → IsTomlEditError old edit f → e ≡ f }
    ensures assign { (text : Text) (ts : List Text) (v : Data) (e f : EditTomlError Error)
        → HasSortedKeys v → IsAssignInTomlError text ts v e → IsAssignInTomlError text ts v f
        → AreOneError e f }
    ensures delete { (text : Text) (ts : List Text) (e f : EditTomlError Infallible)
        → IsDeleteInTomlError text ts e → IsDeleteInTomlError text ts f → AreOneError e f }
    ensures lacking { (text : Text) (ts : List Text) (e : EditTomlError Infallible)
        → LacksInToml text ts → IsDeleteInTomlError text ts e → IsTomlOutOfMemory e }
    ensures not_both { (text new : Text) (ts : List Text)
        → LacksInToml text ts → DeletesInToml text ts new → ⊥ }
{
    assign_law();
    comparing_operation_law();
}

/// States that headers and dotted keys make tables and arrays alone (`made`). So of each other value a
/// replacement in place replaces exactly the text (`own_text`).
pub fn own_text_law()
    ensures made { (ts : List Text) (w : Data) (t : Text) → MakeAlone ts w t → IsTomlContainer w }
    ensures own_text { (ts : List Text) (w v : Data) (middle piece before after : Text)
        → (IsTomlContainer w → ⊥) → ReplacesOne ts w v middle piece before after
        → IsWholeText w middle before after }
{}
