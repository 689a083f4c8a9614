//! Laws of the bytes of an edit. Each law is the contract of a function that does nothing.
ghost use Rattle.std.specs.Prelude.{◌↔◌, List, [], Option};
ghost use Rattle.serde_json.specs.Data.{Data};
ghost use Rattle.jsonptr.specs.Text.{Text};
ghost use Rattle.jsonptr_text_resolve.specs.InText.{FindsInText};
ghost use Rattle.jsonptr_io.specs.Lines.{IsOneLine};
ghost use Rattle.jsonptr_text_piece.specs.Spacing.{IsBlank, Splices};
ghost use Rattle.jsonptr_text_step.specs.Bytes.{AddsPiece, CutsBytes, ReplacesBytes};
ghost use Rattle.jsonptr_text_step.specs.PatchInText.{PatchBytes};
ghost use Rattle.jsonptr_text_value.specs.Operations.{operations_in};
ghost use Rattle.jsonptr_text_step.specs.RawPatching.{RawPatchBytes};
ghost use Rattle.jsonptr_text_value.specs.declared.raw_operation.RawOperation.{RawOperation};

/// States that the bytes of an edit can be put back.
///
/// - If a value is replaced, the old value and its old text can replace the new one: that is the old
///   text again, byte for byte (`replaced`).
/// - The text of a child that was added can be cut out. What is left is the old text, except for white
///   space (`added`).
/// - The text of a child that was cut out can be added: that is the old text again (`cut`).
pub fn undo_law()
    ensures replaced { (old new : Text) (tokens : List Text) (e : Data)
        (h : ReplacesBytes old new tokens e)
        → FindsInText new tokens e → ReplacesBytes new old tokens h.value }
    ensures added { (old new : Text) (tokens : List Text) (key : Option Text) (e : Data)
        → AddsPiece old new tokens key e
        → (left blank : Text) × CutsBytes new left tokens key e × IsBlank blank × Splices old left blank [] }
    ensures cut { (old new : Text) (tokens : List Text) (key : Option Text) (v : Data)
        → CutsBytes old new tokens key v → AddsPiece new old tokens key v }
{}

/// States that a text of one line in which a piece is replaced is one line exactly if the new piece
/// has no line feed.
pub fn line_law()
    ensures { (old new middle piece : Text)
        → Splices old new middle piece → IsOneLine old → (IsOneLine new ↔ IsOneLine piece) }
{}

/// States that operations with the texts of their values change the bytes that the operations alone say.
pub fn raw_patch_law()
    ensures { (old new : Text) (rs : List RawOperation)
        → RawPatchBytes old rs new → PatchBytes old (operations_in rs) new }
{}
