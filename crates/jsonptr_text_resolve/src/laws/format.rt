//! Texts that are laid out anew, and the outcomes of a pointer in a text.
ghost use Rattle.std.specs.Prelude.{◌≡◌, ◌↔◌, List, Some, None};
ghost use Rattle.serde_json.specs.Data.{Data};
ghost use Rattle.serde_json.specs.Read.{read};
ghost use Rattle.jsonptr.specs.Text.{Text};
ghost use Rattle.jsonptr.specs.declared.resolve.Error.{Error};
ghost use Rattle.jsonptr_text_resolve.specs.Format.{IsFormatted, HasTokensOf};
ghost use Rattle.jsonptr_text_resolve.specs.InText.{FindsInText, RefusesInText};
ghost use Rattle.jsonptr_text_resolve.specs.declared.format.Format.{Format};

/// States what [`format_text`](crate::format_text) keeps of a text.
///
/// - A text has one form in each format (`one`), which is its own form (`fixed`).
/// - To lay out a form anew is to lay out the text itself (`again`).
/// - Each pointer resolves to the same value in both texts, or fails with the same error (`values`,
///   `errors`).
/// - If a text is JSON, then what [`format_both`](crate::format_both) returns of it are its forms
///   (`tokens`).
pub fn format_law()
    ensures one { (format : Format) (text new other : Text)
        → IsFormatted format text new → IsFormatted format text other → new ≡ other }
    ensures fixed { (format : Format) (text new : Text)
        → IsFormatted format text new → IsFormatted format new new }
    ensures again { (first second : Format) (text new out : Text) → IsFormatted first text new
        → (IsFormatted second new out ↔ IsFormatted second text out) }
    ensures values { (format : Format) (text new : Text) (tokens : List Text) (v : Data)
        → IsFormatted format text new → (FindsInText text tokens v ↔ FindsInText new tokens v) }
    ensures errors { (format : Format) (text new : Text) (tokens : List Text) (e : Error)
        → IsFormatted format text new → (RefusesInText text tokens e ↔ RefusesInText new tokens e) }
    ensures tokens { (format : Format) (text new : Text) (d : Data)
        → read text ≡ Some d → (HasTokensOf format text new ↔ IsFormatted format text new) }
{}

/// States that a pointer in a text has one outcome: a value, an error, or a text that is not JSON.
pub fn outcome_law()
    ensures one_value { (text : Text) (tokens : List Text) (v w : Data)
        → FindsInText text tokens v → FindsInText text tokens w → v ≡ w }
    ensures not_both { (text : Text) (tokens : List Text) (v : Data) (e : Error)
        → FindsInText text tokens v → RefusesInText text tokens e → ⊥ }
    ensures value_in_json { (text : Text) (tokens : List Text) (v : Data)
        → FindsInText text tokens v → read text ≡ None → ⊥ }
    ensures error_in_json { (text : Text) (tokens : List Text) (e : Error)
        → RefusesInText text tokens e → read text ≡ None → ⊥ }
{}
