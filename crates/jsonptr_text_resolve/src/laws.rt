//! Laws of resolving in text. Each law is the contract of a function that does nothing.
//!
//! - [`format`]: texts that are laid out anew, and the outcomes of a pointer in a text.
ghost use Rattle.std.specs.Prelude.{◌≡◌, ◌↔◌, ℕ, ◌<◌, ◌^◌, List, Some};
ghost use Rattle.serde_json.specs.Data.{Data};
ghost use Rattle.serde_json.specs.Read.{read};
ghost use Rattle.jsonptr_text_search.specs.Search.{Choice, follow, Stops};
ghost use Rattle.jsonptr_text_search.specs.declared.outcome.Kind.{Kind};
ghost use Rattle.jsonptr_text_search.specs.declared.outcome.Kind.TheVariants.{Array};
ghost use Rattle.jsonptr.specs.Text.{Text};
ghost use Rattle.jsonptr.specs.Json.{nodes, FindsValue};
ghost use Rattle.jsonptr.specs.Resolve.{Refuses};
ghost use Rattle.jsonptr.specs.declared.resolve.Error.{Error};
ghost use Rattle.jsonptr_text_resolve.specs.InText.{FindsInText, RefusesInText};
ghost use Rattle.jsonptr_text_resolve.specs.Selecting.{AreChoicesOf, StopsLeft};

pub mod format;

/// States that a pointer is resolved in a text as in the document that `serde_json` reads from it.
///
/// `Value::from_str` returns the document `d` of the premise. `Pointer::resolve` returns the value
/// of [`resolve_in_text`](crate::resolve_in_text) there, and fails with its error.
pub fn in_text_law()
    ensures value { (text : Text) (tokens : List Text) (d v : Data)
        → read text ≡ Some d → (FindsInText text tokens v ↔ FindsValue d tokens v) }
    ensures error { (text : Text) (tokens : List Text) (d : Data) (e : Error)
        → read text ≡ Some d → (RefusesInText text tokens e ↔ Refuses (nodes d) tokens e) }
{}

/// States that selectors that are made of tokens lead to the value that the tokens identify, and
/// stop where the evaluation of the tokens stops.
pub fn search_law()
    ensures found { (d e : Data) (tokens : List Text) (cs : List Choice)
        → AreChoicesOf tokens cs → follow cs d ≡ Some e → FindsValue d tokens e }
    ensures stops { (d : Data) (tokens : List Text) (cs : List Choice) (left : ℕ) (k : Kind)
        → AreChoicesOf tokens cs
        → ((len : ℕ) → k ≡ Array len → len < 2 ^ 64)
        → Stops d cs left k
        → StopsLeft d tokens left k }
{}
