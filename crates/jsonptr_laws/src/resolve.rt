//! Resolving a pointer against a document (RFC 6901, sections 4 and 7).
ghost use Rattle.std.specs.Prelude.{◌≡◌, ◌⊎◌, List, IsSome, All, IsUtf8};
ghost use Rattle.serde_json.specs.View.{view};
ghost use Rattle.serde_json.specs.declared.value.Value.{Value as JsonValue};
ghost use Rattle.toml.specs.View.{view as toml_view};
ghost use Rattle.toml.specs.declared.value.Value.{Value as TomlValue};
ghost use Rattle.jsonptr.specs.Text.{Text};
ghost use Rattle.jsonptr.specs.Node.{Path, NodeMap, IsTree};
ghost use Rattle.jsonptr.specs.Following.{Finds};
ghost use Rattle.jsonptr.specs.Json.{FindsValue};
ghost use Rattle.jsonptr.specs.TomlValue.{FindsValue as FindsTomlValue};
ghost use Rattle.jsonptr.specs.Pointer.{tokens};
ghost use Rattle.jsonptr.specs.Resolve.{Refuses};
ghost use Rattle.jsonptr.specs.declared.resolve.Error.{Error};
ghost use Rattle.jsonptr.specs.Documents.{json_map, toml_map};
ghost use Rattle.jsonptr_laws.specs.OnePointer.{HasUtf8Keys, HasOnePointer};

use jsonptr::tree::json::json_law;
use jsonptr::tree::toml_value::toml_law;
use jsonptr::{Pointer, ResolveMut};
use jsonptr_document::laws::child_law;

/// States that a list of tokens in a document either resolves to exactly one map or fails with
/// exactly one error. The error is unique in all its fields. The tokens are UTF-8, as those of
/// every pointer are ([`tokens_law`]).
pub fn resolve_law()
    ensures some { (n : NodeMap) (tokens : List Text) → IsTree n → All IsUtf8 tokens
        → ((m : NodeMap) × Finds n tokens m) ⊎ ((e : Error) × Refuses n tokens e) }
    ensures not_both { (n : NodeMap) (tokens : List Text) (m : NodeMap) (e : Error)
        → Finds n tokens m → Refuses n tokens e → ⊥ }
    ensures one_found { (n : NodeMap) (tokens : List Text) (m k : NodeMap)
        → Finds n tokens m → Finds n tokens k → m ≡ k }
    ensures one { (n : NodeMap) (tokens : List Text) (e f : Error)
        → Refuses n tokens e → Refuses n tokens f → e ≡ f }
{
    child_law();
}

/// States that the tokens of a pointer are UTF-8, as its text is.
pub fn tokens_law(ptr: Pointer<'_>)
    ensures { All IsUtf8 (tokens ptr.entry) }
{
    ptr.as_str();
}

/// States that a pointer in a document either resolves to a map or fails.
pub fn pointer_law(ptr: Pointer<'_>)
    ensures { (n : NodeMap) → IsTree n
        → ((m : NodeMap) × Finds n (tokens ptr.entry) m)
        ⊎ ((e : Error) × Refuses n (tokens ptr.entry) e) }
{
    resolve_law();
    tokens_law(ptr);
}

/// States that a JSON or TOML document is unchanged when the borrow of [`ResolveMut::resolve_mut`]
/// ends, if the borrowed value is then the one that was found.
pub fn unwritten_law()
    ensures json { (d v n : JsonValue) (tokens : List Text)
        → FindsValue (view d) tokens (view v)
        → ⟦<serde_json::Value as ResolveMut>⟧.writes d tokens v n
        → view n ≡ view d }
    ensures toml { (d v n : TomlValue) (tokens : List Text)
        → FindsTomlValue (toml_view d) tokens (toml_view v)
        → ⟦<toml::Value as ResolveMut>⟧.writes d tokens v n
        → toml_view n ≡ toml_view d }
{}

/// States that each node of a JSON or TOML value has exactly one pointer (RFC 6901, section 4). So
/// has each node of any document whose path has UTF-8 keys, as the paths of both kinds of value
/// have: their keys are `String`s.
pub fn one_pointer_law()
    ensures each { (n : NodeMap) → IsTree n
        → (w : Path) → IsSome (n w) → HasUtf8Keys w → HasOnePointer n w }
    ensures json_keys { (v : JsonValue) (w : Path) → IsSome (json_map v w) → HasUtf8Keys w }
    ensures toml_keys { (v : TomlValue) (w : Path) → IsSome (toml_map v w) → HasUtf8Keys w }
    ensures json { (v : JsonValue) (w : Path)
        → IsSome (json_map v w) → HasOnePointer (json_map v) w }
    ensures toml { (v : TomlValue) (w : Path)
        → IsSome (toml_map v w) → HasOnePointer (toml_map v) w }
{
    json_law();
    toml_law();
}
