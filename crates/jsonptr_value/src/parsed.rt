//! Parsed documents have sorted keys.
//!
//! The clauses of sessions, of undo and of patches that say more of values with sorted keys have
//! them as a premise. These laws state it for each value that `serde_json` or `toml` parses. A proof
//! finds the same lemmas in `jsonptr`, as `ascends_read` and `ascends_read_document`.
ghost use Rattle.std.specs.Prelude.{◌≡◌, Some};
ghost use Rattle.serde_json.specs.Data.{Data};
ghost use Rattle.serde_json.specs.Read.{read as read_json};
ghost use Rattle.toml.specs.Data.{Data as TomlData, Members, table};
ghost use Rattle.toml.specs.Parse.{parse_document, parse_value};
ghost use Rattle.jsonptr_grammar.specs.Text.{Text};
ghost use Rattle.jsonptr_tree.specs.Json.{HasSortedKeys};
ghost use Rattle.jsonptr_tree.specs.TomlValue.{HasSortedKeys as TomlHasSortedKeys};

/// States that a JSON value that `serde_json` parses has sorted keys: those of each object in it
/// are in ascending order. The contracts of `Value::from_str` and `Value::from_slice` say that they
/// return such a value.
pub fn json_parsed_law()
    ensures { (text : Text) (d : Data) → read_json text ≡ Some d → HasSortedKeys d }
{}

/// States that a TOML value and a TOML document that `toml` parses have sorted keys: those of each
/// table in them are in ascending order. The contracts of `Value::from_str`, `table_from_str` and
/// `table_from_slice` say that they return such values.
pub fn toml_parsed_law()
    ensures value { (text : Text) (d : TomlData)
        → parse_value text ≡ Some d → TomlHasSortedKeys d }
    ensures document { (text : Text) (ms : Members)
        → parse_document text ≡ Some ms → TomlHasSortedKeys (table ms) }
{}
