//! Laws of JSON and TOML values as documents.

ghost use Rattle.serde_json.specs.declared.value.Value.{Value as JsonValue};
ghost use Rattle.toml.specs.declared.value.Value.{Value as TomlValue};
ghost use Rattle.jsonptr_tree.specs.Documents.{IsDocument, json_map, json_blank, toml_map, toml_blank};

use crate::json::json_law;
use crate::toml_value::toml_law;

/// The map of each JSON or TOML value is the map of a document, and so is the map that removing the
/// root leaves.
pub fn document_law()
    ensures json { (v : JsonValue) → IsDocument (json_map v) }
    ensures json_blank { IsDocument json_blank }
    ensures toml { (v : TomlValue) → IsDocument (toml_map v) }
    ensures toml_blank { IsDocument toml_blank }
{
    json_law();
    toml_law();
}
