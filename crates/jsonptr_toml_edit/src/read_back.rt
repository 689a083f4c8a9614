//! Reading a text, and comparing what it contains with a value.
ghost use Rattle.std.specs.Prelude.{◌≡◌, ◌↔◌, Some, IsTrue, IfOk};
ghost use Rattle.toml.specs.View.{view};
ghost use Rattle.toml.specs.Parse.{parse_value};
ghost use Rattle.jsonptr_toml.specs.InToml.{ReadsAsToml, HasDeepValues};

use crate::same_toml::is_same;
use jsonptr_toml::ReadTomlError;
use jsonptr_toml::depth::{MAX_TOML_DEPTH, table_nests_within};
use jsonptr_toml::document::read_toml;
use std::alloc::{AllocError, Global};
use toml::Value;

/// Returns whether the text is a document of the value.
///
/// # Errors
///
/// [`AllocError`] if an allocation fails.
pub fn is_document_of(alloc: Global, text: &str, want: &Value) -> Result<bool, AllocError>
    ensures { IfOk result (λ holds. IsTrue holds → ReadsAsToml text.now (view want.now)) }
{
    match read_toml(alloc, text) {
        Ok(value) => Ok(is_same(&value, want)),
        Err(ReadTomlError::Memory(error)) => Err(error),
        Err(_) => Ok(false),
    }
}

/// Returns whether the text is one of the value.
///
/// # Errors
///
/// [`AllocError`] if an allocation fails.
pub fn is_text_of(alloc: Global, text: &str, want: &Value) -> Result<bool, AllocError>
    ensures { IfOk result (λ holds. IsTrue holds → parse_value text.now ≡ Some (view want.now)) }
{
    match Value::from_str(alloc, text) {
        Ok(value) => Ok(is_same(&value, want)),
        Err(error) if error.is_memory() => Err(AllocError),
        Err(_) => Ok(false),
    }
}

/// Returns whether the value is a table whose values nest deeper than 80.
pub fn has_deep_values(value: &Value) -> bool
    ensures { IsTrue result ↔ HasDeepValues (view value.now) }
{
    match value {
        Value::Table(table) => !table_nests_within(table, MAX_TOML_DEPTH),
        _ => false,
    }
}
