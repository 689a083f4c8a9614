//! Reading and printing a TOML document.
ghost use Rattle.std.specs.Prelude.{◌≡◌, ◌<◌, ◌≤◌, IfOk, IfErr, string_bytes};
ghost use Rattle.toml.specs.Data.{members_depth, table as a_table};
ghost use Rattle.toml.specs.View.{view, table_view};
ghost use Rattle.toml_parser.specs.Strings.{recursion_limit as max_depth};
ghost use Rattle.jsonptr_toml.specs.declared.error.ReadTomlError.TheVariants.{DocumentTooDeep};
ghost use Rattle.jsonptr_toml.specs.InToml.{ReadsAsToml, PrintsAs, IsReadTomlError, IsPrintTomlError};

use crate::depth::{MAX_TOML_DEPTH, table_nests_within};
use crate::error::{PrintTomlError, ReadTomlError};
use jsonptr_value::discard;
use std::alloc::{AllocError, Global};
use toml::ser::Error;
use toml::{Table, Value, table_from_str, table_to_string};

/// Reads the text as a table.
///
/// # Errors
///
/// - [`ReadTomlError::NotToml`] if the text is not TOML.
/// - [`ReadTomlError::DocumentTooDeep`] if the values of the document nest deeper than 80.
/// - [`ReadTomlError::Memory`] if an allocation fails.
///
/// # Examples
///
/// ```rust
/// let document = read_toml(alloc, "[server]\nport = 80\n")?;
/// assert_eq!(rt; document.to_string(alloc)?.as_str(), "{ server = { port = 80 } }");
/// let error = read_toml(alloc, "port = ").err().ok_or("an error")?;
/// assert_eq!(rt; error.to_string(alloc)?.as_str(), "text is not TOML");
/// ```
pub fn read_toml(alloc: Global, text: &str) -> Result<Value, ReadTomlError>
    ensures document { IfOk result (λ v. ReadsAsToml text.now (view v)) }
    ensures refused { IfErr result (IsReadTomlError text.now) }
{
    match table_from_str(alloc, text) {
        Ok(table) => shallow(table),
        Err(error) if error.is_memory() => Err(ReadTomlError::Memory(AllocError)),
        Err(_) => Err(ReadTomlError::NotToml),
    }
}

/// Returns the table as a value.
///
/// # Errors
///
/// [`ReadTomlError::DocumentTooDeep`] if its values nest deeper than 80.
fn shallow(table: Table) -> Result<Value, ReadTomlError>
    ensures document { IfOk result (λ v. (view v ≡ a_table (table_view table))
        × (members_depth (table_view table) ≤ max_depth)) }
    ensures refused { IfErr result
        (λ e. (e ≡ DocumentTooDeep) × (max_depth < members_depth (table_view table))) }
{
    let is_shallow = table_nests_within(&table, MAX_TOML_DEPTH);
    let value = Value::Table(table);
    if is_shallow {
        return Ok(value);
    }
    discard(value);
    Err(ReadTomlError::DocumentTooDeep)
}

/// Prints the value as a document, and drops it.
///
/// # Errors
///
/// - [`PrintTomlError::TooDeep`] if the values of the table nest deeper than 80.
/// - [`PrintTomlError::NoText`] if the value is not a table, or has a date-time that TOML has no text for.
/// - [`PrintTomlError::Memory`] if an allocation fails.
///
/// # Examples
///
/// ```rust
/// let document = toml::Value::from_str(alloc, "{ server = { port = 80 } }")?;
/// let text = print_toml(alloc, document)?;
/// assert_eq!(rt; text.as_str(), "[server]\nport = 80\n");
/// assert!(rt; print_toml(alloc, 1.into()).is_err());
/// ```
pub fn print_toml(alloc: Global, value: Value) -> Result<String, PrintTomlError>
    ensures printed { IfOk result (λ s. PrintsAs (view value) (string_bytes s)) }
    ensures refused { IfErr result (IsPrintTomlError (view value)) }
{
    match value {
        Value::Table(table) => print_table(alloc, table),
        _ => Err(PrintTomlError::NoText),
    }
}

/// Prints the table as a document, and drops it.
fn print_table(alloc: Global, table: Table) -> Result<String, PrintTomlError>
    ensures printed { IfOk result (λ s. PrintsAs (a_table (table_view table)) (string_bytes s)) }
    ensures refused { IfErr result (IsPrintTomlError (a_table (table_view table))) }
{
    if !table_nests_within(&table, MAX_TOML_DEPTH) {
        discard(Value::Table(table));
        return Err(PrintTomlError::TooDeep);
    }
    match table_to_string(alloc, &table) {
        Ok(text) => Ok(text),
        Err(Error::OutOfMemory) => Err(PrintTomlError::Memory(AllocError)),
        Err(Error::DateInvalid) => Err(PrintTomlError::NoText),
    }
}
