//! The TOML value that a JSON value is.
ghost use Rattle.std.specs.Prelude.{◌≡◌, IfOk, option_map};
ghost use Rattle.serde_json.specs.View.{view as json_view, items_view as json_items_view, members_view as json_members_view, number_view};
ghost use Rattle.toml.specs.View.{view as toml_view, array_view, table_view};
ghost use Rattle.jsonptr_c_calls.specs.TomlValues.{toml_items_of, toml_members_of, toml_number_of, toml_value_of};

use serde_json::{Map, Number, Value};
use std::alloc::{AllocError, Global};
use toml::Value as TomlValue;
use toml::value::{Array, Table};

/// Returns the TOML value that the JSON value is. Returns `None` if it is null or an integer that TOML has
/// not, which is one beyond 64 bits with a sign, or contains one of these.
///
/// The stack is in proportion to the depth of the value.
///
/// # Errors
///
/// [`AllocError`] if an allocation fails.
///
/// # Examples
///
/// ```rust
/// let value = serde_json::from_str(alloc, "{\"b\": [1, 2.50], \"a\": true}")?;
/// let made = toml_value_of(alloc, &value)?.ok_or("a value of TOML")?;
/// assert_eq!(rt; made.to_string(alloc)?.as_str(), "{ a = true, b = [1, 2.5] }");
/// assert!(rt; toml_value_of(alloc, &Value::Null)?.is_none());
/// ```
#[cycle(converting)]
pub fn toml_value_of(alloc: Global, value: &Value) -> Result<Option<TomlValue>, AllocError>
    ensures { IfOk result (λ o. option_map toml_view o ≡ toml_value_of (json_view value.now)) }
{
    match value {
        Value::Null => Ok(None),
        Value::Bool(truth) => Ok(Some(TomlValue::Boolean(*truth))),
        Value::Number(number) => Ok(toml_number_of(*number)),
        Value::String(text) => Ok(Some(TomlValue::String(text.clone()?))),
        Value::Array(elements) => match toml_array_of(alloc, elements)? {
            Some(made) => Ok(Some(TomlValue::Array(made))),
            None => Ok(None),
        },
        Value::Object(members) => match toml_table_of(alloc, members)? {
            Some(made) => Ok(Some(TomlValue::Table(made))),
            None => Ok(None),
        },
    }
}

/// Returns the TOML value that the number is, or `None` if it is an integer that TOML has not.
fn toml_number_of(number: Number) -> Option<TomlValue>
    ensures { option_map toml_view result ≡ toml_number_of (number_view number) }
{
    if number.is_f64() {
        return match number.as_f64() {
            Some(float) => Some(TomlValue::Float(float)),
            None => None,
        };
    }
    match number.as_i64() {
        Some(integer) => Some(TomlValue::Integer(integer)),
        None => None,
    }
}

/// Returns the TOML array that the elements are, or `None` if TOML has no such element.
///
/// # Errors
///
/// [`AllocError`] if an allocation fails.
#[cycle(converting)]
fn toml_array_of(alloc: Global, elements: &Vec<Value>) -> Result<Option<Array>, AllocError>
    ensures { IfOk result
        (λ o. option_map array_view o ≡ toml_items_of (json_items_view elements.now.items)) }
{
    let mut made = Vec::with_capacity(alloc, elements.len())?;
    for element in elements {
        let Some(value) = toml_value_of(alloc, element)? else {
            return Ok(None);
        };
        made.push(value)?;
    }
    Ok(Some(made))
}

/// Returns the TOML table that the members are, or `None` if TOML has no such member.
///
/// # Errors
///
/// [`AllocError`] if an allocation fails.
#[cycle(converting)]
fn toml_table_of(alloc: Global, members: &Map<String, Value>) -> Result<Option<Table>, AllocError>
    ensures { IfOk result
        (λ o. option_map table_view o ≡ toml_members_of (json_members_view members.now.entries)) }
{
    let mut made = Table::new(alloc);
    for (key, member) in members.iter() {
        let Some(value) = toml_value_of(alloc, member)? else {
            return Ok(None);
        };
        drop(made.insert(key.clone()?, value)?);
    }
    Ok(Some(made))
}
