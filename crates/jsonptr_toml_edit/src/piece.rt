//! The texts that edits put in. These are hints: no contract says that they are right.
use crate::alone::empty_table;
use jsonptr::{Assign, Fault, Pointer};
use std::alloc::{AllocError, Global};
use toml::ser::Error;
use toml::{Value, table_to_string};

/// Returns headers and pairs that hold the value at the keys, with the line break.
///
/// # Errors
///
/// [`AllocError`] if an allocation fails.
pub fn section_text(
    alloc: Global,
    keys: Pointer<'_>,
    value: &Value,
    newline: &str,
) -> Result<Option<String>, AllocError> {
    let mut document = empty_table(alloc);
    let value = value.clone()?;
    match document.assign(alloc, keys, value) {
        Ok(_) => {}
        Err(Fault::Refused(_)) => return Ok(None),
        Err(Fault::Memory(error)) => return Err(error),
    }
    let Value::Table(table) = &document else {
        return Ok(None);
    };
    match table_to_string(alloc, table) {
        Ok(text) => Ok(Some(with_newline(alloc, text.as_str(), newline)?)),
        Err(Error::OutOfMemory) => Err(AllocError),
        Err(Error::DateInvalid) => Ok(None),
    }
}

/// Returns the lines with the line break.
fn with_newline(alloc: Global, lines: &str, newline: &str) -> Result<String, AllocError> {
    let mut text = String::new(alloc);
    for (index, line) in lines.split('\n').enumerate() {
        if index > 0 {
            text.push_str(newline)?;
        }
        text.push_str(line)?;
    }
    Ok(text)
}

/// Returns whether the value is a table with members, or an array of tables: one that has headers where
/// its siblings have.
pub fn has_headers(value: &Value) -> bool {
    match value {
        Value::Table(table) => !table.is_empty(),
        Value::Array(elements) => {
            !elements.is_empty() && elements.iter().all(|element| element.is_table())
        }
        _ => false,
    }
}
