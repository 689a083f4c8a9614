//! A TOML document as JSON.

use crate::program_error::ProgramError;
use crate::shown::shown;
use jptr_tasks::exit_status::BAD_INPUT;
use jptr_tasks::layout::Layout;
use jptr_tasks::paths::built_text;
use serde_json::Value;
use std::alloc::{AllocError, Global};

/// Returns the JSON text of the TOML document with this name, which has these lines for all its nodes.
///
/// Dates and times are strings. Fails for a float that is no number of JSON.
pub fn json_of(alloc: Global, name: &str, lines: &str) -> Result<String, ProgramError> {
    let mut json = String::new(alloc);
    for line in lines.lines() {
        push_line(alloc, name, line, &mut json)?;
    }
    match built_text(alloc, json.as_bytes(), Layout::Compact) {
        Ok(text) => Ok(text),
        Err(error) => Err(ProgramError::of_error(alloc, name, "", error)),
    }
}

/// Appends a line with its value as JSON.
fn push_line(alloc: Global, name: &str, line: &str, json: &mut String) -> Result<(), ProgramError> {
    let (pointer, value) = line.split_once('\t').unwrap_or((line, ""));
    let Some(value) = json_value(alloc, value)? else {
        return Err(not_finite(alloc, name, pointer));
    };
    json.push_str(pointer)?;
    json.push('\t')?;
    json.push_str(value.as_str())?;
    json.push('\n')?;
    Ok(())
}

/// Returns the JSON text of the TOML value with this text, or `None` if it has none.
fn json_value(alloc: Global, text: &str) -> Result<Option<String>, ProgramError> {
    match toml::Value::from_str(alloc, text) {
        Ok(value) => Ok(json_text(alloc, text, &value)?),
        Err(error) if error.is_memory() => Err(ProgramError::Memory),
        // A string of several lines is listed as JSON.
        Err(_) => Ok(Some(String::from_str(alloc, text)?)),
    }
}

/// Returns the JSON text of the TOML value, which has this text, or `None` if it has none.
fn json_text(alloc: Global, text: &str, value: &toml::Value) -> Result<Option<String>, AllocError> {
    if let Some(string) = value.as_str() {
        return Ok(Some(json_string(alloc, string)?));
    }
    if value.is_datetime() {
        return Ok(Some(json_string(alloc, text)?));
    }
    // Of the floats, only infinities and what is no number have this letter.
    if value.is_float() && text.contains('n') {
        return Ok(None);
    }
    Ok(Some(String::from_str(alloc, text)?))
}

/// Returns the text as a JSON string.
fn json_string(alloc: Global, text: &str) -> Result<String, AllocError> {
    Value::String(String::from_str(alloc, text)?).to_string(alloc)
}

/// Returns the error of a float that is no number of JSON.
fn not_finite(alloc: Global, name: &str, pointer: &str) -> ProgramError {
    let message = match shown(alloc, pointer) {
        Ok(pointer) => format!(in alloc; "the float at {pointer} is no number of JSON"),
        Err(error) => Err(error),
    };
    ProgramError::of_message(alloc, BAD_INPUT, name, message)
}
