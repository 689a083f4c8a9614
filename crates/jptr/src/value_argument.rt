//! The values that are arguments: texts, those of files, and strings.

use crate::digits::check_text;
use crate::document::past_mark;
use crate::input::{is_standard, name_of, read_input, value_in};
use crate::invocation::ValueWord;
use crate::program_error::ProgramError;
use crate::shown::shown;
use jptr_tasks::exit_status::{BAD_INPUT, USAGE};
use jsonptr_text_edit::RawValue;
use jsonptr_value::if_json;
use serde_json::Value;
use simdutf8::basic::from_utf8;
use std::alloc::Global;
use std::fs;

/// The name of `--default` in errors.
const DEFAULT: &str = "--default";

/// A value that is an argument of the command line.
#[derive(Drop)]
pub enum ValueArgument<'a> {
    /// A string, which is the unchanged argument.
    String(&'a str),
    /// A text, after its name in errors: that of the argument, or of the file.
    Text(&'a str, String),
    /// A text that is the argument, where a file has this name and FILE is missing.
    FileName(&'a str),
}

impl<'a> ValueArgument<'a> {
    /// Reads the value that is put into the document in this file: a string that is the word, after `@` the
    /// text of a file, and else the text that is the word.
    pub fn read(
        rt: &HostRuntime,
        word: ValueWord<'a>,
        document: Option<&str>,
    ) -> Result<ValueArgument<'a>, ProgramError> {
        let text = word.text;
        if word.is_string {
            return Ok(ValueArgument::String(text));
        }
        match text.strip_prefix('@') {
            Some(file) => ValueArgument::read_file(rt, file, document),
            None if document.is_none() && is_file(rt, text) => Ok(ValueArgument::FileName(text)),
            None => Ok(ValueArgument::Text("JSON", String::from_str(rt.alloc(), text)?)),
        }
    }

    /// Reads the text of a file, or of standard input if the document is not read from there.
    fn read_file(
        rt: &HostRuntime,
        file: &'a str,
        document: Option<&str>,
    ) -> Result<ValueArgument<'a>, ProgramError> {
        let alloc = rt.alloc();
        if is_standard(Some(file)) && is_standard(document) {
            let message = "standard input cannot be the value and the document";
            return Err(ProgramError::new(alloc, USAGE, "JSON", message));
        }
        let name = name_of(Some(file));
        let bytes = read_input(rt, Some(file))?;
        match from_utf8(&bytes) {
            Ok(text) => Ok(ValueArgument::Text(name, String::from_str(alloc, past_mark(text))?)),
            Err(_) => Err(ProgramError::new(alloc, BAD_INPUT, name, "text is not UTF-8")),
        }
    }

    /// Returns it as a JSON value.
    pub fn json(self, alloc: Global) -> Result<Value, ProgramError> {
        match self {
            ValueArgument::String(text) => Ok(Value::String(String::from_str(alloc, text)?)),
            ValueArgument::Text(name, text) => match read(alloc, text.as_str())? {
                Some(value) => Ok(value),
                None => Err(ProgramError::of_value(alloc, name, text.as_str())),
            },
            ValueArgument::FileName(text) => match read(alloc, text)? {
                Some(value) => Ok(value),
                None => Err(missing_value(alloc, text)),
            },
        }
    }

    /// Returns it as a JSON value with its text.
    pub fn raw(self, alloc: Global) -> Result<RawValue, ProgramError> {
        match self {
            ValueArgument::String(text) => string_value(alloc, text),
            ValueArgument::Text(name, text) => match read_raw(alloc, text.as_str())? {
                Some(value) => Ok(value),
                None => Err(ProgramError::of_value(alloc, name, text.as_str())),
            },
            ValueArgument::FileName(text) => match read_raw(alloc, text)? {
                Some(value) => Ok(value),
                None => Err(missing_value(alloc, text)),
            },
        }
    }

    /// Returns it as a TOML value. Fails if a number loses digits, unless that is lossy.
    pub fn toml(self, alloc: Global, is_lossy: bool) -> Result<toml::Value, ProgramError> {
        match self {
            ValueArgument::String(text) => Ok(toml::Value::String(String::from_str(alloc, text)?)),
            ValueArgument::Text(name, text) => toml_value(alloc, name, text.as_str(), is_lossy),
            ValueArgument::FileName(text) => toml_value(alloc, "JSON", text, is_lossy),
        }
    }
}

/// Returns whether a file has this name.
fn is_file(rt: &HostRuntime, name: &str) -> bool {
    match fs::metadata(rt, name) {
        Ok(found) => found.is_file(),
        Err(_) => false,
    }
}

/// Returns the JSON value with this text, or `None` if it is not JSON.
fn read(alloc: Global, text: &str) -> Result<Option<Value>, ProgramError> {
    Ok(if_json(jsonptr_value::read(alloc, text))?)
}

/// Returns the JSON value with its text, or `None` if it is not JSON.
fn read_raw(alloc: Global, text: &str) -> Result<Option<RawValue>, ProgramError> {
    Ok(if_json(RawValue::parse(alloc, text))?)
}

/// Returns the error of a command that has the name of a file where a value is wanted.
fn missing_value(alloc: Global, file: &str) -> ProgramError {
    let message = match shown(alloc, file) {
        Ok(name) => format!(in alloc;
            "{name} is a file, not JSON: the value is missing, or a string lacks quotes or --string"
        ),
        Err(error) => Err(error),
    };
    ProgramError::of_message(alloc, USAGE, "JSON", message)
}

/// Returns the text as a JSON string.
fn string_value(alloc: Global, text: &str) -> Result<RawValue, ProgramError> {
    let string = Value::String(String::from_str(alloc, text)?);
    match RawValue::from_value(alloc, &string)? {
        Some(value) => Ok(value),
        None => Err(ProgramError::Memory),
    }
}

/// Returns the JSON value of `--default`, whose numbers are printed anew. Fails if one loses digits,
/// unless that is lossy.
pub fn json_default(
    alloc: Global,
    default: Option<&str>,
    is_lossy: bool,
) -> Result<Option<Value>, ProgramError> {
    let Some(text) = default else {
        return Ok(None);
    };
    let value = value_in(alloc, DEFAULT, text.as_bytes())?;
    if !is_lossy {
        check_text(alloc, DEFAULT, text)?;
    }
    Ok(Some(value))
}

/// Returns the TOML value of `--default`. Fails if a number loses digits, unless that is lossy.
pub fn toml_default(
    alloc: Global,
    default: Option<&str>,
    is_lossy: bool,
) -> Result<Option<toml::Value>, ProgramError> {
    match default {
        Some(text) => Ok(Some(toml_value(alloc, DEFAULT, text, is_lossy)?)),
        None => Ok(None),
    }
}

/// Returns the error of a text with this name that is not a TOML value.
fn not_toml_value(alloc: Global, name: &str, text: &str) -> ProgramError {
    let message = if text.starts_with('{') {
        "not a TOML value: TOML writes {x = 1} for {\"x\": 1}"
    } else if text.chars().next().is_some_and(|c| c.is_alphabetic()) {
        "not a TOML value: a string needs quotes, or --string"
    } else {
        "not a TOML value"
    };
    ProgramError::new(alloc, BAD_INPUT, name, message)
}

/// Parses a text with this name as a TOML value, whose floats are printed anew.
///
/// A number that loses digits is found as far as the text is JSON too.
fn toml_value(
    alloc: Global,
    name: &str,
    text: &str,
    is_lossy: bool,
) -> Result<toml::Value, ProgramError> {
    let value = match toml::Value::from_str(alloc, text) {
        Ok(value) => value,
        Err(error) if error.is_memory() => return Err(ProgramError::Memory),
        Err(_) => return Err(not_toml_value(alloc, name, text)),
    };
    if !is_lossy {
        check_text(alloc, name, text)?;
    }
    Ok(value)
}
