//! Commands on the value that a pointer resolves to: its type, its length, its keys, and a test.

use crate::document::{Document, FileFormat};
use crate::invocation::{Options, Testing, ValueWord};
use crate::operands::pointer_of;
use crate::output::print_text;
use crate::program_error::ProgramError;
use crate::style::layout_of;
use crate::value_argument::ValueArgument;
use jptr_tasks::exit_status::NO;
use jptr_tasks::layout::{Layout, show};
use jptr_tasks::node::{equals_in_text, keys_in_text, length_in_text, type_in_text};
use jptr_tasks::task_error::TaskError;
use jsonptr::Pointer;
use jsonptr_text_resolve::exists_in_text;
use jsonptr_value::{NodeType, ReadError};
use serde_json::{Map, Value};
use std::alloc::{AllocError, Global};
use std::fs;

/// What is printed of a value.
#[derive(Clone, Copy)]
pub enum Property {
    /// Its keys.
    Keys,
    /// Its length.
    Length,
    /// Its type.
    Type,
}

impl Property {
    /// Returns its name, which is that of its command.
    fn name(self) -> &'static str {
        match self {
            Property::Keys => "keys",
            Property::Length => "length",
            Property::Type => "type",
        }
    }
}

/// Prints the property of the value at the pointer.
pub fn print_node(
    rt: &HostRuntime,
    options: &Options<'_>,
    pointer: &str,
    property: Property,
) -> Result<u8, ProgramError> {
    let alloc = rt.alloc();
    let pointer = pointer_of(alloc, pointer)?;
    let source = Document::open_json(rt, options)?;
    let text = source.text(alloc)?;
    let lines = match property {
        Property::Keys => key_lines(alloc, text, pointer, layout_of(options.layout)),
        Property::Length => length_line(alloc, text, pointer),
        Property::Type => type_line(alloc, text, pointer),
    };
    match lines {
        Ok(Some(lines)) => {
            print_text(rt, lines.as_str())?;
            Ok(0)
        }
        Ok(None) => Err(lacking(alloc, &source, pointer, property.name())),
        Err(error) => Err(source.error(alloc, pointer.as_str(), error)),
    }
}

/// Returns a line with the type of the value.
fn type_line(alloc: Global, text: &str, pointer: Pointer<'_>) -> Result<Option<String>, TaskError> {
    let name = type_in_text(alloc, text, pointer)?.name();
    Ok(Some(format!(in alloc; "{name}\n")?))
}

/// Returns a line with the length of the value, or `None` if it has none.
fn length_line(
    alloc: Global,
    text: &str,
    pointer: Pointer<'_>,
) -> Result<Option<String>, TaskError> {
    match length_in_text(alloc, text, pointer)? {
        Some(length) => Ok(Some(format!(in alloc; "{length}\n")?)),
        None => Ok(None),
    }
}

/// Returns a line for each key of the value, in this layout, or `None` if it has none.
fn key_lines(
    alloc: Global,
    text: &str,
    pointer: Pointer<'_>,
    layout: Layout,
) -> Result<Option<String>, TaskError> {
    match keys_in_text(alloc, text, pointer)? {
        Some(keys) => Ok(Some(lines_of_keys(alloc, keys, layout)?)),
        None => Ok(None),
    }
}

/// Says by the status whether the value is there, or whether it equals another one.
pub fn test(
    rt: &HostRuntime,
    options: &Options<'_>,
    testing: Testing<'_>,
) -> Result<u8, ProgramError> {
    let alloc = rt.alloc();
    let pointer = pointer_of(alloc, testing.pointer)?;
    let mut file = options.file;
    let mut value = None;
    if let Some(word) = testing.value {
        if file.is_none() && is_file(rt, word) {
            file = Some(word.text);
        } else {
            value = Some(ValueArgument::read(rt, word, file)?.json(alloc)?);
        }
    }
    let format = FileFormat::of(options.format_flag, file);
    let source = Document::read_as(rt, format, file)?.as_json(alloc)?;
    match passes(alloc, source.text(alloc)?, pointer, value) {
        Ok(true) => Ok(0),
        Ok(false) => Ok(NO),
        Err(TaskError::Resolve(_error)) => Ok(NO),
        Err(error) => Err(source.error(alloc, pointer.as_str(), error)),
    }
}

/// Returns whether the word is the name of a file, and not a JSON text or a string.
fn is_file(rt: &HostRuntime, word: ValueWord<'_>) -> bool {
    !word.is_string && is_not_json(rt.alloc(), word.text) && fs::metadata(rt, word.text).is_ok()
}

/// Returns whether the text is not JSON, as far as there is memory to read it.
fn is_not_json(alloc: Global, text: &str) -> bool {
    matches!(jsonptr_value::read(alloc, text), Err(ReadError::NotJson))
}

/// Returns whether the pointer resolves to the value in the text, or to any if there is none.
fn passes(
    alloc: Global,
    text: &str,
    pointer: Pointer<'_>,
    value: Option<Value>,
) -> Result<bool, TaskError> {
    match value {
        Some(value) => equals_in_text(alloc, text, pointer, &value),
        None => Ok(exists_in_text(alloc, text, pointer)?),
    }
}

/// Returns a line for each key, in this layout. A repeated key has one, where it comes first.
fn lines_of_keys(alloc: Global, keys: Vec<String>, layout: Layout) -> Result<String, AllocError> {
    let mut lines = String::new(alloc);
    let mut seen = Map::new(alloc);
    for key in keys {
        if !seen.contains_key(key.as_str()) {
            push_line(alloc, key.as_str(), layout, &mut lines)?;
            drop(seen.insert(key, Value::Null)?);
        }
    }
    Ok(lines)
}

/// Appends a line with the key in this layout.
fn push_line(
    alloc: Global,
    key: &str,
    layout: Layout,
    lines: &mut String,
) -> Result<(), AllocError> {
    let value = Value::String(String::from_str(alloc, key)?);
    let text = show(alloc, &value, layout)?;
    lines.push_str(text.as_str())?;
    lines.push('\n')
}

/// Returns the error of a value that has no length, or no keys.
fn lacking(alloc: Global, source: &Document<'_>, pointer: Pointer<'_>, what: &str) -> ProgramError {
    let text = match source.text(alloc) {
        Ok(text) => text,
        Err(error) => return error,
    };
    match type_in_text(alloc, text, pointer) {
        Ok(found) => {
            let message = format!(in alloc; "{} has no {what}", described(found));
            ProgramError::of_message(alloc, NO, source.name, message)
        }
        Err(error) => source.error(alloc, pointer.as_str(), error),
    }
}

/// Returns the type with its article.
fn described(found: NodeType) -> &'static str {
    match found {
        NodeType::Null => "null",
        NodeType::Boolean => "a boolean",
        NodeType::Number => "a number",
        NodeType::String => "a string",
        NodeType::Array => "an array",
        NodeType::Object => "an object",
    }
}
