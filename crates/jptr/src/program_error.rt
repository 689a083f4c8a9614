//! The errors of the program, as they are printed.

use crate::report::drawn;
use crate::shown::{printable, shown};
use crate::syntax::{explain, unclosed_comment};
use jptr_tasks::exit_status::{BAD_INPUT, MEMORY, USAGE};
use jptr_tasks::task_error::TaskError;
use jsonptr::diagnostic::Diagnostic;
use jsonptr::{EncodingError, ParseError, PointerBuf};
use serde_json::Value;
use simdutf8::basic::from_utf8;
use std::alloc::{AllocError, AllocFailed, Global};
use thiserror::Error;

/// An error of the program: its exit status, and what is printed on standard error.
///
/// Its text is what is printed, with its line breaks.
#[derive(Debug, Drop, Error)]
pub enum ProgramError {
    /// Nobody reads the output any more. That is not an error, and nothing is printed.
    #[error("")]
    OutputClosed,
    /// An allocation failed.
    #[error("jptr: out of memory\n")]
    Memory,
    /// Any other error, with its exit status and its text.
    #[error("{1}")]
    Other(u8, String),
}

impl ProgramError {
    /// Returns the exit status.
    pub fn status(&self) -> u8 {
        match self {
            ProgramError::OutputClosed => 0,
            ProgramError::Memory => MEMORY,
            ProgramError::Other(status, _) => *status,
        }
    }

    /// Returns the error with one line of text: the program, the name of the file or argument, and
    /// the message.
    pub fn new(alloc: Global, status: u8, name: &str, message: &str) -> ProgramError {
        ProgramError::of_text(status, line(alloc, name, message))
    }

    /// Returns the error with the line of a message that was made.
    pub fn of_message(
        alloc: Global,
        status: u8,
        name: &str,
        message: Result<String, AllocError>,
    ) -> ProgramError {
        match message {
            Ok(message) => ProgramError::new(alloc, status, name, message.as_str()),
            Err(_) => ProgramError::Memory,
        }
    }

    /// Returns the error with a text that was made.
    fn of_text(status: u8, text: Result<String, AllocError>) -> ProgramError {
        match text {
            Ok(text) => ProgramError::Other(status, text),
            Err(_) => ProgramError::Memory,
        }
    }

    /// Returns the error with what is at fault, drawn on lines after its text.
    pub fn with_drawing(self, drawing: Result<Option<String>, AllocError>) -> ProgramError {
        match (self, drawing) {
            (ProgramError::Other(status, text), Ok(Some(drawing))) => {
                ProgramError::of_text(status, append_lines(text, drawing.as_str()))
            }
            (error, Ok(_)) => error,
            (_error, Err(_)) => ProgramError::Memory,
        }
    }

    /// Returns the error at this pointer in the input with this name.
    pub fn of_error(alloc: Global, name: &str, pointer: &str, error: TaskError) -> ProgramError {
        let hint = hint_of(&error);
        ProgramError::of_error_with_hint(alloc, name, pointer, error, hint)
    }

    /// Returns the error at this pointer in the input with this name, with a hint.
    pub fn of_error_with_hint(
        alloc: Global,
        name: &str,
        pointer: &str,
        error: TaskError,
        hint: &str,
    ) -> ProgramError {
        ProgramError::of_text(error.status(), text_of(alloc, name, pointer, error, hint))
    }

    /// Returns the error of a document that is not a patch.
    pub fn of_patch(alloc: Global, name: &str, document: &Value, error: TaskError) -> ProgramError {
        ProgramError::of_text(error.status(), patch_text(alloc, name, document, error))
    }

    /// Returns the error of an argument that is not a pointer.
    pub fn of_pointer(alloc: Global, text: &str, error: ParseError) -> ProgramError {
        ProgramError::of_text(USAGE, pointer_text(alloc, text, error))
    }

    /// Returns the error of an argument that is not a token.
    pub fn of_token(alloc: Global, text: &str, error: EncodingError) -> ProgramError {
        ProgramError::of_text(USAGE, token_text(alloc, text, error))
    }

    /// Returns the error of a command line, with this text of one line or several.
    pub fn of_usage(alloc: Global, text: &str) -> ProgramError {
        ProgramError::of_text(USAGE, printable(alloc, text))
    }

    /// Returns the error with another exit status.
    pub fn with_status(self, status: u8) -> ProgramError {
        match self {
            ProgramError::Other(_, text) => ProgramError::Other(status, text),
            error => error,
        }
    }

    /// Returns the error of a value that is not a JSON text. A word may be meant as a string.
    pub fn of_value(alloc: Global, name: &str, text: &str) -> ProgramError {
        match ProgramError::of_bytes(alloc, name, text.as_bytes()) {
            ProgramError::Other(status, line) => ProgramError::of_text(
                status,
                hinted(alloc, text, line),
            ),
            error => error,
        }
    }

    /// Returns the error of a text with a comment at the offset that is not closed.
    pub fn of_comment(alloc: Global, name: &str, text: &str, offset: usize) -> ProgramError {
        ProgramError::of_message(
            alloc,
            BAD_INPUT,
            name,
            unclosed_comment(alloc, text, offset),
        )
    }

    /// Returns the error of bytes that are not a JSON text.
    pub fn of_bytes(alloc: Global, name: &str, bytes: &[u8]) -> ProgramError {
        ProgramError::of_text(BAD_INPUT, json_text(alloc, name, bytes))
    }
}

/// Returns the message of an error of the value with this text. If the value begins with a letter, the
/// first line says what a string needs.
fn hinted(alloc: Global, text: &str, message: String) -> Result<String, AllocError> {
    let is_word = text.chars().next().is_some_and(|c| c.is_alphabetic());
    if !is_word {
        return Ok(message);
    }
    let whole = message.as_str();
    let end = match whole.find('\n') {
        Some(at) => at,
        None => whole.len(),
    };
    let line = whole.get(..end).unwrap_or("");
    let drawing = whole.get(end.saturating_add(1)..).unwrap_or("");
    format!(in alloc; "{line}; a string needs quotes, or --string\n{drawing}")
}

/// Returns the line of an error.
fn line(alloc: Global, name: &str, message: &str) -> Result<String, AllocError> {
    let name = shown(alloc, name)?;
    format!(in alloc; "jptr: {name}: {message}\n")
}

impl From<AllocError> for ProgramError {
    /// Returns the error of a failed allocation.
    fn from(_error: AllocError) -> ProgramError {
        ProgramError::Memory
    }
}

impl<T: Drop> From<AllocFailed<T>> for ProgramError {
    /// Returns the error of a failed allocation, and drops the value that had no room.
    fn from(_error: AllocFailed<T>) -> ProgramError {
        ProgramError::Memory
    }
}

/// Returns the text of an error with the hint. A failed allocation has none.
fn text_of(
    alloc: Global,
    name: &str,
    pointer: &str,
    error: TaskError,
    hint: &str,
) -> Result<String, AllocError> {
    if matches!(error, TaskError::Memory(_)) {
        return Err(AllocError);
    }
    let name = shown(alloc, name)?;
    let text = format!(in alloc; "jptr: {name}: {error}{hint}\n")?;
    match drawing(alloc, pointer, error)? {
        Some(drawn) => append_lines(text, drawn.as_str()),
        None => Ok(text),
    }
}

/// Returns the text with further lines, and a line break after them.
fn append_lines(text: String, lines: &str) -> Result<String, AllocError> {
    let mut text = text;
    text.push_str(lines)?;
    text.push('\n')?;
    Ok(text)
}

/// Returns what is printed after the text of an error: what to do about it.
fn hint_of(error: &TaskError) -> &'static str {
    match error {
        TaskError::NotInPlace => "; --reformat prints the document anew",
        _ => "",
    }
}

/// Returns the pointer with carets below the token at fault, if the error is about a pointer.
fn drawing(alloc: Global, pointer: &str, error: TaskError) -> Result<Option<String>, AllocError> {
    let Ok(subject) = PointerBuf::from_text(alloc, pointer) else {
        return Ok(None);
    };
    match error {
        TaskError::Resolve(error) => Ok(Some(drawn(alloc, &error.into_report(subject))?)),
        TaskError::Assign(error) => Ok(Some(drawn(alloc, &error.into_report(subject))?)),
        _ => Ok(None),
    }
}

/// Returns the text of the error of a document that is not a patch, with the pointer at fault if there
/// is one. A failed allocation has no text.
fn patch_text(
    alloc: Global,
    name: &str,
    document: &Value,
    error: TaskError,
) -> Result<String, AllocError> {
    let TaskError::NotPatch(error) = error else {
        return Err(AllocError);
    };
    let name = shown(alloc, name)?;
    let hint = patch_hint(document);
    let text = format!(in alloc; "jptr: {name}: {error}{hint}\n")?;
    let Some(pointer) = error.pointer_text(document) else {
        return Ok(text);
    };
    let report = error.into_report(String::from_str(alloc, pointer)?);
    append_lines(text, drawn(alloc, &report)?.as_str())
}

/// Returns what is printed after the text of an error of a document that is not a patch.
fn patch_hint(document: &Value) -> &'static str {
    match document {
        Value::Object(_) => "; a merge patch (RFC 7396) is not taken",
        _ => "",
    }
}

/// Returns the text of the error of a pointer.
fn pointer_text(alloc: Global, pointer: &str, error: ParseError) -> Result<String, AllocError> {
    let hint = pointer_hint(pointer);
    let text = format!(in alloc; "jptr: POINTER: {error}{hint}\n")?;
    let report = error.into_report(String::from_str(alloc, pointer)?);
    append_lines(text, drawn(alloc, &report)?.as_str())
}

/// Returns what is printed after the text of an error of a pointer: what a pointer looks like.
fn pointer_hint(pointer: &str) -> &'static str {
    match pointer.as_bytes().first() {
        None | Some(b'/') => "",
        Some(b'.') => "; write /a/0 for .a[0], and '' for the whole document",
        Some(_) =>
            "; a pointer looks like /a/0 and comes before FILE, and '' is the whole document",
    }
}

/// Returns the text of the error of a token.
fn token_text(alloc: Global, token: &str, error: EncodingError) -> Result<String, AllocError> {
    let text = format!(in alloc; "jptr: TOKEN: {error}\n")?;
    let report = error.into_report(String::from_str(alloc, token)?);
    append_lines(text, drawn(alloc, &report)?.as_str())
}

/// Returns the text of the error of bytes that are not JSON, with its line and column.
fn json_text(alloc: Global, name: &str, bytes: &[u8]) -> Result<String, AllocError> {
    let name = shown(alloc, name)?;
    if bytes.trim_ascii().is_empty() {
        return format!(in alloc; "jptr: {name}: the input is empty\n");
    }
    if let Ok(text) = from_utf8(bytes) {
        if let Some(why) = explain(alloc, text)? {
            return format!(in alloc; "jptr: {name}: {why}\n");
        }
    }
    match Value::from_slice(alloc, bytes) {
        Ok(_) => format!(in alloc; "jptr: {name}: text is not JSON\n"),
        Err(error) if error.is_memory() => Err(AllocError),
        Err(error) => format!(in alloc; "jptr: {name}: text is not JSON: {error}\n"),
    }
}
