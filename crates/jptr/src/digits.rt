//! Numbers whose digits would be lost.

use crate::program_error::ProgramError;
use crate::shown::shown;
use crate::style::OutputStyle;
use jptr_tasks::exit_status::BAD_INPUT;
use jptr_tasks::layout::Layout;
use jptr_tasks::reprint::DigitLoss;
use jptr_tasks::result::result_in_text;
use jptr_tasks::task::Task;
use jptr_tasks::task_error::TaskError;
use jsonptr_text_digits::{Lost, find_lost};
use jsonptr_text_edit::{Edit, RawOperation};
use simdutf8::basic::from_utf8;
use std::alloc::{AllocError, Global};
use thiserror::Error;

/// Fails if a number of the text with this name loses digits.
pub fn check_text(alloc: Global, name: &str, text: &str) -> Result<(), ProgramError> {
    match find_lost(alloc, text)? {
        Some(lost) => Err(LossError::Document(lost).error(alloc, name)),
        None => Ok(()),
    }
}

/// Fails if a number of the document that the bytes are loses digits.
pub fn check_bytes(alloc: Global, name: &str, bytes: &[u8]) -> Result<(), ProgramError> {
    match from_utf8(bytes) {
        Ok(text) => check_text(alloc, name, text),
        // The command reports it.
        Err(_) => Ok(()),
    }
}

/// A number that loses digits, and what it is in. Its text does not name the argument that it is in.
#[derive(Debug, Drop, Error)]
pub enum LossError {
    /// A number of the document.
    #[error("{0}: use --lossy")]
    Document(Lost),
    /// A number of the value that is assigned.
    #[error("{0}: use --lossy")]
    Value(Lost),
    /// A number of the value of the patch's operation at this position.
    #[error("operation {0}: {1}: use --lossy")]
    Operation(usize, Lost),
    /// A number of the value of the line with this number.
    #[error("line {0}: {1}: use --lossy")]
    Line(usize, Lost),
}

impl LossError {
    /// Returns the loss of an edit.
    pub fn of(loss: DigitLoss) -> LossError {
        match loss {
            DigitLoss::Document(lost) => LossError::Document(lost),
            DigitLoss::Value(lost) => LossError::Value(lost),
            DigitLoss::Operation(index, lost) => LossError::Operation(index, lost),
        }
    }

    /// Returns the name of the argument with the number, if it is in one.
    fn argument(&self) -> Option<&'static str> {
        match self {
            LossError::Document(_) | LossError::Line(_, _) => None,
            LossError::Value(_) => Some("JSON"),
            LossError::Operation(_, _) => Some("PATCHFILE"),
        }
    }

    /// Returns its text, after the name of the argument with the number.
    pub fn message(&self, alloc: Global) -> Result<String, AllocError> {
        let message = shown(alloc, self.to_string(alloc)?.as_str())?;
        match self.argument() {
            Some(name) => format!(in alloc; "{name}: {message}"),
            None => Ok(message),
        }
    }

    /// Returns the error of the number in the input with this name, if it is in no argument.
    pub fn error(&self, alloc: Global, name: &str) -> ProgramError {
        let message = match self.to_string(alloc) {
            Ok(text) => shown(alloc, text.as_str()),
            Err(error) => Err(error),
        };
        let name = self.argument().unwrap_or(name);
        ProgramError::of_message(alloc, BAD_INPUT, name, message)
    }
}

/// Returns whether the result of the task on a line, or of one that finds a value, may have numbers that are read,
/// and may not lose digits.
///
/// They are read to sort the members, and where an edit of a line cannot be made in its text, which is known to
/// happen with patches alone. For an edit of one document [`edit_exactly`](jptr_tasks::reprint::edit_exactly)
/// looks at what is printed.
pub fn is_checked(task: &Task<'_>, style: OutputStyle) -> bool {
    if style.is_lossy {
        return false;
    }
    match style.layout {
        Layout::Sorted | Layout::SortedPretty => true,
        Layout::Compact | Layout::Pretty => matches!(task, Task::Edit(Edit::Patch(_))),
        Layout::Kept | Layout::Raw => false,
    }
}

/// Returns the first number that the task loses digits of in the text of a document, if there is one.
///
/// If the members are sorted, that is a number of the result. If the document is printed anew, since it
/// cannot be edited in its text, it is a number of the document, or of a value that is put into it.
pub fn loss_of(
    alloc: Global,
    text: &str,
    task: &Task<'_>,
    style: OutputStyle,
) -> Result<Option<LossError>, AllocError> {
    if !is_checked(task, style) {
        return Ok(None);
    }
    let in_document = find_lost(alloc, text)?;
    let in_values = loss_in_values(alloc, task)?;
    if in_document.is_none() && in_values.is_none() {
        return Ok(None);
    }
    match result_in_text(alloc, text, task, Layout::Kept) {
        Ok(new) => loss_in_result(alloc, new.as_str(), style.layout),
        Err(TaskError::NotInPlace) => Ok(first_of(in_document, in_values)),
        Err(TaskError::Memory(error)) => Err(error),
        // The command reports it.
        Err(_) => Ok(None),
    }
}

/// Returns the first number that loses digits in the text of a value that the task puts into the
/// document, if there is one.
fn loss_in_values(alloc: Global, task: &Task<'_>) -> Result<Option<LossError>, AllocError> {
    match task {
        Task::Edit(Edit::Assign(_, raw)) => match find_lost(alloc, raw.printed.flat.as_str())? {
            Some(lost) => Ok(Some(LossError::Value(lost))),
            None => Ok(None),
        },
        Task::Edit(Edit::Patch(patch)) => { loss_in_operations(alloc, patch.operations.as_slice()) }
        Task::Get(_, _) | Task::Edit(Edit::Delete(_)) | Task::Edit(Edit::Rename(_, _)) => Ok(None),
    }
}

/// Returns the first number that loses digits in the text of the value of an operation, if there is one.
fn loss_in_operations(
    alloc: Global,
    operations: &[RawOperation],
) -> Result<Option<LossError>, AllocError> {
    let mut position: usize = 0;
    for operation in operations {
        if let Some(lost) = lost_in_operation(alloc, operation)? {
            return Ok(Some(LossError::Operation(position, lost)));
        }
        position = position.saturating_add(1);
    }
    Ok(None)
}

/// Returns the first number that loses digits in the text of the value of the operation, if there is one.
fn lost_in_operation(alloc: Global, operation: &RawOperation) -> Result<Option<Lost>, AllocError> {
    match &operation.raw {
        Some(value) => find_lost(alloc, value.printed.flat.as_str()),
        None => Ok(None),
    }
}

/// Returns the first number that loses digits if the result is laid out so.
fn loss_in_result(
    alloc: Global,
    text: &str,
    layout: Layout,
) -> Result<Option<LossError>, AllocError> {
    match layout {
        Layout::Sorted | Layout::SortedPretty => Ok(first_of(find_lost(alloc, text)?, None)),
        _ => Ok(None),
    }
}

/// Returns the number of the document, or else that of a value.
fn first_of(in_document: Option<Lost>, in_values: Option<LossError>) -> Option<LossError> {
    match in_document {
        Some(lost) => Some(LossError::Document(lost)),
        None => in_values,
    }
}

/// Fails if the task loses digits of a number of the document with this name, or of a value that it puts
/// into the document.
pub fn check_result(
    alloc: Global,
    name: &str,
    bytes: &[u8],
    task: &Task<'_>,
    style: OutputStyle,
) -> Result<(), ProgramError> {
    let Ok(text) = from_utf8(bytes) else {
        // The command reports it.
        return Ok(());
    };
    match loss_of(alloc, text, task, style)? {
        Some(loss) => Err(loss.error(alloc, name)),
        None => Ok(()),
    }
}

/// Fails if a number loses digits that the patch which takes the operations back may contain: one of the
/// document with this name, or of a value that a later operation may take away.
pub fn check_inverse(
    alloc: Global,
    name: &str,
    text: &str,
    operations: &[RawOperation],
) -> Result<(), ProgramError> {
    check_text(alloc, name, text)?;
    let Some((_last, earlier)) = operations.split_last() else {
        return Ok(());
    };
    match loss_in_operations(alloc, earlier)? {
        Some(loss) => Err(loss.error(alloc, name)),
        None => Ok(()),
    }
}

/// Fails if a number in the value of a line loses digits.
pub fn check_lines(alloc: Global, name: &str, bytes: &[u8]) -> Result<(), ProgramError> {
    let Ok(text) = from_utf8(bytes) else {
        return Ok(());
    };
    let mut number: usize = 0;
    for line in text.split('\n') {
        number = number.saturating_add(1);
        check_line(alloc, name, number, line)?;
    }
    Ok(())
}

/// Fails if a number in the value of the line with this number loses digits.
fn check_line(alloc: Global, name: &str, number: usize, line: &str) -> Result<(), ProgramError> {
    let Some((_, value)) = line.split_once('\t') else {
        return Ok(());
    };
    match find_lost(alloc, value)? {
        Some(lost) => Err(LossError::Line(number, lost).error(alloc, name)),
        None => Ok(()),
    }
}
