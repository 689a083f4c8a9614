//! What is at fault with a deletion or an operation of a patch: its pointer, drawn, or both values of a
//! test. For a deletion and a test the document is read again, where a command has failed.

use crate::report::drawn;
use crate::shown::shown;
use jptr_tasks::layout::{Layout, show};
use jptr_tasks::patch::operations_of;
use jptr_tasks::task::Task;
use jptr_tasks::task_error::TaskError;
use jsonptr::diagnostic::Diagnostic;
use jsonptr::{Fault, Pointer, assign, resolve};
use jsonptr_patch::{
    Comparison, FailedOperation, Operation, PatchError, PatchPointer, apply_comparing,
};
use jsonptr_text_edit::Edit;
use jsonptr_text_resolve::{InTextError, resolve_in_text};
use jsonptr_value::if_json;
use serde_json::Value;
use simdutf8::basic::from_utf8;
use std::alloc::{AllocError, Global};

/// The greatest number of characters of a value of a test.
const MOST_SHOWN: usize = 60;

/// Returns what is at fault with a task that failed on the bytes, if it can be drawn.
pub fn fault_of_task(
    alloc: Global,
    bytes: &[u8],
    task: &Task<'_>,
    error: &TaskError,
) -> Result<Option<String>, AllocError> {
    match (task, error) {
        (Task::Edit(Edit::Delete(pointer)), TaskError::NotThere) => {
            missing(alloc, bytes, *pointer)
        }
        (Task::Edit(Edit::Patch(patch)), error) => {
            fault_of_patch(alloc, bytes, &patch.document, error)
        }
        _ => Ok(None),
    }
}

/// Returns what is at fault with a patch document that failed on the bytes, if it can be drawn.
pub fn fault_of_patch(
    alloc: Global,
    bytes: &[u8],
    patch: &Value,
    error: &TaskError,
) -> Result<Option<String>, AllocError> {
    match error {
        TaskError::PatchFailed(failed) => fault_of_operation(alloc, bytes, patch, failed),
        _ => Ok(None),
    }
}

/// Returns the pointer with carets below the token that leads to no value.
pub fn missing(
    alloc: Global,
    bytes: &[u8],
    pointer: Pointer<'_>,
) -> Result<Option<String>, AllocError> {
    let Ok(text) = from_utf8(bytes) else {
        return Ok(None);
    };
    match resolve_in_text(alloc, text, pointer) {
        Ok(_value) => Ok(None),
        Err(InTextError::NotJson) => Ok(None),
        Err(InTextError::Resolve(error)) => Ok(Some(drawn_at(alloc, pointer, error)?)),
        Err(InTextError::Memory(error)) => Err(error),
    }
}

/// Returns the pointer with carets below the token at fault.
fn drawn_at(
    alloc: Global,
    pointer: Pointer<'_>,
    error: resolve::Error,
) -> Result<String, AllocError> {
    drawn(alloc, &error.into_report(pointer.to_buf(alloc)?))
}

/// Returns what is at fault with the operation of the patch document that failed: its pointer at fault, or
/// the values of a test.
fn fault_of_operation(
    alloc: Global,
    bytes: &[u8],
    patch: &Value,
    failed: &FailedOperation,
) -> Result<Option<String>, AllocError> {
    match &failed.error {
        PatchError::NoTarget { operation, cause } => {
            let is_path = failed.pointer == Some(PatchPointer::Path);
            match pointer_of(patch, *operation, failed.pointer) {
                Some(path) if is_path && is_below_scalar(patch, *operation, path, cause) => {
                    Ok(None)
                }
                Some(pointer) => Ok(Some(drawn_at(alloc, pointer, cause.clone()?)?)),
                None => Ok(None),
            }
        }
        PatchError::BadPlace { operation, cause } => {
            match pointer_of(patch, *operation, failed.pointer) {
                Some(pointer) => Ok(Some(drawn_index(alloc, pointer, cause.clone()?)?)),
                None => Ok(None),
            }
        }
        PatchError::TestFailed { operation } => fault_of_test(alloc, bytes, patch, *operation),
        PatchError::MoveIntoSelf { .. } | PatchError::TestFloat { .. } => Ok(None),
    }
}

/// Returns the pointer with carets below its last token, which is not an index at which a value can be
/// added.
fn drawn_index(
    alloc: Global,
    pointer: Pointer<'_>,
    error: assign::Error,
) -> Result<String, AllocError> {
    let report = assign::Error::into_report(error, pointer.to_buf(alloc)?);
    drawn(alloc, &report)
}

/// Returns the pointer at fault of the operation of the patch document at this position.
fn pointer_of(
    patch: &Value,
    position: usize,
    pointer: Option<PatchPointer>,
) -> Option<Pointer<'_>> {
    let member = match pointer {
        Some(PatchPointer::From) => "from",
        Some(PatchPointer::Path) => "path",
        None => return None,
    };
    Pointer::parse(member_text(patch, position, member)?).ok()
}

/// Returns the text of this member of the operation of the patch document at this position.
fn member_text<'p>(patch: &'p Value, position: usize, member: &str) -> Option<&'p str> {
    patch.get(position)?.get(member)?.as_str()
}

/// Returns whether the operation of the patch document at this position adds a value, at the path, below one
/// that is neither an array nor an object. Each token of the parent leads somewhere then, and none is drawn.
fn is_below_scalar(
    patch: &Value,
    position: usize,
    path: Pointer<'_>,
    cause: &resolve::Error,
) -> bool {
    let is_last = cause.position().saturating_add(1) == path.count();
    let is_addition = match member_text(patch, position, "op") {
        Some(name) => matches!(name, "add" | "move" | "copy"),
        None => false,
    };
    is_last && is_addition && matches!(cause, resolve::Error::Unreachable { .. })
}

/// Returns a line with both values of the test of the patch document at this position, which failed. The
/// operations before it are applied again for that.
fn fault_of_test(
    alloc: Global,
    bytes: &[u8],
    patch: &Value,
    position: usize,
) -> Result<Option<String>, AllocError> {
    let Some((operation, before)) = split_at(alloc, patch, position)? else {
        return Ok(None);
    };
    let Ok(text) = from_utf8(bytes) else {
        return Ok(None);
    };
    let Some(mut document) = if_json(jsonptr_value::read(alloc, text))? else {
        return Ok(None);
    };
    match apply_comparing(alloc, &mut document, before, Comparison::Numeric) {
        Ok(()) => values_of_test(alloc, &document, &operation),
        Err(Fault::Memory(error)) => Err(error),
        Err(Fault::Refused(_)) => Ok(None),
    }
}

/// Returns the operation of the patch document at this position, and those before it.
fn split_at(
    alloc: Global,
    patch: &Value,
    position: usize,
) -> Result<Option<(Operation, Vec<Operation>)>, AllocError> {
    let operations = match operations_of(alloc, patch) {
        Ok(operations) => operations,
        Err(TaskError::Memory(error)) => return Err(error),
        Err(_) => return Ok(None),
    };
    let mut before = Vec::new(alloc);
    for (index, operation) in operations.into_iter().enumerate() {
        if index == position {
            return Ok(Some((operation, before)));
        }
        before.push(operation)?;
    }
    Ok(None)
}

/// Returns a line with both values of a test that fails on the document.
fn values_of_test(
    alloc: Global,
    document: &Value,
    operation: &Operation,
) -> Result<Option<String>, AllocError> {
    let Operation::Test { path, value } = operation else {
        return Ok(None);
    };
    match path.as_ptr().resolve(alloc, document) {
        Ok(found) => Ok(Some(difference(alloc, path.as_ptr(), found, value)?)),
        Err(Fault::Memory(error)) => Err(error),
        Err(Fault::Refused(_)) => Ok(None),
    }
}

/// Returns a line with both values of a test that failed.
fn difference(
    alloc: Global,
    pointer: Pointer<'_>,
    found: &Value,
    wanted: &Value,
) -> Result<String, AllocError> {
    let found = shown_value(alloc, found)?;
    let wanted = shown_value(alloc, wanted)?;
    if pointer.is_root() {
        return format!(in alloc; "the document is {found}, and not {wanted}");
    }
    let pointer = shown(alloc, pointer.as_str())?;
    format!(in alloc; "{pointer} is {found}, and not {wanted}")
}

/// Returns the text of a value as it is shown: the whole text, or its first characters and an ellipsis.
fn shown_value(alloc: Global, value: &Value) -> Result<String, AllocError> {
    let text = show(alloc, value, Layout::Compact)?;
    shortened(alloc, shown(alloc, text.as_str())?)
}

/// Returns the text, or its first characters and an ellipsis.
fn shortened(alloc: Global, text: String) -> Result<String, AllocError> {
    match text.char_indices().nth(MOST_SHOWN) {
        Some((at, _)) => {
            let front = text.get(..at).unwrap_or("");
            format!(in alloc; "{front}..")
        }
        None => Ok(text),
    }
}
