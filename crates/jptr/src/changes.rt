//! The changes of a difference, a line each.

use crate::program_error::ProgramError;
use crate::shown::{is_unprintable, shown};
use jptr_tasks::layout::{Layout, show};
use jptr_tasks::patch::operations_of;
use jsonptr::{Fault, PointerBuf};
use jsonptr_patch::{Comparison, Operation, apply_comparing};
use serde_json::Value;
use std::alloc::{AllocError, Global};

/// Returns a line for each operation of the patch with this text, which is applied to the document: the
/// pointer, and the values before and after it.
pub fn changes_of(alloc: Global, document: Value, patch: &str) -> Result<String, ProgramError> {
    let mut document = document;
    let Ok(patch) = jsonptr_value::read(alloc, patch) else {
        return Err(ProgramError::Memory);
    };
    let Ok(operations) = operations_of(alloc, &patch) else {
        return Err(ProgramError::Memory);
    };
    let mut lines = String::new(alloc);
    for operation in operations {
        lines.push_str(change(alloc, &document, &operation)?.as_str())?;
        let one = vec![in alloc; operation]?;
        if let Err(Fault::Memory(_)) = apply_comparing(
            alloc,
            &mut document,
            one,
            Comparison::Numeric,
        ) {
            return Err(ProgramError::Memory);
        }
    }
    Ok(lines)
}

/// Returns the line of an operation on the document. A difference has additions, removals and replacements.
fn change(alloc: Global, document: &Value, operation: &Operation) -> Result<String, AllocError> {
    match operation {
        Operation::Add { path, value } => {
            let new = shown_value(alloc, value)?;
            let path = shown_pointer(alloc, path)?;
            format!(in alloc; "+ {path}: {new}\n")
        }
        Operation::Remove { path } => {
            let old = value_at(alloc, document, path)?;
            let path = shown_pointer(alloc, path)?;
            format!(in alloc; "- {path}: {old}\n")
        }
        Operation::Replace { path, value } => {
            let old = value_at(alloc, document, path)?;
            let new = shown_value(alloc, value)?;
            let path = shown_pointer(alloc, path)?;
            format!(in alloc; "~ {path}: {old} -> {new}\n")
        }
        _ => Ok(String::new(alloc)),
    }
}

/// Returns the pointer as it is shown: as `paths` prints it, or two quotes for the root.
pub fn shown_pointer(alloc: Global, pointer: &PointerBuf) -> Result<String, AllocError> {
    let pointer = pointer.as_ptr();
    if !pointer.is_root() && !pointer.as_str().chars().any(is_unprintable) {
        return String::from_str(alloc, pointer.as_str());
    }
    shown_value(alloc, &pointer.to_json_value(alloc)?)
}

/// Returns the text of the value that the pointer resolves to in the document.
fn value_at(alloc: Global, document: &Value, pointer: &PointerBuf) -> Result<String, AllocError> {
    match pointer.as_ptr().resolve(alloc, document) {
        Ok(found) => shown_value(alloc, found),
        Err(Fault::Refused(_)) => Ok(String::new(alloc)),
        Err(Fault::Memory(error)) => Err(error),
    }
}

/// Returns the JSON text of a value as it is shown.
pub fn shown_value(alloc: Global, value: &Value) -> Result<String, AllocError> {
    let text = show(alloc, value, Layout::Compact)?;
    shown(alloc, text.as_str())
}
