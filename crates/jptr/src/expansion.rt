//! The flag `--no-expand`: no container is created on the way to a value, and no scalar replaced by one.

use crate::document::Document;
use crate::drawn::missing;
use crate::program_error::ProgramError;
use crate::toml_file;
use jptr_tasks::exit_status::NOT_MADE;
use jptr_tasks::expansion::ExpansionError;
use jptr_tasks::task_error::TaskError;
use jsonptr::Pointer;
use jsonptr_text_edit::Edit;
use jsonptr_toml::{InTomlError, resolve_in_toml};
use std::alloc::Global;
use toml::Value;

/// What is said of a scalar on the way.
const SCALAR: &str = "a scalar is on the way, and --no-expand replaces none";

/// What is said after the error of a container that is missing on the way in a JSON document.
const NO_CONTAINER: &str = "; --no-expand creates no container";

/// What is said of an array or a table that is missing on the way in a TOML document.
const NO_TABLE: &str = "an array or a table on the way is missing, and --no-expand creates none";

/// Returns the error of an edit that would create a container in the JSON document, or replace a scalar by one.
pub fn expansion_error(
    alloc: Global,
    before: &Document<'_>,
    edit: &Edit<'_>,
    error: ExpansionError,
) -> ProgramError {
    let Edit::Assign(pointer, _raw) = edit else {
        return ProgramError::Memory;
    };
    match error {
        ExpansionError::NotJson => before.error(alloc, "", TaskError::NotJson),
        ExpansionError::NoParent(error) => ProgramError::of_error_with_hint(
            alloc,
            before.name,
            pointer.as_str(),
            TaskError::Resolve(error),
            NO_CONTAINER,
        )
        .with_status(NOT_MADE),
        ExpansionError::Scalar(_) => {
            let drawing = missing(alloc, before.as_bytes(), *pointer);
            ProgramError::new(alloc, NOT_MADE, before.name, SCALAR).with_drawing(drawing)
        }
        ExpansionError::Memory(_) => ProgramError::Memory,
    }
}

/// Fails if an assignment at the pointer would create an array or a table in this text of the TOML
/// document, or replace a scalar by one.
pub fn check_toml_expansion(
    alloc: Global,
    source: &Document<'_>,
    text: &str,
    pointer: Pointer<'_>,
) -> Result<(), ProgramError> {
    let Some(above) = pointer.parent() else {
        return Ok(());
    };
    match resolve_in_toml(alloc, text, above) {
        Ok(Value::Array(_)) => Ok(()),
        Ok(Value::Table(_)) => Ok(()),
        Ok(_) => Err(ProgramError::new(alloc, NOT_MADE, source.name, SCALAR)),
        Err(InTomlError::Resolve(_error)) => Err(ProgramError::new(
            alloc,
            NOT_MADE,
            source.name,
            NO_TABLE,
        )),
        Err(error) => Err(toml_file::resolve_error(alloc, source, above, error)),
    }
}
