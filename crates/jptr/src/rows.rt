//! The values of several pointers in each line of an input: a line with tabs between them, or an object.

use crate::exact_lines::{ExactTask, put_exact_line};
use jptr_tasks::layout::Layout;
use jptr_tasks::line::{Line, put_fault};
use jptr_tasks::result::result_in_text;
use jptr_tasks::task::Task;
use jptr_tasks::task_error::TaskError;
use jsonptr::Pointer;
use jsonptr_text_edit::Buffers;
use simdutf8::basic::from_utf8;
use std::alloc::{AllocError, Global};
use std::io::Write;

/// What is between the values of a line.
const BETWEEN: char = '\t';

/// Tasks that find values in each line of an input.
#[derive(Drop)]
pub struct Row<'a> {
    /// The tasks. Nothing is printed for a line at which one fails.
    pub cells: Vec<ExactTask<'a>>,
    /// How the values are one line.
    pub form: RowForm,
    /// What is printed for a line at fault, with its line break. Without it nothing is printed.
    pub fallback: Option<String>,
    /// The name of the input in reports of faults.
    pub name: String,
    /// Whether the run ends at the first line at fault.
    pub is_strict: bool,
}

/// How several values are one line.
#[derive(Drop)]
pub enum RowForm {
    /// They have tabs between them.
    Tabs,
    /// They are the members of an object with these keys, JSON strings, in this layout.
    Object(Vec<String>, Layout),
}

/// Writes the values of the line, or reports it. Returns whether the line has a result.
pub fn put_row<W: Write, E: Write>(
    buffers: &mut Buffers,
    row: &Row<'_>,
    line: Line<'_>,
    output: &mut W,
    errors: &mut E,
) -> Result<bool, TaskError> {
    let alloc = *row.name.allocator();
    let mut values = Vec::new(alloc);
    let mut faults = Vec::new(alloc);
    for cell in &row.cells {
        if !put_cell(buffers, cell, line, &mut values, &mut faults)? {
            let report = from_utf8(&faults).unwrap_or("");
            put_fault(&row.fallback, report, output, errors)?;
            return Ok(false);
        }
    }
    if values.is_empty() {
        // A line of white space is passed over.
        return Ok(true);
    }
    let text = row_text(alloc, &row.form, from_utf8(&values).unwrap_or(""))?;
    if text.is_none() {
        let report = tab_report(alloc, row.name.as_str(), line.number)?;
        put_fault(&row.fallback, report.as_str(), output, errors)?;
        return Ok(false);
    }
    // The line is written as a fallback is, beside no report.
    put_fault(&text, "", output, errors)?;
    Ok(true)
}

/// Adds a value of the line and a line break to the values, or a report to the faults. Returns whether the
/// line has the value.
fn put_cell(
    buffers: &mut Buffers,
    cell: &ExactTask<'_>,
    line: Line<'_>,
    values: &mut Vec<u8>,
    faults: &mut Vec<u8>,
) -> Result<bool, TaskError> {
    match put_exact_line(buffers, cell, line, values, faults) {
        Ok(has_value) => Ok(has_value),
        // A vector is not written only if an allocation fails.
        Err(TaskError::Write) => Err(TaskError::Memory(AllocError)),
        Err(error) => Err(error),
    }
}

/// Returns the report of a line with a value that contains what is between the values.
fn tab_report(alloc: Global, name: &str, number: u64) -> Result<String, AllocError> {
    format!(in alloc; "{name}:{number}: a value contains a tab, which is between the values\n")
}

/// Returns the line of the values, each of which ends in a line break. Returns `None` if a value contains
/// what is between them.
pub fn row_text(alloc: Global, form: &RowForm, values: &str) -> Result<Option<String>, TaskError> {
    match form {
        RowForm::Tabs => Ok(tabbed(alloc, values)?),
        RowForm::Object(keys, layout) => {
            let object = object_text(alloc, keys.as_slice(), values)?;
            let whole = Task::Get(Pointer::root(), None);
            let mut text = result_in_text(alloc, object.as_str(), &whole, *layout)?;
            text.push('\n')?;
            Ok(Some(text))
        }
    }
}

/// Returns the values with tabs between them, or `None` if one contains a tab.
fn tabbed(alloc: Global, values: &str) -> Result<Option<String>, AllocError> {
    if values.contains(BETWEEN) {
        return Ok(None);
    }
    let mut text = String::new(alloc);
    let mut is_first = true;
    for value in values.strip_suffix('\n').unwrap_or(values).split('\n') {
        if !is_first {
            text.push(BETWEEN)?;
        }
        is_first = false;
        text.push_str(value)?;
    }
    text.push('\n')?;
    Ok(Some(text))
}

/// Returns the text of an object with these keys and values.
fn object_text(alloc: Global, keys: &[String], values: &str) -> Result<String, AllocError> {
    let mut text = String::from_str(alloc, "{")?;
    let mut is_first = true;
    for (key, value) in keys.iter().zip(values.split('\n')) {
        if !is_first {
            text.push_str(", ")?;
        }
        is_first = false;
        text.push_str(key.as_str())?;
        text.push_str(": ")?;
        text.push_str(value)?;
    }
    text.push('}')?;
    Ok(text)
}
