//! The result of a task on one line of an input.
ghost use Rattle.std.specs.Prelude.{◌≡◌, ◌∷◌, ◌++◌, [], IfOk, IfErr, OnOk, string_bytes};
ghost use Rattle.std.specs.Io.KnownBytes.{Appends};
ghost use Rattle.jsonptr_io.specs.Streams.{AppendsPrefix};
ghost use Rattle.jptr_tasks.specs.LineResults.{YieldsLine, IsLineFault, IsReport, StopsRun, fallback_line};
ghost use Rattle.jptr_tasks.specs.PrivateLineResults.{OrMemory, IsNoMemory, IsPut, StopsPut};
ghost use Rattle.jptr_tasks.specs.declared.task_error.TaskError.TheVariants.{Write};

use crate::layout::Layout;
use crate::result::result_in_text_with;
use crate::task::Task;
use crate::task_error::TaskError;
use jsonptr_io::write::write_bytes;
use jsonptr_text_piece::spacing::are_blank;
use jsonptr_text_step::Buffers;
use serde_json::Value;
use simdutf8::basic::from_utf8;
use std::alloc::{AllocError, Global};
use std::io;

/// A task for each line of an input.
#[derive(Debug, Drop)]
pub struct LineTask<'a> {
    /// What to do with the document on each line.
    pub task: Task<'a>,
    /// How each result is printed.
    pub layout: Layout,
    /// What is printed for a line at fault, with its line break. Without it nothing is printed.
    pub fallback: Option<String>,
    /// The name of the input in reports of faults.
    pub name: String,
    /// Whether the run ends at the first line at fault.
    pub is_strict: bool,
}

/// A line of an input.
#[derive(Clone, Copy, Debug)]
pub struct Line<'l> {
    /// Its number, from 1.
    pub number: u64,
    /// Its bytes, without its line break.
    pub bytes: &'l [u8],
}

/// Writes the result of the line. Of a line at fault it writes the fallback and, to
/// `errors`, a report. A line of white space is passed over. Returns whether the line is not at fault.
///
/// # Errors
///
/// [`TaskError::Memory`] if an allocation fails, and then nothing is written. [`TaskError::Write`] if a
/// write fails.
pub fn put_line<W: io::Write, E: io::Write>(
    buffers: &mut Buffers,
    run: &LineTask<'_>,
    line: Line<'_>,
    output: &mut W,
    errors: &mut E,
) -> Result<bool, TaskError>
    ensures written { IfOk result (IsPut run.now line.entry.number line.entry.bytes.now (W.contents output.old)
        (W.contents output.new) (E.contents errors.old) (E.contents errors.new)) }
    ensures refused { IfErr result (StopsPut run.now line.entry.number line.entry.bytes.now (W.contents output.old)
        (W.contents output.new) (E.contents errors.old) (E.contents errors.new)) }
{
    if are_blank(line.bytes) {
        return Ok(true);
    }
    let alloc = *run.name.allocator();
    match line_result(alloc, buffers, line.bytes, &run.task, run.layout) {
        Ok(text) => {
            let text = with_break(text)?;
            put_text(output, text.as_str())?;
            Ok(true)
        }
        Err(error) => {
            let error = fault_of_line(error)?;
            let report = report_of(alloc, run.name.as_str(), line, &error)?;
            put_fault(&run.fallback, report.as_str(), output, errors)?;
            Ok(false)
        }
    }
}

/// Returns the result of the task on the line, which is one line again.
///
/// # Errors
///
/// Those of [`result_in_text`](crate::result::result_in_text), and [`TaskError::LineBreak`] if the
/// result contains a line break: that of a line in [`Layout::Raw`], [`Layout::Pretty`] or
/// [`Layout::SortedPretty`].
fn line_result(
    alloc: Global,
    buffers: &mut Buffers,
    line: &[u8],
    task: &Task<'_>,
    layout: Layout,
) -> Result<String, TaskError>
    ensures yielded { IfOk result (λ s. YieldsLine task.now layout line.now (string_bytes s)) }
    ensures refused { IfErr result (λ e. OrMemory e (IsLineFault task.now layout line.now e)) }
{
    let Ok(text) = from_utf8(line) else {
        return Err(TaskError::NotJson);
    };
    let new = result_in_text_with(alloc, buffers, text, task, layout)?;
    if new.as_bytes().contains(&b'\n') {
        return Err(TaskError::LineBreak);
    }
    Ok(new)
}

/// Returns the error again if it is a fault of the line, and as the error of the run if an allocation
/// failed.
fn fault_of_line(error: TaskError) -> Result<TaskError, TaskError>
    ensures reported { IfOk result (λ e. (e ≡ error) × IsNoMemory e) }
    ensures refused { IfErr result StopsRun }
{
    match error {
        TaskError::Memory(error) => Err(TaskError::Memory(error)),
        error => Ok(error),
    }
}

/// Returns the text with a line break after it.
fn with_break(text: String) -> Result<String, AllocError>
    ensures { IfOk result (λ s. string_bytes s ≡ string_bytes text ++ 10 ∷ []) }
{
    let mut text = text;
    text.push('\n')?;
    Ok(text)
}

/// Writes the text.
fn put_text<W: io::Write>(output: &mut W, text: &str) -> Result<(), TaskError>
    ensures written { OnOk result
        (Appends (W.contents output.old) (W.contents output.new) text.now) }
    ensures refused { IfErr result (λ e. (e ≡ Write)
        × AppendsPrefix (W.contents output.old) (W.contents output.new) text.now) }
{
    Ok(write_bytes(output, text.as_bytes())?)
}

/// Writes the fallback, if there is one, and to `errors` the report of a line at fault.
///
/// # Errors
///
/// [`TaskError::Write`] if a write fails.
pub fn put_fault<W: io::Write, E: io::Write>(
    fallback: &Option<String>,
    report: &str,
    output: &mut W,
    errors: &mut E,
) -> Result<(), TaskError>
    ensures written { OnOk result (
        Appends (W.contents output.old) (W.contents output.new) (fallback_line fallback.now)
        × Appends (E.contents errors.old) (E.contents errors.new) report.now) }
    ensures refused { IfErr result (λ e. (e ≡ Write)
        × AppendsPrefix (W.contents output.old) (W.contents output.new)
        (fallback_line fallback.now)
        × AppendsPrefix (E.contents errors.old) (E.contents errors.new) report.now) }
{
    put_fallback(fallback, output)?;
    put_text(errors, report)
}

/// Writes the fallback, if there is one.
fn put_fallback<W: io::Write>(fallback: &Option<String>, output: &mut W) -> Result<(), TaskError>
    ensures written { OnOk result (Appends (W.contents output.old) (W.contents output.new)
        (fallback_line fallback.now)) }
    ensures refused { IfErr result (λ e. (e ≡ Write)
        × AppendsPrefix (W.contents output.old) (W.contents output.new)
        (fallback_line fallback.now)) }
{
    match fallback {
        Some(text) => put_text(output, text.as_str()),
        None => Ok(()),
    }
}

/// Returns the report of a line at fault: the name of the input, the number of the line, and the
/// error.
fn report_of(
    alloc: Global,
    name: &str,
    line: Line<'_>,
    error: &TaskError,
) -> Result<String, AllocError>
    ensures { IfOk result (λ s. IsReport name.now line.entry.number (string_bytes s)) }
{
    let message = message_of(alloc, line.bytes, error)?;
    let number = line.number;
    format!(in alloc; "{name}:{number}: {message}\n")
}

/// Returns the text of the error. Of a line that is not JSON it has the column, in bytes from 1, where
/// reading ends.
fn message_of(alloc: Global, line: &[u8], error: &TaskError) -> Result<String, AllocError> {
    let text = error.to_string(alloc)?;
    if !matches!(error, TaskError::NotJson) {
        return Ok(text);
    }
    match Value::from_slice(alloc, line) {
        Ok(_) => Ok(text),
        Err(error) if error.is_memory() => Err(AllocError),
        Err(error) => {
            let column = error.column();
            format!(in alloc; "{text} at column {column}")
        }
    }
}
