//! Running tasks on each line of an input, so that no number loses digits.

use crate::digits::{LossError, is_checked, loss_of};
use crate::rows::{Row, put_row};
use crate::style::OutputStyle;
use jptr_tasks::line::{Line, LineTask, put_fault, put_line};
use jptr_tasks::lines::{Ended, run_lines};
use jptr_tasks::task_error::TaskError;
use jsonptr_io::read::{Ending, next_line};
use jsonptr_text_edit::Buffers;
use simdutf8::basic::from_utf8;
use std::alloc::{AllocError, Global};
use std::io::{BufRead, Write};

/// A task for each line of an input, and how its results are printed.
#[derive(Drop)]
pub struct ExactTask<'a> {
    /// The task, and what is printed.
    pub run: LineTask<'a>,
    /// How the results are printed.
    pub style: OutputStyle,
}

/// What is done with each line of an input.
#[derive(Drop)]
pub enum LineJob<'a> {
    /// A task, whose result is a line.
    One(ExactTask<'a>),
    /// Tasks that find values, which are one line.
    Several(Row<'a>),
}

impl LineJob<'_> {
    /// Returns whether the run ends at the first line at fault.
    fn is_strict(&self) -> bool {
        match self {
            LineJob::One(exact) => exact.run.is_strict,
            LineJob::Several(row) => row.is_strict,
        }
    }
}

/// Does the job on each line of the input, as [`run_lines`] does. A line is also at fault if a number of
/// its result would lose digits and may not.
pub fn run_exact_lines<R: BufRead, W: Write, E: Write>(
    alloc: Global,
    job: &LineJob<'_>,
    input: &mut R,
    output: &mut W,
    errors: &mut E,
) -> Result<Ended, TaskError> {
    if let LineJob::One(exact) = job {
        if !is_checked(&exact.run.task, exact.style) {
            return run_lines(alloc, &exact.run, input, output, errors);
        }
    }
    let outcome = read_lines(alloc, job, input, output, errors);
    let first = output.flush();
    let second = errors.flush();
    let ended = outcome?;
    if first.is_err() || second.is_err() {
        return Err(TaskError::Write);
    }
    Ok(ended)
}

/// Does the job on each line, and does not flush.
fn read_lines<R: BufRead, W: Write, E: Write>(
    alloc: Global,
    job: &LineJob<'_>,
    input: &mut R,
    output: &mut W,
    errors: &mut E,
) -> Result<Ended, TaskError> {
    let mut buffers = Buffers::new(alloc);
    let mut line = Vec::new(alloc);
    let mut ended = Ended::Fine;
    for number in 1..u64::MAX {
        let ending = next_line(input, &mut line)?;
        if ending == Ending::NoLine {
            return Ok(ended);
        }
        let read = Line {
            number,
            bytes: &line,
        };
        if !put_job(&mut buffers, job, read, output, errors)? {
            if job.is_strict() {
                return Ok(Ended::Stopped);
            }
            ended = Ended::WithErrors;
        }
        if ending == Ending::Input {
            return Ok(ended);
        }
    }
    Err(TaskError::Read)
}

/// Writes the result of the job on the line, or reports the line. Returns whether it has a result.
fn put_job<W: Write, E: Write>(
    buffers: &mut Buffers,
    job: &LineJob<'_>,
    line: Line<'_>,
    output: &mut W,
    errors: &mut E,
) -> Result<bool, TaskError> {
    match job {
        LineJob::One(exact) => put_exact_line(buffers, exact, line, output, errors),
        LineJob::Several(row) => put_row(buffers, row, line, output, errors),
    }
}

/// Writes the result of the line, or reports it. Returns whether the line has a result.
pub fn put_exact_line<W: Write, E: Write>(
    buffers: &mut Buffers,
    exact: &ExactTask<'_>,
    line: Line<'_>,
    output: &mut W,
    errors: &mut E,
) -> Result<bool, TaskError> {
    let run = &exact.run;
    let alloc = *run.name.allocator();
    match line_loss(alloc, exact, line.bytes)? {
        Some(loss) => {
            let report = report_of(alloc, run.name.as_str(), line.number, &loss)?;
            put_fault(&run.fallback, report.as_str(), output, errors)?;
            Ok(false)
        }
        None => put_line(buffers, run, line, output, errors),
    }
}

/// Returns the first number that the task loses digits of in the line, if there is one.
fn line_loss(
    alloc: Global,
    exact: &ExactTask<'_>,
    line: &[u8],
) -> Result<Option<LossError>, AllocError> {
    match from_utf8(line) {
        Ok(text) => loss_of(alloc, text, &exact.run.task, exact.style),
        // The run reports it.
        Err(_) => Ok(None),
    }
}

/// Returns the report of a line that loses digits.
fn report_of(
    alloc: Global,
    name: &str,
    number: u64,
    loss: &LossError,
) -> Result<String, AllocError> {
    let message = loss.message(alloc)?;
    format!(in alloc; "{name}:{number}: {message}\n")
}
