//! A task on each line of an input.
ghost use Rattle.std.specs.Prelude.{◌≡◌, ◌&&◌, not, IfOk, IfErr};
ghost use Rattle.std.specs.Io.KnownBytes.{Keeps};
ghost use Rattle.jptr_tasks.specs.Runs.{IsRun, RunStopsIn};
ghost use Rattle.jptr_tasks.specs.PrivateLineResults.{IsPut, StopsPut};
ghost use Rattle.jptr_tasks.specs.PrivateRuns.{IsTurn, StopsTurn, ended_as};
ghost use Rattle.jptr_tasks.specs.declared.task_error.TaskError.TheVariants.{Write};

use crate::line::{Line, LineTask, put_line};
use crate::task_error::TaskError;
use jsonptr_io::read::{Ending, next_line};
use jsonptr_text_step::Buffers;
use std::alloc::Global;
use std::io;

/// How a run over the lines of an input ends.
#[derive(Debug, Clone, Copy, PartialEq, Eq)]
pub enum Ended {
    /// After the last line, and each line has a result.
    Fine,
    /// After the last line, and some line is at fault.
    WithErrors,
    /// At the first line at fault, since the run is strict.
    Stopped,
}

/// The line that a run is at, and the memory to read it.
#[derive(Drop)]
struct State {
    /// The memory to read the document on the line.
    buffers: Buffers,
    /// The number of the line, from 1.
    number: u64,
    /// The bytes of the line, without its line break.
    bytes: Vec<u8>,
}

/// What is known after a turn of the run.
#[derive(Debug, Clone, Copy, PartialEq, Eq)]
enum Turn {
    /// A line was read that ends in a line break. It has a result, or not.
    Line(bool),
    /// The last line was read. It has a result, or not.
    LastLine(bool),
    /// There was no further line.
    NoLine,
}

/// Does the task on each line of the input, and writes each result as a line, in the order of the
/// input.
///
/// A line of white space is passed over. For a line at fault, writes the fallback, if there is one, and
/// a line on `errors`: the name of the input, the number of the line from 1, and the error. The run goes
/// on, or ends there if it is strict. The memory is that of the longest line and of its result.
///
/// Each line is written by one call for `output`, so use a writer with a buffer. Both writers
/// are flushed at the end, also after an error.
///
/// # Errors
///
/// - [`TaskError::Read`] if a read fails.
/// - [`TaskError::Write`] if a write or a flush fails.
/// - [`TaskError::Memory`] if an allocation fails.
///
/// What was written is then a prefix of the results of some first lines of the input.
///
/// # Examples
///
/// ```rust
/// let run = LineTask {
///     task: Task::Get(Pointer::parse("/a")?, None),
///     layout: Layout::Kept,
///     fallback: None,
///     name: String::from_str(alloc, "input")?,
///     is_strict: false,
/// };
/// let mut input = b"{\"a\": 1}\n{\"b\": 2}\n".as_slice();
/// let mut output = Vec::new(alloc);
/// let mut errors = Vec::new(alloc);
/// let ended = run_lines(alloc, &run, &mut input, &mut output, &mut errors)?;
/// assert_eq!(rt; ended, Ended::WithErrors);
/// assert_eq!(rt; output.as_slice(), b"1\n".as_slice());
/// assert!(rt; errors.as_slice().starts_with(b"input:2: "));
/// ```
pub fn run_lines<R: io::BufRead, W: io::Write, E: io::Write>(
    alloc: Global,
    run: &LineTask<'_>,
    input: &mut R,
    output: &mut W,
    errors: &mut E,
) -> Result<Ended, TaskError>
    ensures written { IfOk result (IsRun run.now (R.remaining input.old) (W.contents output.old)
        (W.contents output.new) (E.contents errors.old) (E.contents errors.new)) }
    ensures refused { IfErr result (RunStopsIn run.now (R.remaining input.old) (W.contents output.old)
        (W.contents output.new) (E.contents errors.old) (E.contents errors.new)) }
{
    let outcome = read_lines(alloc, run, input, output, errors);
    let flushed = flush_both(output, errors);
    let ended = outcome?;
    flushed?;
    Ok(ended)
}

/// Does the task on each line, and does not flush.
fn read_lines<R: io::BufRead, W: io::Write, E: io::Write>(
    alloc: Global,
    run: &LineTask<'_>,
    input: &mut R,
    output: &mut W,
    errors: &mut E,
) -> Result<Ended, TaskError>
    ensures written { IfOk result (IsRun run.now (R.remaining input.old) (W.contents output.old)
        (W.contents output.new) (E.contents errors.old) (E.contents errors.new)) }
    ensures refused { IfErr result (RunStopsIn run.now (R.remaining input.old) (W.contents output.old)
        (W.contents output.new) (E.contents errors.old) (E.contents errors.new)) }
{
    let mut state = State {
        buffers: Buffers::new(alloc),
        number: 0,
        bytes: Vec::new(alloc),
    };
    let mut is_fine = true;
    for number in 1..u64::MAX {
        state.number = number;
        let is_next_fine = match take_turn(run, &mut state, input, output, errors)? {
            Turn::NoLine => return Ok(end_of(is_fine)),
            Turn::LastLine(is_last_fine) => return Ok(end_of(both(is_fine, is_last_fine))),
            Turn::Line(is_next_fine) => is_next_fine,
        };
        if stops(run.is_strict, is_next_fine) {
            return Ok(Ended::Stopped);
        }
        is_fine = both(is_fine, is_next_fine);
    }
    Err(TaskError::Read)
}

/// Returns whether both parts of a run are fine. A function of its own, as those below, so that the proof
/// of the loop can name it.
fn both(is_first_fine: bool, is_second_fine: bool) -> bool
    ensures { result ≡ (is_first_fine && is_second_fine) }
{
    is_first_fine && is_second_fine
}

/// Returns whether the run ends after a line.
fn stops(is_strict: bool, is_fine: bool) -> bool
    ensures { result ≡ (is_strict && not is_fine) }
{
    is_strict && !is_fine
}

/// Returns how a run ends after its last line.
fn end_of(is_fine: bool) -> Ended
    ensures { result ≡ ended_as is_fine }
{
    if is_fine {
        Ended::Fine
    } else {
        Ended::WithErrors
    }
}

/// Reads the next line, which has the number of the state, and writes its result.
fn take_turn<R: io::BufRead, W: io::Write, E: io::Write>(
    run: &LineTask<'_>,
    state: &mut State,
    input: &mut R,
    output: &mut W,
    errors: &mut E,
) -> Result<Turn, TaskError>
    ensures written { IfOk result (IsTurn run.now state.old.number (R.remaining input.old)
        (R.remaining input.new) (W.contents output.old) (W.contents output.new)
        (E.contents errors.old) (E.contents errors.new)) }
    ensures refused { IfErr result (StopsTurn run.now state.old.number (R.remaining input.old)
        (R.remaining input.new) (W.contents output.old) (W.contents output.new)
        (E.contents errors.old) (E.contents errors.new)) }
{
    match next_line(input, &mut state.bytes)? {
        Ending::NoLine => Ok(Turn::NoLine),
        Ending::Break => {
            let is_fine = put_read(run, state, output, errors)?;
            Ok(Turn::Line(is_fine))
        }
        Ending::Input => {
            let is_fine = put_read(run, state, output, errors)?;
            Ok(Turn::LastLine(is_fine))
        }
    }
}

/// Writes the result of the line that was read.
fn put_read<W: io::Write, E: io::Write>(
    run: &LineTask<'_>,
    state: &mut State,
    output: &mut W,
    errors: &mut E,
) -> Result<bool, TaskError>
    ensures written { IfOk result (IsPut run.now state.old.number state.old.bytes.items
        (W.contents output.old) (W.contents output.new)
        (E.contents errors.old) (E.contents errors.new)) }
    ensures refused { IfErr result (StopsPut run.now state.old.number state.old.bytes.items
        (W.contents output.old) (W.contents output.new)
        (E.contents errors.old) (E.contents errors.new)) }
{
    let line = Line {
        number: state.number,
        bytes: &state.bytes,
    };
    put_line(&mut state.buffers, run, line, output, errors)
}

/// Flushes both writers, the second one also if the first one fails.
fn flush_both<W: io::Write, E: io::Write>(output: &mut W, errors: &mut E) -> Result<(), TaskError>
    ensures output { Keeps (W.contents output.old) (W.contents output.new) }
    ensures errors { Keeps (E.contents errors.old) (E.contents errors.new) }
    ensures refused { IfErr result (λ e. e ≡ Write) }
{
    let first = output.flush();
    let second = errors.flush();
    if first.is_err() || second.is_err() {
        return Err(TaskError::Write);
    }
    Ok(())
}
