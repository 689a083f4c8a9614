//! Running a task: on one document, on each line, or on a file in place.

use crate::colors::are_colored;
use crate::comments::{other_layout, result_with_comments};
use crate::digits::{LossError, check_result, is_checked};
use crate::document::{Document, FileFormat};
use crate::drawn::fault_of_task;
use crate::exact_lines::{ExactTask, LineJob, run_exact_lines};
use crate::input::{name_of, open};
use crate::invocation::{LineFlags, Options};
use crate::output::{Output, print_text};
use crate::program_error::ProgramError;
use crate::shown::shown;
use crate::style::{OutputStyle, indented, style_of};
use jptr_tasks::document::{document_result, run_document};
use jptr_tasks::exit_status::{BAD_LINE, USAGE};
use jptr_tasks::layout::{Layout, show};
use jptr_tasks::line::LineTask;
use jptr_tasks::lines::Ended;
use jptr_tasks::reprint::{ExactError, edit_exactly};
use jptr_tasks::task::Task;
use jptr_tasks::task_error::TaskError;
use jsonptr::Pointer;
use jsonptr_text_edit::{Buffers, Edit, Edited, edit_text};
use simdutf8::basic::from_utf8;
use std::alloc::{AllocError, Global};
use std::io::{BufReader, BufWriter, IsTerminal};

/// The bytes that are read or written at once where each line is a document.
const BLOCK: usize = 65_536;

/// Runs the task as the flags say, and returns the exit status.
pub fn run_task(
    rt: &HostRuntime,
    options: &Options<'_>,
    task: Task<'_>,
) -> Result<u8, ProgramError> {
    let style = style_of(rt.alloc(), options)?;
    run_styled(rt, options, task, style)
}

/// Runs the task as the flags say, with results in this style, and returns the exit status.
pub fn run_styled(
    rt: &HostRuntime,
    options: &Options<'_>,
    task: Task<'_>,
    style: OutputStyle,
) -> Result<u8, ProgramError> {
    if let Some(flags) = options.lines {
        on_lines(rt, options.file, flags, task, style)
    } else if is_read_first(options, &task, style) || are_colored(rt, options.color)? {
        on_source(rt, &Document::open(rt, options)?, &task, style)
    } else {
        on_document(rt, &task, style, options.file)
    }
}

/// Returns whether the document is read before anything is printed: to change its file, to read past
/// comments, to look for numbers that lose digits, or to print the result with an indentation of its own.
fn is_read_first(options: &Options<'_>, task: &Task<'_>, style: OutputStyle) -> bool {
    options.is_in_place
        || options.format == FileFormat::Commented
        || style.indent.is_some()
        || may_print(task, style)
        || is_checked(task, style)
}

/// Returns whether the result of the task may be a document that is printed anew.
fn may_print(task: &Task<'_>, style: OutputStyle) -> bool {
    matches!(task, Task::Edit(_)) && (style.reformats || style.layout != Layout::Kept)
}

/// Runs the task on a document that is read, and prints nothing.
pub fn checked(alloc: Global, source: &Document<'_>, task: &Task<'_>) -> Result<u8, ProgramError> {
    match document_result(alloc, source.as_bytes(), task, Layout::Kept) {
        Ok(_new) => Ok(0),
        // The operations apply, but not in place.
        Err(TaskError::NotInPlace) => Ok(0),
        Err(error) => Err(task_error(alloc, source.name, source.as_bytes(), task, error)),
    }
}

/// Runs the task on one document, and prints the result.
fn on_document(
    rt: &HostRuntime,
    task: &Task<'_>,
    style: OutputStyle,
    file: Option<&str>,
) -> Result<u8, ProgramError> {
    let alloc = rt.alloc();
    let mut input = open(rt, file)?;
    let mut output = Output::new(rt);
    let mut bytes = Vec::new(alloc);
    match run_document(task, style.layout, &mut input, &mut bytes, &mut output) {
        Ok(()) => Ok(0),
        Err(TaskError::Read) => Err(input.read_error(alloc, name_of(file))),
        Err(TaskError::Write) => Err(output.error(alloc)),
        Err(error) => {
            let source = Document::of(alloc, name_of(file), FileFormat::Json, bytes)?;
            if source.has_mark {
                return on_source(rt, &source, task, style);
            }
            Err(task_error(alloc, source.name, source.as_bytes(), task, error))
        }
    }
}

/// Runs the task on a document that is read first, and prints the result or replaces the text of the
/// file by it.
pub fn on_source(
    rt: &HostRuntime,
    source: &Document<'_>,
    task: &Task<'_>,
    style: OutputStyle,
) -> Result<u8, ProgramError> {
    let new = source_result(rt.alloc(), source, task, style)?;
    match task {
        Task::Get(_, _) if style.layout == Layout::Raw => print_text(rt, new.as_str())?,
        Task::Get(_, _) if source.target.is_none() => source.print(rt, new.as_str())?,
        _ => source.put(rt, new.as_str())?,
    }
    Ok(0)
}

/// Returns the document after the task, with its comments. Fails if the task loses digits of a number.
pub fn source_result(
    alloc: Global,
    source: &Document<'_>,
    task: &Task<'_>,
    style: OutputStyle,
) -> Result<String, ProgramError> {
    match tried(alloc, source, task, style)? {
        Ok(new) => Ok(new),
        Err(error) => Err(task_error(alloc, source.name, source.as_bytes(), task, error)),
    }
}

/// Returns the document after the task, with its comments, or the error of the task. Fails if the task
/// would lose digits of a number, or comments.
pub fn tried(
    alloc: Global,
    source: &Document<'_>,
    task: &Task<'_>,
    style: OutputStyle,
) -> Result<Result<String, TaskError>, ProgramError> {
    match source.both_texts() {
        Some(texts) if keeps_comments(source, task, style) => {
            if style.layout != Layout::Kept {
                return Err(other_layout(alloc, source.name));
            }
            result_with_comments(alloc, source.name, texts, task, style.reformats)
        }
        _ => match task {
            Task::Edit(edit) if may_print(task, style) => {
                edited_once(alloc, source.name, source.as_bytes(), edit, style)
            }
            _ => {
                check_result(alloc, source.name, source.as_bytes(), task, style)?;
                Ok(result_in_style(alloc, source.as_bytes(), task, style))
            }
        },
    }
}

/// Returns the document with this name after the edit, which is made once, or the error of the edit. Fails if the
/// document has to be printed anew and a number would lose digits.
fn edited_once(
    alloc: Global,
    name: &str,
    bytes: &[u8],
    edit: &Edit<'_>,
    style: OutputStyle,
) -> Result<Result<String, TaskError>, ProgramError> {
    let Ok(text) = from_utf8(bytes) else {
        return Ok(Err(TaskError::NotJson));
    };
    match edit_in_text(alloc, text, edit, style.is_lossy) {
        Ok(edited) => Ok(Ok(put_in_style(alloc, name, edited, style)?)),
        Err(ExactError::Edit(error)) => Ok(Err(TaskError::from(error))),
        Err(ExactError::Loses(loss)) => Err(LossError::of(loss).error(alloc, name)),
    }
}

/// Makes the edit in the text, or in its document. No number may lose digits unless it is lossy.
fn edit_in_text(
    alloc: Global,
    text: &str,
    edit: &Edit<'_>,
    is_lossy: bool,
) -> Result<Edited, ExactError> {
    let mut buffers = Buffers::new(alloc);
    if is_lossy {
        return Ok(edit_text(&mut buffers, text, edit)?);
    }
    edit_exactly(&mut buffers, text, edit)
}

/// Returns the edited document with this name in the layout of the style. One that is printed anew ends in a line
/// break.
fn put_in_style(
    alloc: Global,
    name: &str,
    edited: Edited,
    style: OutputStyle,
) -> Result<String, ProgramError> {
    let is_in_place = edited.is_in_place();
    let mut new = edited.or_reprinted();
    if !is_in_place {
        new.push('\n')?;
    }
    laid_out(alloc, name, new, style)
}

/// Returns the text of the document with this name in the layout of the style.
pub fn laid_out(
    alloc: Global,
    name: &str,
    text: String,
    style: OutputStyle,
) -> Result<String, ProgramError> {
    if style.layout == Layout::Kept {
        return Ok(text);
    }
    let whole = Task::Get(Pointer::root(), None);
    result_of(alloc, name, text.as_bytes(), &whole, style)
}

/// Returns whether the result of the task has the comments of the document, or may be a text of it.
fn keeps_comments(source: &Document<'_>, task: &Task<'_>, style: OutputStyle) -> bool {
    match task {
        Task::Get(_, _) => source.target.is_some() || style.layout == Layout::Kept,
        Task::Edit(_) => true,
    }
}

/// Returns the document after the task on the bytes of the one with this name. Fails if the task loses
/// digits of a number.
pub fn result_of(
    alloc: Global,
    name: &str,
    bytes: &[u8],
    task: &Task<'_>,
    style: OutputStyle,
) -> Result<String, ProgramError> {
    check_result(alloc, name, bytes, task, style)?;
    match result_in_style(alloc, bytes, task, style) {
        Ok(new) => Ok(new),
        Err(error) => Err(task_error(alloc, name, bytes, task, error)),
    }
}

/// Returns the result of the task on the bytes of a document, in the layout of the style.
fn result_in_style(
    alloc: Global,
    bytes: &[u8],
    task: &Task<'_>,
    style: OutputStyle,
) -> Result<String, TaskError> {
    let new = document_result(alloc, bytes, task, style.layout)?;
    indented(alloc, new, style)
}

/// Returns the error of a task that failed on the bytes of the document with this name, with what is at
/// fault.
pub fn task_error(
    alloc: Global,
    name: &str,
    bytes: &[u8],
    task: &Task<'_>,
    error: TaskError,
) -> ProgramError {
    let drawing = fault_of_task(alloc, bytes, task, &error);
    document_error(alloc, name, bytes, pointer_text(task), error).with_drawing(drawing)
}

/// Returns the text of the pointer of the task.
fn pointer_text<'t>(task: &'t Task<'_>) -> &'t str {
    match task {
        Task::Get(pointer, _) => pointer.as_str(),
        Task::Edit(Edit::Assign(pointer, _)) => pointer.as_str(),
        Task::Edit(Edit::Delete(pointer)) => pointer.as_str(),
        Task::Edit(Edit::Rename(pointer, _)) => pointer.as_str(),
        Task::Edit(Edit::Patch(_)) => "",
    }
}

/// Returns the error at this pointer in the bytes of the document with this name.
pub fn document_error(
    alloc: Global,
    name: &str,
    bytes: &[u8],
    pointer: &str,
    error: TaskError,
) -> ProgramError {
    match error {
        TaskError::NotJson => ProgramError::of_bytes(alloc, name, bytes),
        error => ProgramError::of_error(alloc, name, pointer, error),
    }
}

/// Runs the task on each line of the input, and prints each result as a line.
fn on_lines(
    rt: &HostRuntime,
    file: Option<&str>,
    flags: LineFlags,
    task: Task<'_>,
    style: OutputStyle,
) -> Result<u8, ProgramError> {
    let mut run = line_task(rt.alloc(), file, task, style.layout, flags.is_strict)?;
    run.fallback = fallback_of(rt.alloc(), &run.task, style.layout)?;
    let job = LineJob::One(ExactTask { run, style });
    run_job(rt, file, flags, &job)
}

/// Runs the job on each line of the input, and prints each result as a line.
pub fn run_job(
    rt: &HostRuntime,
    file: Option<&str>,
    flags: LineFlags,
    job: &LineJob<'_>,
) -> Result<u8, ProgramError> {
    let alloc = rt.alloc();
    // A writer without a buffer writes each line at once.
    let block = if flags.is_buffered || rt.stdout().is_terminal() {
        0
    } else {
        BLOCK
    };
    let source = open(rt, file)?;
    let Ok(mut input) = BufReader::with_capacity(alloc, BLOCK, source) else {
        return Err(ProgramError::Memory);
    };
    let Ok(mut output) = BufWriter::with_capacity(alloc, block, Output::new(rt)) else {
        return Err(ProgramError::Memory);
    };
    let Ok(mut errors) = BufWriter::with_capacity(alloc, block, rt.stderr()) else {
        return Err(ProgramError::Memory);
    };
    match run_exact_lines(alloc, job, &mut input, &mut output, &mut errors) {
        Ok(Ended::Fine) => Ok(0),
        Ok(Ended::WithErrors | Ended::Stopped) => Ok(BAD_LINE),
        Err(TaskError::Read) => Err(input.get_ref().read_error(alloc, name_of(file))),
        Err(TaskError::Write) => Err(output.get_ref().error(alloc)),
        Err(error) => Err(ProgramError::of_error(alloc, name_of(file), "", error)),
    }
}

/// Returns the task for each line, with results in this layout, and with nothing for a line at fault.
pub fn line_task<'a>(
    alloc: Global,
    file: Option<&str>,
    task: Task<'a>,
    layout: Layout,
    is_strict: bool,
) -> Result<LineTask<'a>, ProgramError> {
    Ok(LineTask {
        task,
        layout,
        fallback: None,
        name: line_name(alloc, file)?,
        is_strict,
    })
}

/// Returns the name of the input in reports of its lines.
pub fn line_name(alloc: Global, file: Option<&str>) -> Result<String, AllocError> {
    let file = shown(alloc, name_of(file))?;
    format!(in alloc; "jptr: {file}")
}

/// Returns what is printed for a line at fault: the value of `--default`, which must be one line.
pub fn fallback_of(
    alloc: Global,
    task: &Task<'_>,
    layout: Layout,
) -> Result<Option<String>, ProgramError> {
    let Task::Get(_, Some(value)) = task else {
        return Ok(None);
    };
    let mut text = show(alloc, value, layout)?;
    if text.as_bytes().contains(&b'\n') {
        let message = "contains a line break, which --lines does not allow";
        return Err(ProgramError::new(alloc, USAGE, "--default", message));
    }
    text.push('\n')?;
    Ok(Some(text))
}
