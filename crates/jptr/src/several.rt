//! The tasks of `get`, `set` and `delete`, also of several pointers: all of them apply, or nothing is
//! printed or changed.

use crate::comments::edit_loses;
use crate::digits::LossError;
use crate::document::Document;
use crate::exact_lines::{ExactTask, LineJob};
use crate::expansion::expansion_error;
use crate::invocation::{Assigning, Assignment, Deleting, Finding, LineFlags, Options, ValueWord};
use crate::operands::pointer_of;
use crate::output::print_text;
use crate::program_error::ProgramError;
use crate::rows::{Row, RowForm, row_text};
use crate::style::{OutputStyle, style_of};
use crate::task::{
    fallback_of, laid_out, line_name, line_task, result_of, run_job, source_result, task_error,
};
use crate::value_argument::{ValueArgument, json_default};
use jptr_tasks::exit_status::USAGE;
use jptr_tasks::layout::Layout;
use jptr_tasks::several::{EditRules, FailedEdit, StepError, edit_each};
use jptr_tasks::task::Task;
use jptr_tasks::task_error::TaskError;
use jsonptr::Pointer;
use jsonptr_text_edit::{Buffers, Edit};
use std::alloc::{AllocError, Global};

/// Returns the task of finding the value at the pointer with this text.
pub fn get_task<'a>(
    alloc: Global,
    pointer: &'a str,
    default: Option<&str>,
    is_lossy: bool,
) -> Result<Task<'a>, ProgramError> {
    let pointer = pointer_of(alloc, pointer)?;
    Ok(Task::Get(pointer, json_default(alloc, default, is_lossy)?))
}

/// Returns the edit that assigns a value in the document in this file.
pub fn assignment_of<'a>(
    rt: &HostRuntime,
    file: Option<&str>,
    assignment: Assignment<'a>,
) -> Result<Edit<'a>, ProgramError> {
    let pointer = pointer_of(rt.alloc(), assignment.pointer)?;
    let value = ValueArgument::read(rt, assignment.value, file)?.raw(rt.alloc())?;
    Ok(Edit::Assign(pointer, value))
}

/// Prints the value that each pointer resolves to, each on its own or all as one object.
pub fn get_each(
    rt: &HostRuntime,
    options: &Options<'_>,
    finding: &Finding<'_>,
) -> Result<u8, ProgramError> {
    let alloc = rt.alloc();
    let tasks = get_tasks(alloc, finding, options.is_lossy)?;
    let style = style_of(alloc, options)?;
    let source = Document::open_json(rt, options)?;
    let values = if finding.is_object {
        object_of(alloc, &source, tasks.as_slice(), style)?
    } else {
        values_of(alloc, &source, tasks.as_slice(), style)?
    };
    if style.layout == Layout::Raw {
        print_text(rt, values.as_str())?;
    } else {
        source.print(rt, values.as_str())?;
    }
    Ok(0)
}

/// Returns the tasks of finding the value at each pointer.
fn get_tasks<'a>(
    alloc: Global,
    finding: &Finding<'a>,
    is_lossy: bool,
) -> Result<Vec<Task<'a>>, ProgramError> {
    let mut tasks = Vec::new(alloc);
    for text in &finding.pointers {
        tasks.push(get_task(alloc, *text, finding.default, is_lossy)?)?;
    }
    Ok(tasks)
}

/// Returns the results of the tasks on the document, one after another.
fn values_of(
    alloc: Global,
    source: &Document<'_>,
    tasks: &[Task<'_>],
    style: OutputStyle,
) -> Result<String, ProgramError> {
    let mut values = String::new(alloc);
    for task in tasks {
        let value = source_result(alloc, source, task, style)?;
        values.push_str(value.as_str())?;
    }
    Ok(values)
}

/// Returns one object of the results of the tasks on the document. Its keys are the pointers.
fn object_of(
    alloc: Global,
    source: &Document<'_>,
    tasks: &[Task<'_>],
    style: OutputStyle,
) -> Result<String, ProgramError> {
    let mut object = String::new(alloc);
    let mut before = "{";
    for task in tasks {
        let value = source_result(alloc, source, task, style.for_edit())?;
        object.push_str(before)?;
        push_member(alloc, &mut object, task, value.as_str().trim_end())?;
        before = ", ";
    }
    object.push('}')?;
    let whole = Task::Get(Pointer::root(), None);
    result_of(alloc, source.name, object.as_bytes(), &whole, style)
}

/// Appends the member of a value that a task found.
fn push_member(
    alloc: Global,
    object: &mut String,
    task: &Task<'_>,
    value: &str,
) -> Result<(), AllocError> {
    object.push_str(key_of(alloc, task)?.as_str())?;
    object.push_str(": ")?;
    object.push_str(value)
}

/// Returns the key of a value that a task found: its pointer, as a JSON string.
fn key_of(alloc: Global, task: &Task<'_>) -> Result<String, AllocError> {
    match task {
        Task::Get(pointer, _) => pointer.to_json_value(alloc)?.to_string(alloc),
        Task::Edit(_) => Ok(String::new(alloc)),
    }
}

/// Prints the values that the pointers resolve to in each line, as one line.
pub fn get_rows(
    rt: &HostRuntime,
    options: &Options<'_>,
    finding: &Finding<'_>,
    flags: LineFlags,
) -> Result<u8, ProgramError> {
    let alloc = rt.alloc();
    let tasks = get_tasks(alloc, finding, options.is_lossy)?;
    let style = style_of(alloc, options)?;
    let form = row_form(alloc, tasks.as_slice(), finding.is_object, style.layout)?;
    let fallback = row_fallback(alloc, &form, tasks.as_slice(), style)?;
    let mut cells = Vec::new(alloc);
    for task in tasks {
        let layout = cell_layout(finding.is_object, style);
        let run = line_task(alloc, options.file, task, layout, flags.is_strict)?;
        cells.push(ExactTask { run, style })?;
    }
    let row = Row {
        cells,
        form,
        fallback,
        name: line_name(alloc, options.file)?,
        is_strict: flags.is_strict,
    };
    run_job(rt, options.file, flags, &LineJob::Several(row))
}

/// Returns how each value of a line is laid out: those of an object with it.
fn cell_layout(is_object: bool, style: OutputStyle) -> Layout {
    if is_object {
        Layout::Kept
    } else {
        style.layout
    }
}

/// Returns how the values of the tasks are one line.
fn row_form(
    alloc: Global,
    tasks: &[Task<'_>],
    is_object: bool,
    layout: Layout,
) -> Result<RowForm, AllocError> {
    if !is_object {
        return Ok(RowForm::Tabs);
    }
    let mut keys = Vec::new(alloc);
    for task in tasks {
        keys.push(key_of(alloc, task)?)?;
    }
    Ok(RowForm::Object(keys, layout))
}

/// Returns what is printed for a line at fault: the value of `--default` for each task.
fn row_fallback(
    alloc: Global,
    form: &RowForm,
    tasks: &[Task<'_>],
    style: OutputStyle,
) -> Result<Option<String>, ProgramError> {
    let mut values = String::new(alloc);
    for task in tasks {
        let layout = match form {
            RowForm::Tabs => style.layout,
            RowForm::Object(_, _) => Layout::Compact,
        };
        match fallback_of(alloc, task, layout)? {
            Some(value) => values.push_str(value.as_str())?,
            None => return Ok(None),
        }
    }
    match row_text(alloc, form, values.as_str()) {
        Ok(Some(text)) => Ok(Some(text)),
        Ok(None) => Err(ProgramError::new(alloc, USAGE, "--default", "contains a tab")),
        Err(error) => Err(ProgramError::of_error(alloc, "--default", "", error)),
    }
}

/// Deletes the value at each pointer, in order.
pub fn delete_each(
    rt: &HostRuntime,
    options: &Options<'_>,
    deleting: &Deleting<'_>,
) -> Result<u8, ProgramError> {
    let alloc = rt.alloc();
    check_several(alloc, options)?;
    let mut edits = Vec::new(alloc);
    for text in &deleting.pointers {
        edits.push(Edit::Delete(pointer_of(alloc, *text)?))?;
    }
    let rules = SeveralRules {
        style: style_of(alloc, options)?,
        expands: true,
        skips_missing: deleting.skips_missing,
    };
    put_each(rt, &Document::open(rt, options)?, edits, rules)
}

/// Assigns each value at the pointer before it, in order.
pub fn set_each(
    rt: &HostRuntime,
    options: &Options<'_>,
    assigning: &Assigning<'_>,
) -> Result<u8, ProgramError> {
    let alloc = rt.alloc();
    if assigning.assignments.len() > 1 {
        check_several(alloc, options)?;
    }
    check_values(alloc, assigning.assignments.as_slice())?;
    let mut edits = Vec::new(alloc);
    for assignment in &assigning.assignments {
        edits.push(assignment_of(rt, options.file, *assignment)?)?;
    }
    let rules = SeveralRules {
        style: style_of(alloc, options)?,
        expands: assigning.expands,
        skips_missing: false,
    };
    let source = Document::open_to_set(rt, options, assigning.creates)?;
    put_each(rt, &source, edits, rules)
}

/// How edits are made one after another, and their result is printed.
#[derive(Clone, Copy)]
struct SeveralRules {
    /// How the document is edited and printed.
    style: OutputStyle,
    /// Whether containers are created on the way to a value, and scalars replaced by them.
    expands: bool,
    /// Whether a value that is not there is no error.
    skips_missing: bool,
}

impl SeveralRules {
    /// Returns how each edit of a document is made, with comments or without.
    fn of_edits(self, has_comments: bool) -> EditRules {
        let style = self.style.for_edit();
        EditRules {
            expands: self.expands,
            skips_missing: self.skips_missing,
            reprints: style.reformats,
            is_lossy: style.is_lossy,
            has_comments,
        }
    }
}

/// Makes the edits one after another in the document, and prints it, or replaces the text of the file by
/// it.
fn put_each(
    rt: &HostRuntime,
    source: &Document<'_>,
    edits: Vec<Edit<'_>>,
    rules: SeveralRules,
) -> Result<u8, ProgramError> {
    let alloc = rt.alloc();
    let mut rules = rules;
    if source.missing.is_some() {
        rules.style = rules.style.for_new();
    }
    if rules.style.layout != Layout::Kept {
        source.check_bare(alloc)?;
    }
    let edited = edited_by_each(alloc, source, edits, rules.of_edits(source.has_comments()))?;
    source.put(
        rt,
        laid_out(alloc, source.name, edited, rules.style)?.as_str(),
    )?;
    Ok(0)
}

/// Returns the text of the document after the edits, one after another.
fn edited_by_each(
    alloc: Global,
    source: &Document<'_>,
    edits: Vec<Edit<'_>>,
    rules: EditRules,
) -> Result<String, ProgramError> {
    let mut buffers = Buffers::new(alloc);
    let text = source.whole_text(alloc)?;
    match edit_each(&mut buffers, text, edits.as_slice(), rules) {
        Ok(new) => Ok(new),
        Err(failed) => Err(failed_edit(alloc, source, edits, failed, rules.reprints)?),
    }
}

/// Returns the error of the edit that failed, with what is at fault in the text before it.
fn failed_edit(
    alloc: Global,
    source: &Document<'_>,
    edits: Vec<Edit<'_>>,
    failed: FailedEdit,
    reformats: bool,
) -> Result<ProgramError, ProgramError> {
    let FailedEdit {
        index,
        before,
        error,
    } = failed;
    let before = Document::of(alloc, source.name, source.format(), before.into_bytes())?;
    let mut edits = edits;
    if index >= edits.len() {
        return Ok(ProgramError::Memory);
    }
    let edit = edits.swap_remove(index);
    match error {
        StepError::Comment(error) => Ok(ProgramError::of_comment(
            alloc,
            before.name,
            before.text(alloc)?,
            error.offset,
        )),
        StepError::Expands(error) => Ok(expansion_error(alloc, &before, &edit, error)),
        StepError::Edit(TaskError::NotInPlace) => not_made(alloc, &before, edit, reformats),
        StepError::Edit(error) => Ok(fault_of(alloc, &before, edit, error)),
        StepError::Loses(loss) => Ok(LossError::of(loss).error(alloc, before.name)),
    }
}

/// Returns the error of the edit that is possible, but not in place in the document: with the comment that it would
/// lose, if it has comments.
fn not_made(
    alloc: Global,
    before: &Document<'_>,
    edit: Edit<'_>,
    reformats: bool,
) -> Result<ProgramError, ProgramError> {
    match before.both_texts() {
        Some(texts) => edit_loses(alloc, before.name, texts, &edit, reformats),
        None => Ok(fault_of(alloc, before, edit, TaskError::NotInPlace)),
    }
}

/// Returns the error of the edit, with what is at fault in the document.
fn fault_of(
    alloc: Global,
    before: &Document<'_>,
    edit: Edit<'_>,
    error: TaskError,
) -> ProgramError {
    let task = Task::Edit(edit);
    task_error(alloc, before.name, before.as_bytes(), &task, error)
}

/// Fails if each line is a document, for which there is one edit.
fn check_several(alloc: Global, options: &Options<'_>) -> Result<(), ProgramError> {
    if options.lines.is_some() {
        return Err(ProgramError::new(alloc, USAGE, "--lines", "takes one pointer"));
    }
    Ok(())
}

/// Fails if standard input would be more than one value.
pub fn check_values(alloc: Global, assignments: &[Assignment<'_>]) -> Result<(), ProgramError> {
    let mut is_read = false;
    for assignment in assignments {
        if is_read && is_input(assignment.value) {
            let message = "standard input cannot be two values";
            return Err(ProgramError::new(alloc, USAGE, "JSON", message));
        }
        is_read = is_read || is_input(assignment.value);
    }
    Ok(())
}

/// Returns whether the value is that of standard input.
fn is_input(value: ValueWord<'_>) -> bool {
    !value.is_string && value.text == "@-"
}
