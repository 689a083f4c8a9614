//! Commands that are one operation of a patch (RFC 6902): `insert`, `move`, `copy` and `rename`.

use crate::document::{Document, FileFormat};
use crate::invocation::{Assignment, Options, Renaming, Transfer};
use crate::operands::{check_json, pointer_of};
use crate::program_error::ProgramError;
use crate::style::{OutputStyle, style_of};
use crate::task::{result_of, run_task, tried};
use crate::toml_file;
use crate::value_argument::ValueArgument;
use jptr_tasks::exit_status::{NOT_MADE, USAGE};
use jptr_tasks::layout::Layout;
use jptr_tasks::node::type_in_text;
use jptr_tasks::operation::{
    MoveError, copy_and_remove_patch, copy_patch, move_patch, moves_only_child, own_error,
    pointer_at_fault,
};
use jptr_tasks::task::Task;
use jptr_tasks::task_error::TaskError;
use jsonptr::Pointer;
use jsonptr_text_edit::{Edit, PatchText, RawValue, RenameError};
use std::alloc::Global;

/// Why a value is not moved.
const INTO_SELF: &str = "FROM is a proper prefix of it";

/// An operation, and the pointers that an error can be about.
#[derive(Drop)]
struct SingleOperation<'a> {
    /// The task of the patch that it is.
    task: Task<'a>,
    /// Where the value is taken from, if it is in the document.
    from: Option<Pointer<'a>>,
    /// Where it is put.
    path: Pointer<'a>,
}

impl<'a> SingleOperation<'a> {
    /// Returns the pointer that the error is about.
    fn pointer_of(&self, error: &TaskError) -> Pointer<'a> {
        match (error, self.from) {
            (TaskError::PatchFailed(failed), Some(from)) => {
                pointer_at_fault(failed, from, self.path)
            }
            _ => self.path,
        }
    }
}

/// Inserts a value before an element of an array, or adds a member: the operation `add`.
pub fn insert(
    rt: &HostRuntime,
    options: &Options<'_>,
    assignment: Assignment<'_>,
) -> Result<u8, ProgramError> {
    let alloc = rt.alloc();
    check_json(alloc, "insert", options.file)?;
    let path = pointer_of(alloc, assignment.pointer)?;
    let value = ValueArgument::read(rt, assignment.value, options.file)?.raw(alloc)?;
    if options.lines.is_some() {
        return run_task(
            rt,
            options,
            Task::Edit(Edit::Patch(addition(alloc, path, value)?)),
        );
    }
    let source = Document::open(rt, options)?;
    let style = style_of(alloc, options)?;
    let operation = SingleOperation {
        task: Task::Edit(Edit::Patch(addition(alloc, path, value)?)),
        from: None,
        path,
    };
    put(rt, &source, &operation, style)
}

/// Returns the patch that adds the value at the pointer.
fn addition(alloc: Global, path: Pointer<'_>, value: RawValue) -> Result<PatchText, ProgramError> {
    match PatchText::from_addition(alloc, path, value) {
        Ok(patch) => Ok(patch),
        Err(error) => {
            let error = TaskError::from(error);
            Err(ProgramError::of_error(alloc, "JSON", "", error))
        }
    }
}

/// Moves a value: the operation `move`.
pub fn move_value(
    rt: &HostRuntime,
    options: &Options<'_>,
    transfer: Transfer<'_>,
) -> Result<u8, ProgramError> {
    let alloc = rt.alloc();
    check_json(alloc, "move", options.file)?;
    let from = pointer_of(alloc, transfer.from)?;
    let path = pointer_of(alloc, transfer.path)?;
    let patch = match move_patch(alloc, from, path) {
        Ok(patch) => patch,
        Err(MoveError::IntoSelf) => {
            return Err(ProgramError::new(alloc, USAGE, "POINTER", INTO_SELF));
        }
        Err(MoveError::Memory(_)) => return Err(ProgramError::Memory),
    };
    let single = single_operation(from, path, patch);
    if options.lines.is_some() {
        return run_task(rt, options, single.task);
    }
    let source = Document::open(rt, options)?;
    put_moved(rt, options, &source, single)
}

/// Copies a value: the operation `copy`.
pub fn copy_value(
    rt: &HostRuntime,
    options: &Options<'_>,
    transfer: Transfer<'_>,
) -> Result<u8, ProgramError> {
    let alloc = rt.alloc();
    check_json(alloc, "copy", options.file)?;
    let from = pointer_of(alloc, transfer.from)?;
    let path = pointer_of(alloc, transfer.path)?;
    let single = single_operation(from, path, copy_patch(alloc, from, path)?);
    if options.lines.is_some() {
        return run_task(rt, options, single.task);
    }
    let source = Document::open(rt, options)?;
    put(rt, &source, &single, style_of(alloc, options)?)
}

/// Returns the operation of the patch, on the value at a pointer, which is put at another one.
fn single_operation<'a>(
    from: Pointer<'a>,
    path: Pointer<'a>,
    patch: PatchText,
) -> SingleOperation<'a> {
    SingleOperation {
        task: Task::Edit(Edit::Patch(patch)),
        from: Some(from),
        path,
    }
}

/// Renames a member. Fails if another member of the object has the key.
pub fn rename(
    rt: &HostRuntime,
    options: &Options<'_>,
    renaming: Renaming<'_>,
) -> Result<u8, ProgramError> {
    let alloc = rt.alloc();
    let pointer = pointer_of(alloc, renaming.pointer)?;
    if pointer.is_root() {
        return Err(ProgramError::new(alloc, USAGE, "POINTER", "the root has no key"));
    }
    if options.format == FileFormat::Toml {
        return toml_file::rename(rt, options, pointer, renaming.key);
    }
    let source = Document::open(rt, options)?;
    let task = Task::Edit(Edit::Rename(pointer, renaming.key));
    match tried(alloc, &source, &task, style_of(alloc, options)?)? {
        Ok(new) => {
            source.put(rt, new.as_str())?;
            Ok(0)
        }
        Err(TaskError::NotRenamed(error)) => Err(not_renamed(alloc, &source, pointer, error)?),
        Err(error) => Err(source.error(alloc, pointer.as_str(), error)),
    }
}

/// Returns why the member is not renamed.
fn not_renamed(
    alloc: Global,
    source: &Document<'_>,
    pointer: Pointer<'_>,
    error: RenameError,
) -> Result<ProgramError, ProgramError> {
    let message = match error {
        RenameError::NotThere => return missing(alloc, source, pointer),
        RenameError::NotAMember => "not a member of an object",
        RenameError::KeyTaken => "there is a member with this key",
    };
    Ok(ProgramError::new(alloc, NOT_MADE, source.name, message))
}

/// Returns the error of a pointer that resolves to nothing.
fn missing(
    alloc: Global,
    source: &Document<'_>,
    pointer: Pointer<'_>,
) -> Result<ProgramError, ProgramError> {
    match type_in_text(alloc, source.text(alloc)?, pointer) {
        Ok(_) => Ok(source.error(alloc, pointer.as_str(), TaskError::NotThere)),
        Err(error) => Ok(source.error(alloc, pointer.as_str(), error)),
    }
}

/// Prints the document after a move, or replaces the text of the file by it.
///
/// A move onto itself changes nothing. The only child of an array or an object is copied and then removed,
/// where that is the same: while it is there, it shows the layout.
fn put_moved(
    rt: &HostRuntime,
    options: &Options<'_>,
    source: &Document<'_>,
    operation: SingleOperation<'_>,
) -> Result<u8, ProgramError> {
    let mut operation = operation;
    if operation.from == Some(operation.path) {
        return put_unmoved(rt, options, source, operation.path);
    }
    let other = only_child_patch(rt.alloc(), source, &operation)?;
    let style = style_of(rt.alloc(), options)?;
    if let Some(patch) = other {
        // A move that is made loses no comment.
        if !source.has_comments() || is_made(rt.alloc(), source, &operation, style)? {
            operation.task = Task::Edit(Edit::Patch(patch));
        }
    }
    put(rt, source, &operation, style)
}

/// Prints the document, or leaves its file as it is, if the pointer resolves to a value.
fn put_unmoved(
    rt: &HostRuntime,
    options: &Options<'_>,
    source: &Document<'_>,
    pointer: Pointer<'_>,
) -> Result<u8, ProgramError> {
    let alloc = rt.alloc();
    if let Err(error) = type_in_text(alloc, source.text(alloc)?, pointer) {
        return Err(source.error(alloc, pointer.as_str(), error));
    }
    let style = style_of(alloc, options)?;
    if style.layout == Layout::Kept {
        source.put(rt, source.whole_text(alloc)?.as_str())?;
        return Ok(0);
    }
    source.check_bare(alloc)?;
    let whole = Task::Get(Pointer::root(), None);
    let text = result_of(alloc, source.name, source.as_bytes(), &whole, style)?;
    source.put(rt, text.as_str())?;
    Ok(0)
}

/// Returns whether the operation can be made in the document.
fn is_made(
    alloc: Global,
    source: &Document<'_>,
    operation: &SingleOperation<'_>,
    style: OutputStyle,
) -> Result<bool, ProgramError> {
    match tried(alloc, source, &operation.task, style) {
        Ok(made) => Ok(made.is_ok()),
        Err(ProgramError::Memory) => Err(ProgramError::Memory),
        // It is made again, and its error is reported then.
        Err(_error) => Ok(false),
    }
}

/// Returns the patch that copies the only child of an array or an object to another place in it, and then
/// removes it. Returns `None` if the operation does not move such a child.
fn only_child_patch(
    alloc: Global,
    source: &Document<'_>,
    operation: &SingleOperation<'_>,
) -> Result<Option<PatchText>, ProgramError> {
    let (Some(from), path) = (operation.from, operation.path) else {
        return Ok(None);
    };
    if !moves_only_child(alloc, source.text(alloc)?, from, path)? {
        return Ok(None);
    }
    Ok(Some(copy_and_remove_patch(alloc, from, path)?))
}

/// Prints the document after the operation, or replaces the text of the file by it.
fn put(
    rt: &HostRuntime,
    source: &Document<'_>,
    operation: &SingleOperation<'_>,
    style: OutputStyle,
) -> Result<u8, ProgramError> {
    let alloc = rt.alloc();
    match tried(alloc, source, &operation.task, style)? {
        Ok(new) => {
            source.put(rt, new.as_str())?;
            Ok(0)
        }
        Err(error) => {
            let pointer = operation.pointer_of(&error);
            Err(source.error(alloc, pointer.as_str(), error_of(error)))
        }
    }
}

/// Returns the error of the one operation, without its number.
fn error_of(error: TaskError) -> TaskError {
    match error {
        TaskError::PatchFailed(failed) => own_error(failed),
        error => error,
    }
}
