//! The errors of a command, and its exit status.
ghost use Rattle.std.specs.Prelude.{◌≡◌};
ghost use Rattle.jptr_tasks.specs.Failures.{of_read_error, of_in_text_error, of_locate_error, of_edit_error, of_patch_text_error, of_build_error, of_input_error, of_relayout_error, status_of_task, status_of_rename, status_of_line};
ghost use Rattle.jptr_tasks.specs.declared.task_error.TaskError.TheVariants.{Memory, Write};

use crate::exit_status::{BAD_INPUT, FILE, MEMORY, NO, NOT_MADE};
use jsonptr::{assign, resolve};
use jsonptr_io::input::InputError;
use jsonptr_io::write::WriteError;
use jsonptr_patch::FailedOperation;
use jsonptr_patch_document::PatchDocumentError;
use jsonptr_text_edit::{EditError, RenameError};
use jsonptr_text_paths::build::{BuildError, LineError};
use jsonptr_text_relayout::RelayoutError;
use jsonptr_text_resolve::InTextError;
use jsonptr_text_step::LocateError;
use jsonptr_text_value::PatchTextError;
use jsonptr_value::{MAX_DEPTH, ReadError};
use std::alloc::AllocError;
use thiserror::Error;

/// An error of a command. Its text is one line.
#[derive(Debug, Drop, Error)]
pub enum TaskError {
    /// A patch document is not a patch.
    #[error(transparent)]
    NotPatch(PatchDocumentError),
    /// The pointer does not resolve to a value.
    #[error(transparent)]
    Resolve(resolve::Error),
    /// No value can be assigned at the pointer.
    #[error(transparent)]
    Assign(assign::Error),
    /// The pointer of the value to delete does not resolve.
    #[error("delete failed: json pointer does not resolve")]
    NotThere,
    /// The pointer does not resolve to a member that can be renamed so.
    #[error(transparent)]
    NotRenamed(RenameError),
    /// An operation of the patch fails. The pointer at fault comes with the error.
    #[error(transparent)]
    PatchFailed(FailedOperation),
    /// The new document nests deeper than 127.
    #[error("document would nest deeper than {}", MAX_DEPTH)]
    TooDeep,
    /// The edit is possible, but not in place: the document would have to be printed anew, or a text of
    /// one line would have more.
    #[error("document cannot be edited in place")]
    NotInPlace,
    /// The value is there, but the check of where its text is failed.
    #[error("value cannot be located in the text")]
    NotLocated,
    /// The patch that turns one document into another nests deeper than 127.
    #[error("patch would nest deeper than {}", MAX_DEPTH)]
    PatchTooDeep,
    /// The result of a line contains a line break.
    #[error("result contains a line break")]
    LineBreak,
    /// The line with this number, from 1, adds no value to the document that lines build.
    #[error("line {0}: {1}")]
    BadLine(usize, LineError),
    /// Lines are not UTF-8.
    #[error("text is not UTF-8")]
    NotUtf8,
    /// The text is not a JSON text, or not UTF-8.
    #[error("text is not JSON")]
    NotJson,
    /// An allocation failed.
    #[error("out of memory")]
    Memory(AllocError),
    /// A read failed.
    #[error("reading failed")]
    Read,
    /// A write failed.
    #[error("writing failed")]
    Write,
}

impl TaskError {
    /// Returns the [exit status](crate::exit_status) of the program.
    pub fn status(&self) -> u8
        ensures { result ≡ status_of_task self.now }
    {
        match self {
            TaskError::Resolve(_) | TaskError::NotThere | TaskError::PatchFailed(_) => NO,
            TaskError::NotRenamed(error) => rename_status(error),
            TaskError::Assign(_)
            | TaskError::TooDeep
            | TaskError::NotInPlace
            | TaskError::NotLocated
            | TaskError::PatchTooDeep
            | TaskError::LineBreak => NOT_MADE,
            TaskError::BadLine(_, error) => line_status(error),
            TaskError::NotPatch(_) | TaskError::NotUtf8 | TaskError::NotJson => BAD_INPUT,
            TaskError::Memory(_) => MEMORY,
            TaskError::Read | TaskError::Write => FILE,
        }
    }
}

/// Returns the exit status for a member that is not renamed.
fn rename_status(error: &RenameError) -> u8
    ensures { result ≡ status_of_rename error.now }
{
    match error {
        RenameError::NotThere => NO,
        RenameError::NotAMember | RenameError::KeyTaken => NOT_MADE,
    }
}

/// Returns the exit status for a line that adds no value.
fn line_status(error: &LineError) -> u8
    ensures { result ≡ status_of_line error.now }
{
    match error {
        LineError::NoTab | LineError::NotPointer | LineError::NotJson => BAD_INPUT,
        LineError::TooDeep | LineError::Assign(_) => NOT_MADE,
    }
}

impl From<BuildError> for TaskError {
    ghost from_gives = { λ error task_error. task_error ≡ of_build_error error };

    fn from(error: BuildError) -> TaskError {
        match error {
            BuildError::Line(number, error) => TaskError::BadLine(number, error),
            BuildError::Memory(error) => TaskError::Memory(error),
        }
    }
}

impl From<AllocError> for TaskError {
    ghost from_gives = { λ error task_error. task_error ≡ Memory error };

    fn from(error: AllocError) -> TaskError {
        TaskError::Memory(error)
    }
}

impl From<InputError> for TaskError {
    ghost from_gives = { λ error task_error. task_error ≡ of_input_error error };

    fn from(error: InputError) -> TaskError {
        match error {
            InputError::Memory(error) => TaskError::Memory(error),
            InputError::Read => TaskError::Read,
        }
    }
}

impl From<WriteError> for TaskError {
    ghost from_gives = { λ _ task_error. task_error ≡ Write };

    fn from(_error: WriteError) -> TaskError {
        TaskError::Write
    }
}

impl From<ReadError> for TaskError {
    ghost from_gives = { λ error task_error. task_error ≡ of_read_error error };

    fn from(error: ReadError) -> TaskError {
        match error {
            ReadError::NotJson => TaskError::NotJson,
            ReadError::Memory(error) => TaskError::Memory(error),
        }
    }
}

impl From<LocateError> for TaskError {
    ghost from_gives = { λ error task_error. task_error ≡ of_locate_error error };

    fn from(error: LocateError) -> TaskError {
        match error {
            LocateError::NotJson => TaskError::NotJson,
            LocateError::Resolve(error) => TaskError::Resolve(error),
            LocateError::NotLocated => TaskError::NotLocated,
            LocateError::Memory(error) => TaskError::Memory(error),
        }
    }
}

impl From<InTextError> for TaskError {
    ghost from_gives = { λ error task_error. task_error ≡ of_in_text_error error };

    fn from(error: InTextError) -> TaskError {
        match error {
            InTextError::NotJson => TaskError::NotJson,
            InTextError::Resolve(error) => TaskError::Resolve(error),
            InTextError::Memory(error) => TaskError::Memory(error),
        }
    }
}

impl From<EditError> for TaskError {
    ghost from_gives = { λ error task_error. task_error ≡ of_edit_error error };

    fn from(error: EditError) -> TaskError {
        match error {
            EditError::NotJson => TaskError::NotJson,
            EditError::Assign(error) => TaskError::Assign(error),
            EditError::NotThere => TaskError::NotThere,
            EditError::Rename(error) => TaskError::NotRenamed(error),
            EditError::Patch(error) => TaskError::PatchFailed(error),
            EditError::TooDeep => TaskError::TooDeep,
            EditError::Memory(error) => TaskError::Memory(error),
        }
    }
}

impl From<PatchTextError> for TaskError {
    ghost from_gives = { λ error task_error. task_error ≡ of_patch_text_error error };

    fn from(error: PatchTextError) -> TaskError {
        match error {
            PatchTextError::NotPatch(error) => TaskError::NotPatch(error),
            PatchTextError::NotLocated => TaskError::NotLocated,
            PatchTextError::TooDeep => TaskError::PatchTooDeep,
            PatchTextError::Memory(error) => TaskError::Memory(error),
        }
    }
}

impl From<RelayoutError> for TaskError {
    ghost from_gives = { λ error task_error. task_error ≡ of_relayout_error error };

    fn from(error: RelayoutError) -> TaskError {
        match error {
            RelayoutError::NotJson => TaskError::NotJson,
            RelayoutError::TooDeep => TaskError::TooDeep,
            RelayoutError::Memory(error) => TaskError::Memory(error),
        }
    }
}
