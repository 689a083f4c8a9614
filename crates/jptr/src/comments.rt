//! JSON with comments and trailing commas: what is read past, and edits that keep the comments.

use crate::lost_comment::not_in_place;
use crate::program_error::ProgramError;
use jptr_tasks::document::text_result;
use jptr_tasks::exit_status::NOT_MADE;
use jptr_tasks::layout::Layout;
use jptr_tasks::task::Task;
use jptr_tasks::task_error::TaskError;
use jsonptr::Fault;
use jsonptr_comments_edit::{Buffers, CommentedText, Edit, edit_commented};
use memchr::memmem;
use std::alloc::Global;
use std::borrow::CowStr;

/// Why a document with comments is not laid out anew.
const OTHER_LAYOUT: &str =
    "the document has comments or trailing commas, which another layout would lose";

/// A text with comments, and the same with spaces instead of them.
#[derive(Clone, Copy)]
pub struct BothTexts<'t> {
    /// The text.
    pub whole: &'t str,
    /// The text with spaces instead of its comments and trailing commas.
    pub bare: &'t str,
}

/// Returns the text with spaces instead of its comments and trailing commas, or `None` if it has none.
pub fn bare(alloc: Global, name: &str, text: &str) -> Result<Option<String>, ProgramError> {
    let CommentedText { bare, .. } = read(alloc, name, text)?;
    match bare {
        CowStr::Borrowed(_same) => Ok(None),
        CowStr::Owned(bare) => Ok(Some(bare)),
    }
}

/// Takes the comments out of the text with this name.
fn read<'t>(alloc: Global, name: &str, text: &'t str) -> Result<CommentedText<'t>, ProgramError> {
    match CommentedText::read(alloc, text) {
        Ok(read) => Ok(read),
        Err(Fault::Refused(error)) => Err(ProgramError::of_comment(
            alloc,
            name,
            text,
            error.offset,
        )),
        Err(Fault::Memory(_error)) => Err(ProgramError::Memory),
    }
}

/// Returns the error of a document with this name, whose comments a command would lose.
pub fn other_layout(alloc: Global, name: &str) -> ProgramError {
    ProgramError::new(alloc, NOT_MADE, name, OTHER_LAYOUT)
}

/// Returns the text with comments after the task, or the error of the task. Fails if the task would lose
/// comments.
///
/// A value that is found is printed without comments: as it is written, or on lines if it has comments in it.
pub fn result_with_comments(
    alloc: Global,
    name: &str,
    texts: BothTexts<'_>,
    task: &Task<'_>,
    reformats: bool,
) -> Result<Result<String, TaskError>, ProgramError> {
    match task {
        Task::Get(_, _) => Ok(found(alloc, texts, task)),
        Task::Edit(edit) => {
            let text = read(alloc, name, texts.whole)?;
            edited(alloc, name, &text, edit, reformats)
        }
    }
}

/// Returns the error of an edit that is possible in the text with this name, but not in place: with the comment
/// that it would lose, as far as that is known.
pub fn edit_loses(
    alloc: Global,
    name: &str,
    texts: BothTexts<'_>,
    edit: &Edit<'_>,
    reformats: bool,
) -> Result<ProgramError, ProgramError> {
    let text = read(alloc, name, texts.whole)?;
    Ok(not_in_place(alloc, name, &text, edit, reformats))
}

/// Returns what is printed for a value that is found in the text without comments. A value that is
/// neither an array nor an object has no comments in it.
fn found(alloc: Global, texts: BothTexts<'_>, task: &Task<'_>) -> Result<String, TaskError> {
    let value = text_result(alloc, texts.bare, task, Layout::Kept)?;
    let written = value.as_str().trim_end().as_bytes();
    let is_scalar = !written.starts_with(b"[") && !written.starts_with(b"{");
    if is_scalar || memmem::find(texts.whole.as_bytes(), written).is_some() {
        Ok(value)
    } else {
        text_result(alloc, texts.bare, task, Layout::Pretty)
    }
}

/// Returns the text after the edit in place, or the error of the edit. Fails if it cannot be made in place.
fn edited(
    alloc: Global,
    name: &str,
    text: &CommentedText<'_>,
    edit: &Edit<'_>,
    reformats: bool,
) -> Result<Result<String, TaskError>, ProgramError> {
    let mut buffers = Buffers::new(alloc);
    match edit_commented(&mut buffers, text, edit) {
        Ok(edited) => match edited.in_place() {
            Some(new) => Ok(Ok(new)),
            None => Err(not_in_place(alloc, name, text, edit, reformats)),
        },
        Err(error) => Ok(Err(TaskError::from(error))),
    }
}
