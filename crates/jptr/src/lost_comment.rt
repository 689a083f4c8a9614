//! Why an edit is not made in a text with comments, and which comment it would lose.

use crate::position::Position;
use crate::program_error::ProgramError;
use jptr_tasks::exit_status::NOT_MADE;
use jsonptr::Pointer;
use jsonptr_comments_edit::{Buffers, CommentedText, Edit, EditError, edit_commented};
use jsonptr_patch::Operation;
use jsonptr_text_edit::{LocateError, Located, locate};
use std::alloc::{AllocError, Global};

/// Returns the error of an edit that is not made in the text with this name: with the comment that it
/// would lose, as far as that is known.
pub fn not_in_place(
    alloc: Global,
    name: &str,
    text: &CommentedText<'_>,
    edit: &Edit<'_>,
    reformats: bool,
) -> ProgramError {
    match lost_by(&mut Buffers::new(alloc), text, edit) {
        Ok(lost) => {
            let message = reason(alloc, lost, reformats);
            ProgramError::of_message(alloc, NOT_MADE, name, message)
        }
        Err(_) => ProgramError::Memory,
    }
}

/// Returns what is said of an edit that is not made, and of the comment that it would lose.
fn reason(alloc: Global, lost: Option<Position>, reformats: bool) -> Result<String, AllocError> {
    let hint = if reformats {
        "; --reformat does not apply to a document with comments"
    } else {
        ""
    };
    match lost {
        Some(Position { line, column }) => {
            format!(in alloc;
                "the edit would lose the comment at line {line} column {column}{hint}"
            )
        }
        None => format!(in alloc; "the edit cannot be made in the text with its comments{hint}"),
    }
}

/// Returns the position of the comment that the edit would lose, if it moves a value.
fn lost_by(
    buffers: &mut Buffers,
    text: &CommentedText<'_>,
    edit: &Edit<'_>,
) -> Result<Option<Position>, AllocError> {
    match moved_by(edit) {
        Some(pointer) => lost_with(buffers, text, pointer),
        None => Ok(None),
    }
}

/// Returns the pointer of the value that the edit moves, if it moves one and does nothing else.
fn moved_by<'e>(edit: &'e Edit<'_>) -> Option<Pointer<'e>> {
    let Edit::Patch(patch) = edit else {
        return None;
    };
    match patch.operations.as_slice() {
        [only] => match &only.operation {
            Operation::Move { from, .. } => Some(from.as_ptr()),
            _ => None,
        },
        _ => None,
    }
}

/// Returns the position of the first comment that goes with the value, if one does: in it, or after it
/// on its line.
fn lost_with(
    buffers: &mut Buffers,
    text: &CommentedText<'_>,
    pointer: Pointer<'_>,
) -> Result<Option<Position>, AllocError> {
    let Some(comment) = comment_of(buffers, text, pointer)? else {
        return Ok(None);
    };
    let rest = first_line(text.text.get(comment..).unwrap_or(""));
    if stays_without(buffers, text, pointer, rest)? {
        Ok(None)
    } else {
        Ok(Some(Position::at(text.text, comment)))
    }
}

/// Returns the offset of the first comment in the value, or after it on its line.
fn comment_of(
    buffers: &mut Buffers,
    text: &CommentedText<'_>,
    pointer: Pointer<'_>,
) -> Result<Option<usize>, AllocError> {
    match locate(buffers, text.bare.as_str(), pointer) {
        Ok(located) => Ok(comment_after(text, located)),
        Err(LocateError::Memory(error)) => Err(error),
        Err(_) => Ok(None),
    }
}

/// Returns the offset of the first comment in the value that is located, or after it on its line.
fn comment_after(text: &CommentedText<'_>, located: Located<'_>) -> Option<usize> {
    let start = located.before.len();
    let end = start.saturating_add(located.value.len());
    let line = first_line(text.text.get(end..)?);
    let searched = text.text.get(start..end.saturating_add(line.len()))?;
    let bare = text.bare.as_str().get(start..)?;
    for (at, (own, other)) in searched.bytes().zip(bare.bytes()).enumerate() {
        if own == b'/' && other == b' ' {
            return Some(start.saturating_add(at));
        }
    }
    None
}

/// Returns the text up to its first line break.
fn first_line(text: &str) -> &str {
    match text.find('\n') {
        Some(end) => text.get(..end).unwrap_or(text),
        None => text,
    }
}

/// Returns whether the rest of a line is in the text without the value too.
fn stays_without(
    buffers: &mut Buffers,
    text: &CommentedText<'_>,
    pointer: Pointer<'_>,
    rest: &str,
) -> Result<bool, AllocError> {
    match edit_commented(buffers, text, &Edit::Delete(pointer)) {
        Ok(edited) => match edited.in_place() {
            Some(left) => Ok(left.contains(rest)),
            None => Ok(true),
        },
        Err(EditError::Memory(error)) => Err(error),
        Err(_) => Ok(true),
    }
}
