//! A patch of many operations: the new document in the layout of the text.

use crate::document::Document;
use crate::invocation::Options;
use crate::patch_file::PatchFile;
use crate::program_error::ProgramError;
use crate::style::{OutputStyle, indented, style_of};
use crate::task::{checked, on_source};
use jptr_tasks::layout::Layout;
use jptr_tasks::long_patch::patch_in_layout;
use jptr_tasks::task::Task;
use jptr_tasks::task_error::TaskError;
use jsonptr_text_digits::find_lost;
use jsonptr_text_edit::Edit;
use jsonptr_text_value::{FailedPatch, PatchText};
use serde_json::Value;
use simdutf8::basic::from_utf8;
use std::alloc::{AllocError, Global};

/// Applies the patch to the document, and prints the new one or replaces the text of the file by it.
///
/// Where the patch or the document has a number that loses digits, or no text is found in the layout of
/// the old one, the operations are applied in the text, one by one.
pub fn patch_long(
    rt: &HostRuntime,
    options: &Options<'_>,
    patch: PatchFile<'_>,
    is_check: bool,
) -> Result<u8, ProgramError> {
    let alloc = rt.alloc();
    let source = Document::open(rt, options)?;
    let mut style = style_of(alloc, options)?;
    if is_check {
        style.layout = Layout::Compact;
    }
    if source.has_comments() || !keeps_digits(alloc, &source, &patch.source)? {
        return one_by_one(rt, &source, patch.into_raw(alloc)?, style, is_check);
    }
    match new_text(alloc, &source, patch, style)? {
        Ok(_new) if is_check => Ok(0),
        Ok(new) => {
            source.put(rt, new.as_str())?;
            Ok(0)
        }
        Err(patch) => one_by_one(rt, &source, patch, style, is_check),
    }
}

/// Returns whether both are texts, and no number of them loses digits.
fn keeps_digits(
    alloc: Global,
    source: &Document<'_>,
    patch: &Document<'_>,
) -> Result<bool, AllocError> {
    let (Ok(text), Ok(given)) = (from_utf8(source.as_bytes()), from_utf8(patch.as_bytes())) else {
        return Ok(false);
    };
    Ok(find_lost(alloc, text)?.is_none() && find_lost(alloc, given)?.is_none())
}

/// Returns the new document. Returns the patch if its operations have to be applied in the text, one by
/// one.
fn new_text(
    alloc: Global,
    source: &Document<'_>,
    patch: PatchFile<'_>,
    style: OutputStyle,
) -> Result<Result<String, PatchText>, ProgramError> {
    let PatchFile {
        source: file,
        patch,
    } = patch;
    let given = file.text(alloc)?;
    match patch_in_layout(alloc, source.text(alloc)?, patch, given, style.layout) {
        Ok(new) => Ok(Ok(finished(alloc, source, new, style)?)),
        Err(FailedPatch { document, error }) => match error {
            TaskError::NotInPlace => Ok(Err(raw_patch_in(alloc, &file, document)?)),
            error => Err(source.patch_error(alloc, &document, error)),
        },
    }
}

/// Returns the new document as it is printed, with a line break at its end if it is laid out anew.
fn finished(
    alloc: Global,
    source: &Document<'_>,
    new: String,
    style: OutputStyle,
) -> Result<String, ProgramError> {
    let mut new = new;
    if style.layout != Layout::Kept {
        new.push('\n')?;
    }
    match indented(alloc, new, style) {
        Ok(new) => Ok(new),
        Err(error) => Err(source.error(alloc, "", error)),
    }
}

/// Returns the patch that the document is, with the texts of its values in the file.
fn raw_patch_in(
    alloc: Global,
    file: &Document<'_>,
    document: Value,
) -> Result<PatchText, ProgramError> {
    match PatchText::of(alloc, file.text(alloc)?, document) {
        Ok(patch) => Ok(patch),
        Err(error) => {
            let error = TaskError::from(error);
            Err(ProgramError::of_error(alloc, file.name, "", error))
        }
    }
}

/// Applies the operations in the text.
fn one_by_one(
    rt: &HostRuntime,
    source: &Document<'_>,
    patch: PatchText,
    style: OutputStyle,
    is_check: bool,
) -> Result<u8, ProgramError> {
    let task = Task::Edit(Edit::Patch(patch));
    if is_check {
        checked(rt.alloc(), source, &task)
    } else {
        on_source(rt, source, &task, style)
    }
}
