//! The flag `--inverse`: a patch, and a file with the patch that takes it back.

use crate::digits::check_inverse;
use crate::document::Document;
use crate::input::{is_standard, name_of};
use crate::invocation::Options;
use crate::program_error::ProgramError;
use crate::style::{OutputStyle, style_of};
use crate::task::source_result;
use crate::written::Written;
use jptr_tasks::exit_status::USAGE;
use jptr_tasks::inverse::inverse_of;
use jptr_tasks::task::Task;
use jptr_tasks::task_error::TaskError;
use jsonptr_text_edit::Edit;
use jsonptr_text_value::PatchText;
use std::alloc::Global;
use std::fs;
use std::os::unix::fs::MetadataExt;

/// A patch of a document, and the name of the file for its inverse.
#[derive(Drop)]
struct Inverting<'a> {
    /// The patch.
    patch: PatchText,
    /// How the new document and the inverse are printed.
    style: OutputStyle,
    /// The name of the file for the inverse.
    undo: &'a str,
}

/// The texts of the new document and of the patch that takes the patch back.
#[derive(Drop)]
struct Texts {
    /// The text of the new document.
    new: String,
    /// The text of the inverse.
    undo: String,
}

/// Applies the patch, and writes the one that takes it back to the file `undo`. It is there before the
/// document is printed or changed. After an error the file is what it was before.
pub fn patch_with_inverse(
    rt: &HostRuntime,
    options: &Options<'_>,
    patch: PatchText,
    undo: &str,
) -> Result<u8, ProgramError> {
    check_name(rt, undo, options.file)?;
    let inverting = Inverting {
        patch,
        style: style_of(rt.alloc(), options)?,
        undo,
    };
    let source = Document::open(rt, options)?;
    let texts = texts_of(rt.alloc(), inverting, &source)?;
    let written = Written::write(rt, undo, texts.undo.as_str())?;
    let put = source.put(rt, texts.new.as_str());
    written.settle(rt, put)?.keep(rt);
    Ok(0)
}

/// Fails if the inverse would go to standard output, or to the file of the document.
fn check_name(rt: &HostRuntime, undo: &str, file: Option<&str>) -> Result<(), ProgramError> {
    let alloc = rt.alloc();
    if is_standard(Some(undo)) {
        return Err(ProgramError::new(alloc, USAGE, "--inverse", "needs a file"));
    }
    if !is_standard(file) && is_same_file(rt, undo, name_of(file)) {
        return Err(ProgramError::new(alloc, USAGE, "--inverse", "names the document"));
    }
    Ok(())
}

/// Returns whether both paths name one file.
fn is_same_file(rt: &HostRuntime, left: &str, right: &str) -> bool {
    match (fs::metadata(rt, left), fs::metadata(rt, right)) {
        (Ok(left), Ok(right)) => (left.dev(), left.ino()) == (right.dev(), right.ino()),
        _ => false,
    }
}

/// Returns the texts of the new document and of the patch that takes the patch back.
fn texts_of(
    alloc: Global,
    inverting: Inverting<'_>,
    source: &Document<'_>,
) -> Result<Texts, ProgramError> {
    let undo = undo_text(alloc, &inverting, source)?;
    let style = inverting.style;
    let task = Task::Edit(Edit::Patch(inverting.patch));
    let new = source_result(alloc, source, &task, style)?;
    Ok(Texts { new, undo })
}

/// Returns the text of the patch that takes the patch back, with a line break at its end.
fn undo_text(
    alloc: Global,
    inverting: &Inverting<'_>,
    source: &Document<'_>,
) -> Result<String, ProgramError> {
    let text = source.text(alloc)?;
    match inverse_of(
        alloc,
        text,
        &inverting.patch.document,
        inverting.style.layout,
    ) {
        Ok(inverse) => {
            if !inverting.style.is_lossy {
                let operations = inverting.patch.operations.as_slice();
                check_inverse(alloc, source.name, text, operations)?;
            }
            let mut text = inverse.text;
            text.push('\n')?;
            Ok(text)
        }
        Err(TaskError::PatchTooDeep) => Err(ProgramError::of_error(
            alloc,
            inverting.undo,
            "",
            TaskError::PatchTooDeep,
        )),
        Err(error) => Err(source.patch_error(alloc, &inverting.patch.document, error)),
    }
}
