//! Reading a patch document.

use crate::document::Document;
use crate::program_error::ProgramError;
use jptr_tasks::task_error::TaskError;
use jsonptr_text_value::{FailedPatch, PatchText, PlainPatch};
use std::alloc::Global;

/// A patch document.
#[derive(Drop)]
pub struct PatchFile<'a> {
    /// Its name and its bytes.
    pub source: Document<'a>,
    /// The document, and its operations.
    pub patch: PlainPatch,
}

impl<'a> PatchFile<'a> {
    /// Reads a patch document from a file or from standard input.
    pub fn read(rt: &HostRuntime, file: &'a str) -> Result<PatchFile<'a>, ProgramError> {
        let alloc = rt.alloc();
        let source = Document::read(rt, Some(file))?;
        match PlainPatch::of(alloc, source.value(alloc)?) {
            Ok(patch) => Ok(PatchFile { source, patch }),
            Err(FailedPatch { document, error }) => Err(ProgramError::of_patch(
                alloc,
                source.name,
                &document,
                TaskError::from(error),
            )),
        }
    }

    /// Returns the patch with the texts of its values.
    pub fn into_raw(self, alloc: Global) -> Result<PatchText, ProgramError> {
        let PatchFile { source, patch } = self;
        let given = source.text(alloc)?;
        match patch.with_texts(alloc, given) {
            Ok(patch) => Ok(patch),
            Err(error) => {
                let error = TaskError::from(error);
                Err(ProgramError::of_error(alloc, source.name, "", error))
            }
        }
    }
}
