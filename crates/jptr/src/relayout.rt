//! The command `relayout`: a document in the layout of the file that it was made from.

use crate::digits::check_text;
use crate::document::Document;
use crate::input::is_standard;
use crate::invocation::Options;
use crate::operands::check_json;
use crate::program_error::ProgramError;
use jptr_tasks::exit_status::{NOT_MADE, USAGE};
use jsonptr_text_relayout::{Buffers, Relaid, RelayoutTextError, relayout_text};
use std::alloc::Global;

/// Why a document is not printed.
const NOT_LAID_OUT: &str =
    "the new document cannot be laid out as the file is; --reformat takes it as it is";

/// Prints the new document in the layout of the file, or replaces the text of the file by it.
pub fn relayout(
    rt: &HostRuntime,
    options: &Options<'_>,
    new: Option<&str>,
) -> Result<u8, ProgramError> {
    check_names(rt.alloc(), options.file, new)?;
    let source = Document::open(rt, options)?;
    source.check_bare(rt.alloc())?;
    let new = Document::read(rt, new)?;
    let text = relaid(rt.alloc(), options, &source, &new)?;
    source.put(rt, text.as_str())?;
    Ok(0)
}

/// Fails if standard input would be both documents, or if the file is TOML.
fn check_names(alloc: Global, file: Option<&str>, new: Option<&str>) -> Result<(), ProgramError> {
    if is_standard(file) && is_standard(new) {
        let message = "standard input cannot be both documents";
        return Err(ProgramError::new(alloc, USAGE, "FILE", message));
    }
    check_json(alloc, "relayout", file)
}

/// Returns the new document in the layout of the old text.
fn relaid(
    alloc: Global,
    options: &Options<'_>,
    old: &Document<'_>,
    new: &Document<'_>,
) -> Result<String, ProgramError> {
    let old_text = old.text(alloc)?;
    let new_text = new.text(alloc)?;
    let mut buffers = Buffers::new(alloc);
    let text = match relayout_text(&mut buffers, old_text, new_text) {
        Ok(Relaid::Kept(text)) => text,
        Ok(Relaid::Rewritten(text)) => {
            if !options.reformats {
                return Err(ProgramError::new(alloc, NOT_MADE, old.name, NOT_LAID_OUT));
            }
            text
        }
        Err(RelayoutTextError::OldNotJson) => return Err(ProgramError::of_bytes(
            alloc,
            old.name,
            old.as_bytes(),
        )),
        Err(RelayoutTextError::NewNotJson) => {
            return Err(ProgramError::of_bytes(alloc, new.name, new.as_bytes()));
        }
        Err(RelayoutTextError::Memory(_)) => return Err(ProgramError::Memory),
    };
    if !options.is_lossy && old_text != new_text {
        check_text(alloc, old.name, old_text)?;
        check_text(alloc, new.name, new_text)?;
    }
    Ok(text)
}
