//! Commands on a document as lines: its nodes, and the document that lines build.

use crate::digits::{check_bytes, check_lines};
use crate::document::{Document, FileFormat};
use crate::guesses::check_guesses;
use crate::invocation::Options;
use crate::output::print_text;
use crate::program_error::ProgramError;
use crate::style::layout_of;
use crate::toml_file;
use jptr_tasks::paths::{built_text, listed_text};
use jsonptr_text_paths::listing::Listed;
use simdutf8::basic::from_utf8;
use std::alloc::Global;

/// Prints a line for each leaf of a document, or for each node.
pub fn paths(rt: &HostRuntime, options: &Options<'_>, which: Listed) -> Result<u8, ProgramError> {
    let alloc = rt.alloc();
    if options.format == FileFormat::Toml {
        toml_file::check_flags(alloc, options, false)?;
    }
    let source = Document::open(rt, options)?;
    let lines = match source.format() {
        FileFormat::Json | FileFormat::Commented => lines_of(
            alloc,
            which,
            options.is_lossy,
            &source,
        )?,
        FileFormat::Toml => toml_file::lines_of(alloc, which, &source)?,
    };
    print_text(rt, lines.as_str())?;
    Ok(0)
}

/// Returns a line for each leaf of a JSON document, or for each node.
fn lines_of(
    alloc: Global,
    which: Listed,
    is_lossy: bool,
    source: &Document<'_>,
) -> Result<String, ProgramError> {
    match listed_text(alloc, source.as_bytes(), which) {
        Ok(lines) => {
            if !is_lossy {
                check_bytes(alloc, source.name, source.as_bytes())?;
            }
            Ok(lines)
        }
        Err(error) => Err(source.error(alloc, "", error)),
    }
}

/// Prints the document that lines build.
pub fn from_paths(rt: &HostRuntime, options: &Options<'_>) -> Result<u8, ProgramError> {
    let alloc = rt.alloc();
    let lines = Document::read(rt, options.file)?;
    match built_text(alloc, lines.as_bytes(), layout_of(options.layout)) {
        Ok(text) => {
            check_guesses(alloc, lines.name, from_utf8(lines.as_bytes()).unwrap_or(""))?;
            put_built(rt, &lines, text.as_str(), options.is_lossy)
        }
        Err(error) => Err(lines.error(alloc, "", error)),
    }
}

/// Prints the document that lines built, unless a number lost digits and may not.
fn put_built(
    rt: &HostRuntime,
    lines: &Document<'_>,
    text: &str,
    is_lossy: bool,
) -> Result<u8, ProgramError> {
    if !is_lossy {
        check_lines(rt.alloc(), lines.name, lines.as_bytes())?;
    }
    print_text(rt, text)?;
    Ok(0)
}
