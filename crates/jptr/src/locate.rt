//! The command `locate`: where a value is in a file, and which value is at a position in it.

use crate::document::{Document, FileFormat};
use crate::input::{is_standard, name_of};
use crate::invocation::{FormatFlag, Locating, Options};
use crate::operands::{check_json, pointer_of};
use crate::output::print_line;
use crate::position::Position;
use crate::program_error::ProgramError;
use jptr_tasks::exit_status::{NO, USAGE};
use jptr_tasks::task_error::TaskError;
use jsonptr::Pointer;
use jsonptr_text_edit::{Buffers, LocateError, PointerAt, pointer_at};
use std::alloc::{AllocError, Global};

/// Prints where the value is that the pointer resolves to, or the pointer of the value at a position.
pub fn locate(
    rt: &HostRuntime,
    options: &Options<'_>,
    locating: Locating<'_>,
) -> Result<u8, ProgramError> {
    let alloc = rt.alloc();
    match locating.position {
        Some(argument) => {
            if options.file.is_some() {
                let message = "--at takes a file alone";
                return Err(ProgramError::new(alloc, USAGE, "locate", message));
            }
            print_pointer(rt, options.format_flag, locating.first, argument)
        }
        None => match locating.first {
            Some(pointer) => print_position(rt, options.format_flag, options.file, pointer),
            None => {
                let message = "needs a pointer, or --at LINE:COLUMN";
                Err(ProgramError::new(alloc, USAGE, "locate", message))
            }
        },
    }
}

/// Prints where the value is: the file, the line and the column.
fn print_position(
    rt: &HostRuntime,
    format: FormatFlag,
    file: Option<&str>,
    pointer: &str,
) -> Result<u8, ProgramError> {
    let alloc = rt.alloc();
    let pointer = pointer_of(alloc, pointer)?;
    check_json(alloc, "locate", file)?;
    let source = Document::read_as(rt, FileFormat::of(format, file), file)?;
    let mut buffers = Buffers::new(alloc);
    match jsonptr_text_edit::locate(&mut buffers, source.text(alloc)?, pointer) {
        Ok(located) => {
            let line = position_line(alloc, file, Position::after(located.before))?;
            print_line(rt, line.as_str())
        }
        Err(error) => Err(locate_error(alloc, &source, pointer, error)),
    }
}

/// Prints the pointer of the innermost value at the position.
fn print_pointer(
    rt: &HostRuntime,
    format: FormatFlag,
    file: Option<&str>,
    argument: &str,
) -> Result<u8, ProgramError> {
    let alloc = rt.alloc();
    let Some(position) = Position::parse(argument) else {
        return Err(ProgramError::new(alloc, USAGE, "--at", "is not LINE:COLUMN, both from 1"));
    };
    check_json(alloc, "locate", file)?;
    let source = Document::read_as(rt, FileFormat::of(format, file), file)?;
    let text = source.text(alloc)?;
    // No value is after the end, but the text is read.
    let offset = position.offset_in(text).unwrap_or(text.len());
    let mut buffers = Buffers::new(alloc);
    match pointer_at(&mut buffers, text, offset) {
        Ok(Some(PointerAt { pointer, .. })) => print_line(rt, pointer.as_ptr().as_str()),
        Ok(None) => Err(nothing_at(alloc, &source, argument)),
        Err(error) => Err(locate_error(alloc, &source, Pointer::root(), error)),
    }
}

/// Returns the error of a value that is not located.
fn locate_error(
    alloc: Global,
    source: &Document<'_>,
    pointer: Pointer<'_>,
    error: LocateError,
) -> ProgramError {
    source.error(alloc, pointer.as_str(), TaskError::from(error))
}

/// Returns the error of a position that has no value.
fn nothing_at(alloc: Global, source: &Document<'_>, argument: &str) -> ProgramError {
    let message = format!(in alloc; "no value at {argument}");
    ProgramError::of_message(alloc, NO, source.name, message)
}

/// Returns the line that says where a value is. Standard input has no name there.
fn position_line(
    alloc: Global,
    file: Option<&str>,
    position: Position,
) -> Result<String, AllocError> {
    let Position { line, column } = position;
    if is_standard(file) {
        format!(in alloc; "{line}:{column}")
    } else {
        let name = name_of(file);
        format!(in alloc; "{name}:{line}:{column}")
    }
}
