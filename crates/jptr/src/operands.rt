//! The arguments of a command: pointers and files.

use crate::program_error::ProgramError;
use jptr_tasks::exit_status::{FILE, USAGE};
use jsonptr::{Fault, Pointer};
use jsonptr_fragment::from_fragment;
use std::alloc::Global;
use std::fs;
use std::io::ErrorKind;

/// Fails if the last word after a pointer is taken as the file, no file has this name, and it looks like a
/// pointer too.
pub fn check_last_word(
    rt: &HostRuntime,
    file: Option<&str>,
    pointer: &str,
) -> Result<(), ProgramError> {
    let Some(word) = file else {
        return Ok(());
    };
    if !word.starts_with('/') || !pointer.starts_with('/') {
        return Ok(());
    }
    match fs::metadata(rt, word) {
        Err(error) if error.kind() == ErrorKind::NotFound && !is_in_folder(rt, word) => {
            let alloc = rt.alloc();
            let message = format!(in alloc;
                "{error}; after several pointers, write - for standard input"
            );
            Err(ProgramError::of_message(alloc, FILE, word, message))
        }
        _ => Ok(()),
    }
}

/// Returns whether the path is that of a file in a folder that is there, and not in the root of all files.
fn is_in_folder(rt: &HostRuntime, path: &str) -> bool {
    match path.rsplit_once('/') {
        Some((folder, _)) => !folder.is_empty() && fs::metadata(rt, folder).is_ok(),
        None => false,
    }
}

/// Parses an argument as a pointer.
pub fn pointer_of<'a>(alloc: Global, text: &'a str) -> Result<Pointer<'a>, ProgramError> {
    match Pointer::parse(text) {
        Ok(pointer) => Ok(pointer),
        Err(_) if text.starts_with('#') => Err(fragment_error(alloc, text)),
        Err(error) => Err(ProgramError::of_pointer(alloc, text, error)),
    }
}

/// Returns the error of an argument that begins as the fragment of a URI, and is not that of a pointer.
fn fragment_error(alloc: Global, text: &str) -> ProgramError {
    match from_fragment(alloc, text) {
        Err(Fault::Refused(error)) => {
            ProgramError::of_message(alloc, USAGE, text, error.to_string(alloc))
        }
        Err(Fault::Memory(_)) => ProgramError::Memory,
        // The command line has its pointer instead.
        Ok(_) => ProgramError::new(alloc, USAGE, text, "a fragment, not a pointer"),
    }
}

/// Fails if the file of a command that takes JSON alone is TOML by its name.
pub fn check_json(alloc: Global, command: &str, file: Option<&str>) -> Result<(), ProgramError> {
    if is_toml_name(file) {
        return Err(ProgramError::new(alloc, USAGE, command, "takes JSON, not TOML"));
    }
    Ok(())
}

/// Returns whether the name of a file ends in `.toml`.
pub fn is_toml_name(file: Option<&str>) -> bool {
    match file {
        Some(name) => name.ends_with(".toml"),
        None => false,
    }
}

/// Returns whether the name of a file ends in `.jsonc`.
pub fn is_commented_name(file: Option<&str>) -> bool {
    match file {
        Some(name) => name.ends_with(".jsonc"),
        None => false,
    }
}
