//! The input of a command: a file, or standard input.

use crate::program_error::ProgramError;
use jptr_tasks::exit_status::FILE;
use jsonptr_io::input::{InputError, read_into};
use jsonptr_value::if_json;
use serde_json::Value;
use simdutf8::basic::from_utf8;
use std::alloc::Global;
use std::fs::File;
use std::io;
use std::io::Read;

/// The name of standard input in errors.
const STANDARD: &str = "standard input";

/// The input of a command, which notes why a read failed.
#[derive(Drop)]
pub struct Input {
    /// Where it is from.
    stream: Stream,
    /// The number of the system's error of the last failed read.
    reason: Option<i32>,
}

/// Where the input is from.
#[derive(Drop)]
enum Stream {
    /// Standard input.
    Standard(io::Stdin),
    /// A file.
    File(File),
}

/// Returns the path of the file, or `None` if the argument stands for standard input.
fn path_of<'a>(file: Option<&'a str>) -> Option<&'a str> {
    match file {
        None | Some("-") => None,
        Some(path) => Some(path),
    }
}

/// Returns whether the argument stands for standard input.
pub fn is_standard(file: Option<&str>) -> bool {
    path_of(file).is_none()
}

/// Returns the name of the input in errors.
pub fn name_of<'a>(file: Option<&'a str>) -> &'a str {
    path_of(file).unwrap_or(STANDARD)
}

/// Opens the input.
pub fn open(rt: &HostRuntime, file: Option<&str>) -> Result<Input, ProgramError> {
    match path_of(file) {
        None => Ok(Input::of(Stream::Standard(rt.stdin()))),
        Some(path) => match File::open(rt, path) {
            Ok(file) => Ok(Input::of(Stream::File(file))),
            Err(error) => Err(file_error(rt.alloc(), path, &error)),
        },
    }
}

/// Reads all of the input.
pub fn read_input(rt: &HostRuntime, file: Option<&str>) -> Result<Vec<u8>, ProgramError> {
    let mut input = open(rt, file)?;
    let mut bytes = Vec::new(rt.alloc());
    match read_into(&mut input, &mut bytes) {
        Ok(()) => Ok(bytes),
        Err(InputError::Memory(_error)) => Err(ProgramError::Memory),
        Err(InputError::Read) => Err(input.read_error(rt.alloc(), name_of(file))),
    }
}

/// Returns the text that the bytes of a JSON document are. Bytes that are not UTF-8 are not JSON.
pub fn text_in<'a>(alloc: Global, name: &str, bytes: &'a [u8]) -> Result<&'a str, ProgramError> {
    match from_utf8(bytes) {
        Ok(text) => Ok(text),
        Err(_) => Err(ProgramError::of_bytes(alloc, name, bytes)),
    }
}

/// Returns the value that the bytes of a JSON document are.
pub fn value_in(alloc: Global, name: &str, bytes: &[u8]) -> Result<Value, ProgramError> {
    match if_json(jsonptr_value::read(alloc, text_in(alloc, name, bytes)?))? {
        Some(value) => Ok(value),
        None => Err(ProgramError::of_bytes(alloc, name, bytes)),
    }
}

/// Returns the error of a file that cannot be read or written.
pub fn file_error(alloc: Global, name: &str, error: &io::Error) -> ProgramError {
    if error.kind() == io::ErrorKind::OutOfMemory {
        return ProgramError::Memory;
    }
    ProgramError::of_message(alloc, FILE, name, error.to_string(alloc))
}

/// Returns the error of a stream, with the reason of the system if there is one.
pub fn stream_error(alloc: Global, name: &str, message: &str, reason: Option<i32>) -> ProgramError {
    let Some(code) = reason else {
        return ProgramError::new(alloc, FILE, name, message);
    };
    let error = io::Error::from_raw_os_error(code);
    ProgramError::of_message(alloc, FILE, name, format!(in alloc; "{message}: {error}"))
}

impl Input {
    /// Returns the input from a stream.
    fn of(stream: Stream) -> Input {
        Input {
            stream,
            reason: None,
        }
    }

    /// Returns the error of a failed read.
    pub fn read_error(&self, alloc: Global, name: &str) -> ProgramError {
        stream_error(alloc, name, "reading failed", self.reason)
    }
}

impl Read for Input {
    fn read(&mut self, buf: &mut [u8]) -> io::Result<usize> {
        let read = match &mut self.stream {
            Stream::Standard(stream) => stream.read(buf),
            Stream::File(file) => file.read(buf),
        };
        if let Err(error) = &read {
            self.reason = error.raw_os_error();
        }
        read
    }
}
