//! Standard output.

use crate::input::stream_error;
use crate::program_error::ProgramError;
use std::alloc::Global;
use std::io;
use std::io::{ErrorKind, Write};

/// Standard output, which notes that nobody reads it any more, and why a write failed.
#[derive(Drop)]
pub struct Output {
    /// The stream.
    stream: io::Stdout,
    /// Whether nobody reads it any more.
    is_closed: bool,
    /// The number of the system's error of the last failed write.
    reason: Option<i32>,
}

impl Output {
    /// Returns standard output.
    pub fn new(rt: &HostRuntime) -> Output {
        Output {
            stream: rt.stdout(),
            is_closed: false,
            reason: None,
        }
    }

    /// Returns the error of a failed write.
    pub fn error(&self, alloc: Global) -> ProgramError {
        if self.is_closed {
            ProgramError::OutputClosed
        } else {
            stream_error(alloc, "standard output", "writing failed", self.reason)
        }
    }
}

impl Write for Output {
    fn write(&mut self, buf: &[u8]) -> io::Result<usize> {
        let written = self.stream.write(buf);
        if let Err(error) = &written {
            self.is_closed = self.is_closed || error.kind() == ErrorKind::BrokenPipe;
            self.reason = error.raw_os_error();
        }
        written
    }

    fn flush(&mut self) -> io::Result<()> {
        self.stream.flush()
    }
}

/// Prints a text and a line break.
pub fn print_line(rt: &HostRuntime, text: &str) -> Result<u8, ProgramError> {
    let mut line = String::from_str(rt.alloc(), text)?;
    line.push('\n')?;
    print_text(rt, line.as_str())?;
    Ok(0)
}

/// Prints a text.
pub fn print_text(rt: &HostRuntime, text: &str) -> Result<(), ProgramError> {
    let mut output = Output::new(rt);
    match output.write_all(text.as_bytes()) {
        Ok(()) => Ok(()),
        Err(_) => Err(output.error(rt.alloc())),
    }
}
