//! Reading the next line.
ghost use Rattle.std.specs.Prelude.{◌≡◌, ◌≢◌, [], IfErr, IfOk, IsTrue, Ok, OnErr, Some, false};
ghost use Rattle.std.specs.Io.KnownBytes.{IsAtEnd, Keeps};
ghost use Rattle.jsonptr_io.specs.Lines.{IsNextLine};
ghost use Rattle.jsonptr_io.specs.PrivateLines.{CutsBreak};
ghost use Rattle.jsonptr_io.specs.Streams.{ReadsSome};
ghost use Rattle.jsonptr_io.specs.declared.input.InputError.{InputError};

use crate::input::InputError;
use std::alloc::AllocError;
use std::io::{BufRead, ErrorKind};

/// How the line that was read ends.
#[derive(Debug, Clone, Copy, PartialEq, Eq)]
pub enum Ending {
    /// In a line break, `\n`.
    Break,
    /// At the end of the input, without a line break. It has at least one byte.
    Input,
    /// There is no further line: the input is at its end.
    NoLine,
}

/// Reads the next line into `line`, without its line break. What `line` had before is removed, and
/// its memory is used again.
///
/// # Errors
///
/// [`InputError::Read`] if a read fails, and [`InputError::Memory`] if the allocation for the line
/// fails, which an input at its end does not need. Some bytes may have been read.
///
/// # Examples
///
/// ```rust
/// let mut input = b"one\ntwo".as_slice();
/// let mut line = Vec::new(alloc);
/// assert_eq!(rt; next_line(&mut input, &mut line).ok(), Some(Ending::Break));
/// assert_eq!(rt; line.as_slice(), b"one".as_slice());
/// assert_eq!(rt; next_line(&mut input, &mut line).ok(), Some(Ending::Input));
/// assert_eq!(rt; line.as_slice(), b"two".as_slice());
/// let last = next_line(&mut input, &mut line).ok();
/// assert_eq!(rt; last, Some(Ending::NoLine));
/// ```
pub fn next_line<R: BufRead>(input: &mut R, line: &mut Vec<u8>) -> Result<Ending, InputError>
    ensures line { IfOk result
        (IsNextLine (R.remaining input.old) (R.remaining input.new) line.new.items) }
    ensures consumed { OnErr result (ReadsSome (R.remaining input.old) (R.remaining input.new)) }
    // An input at its end needs no allocation.
    ensures no_memory { IfErr result
        (λ e. e ≢ InputError.Read → R.remaining input.old ≢ Some []) }
{
    line.clear();
    if is_at_end(input)? {
        return Ok(Ending::NoLine);
    }
    match input.read_until(b'\n', line) {
        Ok(0) => Ok(Ending::NoLine),
        Ok(_) => Ok(cut_break(line)),
        Err(error) if error.kind() == ErrorKind::OutOfMemory => Err(InputError::Memory(AllocError)),
        Err(_) => Err(InputError::Read),
    }
}

/// Returns whether the input is at its end. Repeats a read that was interrupted.
fn is_at_end<R: BufRead>(input: &mut R) -> Result<bool, InputError>
    ensures kept { Keeps (R.remaining input.old) (R.remaining input.new) }
    ensures end { IfOk result (λ at_end. IsTrue at_end → IsAtEnd (R.remaining input.old)) }
    ensures more { result ≡ Ok false → R.remaining input.old ≢ Some [] }
    ensures read { IfErr result (λ e. e ≡ InputError.Read) }
{
    for _turn in 0..u64::MAX {
        match input.fill_buf() {
            Ok(bytes) => return Ok(bytes.is_empty()),
            Err(error) if error.kind() == ErrorKind::Interrupted => {}
            Err(_) => return Err(InputError::Read),
        }
    }
    Err(InputError::Read)
}

/// Removes the line break from the end of the line. Returns how the line ended.
fn cut_break(line: &mut Vec<u8>) -> Ending
    ensures { CutsBreak line.old.items line.new.items result }
{
    match line.last() {
        Some(b'\n') => {
            let _ = line.pop();
            Ending::Break
        }
        _ => Ending::Input,
    }
}
