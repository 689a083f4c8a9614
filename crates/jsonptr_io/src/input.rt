//! Reading a reader to its end.
ghost use Rattle.std.specs.Prelude.{◌≡◌, ◌≢◌, [], IfSome, IfOk, IfErr, OnOk, OnErr, Some};
ghost use Rattle.std.specs.Io.KnownBytes.{Consumes, IsAtEnd};
ghost use Rattle.jsonptr_io.specs.Streams.{ReadsSome};
ghost use Rattle.jsonptr_io.specs.declared.input.InputError.{InputError};

use std::alloc::{AllocError, Global};
use std::io::{ErrorKind, Read};
use thiserror::Error;

/// Why an input, or its next line, cannot be read.
#[derive(Debug, Clone, Copy, PartialEq, Eq, Error)]
pub enum InputError {
    /// The allocation for the bytes failed.
    #[error("out of memory")]
    Memory(AllocError),
    /// A read failed, and was not interrupted.
    #[error("reading failed")]
    Read,
}

/// The most bytes that one read returns.
const CHUNK_LEN: usize = 4096;

/// Reads all bytes that are left. Repeats a read that was interrupted.
///
/// # Errors
///
/// [`InputError::Read`] if a read fails, or after 2^64 - 1 reads, and [`InputError::Memory`] if the
/// allocation for the bytes fails. An input without bytes needs no allocation. An error may come
/// after some bytes are read.
pub fn read_all<R: Read>(alloc: Global, input: &mut R) -> Result<Vec<u8>, InputError>
    ensures bytes { IfOk result
        (λ v. Consumes (R.remaining input.old) (R.remaining input.new) v.items) }
    ensures all { IfOk result (λ v. IfSome (R.remaining input.old) (λ xs. v.items ≡ xs)) }
    ensures end { OnOk result (IsAtEnd (R.remaining input.new)) }
    ensures consumed { OnErr result (ReadsSome (R.remaining input.old) (R.remaining input.new)) }
    // No bytes need no allocation.
    ensures no_memory { IfErr result
        (λ e. e ≢ InputError.Read → R.remaining input.old ≢ Some []) }
{
    // `read_to_end` does not promise that no bytes need no allocation.
    let mut bytes = Vec::new(alloc);
    let mut chunk = [0u8; CHUNK_LEN];
    for _turn in 0..u64::MAX {
        match input.read(&mut chunk) {
            Ok(0) => return Ok(bytes),
            Ok(n) => bytes
                .extend_from_slice(&chunk[..n])
                .map_err(InputError::Memory)?,
            Err(e) => {
                if e.kind() != ErrorKind::Interrupted {
                    return Err(InputError::Read);
                }
            }
        }
    }
    Err(InputError::Read)
}

/// Reads all bytes that are left into `bytes`. What it had before is removed, and its memory is used
/// again.
///
/// # Errors
///
/// [`InputError::Read`] if a read fails, and [`InputError::Memory`] if the allocation for the bytes
/// fails (which of the two it is, is tested). Then `bytes` has those that were read before.
///
/// # Examples
///
/// ```rust
/// let mut bytes = Vec::from_slice(alloc, b"old")?;
/// read_into(&mut b"[1]".as_slice(), &mut bytes)?;
/// assert_eq!(rt; bytes.as_slice(), b"[1]".as_slice());
/// ```
pub fn read_into<R: Read>(input: &mut R, bytes: &mut Vec<u8>) -> Result<(), InputError>
    ensures bytes { Consumes (R.remaining input.old) (R.remaining input.new) bytes.new.items }
    ensures all { OnOk result (IfSome (R.remaining input.old) (λ xs. bytes.new.items ≡ xs)) }
    ensures end { OnOk result (IsAtEnd (R.remaining input.new)) }
{
    bytes.clear();
    match input.read_to_end(bytes) {
        Ok(_) => Ok(()),
        Err(error) if error.kind() == ErrorKind::OutOfMemory => Err(InputError::Memory(AllocError)),
        Err(_) => Err(InputError::Read),
    }
}
