//! Writing bytes.
ghost use Rattle.std.specs.Prelude.{OnOk, OnErr};
ghost use Rattle.std.specs.Io.KnownBytes.{Appends};
ghost use Rattle.jsonptr_io.specs.Streams.{AppendsPrefix};

use std::io::Write;
use thiserror::Error;

/// A write failed, wrote nothing or was interrupted, or a flush failed.
#[derive(Debug, Clone, Copy, PartialEq, Eq, Error)]
#[error("writing failed")]
pub struct WriteError;

/// Writes all of these bytes. It does not flush.
///
/// # Errors
///
/// [`WriteError`]; a prefix of the bytes may have been written.
///
/// # Examples
///
/// ```rust
/// let mut output = Vec::new(alloc);
/// assert!(rt; write_bytes(&mut output, b"ab").is_ok());
/// assert_eq!(rt; output.as_slice(), b"ab".as_slice());
/// ```
pub fn write_bytes<W: Write>(output: &mut W, bytes: &[u8]) -> Result<(), WriteError>
    ensures written { OnOk result
        (Appends (W.contents output.old) (W.contents output.new) bytes.now) }
    ensures prefix { OnErr result
        (AppendsPrefix (W.contents output.old) (W.contents output.new) bytes.now) }
{
    let mut written = 0;
    while written < bytes.len() {
        match output.write(&bytes[written..]) {
            Ok(0) | Err(_) => return Err(WriteError),
            Ok(count) => written += count,
        }
    }
    Ok(())
}

/// Writes all of these bytes, by calls of `write` alone, and flushes.
///
/// # Errors
///
/// [`WriteError`], also if the flush fails; a prefix of the bytes may have been written.
///
/// # Examples
///
/// ```rust
/// let mut output = Vec::new(alloc);
/// assert!(rt; write_and_flush(&mut output, b"ab\n").is_ok());
/// assert_eq!(rt; output.as_slice(), b"ab\n".as_slice());
/// ```
pub fn write_and_flush<W: Write>(output: &mut W, bytes: &[u8]) -> Result<(), WriteError>
    ensures written { OnOk result
        (Appends (W.contents output.old) (W.contents output.new) bytes.now) }
    ensures prefix { OnErr result
        (AppendsPrefix (W.contents output.old) (W.contents output.new) bytes.now) }
{
    write_bytes(output, bytes)?;
    output.flush().map_err(|_| WriteError)
}
