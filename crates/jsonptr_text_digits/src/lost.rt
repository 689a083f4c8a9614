//! A number whose digits are lost.

use jsonptr::PointerBuf;
use std::fmt;

/// A number of a JSON text whose digits are lost.
///
/// # Examples
///
/// ```rust
/// let lost = find_lost(alloc, "[1.10, 1e-400]")?.ok_or("a number")?;
/// assert_eq!(rt; format!(in alloc; "{lost}")?.as_str(), "the number at /1 loses digits");
/// assert_eq!(rt; (lost.offset, lost.length), (Some(7), 6));
/// ```
#[derive(Debug, Drop)]
pub struct Lost {
    /// Resolves, in the text, to what the number is read as. `None` if that is not so, as for a member
    /// whose key comes again.
    pub pointer: Option<PointerBuf>,
    /// The offset at which the number begins in the text, in bytes: its bytes are there, and that it is
    /// the number's own place is tested. `None` if the check of it fails. No text is known for which it
    /// does.
    pub offset: Option<usize>,
    /// The length of the number in the text, in bytes.
    pub length: usize,
}

impl fmt::Display for Lost {
    fn fmt<W: fmt::Write>(&self, f: &mut fmt::Formatter<W>) -> fmt::Result {
        match &self.pointer {
            Some(pointer) if pointer.as_ptr().is_root() => f.write_str("the number loses digits"),
            Some(pointer) => write!(f, "the number at {pointer} loses digits"),
            None => f.write_str("a number loses digits"),
        }
    }
}
