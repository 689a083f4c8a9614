//! Why a text is not the fragment of a pointer.

use jsonptr::ParseError;
use thiserror::Error;

/// Why a text is not the fragment of a pointer, and at which byte of that text.
///
/// A text with several faults has the first of these errors, in the order of the variants. But of
/// [`FragmentError::BadByte`] and [`FragmentError::BadEscape`] the one with the smaller offset comes
/// first.
///
/// ```rust
/// let error = from_fragment(alloc, "#/100%").err().ok_or("an error")?.refused()?;
/// assert_eq!(rt; error, FragmentError::BadEscape { offset: 5 });
/// let message = "not a URI fragment of a JSON Pointer: `%` without two hexadecimal digits at byte 5";
/// assert_eq!(rt; error.to_string(alloc)?.as_str(), message);
/// ```
#[derive(Clone, Debug, PartialEq, Eq, Drop, Error)]
pub enum FragmentError {
    /// The text does not start with `#`.
    #[error("not a URI fragment of a JSON Pointer: does not start with `#`")]
    NoHash,
    /// A byte that a fragment may have only percent-encoded (RFC 3986, section 3.5), as a space or
    /// one of a character outside ASCII.
    #[error("not a URI fragment of a JSON Pointer: a byte that must be percent-encoded at byte {offset}")]
    BadByte {
        /// The offset of the byte in the text.
        offset: usize,
    },
    /// A `%` is not followed by two hexadecimal digits.
    #[error("not a URI fragment of a JSON Pointer: `%` without two hexadecimal digits at byte {offset}")]
    BadEscape {
        /// The offset of the `%` in the text, in bytes.
        offset: usize,
    },
    /// The decoded bytes are not UTF-8.
    #[error("not a URI fragment of a JSON Pointer: not UTF-8 at byte {offset}")]
    NotUtf8 {
        /// The offset in the text, in bytes, of what encodes the first byte that is not part of a
        /// character.
        offset: usize,
    },
    /// The decoded text is not a pointer.
    #[error("not a URI fragment of a JSON Pointer: {cause}, at byte {offset}")]
    NotPointer {
        /// The offset in the text, in bytes, of what encodes the byte at fault.
        offset: usize,
        /// Why the decoded text is not a pointer. Its offsets are those in the decoded text.
        cause: ParseError,
    },
}
