//! Parts of a text by two offsets.

/// Where something begins and ends in a text, in bytes.
#[derive(Clone, Copy, Debug, Drop, PartialEq, Eq)]
pub struct Span {
    /// The offset of the first byte.
    pub from: usize,
    /// The offset after the last byte.
    pub to: usize,
}

/// Returns the text from one offset to another, or an empty text if they are not in order or not
/// between characters.
///
/// # Examples
///
/// ```rust
/// assert_eq!(rt; (slice("[1, 2]", 1, 2), slice("[1]", 2, 1)), ("1", ""));
/// ```
pub fn slice(text: &str, from: usize, to: usize) -> &str {
    text.get(from..to).unwrap_or("")
}
