//! Where a child of an array or an object is in a text, and where its value ends.

use crate::spacing::is_space;
use crate::span::Span;

/// A child of an array or an object.
#[derive(Clone, Copy, Debug, Drop, PartialEq, Eq)]
pub struct Child {
    /// Where it is. A member begins with its key.
    pub span: Span,
    /// Where its value begins.
    pub value: usize,
}

/// Returns where the value before the next token ends. White space, a comma and more white space
/// may be between the two.
///
/// # Examples
///
/// ```rust
/// assert_eq!(rt; end_of_value(b"[1 , 2]", 5), 2);
/// ```
pub fn end_of_value(bytes: &[u8], next: usize) -> usize {
    let end = trimmed_end(bytes, next);
    if end > 0 && bytes.get(end - 1) == Some(&b',') {
        trimmed_end(bytes, end - 1)
    } else {
        end
    }
}

/// Returns where the white space before the offset begins.
///
/// # Examples
///
/// ```rust
/// assert_eq!(rt; trimmed_end(b"[1  ]", 4), 2);
/// ```
pub fn trimmed_end(bytes: &[u8], offset: usize) -> usize {
    let mut end = offset;
    'spaces: while end > 0 && bytes.get(end - 1).is_some_and(|byte| is_space(*byte)) {
        end -= 1;
    }
    end
}
