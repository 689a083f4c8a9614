//! The words of a line.
use std::alloc::{AllocError, Global};

/// The character between two words. No word contains it.
pub const SEPARATOR: char = '\u{FFFF}';

/// Returns the words of a line without their escapes.
///
/// # Errors
///
/// [`AllocError`] if an allocation fails.
pub fn unescaped(alloc: Global, line: &str) -> Result<String, AllocError> {
    let mut text = String::new(alloc);
    let mut is_escaped = false;
    for c in line.chars() {
        if is_escaped {
            is_escaped = false;
            text.push(named(c))?;
        } else if c == '\\' {
            is_escaped = true;
        } else {
            text.push(if c == '\t' { SEPARATOR } else { c })?;
        }
    }
    Ok(text)
}

/// Returns the character that `c` represents after a backslash.
fn named(c: char) -> char {
    match c {
        't' => '\t',
        'n' => '\n',
        'r' => '\r',
        other => other,
    }
}

/// The remaining words of a line.
#[derive(Clone, Copy)]
pub struct Words<'a> {
    rest: Option<&'a str>,
}

impl<'a> Words<'a> {
    /// The words of this text.
    pub fn new(text: &'a str) -> Words<'a> {
        Words { rest: Some(text) }
    }

    /// Returns the next word, or an empty text if there is none.
    pub fn next(&mut self) -> &'a str {
        let Some(text) = self.rest else {
            return "";
        };
        match text.split_once(SEPARATOR) {
            Some((word, rest)) => {
                self.rest = Some(rest);
                word
            }
            None => {
                self.rest = None;
                text
            }
        }
    }

    /// Returns the number that the next word is, or `None` if it is not a number.
    pub fn number(&mut self) -> Option<usize> {
        self.next().parse().ok()
    }

    /// Returns whether there is no more word.
    pub fn is_empty(&self) -> bool {
        self.rest.is_none()
    }
}
