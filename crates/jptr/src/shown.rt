//! Texts of the input as they are shown in messages.

use std::alloc::{AllocError, Global};

/// The digits of a code.
const DIGITS: [char; 16] = [
    '0', '1', '2', '3', '4', '5', '6', '7', '8', '9', 'a', 'b', 'c', 'd', 'e', 'f',
];

/// Returns the text as it is shown, on one line: each character that could move the cursor is escaped as
/// in a JSON string.
pub fn shown(alloc: Global, text: &str) -> Result<String, AllocError> {
    let mut shown = String::new(alloc);
    for c in text.chars() {
        push_shown(&mut shown, c)?;
    }
    Ok(shown)
}

/// Returns a text of several lines as it is shown, with its line breaks.
pub fn printable(alloc: Global, text: &str) -> Result<String, AllocError> {
    let mut shown = String::new(alloc);
    for c in text.chars() {
        if c == '\n' {
            shown.push(c)?;
        } else {
            push_shown(&mut shown, c)?;
        }
    }
    Ok(shown)
}

/// Returns whether a character could move the cursor: a control character, or one that ends a line or
/// embeds a direction.
pub fn is_unprintable(c: char) -> bool {
    c.is_control() || matches!(c, '\u{2028}'..='\u{202e}' | '\u{2066}'..='\u{2069}')
}

/// Appends the character, escaped if it could move the cursor.
fn push_shown(shown: &mut String, c: char) -> Result<(), AllocError> {
    match c {
        '\n' => shown.push_str("\\n"),
        '\r' => shown.push_str("\\r"),
        '\t' => shown.push_str("\\t"),
        c if is_unprintable(c) => push_code(shown, c),
        c => shown.push(c),
    }
}

/// Appends the code of a character below U+10000 in four digits.
fn push_code(shown: &mut String, c: char) -> Result<(), AllocError> {
    let code = u32::from(c);
    shown.push_str("\\u")?;
    for digit in [code / 4096, code / 256, code / 16, code] {
        shown.push(digit_of(digit % 16))?;
    }
    Ok(())
}

/// Returns the hexadecimal digit.
fn digit_of(digit: u32) -> char {
    match DIGITS.get(digit as usize) {
        Some(digit) => *digit,
        None => '0',
    }
}
