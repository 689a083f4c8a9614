//! The ends of strings, values and keys. These are hints: no contract says that they are right.
use crate::span::{line_end, skip_blanks};
use toml_parser::bytes::is_bare;
use toml_parser::text::byte_at;

/// Returns the offset after the string that begins at the offset.
fn string_end(text: &str, at: usize) -> usize {
    let quote = byte_at(text, at);
    let second = at.saturating_add(1);
    let third = at.saturating_add(2);
    if byte_at(text, second) == quote && byte_at(text, third) == quote {
        long_string_end(text, quote, at.saturating_add(3))
    } else {
        short_string_end(text, quote, second)
    }
}

/// Returns the offset after the string of one line whose content begins at the offset.
fn short_string_end(text: &str, quote: u8, at: usize) -> usize {
    let bytes = text.as_bytes();
    let mut is_escaped = false;
    for index in at..bytes.len() {
        let byte = bytes[index];
        if is_escaped {
            is_escaped = false;
        } else if byte == quote {
            return index + 1;
        } else if byte == b'\n' {
            return index;
        } else {
            is_escaped = byte == b'\\' && quote == b'"';
        }
    }
    bytes.len()
}

/// Returns the offset after the string of several lines whose content begins at the offset.
fn long_string_end(text: &str, quote: u8, at: usize) -> usize {
    let bytes = text.as_bytes();
    let mut is_escaped = false;
    let mut run = 0u8;
    for index in at..bytes.len() {
        let byte = bytes[index];
        if is_escaped {
            is_escaped = false;
        } else if byte == quote {
            run = run.saturating_add(1);
        } else if run >= 3 {
            return index;
        } else {
            run = 0;
            is_escaped = byte == b'\\' && quote == b'"';
        }
    }
    bytes.len()
}

/// Returns the offset after the number, date or word that begins at the offset.
fn scalar_end(text: &str, at: usize) -> usize {
    let bytes = text.as_bytes();
    let mut end = at;
    for index in at..bytes.len() {
        match bytes[index] {
            b',' | b']' | b'}' | b'#' | b'\n' | b'\r' => return end,
            b' ' | b'\t' => {}
            _ => end = index + 1,
        }
    }
    end
}

/// Returns the offset after the value that begins at the offset.
pub fn value_end(text: &str, at: usize) -> usize {
    match byte_at(text, at) {
        b'"' | b'\'' => string_end(text, at),
        b'[' | b'{' => container_end(text, at),
        _ => scalar_end(text, at),
    }
}

/// Returns the offset after the array or inline table that begins at the offset.
fn container_end(text: &str, at: usize) -> usize {
    let mut depth = 0usize;
    let mut next = at;
    for _step in at..text.len() {
        match byte_at(text, next) {
            b'"' | b'\'' => next = string_end(text, next),
            b'#' => next = line_end(text, next),
            b'[' | b'{' => {
                depth = depth.saturating_add(1);
                next = next.saturating_add(1);
            }
            b']' | b'}' => {
                depth = depth.saturating_sub(1);
                next = next.saturating_add(1);
            }
            _ => next = next.saturating_add(1),
        }
        if depth == 0 {
            break;
        }
    }
    next
}

/// Returns the offset after the key that begins at the offset, up to the next dot.
pub fn key_end(text: &str, at: usize) -> usize {
    let first = byte_at(text, at);
    if first == b'"' || first == b'\'' {
        return string_end(text, at);
    }
    let bytes = text.as_bytes();
    for index in at..bytes.len() {
        if !is_bare(bytes[index]) {
            return index;
        }
    }
    bytes.len()
}

/// Returns the offset of the key after the dot at the offset. Returns `None` if no dot is there.
pub fn after_dot(text: &str, at: usize) -> Option<usize> {
    let dot = skip_blanks(text, at);
    if byte_at(text, dot) == b'.' {
        Some(skip_blanks(text, dot.saturating_add(1)))
    } else {
        None
    }
}

/// Returns the offset after the dotted key that begins at the offset.
pub fn keys_end(text: &str, at: usize) -> usize {
    let mut end = key_end(text, at);
    for _key in at..text.len() {
        match after_dot(text, end) {
            Some(next) => end = key_end(text, next),
            None => break,
        }
    }
    end
}
