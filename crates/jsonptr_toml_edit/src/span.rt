//! Offsets and lines of a text. These are hints: no contract says that they are right.
use jsonptr_text_piece::span::{self, Span};
use toml_parser::text::byte_at;

/// Returns the text between the offsets, or an empty text if they are not in order or not between
/// characters.
pub fn slice(text: &str, span: Span) -> &str {
    span::slice(text, span.from, span.to)
}

/// Returns whether the equals sign between the key and the value has no white space beside it.
pub fn is_tight(text: &str, key: Span, value: Span) -> bool {
    let equals = Span {
        from: key.to,
        to: value.from,
    };
    slice(text, equals) == "="
}

/// Returns the offset after a byte order mark.
pub fn text_start(text: &str) -> usize {
    if text.starts_with('\u{feff}') { 3 } else { 0 }
}

/// Returns the line break of the text.
pub fn newline_of(text: &str) -> &'static str {
    if text.contains("\r\n") { "\r\n" } else { "\n" }
}

/// Returns the offset after the spaces and tabs at the offset.
pub fn skip_blanks(text: &str, at: usize) -> usize {
    let bytes = text.as_bytes();
    for index in at..bytes.len() {
        if bytes[index] != b' ' && bytes[index] != b'\t' {
            return index;
        }
    }
    bytes.len()
}

/// Returns the offset after the white space, the line breaks and the comments at the offset.
pub fn skip_filler(text: &str, at: usize) -> usize {
    let bytes = text.as_bytes();
    let mut is_comment = false;
    for index in at..bytes.len() {
        match bytes[index] {
            b'\n' => is_comment = false,
            b'#' => is_comment = true,
            b' ' | b'\t' | b'\r' => {}
            _ if is_comment => {}
            _ => return index,
        }
    }
    bytes.len()
}

/// Returns the offset of the line break after the offset, or of the end of the text.
pub fn line_end(text: &str, at: usize) -> usize {
    let bytes = text.as_bytes();
    for index in at..bytes.len() {
        if bytes[index] == b'\n' {
            return if index > at && byte_at(text, index - 1) == b'\r' {
                index - 1
            } else {
                index
            };
        }
    }
    bytes.len()
}

/// Returns the offset at which the next line begins, or the end of the text.
pub fn next_line(text: &str, at: usize) -> usize {
    let bytes = text.as_bytes();
    for index in at..bytes.len() {
        if bytes[index] == b'\n' {
            return index + 1;
        }
    }
    bytes.len()
}

/// Returns the offset at which the line begins that the offset is in.
pub fn line_start(text: &str, at: usize) -> usize {
    match slice(text, Span { from: 0, to: at }).rfind('\n') {
        Some(index) => index.saturating_add(1),
        None => text_start(text).min(at),
    }
}

/// Returns whether the line that begins at the offset is blank. The end of the text is not a line.
pub fn is_blank_line(text: &str, at: usize) -> bool {
    let next = skip_blanks(text, at);
    match byte_at(text, next) {
        b'\n' => true,
        b'\r' => byte_at(text, next.saturating_add(1)) == b'\n',
        _ => false,
    }
}

/// Returns whether the line that begins at the offset is a comment.
pub fn is_comment_line(text: &str, at: usize) -> bool {
    byte_at(text, skip_blanks(text, at)) == b'#'
}

/// Returns whether nothing but white space and a comment follows on the line.
pub fn ends_line(text: &str, at: usize) -> bool {
    let next = skip_blanks(text, at);
    next >= text.len() || is_comment_line(text, next) || is_blank_line(text, next)
}

/// Returns the offset after the blank lines at the offset.
pub fn skip_blank_lines(text: &str, at: usize) -> usize {
    let mut next = at;
    for _line in at..text.len() {
        if !is_blank_line(text, next) {
            break;
        }
        next = next_line(text, next);
    }
    next
}

/// Returns the offset after the comment lines at the offset.
pub fn skip_comment_lines(text: &str, at: usize) -> usize {
    let mut next = at;
    for _line in at..text.len() {
        if !is_comment_line(text, next) {
            break;
        }
        next = next_line(text, next);
    }
    next
}

/// Returns the offset at which the comment lines directly above the line begin.
pub fn comments_above(text: &str, at: usize) -> usize {
    let mut start = at;
    for _line in 0..at {
        let above = line_start(text, start.saturating_sub(1));
        if start <= text_start(text) || !is_comment_line(text, above) {
            break;
        }
        start = above;
    }
    start
}

/// Returns the offset at which the blank lines directly above the line begin.
pub fn blank_lines_above(text: &str, at: usize) -> usize {
    let mut start = at;
    for _line in 0..at {
        let above = line_start(text, start.saturating_sub(1));
        if start <= text_start(text) || !is_blank_line(text, above) {
            break;
        }
        start = above;
    }
    start
}

/// Returns the offset after the comment lines at the offset, if no key or header follows them
/// directly: they belong to what is before them.
pub fn skip_own_comments(text: &str, at: usize) -> usize {
    let next = skip_comment_lines(text, at);
    if next >= text.len() || is_blank_line(text, next) {
        next
    } else {
        at
    }
}
