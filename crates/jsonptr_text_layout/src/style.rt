//! The white space of a text: by what it is indented, and what is around its commas, colons and
//! brackets.

use jsonptr_text_piece::span::{Span, slice};

/// The greatest number of bytes that are looked at for the white space of a line.
const MOST_BYTES: usize = 256;

/// The greatest number of lines that are looked at for one that is indented.
const MOST_LINES: usize = 64;

/// The indentation of a level in a text that shows none.
const UNIT: &str = "  ";

/// What is around the tokens of containers on one line, as far as a text shows it.
#[derive(Clone, Copy, Debug)]
pub struct Flat<'t> {
    /// After a comma.
    pub comma: Option<&'t str>,
    /// Between a key and its value, with the colon.
    pub colon: Option<&'t str>,
    /// Inside the braces of an object.
    pub brace: Option<&'t str>,
    /// Inside the brackets of an array.
    pub bracket: Option<&'t str>,
}

impl<'t> Flat<'t> {
    /// Returns what the beginning of a text shows first. The text does not begin inside a string.
    pub fn of(text: &'t str) -> Flat<'t> {
        seen_in(text, false)
    }

    /// Returns what the beginning of a line shows last: what is nearest to a value at the end of the
    /// line.
    pub fn before(line: &'t str) -> Flat<'t> {
        seen_in(line, true)
    }

    /// Returns what this shows, and for the rest what the other one does.
    pub fn or(self, other: Flat<'t>) -> Flat<'t> {
        Flat {
            comma: self.comma.or(other.comma),
            colon: self.colon.or(other.colon),
            brace: self.brace.or(other.brace),
            bracket: self.bracket.or(other.bracket),
        }
    }

    /// Returns what a container shows, and for the rest what is around it. If the container shows a
    /// colon and no comma, it has the comma of what is around it only if the colons are the same.
    pub fn inside(self, around: Flat<'t>) -> Flat<'t> {
        let mut flat = self.or(around);
        if self.comma.is_none() && self.colon.is_some() && self.colon != around.colon {
            flat.comma = Some(self.after_comma(false));
        }
        flat
    }

    /// Returns what is after a comma. If no comma shows it, a colon does; a text over lines has a space
    /// there.
    pub fn after_comma(&self, is_over_lines: bool) -> &'t str {
        match (self.comma, self.colon) {
            (Some(comma), _) => comma,
            (None, Some(colon)) => if colon.ends_with(' ') { " " } else { "" },
            (None, None) => if is_over_lines { " " } else { "" },
        }
    }

    /// Returns what is between a key and its value. If no colon shows it, a comma does; a text over
    /// lines has a space there.
    pub fn around_colon(&self, is_over_lines: bool) -> &'t str {
        match (self.colon, self.comma) {
            (Some(colon), _) => colon,
            (None, Some(comma)) => if comma.is_empty() { ":" } else { ": " },
            (None, None) => if is_over_lines { ": " } else { ":" },
        }
    }
}

/// Returns what the beginning of a text shows: what is seen first, or what is seen last.
fn seen_in(text: &str, is_last: bool) -> Flat<'_> {
    let mut seen = Seen {
        text,
        is_last,
        flat: Flat {
            comma: None,
            colon: None,
            brace: None,
            bracket: None,
        },
        strings: Strings::new(),
        end: 0,
    };
    let mut offset: usize = 0;
    for byte in text.as_bytes().iter().take(MOST_BYTES) {
        seen.look(offset, *byte);
        offset = offset.saturating_add(1);
    }
    seen.flat
}

/// Where the strings of a text are, which is read byte by byte.
#[derive(Clone, Copy, Debug)]
struct Strings {
    /// Whether the next byte is inside a string.
    is_inside: bool,
    /// Whether the next byte is escaped.
    is_escaped: bool,
}

/// What a byte of a text is.
#[derive(Clone, Copy, Debug, PartialEq, Eq)]
enum Part {
    /// A byte outside strings.
    Outside,
    /// A quote that begins a string, or a byte of one.
    String,
    /// The quote that ends a string.
    End,
}

impl Strings {
    /// Returns where the strings are before a text, which does not begin inside one.
    fn new() -> Strings {
        Strings {
            is_inside: false,
            is_escaped: false,
        }
    }

    /// Reads the next byte, and returns what it is.
    fn read(&mut self, byte: u8) -> Part {
        if !self.is_inside {
            self.is_inside = byte == b'"';
            return if self.is_inside {
                Part::String
            } else {
                Part::Outside
            };
        }
        if self.is_escaped {
            self.is_escaped = false;
        } else if byte == b'\\' {
            self.is_escaped = true;
        } else if byte == b'"' {
            self.is_inside = false;
            return Part::End;
        }
        Part::String
    }
}

/// Returns the offset of the first of these bytes that is outside strings. The text does not begin inside
/// a string.
pub fn find_outside_strings(text: &str, wanted: &[u8]) -> Option<usize> {
    let mut strings = Strings::new();
    for (offset, byte) in text.as_bytes().iter().enumerate() {
        if strings.read(*byte) == Part::Outside && wanted.contains(byte) {
            return Some(offset);
        }
    }
    None
}

/// What was seen of a text.
#[derive(Drop)]
struct Seen<'t> {
    text: &'t str,
    /// Whether what is seen last counts.
    is_last: bool,
    flat: Flat<'t>,
    /// Where its strings are.
    strings: Strings,
    /// The offset after the last string.
    end: usize,
}

impl<'t> Seen<'t> {
    /// Looks at the byte at the offset.
    fn look(&mut self, offset: usize, byte: u8) {
        let next = offset.saturating_add(1);
        match (self.strings.read(byte), byte) {
            (Part::String, _) => {}
            (Part::End, _) => self.end = next,
            (Part::Outside, b',') => {
                self.flat.comma = self.one_of(self.flat.comma, flat_space(self.text, next));
            }
            (Part::Outside, b':') => {
                self.flat.colon = self.one_of(self.flat.colon, self.colon_at(next));
            }
            (Part::Outside, b'{') => {
                self.flat.brace = self.one_of(self.flat.brace, pad_at(self.text, next));
            }
            (Part::Outside, b'[') => {
                self.flat.bracket = self.one_of(self.flat.bracket, pad_at(self.text, next));
            }
            (Part::Outside, _) => {}
        }
    }

    /// Returns which of both counts: what was seen before, or what is seen now.
    fn one_of(&self, before: Option<&'t str>, now: Option<&'t str>) -> Option<&'t str> {
        if self.is_last {
            now.or(before)
        } else {
            before.or(now)
        }
    }

    /// Returns what is between a key and the value after a colon, which ends at the offset.
    fn colon_at(&self, offset: usize) -> Option<&'t str> {
        let space = flat_space(self.text, offset)?;
        let colon = slice(self.text, self.end, offset.saturating_add(space.len()));
        if colon.contains('\n') {
            None
        } else {
            Some(colon)
        }
    }
}

/// Returns the white space at the offset, unless it has a line break.
fn flat_space(text: &str, offset: usize) -> Option<&str> {
    let space = space_at(text, offset);
    if space.contains('\n') {
        None
    } else {
        Some(space)
    }
}

/// Returns the white space at the offset, unless it has a line break or a bracket is after it.
fn pad_at(text: &str, offset: usize) -> Option<&str> {
    let space = flat_space(text, offset)?;
    let next = offset.saturating_add(space.len());
    match text.as_bytes().get(next) {
        Some(b'}' | b']') => None,
        _ => Some(space),
    }
}

/// Returns the white space at the offset.
pub fn space_at(text: &str, offset: usize) -> &str {
    let rest = text.get(offset..).unwrap_or("");
    let len = rest.len().saturating_sub(rest.trim_start().len());
    slice(rest, 0, len)
}

/// Returns by what a level of the text is indented: the first child of the array or object at the span
/// beyond the line of the container, or else the first line that is indented.
pub fn unit_of(text: &str, container: Span) -> &str {
    let gap = space_at(text, container.from.saturating_add(1));
    let Some(at) = gap.rfind('\n') else {
        return first_unit(text);
    };
    let child = gap.get(at.saturating_add(1)..).unwrap_or("");
    match child.strip_prefix(margin_of(text, container.from)) {
        Some(unit) if !unit.is_empty() => unit,
        _ => first_unit(text),
    }
}

/// Returns the white space of the first line that is indented.
fn first_unit(text: &str) -> &str {
    for line in text.split('\n').skip(1).take(MOST_LINES) {
        let indent = indent_of(line);
        if !indent.is_empty() && indent.len() < line.trim_end().len() {
            return indent;
        }
    }
    UNIT
}

/// Returns the line of the offset, up to the offset, with the line feed before it.
pub fn line_before(text: &str, offset: usize) -> &str {
    let before = slice(text, 0, offset);
    match before.rfind('\n') {
        Some(at) => before.get(at..).unwrap_or(""),
        None => before,
    }
}

/// Returns the white space at the start of the line of the offset. The first line has none: white space
/// before the document is not indentation.
pub fn margin_of(text: &str, offset: usize) -> &str {
    let line = line_before(text, offset);
    if line.starts_with('\n') {
        indent_of(line)
    } else {
        ""
    }
}

/// Returns the white space at the start of the line, without a line feed before it.
pub fn indent_of(line: &str) -> &str {
    let text = line.strip_prefix('\n').unwrap_or(line);
    let len = text.len().saturating_sub(text.trim_start().len());
    slice(text, 0, len)
}

/// Returns whether the line begins with a line feed and has at most a key, whatever is in the key.
pub fn is_own_line(line: &str) -> bool {
    line.starts_with('\n') && find_outside_strings(line, b"{[,").is_none()
}

/// Returns the line break of the text before the offset.
pub fn newline_of(text: &str, offset: usize) -> &'static str {
    let before = slice(text, 0, offset);
    match before.rfind('\n') {
        Some(at) => if slice(before, 0, at).ends_with('\r') {
            "\r\n"
        } else {
            "\n"
        },
        None => "\n",
    }
}

/// Returns the line above that of the offset, without its indentation and the comma at its end, or
/// `None` if it has another indentation.
pub fn row_above(text: &str, offset: usize) -> Option<&str> {
    let line = line_before(text, offset);
    let start = offset.saturating_sub(line.len());
    let above = line_before(text, start);
    if indent_of(above) != indent_of(line) {
        return None;
    }
    let row = above.trim();
    Some(row.strip_suffix(',').unwrap_or(row).trim_end())
}

/// Returns whether the text is that of an array or an object that has children.
pub fn is_filled(text: &str) -> bool {
    let Some(first) = text.as_bytes().first() else {
        return false;
    };
    let inner = space_at(text, 1).len().saturating_add(1);
    (*first == b'{' || *first == b'[')
        && !matches!(text.as_bytes().get(inner), Some(b'}' | b']') | None)
}
