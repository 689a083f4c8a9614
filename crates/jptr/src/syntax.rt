//! Why a text is not JSON: what is found, and what may be there instead.

use crate::position::Position;
use crate::shown::shown;
use jsonptr_value::MAX_DEPTH;
use std::alloc::{AllocError, Global};

/// The greatest number of characters that are drawn before and after an offset.
const MOST_DRAWN: usize = 60;

/// What to do about a comment.
const COMMENTS: &str = "; with --comments, comments are read";

/// What to do about a trailing comma.
const TRAILING: &str = "; with --comments, trailing commas are read";

/// What to do about a second document.
const LINES: &str = "; with --lines, each line is a document";

/// What comes after a document.
const END: &str = "the end";

/// What may come next in a JSON text.
#[derive(Clone, Copy, PartialEq, Eq)]
enum Next {
    /// A value.
    Value,
    /// The first element of an array, or its end.
    FirstElement,
    /// The first key of an object, or its end.
    FirstKey,
    /// A key.
    Key,
    /// A colon.
    Colon,
    /// A comma or the end of an array.
    AfterElement,
    /// A comma or the end of an object.
    AfterMember,
    /// The end of the text.
    End,
}

/// What is wrong at an offset of a text.
#[derive(Clone, Copy)]
enum SyntaxError {
    /// This is expected there.
    Expected(&'static str),
    /// A character of a string is not escaped.
    Control,
    /// No escape of JSON begins so.
    Escape,
    /// An escape is half of a character.
    Surrogate,
    /// An array or an object is too deep.
    Depth,
    /// A block comment is not closed.
    Comment,
}

/// Returns what is wrong with the text: the position, its line, and a caret below it. Returns `None`
/// if nothing is found, as for a number out of range.
pub fn explain(alloc: Global, text: &str) -> Result<Option<String>, AllocError> {
    let mut scanner = Scanner {
        bytes: text.as_bytes(),
        at: 0,
        open: Vec::new(alloc),
        next: Next::Value,
    };
    match scanner.run()? {
        Some(fault) => Ok(Some(drawn(alloc, text, scanner.at, fault)?)),
        None => Ok(None),
    }
}

/// Returns that the block comment at the offset is not closed: its position, its line, and a caret below.
pub fn unclosed_comment(alloc: Global, text: &str, offset: usize) -> Result<String, AllocError> {
    drawn(alloc, text, offset, SyntaxError::Comment)
}

/// A scanner of a text, up to its first fault.
#[derive(Drop)]
struct Scanner<'t> {
    /// The text.
    bytes: &'t [u8],
    /// The offset of the next byte, or of the fault.
    at: usize,
    /// For each array or object around the next byte, whether it is an object.
    open: Vec<bool>,
    /// What may come next.
    next: Next,
}

impl<'t> Scanner<'t> {
    /// Scans the text, and returns its first fault.
    fn run(&mut self) -> Result<Option<SyntaxError>, AllocError> {
        // Each step takes at least one byte.
        for _ in 0..self.bytes.len() {
            self.skip_space();
            if self.at >= self.bytes.len() {
                break;
            }
            if let Some(fault) = self.step()? {
                return Ok(Some(fault));
            }
        }
        self.skip_space();
        if self.next == Next::End && self.at >= self.bytes.len() {
            Ok(None)
        } else {
            Ok(Some(self.expected()))
        }
    }

    /// Passes over white space.
    fn skip_space(&mut self) {
        let rest = self.bytes.get(self.at..).unwrap_or(&[]);
        for byte in rest {
            if !matches!(*byte, b' ' | b'\t' | b'\n' | b'\r') {
                break;
            }
            self.at = self.at.saturating_add(1);
        }
    }

    /// Returns the next byte, or 0 at the end.
    fn byte(&self) -> u8 {
        match self.bytes.get(self.at) {
            Some(byte) => *byte,
            None => 0,
        }
    }

    /// Takes the next piece of the text.
    fn step(&mut self) -> Result<Option<SyntaxError>, AllocError> {
        match (self.next, self.byte()) {
            (Next::FirstElement, b']') | (Next::AfterElement, b']') => Ok(self.close()),
            (Next::FirstKey, b'}') | (Next::AfterMember, b'}') => Ok(self.close()),
            (Next::AfterElement, b',') => Ok(self.pass(Next::Value)),
            (Next::AfterMember, b',') => Ok(self.pass(Next::Key)),
            (Next::Colon, b':') => Ok(self.pass(Next::Value)),
            (Next::FirstKey | Next::Key, b'"') => Ok(self.string(Next::Colon)),
            (Next::Value | Next::FirstElement, b'[') => self.begin(false),
            (Next::Value | Next::FirstElement, b'{') => self.begin(true),
            (Next::Value | Next::FirstElement, b'"') => {
                let next = self.after_value();
                Ok(self.string(next))
            }
            (Next::Value | Next::FirstElement, _) => Ok(self.scalar()),
            _ => Ok(Some(self.expected())),
        }
    }

    /// Takes one byte.
    fn pass(&mut self, next: Next) -> Option<SyntaxError> {
        self.at = self.at.saturating_add(1);
        self.next = next;
        None
    }

    /// Begins an array or an object.
    fn begin(&mut self, is_object: bool) -> Result<Option<SyntaxError>, AllocError> {
        if self.open.len() >= MAX_DEPTH {
            return Ok(Some(SyntaxError::Depth));
        }
        self.open.push(is_object)?;
        let first = if is_object {
            Next::FirstKey
        } else {
            Next::FirstElement
        };
        Ok(self.pass(first))
    }

    /// Ends an array or an object.
    fn close(&mut self) -> Option<SyntaxError> {
        self.open.pop();
        let next = self.after_value();
        self.pass(next)
    }

    /// Returns what may come after a value.
    fn after_value(&self) -> Next {
        match self.open.last() {
            None => Next::End,
            Some(true) => Next::AfterMember,
            Some(false) => Next::AfterElement,
        }
    }

    /// Takes a string.
    fn string(&mut self, next: Next) -> Option<SyntaxError> {
        let rest = self.bytes.get(self.at.saturating_add(1)..).unwrap_or(&[]);
        let mut is_escaped = false;
        let mut digits: usize = 0;
        let mut is_second = false;
        self.next = next;
        for byte in rest {
            self.at = self.at.saturating_add(1);
            if digits > 0 {
                if !byte.is_ascii_hexdigit() {
                    return Some(SyntaxError::Expected("a hexadecimal digit"));
                }
                digits -= 1;
                if digits == 0 {
                    match self.begins_pair(is_second) {
                        Some(begins) => is_second = begins,
                        None => return Some(self.lone_surrogate()),
                    }
                }
            } else if is_escaped {
                is_escaped = false;
                match digits_of_escape(*byte) {
                    Some(count) => digits = count,
                    None => return Some(SyntaxError::Escape),
                }
            } else if *byte == b'"' {
                return self.pass(next);
            } else if *byte < 32 {
                return Some(SyntaxError::Control);
            } else {
                is_escaped = *byte == b'\\';
            }
        }
        self.at = self.bytes.len();
        Some(SyntaxError::Expected("the end of the string"))
    }

    /// Returns whether the escape that ends here is the first half of a surrogate pair, or `None` if the
    /// other half is missing. After a first half it is the second one.
    fn begins_pair(&self, is_second: bool) -> Option<bool> {
        match half_at(self.bytes, self.at.saturating_sub(5)) {
            Some(Half::First) => {
                let next = half_at(self.bytes, self.at.saturating_add(1));
                if next == Some(Half::Second) {
                    Some(true)
                } else {
                    None
                }
            }
            Some(Half::Second) if !is_second => None,
            _ => Some(false),
        }
    }

    /// Returns that the escape that ends here is half of a pair.
    fn lone_surrogate(&mut self) -> SyntaxError {
        self.at = self.at.saturating_sub(5);
        SyntaxError::Surrogate
    }

    /// Takes a number or a word.
    fn scalar(&mut self) -> Option<SyntaxError> {
        self.next = self.after_value();
        let rest = self.bytes.get(self.at..).unwrap_or(&[]);
        for word in [b"true".as_slice(), b"false", b"null"] {
            if rest.starts_with(word) {
                self.at = self.at.saturating_add(word.len());
                return None;
            }
        }
        match self.byte() {
            b'-' | b'0'..=b'9' => self.number(),
            _ => Some(SyntaxError::Expected("a value")),
        }
    }

    /// Takes a number.
    fn number(&mut self) -> Option<SyntaxError> {
        if self.byte() == b'-' {
            self.at = self.at.saturating_add(1);
        }
        if self.byte() == b'0' {
            self.at = self.at.saturating_add(1);
        } else if let Some(fault) = self.digits() {
            return Some(fault);
        }
        if self.byte() == b'.' {
            self.at = self.at.saturating_add(1);
            if let Some(fault) = self.digits() {
                return Some(fault);
            }
        }
        self.exponent()
    }

    /// Takes the exponent of a number, if there is one.
    fn exponent(&mut self) -> Option<SyntaxError> {
        if !matches!(self.byte(), b'e' | b'E') {
            return None;
        }
        self.at = self.at.saturating_add(1);
        if matches!(self.byte(), b'+' | b'-') {
            self.at = self.at.saturating_add(1);
        }
        self.digits()
    }

    /// Takes digits, at least one.
    fn digits(&mut self) -> Option<SyntaxError> {
        if !self.byte().is_ascii_digit() {
            return Some(SyntaxError::Expected("a digit"));
        }
        let rest = self.bytes.get(self.at..).unwrap_or(&[]);
        for byte in rest {
            if !byte.is_ascii_digit() {
                break;
            }
            self.at = self.at.saturating_add(1);
        }
        None
    }

    /// Returns that something else is expected.
    fn expected(&self) -> SyntaxError {
        SyntaxError::Expected(match self.next {
            Next::Value => "a value",
            Next::FirstElement => "a value or `]`",
            Next::FirstKey => "a key or `}`",
            Next::Key => "a key",
            Next::Colon => "`:`",
            Next::AfterElement => "`,` or `]`",
            Next::AfterMember => "`,` or `}`",
            Next::End => END,
        })
    }
}

/// Returns the number of hexadecimal digits after this byte of an escape, or `None` if no escape has it.
fn digits_of_escape(byte: u8) -> Option<usize> {
    match byte {
        b'u' => Some(4),
        b'"' | b'\\' | b'/' | b'b' | b'f' | b'n' | b'r' | b't' => Some(0),
        _ => None,
    }
}

/// A half of a surrogate pair.
#[derive(Clone, Copy, PartialEq, Eq)]
enum Half {
    /// The first one, from `\\ud800` to `\\udbff`.
    First,
    /// The second one, from `\\udc00` to `\\udfff`.
    Second,
}

/// Returns which half of a surrogate pair the escape at the offset is, if it is one.
fn half_at(bytes: &[u8], offset: usize) -> Option<Half> {
    match bytes.get(offset..)? {
        [
            b'\\',
            b'u',
            b'd' | b'D',
            b'8' | b'9' | b'a' | b'b' | b'A' | b'B',
            ..
        ] => Some(Half::First),
        [b'\\', b'u', b'd' | b'D', b'c'..=b'f' | b'C'..=b'F', ..] => Some(Half::Second),
        _ => None,
    }
}

/// Returns the text of the fault: what it is, the line and the column, and the line with a caret.
fn drawn(
    alloc: Global,
    text: &str,
    offset: usize,
    fault: SyntaxError,
) -> Result<String, AllocError> {
    let before = text.get(..offset).unwrap_or(text);
    let after = text.get(offset..).unwrap_or("");
    let Position { line, column } = Position::after(before);
    let reason = reason_of(alloc, after, fault)?;
    let hint = hint_at(before, after, fault);
    let row = row_at(alloc, text, offset)?;
    format!(in alloc; "{reason} at line {line} column {column}{hint}\n{row}")
}

/// Returns the line of the offset, and a caret below its character there.
pub fn row_at(alloc: Global, text: &str, offset: usize) -> Result<String, AllocError> {
    let before = text.get(..offset).unwrap_or(text);
    let after = text.get(offset..).unwrap_or("");
    row_with_caret(alloc, last_row(before), first_row(after))
}

/// Returns the two parts of a line, and a caret below the start of the second one.
fn row_with_caret(alloc: Global, before: &str, after: &str) -> Result<String, AllocError> {
    let (before, after) = (shown(alloc, before)?, shown(alloc, after)?);
    let mut row = format!(in alloc; "{before}{after}\n")?;
    for _ in before.as_str().chars() {
        row.push(' ')?;
    }
    row.push('^')?;
    Ok(row)
}

/// Returns what is wrong, in words.
fn reason_of(alloc: Global, after: &str, fault: SyntaxError) -> Result<String, AllocError> {
    match fault {
        SyntaxError::Expected(what) => {
            let found = found_in(alloc, after)?;
            format!(in alloc; "text is not JSON: expected {what}, found {found}")
        }
        SyntaxError::Control => format!(in alloc;
            "text is not JSON: a control character in a string"
        ),
        SyntaxError::Escape => {
            let found = found_in(alloc, after)?;
            format!(in alloc; "text is not JSON: no escape of a string: {found}")
        }
        SyntaxError::Surrogate => format!(in alloc;
            "text is not JSON: an escape is half of a surrogate pair"
        ),
        SyntaxError::Depth => format!(in alloc; "JSON, but nested deeper than {MAX_DEPTH}"),
        SyntaxError::Comment => format!(in alloc; "comment is not closed"),
    }
}

/// Returns what to do about the fault, which is between these texts.
fn hint_at(before: &str, after: &str, fault: SyntaxError) -> &'static str {
    let SyntaxError::Expected(what) = fault else {
        return "";
    };
    if after.starts_with("//") || after.starts_with("/*") {
        COMMENTS
    } else if after.starts_with(['}', ']']) && before.trim_end().ends_with(',') {
        TRAILING
    } else if what == END && after.starts_with(['{', '[']) && before.ends_with('\n') {
        LINES
    } else {
        ""
    }
}

/// Returns the first character in quotes, or that there is none.
fn found_in(alloc: Global, after: &str) -> Result<String, AllocError> {
    match after.chars().next() {
        Some(character) => {
            let text = format!(in alloc; "{character}")?;
            let text = shown(alloc, text.as_str())?;
            format!(in alloc; "`{text}`")
        }
        None => format!(in alloc; "the end"),
    }
}

/// Returns the last characters of the last line.
fn last_row(before: &str) -> &str {
    let row = match before.rfind('\n') {
        Some(at) => before.get(at.saturating_add(1)..).unwrap_or(""),
        None => before,
    };
    let mut start = row.len().saturating_sub(MOST_DRAWN);
    // A character has at most four bytes.
    for _ in 0..4 {
        if row.is_char_boundary(start) {
            break;
        }
        start = start.saturating_add(1);
    }
    row.get(start..).unwrap_or("")
}

/// Returns the first characters of the first line.
fn first_row(after: &str) -> &str {
    let row = match after.find('\n') {
        Some(at) => after.get(..at).unwrap_or(""),
        None => after,
    };
    let row = row.strip_suffix('\r').unwrap_or(row);
    let mut end = row.len().min(MOST_DRAWN);
    for _ in 0..4 {
        if row.is_char_boundary(end) {
            break;
        }
        end = end.saturating_sub(1);
    }
    row.get(..end).unwrap_or("")
}
