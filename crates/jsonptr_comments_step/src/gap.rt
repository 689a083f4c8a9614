//! What is between two children of an array or an object: white space, comments, and a comma. These are
//! hints: no contract says that they are right.

use jsonptr_text_layout::layout::Container;
use jsonptr_text_piece::span::slice;

/// What is between two offsets of a text, before, between or after children.
#[derive(Clone, Copy, Debug)]
pub struct Gap {
    /// The offset of its comma.
    pub comma: Option<usize>,
    /// The offset after the comma and the comments that are on the line on which it begins.
    pub tail: usize,
    /// Whether a line break follows there, apart from white space.
    pub ends_line: bool,
    /// Whether a line comment ends there.
    pub has_line_comment: bool,
    /// The offset after its last comment.
    pub comments_end: Option<usize>,
}

/// Where a byte of a gap is.
#[derive(Clone, Copy, Debug)]
enum Mode {
    /// Outside comments.
    Between,
    /// After the first slash of a comment.
    Slash,
    /// In a line comment.
    Line,
    /// In a block comment.
    Block,
    /// In a block comment, after a star.
    Star,
}

/// A gap that is being read.
#[derive(Clone, Copy, Debug)]
struct Scan {
    gap: Gap,
    mode: Mode,
    /// Whether no line break was read yet.
    on_first_line: bool,
}

/// Returns the offset after the child before the position, or after the opening bracket.
pub fn end_before(container: Container<'_>, position: usize) -> usize {
    let before = position
        .checked_sub(1)
        .and_then(|index| container.children.get(index));
    match before {
        Some(child) => child.span.to,
        None => container.span.from.saturating_add(1),
    }
}

/// Returns what is between the offsets of the text.
pub fn gap_of(text: &str, from: usize, to: usize) -> Gap {
    let mut scan = Scan {
        gap: Gap {
            comma: None,
            tail: from,
            ends_line: false,
            has_line_comment: false,
            comments_end: None,
        },
        mode: Mode::Between,
        on_first_line: true,
    };
    for (index, byte) in slice(text, from, to).as_bytes().iter().enumerate() {
        scan.put(from.saturating_add(index), *byte);
    }
    scan.gap
}

impl Scan {
    /// Reads the next byte, which is at the offset.
    fn put(&mut self, offset: usize, byte: u8) {
        let after = offset.saturating_add(1);
        match self.mode {
            Mode::Between => self.put_between(offset, byte),
            Mode::Slash => {
                self.mode = if byte == b'/' {
                    Mode::Line
                } else {
                    Mode::Block
                };
                self.put_comment(after);
            }
            Mode::Line => if byte == b'\n' || byte == b'\r' {
                self.mode = Mode::Between;
                self.end_line();
            } else {
                self.put_comment(after);
            },
            Mode::Block => {
                self.mode = if byte == b'*' {
                    Mode::Star
                } else {
                    Mode::Block
                };
                self.put_comment(after);
            }
            Mode::Star => {
                self.mode = after_star(byte);
                self.put_comment(after);
            }
        }
    }

    /// Reads a byte outside comments.
    fn put_between(&mut self, offset: usize, byte: u8) {
        match byte {
            b'/' => self.mode = Mode::Slash,
            b',' => {
                if self.gap.comma.is_none() {
                    self.gap.comma = Some(offset);
                }
                if self.on_first_line {
                    self.gap.tail = offset.saturating_add(1);
                }
            }
            b'\n' | b'\r' => self.end_line(),
            _ => {}
        }
    }

    /// Notes that a comment goes on up to the offset.
    fn put_comment(&mut self, after: usize) {
        self.gap.comments_end = Some(after);
        if self.on_first_line {
            self.gap.tail = after;
            self.gap.has_line_comment = matches!(self.mode, Mode::Line);
        }
    }

    /// Notes that a line ends.
    fn end_line(&mut self) {
        if self.on_first_line {
            self.gap.ends_line = true;
        }
        self.on_first_line = false;
    }
}

/// Returns where the byte after this one is, which follows a star in a block comment.
fn after_star(byte: u8) -> Mode {
    match byte {
        b'/' => Mode::Between,
        b'*' => Mode::Star,
        _ => Mode::Block,
    }
}
