//! Positions in a text, by line and column.

/// A position in a text: the numbers of its line, and of its character in that line, from 1.
#[derive(Clone, Copy)]
pub struct Position {
    /// The number of the line.
    pub line: usize,
    /// The number of the character in the line.
    pub column: usize,
}

impl Position {
    /// Returns the position after this text.
    pub fn after(before: &str) -> Position {
        Position::at(before, before.len())
    }

    /// Returns the position of this offset in the text, in bytes.
    pub fn at(text: &str, offset: usize) -> Position {
        let mut position = Position { line: 1, column: 1 };
        for (start, character) in text.char_indices() {
            if start >= offset {
                break;
            }
            if character == '\n' {
                position.line = position.line.saturating_add(1);
                position.column = 1;
            } else {
                position.column = position.column.saturating_add(1);
            }
        }
        position
    }

    /// Parses `LINE:COLUMN`.
    pub fn parse(text: &str) -> Option<Position> {
        let (line, column) = text.split_once(':')?;
        let position = Position {
            line: line.parse::<usize>().ok()?,
            column: column.parse::<usize>().ok()?,
        };
        if position.line == 0 || position.column == 0 {
            None
        } else {
            Some(position)
        }
    }

    /// Returns the offset of the position in the text, in bytes, or `None` if the text does not have it.
    pub fn offset_in(self, text: &str) -> Option<usize> {
        let mut start: usize = 0;
        let mut number: usize = 1;
        for row in text.split('\n') {
            if number == self.line {
                return Some(start.saturating_add(offset_of(row, self.column)?));
            }
            start = start.saturating_add(row.len()).saturating_add(1);
            number = number.saturating_add(1);
        }
        None
    }
}

/// Returns the offset of the character with this number, from 1. The end of the row counts as one.
fn offset_of(row: &str, column: usize) -> Option<usize> {
    let mut number: usize = 1;
    let mut offset: usize = 0;
    for character in row.chars() {
        if number == column {
            return Some(offset);
        }
        offset = offset.saturating_add(character.len_utf8());
        number = number.saturating_add(1);
    }
    if number == column { Some(offset) } else { None }
}
