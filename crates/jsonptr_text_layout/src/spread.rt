//! Laying out a value: over lines, or on one line.

use crate::style::{Flat, indent_of};
use crate::value_text::ValueText;
use std::alloc::{AllocError, Global};

/// Where a value comes that may be over lines.
#[derive(Clone, Copy, Debug)]
pub struct Lines<'t> {
    /// The line break.
    pub newline: &'t str,
    /// The indentation of the line on which the value ends, or of the one around it.
    pub indent: &'t str,
    /// Whether the value is one level deeper than that line.
    pub is_deeper: bool,
    /// By what a level is indented.
    pub unit: &'t str,
}

/// Where a value comes that is on one line.
#[derive(Clone, Copy, Debug)]
pub struct OneLine<'t> {
    /// What is around the tokens of the nearest containers.
    pub flat: Flat<'t>,
    /// Whether the text is over lines.
    pub is_over_lines: bool,
}

/// Returns the text of the value over lines, indented as its location is. A blank line stays blank.
///
/// # Errors
///
/// [`AllocError`] if an allocation fails.
pub fn spread(alloc: Global, at: Lines<'_>, printed: &ValueText) -> Result<String, AllocError> {
    let lines = printed.lines.as_str();
    let own = own_unit(lines);
    let mut text = String::new(alloc);
    let mut is_first = true;
    for line in lines.split('\n') {
        if is_first {
            text.push_str(line)?;
        } else {
            text.push_str(at.newline)?;
            push_line(&mut text, at, line, own)?;
        }
        is_first = false;
    }
    Ok(text)
}

/// Appends a line of a value, in which a level is indented by `own`.
fn push_line(text: &mut String, at: Lines<'_>, line: &str, own: &str) -> Result<(), AllocError> {
    let rest = line.trim_start();
    if rest.is_empty() {
        return Ok(());
    }
    text.push_str(at.indent)?;
    if at.is_deeper {
        text.push_str(at.unit)?;
    }
    let indent = line.len().saturating_sub(rest.len());
    let levels = indent.checked_div(own.len()).unwrap_or(0);
    for _level in 0..levels {
        text.push_str(at.unit)?;
    }
    let done = levels.saturating_mul(own.len());
    text.push_str(line.get(done..).unwrap_or(rest))
}

/// Returns by what a level of the lines is indented: the first line of them that is indented.
fn own_unit(lines: &str) -> &str {
    for line in lines.split('\n') {
        let indent = indent_of(line);
        if !indent.is_empty() && indent.len() < line.trim_end().len() {
            return indent;
        }
    }
    ""
}

/// Returns the text of the value on one line. A value that is on one line already keeps its text.
///
/// # Errors
///
/// [`AllocError`] if an allocation fails.
pub fn on_line(alloc: Global, at: OneLine<'_>, printed: &ValueText) -> Result<String, AllocError> {
    if !printed.lines.as_str().contains('\n') {
        return printed.flat.clone();
    }
    let mut pen = Pen {
        text: String::new(alloc),
        comma: at.flat.after_comma(at.is_over_lines),
        colon: at.flat.around_colon(at.is_over_lines),
        brace: at.flat.brace.unwrap_or(""),
        bracket: at.flat.bracket.unwrap_or(""),
        in_string: false,
        is_escaped: false,
        pad: None,
    };
    for c in printed.flat.as_str().chars() {
        pen.put(c)?;
    }
    Ok(pen.text)
}

/// Writes a value on one line.
#[derive(Drop)]
struct Pen<'t> {
    text: String,
    /// After a comma.
    comma: &'t str,
    /// Between a key and its value.
    colon: &'t str,
    /// Inside braces.
    brace: &'t str,
    /// Inside brackets.
    bracket: &'t str,
    /// Whether the next character is inside a string.
    in_string: bool,
    /// Whether the next character is escaped.
    is_escaped: bool,
    /// After an opening bracket, what comes before the first child.
    pad: Option<&'t str>,
}

impl<'t> Pen<'t> {
    /// Writes the next character. White space between tokens is left out.
    fn put(&mut self, c: char) -> Result<(), AllocError> {
        if self.in_string {
            self.look_inside(c);
            return self.text.push(c);
        }
        match c {
            ' ' | '\t' | '\n' | '\r' => Ok(()),
            '}' => self.close(c, self.brace),
            ']' => self.close(c, self.bracket),
            _ => self.put_token(c),
        }
    }

    /// Looks at a character of a string.
    fn look_inside(&mut self, c: char) {
        if self.is_escaped {
            self.is_escaped = false;
        } else if c == '\\' {
            self.is_escaped = true;
        } else if c == '"' {
            self.in_string = false;
        }
    }

    /// Writes a closing bracket.
    fn close(&mut self, c: char, pad: &str) -> Result<(), AllocError> {
        if self.pad.is_none() {
            self.text.push_str(pad)?;
        }
        self.pad = None;
        self.text.push(c)
    }

    /// Writes a character of any other token.
    fn put_token(&mut self, c: char) -> Result<(), AllocError> {
        if let Some(pad) = self.pad {
            self.text.push_str(pad)?;
        }
        self.pad = None;
        match c {
            ',' => {
                self.text.push(c)?;
                self.text.push_str(self.comma)
            }
            ':' => self.text.push_str(self.colon),
            '{' => {
                self.pad = Some(self.brace);
                self.text.push(c)
            }
            '[' => {
                self.pad = Some(self.bracket);
                self.text.push(c)
            }
            '"' => {
                self.in_string = true;
                self.text.push(c)
            }
            _ => self.text.push(c),
        }
    }
}
