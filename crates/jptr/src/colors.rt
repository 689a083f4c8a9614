//! The colours of JSON, and of lines that say what changes.

use crate::invocation::ColorWhen;
use crate::program_error::ProgramError;
use jptr_tasks::exit_status::USAGE;
use std::alloc::{AllocError, Global};
use std::env;
use std::io::IsTerminal;

/// Ends a colour.
const PLAIN: &str = "\u{1b}[0m";

/// Begins the colour of a key.
const BLUE: &str = "\u{1b}[34;1m";

/// Begins the colour of a string, and of a line that is added.
const GREEN: &str = "\u{1b}[32m";

/// Returns whether what is printed has colours: by the flag `--color`, or on a terminal, unless the variable
/// `NO_COLOR` is set and not empty.
pub fn are_colored(rt: &HostRuntime, color: Option<ColorWhen>) -> Result<bool, ProgramError> {
    match color {
        Some(ColorWhen::Always) => Ok(true),
        Some(ColorWhen::Never) => Ok(false),
        None | Some(ColorWhen::Terminal) => Ok(rt.stdout().is_terminal() && !is_turned_off(rt)),
        Some(ColorWhen::Wrong) => {
            let message = "needs always, never or auto";
            Err(ProgramError::new(rt.alloc(), USAGE, "--color", message))
        }
    }
}

/// Returns whether the variable `NO_COLOR` is set, and not empty.
fn is_turned_off(rt: &HostRuntime) -> bool {
    match env::var(rt, "NO_COLOR") {
        Ok(value) => !value.is_empty(),
        Err(_error) => false,
    }
}

/// Returns the lines with colours: what is added is green, what is removed red, and what is replaced
/// yellow.
pub fn colored(alloc: Global, lines: &str) -> Result<String, AllocError> {
    let mut out = String::new(alloc);
    for line in lines.lines() {
        out.push_str(color_of(line))?;
        out.push_str(line)?;
        out.push_str(PLAIN)?;
        out.push('\n')?;
    }
    Ok(out)
}

/// Returns what begins the colour of the line.
fn color_of(line: &str) -> &'static str {
    match line.as_bytes().first() {
        Some(b'+') => GREEN,
        Some(b'-') => "\u{1b}[31m",
        _ => "\u{1b}[33m",
    }
}

/// What a byte of a JSON text is part of.
#[derive(Clone, Copy, PartialEq, Eq)]
enum Part {
    /// What is between strings.
    Between,
    /// A string, before its closing quote.
    String,
    /// A string, after a backslash.
    Escape,
    /// A string, at its closing quote.
    Closed,
}

impl Part {
    /// Returns what the next byte is part of.
    fn next(self, byte: u8) -> Part {
        match (self, byte) {
            (Part::String, b'\\') => Part::Escape,
            (Part::String, b'"') => Part::Closed,
            (Part::String | Part::Escape, _) => Part::String,
            (_, b'"') => Part::String,
            (_, _) => Part::Between,
        }
    }

    /// Returns whether it is a string.
    fn is_string(self) -> bool {
        self != Part::Between
    }
}

/// Returns the JSON text with colours: keys are blue, and strings green.
pub fn colored_json(alloc: Global, text: &str) -> Result<String, AllocError> {
    let mut out = String::new(alloc);
    let mut part = Part::Between;
    let mut start: usize = 0;
    for (offset, byte) in text.as_bytes().iter().enumerate() {
        let next = part.next(*byte);
        if next.is_string() != part.is_string() {
            push_piece(&mut out, text, start, offset)?;
            start = offset;
        }
        part = next;
    }
    push_piece(&mut out, text, start, text.len())?;
    Ok(out)
}

/// Appends a piece of the JSON text, with a colour if it is a string.
fn push_piece(out: &mut String, text: &str, from: usize, to: usize) -> Result<(), AllocError> {
    let piece = text.get(from..to).unwrap_or("");
    if !piece.starts_with('"') {
        return out.push_str(piece);
    }
    let after = text.get(to..).unwrap_or("");
    out.push_str(if after.trim_start().starts_with(':') {
        BLUE
    } else {
        GREEN
    })?;
    out.push_str(piece)?;
    out.push_str(PLAIN)
}
