//! Reports of pointers and tokens, drawn with characters escaped as in all messages of the program.

use crate::shown::shown;
use jsonptr::diagnostic::{Diagnostic, Label, Report};
use std::alloc::{AllocError, Global};
use std::convert::AsStr;

/// Returns the text that a report is about, and below it a line for each label: carets and what it says.
pub fn drawn<T: Diagnostic>(alloc: Global, report: &Report<T>) -> Result<String, AllocError>
where
    T::Subject: AsStr,
{
    let text = report.subject().as_str();
    let mut out = shown(alloc, text)?;
    if let Some(labels) = report.original().labels(alloc, report.subject())? {
        for label in labels.as_slice() {
            push_label(alloc, &mut out, text, label)?;
        }
    }
    Ok(out)
}

/// Appends the line of a label.
fn push_label(
    alloc: Global,
    out: &mut String,
    text: &str,
    label: &Label,
) -> Result<(), AllocError> {
    let (before, rest) = split(text, label.offset());
    let (under, _after) = split(rest, label.len());
    out.push('\n')?;
    for _ in shown(alloc, before)?.as_str().chars() {
        out.push(' ')?;
    }
    out.push('^')?;
    for _ in shown(alloc, under)?.as_str().chars().skip(1) {
        out.push('^')?;
    }
    out.push(' ')?;
    out.push_str(shown(alloc, label.text())?.as_str())
}

/// Returns the text before the offset, and the rest.
fn split(text: &str, offset: usize) -> (&str, &str) {
    match text.split_at_checked(offset) {
        Some(parts) => parts,
        None => (text, ""),
    }
}
