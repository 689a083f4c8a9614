//! The command `diff`: the patch document that turns one document into another.

use crate::changes::changes_of;
use crate::colors::{are_colored, colored};
use crate::document::{Document, FileFormat};
use crate::exact_difference::check_difference;
use crate::invocation::{ColorWhen, Comparing, Options};
use crate::operands::check_json;
use crate::output::{print_line, print_text};
use crate::program_error::ProgramError;
use crate::style::layout_of;
use jptr_tasks::difference::difference_of;
use jptr_tasks::exit_status::NO;
use serde_json::Value;

/// Prints the patch document that turns one document into another, or a line for each change.
pub fn diff(
    rt: &HostRuntime,
    options: &Options<'_>,
    comparing: Comparing<'_>,
) -> Result<u8, ProgramError> {
    let alloc = rt.alloc();
    check_json(alloc, "diff", Some(comparing.old))?;
    check_json(alloc, "diff", Some(comparing.new))?;
    let before = read_side(rt, options, comparing.old)?;
    let old = before.value(alloc)?;
    let after = read_side(rt, options, comparing.new)?;
    let new = after.value(alloc)?;
    let difference = match difference_of(alloc, &old, &new, layout_of(options.layout)) {
        Ok(difference) => difference,
        Err(error) => return Err(after.error(alloc, "", error)),
    };
    let text = difference.text.as_str();
    if !options.is_lossy {
        check_difference(alloc, &before, &after, text)?;
    }
    if comparing.is_text {
        print_changes(rt, options.color, old, text)?;
    } else {
        print_line(rt, text)?;
    }
    Ok(if difference.is_empty { 0 } else { NO })
}

/// Prints a line for each change of the document by the patch with this text.
fn print_changes(
    rt: &HostRuntime,
    color: Option<ColorWhen>,
    document: Value,
    patch: &str,
) -> Result<(), ProgramError> {
    let is_colored = are_colored(rt, color)?;
    let mut lines = changes_of(rt.alloc(), document, patch)?;
    if is_colored {
        lines = colored(rt.alloc(), lines.as_str())?;
    }
    print_text(rt, lines.as_str())
}

/// Reads one of the documents that are compared.
fn read_side<'a>(
    rt: &HostRuntime,
    options: &Options<'_>,
    file: &'a str,
) -> Result<Document<'a>, ProgramError> {
    Document::read_as(
        rt,
        FileFormat::of(options.format_flag, Some(file)),
        Some(file),
    )
}
