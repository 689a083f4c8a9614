//! Whether a difference, or a merge patch, keeps the digits of all numbers.
//!
//! A number that loses digits is a string in the documents here, which has its decimal value. The patch is
//! applied to the old one: where the result is not the new one, a number has lost digits.

use crate::document::Document;
use crate::program_error::ProgramError;
use crate::shown::shown;
use jptr_tasks::exit_status::BAD_INPUT;
use jptr_tasks::patch::operations_of;
use jptr_tasks::paths::listed_text;
use json::{Reader, Scratch, Token, Writer};
use jsonptr::Fault;
use jsonptr_merge::merge_patched;
use jsonptr_patch::{Comparison, apply_comparing};
use jsonptr_text_digits::{find_lost, is_kept};
use jsonptr_text_paths::listing::Listed;
use jsonptr_value::{ReadError, if_json};
use serde_json::Value;
use std::alloc::{AllocError, Global};

/// Before the decimal value of a number that loses digits.
const MARK: char = '#';

/// Fails if a number loses digits by the patch with this text, which turns one document into the other: the
/// patch has a number that is printed with other digits, or leaves one of the old document that is another
/// decimal number than that of the new one.
pub fn check_difference(
    alloc: Global,
    before: &Document<'_>,
    after: &Document<'_>,
    patch: &str,
) -> Result<(), ProgramError> {
    let (old, new) = (before.text(alloc)?, after.text(alloc)?);
    if find_lost(alloc, old)?.is_none() && find_lost(alloc, new)?.is_none() {
        return Ok(());
    }
    let (Some(old), Some(new)) = (if_json(marked(alloc, old))?, if_json(marked(alloc, new))?) else {
        return Ok(());
    };
    let Some(made) = patched(alloc, old.as_str(), patch)? else {
        return Err(loss(alloc, after.name, None));
    };
    let made = lines_of(alloc, made.as_str())?;
    let new = lines_of(alloc, new.as_str())?;
    match first_difference(made.as_str(), new.as_str()) {
        None => Ok(()),
        Some((pointer, true)) => Err(loss(alloc, after.name, Some(pointer))),
        Some((_pointer, false)) => Err(loss(alloc, before.name, None)),
    }
}

/// Fails if a number of the document loses digits where the merge patch has another decimal number that is read
/// as the same one: the patch with this text, which was made of both, leaves that number.
pub fn check_merge_patch(
    alloc: Global,
    document: &Document<'_>,
    changes: &Value,
    patch: &str,
) -> Result<(), ProgramError> {
    let text = document.text(alloc)?;
    if find_lost(alloc, text)?.is_none() {
        return Ok(());
    }
    let Some(old) = if_json(marked(alloc, text))? else {
        return Ok(());
    };
    let (Some(made), Some(new)) = (
        patched(alloc, old.as_str(), patch)?,
        merge_patched_text(alloc, old.as_str(), changes)?,
    ) else {
        return Err(loss(alloc, document.name, None));
    };
    let made = lines_of(alloc, made.as_str())?;
    let new = lines_of(alloc, new.as_str())?;
    match first_difference(made.as_str(), new.as_str()) {
        None => Ok(()),
        Some((pointer, _)) => Err(loss(alloc, document.name, Some(pointer))),
    }
}

/// Returns the text of the document after the merge patch, or `None` if that nests too deep.
fn merge_patched_text(
    alloc: Global,
    document: &str,
    changes: &Value,
) -> Result<Option<String>, ProgramError> {
    let Some(document) = if_json(jsonptr_value::read(alloc, document))? else {
        return Ok(None);
    };
    match merge_patched(alloc, &document, changes) {
        Ok(document) => Ok(Some(document.to_string(alloc)?)),
        Err(Fault::Memory(_)) => Err(ProgramError::Memory),
        Err(Fault::Refused(_)) => Ok(None),
    }
}

/// Returns the JSON text with a string for each number that loses digits.
fn marked(alloc: Global, text: &str) -> Result<String, ReadError> {
    let mut scratch = Scratch::new(alloc);
    let mut reader = Reader::new(text, &mut scratch)?;
    let mut out = Writer::new(Vec::new(alloc));
    for _ in 0..u64::MAX {
        match reader.next() {
            None => break,
            Some(Token::Bad) => return Err(ReadError::NotJson),
            Some(Token::Number(number)) if !is_kept(number) => {
                out.string(decimal(alloc, number)?.as_str())?;
            }
            Some(token) => out.token(token)?,
        }
    }
    match String::from_utf8(out.into_inner()) {
        Ok(text) => Ok(text),
        Err(_) => Err(ReadError::NotJson),
    }
}

/// Returns the decimal value of a number that loses digits: its digits without zeros at their ends, and
/// the power of ten. A number whose exponent has more than 63 bits is returned as it is written.
fn decimal(alloc: Global, number: &str) -> Result<String, AllocError> {
    let (sign, rest) = match number.strip_prefix('-') {
        Some(rest) => ("-", rest),
        None => ("", number),
    };
    let (digits, exponent) = match rest.find(['e', 'E']) {
        Some(at) => (
            rest.get(..at).unwrap_or(""),
            rest.get(at.saturating_add(1)..).unwrap_or(""),
        ),
        None => (rest, "0"),
    };
    let Ok(exponent) = exponent.parse::<i64>() else {
        return format!(in alloc; "{MARK}{number}");
    };
    let (whole, fraction) = digits.split_once('.').unwrap_or((digits, ""));
    let all = format!(in alloc; "{whole}{fraction}")?;
    let significant = all.as_str().trim_end_matches('0');
    let zeros = all.len().saturating_sub(significant.len());
    let power = i128::from(exponent)
        .saturating_add(zeros as i128)
        .saturating_sub(fraction.len() as i128);
    let significant = significant.trim_start_matches('0');
    format!(in alloc; "{MARK}{sign}{significant}e{power}")
}

/// Returns the text of the document after the patch, or `None` if it does not apply.
fn patched(alloc: Global, document: &str, patch: &str) -> Result<Option<String>, ProgramError> {
    let Some(mut document) = if_json(jsonptr_value::read(alloc, document))? else {
        return Ok(None);
    };
    let Some(patch) = if_json(jsonptr_value::read(alloc, patch))? else {
        return Ok(None);
    };
    let Ok(operations) = operations_of(alloc, &patch) else {
        return Err(ProgramError::Memory);
    };
    match apply_comparing(alloc, &mut document, operations, Comparison::Numeric) {
        Ok(()) => Ok(Some(document.to_string(alloc)?)),
        Err(Fault::Memory(_)) => Err(ProgramError::Memory),
        Err(Fault::Refused(_)) => Ok(None),
    }
}

/// Returns a line for each leaf of the document.
fn lines_of(alloc: Global, document: &str) -> Result<String, ProgramError> {
    match listed_text(alloc, document.as_bytes(), Listed::Leaves) {
        Ok(lines) => Ok(lines),
        Err(_) => Err(ProgramError::Memory),
    }
}

/// Returns the pointer of the first leaf that is not the same in both, and whether it is a number that
/// loses digits in the new document.
fn first_difference<'t>(made: &str, new: &'t str) -> Option<(&'t str, bool)> {
    for (one, other) in made.split('\n').zip(new.split('\n')) {
        if one != other {
            let (pointer, value) = other.split_once('\t').unwrap_or((other, ""));
            return Some((pointer, value.starts_with("\"#")));
        }
    }
    if made.len() == new.len() {
        None
    } else {
        Some(("", false))
    }
}

/// Returns the error of a number that loses digits in the document with this name.
fn loss(alloc: Global, name: &str, pointer: Option<&str>) -> ProgramError {
    let message = match pointer {
        Some("") => format!(in alloc; "the number loses digits: use --lossy"),
        Some(pointer) => match shown(alloc, pointer) {
            Ok(pointer) => format!(in alloc; "the number at {pointer} loses digits: use --lossy"),
            Err(error) => Err(error),
        },
        None => format!(in alloc; "a number loses digits: use --lossy"),
    };
    ProgramError::of_message(alloc, BAD_INPUT, name, message)
}
