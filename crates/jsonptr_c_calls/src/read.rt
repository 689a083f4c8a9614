//! JSON texts as bytes.
ghost use Rattle.std.specs.Prelude.{◌≡◌, ◌≤◌, IfErr, IfOk, IsUtf8, MatchOption, OnOk, Some, length};
ghost use Rattle.serde_json.specs.Data.{Data};
ghost use Rattle.serde_json.specs.Read.{read as read_text};
ghost use Rattle.serde_json.specs.View.{view};
ghost use Rattle.jsonptr_c_calls.specs.Depths.{IsParsed};
ghost use Rattle.jsonptr_c_calls.specs.Exactness.{IsNotParsedExactly};
ghost use Rattle.jsonptr_c_calls.specs.Failures.{IsNotParsed};
ghost use Rattle.jsonptr_text_digits.specs.Digits.{KeepsDigits};
ghost use Rattle.jsonptr_text_digits.specs.Lost.{Loses};

use crate::call_error::{Argument, CallError};
use crate::pointers::text_of;
use jsonptr_text_digits::{Lost, find_lost};
use serde_json::{Error, Value};
use std::alloc::{AllocError, Global};

/// Returns the document that the bytes are the text of.
///
/// # Errors
///
/// - [`CallError::NotUtf8`] and [`CallError::NotJson`].
/// - [`CallError::Memory`] if an allocation fails.
///
/// # Examples
///
/// ```rust
/// let Ok(document) = read::read(alloc, b"[1.0, 2]") else {
///     return Err("a document".into());
/// };
/// assert_eq!(rt; document.to_string(alloc)?.as_str(), "[1.0,2]");
/// let cut = read::read(alloc, b"[1.0");
/// assert!(rt; matches!(cut, Err(CallError::NotJson { offset: 4 })));
/// ```
pub fn read(alloc: Global, bytes: &[u8]) -> Result<Value, CallError>
    ensures read { IfOk result (λ v. read_text bytes.now ≡ Some (view v)) }
    ensures parsed { IfOk result (λ v. IsParsed (view v)) }
    ensures utf8 { OnOk result (IsUtf8 bytes.now) }
    ensures refused { IfErr result (IsNotParsed bytes.now) }
{
    let text = text_of(Argument::Text, bytes)?;
    match Value::from_str(alloc, text) {
        Ok(value) => Ok(value),
        Err(error) => {
            if error.is_memory() {
                Err(CallError::Memory(AllocError))
            } else {
                Err(CallError::NotJson {
                    offset: error_offset(bytes, &error),
                })
            }
        }
    }
}

/// Returns the document that the bytes are the text of, if each number of it keeps its digits.
///
/// # Errors
///
/// - [`CallError::NotUtf8`] and [`CallError::NotJson`].
/// - [`CallError::NotExact`] with the first number that loses digits.
/// - [`CallError::Memory`] if an allocation fails.
///
/// # Examples
///
/// ```rust
/// assert!(rt; read::read_exactly(alloc, b"[1.10]").is_ok());
/// let lost = read::read_exactly(alloc, b"[1e-400]");
/// assert!(rt; matches!(lost, Err(CallError::NotExact(_))));
/// ```
pub fn read_exactly(alloc: Global, bytes: &[u8]) -> Result<Value, CallError>
    ensures read { IfOk result (λ v. read_text bytes.now ≡ Some (view v)) }
    ensures parsed { IfOk result (λ v. IsParsed (view v)) }
    ensures digits { OnOk result (KeepsDigits bytes.now) }
    ensures utf8 { OnOk result (IsUtf8 bytes.now) }
    ensures refused { IfErr result (IsNotParsedExactly bytes.now) }
{
    let value = read(alloc, bytes)?;
    match lost_of(alloc, bytes)? {
        Some(lost) => Err(CallError::NotExact(lost)),
        None => Ok(value),
    }
}

/// Returns the first number of the JSON text that loses digits, or `None` if each number keeps its
/// digits.
///
/// # Errors
///
/// - [`CallError::NotUtf8`].
/// - [`CallError::Memory`] if an allocation fails.
pub(crate) fn lost_of(alloc: Global, bytes: &[u8]) -> Result<Option<Lost>, CallError>
    ensures lost { IfOk result (λ o. MatchOption o (KeepsDigits bytes.now) (Loses bytes.now)) }
    ensures utf8 { OnOk result (IsUtf8 bytes.now) }
    ensures refused { IfErr result (IsNotParsed bytes.now) }
{
    let text = text_of(Argument::Text, bytes)?;
    Ok(find_lost(alloc, text)?)
}

/// Returns the offset that the error reports.
fn error_offset(bytes: &[u8], error: &Error) -> usize
    ensures { result ≤ length bytes.now }
{
    if error.is_eof() {
        bytes.len()
    } else {
        offset_at(bytes, error.line(), error.column())
    }
}

/// Returns the offset at which reading the text stops: that of [`CallError::NotJson`], or the length of
/// the text if it is a JSON text.
///
/// No clause says which offset it is in a text that is not JSON, only that it is at most the length. The
/// contracts of `serde_json` do not define the offset of an error.
///
/// # Errors
///
/// If an allocation fails.
///
/// # Examples
///
/// ```rust
/// assert_eq!(rt; stop(alloc, "[1, x]")?, 4);
/// assert_eq!(rt; stop(alloc, "[1, ")?, 4);
/// assert_eq!(rt; stop(alloc, "[1]")?, 3);
/// ```
pub fn stop(alloc: Global, text: &str) -> Result<usize, AllocError>
    ensures within { IfOk result (λ offset. offset ≤ length text.now) }
    ensures whole { (d : Data) → read_text text.now ≡ Some d → IfOk result (λ offset. offset ≡ length text.now) }
{
    match Value::from_str(alloc, text) {
        Ok(_) => Ok(text.len()),
        Err(error) => {
            if error.is_memory() {
                Err(AllocError)
            } else {
                Ok(error_offset(text.as_bytes(), &error))
            }
        }
    }
}

/// Returns the offset of a column of a line, both counted from 1, or the length of the text if it is
/// shorter.
fn offset_at(text: &[u8], line: usize, column: usize) -> usize
    ensures { result ≤ length text.now }
{
    let mut start = 0usize;
    for _ in 1..line {
        let rest = text.get(start..).unwrap_or(b"");
        let length = rest.iter().take_while(|byte| **byte != b'\n').count();
        start = start.saturating_add(length).saturating_add(1);
    }
    start
        .saturating_add(column.saturating_sub(1))
        .min(text.len())
}
