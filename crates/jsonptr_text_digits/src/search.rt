//! The first number of a text that is not kept.
ghost use Rattle.std.specs.Prelude.{◌≡◌, Some, MatchOption, IfOk, IfSome, IsTrue};
ghost use Rattle.serde_json.specs.Read.{read};
ghost use Rattle.serde_json.specs.View.{view};
ghost use Rattle.jsonptr.specs.Json.{FindsValue};
ghost use Rattle.jsonptr_text_digits.specs.Digits.{AreKept, FirstLost, KeepsDigits};
ghost use Rattle.jsonptr_text_digits.specs.Lost.{Identifies, IsAt, LocatesNumber, Loses};

use crate::first_lost::{Found, path_of_first_lost};
use crate::kept::is_kept;
use crate::lost::Lost;
use json::{Reader, Scratch, Token};
use jsonptr::{Fault, PointerBuf};
use jsonptr_value::{if_json, is_same_number};
use serde_json::Value;
use std::alloc::{AllocError, Global};

/// Returns the first number of the text whose digits are lost, or `None` if each number keeps its
/// decimal value.
///
/// One pass over the tokens. If there is such a number, the text is read twice more, for its pointer and to
/// check that, and its document is allocated. If the text is
/// not JSON, the numbers before the damage count.
///
/// # Errors
///
/// [`AllocError`] if an allocation fails.
///
/// # Examples
///
/// ```rust
/// assert!(rt; find_lost(alloc, r#"{"price": 1.10, "size": [1e5, 18446744073709551615]}"#)?.is_none());
/// let lost = find_lost(alloc, r#"{"sizes": [1, 18446744073709551616]}"#)?.ok_or("a number")?;
/// assert_eq!(rt; lost.offset, Some(14));
/// let pointer = lost.pointer.ok_or("a pointer")?;
/// assert_eq!(rt; pointer.as_ptr().as_str(), "/sizes/1");
/// ```
pub fn find_lost(alloc: Global, text: &str) -> Result<Option<Lost>, AllocError>
    ensures { IfOk result (λ o. MatchOption o (KeepsDigits text.now) (Loses text.now)) }
{
    let mut scratch = Scratch::new(alloc);
    let mut reader = Reader::new(text, &mut scratch)?;
    match first_lost(&mut reader) {
        Some(number) => Ok(Some(lost_at(alloc, text, number)?)),
        None => Ok(None),
    }
}

/// Returns the text of the first number that is left and is not kept.
fn first_lost<'a>(reader: &mut Reader<'a>) -> Option<&'a str>
    ensures { MatchOption result (AreKept reader.old) (λ number. FirstLost number.now reader.old) }
{
    while let Some(token) = reader.next() {
        if let Token::Number(number) = token {
            if !is_kept(number) {
                return Some(number);
            }
        }
    }
    None
}

/// Returns where the number is in the text, as far as the checks of it succeed.
fn lost_at(alloc: Global, text: &str, number: &str) -> Result<Lost, AllocError>
    ensures { IfOk result (LocatesNumber text.now number.now) }
{
    let length = number.len();
    match path_of_first_lost(alloc, text)? {
        Some(Found { pointer, offset }) => Ok(Lost {
            pointer: checked_pointer(alloc, text, number, pointer)?,
            offset: checked_offset(text, number, offset),
            length,
        }),
        None => Ok(Lost {
            pointer: None,
            offset: None,
            length,
        }),
    }
}

/// Returns the offset if the text of the number is there.
fn checked_offset(text: &str, number: &str, offset: usize) -> Option<usize>
    ensures { IfSome result (IsAt text.now number.now) }
{
    let (_before, rest) = text.split_at_checked(offset)?;
    let (piece, _after) = rest.split_at_checked(number.len())?;
    if piece == number { Some(offset) } else { None }
}

/// Returns the pointer if it resolves, in the text, to what the number is read as.
fn checked_pointer(
    alloc: Global,
    text: &str,
    number: &str,
    pointer: PointerBuf,
) -> Result<Option<PointerBuf>, AllocError>
    ensures { IfOk result (λ o. IfSome o (Identifies text.now number.now)) }
{
    let (Some(document), Some(value)) = (read_text(alloc, text)?, read_text(alloc, number)?) else {
        return Ok(None);
    };
    if is_number_at(alloc, &document, &pointer, &value)? {
        Ok(Some(pointer))
    } else {
        Ok(None)
    }
}

/// Returns the document that the text is, or `None` if `serde_json` does not read it.
fn read_text(alloc: Global, text: &str) -> Result<Option<Value>, AllocError>
    ensures { IfOk result (λ o. IfSome o (λ v. read text.now ≡ Some (view v))) }
{
    if_json(jsonptr_value::read(alloc, text))
}

/// Returns whether the pointer resolves to the number in the document.
fn is_number_at(
    alloc: Global,
    document: &Value,
    pointer: &PointerBuf,
    number: &Value,
) -> Result<bool, AllocError>
    ensures { IfOk result (λ b. IsTrue b
        → FindsValue (view document.now) pointer.now (view number.now)) }
{
    match pointer.as_ptr().resolve(alloc, document) {
        Ok(found) => Ok(is_same(found, number)),
        Err(Fault::Memory(error)) => Err(error),
        Err(Fault::Refused(_)) => Ok(false),
    }
}

/// Returns whether both values are the same number.
fn is_same(left: &Value, right: &Value) -> bool
    ensures { IsTrue result → view left.now ≡ view right.now }
{
    match (left, right) {
        (Value::Number(one), Value::Number(other)) => is_same_number(one, other),
        _ => false,
    }
}
