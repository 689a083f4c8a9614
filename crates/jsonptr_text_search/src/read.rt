//! Reading one value of a text.
ghost use Rattle.std.specs.Prelude.{◌≡◌, ◌<◌, length, Some, None, Err, IfOk, OnOk};
ghost use Rattle.json.specs.Reads.{token_of};
ghost use Rattle.serde_json.specs.View.{view, items_view, members_view};
ghost use Rattle.jsonptr_text_search.specs.Reading.{ReadsTokens, Unreadable, ReadsItems, UnreadableItems, ReadsMembers, UnreadableMembers};
ghost use Rattle.jsonptr_text_search.specs.PrivateReading.{scalar_of};
ghost use Rattle.jsonptr_value.specs.declared.from_text.ReadError.TheVariants.{NotJson};

use crate::number::parse_number;
use json::{Reader, Token};
use jsonptr_value::ReadError;
use serde_json::{Map, Value};
use std::alloc::Global;

/// Reads the next value, which may nest `depth` deep.
///
/// # Errors
///
/// [`ReadError::NotJson`] if `serde_json` does not read the value, and [`ReadError::Memory`] if an
/// allocation fails.
///
/// # Examples
///
/// ```rust
/// let mut scratch = Scratch::new(alloc);
/// let mut reader = Reader::new(r#"[1, {"a": 2}]"#, &mut scratch)?;
/// assert!(rt; reader.next().is_some());
/// assert_eq!(rt; read::read(alloc, &mut reader, 1)?.as_u64(), Some(1));
/// let second = read::read(alloc, &mut reader, 1)?;
/// assert_eq!(rt; second.to_string(alloc)?.as_str(), r#"{"a":2}"#);
/// ```
#[cycle(read)]
#[inline(always)]
pub fn read(alloc: Global, reader: &mut Reader<'_>, depth: usize) -> Result<Value, ReadError>
    ensures value { IfOk result (λ v. ReadsTokens depth reader.old (view v) reader.new) }
    ensures shorter { OnOk result (length reader.new < length reader.old) }
    ensures refused { result ≡ Err NotJson → Unreadable depth reader.old }
{
    let Some(token) = reader.next() else {
        return Err(ReadError::NotJson);
    };
    match token {
        Token::BeginArray => {
            if depth == 0 {
                return Err(ReadError::NotJson);
            }
            let elements = read_elements(alloc, reader, depth - 1)?;
            Ok(Value::Array(elements))
        }
        Token::BeginObject => {
            if depth == 0 {
                return Err(ReadError::NotJson);
            }
            let members = read_members(alloc, reader, depth - 1)?;
            Ok(Value::Object(members))
        }
        _ => read_scalar(alloc, token),
    }
}

/// Returns the value that the token is on its own.
///
/// # Errors
///
/// As [`read`].
#[inline(always)]
fn read_scalar(alloc: Global, token: Token<'_>) -> Result<Value, ReadError>
    ensures value { IfOk result (λ v. scalar_of (token_of token.entry) ≡ Some (view v)) }
    ensures refused { result ≡ Err NotJson → scalar_of (token_of token.entry) ≡ None }
{
    match token {
        Token::String(text) => Ok(Value::String(String::from_str(alloc, text)?)),
        Token::Number(text) => match parse_number(text) {
            Some(number) => Ok(Value::Number(number)),
            None => Err(ReadError::NotJson),
        },
        Token::Bool(boolean) => Ok(Value::Bool(boolean)),
        Token::Null => Ok(Value::Null),
        Token::BeginObject
        | Token::EndObject
        | Token::BeginArray
        | Token::EndArray
        | Token::Key(_)
        | Token::Bad => Err(ReadError::NotJson),
    }
}

/// Reads the rest of an array, and its closing bracket.
///
/// # Errors
///
/// As [`read`].
#[cycle(read)]
#[inline(never)]
fn read_elements(
    alloc: Global,
    reader: &mut Reader<'_>,
    depth: usize,
) -> Result<Vec<Value>, ReadError>
    ensures value { IfOk result
        (λ v. ReadsItems depth reader.old (items_view v.items) reader.new) }
    ensures shorter { OnOk result (length reader.new < length reader.old) }
    ensures refused { result ≡ Err NotJson → UnreadableItems depth reader.old }
{
    let mut found = Vec::new(alloc);
    'elements: while !reader.take_end_array() {
        let element = read(alloc, reader, depth)?;
        found.push(element)?;
    }
    Ok(found)
}

/// Reads the rest of an object, and its closing brace. Of a repeated key the last member stays.
///
/// # Errors
///
/// As [`read`].
#[cycle(read)]
#[inline(never)]
fn read_members(
    alloc: Global,
    reader: &mut Reader<'_>,
    depth: usize,
) -> Result<Map<String, Value>, ReadError>
    ensures value { IfOk result
        (λ m. ReadsMembers depth reader.old (members_view m.entries) reader.new) }
    ensures shorter { OnOk result (length reader.new < length reader.old) }
    ensures refused { result ≡ Err NotJson → UnreadableMembers depth reader.old }
{
    let mut found = Map::new(alloc);
    'members: while let Some(name) = reader.next_key()? {
        let key = String::from_str(alloc, name)?;
        let member = read(alloc, reader, depth)?;
        drop(found.insert(key, member)?);
    }
    Ok(found)
}
