//! Whether headers or dotted keys make a value.
ghost use Rattle.std.specs.Prelude.{IsTrue, IfOk};
ghost use Rattle.toml.specs.View.{view};
ghost use Rattle.jsonptr.specs.Pointer.{tokens};
ghost use Rattle.jsonptr_toml_edit.specs.Bytes.{IsOpen, MakeAlone};

use crate::alone::{empty_table, ends_as, holds, joined};
use crate::keys::{key_text, push_pointer, push_token};
use jsonptr::{Assign, Fault, Pointer, PointerBuf};
use std::alloc::{AllocError, Global};
use toml::{Table, Value};

/// Returns whether the text is the headers and dotted keys that make the value, and nothing else. They
/// hold it at the keys.
///
/// # Errors
///
/// [`AllocError`] if an allocation fails.
pub fn make_alone(
    alloc: Global,
    text: &str,
    pointer: Pointer<'_>,
    keys: Pointer<'_>,
    value: &Value,
) -> Result<bool, AllocError>
    ensures { IfOk result (λ make. IsTrue make
        → MakeAlone (tokens pointer.entry) (view value.now) text.now) }
{
    Ok(
        ends_as(pointer, keys)
            && holds(alloc, text, keys, value)?
            && is_open(alloc, text, keys, value)?,
    )
}

/// Returns whether a line after the text adds to the value that the text holds at the keys.
fn is_open(alloc: Global, text: &str, keys: Pointer<'_>, value: &Value) -> Result<bool, AllocError>
    ensures { IfOk result (λ is. IsTrue is
        → IsOpen (tokens keys.entry) (view value.now) text.now) }
{
    let addition = addition_to(alloc, keys, value)?;
    let mut more = value.clone()?;
    match more.assign(alloc, addition.child.as_ptr(), empty_table(alloc)) {
        Ok(None) => {}
        Ok(Some(_)) | Err(Fault::Refused(_)) => return Ok(false),
        Err(Fault::Memory(error)) => return Err(error),
    }
    let longer = joined(alloc, text, "\n", addition.line.as_str())?;
    holds(alloc, longer.as_str(), keys, &more)
}

/// A header that adds an empty table to a value. It is a hint: no contract says that it is right.
#[derive(Debug, Drop)]
struct Addition {
    /// The token of the empty table.
    child: PointerBuf,
    /// The header.
    line: String,
}

/// Returns a header that adds an empty table to the value at the keys: a member with a new key, or an
/// element.
fn addition_to(alloc: Global, keys: Pointer<'_>, value: &Value) -> Result<Addition, AllocError> {
    let mut child = PointerBuf::new(alloc);
    let mut line = String::from_str(alloc, "[")?;
    let table = table_keys(keys);
    push_pointer(alloc, &mut line, table)?;
    if let Value::Table(members) = value {
        let key = new_key(alloc, members)?;
        push_token(alloc, &mut child, key.as_str())?;
        if !table.is_root() {
            line.push('.')?;
        }
        line.push_str(key_text(alloc, key.as_str())?.as_str())?;
        line.push(']')?;
        return Ok(Addition { child, line });
    }
    push_token(alloc, &mut child, "-")?;
    Ok(Addition {
        child,
        line: joined(alloc, "[", line.as_str(), "]]")?,
    })
}

/// Returns the keys, without a `-` at the end that identifies an element of an array of tables.
fn table_keys(keys: Pointer<'_>) -> Pointer<'_> {
    match keys.split_back() {
        Some((front, last)) if last.is_next() && !front.is_root() => front,
        _ => keys,
    }
}

/// Returns a key that the table does not have: one after all of them.
fn new_key(alloc: Global, members: &Table) -> Result<String, AllocError> {
    let mut key = String::new(alloc);
    if let Some((last, _)) = members.iter().next_back() {
        key.push_str(last.as_str())?;
    }
    key.push('x')?;
    Ok(key)
}
