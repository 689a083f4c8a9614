//! Copying a value.
ghost use Rattle.std.specs.Prelude.{◌≡◌, IfOk};
ghost use Rattle.serde_json.specs.View.{view, items_view, members_view};

use crate::depth::RECURSION_LEVELS;
use crate::drop::discard;
use crate::extend::{with_element, with_member};
use crate::partial::copy_deep;
use serde_json::{Map, Value};
use std::alloc::{AllocError, Global};

/// Returns a copy of the value, as its `clone` does.
///
/// Time is linear in the value, times a logarithm of the number of members in an object. The first 32
/// levels take the stack, by recursion.
///
/// # Errors
///
/// [`AllocError`] if an allocation fails. The copies so far are discarded.
pub fn copy(alloc: Global, value: &Value) -> Result<Value, AllocError>
    ensures { IfOk result (λ v. view v ≡ view value.now) }
{
    copy_within(alloc, value, RECURSION_LEVELS)
}

/// Returns a copy of the value, by recursion down to so many levels and by a loop below them.
#[cycle(copying)]
fn copy_within(alloc: Global, value: &Value, levels: usize) -> Result<Value, AllocError>
    ensures { IfOk result (λ v. view v ≡ view value.now) }
{
    if levels == 0 {
        return copy_deep(alloc, value);
    }
    match value {
        Value::Null => Ok(Value::Null),
        Value::Bool(b) => Ok(Value::Bool(*b)),
        Value::Number(number) => Ok(Value::Number(*number)),
        Value::String(text) => Ok(Value::String(text.clone()?)),
        Value::Array(elements) => Ok(Value::Array(copy_elements(alloc, elements, levels - 1)?)),
        Value::Object(members) => Ok(Value::Object(copy_members(alloc, members, levels - 1)?)),
    }
}

/// Returns copies of the elements.
#[cycle(copying)]
fn copy_elements(
    alloc: Global,
    elements: &Vec<Value>,
    levels: usize,
) -> Result<Vec<Value>, AllocError>
    ensures { IfOk result (λ v. items_view v.items ≡ items_view elements.now.items) }
{
    let mut copies = Vec::with_capacity(alloc, elements.len())?;
    for element in elements {
        match copy_within(alloc, element, levels) {
            Ok(copied) => copies = with_element(copies, copied)?,
            Err(error) => {
                discard(Value::Array(copies));
                return Err(error);
            }
        }
    }
    Ok(copies)
}

/// Returns copies of the members.
#[cycle(copying)]
fn copy_members(
    alloc: Global,
    members: &Map<String, Value>,
    levels: usize,
) -> Result<Map<String, Value>, AllocError>
    ensures { IfOk result (λ m. members_view m.entries ≡ members_view members.now.entries) }
{
    let mut copies = Map::new(alloc);
    for (key, member) in members.iter() {
        match copy_within(alloc, member, levels) {
            Ok(copied) => copies = with_member(copies, key, copied)?,
            Err(error) => {
                discard(Value::Object(copies));
                return Err(error);
            }
        }
    }
    Ok(copies)
}
