//! Copies a value by a loop. A stack holds the arrays and objects that are copied in part.
ghost use Rattle.std.specs.Prelude.{◌≡◌, ◌+◌, ◌*◌, ◌<◌, IfOk, OnOk};
ghost use Rattle.serde_json.specs.Data.{array, object};
ghost use Rattle.serde_json.specs.View.{view, items_view, members_view};
ghost use Rattle.jsonptr_value.specs.Lengths.{elements_length, members_length, token_count};
ghost use Rattle.jsonptr_value.specs.PrivatePartial.{ArePartial, IsPartial, IsPrefix, filled, partial_length, join_items, join_members, data_of, completed, step_length, copies_length};

use crate::drop::discard;
use crate::extend::{with_element, with_member};
use serde_json::{Map, Value};
use std::alloc::{AllocError, Global};
use std::collections::btree_map::Iter;

/// An array or object that is copied in part: the copies so far, the key of the child that is copied
/// now, and what is left after that child.
#[derive(Drop)]
enum PartialCopy<'v> {
    Elements(Vec<Value>, &'v [Value]),
    Members(Map<String, Value>, &'v String, Iter<'v, String, Value>),
}

/// The next step: to copy a value, or to attach a copy to the last of the partial copies.
#[derive(Drop)]
enum Step<'v> {
    Copy(&'v Value),
    Attach(Value),
}

/// Returns a copy of the value, with a stack of its partial copies.
///
/// # Errors
///
/// [`AllocError`] if an allocation fails. The copies so far are discarded.
pub(crate) fn copy_deep(alloc: Global, value: &Value) -> Result<Value, AllocError>
    ensures { IfOk result (λ v. view v ≡ view value.now) }
{
    let mut stack = Vec::new(alloc);
    let mut step = Step::Copy(value);
    loop {
        let next = match step {
            Step::Copy(value) => begin(alloc, value, &mut stack),
            Step::Attach(copied) => match stack.pop() {
                Some(partial) => resume(partial, copied, &mut stack),
                None => return Ok(copied),
            },
        };
        match next {
            Ok(next) => step = next,
            Err(error) => {
                abandon_all(stack);
                return Err(error);
            }
        }
    }
}

/// Copies a scalar, or begins to copy an array or object.
fn begin<'v>(
    alloc: Global,
    value: &'v Value,
    stack: &mut Vec<PartialCopy<'v>>,
) -> Result<Step<'v>, AllocError>
    ensures completed { IfOk result (λ step. completed stack.new.items (data_of step)
        ≡ completed stack.old.items (view value.now)) }
    ensures partial { OnOk result (ArePartial stack.old.items → ArePartial stack.new.items) }
    ensures smaller { IfOk result (λ step. step_length step + copies_length stack.new.items
        < 2 * token_count (view value.now) + copies_length stack.old.items) }
{
    match value {
        Value::Null => Ok(Step::Attach(Value::Null)),
        Value::Bool(b) => Ok(Step::Attach(Value::Bool(*b))),
        Value::Number(number) => Ok(Step::Attach(Value::Number(*number))),
        Value::String(text) => Ok(Step::Attach(Value::String(text.clone()?))),
        Value::Array(elements) => {
            let copies = Vec::with_capacity(alloc, elements.len())?;
            next_element(copies, elements.as_slice(), stack)
        }
        Value::Object(members) => next_member(Map::new(alloc), members.iter(), stack),
    }
}

/// Attaches a copy to its array or object, and continues with what is left of that.
fn resume<'v>(
    partial: PartialCopy<'v>,
    copied: Value,
    stack: &mut Vec<PartialCopy<'v>>,
) -> Result<Step<'v>, AllocError>
    requires { IsPartial partial }
    ensures completed { IfOk result (λ step. completed stack.new.items (data_of step)
        ≡ completed stack.old.items (filled partial.entry (view copied))) }
    ensures partial { OnOk result (ArePartial stack.old.items → ArePartial stack.new.items) }
    ensures smaller { IfOk result (λ step. step_length step + copies_length stack.new.items
        < 1 + partial_length partial.entry + copies_length stack.old.items) }
{
    match partial {
        PartialCopy::Elements(copies, left) => {
            let copies = with_element(copies, copied)?;
            next_element(copies, left, stack)
        }
        PartialCopy::Members(copies, key, left) => {
            let copies = with_member(copies, key, copied)?;
            next_member(copies, left, stack)
        }
    }
}

/// Continues with the next element that is left, or completes the array.
fn next_element<'v>(
    copies: Vec<Value>,
    left: &'v [Value],
    stack: &mut Vec<PartialCopy<'v>>,
) -> Result<Step<'v>, AllocError>
    ensures completed { IfOk result (λ step. completed stack.new.items (data_of step)
        ≡ completed stack.old.items
        (array (join_items (items_view copies.items) (items_view left.now)))) }
    ensures partial { OnOk result (ArePartial stack.old.items → ArePartial stack.new.items) }
    ensures smaller { IfOk result (λ step. step_length step + copies_length stack.new.items
        < 1 + 2 * elements_length left.now + copies_length stack.old.items) }
{
    let Some((element, rest)) = left.split_first() else {
        return Ok(Step::Attach(Value::Array(copies)));
    };
    match stack.push(PartialCopy::Elements(copies, rest)) {
        Ok(()) => Ok(Step::Copy(element)),
        Err(failed) => {
            abandon(failed.value);
            Err(AllocError)
        }
    }
}

/// Continues with the next member that is left, or completes the object.
fn next_member<'v>(
    copies: Map<String, Value>,
    mut left: Iter<'v, String, Value>,
    stack: &mut Vec<PartialCopy<'v>>,
) -> Result<Step<'v>, AllocError>
    requires { IsPrefix copies.entries left }
    ensures completed { IfOk result (λ step. completed stack.new.items (data_of step)
        ≡ completed stack.old.items
        (object (join_members (members_view copies.entries) (members_view left.entry)))) }
    ensures partial { OnOk result (ArePartial stack.old.items → ArePartial stack.new.items) }
    ensures smaller { IfOk result (λ step. step_length step + copies_length stack.new.items
        < 1 + 2 * members_length left.entry + copies_length stack.old.items) }
{
    let Some((key, member)) = left.next() else {
        return Ok(Step::Attach(Value::Object(copies)));
    };
    match stack.push(PartialCopy::Members(copies, key, left)) {
        Ok(()) => Ok(Step::Copy(member)),
        Err(failed) => {
            abandon(failed.value);
            Err(AllocError)
        }
    }
}

/// Discards the copies of an array or object.
fn abandon(partial: PartialCopy<'_>) {
    match partial {
        PartialCopy::Elements(copies, _) => discard(Value::Array(copies)),
        PartialCopy::Members(copies, _, _) => discard(Value::Object(copies)),
    }
}

/// Discards the copies of each array and object.
fn abandon_all(partials: Vec<PartialCopy<'_>>) {
    for partial in partials {
        abandon(partial);
    }
}
