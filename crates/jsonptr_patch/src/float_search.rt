//! Searching a value for a float without recursion.
ghost use Rattle.std.specs.Prelude.{◌≡◌, ◌+◌, ◌<◌, ◌↔◌, false, IfOk, OnOk, IsTrue};
ghost use Rattle.serde_json.specs.View.{view};
ghost use Rattle.serde_json.specs.declared.value.Value.{Value as SpecValue};
ghost use Rattle.jsonptr_value.specs.Lengths.{elements_length, members_length, token_count};
ghost use Rattle.jsonptr_patch.specs.PrivateTesting.{FloatIn};
ghost use Rattle.jsonptr_patch.specs.PrivateSearching.{ElementsLeadTo, MembersLeadTo, LeadsTo, AllLeadTo, ElementsLack, MembersLack, Lacks, AllLack, left_length, stack_length};

use crate::equality::has_float;
use serde_json::Value;
use std::alloc::{AllocError, Global};
use std::collections::btree_map::Iter;

/// What is left to search of an array or object.
#[derive(Drop)]
pub(crate) enum Left<'v> {
    Elements(&'v [Value]),
    Members(Iter<'v, String, Value>),
}

/// Returns whether the value is a float or contains one at any depth.
///
/// Needs memory in proportion to the depth of the value. Where an allocation fails, it recurses
/// instead.
pub(crate) fn contains_float(alloc: Global, value: &Value) -> bool
    ensures { IsTrue result ↔ FloatIn value.now }
{
    match search(alloc, value) {
        Ok(found) => found,
        Err(_) => has_float(value),
    }
}

/// Returns whether the value is a float or contains one at any depth.
///
/// # Errors
///
/// [`AllocError`] if an allocation fails.
fn search(alloc: Global, value: &Value) -> Result<bool, AllocError>
    ensures { IfOk result (λ found. IsTrue found ↔ FloatIn value.now) }
{
    let mut stack = Vec::new(alloc);
    if look(value, &mut stack)? {
        return Ok(true);
    }
    while let Some(left) = stack.pop() {
        if look_further(left, &mut stack)? {
            return Ok(true);
        }
    }
    Ok(false)
}

/// Returns whether the value is a float. If it has children, they are then left on the stack.
fn look<'v>(value: &'v Value, stack: &mut Vec<Left<'v>>) -> Result<bool, AllocError>
    ensures found { IfOk result (λ found. IsTrue found → FloatIn value.now) }
    ensures leads { OnOk result ((v : SpecValue) → (FloatIn value.now → FloatIn v)
        → AllLeadTo v stack.old.items → AllLeadTo v stack.new.items) }
    ensures lacks { IfOk result (λ found. found ≡ false → AllLack stack.new.items
        → AllLack stack.old.items × (FloatIn value.now → ⊥)) }
    ensures smaller { OnOk result (stack_length stack.new.items
        < stack_length stack.old.items + token_count (view value.now)) }
{
    match value {
        Value::Null => Ok(false),
        Value::Bool(_) => Ok(false),
        Value::Number(number) => Ok(number.is_f64()),
        Value::String(_) => Ok(false),
        Value::Array(elements) => {
            stack.push(Left::Elements(elements.as_slice()))?;
            Ok(false)
        }
        Value::Object(members) => {
            stack.push(Left::Members(members.iter()))?;
            Ok(false)
        }
    }
}

/// Looks at the next child that is left, as [`look`] does.
fn look_further<'v>(left: Left<'v>, stack: &mut Vec<Left<'v>>) -> Result<bool, AllocError>
    ensures found { IfOk result (λ found. (v : SpecValue) → LeadsTo v left.entry
        → IsTrue found → FloatIn v) }
    ensures leads { OnOk result ((v : SpecValue) → LeadsTo v left.entry
        → AllLeadTo v stack.old.items → AllLeadTo v stack.new.items) }
    ensures lacks { IfOk result (λ found. found ≡ false → AllLack stack.new.items
        → AllLack stack.old.items × Lacks left.entry) }
    ensures smaller { OnOk result (stack_length stack.new.items
        < stack_length stack.old.items + left_length left.entry) }
{
    match left {
        Left::Elements(elements) => look_at_element(elements, stack),
        Left::Members(members) => look_at_member(members, stack),
    }
}

/// Looks at the next element, as [`look`] does.
fn look_at_element<'v>(elements: &'v [Value], stack: &mut Vec<Left<'v>>) -> Result<bool, AllocError>
    ensures found { IfOk result (λ found. (v : SpecValue) → ElementsLeadTo v elements.now
        → IsTrue found → FloatIn v) }
    ensures leads { OnOk result ((v : SpecValue) → ElementsLeadTo v elements.now
        → AllLeadTo v stack.old.items → AllLeadTo v stack.new.items) }
    ensures lacks { IfOk result (λ found. found ≡ false → AllLack stack.new.items
        → AllLack stack.old.items × ElementsLack elements.now) }
    ensures smaller { OnOk result (stack_length stack.new.items
        < stack_length stack.old.items + elements_length elements.now) }
{
    let Some((element, rest)) = elements.split_first() else {
        return Ok(false);
    };
    stack.push(Left::Elements(rest))?;
    look(element, stack)
}

/// Looks at the next member, as [`look`] does.
fn look_at_member<'v>(
    mut members: Iter<'v, String, Value>,
    stack: &mut Vec<Left<'v>>,
) -> Result<bool, AllocError>
    ensures found { IfOk result (λ found. (v : SpecValue) → MembersLeadTo v members.entry
        → IsTrue found → FloatIn v) }
    ensures leads { OnOk result ((v : SpecValue) → MembersLeadTo v members.entry
        → AllLeadTo v stack.old.items → AllLeadTo v stack.new.items) }
    ensures lacks { IfOk result (λ found. found ≡ false → AllLack stack.new.items
        → AllLack stack.old.items × MembersLack members.entry) }
    ensures smaller { OnOk result (stack_length stack.new.items
        < stack_length stack.old.items + members_length members.entry) }
{
    let Some((_key, member)) = members.next() else {
        return Ok(false);
    };
    stack.push(Left::Members(members))?;
    look(member, stack)
}
