//! Whether two values are the same, floats by their bits.
ghost use Rattle.std.specs.Prelude.{◌≡◌, ◌↔◌, IsTrue};
ghost use Rattle.serde_json.specs.View.{view};
ghost use Rattle.jsonptr.specs.Json.{nodes};
ghost use Rattle.jsonptr_patch_diff.specs.PrivateSame.{IsSame, SameElements, SameMembers, SameSuffix};

use crate::similarity::is_small;
use jsonptr_value::is_same_number;
use serde_json::{Map, Value};

/// Returns whether two documents are the same, so that [`diff`](crate::diff) makes no operation: `1` and
/// `1.0` differ, and so do `0.0` and `-0.0`.
///
/// Takes time linear in the documents, and no memory. The stack is in proportion to their depth.
///
/// # Examples
///
/// ```rust
/// let left = Value::from_str(alloc, r#"{"a": 1, "b": []}"#)?;
/// let right = Value::from_str(alloc, r#"{"b": [], "a": 1}"#)?;
/// assert!(rt; are_same(&left, &right));
/// assert!(rt; !are_same(&left, &Value::Null));
/// ```
pub fn are_same(left: &Value, right: &Value) -> bool
    ensures { IsTrue result ↔ (nodes (view left.now) ≡ nodes (view right.now)) }
{
    is_same(left, right)
}

/// Returns whether the two values are the same.
#[cycle(same)]
pub fn is_same(left: &Value, right: &Value) -> bool
    ensures { IsTrue result ↔ IsSame left.now right.now }
{
    match left {
        Value::Null => right.is_null(),
        Value::Bool(truth) => match right.as_bool() {
            Some(other) => *truth == other,
            None => false,
        },
        Value::Number(number) => match right.as_number() {
            Some(other) => is_same_number(number, other),
            None => false,
        },
        Value::String(text) => match right.as_str() {
            Some(other) => text.as_str() == other,
            None => false,
        },
        Value::Array(elements) => match right.as_array() {
            Some(others) => same_elements(elements, others),
            None => false,
        },
        Value::Object(members) => match right.as_object() {
            Some(others) => same_members(members, others),
            None => false,
        },
    }
}

/// Returns whether two arrays have the same length and the same elements.
#[cycle(same)]
fn same_elements(left: &Vec<Value>, right: &Vec<Value>) -> bool
    ensures { IsTrue result ↔ SameElements left.now.items right.now.items }
{
    if left.len() != right.len() {
        return false;
    }
    for (index, element) in left.iter().enumerate() {
        if !is_same(element, &right[index]) {
            return false;
        }
    }
    true
}

/// Returns whether two objects have the same keys and the same members.
///
/// Goes over both at once, since both have their keys in ascending order.
#[cycle(same)]
fn same_members(left: &Map<String, Value>, right: &Map<String, Value>) -> bool
    ensures { IsTrue result ↔ SameMembers left.now right.now }
{
    if left.len() != right.len() {
        return false;
    }
    let mut others = right.iter();
    for (key, member) in left.iter() {
        let Some((name, other)) = others.next() else {
            return false;
        };
        if key.as_str() != name.as_str() || !is_same(member, other) {
            return false;
        }
    }
    true
}

/// Returns whether the first value is small, and the two are the same.
pub fn is_small_same(left: &Value, right: &Value) -> bool
    ensures { IsTrue result → IsSame left.now right.now }
{
    is_small(left) && is_same(left, right)
}

/// Returns how many of the last elements of two arrays are small, and the same.
pub fn same_suffix(left: &Vec<Value>, right: &Vec<Value>) -> usize
    ensures { SameSuffix left.now.items right.now.items result }
{
    let (count, other) = (left.len(), right.len());
    let both = if count < other { count } else { other };
    for done in 0..both {
        if !is_small_same(&left[count - done - 1], &right[other - done - 1]) {
            return done;
        }
    }
    both
}
