//! Equality of values (RFC 6902, section 4.6).
ghost use Rattle.std.specs.Prelude.{◌≡◌, ◌↔◌, Some, IsTrue};
ghost use Rattle.std.specs.BTreeMap.{get_by_text};
ghost use Rattle.serde_json.specs.View.{view, number_view};
ghost use Rattle.jsonptr.specs.Json.{nodes};
ghost use Rattle.jsonptr_patch.specs.Testing.{IsEqualBy};
ghost use Rattle.jsonptr_patch.specs.PrivateTesting.{FloatIn, FloatAmong, FloatUnder, SameNumberBy, SameElements, SameMembers, HasKeys};

use crate::comparison::Comparison;
use crate::number::{is_equal_number, is_same_integer};
use serde_json::{Map, Number, Value};

/// Returns whether the value is a float or contains one at any depth.
///
/// The stack is in proportion to the depth of the value. So it is called only where the allocation
/// of the list of `float_search` fails.
#[cycle(floats)]
pub fn has_float(value: &Value) -> bool
    ensures { IsTrue result ↔ FloatIn value.now }
{
    match value {
        Value::Null => false,
        Value::Bool(_) => false,
        Value::Number(number) => number.is_f64(),
        Value::String(_) => false,
        Value::Array(elements) => elements_have_float(elements),
        Value::Object(members) => members_have_float(members),
    }
}

/// Returns whether one of the elements contains a float.
#[cycle(floats)]
fn elements_have_float(elements: &Vec<Value>) -> bool
    ensures { IsTrue result ↔ FloatAmong elements.now.items }
{
    for element in elements {
        if has_float(element) {
            return true;
        }
    }
    false
}

/// Returns whether one of the members contains a float.
#[cycle(floats)]
fn members_have_float(members: &Map<String, Value>) -> bool
    ensures { IsTrue result ↔ FloatUnder members.now }
{
    for (_key, member) in members.iter() {
        if has_float(member) {
            return true;
        }
    }
    false
}

/// Returns whether two values are equal for a `test` (RFC 6902, section 4.6).
///
/// With [`Comparison::Strict`] a float equals nothing. Takes time linear in the values, times the logarithm
/// of the members of an object, and no memory. The stack is in proportion to the depth of the shallower
/// value, since it goes no deeper than both.
///
/// # Examples
///
/// ```rust
/// let left = Value::from_str(alloc, r#"{"a": 1, "b": [2.0]}"#)?;
/// let right = Value::from_str(alloc, r#"{"b": [2], "a": 1}"#)?;
/// assert!(rt; is_equal(&left, &right, Comparison::Numeric));
/// assert!(rt; !is_equal(&left, &right, Comparison::Strict));
/// ```
#[cycle(equal)]
pub fn is_equal(left: &Value, right: &Value, comparison: Comparison) -> bool
    ensures { IsTrue result
        ↔ IsEqualBy comparison (nodes (view left.now)) (nodes (view right.now)) }
{
    match left {
        Value::Null => right.is_null(),
        Value::Bool(truth) => match right.as_bool() {
            Some(other) => *truth == other,
            None => false,
        },
        Value::Number(number) => match right.as_number() {
            Some(other) => same_number(number, other, comparison),
            None => false,
        },
        Value::String(text) => match right.as_str() {
            Some(other) => text.as_str() == other,
            None => false,
        },
        Value::Array(elements) => match right.as_array() {
            Some(others) => same_elements(elements, others, comparison),
            None => false,
        },
        Value::Object(members) => match right.as_object() {
            Some(others) => same_members(members, others, comparison),
            None => false,
        },
    }
}

/// Returns whether two numbers are equal for a test.
fn same_number(left: &Number, right: &Number, comparison: Comparison) -> bool
    ensures { IsTrue result
        ↔ SameNumberBy comparison (number_view left.now) (number_view right.now) }
{
    match comparison {
        Comparison::Strict => is_same_integer(left, right),
        Comparison::Numeric => is_equal_number(left, right),
    }
}

/// Returns whether two arrays have the same length and equal elements.
#[cycle(equal)]
fn same_elements(left: &Vec<Value>, right: &Vec<Value>, comparison: Comparison) -> bool
    ensures { IsTrue result ↔ SameElements comparison left.now.items right.now.items }
{
    if left.len() != right.len() {
        return false;
    }
    for (index, element) in left.iter().enumerate() {
        if !is_equal(element, &right[index], comparison) {
            return false;
        }
    }
    true
}

/// Returns whether two objects have the same keys, and equal members.
#[cycle(equal)]
fn same_members(
    left: &Map<String, Value>,
    right: &Map<String, Value>,
    comparison: Comparison,
) -> bool
    ensures { IsTrue result ↔ SameMembers comparison left.now right.now }
{
    for (key, member) in left.iter() {
        let same = match right.get(key.as_str()) {
            Some(other) => is_equal(member, other, comparison),
            None => false,
        };
        if !same {
            return false;
        }
    }
    has_keys_of(left, right)
}

/// Returns whether `members` has each key of `others`.
fn has_keys_of(members: &Map<String, Value>, others: &Map<String, Value>) -> bool
    ensures { IsTrue result ↔ HasKeys members.now others.now }
{
    for (key, _other) in others.iter() {
        if !members.contains_key(key.as_str()) {
            return false;
        }
    }
    true
}
