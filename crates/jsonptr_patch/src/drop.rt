//! Dropping the values that are removed.

use jsonptr_value::discard;
use serde_json::{Map, Value};

/// Drops the value, however deep it nests. It takes less time than [`discard`] if all of its children are
/// scalars.
pub fn discard_small(value: Value) {
    if is_small(&value) {
        return drop(value);
    }
    discard(value);
}

/// Returns whether each child of the value is a scalar.
fn is_small(value: &Value) -> bool {
    match value {
        Value::Array(elements) => are_leaves(elements),
        Value::Object(members) => have_leaves(members),
        _ => true,
    }
}

/// Returns whether each element is a scalar.
fn are_leaves(elements: &Vec<Value>) -> bool {
    for element in elements {
        if !is_scalar(element) {
            return false;
        }
    }
    true
}

/// Returns whether each member is a scalar.
fn have_leaves(members: &Map<String, Value>) -> bool {
    for (_key, member) in members.iter() {
        if !is_scalar(member) {
            return false;
        }
    }
    true
}

/// Returns whether the value is neither an array nor an object.
fn is_scalar(value: &Value) -> bool {
    match value {
        Value::Array(_) => false,
        Value::Object(_) => false,
        _ => true,
    }
}
