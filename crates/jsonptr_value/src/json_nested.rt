//! Dropping a JSON value.

use crate::drop::Nested;
use crate::tree::{Tree, drop_tree};
use serde_json::{Map, Value};

impl Tree for Value {
    fn leaf() -> Value {
        Value::Null
    }

    fn len(&self) -> usize {
        match self {
            Value::Array(elements) => elements.len(),
            Value::Object(members) => members.len(),
            _ => 0,
        }
    }

    fn first_mut(&mut self) -> Option<&mut Value> {
        match self {
            Value::Array(elements) => elements.first_mut(),
            Value::Object(members) => members.values_mut().next(),
            _ => None,
        }
    }

    fn last_mut(&mut self) -> Option<&mut Value> {
        match self {
            Value::Array(elements) => elements.last_mut(),
            Value::Object(members) => members.values_mut().next_back(),
            _ => None,
        }
    }

    fn pop(&mut self) {
        match self {
            Value::Array(elements) => {
                elements.pop();
            }
            Value::Object(members) => {
                members.pop_last();
            }
            _ => {}
        }
    }
}

impl Nested for Value {
    fn discard_within(self, levels: usize) {
        discard_value(self, levels);
    }
}

/// Drops the value, by recursion down to so many levels and by a loop below them.
#[cycle(discarding)]
fn discard_value(value: Value, levels: usize) {
    if levels == 0 {
        return drop_tree(value);
    }
    match value {
        Value::Array(elements) => discard_elements(elements, levels - 1),
        Value::Object(members) => discard_members(members, levels - 1),
        _ => {}
    }
}

/// Drops the elements.
#[cycle(discarding)]
fn discard_elements(elements: Vec<Value>, levels: usize) {
    for element in elements {
        discard_value(element, levels);
    }
}

/// Drops the members.
#[cycle(discarding)]
fn discard_members(members: Map<String, Value>, levels: usize) {
    for (_key, member) in members {
        discard_value(member, levels);
    }
}
