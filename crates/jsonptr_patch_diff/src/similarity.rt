//! Which elements of two arrays may belong together. An alignment only chooses which operations are
//! written. All that is promised is that elements that are the same match.
ghost use Rattle.std.specs.Prelude.{IsTrue};
ghost use Rattle.jsonptr_patch_diff.specs.PrivateSame.{IsSame, SameElements, SameMembers};

use crate::same::is_same;
use serde_json::{Map, Value};

/// How many nodes a small value has at most. Only small values are compared as a whole where arrays
/// are aligned, so that no part of a large value is compared again for each array around it.
const SMALL: usize = 256;

/// How many members or elements of a large value are looked at.
const SAMPLE: usize = 16;

/// Returns whether two elements are aligned: small ones that are the same, or large ones of the
/// same kind whose first small parts are the same.
pub fn is_match(left: &Value, right: &Value) -> bool
    ensures { IsSame left.now right.now → IsTrue result }
{
    if is_small(left) || is_small(right) {
        return is_same(left, right);
    }
    are_alike(left, right)
}

/// Returns whether two large values are of the same kind, and their first small parts are the same.
fn are_alike(left: &Value, right: &Value) -> bool
    ensures { IsSame left.now right.now → IsTrue result }
{
    match left {
        Value::Array(elements) => match right.as_array() {
            Some(others) => elements_are_alike(elements, others),
            None => false,
        },
        Value::Object(members) => match right.as_object() {
            Some(others) => members_are_alike(members, others),
            None => false,
        },
        _ => is_same(left, right),
    }
}

/// Returns whether the small ones of the first elements are the same.
fn elements_are_alike(left: &Vec<Value>, right: &Vec<Value>) -> bool
    ensures { SameElements left.now.items right.now.items → IsTrue result }
{
    let both = left.len().min(right.len()).min(SAMPLE);
    for index in 0..both {
        if is_small(&left[index]) && !is_same(&left[index], &right[index]) {
            return false;
        }
    }
    true
}

/// Returns whether the small ones of the first members are the same.
fn members_are_alike(left: &Map<String, Value>, right: &Map<String, Value>) -> bool
    ensures { SameMembers left.now right.now → IsTrue result }
{
    let mut room = SAMPLE;
    for (key, member) in left.iter() {
        if room == 0 {
            return true;
        }
        room -= 1;
        if is_small(member) {
            let Some(other) = right.get(key.as_str()) else {
                return false;
            };
            if !is_same(member, other) {
                return false;
            }
        }
    }
    true
}

/// Returns whether a value has at most [`SMALL`] nodes.
pub fn is_small(value: &Value) -> bool {
    room_after(value, SMALL).is_some()
}

/// Returns how many more nodes fit after those of the value, or `None` if these do not fit.
#[cycle(rooms)]
fn room_after(value: &Value, room: usize) -> Option<usize> {
    let left = room.checked_sub(1)?;
    match value {
        Value::Array(elements) => room_after_elements(elements, left),
        Value::Object(members) => room_after_members(members, left),
        _ => Some(left),
    }
}

/// Returns how many more nodes fit after those of the elements.
#[cycle(rooms)]
fn room_after_elements(elements: &Vec<Value>, room: usize) -> Option<usize> {
    let mut left = room;
    for element in elements {
        left = room_after(element, left)?;
    }
    Some(left)
}

/// Returns how many more nodes fit after those of the members.
#[cycle(rooms)]
fn room_after_members(members: &Map<String, Value>, room: usize) -> Option<usize> {
    let mut left = room;
    for (_key, member) in members.iter() {
        left = room_after(member, left)?;
    }
    Some(left)
}
