//! How deep the arrays and objects of a JSON value nest.
//!
//! A number, a string, a boolean and `null` nest 0 levels deep, and `[[1], {}]` nests 2.
ghost use Rattle.std.specs.Prelude.{ℕ, ◌≤◌, ◌↔◌, IsTrue};
ghost use Rattle.serde_json.specs.Data.{Data, depth, items_depth, members_depth};
ghost use Rattle.serde_json.specs.View.{view, items_view, members_view};
ghost use Rattle.jsonptr_tree.specs.Json.{nodes, HasSortedKeys};
ghost use Rattle.jsonptr_value.specs.Nesting.{NestsWithin};

use serde_json::{Map, Value};

/// How deep the arrays and objects of a text that `serde_json` reads may nest.
pub const MAX_DEPTH: usize = 127;

/// How many levels of a value are printed, copied and dropped by recursion, before a loop takes over.
///
/// A level takes some 2 KiB of stack, so all of them fit the 128 KiB that Linux maps when a process
/// starts. These calls do not make the stack grow, which fails if memory is used up.
pub(crate) const RECURSION_LEVELS: usize = 32;

/// Returns whether the arrays and objects of the value nest at most so many levels deep.
///
/// Time is linear in the value. The stack is in proportion to the smaller of its depth and `levels`.
#[cycle(nests)]
pub fn nests_within(value: &Value, levels: usize) -> bool
    ensures { IsTrue result ↔ (depth (view value.now) ≤ levels) }
{
    match value {
        Value::Array(elements) => levels > 0 && elements_within(elements, levels - 1),
        Value::Object(members) => levels > 0 && members_within(members, levels - 1),
        _ => true,
    }
}

/// Returns whether all elements nest at most so many levels deep.
#[cycle(nests)]
fn elements_within(elements: &Vec<Value>, levels: usize) -> bool
    ensures { IsTrue result ↔ (items_depth (items_view elements.now.items) ≤ levels) }
{
    for element in elements {
        if !nests_within(element, levels) {
            return false;
        }
    }
    true
}

/// Returns whether all members nest at most so many levels deep.
#[cycle(nests)]
fn members_within(members: &Map<String, Value>, levels: usize) -> bool
    ensures { IsTrue result ↔ (members_depth (members_view members.now.entries) ≤ levels) }
{
    for (_key, member) in members.iter() {
        if !nests_within(member, levels) {
            return false;
        }
    }
    true
}

/// States that `NestsWithin` speaks of the depth of a value: its map nests within its depth, and the
/// depth is at most each number that its map nests within, if its keys are sorted.
pub fn depth_law()
    ensures within { (d : Data) → NestsWithin (depth d) (nodes d) }
    ensures least { (d : Data) (k : ℕ) → HasSortedKeys d → NestsWithin k (nodes d) → depth d ≤ k }
{}
