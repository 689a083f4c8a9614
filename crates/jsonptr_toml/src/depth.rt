//! How deep the values of a TOML document nest.
ghost use Rattle.std.specs.Prelude.{◌<◌, ◌≤◌, ◌↔◌, suc, length, IsTrue};
ghost use Rattle.toml.specs.Data.{depth, items_depth, members_depth};
ghost use Rattle.toml.specs.View.{view, items_view, table_view};
ghost use Rattle.toml_parser.specs.Strings.{recursion_limit as max_depth};
ghost use Rattle.jsonptr.specs.Pointer.{tokens};

use jsonptr::Pointer;
use toml::{Table, Value};

/// How deep the values of a document may nest. The kit's reader takes no deeper array.
pub const MAX_TOML_DEPTH: usize = 80;

/// Returns whether the value nests at most so many levels deep. A string nests 0 levels deep, and an
/// array of strings 1.
///
/// Time is linear in the value. The stack is in proportion to the smaller of its depth and `levels`.
#[cycle(nests)]
pub fn toml_nests_within(value: &Value, levels: usize) -> bool
    ensures { IsTrue result ↔ (depth (view value.now) ≤ levels) }
{
    match value {
        Value::Array(elements) => levels > 0 && elements_nest_within(elements, levels - 1),
        Value::Table(members) => levels > 0 && table_nests_within(members, levels - 1),
        _ => true,
    }
}

/// Returns whether all elements nest at most so many levels deep.
#[cycle(nests)]
fn elements_nest_within(elements: &Vec<Value>, levels: usize) -> bool
    ensures { IsTrue result ↔ (items_depth (items_view elements.now.items) ≤ levels) }
{
    for element in elements {
        if !toml_nests_within(element, levels) {
            return false;
        }
    }
    true
}

/// Returns whether all values of the table nest at most so many levels deep.
///
/// Time is linear in the table. The stack is in proportion to the smaller of its depth and `levels`.
#[cycle(nests)]
pub fn table_nests_within(table: &Table, levels: usize) -> bool
    ensures { IsTrue result ↔ (members_depth (table_view table.now) ≤ levels) }
{
    for (_key, member) in table.iter() {
        if !toml_nests_within(member, levels) {
            return false;
        }
    }
    true
}

/// Returns whether the pointer has more than 81 tokens: no value at it is in a table whose values nest
/// at most 80 deep.
pub fn has_too_many_tokens(pointer: Pointer<'_>) -> bool
    ensures { IsTrue result ↔ (suc max_depth < length (tokens pointer.entry)) }
{
    pointer.count() > MAX_TOML_DEPTH + 1
}
