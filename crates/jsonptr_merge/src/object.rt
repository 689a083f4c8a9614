//! The object that a value is.
ghost use Rattle.std.specs.Prelude.{◌≡◌, ◌∷◌, [], ℕ, List, None, Some, IfSome, MatchOption};
ghost use Rattle.std.specs.BTreeMap.{get_by_text};
ghost use Rattle.jsonptr.specs.Node.{an_object, key, sub};
ghost use Rattle.jsonptr_merge.specs.PrivateObjects.{object_map, side_map, member_in, SortedSide, SortedObject};

use serde_json::{Map, Value};

/// Returns the object that the value is, if it exists and is one.
pub fn object_of(side: Option<&Value>) -> Option<&Map<String, Value>>
    ensures is { MatchOption result
        (side_map side.entry [] ≡ Some an_object → ⊥)
        (λ m. side_map side.entry ≡ object_map m.now) }
    ensures sorted { IfSome result (λ m. SortedSide side.entry → SortedObject m.now) }
{
    match side {
        Some(value) => value.as_object(),
        None => None,
    }
}

/// Returns the object that the value is, or else `none`, which is empty.
pub fn members_of<'a>(
    side: Option<&'a Value>,
    none: &'a Map<String, Value>,
) -> &'a Map<String, Value>
    requires { (k : List ℕ) → get_by_text none.now k ≡ None }
    ensures members { (k : List ℕ)
        → sub (side_map side.entry) (key k ∷ []) ≡ member_in result.now k }
    ensures sorted { SortedSide side.entry → SortedObject none.now → SortedObject result.now }
{
    match object_of(side) {
        Some(members) => members,
        None => none,
    }
}
