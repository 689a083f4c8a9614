//! Making a merge patch.
ghost use Rattle.std.specs.Prelude.{◌≡◌, IfOk};
ghost use Rattle.serde_json.specs.View.{view};
ghost use Rattle.jsonptr.specs.Fault.{IfRefused};
ghost use Rattle.jsonptr.specs.Json.{nodes, HasSortedKeys};
ghost use Rattle.jsonptr_merge.specs.MergePatch.{patched};
ghost use Rattle.jsonptr_merge.specs.Making.{IsMergePatchError};
ghost use Rattle.jsonptr_merge.specs.PrivateObjects.{object_map, side_map, SortedObject};
ghost use Rattle.jsonptr_merge.specs.PrivateTrail.{tokens_of};
ghost use Rattle.jsonptr_merge.specs.PrivateMaking.{Removes, MakesChanges, IsFirstBelow, IsFirstOfMembers};

use crate::entry::insert_member;
use crate::error::{MAX_MERGE_DEPTH, MergePatchError};
use crate::object::members_of;
use crate::sides::are_same_sides;
use crate::trail::{Trail, to_pointer};
use jsonptr::Fault;
use jsonptr_value::{copy, nests_within};
use serde_json::{Map, Value};
use std::alloc::{AllocError, Global};

/// Returns a merge patch that turns `old` into `new` (RFC 7396), if there is one.
///
/// What is the same in both is not in the patch. There is no such patch exactly if `new` has a
/// member `null` that `old` does not have, since `null` in a patch removes a member. In elements of
/// arrays `null` does not matter. Numbers are the same as in [`are_same`](jsonptr_patch_diff::are_same):
/// `1` and `1.0` differ.
///
/// Compares each value once for each object around it. The stack is in proportion to the depth.
///
/// # Errors
///
/// [`Fault::Refused`] with the first such member, or if a document nests deeper than
/// [`MAX_MERGE_DEPTH`] levels, and [`Fault::Memory`] if an allocation fails.
///
/// # Examples
///
/// ```rust
/// let old = json!(in alloc; {"a": 1, "b": {"c": 2, "d": 3}})?;
/// let new = json!(in alloc; {"a": 1, "b": {"d": 4}})?;
/// let patch = make_merge_patch(alloc, &old, &new)?;
/// assert_eq!(rt; patch.to_string(alloc)?.as_str(), r#"{"b":{"c":null,"d":4}}"#);
/// ```
pub fn make_merge_patch(
    alloc: Global,
    old: &Value,
    new: &Value,
) -> Result<Value, Fault<MergePatchError>>
    ensures makes { IfOk result (λ patch.
        patched (nodes (view old.now)) (nodes (view patch)) ≡ nodes (view new.now)) }
    ensures sorted { IfOk result (λ patch.
        HasSortedKeys (view new.now) → HasSortedKeys (view patch)) }
    ensures refused { IfRefused result (IsMergePatchError (view old.now) (view new.now)) }
{
    if !nests_within(old, MAX_MERGE_DEPTH) || !nests_within(new, MAX_MERGE_DEPTH) {
        return Err(Fault::Refused(MergePatchError::TooDeep));
    }
    make_at(alloc, Some(old), new, &Trail::Root)
}

/// Returns a merge patch that turns `old`, which is at the location, into `new`.
///
/// # Errors
///
/// Those of [`make_merge_patch`].
#[cycle(making)]
fn make_at(
    alloc: Global,
    old: Option<&Value>,
    new: &Value,
    at: &Trail<'_>,
) -> Result<Value, Fault<MergePatchError>>
    ensures makes { IfOk result (λ patch.
        patched (side_map old.entry) (nodes (view patch)) ≡ nodes (view new.now)) }
    ensures sorted { IfOk result (λ patch.
        HasSortedKeys (view new.now) → HasSortedKeys (view patch)) }
    ensures refused { IfRefused result
        (IsFirstBelow (tokens_of at.now) (side_map old.entry) (nodes (view new.now))) }
{
    match new {
        Value::Object(members) => Ok(Value::Object(make_members(alloc, old, members, at)?)),
        _ => Ok(copy(alloc, new)?),
    }
}

/// Returns the members of such a patch.
///
/// # Errors
///
/// Those of [`make_merge_patch`].
#[cycle(making)]
fn make_members(
    alloc: Global,
    old: Option<&Value>,
    members: &Map<String, Value>,
    at: &Trail<'_>,
) -> Result<Map<String, Value>, Fault<MergePatchError>>
    ensures makes { IfOk result (λ patch.
        patched (side_map old.entry) (object_map patch) ≡ object_map members.now) }
    ensures sorted { IfOk result (λ patch. SortedObject members.now → SortedObject patch) }
    ensures refused { IfRefused result
        (IsFirstBelow (tokens_of at.now) (side_map old.entry) (object_map members.now)) }
{
    let none = Map::new(alloc);
    let before = members_of(old, &none);
    let mut made = Map::new(alloc);
    remove_others(before, &*members, &mut made)?;
    make_changes(alloc, &*members, before, &*at, &mut made)?;
    Ok(made)
}

/// Inserts `null` for each member that the new object does not have.
///
/// # Errors
///
/// [`AllocError`] if an allocation fails.
fn remove_others(
    before: &Map<String, Value>,
    members: &Map<String, Value>,
    made: &mut Map<String, Value>,
) -> Result<(), AllocError>
    ensures removes { IfOk result (λ _. Removes before.now members.now made.old made.new) }
    ensures sorted { IfOk result (λ _. SortedObject made.old → SortedObject made.new) }
{
    for (key, _member) in before.iter() {
        if !members.contains_key(key.as_str()) {
            insert_member(made, key, Value::Null)?;
        }
    }
    Ok(())
}

/// Inserts a patch for each member that differs.
///
/// # Errors
///
/// Those of [`make_merge_patch`].
#[cycle(making)]
fn make_changes<'a>(
    alloc: Global,
    members: &'a Map<String, Value>,
    before: &Map<String, Value>,
    at: &'a Trail<'a>,
    made: &mut Map<String, Value>,
) -> Result<(), Fault<MergePatchError>>
    ensures changes { IfOk result (λ _. MakesChanges before.now members.now made.old made.new) }
    ensures sorted { IfOk result (λ _. SortedObject members.now
        → SortedObject made.old → SortedObject made.new) }
    ensures refused { IfRefused result
        (IsFirstOfMembers (tokens_of at.now) before.now members.now) }
{
    for (key, member) in members.iter() {
        let name = key.as_str();
        let was = before.get(name);
        if !are_same_sides(was, Some(member)) {
            let below = Trail::Member(at, name);
            if member.is_null() {
                let path = to_pointer(alloc, &below)?;
                return Err(Fault::Refused(MergePatchError::NullMember { path }));
            }
            let change = make_at(alloc, was, member, &below)?;
            insert_member(made, key, change)?;
        }
    }
    Ok(())
}
