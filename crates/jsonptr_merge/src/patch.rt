//! Applying a merge patch (RFC 7396, section 2).
ghost use Rattle.std.specs.Prelude.{◌≡◌, ◌<◌, IfOk, OnErr};
ghost use Rattle.serde_json.specs.Data.{depth};
ghost use Rattle.serde_json.specs.View.{view};
ghost use Rattle.jsonptr.specs.Json.{nodes, HasSortedKeys};
ghost use Rattle.jsonptr.specs.Fault.{IfRefused};
ghost use Rattle.jsonptr_merge.specs.MergePatch.{patched};
ghost use Rattle.jsonptr_merge.specs.PrivateObjects.{object_map, side_map, SortedSide, SortedObject, KeepsMembers, ChangesMembers};

use crate::entry::insert_member;
use crate::error::{MAX_MERGE_DEPTH, TooDeep};
use crate::object::members_of;
use jsonptr::Fault;
use jsonptr_value::{copy, discard, nests_within};
use serde_json::{Map, Value};
use std::alloc::{AllocError, Global};
use std::mem::replace;

/// Applies the merge patch to the document (RFC 7396, section 2).
///
/// A patch that is not an object replaces the document. A member of a patch is merged into the
/// document's member of that name, and `null` removes that. A document that is not an object counts
/// as an empty object.
///
/// Copies the document: time is linear in the document and the patch, times a logarithm of the
/// number of members in an object. The stack is in proportion to the depth of the patch.
///
/// # Errors
///
/// [`Fault::Refused`] if the patch nests deeper than [`MAX_MERGE_DEPTH`] levels, and
/// [`Fault::Memory`] if an allocation fails. The document is unchanged.
///
/// # Examples
///
/// ```rust
/// let mut document = json!(in alloc; {"a": "b", "c": {"d": "e", "f": "g"}})?;
/// merge_patch(alloc, &mut document, &json!(in alloc; {"a": "z", "c": {"f": null}})?)?;
/// assert_eq!(rt; document.to_string(alloc)?.as_str(), r#"{"a":"z","c":{"d":"e"}}"#);
/// ```
pub fn merge_patch(alloc: Global, document: &mut Value, patch: &Value) -> Result<(), Fault<TooDeep>>
    ensures patched { IfOk result (λ _.
        nodes (view document.new) ≡ patched (nodes (view document.old)) (nodes (view patch.now))) }
    ensures sorted { IfOk result (λ _. HasSortedKeys (view document.old)
        → HasSortedKeys (view patch.now) → HasSortedKeys (view document.new)) }
    ensures refused { IfRefused result (λ _. MAX_MERGE_DEPTH < depth (view patch.now)) }
    ensures unchanged { OnErr result (view document.new ≡ view document.old) }
{
    let made = merge_patched(alloc, document, patch)?;
    discard(replace(document, made));
    Ok(())
}

/// Returns what the merge patch makes of the document. [`merge_patch`] does this in place.
///
/// # Errors
///
/// [`Fault::Refused`] if the patch nests deeper than [`MAX_MERGE_DEPTH`] levels, and
/// [`Fault::Memory`] if an allocation fails.
///
/// # Examples
///
/// ```rust
/// let patch = json!(in alloc; {"a": {"b": 1, "c": null}})?;
/// let made = merge_patched(alloc, &Value::Null, &patch)?;
/// assert_eq!(rt; made.to_string(alloc)?.as_str(), r#"{"a":{"b":1}}"#);
/// ```
pub fn merge_patched(
    alloc: Global,
    document: &Value,
    patch: &Value,
) -> Result<Value, Fault<TooDeep>>
    ensures patched { IfOk result (λ v.
        nodes (view v) ≡ patched (nodes (view document.now)) (nodes (view patch.now))) }
    ensures sorted { IfOk result (λ v. HasSortedKeys (view document.now)
        → HasSortedKeys (view patch.now) → HasSortedKeys (view v)) }
    ensures refused { IfRefused result (λ _. MAX_MERGE_DEPTH < depth (view patch.now)) }
{
    if !nests_within(patch, MAX_MERGE_DEPTH) {
        return Err(Fault::Refused(TooDeep));
    }
    Ok(merge_into(alloc, Some(document), patch)?)
}

/// Returns what the merge patch makes of the target, if it exists.
///
/// # Errors
///
/// [`AllocError`] if an allocation fails.
#[cycle(patching)]
fn merge_into(alloc: Global, target: Option<&Value>, patch: &Value) -> Result<Value, AllocError>
    ensures patched { IfOk result (λ v.
        nodes (view v) ≡ patched (side_map target.entry) (nodes (view patch.now))) }
    ensures sorted { IfOk result (λ v. SortedSide target.entry
        → HasSortedKeys (view patch.now) → HasSortedKeys (view v)) }
{
    match patch {
        Value::Object(changes) => Ok(Value::Object(merge_changes(alloc, target, changes)?)),
        _ => copy(alloc, patch),
    }
}

/// Returns the members of the target, if it is an object, with the changes.
///
/// # Errors
///
/// [`AllocError`] if an allocation fails.
#[cycle(patching)]
fn merge_changes(
    alloc: Global,
    target: Option<&Value>,
    changes: &Map<String, Value>,
) -> Result<Map<String, Value>, AllocError>
    ensures patched { IfOk result (λ m.
        object_map m ≡ patched (side_map target.entry) (object_map changes.now)) }
    ensures sorted { IfOk result (λ m. SortedSide target.entry
        → SortedObject changes.now → SortedObject m) }
{
    let none = Map::new(alloc);
    let members = members_of(target, &none);
    let mut made = Map::new(alloc);
    keep_members(alloc, members, changes, &mut made)?;
    change_members(alloc, changes, members, &mut made)?;
    Ok(made)
}

/// Inserts copies of the members that the patch does not have.
///
/// # Errors
///
/// [`AllocError`] if an allocation fails.
fn keep_members(
    alloc: Global,
    members: &Map<String, Value>,
    changes: &Map<String, Value>,
    made: &mut Map<String, Value>,
) -> Result<(), AllocError>
    ensures keeps { IfOk result (λ _. KeepsMembers members.now changes.now made.old made.new) }
    ensures sorted { IfOk result (λ _. SortedObject members.now
        → SortedObject made.old → SortedObject made.new) }
{
    for (key, member) in members.iter() {
        if !changes.contains_key(key.as_str()) {
            let kept = copy(alloc, member)?;
            insert_member(made, key, kept)?;
        }
    }
    Ok(())
}

/// Inserts what the members of the patch other than `null` make.
///
/// # Errors
///
/// [`AllocError`] if an allocation fails.
#[cycle(patching)]
fn change_members(
    alloc: Global,
    changes: &Map<String, Value>,
    members: &Map<String, Value>,
    made: &mut Map<String, Value>,
) -> Result<(), AllocError>
    ensures changes { IfOk result (λ _. ChangesMembers members.now changes.now made.old made.new) }
    ensures sorted { IfOk result (λ _. SortedObject members.now → SortedObject changes.now
        → SortedObject made.old → SortedObject made.new) }
{
    for (key, change) in changes.iter() {
        if !change.is_null() {
            let changed = merge_into(alloc, members.get(key.as_str()), change)?;
            insert_member(made, key, changed)?;
        }
    }
    Ok(())
}
