//! Merging two changed copies of a document.
ghost use Rattle.std.specs.Prelude.{◌≡◌, ◌⊎◌, ◌<◌, All, [], None, IfOk};
ghost use Rattle.serde_json.specs.Data.{depth};
ghost use Rattle.serde_json.specs.View.{view};
ghost use Rattle.jsonptr.specs.Json.{nodes, HasSortedKeys};
ghost use Rattle.jsonptr.specs.Fault.{IfRefused};
ghost use Rattle.jsonptr_merge.specs.Values.{no_value, map_in, SortedIn};
ghost use Rattle.jsonptr_merge.specs.Merge.{AllDiffer};
ghost use Rattle.jsonptr_merge.specs.Outcome.{IsOutcome, ConflictHasSortedKeys, OutcomeHasSortedKeys};
ghost use Rattle.jsonptr_merge.specs.PrivateObjects.{object_map, side_map, SortedSide, SortedObject};
ghost use Rattle.jsonptr_merge.specs.PrivateTrail.{tokens_of};
ghost use Rattle.jsonptr_merge.specs.PrivateSides.{Merges, AppendsConflicts, AppendsConflict, SortedObjects};

use crate::conflict::Conflict;
use crate::entry::{insert_some, keys_of_all};
use crate::error::{MAX_MERGE_DEPTH, TooDeep};
use crate::object::object_of;
use crate::sides::{Settled, copy_side, settle};
use crate::trail::{Trail, to_pointer};
use jsonptr::Fault;
use jsonptr_value::nests_within;
use serde_json::{Map, Value};
use std::alloc::{AllocError, Global};

/// The merge of two changed copies of a document, or why there is none.
#[derive(Drop)]
pub enum Merged {
    /// The merge.
    Document(Value),
    /// All conflicts, at least one, in the order of their paths.
    Conflicts(Vec<Conflict>),
}

/// Merges two changed copies, `ours` and `theirs`, of the document `base`.
///
/// What one copy left alone is as in the other one, and what both changed in the same way is so.
/// Where all three have an object, its members are merged one by one, and a member that does not
/// exist counts as a value of its own. Everything else is a conflict, also two arrays that differ
/// in different elements.
///
/// Conflicts are in the order of their paths: keys by their bytes. Which copy is first makes no
/// difference except for the names in a conflict. Numbers are compared as
/// [`are_same`](jsonptr_patch_diff::are_same) does: `1` and `1.0` differ.
///
/// Compares each value with the others once for each object around it. The stack is in proportion
/// to the depth.
///
/// # Errors
///
/// [`Fault::Refused`] if a document nests deeper than [`MAX_MERGE_DEPTH`] levels, and
/// [`Fault::Memory`] if an allocation fails.
///
/// # Examples
///
/// ```rust
/// let base = json!(in alloc; {"a": 1, "b": 2})?;
/// let ours = json!(in alloc; {"a": 5, "b": 2})?;
/// let theirs = json!(in alloc; {"a": 1, "c": 3})?;
/// let Merged::Document(merged) = merge(alloc, &base, &ours, &theirs)? else {
///     return Err(Fail::from("no conflict"));
/// };
/// assert_eq!(rt; merged.to_string(alloc)?.as_str(), r#"{"a":5,"c":3}"#);
/// ```
pub fn merge(
    alloc: Global,
    base: &Value,
    ours: &Value,
    theirs: &Value,
) -> Result<Merged, Fault<TooDeep>>
    ensures outcome { IfOk result
        (IsOutcome (nodes (view base.now)) (nodes (view ours.now)) (nodes (view theirs.now))) }
    ensures sorted { IfOk result (λ r. HasSortedKeys (view base.now) → HasSortedKeys (view ours.now)
        → HasSortedKeys (view theirs.now) → OutcomeHasSortedKeys r) }
    ensures refused { IfRefused result (λ _. (MAX_MERGE_DEPTH < depth (view base.now))
        ⊎ ((MAX_MERGE_DEPTH < depth (view ours.now))
        ⊎ (MAX_MERGE_DEPTH < depth (view theirs.now)))) }
{
    if !nests_within(base, MAX_MERGE_DEPTH) {
        return Err(Fault::Refused(TooDeep));
    }
    if !nests_within(ours, MAX_MERGE_DEPTH) {
        return Err(Fault::Refused(TooDeep));
    }
    if !nests_within(theirs, MAX_MERGE_DEPTH) {
        return Err(Fault::Refused(TooDeep));
    }
    let mut conflicts = Vec::new(alloc);
    let at = Trail::Root;
    let merged = merge_at(base, Some(ours), Some(theirs), &at, &mut conflicts)?;
    if !conflicts.is_empty() {
        return Ok(Merged::Conflicts(conflicts));
    }
    match merged {
        Some(document) => Ok(Merged::Document(document)),
        None => unreachable!(),
    }
}

/// Returns the merge of the three values, which are at the location, or appends their conflicts.
/// Then it returns any value.
///
/// # Errors
///
/// [`AllocError`] if an allocation fails.
#[cycle(merging)]
fn merge_at<'a>(
    base: &'a Value,
    ours: Option<&'a Value>,
    theirs: Option<&'a Value>,
    at: &Trail<'_>,
    conflicts: &mut Vec<Conflict>,
) -> Result<Option<Value>, AllocError>
    ensures merges { IfOk result (λ m. Merges (nodes (view base.now)) (side_map ours.entry)
        (side_map theirs.entry) (map_in m)) }
    ensures finds { IfOk result (λ _. AppendsConflicts (tokens_of at.now) (nodes (view base.now))
        (side_map ours.entry) (side_map theirs.entry) conflicts.old.items conflicts.new.items) }
    ensures sorted { IfOk result (λ m. HasSortedKeys (view base.now) → SortedSide ours.entry
        → SortedSide theirs.entry → SortedIn m) }
    ensures conflicts_sorted { IfOk result (λ _. HasSortedKeys (view base.now)
        → SortedSide ours.entry → SortedSide theirs.entry → All ConflictHasSortedKeys conflicts.old.items
        → All ConflictHasSortedKeys conflicts.new.items) }
{
    match settle(Some(base), ours, theirs) {
        Settled::To(value) => copy_side(*conflicts.allocator(), value),
        Settled::Not => merge_changed(base, ours, theirs, at, conflicts),
    }
}

/// Returns the merge of three values that differ, or appends their conflicts: the object of the
/// merged members, if all three are objects, and else a conflict.
///
/// # Errors
///
/// [`AllocError`] if an allocation fails.
#[cycle(merging)]
fn merge_changed<'a>(
    base: &'a Value,
    ours: Option<&'a Value>,
    theirs: Option<&'a Value>,
    at: &Trail<'_>,
    conflicts: &mut Vec<Conflict>,
) -> Result<Option<Value>, AllocError>
    requires { AllDiffer (nodes (view base.now)) (side_map ours) (side_map theirs) [] }
    ensures merges { IfOk result (λ m. Merges (nodes (view base.now)) (side_map ours.entry)
        (side_map theirs.entry) (map_in m)) }
    ensures finds { IfOk result (λ _. AppendsConflicts (tokens_of at.now) (nodes (view base.now))
        (side_map ours.entry) (side_map theirs.entry) conflicts.old.items conflicts.new.items) }
    ensures sorted { IfOk result (λ m. HasSortedKeys (view base.now) → SortedSide ours.entry
        → SortedSide theirs.entry → SortedIn m) }
    ensures conflicts_sorted { IfOk result (λ _. HasSortedKeys (view base.now)
        → SortedSide ours.entry → SortedSide theirs.entry → All ConflictHasSortedKeys conflicts.old.items
        → All ConflictHasSortedKeys conflicts.new.items) }
{
    let Some(our_members) = object_of(ours) else {
        return append_conflict(Some(base), ours, theirs, at, conflicts);
    };
    let Some(their_members) = object_of(theirs) else {
        return append_conflict(Some(base), ours, theirs, at, conflicts);
    };
    match base {
        Value::Object(members) => {
            let made = merge_members(members, our_members, their_members, &*at, conflicts)?;
            Ok(Some(Value::Object(made)))
        }
        _ => append_conflict(Some(base), ours, theirs, at, conflicts),
    }
}

/// Returns the merged members of three objects, which are at the location, or appends their
/// conflicts.
///
/// # Errors
///
/// [`AllocError`] if an allocation fails.
#[cycle(merging)]
fn merge_members<'a>(
    base: &'a Map<String, Value>,
    ours: &'a Map<String, Value>,
    theirs: &'a Map<String, Value>,
    at: &'a Trail<'a>,
    conflicts: &mut Vec<Conflict>,
) -> Result<Map<String, Value>, AllocError>
    ensures merges { IfOk result (λ m. Merges (object_map base.now) (object_map ours.now)
        (object_map theirs.now) (object_map m)) }
    ensures finds { IfOk result (λ _. AppendsConflicts (tokens_of at.now) (object_map base.now)
        (object_map ours.now) (object_map theirs.now) conflicts.old.items conflicts.new.items) }
    ensures sorted { IfOk result (λ m.
        SortedObjects base.now ours.now theirs.now → SortedObject m) }
    ensures conflicts_sorted { IfOk result (λ _. SortedObjects base.now ours.now theirs.now
        → All ConflictHasSortedKeys conflicts.old.items
        → All ConflictHasSortedKeys conflicts.new.items) }
{
    let alloc = *conflicts.allocator();
    let keys = keys_of_all(alloc, base, ours, theirs)?;
    let mut made = Map::new(alloc);
    for (name, _null) in keys.iter() {
        let key = name.as_str();
        let our = ours.get(key);
        let their = theirs.get(key);
        let below = Trail::Member(&*at, key);
        match base.get(key) {
            Some(member) => {
                let merged = merge_at(member, our, their, &below, conflicts)?;
                insert_some(&mut made, name, merged)?;
            }
            None => {
                let merged = merge_added(our, their, &below, conflicts)?;
                insert_some(&mut made, name, merged)?;
            }
        }
    }
    Ok(made)
}

/// Returns the merge of the two values, which are at a location where the base has none, or appends
/// a conflict.
///
/// # Errors
///
/// [`AllocError`] if an allocation fails.
fn merge_added<'a>(
    ours: Option<&'a Value>,
    theirs: Option<&'a Value>,
    at: &Trail<'_>,
    conflicts: &mut Vec<Conflict>,
) -> Result<Option<Value>, AllocError>
    ensures merges { IfOk result (λ m. Merges no_value (side_map ours.entry)
        (side_map theirs.entry) (map_in m)) }
    ensures finds { IfOk result (λ _. AppendsConflicts (tokens_of at.now) no_value
        (side_map ours.entry) (side_map theirs.entry) conflicts.old.items conflicts.new.items) }
    ensures sorted { IfOk result (λ m. SortedSide ours.entry
        → SortedSide theirs.entry → SortedIn m) }
    ensures conflicts_sorted { IfOk result (λ _. SortedSide ours.entry
        → SortedSide theirs.entry → All ConflictHasSortedKeys conflicts.old.items
        → All ConflictHasSortedKeys conflicts.new.items) }
{
    match settle(None, ours, theirs) {
        Settled::To(value) => copy_side(*conflicts.allocator(), value),
        Settled::Not => append_conflict(None, ours, theirs, at, conflicts),
    }
}

/// Appends a conflict with copies of the three values, and returns `None`, since nothing is merged.
///
/// # Errors
///
/// [`AllocError`] if an allocation fails.
fn append_conflict(
    base: Option<&Value>,
    ours: Option<&Value>,
    theirs: Option<&Value>,
    at: &Trail<'_>,
    conflicts: &mut Vec<Conflict>,
) -> Result<Option<Value>, AllocError>
    ensures nothing { IfOk result (λ m. m ≡ None) }
    ensures appends { IfOk result (λ _. AppendsConflict (tokens_of at.now) (side_map base.entry)
        (side_map ours.entry) (side_map theirs.entry) conflicts.old.items conflicts.new.items) }
    ensures conflicts_sorted { IfOk result (λ _. SortedSide base.entry → SortedSide ours.entry
        → SortedSide theirs.entry → All ConflictHasSortedKeys conflicts.old.items
        → All ConflictHasSortedKeys conflicts.new.items) }
{
    let alloc = *conflicts.allocator();
    let path = to_pointer(alloc, at)?;
    let base = copy_side(alloc, base)?;
    let ours = copy_side(alloc, ours)?;
    let theirs = copy_side(alloc, theirs)?;
    conflicts.push(Conflict {
        path,
        base,
        ours,
        theirs,
    })?;
    Ok(None)
}
