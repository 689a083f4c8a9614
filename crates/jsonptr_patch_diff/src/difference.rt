//! The operations that turn one value into another.
ghost use Rattle.std.specs.Prelude.{◌≡◌, ◌+◌, ◌≤◌, ℕ, List, [], length, All, IfOk, IsOk, OnErr};
ghost use Rattle.serde_json.specs.Data.{depth};
ghost use Rattle.serde_json.specs.View.{view};
ghost use Rattle.serde_json.specs.declared.value.Value.{Array as an_array, Object as an_object};
ghost use Rattle.jsonptr.specs.Json.{nodes, HasSortedKeys};
ghost use Rattle.jsonptr_patch.specs.Order.{OperationHasSortedKeys};
ghost use Rattle.jsonptr_patch.specs.Patching.{Patches};
ghost use Rattle.jsonptr_patch.specs.declared.operation.Operation.{Operation as an_operation};
ghost use Rattle.jsonptr_patch_diff.specs.Diff.{AreOfOneKind, HasValueWithin, IsChange, StepsTo};
ghost use Rattle.jsonptr_patch_diff.specs.PrivateDiff.{tokens_of, Turns, AppendsChanges, AppendsParts, object_map, mixed, array_map, Splices};
ghost use Rattle.jsonptr_patch_diff.specs.PrivateSame.{AreSameFrom};

use crate::align::next_gap;
use crate::elements::{IndexRange, add_elements, remove_elements};
use crate::laws::difference_law;
use crate::members::add_members;
use crate::same::{is_same, is_small_same, same_suffix};
use crate::trail::Trail;
use crate::write::{remove, replace};
use jsonptr::Fault;
use jsonptr_patch::{Operation, apply};
use serde_json::{Map, Value};
use std::alloc::{AllocError, Global};

/// Returns a patch that turns `old` into `new`: its operations in order make the node map of `new`
/// from that of `old` (RFC 6902, sections 4 and 5).
///
/// The patch has additions, removals and replacements only. As far as objects lead from the root, a
/// member that is the same in both is in no pointer; no member is added to an object that has it, and
/// none is removed that `new` has; an object is not replaced by an object, nor an array by an array;
/// and a pointer leads through values that are an object in both, or an array in both
/// ([`change_law`](crate::laws::change::change_law)).
///
/// In arrays too each operation is a step from the document that those before it left to `new`: it leads
/// through objects and arrays that are so in both, past elements that are those of `new` already; a value
/// that it puts is the final one; and what it replaces is another value, and not of the same kind of
/// container. That an element is not removed where an equal one comes is tested.
///
/// - Members that both objects have are followed. The others are removed or added.
/// - The common suffix of two arrays is left alone, as far as its elements have at most 256 nodes.
///   Before it, elements that match are aligned:
///   small ones that are the same, which are left alone, and large ones whose first parts are the
///   same, which are followed. Between these, elements are followed one by one, and those that are
///   left over are removed or inserted.
/// - Anything else is replaced, unless it is the same.
///
/// Two floats are the same if they have the same bits. So `0.0` and `-0.0` differ, and so do `1` and
/// `1.0`. Documents that are the same have an empty patch, and need no allocation.
///
/// If the keys of each object in `new` are in ascending order, as in parsed documents, those in the
/// values of the operations are so as well. None of these values nests deeper than `new`.
///
/// Takes time in proportion to both documents where few elements of arrays differ. To align two
/// arrays, at most 64 elements ahead are searched for the next two that match. Beyond them the
/// elements are followed one by one. So a gap of `n` elements takes at most `(n + 1)²` comparisons, some
/// 66 for each element that is passed. Only elements of at most 256 nodes are compared as a whole, so a part of a larger one is
/// not compared again for each array around it.
///
/// # Examples
///
/// ```rust
/// let old = json!(in alloc; {"a": [1, 2, 3], "b": true})?;
/// let new = json!(in alloc; {"a": [0, 1, 2, 3], "b": true})?;
/// let patch = diff(alloc, &old, &new)?;
/// assert_eq!(rt; patch.len(), 1);
/// let is_insertion = match patch.first() {
///     Some(Operation::Add { path, .. }) => path.as_ptr().as_str() == "/a/0",
///     _ => false,
/// };
/// assert!(rt; is_insertion);
/// ```
///
/// # Errors
///
/// [`AllocError`] if an allocation fails.
pub fn diff(alloc: Global, old: &Value, new: &Value) -> Result<Vec<Operation>, AllocError>
    ensures applied { IfOk result (λ patch.
        Patches (nodes (view old.now)) patch.items (nodes (view new.now))) }
    ensures changes { IfOk result (λ patch.
        All (IsChange (nodes (view old.now)) (nodes (view new.now))) patch.items) }
    ensures steps { IfOk result (λ patch.
        StepsTo (nodes (view new.now)) (nodes (view old.now)) patch.items (nodes (view new.now))) }
    ensures sorted { IfOk result (λ patch.
        HasSortedKeys (view new.now) → All OperationHasSortedKeys patch.items) }
    ensures shallow { IfOk result (λ patch.
        All (HasValueWithin (depth (view new.now))) patch.items) }
    ensures empty { nodes (view old.now) ≡ nodes (view new.now)
        → IfOk result (λ patch. patch.items ≡ []) }
    ensures no_memory { nodes (view old.now) ≡ nodes (view new.now)
        → IsOk result }
{
    let mut patch = Vec::new(alloc);
    if is_same(old, new) {
        return Ok(patch);
    }
    diff_at(alloc, old, new, &Trail::Root, &mut patch)?;
    Ok(patch)
}

/// Turns `document` into `new` by the patch of [`diff`], in place. What is the same in both stays
/// where it is.
///
/// The document then has the node map of `new`. If the keys of each object are in ascending order in
/// both, as in parsed documents, it is `new`. If both are the same, nothing is allocated.
///
/// # Examples
///
/// ```rust
/// let mut document = json!(in alloc; {"a": [1, 2, 3]})?;
/// let wanted = json!(in alloc; {"a": [0, 1, 2, 3, 4]})?;
/// change(alloc, &mut document, &wanted)?;
/// assert_eq!(rt; document.to_string(alloc)?.as_str(), r#"{"a":[0,1,2,3,4]}"#);
/// ```
///
/// # Errors
///
/// [`AllocError`] if an allocation fails, and no other error. The document is unchanged.
pub fn change(alloc: Global, document: &mut Value, new: &Value) -> Result<(), AllocError>
    ensures changed { IfOk result (λ _. nodes (view document.new) ≡ nodes (view new.now)) }
    ensures same { IfOk result (λ _.
        HasSortedKeys (view document.old) → HasSortedKeys (view new.now)
        → view document.new ≡ view new.now) }
    ensures unchanged { OnErr result (view document.new ≡ view document.old) }
    ensures no_memory { nodes (view document.old) ≡ nodes (view new.now)
        → IsOk result }
{
    difference_law();
    let patch = diff(alloc, document, new)?;
    match apply(alloc, document, patch) {
        Ok(()) => Ok(()),
        Err(Fault::Memory(error)) => Err(error),
        Err(Fault::Refused(_error)) => unreachable!(),
    }
}

/// Appends the operations that turn `old`, which is at the location, into `new`.
///
/// # Errors
///
/// [`AllocError`] if an allocation fails.
#[cycle(diff)]
fn diff_at(
    alloc: Global,
    old: &Value,
    new: &Value,
    at: &Trail<'_>,
    patch: &mut Vec<Operation>,
) -> Result<(), AllocError>
    ensures turns { IfOk result (λ _. Turns (view new.now) patch.old.items patch.new.items
        (tokens_of at.now) (nodes (view old.now)) (nodes (view new.now))) }
    ensures changes { IfOk result (λ _. AppendsChanges (tokens_of at.now)
        (nodes (view old.now)) (nodes (view new.now)) patch.old.items patch.new.items) }
{
    match old {
        Value::Object(members) => match new.as_object() {
            Some(others) => diff_members(alloc, members, others, at, patch),
            None => replace(alloc, new, at, patch),
        },
        Value::Array(elements) => match new.as_array() {
            Some(others) => diff_elements(alloc, elements, others, at, patch),
            None => replace(alloc, new, at, patch),
        },
        _ => replace_other(alloc, old, new, at, patch),
    }
}

/// Appends the operations that turn the object `old`, which is at the location, into `new`.
///
/// # Errors
///
/// [`AllocError`] if an allocation fails.
#[cycle(diff)]
fn diff_members(
    alloc: Global,
    old: &Map<String, Value>,
    new: &Map<String, Value>,
    at: &Trail<'_>,
    patch: &mut Vec<Operation>,
) -> Result<(), AllocError>
    ensures turns { IfOk result (λ _. Turns (view (an_object new.now))
        patch.old.items patch.new.items
        (tokens_of at.now) (object_map old.now) (object_map new.now)) }
    ensures changes { IfOk result (λ _. AppendsChanges (tokens_of at.now)
        (object_map old.now) (object_map new.now) patch.old.items patch.new.items) }
{
    follow_members(alloc, &*old, new, &*at, patch)?;
    add_members(alloc, old, &*new, &*at, patch)
}

/// Appends the operations that turn each member of `old` into that of `new`, or remove it.
///
/// # Errors
///
/// [`AllocError`] if an allocation fails.
#[cycle(diff)]
fn follow_members<'a>(
    alloc: Global,
    old: &'a Map<String, Value>,
    new: &Map<String, Value>,
    at: &'a Trail<'a>,
    patch: &mut Vec<Operation>,
) -> Result<(), AllocError>
    ensures turns { IfOk result (λ _. Turns (view (an_object new.now))
        patch.old.items patch.new.items (tokens_of at.now) (object_map old.now)
        (mixed old.now.entries (object_map old.now) (object_map new.now))) }
    ensures changes { IfOk result (λ _. AppendsChanges (tokens_of at.now)
        (object_map old.now) (object_map new.now) patch.old.items patch.new.items) }
{
    for (key, member) in old.iter() {
        let below = Trail::Member(at, key.as_str());
        match new.get(key.as_str()) {
            Some(other) => diff_at(alloc, member, other, &below, patch)?,
            None => remove(alloc, &below, patch)?,
        }
    }
    Ok(())
}

/// Appends the operations that turn the array `old`, which is at the location, into `new`.
///
/// # Errors
///
/// [`AllocError`] if an allocation fails.
#[cycle(diff)]
fn diff_elements(
    alloc: Global,
    old: &Vec<Value>,
    new: &Vec<Value>,
    at: &Trail<'_>,
    patch: &mut Vec<Operation>,
) -> Result<(), AllocError>
    ensures turns { IfOk result (λ _. Turns (view (an_array new.now))
        patch.old.items patch.new.items
        (tokens_of at.now) (array_map old.now) (array_map new.now)) }
    ensures changes { IfOk result (λ _. AppendsChanges (tokens_of at.now)
        (array_map old.now) (array_map new.now) patch.old.items patch.new.items) }
{
    let suffix = same_suffix(old, new);
    let (old_end, new_end) = (old.len() - suffix, new.len() - suffix);
    let (mut from, mut to) = (0, 0);
    while from < old_end && to < new_end {
        if is_small_same(&old[from], &new[to]) {
            from += 1;
            to += 1;
        } else {
            let gap = next_gap(&old[from..old_end], &new[to..new_end]);
            let stretch = Stretch {
                from,
                removed: gap.removed,
                new,
                to,
                added: gap.added,
            };
            diff_gap(alloc, old, stretch, at, patch)?;
            from += gap.removed;
            to += gap.added;
        }
    }
    remove_elements(alloc, to, old_end - from, at, patch)?;
    add_elements(
        alloc,
        new,
        IndexRange {
            from: to,
            to: new_end,
        },
        at,
        patch,
    )
}

/// Elements of an array, and those of a new one that come instead of them.
#[derive(Clone, Copy)]
struct Stretch<'a> {
    /// The index of the first element.
    from: usize,
    /// The number of elements.
    removed: usize,
    /// The new array.
    new: &'a Vec<Value>,
    /// The index of the first new element.
    to: usize,
    /// The number of new elements.
    added: usize,
}

/// Elements of an array, and as many of a new one, side by side.
#[derive(Clone, Copy)]
struct Pairs<'a> {
    /// The index of the first element.
    from: usize,
    /// The new array.
    new: &'a Vec<Value>,
    /// The index of the first new element.
    to: usize,
    /// The number of elements.
    count: usize,
}

/// Appends the operations that turn the elements of `old` in the gap into those of `new`. The array
/// at the location has the elements of `new` before the gap, and those of `old` from there on.
///
/// # Errors
///
/// [`AllocError`] if an allocation fails.
#[cycle(diff)]
fn diff_gap(
    alloc: Global,
    old: &Vec<Value>,
    gap: Stretch<'_>,
    at: &Trail<'_>,
    patch: &mut Vec<Operation>,
) -> Result<(), AllocError>
    requires old { gap.from + gap.removed ≤ length old.now.items }
    requires new { gap.to + gap.added ≤ length gap.new.now.items }
    ensures spliced { IfOk result (λ _. (first : List an_operation) (left : ℕ)
        → gap.entry.from + (gap.entry.removed + left) ≡ length old.now.items
        → Splices (view (an_array gap.entry.new.now)) first patch.old.items (tokens_of at.now)
        (array_map old.now) (array_map gap.entry.new.now) gap.entry.to gap.entry.from (gap.entry.removed + left)
        → Splices (view (an_array gap.entry.new.now)) first patch.new.items (tokens_of at.now)
        (array_map old.now) (array_map gap.entry.new.now)
        (gap.entry.to + gap.entry.added) (gap.entry.from + gap.entry.removed) left) }
    ensures parts { IfOk result (λ _.
        AppendsParts (tokens_of at.now) patch.old.items patch.new.items) }
    ensures kept { IfOk result (λ _. gap.entry.removed ≡ gap.entry.added
        → AreSameFrom old.now.items gap.entry.from gap.entry.new.now.items gap.entry.to gap.entry.removed
        → patch.new.items ≡ patch.old.items) }
{
    let both = if gap.removed < gap.added {
        gap.removed
    } else {
        gap.added
    };
    let pairs = Pairs {
        from: gap.from,
        new: gap.new,
        to: gap.to,
        count: both,
    };
    follow_elements(alloc, old, pairs, at, patch)?;
    let to = gap.to + both;
    remove_elements(alloc, to, gap.removed - both, at, patch)?;
    add_elements(
        alloc,
        gap.new,
        IndexRange {
            from: to,
            to: gap.to + gap.added,
        },
        at,
        patch,
    )
}

/// Appends the operations that turn the elements of `old` in the pairs into those of `new`, one by one. The
/// array at the location has the elements of `new` before them, and those of `old` from there on.
///
/// # Errors
///
/// [`AllocError`] if an allocation fails.
#[cycle(diff)]
fn follow_elements(
    alloc: Global,
    old: &Vec<Value>,
    pairs: Pairs<'_>,
    at: &Trail<'_>,
    patch: &mut Vec<Operation>,
) -> Result<(), AllocError>
    requires old { pairs.from + pairs.count ≤ length old.now.items }
    requires new { pairs.to + pairs.count ≤ length pairs.new.now.items }
    ensures spliced { IfOk result (λ _. (first : List an_operation) (left : ℕ)
        → pairs.entry.from + (pairs.entry.count + left) ≡ length old.now.items
        → Splices (view (an_array pairs.entry.new.now)) first patch.old.items (tokens_of at.now)
        (array_map old.now) (array_map pairs.entry.new.now) pairs.entry.to pairs.entry.from (pairs.entry.count + left)
        → Splices (view (an_array pairs.entry.new.now)) first patch.new.items (tokens_of at.now)
        (array_map old.now) (array_map pairs.entry.new.now) (pairs.entry.to + pairs.entry.count) (pairs.entry.from + pairs.entry.count) left) }
    ensures parts { IfOk result (λ _.
        AppendsParts (tokens_of at.now) patch.old.items patch.new.items) }
    ensures kept { IfOk result (λ _.
        AreSameFrom old.now.items pairs.entry.from pairs.entry.new.now.items pairs.entry.to pairs.entry.count
        → patch.new.items ≡ patch.old.items) }
{
    for done in 0..pairs.count {
        let (from, to) = (pairs.from + done, pairs.to + done);
        diff_at(
            alloc,
            &old[from],
            &pairs.new[to],
            &Trail::Element(&*at, to),
            patch,
        )?;
    }
    Ok(())
}

/// Appends the operation that replaces the value at the location, unless `new` is the same.
///
/// # Errors
///
/// [`AllocError`] if an allocation fails.
fn replace_other(
    alloc: Global,
    value: &Value,
    new: &Value,
    at: &Trail<'_>,
    patch: &mut Vec<Operation>,
) -> Result<(), AllocError>
    ensures turns { IfOk result (λ _.
        (AreOfOneKind (nodes (view value.now) []) (nodes (view new.now) []) → ⊥)
        → Turns (view new.now) patch.old.items patch.new.items
        (tokens_of at.now) (nodes (view value.now)) (nodes (view new.now))) }
    ensures changes { IfOk result (λ _.
        (AreOfOneKind (nodes (view value.now) []) (nodes (view new.now) []) → ⊥)
        → AppendsChanges (tokens_of at.now) (nodes (view value.now)) (nodes (view new.now))
        patch.old.items patch.new.items) }
{
    if is_same(value, new) {
        return Ok(());
    }
    replace(alloc, new, at, patch)
}
