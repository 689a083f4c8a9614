//! The operations that remove elements of an array, and that add some.
ghost use Rattle.std.specs.Prelude.{◌≡◌, ◌+◌, ◌≤◌, ℕ, List, length, IfOk};
ghost use Rattle.serde_json.specs.Data.{Data};
ghost use Rattle.serde_json.specs.View.{view};
ghost use Rattle.serde_json.specs.declared.value.Value.{Array as an_array};
ghost use Rattle.jsonptr.specs.Node.{NodeMap};
ghost use Rattle.jsonptr_patch.specs.declared.operation.Operation.{Operation as an_operation};
ghost use Rattle.jsonptr_patch_diff.specs.PrivateDiff.{tokens_of, AppendsParts, IsArray, Splices, array_map};

use crate::trail::Trail;
use crate::write::{add, remove};
use jsonptr_patch::Operation;
use serde_json::Value;
use std::alloc::{AllocError, Global};

/// Appends the operations that remove `count` elements at `index` from the array at the location.
///
/// # Errors
///
/// [`AllocError`] if an allocation fails.
pub fn remove_elements(
    alloc: Global,
    index: usize,
    count: usize,
    at: &Trail<'_>,
    patch: &mut Vec<Operation>,
) -> Result<(), AllocError>
    ensures spliced { IfOk result (λ _.
        (goal : Data) (first : List an_operation) (c d : NodeMap) (len k left : ℕ)
        → IsArray c len → k + (count + left) ≤ len
        → Splices goal first patch.old.items (tokens_of at.now) c d index k (count + left)
        → Splices goal first patch.new.items (tokens_of at.now) c d index (k + count) left) }
    ensures parts { IfOk result (λ _.
        AppendsParts (tokens_of at.now) patch.old.items patch.new.items) }
    ensures none { IfOk result (λ _. count ≡ 0 → patch.new.items ≡ patch.old.items) }
{
    for _done in 0..count {
        remove(alloc, &Trail::Element(&*at, index), patch)?;
    }
    Ok(())
}

/// The indices of a part of an array.
#[derive(Clone, Copy)]
pub struct IndexRange {
    /// The index of its first element.
    pub from: usize,
    /// The index after its last element.
    pub to: usize,
}

/// Appends the operations that insert the elements of `new` in the range into the array at the
/// location, at their indices.
///
/// # Errors
///
/// [`AllocError`] if an allocation fails.
///
/// # Conditions
///
/// The range is one of `new`.
pub fn add_elements(
    alloc: Global,
    new: &Vec<Value>,
    range: IndexRange,
    at: &Trail<'_>,
    patch: &mut Vec<Operation>,
) -> Result<(), AllocError>
    requires order { range.from ≤ range.to }
    requires within { range.to ≤ length new.now.items }
    ensures spliced { IfOk result (λ _. (first : List an_operation) (c : NodeMap) (k left : ℕ)
        → Splices (view (an_array new.now)) first patch.old.items (tokens_of at.now)
        c (array_map new.now) range.from k left
        → Splices (view (an_array new.now)) first patch.new.items (tokens_of at.now)
        c (array_map new.now) range.to k left) }
    ensures parts { IfOk result (λ _.
        AppendsParts (tokens_of at.now) patch.old.items patch.new.items) }
    ensures none { IfOk result (λ _.
        range.from ≡ range.to → patch.new.items ≡ patch.old.items) }
{
    for index in range.from..range.to {
        add(alloc, &new[index], &Trail::Element(&*at, index), patch)?;
    }
    Ok(())
}
