//! The three values at one location.
ghost use Rattle.std.specs.Prelude.{◌≡◌, ◌↔◌, IsTrue, IfOk};
ghost use Rattle.jsonptr_merge.specs.Values.{map_in, SortedIn};
ghost use Rattle.jsonptr_merge.specs.PrivateObjects.{side_map, SortedSide};
ghost use Rattle.jsonptr_merge.specs.PrivateSides.{IsSettled, SortedSettled};

use jsonptr_patch_diff::are_same;
use jsonptr_value::copy;
use serde_json::Value;
use std::alloc::{AllocError, Global};

/// Which of three values counts, if one does.
#[derive(Clone, Copy)]
pub enum Settled<'a> {
    /// This value counts, or the member does not exist.
    To(Option<&'a Value>),
    /// All three differ.
    Not,
}

/// Returns which of the three values counts: what one copy has, if the other one left the base
/// alone or agrees.
pub fn settle<'a>(
    base: Option<&'a Value>,
    ours: Option<&'a Value>,
    theirs: Option<&'a Value>,
) -> Settled<'a>
    ensures settled { IsSettled
        (side_map base.entry) (side_map ours.entry) (side_map theirs.entry) result }
    ensures sorted { SortedSide ours.entry → SortedSide theirs.entry → SortedSettled result }
{
    if are_same_sides(ours, base) {
        return Settled::To(theirs);
    }
    if are_same_sides(theirs, base) {
        return Settled::To(ours);
    }
    if are_same_sides(ours, theirs) {
        return Settled::To(ours);
    }
    Settled::Not
}

/// Returns whether both values exist and are the same, or neither exists.
pub fn are_same_sides(left: Option<&Value>, right: Option<&Value>) -> bool
    ensures { IsTrue result ↔ (side_map left.entry ≡ side_map right.entry) }
{
    match left {
        Some(value) => match right {
            Some(other) => are_same(value, other),
            None => false,
        },
        None => right.is_none(),
    }
}

/// Returns a copy of the value, if it exists.
///
/// # Errors
///
/// [`AllocError`] if an allocation fails.
pub fn copy_side(alloc: Global, side: Option<&Value>) -> Result<Option<Value>, AllocError>
    ensures copies { IfOk result (λ o. map_in o ≡ side_map side.entry) }
    ensures sorted { IfOk result (λ o. SortedSide side.entry → SortedIn o) }
{
    match side {
        Some(value) => Ok(Some(copy(alloc, value)?)),
        None => Ok(None),
    }
}
