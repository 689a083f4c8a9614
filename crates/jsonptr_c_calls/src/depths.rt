//! How deep a document may nest.
//!
//! `serde_json` prints, clones and drops a value by recursion, so a document that nests too deep for
//! the stack would end the process by a signal. A text that is read nests at most 127 levels, and
//! only pointers lead further. So these tests look at the number of their tokens.
ghost use Rattle.std.specs.Prelude.{◌≡◌, ◌+◌, ◌<◌, ◌≤◌, ◌↔◌, All, IsTrue, MatchOption, length};
ghost use Rattle.serde_json.specs.View.{view};
ghost use Rattle.jsonptr.specs.Pointer.{tokens};
ghost use Rattle.jsonptr_c_calls.specs.Depths.{HasFewTokens, StaysShallow, descent, descent_of, level_of, max_levels};

use jsonptr::Pointer;
use jsonptr_patch::Operation;
use jsonptr_value::{MAX_DEPTH, nests_within};
use serde_json::Value;

/// The most levels that pointers may add to the 127 of a text that is read.
pub const MAX_LEVELS: usize = 10_000;

/// Returns whether a value at the pointer is at most [`MAX_LEVELS`] deep in its document.
pub(crate) fn is_short(pointer: &Pointer<'_>) -> bool
    ensures { IsTrue result ↔ HasFewTokens (tokens pointer.now) }
{
    pointer.count() <= MAX_LEVELS
}

/// Returns whether no operation can nest the document deeper than 127 levels and [`MAX_LEVELS`].
///
/// The document is looked at only if an operation moves or copies a value down.
pub(crate) fn stays_shallow(document: &Value, patch: &[Operation]) -> bool
    ensures { IsTrue result ↔ StaysShallow (view document.now) patch.now }
{
    match descent(patch) {
        Some(levels) => {
            adds_within(patch, MAX_LEVELS - levels)
                && (levels == 0 || nests_within(document, MAX_DEPTH + MAX_LEVELS - levels))
        }
        None => false,
    }
}

/// Returns by how many levels the operations can move or copy a value down, all together, or `None`
/// if that is more than [`MAX_LEVELS`].
#[tactic(auto, using(std::proofs::lemmas::List::Sums::sum_by_more, std::proofs::lemmas::List::Sums::sum_by_more_le))]
fn descent(patch: &[Operation]) -> Option<usize>
    ensures { MatchOption result (max_levels < descent patch.now)
        (λ levels. (levels ≡ descent patch.now) × (levels ≤ max_levels)) }
{
    let mut levels = 0;
    for operation in patch {
        let more = descent_of(operation);
        if more > MAX_LEVELS - levels {
            return None;
        }
        levels += more;
    }
    Some(levels)
}

/// Returns by how many levels the operation moves or copies a value down.
fn descent_of(operation: &Operation) -> usize
    ensures { result ≡ descent_of operation.now }
{
    match operation {
        Operation::Move { from, path } | Operation::Copy { from, path } => {
            path.as_ptr().count().saturating_sub(from.as_ptr().count())
        }
        _ => 0,
    }
}

/// Returns whether each value that an operation adds is at most so many levels deep in its document.
fn adds_within(patch: &[Operation], levels: usize) -> bool
    ensures { IsTrue result ↔ All (λ o. level_of o ≤ levels) patch.now }
{
    patch.iter().all(|operation| level_of(operation) <= levels)
}

/// Returns how deep in its document the operation puts its own value, if it adds one.
fn level_of(operation: &Operation) -> usize
    ensures { result ≡ level_of operation.now }
{
    match operation {
        Operation::Add { path, .. } | Operation::Replace { path, .. } => path.as_ptr().count(),
        _ => 0,
    }
}
