//! Which elements of two arrays belong together.
ghost use Rattle.std.specs.Prelude.{◌≡◌, ◌+◌, ◌≤◌, ◌<◌, length, slice_index_or, IsTrue, IfSome};
ghost use Rattle.serde_json.specs.declared.value.Value.{Value as a_value};
ghost use Rattle.jsonptr_patch_diff.specs.PrivateDiff.{IsGap};
ghost use Rattle.jsonptr_patch_diff.specs.PrivateSame.{IsSame};

use crate::similarity::is_match;
use serde_json::Value;

/// How many elements of each array are searched for two that match.
const LOOKAHEAD: usize = 64;

/// A number of elements of an array, and a number of elements that come instead of them.
#[derive(Clone, Copy)]
pub struct Gap {
    /// The number of elements of the old array.
    pub removed: usize,
    /// The number of elements of the new array.
    pub added: usize,
}

/// Returns the smallest gap between the beginning of the two parts of arrays and two elements that
/// match. Without such elements among the next [`LOOKAHEAD`], returns a gap over those. If the two
/// first elements match, returns a gap of these two.
///
/// Compares at most `(LOOKAHEAD + 1)²` pairs of elements.
///
/// # Conditions
///
/// Neither part is empty.
pub fn next_gap(old: &[Value], new: &[Value]) -> Gap
    requires old { 1 ≤ length old.now }
    requires new { 1 ≤ length new.now }
    ensures gap { IsGap (length old.now) (length new.now) result }
    ensures same { (x y : a_value)
        → IsSame (slice_index_or old.now 0 x) (slice_index_or new.now 0 y)
        → (result.removed ≡ 1) × (result.added ≡ 1) }
{
    let (olds, news) = (old.len(), new.len());
    if is_match_at(old, 0, new, 0) {
        return Gap {
            removed: 1,
            added: 1,
        };
    }
    let limit = olds.max(news).min(LOOKAHEAD);
    for size in 0..limit {
        if let Some(gap) = gap_of(old, new, size + 1) {
            return gap;
        }
    }
    let both = olds.min(news).min(LOOKAHEAD);
    Gap {
        removed: both,
        added: both,
    }
}

/// Returns a gap with `size` elements of one array, and at most as many of the other one, after
/// which two elements match.
fn gap_of(old: &[Value], new: &[Value], size: usize) -> Option<Gap>
    requires { 1 ≤ size }
    ensures { IfSome result (IsGap (length old.now) (length new.now)) }
{
    if is_match_at(old, size, new, size) {
        return Some(Gap {
            removed: size,
            added: size,
        });
    }
    for less in 0..size {
        if is_match_at(old, less, new, size) {
            return Some(Gap {
                removed: less,
                added: size,
            });
        }
        if is_match_at(old, size, new, less) {
            return Some(Gap {
                removed: size,
                added: less,
            });
        }
    }
    None
}

/// Returns whether both parts have these elements, and they match.
fn is_match_at(old: &[Value], from: usize, new: &[Value], to: usize) -> bool
    ensures old { IsTrue result → from < length old.now }
    ensures new { IsTrue result → to < length new.now }
    ensures same { (x y : a_value) → from < length old.now → to < length new.now
        → IsSame (slice_index_or old.now from x) (slice_index_or new.now to y) → IsTrue result }
{
    if from >= old.len() || to >= new.len() {
        return false;
    }
    is_match(&old[from], &new[to])
}
