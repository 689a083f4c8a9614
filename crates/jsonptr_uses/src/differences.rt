//! A copy of a document that is kept up to date by differences.
ghost use Rattle.std.specs.Prelude.{◌≡◌, IfOk, OnErr};
ghost use Rattle.serde_json.specs.View.{view};
ghost use Rattle.jsonptr.specs.Fault.{IsRefused};
ghost use Rattle.jsonptr.specs.Json.{nodes, HasSortedKeys};

use jsonptr::Fault;
use jsonptr_patch::{PatchError, apply};
use jsonptr_patch_diff::diff;
use jsonptr_patch_diff::laws::difference_law;
use serde_json::Value;
use std::alloc::Global;

/// Brings a copy of `old` up to date: computes the difference of `old` and `new`, as the holder of
/// the document does, and applies it to the copy. The copy then has the node map of `new`. It is
/// `new` if the keys of each object are in ascending order in both, as in parsed documents.
///
/// # Errors
///
/// [`Fault::Memory`] if an allocation fails, and no other error. The copy is unchanged.
///
/// # Conditions
///
/// The copy has the node map of `old`.
pub fn bring_up_to_date(
    alloc: Global,
    copy: &mut Value,
    old: &Value,
    new: &Value,
) -> Result<(), Fault<PatchError>>
    requires { nodes (view copy.old) ≡ nodes (view old.now) }
    ensures updated { IfOk result (λ _. nodes (view copy.new) ≡ nodes (view new.now)) }
    ensures same { IfOk result (λ _.
        HasSortedKeys (view copy.old) → HasSortedKeys (view new.now)
        → view copy.new ≡ view new.now) }
    ensures unchanged { OnErr result (view copy.new ≡ view copy.old) }
    ensures never_refused { IsRefused result → ⊥ }
{
    difference_law();
    let patch = diff(alloc, old, new)?;
    apply(alloc, copy, patch)
}
