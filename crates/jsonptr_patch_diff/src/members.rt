//! The operations that add the members of one object to another.
ghost use Rattle.std.specs.Prelude.{◌≡◌, IfOk};
ghost use Rattle.serde_json.specs.View.{view};
ghost use Rattle.serde_json.specs.declared.value.Value.{Object as an_object};
ghost use Rattle.jsonptr_patch_diff.specs.PrivateDiff.{tokens_of, Turns, AppendsChanges, object_map, mixed};

use crate::trail::Trail;
use crate::write::add;
use jsonptr_patch::Operation;
use serde_json::{Map, Value};
use std::alloc::{AllocError, Global};

/// Appends the operations that add the members of `new` whose keys `old` does not have.
///
/// # Errors
///
/// [`AllocError`] if an allocation fails.
pub fn add_members<'a>(
    alloc: Global,
    old: &Map<String, Value>,
    new: &'a Map<String, Value>,
    at: &'a Trail<'a>,
    patch: &mut Vec<Operation>,
) -> Result<(), AllocError>
    ensures turns { IfOk result (λ _. Turns (view (an_object new.now))
        patch.old.items patch.new.items (tokens_of at.now)
        (mixed old.now.entries (object_map old.now) (object_map new.now)) (object_map new.now)) }
    ensures changes { IfOk result (λ _. AppendsChanges (tokens_of at.now)
        (object_map old.now) (object_map new.now) patch.old.items patch.new.items) }
{
    for (key, member) in new.iter() {
        if !old.contains_key(key.as_str()) {
            add(alloc, member, &Trail::Member(at, key.as_str()), patch)?;
        }
    }
    Ok(())
}
