//! Appending operations to a patch.
ghost use Rattle.std.specs.Prelude.{◌≡◌, IfOk};
ghost use Rattle.serde_json.specs.View.{view};
ghost use Rattle.jsonptr_patch_diff.specs.PrivateDiff.{tokens_of, AppendsReplace, AppendsRemove, AppendsAdd};

use crate::trail::{Trail, to_pointer};
use jsonptr_patch::Operation;
use serde_json::Value;
use std::alloc::{AllocError, Global};

/// Appends the operation that replaces the value at the location by a clone of `value`.
///
/// # Errors
///
/// [`AllocError`] if an allocation fails.
pub fn replace(
    alloc: Global,
    value: &Value,
    at: &Trail<'_>,
    patch: &mut Vec<Operation>,
) -> Result<(), AllocError>
    ensures { IfOk result (λ _. AppendsReplace patch.old.items patch.new.items (tokens_of at.now)
        (view value.now)) }
{
    let path = to_pointer(alloc, at)?;
    let value = jsonptr_value::copy(alloc, value)?;
    patch.push(Operation::Replace { path, value })?;
    Ok(())
}

/// Appends the operation that removes the value at the location.
///
/// # Errors
///
/// [`AllocError`] if an allocation fails.
pub fn remove(alloc: Global, at: &Trail<'_>, patch: &mut Vec<Operation>) -> Result<(), AllocError>
    ensures { IfOk result (λ _. AppendsRemove patch.old.items patch.new.items (tokens_of at.now)) }
{
    let path = to_pointer(alloc, at)?;
    patch.push(Operation::Remove { path })?;
    Ok(())
}

/// Appends the operation that adds a clone of `value` at the location.
///
/// # Errors
///
/// [`AllocError`] if an allocation fails.
pub fn add(
    alloc: Global,
    value: &Value,
    at: &Trail<'_>,
    patch: &mut Vec<Operation>,
) -> Result<(), AllocError>
    ensures { IfOk result (λ _. AppendsAdd patch.old.items patch.new.items (tokens_of at.now)
        (view value.now)) }
{
    let path = to_pointer(alloc, at)?;
    let value = jsonptr_value::copy(alloc, value)?;
    patch.push(Operation::Add { path, value })?;
    Ok(())
}
