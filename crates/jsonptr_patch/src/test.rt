//! The operation `test` (RFC 6902, section 4.6).
ghost use Rattle.std.specs.Prelude.{IfOk};
ghost use Rattle.serde_json.specs.View.{view};
ghost use Rattle.jsonptr.specs.Fault.{IfRefused, HasMemory};
ghost use Rattle.jsonptr.specs.Json.{nodes};
ghost use Rattle.jsonptr.specs.Pointer.{tokens};
ghost use Rattle.jsonptr.specs.Text.{HasNoTilde, text};
ghost use Rattle.jsonptr_patch.specs.Operating.{PassesBy, RefusesTestBy};
ghost use Rattle.jsonptr_patch.specs.PrivateTesting.{IsPlain, RefusesCompare, SameValue, SameValueBy, DiffersNumerically};
ghost use Rattle.jsonptr_patch.specs.declared.comparison.Comparison.TheVariants.{Numeric};

use crate::comparison::Comparison;
use crate::equality::is_equal;
use crate::failed_operation::{FailedOperation, PatchPointer};
use crate::float_search::contains_float;
use crate::operation::PatchError;
use crate::target::no_target;
use crate::turn::Turn;
use jsonptr::{Fault, Pointer};
use serde_json::Value;

/// Tests that the value at `path` equals `value`, for the operation of this turn.
///
/// # Errors
///
/// [`Fault::Refused`] if the pointer does not resolve to a value, or if the two differ. A strict test
/// also fails if one of them contains a float. [`Fault::Memory`] if an allocation fails.
pub fn test(
    turn: Turn,
    document: &Value,
    path: Pointer<'_>,
    value: &Value,
) -> Result<(), Fault<FailedOperation>>
    ensures passes { IfOk result (λ _. PassesBy turn.comparison (nodes (view document.now)) (tokens path.entry)
        (nodes (view value.now))) }
    ensures refused { IfRefused result
        (RefusesTestBy turn.comparison (nodes (view document.now)) turn.number (tokens path.entry)
        (nodes (view value.now))) }
    ensures no_memory { HasNoTilde (text (tokens path.entry)) → HasMemory result }
{
    match path.resolve(turn.alloc, document) {
        Ok(target) => match turn.comparison {
            Comparison::Strict => compare(turn, target, value),
            Comparison::Numeric => compare_numerically(turn, target, value),
        },
        Err(fault) => Err(no_target(turn.number, PatchPointer::Path, fault)),
    }
}

/// Compares the value at the target location strictly with the one that it must equal.
///
/// # Errors
///
/// [`PatchError::TestFloat`] if one of the two contains a float, and [`PatchError::TestFailed`] if
/// they differ.
fn compare(turn: Turn, target: &Value, value: &Value) -> Result<(), Fault<FailedOperation>>
    ensures passes { IfOk result (λ _.
        IsPlain target.now × IsPlain value.now × SameValue target.now value.now) }
    ensures refused { IfRefused result (RefusesCompare turn.number target.now value.now) }
    ensures no_memory { HasMemory result }
{
    if contains_float(turn.alloc, target) || contains_float(turn.alloc, value) {
        return Err(Fault::Refused(FailedOperation::at_no_pointer(PatchError::TestFloat {
            operation: turn.number,
        })));
    }
    if !is_equal(target, value, Comparison::Strict) {
        return Err(Fault::Refused(FailedOperation::at_no_pointer(PatchError::TestFailed {
            operation: turn.number,
        })));
    }
    Ok(())
}

/// Compares the value at the target location with the one that it must equal, and numbers by their
/// values.
///
/// # Errors
///
/// [`PatchError::TestFailed`] if they differ.
fn compare_numerically(
    turn: Turn,
    target: &Value,
    value: &Value,
) -> Result<(), Fault<FailedOperation>>
    ensures passes { IfOk result (λ _. SameValueBy Numeric target.now value.now) }
    ensures refused { IfRefused result (DiffersNumerically turn.number target.now value.now) }
    ensures no_memory { HasMemory result }
{
    if !is_equal(target, value, Comparison::Numeric) {
        return Err(Fault::Refused(FailedOperation::at_no_pointer(PatchError::TestFailed {
            operation: turn.number,
        })));
    }
    Ok(())
}
