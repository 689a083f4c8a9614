//! Numerical equality (RFC 6902, section 4.6).
ghost use Rattle.std.specs.Prelude.{◌↔◌, T, false, pos, IsTrue};
ghost use Rattle.std.specs.Float.{fin};
ghost use Rattle.std.specs.Float.Ieee;
ghost use Rattle.serde_json.specs.Data.{negative};
ghost use Rattle.serde_json.specs.View.{number_view};
ghost use Rattle.jsonptr_patch.specs.PrivateTesting.{SameNumber};
ghost use Rattle.jsonptr_patch.specs.Testing.{exact, NumericallyEqual};

use serde_json::Number;
use std::num::{nearest_u64_to_f64, saturating_f64_to_u64};

/// Returns whether the two are the same number, whether each is stored as an integer or as a float.
///
/// So `1` and `1.0` are equal, and so are `0` and `-0.0`. Nothing is rounded.
pub fn is_equal_number(left: &Number, right: &Number) -> bool
    ensures { IsTrue result ↔ NumericallyEqual (number_view left.now) (number_view right.now) }
{
    match (left.as_i128(), right.as_i128()) {
        (Some(_), Some(_)) => is_same_integer(left, right),
        (None, _) => match left.as_f64() {
            Some(float) => equals_float(right, float),
            None => false,
        },
        (_, None) => match right.as_f64() {
            Some(float) => equals_float(left, float),
            None => false,
        },
    }
}

/// Returns whether two numbers are the same integer, however each is stored.
pub fn is_same_integer(left: &Number, right: &Number) -> bool
    ensures { IsTrue result ↔ SameNumber (number_view left.now) (number_view right.now) }
{
    match (left.as_i128(), right.as_i128()) {
        (Some(whole), Some(other)) => whole == other,
        _ => false,
    }
}

/// Returns whether the number has the same value as the float.
fn equals_float(number: &Number, float: f64) -> bool
    ensures { IsTrue result ↔ T (Ieee.eq (exact (number_view number.now)) float) }
{
    if let Some(whole) = number.as_u64() {
        return is_unsigned(whole, float);
    }
    if let Some(whole) = number.as_i64() {
        return is_signed(whole, float);
    }
    match number.as_f64() {
        Some(other) => other == float,
        None => false,
    }
}

/// Returns whether the float is the integer.
fn is_signed(whole: i64, float: f64) -> bool
    ensures { IsTrue result ↔ T (Ieee.eq (exact (negative whole)) float) }
{
    if whole < 0 {
        is_unsigned(whole.unsigned_abs(), -float)
    } else {
        is_unsigned(whole.unsigned_abs(), float)
    }
}

/// Returns whether the float is the integer.
///
/// Up to 2^53 each integer is a float. Above, each float is an integer, and those from 2^64 on are
/// none of `u64`.
fn is_unsigned(whole: u64, float: f64) -> bool
    ensures { IsTrue result ↔ T (Ieee.eq (fin false whole (pos 0)) float) }
{
    if whole <= 1 << 53 {
        return nearest_u64_to_f64(whole) == float;
    }
    float < 18_446_744_073_709_551_616.0 && saturating_f64_to_u64(float) == whole
}
