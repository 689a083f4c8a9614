//! Whether two numbers are the same.
ghost use Rattle.std.specs.Prelude.{◌≡◌, ◌↔◌, IsTrue};
ghost use Rattle.serde_json.specs.View.{number_view};

use serde_json::Number;
use std::num::f64_to_bits_with_nan;

/// Returns whether the two floats are the same value: both are NaN, or they have the same bits.
///
/// So `0.0` and `-0.0`, which are equal by `==`, are not the same.
pub fn is_same_float(left: f64, right: f64) -> bool
    ensures { IsTrue result ↔ (left ≡ right) }
{
    f64_to_bits_with_nan(left) == f64_to_bits_with_nan(right)
}

/// Returns whether the two numbers are the same, and kept in the same way.
///
/// So `1` and `1.0` are not the same, and neither are `0.0` and `-0.0`.
pub fn is_same_number(left: &Number, right: &Number) -> bool
    ensures { IsTrue result ↔ (number_view left.now ≡ number_view right.now) }
{
    match (left.as_i128(), right.as_i128()) {
        (Some(whole), Some(other)) => whole == other && left.is_u64() == right.is_u64(),
        (None, None) => match (left.as_f64(), right.as_f64()) {
            (Some(float), Some(other)) => is_same_float(float, other),
            _ => false,
        },
        _ => false,
    }
}
