//! Whether the digits of a number are kept.
ghost use Rattle.std.specs.Prelude.{◌≡◌, ◌↔◌, true, false, Some, None, if◌then◌else◌, IsTrue, IsFalse};
ghost use Rattle.std.specs.Bool.{MatchBool};
ghost use Rattle.std.specs.Float.{float_is_finite};
ghost use Rattle.fast_float.specs.Text.{digits_of, with_sign, IsInteger};
ghost use Rattle.serde_json.specs.Data.{unsigned, negative, float};
ghost use Rattle.serde_json.specs.Read.{number_of, number_from, float_of};
ghost use Rattle.jsonptr_text_digits.specs.Kept.{IsKeptNumber, IsLost};

use crate::normal::{has_minus, have_same_value, numeral_of};
use fast_float::Numeral;

/// Returns whether the number that is read from the text is printed with the decimal value of the
/// text. Of floats with at most 17 significant digits, that is tested.
///
/// The text is that of a number ([RFC 8259](https://www.rfc-editor.org/rfc/rfc8259#section-6), section
/// 6). Any other text counts as the number that it begins with, or as zero. Nothing is allocated.
///
/// # Examples
///
/// ```rust
/// for kept in ["0", "-0", "1.10", "1e5", "1E+2", "0.1", "5e-324", "18446744073709551615", "1e20"] {
///     assert_eq!(rt; is_kept(kept), true);
/// }
/// for lost in ["12345678901234567890123", "3.14159265358979323846", "1e-400", "0.10000000000000001"] {
///     assert_eq!(rt; is_kept(lost), false);
/// }
/// for lost in ["18446744073709551616", "-9223372036854775809", "1e400", "9007199254740993.0"] {
///     assert_eq!(rt; is_kept(lost), false);
/// }
/// ```
pub fn is_kept(text: &str) -> bool
    ensures kept { IsTrue result → IsKeptNumber text.now }
    ensures lost { IsFalse result → IsLost text.now }
{
    let numeral = numeral_of(text);
    if has_minus(text) {
        is_negative(&numeral) || is_kept_float(text, numeral.to_float(true))
    } else {
        is_unsigned(&numeral) || is_kept_float(text, numeral.to_float(false))
    }
}

/// Returns whether the numeral is read as a whole number.
fn is_unsigned(numeral: &Numeral<'_>) -> bool
    ensures { MatchBool result
        (IsInteger numeral.now × (number_from false numeral.now ≡ Some (unsigned (digits_of numeral.now))))
        (number_from false numeral.now ≡ float_of false numeral.now) }
{
    numeral.to_u64().is_some()
}

/// Returns whether the numeral is read, after a minus sign, as a whole number below zero.
fn is_negative(numeral: &Numeral<'_>) -> bool
    ensures { MatchBool result
        (IsInteger numeral.now × (number_from true numeral.now ≡ Some (negative (with_sign true (digits_of numeral.now)))))
        (number_from true numeral.now ≡ float_of true numeral.now) }
{
    match numeral.to_i64(true) {
        Some(n) => n < 0,
        None => false,
    }
}

/// Returns whether the float that is read from the text is finite, and printed with the decimal
/// value of the text.
fn is_kept_float(text: &str, double: f64) -> bool
    ensures finite { IsTrue result → IsTrue (float_is_finite double) }
    ensures kept { IsTrue result → number_of text.now ≡ Some (float double) → IsKeptNumber text.now }
    ensures lost { IsFalse result → number_of text.now ≡ (if float_is_finite double then Some (float double) else None)
        → IsLost text.now }
{
    if !double.is_finite() {
        return false;
    }
    let mut buffer = ryu::Buffer::new();
    have_same_value(text, buffer.format_finite_with_plus(double))
}
