//! The decimal value of a number's text.
ghost use Rattle.std.specs.Prelude.{◌≡◌, ◌+◌, ◌*◌, ◌^◌, ◌<◌, ◌++◌, ◌↔◌, ◌⊎◌, MatchOption, IsTrue, IsFalse};
ghost use Rattle.std.specs.Str.Parse.{digits_value, AllDigits};
ghost use Rattle.jsonptr_text_digits.specs.Decimal.{parts_of, is_negative, HaveSameValue};
ghost use Rattle.jsonptr_text_digits.specs.Kept.{HasShortDigits, HasHugeExponent};
ghost use Rattle.jsonptr_text_digits.specs.PrivateNormal.{IsSignificant, IsLong, IsBig, IsNormal, IsSame};

use crate::digits::{value_after, without_zeros};
use fast_float::Numeral;

/// A number without a sign: `digits * 10 ^ up / 10 ^ down`.
#[derive(Clone, Copy, Drop)]
pub(crate) struct Normal {
    pub(crate) digits: u64,
    pub(crate) up: u128,
    pub(crate) down: u128,
}

/// Returns whether the text begins with a minus sign.
pub(crate) fn has_minus(text: &str) -> bool
    ensures { result ≡ is_negative text.now }
{
    let bytes = text.as_bytes();
    !bytes.is_empty() && bytes[0] == b'-'
}

/// Returns the numeral of the text, after its minus sign.
pub(crate) fn numeral_of<'a>(text: &'a str) -> Numeral<'a>
    ensures { result ≡ parts_of text.now }
{
    let bytes = text.as_bytes();
    if has_minus(text) {
        Numeral::scan(&bytes[1..])
    } else {
        Numeral::scan(bytes)
    }
}

/// Returns the digits without the zeros at their end, and how many zeros these are, if the digits
/// without them fit 64 bits.
fn significant(whole: &[u8], fraction: &[u8]) -> Option<(u64, u128)>
    requires whole { AllDigits 10 whole.now }
    requires fraction { AllDigits 10 fraction.now }
    ensures { MatchOption result (IsLong (whole.now ++ fraction.now))
        (λ r. IsSignificant (whole.now ++ fraction.now) r.0 r.1) }
{
    let end = without_zeros(fraction);
    if end > 0 {
        let first = value_after(0, whole)?;
        let digits = value_after(first, &fraction[..end])?;
        return Some((digits, (fraction.len() - end) as u128));
    }
    let end = without_zeros(whole);
    let digits = value_after(0, &whole[..end])?;
    Some((digits, (whole.len() - end) as u128 + fraction.len() as u128))
}

/// Returns the number that the numeral writes, if its significant digits and its exponent fit 64 bits
/// each.
pub(crate) fn normal_of(numeral: &Numeral<'_>) -> Option<Normal>
    ensures { MatchOption result (IsBig numeral.now) (IsNormal numeral.now) }
{
    let (digits, zeros) = significant(numeral.whole(), numeral.fraction())?;
    let power = value_after(0, numeral.exponent())? as u128;
    let places = numeral.fraction().len() as u128;
    if numeral.is_exponent_negative() {
        Some(Normal {
            digits,
            up: zeros,
            down: places + power,
        })
    } else {
        Some(Normal {
            digits,
            up: zeros + power,
            down: places,
        })
    }
}

/// The least number of 18 digits.
const TEN_TO_17: u64 = 100_000_000_000_000_000;

/// Returns whether both texts have the same decimal value, if the parts of both are small enough to
/// be compared, and the printed one has few digits.
pub(crate) fn have_same_value(number: &str, printed: &str) -> bool
    ensures same { IsTrue result → HaveSameValue number.now printed.now }
    ensures short { IsTrue result → HasShortDigits (parts_of printed.now) }
    ensures differ { IsFalse result → (¬ HaveSameValue number.now printed.now)
        ⊎ (HasHugeExponent (parts_of number.now) ⊎ (¬ HasShortDigits (parts_of printed.now))) }
{
    if has_minus(number) != has_minus(printed) {
        return false;
    }
    let Some(other) = normal_of(&numeral_of(printed)) else {
        return false;
    };
    let Some(one) = normal_of(&numeral_of(number)) else {
        return false;
    };
    other.digits < TEN_TO_17 && is_same(one, other)
}

/// Returns whether both are the same number.
fn is_same(one: Normal, other: Normal) -> bool
    requires one { (one.up < 2 ^ 67) × (one.down < 2 ^ 67) }
    requires other { (other.up < 2 ^ 67) × (other.down < 2 ^ 67) }
    ensures { IsTrue result ↔ IsSame one other }
{
    one.digits == other.digits && (one.digits == 0 || one.up + other.down == other.up + one.down)
}
