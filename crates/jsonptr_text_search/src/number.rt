//! Numbers, as `serde_json` reads them.
ghost use Rattle.std.specs.Prelude.{◌≡◌, ◌==◌, ◌<◌, true, false, length, option_map, slice_index, IsTrue};
ghost use Rattle.serde_json.specs.Read.{float_of, number_from, number_of};
ghost use Rattle.serde_json.specs.View.{number_view};

use fast_float::Numeral;
use serde_json::Number;

/// Returns the number that the text writes: an integer of 64 bits or a finite float. Returns `None`
/// if it is out of range.
#[inline(always)]
pub fn parse_number(text: &str) -> Option<Number>
    ensures { option_map number_view result ≡ number_of text.now }
{
    let bytes = text.as_bytes();
    if has_minus(bytes) {
        negative(&Numeral::scan(&bytes[1..]))
    } else {
        unsigned(&Numeral::scan(bytes))
    }
}

/// Returns whether the text begins with a minus sign.
#[inline(always)]
fn has_minus(bytes: &[u8]) -> bool
    ensures value { result ≡ (slice_index bytes.now 0 == 45) }
    ensures len { IsTrue result → 0 < length bytes.now }
{
    !bytes.is_empty() && bytes[0] == b'-'
}

/// Returns the number without a sign.
#[inline(always)]
fn unsigned(numeral: &Numeral<'_>) -> Option<Number>
    ensures { option_map number_view result ≡ number_from false numeral.now }
{
    match numeral.to_u64() {
        Some(integer) => Some(Number::from(integer)),
        None => nearest(false, numeral),
    }
}

/// Returns the number with a minus sign.
#[inline(always)]
fn negative(numeral: &Numeral<'_>) -> Option<Number>
    ensures { option_map number_view result ≡ number_from true numeral.now }
{
    if let Some(integer) = numeral.to_i64(true) {
        if integer < 0 {
            return Some(Number::from(integer));
        }
    }
    nearest(true, numeral)
}

/// Returns the float that is nearest to the number, if it is finite.
#[inline(always)]
fn nearest(negative: bool, numeral: &Numeral<'_>) -> Option<Number>
    ensures { option_map number_view result ≡ float_of negative numeral.now }
{
    Number::from_f64(numeral.to_float::<f64>(negative))
}
