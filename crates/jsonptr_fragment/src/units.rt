//! What encodes one byte: a byte that stands for itself, or a `%` with two hexadecimal digits.
ghost use Rattle.std.specs.Prelude.{◌≡◌, ◌≢◌, ◌<◌, ◌∷◌, ◌++◌, ℕ, length, MatchOption};
ghost use Rattle.percent_encoding.specs.Percent.{percent_decode};
ghost use Rattle.jsonptr.specs.Text.{Text};
ghost use Rattle.jsonptr_fragment.specs.Fragment.{Encodes};
ghost use Rattle.jsonptr_fragment.specs.FragmentError.{Reaches, LacksDigits, IsFragmentErrorOf};
ghost use Rattle.jsonptr_fragment.specs.declared.error.FragmentError.TheVariants.{BadByte, BadEscape};
ghost use Rattle.jsonptr_fragment.specs.PrivateUnits.{StartsUnit, StartsNoUnit, HasDigits};

use crate::error::FragmentError;
use crate::set::ENCODED;

/// Returns the first fault of a text that is to encode bytes, or `None` if it encodes some. Offsets
/// count a `#` before the text.
pub fn first_fault(fragment: &[u8]) -> Option<FragmentError>
    ensures { MatchOption result ((bs : Text) × Encodes fragment.now bs)
        (IsFragmentErrorOf (35 ∷ fragment.now)) }
{
    let mut left = fragment;
    while let Some((&byte, _)) = left.split_first() {
        let Some(after) = after_unit(left) else {
            let offset = fragment.len() - left.len() + 1;
            return Some(fault_of(byte, offset));
        };
        left = after;
    }
    None
}

/// Returns the error of a byte that is not part of what encodes a byte.
fn fault_of(byte: u8, offset: usize) -> FragmentError
    ensures escape { byte ≡ 37 → result ≡ BadEscape offset }
    ensures other { byte ≢ 37 → result ≡ BadByte offset }
{
    if byte == b'%' {
        FragmentError::BadEscape { offset }
    } else {
        FragmentError::BadByte { offset }
    }
}

/// Returns the offset of what encodes the byte at the position `count`. It counts a `#` before the
/// text.
pub fn offset_of(fragment: &[u8], count: usize) -> usize
    requires encodes { Encodes fragment.now (percent_decode fragment.now) }
    requires within { count < length (percent_decode fragment.now) }
    ensures { (bs cs back : Text) × Reaches (35 ∷ fragment.now) bs result back × Encodes back cs
        × (percent_decode fragment.now ≡ bs ++ cs) × (length bs ≡ count) }
{
    let mut left = fragment;
    for _turn in 0..count {
        left = skip_unit(left);
    }
    fragment.len() - left.len() + 1
}

/// Returns what follows the first unit of a text that encodes at least one byte.
fn skip_unit(bytes: &[u8]) -> &[u8]
    requires { (b : ℕ) × (bs : Text) × Encodes bytes.now (b ∷ bs) }
    ensures { StartsUnit bytes.now result.now }
{
    match after_unit(bytes) {
        Some(after) => after,
        None => bytes,
    }
}

/// Returns what follows the first unit, or `None` if the bytes begin with none.
fn after_unit(bytes: &[u8]) -> Option<&[u8]>
    ensures { MatchOption result (StartsNoUnit bytes.now) (λ after. StartsUnit bytes.now after.now) }
{
    let (&byte, after) = bytes.split_first()?;
    if byte == b'%' {
        return after_digits(after);
    }
    if ENCODED.should_percent_encode(byte) {
        return None;
    }
    Some(after)
}

/// Returns what follows two hexadecimal digits, or `None` if the bytes begin with fewer.
fn after_digits(bytes: &[u8]) -> Option<&[u8]>
    ensures { MatchOption result (LacksDigits bytes.now) (λ after. HasDigits bytes.now after.now) }
{
    let [high, low, after @ ..] = bytes else {
        return None;
    };
    if high.is_ascii_hexdigit() && low.is_ascii_hexdigit() {
        Some(after)
    } else {
        None
    }
}
