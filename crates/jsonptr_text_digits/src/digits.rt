//! Digits as a number.
ghost use Rattle.std.specs.Prelude.{◌≡◌, ◌≢◌, ◌-◌, ◌*◌, ◌^◌, ◌<◌, ◌≤◌, length, take, slice_index, MatchOption};
ghost use Rattle.std.specs.Str.Parse.{digits_value, digits_value_after, AllDigits};

/// Returns how many of the digits are left without the zeros at their end.
pub(crate) fn without_zeros(digits: &[u8]) -> usize
    ensures within { result ≤ length digits.now }
    ensures value { digits_value 10 digits.now
        ≡ digits_value 10 (take result digits.now) * 10 ^ (length digits.now - result) }
    ensures last { 0 < result → slice_index digits.now (result - 1) ≢ 48 }
{
    let mut end = digits.len();
    while end > 0 && digits[end - 1] == b'0' {
        end -= 1;
    }
    end
}

/// Returns the number that the digits write after those of `first`, if it fits 64 bits.
pub(crate) fn value_after(first: u64, digits: &[u8]) -> Option<u64>
    requires { AllDigits 10 digits.now }
    ensures { MatchOption result
        (2 ^ 64 ≤ digits_value_after 10 first digits.now)
        (λ n. n ≡ digits_value_after 10 first digits.now) }
{
    let mut value = first;
    for digit in digits {
        let Some(tens) = value.checked_mul(10) else {
            return None;
        };
        let Some(next) = tens.checked_add((*digit - b'0') as u64) else {
            return None;
        };
        value = next;
    }
    Some(value)
}
