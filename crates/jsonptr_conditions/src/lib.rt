//! Callers that meet the conditions of `from_static`, `new_unchecked` and `complete_offset`.
//!
//! The mutants of this crate break those conditions. The crate has nothing else, so that the gate
//! can try them in seconds.
#![tactic(auto)]

ghost use Rattle.std.specs.Prelude.{◌≡◌};

use jsonptr::{EncodingError, InvalidEncoding, ParseError, Pointer};

/// Returns the length in bytes of a pointer with a constant text (RFC 6901, section 3).
pub fn len_of_constant() -> usize
    ensures { result ≡ 1 }
{
    let pointer = Pointer::from_static("/");
    pointer.len()
}

/// Returns the length in bytes of a pointer whose text is known to be valid.
pub fn len_of_known() -> usize
    ensures { result ≡ 2 }
{
    let pointer = Pointer::new_unchecked("/a");
    pointer.len()
}

/// Returns the offset of an error in the whole text. The token is at offset 4, and the error at
/// offset 8 of the token.
pub fn offset_of_fault() -> usize
    ensures { result ≡ 12 }
{
    let error = ParseError::InvalidEncoding {
        offset: 4,
        source: EncodingError {
            offset: 8,
            source: InvalidEncoding::Tilde,
        },
    };
    error.complete_offset()
}
