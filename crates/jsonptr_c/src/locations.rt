//! Where values are in JSON texts.
ghost use Rattle.std.specs.Prelude.{◌≡◌, ◌≢◌, ◌≤◌, [], IsUtf8, take, length as list_length};
ghost use Rattle.jsonptr_c_calls.specs.ErrorNumbers.{no_error};
ghost use Rattle.jsonptr_c_calls.specs.Locations.{IsNotLocated, IsNotPointedAt, LocatesInText, PointsAt};
ghost use Rattle.jsonptr_c_calls.specs.Outcomes.{IsLengthOf, Reports};
ghost use Rattle.jsonptr_c_calls.specs.declared.call_error.CallError.{CallError};

use jsonptr_c_calls::error_numbers::ErrorRecord;
use jsonptr_c_calls::locations::{locate, pointer_at};
use jsonptr_c_calls::outcome::{fail, fail_with_length, succeed};
use std::alloc::Global;

/// Writes the offset of the first byte of the value at the pointer in a JSON text, and that after its
/// last byte.
#[unsafe(no_mangle)]
pub extern "C" fn jsonptrcore_locate_in_text(
    alloc: Global,
    text: &[u8],
    pointer: &[u8],
    start: &mut usize,
    end: &mut usize,
    error: &mut ErrorRecord,
) -> u32
    ensures no_error { result ≡ 0 → error.new ≡ no_error }
    ensures located { result ≡ 0 → LocatesInText text.now pointer.now start.new end.new }
    ensures pointer_utf8 { result ≡ 0 → IsUtf8 pointer.now }
    ensures text_utf8 { result ≡ 0 → IsUtf8 text.now }
    ensures refused { result ≢ 0 → (e : CallError) × Reports e pointer.now result error.new
        × IsNotLocated text.now pointer.now e }
    ensures output_unchanged { result ≢ 0 → (start.new ≡ start.old) × (end.new ≡ end.old) }
{
    match locate(alloc, text, pointer) {
        Ok(span) => {
            *start = span.start;
            *end = span.end;
            succeed(error)
        }
        Err(call_error) => fail(&call_error, pointer, error),
    }
}

/// Copies the pointer of the value at the offset in a JSON text to the buffer.
#[unsafe(no_mangle)]
pub extern "C" fn jsonptrcore_pointer_at_in_text(
    alloc: Global,
    text: &[u8],
    offset: usize,
    out: &mut [u8],
    length: &mut usize,
    error: &mut ErrorRecord,
) -> u32
    ensures no_error { result ≡ 0 → error.new ≡ no_error }
    ensures pointed { result ≡ 0 → PointsAt text.now offset (take length.new out.new) }
    ensures fits { result ≡ 0 → length.new ≤ list_length out.new }
    ensures utf8 { result ≡ 0 → IsUtf8 text.now }
    ensures refused { result ≢ 0 → (e : CallError) × Reports e [] result error.new
        × IsNotPointedAt text.now offset (list_length out.old) e }
    ensures output_unchanged { result ≢ 0 → out.new ≡ out.old }
    ensures length { result ≢ 0 → IsLengthOf error.new length.old length.new }
{
    match pointer_at(alloc, text, offset, out) {
        Ok(copied) => {
            *length = copied;
            succeed(error)
        }
        Err(call_error) => fail_with_length(&call_error, b"", length, error),
    }
}
