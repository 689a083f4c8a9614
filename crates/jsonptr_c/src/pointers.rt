//! JSON Pointers.
ghost use Rattle.std.specs.Prelude.{◌≡◌, ◌≢◌, ◌≤◌, [], IsUtf8, take, length as list_length};
ghost use Rattle.jsonptr.specs.Text.{esc};
ghost use Rattle.jsonptr_c_calls.specs.Failures.{IsNoPointer, IsNoToken, IsNotEscaped, IsNotPopped, IsNotPushed};
ghost use Rattle.jsonptr_c_calls.specs.Fragments.{IsFragmentFor, IsNotFromFragment, IsNotToFragment, IsPointerIn};
ghost use Rattle.jsonptr_c_calls.specs.Outcomes.{IsLengthOf, Reports};
ghost use Rattle.jsonptr_c_calls.specs.ErrorNumbers.{no_error};
ghost use Rattle.jsonptr_c_calls.specs.Pointers.{HasCount, HasToken, Extends, Shortens};
ghost use Rattle.jsonptr_c_calls.specs.declared.call_error.CallError.{CallError};

use jsonptr_c_calls::error_numbers::ErrorRecord;
use jsonptr_c_calls::outcome::{fail, fail_with_length, succeed};
use jsonptr_c_calls::{fragments, pointers};
use std::alloc::Global;

/// Counts the tokens of the pointer.
#[unsafe(no_mangle)]
pub extern "C" fn jsonptrcore_pointer_count(
    pointer: &[u8],
    count: &mut usize,
    error: &mut ErrorRecord,
) -> u32
    ensures no_error { result ≡ 0 → error.new ≡ no_error }
    ensures count { result ≡ 0 → HasCount pointer.now count.new }
    ensures utf8 { result ≡ 0 → IsUtf8 pointer.now }
    ensures refused { result ≢ 0 → (e : CallError) × Reports e pointer.now result error.new
        × IsNoPointer pointer.now e }
    ensures count_unchanged { result ≢ 0 → count.new ≡ count.old }
{
    match pointers::count(pointer) {
        Ok(found) => {
            *count = found;
            succeed(error)
        }
        Err(call_error) => fail(&call_error, pointer, error),
    }
}

/// Copies a decoded token of the pointer to the buffer.
#[unsafe(no_mangle)]
pub extern "C" fn jsonptrcore_pointer_token(
    alloc: Global,
    pointer: &[u8],
    position: usize,
    out: &mut [u8],
    length: &mut usize,
    error: &mut ErrorRecord,
) -> u32
    ensures no_error { result ≡ 0 → error.new ≡ no_error }
    ensures token { result ≡ 0 → HasToken pointer.now position (take length.new out.new) }
    ensures fits { result ≡ 0 → length.new ≤ list_length out.new }
    ensures utf8 { result ≡ 0 → IsUtf8 pointer.now }
    ensures refused { result ≢ 0 → (e : CallError) × Reports e pointer.now result error.new
        × IsNoToken pointer.now position (list_length out.old) e }
    ensures output_unchanged { result ≢ 0 → out.new ≡ out.old }
    ensures length { result ≢ 0 → IsLengthOf error.new length.old length.new }
{
    match pointers::token(alloc, pointer, position, out) {
        Ok(copied) => {
            *length = copied;
            succeed(error)
        }
        Err(call_error) => fail_with_length(&call_error, pointer, length, error),
    }
}

/// Copies the escaped text of a token to the buffer.
#[unsafe(no_mangle)]
pub extern "C" fn jsonptrcore_pointer_escape(
    alloc: Global,
    token: &[u8],
    out: &mut [u8],
    length: &mut usize,
    error: &mut ErrorRecord,
) -> u32
    ensures no_error { result ≡ 0 → error.new ≡ no_error }
    ensures escaped { result ≡ 0 → take length.new out.new ≡ esc token.now }
    ensures fits { result ≡ 0 → length.new ≤ list_length out.new }
    ensures utf8 { result ≡ 0 → IsUtf8 token.now }
    ensures refused { result ≢ 0 → (e : CallError) × Reports e [] result error.new
        × IsNotEscaped token.now (list_length out.old) e }
    ensures output_unchanged { result ≢ 0 → out.new ≡ out.old }
    ensures length { result ≢ 0 → IsLengthOf error.new length.old length.new }
{
    match pointers::escape(alloc, token, out) {
        Ok(copied) => {
            *length = copied;
            succeed(error)
        }
        Err(call_error) => fail_with_length(&call_error, b"", length, error),
    }
}

/// Appends a token to the pointer at the start of the buffer.
#[tactic(auto, using(std::proofs::lemmas::List::take_min))]
#[unsafe(no_mangle)]
pub extern "C" fn jsonptrcore_pointer_push(
    alloc: Global,
    buffer: &mut [u8],
    length: &mut usize,
    token: &[u8],
    error: &mut ErrorRecord,
) -> u32
    ensures no_error { result ≡ 0 → error.new ≡ no_error }
    ensures pushed { result ≡ 0
        → Extends (take length.old buffer.old) token.now (take length.new buffer.new) }
    ensures fits { result ≡ 0 → length.new ≤ list_length buffer.new }
    ensures within { result ≡ 0 → length.old ≤ list_length buffer.old }
    ensures pointer_utf8 { result ≡ 0 → IsUtf8 (take length.old buffer.old) }
    ensures token_utf8 { result ≡ 0 → IsUtf8 token.now }
    ensures refused { result ≢ 0 → (e : CallError)
        × Reports e (take length.old buffer.old) result error.new
        × IsNotPushed length.old buffer.old token.now e }
    ensures unchanged { result ≢ 0 → buffer.new ≡ buffer.old }
    ensures length_unchanged { result ≢ 0 → length.new ≡ length.old }
{
    match pointers::push(alloc, buffer, *length, token) {
        Ok(longer) => {
            *length = longer;
            succeed(error)
        }
        Err(call_error) => {
            let end = (*length).min(buffer.len());
            fail(&call_error, &buffer[..end], error)
        }
    }
}

/// Returns the length of the pointer without its last token.
#[unsafe(no_mangle)]
pub extern "C" fn jsonptrcore_pointer_pop(
    pointer: &[u8],
    length: &mut usize,
    error: &mut ErrorRecord,
) -> u32
    ensures no_error { result ≡ 0 → error.new ≡ no_error }
    ensures popped { result ≡ 0 → Shortens pointer.now length.new }
    ensures utf8 { result ≡ 0 → IsUtf8 pointer.now }
    ensures refused { result ≢ 0 → (e : CallError) × Reports e pointer.now result error.new
        × IsNotPopped pointer.now e }
    ensures length_unchanged { result ≢ 0 → length.new ≡ length.old }
{
    match pointers::pop(pointer) {
        Ok(shorter) => {
            *length = shorter;
            succeed(error)
        }
        Err(call_error) => fail(&call_error, pointer, error),
    }
}

/// Copies the pointer of a fragment to the buffer.
#[unsafe(no_mangle)]
pub extern "C" fn jsonptrcore_pointer_from_fragment(
    alloc: Global,
    fragment: &[u8],
    out: &mut [u8],
    length: &mut usize,
    error: &mut ErrorRecord,
) -> u32
    ensures no_error { result ≡ 0 → error.new ≡ no_error }
    ensures pointer { result ≡ 0 → IsPointerIn fragment.now (take length.new out.new) }
    ensures fits { result ≡ 0 → length.new ≤ list_length out.new }
    ensures utf8 { result ≡ 0 → IsUtf8 fragment.now }
    ensures refused { result ≢ 0 → (e : CallError) × Reports e [] result error.new
        × IsNotFromFragment fragment.now (list_length out.old) e }
    ensures output_unchanged { result ≢ 0 → out.new ≡ out.old }
    ensures length { result ≢ 0 → IsLengthOf error.new length.old length.new }
{
    match fragments::from_fragment(alloc, fragment, out) {
        Ok(copied) => {
            *length = copied;
            succeed(error)
        }
        Err(call_error) => fail_with_length(&call_error, b"", length, error),
    }
}

/// Copies the fragment of a pointer to the buffer.
#[unsafe(no_mangle)]
pub extern "C" fn jsonptrcore_pointer_to_fragment(
    alloc: Global,
    pointer: &[u8],
    out: &mut [u8],
    length: &mut usize,
    error: &mut ErrorRecord,
) -> u32
    ensures no_error { result ≡ 0 → error.new ≡ no_error }
    ensures fragment { result ≡ 0 → IsFragmentFor pointer.now (take length.new out.new) }
    ensures fits { result ≡ 0 → length.new ≤ list_length out.new }
    ensures utf8 { result ≡ 0 → IsUtf8 pointer.now }
    ensures refused { result ≢ 0 → (e : CallError) × Reports e pointer.now result error.new
        × IsNotToFragment pointer.now (list_length out.old) e }
    ensures output_unchanged { result ≢ 0 → out.new ≡ out.old }
    ensures length { result ≢ 0 → IsLengthOf error.new length.old length.new }
{
    match fragments::to_fragment(alloc, pointer, out) {
        Ok(copied) => {
            *length = copied;
            succeed(error)
        }
        Err(call_error) => fail_with_length(&call_error, pointer, length, error),
    }
}
