//! The keys of an object, one after another.
ghost use Rattle.std.specs.Prelude.{◌≡◌, ◌≢◌, ◌≤◌, IsFalse, IsTrue, IsUtf8, take, length as list_length};
ghost use Rattle.serde_json.specs.View.{view};
ghost use Rattle.jsonptr_c_calls.specs.ErrorNumbers.{no_error};
ghost use Rattle.jsonptr_c_calls.specs.Failures.{FailsOnHandle};
ghost use Rattle.jsonptr_c_calls.specs.Handle.{Keeps};
ghost use Rattle.jsonptr_c_calls.specs.Keys.{FindsFirstKey, FindsNextKey, FindsNoKey, FindsNoNextKey, IsNoFirstKey, IsNoNextKey};
ghost use Rattle.jsonptr_c_calls.specs.Outcomes.{IsLengthOf, Reports};
ghost use Rattle.jsonptr_c_calls.specs.Values.{HoldsWith};
ghost use Rattle.jsonptr_c_calls.specs.declared.call_error.CallError.{CallError};

use jsonptr_c_calls::error_numbers::ErrorRecord;
use jsonptr_c_calls::handle::Handle;
use jsonptr_c_calls::keys;
use jsonptr_c_calls::outcome::{fail_with_length, succeed};
use std::alloc::Global;

/// Copies the least key of the object at the pointer to the buffer, if it has one.
#[unsafe(no_mangle)]
pub extern "C" fn jsonptrcore_document_first_key(
    alloc: Global,
    document: &mut Handle,
    pointer: &[u8],
    found: &mut bool,
    out: &mut [u8],
    length: &mut usize,
    error: &mut ErrorRecord,
) -> u32
    ensures no_error { result ≡ 0 → error.new ≡ no_error }
    ensures key { result ≡ 0 → IsTrue found.new → HoldsWith document.old
        (λ v. FindsFirstKey (view v) pointer.now (take length.new out.new)) }
    ensures none { result ≡ 0 → IsFalse found.new
        → HoldsWith document.old (λ v. FindsNoKey (view v) pointer.now)
        × (length.new ≡ 0) × (out.new ≡ out.old) }
    ensures fits { result ≡ 0 → length.new ≤ list_length out.new }
    ensures utf8 { result ≡ 0 → IsUtf8 pointer.now }
    ensures refused { result ≢ 0 → (e : CallError) × Reports e pointer.now result error.new
        × FailsOnHandle document.old
        (λ v. IsNoFirstKey (view v) pointer.now (list_length out.old) e) e }
    ensures output_unchanged { result ≢ 0 → out.new ≡ out.old }
    ensures length { result ≢ 0 → IsLengthOf error.new length.old length.new }
    ensures found_unchanged { result ≢ 0 → found.new ≡ found.old }
    ensures unchanged { Keeps document.old document.new }
{
    match keys::first_key(alloc, document, pointer, out) {
        Ok(Some(copied)) => {
            *found = true;
            *length = copied;
            succeed(error)
        }
        Ok(None) => {
            *found = false;
            *length = 0;
            succeed(error)
        }
        Err(call_error) => fail_with_length(&call_error, pointer, length, error),
    }
}

/// Copies the least key after another one, of the object at the pointer, to the buffer, if it has
/// one.
#[unsafe(no_mangle)]
pub extern "C" fn jsonptrcore_document_next_key(
    alloc: Global,
    document: &mut Handle,
    pointer: &[u8],
    key: &[u8],
    found: &mut bool,
    out: &mut [u8],
    length: &mut usize,
    error: &mut ErrorRecord,
) -> u32
    ensures no_error { result ≡ 0 → error.new ≡ no_error }
    ensures key { result ≡ 0 → IsTrue found.new → HoldsWith document.old
        (λ v. FindsNextKey (view v) pointer.now key.now (take length.new out.new)) }
    ensures none { result ≡ 0 → IsFalse found.new
        → HoldsWith document.old (λ v. FindsNoNextKey (view v) pointer.now key.now)
        × (length.new ≡ 0) × (out.new ≡ out.old) }
    ensures fits { result ≡ 0 → length.new ≤ list_length out.new }
    ensures pointer_utf8 { result ≡ 0 → IsUtf8 pointer.now }
    ensures key_utf8 { result ≡ 0 → IsUtf8 key.now }
    ensures refused { result ≢ 0 → (e : CallError) × Reports e pointer.now result error.new
        × IsNoNextKey document.old pointer.now key.now (list_length out.old) e }
    ensures output_unchanged { result ≢ 0 → out.new ≡ out.old }
    ensures length { result ≢ 0 → IsLengthOf error.new length.old length.new }
    ensures found_unchanged { result ≢ 0 → found.new ≡ found.old }
    ensures unchanged { Keeps document.old document.new }
{
    match keys::next_key(alloc, document, pointer, key, out) {
        Ok(Some(copied)) => {
            *found = true;
            *length = copied;
            succeed(error)
        }
        Ok(None) => {
            *found = false;
            *length = 0;
            succeed(error)
        }
        Err(call_error) => fail_with_length(&call_error, pointer, length, error),
    }
}
