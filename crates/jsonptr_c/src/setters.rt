//! Assignments of a string, a number, a boolean or null.
ghost use Rattle.std.specs.Prelude.{◌≡◌, ◌≢◌, IsTrue, IsUtf8};
ghost use Rattle.std.specs.Float.{float_is_finite};
ghost use Rattle.serde_json.specs.Data.{boolean, float, null, number as json_number, string as json_string, unsigned};
ghost use Rattle.serde_json.specs.Find.{of_integer};
ghost use Rattle.jsonptr_c_calls.specs.Depths.{IsBounded};
ghost use Rattle.jsonptr_c_calls.specs.ErrorNumbers.{no_error};
ghost use Rattle.jsonptr_c_calls.specs.Handle.{Keeps};
ghost use Rattle.jsonptr_c_calls.specs.Outcomes.{Reports};
ghost use Rattle.jsonptr_c_calls.specs.Setters.{AssignsInHandle, IsNumberNotAssigned, IsStringNotAssigned, IsValueNotAssigned};
ghost use Rattle.jsonptr_c_calls.specs.Values.{Changes};
ghost use Rattle.jsonptr_c_calls.specs.declared.call_error.CallError.{CallError};

use jsonptr_c_calls::error_numbers::ErrorRecord;
use jsonptr_c_calls::handle::Handle;
use jsonptr_c_calls::outcome::{fail, succeed};
use jsonptr_c_calls::setters;
use std::alloc::Global;

/// Assigns the string at the pointer.
#[unsafe(no_mangle)]
pub extern "C" fn jsonptrcore_document_assign_string(
    alloc: Global,
    document: &mut Handle,
    pointer: &[u8],
    string: &[u8],
    error: &mut ErrorRecord,
) -> u32
    ensures no_error { result ≡ 0 → error.new ≡ no_error }
    ensures assigned { result ≡ 0
        → AssignsInHandle document.old pointer.now (json_string string.now) document.new }
    ensures bounded { result ≡ 0
        → Changes document.old (λ d n. IsBounded d → IsBounded n) document.new }
    ensures pointer_utf8 { result ≡ 0 → IsUtf8 pointer.now }
    ensures string_utf8 { result ≡ 0 → IsUtf8 string.now }
    ensures refused { result ≢ 0 → (e : CallError) × Reports e pointer.now result error.new
        × IsStringNotAssigned string.now document.old pointer.now e }
    ensures unchanged { result ≢ 0 → Keeps document.old document.new }
{
    match setters::assign_string(alloc, document, pointer, string) {
        Ok(()) => succeed(error),
        Err(call_error) => fail(&call_error, pointer, error),
    }
}

/// Assigns the integer at the pointer.
#[unsafe(no_mangle)]
pub extern "C" fn jsonptrcore_document_assign_integer(
    alloc: Global,
    document: &mut Handle,
    pointer: &[u8],
    number: i64,
    error: &mut ErrorRecord,
) -> u32
    ensures no_error { result ≡ 0 → error.new ≡ no_error }
    ensures assigned { result ≡ 0
        → AssignsInHandle document.old pointer.now (json_number (of_integer number)) document.new }
    ensures bounded { result ≡ 0
        → Changes document.old (λ d n. IsBounded d → IsBounded n) document.new }
    ensures utf8 { result ≡ 0 → IsUtf8 pointer.now }
    ensures refused { result ≢ 0 → (e : CallError) × Reports e pointer.now result error.new
        × IsValueNotAssigned document.old pointer.now e }
    ensures unchanged { result ≢ 0 → Keeps document.old document.new }
{
    match setters::assign_integer(alloc, document, pointer, number) {
        Ok(()) => succeed(error),
        Err(call_error) => fail(&call_error, pointer, error),
    }
}

/// Assigns the natural number at the pointer.
#[unsafe(no_mangle)]
pub extern "C" fn jsonptrcore_document_assign_natural(
    alloc: Global,
    document: &mut Handle,
    pointer: &[u8],
    number: u64,
    error: &mut ErrorRecord,
) -> u32
    ensures no_error { result ≡ 0 → error.new ≡ no_error }
    ensures assigned { result ≡ 0
        → AssignsInHandle document.old pointer.now (json_number (unsigned number)) document.new }
    ensures bounded { result ≡ 0
        → Changes document.old (λ d n. IsBounded d → IsBounded n) document.new }
    ensures utf8 { result ≡ 0 → IsUtf8 pointer.now }
    ensures refused { result ≢ 0 → (e : CallError) × Reports e pointer.now result error.new
        × IsValueNotAssigned document.old pointer.now e }
    ensures unchanged { result ≢ 0 → Keeps document.old document.new }
{
    match setters::assign_natural(alloc, document, pointer, number) {
        Ok(()) => succeed(error),
        Err(call_error) => fail(&call_error, pointer, error),
    }
}

/// Assigns the number at the pointer.
#[unsafe(no_mangle)]
pub extern "C" fn jsonptrcore_document_assign_number(
    alloc: Global,
    document: &mut Handle,
    pointer: &[u8],
    number: f64,
    error: &mut ErrorRecord,
) -> u32
    ensures no_error { result ≡ 0 → error.new ≡ no_error }
    ensures assigned { result ≡ 0
        → AssignsInHandle document.old pointer.now (json_number (float number)) document.new }
    ensures bounded { result ≡ 0
        → Changes document.old (λ d n. IsBounded d → IsBounded n) document.new }
    ensures finite { result ≡ 0 → IsTrue (float_is_finite number) }
    ensures utf8 { result ≡ 0 → IsUtf8 pointer.now }
    ensures refused { result ≢ 0 → (e : CallError) × Reports e pointer.now result error.new
        × IsNumberNotAssigned number document.old pointer.now e }
    ensures unchanged { result ≢ 0 → Keeps document.old document.new }
{
    match setters::assign_number(alloc, document, pointer, number) {
        Ok(()) => succeed(error),
        Err(call_error) => fail(&call_error, pointer, error),
    }
}

/// Assigns `true` or `false` at the pointer.
#[unsafe(no_mangle)]
pub extern "C" fn jsonptrcore_document_assign_boolean(
    alloc: Global,
    document: &mut Handle,
    pointer: &[u8],
    value: bool,
    error: &mut ErrorRecord,
) -> u32
    ensures no_error { result ≡ 0 → error.new ≡ no_error }
    ensures assigned { result ≡ 0
        → AssignsInHandle document.old pointer.now (boolean value) document.new }
    ensures bounded { result ≡ 0
        → Changes document.old (λ d n. IsBounded d → IsBounded n) document.new }
    ensures utf8 { result ≡ 0 → IsUtf8 pointer.now }
    ensures refused { result ≢ 0 → (e : CallError) × Reports e pointer.now result error.new
        × IsValueNotAssigned document.old pointer.now e }
    ensures unchanged { result ≢ 0 → Keeps document.old document.new }
{
    match setters::assign_boolean(alloc, document, pointer, value) {
        Ok(()) => succeed(error),
        Err(call_error) => fail(&call_error, pointer, error),
    }
}

/// Assigns `null` at the pointer.
#[unsafe(no_mangle)]
pub extern "C" fn jsonptrcore_document_assign_null(
    alloc: Global,
    document: &mut Handle,
    pointer: &[u8],
    error: &mut ErrorRecord,
) -> u32
    ensures no_error { result ≡ 0 → error.new ≡ no_error }
    ensures assigned { result ≡ 0 → AssignsInHandle document.old pointer.now null document.new }
    ensures bounded { result ≡ 0
        → Changes document.old (λ d n. IsBounded d → IsBounded n) document.new }
    ensures utf8 { result ≡ 0 → IsUtf8 pointer.now }
    ensures refused { result ≢ 0 → (e : CallError) × Reports e pointer.now result error.new
        × IsValueNotAssigned document.old pointer.now e }
    ensures unchanged { result ≢ 0 → Keeps document.old document.new }
{
    match setters::assign_null(alloc, document, pointer) {
        Ok(()) => succeed(error),
        Err(call_error) => fail(&call_error, pointer, error),
    }
}
