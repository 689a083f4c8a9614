//! Texts that are edited many times.
ghost use Rattle.std.specs.Prelude.{◌≡◌, ◌≢◌, ◌≤◌, [], false, true, IsUtf8, string_bytes, take, length as list_length};
ghost use Rattle.serde_json.specs.Data.{string as json_string};
ghost use Rattle.jsonptr_text_resolve.specs.declared.format.Format.TheVariants.{Compact};
ghost use Rattle.jsonptr_c_calls.specs.ErrorNumbers.{no_error};
ghost use Rattle.jsonptr_c_calls.specs.Failures.{IsNotQuoted};
ghost use Rattle.jsonptr_c_calls.specs.Values.{IsJsonText};
ghost use Rattle.jsonptr_c_calls.specs.OpenTexts.{Deletes, IsNotOpened, ReadsAs, Renames};
ghost use Rattle.jsonptr_c_calls.specs.Outcomes.{IsLengthOf, Reports};
ghost use Rattle.jsonptr_c_calls.specs.Relayouts.{IsNotRelaidIn, Relays};
ghost use Rattle.jsonptr_c_calls.specs.TextCalls.{AssignsText, FindsNothing, IsNotAssignedIn, IsNotCopied, IsNotDeletedIn, IsNotPatchedIn, IsNotRenamedIn, Makes, PatchesText, text_format_of, part};
ghost use Rattle.jsonptr_c_calls.specs.TextHandle.{ChangesText, FailsOnText, HoldsTextWith, IsVacant, KeepsText};
ghost use Rattle.jsonptr_c_calls.specs.TextReads.{IsBareText, IsNotLocatedIn, IsNotPointedAtIn, IsNotStripped, LocatesIn, PointsAtIn};
ghost use Rattle.jsonptr_c_calls.specs.declared.call_error.CallError.{CallError};

use jsonptr_c_calls::change::Change;
use jsonptr_c_calls::error_numbers::ErrorRecord;
use jsonptr_c_calls::outcome::{fail, fail_with_length, succeed};
use jsonptr_c_calls::text_format::text_format_of;
use jsonptr_c_calls::text_handle::TextHandle;
use jsonptr_c_calls::{text_calls, values};
use std::alloc::Global;

/// Opens a text in the handle, in the format with this number.
#[unsafe(no_mangle)]
pub extern "C" fn jsonptrcore_text_open(
    alloc: Global,
    text: &mut TextHandle,
    format: u32,
    bytes: &[u8],
    error: &mut ErrorRecord,
) -> u32
    ensures no_error { result ≡ 0 → error.new ≡ no_error }
    ensures opened { result ≡ 0 → HoldsTextWith text.new
        (λ t. (string_bytes t.text ≡ bytes.now) × (t.format ≡ text_format_of format)) }
    ensures reads { result ≡ 0 → ReadsAs (text_format_of format) bytes.now }
    ensures utf8 { result ≡ 0 → IsUtf8 bytes.now }
    ensures refused { result ≢ 0 → (e : CallError) × Reports e [] result error.new
        × IsNotOpened (text_format_of format) bytes.now e }
    ensures unchanged { result ≢ 0 → text.new ≡ text.old }
{
    match text_calls::open(alloc, text, text_format_of(format), bytes) {
        Ok(()) => succeed(error),
        Err(call_error) => fail(&call_error, b"", error),
    }
}

/// Frees the text in the handle.
#[unsafe(no_mangle)]
pub extern "C" fn jsonptrcore_text_free(alloc: Global, text: &mut TextHandle)
    ensures { IsVacant text.new }
{
    text_calls::free(alloc, text);
}

/// Assigns the value that the bytes are the text of at the pointer.
#[unsafe(no_mangle)]
pub extern "C" fn jsonptrcore_text_assign(
    alloc: Global,
    text: &mut TextHandle,
    pointer: &[u8],
    value: &[u8],
    may_reformat: bool,
    change: &mut Change,
    error: &mut ErrorRecord,
) -> u32
    ensures no_error { result ≡ 0 → error.new ≡ no_error }
    ensures edited { result ≡ 0
        → Makes (AssignsText pointer.now value.now) text.old change.new text.new }
    ensures allowed { result ≡ 0 → may_reformat ≡ false → change.new.is_reformatted ≡ false }
    ensures pointer_utf8 { result ≡ 0 → IsUtf8 pointer.now }
    ensures value_utf8 { result ≡ 0 → IsUtf8 value.now }
    ensures refused { result ≢ 0 → (e : CallError) × Reports e pointer.now result error.new
        × IsNotAssignedIn may_reformat value.now text.old pointer.now e }
    ensures change_unchanged { result ≢ 0 → change.new ≡ change.old }
    ensures unchanged { result ≢ 0 → KeepsText text.old text.new }
{
    match text_calls::assign(alloc, text, pointer, value, may_reformat) {
        Ok(made) => {
            *change = made;
            succeed(error)
        }
        Err(call_error) => fail(&call_error, pointer, error),
    }
}

/// Deletes the value at the pointer. If there is none, the change is left as it is.
#[unsafe(no_mangle)]
pub extern "C" fn jsonptrcore_text_delete(
    alloc: Global,
    text: &mut TextHandle,
    pointer: &[u8],
    may_reformat: bool,
    found: &mut bool,
    change: &mut Change,
    error: &mut ErrorRecord,
) -> u32
    ensures no_error { result ≡ 0 → error.new ≡ no_error }
    ensures edited { result ≡ 0 → found.new ≡ true
        → Makes (Deletes pointer.now) text.old change.new text.new }
    ensures allowed { result ≡ 0 → found.new ≡ true → may_reformat ≡ false
        → change.new.is_reformatted ≡ false }
    ensures nothing { result ≡ 0 → found.new ≡ false
        → FindsNothing (Deletes pointer.now) text.old text.new }
    ensures nothing_changes { result ≡ 0 → found.new ≡ false → change.new ≡ change.old }
    ensures utf8 { result ≡ 0 → IsUtf8 pointer.now }
    ensures refused { result ≢ 0 → (e : CallError) × Reports e pointer.now result error.new
        × IsNotDeletedIn may_reformat text.old pointer.now e }
    ensures found_unchanged { result ≢ 0 → found.new ≡ found.old }
    ensures change_unchanged { result ≢ 0 → change.new ≡ change.old }
    ensures unchanged { result ≢ 0 → KeepsText text.old text.new }
{
    match text_calls::delete(alloc, text, pointer, may_reformat) {
        Ok(Some(made)) => {
            *found = true;
            *change = made;
            succeed(error)
        }
        Ok(None) => {
            *found = false;
            succeed(error)
        }
        Err(call_error) => fail(&call_error, pointer, error),
    }
}

/// Renames the member at the pointer.
#[unsafe(no_mangle)]
pub extern "C" fn jsonptrcore_text_rename(
    alloc: Global,
    text: &mut TextHandle,
    pointer: &[u8],
    key: &[u8],
    may_reformat: bool,
    change: &mut Change,
    error: &mut ErrorRecord,
) -> u32
    ensures no_error { result ≡ 0 → error.new ≡ no_error }
    ensures edited { result ≡ 0 → Makes (Renames pointer.now key.now) text.old change.new text.new }
    ensures allowed { result ≡ 0 → may_reformat ≡ false → change.new.is_reformatted ≡ false }
    ensures pointer_utf8 { result ≡ 0 → IsUtf8 pointer.now }
    ensures key_utf8 { result ≡ 0 → IsUtf8 key.now }
    ensures refused { result ≢ 0 → (e : CallError) × Reports e pointer.now result error.new
        × IsNotRenamedIn may_reformat key.now text.old pointer.now e }
    ensures change_unchanged { result ≢ 0 → change.new ≡ change.old }
    ensures unchanged { result ≢ 0 → KeepsText text.old text.new }
{
    match text_calls::rename(alloc, text, pointer, key, may_reformat) {
        Ok(made) => {
            *change = made;
            succeed(error)
        }
        Err(call_error) => fail(&call_error, pointer, error),
    }
}

/// Applies the patch document that the bytes are the text of.
#[unsafe(no_mangle)]
pub extern "C" fn jsonptrcore_text_patch(
    alloc: Global,
    text: &mut TextHandle,
    patch: &[u8],
    may_reformat: bool,
    change: &mut Change,
    error: &mut ErrorRecord,
) -> u32
    ensures no_error { result ≡ 0 → error.new ≡ no_error }
    ensures edited { result ≡ 0 → Makes (PatchesText patch.now) text.old change.new text.new }
    ensures allowed { result ≡ 0 → may_reformat ≡ false → change.new.is_reformatted ≡ false }
    ensures utf8 { result ≡ 0 → IsUtf8 patch.now }
    ensures refused { result ≢ 0 → (e : CallError) × Reports e [] result error.new
        × IsNotPatchedIn may_reformat patch.now text.old e }
    ensures change_unchanged { result ≢ 0 → change.new ≡ change.old }
    ensures unchanged { result ≢ 0 → KeepsText text.old text.new }
{
    match text_calls::patch(alloc, text, patch, may_reformat) {
        Ok(made) => {
            *change = made;
            succeed(error)
        }
        Err(call_error) => fail(&call_error, b"", error),
    }
}

/// Makes the document of the JSON text that the bytes are in the text, in the layout that it has.
#[unsafe(no_mangle)]
pub extern "C" fn jsonptrcore_text_relayout(
    alloc: Global,
    text: &mut TextHandle,
    new: &[u8],
    may_reformat: bool,
    change: &mut Change,
    error: &mut ErrorRecord,
) -> u32
    ensures no_error { result ≡ 0 → error.new ≡ no_error }
    ensures relaid { result ≡ 0 → Relays new.now text.old change.new text.new }
    ensures allowed { result ≡ 0 → may_reformat ≡ false → change.new.is_reformatted ≡ false }
    ensures utf8 { result ≡ 0 → IsUtf8 new.now }
    ensures refused { result ≢ 0 → (e : CallError) × Reports e [] result error.new
        × IsNotRelaidIn may_reformat new.now text.old e }
    ensures change_unchanged { result ≢ 0 → change.new ≡ change.old }
    ensures unchanged { result ≢ 0 → KeepsText text.old text.new }
{
    match text_calls::relayout(alloc, text, new, may_reformat) {
        Ok(made) => {
            *change = made;
            succeed(error)
        }
        Err(call_error) => fail(&call_error, b"", error),
    }
}

/// Copies the bytes of the text from one offset up to another one to the buffer.
#[unsafe(no_mangle)]
pub extern "C" fn jsonptrcore_text_copy(
    alloc: Global,
    text: &mut TextHandle,
    start: usize,
    end: usize,
    out: &mut [u8],
    length: &mut usize,
    error: &mut ErrorRecord,
) -> u32
    ensures no_error { result ≡ 0 → error.new ≡ no_error }
    ensures copied { result ≡ 0 → HoldsTextWith text.old
        (λ t. take length.new out.new ≡ part start end (string_bytes t.text)) }
    ensures fits { result ≡ 0 → length.new ≤ list_length out.new }
    ensures refused { result ≢ 0 → (e : CallError) × Reports e [] result error.new
        × IsNotCopied start end text.old (list_length out.old) e }
    ensures output_unchanged { result ≢ 0 → out.new ≡ out.old }
    ensures length { result ≢ 0 → IsLengthOf error.new length.old length.new }
    ensures unchanged { KeepsText text.old text.new }
{
    match text_calls::copy(alloc, text, start, end, out) {
        Ok(copied) => {
            *length = copied;
            succeed(error)
        }
        Err(call_error) => fail_with_length(&call_error, b"", length, error),
    }
}

/// Replaces the comments and trailing commas of the text by spaces.
#[unsafe(no_mangle)]
pub extern "C" fn jsonptrcore_text_remove_comments(
    alloc: Global,
    text: &mut TextHandle,
    error: &mut ErrorRecord,
) -> u32
    ensures no_error { result ≡ 0 → error.new ≡ no_error }
    ensures removed { result ≡ 0 → ChangesText text.old IsBareText text.new }
    ensures refused { result ≢ 0 → (e : CallError) × Reports e [] result error.new
        × FailsOnText text.old (λ t. IsNotStripped t e) e }
    ensures unchanged { result ≢ 0 → KeepsText text.old text.new }
{
    match text_calls::remove_comments(alloc, text) {
        Ok(()) => succeed(error),
        Err(call_error) => fail(&call_error, b"", error),
    }
}

/// Writes the offset of the first byte of the value at the pointer, and that after its last byte.
#[unsafe(no_mangle)]
pub extern "C" fn jsonptrcore_text_locate(
    alloc: Global,
    text: &mut TextHandle,
    pointer: &[u8],
    start: &mut usize,
    end: &mut usize,
    error: &mut ErrorRecord,
) -> u32
    ensures no_error { result ≡ 0 → error.new ≡ no_error }
    ensures located { result ≡ 0
        → HoldsTextWith text.old (λ t. LocatesIn t pointer.now start.new end.new) }
    ensures utf8 { result ≡ 0 → IsUtf8 pointer.now }
    ensures refused { result ≢ 0 → (e : CallError) × Reports e pointer.now result error.new
        × FailsOnText text.old (λ t. IsNotLocatedIn t pointer.now e) e }
    ensures output_unchanged { result ≢ 0 → (start.new ≡ start.old) × (end.new ≡ end.old) }
    ensures unchanged { KeepsText text.old text.new }
{
    match text_calls::locate(alloc, text, pointer) {
        Ok(span) => {
            *start = span.start;
            *end = span.end;
            succeed(error)
        }
        Err(call_error) => fail(&call_error, pointer, error),
    }
}

/// Copies the pointer of the value at the offset to the buffer.
#[unsafe(no_mangle)]
pub extern "C" fn jsonptrcore_text_pointer_at(
    alloc: Global,
    text: &mut TextHandle,
    offset: usize,
    out: &mut [u8],
    length: &mut usize,
    error: &mut ErrorRecord,
) -> u32
    ensures no_error { result ≡ 0 → error.new ≡ no_error }
    ensures pointed { result ≡ 0
        → HoldsTextWith text.old (λ t. PointsAtIn t offset (take length.new out.new)) }
    ensures fits { result ≡ 0 → length.new ≤ list_length out.new }
    ensures refused { result ≢ 0 → (e : CallError) × Reports e [] result error.new
        × FailsOnText text.old (λ t. IsNotPointedAtIn t offset (list_length out.old) e) e }
    ensures output_unchanged { result ≢ 0 → out.new ≡ out.old }
    ensures length { result ≢ 0 → IsLengthOf error.new length.old length.new }
    ensures unchanged { KeepsText text.old text.new }
{
    match text_calls::pointer_at(alloc, text, offset, out) {
        Ok(copied) => {
            *length = copied;
            succeed(error)
        }
        Err(call_error) => fail_with_length(&call_error, b"", length, error),
    }
}

/// Copies the JSON text of the string to the buffer.
#[unsafe(no_mangle)]
pub extern "C" fn jsonptrcore_quote(
    alloc: Global,
    string: &[u8],
    out: &mut [u8],
    length: &mut usize,
    error: &mut ErrorRecord,
) -> u32
    ensures no_error { result ≡ 0 → error.new ≡ no_error }
    ensures quoted { result ≡ 0
        → IsJsonText Compact (json_string string.now) (take length.new out.new) }
    ensures fits { result ≡ 0 → length.new ≤ list_length out.new }
    ensures utf8 { result ≡ 0 → IsUtf8 string.now }
    ensures refused { result ≢ 0 → (e : CallError) × Reports e [] result error.new
        × IsNotQuoted string.now (list_length out.old) e }
    ensures output_unchanged { result ≢ 0 → out.new ≡ out.old }
    ensures length { result ≢ 0 → IsLengthOf error.new length.old length.new }
{
    match values::quote(alloc, string, out) {
        Ok(copied) => {
            *length = copied;
            succeed(error)
        }
        Err(call_error) => fail_with_length(&call_error, b"", length, error),
    }
}
