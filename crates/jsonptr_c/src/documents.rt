//! Documents.
ghost use Rattle.std.specs.Prelude.{◌≡◌, ◌≢◌, ◌≤◌, ◌⊎◌, [], IsFalse, IsTrue, IsUtf8, Some, take, length as list_length};
ghost use Rattle.serde_json.specs.Data.{Data};
ghost use Rattle.serde_json.specs.Read.{read as read_text};
ghost use Rattle.serde_json.specs.View.{view};
ghost use Rattle.serde_json.specs.declared.value.Value.{Value};
ghost use Rattle.jsonptr_c_calls.specs.Handle.{IsEmpty, Keeps};
ghost use Rattle.jsonptr_c_calls.specs.Depths.{IsBounded};
ghost use Rattle.jsonptr_text_digits.specs.Digits.{KeepsDigits};
ghost use Rattle.jsonptr_text_digits.specs.Lost.{Loses};
ghost use Rattle.jsonptr_text_digits.specs.declared.lost.Lost.{Lost};
ghost use Rattle.jsonptr_c_calls.specs.Editing.{AssignsAtPointer, DeletesAtPointer, IsNotDeleted, IsTextNotAssigned};
ghost use Rattle.jsonptr_c_calls.specs.Exactness.{IsNotParsedBy, IsNotPointedTo, PointsTo};
ghost use Rattle.jsonptr_c_calls.specs.Failures.{FailsOnHandle, IsNotParsed, IsNotPrinted, IsNotRead, Unfound};
ghost use Rattle.jsonptr_c_calls.specs.InTexts.{FindsTextIn, IsNotPrintedFrom};
ghost use Rattle.jsonptr_c_calls.specs.Nodes.{FindsNode};
ghost use Rattle.jsonptr_c_calls.specs.Outcomes.{IsLengthOf, Reports};
ghost use Rattle.jsonptr_c_calls.specs.Patches.{AppliesText, AppliesWithInverse, IsDiffText, IsNotApplied, IsNotAppliedWithInverse, IsNotCompared, IsNotPatchText};
ghost use Rattle.jsonptr_c_calls.specs.ErrorNumbers.{no_error};
ghost use Rattle.jsonptr_c_calls.specs.Values.{Changes, FindsTextOf, FindsString, HoldsWith, ReadsInto, format_of};
ghost use Rattle.jsonptr_c_calls.specs.declared.call_error.CallError.{CallError};

use jsonptr_c_calls::error_numbers::ErrorRecord;
use jsonptr_c_calls::handle::Handle;
use jsonptr_c_calls::node::NodeInfo;
use jsonptr_c_calls::outcome::{fail, fail_with_length, succeed};
use jsonptr_c_calls::{documents, texts};
use jsonptr_text_resolve::Format;
use std::alloc::Global;

/// Returns the format that a flag asks for.
fn format_for(is_pretty: bool) -> Format
    ensures { result ≡ format_of is_pretty }
{
    if is_pretty {
        Format::Pretty
    } else {
        Format::Compact
    }
}

/// Reads a JSON text into the handle.
#[unsafe(no_mangle)]
pub extern "C" fn jsonptrcore_document_parse(
    alloc: Global,
    document: &mut Handle,
    text: &[u8],
    error: &mut ErrorRecord,
) -> u32
    ensures no_error { result ≡ 0 → error.new ≡ no_error }
    ensures read { result ≡ 0 → ReadsInto text.now document.new }
    ensures bounded { result ≡ 0 → HoldsWith document.new (λ v. IsBounded (view v)) }
    ensures utf8 { result ≡ 0 → IsUtf8 text.now }
    ensures refused { result ≢ 0 → (e : CallError) × Reports e [] result error.new
        × IsNotParsed text.now e }
    ensures unchanged { result ≢ 0 → document.new ≡ document.old }
{
    match documents::parse(alloc, document, text) {
        Ok(()) => succeed(error),
        Err(call_error) => fail(&call_error, b"", error),
    }
}

/// Reads a JSON text into the handle. If `is_exact`, each number of it must keep its digits.
#[unsafe(no_mangle)]
pub extern "C" fn jsonptrcore_document_parse_with(
    alloc: Global,
    document: &mut Handle,
    text: &[u8],
    is_exact: bool,
    error: &mut ErrorRecord,
) -> u32
    ensures no_error { result ≡ 0 → error.new ≡ no_error }
    ensures read { result ≡ 0 → ReadsInto text.now document.new }
    ensures digits { result ≡ 0 → IsTrue is_exact → KeepsDigits text.now }
    ensures bounded { result ≡ 0 → HoldsWith document.new (λ v. IsBounded (view v)) }
    ensures utf8 { result ≡ 0 → IsUtf8 text.now }
    ensures refused { result ≢ 0 → (e : CallError) × Reports e [] result error.new
        × IsNotParsedBy is_exact text.now e }
    ensures unchanged { result ≢ 0 → document.new ≡ document.old }
{
    if is_exact {
        return match documents::parse_exactly(alloc, document, text) {
            Ok(()) => succeed(error),
            Err(call_error) => fail(&call_error, b"", error),
        };
    }
    match documents::parse(alloc, document, text) {
        Ok(()) => succeed(error),
        Err(call_error) => fail(&call_error, b"", error),
    }
}

/// Frees the document in the handle.
#[unsafe(no_mangle)]
pub extern "C" fn jsonptrcore_document_free(alloc: Global, document: &mut Handle)
    ensures { IsEmpty document.new }
{
    documents::free(alloc, document);
}

/// Copies the JSON text of the value at the pointer to the buffer.
#[unsafe(no_mangle)]
pub extern "C" fn jsonptrcore_document_get(
    alloc: Global,
    document: &mut Handle,
    pointer: &[u8],
    is_pretty: bool,
    out: &mut [u8],
    length: &mut usize,
    error: &mut ErrorRecord,
) -> u32
    ensures no_error { result ≡ 0 → error.new ≡ no_error }
    ensures printed { result ≡ 0 → HoldsWith document.old
        (λ v. FindsTextOf (format_of is_pretty) (view v) pointer.now (take length.new out.new)) }
    ensures fits { result ≡ 0 → length.new ≤ list_length out.new }
    ensures utf8 { result ≡ 0 → IsUtf8 pointer.now }
    ensures refused { result ≢ 0 → (e : CallError) × Reports e pointer.now result error.new
        × FailsOnHandle document.old
        (λ v. IsNotPrinted (format_of is_pretty) (view v) pointer.now (list_length out.old) e) e }
    ensures output_unchanged { result ≢ 0 → out.new ≡ out.old }
    ensures length { result ≢ 0 → IsLengthOf error.new length.old length.new }
    ensures unchanged { Keeps document.old document.new }
{
    match documents::get(alloc, document, pointer, format_for(is_pretty), out) {
        Ok(copied) => {
            *length = copied;
            succeed(error)
        }
        Err(call_error) => fail_with_length(&call_error, pointer, length, error),
    }
}

/// Copies the string at the pointer to the buffer.
#[unsafe(no_mangle)]
pub extern "C" fn jsonptrcore_document_string(
    alloc: Global,
    document: &mut Handle,
    pointer: &[u8],
    out: &mut [u8],
    length: &mut usize,
    error: &mut ErrorRecord,
) -> u32
    ensures no_error { result ≡ 0 → error.new ≡ no_error }
    ensures string { result ≡ 0 → HoldsWith document.old
        (λ v. FindsString (view v) pointer.now (take length.new out.new)) }
    ensures fits { result ≡ 0 → length.new ≤ list_length out.new }
    ensures utf8 { result ≡ 0 → IsUtf8 pointer.now }
    ensures refused { result ≢ 0 → (e : CallError) × Reports e pointer.now result error.new
        × FailsOnHandle document.old
        (λ v. IsNotRead (view v) pointer.now (list_length out.old) e) e }
    ensures output_unchanged { result ≢ 0 → out.new ≡ out.old }
    ensures length { result ≢ 0 → IsLengthOf error.new length.old length.new }
    ensures unchanged { Keeps document.old document.new }
{
    match documents::string(alloc, document, pointer, out) {
        Ok(copied) => {
            *length = copied;
            succeed(error)
        }
        Err(call_error) => fail_with_length(&call_error, pointer, length, error),
    }
}

/// Says what the value at the pointer is.
#[unsafe(no_mangle)]
pub extern "C" fn jsonptrcore_document_node(
    alloc: Global,
    document: &mut Handle,
    pointer: &[u8],
    node: &mut NodeInfo,
    error: &mut ErrorRecord,
) -> u32
    ensures no_error { result ≡ 0 → error.new ≡ no_error }
    ensures described { result ≡ 0 → HoldsWith document.old
        (λ v. FindsNode (view v) pointer.now node.new) }
    ensures utf8 { result ≡ 0 → IsUtf8 pointer.now }
    ensures refused { result ≢ 0 → (e : CallError) × Reports e pointer.now result error.new
        × FailsOnHandle document.old (λ v. Unfound (view v) pointer.now e) e }
    ensures node_unchanged { result ≢ 0 → node.new ≡ node.old }
    ensures unchanged { Keeps document.old document.new }
{
    match documents::node(alloc, document, pointer) {
        Ok(found) => {
            *node = found;
            succeed(error)
        }
        Err(call_error) => fail(&call_error, pointer, error),
    }
}

/// Assigns the value that the text is at the pointer.
#[unsafe(no_mangle)]
pub extern "C" fn jsonptrcore_document_assign(
    alloc: Global,
    document: &mut Handle,
    pointer: &[u8],
    text: &[u8],
    error: &mut ErrorRecord,
) -> u32
    ensures no_error { result ≡ 0 → error.new ≡ no_error }
    ensures assigned { result ≡ 0 → (v : Value) × (read_text text.now ≡ Some (view v))
        × Changes document.old (λ d n. AssignsAtPointer d pointer.now (view v) n) document.new }
    ensures bounded { result ≡ 0
        → Changes document.old (λ d n. IsBounded d → IsBounded n) document.new }
    ensures pointer_utf8 { result ≡ 0 → IsUtf8 pointer.now }
    ensures text_utf8 { result ≡ 0 → IsUtf8 text.now }
    ensures refused { result ≢ 0 → (e : CallError) × Reports e pointer.now result error.new
        × IsTextNotAssigned text.now document.old pointer.now e }
    ensures unchanged { result ≢ 0 → Keeps document.old document.new }
{
    match documents::assign(alloc, document, pointer, text) {
        Ok(()) => succeed(error),
        Err(call_error) => fail(&call_error, pointer, error),
    }
}

/// Removes the value at the pointer.
#[unsafe(no_mangle)]
pub extern "C" fn jsonptrcore_document_delete(
    alloc: Global,
    document: &mut Handle,
    pointer: &[u8],
    found: &mut bool,
    error: &mut ErrorRecord,
) -> u32
    ensures no_error { result ≡ 0 → error.new ≡ no_error }
    ensures deleted { result ≡ 0 → Changes document.old
        (λ d n. DeletesAtPointer d pointer.now found.new n) document.new }
    ensures bounded { result ≡ 0
        → Changes document.old (λ d n. IsBounded d → IsBounded n) document.new }
    ensures utf8 { result ≡ 0 → IsUtf8 pointer.now }
    ensures refused { result ≢ 0 → (e : CallError) × Reports e pointer.now result error.new
        × FailsOnHandle document.old (λ v. IsNotDeleted pointer.now e) e }
    ensures found_unchanged { result ≢ 0 → found.new ≡ found.old }
    ensures unchanged { result ≢ 0 → Keeps document.old document.new }
{
    match documents::delete(alloc, document, pointer) {
        Ok(deleted) => {
            *found = deleted;
            succeed(error)
        }
        Err(call_error) => fail(&call_error, pointer, error),
    }
}

/// Applies the patch document that the text is.
#[unsafe(no_mangle)]
pub extern "C" fn jsonptrcore_document_patch(
    alloc: Global,
    document: &mut Handle,
    text: &[u8],
    error: &mut ErrorRecord,
) -> u32
    ensures no_error { result ≡ 0 → error.new ≡ no_error }
    ensures applied { result ≡ 0
        → Changes document.old (λ d n. AppliesText text.now d n) document.new }
    ensures bounded { result ≡ 0
        → Changes document.old (λ d n. IsBounded d → IsBounded n) document.new }
    ensures utf8 { result ≡ 0 → IsUtf8 text.now }
    ensures refused { result ≢ 0 → (e : CallError) × Reports e [] result error.new
        × (IsNotPatchText text.now e ⊎ IsNotApplied text.now document.old e) }
    ensures unchanged { result ≢ 0 → Keeps document.old document.new }
{
    match documents::patch(alloc, document, text) {
        Ok(()) => succeed(error),
        Err(call_error) => fail(&call_error, b"", error),
    }
}

/// Applies the patch document that the text is, and copies the text of a patch document that takes it
/// back to the buffer.
#[unsafe(no_mangle)]
pub extern "C" fn jsonptrcore_document_patch_with_inverse(
    alloc: Global,
    document: &mut Handle,
    text: &[u8],
    is_pretty: bool,
    out: &mut [u8],
    length: &mut usize,
    error: &mut ErrorRecord,
) -> u32
    ensures no_error { result ≡ 0 → error.new ≡ no_error }
    ensures applied { result ≡ 0 → Changes document.old (λ d n.
        AppliesWithInverse (format_of is_pretty) text.now d n (take length.new out.new))
        document.new }
    ensures bounded { result ≡ 0
        → Changes document.old (λ d n. IsBounded d → IsBounded n) document.new }
    ensures fits { result ≡ 0 → length.new ≤ list_length out.new }
    ensures utf8 { result ≡ 0 → IsUtf8 text.now }
    ensures refused { result ≢ 0 → (e : CallError) × Reports e [] result error.new
        × (IsNotPatchText text.now e ⊎ IsNotAppliedWithInverse (format_of is_pretty) text.now
        document.old (list_length out.old) e) }
    ensures output_unchanged { result ≢ 0 → out.new ≡ out.old }
    ensures length { result ≢ 0 → IsLengthOf error.new length.old length.new }
    ensures unchanged { result ≢ 0 → Keeps document.old document.new }
{
    match documents::patch_with_inverse(alloc, document, text, format_for(is_pretty), out) {
        Ok(copied) => {
            *length = copied;
            succeed(error)
        }
        Err(call_error) => fail_with_length(&call_error, b"", length, error),
    }
}

/// Copies a patch document that turns one document into another to the buffer.
#[unsafe(no_mangle)]
pub extern "C" fn jsonptrcore_document_diff(
    alloc: Global,
    old: &mut Handle,
    new: &mut Handle,
    is_pretty: bool,
    out: &mut [u8],
    length: &mut usize,
    error: &mut ErrorRecord,
) -> u32
    ensures no_error { result ≡ 0 → error.new ≡ no_error }
    ensures differing { result ≡ 0 → HoldsWith old.old (λ v. HoldsWith new.old
        (λ w. IsDiffText (format_of is_pretty) (view v) (view w) (take length.new out.new))) }
    ensures fits { result ≡ 0 → length.new ≤ list_length out.new }
    ensures refused { result ≢ 0 → (e : CallError) × Reports e [] result error.new
        × FailsOnHandle old.old (λ v. FailsOnHandle new.old
        (λ w. IsNotCompared (format_of is_pretty) (view v) (view w) (list_length out.old) e) e) e }
    ensures output_unchanged { result ≢ 0 → out.new ≡ out.old }
    ensures length { result ≢ 0 → IsLengthOf error.new length.old length.new }
    ensures old_unchanged { Keeps old.old old.new }
    ensures new_unchanged { Keeps new.old new.new }
{
    match documents::diff(alloc, old, new, format_for(is_pretty), out) {
        Ok(copied) => {
            *length = copied;
            succeed(error)
        }
        Err(call_error) => fail_with_length(&call_error, b"", length, error),
    }
}

/// Copies the JSON text of the value at the pointer in a JSON text to the buffer.
#[unsafe(no_mangle)]
pub extern "C" fn jsonptrcore_resolve_in_text(
    alloc: Global,
    text: &[u8],
    pointer: &[u8],
    is_pretty: bool,
    out: &mut [u8],
    length: &mut usize,
    error: &mut ErrorRecord,
) -> u32
    ensures no_error { result ≡ 0 → error.new ≡ no_error }
    ensures printed { result ≡ 0
        → FindsTextIn (format_of is_pretty) text.now pointer.now (take length.new out.new) }
    ensures fits { result ≡ 0 → length.new ≤ list_length out.new }
    ensures pointer_utf8 { result ≡ 0 → IsUtf8 pointer.now }
    ensures text_utf8 { result ≡ 0 → IsUtf8 text.now }
    ensures refused { result ≢ 0 → (e : CallError) × Reports e pointer.now result error.new
        × IsNotPrintedFrom (format_of is_pretty) text.now pointer.now (list_length out.old) e }
    ensures output_unchanged { result ≢ 0 → out.new ≡ out.old }
    ensures length { result ≢ 0 → IsLengthOf error.new length.old length.new }
{
    match texts::resolve(alloc, text, pointer, format_for(is_pretty), out) {
        Ok(copied) => {
            *length = copied;
            succeed(error)
        }
        Err(call_error) => fail_with_length(&call_error, pointer, length, error),
    }
}

/// Copies the pointer of the first number of a JSON text that loses digits to the buffer, if there is
/// one.
#[unsafe(no_mangle)]
pub extern "C" fn jsonptrcore_lost_number_in_text(
    alloc: Global,
    text: &[u8],
    found: &mut bool,
    out: &mut [u8],
    length: &mut usize,
    error: &mut ErrorRecord,
) -> u32
    ensures no_error { result ≡ 0 → error.new ≡ no_error }
    ensures pointer { result ≡ 0 → IsTrue found.new
        → (lost : Lost) × Loses text.now lost × PointsTo (take length.new out.new) lost }
    ensures none { result ≡ 0 → IsFalse found.new → KeepsDigits text.now × (length.new ≡ 0) }
    ensures fits { result ≡ 0 → length.new ≤ list_length out.new }
    ensures utf8 { result ≡ 0 → IsUtf8 text.now }
    ensures read { result ≡ 0 → (d : Data) × (read_text text.now ≡ Some d) }
    ensures refused { result ≢ 0 → (e : CallError) × Reports e [] result error.new
        × IsNotPointedTo text.now (list_length out.old) e }
    ensures output_unchanged { result ≢ 0 → out.new ≡ out.old }
    ensures length { result ≢ 0 → IsLengthOf error.new length.old length.new }
    ensures found_unchanged { result ≢ 0 → found.new ≡ found.old }
{
    match texts::lost_number(alloc, text, out) {
        Ok(Some(copied)) => {
            *found = true;
            *length = copied;
            succeed(error)
        }
        Ok(None) => {
            *found = false;
            *length = 0;
            succeed(error)
        }
        Err(call_error) => fail_with_length(&call_error, b"", length, error),
    }
}
