//! JSON Patch documents (RFC 6902) as bytes.
ghost use Rattle.std.specs.Prelude.{◌≡◌, ◌≤◌, ◌⊎◌, ◌<◌, IfErr, IfOk, IsUtf8, OnErr, OnOk, All, length, take};
ghost use Rattle.serde_json.specs.Data.{depth};
ghost use Rattle.serde_json.specs.Read.{max_depth, read};
ghost use Rattle.serde_json.specs.View.{view};
ghost use Rattle.jsonptr.specs.Json.{nodes, HasSortedKeys};
ghost use Rattle.jsonptr_patch.specs.Order.{OperationHasSortedKeys};
ghost use Rattle.jsonptr_patch.specs.Patching.{PatchesBy};
ghost use Rattle.jsonptr_patch.specs.declared.comparison.Comparison.TheVariants.{Numeric};
ghost use Rattle.jsonptr_c_calls.specs.Depths.{AddsParsed, StaysShallow};
ghost use Rattle.jsonptr_patch_document.specs.Writing.{document_of};
ghost use Rattle.jsonptr_c_calls.specs.Failures.{IsOutOfMemory, LacksRoom};
ghost use Rattle.jsonptr_c_calls.specs.Patches.{IsPatchText, IsNotPatchText, IsNotAppliedList, IsNotCompared, IsNotPatched, IsInverseText, IsDiffText};
ghost use Rattle.jsonptr_c_calls.specs.Values.{IsJsonText};
ghost use Rattle.jsonptr_c_calls.specs.declared.call_error.CallError.TheVariants.{InverseTooDeep};

use crate::buffer::copy_to;
use crate::call_error::CallError;
use crate::depths::stays_shallow;
use crate::read::read;
use crate::values::json_text;
use jsonptr::Fault;
use jsonptr_patch::{
    Comparison, Operation, apply_naming_pointer, apply_naming_pointer_with_inverse,
};
use jsonptr_patch_diff::diff;
use jsonptr_patch_document::laws::{patch_document_law, writing_law};
use jsonptr_patch_document::{read_patch, write_patch};
use jsonptr_text_resolve::Format;
use jsonptr_value::{MAX_DEPTH, copy, nests_within};
use serde_json::Value;
use std::alloc::{AllocError, Global};

/// Returns the operations of the patch document that the bytes are the text of.
///
/// # Errors
///
/// - [`CallError::NotUtf8`] and [`CallError::NotJson`].
/// - [`CallError::NotPatch`] if the document is not a patch.
/// - [`CallError::Memory`] if an allocation fails.
pub fn read_patch_text(alloc: Global, text: &[u8]) -> Result<Vec<Operation>, CallError>
    ensures read { IfOk result (λ patch. IsPatchText text.now patch.items) }
    ensures parsed { IfOk result (λ patch. All AddsParsed patch.items) }
    ensures utf8 { OnOk result (IsUtf8 text.now) }
    ensures refused { IfErr result (IsNotPatchText text.now) }
{
    patch_document_law();
    match read_patch(alloc, &read(alloc, text)?) {
        Ok(patch) => Ok(patch),
        Err(Fault::Refused(error)) => Err(CallError::NotPatch(error)),
        Err(Fault::Memory(error)) => Err(CallError::Memory(error)),
    }
}

/// Applies the operations of the patch document in order, whole or not at all.
///
/// # Errors
///
/// - [`CallError::TooDeep`] if the operations can nest the document deeper than 10,127. Each copy and
///   each move counts with as many levels as its `path` has more tokens than its `from`.
/// - [`CallError::PatchFailed`] with the first operation that fails, and which of its pointers is at
///   fault.
/// - [`CallError::Memory`] if an allocation fails.
///
/// The document is unchanged.
pub fn apply_all(
    alloc: Global,
    document: &mut Value,
    patch: Vec<Operation>,
) -> Result<(), CallError>
    ensures applied { IfOk result (λ _.
        PatchesBy Numeric (nodes (view document.old)) patch.items (nodes (view document.new))) }
    ensures shallow { OnOk result (StaysShallow (view document.old) patch.items) }
    ensures sorted { IfOk result (λ _. All OperationHasSortedKeys patch.items
        → HasSortedKeys (view document.old) → HasSortedKeys (view document.new)) }
    ensures refused { IfErr result (IsNotAppliedList (view document.old) patch.items) }
    ensures unchanged { OnErr result (view document.new ≡ view document.old) }
{
    if !stays_shallow(document, &patch) {
        return Err(CallError::TooDeep);
    }
    match apply_naming_pointer(alloc, document, patch, Comparison::Numeric) {
        Ok(()) => Ok(()),
        Err(Fault::Refused(failed)) => Err(CallError::PatchFailed(failed)),
        Err(Fault::Memory(error)) => Err(CallError::Memory(error)),
    }
}

/// A document after a patch, and the text of a patch document that takes it back.
#[derive(Drop)]
pub struct Patched {
    /// The document after the patch.
    pub document: Value,
    /// The text of the patch document that takes it back.
    pub inverse: Vec<u8>,
}

/// Returns the document after the operations of the patch document, and the text of a patch document
/// that takes them back, in this format. The document itself is copied.
///
/// # Errors
///
/// - Those of [`apply_all`].
/// - [`CallError::InverseTooDeep`] if the patch document that takes them back nests deeper than 127, so
///   that its text would not be read.
pub fn patched_copy(
    alloc: Global,
    document: &Value,
    patch: Vec<Operation>,
    format: Format,
) -> Result<Patched, CallError>
    ensures applied { IfOk result (λ made.
        PatchesBy Numeric (nodes (view document.now)) patch.items (nodes (view made.document))) }
    ensures shallow { OnOk result (StaysShallow (view document.now) patch.items) }
    ensures sorted { IfOk result (λ made. All OperationHasSortedKeys patch.items
        → HasSortedKeys (view document.now) → HasSortedKeys (view made.document)) }
    ensures inverse { IfOk result (λ made.
        IsInverseText format (view document.now) patch.items (view made.document) made.inverse.items) }
    ensures refused { IfErr result (IsNotPatched (view document.now) patch.items) }
{
    if !stays_shallow(document, &patch) {
        return Err(CallError::TooDeep);
    }
    let mut changed = copy(alloc, document)?;
    match apply_naming_pointer_with_inverse(alloc, &mut changed, patch, Comparison::Numeric) {
        Ok(inverse) => Ok(Patched {
            inverse: inverse_text(alloc, &inverse, format)?,
            document: changed,
        }),
        Err(Fault::Refused(failed)) => Err(CallError::PatchFailed(failed)),
        Err(Fault::Memory(error)) => Err(CallError::Memory(error)),
    }
}

/// Copies the text that takes a patch back to the buffer, and replaces the document by the one after
/// the patch. Returns the length of the text.
///
/// # Errors
///
/// [`CallError::NoRoom`] if the buffer is shorter than the text. Buffer and document are unchanged.
pub fn write_patched(
    document: &mut Value,
    made: Patched,
    out: &mut [u8],
) -> Result<usize, CallError>
    ensures copied { IfOk result (λ n. take n out.new ≡ made.inverse.items) }
    ensures replaced { OnOk result (document.new ≡ made.document) }
    ensures fits { IfOk result (λ n. n ≤ length out.new) }
    ensures refused { IfErr result (LacksRoom (length made.inverse.items) (length out.old)) }
    ensures output_unchanged { OnErr result (out.new ≡ out.old) }
    ensures unchanged { OnErr result (document.new ≡ document.old) }
{
    let copied = copy_to(&made.inverse, out)?;
    *document = made.document;
    Ok(copied)
}

/// Returns the text of the patch document of the operations.
///
/// # Errors
///
/// - [`CallError::InverseTooDeep`] if the document nests deeper than 127, so that its text would not be
///   read.
/// - [`CallError::Memory`] if an allocation fails.
fn inverse_text(
    alloc: Global,
    inverse: &Vec<Operation>,
    format: Format,
) -> Result<Vec<u8>, CallError>
    ensures text { IfOk result (λ text. IsPatchText text.items inverse.now.items
        × IsJsonText format (document_of inverse.now.items) text.items
        × (read text.items ≡ Some (document_of inverse.now.items))) }
    ensures refused { IfErr result (λ e. IsOutOfMemory e
        ⊎ ((max_depth < depth (document_of inverse.now.items)) × (e ≡ InverseTooDeep))) }
{
    writing_law();
    let document = write_patch(alloc, inverse)?;
    if !nests_within(&document, MAX_DEPTH) {
        return Err(CallError::InverseTooDeep);
    }
    Ok(json_text(alloc, &document, format)?)
}

/// Copies the text of a patch document that turns the document `old` into `new` to the buffer, and
/// returns its length.
///
/// # Errors
///
/// [`CallError::NoRoom`] if the buffer is shorter than the text, and [`CallError::Memory`] if an
/// allocation fails. The buffer is unchanged.
pub fn diff_text(
    alloc: Global,
    old: &Value,
    new: &Value,
    format: Format,
    out: &mut [u8],
) -> Result<usize, CallError>
    ensures differing { IfOk result (λ n.
        IsDiffText format (view old.now) (view new.now) (take n out.new)) }
    ensures fits { IfOk result (λ n. n ≤ length out.new) }
    ensures refused { IfErr result
        (IsNotCompared format (view old.now) (view new.now) (length out.old)) }
    ensures output_unchanged { OnErr result (out.new ≡ out.old) }
{
    match diff_of(alloc, old, new, format) {
        Ok(text) => copy_to(&text, out),
        Err(error) => Err(CallError::Memory(error)),
    }
}

/// Returns the text of a patch document that turns the document `old` into `new`.
fn diff_of(alloc: Global, old: &Value, new: &Value, format: Format) -> Result<Vec<u8>, AllocError>
    ensures { IfOk result (λ text.
        IsDiffText format (view old.now) (view new.now) text.items) }
{
    let document = write_patch(alloc, &diff(alloc, old, new)?)?;
    json_text(alloc, &document, format)
}
