//! Merges as edits of a text: by a merge patch (RFC 7396), and of two changed copies of a document.
ghost use Rattle.std.specs.Prelude.{◌≡◌, ◌++◌, ◌∷◌, [], IfOk, IfSome};
ghost use Rattle.serde_json.specs.View.{view};
ghost use Rattle.jsonptr.specs.Fault.{IfRefused};
ghost use Rattle.jsonptr.specs.Json.{nodes};
ghost use Rattle.jsonptr_patch.specs.Patching.{Patches};
ghost use Rattle.jsonptr_merge.specs.MergePatch.{patched};
ghost use Rattle.jsonptr_text_value.specs.Operations.{operations_in};
ghost use Rattle.jptr_tasks.specs.Merging.{AreTooDeep, IsMergeEdit, IsTooDeep};

use jsonptr::{Fault, Pointer};
use jsonptr_merge::{Conflict, Merged, TooDeep, merge, merge_patched};
use jsonptr_patch::Operation;
use jsonptr_patch_diff::{are_same, diff};
use jsonptr_patch_document::laws::writing_law;
use jsonptr_patch_document::write_patch;
use jsonptr_text_edit::{Buffers, LocateError, PatchText, RawOperation, RawValue, locate};
use jsonptr_value::if_json;
use serde_json::Value;
use std::alloc::{AllocError, Global};

/// The edit that merges two changed copies of a document, or why there is none.
#[derive(Drop)]
pub enum MergeEdit {
    /// The patch that turns the first copy into the merge.
    Patch(PatchText),
    /// All conflicts, at least one, in the order of their paths.
    Conflicts(Vec<Conflict>),
}

/// Returns the patch that makes of the document what the merge patch makes of it (RFC 7396, section 2).
///
/// `text` is the text of the merge patch. A value that the merge patch has as it becomes has its own text in the
/// result (tested), so it keeps its numbers and the order of its members. An object in which a `null` is left out
/// is printed.
///
/// Takes the time of [`merge_patched`] and [`diff`], and reads `text` a few times for each value that is new.
///
/// # Errors
///
/// [`Fault::Refused`] if the merge patch nests deeper than [`MAX_MERGE_DEPTH`] levels, and [`Fault::Memory`] if an
/// allocation fails.
///
/// # Examples
///
/// ```rust
/// let text = r#"{"price": 1.10, "draft": null}"#;
/// let patch = Value::from_str(alloc, text)?;
/// let old = r#"{ "draft": true, "price": 1.0 }"#;
/// let edit = merge_patch_edit(alloc, &Value::from_str(alloc, old)?, &patch, text)?;
/// let edited = edit_text(&mut Buffers::new(alloc), old, &Edit::Patch(edit))?;
/// assert_eq!(rt; edited.or_reprinted().as_str(), r#"{ "price": 1.10 }"#);
/// ```
pub fn merge_patch_edit(
    alloc: Global,
    document: &Value,
    patch: &Value,
    text: &str,
) -> Result<PatchText, Fault<TooDeep>>
    ensures merged { IfOk result (λ p. Patches (nodes (view document.now))
        (operations_in p.operations.items)
        (patched (nodes (view document.now)) (nodes (view patch.now)))) }
    ensures refused { IfRefused result (λ _. IsTooDeep (view patch.now)) }
{
    let new = merge_patched(alloc, document, patch)?;
    Ok(patch_into(alloc, document, &new, text)?)
}

/// Merges two changed copies, `ours` and `theirs`, of the document `base`, and returns the patch that turns `ours`
/// into the merge, or all conflicts.
///
/// `text` is the text of `theirs`. A value that comes from there has its own text in the result (tested), so it
/// keeps its numbers and the order of its members.
///
/// Takes the time of [`merge`] and [`diff`], and reads `text` a few times for each value that is new.
///
/// # Errors
///
/// [`Fault::Refused`] if a document nests deeper than [`MAX_MERGE_DEPTH`] levels, and [`Fault::Memory`] if an
/// allocation fails.
///
/// # Examples
///
/// ```rust
/// let ours = r#"{ "name": "app", "size": 2 }"#;
/// let theirs = r#"{"name": "App", "size": 1.0}"#;
/// let base = Value::from_str(alloc, r#"{"name": "app", "size": 2}"#)?;
/// let (our, their) = (Value::from_str(alloc, ours)?, Value::from_str(alloc, theirs)?);
/// let MergeEdit::Patch(edit) = merge_edit(alloc, &base, &our, &their, theirs)? else {
///     return Err(Fail::from("no conflict"));
/// };
/// let edited = edit_text(&mut Buffers::new(alloc), ours, &Edit::Patch(edit))?;
/// assert_eq!(rt; edited.or_reprinted().as_str(), r#"{ "name": "App", "size": 1.0 }"#);
/// ```
pub fn merge_edit(
    alloc: Global,
    base: &Value,
    ours: &Value,
    theirs: &Value,
    text: &str,
) -> Result<MergeEdit, Fault<TooDeep>>
    ensures merged { IfOk result (IsMergeEdit
        (nodes (view base.now)) (nodes (view ours.now)) (nodes (view theirs.now))) }
    ensures refused { IfRefused result (λ _.
        AreTooDeep (view base.now) (view ours.now) (view theirs.now)) }
{
    match merge(alloc, base, ours, theirs)? {
        Merged::Document(new) => Ok(MergeEdit::Patch(patch_into(alloc, ours, &new, text)?)),
        Merged::Conflicts(conflicts) => Ok(MergeEdit::Conflicts(conflicts)),
    }
}

/// Returns the patch that turns `old` into `new`. A value that it brings has the text that the value at its pointer has
/// in `text`, if both are the same.
///
/// # Errors
///
/// [`AllocError`] if an allocation fails.
fn patch_into(alloc: Global, old: &Value, new: &Value, text: &str) -> Result<PatchText, AllocError>
    ensures { IfOk result (λ p. Patches
        (nodes (view old.now)) (operations_in p.operations.items) (nodes (view new.now))) }
{
    writing_law();
    let operations = diff(alloc, old, new)?;
    let document = write_patch(alloc, &operations)?;
    match with_texts(alloc, text, operations)? {
        Some(operations) => Ok(PatchText {
            document,
            operations,
        }),
        // No text is known that does not fit.
        None => PatchText::from_operations(alloc, diff(alloc, old, new)?),
    }
}

/// Returns the operations with texts of their values, or `None` if one is not read as its value.
///
/// # Errors
///
/// [`AllocError`] if an allocation fails.
fn with_texts(
    alloc: Global,
    text: &str,
    operations: Vec<Operation>,
) -> Result<Option<Vec<RawOperation>>, AllocError>
    ensures { IfOk result (λ o. IfSome o (λ made. operations_in made.items ≡ operations.items)) }
{
    let mut buffers = Buffers::new(alloc);
    let mut made = Vec::new(alloc);
    for operation in operations {
        let Some(operation) = with_own_text(&mut buffers, text, operation)? else {
            return Ok(None);
        };
        append(&mut made, operation)?;
    }
    Ok(Some(made))
}

/// Appends an operation. A function of its own, so that the proof of the loop can name it.
fn append(operations: &mut Vec<RawOperation>, operation: RawOperation) -> Result<(), AllocError>
    ensures { IfOk result (λ _. operations.new.items ≡ operations.old.items ++ operation ∷ []) }
{
    operations.push(operation)?;
    Ok(())
}

/// Returns the operation with the text of its value, if that is found, or `None` if it is not read as the value.
///
/// # Errors
///
/// [`AllocError`] if an allocation fails.
fn with_own_text(
    buffers: &mut Buffers,
    text: &str,
    operation: Operation,
) -> Result<Option<RawOperation>, AllocError>
    ensures { IfOk result (λ o. IfSome o (λ made. made.operation ≡ operation)) }
{
    match own_text(buffers, text, &operation)? {
        Some(raw) => RawOperation::with_text(buffers.alloc, operation, raw),
        None => Ok(Some(RawOperation::new(operation))),
    }
}

/// Returns the text of the operation's value: that of the value at its pointer in `text`, if both are the same.
///
/// # Errors
///
/// [`AllocError`] if an allocation fails.
fn own_text(
    buffers: &mut Buffers,
    text: &str,
    operation: &Operation,
) -> Result<Option<RawValue>, AllocError> {
    match operation {
        Operation::Add { path, value } | Operation::Replace { path, value } => {
            text_at(buffers, text, path.as_ptr(), value)
        }
        _ => Ok(None),
    }
}

/// Returns the text of the value at the pointer in `text`, if it is the same as `value`.
///
/// # Errors
///
/// [`AllocError`] if an allocation fails.
fn text_at(
    buffers: &mut Buffers,
    text: &str,
    pointer: Pointer<'_>,
    value: &Value,
) -> Result<Option<RawValue>, AllocError> {
    let alloc = buffers.alloc;
    let located = match locate(buffers, text, pointer) {
        Ok(located) => located.value,
        Err(LocateError::Memory(error)) => return Err(error),
        Err(_) => return Ok(None),
    };
    let Some(raw) = if_json(RawValue::parse(alloc, located))? else {
        return Ok(None);
    };
    let read = raw.to_value(alloc)?;
    if are_same(&read, value) {
        Ok(Some(raw))
    } else {
        Ok(None)
    }
}
