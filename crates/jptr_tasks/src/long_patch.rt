//! Applying a patch of many operations to the text of a document.
ghost use Rattle.std.specs.Prelude.{◌≡◌, ◌↔◌, ◌<◌, length, IfOk, IfErr, IsTrue, string_bytes};
ghost use Rattle.serde_json.specs.View.{view};
ghost use Rattle.jsonptr.specs.Json.{nodes};
ghost use Rattle.jsonptr_patch.specs.Patching.{PatchesBy};
ghost use Rattle.jsonptr_patch.specs.Order.{OperationHasSortedKeys};
ghost use Rattle.jsonptr_patch.specs.declared.comparison.Comparison.TheVariants.{Numeric};
ghost use Rattle.jsonptr_text_relayout.specs.Relaying.{text_of_relaid, ReadsAs};
ghost use Rattle.jsonptr_text_step.specs.OneLine.{StaysOneLine};
ghost use Rattle.jsonptr_text_step.specs.PatchInText.{PatchesInText};
ghost use Rattle.jptr_tasks.specs.Results.{PatchesInLayout, FailsToPatch};
ghost use Rattle.jptr_tasks.specs.PrivateResults.{Remakes, FailsToApply, AppliesInLayout, IsAppliedTo, IsRelayoutFault};

use crate::layout::{Layout, lay_out, read_document};
use crate::task_error::TaskError;
use jsonptr::Fault;
use jsonptr_patch::{Comparison, Operation, apply_naming_pointer};
use jsonptr_text_relayout::{Buffers, Relaid, RelayoutError, relayout_with_texts};
use jsonptr_text_resolve::Scratch;
use jsonptr_text_step::stays_one_line;
use jsonptr_text_value::{FailedPatch, PlainPatch};
use jsonptr_value::discard;
use serde_json::Value;
use std::alloc::Global;

/// The number of operations above which a patch is long: [`edit_text`](jsonptr_text_edit::edit_text) reads
/// the whole text for each operation.
pub const MOST_IN_TEXT: usize = 16;

/// Returns whether the patch of these operations is long, so that [`patch_in_layout`] is for it.
///
/// # Examples
///
/// ```rust
/// let remove = Operation::Remove { path: PointerBuf::from_text(alloc, "/a")? };
/// assert!(rt; !is_long(&vec![in alloc; remove]?));
/// ```
pub fn is_long(operations: &Vec<Operation>) -> bool
    ensures { IsTrue result ↔ (16 < length operations.now.items) }
{
    operations.len() > MOST_IN_TEXT
}

/// Applies the patch to the text, and returns the new document in this layout. `given` is the text of the
/// patch document.
///
/// The operations are applied to the document that the text is, and the new document is laid out as the
/// text is, as [`relayout_with_texts`] does it. So the time is in proportion to the text and the patch, and
/// not to their product as for [`edit_text`](jsonptr_text_edit::edit_text), which edits the text once for each
/// operation. Of the bytes nothing is promised, except that with [`Layout::Kept`] a text of one line
/// stays one line.
///
/// A value that the patch adds has its own text, as far as no other value in the patch or in the text
/// is the same. Numbers are read, so a caller that may lose no digits looks for such numbers first.
///
/// # Errors
///
/// Those of [`result_in_text`](crate::result::result_in_text) for `Task::Edit` of a patch, and never
/// [`TaskError::NotPatch`]: the patch document is one.
/// [`TaskError::NotInPlace`] says that no text in the layout of the old one is found.
///
/// # Examples
///
/// ```rust
/// let given = r#"[{"op": "add", "path": "/b", "value": {"z": 1.10, "y": 2}}]"#;
/// let patch = PlainPatch::of(alloc, Value::from_str(alloc, given)?).ok().ok_or("a patch")?;
/// let new = patch_in_layout(alloc, r#"{ "a": 1.0 }"#, patch, given, Layout::Kept);
/// let new = new.ok().ok_or("a text")?;
/// assert_eq!(rt; new.as_str(), r#"{ "a": 1.0, "b": { "z": 1.10, "y": 2 } }"#);
/// ```
pub fn patch_in_layout(
    alloc: Global,
    text: &str,
    patch: PlainPatch,
    given: &str,
    layout: Layout,
) -> Result<String, FailedPatch<TaskError>>
    ensures applied { IfOk result
        (λ s. PatchesInLayout text.now (view patch.document) layout (string_bytes s)) }
    ensures refused { IfErr result (λ e. (e.document ≡ patch.document)
        × FailsToPatch text.now (view patch.document) layout e.error) }
{
    let PlainPatch {
        document,
        operations,
    } = patch;
    match apply_in_layout(alloc, text, operations, given, layout) {
        Ok(new) => Ok(new),
        Err(error) => Err(FailedPatch { document, error }),
    }
}

/// Applies the operations to the text, and returns the new document in this layout.
fn apply_in_layout(
    alloc: Global,
    text: &str,
    operations: Vec<Operation>,
    given: &str,
    layout: Layout,
) -> Result<String, TaskError>
    ensures applied { IfOk result
        (λ s. AppliesInLayout text.now operations.items layout (string_bytes s)) }
    ensures refused { IfErr result (FailsToApply text.now operations.items layout) }
{
    match layout {
        Layout::Kept => apply_kept(alloc, text, operations, given),
        _ => apply_laid_out(alloc, text, operations, given, layout),
    }
}

/// Applies the operations to the text, and returns the new document in the layout of the text.
fn apply_kept(
    alloc: Global,
    text: &str,
    operations: Vec<Operation>,
    given: &str,
) -> Result<String, TaskError>
    ensures applied { IfOk result
        (λ s. PatchesInText text.now operations.items (string_bytes s)) }
    ensures one_line { IfOk result (λ s. StaysOneLine text.now (string_bytes s)) }
    ensures refused { IfErr result (FailsToApply text.now operations.items Layout.Kept) }
{
    match applied(alloc, text, operations, given) {
        Ok(new) => if is_kept(&new) && stays_one_line(text, new.as_str()) {
            Ok(new.into_string())
        } else {
            Err(TaskError::NotInPlace)
        },
        Err(error) => Err(error),
    }
}

/// Applies the operations to the text, and returns the new document with its tokens laid out anew.
fn apply_laid_out(
    alloc: Global,
    text: &str,
    operations: Vec<Operation>,
    given: &str,
    layout: Layout,
) -> Result<String, TaskError>
    ensures applied { IfOk result
        (λ s. Remakes (PatchesInText text.now operations.items) layout (string_bytes s)) }
    ensures refused { IfErr result (FailsToApply text.now operations.items layout) }
{
    match applied(alloc, text, operations, given) {
        Ok(new) => lay_out(alloc, &mut Scratch::new(alloc), new.as_str(), layout),
        Err(error) => Err(error),
    }
}

/// Applies the operations to the document that the text is, and returns the new document in the layout of
/// the text, or printed if there is no such text.
fn applied(
    alloc: Global,
    text: &str,
    operations: Vec<Operation>,
    given: &str,
) -> Result<Relaid, TaskError>
    ensures applied { IfOk result
        (λ new. PatchesInText text.now operations.items (text_of_relaid new)) }
    ensures refused { IfErr result (FailsToApply text.now operations.items Layout.Compact) }
{
    let document = document_after(alloc, text, operations)?;
    relaid(alloc, text, document, given)
}

/// Reads the document that the text is, and applies the operations to it.
fn document_after(alloc: Global, text: &str, operations: Vec<Operation>) -> Result<Value, TaskError>
    ensures applied { IfOk result (λ v. IsAppliedTo text.now operations.items (view v)) }
    ensures refused { IfErr result (FailsToApply text.now operations.items Layout.Compact) }
{
    let mut document = read_document(alloc, text)?;
    match apply_naming_pointer(alloc, &mut document, operations, Comparison::Numeric) {
        Ok(()) => Ok(document),
        Err(Fault::Refused(failed)) => Err(TaskError::PatchFailed(failed)),
        Err(Fault::Memory(error)) => Err(TaskError::Memory(error)),
    }
}

/// Returns the document in the layout of the text, or printed if there is no such text, and drops it.
fn relaid(alloc: Global, text: &str, document: Value, given: &str) -> Result<Relaid, TaskError>
    ensures reads { IfOk result (λ new. ReadsAs (text_of_relaid new) (nodes (view document))) }
    ensures refused { IfErr result (IsRelayoutFault text.now (view document)) }
{
    let mut buffers = Buffers::new(alloc);
    match relayout_with_texts(&mut buffers, text, &document, &[given, text]) {
        Ok(new) => Ok(new),
        Err(error) => {
            // It may nest deep.
            discard(document);
            Err(TaskError::from(error))
        }
    }
}

/// Returns whether the document is in the layout of the old text.
fn is_kept(relaid: &Relaid) -> bool {
    matches!(relaid, Relaid::Kept(_))
}
