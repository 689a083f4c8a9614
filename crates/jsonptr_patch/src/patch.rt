//! Applying a patch: a list of operations, whole or not at all (RFC 6902, section 5).
ghost use Rattle.std.specs.Prelude.{◌≡◌, [], ◌∷◌, ◌++◌, ℕ, length, All, IfOk, IsOk, OnErr};
ghost use Rattle.serde_json.specs.View.{view};
ghost use Rattle.jsonptr.specs.Fault.{IfRefused, HasMemory};
ghost use Rattle.jsonptr.specs.Json.{nodes, HasSortedKeys};
ghost use Rattle.jsonptr.specs.Node.{NodeMap};
ghost use Rattle.jsonptr_patch.specs.Memory.{TestNeedsNoMemory, LastNeedsNoMemory, PatchNeedsNoMemory};
ghost use Rattle.jsonptr_patch.specs.Operating.{AppliesBy, RefusesOperationBy};
ghost use Rattle.jsonptr_patch.specs.Order.{OperationHasSortedKeys};
ghost use Rattle.jsonptr_patch.specs.Patching.{Patches, PatchesBy, FailsBy, RefusesPatch, RefusesPatchBy};
ghost use Rattle.jsonptr_patch.specs.PrivateLater.{IsPending};
ghost use Rattle.jsonptr_patch.specs.PrivateRecording.{CanUndo, Records};

use crate::add::{add, add_last};
use crate::comparison::Comparison;
use crate::copy::{copy, copy_last};
use crate::failed_operation::{FailedOperation, without_pointer};
use crate::later::{record_or_wait, settle, unlink};
use crate::move_value::{move_last, move_value};
use crate::operation::{Operation, PatchError};
use crate::remove::{remove, remove_last};
use crate::replace::{replace, replace_last};
use crate::test::test;
use crate::turn::{Run, Turn};
use jsonptr::Fault;
use jsonptr_patch_journal::journal::Journal;
use serde_json::Value;
use std::alloc::Global;

/// Applies the operations in order, each to the document that the previous one left (RFC 6902,
/// section 5). An empty patch changes nothing.
///
/// The values of the operations are moved into the document, and the rest of the patch is dropped.
/// The document is changed in place. A journal keeps what undoes each operation except the last
/// one. If an operation fails, those before it are undone, which needs no allocation.
///
/// An operation costs what it changes. A member that is removed from an object, also by a move, waits
/// until the last operation has been applied, and is then removed. All that wait are removed earlier if
/// there are 1,024, or if a later operation has a pointer that does not diverge from one of theirs at an
/// object. That clones the keys of their objects, and undoing it takes time in proportion to these. An
/// addition to a member that waits replaces it instead.
///
/// Each pointer is compared with those of the members that wait. A removal from an array, and its
/// undoing, take time in proportion to the array.
///
/// A patch needs no allocation if its pointers contain no `~`, all operations except the last one
/// are tests, and the last one is a test, a removal or a replacement.
///
/// If the keys of each object are in ascending order in the document and in the values that are
/// moved into it, they are so in the new document. Parsed documents have such keys.
///
/// ```rust
/// let mut document = json!(in alloc; {"size": 3})?;
/// let from = PointerBuf::from_text(alloc, "/size")?;
/// let path = PointerBuf::from_text(alloc, "/sizes/-")?;
/// let patch = vec![in alloc; Operation::Move { from, path }]?;
/// let applied = apply(alloc, &mut document, patch);
/// let error = applied.err().ok_or("an error")?.refused()?;
/// assert!(rt; matches!(error, PatchError::NoTarget { operation: 0, .. }));
/// assert_eq!(rt; document.to_string(alloc)?.as_str(), r#"{"size":3}"#);
/// ```
///
/// # Errors
///
/// [`Fault::Refused`] with the error of the first operation that fails, and [`Fault::Memory`] if an
/// allocation fails. The document is unchanged: it is the one before the first operation.
pub fn apply(alloc: Global, doc: &mut Value, patch: Vec<Operation>) -> Result<(), Fault<PatchError>>
    ensures applied { IfOk result (λ _.
        Patches (nodes (view doc.old)) patch.items (nodes (view doc.new))) }
    ensures sorted { IfOk result (λ _. All OperationHasSortedKeys patch.items
        → HasSortedKeys (view doc.old) → HasSortedKeys (view doc.new)) }
    ensures empty { patch.items ≡ [] → IsOk result }
    ensures refused { IfRefused result (RefusesPatch (nodes (view doc.old)) patch.items) }
    ensures unchanged { OnErr result (view doc.new ≡ view doc.old) }
    ensures no_memory { PatchNeedsNoMemory patch.items → HasMemory result }
{
    apply_comparing(alloc, doc, patch, Comparison::Strict)
}

/// Applies the operations in order, as [`apply`] does, and compares the numbers of its tests as
/// `comparison` says.
///
/// With [`Comparison::Numeric`] a test is that of the RFC (section 4.6): two numbers are equal if they
/// have the same value, whether each is stored as an integer or as a float. Nothing is rounded. The two
/// comparisons differ only for patches in which [`apply`] fails with [`PatchError::TestFloat`]
/// ([`laws::comparison`](crate::laws::comparison)).
///
/// ```rust
/// let mut document = json!(in alloc; {"price": 1.5, "count": 2})?;
/// let price = PointerBuf::from_text(alloc, "/price")?;
/// let count = PointerBuf::from_text(alloc, "/count")?;
/// let same = json!(in alloc; 1.5)?;
/// let value = json!(in alloc; 2.0)?;
/// let tests = vec![in alloc;
///     Operation::Test { path: price, value: same },
///     Operation::Test { path: count, value },
/// ]?;
/// apply_comparing(alloc, &mut document, tests, Comparison::Numeric)?;
/// ```
///
/// # Errors
///
/// [`Fault::Refused`] with the error of the first operation that fails, and [`Fault::Memory`] if an
/// allocation fails. The document is unchanged: it is the one before the first operation. It is never
/// [`PatchError::TestFloat`] with [`Comparison::Numeric`].
pub fn apply_comparing(
    alloc: Global,
    document: &mut Value,
    patch: Vec<Operation>,
    comparison: Comparison,
) -> Result<(), Fault<PatchError>>
    ensures applied { IfOk result (λ _.
        PatchesBy comparison (nodes (view document.old)) patch.items (nodes (view document.new))) }
    ensures sorted { IfOk result (λ _. All OperationHasSortedKeys patch.items
        → HasSortedKeys (view document.old) → HasSortedKeys (view document.new)) }
    ensures empty { patch.items ≡ [] → IsOk result }
    ensures refused { IfRefused result
        (RefusesPatchBy comparison (nodes (view document.old)) patch.items) }
    ensures unchanged { OnErr result (view document.new ≡ view document.old) }
    ensures no_memory { PatchNeedsNoMemory patch.items → HasMemory result }
{
    match apply_naming_pointer(alloc, document, patch, comparison) {
        Ok(()) => Ok(()),
        Err(fault) => Err(without_pointer(fault)),
    }
}

/// Applies the operations in order, as [`apply_comparing`] does, and names the pointer at fault of an
/// operation that fails: of a move and of a copy, which have two, [`PatchError::NoTarget`] does not say
/// which of them leads nowhere.
///
/// ```rust
/// let mut document = json!(in alloc; {"size": 3})?;
/// let from = PointerBuf::from_text(alloc, "/size")?;
/// let path = PointerBuf::from_text(alloc, "/sizes/-")?;
/// let patch = vec![in alloc; Operation::Copy { from, path }]?;
/// let applied = apply_naming_pointer(alloc, &mut document, patch, Comparison::Strict);
/// let failed = applied.err().ok_or("an error")?.refused()?;
/// assert_eq!(rt; failed.pointer, Some(PatchPointer::Path));
/// ```
///
/// # Errors
///
/// Those of [`apply_comparing`], each in a [`FailedOperation`]. The document is unchanged.
pub fn apply_naming_pointer(
    alloc: Global,
    document: &mut Value,
    patch: Vec<Operation>,
    comparison: Comparison,
) -> Result<(), Fault<FailedOperation>>
    ensures applied { IfOk result (λ _.
        PatchesBy comparison (nodes (view document.old)) patch.items (nodes (view document.new))) }
    ensures sorted { IfOk result (λ _. All OperationHasSortedKeys patch.items
        → HasSortedKeys (view document.old) → HasSortedKeys (view document.new)) }
    ensures empty { patch.items ≡ [] → IsOk result }
    ensures refused { IfRefused result
        (FailsBy comparison (nodes (view document.old)) patch.items) }
    ensures unchanged { OnErr result (view document.new ≡ view document.old) }
    ensures no_memory { PatchNeedsNoMemory patch.items → HasMemory result }
{
    let mut operations = patch;
    let Some(last) = operations.pop() else {
        return Ok(());
    };
    let first = Turn::first(alloc, comparison);
    let mut run = Run::new(alloc);
    match apply_all(first, document, &mut run, operations, last) {
        Ok(()) => {
            run.journal.discard();
            Ok(())
        }
        Err(fault) => {
            run.journal.undo(alloc, document);
            Err(fault)
        }
    }
}

/// Applies the operations, the first of which has this turn, and then the last one, which is not recorded
/// in the journal.
///
/// # Errors
///
/// Those of [`apply`]. To undo the journal restores the document.
fn apply_all(
    first: Turn,
    document: &mut Value,
    run: &mut Run,
    operations: Vec<Operation>,
    last: Operation,
) -> Result<(), Fault<FailedOperation>>
    requires start { first.number ≡ 0 }
    requires undone { CanUndo run.old.journal document.old }
    requires none { run.old.later.items ≡ [] }
    ensures applied { IfOk result (λ _. PatchesBy first.comparison (nodes (view document.old))
        (operations.items ++ last ∷ []) (nodes (view document.new))) }
    ensures sorted { IfOk result (λ _.
        All OperationHasSortedKeys operations.items → OperationHasSortedKeys last
        → HasSortedKeys (view document.old) → HasSortedKeys (view document.new)) }
    ensures refused { IfRefused result
        (FailsBy first.comparison (nodes (view document.old)) (operations.items ++ last ∷ [])) }
    ensures undone { OnErr result (Records run.old.journal document.old run.new.journal document.new) }
    ensures no_memory { All TestNeedsNoMemory operations.items → LastNeedsNoMemory last
        → HasMemory result }
{
    let number = operations.len();
    record_all(first, document, run, operations)?;
    finish(Turn { number, ..first }, document, run, last)
}

/// Applies the operations, the first of which has this turn, and records in the journal what undoes them.
/// Some nodes are left to be removed after all operations.
///
/// # Errors
///
/// Those of [`apply`]. To undo the journal restores the document.
fn record_all(
    first: Turn,
    document: &mut Value,
    run: &mut Run,
    operations: Vec<Operation>,
) -> Result<(), Fault<FailedOperation>>
    requires start { first.number ≡ 0 }
    requires undone { CanUndo run.old.journal document.old }
    requires none { run.old.later.items ≡ [] }
    ensures applied { IfOk result (λ _. (n : NodeMap)
        × PatchesBy first.comparison (nodes (view document.old)) operations.items n
        × IsPending (nodes (view document.new)) run.new.later.items n) }
    ensures sorted { IfOk result (λ _. All OperationHasSortedKeys operations.items
        → HasSortedKeys (view document.old) → HasSortedKeys (view document.new)) }
    ensures refused { IfRefused result (FailsBy first.comparison (nodes (view document.old)) operations.items) }
    ensures undone { Records run.old.journal document.old run.new.journal document.new }
    ensures no_memory { All TestNeedsNoMemory operations.items → HasMemory result }
    ensures none { IfOk result (λ _.
        All TestNeedsNoMemory operations.items → run.new.later.items ≡ []) }
{
    let mut number = first.number;
    for operation in operations {
        record_or_wait(Turn { number, ..first }, document, run, operation)?;
        number += 1;
    }
    Ok(())
}

/// Applies the last operation, and then removes the nodes that are left to be
/// removed.
///
/// # Errors
///
/// [`Fault::Refused`] if the operation fails, and [`Fault::Memory`] if an allocation fails. To undo
/// the journal restores the document.
fn finish(
    turn: Turn,
    document: &mut Value,
    run: &mut Run,
    last: Operation,
) -> Result<(), Fault<FailedOperation>>
    requires undone { CanUndo run.old.journal document.old }
    requires pending { (n : NodeMap) × IsPending (nodes (view document.old)) run.old.later.items n }
    ensures applied { IfOk result (λ _. (n : NodeMap)
        → IsPending (nodes (view document.old)) run.old.later.items n
        → AppliesBy turn.comparison n last (nodes (view document.new))) }
    ensures sorted { IfOk result (λ _. OperationHasSortedKeys last
        → HasSortedKeys (view document.old) → HasSortedKeys (view document.new)) }
    ensures refused { IfRefused result (λ e. (n : NodeMap)
        → IsPending (nodes (view document.old)) run.old.later.items n
        → RefusesOperationBy turn.comparison n turn.number last e) }
    ensures undone { OnErr result (Records run.old.journal document.old run.new.journal document.new) }
    ensures no_memory { LastNeedsNoMemory last → run.old.later.items ≡ [] → HasMemory result }
{
    settle(turn.alloc, document, run, &last)?;
    apply_last(turn, document, last)?;
    unlink(turn.alloc, document, run);
    Ok(())
}

/// Applies the operation, and records in the journal what undoes it.
///
/// # Errors
///
/// [`Fault::Refused`] if the operation fails, and [`Fault::Memory`] if an allocation fails. To undo
/// the journal restores the document.
///
/// # Conditions
///
/// The journal can be undone in the document.
pub fn record(
    turn: Turn,
    document: &mut Value,
    journal: &mut Journal,
    operation: Operation,
) -> Result<(), Fault<FailedOperation>>
    requires { CanUndo journal.old document.old }
    ensures applied { IfOk result (λ _.
        AppliesBy turn.comparison (nodes (view document.old)) operation (nodes (view document.new))) }
    ensures sorted { IfOk result (λ _. OperationHasSortedKeys operation
        → HasSortedKeys (view document.old) → HasSortedKeys (view document.new)) }
    ensures refused { IfRefused result (RefusesOperationBy turn.comparison (nodes (view document.old)) turn.number operation) }
    ensures undone { Records journal.old document.old journal.new document.new }
    ensures no_memory { TestNeedsNoMemory operation → HasMemory result }
{
    match operation {
        Operation::Add { path, value } => add(turn, document, journal, path.as_ptr(), value),
        Operation::Remove { path } => remove(turn, document, journal, path.as_ptr()),
        Operation::Replace { path, value } => { replace(turn, document, journal, path, value) }
        Operation::Move { from, path } => {
            move_value(turn, document, journal, from.as_ptr(), path.as_ptr())
        }
        Operation::Copy { from, path } => {
            copy(turn, document, journal, from.as_ptr(), path.as_ptr())
        }
        Operation::Test { path, value } => test(turn, document, path.as_ptr(), &value),
    }
}

/// Applies the operation, which is the last one of the patch.
///
/// # Errors
///
/// [`Fault::Refused`] if the operation fails, and [`Fault::Memory`] if an allocation fails. The
/// document is unchanged.
fn apply_last(
    turn: Turn,
    document: &mut Value,
    operation: Operation,
) -> Result<(), Fault<FailedOperation>>
    ensures applied { IfOk result (λ _.
        AppliesBy turn.comparison (nodes (view document.old)) operation (nodes (view document.new))) }
    ensures sorted { IfOk result (λ _. OperationHasSortedKeys operation
        → HasSortedKeys (view document.old) → HasSortedKeys (view document.new)) }
    ensures refused { IfRefused result (RefusesOperationBy turn.comparison (nodes (view document.old)) turn.number operation) }
    ensures unchanged { OnErr result (view document.new ≡ view document.old) }
    ensures no_memory { LastNeedsNoMemory operation → HasMemory result }
{
    match operation {
        Operation::Add { path, value } => add_last(turn, document, path.as_ptr(), value),
        Operation::Remove { path } => remove_last(turn, document, path.as_ptr()),
        Operation::Replace { path, value } => { replace_last(turn, document, path.as_ptr(), value) }
        Operation::Move { from, path } => {
            move_last(turn, document, from.as_ptr(), path.as_ptr())
        }
        Operation::Copy { from, path } => {
            copy_last(turn, document, from.as_ptr(), path.as_ptr())
        }
        Operation::Test { path, value } => test(turn, document, path.as_ptr(), &value),
    }
}
