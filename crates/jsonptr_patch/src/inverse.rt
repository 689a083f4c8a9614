//! Applying a patch, and the patch that takes it back.
ghost use Rattle.std.specs.Prelude.{◌≡◌, ◌∷◌, ◌++◌, List, [], reverse, All, IfOk, IfErr, IsOk, OnErr};
ghost use Rattle.serde_json.specs.View.{view};
ghost use Rattle.jsonptr.specs.Fault.{IfRefused};
ghost use Rattle.jsonptr.specs.Content.{Content, map_of};
ghost use Rattle.jsonptr.specs.Json.{nodes, HasSortedKeys};
ghost use Rattle.jsonptr.specs.Node.{NodeMap};
ghost use Rattle.jsonptr.specs.Pointer.{tokens};
ghost use Rattle.jsonptr.specs.Text.{Text, dec};
ghost use Rattle.jsonptr_patch.specs.Apart.{Diverges, AllDiverge, pointers};
ghost use Rattle.jsonptr_patch.specs.Inverse.{TakesAddBack, TakesBack, TakesMoveBack, TakesAllBack, TakesAllBackBy};
ghost use Rattle.jsonptr_patch_journal.specs.Changes.{IsThere, TakesAt};
ghost use Rattle.jsonptr_patch_journal.specs.Location.{path_of, contents_of};
ghost use Rattle.jsonptr_patch.specs.Operating.{IsProperPrefix, AppliesBy, RefusesAdd, RefusesMove, RefusesTarget, RefusesOperationBy, RestoresAt};
ghost use Rattle.jsonptr_patch.specs.Order.{OperationHasSortedKeys};
ghost use Rattle.jsonptr_patch.specs.Patching.{Patches, PatchesBy, FailsBy, RefusesPatch, RefusesPatchBy};
ghost use Rattle.jsonptr_patch.specs.PrivateInverse.{AppendsBack, AppendsBackOf, IsPlaceBack, StaySorted, RefusesChange};
ghost use Rattle.jsonptr_patch.specs.PrivateLater.{paths_of, IsPending, TakesPlace, StandsFor};
ghost use Rattle.jsonptr_patch.specs.PrivateRecording.{CanUndo, Records};
ghost use Rattle.jsonptr_patch.specs.declared.comparison.Comparison.{Comparison as SpecComparison};
ghost use Rattle.jsonptr_patch.specs.declared.failed_operation.PatchPointer.TheVariants as pointer;
ghost use Rattle.jsonptr_patch.specs.declared.operation.Operation.{Operation as SpecOperation};
ghost use Rattle.jsonptr_patch.specs.declared.operation.Operation.TheVariants as variant;

use crate::add::target_of;
use crate::apart::diverge;
use crate::comparison::Comparison;
use crate::copy::copy_of;
use crate::failed_operation::{FailedOperation, PatchPointer, without_pointer};
use crate::later::{make_apart, record_apart, take_place, unlink};
use crate::move_value::is_proper_prefix;
use crate::operation::{Operation, PatchError};
use crate::target::target;
use crate::turn::{Run, Turn};
use jsonptr::{Fault, Pointer, PointerBuf, Token};
use jsonptr_patch_journal::addition::Target;
use jsonptr_patch_journal::location::Location;
use jsonptr_patch_journal::removal::{Taken, remove, undo_removal};
use serde_json::Value;
use std::alloc::{AllocError, Global};

/// Applies the operations in order, as [`apply`](crate::apply) does, and returns the operations that
/// take them back: applied to the new document they make the old one.
///
/// | Operation | What takes it back |
/// |---|---|
/// | a removal | an `add` with the old value |
/// | an addition, a copy | a `remove`, or a `replace` with the value that was replaced |
/// | a replacement | a `replace` with the old value |
/// | a move | a `move` back, then an `add` of the member that was replaced, if any |
/// | a test | nothing |
///
/// Only the order of the members in their values is not determined by document and patch
/// ([`inverse_law`](crate::laws::inverse::inverse_law)).
///
/// Each value that is removed or replaced is cloned once, and a value that is moved is not. Three moves
/// have no move back, and are taken back by what takes back the removal and the addition, which clones the
/// value: one to a location above its source, one that replaces a member without diverging from its source
/// at an object, and one of the root to itself.
///
/// Otherwise it costs what [`apply`](crate::apply) costs. A move between two pointers that do not diverge
/// at an object removes the value twice.
///
/// If the keys of each object are in ascending order in the document and in the values that are moved
/// into it, they are so in the new document and in the values of the inverse.
///
/// ```rust
/// let mut document = json!(in alloc; {"draft": 1, "title": 2})?;
/// let from = PointerBuf::from_text(alloc, "/draft")?;
/// let path = PointerBuf::from_text(alloc, "/title")?;
/// let patch = vec![in alloc; Operation::Move { from, path }]?;
/// let back = apply_with_inverse(alloc, &mut document, patch)?;
/// assert_eq!(rt; document.to_string(alloc)?.as_str(), r#"{"title":1}"#);
/// apply(alloc, &mut document, back)?;
/// assert_eq!(rt; document.to_string(alloc)?.as_str(), r#"{"draft":1,"title":2}"#);
/// ```
///
/// # Errors
///
/// Those of [`apply`](crate::apply). The document is unchanged.
pub fn apply_with_inverse(
    alloc: Global,
    document: &mut Value,
    patch: Vec<Operation>,
) -> Result<Vec<Operation>, Fault<PatchError>>
    ensures applied { IfOk result (λ _.
        Patches (nodes (view document.old)) patch.items (nodes (view document.new))) }
    ensures sorted { IfOk result (λ _. All OperationHasSortedKeys patch.items
        → HasSortedKeys (view document.old) → HasSortedKeys (view document.new)) }
    ensures inverse { IfOk result (λ back.
        Patches (nodes (view document.new)) back.items (nodes (view document.old))) }
    ensures taken_back { IfOk result (λ back.
        TakesAllBack (nodes (view document.old)) patch.items back.items) }
    ensures inverse_sorted { IfOk result (λ back. All OperationHasSortedKeys patch.items
        → HasSortedKeys (view document.old) → All OperationHasSortedKeys back.items) }
    ensures empty { patch.items ≡ [] → IsOk result }
    ensures refused { IfRefused result (RefusesPatch (nodes (view document.old)) patch.items) }
    ensures unchanged { OnErr result (view document.new ≡ view document.old) }
{
    apply_comparing_with_inverse(alloc, document, patch, Comparison::Strict)
}

/// Applies the operations in order, as [`apply_comparing`](crate::apply_comparing) does, and returns the
/// operations that take them back, as [`apply_with_inverse`] does.
///
/// They contain no test. So [`apply`](crate::apply) takes the patch back, however its tests compare
/// numbers.
///
/// ```rust
/// let mut document = json!(in alloc; [1])?;
/// let path = PointerBuf::from_text(alloc, "/0")?;
/// let value = json!(in alloc; 1.0)?;
/// let test = Operation::Test { path: path.clone()?, value };
/// let patch = vec![in alloc; test, Operation::Remove { path }]?;
/// let back = apply_comparing_with_inverse(alloc, &mut document, patch, Comparison::Numeric)?;
/// apply(alloc, &mut document, back)?;
/// assert_eq!(rt; document.to_string(alloc)?.as_str(), "[1]");
/// ```
///
/// # Errors
///
/// Those of [`apply_comparing`](crate::apply_comparing). The document is unchanged.
pub fn apply_comparing_with_inverse(
    alloc: Global,
    document: &mut Value,
    patch: Vec<Operation>,
    comparison: Comparison,
) -> Result<Vec<Operation>, Fault<PatchError>>
    ensures applied { IfOk result (λ _.
        PatchesBy comparison (nodes (view document.old)) patch.items (nodes (view document.new))) }
    ensures sorted { IfOk result (λ _. All OperationHasSortedKeys patch.items
        → HasSortedKeys (view document.old) → HasSortedKeys (view document.new)) }
    ensures inverse { IfOk result (λ back.
        Patches (nodes (view document.new)) back.items (nodes (view document.old))) }
    ensures taken_back { IfOk result (λ back.
        TakesAllBackBy comparison (nodes (view document.old)) patch.items back.items) }
    ensures inverse_sorted { IfOk result (λ back. All OperationHasSortedKeys patch.items
        → HasSortedKeys (view document.old) → All OperationHasSortedKeys back.items) }
    ensures empty { patch.items ≡ [] → IsOk result }
    ensures refused { IfRefused result
        (RefusesPatchBy comparison (nodes (view document.old)) patch.items) }
    ensures unchanged { OnErr result (view document.new ≡ view document.old) }
{
    match apply_naming_pointer_with_inverse(alloc, document, patch, comparison) {
        Ok(back) => Ok(back),
        Err(fault) => Err(without_pointer(fault)),
    }
}

/// Applies the operations in order, as [`apply_comparing_with_inverse`] does, and names the pointer at fault
/// of an operation that fails.
///
/// ```rust
/// let mut document = json!(in alloc; {"size": 3})?;
/// let from = PointerBuf::from_text(alloc, "/length")?;
/// let path = PointerBuf::from_text(alloc, "/sizes")?;
/// let patch = vec![in alloc; Operation::Copy { from, path }]?;
/// let applied = apply_naming_pointer_with_inverse(alloc, &mut document, patch, Comparison::Numeric);
/// let failed = applied.err().ok_or("an error")?.refused()?;
/// assert_eq!(rt; failed.pointer, Some(PatchPointer::From));
/// ```
///
/// # Errors
///
/// Those of [`apply_naming_pointer`](crate::apply_naming_pointer). The document is unchanged.
pub fn apply_naming_pointer_with_inverse(
    alloc: Global,
    document: &mut Value,
    patch: Vec<Operation>,
    comparison: Comparison,
) -> Result<Vec<Operation>, Fault<FailedOperation>>
    ensures applied { IfOk result (λ _.
        PatchesBy comparison (nodes (view document.old)) patch.items (nodes (view document.new))) }
    ensures sorted { IfOk result (λ _. All OperationHasSortedKeys patch.items
        → HasSortedKeys (view document.old) → HasSortedKeys (view document.new)) }
    ensures inverse { IfOk result (λ back.
        Patches (nodes (view document.new)) back.items (nodes (view document.old))) }
    ensures taken_back { IfOk result (λ back.
        TakesAllBackBy comparison (nodes (view document.old)) patch.items back.items) }
    ensures inverse_sorted { IfOk result (λ back. All OperationHasSortedKeys patch.items
        → HasSortedKeys (view document.old) → All OperationHasSortedKeys back.items) }
    ensures empty { patch.items ≡ [] → IsOk result }
    ensures refused { IfRefused result
        (FailsBy comparison (nodes (view document.old)) patch.items) }
    ensures unchanged { OnErr result (view document.new ≡ view document.old) }
{
    if patch.is_empty() {
        return Ok(Vec::new(alloc));
    }
    let first = Turn::first(alloc, comparison);
    let mut run = Run::new(alloc);
    match record_with_inverse(first, document, &mut run, patch) {
        Ok(back) => {
            run.journal.discard();
            Ok(back)
        }
        Err(fault) => {
            run.journal.undo(alloc, document);
            Err(fault)
        }
    }
}

/// Applies the operations, the first of which has this turn, records in the journal what undoes them, and
/// returns the operations that take them back.
///
/// # Errors
///
/// Those of [`apply_with_inverse`]. To undo the journal restores the document.
#[tactic(auto, using(crate::proofs::BackOrderLemmas::turned))]
fn record_with_inverse(
    first: Turn,
    document: &mut Value,
    run: &mut Run,
    operations: Vec<Operation>,
) -> Result<Vec<Operation>, Fault<FailedOperation>>
    requires start { first.number ≡ 0 }
    requires undone { CanUndo run.old.journal document.old }
    requires none { run.old.later.items ≡ [] }
    ensures applied { IfOk result (λ _.
        PatchesBy first.comparison (nodes (view document.old)) operations.items (nodes (view document.new))) }
    ensures sorted { IfOk result (λ _. All OperationHasSortedKeys operations.items
        → HasSortedKeys (view document.old) → HasSortedKeys (view document.new)) }
    ensures inverse { IfOk result (λ back.
        Patches (nodes (view document.new)) back.items (nodes (view document.old))) }
    ensures taken_back { IfOk result (λ back.
        TakesAllBackBy first.comparison (nodes (view document.old)) operations.items back.items) }
    ensures inverse_sorted { IfOk result (λ back. All OperationHasSortedKeys operations.items
        → HasSortedKeys (view document.old) → All OperationHasSortedKeys back.items) }
    ensures refused { IfRefused result (FailsBy first.comparison (nodes (view document.old)) operations.items) }
    ensures undone { OnErr result (Records run.old.journal document.old run.new.journal document.new) }
{
    let mut inverse = Vec::new(first.alloc);
    match record_each(first, document, run, &mut inverse, operations) {
        Ok(()) => {
            unlink(first.alloc, document, run);
            inverse.reverse();
            Ok(inverse)
        }
        Err(fault) => {
            discard_all(inverse);
            Err(fault)
        }
    }
}

/// Applies the operations, the first of which has this turn, and appends what takes them back, the last
/// operation first. Some nodes are left to be removed after all operations.
///
/// # Errors
///
/// Those of [`apply_with_inverse`]. To undo the journal restores the document.
fn record_each(
    first: Turn,
    document: &mut Value,
    run: &mut Run,
    inverse: &mut Vec<Operation>,
    operations: Vec<Operation>,
) -> Result<(), Fault<FailedOperation>>
    requires start { first.number ≡ 0 }
    requires undone { CanUndo run.old.journal document.old }
    requires none { run.old.later.items ≡ [] }
    requires first { inverse.old.items ≡ [] }
    ensures applied { IfOk result (λ _. (n : NodeMap)
        × PatchesBy first.comparison (nodes (view document.old)) operations.items n
        × IsPending (nodes (view document.new)) run.new.later.items n
        × TakesAllBackBy first.comparison (nodes (view document.old)) operations.items
        (reverse inverse.new.items)) }
    ensures sorted { IfOk result (λ _. All OperationHasSortedKeys operations.items
        → HasSortedKeys (view document.old) → HasSortedKeys (view document.new)) }
    ensures inverse_sorted { IfOk result (λ _. All OperationHasSortedKeys operations.items
        → HasSortedKeys (view document.old) → All OperationHasSortedKeys inverse.new.items) }
    ensures refused { IfRefused result (FailsBy first.comparison (nodes (view document.old)) operations.items) }
    ensures undone { Records run.old.journal document.old run.new.journal document.new }
{
    let mut number = first.number;
    for operation in operations {
        step(Turn { number, ..first }, document, run, inverse, operation)?;
        number += 1;
    }
    Ok(())
}

/// Applies the operation, records in the journal what undoes it, and appends what
/// takes it back, the last operation first.
///
/// # Errors
///
/// [`Fault::Refused`] if the operation fails, and [`Fault::Memory`] if an allocation fails. To undo
/// the journal restores the document.
fn step(
    turn: Turn,
    document: &mut Value,
    run: &mut Run,
    inverse: &mut Vec<Operation>,
    operation: Operation,
) -> Result<(), Fault<FailedOperation>>
    requires undone { CanUndo run.old.journal document.old }
    requires pending { (n : NodeMap) × IsPending (nodes (view document.old)) run.old.later.items n }
    ensures applied { IfOk result (λ _. (n : NodeMap)
        → IsPending (nodes (view document.old)) run.old.later.items n
        → (m : NodeMap) × AppliesBy turn.comparison n operation m × IsPending (nodes (view document.new)) run.new.later.items m
        × AppendsBackOf n operation inverse.old.items inverse.new.items) }
    ensures sorted { IfOk result (λ _. OperationHasSortedKeys operation
        → HasSortedKeys (view document.old) → HasSortedKeys (view document.new)) }
    ensures inverse_sorted { IfOk result (λ _.
        StaySorted (view document.old) inverse.old.items inverse.new.items) }
    ensures refused { IfRefused result (λ e. (n : NodeMap)
        → IsPending (nodes (view document.old)) run.old.later.items n
        → RefusesOperationBy turn.comparison n turn.number operation e) }
    ensures undone { Records run.old.journal document.old run.new.journal document.new }
{
    settle_with_back(turn, document, run, inverse, &operation)?;
    record_apart(turn, document, run, operation)
}

/// Makes the operation apart from the nodes that are removed later, as [`settle`](crate::later::settle)
/// does, and appends what takes it back, the last operation first.
///
/// # Errors
///
/// [`Fault::Refused`] if the operation fails, and [`Fault::Memory`] if an allocation fails. To undo
/// the journal restores the document.
fn settle_with_back(
    turn: Turn,
    document: &mut Value,
    run: &mut Run,
    inverse: &mut Vec<Operation>,
    operation: &Operation,
) -> Result<(), Fault<FailedOperation>>
    requires undone { CanUndo run.old.journal document.old }
    requires pending { (n : NodeMap) × IsPending (nodes (view document.old)) run.old.later.items n }
    ensures apart { IfOk result (λ _. AllDiverge (nodes (view document.new)) (pointers operation.now)
        (paths_of run.new.later.items)) }
    ensures there { IfOk result (λ _. (n : NodeMap)
        → IsPending (nodes (view document.old)) run.old.later.items n
        → (k : NodeMap) × IsPending (nodes (view document.new)) run.new.later.items k
        × StandsFor k n operation.now) }
    ensures back { IfOk result (λ _. (c : SpecComparison) (n m : NodeMap)
        → IsPending (nodes (view document.old)) run.old.later.items n → AppliesBy c n operation.now m
        → AppendsBackOf n operation.now inverse.old.items inverse.new.items) }
    ensures sorted { IfOk result (λ _.
        HasSortedKeys (view document.old) → HasSortedKeys (view document.new)) }
    ensures inverse_sorted { IfOk result (λ _.
        StaySorted (view document.old) inverse.old.items inverse.new.items) }
    ensures refused { IfRefused result (λ e. (c : SpecComparison) (n : NodeMap)
        → IsPending (nodes (view document.old)) run.old.later.items n
        → RefusesOperationBy c n turn.number operation.now e) }
    ensures undone { Records run.old.journal document.old run.new.journal document.new }
{
    if take_place(turn.alloc, document, &mut run.later, operation) {
        append_place_back(inverse, operation)?;
        return Ok(());
    }
    make_apart(turn.alloc, document, run, operation)?;
    back_of(turn, document, inverse, operation)
}

/// Appends what takes back an operation that adds a value where there is none: a removal, or a move
/// back.
///
/// # Errors
///
/// [`AllocError`] if an allocation fails.
fn append_place_back(inverse: &mut Vec<Operation>, operation: &Operation) -> Result<(), AllocError>
    ensures back { IfOk result (λ _. (n : NodeMap) (tokens : List Text)
        → TakesPlace n operation.now tokens
        → (back : List SpecOperation) × IsPlaceBack operation.now back
        × AppendsBack inverse.old.items back inverse.new.items) }
    ensures sorted { IfOk result (λ _. All OperationHasSortedKeys inverse.old.items
        → All OperationHasSortedKeys inverse.new.items) }
{
    match operation {
        Operation::Add { path, .. } => {
            let path = path.clone()?;
            append(inverse, Operation::Remove { path })
        }
        Operation::Move { from, path } => {
            let location = path.clone()?;
            let back = from.clone()?;
            append(
                inverse,
                Operation::Move {
                    from: location,
                    path: back,
                },
            )
        }
        Operation::Copy { path, .. } => {
            let path = path.clone()?;
            append(inverse, Operation::Remove { path })
        }
        _ => Ok(()),
    }
}

/// Appends what takes back the operation, the last operation first.
///
/// # Errors
///
/// [`Fault::Refused`] if the operation fails, and [`Fault::Memory`] if an allocation fails.
fn back_of(
    turn: Turn,
    document: &mut Value,
    inverse: &mut Vec<Operation>,
    operation: &Operation,
) -> Result<(), Fault<FailedOperation>>
    ensures back { IfOk result (λ _. (back : List SpecOperation)
        × TakesBack (nodes (view document.old)) operation.now back
        × AppendsBack inverse.old.items back inverse.new.items) }
    ensures inverse_sorted { IfOk result (λ _.
        StaySorted (view document.old) inverse.old.items inverse.new.items) }
    ensures refused { IfRefused result (RefusesChange (nodes (view document.old)) turn.number operation.now) }
    ensures unchanged { view document.new ≡ view document.old }
{
    match operation {
        Operation::Add { path, .. } => {
            let back = back_of_add(turn, document, path.as_ptr())?;
            append(inverse, back)?;
            Ok(())
        }
        Operation::Remove { path } => {
            let path = path.clone()?;
            let value = copy_of(turn, document, PatchPointer::Path, path.as_ptr())?;
            append(inverse, Operation::Add { path, value })?;
            Ok(())
        }
        Operation::Replace { path, .. } => {
            let path = path.clone()?;
            let value = copy_of(turn, document, PatchPointer::Path, path.as_ptr())?;
            append(inverse, Operation::Replace { path, value })?;
            Ok(())
        }
        Operation::Move { from, path } => {
            back_of_move(turn, document, inverse, from.as_ptr(), path.as_ptr())
        }
        Operation::Copy { from, path } => {
            target(turn, document, PatchPointer::From, from.as_ptr())?;
            let back = back_of_add(turn, document, path.as_ptr())?;
            append(inverse, back)?;
            Ok(())
        }
        Operation::Test { .. } => Ok(()),
    }
}

/// Returns the operation that takes back an addition at the pointer.
///
/// # Errors
///
/// [`Fault::Refused`] if nothing can be added there, and [`Fault::Memory`] if an allocation fails.
fn back_of_add(
    turn: Turn,
    document: &Value,
    path: Pointer<'_>,
) -> Result<Operation, Fault<FailedOperation>>
    ensures back { IfOk result (TakesAddBack (nodes (view document.now)) (tokens path.entry)) }
    ensures sorted { IfOk result (λ back.
        HasSortedKeys (view document.now) → OperationHasSortedKeys back) }
    ensures refused { IfRefused result
        (RefusesAdd (nodes (view document.now)) turn.number (tokens path.entry)) }
{
    match target_of(turn, document, path)? {
        Target::Root => Ok(Operation::Replace {
            path: path.to_buf(turn.alloc)?,
            value: jsonptr_value::copy(turn.alloc, document)?,
        }),
        Target::Member { .. } => match path.resolve(turn.alloc, document) {
            Ok(old) => Ok(Operation::Replace {
                path: path.to_buf(turn.alloc)?,
                value: jsonptr_value::copy(turn.alloc, old)?,
            }),
            Err(Fault::Refused(_)) => Ok(Operation::Remove {
                path: path.to_buf(turn.alloc)?,
            }),
            Err(Fault::Memory(error)) => Err(Fault::Memory(error)),
        },
        Target::Element { index, .. } => Ok(Operation::Remove {
            path: element_path(turn.alloc, path, index)?,
        }),
    }
}

/// Returns the pointer with the index instead of its last token.
///
/// # Errors
///
/// [`AllocError`] if an allocation fails.
fn element_path(alloc: Global, path: Pointer<'_>, index: usize) -> Result<PointerBuf, AllocError>
    ensures { IfOk result (λ element. (front : List Text) (last : Text)
        → tokens path.entry ≡ front ++ last ∷ [] → element ≡ front ++ dec index ∷ []) }
{
    match path.split_back() {
        Some((front, _)) => front.with_trailing_token(alloc, Token::from_number(alloc, index)?),
        None => path.to_buf(alloc),
    }
}

/// Appends what takes back a move, the last operation first.
///
/// # Errors
///
/// [`Fault::Refused`] if `from` is a proper prefix of `path` or does not resolve to a value, or if
/// the value cannot be added. [`Fault::Memory`] if an allocation fails.
fn back_of_move(
    turn: Turn,
    document: &mut Value,
    inverse: &mut Vec<Operation>,
    from: Pointer<'_>,
    path: Pointer<'_>,
) -> Result<(), Fault<FailedOperation>>
    ensures back { IfOk result (λ _. (back : List SpecOperation)
        × TakesBack (nodes (view document.old)) (variant.Move (tokens from.entry) (tokens path.entry)) back
        × AppendsBack inverse.old.items back inverse.new.items) }
    ensures inverse_sorted { IfOk result (λ _.
        StaySorted (view document.old) inverse.old.items inverse.new.items) }
    ensures refused { IfRefused result (RefusesMove (nodes (view document.old)) turn.number
        (tokens from.entry) (tokens path.entry)) }
    ensures unchanged { view document.new ≡ view document.old }
{
    if is_proper_prefix(from, path) {
        return Err(Fault::Refused(FailedOperation::at_no_pointer(PatchError::MoveIntoSelf {
            operation: turn.number,
        })));
    }
    let location = target(turn, document, PatchPointer::From, from)?;
    let apart = diverge(turn.alloc, document, from, path)?;
    if apart {
        return back_of_diverging_move(turn, document, inverse, from, path);
    }
    let back = back_in_left(turn, document, location, path)?;
    append_reverse(turn, document, inverse, from, back)
}

/// Appends what takes back a move whose pointers diverge at an object, the last operation first.
///
/// # Errors
///
/// [`Fault::Refused`] if the value cannot be added, and [`Fault::Memory`] if an allocation fails.
fn back_of_diverging_move(
    turn: Turn,
    document: &Value,
    inverse: &mut Vec<Operation>,
    from: Pointer<'_>,
    path: Pointer<'_>,
) -> Result<(), Fault<FailedOperation>>
    requires { Diverges (nodes (view document.now)) (tokens from) (tokens path) }
    ensures back { IfOk result (λ _. (o : SpecOperation) × (back : List SpecOperation)
        × TakesAddBack (nodes (view document.now)) (tokens path.entry) o
        × TakesMoveBack (nodes (view document.now)) (tokens from.entry) (tokens path.entry) o back
        × AppendsBack inverse.old.items back inverse.new.items) }
    ensures inverse_sorted { IfOk result (λ _.
        StaySorted (view document.now) inverse.old.items inverse.new.items) }
    ensures refused { IfRefused result
        (RefusesAdd (nodes (view document.now)) turn.number (tokens path.entry)) }
{
    let back = from.to_buf(turn.alloc)?;
    let again = path.to_buf(turn.alloc)?;
    match back_of_add(turn, document, path)? {
        Operation::Remove { path: location } => {
            append(
                inverse,
                Operation::Move {
                    from: location,
                    path: back,
                },
            )?;
            Ok(())
        }
        Operation::Replace {
            path: location,
            value,
        } => {
            append(inverse, Operation::Add { path: again, value })?;
            append(
                inverse,
                Operation::Move {
                    from: location,
                    path: back,
                },
            )?;
            Ok(())
        }
        _other => unreachable!(),
    }
}

/// Returns the operation that takes back an addition at the pointer to what is left of the document without
/// the node at the location.
///
/// # Errors
///
/// [`Fault::Refused`] if nothing can be added there, and [`Fault::Memory`] if an allocation fails.
///
/// # Conditions
///
/// The location is in the document.
fn back_in_left(
    turn: Turn,
    document: &mut Value,
    location: Location,
    path: Pointer<'_>,
) -> Result<Operation, Fault<FailedOperation>>
    requires { IsThere (path_of location) (contents_of document.old) }
    ensures back { IfOk result (λ back. (v left : Content)
        × TakesAt (path_of location) v (contents_of document.old) left
        × TakesAddBack (map_of left) (tokens path.entry) back) }
    ensures sorted { IfOk result (λ back.
        HasSortedKeys (view document.old) → OperationHasSortedKeys back) }
    ensures refused { IfRefused result (λ e. (v left : Content)
        × TakesAt (path_of location) v (contents_of document.old) left
        × RefusesAdd (map_of left) turn.number (tokens path.entry) e) }
    ensures unchanged { view document.new ≡ view document.old }
{
    let Taken { value, removal } = remove(turn.alloc, document, location)?;
    let back = back_of_add(turn, document, path);
    undo_removal(turn.alloc, document, removal, value);
    back
}

/// Appends what takes back a move from the pointer, the last operation first. `back` takes back the
/// addition of the value.
///
/// # Errors
///
/// [`Fault::Refused`] if the pointer does not resolve to a value, and [`Fault::Memory`] if an
/// allocation fails.
fn append_reverse(
    turn: Turn,
    document: &Value,
    inverse: &mut Vec<Operation>,
    from: Pointer<'_>,
    back: Operation,
) -> Result<(), Fault<FailedOperation>>
    ensures back { IfOk result (λ _. (path : List Text)
        → (Diverges (nodes (view document.now)) (tokens from.entry) path → ⊥)
        → (reverse : List SpecOperation)
        × TakesMoveBack (nodes (view document.now)) (tokens from.entry) path back reverse
        × AppendsBack inverse.old.items reverse inverse.new.items) }
    ensures sorted { IfOk result (λ _. OperationHasSortedKeys back
        → StaySorted (view document.now) inverse.old.items inverse.new.items) }
    ensures refused { IfRefused result
        (RefusesTarget (nodes (view document.now)) turn.number pointer.From (tokens from.entry)) }
{
    match location_of(back, from) {
        Ok(location) => {
            let path = from.to_buf(turn.alloc)?;
            append(
                inverse,
                Operation::Move {
                    from: location,
                    path,
                },
            )?;
            Ok(())
        }
        Err(back) => match addition_at(turn, document, from) {
            Ok(again) => {
                append_both(inverse, again, back)?;
                Ok(())
            }
            Err(fault) => {
                back.discard();
                Err(fault)
            }
        },
    }
}

/// Returns the addition of a copy of the value that the pointer resolves to, at the pointer.
///
/// # Errors
///
/// [`Fault::Refused`] if the pointer does not resolve to a value, and [`Fault::Memory`] if an
/// allocation fails.
fn addition_at(
    turn: Turn,
    document: &Value,
    from: Pointer<'_>,
) -> Result<Operation, Fault<FailedOperation>>
    ensures restores { IfOk result
        (RestoresAt (nodes (view document.now)) (tokens from.entry)) }
    ensures sorted { IfOk result (λ again.
        HasSortedKeys (view document.now) → OperationHasSortedKeys again) }
    ensures refused { IfRefused result
        (RefusesTarget (nodes (view document.now)) turn.number pointer.From (tokens from.entry)) }
{
    let path = from.to_buf(turn.alloc)?;
    let value = copy_of(turn, document, PatchPointer::From, from)?;
    Ok(Operation::Add { path, value })
}

/// Returns the pointer from which the value can be moved back to `from`: `back` removes it there, and
/// that is not above `from`.
///
/// # Errors
///
/// The operation, if there is no such pointer.
fn location_of(back: Operation, from: Pointer<'_>) -> Result<PointerBuf, Operation>
    ensures location { IfOk result (λ location.
        (back ≡ variant.Remove location) × (IsProperPrefix location (tokens from.entry) → ⊥)) }
    ensures returned { IfErr result (λ other. (other ≡ back) × ((location : List Text)
        → back ≡ variant.Remove location → IsProperPrefix location (tokens from.entry))) }
{
    match back {
        Operation::Remove { path: location } => {
            if is_proper_prefix(location.as_ptr(), from) {
                return Err(Operation::Remove { path: location });
            }
            Ok(location)
        }
        other => Err(other),
    }
}

/// Appends an operation.
///
/// # Errors
///
/// [`AllocError`] if an allocation fails.
fn append(inverse: &mut Vec<Operation>, back: Operation) -> Result<(), AllocError>
    ensures { IfOk result (λ _. inverse.new.items ≡ inverse.old.items ++ back ∷ []) }
{
    match inverse.push(back) {
        Ok(()) => Ok(()),
        Err(failed) => {
            failed.value.discard();
            Err(AllocError)
        }
    }
}

/// Appends two operations.
///
/// # Errors
///
/// [`AllocError`] if an allocation fails.
fn append_both(
    inverse: &mut Vec<Operation>,
    first: Operation,
    second: Operation,
) -> Result<(), AllocError>
    ensures { IfOk result (λ _. inverse.new.items
        ≡ (inverse.old.items ++ first ∷ []) ++ second ∷ []) }
{
    match append(inverse, first) {
        Ok(()) => append(inverse, second),
        Err(error) => {
            second.discard();
            Err(error)
        }
    }
}

/// Drops the operations and the values in them, however deep they nest.
fn discard_all(operations: Vec<Operation>) {
    for operation in operations {
        operation.discard();
    }
}
