//! Removals that are made after all operations, when nothing can fail any more.
//!
//! To undo the removal of a member needs room for all members of its object. So where the later
//! operations allow it, the member stays, and is removed at the end. If it is moved, its value is taken,
//! and `null` is left instead.
ghost use Rattle.std.specs.Prelude.{◌≡◌, ◌≢◌, ◌∷◌, ◌++◌, ◌<◌, List, [], length, Some, Contains, IfOk, IfSome, IsOk, OnOk, OnErr, IsTrue, IsFalse, MatchOption};
ghost use Rattle.std.specs.Vec.{vec_capacity};
ghost use Rattle.serde_json.specs.View.{view};
ghost use Rattle.jsonptr.specs.Fault.{IfRefused, HasMemory};
ghost use Rattle.jsonptr.specs.Json.{nodes, HasSortedKeys};
ghost use Rattle.jsonptr.specs.Node.{key, Path, an_object, NodeMap, Names};
ghost use Rattle.jsonptr.specs.Pointer.{tokens};
ghost use Rattle.jsonptr.specs.Text.{Text, HasNoTilde, text};
ghost use Rattle.jsonptr_patch_journal.specs.Location.{path_of, contents_of};
ghost use Rattle.jsonptr_patch.specs.Apart.{Diverges, AllDiverge, pointers};
ghost use Rattle.jsonptr_patch.specs.Memory.{TestNeedsNoMemory};
ghost use Rattle.jsonptr_patch.specs.Operating.{Takes, Moves, Applies, AppliesBy, RefusesTarget, RefusesMove, RefusesOperation, RefusesOperationBy};
ghost use Rattle.jsonptr_patch.specs.Order.{OperationHasSortedKeys};
ghost use Rattle.jsonptr_patch.specs.Inverse.{HasObject};
ghost use Rattle.jsonptr_patch.specs.PrivateLater.{paths_of, IsKept, IsReached, IsPending, IsObjectAt, IsMemberAt, Forks, IsWaitingAt, TakesPlace, Frees, CanWait, StandsFor, IsSource};
ghost use Rattle.jsonptr_patch.specs.PrivateRecording.{CanUndo, Records};
ghost use Rattle.jsonptr_patch.specs.declared.failed_operation.PatchPointer.TheVariants as pointer;

use crate::apart::{fork, resolves_to_object};
use crate::drop::discard_small;
use crate::failed_operation::{FailedOperation, PatchPointer};
use crate::move_value::{AddError, add_taken, move_value};
use crate::operation::Operation;
use crate::patch::record;
use crate::target::{no_target, target};
use crate::turn::{Run, Turn};
use jsonptr::{Fault, Pointer, PointerBuf, Token};
use jsonptr_document::document::{Document, Node};
use jsonptr_patch_journal::addition::replace_at;
use jsonptr_patch_journal::journal::Entry;
use jsonptr_patch_journal::locate::locate;
use jsonptr_patch_journal::location::{Location, LocationStep};
use jsonptr_patch_journal::removal::{self, Removal, Taken, blank, undo_removal};
use jsonptr_walk::put::key_of;
use serde_json::Value;
use std::alloc::{AllocError, Global};
use std::mem;

/// A node that is to be removed after all operations. If its value was moved, it is `null`.
#[derive(Debug, Drop)]
pub struct Later {
    /// The pointer of the node.
    pub path: PointerBuf,
    /// Its location, if the pointer contains a `~`. To follow any other pointer needs no allocation.
    pub location: Option<Location>,
}

/// Returns whether the pointer resolves to an object. May return false if an allocation fails.
fn is_object(alloc: Global, document: &Value, pointer: Pointer<'_>) -> bool
    ensures { IsTrue result → IsObjectAt (nodes (view document.now)) (tokens pointer.entry) }
{
    if pointer.is_root() {
        return is_map(document);
    }
    matches!(resolves_to_object(alloc, document, pointer), Ok(true))
}

/// Returns whether the document is an object.
fn is_map(document: &Value) -> bool
    ensures { IsTrue result → nodes (view document.now) [] ≡ Some an_object }
{
    match document.node() {
        Node::Object(_) => true,
        _ => false,
    }
}

/// Returns the prefix at whose end two pointers diverge, as [`fork`] does. The parent of the first one is
/// `front`.
///
/// Two children of one node, which are the most common, cost less than others.
#[inline(always)]
fn fork_at<'a>(pointer: Pointer<'a>, front: Pointer<'a>, other: Pointer<'_>) -> Option<Pointer<'a>>
    requires { (last : Text) × (tokens pointer ≡ tokens front ++ last ∷ []) }
    ensures { IfSome result (λ common.
        Forks (tokens pointer.entry) (tokens other.entry) (tokens common)) }
{
    if is_beside(pointer, front, other) {
        return Some(front);
    }
    fork(pointer, other)
}

/// Returns whether the other pointer goes on from `front`, which is the parent of `pointer`, with
/// another token.
#[inline(always)]
fn is_beside(pointer: Pointer<'_>, front: Pointer<'_>, other: Pointer<'_>) -> bool
    requires { (last : Text) × (tokens pointer ≡ tokens front ++ last ∷ []) }
    ensures { IsTrue result → Forks (tokens pointer.entry) (tokens other.entry) (tokens front.entry) }
{
    if front.is_root() {
        return is_beside_at_root(pointer, other);
    }
    let Some(rest) = other.strip_prefix(front) else {
        return false;
    };
    if rest.is_root() {
        return false;
    }
    lacks_prefix(other, pointer)
}

/// Returns whether the first tokens of the two pointers differ, the first of which has only one.
#[inline(always)]
fn is_beside_at_root(pointer: Pointer<'_>, other: Pointer<'_>) -> bool
    requires { (last : Text) × (tokens pointer ≡ last ∷ []) }
    ensures { IsTrue result → Forks (tokens pointer.entry) (tokens other.entry) [] }
{
    if other.is_root() {
        return false;
    }
    lacks_prefix(other, pointer)
}

/// Returns whether the pointer does not begin with the tokens of `prefix`.
#[inline(always)]
fn lacks_prefix(pointer: Pointer<'_>, prefix: Pointer<'_>) -> bool
    ensures { IsTrue result
        → (rest : List Text) → tokens pointer.entry ≡ tokens prefix.entry ++ rest → ⊥ }
{
    let (text, start) = (pointer.as_str(), prefix.as_str());
    if text.len() <= start.len() {
        return differ(pointer, prefix);
    }
    match pointer.strip_prefix(prefix) {
        Some(_) => false,
        None => true,
    }
}

/// Returns whether the two pointers differ. A function of its own, so that proofs have its clause as a fact.
#[inline(always)]
fn differ(left: Pointer<'_>, right: Pointer<'_>) -> bool
    ensures { IsTrue result → tokens left.entry ≢ tokens right.entry }
{
    left != right
}

/// Returns whether the two pointers diverge at an object of the document. May return false if an
/// allocation fails.
fn diverges(alloc: Global, document: &Value, left: Pointer<'_>, right: Pointer<'_>) -> bool
    ensures { IsTrue result
        → Diverges (nodes (view document.now)) (tokens left.entry) (tokens right.entry) }
{
    match fork(left, right) {
        Some(common) => is_object(alloc, document, common),
        None => false,
    }
}

/// Returns whether the pointer resolves to an object, as `known` does.
#[inline(always)]
fn is_object_too(
    alloc: Global,
    document: &Value,
    known: Option<Pointer<'_>>,
    pointer: Pointer<'_>,
) -> bool
    requires { IfSome known (λ other. IsObjectAt (nodes (view document.now)) (tokens other)) }
    ensures { IsTrue result → IsObjectAt (nodes (view document.now)) (tokens pointer.entry) }
{
    match known {
        Some(other) => other == pointer || is_object(alloc, document, pointer),
        None => is_object(alloc, document, pointer),
    }
}

/// Returns whether the pointer diverges from those of all nodes that are removed later, at objects
/// of the document. May return false if an allocation fails.
///
/// Nodes of one object that follow one another cost one search for it.
fn diverges_from_all(alloc: Global, document: &Value, later: &[Later], pointer: Pointer<'_>) -> bool
    ensures apart { IsTrue result → AllDiverge (nodes (view document.now)) (tokens pointer.entry ∷ [])
        (paths_of later.now) }
    ensures empty { later.now ≡ [] → IsTrue result }
{
    let Some((front, _)) = pointer.split_back() else {
        return later.is_empty();
    };
    let mut known = None;
    for one in later {
        let Some(common) = fork_at(pointer, front, one.path.as_ptr()) else {
            return false;
        };
        if !is_object_too(alloc, document, known, common) {
            return false;
        }
        known = Some(common);
    }
    true
}

/// Returns whether both pointers diverge from those of all nodes that are removed later, at objects
/// of the document. May return false if an allocation fails.
fn both_diverge(
    alloc: Global,
    document: &Value,
    later: &[Later],
    from: Pointer<'_>,
    path: Pointer<'_>,
) -> bool
    ensures apart { IsTrue result → AllDiverge (nodes (view document.now))
        (tokens from.entry ∷ tokens path.entry ∷ []) (paths_of later.now) }
    ensures empty { later.now ≡ [] → IsTrue result }
{
    diverges_from_all(alloc, document, later, from)
        && diverges_from_all(alloc, document, later, path)
}

/// Returns whether each pointer of the operation diverges from those of all nodes that are removed
/// later. May return false if an allocation fails.
fn is_apart(alloc: Global, document: &Value, later: &[Later], operation: &Operation) -> bool
    ensures apart { IsTrue result → AllDiverge (nodes (view document.now)) (pointers operation.now)
        (paths_of later.now) }
    ensures empty { later.now ≡ [] → IsTrue result }
{
    match operation {
        Operation::Add { path, .. } => diverges_from_all(alloc, document, later, path.as_ptr()),
        Operation::Remove { path } => diverges_from_all(alloc, document, later, path.as_ptr()),
        Operation::Replace { path, .. } => diverges_from_all(alloc, document, later, path.as_ptr()),
        Operation::Move { from, path } => {
            both_diverge(alloc, document, later, from.as_ptr(), path.as_ptr())
        }
        Operation::Copy { from, path } => {
            both_diverge(alloc, document, later, from.as_ptr(), path.as_ptr())
        }
        Operation::Test { path, .. } => diverges_from_all(alloc, document, later, path.as_ptr()),
    }
}

/// Returns whether the parent of the pointer resolves to an object, which need not have the member. May
/// return false if an allocation fails.
fn has_object(alloc: Global, document: &Value, path: Pointer<'_>) -> bool
    ensures { IsTrue result → HasObject (nodes (view document.now)) (tokens path.entry) }
{
    match path.split_back() {
        Some((front, _)) => is_object(alloc, document, front),
        None => false,
    }
}

/// Returns the index of the node whose pointer this is, or `None` if there is none.
fn index_of(later: &[Later], path: &PointerBuf) -> Option<usize>
    ensures { IfSome result (λ i. IsWaitingAt later.now i path.now) }
{
    for (index, one) in later.iter().enumerate() {
        if one.path == *path {
            return Some(index);
        }
    }
    None
}

/// Returns the index of the node that the operation replaces, or `None` if there is none. May
/// return `None` if an allocation fails.
fn replaced(
    alloc: Global,
    document: &Value,
    later: &[Later],
    operation: &Operation,
) -> Option<usize>
    ensures { IfSome result (λ i. (path : List Text) × IsWaitingAt later.now i path
        × HasObject (nodes (view document.now)) path
        × TakesPlace (nodes (view document.now)) operation.now path) }
{
    match operation {
        Operation::Add { path, .. } => member_at(alloc, document, later, path),
        Operation::Move { from, path } | Operation::Copy { from, path } => {
            let index = member_at(alloc, document, later, path)?;
            if !diverges(alloc, document, from.as_ptr(), path.as_ptr()) {
                return None;
            }
            Some(index)
        }
        _ => None,
    }
}

/// Returns the index of the node whose pointer this is, if it is a member of an object. May return
/// `None` if an allocation fails.
fn member_at(alloc: Global, document: &Value, later: &[Later], path: &PointerBuf) -> Option<usize>
    ensures { IfSome result (λ i. IsWaitingAt later.now i path.now
        × HasObject (nodes (view document.now)) path.now) }
{
    let index = index_of(later, path)?;
    if !has_object(alloc, document, path.as_ptr()) {
        return None;
    }
    Some(index)
}

/// Returns whether the operation adds a value at the location of a node that is removed later, and is
/// apart from the others. Then that removal waits no more: the value replaces what is there, the node or
/// the `null` that a move left.
///
/// May return false if an allocation fails.
pub fn take_place(
    alloc: Global,
    document: &Value,
    later: &mut Vec<Later>,
    operation: &Operation,
) -> bool
    ensures apart { IsTrue result → AllDiverge (nodes (view document.now)) (pointers operation.now)
        (paths_of later.new.items) }
    ensures frees { IsTrue result → (n : NodeMap)
        → IsPending (nodes (view document.now)) later.old.items n
        → (k : NodeMap) × IsPending (nodes (view document.now)) later.new.items k
        × Frees k n operation.now }
    ensures not_taken { IsFalse result → later.new.items ≡ later.old.items }
    ensures empty { later.old.items ≡ [] → later.new.items ≡ [] }
{
    let Some(index) = replaced(alloc, document, later.as_slice(), operation) else {
        return false;
    };
    let waiting = later.as_slice();
    let (before, _) = waiting.split_at(index);
    let (_, after) = waiting.split_at(index + 1);
    if !is_apart(alloc, document, before, operation) {
        return false;
    }
    if !is_apart(alloc, document, after, operation) {
        return false;
    }
    later.remove(index);
    true
}

/// Removes the nodes that were to be removed later, and records in the journal what undoes that.
///
/// # Errors
///
/// [`AllocError`] if an allocation fails. To undo the journal restores the document.
fn flush(alloc: Global, document: &mut Value, run: &mut Run) -> Result<(), AllocError>
    requires undone { CanUndo run.old.journal document.old }
    requires pending { (n : NodeMap) × IsPending (nodes (view document.old)) run.old.later.items n }
    ensures emptied { IfOk result (λ _. run.new.later.items ≡ []) }
    ensures same { IfOk result (λ _. (n : NodeMap)
        → IsPending (nodes (view document.old)) run.old.later.items n → n ≡ nodes (view document.new)) }
    ensures sorted { IfOk result (λ _.
        HasSortedKeys (view document.old) → HasSortedKeys (view document.new)) }
    ensures undone { Records run.old.journal document.old run.new.journal document.new }
{
    let waiting = mem::replace(&mut run.later, Vec::new(alloc));
    for one in waiting {
        let location = location_of(alloc, document, one)?;
        run.journal.remove(alloc, document, location)?;
    }
    Ok(())
}

/// Returns the location of a node that is removed later.
///
/// # Errors
///
/// [`AllocError`] if an allocation fails.
fn location_of(alloc: Global, document: &Value, one: Later) -> Result<Location, AllocError>
    requires { IsReached (nodes (view document.now)) one }
    ensures { IfOk result (λ here. Names (nodes (view document.now)) one.path (path_of here)) }
{
    let Later { path, location } = one;
    if let Some(location) = location {
        return Ok(location);
    }
    match locate(alloc, document, path.as_ptr()) {
        Ok(found) => Ok(found.location),
        Err(Fault::Memory(error)) => Err(error),
        Err(Fault::Refused(_)) => unreachable!(),
    }
}

/// Removes the nodes that were to be removed later.
///
/// Needs no allocation, and nothing undoes it.
///
/// # Conditions
///
/// The nodes that are removed later are in the document.
pub fn unlink(alloc: Global, document: &mut Value, run: &mut Run)
    requires { (n : NodeMap) × IsPending (nodes (view document.old)) run.old.later.items n }
    ensures same { (n : NodeMap)
        → IsPending (nodes (view document.old)) run.old.later.items n → n ≡ nodes (view document.new) }
    ensures sorted { HasSortedKeys (view document.old) → HasSortedKeys (view document.new) }
{
    let waiting = mem::replace(&mut run.later, Vec::new(alloc));
    for one in waiting {
        unlink_one(alloc, document, one);
    }
}

/// Removes a node that was to be removed later.
///
/// Needs no allocation, and nothing undoes it.
fn unlink_one(alloc: Global, document: &mut Value, one: Later)
    requires { IsReached (nodes (view document.old)) one }
    ensures removed { (v : NodeMap)
        × Takes (nodes (view document.old)) one.path v (nodes (view document.new)) }
    ensures sorted { HasSortedKeys (view document.old) → HasSortedKeys (view document.new) }
{
    let Later { path, location } = one;
    match location {
        Some(location) => discard_small(removal::remove_last(alloc, document, location)),
        None => delete_plain(alloc, document, path.as_ptr()),
    }
}

/// Deletes the value that the pointer resolves to.
///
/// Needs no allocation.
///
/// # Conditions
///
/// The pointer resolves to a value, and has no `~`.
fn delete_plain(alloc: Global, document: &mut Value, pointer: Pointer<'_>)
    requires plain { HasNoTilde (text (tokens pointer)) }
    requires named { (w : Path) × Names (nodes (view document.old)) (tokens pointer) w }
    ensures removed { (v : NodeMap)
        × Takes (nodes (view document.old)) (tokens pointer.entry) v (nodes (view document.new)) }
    ensures sorted { HasSortedKeys (view document.old) → HasSortedKeys (view document.new) }
{
    match pointer.delete(alloc, document) {
        Ok(Some(value)) => discard_small(value),
        Ok(None) => unreachable!(),
        Err(_) => unreachable!(),
    }
}

/// The number of nodes that wait to be removed. The pointers of an operation are compared with
/// theirs, so more would make it slower, and fewer would clone the keys of an object more often.
const MOST_LATER: usize = 1024;

/// Makes the operation apart from the nodes that are removed later, as [`make_apart`] does. If it adds
/// a value at the location of one of them, that one waits no more.
///
/// # Errors
///
/// [`AllocError`] if an allocation fails. To undo the journal restores the document.
///
/// # Conditions
///
/// The journal can be undone in the document, which has the nodes that are removed later.
pub fn settle(
    alloc: Global,
    document: &mut Value,
    run: &mut Run,
    operation: &Operation,
) -> Result<(), AllocError>
    requires undone { CanUndo run.old.journal document.old }
    requires pending { (n : NodeMap) × IsPending (nodes (view document.old)) run.old.later.items n }
    ensures apart { IfOk result (λ _. AllDiverge (nodes (view document.new)) (pointers operation.now)
        (paths_of run.new.later.items)) }
    ensures there { IfOk result (λ _. (n : NodeMap)
        → IsPending (nodes (view document.old)) run.old.later.items n
        → (k : NodeMap) × IsPending (nodes (view document.new)) run.new.later.items k
        × StandsFor k n operation.now) }
    ensures sorted { IfOk result (λ _.
        HasSortedKeys (view document.old) → HasSortedKeys (view document.new)) }
    ensures undone { Records run.old.journal document.old run.new.journal document.new }
    ensures no_memory { run.old.later.items ≡ [] → IsOk result }
    ensures none { run.old.later.items ≡ [] → run.new.later.items ≡ [] }
{
    if take_place(alloc, document, &mut run.later, operation) {
        return Ok(());
    }
    make_apart(alloc, document, run, operation)
}

/// Makes the operation apart from the nodes that are removed later: if it is not, or if too many are
/// waiting, they are removed now.
///
/// # Errors
///
/// [`AllocError`] if an allocation fails. To undo the journal restores the document.
///
/// # Conditions
///
/// The journal can be undone in the document, which has the nodes that are removed later.
pub fn make_apart(
    alloc: Global,
    document: &mut Value,
    run: &mut Run,
    operation: &Operation,
) -> Result<(), AllocError>
    requires undone { CanUndo run.old.journal document.old }
    requires pending { (n : NodeMap) × IsPending (nodes (view document.old)) run.old.later.items n }
    ensures apart { IfOk result (λ _. AllDiverge (nodes (view document.new)) (pointers operation.now)
        (paths_of run.new.later.items)) }
    ensures same { IfOk result (λ _. (n : NodeMap)
        → IsPending (nodes (view document.old)) run.old.later.items n
        → IsPending (nodes (view document.new)) run.new.later.items n) }
    ensures sorted { IfOk result (λ _.
        HasSortedKeys (view document.old) → HasSortedKeys (view document.new)) }
    ensures undone { Records run.old.journal document.old run.new.journal document.new }
    ensures no_memory { run.old.later.items ≡ [] → IsOk result }
    ensures none { run.old.later.items ≡ [] → run.new.later.items ≡ [] }
{
    if run.later.len() < MOST_LATER && is_apart(alloc, document, run.later.as_slice(), operation) {
        return Ok(());
    }
    flush(alloc, document, run)
}

/// The number of nodes for which there is room at first, so that few of them are moved when more wait.
const FIRST_LATER: usize = 16;

/// Makes room for one more node that is removed later.
///
/// # Errors
///
/// [`AllocError`] if the allocation fails.
fn make_room(later: &mut Vec<Later>) -> Result<(), AllocError>
    ensures room { OnOk result (length later.new.items < vec_capacity later.new) }
    ensures items { later.new.items ≡ later.old.items }
{
    if later.capacity() == 0 {
        return later.reserve_exact(FIRST_LATER);
    }
    later.reserve(1)
}

/// Removes the value that the pointer resolves to after all operations, for the operation of this turn.
/// Until then it stays in the document.
///
/// # Errors
///
/// [`Fault::Refused`] if the pointer does not resolve to a value, and [`Fault::Memory`] if an
/// allocation fails.
fn remove_later(
    turn: Turn,
    document: &Value,
    later: &mut Vec<Later>,
    path: PointerBuf,
) -> Result<(), Fault<FailedOperation>>
    requires apart { AllDiverge (nodes (view document.now)) (path ∷ []) (paths_of later.old.items) }
    requires member { HasObject (nodes (view document.now)) path }
    ensures removed { IfOk result (λ _. (n : NodeMap)
        → IsPending (nodes (view document.now)) later.old.items n
        → (m v : NodeMap) × Takes n path v m × IsPending (nodes (view document.now)) later.new.items m) }
    ensures refused { IfRefused result (RefusesTarget (nodes (view document.now)) turn.number pointer.Path path) }
{
    let location = reached(turn, document, &path)?;
    make_room(later)?;
    later.push_reserved(Later { path, location });
    Ok(())
}

/// Returns the location of the value that the pointer resolves to, if the pointer contains a `~`.
///
/// # Errors
///
/// [`Fault::Refused`] if the pointer does not resolve to a value, and [`Fault::Memory`] if an
/// allocation fails.
fn reached(
    turn: Turn,
    document: &Value,
    path: &PointerBuf,
) -> Result<Option<Location>, Fault<FailedOperation>>
    ensures kept { IfOk result (λ kept. IsKept kept (nodes (view document.now)) path.now) }
    ensures refused { IfRefused result (RefusesTarget (nodes (view document.now)) turn.number pointer.Path path.now) }
{
    if path.as_ptr().as_str().as_bytes().contains(&b'~') {
        let location = target(turn, document, PatchPointer::Path, path.as_ptr())?;
        return Ok(Some(location));
    }
    match path.as_ptr().resolve(turn.alloc, document) {
        Ok(_) => Ok(None),
        Err(fault) => Err(no_target(turn.number, PatchPointer::Path, fault)),
    }
}

/// Moves the value at `from` to `path`, for the operation of this turn, and removes its member
/// after all operations. It is `null` until then.
///
/// # Errors
///
/// [`Fault::Refused`] if `from` does not resolve to a value, or if the value cannot be added.
/// [`Fault::Memory`] if an allocation fails. To undo the journal restores the document.
fn move_later(
    turn: Turn,
    document: &mut Value,
    run: &mut Run,
    from: PointerBuf,
    path: Pointer<'_>,
) -> Result<(), Fault<FailedOperation>>
    requires apart { AllDiverge (nodes (view document.old)) (from ∷ tokens path ∷ [])
        (paths_of run.old.later.items) }
    requires diverges { Diverges (nodes (view document.old)) from (tokens path) }
    requires member { HasObject (nodes (view document.old)) from }
    ensures moved { IfOk result (λ _. (n : NodeMap)
        → IsPending (nodes (view document.old)) run.old.later.items n
        → (m : NodeMap) × Moves n from (tokens path.entry) m
        × IsPending (nodes (view document.new)) run.new.later.items m) }
    ensures sorted { IfOk result (λ _.
        HasSortedKeys (view document.old) → HasSortedKeys (view document.new)) }
    ensures refused { IfRefused result (λ e. (n : NodeMap)
        → IsPending (nodes (view document.old)) run.old.later.items n
        → RefusesMove n turn.number from (tokens path.entry) e) }
    ensures undone { Records run.old.journal document.old run.new.journal document.new }
{
    let kept = kept_location(turn.alloc, document, &from)?;
    make_room(&mut run.later)?;
    run.journal.reserve(turn.alloc)?;
    let source = take_source(turn.alloc, document, &from)?;
    match source {
        Some(Taken { value, removal }) => match add_taken(turn, document, path, value) {
            Ok(addition) => {
                run.journal.push(Entry::Moved(removal, addition));
                run.later.push_reserved(Later {
                    path: from,
                    location: kept,
                });
                Ok(())
            }
            Err(AddError { value, fault }) => {
                undo_removal(turn.alloc, document, removal, value);
                Err(fault)
            }
        },
        None => move_value(turn, document, &mut run.journal, from.as_ptr(), path),
    }
}

/// Takes the value that the pointer resolves to, and leaves `null` there. Returns `None` if it does not
/// resolve; the document is then unchanged.
///
/// # Errors
///
/// [`AllocError`] if an allocation fails. The document is unchanged.
fn take_source(
    alloc: Global,
    document: &mut Value,
    from: &PointerBuf,
) -> Result<Option<Taken>, AllocError>
    requires { HasObject (nodes (view document.old)) from.now }
    ensures taken { IfOk result (λ source. IsSource source from.now
        (contents_of document.old) (contents_of document.new)) }
    ensures unchanged { OnErr result (contents_of document.new ≡ contents_of document.old) }
{
    if from.as_ptr().as_str().as_bytes().contains(&b'~') {
        return take_located(alloc, document, from);
    }
    let path = from.clone()?;
    Ok(take_plain(document, path))
}

/// Takes the value that the pointer resolves to, as [`take_source`] does, by the pointer itself.
///
/// # Conditions
///
/// The pointer has no `~`.
fn take_plain(document: &mut Value, path: PointerBuf) -> Option<Taken>
    requires { HasNoTilde (text path) }
    ensures { IsSource result path (contents_of document.old) (contents_of document.new) }
{
    match replace_at(document, &path, Value::Null) {
        Ok(value) => Some(Taken {
            value,
            removal: Removal::BlankAt { pointer: path },
        }),
        Err(_) => None,
    }
}

/// Takes the value that the pointer resolves to, as [`take_source`] does, by its location.
///
/// # Errors
///
/// [`AllocError`] if an allocation fails. The document is unchanged.
fn take_located(
    alloc: Global,
    document: &mut Value,
    from: &PointerBuf,
) -> Result<Option<Taken>, AllocError>
    requires { HasObject (nodes (view document.old)) from.now }
    ensures taken { IfOk result (λ source. IsSource source from.now
        (contents_of document.old) (contents_of document.new)) }
    ensures unchanged { OnErr result (contents_of document.new ≡ contents_of document.old) }
{
    let Some(location) = member_location(alloc, document, from.as_ptr()) else {
        return Err(AllocError);
    };
    match blank(document, &location) {
        Some(value) => Ok(Some(Taken {
            value,
            removal: Removal::Blank { location },
        })),
        None => Ok(None),
    }
}

/// Returns the location of a node that is removed later, if its pointer contains a `~`.
///
/// # Errors
///
/// [`AllocError`] if an allocation fails.
fn kept_location(
    alloc: Global,
    document: &Value,
    path: &PointerBuf,
) -> Result<Option<Location>, AllocError>
    requires { HasObject (nodes (view document.now)) path.now }
    ensures { IfOk result (λ kept. MatchOption kept (HasNoTilde (text path.now))
        (λ here. IsMemberAt (nodes (view document.now)) path.now (path_of here))) }
{
    if !path.as_ptr().as_str().as_bytes().contains(&b'~') {
        return Ok(None);
    }
    match member_location(alloc, document, path.as_ptr()) {
        Some(location) => Ok(Some(location)),
        None => Err(AllocError),
    }
}

/// Returns the location of the member to which the pointer resolves, if its parent is an object. The
/// object need not have the member. May return `None` if an allocation fails.
fn member_location(alloc: Global, document: &Value, path: Pointer<'_>) -> Option<Location>
    ensures { IfSome result (λ here.
        IsMemberAt (nodes (view document.now)) (tokens path.entry) (path_of here)) }
{
    let (front, last) = path.split_back()?;
    let object = object_location(alloc, document, front)?;
    below(alloc, object, &last)
}

/// Returns the location of the object to which the pointer resolves, or `None` if it resolves to no
/// object. May return `None` if an allocation fails.
fn object_location(alloc: Global, document: &Value, pointer: Pointer<'_>) -> Option<Location>
    ensures { IfSome result (λ here.
        Names (nodes (view document.now)) (tokens pointer.entry) (path_of here)
        × (nodes (view document.now) (path_of here) ≡ Some an_object)) }
{
    match locate(alloc, document, pointer) {
        Ok(found) => match found.node.node() {
            Node::Object(_) => Some(found.location),
            _ => None,
        },
        Err(_) => None,
    }
}

/// Returns the location of the member of an object whose key is the token, or `None` if an
/// allocation fails.
fn below(alloc: Global, object: Location, last: &Token<'_>) -> Option<Location>
    ensures { IfSome result (λ here. path_of here ≡ path_of object ++ key last.now ∷ []) }
{
    let mut steps = object.steps;
    match key_of(alloc, last) {
        Ok(name) => match steps.push(LocationStep::Key(name)) {
            Ok(()) => Some(Location { steps }),
            Err(_) => None,
        },
        Err(_) => None,
    }
}

/// Returns whether the removal of the operation can wait until all operations are applied. The
/// parent of what it removes or moves resolves to an object, and the pointers of a move diverge at an
/// object. May return false if an allocation fails.
pub fn can_wait(alloc: Global, document: &Value, operation: &Operation) -> bool
    ensures { IsTrue result → CanWait (nodes (view document.now)) operation.now }
{
    match operation {
        Operation::Remove { path } => has_object(alloc, document, path.as_ptr()),
        Operation::Move { from, path } => {
            diverges_from_member(alloc, document, from.as_ptr(), path.as_ptr())
        }
        _ => false,
    }
}

/// Returns whether the parent of `from` resolves to an object, and the two pointers diverge at an object.
/// May return false if an allocation fails.
fn diverges_from_member(
    alloc: Global,
    document: &Value,
    from: Pointer<'_>,
    path: Pointer<'_>,
) -> bool
    ensures { IsTrue result → HasObject (nodes (view document.now)) (tokens from.entry)
        × Diverges (nodes (view document.now)) (tokens from.entry) (tokens path.entry) }
{
    let Some((front, _)) = from.split_back() else {
        return false;
    };
    if !is_object(alloc, document, front) {
        return false;
    }
    match fork_at(from, front, path) {
        Some(common) => is_object_too(alloc, document, Some(front), common),
        None => false,
    }
}

/// Returns the location of the member that a move removes, if the two pointers diverge at an object.
/// May return `None` if an allocation fails.
pub fn moved_location(
    alloc: Global,
    document: &Value,
    from: Pointer<'_>,
    path: Pointer<'_>,
) -> Option<Location>
    ensures member { IfSome result (λ here.
        IsMemberAt (nodes (view document.now)) (tokens from.entry) (path_of here)) }
    ensures diverges { IfSome result (λ _.
        Diverges (nodes (view document.now)) (tokens from.entry) (tokens path.entry)) }
{
    if !diverges(alloc, document, from, path) {
        return None;
    }
    member_location(alloc, document, from)
}

/// Applies an operation whose removal waits, and which is apart from the nodes that are removed
/// later.
///
/// # Errors
///
/// [`Fault::Refused`] if the operation fails, and [`Fault::Memory`] if an allocation fails. To undo
/// the journal restores the document.
fn wait(
    turn: Turn,
    document: &mut Value,
    run: &mut Run,
    operation: Operation,
) -> Result<(), Fault<FailedOperation>>
    requires apart { AllDiverge (nodes (view document.old)) (pointers operation)
        (paths_of run.old.later.items) }
    requires waits { CanWait (nodes (view document.old)) operation }
    ensures applied { IfOk result (λ _. (n : NodeMap)
        → IsPending (nodes (view document.old)) run.old.later.items n
        → (m : NodeMap) × Applies n operation m × IsPending (nodes (view document.new)) run.new.later.items m) }
    ensures sorted { IfOk result (λ _.
        HasSortedKeys (view document.old) → HasSortedKeys (view document.new)) }
    ensures refused { IfRefused result (λ e. (n : NodeMap)
        → IsPending (nodes (view document.old)) run.old.later.items n
        → RefusesOperation n turn.number operation e) }
    ensures undone { Records run.old.journal document.old run.new.journal document.new }
{
    match operation {
        Operation::Remove { path } => remove_later(turn, document, &mut run.later, path),
        Operation::Move { from, path } => { move_later(turn, document, run, from, path.as_ptr()) }
        Operation::Add { .. } => unreachable!(),
        Operation::Replace { .. } => unreachable!(),
        Operation::Copy { .. } => unreachable!(),
        Operation::Test { .. } => unreachable!(),
    }
}

/// Applies an operation that is apart from the nodes that are removed later, and records in the
/// journal what undoes it.
///
/// # Errors
///
/// [`Fault::Refused`] if the operation fails, and [`Fault::Memory`] if an allocation fails. To undo
/// the journal restores the document.
///
/// # Conditions
///
/// The journal can be undone in the document, and the operation is apart from the nodes that are
/// removed later.
pub fn record_apart(
    turn: Turn,
    document: &mut Value,
    run: &mut Run,
    operation: Operation,
) -> Result<(), Fault<FailedOperation>>
    requires undone { CanUndo run.old.journal document.old }
    requires apart { AllDiverge (nodes (view document.old)) (pointers operation)
        (paths_of run.old.later.items) }
    ensures applied { IfOk result (λ _. (n : NodeMap)
        → IsPending (nodes (view document.old)) run.old.later.items n
        → (m : NodeMap) × AppliesBy turn.comparison n operation m × IsPending (nodes (view document.new)) run.new.later.items m) }
    ensures sorted { IfOk result (λ _. OperationHasSortedKeys operation
        → HasSortedKeys (view document.old) → HasSortedKeys (view document.new)) }
    ensures refused { IfRefused result (λ e. (n : NodeMap)
        → IsPending (nodes (view document.old)) run.old.later.items n
        → RefusesOperationBy turn.comparison n turn.number operation e) }
    ensures undone { Records run.old.journal document.old run.new.journal document.new }
    ensures no_memory { TestNeedsNoMemory operation → HasMemory result }
    ensures none { TestNeedsNoMemory operation → run.new.later.items ≡ run.old.later.items }
{
    if can_wait(turn.alloc, document, &operation) {
        return wait(turn, document, run, operation);
    }
    record(turn, document, &mut run.journal, operation)
}

/// Applies the operation, and records in the journal what undoes it. A removal may
/// be made after all operations.
///
/// # Errors
///
/// [`Fault::Refused`] if the operation fails, and [`Fault::Memory`] if an allocation fails. To undo
/// the journal restores the document.
///
/// # Conditions
///
/// The journal can be undone in the document, which has the nodes that are removed later.
pub fn record_or_wait(
    turn: Turn,
    document: &mut Value,
    run: &mut Run,
    operation: Operation,
) -> Result<(), Fault<FailedOperation>>
    requires undone { CanUndo run.old.journal document.old }
    requires pending { (n : NodeMap) × IsPending (nodes (view document.old)) run.old.later.items n }
    ensures applied { IfOk result (λ _. (n : NodeMap)
        → IsPending (nodes (view document.old)) run.old.later.items n
        → (m : NodeMap) × AppliesBy turn.comparison n operation m × IsPending (nodes (view document.new)) run.new.later.items m) }
    ensures sorted { IfOk result (λ _. OperationHasSortedKeys operation
        → HasSortedKeys (view document.old) → HasSortedKeys (view document.new)) }
    ensures refused { IfRefused result (λ e. (n : NodeMap)
        → IsPending (nodes (view document.old)) run.old.later.items n
        → RefusesOperationBy turn.comparison n turn.number operation e) }
    ensures undone { Records run.old.journal document.old run.new.journal document.new }
    ensures no_memory { TestNeedsNoMemory operation → run.old.later.items ≡ [] → HasMemory result }
    ensures none { TestNeedsNoMemory operation → run.old.later.items ≡ [] → run.new.later.items ≡ [] }
{
    settle(turn.alloc, document, run, &operation)?;
    record_apart(turn, document, run, operation)
}
