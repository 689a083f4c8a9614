//! The operation `move` (RFC 6902, section 4.4).
ghost use Rattle.std.specs.Prelude.{◌≡◌, ◌↔◌, IfOk, IfErr, OnErr, IsTrue};
ghost use Rattle.serde_json.specs.View.{view};
ghost use Rattle.jsonptr.specs.Fault.{IfRefused, ForRefused};
ghost use Rattle.jsonptr.specs.Json.{nodes, HasSortedKeys};
ghost use Rattle.jsonptr.specs.Pointer.{tokens};
ghost use Rattle.jsonptr_patch_journal.specs.Location.{path_of, contents_of};
ghost use Rattle.jsonptr_patch_journal.specs.Journal.{IsEntryOf};
ghost use Rattle.jsonptr_patch_journal.specs.Undoing.{IsAddition};
ghost use Rattle.jsonptr_patch.specs.Adding.{Adds};
ghost use Rattle.jsonptr_patch.specs.Apart.{Diverges};
ghost use Rattle.jsonptr_patch.specs.Operating.{Moves, IsProperPrefix, RefusesAdd, RefusesMove};
ghost use Rattle.jsonptr_patch.specs.PrivateLater.{IsMemberAt};
ghost use Rattle.jsonptr_patch.specs.PrivateRecording.{Records};

use crate::add::target_of;
use crate::failed_operation::{FailedOperation, PatchPointer};
use crate::later::moved_location;
use crate::operation::PatchError;
use crate::target::target;
use crate::turn::Turn;
use jsonptr::{Fault, Pointer};
use jsonptr_patch_journal::addition::{Addition, add, add_last};
use jsonptr_patch_journal::journal::{Entry, Journal};
use jsonptr_patch_journal::location::Location;
use jsonptr_patch_journal::removal::{Removal, Taken, blank, remove, remove_last, undo_removal};
use jsonptr_value::discard;
use serde_json::Value;
use std::alloc::{AllocError, AllocFailed};

/// Removes the value at `from` and adds it at `path`, for the operation of this turn.
///
/// # Errors
///
/// [`Fault::Refused`] if `from` is a proper prefix of `path` or does not resolve to a value, or if
/// the value cannot be added. [`Fault::Memory`] if an allocation fails.
pub fn move_value(
    turn: Turn,
    document: &mut Value,
    journal: &mut Journal,
    from: Pointer<'_>,
    path: Pointer<'_>,
) -> Result<(), Fault<FailedOperation>>
    ensures moved { IfOk result (λ _. Moves (nodes (view document.old)) (tokens from.entry)
        (tokens path.entry) (nodes (view document.new))) }
    ensures sorted { IfOk result (λ _.
        HasSortedKeys (view document.old) → HasSortedKeys (view document.new)) }
    ensures refused { IfRefused result (RefusesMove (nodes (view document.old)) turn.number
        (tokens from.entry) (tokens path.entry)) }
    ensures undone { Records journal.old document.old journal.new document.new }
{
    journal.reserve(turn.alloc)?;
    let entry = moved(turn, document, from, path)?;
    journal.push(entry);
    Ok(())
}

/// Moves a value, as [`move_value`] does, for the last operation of a patch. A member that is moved out
/// of an object costs what it changes if the pointers diverge at an object.
///
/// # Errors
///
/// Those of [`move_value`]. The document is unchanged.
pub fn move_last(
    turn: Turn,
    document: &mut Value,
    from: Pointer<'_>,
    path: Pointer<'_>,
) -> Result<(), Fault<FailedOperation>>
    ensures moved { IfOk result (λ _. Moves (nodes (view document.old)) (tokens from.entry)
        (tokens path.entry) (nodes (view document.new))) }
    ensures sorted { IfOk result (λ _.
        HasSortedKeys (view document.old) → HasSortedKeys (view document.new)) }
    ensures refused { IfRefused result (RefusesMove (nodes (view document.old)) turn.number
        (tokens from.entry) (tokens path.entry)) }
    ensures unchanged { OnErr result (view document.new ≡ view document.old) }
{
    match moved_location(turn.alloc, document, from, path) {
        Some(location) => move_member(turn, document, from, path, location),
        None => move_any(turn, document, from, path),
    }
}

/// Moves any value, as [`move_last`] does.
///
/// # Errors
///
/// Those of [`move_value`]. The document is unchanged.
fn move_any(
    turn: Turn,
    document: &mut Value,
    from: Pointer<'_>,
    path: Pointer<'_>,
) -> Result<(), Fault<FailedOperation>>
    ensures moved { IfOk result (λ _. Moves (nodes (view document.old)) (tokens from.entry)
        (tokens path.entry) (nodes (view document.new))) }
    ensures sorted { IfOk result (λ _.
        HasSortedKeys (view document.old) → HasSortedKeys (view document.new)) }
    ensures refused { IfRefused result (RefusesMove (nodes (view document.old)) turn.number
        (tokens from.entry) (tokens path.entry)) }
    ensures unchanged { OnErr result (view document.new ≡ view document.old) }
{
    moved(turn, document, from, path)?.discard();
    Ok(())
}

/// Moves the member at the location, as [`move_last`] does. It is `null` until the value is added.
///
/// # Errors
///
/// Those of [`move_value`]. The document is unchanged.
fn move_member(
    turn: Turn,
    document: &mut Value,
    from: Pointer<'_>,
    path: Pointer<'_>,
    location: Location,
) -> Result<(), Fault<FailedOperation>>
    requires diverges { Diverges (nodes (view document.old)) (tokens from) (tokens path) }
    requires member { IsMemberAt (nodes (view document.old)) (tokens from) (path_of location) }
    ensures moved { IfOk result (λ _. Moves (nodes (view document.old)) (tokens from.entry)
        (tokens path.entry) (nodes (view document.new))) }
    ensures sorted { IfOk result (λ _.
        HasSortedKeys (view document.old) → HasSortedKeys (view document.new)) }
    ensures refused { IfRefused result (RefusesMove (nodes (view document.old)) turn.number
        (tokens from.entry) (tokens path.entry)) }
    ensures unchanged { OnErr result (view document.new ≡ view document.old) }
{
    let Some(value) = blank(document, &location) else {
        return move_any(turn, document, from, path);
    };
    match add_taken_last(turn, document, path, value) {
        Ok(()) => {
            discard(remove_last(turn.alloc, document, location));
            Ok(())
        }
        Err(AddError { value, fault }) => {
            undo_removal(turn.alloc, document, Removal::Blank { location }, value);
            Err(fault)
        }
    }
}

/// Moves a value, as [`move_value`] does, and returns what undoes that.
///
/// # Errors
///
/// Those of [`move_value`]. The document is unchanged.
fn moved(
    turn: Turn,
    document: &mut Value,
    from: Pointer<'_>,
    path: Pointer<'_>,
) -> Result<Entry, Fault<FailedOperation>>
    ensures moved { IfOk result (λ _. Moves (nodes (view document.old)) (tokens from.entry)
        (tokens path.entry) (nodes (view document.new))) }
    ensures sorted { IfOk result (λ _.
        HasSortedKeys (view document.old) → HasSortedKeys (view document.new)) }
    ensures undone { IfOk result (λ entry.
        IsEntryOf entry (contents_of document.old) (contents_of document.new)) }
    ensures refused { IfRefused result (RefusesMove (nodes (view document.old)) turn.number
        (tokens from.entry) (tokens path.entry)) }
    ensures unchanged { OnErr result (view document.new ≡ view document.old) }
{
    if is_proper_prefix(from, path) {
        return Err(Fault::Refused(FailedOperation::at_no_pointer(PatchError::MoveIntoSelf {
            operation: turn.number,
        })));
    }
    let location = target(turn, document, PatchPointer::From, from)?;
    let Taken { value, removal } = remove(turn.alloc, document, location)?;
    match add_taken(turn, document, path, value) {
        Ok(addition) => Ok(Entry::Moved(removal, addition)),
        Err(AddError { value, fault }) => {
            undo_removal(turn.alloc, document, removal, value);
            Err(fault)
        }
    }
}

/// A value that could not be added, and why.
#[derive(Drop)]
pub struct AddError {
    /// The value.
    pub value: Value,
    /// Why it could not be added.
    pub fault: Fault<FailedOperation>,
}

impl From<AllocFailed<Value>> for AddError {
    ghost use Rattle.std.specs.Prelude.{◌≡◌};
    ghost use Rattle.std.specs.declared.alloc.AllocError.{AllocError};
    ghost use Rattle.jsonptr.specs.Types.Fault.TheVariants.{Memory};

    ghost from_gives = { λ failed error. (error.value ≡ failed.value)
        × ((e : AllocError) × (error.fault ≡ Memory e)) };

    fn from(failed: AllocFailed<Value>) -> AddError {
        AddError {
            value: failed.value,
            fault: Fault::Memory(AllocError),
        }
    }
}

/// Adds a value that was removed, and returns what undoes that.
///
/// # Errors
///
/// The value, if nothing can be added at the pointer or an allocation fails. The document is
/// unchanged.
#[inline(always)]
pub fn add_taken(
    turn: Turn,
    document: &mut Value,
    path: Pointer<'_>,
    value: Value,
) -> Result<Addition, AddError>
    ensures added { IfOk result (λ _. Adds (nodes (view document.old)) (tokens path.entry)
        (nodes (view value)) (nodes (view document.new))) }
    ensures sorted { IfOk result (λ _.
        HasSortedKeys (view value) → HasSortedKeys (view document.old) → HasSortedKeys (view document.new)) }
    ensures undone { IfOk result (λ addition.
        IsAddition addition (contents_of value) (contents_of document.old) (contents_of document.new)) }
    ensures returned { IfErr result (λ e. e.value ≡ value) }
    ensures refused { IfErr result (λ e. ForRefused e.fault
        (RefusesAdd (nodes (view document.old)) turn.number (tokens path.entry))) }
    ensures unchanged { OnErr result (contents_of document.new ≡ contents_of document.old) }
{
    match target_of(turn, document, path) {
        Ok(target) => Ok(add(turn.alloc, document, target, value)?),
        Err(fault) => Err(AddError { value, fault }),
    }
}

/// Adds a value that was removed, as [`add_taken`] does, and drops the one that it replaces, if any.
///
/// # Errors
///
/// Those of [`add_taken`]. The document is unchanged.
fn add_taken_last(
    turn: Turn,
    document: &mut Value,
    path: Pointer<'_>,
    value: Value,
) -> Result<(), AddError>
    ensures added { IfOk result (λ _. Adds (nodes (view document.old)) (tokens path.entry)
        (nodes (view value)) (nodes (view document.new))) }
    ensures sorted { IfOk result (λ _.
        HasSortedKeys (view value) → HasSortedKeys (view document.old) → HasSortedKeys (view document.new)) }
    ensures returned { IfErr result (λ e. e.value ≡ value) }
    ensures refused { IfErr result (λ e. ForRefused e.fault
        (RefusesAdd (nodes (view document.old)) turn.number (tokens path.entry))) }
    ensures unchanged { OnErr result (contents_of document.new ≡ contents_of document.old) }
{
    match target_of(turn, document, path) {
        Ok(target) => Ok(add_last(turn.alloc, document, target, value)?),
        Err(fault) => Err(AddError { value, fault }),
    }
}

/// Returns whether `prefix` is a proper prefix of `path`: a prefix with fewer tokens. Then nothing can be
/// moved from `prefix` to `path` (RFC 6902, section 4.4).
///
/// Needs no allocation.
///
/// # Examples
///
/// ```rust
/// assert!(rt; is_proper_prefix(Pointer::parse("/a")?, Pointer::parse("/a/b")?));
/// assert!(rt; !is_proper_prefix(Pointer::parse("/a")?, Pointer::parse("/ab")?));
/// ```
pub fn is_proper_prefix(prefix: Pointer<'_>, path: Pointer<'_>) -> bool
    ensures { IsTrue result ↔ IsProperPrefix (tokens prefix.entry) (tokens path.entry) }
{
    match path.strip_prefix(prefix) {
        Some(rest) => !rest.is_root(),
        None => false,
    }
}
