//! The operation `replace` (RFC 6902, section 4.3).
ghost use Rattle.std.specs.Prelude.{◌≡◌, IfOk, OnErr};
ghost use Rattle.serde_json.specs.View.{view};
ghost use Rattle.jsonptr.specs.Fault.{IfRefused, HasMemory};
ghost use Rattle.jsonptr.specs.Json.{nodes, HasSortedKeys};
ghost use Rattle.jsonptr.specs.Pointer.{tokens};
ghost use Rattle.jsonptr.specs.Resolve.{PutsAt};
ghost use Rattle.jsonptr.specs.Text.{HasNoTilde, text};
ghost use Rattle.jsonptr_patch.specs.Operating.{RefusesTarget};
ghost use Rattle.jsonptr_patch.specs.PrivateRecording.{Records};
ghost use Rattle.jsonptr_patch.specs.declared.failed_operation.PatchPointer.TheVariants as pointer;

use crate::failed_operation::{FailedOperation, PatchPointer};
use crate::target::{no_target, target};
use crate::turn::Turn;
use jsonptr::{Fault, Pointer, PointerBuf, ResolveMut};
use jsonptr_patch_journal::addition::replace_at;
use jsonptr_patch_journal::journal::{Entry, Journal};
use jsonptr_value::discard;
use serde_json::Value;
use std::alloc::Global;
use std::mem;

/// Replaces the value that the pointer resolves to, for the operation of this turn.
///
/// For a pointer without `~` the journal owns the pointer, and nothing is allocated except for its
/// entry.
///
/// # Errors
///
/// [`Fault::Refused`] if the pointer does not resolve to a value, and [`Fault::Memory`] if an
/// allocation fails. The new value is dropped.
pub fn replace(
    turn: Turn,
    document: &mut Value,
    journal: &mut Journal,
    path: PointerBuf,
    value: Value,
) -> Result<(), Fault<FailedOperation>>
    ensures replaced { IfOk result (λ _. PutsAt (nodes (view document.old)) path
        (nodes (view value)) (nodes (view document.new))) }
    ensures sorted { IfOk result (λ _.
        HasSortedKeys (view value) → HasSortedKeys (view document.old) → HasSortedKeys (view document.new)) }
    ensures refused { IfRefused result (RefusesTarget (nodes (view document.old)) turn.number pointer.Path path) }
    ensures undone { Records journal.old document.old journal.new document.new }
{
    if path.as_ptr().as_str().as_bytes().contains(&b'~') {
        return replace_located(turn, document, journal, path.as_ptr(), value);
    }
    replace_plain(turn, document, journal, path, value)
}

/// Replaces the value that the pointer resolves to, as [`replace`] does, by the pointer itself.
///
/// # Errors
///
/// Those of [`replace`].
///
/// # Conditions
///
/// The pointer has no `~`.
fn replace_plain(
    turn: Turn,
    document: &mut Value,
    journal: &mut Journal,
    path: PointerBuf,
    value: Value,
) -> Result<(), Fault<FailedOperation>>
    requires { HasNoTilde (text path) }
    ensures replaced { IfOk result (λ _. PutsAt (nodes (view document.old)) path
        (nodes (view value)) (nodes (view document.new))) }
    ensures sorted { IfOk result (λ _.
        HasSortedKeys (view value) → HasSortedKeys (view document.old) → HasSortedKeys (view document.new)) }
    ensures refused { IfRefused result (RefusesTarget (nodes (view document.old)) turn.number pointer.Path path) }
    ensures undone { Records journal.old document.old journal.new document.new }
{
    if let Err(error) = journal.reserve(turn.alloc) {
        discard(value);
        return Err(Fault::Memory(error));
    }
    match replace_at(document, &path, value) {
        Ok(old) => {
            journal.push(Entry::Replaced(path, old));
            Ok(())
        }
        Err(value) => replace_located(turn, document, journal, path.as_ptr(), value),
    }
}

/// Replaces the value that the pointer resolves to, as [`replace`] does, by its location, for any pointer.
///
/// # Errors
///
/// Those of [`replace`].
fn replace_located(
    turn: Turn,
    document: &mut Value,
    journal: &mut Journal,
    path: Pointer<'_>,
    value: Value,
) -> Result<(), Fault<FailedOperation>>
    ensures replaced { IfOk result (λ _. PutsAt (nodes (view document.old)) (tokens path.entry)
        (nodes (view value)) (nodes (view document.new))) }
    ensures sorted { IfOk result (λ _.
        HasSortedKeys (view value) → HasSortedKeys (view document.old) → HasSortedKeys (view document.new)) }
    ensures refused { IfRefused result
        (RefusesTarget (nodes (view document.old)) turn.number pointer.Path (tokens path.entry)) }
    ensures undone { Records journal.old document.old journal.new document.new }
{
    let location = match target(turn, document, PatchPointer::Path, path) {
        Ok(location) => location,
        Err(fault) => {
            discard(value);
            return Err(fault);
        }
    };
    journal.replace(turn.alloc, document, location, value)?;
    Ok(())
}

/// Replaces the value that the pointer resolves to, as [`replace`] does, for the last operation of a
/// patch.
///
/// # Errors
///
/// Those of [`replace`]. The document is unchanged.
pub fn replace_last(
    turn: Turn,
    document: &mut Value,
    path: Pointer<'_>,
    value: Value,
) -> Result<(), Fault<FailedOperation>>
    ensures replaced { IfOk result (λ _. PutsAt (nodes (view document.old)) (tokens path.entry)
        (nodes (view value)) (nodes (view document.new))) }
    ensures sorted { IfOk result (λ _.
        HasSortedKeys (view value) → HasSortedKeys (view document.old) → HasSortedKeys (view document.new)) }
    ensures refused { IfRefused result
        (RefusesTarget (nodes (view document.old)) turn.number pointer.Path (tokens path.entry)) }
    ensures unchanged { OnErr result (view document.new ≡ view document.old) }
    ensures no_memory { HasNoTilde (text (tokens path.entry)) → HasMemory result }
{
    match replace_resolved(turn.alloc, document, path, value) {
        Ok(old) => {
            discard(old);
            Ok(())
        }
        Err(fault) => Err(no_target(turn.number, PatchPointer::Path, fault)),
    }
}

/// Replaces the value that the pointer resolves to, in a document of any type, and returns the old value.
///
/// # Errors
///
/// Those of [`ResolveMut::resolve_mut`]. The document is unchanged, and the new value is dropped.
fn replace_resolved<D: ResolveMut>(
    alloc: Global,
    document: &mut D,
    pointer: Pointer<'_>,
    value: D::Value,
) -> Result<D::Value, Fault<D::Error>>
    ensures written { IfOk result (λ _.
        D.writes document.old (tokens pointer.entry) value document.new) }
    ensures refused { IfRefused result (D.refuses document.old (tokens pointer.entry)) }
    ensures unchanged { OnErr result (D.is_same document.old document.new) }
    ensures no_memory { D.needs_no_memory document.old (tokens pointer.entry) → HasMemory result }
{
    let node = document.resolve_mut(alloc, pointer)?;
    Ok(mem::replace(node, value))
}
