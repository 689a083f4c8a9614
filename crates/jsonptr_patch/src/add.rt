//! The operation `add` (RFC 6902, section 4.1).
ghost use Rattle.std.specs.Prelude.{◌≡◌, ◌∷◌, [], ◌++◌, Some, IfOk, IfErr, OnErr};
ghost use Rattle.serde_json.specs.View.{view};
ghost use Rattle.jsonptr.specs.Fault.{IfRefused};
ghost use Rattle.jsonptr.specs.Node.{Path, NodeMap, Names, an_array};
ghost use Rattle.jsonptr.specs.Json.{nodes, HasSortedKeys};
ghost use Rattle.jsonptr.specs.Pointer.{tokens};
ghost use Rattle.jsonptr.specs.Assign.{RefusesAssign};
ghost use Rattle.jsonptr_patch.specs.Adding.{MeansPlace, Adds};
ghost use Rattle.jsonptr_patch.specs.Operating.{RefusesAdd};
ghost use Rattle.jsonptr_patch.specs.PrivateAdding.{IsPlace};
ghost use Rattle.jsonptr_patch.specs.PrivateRecording.{Records};

use crate::failed_operation::{FailedOperation, PatchPointer};
use crate::operation::PatchError;
use crate::target::no_target;
use crate::turn::Turn;
use jsonptr::{Fault, Pointer, Token, assign, resolve};
use jsonptr_document::document::{Document, Node};
use jsonptr_patch_journal::addition::{self, Target};
use jsonptr_patch_journal::journal::Journal;
use jsonptr_patch_journal::locate::locate;
use jsonptr_value::discard;
use jsonptr_walk::put::key_of;
use serde_json::Value;
use std::alloc::AllocError;

/// Adds a value at the pointer, for the operation of this turn.
///
/// # Errors
///
/// [`Fault::Refused`] if nothing can be added there, and [`Fault::Memory`] if an allocation fails.
/// The value is dropped.
pub fn add(
    turn: Turn,
    document: &mut Value,
    journal: &mut Journal,
    path: Pointer<'_>,
    value: Value,
) -> Result<(), Fault<FailedOperation>>
    ensures added { IfOk result (λ _. Adds (nodes (view document.old)) (tokens path.entry)
        (nodes (view value)) (nodes (view document.new))) }
    ensures sorted { IfOk result (λ _.
        HasSortedKeys (view value) → HasSortedKeys (view document.old) → HasSortedKeys (view document.new)) }
    ensures refused { IfRefused result
        (RefusesAdd (nodes (view document.old)) turn.number (tokens path.entry)) }
    ensures undone { Records journal.old document.old journal.new document.new }
{
    let target = match target_of(turn, document, path) {
        Ok(target) => target,
        Err(fault) => {
            discard(value);
            return Err(fault);
        }
    };
    journal.add(turn.alloc, document, target, value)?;
    Ok(())
}

/// Adds a value at the pointer, as [`add`] does, for the last operation of a patch.
///
/// # Errors
///
/// Those of [`add`]. The document is unchanged.
pub fn add_last(
    turn: Turn,
    document: &mut Value,
    path: Pointer<'_>,
    value: Value,
) -> Result<(), Fault<FailedOperation>>
    ensures added { IfOk result (λ _. Adds (nodes (view document.old)) (tokens path.entry)
        (nodes (view value)) (nodes (view document.new))) }
    ensures sorted { IfOk result (λ _.
        HasSortedKeys (view value) → HasSortedKeys (view document.old) → HasSortedKeys (view document.new)) }
    ensures refused { IfRefused result
        (RefusesAdd (nodes (view document.old)) turn.number (tokens path.entry)) }
    ensures unchanged { OnErr result (view document.new ≡ view document.old) }
{
    let target = match target_of(turn, document, path) {
        Ok(target) => target,
        Err(fault) => {
            discard(value);
            return Err(fault);
        }
    };
    match addition::add_last(turn.alloc, document, target, value) {
        Ok(()) => Ok(()),
        Err(failed) => {
            discard(failed.value);
            Err(Fault::Memory(AllocError))
        }
    }
}

/// Returns where a value that is added at the pointer goes: in an object under the last token as
/// its key, in an array at the index that the last token refers to.
///
/// # Errors
///
/// [`Fault::Refused`] if nothing can be added there, and [`Fault::Memory`] if an allocation fails.
pub fn target_of(
    turn: Turn,
    document: &Value,
    path: Pointer<'_>,
) -> Result<Target, Fault<FailedOperation>>
    ensures found { IfOk result (IsPlace (nodes (view document.now)) (tokens path.entry)) }
    ensures refused { IfRefused result
        (RefusesAdd (nodes (view document.now)) turn.number (tokens path.entry)) }
{
    let Some((front, last)) = path.split_back() else {
        return Ok(Target::Root);
    };
    let parent = match locate(turn.alloc, document, front) {
        Ok(parent) => parent,
        Err(fault) => return Err(no_target(turn.number, PatchPointer::Path, fault)),
    };
    match parent.node.node() {
        Node::Object(_) => Ok(Target::Member {
            object: parent.location,
            key: key_of(turn.alloc, &last)?,
        }),
        Node::Array(elements) => match insertion_index(front, &last, elements.len()) {
            Ok(index) => Ok(Target::Element {
                array: parent.location,
                index,
            }),
            Err(cause) => Err(Fault::Refused(FailedOperation::at_path(PatchError::BadPlace {
                operation: turn.number,
                cause,
            }))),
        },
        Node::Leaf => Err(Fault::Refused(FailedOperation::at_path(PatchError::NoTarget {
            operation: turn.number,
            cause: resolve::Error::Unreachable {
                position: front.count(),
                offset: front.len(),
            },
        }))),
    }
}

/// Returns the index that the token refers to in an array of this length, to which the pointer
/// `array` resolves.
///
/// # Errors
///
/// [`assign::Error`] if the token is neither `-` nor an index up to the length.
fn insertion_index(
    array: Pointer<'_>,
    last: &Token<'_>,
    length: usize,
) -> Result<usize, assign::Error>
    ensures index { IfOk result (MeansPlace length last.now) }
    ensures refused { IfErr result (λ e. (n : NodeMap) (w : Path)
        → Names n (tokens array.entry) w → n w ≡ Some (an_array length)
        → RefusesAssign n (tokens array.entry ++ last.now ∷ []) e) }
{
    match last.to_index() {
        Ok(index) => match index.for_len_incl(length) {
            Ok(index) => Ok(index),
            Err(source) => Err(assign::Error::OutOfBounds {
                position: array.count(),
                offset: array.len(),
                source,
            }),
        },
        Err(source) => Err(assign::Error::FailedToParseIndex {
            position: array.count(),
            offset: array.len(),
            source,
        }),
    }
}
