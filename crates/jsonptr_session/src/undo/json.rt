//! Undo of assignments in JSON documents.
ghost use Rattle.std.specs.Prelude.{◌≡◌, IfOk, IfErr, OnErr};
ghost use Rattle.serde_json.specs.Data.{Data};
ghost use Rattle.serde_json.specs.View.{view};
ghost use Rattle.jsonptr.specs.Assign.{RefusesAssign};
ghost use Rattle.jsonptr.specs.Fault.{IfRefused, IsRefusedAnd};
ghost use Rattle.jsonptr.specs.Json.{nodes, HasSortedKeys};
ghost use Rattle.jsonptr.specs.Node.{NodeMap};
ghost use Rattle.jsonptr.specs.Pointer.{tokens};
ghost use Rattle.jsonptr.specs.Resolve.{Refuses};
ghost use Rattle.jsonptr.specs.Text.{HasNoTilde, text};
ghost use Rattle.jsonptr.specs.Documents.{json_map, json_blank};
ghost use Rattle.jsonptr_session.specs.Undo.{tokens_at, IfPut, IsUndoError, AssignsWithUndo, Undoes};

use crate::assign_undoable::{assign_undoable, take_back};
use crate::undo::{Undo, UndoRefused};
use jsonptr::{Fault, Pointer, assign};
use serde_json::Value;
use std::alloc::Global;

/// Assigns a value at the pointer, as [`Pointer::assign`] does, and returns how to undo that.
///
/// The undo is [`Undo::Put`] with the value that was replaced, or [`Undo::Remove`] if the location
/// is new. Its pointer refers to the location of the assigned value. For a new last element that is
/// the index of the element, and never `-`. A replaced value is moved and not copied. Takes the time
/// of an assignment, and that of a copy of the pointer.
///
/// If the keys of each object ascend in the document and in the value, as in parsed ones, [`undo`]
/// restores the old document.
///
/// ```rust
/// let mut document = json!(in alloc; {"sizes": [3]})?;
/// let pointer = Pointer::parse("/sizes/-")?;
/// let back = assign_with_undo(alloc, &mut document, pointer, Value::from(5))?;
/// assert_eq!(rt; document.to_string(alloc)?.as_str(), r#"{"sizes":[3,5]}"#);
/// assert!(rt; matches!(&back, Undo::Remove(at) if at.as_ptr().as_str() == "/sizes/1"));
/// ```
///
/// # Errors
///
/// [`Fault::Refused`] if the pointer reaches an array and its next token is neither `-` nor an
/// index up to the length. [`Fault::Memory`] if an allocation fails, including the one for the
/// pointer of the undo. The document is unchanged, and the value is dropped.
pub fn assign_with_undo(
    alloc: Global,
    doc: &mut Value,
    ptr: Pointer<'_>,
    value: Value,
) -> Result<Undo<Value>, Fault<assign::Error>>
    ensures assigned { IfOk result (AssignsWithUndo json_map (json_map doc.old) (tokens ptr.entry)
        (json_map value) (json_map doc.new)) }
    ensures inverse { IfOk result (λ u. (m : NodeMap)
        → Undoes json_map json_blank (json_map doc.new) u m → m ≡ json_map doc.old) }
    ensures restores { IfOk result (λ u. (d : Data)
        → Undoes json_map json_blank (json_map doc.new) u (nodes d)
        → HasSortedKeys (view doc.old) → HasSortedKeys d → d ≡ view doc.old) }
    ensures sorted { IfOk result (λ _.
        HasSortedKeys (view value) → HasSortedKeys (view doc.old) → HasSortedKeys (view doc.new)) }
    ensures returned_sorted { IfOk result (λ u.
        IfPut u (λ v. HasSortedKeys (view doc.old) → HasSortedKeys (view v))) }
    ensures refused { IfRefused result (RefusesAssign (json_map doc.old) (tokens ptr.entry)) }
    ensures unchanged { OnErr result (view doc.new ≡ view doc.old) }
{
    assign_undoable(alloc, doc, ptr, value)
}

/// Undoes an assignment. [`Undo::Put`] replaces the value that its pointer resolves to, and
/// [`Undo::Remove`] removes it. Removing the root leaves `null`. Takes the time of a
/// `resolve_mut` or a `delete` at that pointer.
///
/// ```rust
/// let mut document = json!(in alloc; [3, 5])?;
/// let first = Pointer::parse("/0")?;
/// let back = assign_with_undo(alloc, &mut document, first, Value::from(4))?;
/// assert!(rt; undo(alloc, &mut document, back).is_ok());
/// assert_eq!(rt; document.to_string(alloc)?.as_str(), "[3,5]");
/// ```
///
/// # Errors
///
/// [`UndoRefused`] if the pointer does not resolve to a value, or if an allocation fails. It
/// contains the undo, and the document is unchanged. The only allocation is to decode a token that
/// contains `~`.
pub fn undo(alloc: Global, doc: &mut Value, u: Undo<Value>) -> Result<(), UndoRefused<Value>>
    ensures undone { IfOk result (λ _.
        Undoes json_map json_blank (json_map doc.old) u (json_map doc.new)) }
    ensures sorted { IfOk result (λ _. IfPut u (λ v. HasSortedKeys (view v))
        → HasSortedKeys (view doc.old) → HasSortedKeys (view doc.new)) }
    ensures refused { IfErr result (λ r. IsUndoError (json_map doc.old) (tokens_at u) r.cause) }
    ensures returned { IfErr result (λ r. r.undo ≡ u) }
    ensures unchanged { OnErr result (view doc.new ≡ view doc.old) }
    ensures no_memory { HasNoTilde (text (tokens_at u))
        → IfErr result (λ r. IsRefusedAnd r.cause (Refuses (json_map doc.old) (tokens_at u))) }
{
    take_back(alloc, doc, u)
}
