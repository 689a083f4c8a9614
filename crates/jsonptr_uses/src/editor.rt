//! An editor of a JSON document that can undo its assignments and removals.
ghost use Rattle.std.specs.Prelude.{◌≡◌, ◌-◌, length, Option, IfOk, OnErr};
ghost use Rattle.serde_json.specs.Data.{Data, null};
ghost use Rattle.serde_json.specs.View.{view};
ghost use Rattle.jsonptr.specs.Assign.{RefusesAssign};
ghost use Rattle.jsonptr.specs.Assigning.{Assigns};
ghost use Rattle.jsonptr.specs.Fault.{IfRefused, IsRefused};
ghost use Rattle.jsonptr.specs.Json.{nodes, HasSortedKeys};
ghost use Rattle.jsonptr.specs.Node.{Path, NodeMap, Names};
ghost use Rattle.jsonptr.specs.Pointer.{tokens};
ghost use Rattle.jsonptr.specs.Removing.{Deletes};
ghost use Rattle.jsonptr.specs.Resolve.{Refuses};
ghost use Rattle.jsonptr_uses.specs.Undoing.{IsAbove, LeadsBack, IsOpenedOn, editor_document, undos_of, editor_value};

use jsonptr::tree::json::json_law;
use jsonptr::tree::writing::put_law;
use jsonptr::{Fault, Pointer, assign, resolve};
use jsonptr_session::undo::Undo;
use jsonptr_session::undo::json::{assign_with_undo, undo};
use serde_json::Value;
use std::alloc::Global;

/// A JSON document, and the undo of each change, the last one last.
#[derive(Drop)]
pub struct Editor {
    document: Value,
    undos: Vec<Undo<Value>>,
}

impl Editor {
    /// Opens an editor of this document, which it owns.
    pub fn open(alloc: Global, document: Value) -> Editor
        ensures { HasSortedKeys (view document) → IsOpenedOn (view document) result }
    {
        Editor {
            document,
            undos: Vec::new(alloc),
        }
    }

    /// Returns the document, with all changes that are not undone.
    pub fn document(&self) -> &Value
        ensures { result.now ≡ editor_value self.now }
    {
        &self.document
    }

    /// Returns the document, and drops the undos.
    pub fn into_document(self) -> Value
        ensures { result ≡ editor_value self }
    {
        self.document
    }

    /// Returns how many changes can be undone.
    pub fn changes(&self) -> usize
        ensures { result ≡ length (undos_of self.now) }
    {
        self.undos.len()
    }

    /// Assigns a value at the pointer.
    ///
    /// # Errors
    ///
    /// Those of [`Pointer::assign`]. The editor is unchanged.
    pub fn assign(
        &mut self,
        alloc: Global,
        pointer: Pointer<'_>,
        value: Value,
    ) -> Result<(), Fault<assign::Error>>
        ensures assigned { IfOk result (λ _. (was : Option NodeMap)
            × Assigns (nodes (editor_document self.old)) (tokens pointer.entry) (nodes (view value))
            (nodes (editor_document self.new)) was) }
        ensures opened { (start : Data) → HasSortedKeys (view value)
            → IsOpenedOn start self.old → IsOpenedOn start self.new }
        ensures refused { IfRefused result
            (RefusesAssign (nodes (editor_document self.old)) (tokens pointer.entry)) }
        ensures unchanged { OnErr result (editor_document self.new ≡ editor_document self.old) }
        ensures undos_unchanged { OnErr result (undos_of self.new ≡ undos_of self.old) }
    {
        self.undos.reserve(1)?;
        let last = assign_with_undo(alloc, &mut self.document, pointer, value)?;
        self.undos.push_reserved(last);
        Ok(())
    }

    /// Removes the value that the pointer resolves to. Removing the root leaves `null`.
    ///
    /// Keeps a copy of the value's parent for the undo, so that time and memory are linear in its
    /// size.
    ///
    /// # Errors
    ///
    /// [`Fault::Refused`] if the pointer does not resolve to a value, and [`Fault::Memory`] if an
    /// allocation fails. The editor is unchanged.
    pub fn remove(
        &mut self,
        alloc: Global,
        pointer: Pointer<'_>,
    ) -> Result<(), Fault<resolve::Error>>
        ensures named { IfOk result (λ _. (w : Path)
            × Names (nodes (editor_document self.old)) (tokens pointer.entry) w) }
        ensures deleted { IfOk result (λ _. Deletes (nodes (editor_document self.old))
            (tokens pointer.entry) (nodes null) (nodes (editor_document self.new))) }
        ensures opened { (start : Data)
            → IsOpenedOn start self.old → IsOpenedOn start self.new }
        ensures refused { IfRefused result
            (Refuses (nodes (editor_document self.old)) (tokens pointer.entry)) }
        ensures unchanged { OnErr result (editor_document self.new ≡ editor_document self.old) }
        ensures undos_unchanged { OnErr result (undos_of self.new ≡ undos_of self.old) }
    {
        self.undos.reserve(1)?;
        let parent_back = undo_of_removal(alloc, &self.document, pointer)?;
        let _removed = pointer.delete(alloc, &mut self.document)?;
        self.undos.push_reserved(parent_back);
        Ok(())
    }

    /// Undoes the last change, if there is one.
    ///
    /// # Errors
    ///
    /// [`Fault::Memory`] if an allocation fails, and no other error. The editor is unchanged.
    pub fn undo_last(&mut self, alloc: Global) -> Result<(), Fault<resolve::Error>>
        ensures opened { (start : Data)
            → IsOpenedOn start self.old → IsOpenedOn start self.new }
        ensures fewer { IfOk result (λ _.
            length (undos_of self.new) ≡ length (undos_of self.old) - 1) }
        ensures unchanged { OnErr result ((editor_document self.new ≡ editor_document self.old)
            × (undos_of self.new ≡ undos_of self.old)) }
        ensures never_refused { (start : Data)
            → IsOpenedOn start self.old → IsRefused result → ⊥ }
    {
        let Some(last) = self.undos.pop() else {
            return Ok(());
        };
        match undo(alloc, &mut self.document, last) {
            Ok(()) => Ok(()),
            Err(refused) => {
                self.undos.push_reserved(refused.undo);
                Err(refused.cause)
            }
        }
    }

    /// Undoes all changes, the last one first. The document is then the one that the editor was
    /// opened on.
    ///
    /// # Errors
    ///
    /// [`Fault::Memory`] if an allocation fails, and no other error. Another call can undo the
    /// rest.
    pub fn undo_all(&mut self, alloc: Global) -> Result<(), Fault<resolve::Error>>
        ensures restored { IfOk result (λ _. (start : Data)
            → IsOpenedOn start self.old → editor_document self.new ≡ start) }
        ensures opened { (start : Data)
            → IsOpenedOn start self.old → IsOpenedOn start self.new }
        ensures never_refused { (start : Data)
            → IsOpenedOn start self.old → IsRefused result → ⊥ }
    {
        for _turn in 0..self.undos.len() {
            self.undo_last(alloc)?;
        }
        Ok(())
    }
}

/// Returns how to undo the removal of the value that the pointer resolves to: by a copy of its
/// parent.
fn undo_of_removal(
    alloc: Global,
    document: &Value,
    pointer: Pointer<'_>,
) -> Result<Undo<Value>, Fault<resolve::Error>>
    ensures named { IfOk result (λ _. (w : Path)
        × Names (nodes (view document.now)) (tokens pointer.entry) w) }
    ensures leads { IfOk result (λ undo. (left : Data) → HasSortedKeys (view document.now)
        → Deletes (nodes (view document.now)) (tokens pointer.entry) (nodes null) (nodes left)
        → LeadsBack (view document.now) undo left) }
    ensures refused { IfRefused result
        (Refuses (nodes (view document.now)) (tokens pointer.entry)) }
{
    json_law();
    put_law();
    let _value = pointer.resolve(alloc, document)?;
    let parent_pointer = above(pointer);
    let parent = parent_pointer.resolve(alloc, document)?.clone()?;
    Ok(Undo::Put(parent_pointer.to_buf(alloc)?, parent))
}

/// Returns the pointer of the parent, or the root for the root.
pub(crate) fn above(pointer: Pointer<'_>) -> Pointer<'_>
    ensures { IsAbove (tokens pointer.entry) (tokens result) }
{
    match pointer.parent() {
        Some(parent) => parent,
        None => pointer,
    }
}
