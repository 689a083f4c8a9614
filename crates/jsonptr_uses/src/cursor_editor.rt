//! An editor of a JSON document with a cursor, which always points to a value of the document. The
//! editor can undo its changes.
ghost use Rattle.std.specs.Prelude.{◌≡◌, ℕ, ◌+◌, ◌<◌, [], ◌∷◌, ◌++◌, Some, IfOk, OnErr, MatchOption};
ghost use Rattle.serde_json.specs.Data.{Data, null};
ghost use Rattle.serde_json.specs.View.{view};
ghost use Rattle.jsonptr.specs.Ends.{PopsBack};
ghost use Rattle.jsonptr.specs.Fault.{IfRefused, IsRefused};
ghost use Rattle.jsonptr.specs.Json.{nodes, FindsValue, HasSortedKeys};
ghost use Rattle.jsonptr.specs.Node.{an_array};
ghost use Rattle.jsonptr.specs.Pointer.{tokens};
ghost use Rattle.jsonptr.specs.Removing.{Deletes};
ghost use Rattle.jsonptr.specs.Resolve.{PutsAt, Refuses};
ghost use Rattle.jsonptr.specs.Text.{dec};
ghost use Rattle.jsonptr_uses.specs.Editing.{IsAtValue, NamesArray, IsNext, LacksNext, MovesOn, cursor_of, document_under, editor_of};
ghost use Rattle.jsonptr_uses.specs.Undoing.{IsAbove, IsOpenedOn, undos_of};

use crate::editor::{Editor, above};
use jsonptr::index::Index;
use jsonptr::tree::json::json_law;
use jsonptr::{Fault, Pointer, PointerBuf, Token, assign, resolve};
use serde_json::Value;
use std::alloc::{AllocError, Global};

/// A JSON document, the cursor, and the undo of each change.
#[derive(Drop)]
pub struct CursorEditor {
    editor: Editor,
    cursor: PointerBuf,
}

impl CursorEditor {
    /// Opens an editor of this document, which it owns. The cursor is at the root.
    pub fn open(alloc: Global, document: Value) -> CursorEditor
        ensures opened { HasSortedKeys (view document)
            → IsOpenedOn (view document) (editor_of result) }
        ensures at_root { cursor_of result ≡ [] }
        ensures at_value { IsAtValue result }
    {
        json_law();
        CursorEditor {
            editor: Editor::open(alloc, document),
            cursor: PointerBuf::new(alloc),
        }
    }

    /// Returns the cursor.
    pub fn cursor(&self) -> Pointer<'_>
        ensures { tokens result ≡ cursor_of self.now }
    {
        self.cursor.as_ptr()
    }

    /// Returns the document.
    pub fn document(&self) -> &Value
        ensures { view result.now ≡ document_under self.now }
    {
        self.editor.document()
    }

    /// Returns the document, and drops the cursor and the undos.
    pub fn into_document(self) -> Value
        ensures { view result ≡ document_under self }
    {
        self.editor.into_document()
    }

    /// Returns the value at the cursor.
    ///
    /// # Errors
    ///
    /// [`Fault::Memory`] if an allocation fails, and no other error.
    pub fn current(&self, alloc: Global) -> Result<&Value, Fault<resolve::Error>>
        ensures found { IfOk result (λ value.
            FindsValue (document_under self.now) (cursor_of self.now) (view value.now)) }
        ensures never_refused { IsAtValue self.now → IsRefused result → ⊥ }
    {
        self.cursor.as_ptr().resolve(alloc, self.editor.document())
    }

    /// Moves the cursor to the child with this token.
    ///
    /// # Errors
    ///
    /// [`Fault::Refused`] if there is no such child, and [`Fault::Memory`] if an allocation fails.
    /// The cursor does not move.
    pub fn down(&mut self, alloc: Global, token: Token<'_>) -> Result<(), Fault<resolve::Error>>
        ensures moved { IfOk result (λ _.
            cursor_of self.new ≡ cursor_of self.old ++ token.entry ∷ []) }
        ensures at_value { IfOk result (λ _. IsAtValue self.new) }
        ensures refused { IfRefused result (Refuses (nodes (document_under self.old))
            (cursor_of self.old ++ token.entry ∷ [])) }
        ensures unchanged { OnErr result (cursor_of self.new ≡ cursor_of self.old) }
        ensures editor_unchanged { editor_of self.new ≡ editor_of self.old }
    {
        let below = self.cursor.as_ptr().with_trailing_token(alloc, token)?;
        let _child = below.as_ptr().resolve(alloc, self.editor.document())?;
        self.cursor = below;
        Ok(())
    }

    /// Moves the cursor to the parent, and returns the token that leads back down. At the root,
    /// returns `None`, and the cursor does not move.
    ///
    /// # Errors
    ///
    /// [`AllocError`] if an allocation fails. The cursor does not move.
    pub fn up(&mut self) -> Result<Option<Token<'static>>, AllocError>
        ensures moved { IfOk result (λ t. PopsBack (cursor_of self.old) t (cursor_of self.new)) }
        ensures at_value { IsAtValue self.old → IsAtValue self.new }
        ensures unchanged { OnErr result (cursor_of self.new ≡ cursor_of self.old) }
        ensures editor_unchanged { editor_of self.new ≡ editor_of self.old }
    {
        self.cursor.pop_back()
    }

    /// Moves the cursor to the next element of its array, and returns whether there is one. There
    /// is none at the last element, at a member of an object and at the root. The cursor then does
    /// not move.
    ///
    /// # Errors
    ///
    /// [`AllocError`] if an allocation fails. The cursor does not move.
    pub fn next(&mut self, alloc: Global) -> Result<bool, AllocError>
        ensures moved { IfOk result (λ there. MovesOn (nodes (document_under self.old))
            (cursor_of self.old) there (cursor_of self.new)) }
        ensures at_value { IsAtValue self.old → IsAtValue self.new }
        ensures unchanged { OnErr result (cursor_of self.new ≡ cursor_of self.old) }
        ensures editor_unchanged { editor_of self.new ≡ editor_of self.old }
    {
        json_law();
        match next_element(alloc, self.editor.document(), self.cursor.as_ptr())? {
            Some(next) => {
                self.cursor = next;
                Ok(true)
            }
            None => Ok(false),
        }
    }

    /// Replaces the value at the cursor.
    ///
    /// # Errors
    ///
    /// [`Fault::Memory`] if an allocation fails, and no other error. The document is unchanged.
    pub fn set(&mut self, alloc: Global, value: Value) -> Result<(), Fault<assign::Error>>
        ensures written { IfOk result (λ _. IsAtValue self.old
            → PutsAt (nodes (document_under self.old)) (cursor_of self.old) (nodes (view value))
            (nodes (document_under self.new))) }
        ensures opened { (start : Data) → HasSortedKeys (view value)
            → IsOpenedOn start (editor_of self.old) → IsOpenedOn start (editor_of self.new) }
        ensures at_value { IsAtValue self.old → IsAtValue self.new }
        ensures never_refused { IsAtValue self.old → IsRefused result → ⊥ }
        ensures unchanged { OnErr result
            (document_under self.new ≡ document_under self.old) }
        ensures undos_unchanged { OnErr result
            (undos_of (editor_of self.new) ≡ undos_of (editor_of self.old)) }
        ensures cursor_unchanged { cursor_of self.new ≡ cursor_of self.old }
    {
        json_law();
        self.editor.assign(alloc, self.cursor.as_ptr(), value)
    }

    /// Removes the value at the cursor, and moves the cursor to its parent. Removing the root
    /// leaves `null`, and the cursor stays at the root.
    ///
    /// Keeps a copy of the parent for the undo, so that time and memory are linear in its size.
    ///
    /// # Errors
    ///
    /// [`Fault::Memory`] if an allocation fails, and no other error. The editor is unchanged.
    pub fn remove(&mut self, alloc: Global) -> Result<(), Fault<resolve::Error>>
        ensures deleted { IfOk result (λ _.
            Deletes (nodes (document_under self.old)) (cursor_of self.old) (nodes null)
            (nodes (document_under self.new))) }
        ensures moved { IfOk result (λ _. IsAbove (cursor_of self.old) (cursor_of self.new)) }
        ensures opened { (start : Data)
            → IsOpenedOn start (editor_of self.old) → IsOpenedOn start (editor_of self.new) }
        ensures at_value { IsAtValue self.old → IsAtValue self.new }
        ensures never_refused { IsAtValue self.old → IsRefused result → ⊥ }
        ensures unchanged { OnErr result
            (document_under self.new ≡ document_under self.old) }
        ensures cursor_unchanged { OnErr result (cursor_of self.new ≡ cursor_of self.old) }
        ensures undos_unchanged { OnErr result
            (undos_of (editor_of self.new) ≡ undos_of (editor_of self.old)) }
    {
        json_law();
        let parent = above(self.cursor.as_ptr()).to_buf(alloc)?;
        self.editor.remove(alloc, self.cursor.as_ptr())?;
        self.cursor = parent;
        Ok(())
    }

    /// Moves the cursor to the root and undoes all changes. The document is then the one that the
    /// editor was opened on.
    ///
    /// # Errors
    ///
    /// [`Fault::Memory`] if an allocation fails, and no other error. Another call can undo the
    /// rest.
    pub fn undo_all(&mut self, alloc: Global) -> Result<(), Fault<resolve::Error>>
        ensures restored { IfOk result (λ _. (start : Data)
            → IsOpenedOn start (editor_of self.old) → document_under self.new ≡ start) }
        ensures opened { (start : Data)
            → IsOpenedOn start (editor_of self.old) → IsOpenedOn start (editor_of self.new) }
        ensures never_refused { (start : Data)
            → IsOpenedOn start (editor_of self.old) → IsRefused result → ⊥ }
        ensures at_root { cursor_of self.new ≡ [] }
        ensures at_value { IsAtValue self.new }
    {
        json_law();
        self.cursor.clear();
        self.editor.undo_all(alloc)
    }
}

/// Returns the pointer of the next element, if the pointer refers to an element of an array that
/// has a next one.
fn next_element(
    alloc: Global,
    document: &Value,
    pointer: Pointer<'_>,
) -> Result<Option<PointerBuf>, AllocError>
    ensures { IfOk result (λ next. MatchOption next
        (LacksNext (nodes (view document.now)) (tokens pointer.entry))
        (λ us. IsNext (nodes (view document.now)) (tokens pointer.entry) us)) }
{
    let Some((front, last)) = pointer.split_back() else {
        return Ok(None);
    };
    let Some(len) = array_len(alloc, document, front)? else {
        return Ok(None);
    };
    let Some(next) = index_after(&last, len) else {
        return Ok(None);
    };
    let token = Token::from_number(alloc, next)?;
    Ok(Some(front.with_trailing_token(alloc, token)?))
}

/// Returns the length of the array that the pointer resolves to, if it does.
fn array_len(
    alloc: Global,
    document: &Value,
    pointer: Pointer<'_>,
) -> Result<Option<usize>, AllocError>
    ensures { IfOk result (λ len. MatchOption len
        ((k : ℕ) → NamesArray (nodes (view document.now)) (tokens pointer.entry) k → ⊥)
        (λ k. NamesArray (nodes (view document.now)) (tokens pointer.entry) k)) }
{
    match pointer.resolve(alloc, document) {
        Ok(value) => Ok(len_of(value)),
        Err(fault) => {
            fault.refused()?;
            Ok(None)
        }
    }
}

/// Returns the length of a value, if it is an array.
fn len_of(value: &Value) -> Option<usize>
    ensures { MatchOption result
        ((k : ℕ) → nodes (view value.now) [] ≡ Some (an_array k) → ⊥)
        (λ k. nodes (view value.now) [] ≡ Some (an_array k)) }
{
    json_law();
    match value {
        Value::Null => None,
        Value::Bool(_) => None,
        Value::Number(_) => None,
        Value::String(_) => None,
        Value::Array(elements) => Some(elements.len()),
        Value::Object(_) => None,
    }
}

/// Returns the index after the one that `token` is, if an array of length `len` has it.
fn index_after(token: &Token<'_>, len: usize) -> Option<usize>
    ensures { MatchOption result
        ((i : ℕ) → token.now ≡ dec i → i + 1 < len → ⊥)
        (λ next. (i : ℕ) × (token.now ≡ dec i) × (next ≡ i + 1) × (next < len)) }
{
    match token.to_index() {
        Ok(Index::Num(index)) => {
            let next = index.saturating_add(1);
            if next < len { Some(next) } else { None }
        }
        Ok(Index::Next) => None,
        Err(_) => None,
    }
}
