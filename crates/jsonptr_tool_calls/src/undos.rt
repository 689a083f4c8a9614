//! Assignments that are undone.
use crate::document::Document;
use crate::out::Out;
use crate::words::Words;
use jsonptr::{Pointer, PointerBuf};
use jsonptr_session::undo::{Undo, UndoRefused};

/// Makes a call: the document, the call, the pointer, and a value. Writes the document before it,
/// and what is left after it.
pub fn run<D: Document>(out: &mut Out<'_>, document: &str, call: &str, mut words: Words<'_>) {
    let Ok(pointer) = Pointer::parse(words.next()) else {
        return out.unknown();
    };
    let Some(document) = D::read(out.alloc(), document) else {
        return out.unknown();
    };
    match D::read(out.alloc(), words.next()) {
        Some(value) => make(out, document, call, pointer, value),
        None => out.unknown(),
    }
}

/// Makes a call on a document.
fn make<D: Document>(out: &mut Out<'_>, document: D, call: &str, pointer: Pointer<'_>, value: D) {
    match call {
        "assign_with_undo" => assign(out, document, pointer, value),
        "undo" => undo(out, document, pointer, value),
        _ => match pointer.to_buf(out.alloc()) {
            Ok(pointer) => take_back(out, document, undo_of(call, pointer, value)),
            Err(_) => out.memory(),
        },
    }
}

/// Returns the undo of this name.
fn undo_of<D: Document>(name: &str, pointer: PointerBuf, value: D) -> Undo<D> {
    match name {
        "Put" => Undo::Put(pointer, value),
        _ => Undo::Remove(pointer),
    }
}

/// Assigns a value, and undoes that.
fn undo<D: Document>(out: &mut Out<'_>, mut document: D, pointer: Pointer<'_>, value: D) {
    match document.assign_with_undo(out.alloc(), pointer, value) {
        Ok(undo) => take_back(out, document, undo),
        Err(_) => out.unknown(),
    }
}

/// Assigns a value.
fn assign<D: Document>(out: &mut Out<'_>, mut document: D, pointer: Pointer<'_>, value: D) {
    out.line(&document);
    out.begin();
    match document.assign_with_undo(out.alloc(), pointer, value) {
        Ok(undo) => {
            out.end();
            show(out, &undo)
        }
        Err(fault) => out.said(fault),
    }
    out.state();
    out.line(&document)
}

/// Undoes an assignment.
fn take_back<D: Document>(out: &mut Out<'_>, mut document: D, undo: Undo<D>) {
    out.line(&document);
    show(out, &undo);
    out.begin();
    match document.undo(out.alloc(), undo) {
        Ok(()) => {
            out.said("done");
            out.state();
            out.line(&document)
        }
        Err(UndoRefused { undo, cause }) => {
            out.said(cause);
            out.state();
            out.line(&document);
            show(out, &undo)
        }
    }
}

/// Writes an undo.
fn show<D: Document>(out: &mut Out<'_>, undo: &Undo<D>) {
    match undo {
        Undo::Put(pointer, value) => {
            out.show("put ");
            out.show(value);
            out.show(" at ");
            out.line(pointer)
        }
        Undo::Remove(pointer) => {
            out.show("remove at ");
            out.line(pointer)
        }
    }
}
