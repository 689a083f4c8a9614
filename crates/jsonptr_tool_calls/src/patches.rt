//! Cases of patches, patch documents and differences.
use crate::out::Out;
use crate::words::Words;
use jsonptr::diagnostic::Diagnostic;
use jsonptr::{Fault, Pointer};
use jsonptr_patch::{Operation, PatchError, apply, apply_with_inverse, delete_with_undo};
use jsonptr_patch_diff::{change, diff};
use jsonptr_patch_document::{PatchDocumentError, read_patch, write_patch};
use serde_json::Value;
use std::alloc::Global;
use std::fmt::Display;

/// Runs a case: its group, a document, and the second argument of the call.
pub fn run(out: &mut Out<'_>, group: &str, mut words: Words<'_>) {
    let Ok(document) = Value::from_str(out.alloc(), words.next()) else {
        return out.unknown();
    };
    match group {
        "patch" => patch(out, document, words.next()),
        "patch inverse" => inverse(out, document, words.next()),
        "patch back" => delete(out, document, words.next()),
        "patch read" => read(out, &document),
        "patch written" => written(out, &document),
        "patch labels" => labels(out, &document),
        "diff" => compare(out, &document, words.next()),
        _ => change_to(out, document, words.next()),
    }
}

/// Returns the operations of a patch document.
pub fn operations(alloc: Global, text: &str) -> Option<Vec<Operation>> {
    let document = Value::from_str(alloc, text).ok()?;
    read_patch(alloc, &document).ok()
}

/// Applies a patch document.
fn patch(out: &mut Out<'_>, mut document: Value, patch: &str) {
    let Some(operations) = operations(out.alloc(), patch) else {
        return out.unknown();
    };
    out.line(&document);
    out.begin();
    out.done(apply(out.alloc(), &mut document, operations));
    out.state();
    out.line(&document)
}

/// Applies a patch document, and writes the operations that take it back.
fn inverse(out: &mut Out<'_>, mut document: Value, patch: &str) {
    let Some(operations) = operations(out.alloc(), patch) else {
        return out.unknown();
    };
    out.line(&document);
    out.begin();
    made(
        out,
        apply_with_inverse(out.alloc(), &mut document, operations),
    );
    out.state();
    out.line(&document)
}

/// Applies a patch document as `apply` does, and as `apply_with_inverse` does, and then the patch that
/// takes it back. Writes each document and that patch.
pub fn round(out: &mut Out<'_>, mut words: Words<'_>) {
    let text = words.next();
    let patch = words.next();
    if let Some(document) = applied(out, text, patch) {
        out.field("made", document);
    }
    taken_back(out, text, patch);
}

/// Applies a patch document, and returns the document.
fn applied(out: &mut Out<'_>, text: &str, patch: &str) -> Option<Value> {
    let mut document = Value::from_str(out.alloc(), text).ok()?;
    let operations = operations(out.alloc(), patch)?;
    match apply(out.alloc(), &mut document, operations) {
        Ok(()) => out.field("done", "done"),
        Err(fault) => failed(out, "done", fault),
    }
    Some(document)
}

/// Applies a patch document, and then what takes it back.
fn taken_back(out: &mut Out<'_>, text: &str, patch: &str) -> Option<()> {
    let alloc = out.alloc();
    let mut document = Value::from_str(alloc, text).ok()?;
    match apply_with_inverse(alloc, &mut document, operations(alloc, patch)?) {
        Ok(back) => {
            out.field("again", &document);
            out.field("back", write_patch(alloc, &back).ok()?);
            apply(alloc, &mut document, back).ok()?;
            out.field("restored", document);
        }
        Err(fault) => {
            failed(out, "back", fault);
            out.field("restored", document);
        }
    }
    Some(())
}

/// Writes why a patch fails.
fn failed(out: &mut Out<'_>, name: &str, fault: Fault<PatchError>) {
    match fault {
        Fault::Refused(error) => out.field(name, error),
        Fault::Memory(_) => out.memory(),
    }
}

/// Deletes a value, and writes the operation that undoes it.
fn delete(out: &mut Out<'_>, mut document: Value, pointer: &str) {
    let Ok(pointer) = Pointer::parse(pointer) else {
        return out.unknown();
    };
    out.line(&document);
    out.begin();
    match delete_with_undo(out.alloc(), &mut document, pointer) {
        Ok(Some(undo)) => {
            out.end();
            show(out, &undo)
        }
        Ok(None) => out.said("nothing"),
        Err(error) => out.said(error),
    }
    out.state();
    out.line(&document)
}

/// Reads a patch document.
fn read(out: &mut Out<'_>, document: &Value) {
    out.line(document);
    out.begin();
    made(out, read_patch(out.alloc(), document));
    out.state();
    out.line(document)
}

/// Reads a patch document, and writes it again.
fn written(out: &mut Out<'_>, document: &Value) {
    let Ok(operations) = read_patch(out.alloc(), document) else {
        return out.unknown();
    };
    show_each(out, &operations);
    out.begin();
    out.result(write_patch(out.alloc(), &operations));
    out.state();
    show_each(out, &operations)
}

/// Makes the labels of the error of a patch document.
fn labels(out: &mut Out<'_>, document: &Value) {
    match read_patch(out.alloc(), document) {
        Err(Fault::Refused(error)) => labels_of(out, document, &error),
        _ => out.unknown(),
    }
}

/// Makes the labels of an error.
fn labels_of(out: &mut Out<'_>, document: &Value, error: &PatchDocumentError) {
    let text = error.pointer_text(document).unwrap_or("");
    let Ok(subject) = String::from_str(out.alloc(), text) else {
        return out.memory();
    };
    out.begin();
    out.labels(error.labels(out.alloc(), &subject));
    out.state()
}

/// Compares two documents.
fn compare(out: &mut Out<'_>, document: &Value, wanted: &str) {
    let Ok(wanted) = Value::from_str(out.alloc(), wanted) else {
        return out.unknown();
    };
    out.line(document);
    out.begin();
    made(out, diff(out.alloc(), document, &wanted));
    out.state();
    out.line(document)
}

/// Changes a document to another one.
fn change_to(out: &mut Out<'_>, mut document: Value, wanted: &str) {
    let Ok(wanted) = Value::from_str(out.alloc(), wanted) else {
        return out.unknown();
    };
    out.line(&document);
    out.begin();
    out.done(change(out.alloc(), &mut document, &wanted));
    out.state();
    out.line(&document)
}

/// Writes the operations that a call made, or the error.
fn made<E: Display + Drop>(out: &mut Out<'_>, made: Result<Vec<Operation>, E>) {
    match made {
        Ok(operations) => {
            out.end();
            show_each(out, &operations)
        }
        Err(error) => out.said(error),
    }
}

/// Writes a line for each operation, and one after them.
fn show_each(out: &mut Out<'_>, operations: &Vec<Operation>) {
    for operation in operations {
        show(out, operation);
    }
    out.line("done")
}

/// Writes an operation.
fn show(out: &mut Out<'_>, operation: &Operation) {
    match operation {
        Operation::Add { path, value } => show_as(out, "add ", path, value),
        Operation::Remove { path } => {
            out.show("remove ");
            out.line(path)
        }
        Operation::Replace { path, value } => show_as(out, "replace ", path, value),
        Operation::Move { from, path } => show_as(out, "move ", from, path),
        Operation::Copy { from, path } => show_as(out, "copy ", from, path),
        Operation::Test { path, value } => show_as(out, "test ", path, value),
    }
}

/// Writes the name and the two arguments of an operation.
fn show_as<A: Display, B: Display>(out: &mut Out<'_>, name: &str, first: &A, second: &B) {
    out.show(name);
    out.show(first);
    out.show(" ");
    out.line(second)
}
