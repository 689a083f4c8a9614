//! Edits in a text, and the same changes of the document.
use crate::out::Out;
use crate::patches::operations;
use crate::words::Words;
use jsonptr::{Fault, Pointer};
use jsonptr_patch::{Comparison, Operation, apply_comparing};
use jsonptr_text_edit::{Buffers, Edit, EditError, Edited, PatchText, RawValue, edit_text};
use serde_json::Value;
use std::alloc::Global;
use std::fmt::{Debug, Display};

/// Runs a case of a call: the text, and the arguments. Writes the text before and after it.
pub fn run(out: &mut Out<'_>, group: &str, mut words: Words<'_>) {
    let text = words.next();
    out.line(text);
    match group {
        "apply in text" => patch(out, text, words.next()),
        _ => match Pointer::parse(words.next()) {
            Ok(pointer) => run_at(out, group, text, pointer, words.next()),
            Err(_) => out.unknown(),
        },
    }
    out.state();
    out.line(text)
}

/// Runs a case of a call at a pointer.
fn run_at(out: &mut Out<'_>, group: &str, text: &str, pointer: Pointer<'_>, value: &str) {
    let alloc = out.alloc();
    match (group, Value::from_str(alloc, value)) {
        ("delete in text", _) => {
            out.begin();
            made(out, edited_in(alloc, text, Ok(Edit::Delete(pointer))))
        }
        ("assign in text", Ok(value)) => {
            out.begin();
            made(
                out,
                edited_in(alloc, text, assignment(alloc, pointer, &value)),
            )
        }
        (_, Ok(value)) => assign_twice(out, text, pointer, &value),
        _ => out.unknown(),
    }
}

/// Assigns a value twice with the same buffers. The first result is dropped, also if an allocation
/// failed.
fn assign_twice(out: &mut Out<'_>, text: &str, pointer: Pointer<'_>, value: &Value) {
    let alloc = out.alloc();
    out.begin();
    let mut buffers = Buffers::new(alloc);
    match assignment(alloc, pointer, value) {
        Ok(edit) => {
            drop(edit_text(&mut buffers, text, &edit));
            made(out, edit_text(&mut buffers, text, &edit))
        }
        Err(error) => out.said(error),
    }
}

/// Applies a patch document.
fn patch(out: &mut Out<'_>, text: &str, patch: &str) {
    let alloc = out.alloc();
    match operations(alloc, patch) {
        Some(operations) => {
            out.begin();
            made(out, edited_in(alloc, text, patch_of(alloc, operations)))
        }
        None => out.unknown(),
    }
}

/// Returns the assignment of a value, which is printed.
fn assignment<'a>(
    alloc: Global,
    pointer: Pointer<'a>,
    value: &Value,
) -> Result<Edit<'a>, EditError> {
    match RawValue::from_value(alloc, value)? {
        Some(raw) => Ok(Edit::Assign(pointer, raw)),
        None => Err(EditError::TooDeep),
    }
}

/// Returns the patch of the operations, whose values are printed.
fn patch_of(alloc: Global, operations: Vec<Operation>) -> Result<Edit<'static>, EditError> {
    Ok(Edit::Patch(PatchText::from_operations(alloc, operations)?))
}

/// Makes an edit in a text, in buffers of its own.
fn edited_in(
    alloc: Global,
    text: &str,
    edit: Result<Edit<'_>, EditError>,
) -> Result<Edited, EditError> {
    let edit = edit?;
    edit_text(&mut Buffers::new(alloc), text, &edit)
}

/// Writes the result of an edit.
fn made(out: &mut Out<'_>, made: Result<Edited, EditError>) {
    match made {
        Ok(edited) => said(out, edited),
        Err(EditError::NotThere) => out.nothing(),
        Err(error) => out.said(error),
    }
}

/// Writes a new text.
fn said(out: &mut Out<'_>, edited: Edited) {
    out.end();
    match edited {
        Edited::InPlace(text) => {
            out.show("in place ");
            out.line(text)
        }
        Edited::Reprinted(text) => {
            out.show("rewritten ");
            out.line(text)
        }
    }
}

/// An edit that is asked for: `assign`, `delete` or `rename` at a pointer, or `apply`, with the value, the
/// key or the patch document.
#[derive(Clone, Copy)]
pub struct Request<'a> {
    /// The name of the edit.
    pub command: &'a str,
    /// The text.
    pub text: &'a str,
    /// The pointer, except of `apply`.
    pub pointer: &'a str,
    /// The value of `assign` and the patch document of `apply`, as JSON, or the key of `rename`.
    pub argument: &'a str,
}

/// Makes an edit in a text, the same change of the document, and reads the new text.
pub fn compare(out: &mut Out<'_>, buffers: &mut Buffers, mut words: Words<'_>) {
    let request = Request {
        command: words.next(),
        text: words.next(),
        pointer: words.next(),
        argument: words.next(),
    };
    let edited = edit(out, buffers, request);
    if let Some(text) = &edited {
        out.field("detail", text);
        match Value::from_str(out.alloc(), text.as_str()) {
            Ok(document) => out.field("read", document),
            Err(_) => out.field("read", "not JSON"),
        }
    }
    if let Some(document) = change(out, request) {
        out.field("printed", document);
    }
}

/// Makes an edit in a text, and returns the new text. Without one, writes why.
pub fn edit(out: &mut Out<'_>, buffers: &mut Buffers, request: Request<'_>) -> Option<String> {
    let edit = edit_of(out.alloc(), request)?;
    match edit_text(buffers, request.text, &edit) {
        Ok(edited) => Some(new_text(out, edited)),
        Err(error) => {
            failed(out, error);
            None
        }
    }
}

/// Returns the edit that is asked for, or `None` if its arguments are none. Its values are printed.
pub fn edit_of<'a>(alloc: Global, request: Request<'a>) -> Option<Edit<'a>> {
    match request.command {
        "assign" => {
            let pointer = Pointer::parse(request.pointer).ok()?;
            let value = Value::from_str(alloc, request.argument).ok()?;
            assignment(alloc, pointer, &value).ok()
        }
        "delete" => Some(Edit::Delete(Pointer::parse(request.pointer).ok()?)),
        "rename" => {
            let pointer = Pointer::parse(request.pointer).ok()?;
            Some(Edit::Rename(pointer, request.argument))
        }
        _ => patch_of(alloc, operations(alloc, request.argument)?).ok(),
    }
}

/// Writes the kind of the result, and returns the new text.
fn new_text(out: &mut Out<'_>, edited: Edited) -> String {
    match edited {
        Edited::InPlace(text) => {
            kind(out, "kind", "in place");
            text
        }
        Edited::Reprinted(text) => {
            kind(out, "kind", "rewritten");
            text
        }
    }
}

/// Writes why an edit in a text fails. Of a patch it is the error without the pointer at fault, which
/// [`apply_comparing`] does not name.
fn failed(out: &mut Out<'_>, error: EditError) {
    match error {
        EditError::NotJson => kind(out, "kind", "not JSON"),
        EditError::NotThere => kind(out, "kind", "none"),
        EditError::TooDeep => kind(out, "kind", "too deep"),
        EditError::Assign(error) => not_made(out, &error),
        EditError::Rename(error) => not_made(out, &error),
        EditError::Patch(failed) => not_made(out, &failed.error),
        EditError::Memory(_) => out.memory(),
    }
}

/// Writes that an edit fails, and its error.
fn not_made<E: Display + Debug>(out: &mut Out<'_>, error: &E) {
    kind(out, "kind", "refused");
    refused(out, "detail", error)
}

/// Writes the kind of a result. While edits are timed it writes nothing.
fn kind(out: &mut Out<'_>, field: &str, kind: &str) {
    if !out.is_case() {
        out.field(field, kind);
    }
}

/// Writes an error as it is displayed and as it is debugged.
fn refused<E: Display + Debug>(out: &mut Out<'_>, field: &str, error: &E) {
    out.field(field, error);
    out.show("\n");
    out.debug(error)
}

/// Makes the change of the document that a text contains, and returns it. Without one, writes why.
pub fn change(out: &mut Out<'_>, request: Request<'_>) -> Option<Value> {
    let alloc = out.alloc();
    let Ok(mut document) = Value::from_str(alloc, request.text) else {
        kind(out, "call", "not JSON");
        return None;
    };
    if is_changed(out, &mut document, request)? {
        kind(out, "call", "done");
        Some(document)
    } else {
        None
    }
}

/// Makes a change of a document. Returns whether it was made, and else writes why not.
fn is_changed(out: &mut Out<'_>, document: &mut Value, request: Request<'_>) -> Option<bool> {
    let alloc = out.alloc();
    match request.command {
        "assign" => {
            let pointer = Pointer::parse(request.pointer).ok()?;
            let value = Value::from_str(alloc, request.argument).ok()?;
            is_done(out, pointer.assign(alloc, document, value))
        }
        "delete" => match Pointer::parse(request.pointer)
            .ok()?
            .delete(alloc, document)
            .ok()?
        {
            Some(_) => Some(true),
            None => {
                kind(out, "call", "none");
                Some(false)
            }
        },
        _ => {
            let operations = operations(alloc, request.argument)?;
            is_done(
                out,
                apply_comparing(alloc, document, operations, Comparison::Numeric),
            )
        }
    }
}

/// Returns whether a call succeeded, and else writes the error.
fn is_done<T: Drop, E: Display + Debug + Drop>(
    out: &mut Out<'_>,
    done: Result<T, Fault<E>>,
) -> Option<bool> {
    match done {
        Ok(_) => Some(true),
        Err(Fault::Refused(error)) => {
            kind(out, "call", "refused");
            refused(out, "printed", &error);
            Some(false)
        }
        Err(Fault::Memory(_)) => None,
    }
}
