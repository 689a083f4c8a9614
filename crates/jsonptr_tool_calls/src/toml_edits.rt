//! Edits in a TOML text.
use crate::out::Out;
use crate::text_edits::Request;
use crate::words::Words;
use jsonptr::Pointer;
use jsonptr_toml_edit::{Edited, TomlEdit, TomlEditError, edit_toml};
use toml::Value;

/// Runs a case of a call: the text, the pointer and the value. Writes the text before and after it.
pub fn run(out: &mut Out<'_>, group: &str, mut words: Words<'_>) {
    let text = words.next();
    out.line(text);
    let pointer = Pointer::parse(words.next());
    let value = Value::from_str(out.alloc(), words.next());
    match (group, pointer, value) {
        ("delete in toml", Ok(pointer), _) => {
            out.begin();
            match edit_toml(out.alloc(), text, &TomlEdit::Delete(pointer)) {
                Err(TomlEditError::NotThere) => out.nothing(),
                made => said(out, made),
            }
        }
        (_, Ok(pointer), Ok(value)) => {
            let edit = TomlEdit::AssignValue(pointer, value);
            out.begin();
            said(out, edit_toml(out.alloc(), text, &edit))
        }
        _ => out.unknown(),
    }
    out.state();
    out.line(text)
}

/// Writes the result of an edit.
fn said(out: &mut Out<'_>, made: Result<Edited, TomlEditError>) {
    out.end();
    match made {
        Ok(Edited::InPlace(text)) => {
            out.show("in place ");
            out.line(text)
        }
        Ok(Edited::Reprinted(text)) => {
            out.show("rewritten ");
            out.line(text)
        }
        Err(error) => out.line(error),
    }
}

/// Makes an edit in a text, and writes the kind of its result and the new text.
pub fn request(out: &mut Out<'_>, mut words: Words<'_>) {
    let alloc = out.alloc();
    let command = words.next();
    let text = words.next();
    let pointer = Pointer::parse(words.next());
    let value = Value::from_str(alloc, words.next());
    match (command, pointer, value) {
        ("delete", Ok(pointer), _) => made(out, edit_toml(alloc, text, &TomlEdit::Delete(pointer))),
        (_, Ok(pointer), Ok(value)) => {
            made(
                out,
                edit_toml(alloc, text, &TomlEdit::AssignValue(pointer, value)),
            )
        }
        _ => out.unknown(),
    }
}

/// Writes the kind of the result of an edit, and the new text or the error.
fn made(out: &mut Out<'_>, made: Result<Edited, TomlEditError>) {
    match made {
        Ok(Edited::InPlace(text)) => {
            out.field("kind", "in place");
            out.field("detail", text)
        }
        Ok(Edited::Reprinted(text)) => {
            out.field("kind", "rewritten");
            out.field("detail", text)
        }
        Err(TomlEditError::NotThere) => out.field("kind", "none"),
        Err(error) => {
            out.field("kind", "refused");
            out.field("detail", error)
        }
    }
}

/// Makes an edit in a text. Returns `None` if there is no new text.
pub fn edit(out: &mut Out<'_>, request: Request<'_>) -> Option<String> {
    let alloc = out.alloc();
    let pointer = Pointer::parse(request.pointer).ok()?;
    let edit = if request.command == "delete" {
        TomlEdit::Delete(pointer)
    } else {
        TomlEdit::AssignValue(pointer, Value::from_str(alloc, request.argument).ok()?)
    };
    Some(edit_toml(alloc, request.text, &edit).ok()?.or_reprinted())
}
