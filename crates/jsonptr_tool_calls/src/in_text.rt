//! Calls that resolve a pointer in a text.
use crate::out::Out;
use crate::words::Words;
use jsonptr::{Fault, Pointer};
use jsonptr_text_resolve::{
    InTextError, Scratch, exists_in_text, exists_in_text_with, resolve_in_slice, resolve_in_text,
    resolve_in_text_with,
};
use serde_json::Value;

/// Runs a case: the call, the text, and the pointer.
pub fn run(out: &mut Out<'_>, mut words: Words<'_>) {
    let (call, text) = (words.next(), words.next());
    let Ok(pointer) = Pointer::parse(words.next()) else {
        return out.unknown();
    };
    out.begin();
    match call {
        "resolve_in_text" => out.result(resolve_in_text(out.alloc(), text, pointer)),
        "resolve_in_text_with" => resolve_twice(out, text, pointer),
        "resolve_in_slice" => {
            out.result(resolve_in_slice(out.alloc(), text.as_bytes(), pointer))
        }
        "exists_in_text" => out.result(exists_in_text(out.alloc(), text, pointer)),
        _ => out.unknown(),
    }
}

/// Resolves twice with one scratch. The first result is dropped, also if an allocation failed.
fn resolve_twice(out: &mut Out<'_>, text: &str, pointer: Pointer<'_>) {
    let mut scratch = Scratch::new(out.alloc());
    drop(resolve_in_text_with(out.alloc(), &mut scratch, text, pointer));
    out.result(resolve_in_text_with(out.alloc(), &mut scratch, text, pointer))
}

/// Makes all calls of a request: the pointer, and the bytes of a text as hexadecimal digits. The
/// calls on a text use this scratch, and the one on bytes makes its own.
pub fn request(out: &mut Out<'_>, scratch: &mut Scratch, mut words: Words<'_>) {
    let pointer = Pointer::parse(words.next());
    match (pointer, hex::decode(out.alloc(), words.next())) {
        (Ok(pointer), Ok(bytes)) => resolve(out, scratch, &bytes, pointer),
        _ => out.unknown(),
    }
}

/// Makes all calls on the bytes of a text.
fn resolve(out: &mut Out<'_>, scratch: &mut Scratch, bytes: &[u8], pointer: Pointer<'_>) {
    out.name("text");
    match std::str::from_utf8(bytes) {
        Ok(text) => resolve_text(out, scratch, text, pointer),
        Err(_) => {
            out.show("not UTF-8");
            out.field("exists", "not UTF-8")
        }
    }
    out.name("slice");
    found(out, resolve_in_slice(out.alloc(), bytes, pointer));
    out.name("read");
    match Value::from_slice(out.alloc(), bytes) {
        Ok(document) => read(out, &document, pointer),
        Err(_) => out.show("not JSON"),
    }
}

/// Makes the calls on a text.
fn resolve_text(out: &mut Out<'_>, scratch: &mut Scratch, text: &str, pointer: Pointer<'_>) {
    found(
        out,
        resolve_in_text_with(out.alloc(), scratch, text, pointer),
    );
    out.name("exists");
    match exists_in_text_with(out.alloc(), scratch, text, pointer) {
        Ok(exists) => out.show(exists),
        Err(_) => out.show("not JSON"),
    }
}

/// Writes a value, or why there is none.
fn found(out: &mut Out<'_>, found: Result<Value, InTextError>) {
    match found {
        Ok(value) => out.show(value),
        Err(InTextError::NotJson) => out.show("not JSON"),
        Err(InTextError::Resolve(error)) => out.debug(&error),
        Err(InTextError::Memory(_)) => out.memory(),
    }
}

/// Resolves a pointer in a document.
fn read(out: &mut Out<'_>, document: &Value, pointer: Pointer<'_>) {
    match pointer.resolve(out.alloc(), document) {
        Ok(value) => out.show(value),
        Err(Fault::Refused(error)) => out.debug(&error),
        Err(Fault::Memory(_)) => out.memory(),
    }
}
