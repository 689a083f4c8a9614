//! Calls that change an owned pointer.
use crate::out::Out;
use crate::words::Words;
use jsonptr::{Fault, Pointer, PointerBuf, ReplaceError, Token};
use jsonptr_tabled::EditPointer;
use std::borrow::CowStr;

/// Makes a call on a pointer: the call, its text, and its position. Writes the pointer before and
/// after it.
pub fn run<P: EditPointer>(out: &mut Out<'_>, pointer: &mut P, call: &str, mut words: Words<'_>) {
    let text = words.next();
    out.line(pointer.as_ptr());
    match (call, words.number()) {
        ("set_text", _) => set(out, pointer, text),
        (call, Some(place)) => edit(out, pointer, call, text, place),
        _ => out.unknown(),
    }
    out.state();
    out.line(pointer.as_ptr());
}

/// Replaces the text of a pointer.
fn set<P: EditPointer>(out: &mut Out<'_>, pointer: &mut P, text: &str) {
    let Ok(text) = String::from_str(out.alloc(), text) else {
        return out.memory();
    };
    out.begin();
    match pointer.set_text(text) {
        Ok(()) => out.said("done"),
        Err(Fault::Refused(report)) => out.report(&report),
        Err(Fault::Memory(error)) => out.said(error),
    }
}

/// Makes a call that changes a pointer.
pub fn edit<P: EditPointer>(
    out: &mut Out<'_>,
    pointer: &mut P,
    call: &str,
    text: &str,
    place: usize,
) {
    match call {
        "pop_front" => {
            out.begin();
            out.removed(pointer.pop_front())
        }
        "pop_back" => {
            out.begin();
            out.removed(pointer.pop_back())
        }
        "clear" => {
            out.begin();
            pointer.clear();
            out.said("done")
        }
        "append" => {
            out.begin();
            append(out, pointer, text)
        }
        _ => match Token::new(out.alloc(), CowStr::Borrowed(text)) {
            Ok(token) => edit_token(out, pointer, call, token, place),
            Err(_) => out.memory(),
        },
    }
}

/// Appends the pointer that a text is.
fn append<P: EditPointer>(out: &mut Out<'_>, pointer: &mut P, text: &str) {
    match Pointer::parse(text) {
        Ok(other) => out.done(pointer.append(other)),
        Err(error) => out.said(error),
    }
}

/// Makes a call that writes a token to a pointer.
fn edit_token<P: EditPointer>(
    out: &mut Out<'_>,
    pointer: &mut P,
    call: &str,
    token: Token<'_>,
    place: usize,
) {
    out.begin();
    match call {
        "push_front" => out.done(pointer.push_front(token)),
        "push_back" => out.done(pointer.push_back(token)),
        "replace" => replaced(out, pointer.replace(place, token)),
        _ => out.unknown(),
    }
}

/// Writes a replaced token, or the error, in a field after its numbers.
fn replaced(out: &mut Out<'_>, replaced: Result<Option<Token<'static>>, Fault<ReplaceError>>) {
    if let (false, Err(Fault::Refused(ReplaceError { index, count }))) = (
        out.is_case(),
        &replaced,
    ) {
        out.show(index);
        out.show(",");
        out.show(count);
        out.show(" ");
    }
    out.removed(replaced)
}

/// Makes the edits of a request, each a call and its argument.
pub fn request(out: &mut Out<'_>, pointer: Pointer<'_>, mut words: Words<'_>) {
    let Ok(mut pointer) = pointer.to_buf(out.alloc()) else {
        return out.memory();
    };
    for _turn in 0..u64::MAX {
        if words.is_empty() {
            break;
        }
        step(out, &mut pointer, words.next());
        out.field("text", &pointer);
    }
}

/// Makes one edit.
fn step(out: &mut Out<'_>, pointer: &mut PointerBuf, edit: &str) {
    let (call, text) = edit.split_once(' ').unwrap_or((edit, ""));
    out.name(call);
    match call {
        "with_leading_token" | "with_trailing_token" => with(out, pointer.as_ptr(), call, text),
        "replace" => {
            let (place, text) = text.split_once(' ').unwrap_or(("", ""));
            match place.parse() {
                Ok(place) => self::edit(out, pointer, call, text, place),
                Err(_) => out.unknown(),
            }
        }
        _ => self::edit(out, pointer, call, text, 0),
    }
}

/// Adds a token to a pointer.
fn with(out: &mut Out<'_>, pointer: Pointer<'_>, call: &str, text: &str) {
    match Token::new(out.alloc(), CowStr::Borrowed(text)) {
        Ok(token) => crate::pointers::with(out, call, pointer, token),
        Err(_) => out.memory(),
    }
}
