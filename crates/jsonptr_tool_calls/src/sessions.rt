//! Sessions: lists of calls on a pointer and a document.
use crate::document::Document;
use crate::out::Out;
use crate::tabled::tabled;
use crate::words::Words;
use jsonptr::{Pointer, RichParseError, Token};
use jsonptr_session::{Call, Reply};
use std::alloc::{AllocError, Global};
use std::fmt::Display;

/// Runs a session: the document, the kind of pointer, the pointer, and the calls. Writes pointer
/// and document before and after it.
pub fn run<D: Document>(out: &mut Out<'_>, document: &str, mut words: Words<'_>) {
    let kind = words.next();
    let Ok(pointer) = Pointer::parse(words.next()) else {
        return out.unknown();
    };
    let Some(document) = D::read(out.alloc(), document) else {
        return out.unknown();
    };
    match calls(out.alloc(), words) {
        Some(calls) => match kind {
            "plain" => plain(out, document, pointer, calls),
            _ => on_table(out, document, pointer, calls),
        },
        None => out.unknown(),
    }
}

/// Returns the calls that the remaining words are.
fn calls<D: Document>(alloc: Global, mut words: Words<'_>) -> Option<Vec<Call<D>>> {
    let mut calls = Vec::new(alloc);
    for _turn in 0..u64::MAX {
        if words.is_empty() {
            break;
        }
        calls.push(call(alloc, words.next())?).ok()?;
    }
    Some(calls)
}

/// Returns the call that a word is: its name and its arguments.
fn call<D: Document>(alloc: Global, word: &str) -> Option<Call<D>> {
    let (name, with) = word.split_once(' ').unwrap_or((word, ""));
    match name {
        "pop_back" => Some(Call::PopBack),
        "pop_front" => Some(Call::PopFront),
        "clear" => Some(Call::Clear),
        "resolve" => Some(Call::Resolve),
        "delete" => Some(Call::Delete),
        "write" => Some(Call::Write(D::read(alloc, with)?)),
        "assign" => Some(Call::Assign(D::read(alloc, with)?)),
        "append" => Some(Call::Append(Pointer::parse(with).ok()?.to_buf(alloc).ok()?)),
        "replace" => replacing(alloc, with),
        _ => call_with(name, String::from_str(alloc, with).ok()?),
    }
}

/// Returns the call that replaces the token at a position.
fn replacing<D: Document>(alloc: Global, with: &str) -> Option<Call<D>> {
    let (place, text) = with.split_once(' ')?;
    Some(Call::Replace(place.parse().ok()?, String::from_str(alloc, text).ok()?))
}

/// Returns the call of this name with this argument.
fn call_with<D: Document>(name: &str, text: String) -> Option<Call<D>> {
    match name {
        "parse" => Some(Call::Parse(text)),
        "push_back" => Some(Call::PushBack(text)),
        "push_front" => Some(Call::PushFront(text)),
        _ => None,
    }
}

/// Runs the calls on a plain pointer.
fn plain<D: Document>(
    out: &mut Out<'_>,
    mut document: D,
    pointer: Pointer<'_>,
    calls: Vec<Call<D>>,
) {
    let Ok(mut pointer) = pointer.to_buf(out.alloc()) else {
        return out.memory();
    };
    state(out, &pointer, &document);
    out.begin();
    let replies = document.run(out.alloc(), &mut pointer, calls);
    show(out, replies);
    state(out, &pointer, &document)
}

/// Runs the calls on a tabled pointer.
fn on_table<D: Document>(
    out: &mut Out<'_>,
    mut document: D,
    pointer: Pointer<'_>,
    calls: Vec<Call<D>>,
) {
    let Ok(mut pointer) = tabled(out.alloc(), pointer) else {
        return out.memory();
    };
    state(out, &pointer, &document);
    out.begin();
    let replies = document.run_tabled(out.alloc(), &mut pointer, calls);
    show(out, replies);
    state(out, &pointer, &document)
}

/// Writes a pointer and a document.
fn state<P: Display, D: Display>(out: &mut Out<'_>, pointer: &P, document: &D) {
    out.show(pointer);
    out.show(" ");
    out.line(document);
}

/// Writes the replies, one a line, and the mark of the state.
fn show<D: Document>(out: &mut Out<'_>, replies: Result<Vec<Reply<D>>, AllocError>) {
    match replies {
        Ok(replies) => {
            out.end();
            for reply in &replies {
                show_one(out, reply);
            }
        }
        Err(error) => out.said(error),
    }
    out.state();
}

/// Writes a reply.
fn show_one<D: Document>(out: &mut Out<'_>, reply: &Reply<D>) {
    match reply {
        Reply::Done => out.line("done"),
        Reply::BadPointer(report) => show_report(out, report),
        Reply::Token(token) => show_token(out, token),
        Reply::BadPosition(error) => out.line(error),
        Reply::Value(value) => line_of(out, "value ", value),
        Reply::NoValue(error) => out.line(error),
        Reply::Assigned(old) => show_old(out, "assigned", "assigned for ", old),
        Reply::BadPlace(error) => out.line(error),
        Reply::Deleted(old) => show_old(out, "not deleted", "deleted ", old),
        Reply::Memory(_) => out.line("memory"),
    }
}

/// Writes the error of a text that is not a pointer, and the text.
fn show_report(out: &mut Out<'_>, report: &RichParseError) {
    out.show(report);
    out.show(": ");
    out.line(report.subject())
}

/// Writes the token that a call removed or replaced.
fn show_token(out: &mut Out<'_>, token: &Option<Token<'_>>) {
    match token {
        Some(token) => line_of(out, "token ", &token.encoded()),
        None => out.line("no token"),
    }
}

/// Writes the value that a call replaced or removed, after the second text, or else the first text.
fn show_old<D: Document>(out: &mut Out<'_>, none: &str, some: &str, old: &Option<D>) {
    match old {
        Some(value) => line_of(out, some, value),
        None => out.line(none),
    }
}

/// Writes a line of a kind and a value.
fn line_of<T: Display>(out: &mut Out<'_>, kind: &str, value: &T) {
    out.show(kind);
    out.line(value);
}
