//! The cases of `tools/call_cases.py`.
use crate::out::Out;
use crate::words::Words;
use crate::{
    documents, edits, errors, in_text, patches, pointers, programs, sessions, shows, tabled,
    text_edits, texts, tokens, toml_edits, undos,
};
use jsonptr::{EncodingError, InvalidEncoding, ParseError, Pointer, Token};
use serde_json::Value as Json;
use std::borrow::CowStr;
use toml::Value as Toml;

/// Runs a case: the group of its call, and the words of the group.
pub fn run(out: &mut Out<'_>, mut words: Words<'_>) {
    match words.next() {
        "text" => texts::lent(out, words),
        "text kept" => texts::kept(out, words),
        "token" => token(out, words.next(), words.next(), words.next()),
        "token kept" => token_kept(out, words),
        "token owned" => token_owned(out, words),
        "number" => tokens::number(out, words),
        "index" => tokens::bounds(out, words.next(), words),
        "show" => shows::run(out, "show", words.next(), words.next()),
        "show failing" => shows::run(out, "show failing", words.next(), words.next()),
        "show failing error" => shows::run_error(out, words.next()),
        "hash" => shows::run_hashes(out, words),
        "report" => errors::run(out, words),
        "report joined" => errors::join(out, words),
        "fields" => errors::run_fields(out, words.next(), words.next(), words),
        "known" => known(out, words.next()),
        group => in_text_or_patch(out, group, words),
    }
}

/// Runs a case of a call on a text, of the program, of a patch or of a difference.
fn in_text_or_patch(out: &mut Out<'_>, group: &str, words: Words<'_>) {
    match group {
        "in text" => in_text::run(out, words),
        "program" => programs::run(out, words),
        "diff" | "change" => patches::run(out, group, words),
        _ if group.starts_with("patch") => patches::run(out, group, words),
        _ if group.contains("in text") => text_edits::run(out, group, words),
        _ if group.contains("in toml") => toml_edits::run(out, group, words),
        _ => on_document(out, group, words),
    }
}

/// Makes a call on a token, encoded, or on two.
fn token(out: &mut Out<'_>, call: &str, text: &str, other: &str) {
    let token = Token::from_encoded(CowStr::Borrowed(text));
    match (token, Token::from_encoded(CowStr::Borrowed(other))) {
        (Ok(token), Ok(other)) => {
            out.begin();
            match call {
                "==" | "cmp" => tokens::compare(out, call, &token, &other),
                _ => tokens::read(out, call, &token),
            }
        }
        _ => out.unknown(),
    }
}

/// Makes a call that takes a token, encoded.
fn token_kept(out: &mut Out<'_>, mut words: Words<'_>) {
    let call = words.next();
    match Token::from_encoded(CowStr::Borrowed(words.next())) {
        Ok(token) => {
            out.begin();
            tokens::take(out, call, token)
        }
        Err(_) => out.unknown(),
    }
}

/// Makes a call that takes a token that owns its text, encoded.
fn token_owned(out: &mut Out<'_>, mut words: Words<'_>) {
    let call = words.next();
    let Ok(text) = String::from_str(out.alloc(), words.next()) else {
        return out.memory();
    };
    match Token::from_encoded(CowStr::Owned(text)) {
        Ok(token) => {
            out.begin();
            tokens::take(out, call, token)
        }
        Err(_) => out.unknown(),
    }
}

/// Makes a call that has a condition on its arguments.
fn known(out: &mut Out<'_>, call: &str) {
    out.begin();
    match call {
        "from_static" => out.said(from_static()),
        "new_unchecked" => out.said(new_unchecked()),
        "complete_offset" => out.said(complete_offset()),
        _ => out.unknown(),
    }
}

/// Returns the length of a pointer of a constant text.
fn from_static() -> usize {
    let pointer = Pointer::from_static("/foo/bar");
    pointer.len()
}

/// Returns the length of a pointer of a text that is known to be valid.
fn new_unchecked() -> usize {
    let pointer = Pointer::new_unchecked("/a~1b");
    pointer.len()
}

/// Returns the offset of the invalid byte of an error.
fn complete_offset() -> usize {
    let error = ParseError::InvalidEncoding {
        offset: 4,
        source: EncodingError {
            offset: 8,
            source: InvalidEncoding::Tilde,
        },
    };
    error.complete_offset()
}

/// Runs a case of calls on a document: its type, and the words of the group.
fn on_document(out: &mut Out<'_>, group: &str, words: Words<'_>) {
    let mut rest = words;
    match (group, rest.next()) {
        ("document", "json") => documents::run::<Json>(out, rest.next(), rest.next(), rest),
        ("document", _) => documents::run::<Toml>(out, rest.next(), rest.next(), rest),
        ("deep", "json") => documents::deep::<Json>(out, rest.next(), rest),
        ("deep", _) => documents::deep::<Toml>(out, rest.next(), rest),
        ("undo", "json") => undos::run::<Json>(out, rest.next(), rest.next(), rest),
        ("undo", _) => undos::run::<Toml>(out, rest.next(), rest.next(), rest),
        ("session", "json") => sessions::run::<Json>(out, rest.next(), rest),
        ("session", _) => sessions::run::<Toml>(out, rest.next(), rest),
        (group, call) => match Pointer::parse(rest.next()) {
            Ok(pointer) => on_pointer(out, group, call, pointer, rest),
            Err(_) => out.unknown(),
        },
    }
}

/// Runs a case of a call on a pointer.
fn on_pointer(
    out: &mut Out<'_>,
    group: &str,
    call: &str,
    pointer: Pointer<'_>,
    mut words: Words<'_>,
) {
    match group {
        "pointer" => pointers::read(out, call, pointer),
        "pointer with" => match Token::from_encoded(CowStr::Borrowed(words.next())) {
            Ok(token) => {
                out.begin();
                pointers::with(out, call, pointer, token)
            }
            Err(_) => out.unknown(),
        },
        "range" => match (words.number(), words.number()) {
            (Some(first), Some(second)) => pointers::range(out, call, pointer, first, second),
            _ => out.unknown(),
        },
        "kept" => tabled::take(out, call, pointer),
        "tabled kept" => tabled::take_tabled(out, call, pointer),
        "edit" => match words.next() {
            "plain" => match pointer.to_buf(out.alloc()) {
                Ok(mut pointer) => edits::run(out, &mut pointer, call, words),
                Err(_) => out.memory(),
            },
            _ => match tabled::tabled(out.alloc(), pointer) {
                Ok(mut pointer) => edits::run(out, &mut pointer, call, words),
                Err(_) => out.memory(),
            },
        },
        "tabled" => on_table(out, call, pointer, words),
        _ => match Pointer::parse(words.next()) {
            Ok(other) => on_two(out, group, call, pointer, other),
            Err(_) => out.unknown(),
        },
    }
}

/// Runs a case of a call on a tabled pointer.
fn on_table(out: &mut Out<'_>, call: &str, pointer: Pointer<'_>, mut words: Words<'_>) {
    let (Some(first), Some(second)) = (words.number(), words.number()) else {
        return out.unknown();
    };
    match tabled::tabled(out.alloc(), pointer) {
        Ok(pointer) => tabled::read(out, call, &pointer, first, second),
        Err(_) => out.memory(),
    }
}

/// Runs a case of a call on two pointers.
fn on_two(out: &mut Out<'_>, group: &str, call: &str, pointer: Pointer<'_>, other: Pointer<'_>) {
    match group {
        "pointers" => pointers::compare(out, call, pointer, other),
        "tabled two" => match tabled::tabled(out.alloc(), pointer) {
            Ok(pointer) => tabled::compare(out, call, &pointer, other),
            Err(_) => out.memory(),
        },
        "order" => pointers::order(out, call, pointer, other),
        _ => out.unknown(),
    }
}
