//! The requests of `docs/COMPARING.md`.
use crate::out::Out;
use crate::words::Words;
use crate::{documents, edits, errors, pointers, tokens};
use jsonptr::diagnostic::Diagnostic;
use jsonptr::index::{Index, OutOfBoundsError, ParseIndexError, StringOrToken};
use jsonptr::{EncodingError, ParseError, Pointer, PointerBuf, Token, assign, resolve};
use serde_json::Value as Json;
use std::borrow::CowStr;
use toml::Value as Toml;

/// The fields of a pointer, each with its call.
const READS: [(&str, &str); 17] = [
    ("text", "as_str"),
    ("display", "display"),
    ("owned", "to_buf"),
    ("count", "count"),
    ("len", "len"),
    ("is_empty", "is_empty"),
    ("is_root", "is_root"),
    ("tokens", "each token"),
    ("components", "each component"),
    ("json", "to_json_value"),
    ("front", "front"),
    ("first", "first"),
    ("back", "back"),
    ("last", "last"),
    ("parent", "parent"),
    ("split_front", "split_front"),
    ("split_back", "split_back"),
];

/// The fields of two pointers, each with its call.
const COMPARISONS: [(&str, &str); 8] = [
    ("starts_with", "starts_with"),
    ("ends_with", "ends_with"),
    ("strip_prefix", "strip_prefix"),
    ("strip_suffix", "strip_suffix"),
    ("intersection", "intersection"),
    ("concat", "concat"),
    ("eq", "=="),
    ("cmp", "cmp"),
];

/// Makes the calls of a request.
pub fn run(out: &mut Out<'_>, request: &str, mut words: Words<'_>) {
    match request {
        "parse" => parse(out, words.next()),
        "token" => token(out, words.next()),
        "encoded" => encoded(out, words.next()),
        "index" => index(out, words.next()),
        "two tokens" => two_tokens(out, words.next(), words.next()),
        "two indices" => two_indices(out, words.next(), words.next()),
        _ => run_other(out, request, words),
    }
}

/// Makes the calls of a request whose words are not texts, or any number of them.
fn run_other(out: &mut Out<'_>, request: &str, words: Words<'_>) {
    match request {
        "number" => {
            out.name("encoded");
            tokens::number(out, words)
        }
        "bounds" => {
            bounds(out, "for_len", words);
            bounds(out, "for_len_incl", words);
            bounds(out, "for_len_unchecked", words)
        }
        "from tokens" => from_tokens(out, words),
        "addresses" => addresses(out),
        _ => on_error(out, request, words),
    }
}

/// Makes the calls of a request on a pointer.
fn on_pointer(out: &mut Out<'_>, request: &str, mut words: Words<'_>) {
    let Ok(pointer) = Pointer::parse(words.next()) else {
        return out.unknown();
    };
    match request {
        "reads" => reads(out, pointer),
        "two pointers" => two_pointers(out, pointer, words.next()),
        "edit" => edits::request(out, pointer, words),
        "split at offset" => {
            out.name("split");
            range(out, "split_at_offset", pointer, words)
        }
        _ => get(out, pointer, words),
    }
}

/// Makes the calls that read a pointer.
fn reads(out: &mut Out<'_>, pointer: Pointer<'_>) {
    for (field, call) in READS {
        out.name(field);
        pointers::read(out, call, pointer);
    }
}

/// Calls `get` with a kind of range, or with a pair of bounds.
fn get(out: &mut Out<'_>, pointer: Pointer<'_>, mut words: Words<'_>) {
    out.name("got");
    match words.next() {
        "bounds" => pointers::bounded(out, pointer, words.next(), words.next()),
        kind => range(out, kind, pointer, words),
    }
}

/// Calls `get` with a kind of range, or splits the pointer.
fn range(out: &mut Out<'_>, kind: &str, pointer: Pointer<'_>, mut words: Words<'_>) {
    let first = if words.is_empty() {
        Some(0)
    } else {
        words.number()
    };
    let second = if words.is_empty() {
        Some(0)
    } else {
        words.number()
    };
    match (first, second) {
        (Some(first), Some(second)) => pointers::range(out, kind, pointer, first, second),
        _ => out.unknown(),
    }
}

/// Makes the calls on two pointers, borrowed and owned.
fn two_pointers(out: &mut Out<'_>, pointer: Pointer<'_>, other: &str) {
    let Ok(other) = Pointer::parse(other) else {
        return out.unknown();
    };
    for (field, call) in COMPARISONS {
        out.name(field);
        pointers::compare(out, call, pointer, other);
    }
    match pointer.to_buf(out.alloc()) {
        Ok(pointer) => two_owned(out, &pointer, other),
        Err(_) => out.memory(),
    }
}

/// Compares two owned pointers.
fn two_owned(out: &mut Out<'_>, pointer: &PointerBuf, other: Pointer<'_>) {
    match other.to_buf(out.alloc()) {
        Ok(other) => {
            out.field("owned_eq", pointer == &other);
            out.name("owned_cmp");
            out.order(pointer.cmp(&other))
        }
        Err(_) => out.memory(),
    }
}

/// Parses a text as a pointer, borrowed and owned.
fn parse(out: &mut Out<'_>, text: &str) {
    match Pointer::parse(text) {
        Ok(pointer) => parsed(out, pointer),
        Err(error) => {
            let complete = error.complete_offset();
            refused(out, &error, complete, text)
        }
    }
    match String::from_str(out.alloc(), text) {
        Ok(text) => parse_owned(out, text),
        Err(_) => out.memory(),
    }
}

/// Writes a pointer, and its decoded tokens.
fn parsed(out: &mut Out<'_>, pointer: Pointer<'_>) {
    out.field("text", pointer);
    out.field("count", pointer.count());
    out.name("tokens");
    for token in pointer.tokens() {
        out.item(token);
    }
}

/// Writes why a text is not a pointer. The caller passes `complete`, since only a parsed text is
/// known to meet the condition of `complete_offset`.
fn refused(out: &mut Out<'_>, error: &ParseError, complete: usize, text: &str) {
    out.field("offset", error.offset());
    out.field("pointer_offset", error.pointer_offset());
    out.field("source_offset", error.source_offset());
    out.field("complete_offset", complete);
    out.field("is_no_leading_slash", error.is_no_leading_slash());
    out.field("is_invalid_encoding", error.is_invalid_encoding());
    out.field("display", error);
    out.field("len", error.invalid_encoding_len(text))
}

/// Parses a text that the pointer owns, and writes the report if it is none.
fn parse_owned(out: &mut Out<'_>, text: String) {
    if let Err(report) = PointerBuf::parse(text) {
        out.field("subject", report.subject());
        out.field("report", &report);
        out.name("label");
        errors::on(out, "labels", &report)
    }
}

/// Makes the token of a text.
fn token(out: &mut Out<'_>, text: &str) {
    match Token::new(out.alloc(), CowStr::Borrowed(text)) {
        Ok(token) => {
            read(out, "encoded", &token);
            read(out, "decoded", &token);
            read(out, "display", &token);
            read(out, "is_next", &token);
            read(out, "index", &token)
        }
        Err(_) => out.memory(),
    }
}

/// Writes a field of a token.
fn read(out: &mut Out<'_>, field: &str, token: &Token<'_>) {
    out.name(field);
    tokens::read(out, field, token)
}

/// Makes the token of an encoded text.
fn encoded(out: &mut Out<'_>, text: &str) {
    match Token::from_encoded(CowStr::Borrowed(text)) {
        Ok(token) => {
            read(out, "encoded", &token);
            read(out, "decoded", &token);
            read(out, "is_next", &token);
            read(out, "index", &token)
        }
        Err(error) => {
            out.field("offset", error.offset);
            out.name("source");
            out.debug(&error.source);
            out.field("display", &error);
            out.field("cause", error.source);
            out.name("label");
            errors::on_text(out, "labels", error, text)
        }
    }
}

/// Parses an index.
fn index(out: &mut Out<'_>, text: &str) {
    let index = text.parse::<Index>();
    out.name("index");
    tokens::index(out, &index);
    match index {
        Ok(index) => out.field("display", index),
        Err(error) => {
            out.field("display", &error);
            if let ParseIndexError::InvalidCharacter(cause) = &error {
                out.field("cause", cause);
            }
            out.name("label");
            errors::on_index(out, "labels", error, text)
        }
    }
}

/// Writes a field of an index and a length.
fn bounds(out: &mut Out<'_>, call: &str, words: Words<'_>) {
    let mut rest = words;
    if rest.next().parse::<Index>().is_ok() {
        out.name(call);
        tokens::bounds(out, call, words)
    }
}

/// Compares the tokens of two texts.
fn two_tokens(out: &mut Out<'_>, text: &str, other: &str) {
    match Token::new(out.alloc(), CowStr::Borrowed(text)) {
        Ok(token) => compare(out, &token, other),
        Err(_) => out.memory(),
    }
}

/// Compares a token with that of a text.
fn compare(out: &mut Out<'_>, token: &Token<'_>, text: &str) {
    match Token::new(out.alloc(), CowStr::Borrowed(text)) {
        Ok(other) => {
            out.field("eq", token == &other);
            out.name("cmp");
            tokens::compare(out, "cmp", token, &other)
        }
        Err(_) => out.memory(),
    }
}

/// Compares two indices.
fn two_indices(out: &mut Out<'_>, text: &str, other: &str) {
    match (text.parse::<Index>(), other.parse::<Index>()) {
        (Ok(index), Ok(other)) => {
            out.field("eq", index == other);
            out.name("cmp");
            out.order(index.cmp(&other))
        }
        _ => out.unknown(),
    }
}

/// Makes a pointer of the tokens of texts.
fn from_tokens(out: &mut Out<'_>, mut words: Words<'_>) {
    let mut tokens = Vec::new(out.alloc());
    for _turn in 0..u64::MAX {
        if words.is_empty() {
            break;
        }
        let token = Token::new(out.alloc(), CowStr::Borrowed(words.next()));
        if !token.is_ok_and(|token| tokens.push(token).is_ok()) {
            return out.memory();
        }
    }
    out.name("text");
    out.result(PointerBuf::from_tokens(out.alloc(), tokens.into_iter()))
}

/// Writes the addresses of the errors.
fn addresses(out: &mut Out<'_>) {
    out.field("ParseError", ParseError::url());
    out.field("EncodingError", EncodingError::url());
    out.field("ParseIndexError", ParseIndexError::url());
    out.field("resolve::Error", resolve::Error::url());
    out.field("assign::Error", assign::Error::url())
}

/// Makes the calls of a request on an error of any fields.
fn on_error(out: &mut Out<'_>, request: &str, mut words: Words<'_>) {
    match request {
        "parse error" => match errors::parse_error(&mut words) {
            Some(error) => parse_error(out, error, words.next()),
            None => out.unknown(),
        },
        "encoding error" => match errors::encoding_error(&mut words) {
            Some(error) => {
                out.field("display", &error);
                out.name("label");
                errors::on_text(out, "labels", error, words.next())
            }
            None => out.unknown(),
        },
        "index error" => match errors::index_error(words.next()) {
            Some(error) => index_error(out, error, words.next()),
            None => out.unknown(),
        },
        "resolve error" => {
            match (
                errors::resolve_error(&mut words),
                Pointer::parse(words.next()),
            ) {
                (Some(error), Ok(subject)) => resolve_error(out, error, subject),
                _ => out.unknown(),
            }
        }
        "assign error" => {
            match (
                errors::assign_error(&mut words),
                Pointer::parse(words.next()),
            ) {
                (Some(error), Ok(subject)) => assign_error(out, error, subject),
                _ => out.unknown(),
            }
        }
        _ => on_document(out, request, words),
    }
}

/// Writes the fields of a parse error, on a text.
fn parse_error(out: &mut Out<'_>, error: ParseError, subject: &str) {
    out.field("display", &error);
    out.field("len", error.invalid_encoding_len(subject));
    out.name("label");
    errors::on_text(out, "labels", error, subject)
}

/// Writes the labels of an error of an index, on a text and on its token.
fn index_error(out: &mut Out<'_>, error: ParseIndexError, subject: &str) {
    match String::from_str(out.alloc(), subject) {
        Ok(text) => labels(out, "label", &error, StringOrToken::from(text)),
        Err(_) => out.memory(),
    }
    match Token::new(out.alloc(), CowStr::Borrowed(subject)) {
        Ok(token) => match token.into_owned(out.alloc()) {
            Ok(token) => labels(out, "token_label", &error, StringOrToken::from(token)),
            Err(_) => out.memory(),
        },
        Err(_) => out.memory(),
    }
}

/// Writes a field with the labels of an error of an index.
fn labels(out: &mut Out<'_>, field: &str, error: &ParseIndexError, subject: StringOrToken) {
    out.name(field);
    out.labels(error.labels(out.alloc(), &subject))
}

/// Writes the fields of a resolve error, on a pointer.
pub fn resolve_error(out: &mut Out<'_>, error: resolve::Error, pointer: Pointer<'_>) {
    let kind = match &error {
        resolve::Error::FailedToParseIndex { .. } => "FailedToParseIndex",
        resolve::Error::OutOfBounds { .. } => "OutOfBounds",
        resolve::Error::NotFound { .. } => "NotFound",
        resolve::Error::Unreachable { .. } => "Unreachable",
    };
    out.field("error", kind);
    out.field("position", error.position());
    out.field("offset", error.offset());
    out.name("cause");
    match &error {
        resolve::Error::FailedToParseIndex { source, .. } => tokens::cause(out, source),
        resolve::Error::OutOfBounds { source, .. } => bounds_cause(out, source),
        _ => {}
    }
    out.field("is_failed_to_parse_index", error.is_failed_to_parse_index());
    out.field("is_out_of_bounds", error.is_out_of_bounds());
    out.field("is_not_found", error.is_not_found());
    out.field("is_unreachable", error.is_unreachable());
    out.field("display", &error);
    out.name("label");
    errors::on_pointer(out, "labels", error, pointer)
}

/// Writes the fields of an assign error, on a pointer.
pub fn assign_error(out: &mut Out<'_>, error: assign::Error, pointer: Pointer<'_>) {
    let kind = match &error {
        assign::Error::FailedToParseIndex { .. } => "FailedToParseIndex",
        assign::Error::OutOfBounds { .. } => "OutOfBounds",
    };
    out.field("error", kind);
    out.field("position", error.position());
    out.field("offset", error.offset());
    out.name("cause");
    match &error {
        assign::Error::FailedToParseIndex { source, .. } => tokens::cause(out, source),
        assign::Error::OutOfBounds { source, .. } => bounds_cause(out, source),
    }
    out.field("is_failed_to_parse_index", error.is_failed_to_parse_index());
    out.field("is_out_of_bounds", error.is_out_of_bounds());
    out.field("display", &error);
    out.name("label");
    errors::on_pointer(out, "labels", error, pointer)
}

/// Writes why an index is not within bounds: its numbers, and its text.
fn bounds_cause(out: &mut Out<'_>, error: &OutOfBoundsError) {
    out.show(error.index);
    out.show(",");
    out.show(error.length);
    out.show(" ");
    out.show(error)
}

/// Makes a call of a request on a document: its type, its text, the pointer, and a value.
fn on_document(out: &mut Out<'_>, request: &str, words: Words<'_>) {
    let mut rest = words;
    match (request, rest.next()) {
        ("resolve" | "write" | "assign" | "delete", "json") => {
            documents::run::<Json>(out, rest.next(), request, rest)
        }
        ("resolve" | "write" | "assign" | "delete", _) => {
            documents::run::<Toml>(out, rest.next(), request, rest)
        }
        _ => on_pointer(out, request, words),
    }
}
