//! Calls on errors: those that a call returned, and those made of any fields.
use crate::failing_writer::reports_failures;
use crate::out::Out;
use crate::words::Words;
use jsonptr::diagnostic::{Diagnose, Diagnostic, Report};
use jsonptr::index::{Index, OutOfBoundsError, ParseIndexError, StringOrToken};
use jsonptr::{
    EncodingError, Fault, InvalidEncoding, ParseError, Pointer, PointerBuf, Token, assign, resolve,
};
use serde_json::Value;
use std::borrow::CowStr;
use std::convert::AsStr;
use std::fmt::Display;

/// Makes a call on the error of another call: the call, the kind of error, and what it is of.
pub fn run(out: &mut Out<'_>, mut words: Words<'_>) {
    let (call, kind) = (words.next(), words.next());
    match kind {
        "resolve" => of_resolve(out, call, words.next(), words.next()),
        "assign" => of_assign(out, call, words.next(), words.next()),
        "token" => of_token(out, call, words.next()),
        "index" => of_index(out, call, words.next(), words),
        "pointer" => of_pointer(out, call, words.next()),
        _ => out.unknown(),
    }
}

/// Makes a call on the error of a pointer.
fn of_pointer(out: &mut Out<'_>, call: &str, text: &str) {
    match Pointer::parse(text) {
        Ok(_) => out.unknown(),
        Err(error) => on_text(out, call, error, text),
    }
}

/// Makes a call on the error of a token.
fn of_token(out: &mut Out<'_>, call: &str, text: &str) {
    match Token::from_encoded(CowStr::Borrowed(text)) {
        Ok(_) => out.unknown(),
        Err(error) => on_text(out, call, error, text),
    }
}

/// Makes a call on the error of an index, on its text, or on the next word if there is one.
fn of_index(out: &mut Out<'_>, call: &str, text: &str, mut words: Words<'_>) {
    let subject = if words.is_empty() { text } else { words.next() };
    match Index::try_from(text) {
        Ok(_) => out.unknown(),
        Err(error) => on_index(out, call, error, subject),
    }
}

/// Makes a call on the error of resolving a pointer in a document.
fn of_resolve(out: &mut Out<'_>, call: &str, document: &str, pointer: &str) {
    let Ok(pointer) = Pointer::parse(pointer) else {
        return out.unknown();
    };
    let Ok(document) = Value::from_str(out.alloc(), document) else {
        return out.unknown();
    };
    match pointer.resolve(out.alloc(), &document) {
        Err(Fault::Refused(error)) => on_pointer(out, call, error, pointer),
        _ => out.unknown(),
    }
}

/// Makes a call on the error of assigning at a pointer in a document.
fn of_assign(out: &mut Out<'_>, call: &str, document: &str, pointer: &str) {
    let Ok(pointer) = Pointer::parse(pointer) else {
        return out.unknown();
    };
    let Ok(mut document) = Value::from_str(out.alloc(), document) else {
        return out.unknown();
    };
    match pointer.assign(out.alloc(), &mut document, Value::Null) {
        Err(Fault::Refused(error)) => on_pointer(out, call, error, pointer),
        _ => out.unknown(),
    }
}

/// Makes a call on an error whose subject is a text.
pub fn on_text<E: Diagnostic<Subject = String> + Display>(
    out: &mut Out<'_>,
    call: &str,
    error: E,
    subject: &str,
) {
    match String::from_str(out.alloc(), subject) {
        Ok(subject) => on(out, call, &error.into_report(subject)),
        Err(_) => out.memory(),
    }
}

/// Makes a call on an error of an index.
pub fn on_index(out: &mut Out<'_>, call: &str, error: ParseIndexError, subject: &str) {
    match String::from_str(out.alloc(), subject) {
        Ok(subject) => on(out, call, &error.into_report(StringOrToken::from(subject))),
        Err(_) => out.memory(),
    }
}

/// Makes a call on an error whose subject is a pointer.
pub fn on_pointer<E: Diagnostic<Subject = PointerBuf> + Display>(
    out: &mut Out<'_>,
    call: &str,
    error: E,
    subject: Pointer<'_>,
) {
    match subject.to_buf(out.alloc()) {
        Ok(subject) => on(out, call, &error.into_report(subject)),
        Err(_) => out.memory(),
    }
}

/// Makes a call on a report.
pub fn on<E: Diagnostic + Display>(out: &mut Out<'_>, call: &str, report: &Report<E>)
where
    E::Subject: AsStr,
{
    match call {
        "labels" => {
            out.begin();
            out.labels(report.original().labels(out.alloc(), report.subject()))
        }
        "render" => {
            out.begin();
            out.result(report.render(out.alloc()))
        }
        "clone" => copy(out, report),
        "display" => out.display(report),
        "display failing" => reports_failures(out, report),
        _ => out.unknown(),
    }
}

/// Clones the first label of a report.
fn copy<E: Diagnostic>(out: &mut Out<'_>, report: &Report<E>) {
    let Ok(Some(labels)) = report.original().labels(out.alloc(), report.subject()) else {
        return out.unknown();
    };
    let Some(label) = labels.first() else {
        return out.unknown();
    };
    out.begin();
    match label.clone() {
        Ok(label) => out.label_copied(&label),
        Err(error) => out.said(error),
    }
}

/// Makes a call that makes a report: the call, and the text of a pointer.
pub fn join(out: &mut Out<'_>, mut words: Words<'_>) {
    let (call, text) = (words.next(), words.next());
    let Ok(subject) = String::from_str(out.alloc(), text) else {
        return out.memory();
    };
    out.begin();
    let parsed = match call {
        "diagnose" => Pointer::parse(text).diagnose(subject),
        _ => Pointer::parse(text).diagnose_with(move || subject),
    };
    crate::texts::rich(out, parsed)
}

/// Makes a call on an error of any fields: the kind of error, its fields, and its subject.
pub fn run_fields(out: &mut Out<'_>, call: &str, kind: &str, mut words: Words<'_>) {
    match kind {
        "parse error" => match parse_error(&mut words) {
            Some(error) => on_text(out, call, error, words.next()),
            None => out.unknown(),
        },
        "encoding error" => match encoding_error(&mut words) {
            Some(error) => on_text(out, call, error, words.next()),
            None => out.unknown(),
        },
        "resolve error" => match (resolve_error(&mut words), Pointer::parse(words.next())) {
            (Some(error), Ok(subject)) => on_pointer(out, call, error, subject),
            _ => out.unknown(),
        },
        "invalid_encoding_len" => match parse_error(&mut words) {
            Some(error) => {
                out.begin();
                out.said(error.invalid_encoding_len(words.next()))
            }
            None => out.unknown(),
        },
        _ => out.unknown(),
    }
}

/// Returns the error of a pointer whose token is malformed: its offset, and the fields of its cause.
pub fn parse_error(words: &mut Words<'_>) -> Option<ParseError> {
    Some(ParseError::InvalidEncoding {
        offset: words.number()?,
        source: encoding_error(words)?,
    })
}

/// Returns the error of a token: its offset, and its cause.
pub fn encoding_error(words: &mut Words<'_>) -> Option<EncodingError> {
    let offset = words.number()?;
    match words.next() {
        "Tilde" => Some(EncodingError {
            offset,
            source: InvalidEncoding::Tilde,
        }),
        "Slash" => Some(EncodingError {
            offset,
            source: InvalidEncoding::Slash,
        }),
        _ => None,
    }
}

/// Returns the error of a text that is not an index.
pub fn index_error(text: &str) -> Option<ParseIndexError> {
    text.parse::<Index>().err()
}

/// Returns the error of an index and a length.
fn bounds_error(word: &str) -> Option<OutOfBoundsError> {
    let (index, length) = word.split_once(',')?;
    Some(OutOfBoundsError {
        index: index.parse().ok()?,
        length: length.parse().ok()?,
    })
}

/// Returns a resolve error: its kind, its position, its offset, and its cause.
pub fn resolve_error(words: &mut Words<'_>) -> Option<resolve::Error> {
    let kind = words.next();
    let (position, offset, cause) = (words.number()?, words.number()?, words.next());
    match kind {
        "FailedToParseIndex" => Some(resolve::Error::FailedToParseIndex {
            position,
            offset,
            source: index_error(cause)?,
        }),
        "OutOfBounds" => Some(resolve::Error::OutOfBounds {
            position,
            offset,
            source: bounds_error(cause)?,
        }),
        "NotFound" => Some(resolve::Error::NotFound { position, offset }),
        "Unreachable" => Some(resolve::Error::Unreachable { position, offset }),
        _ => None,
    }
}

/// Returns an assign error: its kind, its position, its offset, and its cause.
pub fn assign_error(words: &mut Words<'_>) -> Option<assign::Error> {
    let kind = words.next();
    let (position, offset, cause) = (words.number()?, words.number()?, words.next());
    match kind {
        "FailedToParseIndex" => Some(assign::Error::FailedToParseIndex {
            position,
            offset,
            source: index_error(cause)?,
        }),
        "OutOfBounds" => Some(assign::Error::OutOfBounds {
            position,
            offset,
            source: bounds_error(cause)?,
        }),
        _ => None,
    }
}
