//! Values that are displayed or hashed, neither of which allocates.
use crate::failing_writer::reports_failures;
use crate::out::Out;
use crate::tabled::tabled;
use crate::words::Words;
use jsonptr::index::{Index, OutOfBoundsError, ParseIndexError};
use jsonptr::{Fault, InvalidEncoding, Pointer, PointerBuf, ReplaceError, Token};
use std::alloc::AllocError;
use std::borrow::CowStr;
use std::fmt::Display;
use std::hash::{DefaultHasher, Hash, Hasher};

/// Displays a value, on writers that fail if the call is `fail`: the kind of value, and its text.
pub fn run(out: &mut Out<'_>, call: &str, kind: &str, text: &str) {
    match kind {
        "token" => match Token::from_encoded(CowStr::Borrowed(text)) {
            Ok(token) => display(out, call, &token),
            Err(_) => out.unknown(),
        },
        "index" => match Index::try_from(text) {
            Ok(index) => display(out, call, &index),
            Err(_) => out.unknown(),
        },
        _ => match Pointer::parse(text) {
            Ok(pointer) => run_pointer(out, call, kind, pointer),
            Err(_) => out.unknown(),
        },
    }
}

/// Displays a pointer of some kind.
fn run_pointer(out: &mut Out<'_>, call: &str, kind: &str, pointer: Pointer<'_>) {
    match kind {
        "pointer" => display(out, call, &pointer),
        "plain" => match pointer.to_buf(out.alloc()) {
            Ok(pointer) => display(out, call, &pointer),
            Err(_) => out.memory(),
        },
        _ => match tabled(out.alloc(), pointer) {
            Ok(pointer) => display(out, call, &pointer),
            Err(_) => out.memory(),
        },
    }
}

/// Displays a value, on writers that fail if the call is `fail`.
fn display<T: Display>(out: &mut Out<'_>, call: &str, value: &T) {
    match call {
        "show failing" => reports_failures(out, value),
        _ => out.display(value),
    }
}

/// Displays an error that has no report, on failing writers.
pub fn run_error(out: &mut Out<'_>, kind: &str) {
    match kind {
        "InvalidEncoding::Tilde" => reports_failures(out, &InvalidEncoding::Tilde),
        "InvalidEncoding::Slash" => reports_failures(out, &InvalidEncoding::Slash),
        "OutOfBoundsError" => {
            let (length, index) = (0, 1);
            reports_failures(out, &OutOfBoundsError { length, index })
        }
        "ReplaceError" => reports_failures(out, &ReplaceError { index: 1, count: 0 }),
        "InvalidCharacterError" => match Index::try_from("x") {
            Err(ParseIndexError::InvalidCharacter(error)) => reports_failures(out, &error),
            _ => out.unknown(),
        },
        "Fault::Refused" => reports_failures(out, &Fault::Refused(InvalidEncoding::Tilde)),
        "Fault::Memory" => reports_failures(out, &memory()),
        _ => out.unknown(),
    }
}

/// The memory error of a `Fault`, at a type with an error of its own.
fn memory() -> Fault<InvalidEncoding> {
    Fault::Memory(AllocError)
}

/// Compares the hashes of two values: their kind, and their texts.
pub fn run_hashes(out: &mut Out<'_>, mut words: Words<'_>) {
    let kind = words.next();
    let hash = hash(out, kind, words.next());
    match (hash, self::hash(out, kind, words.next())) {
        (Some(hash), Some(other)) => out.line(hash == other),
        _ => out.unknown(),
    }
}

/// Returns the hash of the value that a text is.
fn hash(out: &mut Out<'_>, kind: &str, text: &str) -> Option<u64> {
    match kind {
        "token" => Some(hash_of(&Token::from_encoded(CowStr::Borrowed(text)).ok()?, out)),
        "pointer" => Some(hash_of(&Pointer::parse(text).ok()?, out)),
        "plain" => Some(hash_of(&PointerBuf::from_text(out.alloc(), text).ok()?, out)),
        _ => Some(hash_of(&tabled(out.alloc(), Pointer::parse(text).ok()?).ok()?, out)),
    }
}

/// Returns the hash of a value, between the marks.
fn hash_of<T: Hash>(value: &T, out: &mut Out<'_>) -> u64 {
    out.begin();
    let mut state = DefaultHasher::new();
    value.hash(&mut state);
    let hash = state.finish();
    out.end();
    hash
}
