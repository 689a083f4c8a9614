//! Calls that parse a text.
use crate::out::Out;
use crate::words::Words;
use jsonptr::index::Index;
use jsonptr::{Fault, Pointer, PointerBuf, RichParseError, Token};
use jsonptr_tabled::TabledPointer;
use std::borrow::CowStr;
use std::fmt::Display;

/// Makes a call that borrows a text: the call, and the text.
pub fn lent(out: &mut Out<'_>, mut words: Words<'_>) {
    let (call, text) = (words.next(), words.next());
    let alloc = out.alloc();
    out.begin();
    match call {
        "Token::new" => out.made(Token::new(alloc, CowStr::Borrowed(text))),
        "Token::from_encoded" => out.made(Token::from_encoded(CowStr::Borrowed(text))),
        "Pointer::parse" => out.result(Pointer::parse(text)),
        "PointerBuf::from_text" => out.result(PointerBuf::from_text(alloc, text)),
        "Index::from_str" => out.result(text.parse::<Index>()),
        "Index::try_from" => out.result(Index::try_from(text)),
        _ => out.unknown(),
    }
}

/// Makes a call that takes a text: the call, and the text.
pub fn kept(out: &mut Out<'_>, mut words: Words<'_>) {
    let (call, text) = (words.next(), words.next());
    let Ok(text) = String::from_str(out.alloc(), text) else {
        return out.memory();
    };
    out.begin();
    take(out, call, text)
}

/// Makes a call that takes a text.
fn take(out: &mut Out<'_>, call: &str, text: String) {
    match call {
        "Token::new" => out.made(Token::new(out.alloc(), CowStr::Owned(text))),
        "Token::from_encoded" => out.made(Token::from_encoded(CowStr::Owned(text))),
        "PointerBuf::parse" => rich(out, PointerBuf::parse(text)),
        "PointerBuf::try_from" => out.result(PointerBuf::try_from(text)),
        "TabledPointer::parse" => faulty(out, TabledPointer::parse(out.alloc(), text)),
        "Index::try_from" => out.result(Index::try_from(text)),
        "Index::try_from lent" => out.result(Index::try_from(&text)),
        "decompose" => match PointerBuf::parse(text) {
            Ok(pointer) => out.said(pointer),
            Err(report) => out.said(report.decompose().1),
        },
        "into_original" => match PointerBuf::parse(text) {
            Ok(pointer) => out.said(pointer),
            Err(report) => out.said(report.into_original()),
        },
        _ => out.unknown(),
    }
}

/// Writes a pointer, or the error and the text that was not one.
pub fn rich<T: Display + Drop>(out: &mut Out<'_>, parsed: Result<T, RichParseError>) {
    match parsed {
        Ok(pointer) => out.said(pointer),
        Err(report) => out.report(&report),
    }
}

/// Writes a pointer, the error and the text that was not one, or that an allocation failed.
fn faulty<T: Display + Drop>(out: &mut Out<'_>, parsed: Result<T, Fault<RichParseError>>) {
    match parsed {
        Ok(pointer) => out.said(pointer),
        Err(Fault::Refused(report)) => out.report(&report),
        Err(Fault::Memory(error)) => out.said(error),
    }
}
