//! Calls on a document at a pointer.
use crate::document::Document;
use crate::out::Out;
use crate::requests;
use crate::words::Words;
use jsonptr::{Assign, Delete, Fault, Pointer, Resolve, ResolveMut, assign, resolve};
use jsonptr_value::discard;
use std::alloc::Global;
use std::mem;

/// Makes a call: the document, the call, the pointer, and a value. A case has the document before
/// and after the call, and a request after a call that may change it.
pub fn run<D>(out: &mut Out<'_>, document: &str, call: &str, mut words: Words<'_>)
where
    D: Document
        + Resolve<Value = D, Error = resolve::Error>
        + ResolveMut<Value = D, Error = resolve::Error>
        + Assign<Value = D, Error = assign::Error>
        + Delete<Value = D>,
{
    let Some(mut document) = D::read(out.alloc(), document) else {
        return out.unknown();
    };
    let (pointer, value) = (words.next(), words.next());
    if out.is_case() {
        out.line(&document);
    }
    match Pointer::parse(pointer) {
        Ok(pointer) => make(out, call, &mut document, pointer, value),
        Err(_) => out.unknown(),
    }
    if out.is_case() {
        out.state();
        out.line(&document);
    } else if call != "resolve" {
        out.name("document");
        document.show(out);
    }
}

/// Makes a call on a document.
pub fn make<D>(out: &mut Out<'_>, call: &str, document: &mut D, pointer: Pointer<'_>, value: &str)
where
    D: Document
        + Resolve<Value = D, Error = resolve::Error>
        + ResolveMut<Value = D, Error = resolve::Error>
        + Assign<Value = D, Error = assign::Error>
        + Delete<Value = D>,
{
    match call {
        "resolve" => find(out, document, pointer),
        "delete" => {
            out.begin();
            match pointer.delete(out.alloc(), document) {
                Ok(old) => replaced(out, old),
                Err(error) => out.said(error),
            }
        }
        _ => match D::read(out.alloc(), value) {
            Some(value) => write(out, call, document, pointer, value),
            None => out.unknown(),
        },
    }
}

/// Resolves a pointer.
fn find<D>(out: &mut Out<'_>, document: &D, pointer: Pointer<'_>)
where
    D: Document + Resolve<Value = D, Error = resolve::Error>,
{
    out.begin();
    match pointer.resolve(out.alloc(), document) {
        Ok(value) => said(out, "value", "", value),
        Err(fault) => missed(out, fault, pointer),
    }
}

/// Makes a call that writes a value to a document.
fn write<D>(out: &mut Out<'_>, call: &str, document: &mut D, pointer: Pointer<'_>, value: D)
where
    D: Document
        + ResolveMut<Value = D, Error = resolve::Error>
        + Assign<Value = D, Error = assign::Error>,
{
    out.begin();
    match call {
        "write" => match replace(out.alloc(), document, pointer, value) {
            Ok(old) => said(out, "old", "", &old),
            Err(fault) => missed(out, fault, pointer),
        },
        "assign" => match pointer.assign(out.alloc(), document, value) {
            Ok(old) => replaced(out, old),
            Err(fault) => misplaced(out, fault, pointer),
        },
        _ => out.unknown(),
    }
}

/// Replaces the value that a pointer resolves to, and returns the old one.
fn replace<D>(
    alloc: Global,
    document: &mut D,
    pointer: Pointer<'_>,
    value: D,
) -> Result<D, Fault<resolve::Error>>
where
    D: Drop + ResolveMut<Value = D, Error = resolve::Error>,
{
    Ok(mem::replace(pointer.resolve_mut(alloc, document)?, value))
}

/// Writes a value, in a field after a mark.
fn said<D: Document>(out: &mut Out<'_>, name: &str, mark: &str, value: &D) {
    if out.is_case() {
        out.said(value);
    } else {
        out.field(name, mark);
        value.show(out);
    }
}

/// Writes the value that a call replaced or removed, if any.
fn replaced<D: Document>(out: &mut Out<'_>, old: Option<D>) {
    match old {
        Some(old) => said(out, "old", "=", &old),
        None => {
            if !out.is_case() {
                out.name("old");
            }
            out.nothing()
        }
    }
}

/// Writes why a pointer does not resolve.
fn missed(out: &mut Out<'_>, fault: Fault<resolve::Error>, pointer: Pointer<'_>) {
    if out.is_case() {
        return out.said(fault);
    }
    match fault {
        Fault::Refused(error) => requests::resolve_error(out, error, pointer),
        Fault::Memory(_) => out.memory(),
    }
}

/// Writes why no value can be assigned.
fn misplaced(out: &mut Out<'_>, fault: Fault<assign::Error>, pointer: Pointer<'_>) {
    if out.is_case() {
        return out.said(fault);
    }
    match fault {
        Fault::Refused(error) => requests::assign_error(out, error, pointer),
        Fault::Memory(_) => out.memory(),
    }
}

/// Makes calls in turn on a scalar: the pointer, and the calls.
pub fn deep<D>(out: &mut Out<'_>, pointer: &str, mut words: Words<'_>)
where
    D: Document
        + Resolve<Value = D, Error = resolve::Error>
        + ResolveMut<Value = D, Error = resolve::Error>
        + Assign<Value = D, Error = assign::Error>
        + Delete<Value = D>,
{
    let Ok(pointer) = Pointer::parse(pointer) else {
        return out.unknown();
    };
    let Some(mut document) = D::read(out.alloc(), "0") else {
        return out.unknown();
    };
    for _turn in 0..u64::MAX {
        match words.next() {
            "" => break,
            call => make(out, call, &mut document, pointer, "1"),
        }
    }
    discard(document)
}
