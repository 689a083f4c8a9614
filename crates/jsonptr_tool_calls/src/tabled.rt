//! Calls on tabled pointers, and on pointers that are taken or copied.
use crate::out::Out;
use crate::pointers::{get, texts_of};
use jsonptr::{Pointer, PointerBuf};
use jsonptr_tabled::TabledPointer;
use std::alloc::{AllocError, Global};
use std::ops::Bound;

/// Converts a pointer to a tabled one.
///
/// # Errors
///
/// [`AllocError`] if an allocation fails.
pub fn tabled(alloc: Global, pointer: Pointer<'_>) -> Result<TabledPointer, AllocError> {
    TabledPointer::from_plain(alloc, pointer.to_buf(alloc)?)
}

/// Makes a call that borrows a tabled pointer.
pub fn read(out: &mut Out<'_>, call: &str, pointer: &TabledPointer, first: usize, second: usize) {
    out.begin();
    match call {
        "as_ptr" => out.said(pointer.as_ptr()),
        "offsets" => offsets(out, pointer.offsets()),
        "count" => out.said(pointer.count()),
        "front" => out.token(pointer.front()),
        "back" => out.token(pointer.back()),
        "parent" => out.part(pointer.parent()),
        _ => range(out, call, pointer, first, second),
    }
}

/// Calls `get` with a kind of range, or splits the pointer.
fn range(out: &mut Out<'_>, call: &str, pointer: &TabledPointer, first: usize, second: usize) {
    get!(out, call, pointer, first, second)
}

/// Writes a table of offsets.
fn offsets(out: &mut Out<'_>, offsets: &[usize]) {
    out.end();
    for offset in offsets {
        out.show(offset);
        out.show(" ");
    }
    out.line("");
}

/// Compares two tabled pointers.
pub fn compare(out: &mut Out<'_>, call: &str, pointer: &TabledPointer, other: Pointer<'_>) {
    let Ok(other) = tabled(out.alloc(), other) else {
        return out.memory();
    };
    out.begin();
    match call {
        "==" => out.said(pointer == &other),
        "cmp" => out.order(pointer.cmp(&other)),
        _ => out.unknown(),
    }
}

/// Makes a call that takes or copies a plain pointer, or makes a new one.
pub fn take(out: &mut Out<'_>, call: &str, pointer: Pointer<'_>) {
    let Ok(plain) = pointer.to_buf(out.alloc()) else {
        return out.memory();
    };
    out.begin();
    match call {
        "PointerBuf::clone" => out.result(plain.clone()),
        "from_plain" => out.result(TabledPointer::from_plain(out.alloc(), plain)),
        "PointerBuf::new" => out.said(PointerBuf::new(out.alloc())),
        "PointerBuf::root" => out.said(PointerBuf::root(out.alloc())),
        "TabledPointer::new" => out.said(TabledPointer::new(out.alloc())),
        _ => out.unknown(),
    }
}

/// Makes a call that takes or copies a tabled pointer.
pub fn take_tabled(out: &mut Out<'_>, call: &str, pointer: Pointer<'_>) {
    match tabled(out.alloc(), pointer) {
        Ok(tabled) => {
            out.begin();
            match call {
                "into_plain" => out.said(tabled.into_plain()),
                _ => out.result(tabled.clone()),
            }
        }
        Err(_) => out.memory(),
    }
}
