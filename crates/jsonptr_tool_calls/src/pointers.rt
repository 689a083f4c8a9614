//! Calls on borrowed pointers.
use crate::out::Out;
use jsonptr::index::Index;
use jsonptr::{Component, Pointer, PointerBuf, Token};
use std::cmp::Ordering;
use std::ops::Bound;

/// Makes a call that reads a pointer.
pub fn read(out: &mut Out<'_>, call: &str, pointer: Pointer<'_>) {
    out.begin();
    match call {
        "as_str" => out.said(pointer.as_str()),
        "display" => out.said(pointer),
        "len" => out.said(pointer.len()),
        "is_empty" => out.said(pointer.is_empty()),
        "is_root" => out.said(pointer.is_root()),
        "count" => out.said(pointer.count()),
        "tokens" => out.token(pointer.tokens().last()),
        "components" => component(out, pointer.components().last()),
        "each token" => each_token(out, pointer),
        "each component" => each_component(out, pointer),
        _ => read_end(out, call, pointer),
    }
}

/// Makes a call on the first or the last token of a pointer.
fn read_end(out: &mut Out<'_>, call: &str, pointer: Pointer<'_>) {
    match call {
        "front" => out.token(pointer.front()),
        "first" => out.token(pointer.first()),
        "back" => out.token(pointer.back()),
        "last" => out.token(pointer.last()),
        "parent" => out.part(pointer.parent()),
        "split_front" => split_front(out, pointer.split_front()),
        "split_back" => split_back(out, pointer.split_back()),
        _ => copy(out, call, pointer),
    }
}

/// Writes the first token and the rest.
fn split_front(out: &mut Out<'_>, parts: Option<(Token<'_>, Pointer<'_>)>) {
    match parts {
        Some((token, rest)) => out.split(Some((token.encoded(), rest.as_str()))),
        None => out.nothing(),
    }
}

/// Writes the tokens before the last, and the last.
fn split_back(out: &mut Out<'_>, parts: Option<(Pointer<'_>, Token<'_>)>) {
    match parts {
        Some((front, token)) => out.split(Some((front.as_str(), token.encoded()))),
        None => out.nothing(),
    }
}

/// Makes a call that copies a pointer.
fn copy(out: &mut Out<'_>, call: &str, pointer: Pointer<'_>) {
    let alloc = out.alloc();
    match call {
        "to_buf" => out.result(pointer.to_buf(alloc)),
        "to_json_value" => out.result(pointer.to_json_value(alloc)),
        "PointerBuf::from_tokens" => out.result(PointerBuf::from_tokens(alloc, pointer.tokens())),
        _ => out.unknown(),
    }
}

/// Writes the last component of a pointer, if it has one.
fn component(out: &mut Out<'_>, component: Option<Component<'_>>) {
    match component {
        Some(Component::Token(token)) => out.said(token.encoded()),
        Some(Component::Root) => out.said("root"),
        None => out.nothing(),
    }
}

/// Writes each token of a pointer.
fn each_token(out: &mut Out<'_>, pointer: Pointer<'_>) {
    for token in pointer.tokens() {
        out.item(token.encoded());
    }
}

/// Writes each component of a pointer: the root, or a token, decoded, after an equals sign.
fn each_component(out: &mut Out<'_>, pointer: Pointer<'_>) {
    for component in pointer.components() {
        match component {
            Component::Root => out.item("Root"),
            Component::Token(token) => {
                out.show("=");
                out.item(token);
            }
        }
    }
}

/// Makes a call on two pointers.
pub fn compare(out: &mut Out<'_>, call: &str, pointer: Pointer<'_>, other: Pointer<'_>) {
    out.begin();
    match call {
        "starts_with" => out.said(pointer.starts_with(other)),
        "ends_with" => out.said(pointer.ends_with(other)),
        "strip_prefix" => out.part(pointer.strip_prefix(other)),
        "strip_suffix" => out.part(pointer.strip_suffix(other)),
        "intersection" => out.said(pointer.intersection(other)),
        "==" => out.said(pointer == other),
        "cmp" => out.order(pointer.cmp(&other)),
        "concat" => out.result(pointer.concat(out.alloc(), other)),
        _ => out.unknown(),
    }
}

/// Makes a call that adds a token to a pointer.
pub fn with(out: &mut Out<'_>, call: &str, pointer: Pointer<'_>, token: Token<'_>) {
    match call {
        "with_leading_token" => out.result(pointer.with_leading_token(out.alloc(), token)),
        "with_trailing_token" => out.result(pointer.with_trailing_token(out.alloc(), token)),
        _ => out.unknown(),
    }
}

/// Calls `get` of a pointer with a kind of range between two positions, or splits the pointer.
macro_rules! get {
    ($out:expr, $call:expr, $pointer:expr, $first:expr, $second:expr) => {
        match $call {
            "at" => $out.token($pointer.get($first)),
            "range" => $out.part($pointer.get($first..$second)),
            "from" => $out.part($pointer.get($first..)),
            "to" => $out.part($pointer.get(..$first)),
            "all" => $out.part($pointer.get(..)),
            "inclusive" => $out.part($pointer.get($first..=$second)),
            "to inclusive" => $out.part($pointer.get(..=$first)),
            "excluded" => {
                $out.part($pointer.get((Bound::Excluded($first), Bound::Excluded($second))))
            }
            "split_at_offset" => $out.split(texts_of($pointer.split_at_offset($first))),
            "split_at" => $out.split(texts_of($pointer.split_at($first))),
            _ => $out.unknown(),
        }
    };
}

pub(crate) use get;

/// Returns the texts of two pointers.
pub fn texts_of<'a>(parts: Option<(Pointer<'a>, Pointer<'a>)>) -> Option<(&'a str, &'a str)> {
    let (front, rest) = parts?;
    Some((front.as_str(), rest.as_str()))
}

/// Calls `get` with a kind of range, or splits the pointer.
pub fn range(out: &mut Out<'_>, call: &str, pointer: Pointer<'_>, first: usize, second: usize) {
    out.begin();
    get!(out, call, pointer, first, second)
}

/// Returns the bound that a word represents.
fn bound(word: &str) -> Option<Bound<usize>> {
    match word.split_once(' ') {
        None => Some(Bound::Unbounded),
        Some(("included", place)) => Some(Bound::Included(place.parse().ok()?)),
        Some((_, place)) => Some(Bound::Excluded(place.parse().ok()?)),
    }
}

/// Calls `get` with a pair of bounds.
pub fn bounded(out: &mut Out<'_>, pointer: Pointer<'_>, start: &str, end: &str) {
    match (bound(start), bound(end)) {
        (Some(start), Some(end)) => out.part(pointer.get((start, end))),
        _ => out.unknown(),
    }
}

/// Compares the last components or indices of two pointers.
pub fn order(out: &mut Out<'_>, kind: &str, pointer: Pointer<'_>, other: Pointer<'_>) {
    out.begin();
    match kind {
        "component" => out.order(last_components(pointer, other)),
        _ => match last_index(pointer) {
            Some(index) => order_index(out, index, last_index(other)),
            None => out.unknown(),
        },
    }
}

/// Compares the last components of two pointers.
fn last_components(pointer: Pointer<'_>, other: Pointer<'_>) -> Ordering {
    pointer.components().last().cmp(&other.components().last())
}

/// Compares two indices.
fn order_index(out: &mut Out<'_>, index: Index, other: Option<Index>) {
    match other {
        Some(other) => out.order(index.cmp(&other)),
        None => out.unknown(),
    }
}

/// Returns the last index of a pointer.
fn last_index(pointer: Pointer<'_>) -> Option<Index> {
    pointer.back()?.to_index().ok()
}
