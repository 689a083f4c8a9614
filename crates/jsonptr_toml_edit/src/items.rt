//! The headers and pairs of a text. These are hints: no contract says that they are right.
use crate::skip::{keys_end, value_end};
use crate::span::{line_start, next_line, skip_blanks, skip_filler, text_start};
use jsonptr_text_piece::span::Span;
use std::alloc::{AllocError, Global};
use toml_parser::text::byte_at;

/// What an item is.
#[derive(Clone, Copy, Debug, PartialEq, Eq)]
pub enum ItemKind {
    /// The header of a table, `[a]`.
    Table,
    /// The header of a table in an array, `[[a]]`.
    Element,
    /// A key and its value.
    Pair,
}

/// A header, or a pair that has a line of its own.
#[derive(Clone, Copy, Debug)]
pub struct TomlItem {
    /// What it is.
    pub kind: ItemKind,
    /// The offset at which its line begins.
    pub line: usize,
    /// Its dotted key.
    pub key: Span,
    /// The value of a pair.
    pub value: Span,
    /// The offset at which the line after it begins.
    pub end: usize,
}

/// Returns the headers and the pairs of the text, in order.
///
/// # Errors
///
/// [`AllocError`] if an allocation fails.
pub fn items_of(alloc: Global, text: &str) -> Result<Vec<TomlItem>, AllocError> {
    let mut items = Vec::new(alloc);
    let mut at = text_start(text);
    for _item in 0..text.len() {
        at = skip_filler(text, at);
        if at >= text.len() {
            break;
        }
        let item = item_at(text, at);
        at = item.end;
        items.push(item)?;
    }
    Ok(items)
}

/// Returns the item that begins at the offset.
fn item_at(text: &str, at: usize) -> TomlItem {
    let line = line_start(text, at);
    let second = at.saturating_add(1);
    if byte_at(text, at) != b'[' {
        pair_at(text, line, at)
    } else if byte_at(text, second) == b'[' {
        header_at(text, line, ItemKind::Element, second.saturating_add(1))
    } else {
        header_at(text, line, ItemKind::Table, second)
    }
}

/// Returns the header whose key begins at the offset, after white space.
fn header_at(text: &str, line: usize, kind: ItemKind, at: usize) -> TomlItem {
    let from = skip_blanks(text, at);
    let to = keys_end(text, from);
    TomlItem {
        kind,
        line,
        key: Span { from, to },
        value: Span { from: to, to },
        end: next_line(text, to),
    }
}

/// Returns the pair that begins at the offset.
fn pair_at(text: &str, line: usize, at: usize) -> TomlItem {
    let to = keys_end(text, at);
    let equals = skip_blanks(text, to);
    let from = skip_blanks(text, equals.saturating_add(1));
    let value = Span {
        from,
        to: value_end(text, from),
    };
    TomlItem {
        kind: ItemKind::Pair,
        line,
        key: Span { from: at, to },
        value,
        end: next_line(text, value.to),
    }
}
