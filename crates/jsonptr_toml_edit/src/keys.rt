//! How far keys of a text lead along tokens. These are hints: no contract says that they are right.
use crate::skip::{after_dot, key_end};
use crate::span::slice;
use jsonptr::index::Index;
use jsonptr::{Pointer, PointerBuf, Token};
use jsonptr_text_piece::span::Span;
use std::alloc::{AllocError, Global};
use std::borrow::CowStr;
use std::fmt::Formatter;
use toml_parser::{ParseError, quoted};
use toml_writer::write_key;

/// The tokens of a pointer, decoded.
#[derive(Debug, Drop)]
pub struct KeyPath {
    /// The tokens.
    pub tokens: Vec<String>,
    /// For each number of tokens, how many tables there are so far in the array of tables there: the
    /// next token has to be the index of the last one.
    pub counts: Vec<usize>,
}

/// How a dotted key ends beside the tokens.
#[derive(Clone, Copy, Debug, PartialEq, Eq)]
pub enum KeyEnd {
    /// All keys are tokens.
    Whole,
    /// The keys go on after the last token.
    Deeper,
    /// A key is not the token.
    Beside,
}

/// How far a dotted key leads.
#[derive(Clone, Copy, Debug)]
pub struct Reach {
    /// How many tokens it leads along, with those before it.
    pub count: usize,
    /// How it ends.
    pub ending: KeyEnd,
}

/// Returns the path of the pointer.
///
/// # Errors
///
/// [`AllocError`] if an allocation fails.
pub fn key_path_of(alloc: Global, pointer: Pointer<'_>) -> Result<KeyPath, AllocError> {
    let mut tokens = Vec::new(alloc);
    let mut counts = Vec::new(alloc);
    counts.push(0usize)?;
    for token in pointer.tokens() {
        let decoded = token.decoded(alloc)?;
        tokens.push(String::from_str(alloc, decoded.as_str())?)?;
        counts.push(0usize)?;
    }
    Ok(KeyPath { tokens, counts })
}

/// Returns whether the key, as it is written, is the token.
fn is_key(alloc: Global, written: &str, token: &str) -> Result<bool, AllocError> {
    if written.starts_with('\'') {
        return Ok(
            written
                .strip_prefix('\'')
                .and_then(|key| key.strip_suffix('\''))
                == Some(token),
        );
    }
    if !written.starts_with('"') {
        return Ok(written == token);
    }
    match quoted(alloc, written) {
        Ok((key, _)) => Ok(key.as_str() == token),
        Err(ParseError::OutOfMemory) => Err(AllocError),
        Err(_) => Ok(false),
    }
}

/// Returns the number that the token is as an array index, as [`Index`] reads it: without a sign and
/// without leading zeros.
pub fn index_of(token: &str) -> Option<usize> {
    match token.parse::<Index>() {
        Ok(Index::Num(index)) => Some(index),
        _ => None,
    }
}

/// Returns whether the token is the index.
pub fn is_index(token: &str, index: usize) -> bool {
    index_of(token) == Some(index)
}

/// Returns how far the dotted key leads along the tokens, from the first ones on that lead to it.
///
/// # Errors
///
/// [`AllocError`] if an allocation fails.
pub fn follow(
    alloc: Global,
    text: &str,
    key: Span,
    path: &KeyPath,
    from: usize,
) -> Result<Reach, AllocError> {
    let mut reach = whole(from);
    let mut next = key.from;
    for _key in key.from..=key.to {
        let to = key_end(text, next);
        reach = step(
            alloc,
            slice(text, Span { from: next, to }),
            path,
            reach.count,
        )?;
        if reach.ending != KeyEnd::Whole {
            break;
        }
        match after_dot(text, to) {
            Some(at) => next = at,
            None => break,
        }
    }
    Ok(reach)
}

/// Returns how far one key leads, as it is written, after so many tokens.
///
/// # Errors
///
/// [`AllocError`] if an allocation fails.
pub fn step(
    alloc: Global,
    written: &str,
    path: &KeyPath,
    count: usize,
) -> Result<Reach, AllocError> {
    let reach = enter_element(path, count);
    if reach.ending != KeyEnd::Whole {
        return Ok(reach);
    }
    let Some(token) = path.tokens.get(reach.count) else {
        return Ok(deeper(reach.count));
    };
    if is_key(alloc, written, token.as_str())? {
        Ok(whole(reach.count.saturating_add(1)))
    } else {
        Ok(beside(reach.count))
    }
}

/// Returns how far the last table leads of the array of tables after so many tokens, if one is there.
pub fn enter_element(path: &KeyPath, count: usize) -> Reach {
    let tables = path.counts.get(count).copied().unwrap_or(0);
    if tables == 0 {
        return whole(count);
    }
    match path.tokens.get(count) {
        Some(token) if is_index(token.as_str(), tables - 1) => whole(count.saturating_add(1)),
        Some(_) => beside(count),
        None => deeper(count),
    }
}

/// Returns the reach of keys that are all tokens.
fn whole(count: usize) -> Reach {
    Reach {
        count,
        ending: KeyEnd::Whole,
    }
}

/// Returns the reach of keys that go on after the last token.
fn deeper(count: usize) -> Reach {
    Reach {
        count,
        ending: KeyEnd::Deeper,
    }
}

/// Returns the reach of keys that lead elsewhere.
fn beside(count: usize) -> Reach {
    Reach {
        count,
        ending: KeyEnd::Beside,
    }
}

/// Adds the TOML text of the tokens between the two numbers, as a dotted key.
///
/// # Errors
///
/// [`AllocError`] if an allocation fails.
pub fn push_keys(
    alloc: Global,
    piece: &mut String,
    tokens: &Vec<String>,
    from: usize,
    to: usize,
) -> Result<(), AllocError> {
    for index in from..to {
        let Some(token) = tokens.get(index) else {
            break;
        };
        if index != from {
            piece.push('.')?;
        }
        piece.push_str(key_text(alloc, token.as_str())?.as_str())?;
    }
    Ok(())
}

/// Adds the TOML text of the tokens of the pointer, as a dotted key.
///
/// # Errors
///
/// [`AllocError`] if an allocation fails.
pub fn push_pointer(
    alloc: Global,
    piece: &mut String,
    keys: Pointer<'_>,
) -> Result<(), AllocError> {
    let mut is_first = true;
    for token in keys.tokens() {
        if !is_first {
            piece.push('.')?;
        }
        is_first = false;
        let decoded = token.decoded(alloc)?;
        piece.push_str(key_text(alloc, decoded.as_str())?.as_str())?;
    }
    Ok(())
}

/// Returns the TOML text of the key.
///
/// # Errors
///
/// [`AllocError`] if an allocation fails.
pub fn key_text(alloc: Global, key: &str) -> Result<String, AllocError> {
    let mut formatter = Formatter::new(String::new(alloc));
    match write_key(&mut formatter, key) {
        Ok(()) => Ok(formatter.into_inner()),
        Err(_) => Err(AllocError),
    }
}

/// Returns a pointer of the tokens between the two numbers.
///
/// # Errors
///
/// [`AllocError`] if an allocation fails.
pub fn pointer_of(
    alloc: Global,
    tokens: &Vec<String>,
    from: usize,
    to: usize,
) -> Result<PointerBuf, AllocError> {
    let mut keys = PointerBuf::new(alloc);
    for index in from..to {
        let Some(token) = tokens.get(index) else {
            break;
        };
        push_token(alloc, &mut keys, token.as_str())?;
    }
    Ok(keys)
}

/// Adds a token at the end of the pointer.
///
/// # Errors
///
/// [`AllocError`] if an allocation fails.
pub fn push_token(alloc: Global, keys: &mut PointerBuf, token: &str) -> Result<(), AllocError> {
    keys.push_back(Token::new(alloc, CowStr::Borrowed(token))?)
}
