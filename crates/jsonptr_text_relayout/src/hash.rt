//! Hashes of values: two values that are the same have the same hash.
//!
//! Two values that differ have the same hash with a chance of 1 in 2^64. No contract rests on that,
//! since the text that is made by the hashes is read again.

use crate::tree::TreeChild;
use fast_float::Numeral;
use json::Token;
use std::alloc::{AllocError, Global};
use std::collections::BTreeMap;
use std::hash::{DefaultHasher, Hasher};

/// Returns the hash of a text, which is a key or a string.
pub fn of_text(text: &str) -> u64 {
    let mut hasher = DefaultHasher::new();
    hasher.write_u8(b'"');
    hasher.write(text.as_bytes());
    hasher.finish()
}

/// Returns the hash of a token that is a whole value, and `None` for any other token.
pub fn of_scalar(token: Token<'_>) -> Option<u64> {
    match token {
        Token::String(text) => Some(of_text(text)),
        Token::Number(text) => Some(of_number(text)),
        Token::Bool(truth) => Some(if truth { 2 } else { 1 }),
        Token::Null => Some(0),
        _ => None,
    }
}

/// Returns the hash of a number: of an integer of 64 bits, or else of the bits of the nearest float.
fn of_number(text: &str) -> u64 {
    let digits = text.strip_prefix('-').unwrap_or(text);
    let is_negative = digits.len() < text.len();
    let numeral = Numeral::scan(digits.as_bytes());
    let mut hasher = DefaultHasher::new();
    match (is_negative, numeral.to_u64(), numeral.to_i64(is_negative)) {
        (false, Some(integer), _) => hasher.write_u64(integer),
        (true, _, Some(integer)) if integer < 0 => write_negative(&mut hasher, integer),
        _ => write_float(&mut hasher, numeral.to_float::<f64>(is_negative)),
    }
    hasher.finish()
}

/// Adds a negative integer.
fn write_negative(hasher: &mut DefaultHasher, integer: i64) {
    hasher.write_u8(b'-');
    hasher.write_i64(integer);
}

/// Adds the bits of a float.
fn write_float(hasher: &mut DefaultHasher, float: f64) {
    hasher.write_u8(b'.');
    if !float.is_nan() {
        hasher.write_u64(float.to_bits());
    }
}

/// Returns the hash of an array with these elements.
pub fn of_array(elements: &[TreeChild]) -> u64 {
    let mut hasher = DefaultHasher::new();
    hasher.write_u8(b'[');
    for element in elements {
        hasher.write_u64(element.node.hash);
    }
    hasher.finish()
}

/// Returns the hash of an object with these members, in whatever order they are.
///
/// # Errors
///
/// [`AllocError`] if an allocation fails.
pub fn of_object(alloc: Global, members: &[TreeChild]) -> Result<u64, AllocError> {
    let mut hasher = DefaultHasher::new();
    hasher.write_u8(b'{');
    let last = by_key(alloc, members)?;
    for (key, index) in &last {
        hasher.write_u64(*key);
        if let Some(member) = members.get(*index) {
            hasher.write_u64(member.node.hash);
        }
    }
    Ok(hasher.finish())
}

/// Returns the index of the last member with each key, by the hash of the key.
///
/// # Errors
///
/// [`AllocError`] if an allocation fails.
pub fn by_key(alloc: Global, members: &[TreeChild]) -> Result<BTreeMap<u64, usize>, AllocError> {
    let mut last = BTreeMap::new(alloc);
    for (index, member) in members.iter().enumerate() {
        last.insert(member.key, index)?;
    }
    Ok(last)
}
