//! The passes over a token's bytes: the first fault, the decoded text, and the encoded text.
ghost use Rattle.std.specs.Prelude.{◌≡◌, ◌<◌, ◌≤◌, ◌+◌, ◌-◌, ◌++◌, ◌↔◌, length, string_bytes, vec_len, vec_capacity, IsTrue, IfOk, MatchOption};
ghost use Rattle.jsonptr_grammar.specs.Text.{esc, escape_of, unesc};
ghost use Rattle.jsonptr_grammar.specs.Grammar.{IsToken};
ghost use Rattle.jsonptr_grammar.specs.FirstFault.{IsFirst};
ghost use Rattle.jsonptr_base.specs.declared.token.InvalidEncoding.TheVariants.{Tilde, Slash};
ghost use Rattle.memchr.specs.Find.{IsFirstByte, is_byte, is_byte2};
ghost use Rattle.jsonptr_base.specs.Private.{IsEscapeCut, IsPlainBefore, IsInvalidAt, IsValidBefore, HasInvalidBefore};
ghost use Rattle.jsonptr_base.specs.Token.{IsEncodingErrorOf};

use super::{EncodingError, InvalidEncoding};
use std::alloc::{AllocError, Global};

/// Returns the offset of the first `~` or `/`. A short text is searched byte by byte.
#[inline(always)]
pub(super) fn first_special(bytes: &[u8]) -> Option<usize>
    ensures { IsFirstByte (is_byte2 126 47) bytes.now result }
{
    if bytes.len() >= SHORT {
        return memchr::memchr2(b'~', b'/', bytes);
    }
    bytes.iter().position(|byte| *byte == b'~' || *byte == b'/')
}

/// Returns the offset of the first `~`. A short text is searched byte by byte.
#[inline(always)]
pub(super) fn first_tilde(bytes: &[u8]) -> Option<usize>
    ensures { IsFirstByte (is_byte 126) bytes.now result }
{
    if bytes.len() >= SHORT {
        return memchr::memchr(b'~', bytes);
    }
    bytes.iter().position(|byte| *byte == b'~')
}

/// The length, in bytes, from which a search by blocks is faster than one byte by byte.
const SHORT: usize = 32;

/// Returns the first fault of a token's text, or `None` if the text is a token.
#[inline(always)]
pub(super) fn first_fault(bytes: &[u8]) -> Option<EncodingError>
    ensures { MatchOption result (IsToken bytes.now) (IsEncodingErrorOf bytes.now) }
{
    let at = invalid_byte(bytes)?;
    Some(error_at(bytes, at))
}

/// Returns the offset of the first `/`, or `~` that is followed by neither `0` nor `1`. A short
/// text is read by a plain loop.
#[inline(always)]
fn invalid_byte(bytes: &[u8]) -> Option<usize>
    ensures { MatchOption result (IsToken bytes.now) (IsFirst (IsInvalidAt bytes.now)) }
{
    if bytes.len() < SHORT {
        invalid_byte_from(bytes, 0)
    } else {
        invalid_byte_by_blocks(bytes)
    }
}

/// Returns the offset of the first invalid byte, by checking blocks of bytes from the first `~` or
/// `/` on.
#[inline(never)]
fn invalid_byte_by_blocks(bytes: &[u8]) -> Option<usize>
    ensures { MatchOption result (IsToken bytes.now) (IsFirst (IsInvalidAt bytes.now)) }
{
    let first = memchr::memchr2(b'~', b'/', bytes)?;
    invalid_byte_from(bytes, skip_valid_blocks(bytes, first))
}

/// Returns an offset with no invalid byte before it. It advances from `first` by whole blocks of
/// bytes, up to the first block that contains one.
fn skip_valid_blocks(bytes: &[u8], first: usize) -> usize
    requires inside { first < length bytes.now }
    requires valid { IsValidBefore bytes.now first }
    ensures { IsValidBefore bytes.now result }
{
    let mut at = first;
    while bytes.len() - at > SHORT {
        let end = at + SHORT;
        if has_invalid_byte(&bytes[at..=end]) {
            break;
        }
        at = end;
    }
    at
}

/// Returns whether an invalid byte is before the last byte. The loop has no branch, so it can be
/// vectorized.
fn has_invalid_byte(bytes: &[u8]) -> bool
    requires { 0 < length bytes.now }
    ensures { IsTrue result ↔ HasInvalidBefore bytes.now (length bytes.now - 1) }
{
    let mut invalid = false;
    for i in 0..bytes.len() - 1 {
        let (byte, next) = (bytes[i], bytes[i + 1]);
        invalid |= byte == b'/';
        invalid |= byte == b'~' && next != b'0' && next != b'1';
    }
    invalid
}

/// Returns the offset of the first invalid byte of a text that has none before the offset `at`.
fn invalid_byte_from(bytes: &[u8], at: usize) -> Option<usize>
    requires { IsValidBefore bytes.now at }
    ensures { MatchOption result (IsToken bytes.now) (IsFirst (IsInvalidAt bytes.now)) }
{
    if bytes.is_empty() {
        return None;
    }
    let last = bytes.len() - 1;
    for i in at..last {
        if bytes[i] == b'/' {
            return Some(i);
        }
        if bytes[i] == b'~' && !matches!(bytes[i + 1], b'0' | b'1') {
            return Some(i);
        }
    }
    match bytes[last] {
        b'/' | b'~' => Some(last),
        _ => None,
    }
}

/// Returns the error of a text with its first invalid byte at the offset `at`. A `/` is reported
/// at its own offset, also after a `~`, and a `~` at the offset after it.
#[inline(never)]
fn error_at(bytes: &[u8], at: usize) -> EncodingError
    requires { IsFirst (IsInvalidAt bytes.now) at }
    ensures { IsEncodingErrorOf bytes.now result }
{
    if bytes[at] == b'/' {
        return slash_at(at);
    }
    match bytes.get(at + 1) {
        Some(b'/') => slash_at(at + 1),
        _ => tilde_before(at + 1),
    }
}

fn slash_at(offset: usize) -> EncodingError
    ensures { result ≡ record { offset = offset; source = Slash } }
{
    EncodingError {
        offset,
        source: InvalidEncoding::Slash,
    }
}

fn tilde_before(offset: usize) -> EncodingError
    ensures { result ≡ record { offset = offset; source = Tilde } }
{
    EncodingError {
        offset,
        source: InvalidEncoding::Tilde,
    }
}

/// Returns the decoded text of a token's text, in one pass and with one allocation.
pub(super) fn unescaped(alloc: Global, encoded: &str) -> Result<String, AllocError>
    requires { IsToken encoded.now }
    ensures { IfOk result (λ s. string_bytes s ≡ unesc encoded.now) }
{
    let text = encoded.as_bytes();
    let mut bytes = Vec::with_capacity(alloc, text.len())?;
    let mut i = 0;
    while i < text.len() {
        let b = text[i];
        if b == b'~' {
            if let Some(&escaped) = text.get(i + 1) {
                bytes.push_reserved(if escaped == b'1' { b'/' } else { b'~' });
            }
            i += 2;
        } else {
            bytes.push_reserved(b);
            i += 1;
        }
    }
    // SAFETY: only ASCII escape sequences were replaced, each by one ASCII byte, so the bytes are
    // still UTF-8. The prover checks this: it is the condition of the call.
    Ok(unsafe { String::from_utf8_unchecked(bytes) })
}

/// Splits a token's text around its first escape sequence: the text before it, the character that
/// it encodes, and the text after it. Returns `None` if there is no escape sequence.
pub(super) fn split_escape(encoded: &str) -> Option<(&str, &'static str, &str)>
    requires { IsToken encoded.now }
    ensures { MatchOption result
        (unesc encoded.now ≡ encoded.now)
        (λ r. IsEscapeCut encoded.now r.0.now r.1.now r.2.now) }
{
    let at = memchr::memchr(b'~', encoded.as_bytes())?;
    let (plain, escape) = encoded.split_at(at);
    let stands_for = if escape.as_bytes()[1] == b'1' {
        "/"
    } else {
        "~"
    };
    let (_, rest) = escape.split_at(2);
    Some((plain, stands_for, rest))
}

/// Returns the encoded text of a text that contains neither `~` nor `/` before the offset `at`.
///
/// Allocates once, with room for the case that each byte from `at` on needs an escape sequence.
pub(super) fn escaped(alloc: Global, text: &str, at: usize) -> Result<String, AllocError>
    requires inside { at ≤ length text.now }
    requires plain { IsPlainBefore text.now at }
    ensures { IfOk result (λ s. string_bytes s ≡ esc text.now) }
{
    let (plain, rest) = text.as_bytes().split_at(at);
    let mut bytes = Vec::with_capacity(alloc, checked_len(text.len(), rest.len())?)?;
    bytes.extend_from_slice(plain)?;
    for &b in rest {
        push_escaped(&mut bytes, b);
    }
    // SAFETY: the escape of a UTF-8 text is UTF-8.
    Ok(unsafe { String::from_utf8_unchecked(bytes) })
}

/// Returns the sum of two lengths, or the error of a failed allocation if it overflows `usize`.
fn checked_len(len: usize, more: usize) -> Result<usize, AllocError>
    ensures { IfOk result (λ n. n ≡ len + more) }
{
    len.checked_add(more).ok_or(AllocError)
}

/// Appends the encoded text of one byte, for which there is room.
#[inline]
fn push_escaped(bytes: &mut Vec<u8>, b: u8)
    requires { vec_len bytes.old + length (escape_of b) ≤ vec_capacity bytes.old }
    ensures items { bytes.new.items ≡ bytes.old.items ++ escape_of b }
    ensures len { vec_len bytes.new ≡ vec_len bytes.old + length (escape_of b) }
    ensures capacity { vec_capacity bytes.new ≡ vec_capacity bytes.old }
{
    if b == b'~' {
        bytes.push_reserved(b'~');
        bytes.push_reserved(b'0');
    } else if b == b'/' {
        bytes.push_reserved(b'~');
        bytes.push_reserved(b'1');
    } else {
        bytes.push_reserved(b);
    }
}
