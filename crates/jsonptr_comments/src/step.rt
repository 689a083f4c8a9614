//! One piece of a text.
ghost use Rattle.std.specs.Prelude.{◌≡◌, ◌==◌, ◌||◌, ◌+◌, ◌-◌, ◌<◌, ◌≤◌, ◌++◌, List, ℕ, length, map, take, drop, slice_index, true, IfOk, IfErr, IfSome, IfNone};
ghost use Rattle.jsonptr_comments.specs.Comments.{blank, IsPlain, IsUnterminated};
ghost use Rattle.jsonptr_comments.specs.PrivateScanning.{blanked_comma};
ghost use Rattle.jsonptr_comments.specs.PrivateStepping.{Goes, Read};

use crate::back::trailing_comma;
use crate::error::CommentError;
use crate::scan::{block_end, line_end, string_end};

/// Returns the offset after the piece at `at`. Returns `None` at a comment, and at a closing bracket
/// with a trailing comma before it.
pub(crate) fn plain_step(text: &[u8], at: usize) -> Option<usize>
    requires { at < length text.now }
    ensures goes { IfSome result (Goes text.now at text.now) }
    ensures forward { IfSome result (λ next. at < next) }
    ensures within { IfSome result (λ next. next ≤ length text.now) }
    ensures stops { IfNone result (Read text.now text.now at → IsPlain text.now → ⊥) }
{
    let byte = text[at];
    if byte == b'"' {
        Some(string_end(text, at + 1))
    } else if byte == b'/' {
        plain_slash(text, at)
    } else if is_closing(byte) {
        plain_closing(text, at)
    } else {
        Some(at + 1)
    }
}

/// Returns whether the byte is a closing bracket.
fn is_closing(byte: u8) -> bool
    ensures { result ≡ ((byte == 93) || (byte == 125)) }
{
    matches!(byte, b']' | b'}')
}

/// Returns the offset after a slash, or `None` if a comment begins there.
fn plain_slash(text: &[u8], at: usize) -> Option<usize>
    requires within { at < length text.now }
    requires byte { slice_index text.now at ≡ 47 }
    ensures goes { IfSome result (Goes text.now at text.now) }
    ensures next { IfSome result (λ next. next ≡ at + 1) }
    ensures stops { IfNone result (Read text.now text.now at → IsPlain text.now → ⊥) }
{
    let next = byte_at(text, at + 1);
    if next == b'/' {
        return None;
    }
    if next == b'*' {
        return None;
    }
    Some(at + 1)
}

/// Returns the offset after a closing bracket, or `None` if a trailing comma precedes it.
fn plain_closing(text: &[u8], at: usize) -> Option<usize>
    requires within { at < length text.now }
    requires byte { ((slice_index text.now at == 93) || (slice_index text.now at == 125)) ≡ true }
    ensures goes { IfSome result (Goes text.now at text.now) }
    ensures next { IfSome result (λ next. next ≡ at + 1) }
    ensures stops { IfNone result (Read text.now text.now at → IsPlain text.now → ⊥) }
{
    match trailing_comma(text, at) {
        Some(_) => None,
        None => Some(at + 1),
    }
}

/// Returns the offset after the piece at `at`, and writes spaces over a comment or a trailing comma.
///
/// # Errors
///
/// [`CommentError`] if the piece is a block comment that is not closed.
pub(crate) fn step(text: &mut [u8], at: usize) -> Result<usize, CommentError>
    requires { at < length text.old }
    ensures goes { IfOk result (Goes text.old at text.new) }
    ensures forward { IfOk result (λ next. at < next) }
    ensures within { IfOk result (λ next. next ≤ length text.new) }
    ensures refused { IfErr result (λ error. (all : List ℕ)
        → Read all text.old at → IsUnterminated all error.offset) }
{
    let byte = text[at];
    if byte == b'"' {
        Ok(string_end(text, at + 1))
    } else if byte == b'/' {
        slash(text, at)
    } else if is_closing(byte) {
        Ok(closing(text, at))
    } else {
        Ok(at + 1)
    }
}

/// Returns the offset after a closing bracket, and writes a space over a trailing comma before it.
fn closing(text: &mut [u8], at: usize) -> usize
    requires within { at < length text.old }
    requires byte { ((slice_index text.old at == 93) || (slice_index text.old at == 125)) ≡ true }
    ensures goes { Goes text.old at text.new result }
    ensures next { result ≡ at + 1 }
{
    let comma = trailing_comma(text, at);
    blank_comma(text, comma);
    at + 1
}

/// Writes a space over the comma, if there is one.
fn blank_comma(text: &mut [u8], comma: Option<usize>)
    ensures { text.new ≡ blanked_comma comma text.old }
{
    if let Some(comma) = comma {
        if comma < text.len() {
            text[comma] = b' ';
        }
    }
}

/// Returns the offset after a comment, over which it writes spaces, or after a slash that begins none.
///
/// # Errors
///
/// [`CommentError`] if a block comment is not closed.
fn slash(text: &mut [u8], at: usize) -> Result<usize, CommentError>
    requires within { at < length text.old }
    requires byte { slice_index text.old at ≡ 47 }
    ensures goes { IfOk result (Goes text.old at text.new) }
    ensures forward { IfOk result (λ next. at < next) }
    ensures within { IfOk result (λ next. next ≤ length text.new) }
    ensures refused { IfErr result (λ error. (all : List ℕ)
        → Read all text.old at → IsUnterminated all error.offset) }
{
    let next = byte_at(text, at + 1);
    if next == b'/' {
        Ok(line_comment(text, at))
    } else if next == b'*' {
        block_comment(text, at)
    } else {
        Ok(at + 1)
    }
}

/// Returns the byte at the offset, or 0 if the text ends before it.
pub(crate) fn byte_at(text: &[u8], offset: usize) -> u8
    ensures byte { result ≡ slice_index text.now offset }
    ensures within { 0 < result → offset < length text.now }
{
    if offset < text.len() { text[offset] } else { 0 }
}

/// Writes spaces over a line comment, and returns the offset after it.
fn line_comment(text: &mut [u8], at: usize) -> usize
    requires within { at + 1 < length text.old }
    requires byte { slice_index text.old at ≡ 47 }
    requires next { slice_index text.old (at + 1) ≡ 47 }
    ensures goes { Goes text.old at text.new result }
    ensures forward { at < result }
    ensures within { result ≤ length text.new }
{
    let end = line_end(text, at + 2);
    blank_between(text, at, end);
    end
}

/// Writes spaces over a block comment, and returns the offset after it.
///
/// # Errors
///
/// [`CommentError`] if it is not closed.
fn block_comment(text: &mut [u8], at: usize) -> Result<usize, CommentError>
    requires within { at + 1 < length text.old }
    requires byte { slice_index text.old at ≡ 47 }
    requires next { slice_index text.old (at + 1) ≡ 42 }
    ensures goes { IfOk result (Goes text.old at text.new) }
    ensures forward { IfOk result (λ next. at < next) }
    ensures within { IfOk result (λ next. next ≤ length text.new) }
    ensures refused { IfErr result (λ error. (all : List ℕ)
        → Read all text.old at → IsUnterminated all error.offset) }
{
    let Some(end) = block_end(text, at + 2) else {
        return Err(CommentError { offset: at });
    };
    blank_between(text, at, end);
    Ok(end)
}

/// Writes a space over each byte between the offsets except LF and CR.
fn blank_between(text: &mut [u8], from: usize, to: usize)
    requires order { from ≤ to }
    requires within { to ≤ length text.old }
    ensures { text.new ≡ take from text.old
        ++ (map blank (take (to - from) (drop from text.old)) ++ drop to text.old) }
{
    blank_all(&mut text[from..to]);
}

/// Writes a space over each byte except LF and CR.
#[tactic(auto, using(std::proofs::lemmas::List::Edits::map_over_more))]
fn blank_all(bytes: &mut [u8])
    ensures { bytes.new ≡ map blank bytes.old }
{
    for byte in bytes.iter_mut() {
        *byte = blanked(*byte);
    }
}

/// Returns a space, or the byte if it is LF or CR.
fn blanked(byte: u8) -> u8
    ensures { result ≡ blank byte }
{
    if matches!(byte, b'\n' | b'\r') {
        byte
    } else {
        b' '
    }
}
