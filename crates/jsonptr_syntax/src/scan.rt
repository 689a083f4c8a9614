//! The pass that finds a text's first fault (RFC 6901, section 3).
ghost use Rattle.std.specs.Prelude.{◌≡◌, ◌<◌, ◌-◌, slice_index, length, IsTrue, ◌↔◌, MatchOption};
ghost use Rattle.jsonptr_grammar.specs.Text.{text, tokens_of};
ghost use Rattle.jsonptr_grammar.specs.Grammar.{IsPointer};
ghost use Rattle.jsonptr_grammar.specs.FirstFault.{IsFirst, IsLooseTilde};
ghost use Rattle.jsonptr_syntax.specs.ParseError.{IsParseErrorOf};
ghost use Rattle.jsonptr_syntax.specs.Private.{HasLooseTildeBefore, NoLooseTildeBefore, HasNoLooseTilde};

use crate::parse_error::ParseError;
use jsonptr_base::token::{EncodingError, InvalidEncoding};
use memchr::{memchr, memrchr};

/// Returns the first fault of a text, or `None` if it is a pointer (RFC 6901, section 3). Takes
/// time linear in the length of the text.
///
/// The first byte is tested in the caller, so that the root and a text without a leading `/` need
/// no call.
#[inline(always)]
pub fn first_fault(s: &str) -> Option<ParseError>
    ensures pointer { MatchOption result (IsPointer s.now) (λ _. IsPointer s.now → ⊥) }
    ensures fault { MatchOption result (text (tokens_of s.now) ≡ s.now) (IsParseErrorOf s.now) }
{
    fault_of(s.as_bytes())
}

/// Returns the first fault of a text's bytes, or `None` if they are a pointer.
#[inline(always)]
fn fault_of(bytes: &[u8]) -> Option<ParseError>
    ensures { MatchOption result (IsPointer bytes.now) (IsParseErrorOf bytes.now) }
{
    match bytes {
        [] => None,
        [b'/', ..] => tilde_fault(bytes),
        _ => Some(ParseError::NoLeadingSlash),
    }
}

/// Returns the first fault of a text that begins with a `/`, or `None` if it is a pointer.
#[inline(always)]
fn tilde_fault(bytes: &[u8]) -> Option<ParseError>
    requires { slice_index bytes.now 0 ≡ 47 }
    ensures { MatchOption result (IsPointer bytes.now) (IsParseErrorOf bytes.now) }
{
    let tilde = bad_escape(bytes)?;
    Some(fault_at(bytes, tilde))
}

/// Returns the error of the first invalid `~` of a text that begins with a `/`.
#[inline(never)]
fn fault_at(bytes: &[u8], tilde: usize) -> ParseError
    requires slash { slice_index bytes.now 0 ≡ 47 }
    requires tilde { IsFirst (IsLooseTilde bytes.now) tilde }
    ensures { IsParseErrorOf bytes.now result }
{
    let offset = memrchr(b'/', &bytes[..tilde]).unwrap();
    ParseError::InvalidEncoding {
        offset,
        source: EncodingError {
            offset: tilde - offset,
            source: InvalidEncoding::Tilde,
        },
    }
}

/// Returns the offset of the first `~` that is followed by neither `0` nor `1`. A short text is
/// read by a plain loop.
#[inline(always)]
fn bad_escape(bytes: &[u8]) -> Option<usize>
    ensures { MatchOption result (HasNoLooseTilde bytes.now) (IsFirst (IsLooseTilde bytes.now)) }
{
    if bytes.len() < BLOCK {
        bad_escape_from(bytes, 0)
    } else {
        bad_escape_by_blocks(bytes)
    }
}

/// Returns the offset of the first invalid `~`, by checking blocks of bytes from the first `~` on.
#[inline(never)]
fn bad_escape_by_blocks(bytes: &[u8]) -> Option<usize>
    ensures { MatchOption result (HasNoLooseTilde bytes.now) (IsFirst (IsLooseTilde bytes.now)) }
{
    let first = memchr(b'~', bytes)?;
    bad_escape_from(bytes, skip_valid_blocks(bytes, first))
}

/// Returns an offset with no invalid `~` before it. It advances from `first` by whole blocks of
/// bytes, up to the first block that contains one.
fn skip_valid_blocks(bytes: &[u8], first: usize) -> usize
    requires inside { first < length bytes.now }
    requires none { NoLooseTildeBefore bytes.now first }
    ensures inside { result < length bytes.now }
    ensures none { NoLooseTildeBefore bytes.now result }
{
    let mut at = first;
    while bytes.len() - at > BLOCK {
        let end = at + BLOCK;
        if has_bad_escape(&bytes[at..=end]) {
            break;
        }
        at = end;
    }
    at
}

/// The number of bytes that are checked before the next branch.
const BLOCK: usize = 32;

/// Returns whether an invalid `~` is before the last byte. The loop has no branch, so it can be
/// vectorized.
fn has_bad_escape(bytes: &[u8]) -> bool
    requires { 0 < length bytes.now }
    ensures { IsTrue result ↔ HasLooseTildeBefore bytes.now (length bytes.now - 1) }
{
    let mut loose = false;
    for i in 0..bytes.len() - 1 {
        let next = bytes[i + 1];
        loose |= bytes[i] == b'~' && next != b'0' && next != b'1';
    }
    loose
}

/// Returns the offset of the first invalid `~` of a text that has none before the offset `at`.
#[inline(never)]
fn bad_escape_from(bytes: &[u8], at: usize) -> Option<usize>
    requires { NoLooseTildeBefore bytes.now at }
    ensures { MatchOption result (HasNoLooseTilde bytes.now) (IsFirst (IsLooseTilde bytes.now)) }
{
    for i in at..bytes.len() {
        if bytes[i] == b'~' && !matches!(bytes.get(i + 1), Some(b'0' | b'1')) {
            return Some(i);
        }
    }
    None
}
