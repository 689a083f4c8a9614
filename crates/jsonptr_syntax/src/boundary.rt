//! Offsets at which a pointer's text can be split between tokens.
ghost use Rattle.std.specs.Prelude.{◌≡◌, ◌≢◌, ◌⊎◌, ◌<◌, ◌≤◌, [], slice_index, length, count_by, IsTrue, ◌↔◌, MatchOption};
ghost use Rattle.jsonptr_grammar.specs.Text.{Text, is_slash, text, tokens_of};
ghost use Rattle.jsonptr_syntax.specs.Private.{BeginsSegment, IsCut, IsEndOf, IsBackCut, IsSplit, IsBoundary, IsCommonBoundary};

use crate::compare::common_len;
use memchr::{memchr, memrchr};

/// Splits off the text of the first token. Returns `None` for the empty text.
pub(crate) fn split_first(text: &str) -> Option<(&str, &str)>
    requires { BeginsSegment text.now }
    ensures { MatchOption result (text.now ≡ []) (λ r. IsCut text.now r.0.now r.1.now) }
{
    if text.is_empty() {
        return None;
    }
    let (_, after) = text.split_at(1);
    match memchr(b'/', after.as_bytes()) {
        None => Some((after, "")),
        Some(at) => Some(after.split_at(at)),
    }
}

/// Splits off the text of the last token, without its `/`. Returns `None` for the empty text.
pub(crate) fn split_last(text: &str) -> Option<(&str, &str)>
    requires { BeginsSegment text.now }
    ensures { MatchOption result (text.now ≡ []) (λ r. IsBackCut text.now r.0.now r.1.now) }
{
    let at = memrchr(b'/', text.as_bytes())?;
    let (front, segment) = text.split_at(at);
    let (_, last) = segment.split_at(1);
    Some((front, last))
}

/// Splits a text at a byte that is a `/`. Returns `None` if it is not.
pub(crate) fn split_at_boundary(text: &str, at: usize) -> Option<(&str, &str)>
    ensures { MatchOption result
        (slice_index text.now at ≢ 47)
        (λ r. IsSplit text.now r.0.now r.1.now × (length r.0.now ≡ at)
        × (slice_index r.1.now 0 ≡ 47)) }
{
    match text.as_bytes().get(at) {
        Some(b'/') => Some(text.split_at(at)),
        _ => None,
    }
}

/// Returns the text after `prefix` if that is empty or begins with a `/`.
#[inline(always)]
pub(crate) fn after_prefix<'a>(text: &'a str, prefix: &str) -> Option<&'a str>
    ensures { MatchOption result
        ((rest : Text) → IsSplit text.now prefix.now rest → ⊥)
        (λ r. IsSplit text.now prefix.now r.now) }
{
    let rest = text.strip_prefix(prefix)?;
    match rest.as_bytes() {
        [] | [b'/', ..] => Some(rest),
        _ => None,
    }
}

/// Returns the last offset up to which two texts agree and at which both can be split.
pub(crate) fn common_boundary(bytes: &[u8], other: &[u8]) -> usize
    requires begins { BeginsSegment bytes.now }
    requires other_begins { BeginsSegment other.now }
    ensures { IsCommonBoundary bytes.now other.now result }
{
    let end = common_len(bytes, other);
    if is_boundary(bytes, end) && is_boundary(other, end) {
        return end;
    }
    match memrchr(b'/', &bytes[..end]) {
        Some(slash) => slash,
        None => 0,
    }
}

/// Returns whether a text ends at an offset or has a `/` there.
fn is_boundary(bytes: &[u8], at: usize) -> bool
    requires { at ≤ length bytes.now }
    ensures { IsTrue result ↔ IsBoundary bytes.now at }
{
    at == bytes.len() || bytes[at] == b'/'
}

/// Returns the offset at which the first `count` tokens end, or `None` if the text has fewer
/// tokens.
pub(crate) fn end_of(whole: &str, count: usize) -> Option<usize>
    requires { text (tokens_of whole.now) ≡ whole.now }
    ensures { MatchOption result (length (tokens_of whole.now) < count) (IsEndOf whole.now count) }
{
    let mut rest = whole;
    for _ in 0..count {
        let (_, after) = split_first(rest)?;
        rest = after;
    }
    Some(whole.len() - rest.len())
}

/// Returns the number of `/` in a text, counted by blocks of bytes.
pub(crate) fn slashes(text: &str) -> usize
    ensures { result ≡ count_by is_slash text.now }
{
    let bytes = text.as_bytes();
    let mut count = 0;
    let mut at = 0;
    while at < bytes.len() {
        let end = at + BLOCK.min(bytes.len() - at);
        count += usize::from(block_slashes(&bytes[at..end]));
        at = end;
    }
    count
}

/// The number of bytes that are counted in one `u8`.
const BLOCK: usize = 128;

/// Returns the number of `/` in a block of bytes. It adds without a branch, so the loop can be
/// vectorized.
fn block_slashes(block: &[u8]) -> u8
    requires { length block.now ≤ 128 }
    ensures { result ≡ count_by is_slash block.now }
{
    let mut count = 0;
    for i in 0..block.len() {
        if block[i] == b'/' {
            count += 1;
        }
    }
    count
}
