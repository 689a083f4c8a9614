//! The pieces of a text: its strings, its comments, and the other bytes.
ghost use Rattle.std.specs.Prelude.{◌≡◌, ◌+◌, ◌<◌, ◌≤◌, ◌++◌, List, drop, take, length, slice_index, IsTrue, IfSome, IfNone};
ghost use Rattle.jsonptr_comments.specs.Comments.{Piece, Pieces, IsWhole, spelled, is_break as is_break_byte};
ghost use Rattle.jsonptr_comments.specs.Parts.{BeginsWithPiece, BeginsOpenComment, is_comment as is_comment_piece, is_allowed, AreAllowed};

use crate::back::is_space;
use crate::scan::{block_end, line_end, string_end};
use crate::step::byte_at;

/// Which pieces a run of them may have.
#[derive(Clone, Copy, Debug, Drop, PartialEq, Eq)]
pub enum Allowed {
    /// All pieces.
    Any,
    /// All but comments.
    NoComment,
    /// All but line breaks outside comments and strings.
    NoBreak,
    /// White space outside comments and strings.
    Blank,
}

/// Returns the offset after the piece that begins at `at`, or `None` at a block comment that is not closed.
///
/// # Examples
///
/// ```rust
/// let text = b"[\"a\", // one\n";
/// assert_eq!(rt; (piece_end(text, 0), piece_end(text, 1)), (Some(1), Some(4)));
/// assert_eq!(rt; piece_end(text, 6), Some(12));
/// assert_eq!(rt; piece_end(b"/* one", 0), None);
/// ```
pub fn piece_end(text: &[u8], at: usize) -> Option<usize>
    requires { at < length text.now }
    ensures piece { IfSome result (λ end. BeginsWithPiece (drop at text.now) (drop end text.now)) }
    ensures forward { IfSome result (λ end. at < end) }
    ensures within { IfSome result (λ end. end ≤ length text.now) }
    ensures open { IfNone result (BeginsOpenComment (drop at text.now)) }
{
    let byte = text[at];
    if byte == b'"' {
        Some(string_end(text, at + 1))
    } else if byte == b'/' {
        slash_end(text, at)
    } else {
        Some(at + 1)
    }
}

/// Returns the offset after the piece that begins with the slash at `at`.
fn slash_end(text: &[u8], at: usize) -> Option<usize>
    requires within { at < length text.now }
    requires byte { slice_index text.now at ≡ 47 }
    ensures piece { IfSome result (λ end. BeginsWithPiece (drop at text.now) (drop end text.now)) }
    ensures forward { IfSome result (λ end. at < end) }
    ensures within { IfSome result (λ end. end ≤ length text.now) }
    ensures open { IfNone result (BeginsOpenComment (drop at text.now)) }
{
    let next = byte_at(text, at + 1);
    if next == b'/' {
        Some(line_end(text, at + 2))
    } else if next == b'*' {
        block_end(text, at + 2)
    } else {
        Some(at + 1)
    }
}

/// Returns whether the text is pieces up to the offset `end`, each of them one of those that are allowed.
///
/// So it is not if `end` is inside a string or a comment. What follows `end` counts: `//` up to the middle
/// of its line is no comment. Reads the text up to `end` once.
///
/// # Examples
///
/// ```rust
/// let text = b" /* a */ 1, 2";
/// assert!(rt; are_pieces(text, 9, Allowed::Any) && !are_pieces(text, 5, Allowed::Any));
/// assert!(rt; are_pieces(text, 9, Allowed::NoBreak) && !are_pieces(text, 9, Allowed::NoComment));
/// assert!(rt; are_pieces(text, 1, Allowed::Blank) && !are_pieces(b"1,", 2, Allowed::Blank));
/// ```
pub fn are_pieces(text: &[u8], end: usize, allowed: Allowed) -> bool
    ensures { IsTrue result → (ps : List Piece)
        × Pieces text.now ps (drop end text.now) × AreAllowed allowed ps }
{
    let mut at = 0;
    while at < end && at < text.len() {
        let Some(next) = piece_end(text, at) else {
            return false;
        };
        if !allows(allowed, text, at, next) {
            return false;
        }
        at = next;
    }
    at == end
}

/// Returns whether the piece between the offsets is one of those that are allowed.
fn allows(allowed: Allowed, text: &[u8], from: usize, to: usize) -> bool
    requires within { from < length text.now }
    requires order { to ≤ length text.now }
    ensures { (p : Piece) → drop from text.now ≡ spelled p ++ drop to text.now
        → IsWhole p (drop to text.now) → result ≡ is_allowed allowed p }
{
    match allowed {
        Allowed::Any => true,
        Allowed::NoComment => !is_comment(text, from, to),
        Allowed::NoBreak => !is_break(text[from]),
        Allowed::Blank => is_space(text[from]),
    }
}

/// Returns whether the piece between the offsets is a comment.
fn is_comment(text: &[u8], from: usize, to: usize) -> bool
    requires within { from < length text.now }
    requires order { to ≤ length text.now }
    ensures { (p : Piece) → drop from text.now ≡ spelled p ++ drop to text.now
        → IsWhole p (drop to text.now) → result ≡ is_comment_piece p }
{
    if text[from] != b'/' {
        return false;
    }
    to != from + 1
}

/// Returns whether the byte is a line break.
fn is_break(byte: u8) -> bool
    ensures { result ≡ is_break_byte byte }
{
    matches!(byte, b'\n' | b'\r')
}

/// Returns whether both texts begin with the same pieces, up to the offset `end` in each.
///
/// # Examples
///
/// ```rust
/// assert!(rt; common_pieces(b"[1, // one\n2]", b"[1, // one\n]", 11));
/// assert!(rt; !common_pieces(b"[1, // one\n2]", b"[1, // one!\n2]", 10));
/// assert!(rt; !common_pieces(b"[1", b"[2", 2));
/// ```
pub fn common_pieces(text: &[u8], other: &[u8], end: usize) -> bool
    ensures { IsTrue result → (ps : List Piece)
        × Pieces text.now ps (drop end text.now) × Pieces other.now ps (drop end other.now) }
{
    if end > text.len() || end > other.len() || text[..end] != other[..end] {
        return false;
    }
    have_common_ends(text, other, end)
}

/// Returns whether both texts, which have the same bytes up to the offset `end`, begin with the same
/// pieces up to there.
fn have_common_ends(text: &[u8], other: &[u8], end: usize) -> bool
    requires within { end ≤ length text.now }
    requires within_other { end ≤ length other.now }
    requires same { take end text.now ≡ take end other.now }
    ensures { IsTrue result → (ps : List Piece)
        × Pieces text.now ps (drop end text.now) × Pieces other.now ps (drop end other.now) }
{
    let mut at = 0;
    while at < end {
        let Some(next) = piece_end(text, at) else {
            return false;
        };
        let Some(twin) = piece_end(other, at) else {
            return false;
        };
        if next != twin || next > end {
            return false;
        }
        at = next;
    }
    at == end
}
