//! The first byte at which two texts differ, and the order of texts.
ghost use Rattle.std.specs.Prelude.{◌≡◌, ◌≢◌, ◌+◌, ◌≤◌, length};
ghost use Rattle.std.specs.Cmp.Lexicographic.{slice_cmp};
ghost use Rattle.std.specs.Ordering.{nat_cmp};
ghost use Rattle.std.specs.Int.Count.{count_trailing_zeros};
ghost use Rattle.jsonptr_syntax.specs.Private.{AgreeUpTo, AgreeBetween, DifferFirst};

use std::cmp::Ordering;
use std::simd::prelude::*;

/// The number of bytes that are compared at once.
const BLOCK: usize = 16;

/// The length, in bytes, up to which blocks of that size are faster than the larger ones of
/// `str::cmp`.
const SHORT: usize = 128;

/// Compares two texts byte by byte, as `str::cmp` does.
pub(crate) fn order(text: &str, other: &str) -> Ordering
    ensures { result ≡ slice_cmp nat_cmp text.now other.now }
{
    let (bytes, others) = (text.as_bytes(), other.as_bytes());
    let shorter = bytes.len().min(others.len());
    if shorter < BLOCK || shorter > SHORT {
        return text.cmp(other);
    }
    let at = common_len_by_blocks(bytes, others);
    if at < shorter {
        bytes[at].cmp(&others[at])
    } else {
        bytes.len().cmp(&others.len())
    }
}

/// Returns the length of the longest prefix that two texts have in common, in bytes.
pub(crate) fn common_len(bytes: &[u8], other: &[u8]) -> usize
    ensures { AgreeUpTo bytes.now other.now result }
{
    let shorter = bytes.len().min(other.len());
    if shorter >= BLOCK {
        return common_len_by_blocks(bytes, other);
    }
    for at in 0..shorter {
        if bytes[at] != other[at] {
            return at;
        }
    }
    shorter
}

/// Returns the same length for two texts of at least one block, compared by blocks of bytes. The
/// last block may overlap the one before it.
#[inline(always)]
fn common_len_by_blocks(bytes: &[u8], other: &[u8]) -> usize
    requires first { 16 ≤ length bytes.now }
    requires second { 16 ≤ length other.now }
    ensures { AgreeUpTo bytes.now other.now result }
{
    let last = bytes.len().min(other.len()) - BLOCK;
    let mut at = 0;
    while at < last {
        let differing = differing_bytes(bytes, other, at);
        if differing != 0 {
            return at + differing.trailing_zeros() as usize;
        }
        at += BLOCK;
    }
    let differing = differing_bytes(bytes, other, last);
    if differing != 0 {
        return last + differing.trailing_zeros() as usize;
    }
    last + BLOCK
}

/// Returns a number with one bit for each byte of a block, from the offset `at` on, that is set if
/// the byte differs in the two texts.
#[inline(always)]
fn differing_bytes(bytes: &[u8], other: &[u8], at: usize) -> u64
    requires first { at + 16 ≤ length bytes.now }
    requires second { at + 16 ≤ length other.now }
    ensures none { result ≡ 0 → AgreeBetween bytes.now other.now at (at + 16) }
    ensures some { result ≢ 0
        → DifferFirst bytes.now other.now at (count_trailing_zeros 64 result) }
{
    u8x16::from_slice(&bytes[at..])
        .simd_ne(u8x16::from_slice(&other[at..]))
        .to_bitmask()
}
