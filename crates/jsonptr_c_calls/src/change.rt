//! What an edit changes in a text.
ghost use Rattle.std.specs.Prelude.{◌≡◌, ◌⊎◌, ◌↔◌, ◌≤◌, ℕ, IsTrue, length, drop, take};
ghost use Rattle.jsonptr_c_calls.specs.Changing.{IsBetween, IsChange, IsSmallest, starts_inside};

/// The bytes that an edit replaces in a text, and those that are there afterwards.
#[repr(C)]
#[derive(Clone, Copy, Debug)]
pub struct Change {
    /// The offset of the first byte that is replaced, in the old text and in the new one.
    pub start: usize,
    /// The offset after the last byte that is replaced, in the old text.
    pub old_end: usize,
    /// The offset after the last byte that replaces them, in the new text.
    pub new_end: usize,
    /// Whether the document is printed anew.
    pub is_reformatted: bool,
    /// Always 0.
    pub reserved: u64,
}

/// Offsets in two texts from which on both are the same.
#[derive(Clone, Copy)]
struct Ends {
    /// The offset in the old text.
    old: usize,
    /// The offset in the new text.
    new: usize,
}

impl Change {
    /// Returns the change from one text to another: what is between their longest common start and their
    /// longest common end, without parts of characters.
    ///
    /// # Examples
    ///
    /// ```rust
    /// let change = Change::between("[1.0, 2]", "[1.5, 2]", false);
    /// assert_eq!(rt; (change.start, change.old_end, change.new_end), (3, 4, 4));
    /// let change = Change::between("[1, 1]", "[1]", false);
    /// assert_eq!(rt; (change.start, change.old_end, change.new_end), (2, 5, 2));
    /// let change = Change::between("[\"é\"]", "[\"è\"]", false);
    /// assert_eq!(rt; (change.start, change.old_end, change.new_end), (2, 4, 4));
    /// ```
    pub fn between(old: &str, new: &str, is_reformatted: bool) -> Change
        ensures change { IsChange old.now new.now result }
        ensures smallest { IsSmallest old.now new.now result }
        ensures reformatted { result.is_reformatted ≡ is_reformatted }
    {
        let (old, new) = (old.as_bytes(), new.as_bytes());
        let start = character_start(old, new, same_start(old, new));
        let ends = character_ends(old, new, same_ends(old, new, start));
        Change {
            start,
            old_end: ends.old,
            new_end: ends.new,
            is_reformatted,
            reserved: 0,
        }
    }
}

/// Returns the offset up to which both texts are the same.
fn same_start(old: &[u8], new: &[u8]) -> usize
    ensures old { result ≤ length old.now }
    ensures new { result ≤ length new.now }
    ensures same { take result old.now ≡ take result new.now }
    ensures longest { (n : ℕ) → n ≤ length old.now → n ≤ length new.now
        → take n old.now ≡ take n new.now → n ≤ result }
{
    let mut n = 0usize;
    while n < old.len() && n < new.len() && old[n] == new[n] {
        n += 1;
    }
    n
}

/// Returns the offset of the character that the byte at the offset is of. Both texts are the same up to there.
fn character_start(old: &[u8], new: &[u8], offset: usize) -> usize
    requires same { take offset old.now ≡ take offset new.now }
    ensures before { result ≤ offset }
    ensures longest { (n : ℕ) → n ≤ offset → IsBetween old.now n → IsBetween new.now n → n ≤ result }
    ensures between { (result ≡ 0) ⊎ (IsBetween old.now result × IsBetween new.now result) }
    ensures same { take result old.now ≡ take result new.now }
{
    let mut n = offset;
    while n > 0 && !is_between(old, new, n) {
        n -= 1;
    }
    n
}

/// Returns the offsets from which on both texts are the same, not before the start.
fn same_ends(old: &[u8], new: &[u8], start: usize) -> Ends
    requires old { start ≤ length old.now }
    requires new { start ≤ length new.now }
    ensures old { (start ≤ result.old) × (result.old ≤ length old.now) }
    ensures new { (start ≤ result.new) × (result.new ≤ length new.now) }
    ensures same { drop result.old old.now ≡ drop result.new new.now }
    ensures longest { (i j : ℕ) → start ≤ i → i ≤ length old.now → start ≤ j → j ≤ length new.now
        → drop i old.now ≡ drop j new.now → result.old ≤ i }
{
    let (mut i, mut j) = (old.len(), new.len());
    while i > start && j > start && old[i - 1] == new[j - 1] {
        i -= 1;
        j -= 1;
    }
    Ends { old: i, new: j }
}

/// Returns the offsets after the character that the bytes at the offsets are of, if they are not its first ones.
/// Both texts are the same from there on.
fn character_ends(old: &[u8], new: &[u8], ends: Ends) -> Ends
    requires old { ends.old ≤ length old.now }
    requires new { ends.new ≤ length new.now }
    requires same { drop ends.old old.now ≡ drop ends.new new.now }
    ensures old { (ends.old ≤ result.old) × (result.old ≤ length old.now) }
    ensures new { (ends.new ≤ result.new) × (result.new ≤ length new.now) }
    ensures same { drop result.old old.now ≡ drop result.new new.now }
    ensures longest { (i : ℕ) → ends.old ≤ i → IsBetween old.now i → result.old ≤ i }
    ensures between { IsBetween old.now result.old × IsBetween new.now result.new }
{
    let (mut i, mut j) = (ends.old, ends.new);
    while i < old.len() && j < new.len() && is_inside(old, i) {
        i += 1;
        j += 1;
    }
    Ends { old: i, new: j }
}

/// Returns whether the offset is between two characters of both texts, or at an end.
fn is_between(old: &[u8], new: &[u8], offset: usize) -> bool
    ensures { IsTrue result ↔ IsBetween old.now offset × IsBetween new.now offset }
{
    !is_inside(old, offset) && !is_inside(new, offset)
}

/// Returns whether the byte at the offset is of a character that begins before it.
fn is_inside(text: &[u8], offset: usize) -> bool
    ensures { result ≡ starts_inside (drop offset text.now) }
{
    matches!(text.get(offset), Some(0x80..=0xBF))
}
