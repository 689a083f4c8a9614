//! The text of a pointer, and the passes that split it between its tokens. The parts borrow the
//! text, and no call allocates.
ghost use Rattle.std.specs.Prelude.{◌≡◌, ◌↔◌, ◌+◌, ◌<◌, ◌≤◌, refl, List, [], ◌∷◌, ◌++◌, length, slice_index, take, drop, Some, IsSome, MatchOption};
ghost use Rattle.std.specs.Ordering.{nat_cmp};
ghost use Rattle.std.specs.Cmp.{on_po, on_total};
ghost use Rattle.std.specs.Cmp.Lexicographic.{slice_cmp, nat_list_cmp_total, texts_po, texts_ties};
ghost use Rattle.jsonptr_grammar.specs.Text.{Text, esc, text, tokens_of};

use crate::{boundary, compare};
use jsonptr_base::token::Token;
use std::borrow::CowStr;
use std::cmp::Ordering;
use std::fmt;

/// A borrowed text that is a JSON Pointer (RFC 6901, section 3).
///
/// Contracts see it as the list of its decoded tokens, `tokens`, and as its bytes, `text_of`.
#[derive(Clone, Copy, PartialEq, Eq, Hash)]
pub struct PointerText<'a> {
    inner: &'a str,
    ghost valid: { text (tokens_of inner.now) ≡ inner.now },
}

impl<'a> PointerText<'a> {
    ghost use Rattle.jsonptr_syntax.specs.PointerText.{tokens, text_of};
    ghost use Rattle.jsonptr_syntax.specs.Parts.{BeginsWith, EndsWith, SplitsAt, HasTokenAt, IsLongestCommonPrefix};

    /// Returns the text of the root pointer: the empty text, which has no tokens.
    pub fn root() -> PointerText<'static>
        ensures tokens { tokens result ≡ [] }
        ensures text { text_of result ≡ [] }
    {
        PointerText { inner: "" }
    }

    /// Wraps a text that is known to be a pointer, without checking it.
    ///
    /// # Conditions
    ///
    /// `s` is a pointer (RFC 6901, section 3).
    pub fn new(s: &'a str) -> PointerText<'a>
        requires { text (tokens_of s.now) ≡ s.now }
        ensures { text_of result ≡ s.now }
    {
        PointerText { inner: s }
    }

    /// Returns the text.
    pub fn as_str(&self) -> &'a str
        ensures text { result.now ≡ text_of self.now }
        ensures tokens { result.now ≡ text (tokens self.now) }
    {
        self.inner
    }

    /// Returns the length of the text, in bytes.
    pub fn len(&self) -> usize
        ensures text { result ≡ length (text_of self.now) }
        ensures tokens { result ≡ length (text (tokens self.now)) }
    {
        self.inner.len()
    }

    /// Returns the number of tokens. One pass over the text.
    pub fn count(&self) -> usize
        ensures { result ≡ length (tokens self.now) }
    {
        boundary::slashes(self.inner)
    }

    /// Splits into the first token and the pointer of the tokens after it. Returns `None` for the
    /// root.
    pub fn split_front(&self) -> Option<(Token<'a>, PointerText<'a>)>
        ensures { MatchOption result
            (tokens self.now ≡ [])
            (λ r. tokens self.now ≡ r.0 ∷ tokens r.1) }
    {
        let (first, rest) = boundary::split_first(self.inner)?;
        let token = Token::from_encoded_unchecked(CowStr::Borrowed(first));
        Some((token, PointerText { inner: rest }))
    }

    /// Splits into the pointer of the tokens before the last one and that token. Returns `None` for
    /// the root.
    pub fn split_back(&self) -> Option<(PointerText<'a>, Token<'a>)>
        ensures { MatchOption result
            (tokens self.now ≡ [])
            (λ r. tokens self.now ≡ tokens r.0 ++ r.1 ∷ []) }
    {
        let (front, last) = boundary::split_last(self.inner)?;
        let token = Token::from_encoded_unchecked(CowStr::Borrowed(last));
        Some((PointerText { inner: front }, token))
    }

    /// Returns the pointer of the tokens before the last one, or `None` for the root.
    pub fn parent(&self) -> Option<PointerText<'a>>
        ensures { MatchOption result
            (tokens self.now ≡ [])
            (λ r. (t : Text) × (tokens self.now ≡ tokens r ++ t ∷ [])) }
    {
        let (front, _) = boundary::split_last(self.inner)?;
        Some(PointerText { inner: front })
    }

    /// Splits into the first `count` tokens and those after them. Returns `None` if there are
    /// fewer.
    pub fn split_at_count(&self, count: usize) -> Option<(PointerText<'a>, PointerText<'a>)>
        ensures { MatchOption result
            (length (tokens self.now) < count)
            (λ r. (count ≤ length (tokens self.now))
            × (tokens r.0 ≡ take count (tokens self.now))
            × (tokens r.1 ≡ drop count (tokens self.now))) }
    {
        let at = boundary::end_of(self.inner, count)?;
        let (front, rest) = self.inner.split_at(at);
        Some((PointerText { inner: front }, PointerText { inner: rest }))
    }

    /// Splits before the `/` at the byte `offset`. Returns `None` if no `/` is there.
    ///
    /// ```text
    /// /window/a~1b/1
    /// ↑      ↑    ↑
    /// 0      7    12
    /// ```
    pub fn split_at_offset(&self, offset: usize) -> Option<(PointerText<'a>, PointerText<'a>)>
        ensures slash { IsSome result ↔ (slice_index (text_of self.now) offset ≡ 47) }
        ensures split { MatchOption result
            ((front rest : List Text) → SplitsAt (tokens self.now) offset front rest → ⊥)
            (λ r. SplitsAt (tokens self.now) offset (tokens r.0) (tokens r.1)) }
    {
        let (front, rest) = boundary::split_at_boundary(self.inner, offset)?;
        Some((PointerText { inner: front }, PointerText { inner: rest }))
    }

    /// Returns the tokens after `prefix`, or `None` if the pointer starts otherwise.
    #[inline(always)]
    pub fn strip_prefix(&self, prefix: PointerText<'_>) -> Option<PointerText<'a>>
        ensures { MatchOption result
            (BeginsWith (tokens self.now) (tokens prefix.entry) → ⊥)
            (λ r. tokens self.now ≡ tokens prefix.entry ++ tokens r) }
    {
        let rest = boundary::after_prefix(self.inner, prefix.inner)?;
        Some(PointerText { inner: rest })
    }

    /// Returns the tokens before `suffix`, or `None` if the pointer does not end with it.
    ///
    /// The root is a suffix of every pointer, and stripping it changes nothing.
    #[inline(always)]
    pub fn strip_suffix(&self, suffix: PointerText<'_>) -> Option<PointerText<'a>>
        ensures { MatchOption result
            (EndsWith (tokens self.now) (tokens suffix.entry) → ⊥)
            (λ r. tokens self.now ≡ tokens r ++ tokens suffix.entry) }
    {
        let front = self.inner.strip_suffix(suffix.inner)?;
        Some(PointerText { inner: front })
    }

    /// Returns the longest prefix that two pointers have in common, by whole tokens.
    pub fn intersection(&self, other: PointerText<'_>) -> PointerText<'a>
        ensures { IsLongestCommonPrefix (tokens self.now) (tokens other.entry) (tokens result) }
    {
        let seam = boundary::common_boundary(self.inner.as_bytes(), other.inner.as_bytes());
        let (front, _) = self.inner.split_at(seam);
        PointerText { inner: front }
    }

    /// Returns the token from the `/` at the offset `start` to the offset `end`. Takes constant
    /// time.
    ///
    /// # Conditions
    ///
    /// A token begins with the `/` at the offset `start`, and its text ends at the offset `end`.
    pub fn token_between(&self, start: usize, end: usize) -> Token<'a>
        requires { (t : Text) × HasTokenAt (tokens self.now) start t
            × (end ≡ start + (1 + length (esc t))) }
        ensures { HasTokenAt (tokens self.now) start result }
    {
        let (front, _) = self.as_str().split_at(end);
        let (_, token) = front.split_at(start + 1);
        Token::from_encoded_unchecked(CowStr::Borrowed(token))
    }
}

/// Compares the texts byte by byte. Never returns `None`.
impl<'a> PartialOrd for PointerText<'a> {
    ghost use Rattle.jsonptr_syntax.specs.PointerText.{text_of};

    ghost partial_cmp = { λ p q. Some (slice_cmp nat_cmp (text_of p) (text_of q)) };

    ghost laws = { on_po text_of texts_po };

    fn partial_cmp(&self, other: &PointerText<'a>) -> Option<Ordering> {
        Some(self.cmp(other))
    }
}

/// Compares the texts byte by byte.
impl<'a> Ord for PointerText<'a> {
    ghost use Rattle.jsonptr_syntax.specs.PointerText.{text_of};

    ghost cmp = { λ p q. slice_cmp nat_cmp (text_of p) (text_of q) };

    ghost total = { on_total text_of nat_list_cmp_total };

    ghost matches_partial_cmp = { λ p q. refl };

    ghost matches_eq = { λ p q. texts_ties (text_of p) (text_of q) };

    fn cmp(&self, other: &PointerText<'a>) -> Ordering {
        compare::order(self.inner, other.inner)
    }
}

/// Prints the text as a string.
impl fmt::Debug for PointerText<'_> {
    fn fmt<W: fmt::Write>(&self, f: &mut fmt::Formatter<W>) -> fmt::Result {
        self.inner.fmt(f)
    }
}
