//! Reference tokens: the segments of a JSON Pointer (RFC 6901, section 3).
//!
//! A pointer is a sequence of reference tokens, each after a `/`. So a `/` inside a token needs an
//! escape sequence, and so does the `~` that starts one:
//!
//! | Decoded | Encoded |
//! | ------- | ------- |
//! | `~`     | `~0`    |
//! | `/`     | `~1`    |
//!
//! ```text
//! /window/a~1b/-
//!  └─┬──┘ └┬─┘ ↑
//!    │     │   the token `-`: as an array index, the one after the last element
//!    │     the token with the encoded text `a~1b` and the decoded text `a/b`
//!    the token `window`
//! ```
//!
//! A [`Token`] is one of them. Its text is always valid, and it cannot be changed afterwards.
ghost use Rattle.std.specs.Prelude.{◌≡◌, ◌≢◌, ◌↔◌, refl, [], ◌∷◌, Some, All, IsTrue, IsOk, IfOk, IfErr};
ghost use Rattle.std.proofs.Common.{rules};
ghost use Rattle.std.specs.Cow.{cow_str_bytes, IsBorrowedStr};
ghost use Rattle.std.specs.Hash as fed;
ghost use Rattle.std.specs.Ordering.{nat_cmp};
ghost use Rattle.std.specs.Str.{bytes_eq};
ghost use Rattle.std.specs.Cmp;
ghost use Rattle.std.specs.Cmp.{on_equiv, on_per, on_po, on_total};
ghost use Rattle.std.specs.Cmp.Lexicographic.{slice_cmp, nat_list_eq_equiv, nat_list_cmp_total, texts_po, texts_ties};
ghost use Rattle.std.specs.Cmp.Rules.{hashing};
ghost use Rattle.jsonptr_grammar.specs.Text.{HasNoTilde, esc};
ghost use Rattle.jsonptr_grammar.specs.Grammar.{IsToken};
ghost use Rattle.jsonptr_base.specs.Token.{IsEncodingErrorOf};
ghost use Rattle.jsonptr_base.specs.declared.token.EncodingError.{EncodingError};

use jsonptr_diagnostic::diagnostic::{Diagnostic, Label, one_label};
use std::alloc::{AllocError, Global};
use std::borrow::CowStr;
use std::cmp::Ordering;
use std::error::Error;
use std::fmt;
use std::hash::{Hash, Hasher};
use std::marker::Model;

/// A reference token: one segment of a JSON Pointer, without the `/` before it.
///
/// In an object a token is the key of a member. In an array it is an [index](Token::to_index): a
/// number without leading zeros, or `-` for the index after the last element.
///
/// A token has two texts: the *encoded* text, as a pointer contains it, and the *decoded* text,
/// which is the key itself. The constructor depends on which of them is at hand:
///
/// | At hand                                | Constructor                       |
/// | -------------------------------------- | --------------------------------- |
/// | a key, or any other decoded text       | [`Token::new`]                    |
/// | encoded text, to be checked            | [`Token::from_encoded`]           |
/// | encoded text that is known to be valid | [`Token::from_encoded_unchecked`] |
/// | an integer                             | [`Token::from_number`]            |
///
/// The token keeps its encoded text, which it borrows for `'a` or owns. [`Token::into_owned`] makes
/// it independent of what it borrows from. Contracts see a token as its decoded text, a list of
/// bytes, and its encoded text as `esc` of that list.
///
/// # Examples
///
/// ```rust
/// let token = Token::new(alloc, CowStr::Borrowed("width/height"))?;
/// assert_eq!(rt; token.encoded(), "width~1height");
/// assert_eq!(rt; token.to_string(alloc)?.as_str(), "width/height");
/// ```
#[derive(Debug, Drop)]
pub struct Token<'a> {
    inner: CowStr<'a>,
}

impl<'a> Model for Token<'a> {
    ghost use Rattle.std.specs.Prelude.{◌≡◌, ℕ, List};
    ghost use Rattle.std.specs.Cow.{cow_str_bytes};
    ghost use Rattle.jsonptr_grammar.specs.Text.{esc, unesc};

    ghost Value = { List ℕ };

    ghost view = { λ t. unesc (cow_str_bytes t.inner) };

    ghost invariant = { λ t. esc (unesc (cow_str_bytes t.inner)) ≡ cow_str_bytes t.inner };
}

impl<'a> Token<'a> {
    /// Parses an encoded text, in which each `~` is followed by `0` or `1` and no byte is a `/`.
    ///
    /// Checks the text in one pass, in time linear in its length, and keeps it unchanged. Needs no
    /// allocation. For text that is not encoded, use [`Token::new`].
    ///
    /// # Errors
    ///
    /// [`EncodingError`] if the text is not a reference token (RFC 6901, section 3). It reports the
    /// first fault, with its offset in bytes. The text is dropped.
    ///
    /// # Examples
    ///
    /// ```rust
    /// let token = Token::from_encoded(CowStr::Borrowed("m~0n~1"))?;
    /// assert_eq!(rt; token.decoded(alloc)?.as_str(), "m~n/");
    /// let refused = Token::from_encoded(CowStr::Borrowed("lines/7"));
    /// assert_eq!(rt; refused.err().ok_or("a fault")?.offset, 5);
    /// ```
    pub fn from_encoded(s: CowStr<'a>) -> Result<Token<'a>, EncodingError>
        ensures token { IsOk result ↔ IsToken (cow_str_bytes s.entry) }
        ensures text { IfOk result (λ t. esc t ≡ cow_str_bytes s.entry) }
        ensures refused { IfErr result (IsEncodingErrorOf (cow_str_bytes s.entry)) }
    {
        match scan::first_fault(s.as_str().as_bytes()) {
            None => Ok(Token { inner: s }),
            Some(fault) => Err(fault),
        }
    }

    /// Wraps an encoded text that is known to be valid, without checking it.
    ///
    /// Keeps the text, unchanged. Takes constant time and needs no allocation.
    ///
    /// # Conditions
    ///
    /// The text is a reference token (RFC 6901, section 3): it contains no `/`, and each `~` in it
    /// is followed by `0` or `1`. The caller proves this.
    ///
    /// # Examples
    ///
    /// ```rust
    /// let token = Token::from_encoded_unchecked(CowStr::Borrowed("~0~1"));
    /// assert_eq!(rt; token.encoded(), "~0~1");
    /// ```
    pub fn from_encoded_unchecked(s: CowStr<'a>) -> Token<'a>
        requires { IsToken (cow_str_bytes s) }
        ensures { esc result ≡ cow_str_bytes s.entry }
    {
        Token { inner: s }
    }

    /// Creates the token whose decoded text is `s`, and escapes each `~` and `/` of it.
    ///
    /// The text is always taken as *not* encoded. Text that is encoded already would be encoded
    /// twice:
    ///
    /// ```text
    /// decoded `a/b`    Token::new(..)             encoded `a~1b`
    /// encoded `a~1b`   Token::from_encoded(..)    encoded `a~1b`
    ///                  Token::new(..)             encoded `a~01b`, the key `a~1b`: double encoding
    /// ```
    ///
    /// A text without `~` and `/` is kept, borrowed or owned as it is, and needs no allocation. Any
    /// other is encoded into a new allocation. Takes time linear in the length of the text.
    ///
    /// # Errors
    ///
    /// [`AllocError`] if the text contains a `~` or a `/` and the allocation for its encoded text
    /// fails.
    ///
    /// # Examples
    ///
    /// ```rust
    /// let docs = Token::new(alloc, CowStr::Borrowed("~/docs"))?;
    /// assert_eq!(rt; docs.encoded(), "~0~1docs");
    /// assert_eq!(rt; Token::new(alloc, CowStr::Borrowed("~1"))?.encoded(), "~01");
    /// ```
    #[inline(always)]
    pub fn new(alloc: Global, s: CowStr<'a>) -> Result<Token<'a>, AllocError>
        ensures text { IfOk result (λ t. t ≡ cow_str_bytes s.entry) }
        ensures no_memory { HasNoTilde (cow_str_bytes s.entry)
            → All (λ b. b ≢ 47) (cow_str_bytes s.entry) → IsOk result }
    {
        match scan::first_special(s.as_str().as_bytes()) {
            None => Ok(Token { inner: s }),
            Some(at) => Ok(Token {
                inner: CowStr::Owned(scan::escaped(alloc, s.as_str(), at)?),
            }),
        }
    }

    /// Creates the token with the decimal text of an integer of any of the [`Number`] types.
    ///
    /// The token of a negative integer is a key like any other; as an array index it is invalid.
    /// Takes time linear in the number of digits, and allocates the text.
    ///
    /// # Errors
    ///
    /// [`AllocError`] if the allocation for the text fails.
    ///
    /// # Examples
    ///
    /// ```rust
    /// assert_eq!(rt; Token::from_number(alloc, 250u8)?.encoded(), "250");
    /// assert_eq!(rt; Token::from_number(alloc, -4i64)?.encoded(), "-4");
    /// ```
    pub fn from_number<N: Number>(alloc: Global, n: N) -> Result<Token<'static>, AllocError>
        ensures { IfOk result (λ t. t ≡ N.decimal_text n) }
    {
        Token::new(alloc, CowStr::Owned(n.to_decimal(alloc)?))
    }

    /// Converts into a token that owns its text.
    ///
    /// Text that the token owns is moved in constant time. Text that it borrows is copied, in time
    /// linear in its length.
    ///
    /// # Errors
    ///
    /// [`AllocError`] if the token borrows its text and the allocation for the copy fails.
    ///
    /// # Examples
    ///
    /// ```rust
    /// let lent = Token::new(alloc, CowStr::Borrowed("lines"))?;
    /// let owned: Token<'static> = lent.into_owned(alloc)?;
    /// assert_eq!(rt; owned.encoded(), "lines");
    /// ```
    pub fn into_owned(self, alloc: Global) -> Result<Token<'static>, AllocError>
        ensures { IfOk result (λ t. t ≡ self.entry) }
    {
        Ok(Token {
            inner: CowStr::Owned(self.inner.into_owned(alloc)?),
        })
    }

    /// Returns a token that owns a copy of the text.
    ///
    /// Unlike [`Token::into_owned`], this leaves the token with the caller and always copies its
    /// text, in time linear in its length.
    ///
    /// # Errors
    ///
    /// [`AllocError`] if the allocation for the copy fails.
    ///
    /// # Examples
    ///
    /// ```rust
    /// let lent = Token::new(alloc, CowStr::Borrowed("lines"))?;
    /// assert_eq!(rt; lent.to_owned(alloc)?, lent);
    /// ```
    pub fn to_owned(&self, alloc: Global) -> Result<Token<'static>, AllocError>
        ensures { IfOk result (λ t. t ≡ self.now) }
    {
        self.clone()?.into_owned(alloc)
    }

    /// Returns the encoded text: the token as a pointer contains it, without the `/`. Takes constant
    /// time.
    ///
    /// # Examples
    ///
    /// ```rust
    /// let token = Token::new(alloc, CowStr::Borrowed("7/~"))?;
    /// assert_eq!(rt; token.encoded(), "7~1~0");
    /// ```
    pub fn encoded(&self) -> &str
        ensures { result.now ≡ esc self.now }
    {
        self.inner.as_str()
    }

    /// Converts into the encoded text.
    ///
    /// Like [`Token::encoded`], but consumes the token and so also returns text that it owns. Takes
    /// constant time and needs no allocation, because a token keeps its text encoded.
    ///
    /// # Examples
    ///
    /// ```rust
    /// let token = Token::new(alloc, CowStr::Borrowed("a/b"))?;
    /// assert_eq!(rt; token.into_encoded().as_str(), "a~1b");
    /// ```
    pub fn into_encoded(self) -> CowStr<'a>
        ensures { cow_str_bytes result ≡ esc self.entry }
    {
        self.inner
    }

    /// Returns the decoded text, with each `~1` replaced by `/` and each `~0` by `~` (RFC 6901,
    /// section 4).
    ///
    /// Both are replaced in one pass from left to right, in time linear in the length of the token.
    /// So `~01` decodes to `~1` and not to `/`. A token without `~` needs no allocation: the result
    /// borrows its text. The `Display` implementation prints the decoded text of any token without
    /// an allocation.
    ///
    /// # Errors
    ///
    /// [`AllocError`] if the token contains a `~` and the allocation for the decoded text fails.
    ///
    /// # Examples
    ///
    /// ```rust
    /// let token = Token::from_encoded(CowStr::Borrowed("~01"))?;
    /// assert_eq!(rt; token.decoded(alloc)?.as_str(), "~1");
    /// ```
    #[inline(always)]
    pub fn decoded(&self, alloc: Global) -> Result<CowStr<'_>, AllocError>
        ensures text { IfOk result (λ c. cow_str_bytes c ≡ self.now) }
        ensures no_memory { HasNoTilde (esc self.now) → IsOk result }
        ensures lends { HasNoTilde (esc self.now) → IfOk result IsBorrowedStr }
    {
        let encoded = self.encoded();
        match scan::first_tilde(encoded.as_bytes()) {
            None => Ok(CowStr::Borrowed(encoded)),
            Some(_) => Ok(CowStr::Owned(scan::unescaped(alloc, encoded)?)),
        }
    }

    /// Returns whether the token is `-`, which as an array index is the one after the last element.
    ///
    /// See [`Index::Next`](crate::index::Index::Next) for what `-` is for. In an object, `-` is a
    /// key like any other. Takes constant time.
    ///
    /// # Examples
    ///
    /// ```rust
    /// assert!(rt; Token::new(alloc, CowStr::Borrowed("-"))?.is_next());
    /// assert!(rt; !Token::from_number(alloc, 7)?.is_next());
    /// ```
    pub fn is_next(&self) -> bool
        ensures { IsTrue result ↔ (self.now ≡ 45 ∷ []) }
    {
        self.encoded() == "-"
    }
}

/// Copies text that the token owns, in time linear in its length. Text that it borrows stays
/// borrowed, in constant time and without an allocation.
impl<'a> Clone for Token<'a> {
    ghost is_clone = { λ t copy. copy ≡ t };

    fn clone(&self) -> Result<Token<'a>, AllocError> {
        Ok(Token {
            inner: self.inner.clone()?,
        })
    }
}

/// Compares the encoded texts. They are equal exactly if the decoded texts are.
impl<'a> PartialEq for Token<'a> {
    ghost eq = { λ s t. bytes_eq (esc s) (esc t) };

    ghost laws = { on_per esc (Cmp.partial_equiv_from_equiv nat_list_eq_equiv) };

    fn eq(&self, other: &Token<'a>) -> bool
        ensures value { result ≡ bytes_eq (esc self.now) (esc other.now) }
        ensures decoded { IsTrue result ↔ (self.now ≡ other.now) }
    {
        self.encoded() == other.encoded()
    }
}

impl<'a> Eq for Token<'a> {
    ghost laws = { on_equiv esc nat_list_eq_equiv };
}

impl<'a> PartialOrd for Token<'a> {
    ghost partial_cmp = { λ s t. Some (slice_cmp nat_cmp (esc s) (esc t)) };

    ghost laws = { on_po esc texts_po };

    fn partial_cmp(&self, other: &Token<'a>) -> Option<Ordering> {
        Some(self.cmp(other))
    }
}

/// Compares the bytes of the encoded texts, from left to right.
impl<'a> Ord for Token<'a> {
    ghost cmp = { λ s t. slice_cmp nat_cmp (esc s) (esc t) };

    ghost total = { on_total esc nat_list_cmp_total };

    ghost matches_partial_cmp = { λ s t. refl };

    ghost matches_eq = { λ s t. texts_ties (esc s) (esc t) };

    fn cmp(&self, other: &Token<'a>) -> Ordering {
        self.encoded().cmp(other.encoded())
    }
}

/// Hashes the encoded text, as `str` is hashed.
impl<'a> Hash for Token<'a> {
    ghost hash_input = { λ t. fed.str (esc t) };

    ghost respects_eq = { Prim.search (hashing, rules) };

    fn hash<H: Hasher>(&self, state: &mut H) {
        self.encoded().hash(state);
    }
}

/// Prints the decoded text, and needs no allocation.
impl<'a> fmt::Display for Token<'a> {
    ghost output = { λ t. Some t };

    fn fmt<W: fmt::Write>(&self, f: &mut fmt::Formatter<W>) -> fmt::Result {
        let mut rest = self.encoded();
        while let Some((plain, stands_for, tail)) = scan::split_escape(rest) {
            f.write_str(plain)?;
            f.write_str(stands_for)?;
            rest = tail;
        }
        f.write_str(rest)
    }
}

/// The former name of [`EncodingError`].
///
/// # Examples
///
/// ```rust
/// let refused = Token::from_encoded(CowStr::Borrowed("~2"));
/// let error: jsonptr::InvalidEncodingError = refused.err().ok_or("a fault")?;
/// assert_eq!(rt; error.source, InvalidEncoding::Tilde);
/// ```
pub type InvalidEncodingError = EncodingError;

/// The error of a text that is not a valid encoded token: the first fault and its offset.
///
/// ```text
/// text      lines/7      size~x       size~
///                ↑            ↑            ↑
/// offset         5            5            5
/// source     Slash        Tilde        Tilde
/// ```
///
/// # Examples
///
/// ```rust
/// let error = Token::from_encoded(CowStr::Borrowed("size~x"))
///     .err()
///     .ok_or("a fault")?;
/// let source = InvalidEncoding::Tilde;
/// assert_eq!(rt; error, EncodingError { offset: 5, source });
/// ```
#[derive(Clone, Debug, PartialEq, Eq, Drop)]
pub struct EncodingError {
    /// The offset of the fault in the token's text, in bytes.
    ///
    /// For [`InvalidEncoding::Slash`] it is the offset of the `/`. For [`InvalidEncoding::Tilde`]
    /// it is one after the `~`, which is the length of the text if the `~` is its last byte.
    pub offset: usize,
    /// What is wrong at that offset.
    pub source: InvalidEncoding,
}

impl fmt::Display for EncodingError {
    ghost use Rattle.jsonptr_base.specs.Token.{encoding_message};

    ghost output = { λ e. Some (encoding_message e) };

    fn fmt<W: fmt::Write>(&self, f: &mut fmt::Formatter<W>) -> fmt::Result {
        write!(
            f,
            "token contains invalid encoding at offset {}",
            self.offset
        )
    }
}

impl Error for EncodingError {}

/// Labels the byte at fault, or a `~` that is the last byte of the text.
///
/// | Fault                            | Label                                       |
/// | -------------------------------- | ------------------------------------------- |
/// | [`InvalidEncoding::Slash`]       | "invalid character", on the `/`             |
/// | [`InvalidEncoding::Tilde`]       | "must be 0 or 1", on the byte after the `~` |
/// | the same, at the end of the text | "incomplete escape sequence", on the `~`    |
///
/// A `Tilde` error with the offset 0 has no label on an empty text. Parsing never returns one.
impl Diagnostic for EncodingError {
    ghost use Rattle.std.specs.Prelude.{codes, length, string_bytes};
    ghost use Rattle.jsonptr_base.specs.Token.{IsEncodingErrorLabelled};

    type Subject = String;

    ghost url = { codes "https://docs.rs/jsonptr/0.8.2/jsonptr/struct.EncodingError.html" };

    ghost labels_gives = { λ e subject. IsEncodingErrorLabelled e (length (string_bytes subject)) };

    fn url() -> &'static str {
        "https://docs.rs/jsonptr/0.8.2/jsonptr/struct.EncodingError.html"
    }

    fn labels(&self, alloc: Global, subject: &String) -> Result<Option<Vec<Label>>, AllocError> {
        match self.source {
            InvalidEncoding::Slash => one_label(alloc, "invalid character", self.offset, 1),
            InvalidEncoding::Tilde if self.offset != subject.len() => {
                one_label(alloc, "must be 0 or 1", self.offset, 1)
            }
            InvalidEncoding::Tilde => match self.offset.checked_sub(1) {
                Some(tilde) => one_label(alloc, "incomplete escape sequence", tilde, 1),
                None => Ok(None),
            },
        }
    }
}

/// What is wrong with an encoded text; see [`EncodingError`] for where.
///
/// A `/` right after a `~` counts as [`InvalidEncoding::Slash`].
///
/// # Examples
///
/// ```rust
/// let cause = InvalidEncoding::Slash;
/// assert_eq!(rt;
///     cause.to_string(alloc)?.as_str(),
///     "slash (/) found in token"
/// );
/// ```
#[derive(Clone, Copy, Debug, PartialEq, Eq)]
pub enum InvalidEncoding {
    /// A `~` is followed by neither `0` nor `1`.
    Tilde,
    /// The text contains a `/`, which separates tokens.
    Slash,
}

impl fmt::Display for InvalidEncoding {
    ghost use Rattle.jsonptr_base.specs.Token.{cause_message};

    ghost output = { λ cause. Some (cause_message cause) };

    fn fmt<W: fmt::Write>(&self, f: &mut fmt::Formatter<W>) -> fmt::Result {
        match *self {
            InvalidEncoding::Tilde => f.write_str("tilde (~) not followed by 0 or 1"),
            InvalidEncoding::Slash => f.write_str("slash (/) found in token"),
        }
    }
}

impl Error for InvalidEncoding {}

mod scan;

pub use crate::number::Number;
