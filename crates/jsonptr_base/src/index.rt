//! Array indices, as reference tokens write them (RFC 6901, section 4).
//!
//! A reference token selects an element of an array by its index: a decimal number without leading
//! zeros, counted from 0. A second notation is the single character `-`. It always means the index
//! *after* the last element, where there is no element yet.
//!
//! # What `-` is for
//!
//! Nothing can be read at `-`, so resolving a pointer with that token at an array is an error. It
//! is there for operations that write. A JSON Patch (RFC 6902, section 4.1) appends to a list with
//! the target location `/list/-`, without knowing how long the list is.
//!
//! The `assign` of `jsonptr` appends at `-` too, and so do `add`, `move` and `copy` of the crate
//! `jsonptr_patch`, which applies patches. Where `assign` has to make a container, it makes an
//! array for `-` and `0`, and an object for any other token.
//!
//! # From a token to an index
//!
//! [`Token::to_index`] parses the token. The result is an [`Index`], which depends on no array. It
//! becomes a number once the length of the array is known, by one of three methods:
//!
//! ```text
//! array of length 3    [ a | b | c ]
//! index                  0   1   2   3 or `-`   4
//! for_len                └───────┘                     to read or replace an element
//! for_len_incl           └───────────┘                 to insert or append an element
//! for_len_unchecked      └───────────────────────── …  no check
//! ```
//!
//! # Examples
//!
//! ```rust
//! let index = Token::from_number(alloc, 3)?.to_index()?;
//! assert_eq!(rt; index.for_len(5), Ok(3));
//! assert!(rt; index.for_len(3).is_err());
//! assert_eq!(rt; index.for_len_incl(3), Ok(3));
//! assert_eq!(rt; Index::Next.for_len_incl(3), Ok(3));
//! ```
//!
//! Tokens that are indices, and one that is not:
//!
//! ```rust
//! assert_eq!(rt; Token::new(alloc, CowStr::Borrowed("1"))?.to_index(), Ok(Index::Num(1)));
//! assert_eq!(rt; Token::new(alloc, CowStr::Borrowed("-"))?.to_index(), Ok(Index::Next));
//! assert!(rt; Token::new(alloc, CowStr::Borrowed("one"))?.to_index().is_err());
//! ```
ghost use Rattle.std.specs.Prelude.{◌≡◌, ◌≢◌, ◌≤◌, ◌<◌, ◌^◌, ℕ, [], ◌∷◌, length, slice_index, string_bytes, Result, Err, Some, MatchOption, not, position};
ghost use Rattle.std.specs.Char.{is_ascii_digit};
ghost use Rattle.std.specs.Str.Parse.{IsNumeral, digits_value};
ghost use Rattle.jsonptr_grammar.specs.Text.{esc};
ghost use Rattle.jsonptr_base.specs.declared.index.Index.{Index};
ghost use Rattle.jsonptr_base.specs.declared.index.ParseIndexError.{ParseIndexError};
ghost use Rattle.jsonptr_base.specs.declared.index.OutOfBoundsError.{OutOfBoundsError};
ghost use Rattle.jsonptr_base.specs.declared.index.Index.TheVariants.{Num, Next};
ghost use Rattle.jsonptr_base.specs.Index.{IsWithin, IsWithinOrNext, Reads, first_nondigit, index_text, position_in, subject_text, leading_zeros, nondigits_from};

use crate::token::Token;
use jsonptr_diagnostic::diagnostic::{Diagnostic, Label, one_label};
use std::alloc::{AllocError, Global};
use std::convert::AsStr;
use std::error::Error;
use std::fmt;
use std::marker::Model;
use std::str::FromStr;

/// An array index that has not been checked against the length of an array.
///
/// [`Index::for_len`] and [`Index::for_len_incl`] check it and return the number. Indices are
/// ordered by number, and [`Index::Next`] is greater than each number. `Display` prints the token:
/// the number in decimal digits, or `-`. Parsing takes time linear in the length of the text. All
/// other calls take constant time, and none allocates.
///
/// # Examples
///
/// ```rust
/// assert_eq!(rt; "12".parse::<Index>(), Ok(Index::Num(12)));
/// assert_eq!(rt; Index::from(12), Index::Num(12));
/// assert_eq!(rt; Index::Next.to_string(alloc)?.as_str(), "-");
/// ```
#[derive(Clone, Copy, Debug, PartialEq, Eq, PartialOrd, Ord, Hash)]
pub enum Index {
    /// A number, counted from 0.
    Num(usize),
    /// The index after the last element, which a token writes as `-`. For an array of length `n` it
    /// is the number `n`.
    Next,
}

impl Index {
    /// Returns the index of an existing element of an array of `length` elements.
    ///
    /// The result is less than `length`, so it is safe to index the array with it. `Next` is always
    /// an error here; use [`Index::for_len_incl`] where it is valid.
    ///
    /// # Errors
    ///
    /// [`OutOfBoundsError`] if the index is `Next` or a number that is not less than `length`.
    ///
    /// # Examples
    ///
    /// ```rust
    /// let past = OutOfBoundsError {
    ///     length: 4,
    ///     index: 4,
    /// };
    /// assert_eq!(rt; Index::Num(3).for_len(4), Ok(3));
    /// assert!(rt; Index::Num(4).for_len(4).is_err());
    /// assert_eq!(rt; Index::Next.for_len(4), Err(past));
    /// ```
    pub fn for_len(&self, length: usize) -> Result<usize, OutOfBoundsError>
        ensures { IsWithin self.now length result }
    {
        match *self {
            Index::Num(index) if index < length => Ok(index),
            Index::Num(index) => Err(OutOfBoundsError { length, index }),
            Index::Next => Err(OutOfBoundsError {
                length,
                index: length,
            }),
        }
    }

    /// Returns the index at which an element can be inserted into an array of `length` elements.
    ///
    /// The result is at most `length`. It can be `length` itself, where the array has no element,
    /// so it is not safe to index the array with it. `Next` is always valid and returns `length`.
    ///
    /// # Errors
    ///
    /// [`OutOfBoundsError`] if the index is a number greater than `length`.
    ///
    /// # Examples
    ///
    /// ```rust
    /// assert_eq!(rt; Index::Num(4).for_len_incl(4), Ok(4));
    /// assert_eq!(rt; Index::Next.for_len_incl(4), Ok(4));
    /// assert!(rt; Index::Num(5).for_len_incl(4).is_err());
    /// ```
    pub fn for_len_incl(&self, length: usize) -> Result<usize, OutOfBoundsError>
        ensures { IsWithinOrNext self.now length result }
    {
        match *self {
            Index::Num(index) if index <= length => Ok(index),
            Index::Num(index) => Err(OutOfBoundsError { length, index }),
            Index::Next => Ok(length),
        }
    }

    /// Returns the index as a number, without a check; the number of `Next` is `length`.
    ///
    /// The result can be any number. [`Index::for_len`] and [`Index::for_len_incl`] check it.
    ///
    /// # Examples
    ///
    /// ```rust
    /// assert_eq!(rt; Index::Num(9).for_len_unchecked(4), 9);
    /// assert_eq!(rt; Index::Next.for_len_unchecked(4), 4);
    /// ```
    pub fn for_len_unchecked(&self, length: usize) -> usize
        ensures { result ≡ position_in length self.now }
    {
        match *self {
            Index::Num(index) => index,
            Index::Next => length,
        }
    }
}

/// Prints the token of the index: its decimal digits, or `-`.
impl fmt::Display for Index {
    ghost output = { λ index. Some (index_text index) };

    fn fmt<W: fmt::Write>(&self, f: &mut fmt::Formatter<W>) -> fmt::Result {
        match *self {
            Index::Num(index) => write!(f, "{index}"),
            Index::Next => f.write_str("-"),
        }
    }
}

impl From<usize> for Index {
    ghost from_gives = { λ n index. index ≡ Num n };

    fn from(value: usize) -> Index {
        Index::Num(value)
    }
}

/// Parses the text of a token, encoded or decoded, as [`Token::to_index`] does.
impl FromStr for Index {
    type Err = ParseIndexError;

    ghost from_str_gives = { Reads };

    #[inline(always)]
    fn from_str(s: &str) -> Result<Index, ParseIndexError> {
        match s.as_bytes() {
            [b'-'] => Ok(Index::Next),
            [b'0', _, ..] => Err(ParseIndexError::LeadingZeros),
            _ => read_number(s),
        }
    }
}

impl TryFrom<&str> for Index {
    type Error = ParseIndexError;

    ghost try_from_gives = { λ s r. Reads s.now r };

    fn try_from(value: &str) -> Result<Index, ParseIndexError> {
        value.parse()
    }
}

impl TryFrom<String> for Index {
    type Error = ParseIndexError;

    ghost try_from_gives = { λ s r. Reads (string_bytes s) r };

    fn try_from(value: String) -> Result<Index, ParseIndexError> {
        value.as_str().parse()
    }
}

impl TryFrom<&String> for Index {
    type Error = ParseIndexError;

    ghost try_from_gives = { λ s r. Reads (string_bytes s.now) r };

    fn try_from(value: &String) -> Result<Index, ParseIndexError> {
        value.as_str().parse()
    }
}

impl TryFrom<Token<'_>> for Index {
    type Error = ParseIndexError;

    ghost try_from_gives = { λ t r. Reads t r };

    fn try_from(value: Token<'_>) -> Result<Index, ParseIndexError> {
        value.to_index()
    }
}

impl TryFrom<&Token<'_>> for Index {
    type Error = ParseIndexError;

    ghost try_from_gives = { λ t r. Reads t.now r };

    fn try_from(value: &Token<'_>) -> Result<Index, ParseIndexError> {
        value.to_index()
    }
}

/// Parses a text that is not `-` and has no leading zeros. Looks for the fault only if the text is
/// not a number.
fn read_number(s: &str) -> Result<Index, ParseIndexError>
    requires not_next { s.now ≢ 45 ∷ [] }
    requires no_leading_zeros { slice_index s.now 0 ≡ 48 → length s.now ≤ 1 }
    ensures { Reads s.now result }
{
    match number_of(s.as_bytes()) {
        Some(number) => Ok(Index::Num(number)),
        None => Err(error_of(s)),
    }
}

/// Returns the number that the bytes write in decimal digits. Returns `None` if there are none, if
/// one of them is not a digit, or if the number does not fit `usize`.
fn number_of(digits: &[u8]) -> Option<usize>
    ensures { MatchOption result
        (IsNumeral 10 digits.now → digits_value 10 digits.now < 2 ^ 64 → ⊥)
        (λ n. IsNumeral 10 digits.now × (n ≡ digits_value 10 digits.now)) }
{
    if digits.is_empty() {
        return None;
    }
    let mut number = 0usize;
    for i in 0..digits.len() {
        if !digits[i].is_ascii_digit() {
            return None;
        }
        let digit = usize::from(digits[i] - b'0');
        number = number.checked_mul(10)?.checked_add(digit)?;
    }
    Some(number)
}

/// Returns why a text is not a number that fits `usize`.
fn error_of(s: &str) -> ParseIndexError
    requires not_next { s.now ≢ 45 ∷ [] }
    requires no_leading_zeros { slice_index s.now 0 ≡ 48 → length s.now ≤ 1 }
    requires no_number { IsNumeral 10 s.now → digits_value 10 s.now < 2 ^ 64 → ⊥ }
    ensures { Reads s.now (Err result) }
{
    match first_nondigit(s) {
        Some(offset) => ParseIndexError::InvalidCharacter(InvalidCharacterError { offset }),
        None if s.is_empty() => ParseIndexError::InvalidInteger(IntegerCause::Empty),
        None => ParseIndexError::InvalidInteger(IntegerCause::Overflow),
    }
}

/// Returns the offset of the first character that is not an ASCII digit, in characters.
fn first_nondigit(s: &str) -> Option<usize>
    ensures { result ≡ first_nondigit s.now }
{
    first_nondigit_byte(s)
}

/// Returns the offset of the first byte that is not an ASCII digit. Each character before it is one
/// byte.
fn first_nondigit_byte(s: &str) -> Option<usize>
    ensures { result ≡ position (λ b. not (is_ascii_digit b)) s.now }
{
    s.bytes().position(|b| !b.is_ascii_digit())
}

impl<'a> Token<'a> {
    /// Parses the token as an array index (RFC 6901, section 4).
    ///
    /// | Token                 | Result                                           |
    /// | --------------------- | ------------------------------------------------ |
    /// | `-`                   | [`Index::Next`]                                  |
    /// | `0`, `7`, `120`       | [`Index::Num`]                                   |
    /// | `012`, `00`           | [`ParseIndexError::LeadingZeros`]                |
    /// | `width`, `12px`, `-1` | [`ParseIndexError::InvalidCharacter`]            |
    /// | the empty token       | `InvalidInteger` with [`IntegerCause::Empty`]    |
    /// | above `usize::MAX`    | `InvalidInteger` with [`IntegerCause::Overflow`] |
    ///
    /// Takes time linear in the length of the token, and needs no allocation. An index contains no
    /// escape sequence, so the encoded and the decoded text lead to the same result.
    ///
    /// # Errors
    ///
    /// [`ParseIndexError`] if the token is neither `-` nor a number without leading zeros that fits
    /// `usize`.
    ///
    /// # Examples
    ///
    /// ```rust
    /// let next = Token::new(alloc, CowStr::Borrowed("-"))?;
    /// assert_eq!(rt; next.to_index(), Ok(Index::Next));
    /// assert_eq!(rt; Token::from_number(alloc, 7)?.to_index(), Ok(Index::Num(7)));
    /// assert!(rt; Token::from_number(alloc, -7)?.to_index().is_err());
    /// ```
    #[inline(always)]
    pub fn to_index(&self) -> Result<Index, ParseIndexError>
        ensures encoded { Reads (esc self.now) result }
        ensures decoded { Reads self.now result }
    {
        self.encoded().parse()
    }
}

/// The error of an index that is out of the bounds of an array.
///
/// [`Index::for_len`] and [`Index::for_len_incl`] return it. The first accepts indices less than
/// the length, the second also the length itself.
///
/// # Examples
///
/// ```rust
/// let error = Index::Num(6).for_len(4).err().ok_or("an error")?;
/// assert_eq!(rt; (error.index, error.length), (6, 4));
/// assert_eq!(rt;
///     error.to_string(alloc)?.as_str(),
///     "index 6 out of bounds (len: 4)"
/// );
/// ```
#[derive(Clone, Debug, PartialEq, Eq, Drop)]
pub struct OutOfBoundsError {
    /// The length of the array, in elements.
    pub length: usize,
    /// The index as a number. For [`Index::Next`] it is the length.
    pub index: usize,
}

impl fmt::Display for OutOfBoundsError {
    ghost use Rattle.jsonptr_base.specs.Index.{bounds_message};

    ghost output = { λ e. Some (bounds_message e) };

    fn fmt<W: fmt::Write>(&self, f: &mut fmt::Formatter<W>) -> fmt::Result {
        write!(
            f,
            "index {} out of bounds (len: {})",
            self.index, self.length
        )
    }
}

impl Error for OutOfBoundsError {}

/// The error of a text that is not an array index (RFC 6901, section 4).
///
/// [`Token::to_index`] has a table of which text leads to which error.
///
/// # Examples
///
/// ```rust
/// let empty = ParseIndexError::InvalidInteger(IntegerCause::Empty);
/// assert_eq!(rt; "".parse::<Index>(), Err(empty));
/// assert_eq!(rt; "012".parse::<Index>(), Err(ParseIndexError::LeadingZeros));
/// ```
#[derive(Clone, Debug, PartialEq, Eq, Drop)]
pub enum ParseIndexError {
    /// The text is empty, or it is a number that does not fit `usize`.
    InvalidInteger(IntegerCause),
    /// The text starts with `0` and is longer, whatever follows. RFC 6901 allows no leading zeros.
    LeadingZeros,
    /// The text contains a character that is not an ASCII digit. A sign is one too: `+1` is
    /// invalid.
    InvalidCharacter(InvalidCharacterError),
}

impl fmt::Display for ParseIndexError {
    ghost use Rattle.jsonptr_base.specs.Index.{index_message};

    ghost output = { λ e. Some (index_message e) };

    fn fmt<W: fmt::Write>(&self, f: &mut fmt::Formatter<W>) -> fmt::Result {
        match self {
            ParseIndexError::InvalidInteger(_) => {
                f.write_str("failed to parse token as an integer")
            }
            ParseIndexError::LeadingZeros => {
                f.write_str("token contained leading zeros, which are disallowed by RFC 6901")
            }
            ParseIndexError::InvalidCharacter(_) => f.write_str(
                "failed to parse token as an index",
            ),
        }
    }
}

impl Error for ParseIndexError {}

/// Labels the characters at fault in the text of a token or of a string.
///
/// | Error                                 | Label                                        |
/// | ------------------------------------- | -------------------------------------------- |
/// | [`ParseIndexError::LeadingZeros`]     | "leading zeros", on all of them              |
/// | [`ParseIndexError::InvalidCharacter`] | "invalid character(s)", up to the next digit |
/// | [`ParseIndexError::InvalidInteger`]   | none                                         |
impl Diagnostic for ParseIndexError {
    ghost use Rattle.std.specs.Prelude.{codes};
    ghost use Rattle.jsonptr_base.specs.Index.{IsIndexErrorLabelled, subject_text};

    type Subject = StringOrToken;

    ghost url = { codes "https://docs.rs/jsonptr/0.8.2/jsonptr/index/enum.ParseIndexError.html" };

    ghost labels_gives = { λ e subject. IsIndexErrorLabelled e (subject_text subject) };

    fn url() -> &'static str {
        "https://docs.rs/jsonptr/0.8.2/jsonptr/index/enum.ParseIndexError.html"
    }

    fn labels(
        &self,
        alloc: Global,
        subject: &StringOrToken,
    ) -> Result<Option<Vec<Label>>, AllocError> {
        let text = subject.as_str().as_bytes();
        match self {
            ParseIndexError::InvalidInteger(_) => Ok(None),
            ParseIndexError::LeadingZeros => {
                one_label(alloc, "leading zeros", 0, leading_zeros(text))
            }
            ParseIndexError::InvalidCharacter(error) => {
                let len = nondigits_from(error.offset, text);
                one_label(alloc, "invalid character(s)", error.offset, len)
            }
        }
    }
}

/// Returns how many bytes `0` the text begins with.
fn leading_zeros(text: &[u8]) -> usize
    ensures { result ≡ leading_zeros text.now }
{
    let mut count = 0;
    while count < text.len() && text[count] == b'0' {
        count += 1;
    }
    count
}

/// Returns the number of bytes from `offset` to the next ASCII digit, or to the end.
fn nondigits_from(offset: usize, text: &[u8]) -> usize
    ensures { result ≡ nondigits_from offset text.now }
{
    let mut end = offset;
    while end < text.len() && !text[end].is_ascii_digit() {
        end += 1;
    }
    end - offset
}

/// The text that a [`ParseIndexError`] is about, as the subject of a report.
///
/// Both a string and a token can be parsed as an index, so a report keeps either.
///
/// # Examples
///
/// ```rust
/// let token = Token::from_encoded(CowStr::Borrowed("7~1"))?.into_owned(alloc)?;
/// assert_eq!(rt; StringOrToken::from(token).as_str(), "7~1");
/// ```
///
/// A report of an index that is invalid, drawn with its label:
///
/// ```rust
/// let subject = StringOrToken::from(String::from_str(alloc, "12px")?);
/// let report = "12px".parse::<Index>().diagnose(subject).err().ok_or("a report")?;
/// assert_eq!(rt; report.render(alloc)?.as_str(), "12px\n  ^^ invalid character(s)");
/// ```
#[derive(Debug, Drop)]
pub enum StringOrToken {
    /// A string.
    String(String),
    /// A token, of which a report shows the encoded text.
    Token(Token<'static>),
}

impl StringOrToken {
    /// Returns the string, or the encoded text of the token.
    ///
    /// # Examples
    ///
    /// ```rust
    /// let subject = StringOrToken::from(String::from_str(alloc, "012")?);
    /// assert_eq!(rt; subject.as_str(), "012");
    /// ```
    pub fn as_str(&self) -> &str
        ensures { result.now ≡ subject_text self.now }
    {
        match self {
            StringOrToken::String(text) => text.as_str(),
            StringOrToken::Token(token) => token.encoded(),
        }
    }
}

impl AsStr for StringOrToken {
    ghost text = { λ subject. subject_text subject };

    fn as_str(&self) -> &str {
        self.as_str()
    }
}

impl From<String> for StringOrToken {
    ghost use Rattle.jsonptr_base.specs.declared.index.StringOrToken.TheVariants as subject_of;

    ghost from_gives = { λ s subject. subject ≡ subject_of.String s };

    fn from(text: String) -> StringOrToken {
        StringOrToken::String(text)
    }
}

impl From<Token<'static>> for StringOrToken {
    ghost use Rattle.jsonptr_base.specs.declared.index.StringOrToken.TheVariants as subject_of;

    ghost from_gives = { λ t subject. subject ≡ subject_of.Token t };

    fn from(token: Token<'static>) -> StringOrToken {
        StringOrToken::Token(token)
    }
}

/// Why a text without other characters than digits is not a number that fits `usize`.
///
/// # Examples
///
/// ```rust
/// let refused = "99999999999999999999".parse::<Index>();
/// let cause = IntegerCause::Overflow;
/// assert_eq!(rt; refused, Err(ParseIndexError::InvalidInteger(cause)));
/// ```
#[derive(Clone, Copy, Debug, PartialEq, Eq)]
pub enum IntegerCause {
    /// The text is empty.
    Empty,
    /// The number is greater than `usize::MAX`.
    Overflow,
}

/// The error of a character that no array index contains, with its offset.
///
/// ```text
/// 12px
///   ↑
///   2
/// ```
///
/// Contracts see it as its offset.
///
/// # Examples
///
/// ```rust
/// match "12px".parse::<Index>() {
///     Err(ParseIndexError::InvalidCharacter(error)) => assert_eq!(rt; error.offset(), 2),
///     _ => return Err("another error".into()),
/// }
/// ```
#[derive(Clone, Debug, PartialEq, Eq, Drop)]
pub struct InvalidCharacterError {
    offset: usize,
}

impl Model for InvalidCharacterError {
    ghost use Rattle.std.specs.Prelude.{ℕ};

    ghost Value = { ℕ };

    ghost view = { λ e. e.offset };

    ghost inverse = { λ n. record { offset = n } };
}

impl InvalidCharacterError {
    /// Returns the offset of the first character that is not an ASCII digit, in characters.
    ///
    /// It is the offset in bytes too, because each character before it is an ASCII digit.
    ///
    /// # Examples
    ///
    /// ```rust
    /// let Err(ParseIndexError::InvalidCharacter(error)) = "7é".parse::<Index>() else {
    ///     return Err("an invalid character".into());
    /// };
    /// assert_eq!(rt; error.offset(), 1);
    /// ```
    pub fn offset(&self) -> usize
        ensures { result ≡ self.now }
    {
        self.offset
    }
}

impl fmt::Display for InvalidCharacterError {
    ghost use Rattle.std.specs.Prelude.{codes};

    ghost output = { λ _.
        Some (codes "token contains a non-digit character, which is disallowed by RFC 6901") };

    fn fmt<W: fmt::Write>(&self, f: &mut fmt::Formatter<W>) -> fmt::Result {
        f.write_str("token contains a non-digit character, which is disallowed by RFC 6901")
    }
}

impl Error for InvalidCharacterError {}
