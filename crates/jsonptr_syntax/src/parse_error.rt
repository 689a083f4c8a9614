//! The error of a text that is not a JSON Pointer (RFC 6901, section 3).
ghost use Rattle.std.specs.Prelude.{◌≡◌, ◌≢◌, ◌⊎◌, ◌↔◌, ◌+◌, ◌<◌, ◌≤◌, ◌^◌, ◌∷◌, length, All, Some, IsTrue, IsOk, IfOk};
ghost use Rattle.jsonptr_grammar.specs.Text.{Text};

use jsonptr_base::diagnostic::{Diagnostic, Label, Report, one_label};
use jsonptr_base::token::EncodingError;
use std::alloc::{AllocError, Global};
use std::error::Error;
use std::fmt;

/// The error of a text that is not a JSON Pointer (RFC 6901, section 3): its first fault.
///
/// A pointer is empty, or it starts with a `/`; and each `~` in it is followed by `0` or `1`. An
/// error of the second kind has two offsets in bytes, that of the token and that of the `~` within
/// it:
///
/// ```text
/// /size/wi~dth/0
///      ↑  ↑
///      │  complete_offset: 8, which is source_offset: 3 bytes after the `/`
///      pointer_offset: 5, the `/` before the token at fault
/// ```
///
/// `Pointer::parse` returns this error alone. `PointerBuf::parse` returns it in a
/// [`RichParseError`], together with the text.
///
/// # Examples
///
/// ```rust
/// let error = Pointer::parse("size/width").err().ok_or("a fault")?;
/// assert_eq!(rt; error, ParseError::NoLeadingSlash);
/// assert_eq!(rt;
///     error.to_string(alloc)?.as_str(),
///     "json pointer failed to parse; does not start with a slash ('/') and is not empty"
/// );
/// ```
#[derive(Clone, Debug, PartialEq, Eq, Drop)]
pub enum ParseError {
    /// The text is not empty and does not start with `/`.
    NoLeadingSlash,
    /// A `~` is followed by neither `0` nor `1`.
    InvalidEncoding {
        /// The offset of the `/` before the token at fault, in bytes.
        offset: usize,
        /// The fault of that token, as [`Token::from_encoded`] reports it.
        ///
        /// Its `offset` is the number of bytes from the `/` to the `~`. Counted from the start of
        /// the token, the same number is that of the byte after the `~`.
        ///
        /// [`Token::from_encoded`]: jsonptr_base::token::Token::from_encoded
        source: EncodingError,
    },
}

impl ParseError {
    ghost use Rattle.jsonptr_syntax.specs.ParseError.{pointer_offset_of, source_offset_of, encoding_len_of, IsInvalidEncoding};

    /// Returns the offset of the `/` before the token at fault, in bytes.
    ///
    /// It is 0 if the text does not start with `/`. [`ParseError::pointer_offset`] is another name.
    ///
    /// # Examples
    ///
    /// ```rust
    /// let error = Pointer::parse("/né/~x").err().ok_or("a fault")?;
    /// assert_eq!(rt; error.offset(), 4);
    /// ```
    pub fn offset(&self) -> usize
        ensures { result ≡ pointer_offset_of self.now }
    {
        match *self {
            ParseError::NoLeadingSlash => 0,
            ParseError::InvalidEncoding { offset, .. } => offset,
        }
    }

    /// Returns the offset of the `/` before the token at fault, in bytes.
    ///
    /// The text from there on is the part of the pointer that starts with that token:
    ///
    /// ```text
    /// /size/wi~dth/0
    ///      ↑
    ///      5
    /// ```
    ///
    /// It is 0 if the text does not start with `/`.
    ///
    /// # Examples
    ///
    /// ```rust
    /// let error = Pointer::parse("/size/wi~dth/0").err().ok_or("a fault")?;
    /// assert_eq!(rt; error.pointer_offset(), 5);
    /// ```
    pub fn pointer_offset(&self) -> usize
        ensures { result ≡ pointer_offset_of self.now }
    {
        self.offset()
    }

    /// Returns the offset of the `~` at fault in bytes, counted from
    /// [`ParseError::pointer_offset`].
    ///
    /// ```text
    /// /size/wi~dth/0
    ///         ↑
    ///         3 bytes after the `/`
    /// ```
    ///
    /// It is 0 if the text does not start with `/`.
    ///
    /// # Examples
    ///
    /// ```rust
    /// let error = Pointer::parse("/size/wi~dth/0").err().ok_or("a fault")?;
    /// assert_eq!(rt; error.source_offset(), 3);
    /// ```
    pub fn source_offset(&self) -> usize
        ensures { result ≡ source_offset_of self.now }
    {
        match self {
            ParseError::NoLeadingSlash => 0,
            ParseError::InvalidEncoding { source, .. } => source.offset,
        }
    }

    /// Returns the offset of the `~` at fault in bytes, counted from the start of the text.
    ///
    /// ```text
    /// /size/wi~dth/0
    ///         ↑
    ///         8
    /// ```
    ///
    /// It is 0 if the text does not start with `/`.
    ///
    /// # Conditions
    ///
    /// The sum of [`ParseError::pointer_offset`] and [`ParseError::source_offset`] fits `usize`.
    /// This holds for every error that parsing returns.
    ///
    /// # Examples
    ///
    /// ```rust
    /// for (text, offset) in [("/~size", 1), ("/size/wi~dth/0", 8)] {
    ///     let error = Pointer::parse(text).err().ok_or("a fault")?;
    ///     assert_eq!(rt; error.complete_offset(), offset);
    /// }
    /// ```
    pub fn complete_offset(&self) -> usize
        requires { pointer_offset_of self.now + source_offset_of self.now < 2 ^ 64 }
        ensures { result ≡ pointer_offset_of self.now + source_offset_of self.now }
    {
        self.pointer_offset() + self.source_offset()
    }

    /// Returns the number of bytes of `subject`, the parsed text, that the fault covers.
    ///
    /// | Fault                            | Bytes           |
    /// | -------------------------------- | --------------- |
    /// | a `~` that another byte follows  | 2: both of them |
    /// | a `~` at the end of `subject`    | 1               |
    /// | the text does not start with `/` | 0               |
    ///
    /// # Examples
    ///
    /// ```rust
    /// for (text, len) in [("/size/wi~dth", 2), ("/size/wi~", 1), ("size", 0)] {
    ///     let error = Pointer::parse(text).err().ok_or("a fault")?;
    ///     assert_eq!(rt; error.invalid_encoding_len(text), len);
    /// }
    /// ```
    pub fn invalid_encoding_len(&self, subject: &str) -> usize
        ensures { result ≡ encoding_len_of self.now (length subject.now) }
    {
        match self {
            ParseError::NoLeadingSlash => 0,
            ParseError::InvalidEncoding { offset, source } => {
                match offset.checked_add(source.offset) {
                    Some(tilde) if tilde < subject.len() && subject.len() - tilde > 1 => 2,
                    _ => 1,
                }
            }
        }
    }

    /// Returns whether this is [`ParseError::NoLeadingSlash`].
    ///
    /// # Examples
    ///
    /// ```rust
    /// let error = Pointer::parse("~size").err().ok_or("a fault")?;
    /// assert!(rt; error.is_no_leading_slash());
    /// ```
    pub fn is_no_leading_slash(&self) -> bool
        ensures { IsTrue result ↔ (self.now ≡ ParseError.NoLeadingSlash) }
    {
        matches!(self, ParseError::NoLeadingSlash)
    }

    /// The former name of [`ParseError::is_no_leading_slash`].
    ///
    /// # Examples
    ///
    /// ```rust
    /// let error = Pointer::parse("~size").err().ok_or("a fault")?;
    /// assert!(rt; error.is_no_leading_backslash());
    /// ```
    pub fn is_no_leading_backslash(&self) -> bool
        ensures { IsTrue result ↔ (self.now ≡ ParseError.NoLeadingSlash) }
    {
        self.is_no_leading_slash()
    }

    /// Returns whether this is [`ParseError::InvalidEncoding`].
    ///
    /// # Examples
    ///
    /// ```rust
    /// let error = Pointer::parse("/~size").err().ok_or("a fault")?;
    /// assert!(rt; error.is_invalid_encoding());
    /// ```
    pub fn is_invalid_encoding(&self) -> bool
        ensures { IsTrue result ↔ IsInvalidEncoding self.now }
    {
        matches!(self, ParseError::InvalidEncoding { .. })
    }
}

impl fmt::Display for ParseError {
    ghost use Rattle.jsonptr_syntax.specs.ParseError.{parse_message};

    ghost output = { λ e. Some (parse_message e) };

    fn fmt<W: fmt::Write>(&self, f: &mut fmt::Formatter<W>) -> fmt::Result {
        match self {
            ParseError::NoLeadingSlash => write!(
                f,
                "json pointer failed to parse; does not start with a slash ('/') and is not empty"
            ),
            ParseError::InvalidEncoding { offset, .. } => write!(
                f,
                "json pointer failed to parse; the first token in the partial-pointer starting at offset {offset} is malformed"
            ),
        }
    }
}

impl Error for ParseError {}

/// Labels the `~` at fault and the byte after it, or the start of a text that lacks its `/`.
///
/// | Error                           | Label                                                 |
/// | ------------------------------- | ----------------------------------------------------- |
/// | [`ParseError::NoLeadingSlash`]  | "must start with a slash ('/')", with length 0        |
/// | [`ParseError::InvalidEncoding`] | "'~' must be followed by '0' or '1'", on 1 or 2 bytes |
///
/// An error whose two offsets have a sum that overflows `usize` has no label. Parsing returns none.
impl Diagnostic for ParseError {
    ghost use Rattle.std.specs.Prelude.{codes, string_bytes};
    ghost use Rattle.jsonptr_syntax.specs.ParseError.{IsParseErrorLabelled};

    type Subject = String;

    ghost url = { codes "https://docs.rs/jsonptr/0.8.2/jsonptr/enum.ParseError.html" };

    ghost labels_gives = { λ e subject. IsParseErrorLabelled e (length (string_bytes subject)) };

    fn url() -> &'static str {
        "https://docs.rs/jsonptr/0.8.2/jsonptr/enum.ParseError.html"
    }

    fn labels(&self, alloc: Global, subject: &String) -> Result<Option<Vec<Label>>, AllocError> {
        match self {
            ParseError::NoLeadingSlash => one_label(alloc, "must start with a slash ('/')", 0, 0),
            ParseError::InvalidEncoding { offset, source } => {
                let Some(start) = offset.checked_add(source.offset) else {
                    return Ok(None);
                };
                let len = self.invalid_encoding_len(subject.as_str());
                one_label(alloc, "'~' must be followed by '0' or '1'", start, len)
            }
        }
    }
}

/// The error of a text that is not a JSON Pointer, together with that text.
///
/// `PointerBuf::parse` takes a `String` by ownership and returns it in this report.
///
/// # Examples
///
/// ```rust
/// let text = String::from_str(alloc, "/size/~2")?;
/// let report = PointerBuf::parse(text).err().ok_or("an error")?;
/// assert!(rt; report.original().is_invalid_encoding());
/// assert_eq!(rt; report.subject().as_str(), "/size/~2");
/// ```
pub type RichParseError = Report<ParseError>;
