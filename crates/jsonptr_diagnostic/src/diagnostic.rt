//! Error reports: an error, the value that it is about, and labels that point into that value.
//!
//! An error of this library is small. It holds offsets and positions, but not the text that they
//! refer to. A [`Report`] adds that text, the *subject*, so that the error can be shown to the
//! person who wrote it:
//!
//! ```text
//! /size/~x
//!       ^^ '~' must be followed by '0' or '1'
//! ```
//!
//! The pieces, from the error to the picture:
//!
//! | Piece          | What it is                                                             |
//! | -------------- | ---------------------------------------------------------------------- |
//! | [`Diagnostic`] | an error that can be reported; its `labels` point into a given subject |
//! | [`Diagnose`]   | turns the error of a `Result` into a report, by `diagnose`             |
//! | [`Report`]     | the error and its subject; `render` draws the subject with its labels  |
//! | [`Label`]      | a message about a span of bytes of the subject                         |
//!
//! The subject is the text that was parsed, or the `PointerBuf` that was followed in a document.
//! Labels are not stored. The error computes them from its offsets and the subject each time.
//!
//! The calls `resolve` and `assign` return a `Fault`, which is not a [`Diagnostic`]. Take the error
//! out with `Fault::refused`, and call [`into_report`](Diagnostic::into_report) on it.
//!
//! # Examples
//!
//! ```rust
//! let text = String::from_str(alloc, "/size/~x")?;
//! let parsed = Pointer::parse("/size/~x").diagnose(text);
//! let report = parsed.err().ok_or("a report")?;
//! let drawn = "/size/~x\n      ^^ '~' must be followed by '0' or '1'";
//! assert_eq!(rt; report.render(alloc)?.as_str(), drawn);
//! ```
ghost use Rattle.std.specs.Prelude.{◌≡◌, ◌↔◌, List, Option, None, Result, IsTrue, IsOk, IfOk, OnErr, string_bytes};
ghost use Rattle.std.proofs.Common.{rules};
ghost use Rattle.std.specs.Cmp.Rules.{comparing};
ghost use Rattle.jsonptr_grammar.specs.Text.{Text};
ghost use Rattle.jsonptr_diagnostic.specs.Diagnostic.{Mark, mark_eq, listed, IsOneLabel};
ghost use Rattle.jsonptr_diagnostic.specs.Report.{original_of, subject_of, IsDiagnosed};

use std::alloc::{AllocError, Global};
use std::fmt;
use std::marker::Model;

/// A message about a span of a text: its first byte and its length in bytes.
///
/// ```text
/// /size/~x
///       ^^ '~' must be followed by '0' or '1'      offset 6, length 2
/// ```
///
/// [`Diagnostic::labels`] returns labels. To label the subjects of an error type of your own,
/// implement that trait, and make the labels by [`Label::new`] or [`one_label`].
///
/// A label does not hold the text that it points into, and its span can exceed that text. Contracts
/// see a label as its message, offset and length.
///
/// # Examples
///
/// ```rust
/// let label = Label::new(String::from_str(alloc, "no digits")?, 2, 3);
/// assert_eq!(rt; label.text(), "no digits");
/// assert_eq!(rt; (label.offset(), label.len()), (2, 3));
/// ```
#[derive(Debug, Drop)]
pub struct Label {
    text: String,
    offset: usize,
    len: usize,
}

impl Model for Label {
    ghost use Rattle.std.specs.Prelude.{string_bytes};
    ghost use Rattle.jsonptr_diagnostic.specs.Diagnostic.{Mark};

    ghost Value = { Mark };

    ghost view = { λ l. record { text = string_bytes l.text; offset = l.offset; len = l.len } };
}

impl Label {
    /// Creates a label with the message `text` on the `len` bytes that start at the byte `offset`.
    ///
    /// # Examples
    ///
    /// ```rust
    /// let label = Label::new(String::from_str(alloc, "not a key")?, 1, 4);
    /// assert_eq!(rt; label, Label::new(String::from_str(alloc, "not a key")?, 1, 4));
    /// ```
    pub fn new(text: String, offset: usize, len: usize) -> Label
        ensures { result ≡ record { text = string_bytes text; offset = offset; len = len } }
    {
        Label { text, offset, len }
    }

    /// Returns the message.
    ///
    /// # Examples
    ///
    /// ```rust
    /// let label = Label::new(String::from_str(alloc, "not a key")?, 1, 4);
    /// assert_eq!(rt; label.text(), "not a key");
    /// ```
    pub fn text(&self) -> &str
        ensures { result.now ≡ self.now.text }
    {
        self.text.as_str()
    }

    /// Returns the offset at which the span starts, in bytes.
    ///
    /// # Examples
    ///
    /// ```rust
    /// let label = Label::new(String::from_str(alloc, "not a key")?, 1, 4);
    /// assert_eq!(rt; label.offset(), 1);
    /// ```
    pub fn offset(&self) -> usize
        ensures { result ≡ self.now.offset }
    {
        self.offset
    }

    /// Returns the length of the span, in bytes. It can be 0.
    ///
    /// # Examples
    ///
    /// ```rust
    /// let label = Label::new(String::from_str(alloc, "not a key")?, 1, 4);
    /// assert_eq!(rt; label.len(), 4);
    /// ```
    pub fn len(&self) -> usize
        ensures { result ≡ self.now.len }
    {
        self.len
    }
}

/// Copies the message into a new allocation.
impl Clone for Label {
    ghost is_clone = { λ label copy. copy ≡ label };

    fn clone(&self) -> Result<Label, AllocError> {
        Ok(Label {
            text: self.text.clone()?,
            offset: self.offset,
            len: self.len,
        })
    }
}

/// Compares message, offset and length.
impl PartialEq for Label {
    ghost eq = { mark_eq };

    ghost laws = { Prim.search (comparing, rules) };

    fn eq(&self, other: &Label) -> bool
        ensures value { result ≡ mark_eq self.now other.now }
        ensures same { IsTrue result ↔ (self.now ≡ other.now) }
    {
        self.text == other.text && self.offset == other.offset && self.len == other.len
    }
}

impl Eq for Label {
    ghost laws = { Prim.search (comparing, rules) };
}

/// Returns a list of one label, with a copy of the message `text`, as [`Diagnostic::labels`]
/// returns it.
///
/// The span starts at the byte `offset` and is `len` bytes long.
///
/// # Errors
///
/// [`AllocError`] if the allocation for the message or for the list fails.
///
/// # Examples
///
/// ```rust
/// let labels = one_label(alloc, "no digits", 2, 3)?;
/// let label = Label::new(String::from_str(alloc, "no digits")?, 2, 3);
/// assert_eq!(rt; labels, Some(vec![in alloc; label]?));
/// ```
pub fn one_label(
    alloc: Global,
    text: &str,
    offset: usize,
    len: usize,
) -> Result<Option<Vec<Label>>, AllocError>
    ensures { IfOk result (λ answer. IsOneLabel text.now offset len (listed answer)) }
{
    let text = String::from_str(alloc, text)?;
    Ok(Some(vec![in alloc; Label::new(text, offset, len)]?))
}

/// An error that can be reported together with the value that it is about.
///
/// The errors of parsing, `resolve` and `assign` implement it. Implement it for an error type of your own to report
/// that with the same functions. An implementation names the type of the subject, the page of the
/// error and the labels. The subjects of this library's errors are:
///
/// | Error                                | Subject                             |
/// | ------------------------------------ | ----------------------------------- |
/// | `ParseError`, `EncodingError`        | the `String` that was parsed        |
/// | `ParseIndexError`                    | the string or token that was parsed |
/// | the errors of `resolve` and `assign` | the `PointerBuf` that was followed  |
///
/// In contracts, `url` is the text of the address, and `labels_gives e subject labels` says that
/// `labels` are those of the error `e` on `subject`.
///
/// # Examples
///
/// ```rust
/// let text = String::from_str(alloc, "a/b")?;
/// let parsed = Token::from_encoded(CowStr::Borrowed("a/b"));
/// let report = parsed.err().ok_or("a fault")?.into_report(text);
/// assert_eq!(rt; report.render(alloc)?.as_str(), "a/b\n ^ invalid character");
/// ```
pub trait Diagnostic: Sized + Drop {
    /// The type of the value that the error is about.
    type Subject: Drop;

    ghost url: { Text };

    ghost labels_gives: { Self → Self.Subject → Option (List Mark) → Type 0 };

    /// Combines the error with its subject, which the report owns. Needs no allocation.
    ///
    /// [`Diagnose::diagnose`] does the same for the error of a `Result`.
    ///
    /// # Examples
    ///
    /// ```rust
    /// let report = ParseError::NoLeadingSlash.into_report(String::from_str(alloc, "size")?);
    /// assert_eq!(rt; report.subject().as_str(), "size");
    /// ```
    fn into_report(self, subject: Self::Subject) -> Report<Self>
        ensures original { original_of result ≡ self }
        ensures subject { subject_of result ≡ subject }
    {
        Report {
            source: self,
            subject,
        }
    }

    /// Returns the address of the Rust crate's page on this error, as the Rust crate does.
    ///
    /// # Examples
    ///
    /// ```rust
    /// let page = "https://docs.rs/jsonptr/0.8.2/jsonptr/enum.ParseError.html";
    /// assert_eq!(rt; <ParseError as Diagnostic>::url(), page);
    /// ```
    fn url() -> &'static str
        ensures { result.now ≡ url };

    /// Returns the labels of the error on a subject, or `None` if it points at nothing there.
    ///
    /// The labels are computed from the offsets of the error and from `subject`, which is not
    /// checked: it should be the value that caused the error. With another one the labels can lie
    /// past its end.
    ///
    /// # Errors
    ///
    /// [`AllocError`] if the allocation for the labels fails. `None` needs no allocation.
    ///
    /// # Examples
    ///
    /// ```rust
    /// let subject = String::from_str(alloc, "/size/~")?;
    /// let error = Pointer::parse("/size/~").err().ok_or("a fault")?;
    /// let labels = error.labels(alloc, &subject)?.ok_or("labels")?;
    /// assert_eq!(rt; labels.len(), 1);
    /// assert_eq!(rt; (labels[0].offset(), labels[0].len()), (6, 1));
    /// ```
    fn labels(
        &self,
        alloc: Global,
        subject: &Self::Subject,
    ) -> Result<Option<Vec<Label>>, AllocError>
        ensures labels { IfOk result (λ answer.
            labels_gives self.now subject.now (listed answer)) }
        ensures no_memory { labels_gives self.now subject.now None → IsOk result };
}

/// An error together with its subject: the value that it is about.
///
/// A report has two roles:
///
/// 1. It is the error of calls that take a value by ownership. `PointerBuf::parse` takes a
///    `String`. If that is not a pointer, the report returns the string with the `ParseError`, so
///    nothing is lost.
/// 2. It is what a program shows. Any error that is [`Diagnostic`] becomes a report with
///    [`Diagnose::diagnose`] or [`Diagnostic::into_report`], and [`Report::render`] draws the
///    subject with the labels of the error below it.
///
/// `Display` prints the text of the error alone. A report is not an `Error`; to pass the error on,
/// take it out with [`Report::into_original`].
///
/// # Examples
///
/// ```rust
/// let text = String::from_str(alloc, "size")?;
/// let report = PointerBuf::parse(text).err().ok_or("a report")?;
/// assert_eq!(rt; *report.original(), ParseError::NoLeadingSlash);
/// let (error, subject) = report.decompose();
/// assert_eq!(rt; error, ParseError::NoLeadingSlash);
/// assert_eq!(rt; subject.as_str(), "size");
/// ```
#[derive(Debug, Drop)]
pub struct Report<T: Diagnostic> {
    source: T,
    subject: T::Subject,
}

impl<T: Diagnostic> Report<T> {
    /// Returns the value that the error is about.
    ///
    /// # Examples
    ///
    /// ```rust
    /// let text = String::from_str(alloc, "size")?;
    /// let report = PointerBuf::parse(text).err().ok_or("a report")?;
    /// assert_eq!(rt; report.subject().as_str(), "size");
    /// ```
    pub fn subject(&self) -> &T::Subject
        ensures { result.now ≡ subject_of self.now }
    {
        &self.subject
    }

    /// Returns the error.
    ///
    /// # Examples
    ///
    /// ```rust
    /// let text = String::from_str(alloc, "size")?;
    /// let report = PointerBuf::parse(text).err().ok_or("a report")?;
    /// assert!(rt; report.original().is_no_leading_slash());
    /// ```
    pub fn original(&self) -> &T
        ensures { result.now ≡ original_of self.now }
    {
        &self.source
    }

    /// Splits the report into the error and its subject.
    ///
    /// # Examples
    ///
    /// ```rust
    /// let text = String::from_str(alloc, "size")?;
    /// let report = PointerBuf::parse(text).err().ok_or("a report")?;
    /// let (_, mut text) = report.decompose();
    /// text.insert(0, '/')?;
    /// assert!(rt; PointerBuf::parse(text).is_ok());
    /// ```
    pub fn decompose(self) -> (T, T::Subject)
        ensures original { result.0 ≡ original_of self }
        ensures subject { result.1 ≡ subject_of self }
    {
        (self.source, self.subject)
    }

    /// Converts into the error, and drops the subject.
    ///
    /// # Examples
    ///
    /// ```rust
    /// let text = String::from_str(alloc, "size")?;
    /// let report = PointerBuf::parse(text).err().ok_or("a report")?;
    /// assert_eq!(rt; report.into_original(), ParseError::NoLeadingSlash);
    /// ```
    pub fn into_original(self) -> T
        ensures { result ≡ original_of self }
    {
        self.source
    }
}

/// Prints the text of the error, without the subject and its labels.
impl<T: Diagnostic + fmt::Display> fmt::Display for Report<T> {
    ghost output = { λ report. T.output (original_of report) };

    fn fmt<W: fmt::Write>(&self, f: &mut fmt::Formatter<W>) -> fmt::Result {
        self.source.fmt(f)
    }
}

/// Turns the error of a `Result` into a [`Report`].
///
/// Implemented for each `Result<T, E>` whose `E` is [`Diagnostic`]. No other type can implement it.
///
/// # Examples
///
/// ```rust
/// let text = String::from_str(alloc, "~/size")?;
/// let report = Pointer::parse("~/size").diagnose(text).err().ok_or("a report")?;
/// let drawn = "~/size\n^ must start with a slash ('/')";
/// assert_eq!(rt; report.render(alloc)?.as_str(), drawn);
/// ```
pub trait Diagnose<T>: private::Sealed + Sized {
    /// The error type of the `Result`.
    type Error: Diagnostic;

    // `result_of self` is the `Result`
    ghost result_of: { Self → Result T Self.Error };

    /// Returns the value, or a report of the error with this subject.
    ///
    /// The subject is dropped if there is no error. Needs no allocation. If making the subject is
    /// expensive, match on the error, and call [`Diagnostic::into_report`] on it.
    ///
    /// # Errors
    ///
    /// The [`Report`], if this is an `Err`.
    ///
    /// # Examples
    ///
    /// ```rust
    /// let text = String::from_str(alloc, "size/width")?;
    /// let parsed = Pointer::parse("size/width").diagnose(text);
    /// let report = parsed.err().ok_or("a report")?;
    /// assert_eq!(rt; report.subject().as_str(), "size/width");
    /// assert_eq!(rt; report.into_original(), ParseError::NoLeadingSlash);
    /// ```
    fn diagnose(
        self,
        subject: <Self::Error as Diagnostic>::Subject,
    ) -> Result<T, Report<Self::Error>>
        ensures { IsDiagnosed (result_of self) (λ s. s ≡ subject) result };

    /// Returns the value, or a report of the error with the subject that `f` returns.
    ///
    /// Calls `f` only if there is an error. `f` cannot fail, so it reports no failed allocation.
    ///
    /// # Errors
    ///
    /// The [`Report`], if this is an `Err`.
    ///
    /// # Conditions
    ///
    /// If this is an `Err`, the precondition of `f` holds.
    ///
    /// # Examples
    ///
    /// ```rust
    /// let text = String::from_str(alloc, "width")?;
    /// let parsed = Pointer::parse("width").diagnose_with(move || text);
    /// assert_eq!(rt; parsed.err().ok_or("a report")?.subject().as_str(), "width");
    /// ```
    fn diagnose_with<F: FnOnce() -> <Self::Error as Diagnostic>::Subject + Drop>(
        self,
        f: F,
    ) -> Result<T, Report<Self::Error>>
        requires { OnErr (result_of self) (F.pre f) }
        ensures { IsDiagnosed (result_of self) (F.post f) result };
}

impl<T, E: Diagnostic> Diagnose<T> for Result<T, E> {
    type Error = E;

    ghost result_of = { λ r. r };

    fn diagnose(self, subject: E::Subject) -> Result<T, Report<E>> {
        match self {
            Ok(value) => Ok(value),
            Err(error) => Err(error.into_report(subject)),
        }
    }

    fn diagnose_with<F: FnOnce() -> E::Subject + Drop>(self, f: F) -> Result<T, Report<E>> {
        match self {
            Ok(value) => Ok(value),
            Err(error) => Err(error.into_report(f())),
        }
    }
}

mod private {
    pub trait Sealed {}

    impl<T, E> Sealed for Result<T, E> {}
}
