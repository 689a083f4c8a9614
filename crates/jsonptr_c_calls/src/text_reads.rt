//! Where values are in an open text, and the text without its comments.
ghost use Rattle.std.specs.Prelude.{◌≡◌, ◌≤◌, IfErr, IfOk, IsUtf8, OnErr, OnOk, length, string_bytes, take};
ghost use Rattle.std.specs.Cow.{cow_str_bytes};
ghost use Rattle.jsonptr_c_calls.specs.TextReads.{FailsToStrip, IsBare, IsBareText, IsJsonOf, IsNotBare, IsNotLocatedIn, IsNotPointedAtIn, IsNotStripped, LocatesIn, PointsAtIn, ReportsAt};
ghost use Rattle.jsonptr_c_calls.specs.OpenTexts.{IsSame};

use crate::call_error::CallError;
use crate::locations::{self, TextSpan};
use crate::mark::{parts_of, with_mark};
use crate::open_text::OpenText;
use crate::text_format::TextFormat;
use jsonptr::Fault;
use jsonptr_comments::without_comments;
use std::alloc::Global;
use std::borrow::CowStr;

/// Returns where the value that the pointer resolves to is in the text, without white space around it.
///
/// # Errors
///
/// [`CallError::OtherFormat`] if the text is TOML, and those of [`locations::locate`] for the text without its
/// comments.
///
/// # Examples
///
/// ```rust
/// let list = b"[/* one */ 1.0]";
/// let Ok(text) = OpenText::open(alloc, TextFormat::Commented, list) else {
///     return Err("a text".into());
/// };
/// let span = text_reads::locate(alloc, &text, b"/0").ok().ok_or("a value")?;
/// assert_eq!(rt; (span.start, span.end), (11, 14));
/// ```
pub fn locate(alloc: Global, text: &OpenText, pointer: &[u8]) -> Result<TextSpan, CallError>
    ensures located { IfOk result (λ s. LocatesIn text.now pointer.now s.start s.end) }
    ensures utf8 { OnOk result (IsUtf8 pointer.now) }
    ensures refused { IfErr result (IsNotLocatedIn text.now pointer.now) }
{
    let parts = parts_of(text.text.as_str());
    let json = json_of(alloc, text.format, parts.body)?;
    let span = locations::locate(alloc, json.as_str().as_bytes(), pointer)?;
    let skipped = parts.mark.len();
    Ok(TextSpan {
        start: span.start.saturating_add(skipped),
        end: span.end.saturating_add(skipped),
    })
}

/// Copies the pointer of a value that contains the byte at the offset to the buffer, and returns its length. It
/// is the innermost one, as for [`locations::pointer_at`].
///
/// # Errors
///
/// [`CallError::OtherFormat`] if the text is TOML, and those of [`locations::pointer_at`] for the text without
/// its comments. The buffer is unchanged.
///
/// # Examples
///
/// ```rust
/// let list = b"[/* one */ 1.0]";
/// let Ok(text) = OpenText::open(alloc, TextFormat::Commented, list) else {
///     return Err("a text".into());
/// };
/// let mut out = [0u8; 2];
/// assert_eq!(rt; text_reads::pointer_at(alloc, &text, 13, &mut out).ok(), Some(2));
/// assert_eq!(rt; out, *b"/0");
/// ```
pub fn pointer_at(
    alloc: Global,
    text: &OpenText,
    offset: usize,
    out: &mut [u8],
) -> Result<usize, CallError>
    ensures pointed { IfOk result (λ n. PointsAtIn text.now offset (take n out.new)) }
    ensures fits { IfOk result (λ n. n ≤ length out.new) }
    ensures refused { IfErr result (IsNotPointedAtIn text.now offset (length out.old)) }
    ensures output_unchanged { OnErr result (out.new ≡ out.old) }
{
    let parts = parts_of(text.text.as_str());
    let Some(at) = offset.checked_sub(parts.mark.len()) else {
        return Err(CallError::NoValue { offset });
    };
    let json = json_of(alloc, text.format, parts.body)?;
    match locations::pointer_at(alloc, json.as_str().as_bytes(), at, out) {
        Ok(copied) => Ok(copied),
        Err(error) => Err(at_offset(error, offset)),
    }
}

/// Returns the error with the offset in the text, if it has that of a byte without a value.
fn at_offset(error: CallError, offset: usize) -> CallError
    ensures { ReportsAt offset error result }
{
    match error {
        CallError::NoValue { offset: _ } => CallError::NoValue { offset },
        error => error,
    }
}

/// Replaces the comments and trailing commas of the text by spaces. Its format is then JSON.
///
/// # Errors
///
/// - [`CallError::OtherFormat`] if the text is TOML.
/// - [`CallError::Memory`] if an allocation fails.
///
/// [`CallError::OpenComment`] never comes for a text that [`OpenText::open`] has returned. The text is
/// unchanged.
///
/// # Examples
///
/// ```rust
/// let list = b"[/* one */ 1.0,]";
/// let Ok(mut text) = OpenText::open(alloc, TextFormat::Commented, list) else {
///     return Err("a text".into());
/// };
/// assert!(rt; text_reads::remove_comments(alloc, &mut text).is_ok());
/// assert_eq!(rt; text.text.as_str(), "[          1.0 ]");
/// ```
pub fn remove_comments(alloc: Global, text: &mut OpenText) -> Result<(), CallError>
    ensures removed { OnOk result (IsBareText text.old text.new) }
    ensures unchanged { OnErr result (IsSame text.old text.new) }
    ensures refused { IfErr result (IsNotStripped text.old) }
{
    let bare = bare_text(alloc, text.format, text.text.as_str())?;
    text.text = bare;
    text.format = TextFormat::Json;
    Ok(())
}

/// Returns the text with spaces instead of its comments and trailing commas.
///
/// # Errors
///
/// Those of [`remove_comments`].
fn bare_text(alloc: Global, format: TextFormat, text: &str) -> Result<String, CallError>
    ensures bare { IfOk result (λ s. IsBare format text.now (string_bytes s)) }
    ensures refused { IfErr result (IsNotBare format text.now) }
{
    let parts = parts_of(text);
    let json = json_of(alloc, format, parts.body)?;
    let body = String::from_str(alloc, json.as_str())?;
    Ok(with_mark(alloc, parts.mark, body)?)
}

/// Returns the JSON text of a text without a byte order mark.
///
/// # Errors
///
/// - [`CallError::OpenComment`] if a block comment is not closed.
/// - [`CallError::OtherFormat`] if the text is TOML.
/// - [`CallError::Memory`] if an allocation fails.
fn json_of(alloc: Global, format: TextFormat, body: &str) -> Result<CowStr<'_>, CallError>
    ensures json { IfOk result (λ c. IsJsonOf format body.now (cow_str_bytes c)) }
    ensures refused { IfErr result (FailsToStrip format body.now) }
{
    match format {
        TextFormat::Json => Ok(CowStr::Borrowed(body)),
        TextFormat::Commented => match without_comments(alloc, body) {
            Ok(bare) => Ok(bare),
            Err(Fault::Refused(error)) => Err(CallError::OpenComment {
                offset: error.offset,
            }),
            Err(Fault::Memory(error)) => Err(CallError::Memory(error)),
        },
        TextFormat::Toml => Err(CallError::OtherFormat),
    }
}
