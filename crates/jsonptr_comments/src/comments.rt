//! A text without its comments and trailing commas.
ghost use Rattle.std.specs.Prelude.{◌≡◌, ◌↔◌, ◌≤◌, ◌<◌, length, IsOk, IfOk, IfErr, OnOk, IsUtf8, string_bytes};
ghost use Rattle.std.specs.Cow.{cow_str_bytes, IsBorrowedStr};
ghost use Rattle.jsonptr_comments.specs.Comments.{IsPlain, IsWithoutComments, IsUnterminated};
ghost use Rattle.jsonptr_comments.specs.PrivateStepping.{Read};
ghost use Rattle.jsonptr_comments.specs.Faults.{IsCommentFault};

use crate::error::CommentError;
use crate::laws::unchanged_law;
use crate::step::{plain_step, step};
use jsonptr_base::fault::Fault;
use std::alloc::Global;
use std::borrow::CowStr;

/// Returns the text with spaces instead of its comments and trailing commas.
///
/// The new text is as long as the old one, and each byte that stays has its old offset. The other bytes
/// become spaces, one for each byte; only LF and CR stay in comments.
///
/// | In the text, outside strings | Becomes spaces |
/// |---|---|
/// | `//` | with all bytes up to the next LF or CR, or to the end of the text. U+2028 ends no line |
/// | `/*` | with all bytes up to the next `*/`, which it includes: block comments do not nest |
/// | a comma | if a value precedes it and `]` or `}` follows it, apart from comments and white space (RFC 8259, section 2) |
///
/// A string that is not closed runs to the end of the text. `[,]`, `[1,,]` and `{"a":,}` have no
/// trailing comma, so they stay, as does a `/` that begins no comment. A byte order mark stays too.
///
/// Reads the text once. A text without comments and trailing commas is borrowed, and needs no
/// allocation; each text that `serde_json` reads is one. Otherwise allocates a copy of the text.
///
/// # Errors
///
/// - [`Fault::Refused`] if a block comment is not closed.
/// - [`Fault::Memory`] if an allocation fails.
///
/// # Examples
///
/// ```rust
/// let json = without_comments(alloc, "[1, /* two */ 3, // \u{e9}\n]")?;
/// assert_eq!(rt; json.as_str(), "[1,           3       \n]");
/// let same = without_comments(alloc, "[\"// no comment\"]")?;
/// assert!(rt; matches!(same, CowStr::Borrowed(_)));
/// ```
pub fn without_comments(alloc: Global, text: &str) -> Result<CowStr<'_>, Fault<CommentError>>
    ensures without { IfOk result (λ new. IsWithoutComments text.now (cow_str_bytes new)) }
    ensures borrowed { IfOk result (λ new. IsBorrowedStr new ↔ (cow_str_bytes new ≡ text.now)) }
    ensures no_memory { IsPlain text.now → IsOk result }
    ensures refused { IfErr result (IsCommentFault text.now) }
{
    let at = plain_end(text.as_bytes());
    if at == text.len() {
        return Ok(CowStr::Borrowed(text));
    }
    let new = blanked_copy(alloc, text, at)?;
    unchanged_law();
    Ok(CowStr::Owned(new))
}

/// Returns the offset of the first comment, of the first closing bracket after a trailing comma, or of
/// the end of the text.
fn plain_end(text: &[u8]) -> usize
    requires { IsUtf8 text.now }
    ensures read { Read text.now text.now result }
    ensures within { result ≤ length text.now }
    ensures stops { result < length text.now → IsPlain text.now → ⊥ }
{
    let mut at = 0;
    while at < text.len() {
        match plain_step(text, at) {
            Some(next) => at = next,
            None => return at,
        }
    }
    at
}

/// Returns the new text in memory of its own, where nothing becomes a space before the offset.
///
/// # Errors
///
/// Those of [`without_comments`].
fn blanked_copy(alloc: Global, text: &str, from: usize) -> Result<String, Fault<CommentError>>
    requires read { Read text.now text.now from }
    requires within { from ≤ length text.now }
    ensures without { IfOk result (λ new. IsWithoutComments text.now (string_bytes new)) }
    ensures refused { IfErr result (IsCommentFault text.now) }
{
    let mut new = Vec::from_slice(alloc, text.as_bytes())?;
    blank_comments(new.as_mut_slice(), from)?;
    // SAFETY: whole characters are replaced by ASCII. The prover checks this.
    Ok(unsafe { String::from_utf8_unchecked(new) })
}

/// Writes spaces over the comments and trailing commas of the text, from the offset on.
///
/// # Errors
///
/// [`CommentError`] if a block comment has no end.
fn blank_comments(text: &mut [u8], from: usize) -> Result<(), CommentError>
    requires read { Read text.old text.old from }
    requires within { from ≤ length text.old }
    ensures without { OnOk result (IsWithoutComments text.old text.new) }
    ensures utf8 { OnOk result (IsUtf8 text.new) }
    ensures refused { IfErr result (λ error. IsUnterminated text.old error.offset) }
{
    let mut at = from;
    while at < text.len() {
        at = step(text, at)?;
    }
    Ok(())
}
