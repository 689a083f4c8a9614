//! Why a text has no text without comments.

use jsonptr_base::fault::Fault;
use thiserror::Error;

/// A block comment is not closed: no `*/` follows its `/*`.
///
/// # Examples
///
/// ```rust
/// let fault = without_comments(alloc, "[1] /* one").err().ok_or("an error")?;
/// assert_eq!(rt; fault, Fault::Refused(CommentError { offset: 4 }));
/// assert_eq!(rt; format!(in alloc; "{fault}")?.as_str(), "comment is not closed");
/// ```
#[derive(Clone, Copy, Debug, Drop, PartialEq, Eq, Error)]
#[error("comment is not closed")]
pub struct CommentError {
    /// The offset of the `/*` in the text, in bytes.
    pub offset: usize,
}

/// Makes a [`Fault::Refused`], so that `?` passes the error on.
impl From<CommentError> for Fault<CommentError> {
    ghost use Rattle.std.specs.Prelude.{◌≡◌};
    ghost use Rattle.jsonptr_base.specs.declared.fault.Fault.TheVariants.{Refused};

    ghost from_gives = { λ error fault. fault ≡ Refused error };

    fn from(error: CommentError) -> Fault<CommentError> {
        Fault::Refused(error)
    }
}
