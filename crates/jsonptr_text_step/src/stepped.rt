//! What an edit in a text returns.
ghost use Rattle.std.specs.Prelude.{◌≡◌, string_bytes};
ghost use Rattle.jsonptr_text_step.specs.EditInText.{edit_of_read, edited_text};
ghost use Rattle.jsonptr_text_step.specs.declared.stepped.StepError.TheVariants.{Memory};

use jsonptr_value::{MAX_DEPTH, ReadError};
use std::alloc::AllocError;
use std::fmt::Display;
use thiserror::Error;

/// A text after an edit.
#[derive(Debug, Drop)]
pub enum Stepped {
    /// The old text with the bytes at the location of the edit changed. All others are unchanged.
    InPlace(String),
    /// The whole document, printed anew: JSON without white space, TOML without its comments and its
    /// layout.
    Rewritten(String),
}

impl Stepped {
    /// Returns the text.
    pub fn as_str(&self) -> &str
        ensures { result.now ≡ edited_text self.now }
    {
        match self {
            Stepped::InPlace(text) => text.as_str(),
            Stepped::Rewritten(text) => text.as_str(),
        }
    }

    /// Returns the text, without copying it.
    pub fn into_string(self) -> String
        ensures { string_bytes result ≡ edited_text self }
    {
        match self {
            Stepped::InPlace(text) => text,
            Stepped::Rewritten(text) => text,
        }
    }
}

/// Why an edit in a text fails. `E` is the error of the call on the document. A deletion has no such
/// error: it fails with a [`ReadError`].
///
/// # Examples
///
/// ```rust
/// let mut buffers = Buffers::new(alloc);
/// let three = RawValue::parse(alloc, "3")?;
/// let pointer = Pointer::parse("/sizes/1")?;
/// let edited = assign_in_text(&mut buffers, r#"{"sizes": []}"#, pointer, &three);
/// let message = format!(in alloc; "{}", edited.err().ok_or("an error")?)?;
/// let want = "assign failed: json pointer token at offset 6 is out of bounds";
/// assert_eq!(rt; message.as_str(), want);
/// ```
#[derive(Debug, Drop, Error)]
#[error_bound(E: Display)]
pub enum StepError<E> {
    /// `serde_json` does not read the text.
    #[error("text is not JSON")]
    NotJson,
    /// The text is a document, and the call on it fails.
    #[error("{0}")]
    Refused(E),
    /// The new document nests deeper than 127, so that its text could not be read.
    #[error("document would nest deeper than {}", MAX_DEPTH)]
    TooDeep,
    /// An allocation failed.
    #[error("out of memory")]
    Memory(AllocError),
}

impl<E> From<AllocError> for StepError<E> {
    ghost from_gives = { λ error fault. fault ≡ Memory error };

    fn from(error: AllocError) -> StepError<E> {
        StepError::Memory(error)
    }
}

impl<E> From<ReadError> for StepError<E> {
    ghost from_gives = { λ error fault. fault ≡ edit_of_read error };

    fn from(error: ReadError) -> StepError<E> {
        match error {
            ReadError::NotJson => StepError::NotJson,
            ReadError::Memory(error) => StepError::Memory(error),
        }
    }
}
