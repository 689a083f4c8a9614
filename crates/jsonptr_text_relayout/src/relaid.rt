//! What laying a document out returns.
ghost use Rattle.std.specs.Prelude.{◌≡◌, string_bytes};
ghost use Rattle.jsonptr_text_relayout.specs.Relaying.{text_of_relaid};
ghost use Rattle.jsonptr_text_relayout.specs.declared.relaid.RelayoutError.TheVariants.{Memory};
ghost use Rattle.jsonptr_text_relayout.specs.declared.relaid.RelayoutTextError.TheVariants as text;

use jsonptr_value::MAX_DEPTH;
use std::alloc::AllocError;
use thiserror::Error;

/// The text of a document.
#[derive(Debug, Drop)]
pub enum Relaid {
    /// In the layout of the old text.
    Kept(String),
    /// Without it, since no text in that layout was found.
    Rewritten(String),
}

impl Relaid {
    /// Returns the text.
    pub fn as_str(&self) -> &str
        ensures { result.now ≡ text_of_relaid self.now }
    {
        match self {
            Relaid::Kept(text) => text.as_str(),
            Relaid::Rewritten(text) => text.as_str(),
        }
    }

    /// Returns the text, without copying it.
    pub fn into_string(self) -> String
        ensures { string_bytes result ≡ text_of_relaid self }
    {
        match self {
            Relaid::Kept(text) => text,
            Relaid::Rewritten(text) => text,
        }
    }
}

/// Why a document is not laid out as an old text is.
#[derive(Debug, Drop, Error)]
pub enum RelayoutError {
    /// `serde_json` does not read the old text.
    #[error("old text is not JSON")]
    NotJson,
    /// The new document nests deeper than 127, so that its text could not be read.
    #[error("document would nest deeper than {}", MAX_DEPTH)]
    TooDeep,
    /// An allocation failed.
    #[error("out of memory")]
    Memory(AllocError),
}

impl From<AllocError> for RelayoutError {
    ghost from_gives = { λ error fault. fault ≡ Memory error };

    fn from(error: AllocError) -> RelayoutError {
        RelayoutError::Memory(error)
    }
}

/// Why the document of a new text is not laid out as an old text is.
#[derive(Debug, Drop, Error)]
pub enum RelayoutTextError {
    /// `serde_json` does not read the old text.
    #[error("old text is not JSON")]
    OldNotJson,
    /// `serde_json` does not read the new text.
    #[error("new text is not JSON")]
    NewNotJson,
    /// An allocation failed.
    #[error("out of memory")]
    Memory(AllocError),
}

impl From<AllocError> for RelayoutTextError {
    ghost from_gives = { λ error fault. fault ≡ text.Memory error };

    fn from(error: AllocError) -> RelayoutTextError {
        RelayoutTextError::Memory(error)
    }
}
