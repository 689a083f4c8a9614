//! The errors of calls on TOML text, one type for each kind of call.
ghost use Rattle.std.specs.Prelude.{◌≡◌};
ghost use Rattle.jsonptr_toml.specs.Errors.{in_toml_of_read, edit_toml_of_read, edit_toml_of_print};
ghost use Rattle.jsonptr_toml.specs.declared.error.ReadTomlError.TheVariants as reading;
ghost use Rattle.jsonptr_toml.specs.declared.error.PrintTomlError.TheVariants as printing;
ghost use Rattle.jsonptr_toml.specs.declared.error.InTomlError.TheVariants as finding;
ghost use Rattle.jsonptr_toml.specs.declared.error.EditTomlError.TheVariants as editing;

use crate::depth::MAX_TOML_DEPTH;
use jsonptr::resolve;
use std::alloc::AllocError;
use std::fmt::Display;
use thiserror::Error;

/// Why a text is not read as a TOML document.
#[derive(Debug, Drop, Error)]
pub enum ReadTomlError {
    /// The text is not a TOML document.
    #[error("text is not TOML")]
    NotToml,
    /// The values of the document nest deeper than 80.
    #[error("values of the document nest deeper than {}", MAX_TOML_DEPTH)]
    DocumentTooDeep,
    /// An allocation failed.
    #[error("out of memory")]
    Memory(AllocError),
}

/// Why a value is not printed as a TOML document.
#[derive(Debug, Drop, Error)]
pub enum PrintTomlError {
    /// The values of the document nest deeper than 80, so that its text could not be read.
    #[error("values of the document would nest deeper than {}", MAX_TOML_DEPTH)]
    TooDeep,
    /// The document is not a table, or has a date-time that TOML has no text for.
    #[error("document would have no TOML text")]
    NoText,
    /// An allocation failed.
    #[error("out of memory")]
    Memory(AllocError),
}

/// Why a pointer is not resolved in a TOML text.
#[derive(Debug, Drop, Error)]
pub enum InTomlError {
    /// The text is not a TOML document.
    #[error("text is not TOML")]
    NotToml,
    /// The values of the document nest deeper than 80.
    #[error("values of the document nest deeper than {}", MAX_TOML_DEPTH)]
    DocumentTooDeep,
    /// The pointer does not resolve to a value.
    #[error(transparent)]
    Resolve(resolve::Error),
    /// An allocation failed.
    #[error("out of memory")]
    Memory(AllocError),
}

/// Why an edit of a TOML text fails. `E` is the error of the call on the document.
///
/// # Examples
///
/// ```rust
/// let value = toml::Value::from(3);
/// let sizes = Pointer::parse("/sizes/1")?;
/// let result = assign_and_print_toml(alloc, "sizes = []\n", sizes, value);
/// let message = format!(in alloc; "{}", result.err().ok_or("an error")?)?;
/// let want = "assign failed: json pointer token at offset 6 is out of bounds";
/// assert_eq!(rt; message.as_str(), want);
/// ```
#[derive(Debug, Drop, Error)]
#[error_bound(E: Display)]
pub enum EditTomlError<E> {
    /// The text is not a TOML document.
    #[error("text is not TOML")]
    NotToml,
    /// The values of the document nest deeper than 80.
    #[error("values of the document nest deeper than {}", MAX_TOML_DEPTH)]
    DocumentTooDeep,
    /// The text is a document, and the call on it fails.
    #[error("{0}")]
    Refused(E),
    /// The values of the new document nest deeper than 80, so that its text could not be read.
    #[error("values of the document would nest deeper than {}", MAX_TOML_DEPTH)]
    TooDeep,
    /// The new document is not a table, or has a date-time that TOML has no text for.
    #[error("document would have no TOML text")]
    NoText,
    /// An allocation failed.
    #[error("out of memory")]
    Memory(AllocError),
}

impl From<AllocError> for ReadTomlError {
    ghost from_gives = { λ error fault. fault ≡ reading.Memory error };

    fn from(error: AllocError) -> ReadTomlError {
        ReadTomlError::Memory(error)
    }
}

impl From<AllocError> for PrintTomlError {
    ghost from_gives = { λ error fault. fault ≡ printing.Memory error };

    fn from(error: AllocError) -> PrintTomlError {
        PrintTomlError::Memory(error)
    }
}

impl From<AllocError> for InTomlError {
    ghost from_gives = { λ error fault. fault ≡ finding.Memory error };

    fn from(error: AllocError) -> InTomlError {
        InTomlError::Memory(error)
    }
}

impl From<ReadTomlError> for InTomlError {
    ghost from_gives = { λ error fault. fault ≡ in_toml_of_read error };

    fn from(error: ReadTomlError) -> InTomlError {
        match error {
            ReadTomlError::NotToml => InTomlError::NotToml,
            ReadTomlError::DocumentTooDeep => InTomlError::DocumentTooDeep,
            ReadTomlError::Memory(error) => InTomlError::Memory(error),
        }
    }
}

impl<E> From<AllocError> for EditTomlError<E> {
    ghost from_gives = { λ error fault. fault ≡ editing.Memory error };

    fn from(error: AllocError) -> EditTomlError<E> {
        EditTomlError::Memory(error)
    }
}

impl<E> From<ReadTomlError> for EditTomlError<E> {
    ghost from_gives = { λ error fault. fault ≡ edit_toml_of_read error };

    fn from(error: ReadTomlError) -> EditTomlError<E> {
        match error {
            ReadTomlError::NotToml => EditTomlError::NotToml,
            ReadTomlError::DocumentTooDeep => EditTomlError::DocumentTooDeep,
            ReadTomlError::Memory(error) => EditTomlError::Memory(error),
        }
    }
}

impl<E> From<PrintTomlError> for EditTomlError<E> {
    ghost from_gives = { λ error fault. fault ≡ edit_toml_of_print error };

    fn from(error: PrintTomlError) -> EditTomlError<E> {
        match error {
            PrintTomlError::TooDeep => EditTomlError::TooDeep,
            PrintTomlError::NoText => EditTomlError::NoText,
            PrintTomlError::Memory(error) => EditTomlError::Memory(error),
        }
    }
}
