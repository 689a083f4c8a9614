//! The errors of an edit of a TOML text.
ghost use Rattle.std.specs.Prelude.{◌≡◌};
ghost use Rattle.jsonptr_toml_edit.specs.declared.edit_error.TomlEditError.TheVariants.{Memory};

use jsonptr::assign;
use jsonptr_text_step::RenameError;
use jsonptr_toml::depth::MAX_TOML_DEPTH;
use std::alloc::AllocError;
use thiserror::Error;

/// Why an edit of a TOML text is not made. Its text is one line.
///
/// # Examples
///
/// ```rust
/// let edit = TomlEdit::AssignValue(Pointer::parse("/sizes/1")?, 3.into());
/// let error = edit_toml(alloc, "sizes = []\n", &edit).err().ok_or("an error")?;
/// let message = format!(in alloc; "{error}")?;
/// let want = "assign failed: json pointer token at offset 6 is out of bounds";
/// assert_eq!(rt; message.as_str(), want);
/// ```
#[derive(Debug, Drop, Error)]
pub enum TomlEditError {
    /// The text is not a TOML document.
    #[error("text is not TOML")]
    NotToml,
    /// The values of the document nest deeper than 80.
    #[error("values of the document nest deeper than {}", MAX_TOML_DEPTH)]
    DocumentTooDeep,
    /// No value can be assigned at the pointer.
    #[error(transparent)]
    Assign(assign::Error),
    /// The pointer of the value to delete resolves to nothing.
    #[error("delete failed: json pointer does not resolve")]
    NotThere,
    /// The pointer does not resolve to a member that can be renamed so.
    #[error(transparent)]
    Rename(RenameError),
    /// The values of the new document nest deeper than 80, so that its text could not be read.
    #[error("values of the document would nest deeper than {}", MAX_TOML_DEPTH)]
    TooDeep,
    /// The new document is not a table, or has a date-time that TOML has no text for.
    #[error("document would have no TOML text")]
    NoText,
    /// An allocation failed.
    #[error("out of memory")]
    Memory(AllocError),
}

impl From<AllocError> for TomlEditError {
    ghost from_gives = { λ error edit_error. edit_error ≡ Memory error };

    fn from(error: AllocError) -> TomlEditError {
        TomlEditError::Memory(error)
    }
}
