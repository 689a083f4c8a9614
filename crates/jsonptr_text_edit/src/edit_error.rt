//! The errors of an edit of a text.
ghost use Rattle.std.specs.Prelude.{◌≡◌};
ghost use Rattle.jsonptr_text_edit.specs.declared.edit_error.EditError.TheVariants.{Memory};

use jsonptr::assign;
use jsonptr_patch::FailedOperation;
use jsonptr_text_step::RenameError;
use jsonptr_value::MAX_DEPTH;
use std::alloc::AllocError;
use thiserror::Error;

/// Why an edit of a text is not made. Its text is one line.
///
/// # Examples
///
/// ```rust
/// let mut buffers = Buffers::new(alloc);
/// let edit = Edit::Assign(Pointer::parse("/sizes/1")?, RawValue::parse(alloc, "3")?);
/// let error = edit_text(&mut buffers, r#"{"sizes": []}"#, &edit).err().ok_or("an error")?;
/// let message = format!(in alloc; "{error}")?;
/// let want = "assign failed: json pointer token at offset 6 is out of bounds";
/// assert_eq!(rt; message.as_str(), want);
/// ```
#[derive(Debug, Drop, Error)]
pub enum EditError {
    /// `serde_json` does not read the text.
    #[error("text is not JSON")]
    NotJson,
    /// No value can be assigned at the pointer.
    #[error(transparent)]
    Assign(assign::Error),
    /// The pointer of the value to delete resolves to nothing.
    #[error("delete failed: json pointer does not resolve")]
    NotThere,
    /// The pointer does not resolve to a member that can be renamed so.
    #[error(transparent)]
    Rename(RenameError),
    /// An operation of the patch fails. The pointer at fault comes with the error.
    #[error(transparent)]
    Patch(FailedOperation),
    /// The new document nests deeper than 127, so that its text could not be read.
    #[error("document would nest deeper than {}", MAX_DEPTH)]
    TooDeep,
    /// An allocation failed.
    #[error("out of memory")]
    Memory(AllocError),
}

impl From<AllocError> for EditError {
    ghost from_gives = { λ error edit_error. edit_error ≡ Memory error };

    fn from(error: AllocError) -> EditError {
        EditError::Memory(error)
    }
}
