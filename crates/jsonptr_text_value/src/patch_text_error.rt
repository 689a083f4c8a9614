//! The errors of reading and making a patch document.
ghost use Rattle.std.specs.Prelude.{◌≡◌};
ghost use Rattle.jsonptr_text_value.specs.declared.patch_text_error.PatchTextError.TheVariants.{Memory};

use jsonptr_patch_document::PatchDocumentError;
use jsonptr_value::MAX_DEPTH;
use std::alloc::AllocError;
use thiserror::Error;

/// An error of reading or making a patch document. Its text is one line.
#[derive(Debug, Drop, Error)]
pub enum PatchTextError {
    /// The document is not a patch.
    #[error(transparent)]
    NotPatch(PatchDocumentError),
    /// The text of a value is not found. That is not known to happen in a text that is read as the
    /// document.
    #[error("value cannot be located in the text")]
    NotLocated,
    /// The patch document nests deeper than 127.
    #[error("patch would nest deeper than {}", MAX_DEPTH)]
    TooDeep,
    /// An allocation failed.
    #[error("out of memory")]
    Memory(AllocError),
}

impl From<AllocError> for PatchTextError {
    ghost from_gives = { λ error patch_error. patch_error ≡ Memory error };

    fn from(error: AllocError) -> PatchTextError {
        PatchTextError::Memory(error)
    }
}
