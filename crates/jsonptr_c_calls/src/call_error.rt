//! Why a call fails.
ghost use Rattle.std.specs.Prelude.{◌≡◌};
ghost use Rattle.jsonptr_c_calls.specs.declared.call_error.CallError.TheVariants.{Memory};

use jsonptr::{ParseError, assign, resolve};
use jsonptr_fragment::FragmentError;
use jsonptr_patch::FailedOperation;
use jsonptr_patch_document::PatchDocumentError;
use jsonptr_text_digits::Lost;
use jsonptr_text_edit::RenameError;
use std::alloc::AllocError;

/// A text that is passed to a call.
#[derive(Clone, Copy, Debug)]
pub enum Argument {
    /// A JSON Pointer.
    Pointer,
    /// A token of a pointer, decoded.
    Token,
    /// A JSON text, or the fragment of a URI.
    Text,
}

/// Why a call fails.
#[derive(Debug, Drop)]
pub enum CallError {
    /// An allocation failed.
    Memory(AllocError),
    /// The buffer is shorter than the result.
    NoRoom {
        /// The length of the result, in bytes.
        needed: usize,
    },
    /// The handle holds no document.
    NoDocument,
    /// A text is not UTF-8.
    NotUtf8 {
        /// The text.
        argument: Argument,
        /// The offset of the first byte that is not.
        offset: usize,
    },
    /// A text is not JSON.
    NotJson {
        /// The offset at which reading stops.
        offset: usize,
    },
    /// A number of a text loses digits.
    NotExact(Lost),
    /// A text is not a pointer.
    NotPointer(ParseError),
    /// A pointer has no token at a position.
    NoToken,
    /// A pointer does not resolve to a value.
    Resolve(resolve::Error),
    /// The value is in the text, but its bytes are not found.
    NotLocated,
    /// No value of the text is at an offset.
    NoValue {
        /// The offset.
        offset: usize,
    },
    /// A value is of another type than the call reads.
    OtherType,
    /// A number is NaN or infinite, which no JSON number is.
    NotFinite,
    /// The document could nest deeper than 10,127: a pointer has more than 10,000 tokens, or the operations
    /// of a patch can lead that deep.
    TooDeep,
    /// The patch document that takes a patch back would nest deeper than 127.
    InverseTooDeep,
    /// The document of a text would nest deeper than 127, so that it could not be read.
    TextTooDeep,
    /// A value cannot be assigned at a pointer.
    Assign(assign::Error),
    /// A document is not a patch.
    NotPatch(PatchDocumentError),
    /// An operation of a patch fails: why, and which of its pointers is at fault, if one is.
    PatchFailed(FailedOperation),
    /// A member cannot be renamed.
    NotRenamed(RenameError),
    /// A block comment of a text is not closed.
    OpenComment {
        /// The offset at which it begins.
        offset: usize,
    },
    /// An edit of a text is possible, but not in place.
    NotInPlace,
    /// A text is not TOML.
    NotToml {
        /// The offset of the first byte at fault.
        offset: usize,
    },
    /// The values of a TOML document nest deeper than 80, or would do so after an edit.
    TomlTooDeep,
    /// A value is null or an integer that TOML has not, or contains one.
    NotTomlValue,
    /// A document would have no TOML text, as one that is not a table.
    NoTomlText,
    /// The call does not work on texts of this format.
    OtherFormat,
    /// A text is not the fragment of a pointer.
    NotFragment(FragmentError),
}

impl From<AllocError> for CallError {
    ghost from_gives = { λ error call_error. call_error ≡ Memory error };

    fn from(error: AllocError) -> CallError {
        CallError::Memory(error)
    }
}
