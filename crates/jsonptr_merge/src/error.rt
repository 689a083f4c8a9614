//! Why a document is not merged, and why there is no merge patch.

use jsonptr::PointerBuf;
use jsonptr_value::MAX_DEPTH;
use thiserror::Error;

/// How deep the arrays and objects of a document that is merged may nest: as deep as those of a
/// text that `serde_json` reads.
pub const MAX_MERGE_DEPTH: usize = MAX_DEPTH;

/// A document nests deeper than [`MAX_MERGE_DEPTH`] levels.
#[derive(Clone, Copy, Debug, PartialEq, Eq, Error)]
#[error("a document nests deeper than 127 levels")]
pub struct TooDeep;

/// Why there is no merge patch from one document to another.
#[derive(Debug, Drop, Error)]
pub enum MergePatchError {
    /// A member of the new document is `null`, and the old document has no `null` there. A merge
    /// patch cannot write it, since `null` in a patch removes a member.
    #[error("no merge patch makes a member `null`: {path}")]
    NullMember {
        /// The pointer to the first such member of the new document, in the order of the bytes of
        /// keys.
        path: PointerBuf,
    },
    /// A document nests deeper than [`MAX_MERGE_DEPTH`] levels.
    #[error("a document nests deeper than 127 levels")]
    TooDeep,
}
