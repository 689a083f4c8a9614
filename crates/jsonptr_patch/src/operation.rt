//! The operations of a patch (RFC 6902, section 4), and their errors.

use jsonptr::{PointerBuf, assign, resolve};
use jsonptr_value::discard;
use serde_json::Value;
use thiserror::Error;

/// An operation of a patch. It owns its pointers and its value.
///
/// ```rust
/// let mut document = json!(in alloc; {"draft": {"title": "A"}})?;
/// let from = PointerBuf::from_text(alloc, "/draft/title")?;
/// let path = PointerBuf::from_text(alloc, "/title")?;
/// let patch = vec![in alloc; Operation::Move { from, path }]?;
/// apply(alloc, &mut document, patch)?;
/// assert_eq!(rt; document.to_string(alloc)?.as_str(), r#"{"draft":{},"title":"A"}"#);
/// ```
#[derive(Debug, Drop)]
pub enum Operation {
    /// Adds a value (RFC 6902, section 4.1).
    ///
    /// - In an object it adds a member, or replaces the member that has the key.
    /// - In an array it inserts an element before the one at the index, or after the last one.
    /// - At the root it replaces the whole document.
    Add {
        /// The target location. A last token `-` refers to the position after the last element.
        path: PointerBuf,
        /// The value.
        value: Value,
    },
    /// Removes the value at `path` (RFC 6902, section 4.2). Removing the root leaves `null`.
    Remove {
        /// The target location.
        path: PointerBuf,
    },
    /// Replaces the value at `path` (RFC 6902, section 4.3).
    Replace {
        /// The target location.
        path: PointerBuf,
        /// The new value.
        value: Value,
    },
    /// Removes the value at `from`, and then adds it at `path` (RFC 6902, section 4.4).
    Move {
        /// The location of the value. It must not be a proper prefix of `path`.
        from: PointerBuf,
        /// The target location, in the document without the value.
        path: PointerBuf,
    },
    /// Adds a copy of the value at `from` (RFC 6902, section 4.5).
    Copy {
        /// The location of the value.
        from: PointerBuf,
        /// The target location.
        path: PointerBuf,
    },
    /// Tests that the value at `path` equals another one (RFC 6902, section 4.6). How it compares
    /// numbers is chosen where the patch is applied, as a [`Comparison`](crate::Comparison).
    Test {
        /// The target location.
        path: PointerBuf,
        /// The value to compare with.
        value: Value,
    },
}

impl Operation {
    /// Drops the operation and its value, however deep that nests.
    pub(crate) fn discard(self) {
        match self {
            Operation::Add { value, .. } => discard(value),
            Operation::Replace { value, .. } => discard(value),
            Operation::Test { value, .. } => discard(value),
            _ => {}
        }
    }
}

/// The text of a failed test is a constant, since an attribute that contains the word "test" counts
/// as one of a test function.
const TEST_FAILED: &str = "test failed";

/// Why an operation of a patch fails. `operation` is its position in the list, from 0. Positions
/// and offsets in a `cause` are those of the operation's whole pointer.
///
/// ```rust
/// let mut document = json!(in alloc; {"tags": []})?;
/// let path = PointerBuf::from_text(alloc, "/size")?;
/// let patch = vec![in alloc; Operation::Remove { path }]?;
/// let applied = apply(alloc, &mut document, patch);
/// let error = applied.err().ok_or("an error")?.refused()?;
/// assert!(rt; matches!(error, PatchError::NoTarget { operation: 0, .. }));
/// ```
#[derive(Clone, Debug, PartialEq, Eq, Drop, Error)]
pub enum PatchError {
    /// A pointer does not resolve to a value: `from` or `path`, or the parent of an addition. A
    /// parent must be an object or an array.
    #[error("patch failed at operation {operation}: {cause}")]
    NoTarget {
        /// The position of the operation in the list.
        operation: usize,
        /// Why the pointer does not resolve.
        cause: resolve::Error,
    },
    /// A value is added to an array, and the last token is neither `-` nor an index up to the
    /// length.
    #[error("patch failed at operation {operation}: {cause}")]
    BadPlace {
        /// The position of the operation in the list.
        operation: usize,
        /// Why the last token is not a valid index.
        cause: assign::Error,
    },
    /// A value is moved below itself (RFC 6902, section 4.4).
    #[error("patch failed at operation {operation}: from is a proper prefix of path")]
    MoveIntoSelf {
        /// The position of the operation in the list.
        operation: usize,
    },
    /// One of the two values of a test contains a float.
    #[error("patch failed at operation {operation}: a float cannot be tested")]
    TestFloat {
        /// The position of the operation in the list.
        operation: usize,
    },
    /// The two values of a test differ.
    #[error("patch failed at operation {operation}: {}", TEST_FAILED)]
    TestFailed {
        /// The position of the operation in the list.
        operation: usize,
    },
}
