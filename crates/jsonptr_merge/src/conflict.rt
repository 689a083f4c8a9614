//! A conflict of two changed copies of a document.

use jsonptr::PointerBuf;
use serde_json::Value;

/// A part of a document that two copies changed, each in its own way. `None` is a member that does
/// not exist.
#[derive(Drop)]
pub struct Conflict {
    /// The pointer to the part.
    pub path: PointerBuf,
    /// A copy of what the base has there.
    pub base: Option<Value>,
    /// A copy of what the first copy has there.
    pub ours: Option<Value>,
    /// A copy of what the second copy has there.
    pub theirs: Option<Value>,
}
