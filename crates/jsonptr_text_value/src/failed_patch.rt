//! The error of a call that takes a patch document.

use serde_json::Value;

/// The error of a call that takes a patch document, and the document, which the call returns.
#[derive(Debug, Drop)]
pub struct FailedPatch<E> {
    /// The document.
    pub document: Value,
    /// The error.
    pub error: E,
}
