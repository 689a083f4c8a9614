//! What to do with a document.

use jsonptr::Pointer;
use jsonptr_text_edit::Edit;
use serde_json::Value;

/// What to do with a document.
#[derive(Debug, Drop)]
pub enum Task<'a> {
    /// Finds the value that the pointer resolves to. If there is none, the other value is the
    /// result, if there is one.
    Get(Pointer<'a>, Option<Value>),
    /// Makes the edit.
    Edit(Edit<'a>),
}
