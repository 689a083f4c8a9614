//! A patch document, and its operations.
ghost use Rattle.serde_json.specs.View.{view};
ghost use Rattle.jsonptr_patch_document.specs.Document.{IsPatch};
ghost use Rattle.jsonptr_text_value.specs.PrivatePatches.{IsPatch-prop};

use jsonptr_patch::Operation;
use serde_json::Value;

/// A patch document (RFC 6902), and its operations, without the texts of their values.
///
/// [`PlainPatch::of`] reads the operations, once. [`PlainPatch::with_texts`] adds the texts.
#[derive(Debug, Drop)]
pub struct PlainPatch {
    /// The document.
    pub document: Value,
    /// Its operations.
    pub operations: Vec<Operation>,
    pub ghost is_patch: { IsPatch (view document) operations.items } by { IsPatch-prop (view document) operations.items },
}
