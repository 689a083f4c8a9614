//! A patch document, with the texts of its values.
ghost use Rattle.serde_json.specs.View.{view};
ghost use Rattle.jsonptr_patch_document.specs.Document.{IsPatch};
ghost use Rattle.jsonptr_text_value.specs.Operations.{operations_in};
ghost use Rattle.jsonptr_text_value.specs.PrivatePatches.{IsPatch-prop};

use crate::raw_operation::RawOperation;
use serde_json::Value;

/// A patch document (RFC 6902), and its operations with the texts of their values.
///
/// [`PatchText::of`] reads one.
#[derive(Debug, Drop)]
pub struct PatchText {
    /// The document.
    pub document: Value,
    /// Its operations. Where an `add` or a `replace` has a text, what is put into a document holds the
    /// tokens of it.
    pub operations: Vec<RawOperation>,
    pub ghost is_patch: { IsPatch (view document) (operations_in operations.items) } by { IsPatch-prop (view document) (operations_in operations.items) },
}
