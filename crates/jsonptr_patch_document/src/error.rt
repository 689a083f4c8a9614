//! Why a document is not a patch.
ghost use Rattle.std.specs.Prelude.{◌≡◌, option_map};
ghost use Rattle.serde_json.specs.View.{view};
ghost use Rattle.jsonptr_patch_document.specs.Faulty.{faulty_text};

use crate::member::{Member, name};
use jsonptr::ParseError;
use jsonptr::diagnostic::{Diagnostic, Label};
use serde_json::Value;
use std::alloc::{AllocError, Global};
use thiserror::Error;

/// Why a document is not a patch. `operation` is the position of the operation in the document, from
/// 0.
///
/// The operations are checked in order, and the first error is returned. Of an operation the members
/// are checked in the order `op`, `path`, and then `from` or `value`, if it requires one of these.
/// Of a member it is checked that it exists, then its type, and then its text.
///
/// ```rust
/// let document = json!(in alloc; [{"op": "remove", "path": "/a"}, {"op": "copy", "path": "/b"}])?;
/// let read = read_patch(alloc, &document);
/// let error = read.err().ok_or("an error")?.refused()?;
/// let expected = PatchDocumentError::MissingMember {
///     operation: 1,
///     member: Member::From,
/// };
/// assert_eq!(rt; error, expected);
/// let message = "not a JSON Patch document: operation 1 has no member `from`";
/// assert_eq!(rt; error.to_string(alloc)?.as_str(), message);
/// ```
#[derive(Clone, Debug, PartialEq, Eq, Drop, Error)]
pub enum PatchDocumentError {
    /// The document is not an array.
    #[error("not a JSON Patch document: not an array")]
    NotArray,
    /// An element is not an object.
    #[error("not a JSON Patch document: operation {operation} is not an object")]
    NotObject {
        /// The position of the operation in the document.
        operation: usize,
    },
    /// An operation lacks a member that it requires.
    #[error("not a JSON Patch document: operation {operation} has no member `{member}`")]
    MissingMember {
        /// The position of the operation in the document.
        operation: usize,
        /// The member.
        member: Member,
    },
    /// A member that must be a string is not.
    #[error("not a JSON Patch document: member `{member}` of operation {operation} is not a string")]
    NotString {
        /// The position of the operation in the document.
        operation: usize,
        /// The member: `op`, `path` or `from`.
        member: Member,
    },
    /// The member `op` is not the name of an operation.
    #[error("not a JSON Patch document: member `op` of operation {operation} is not an operation")]
    UnknownOp {
        /// The position of the operation in the document.
        operation: usize,
    },
    /// A member that must be a JSON Pointer is not.
    #[error("not a JSON Patch document: member `{member}` of operation {operation}: {cause}")]
    NotPointer {
        /// The position of the operation in the document.
        operation: usize,
        /// The member: `path` or `from`.
        member: Member,
        /// Why the member is not a pointer.
        cause: ParseError,
    },
}

impl PatchDocumentError {
    /// Returns the text of the pointer at fault in the document that this is the error of, or `None`
    /// if the error is not about a pointer. It is the subject of the error's report.
    ///
    /// ```rust
    /// let document = json!(in alloc; [{"op": "remove", "path": "/a~b"}])?;
    /// let read = read_patch(alloc, &document);
    /// let error = read.err().ok_or("an error")?.refused()?;
    /// let text = error.pointer_text(&document).ok_or("a pointer")?;
    /// let report = error.into_report(String::from_str(alloc, text)?);
    /// let drawn = "/a~b\n  ^^ '~' must be followed by '0' or '1'";
    /// assert_eq!(rt; report.render(alloc)?.as_str(), drawn);
    /// ```
    pub fn pointer_text<'v>(&self, document: &'v Value) -> Option<&'v str>
        ensures { option_map (λ text. text.now) result
            ≡ faulty_text (view document.now) self.now }
    {
        match self {
            PatchDocumentError::NotPointer {
                operation,
                member,
                ..
            } => document.get(*operation)?.get(name(*member))?.as_str(),
            _ => None,
        }
    }
}

/// Labels the fault of a pointer, as its [`ParseError`] does. The subject is the text of the pointer,
/// which [`PatchDocumentError::pointer_text`] returns. Other errors have no label.
impl Diagnostic for PatchDocumentError {
    ghost use Rattle.std.specs.Prelude.{codes, length, string_bytes};
    ghost use Rattle.jsonptr_patch_document.specs.Faulty.{IsPatchDocumentErrorLabelled};

    type Subject = String;

    ghost url = { codes "https://www.rfc-editor.org/rfc/rfc6902#section-4" };

    ghost labels_gives = { λ e subject.
        IsPatchDocumentErrorLabelled e (length (string_bytes subject)) };

    fn url() -> &'static str {
        "https://www.rfc-editor.org/rfc/rfc6902#section-4"
    }

    fn labels(&self, alloc: Global, subject: &String) -> Result<Option<Vec<Label>>, AllocError> {
        match self {
            PatchDocumentError::NotPointer { cause, .. } => cause.labels(alloc, subject),
            _ => Ok(None),
        }
    }
}
