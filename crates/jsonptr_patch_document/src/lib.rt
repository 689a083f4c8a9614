//! JSON Patch documents (`application/json-patch+json`, RFC 6902): reading and writing them.
//!
//! ```rust
//! let text = r#"[{"op":"test","path":"/size","value":3},{"op":"remove","path":"/size"}]"#;
//! let patch = read_patch(alloc, &Value::from_str(alloc, text)?)?;
//! assert_eq!(rt; patch.len(), 2);
//! let mut document = json!(in alloc; {"name": "A", "size": 3})?;
//! apply(alloc, &mut document, patch)?;
//! assert_eq!(rt; document.to_string(alloc)?.as_str(), r#"{"name":"A"}"#);
//! ```
//!
//! In the examples `rt` is the runtime that `main` and each test receive, and `alloc` is
//! `rt.alloc()`, the allocator.
//!
//! - [`read_patch`] reads the operations of a document, for [`apply`](jsonptr_patch::apply).
//! - [`write_patch`] writes the document of a list of operations.
//! - [`PatchDocumentError`] identifies the operation and the member at fault.
//! - [`laws`] states what holds of such documents, such as that each is at most one patch.
#![tactic(auto)]

mod entry;
mod error;
pub mod laws;
mod member;
mod parts;
mod read;
mod write;

pub use error::PatchDocumentError;
pub use member::Member;
pub use read::read_patch;
pub use write::write_patch;
