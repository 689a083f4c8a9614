//! The texts of values that an edit of a document brings, and patch documents with such texts.
//!
//! A [`Value`](serde_json::Value) has sorted keys, and of a number the value alone. The text of a value
//! has the members in their order and each number as it is written. An edit of a text puts that text into the
//! document.
//!
//! ```rust
//! let given = r#"[{"op": "add", "path": "/b", "value": {"z": 1.10, "y": 1e5}}]"#;
//! let patch = PatchText::of(alloc, given, Value::from_str(alloc, given)?)?;
//! let raw = patch.operations[0].raw.as_ref().ok_or("a text")?;
//! assert_eq!(rt; raw.printed.flat.as_str(), r#"{"z":1.10,"y":1e5}"#);
//! ```
//!
//! - [`RawValue`] is the text of a value.
//! - [`RawOperation`] is an operation of a JSON Patch (RFC 6902), with the text of its value.
//! - [`PatchText`] is a patch document with such operations, and [`PlainPatch`] one without texts.
//!
//! In the examples `rt` is the runtime that `main` and each test receive, and `alloc` is
//! `rt.alloc()`, the allocator.
#![tactic(auto)]

mod as_written;
mod failed_patch;
mod operations;
mod own_text;
mod patch_document;
mod patch_text;
mod patch_text_error;
mod plain_patch;
mod raw;
mod raw_operation;
mod raw_value;
mod spans;
mod wrap;

pub use failed_patch::FailedPatch;
pub use operations::{plain_operations, raw_operations, without_texts};
pub use patch_text::PatchText;
pub use patch_text_error::PatchTextError;
pub use plain_patch::PlainPatch;
pub use raw::expanded_text;
pub use raw_operation::RawOperation;
pub use raw_value::RawValue;
