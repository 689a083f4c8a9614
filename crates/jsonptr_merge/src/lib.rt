//! Merging JSON documents: merge patches (RFC 7396), and two changed copies of a document.
//!
//! ```rust
//! let mut document = json!(in alloc; {"name": "a", "size": 3})?;
//! merge_patch(alloc, &mut document, &json!(in alloc; {"name": "b", "size": null})?)?;
//! assert_eq!(rt; document.to_string(alloc)?.as_str(), r#"{"name":"b"}"#);
//! ```
//!
//! In the examples `rt` is the runtime that `main` and each test receive, and `alloc` is
//! `rt.alloc()`, the allocator.
//!
//! - [`merge_patch`] applies a merge patch to a document, and [`merge_patched`] returns the patched
//!   document.
//! - [`make_merge_patch`] returns a merge patch that turns one document into another.
//! - [`merge`] merges two changed copies of a document, or lists their conflicts.
//! - [`laws`] states what holds of these, in the words of RFC 7396 and of three-way merges.
#![tactic(auto)]

mod conflict;
mod entry;
mod error;
pub mod laws;
mod make;
mod object;
mod patch;
mod sides;
mod three_way;
mod trail;

pub use conflict::Conflict;
pub use error::{MAX_MERGE_DEPTH, MergePatchError, TooDeep};
pub use make::make_merge_patch;
pub use patch::{merge_patch, merge_patched};
pub use three_way::{Merged, merge};
