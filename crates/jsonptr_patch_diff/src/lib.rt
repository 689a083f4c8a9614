//! The differences of two JSON documents, as a JSON Patch (RFC 6902).
//!
//! ```rust
//! let old = json!(in alloc; {"name": "a", "tags": ["x", "y"]})?;
//! let new = json!(in alloc; {"name": "b", "tags": ["x", "z", "y"]})?;
//! let patch = diff(alloc, &old, &new)?;
//! assert_eq!(rt; patch.len(), 2);
//! let mut document = old;
//! apply(alloc, &mut document, patch)?;
//! assert_eq!(rt; document.to_string(alloc)?, new.to_string(alloc)?);
//! ```
//!
//! In the examples `rt` is the runtime that `main` and each test receive, and `alloc` is
//! `rt.alloc()`, the allocator.
//!
//! - [`diff`] returns the operations that turn one document into another.
//! - [`change`] turns a document into another one by these operations.
//! - [`are_same`] returns whether there is no difference.
//! - [`laws`] states what applying such a patch does.
//!
//! Two floats are the same if they have the same bits. So `0.0` and `-0.0` differ, and so do `1` and
//! `1.0`.
#![tactic(auto)]

mod align;
mod difference;
mod elements;
pub mod laws;
mod members;
mod same;
mod similarity;
mod trail;
mod write;

pub use difference::{change, diff};
pub use same::are_same;
