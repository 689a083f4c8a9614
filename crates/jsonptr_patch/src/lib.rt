//! JSON Patch (RFC 6902) for `serde_json::Value`: a list of operations that is applied whole, or
//! changes nothing.
//!
//! ```rust
//! let mut document = json!(in alloc; {"tags": ["draft"]})?;
//! let path = Pointer::parse("/tags/0")?.to_buf(alloc)?;
//! let value = json!(in alloc; "new")?;
//! let patch = vec![in alloc; Operation::Add { path, value }]?;
//! apply(alloc, &mut document, patch)?;
//! let patched = document.to_string(alloc)?;
//! assert_eq!(rt; patched.as_str(), r#"{"tags":["new","draft"]}"#);
//! ```
//!
//! A deletion returns the operation that undoes it:
//!
//! ```rust
//! let mut document = json!(in alloc; [3, 5])?;
//! let undo = delete_with_undo(alloc, &mut document, Pointer::parse("/0")?)?;
//! assert_eq!(rt; document.to_string(alloc)?.as_str(), "[5]");
//! if let Some(add) = undo {
//!     apply(alloc, &mut document, vec![in alloc; add]?)?;
//! }
//! assert_eq!(rt; document.to_string(alloc)?.as_str(), "[3,5]");
//! ```
//!
//! In the examples `rt` is the runtime that `main` and each test receive, and `alloc` is
//! `rt.alloc()`, the allocator.
//!
//! - [`Operation`] is one operation of a patch, and [`apply`] applies a list of them.
//! - [`apply_comparing`] applies them with the [`Comparison`] of numbers that its caller chooses.
//! - [`PatchError`] identifies the operation that failed, and why. [`apply_naming_pointer`] also names the
//!   pointer at fault, in a [`FailedOperation`].
//! - [`apply_with_inverse`] applies a patch and returns the patch that takes it back, and
//!   [`apply_comparing_with_inverse`] does so with a [`Comparison`].
//! - [`are_apart`] returns whether two patches can be applied in either order.
//! - [`is_equal`] compares two values as a `test` does.
//! - [`delete_with_undo`] deletes a value and returns the operation that restores it.
//! - [`laws`] states what holds of operations and patches, such as that each has exactly one
//!   outcome.
//!
//! Two rules are not from the RFC. Removing the root leaves `null`. A `test` of [`apply`] with a float
//! on either side fails. With [`Comparison::Numeric`] a `test` compares numbers by their values, as
//! the RFC has it (section 4.6).
#![tactic(auto)]

mod add;
mod apart;
mod comparison;
mod copy;
mod drop;
mod equality;
mod failed_operation;
mod float_search;
mod inverse;
mod later;
pub mod laws;
mod move_value;
mod number;
mod operation;
mod patch;
mod remove;
mod replace;
mod target;
mod test;
mod turn;
mod undo;

pub use apart::are_apart;
pub use comparison::Comparison;
pub use equality::is_equal;
pub use failed_operation::{FailedOperation, PatchPointer};
pub use inverse::{
    apply_comparing_with_inverse, apply_naming_pointer_with_inverse, apply_with_inverse,
};
pub use move_value::is_proper_prefix;
pub use operation::{Operation, PatchError};
pub use patch::{apply, apply_comparing, apply_naming_pointer};
pub use undo::delete_with_undo;
