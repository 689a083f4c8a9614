//! Sessions and undo: lists of calls on one pointer and one document, and assignments that can be
//! undone.
//!
//! A session makes its calls in order, and returns one reply for each. It is proved to be a run of
//! a small state machine over lists of tokens and maps of nodes.
//!
//! ```rust
//! let mut pointer = Pointer::parse("/size")?.to_buf(alloc)?;
//! let mut document = json!(in alloc; {"size": 3})?;
//! let size = json!(in alloc; 4)?;
//! let calls = vec![in alloc; Call::Assign(size), Call::PopBack, Call::Resolve]?;
//! let replies = run_json(alloc, &mut pointer, &mut document, calls)?;
//! assert_eq!(rt; replies.len(), 3);
//! assert!(rt; pointer.as_ptr().is_root());
//! assert_eq!(rt; document.to_string(alloc)?.as_str(), r#"{"size":4}"#);
//! ```
//!
//! The functions of [`undo::json`] undo an assignment:
//!
//! ```rust
//! let mut document = json!(in alloc; {"size": 3})?;
//! let pointer = Pointer::parse("/depth/-")?;
//! let back = assign_with_undo(alloc, &mut document, pointer, json!(in alloc; 9)?)?;
//! let assigned = document.to_string(alloc)?;
//! assert_eq!(rt; assigned.as_str(), r#"{"depth":[9],"size":3}"#);
//! assert!(rt; undo(alloc, &mut document, back).is_ok());
//! assert_eq!(rt; document.to_string(alloc)?.as_str(), r#"{"size":3}"#);
//! ```
//!
//! In the examples `rt` is the runtime that `main` and each test receive, and `alloc` is
//! `rt.alloc()`, the allocator.
//!
//! - [`session`] has the calls, the replies, and the functions that run a session.
//! - [`undo`] has the assignments that can be undone, for JSON and for TOML documents.
//! - [`laws`] states what holds of the machine, such as that each list of commands has one run.
#![tactic(auto)]

mod assign_undoable;
mod document;
mod json;
mod landing;
pub mod laws;
pub mod session;
mod toml_value;
mod turn;
pub mod undo;

pub use session::{Call, Reply, run_json, run_json_with, run_toml, run_toml_with};
