//! A JSON Pointer that owns its text and, beside it, a table of the byte offsets of its slashes.
//!
//! Reading calls look positions up in the table, without a pass over the text. Use it for pointers
//! of many tokens that are read often and edited rarely: an edit updates the table, too.
//!
//! ```rust
//! let mut pointer = TabledPointer::from_plain(alloc, Pointer::parse("/a/b")?.to_buf(alloc)?)?;
//! pointer.push_front(Token::new(alloc, CowStr::Borrowed("x/y"))?)?;
//! assert_eq!(rt; pointer.as_ptr().as_str(), "/x~1y/a/b");
//! assert_eq!(rt; pointer.offsets(), [0, 5, 7].as_slice());
//! assert_eq!(rt; pointer.count(), 3);
//! ```
//!
//! In the examples `rt` is the runtime that `main` and each test receive, and `alloc` is
//! `rt.alloc()`, the allocator.
//!
//! - [`TabledPointer`] is the pointer with its table.
//! - [`EditPointer`] is the trait of both kinds of owned pointer, with a table and without.
//! - [`laws`] states how tabled pointers are compared and hashed.
#![tactic(auto)]

mod edit_pointer;
pub mod laws;
mod table;
mod tabled;

pub use edit_pointer::EditPointer;
pub use tabled::TabledPointer;
