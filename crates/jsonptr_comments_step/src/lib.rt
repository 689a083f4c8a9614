//! Edits of JSON text with comments and trailing commas, in place.
//!
//! ```rust
//! let mut buffers = Buffers::new(alloc);
//! let text = CommentedText::read(alloc, "{\n  \"size\": 3, // px\n}\n")?;
//! let path = Pointer::parse("/name")?;
//! let name = RawValue::parse(alloc, "\"app\"")?;
//! let new = assign_with_comments(&mut buffers, &text, path, &name)?.ok_or("an edit in place")?;
//! assert_eq!(rt; new.as_str(), "{\n  \"size\": 3, // px\n  \"name\": \"app\",\n}\n");
//! ```
//!
//! `jsonptr_comments_edit` makes one call of the edits, `edit_commented`, and says why one is not possible. A
//! program uses that one, and this crate is for crates of edits.
//!
//! - [`assign_with_comments`] and [`delete_with_comments`] edit at a pointer, as `assign` and `delete` do.
//! - [`rename_with_comments`] renames a member of an object.
//! - [`apply_with_comments`] applies the operations of a patch (RFC 6902).
//!
//! Each call makes three promises. *Meaning*: without its comments, the new text reads as the document
//! that the call on documents makes. *Tokens*: without its comments, it has the tokens that the edit of
//! the text without comments makes, one for one; so has the text after each operation of a patch.
//! *Comments*: all stay, in their order, except those in the value that is replaced or in the child that is
//! removed, and those that follow this child on its line ([`comments_law`](laws::comments_law)). A renaming
//! loses none.
//!
//! In the examples `rt` is the runtime that `main` and each test receive, and `alloc` is
//! `rt.alloc()`, the allocator.
#![tactic(auto)]

mod add;
mod adjust;
mod apply;
mod assign;
mod change;
mod child;
mod delete;
mod draft;
mod gap;
pub mod laws;
mod name;
mod operate;
mod part;
mod remove;
mod rename;
mod same_tokens;
mod step;
mod texts;
mod value;

pub use apply::apply_with_comments;
pub use assign::assign_with_comments;
pub use delete::delete_with_comments;
pub use jsonptr_comments::CommentedText;
pub use jsonptr_text_step::{Buffers, RawOperation, RawValue};
pub use rename::rename_with_comments;
