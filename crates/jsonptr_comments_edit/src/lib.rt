//! Edits of JSON text with comments and trailing commas: one edit, one result.
//!
//! ```rust
//! let mut buffers = Buffers::new(alloc);
//! let text = CommentedText::read(alloc, "{\n  \"size\": 3, // px\n}\n")?;
//! let edit = Edit::Assign(Pointer::parse("/name")?, RawValue::parse(alloc, r#""app""#)?);
//! let edited = edit_commented(&mut buffers, &text, &edit)?;
//! let new = edited.in_place().ok_or("an edit in place")?;
//! assert_eq!(rt; new.as_str(), "{\n  \"size\": 3, // px\n  \"name\": \"app\",\n}\n");
//! ```
//!
//! - [`edit_commented`] makes an [`Edit`] in a [`CommentedText`].
//! - [`TextEditor`] owns a text that is edited many times.
//!
//! [`edit_commented`] makes these promises:
//!
//! - *Meaning*: without its comments, the new text reads as the document that the call on documents makes.
//! - *Tokens*: in place, the new text has, without its comments, the tokens that the edit of the text without
//!   comments makes, one for one; so has the text after each operation of a patch. A value that the edit
//!   brings has the tokens of its own text.
//! - *Comments*: in place, all stay, in their order, except those in the value that is replaced or in the child
//!   that is removed, and those that follow this child on its line.
//! - *Lines*: in place, a text of one line stays one line.
//! - *Errors*: each error comes only for its reason.
//!
//! In the examples `rt` is the runtime that `main` and each test receive, and `alloc` is
//! `rt.alloc()`, the allocator.
#![tactic(auto)]

mod commented;
mod editor;
mod kinds;
mod reprint;

pub use commented::edit_commented;
pub use editor::{Replaced, TextEditor};
pub use jsonptr_comments::{CommentError, CommentedText};
pub use jsonptr_text_edit::{
    Buffers, Edit, EditError, Edited, PatchText, RawOperation, RawValue, RenameError,
};
