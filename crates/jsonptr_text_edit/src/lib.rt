//! Edits of a JSON document in its text: one edit, one result.
//!
//! ```rust
//! let mut buffers = Buffers::new(alloc);
//! let text = "{\n  \"name\": \"app\",\n  \"sizes\": [1.0, 5]\n}\n";
//! let edit = Edit::Assign(Pointer::parse("/sizes/1")?, RawValue::parse(alloc, "7.50")?);
//! let edited = edit_text(&mut buffers, text, &edit)?;
//! let new = edited.in_place().ok_or("an edit in place")?;
//! assert_eq!(rt; new.as_str(), "{\n  \"name\": \"app\",\n  \"sizes\": [1.0, 7.50]\n}\n");
//! ```
//!
//! - [`Edit`] is what to do: assign a value, delete one, rename a member, or apply a JSON Patch (RFC 6902). Each
//!   value that it brings has its own text.
//! - [`edit_text`] makes the edit in a text. One [`Edit`] serves many texts, and so does one [`Buffers`].
//! - [`Edited`] is the new text. [`Edited::in_place`] returns it only if the layout of the old text stays.
//! - [`EditError`] is why an edit is not possible.
//! - [`locate`] returns where a value is, and its own text; [`pointer_at`] which value is at an offset;
//!   [`indent_text`] the same tokens on lines.
//! - [`laws`] states that each edit of a text has one outcome.
//!
//! [`edit_text`] makes these promises:
//!
//! - *Meaning*: the new text reads as the document that the call on documents makes of the document that the
//!   old text reads as.
//! - *Bytes*: in place, one piece changes, or one for each operation of a patch, and for each member with the
//!   key that is deleted. It is the text of the value that is replaced, the name of the member that is renamed,
//!   or one child that is added or removed, with white space and at most one comma beside it. The pointer leads
//!   to it in the tokens of the text, so it is no part of a token, and no equal value elsewhere.
//! - *Own texts*: in place, a value that the edit brings has the tokens of its own text, one for one: its
//!   members in their order, and its numbers as they are written.
//! - *Lines*: in place, a text of one line stays one line.
//! - *Errors*: each error comes only for its reason.
//!
//! In the examples `rt` is the runtime that `main` and each test receive, and `alloc` is
//! `rt.alloc()`, the allocator.
#![tactic(auto)]

mod by_document;
mod edit;
mod edit_error;
mod edited;
pub mod laws;
mod made;
mod reprint;
mod text;

pub use edit::Edit;
pub use edit_error::EditError;
pub use edited::Edited;
pub use jsonptr_text_piece::buffers::Buffers;
pub use jsonptr_text_step::{
    IndentError, LocateError, Located, PointerAt, RenameError, indent_text, locate, pointer_at,
};
pub use jsonptr_text_value::{PatchText, RawOperation, RawValue};
pub use text::edit_text;
