//! Edits a JSON document in its text, so that the order of members, the form of numbers and the layout stay.
//!
//! ```rust
//! let mut buffers = Buffers::new(alloc);
//! let text = "{\n  \"name\": \"app\",\n  \"sizes\": [1.0, 5]\n}\n";
//! let pointer = Pointer::parse("/sizes/1")?;
//! let edited = assign_in_text(&mut buffers, text, pointer, &RawValue::parse(alloc, "7")?)?;
//! let new = "{\n  \"name\": \"app\",\n  \"sizes\": [1.0, 7]\n}\n";
//! assert_eq!(rt; edited.as_str(), new);
//! ```
//!
//! `jsonptr_text_edit` makes one call of the edits, `edit_text`. A program uses that one, and this crate is for
//! crates of edits.
//!
//! - [`assign_in_text`] and [`delete_in_text`] edit at a pointer, as `assign` and `delete` do.
//! - [`rename_in_text`] renames a member of an object.
//! - [`apply_in_text`] applies a JSON Patch (RFC 6902) in place, all of its operations or none.
//! - [`take_step`] makes one edit in one piece, and returns where it is.
//! - [`locate`] returns where a value is, and its own text; [`pointer_at`] which value is at an offset;
//!   [`indent_text`] the same tokens on lines.
//! - [`laws`] states that the bytes of an edit can be put back.
//!
//! Each edit makes two promises, the second one if the result is [`Stepped::InPlace`]:
//!
//! - *Meaning*: the new text reads as the document that the call on documents makes of the document
//!   that the old text reads as.
//! - *Bytes*: one piece changes, or one for each operation of a patch, and for each member with the key
//!   that is deleted. It is the text of the value that is replaced, the name of the member that is renamed, or
//!   one child that is added or removed, with white space and at most one comma beside it. The pointer leads
//!   to it in the tokens of the text, so it is no part of a token, and no equal value elsewhere.
//!
//! To edit many texts keep one [`Buffers`], and pass it to each call: it keeps its memory from text to text.
//!
//! In the examples `rt` is the runtime that `main` and each test receive, and `alloc` is
//! `rt.alloc()`, the allocator.
#![tactic(auto)]

mod add;
mod apply;
mod assign;
mod at_offset;
mod change_at;
mod delete;
mod front;
mod indent;
mod insert;
pub mod laws;
mod located;
mod one_line;
mod operate;
pub mod plan;
mod remove;
mod rename;
mod rename_document;
mod replace;
mod rewrite;
mod shallow;
mod site;
mod step;
mod stepped;
mod value_at;

pub use apply::apply_in_text;
pub use assign::assign_in_text;
pub use at_offset::{PointerAt, pointer_at};
pub use delete::delete_in_text;
pub use indent::{IndentError, indent_text};
pub use jsonptr_text_piece::buffers::Buffers;
pub use jsonptr_text_value::{PatchText, RawOperation, RawValue};
pub use jsonptr_value::ReadError;
pub use located::{LocateError, Located, locate};
pub use one_line::stays_one_line;
pub use operate::passes;
pub use rename::{RenameError, rename_in_text};
pub use rewrite::apply_and_print;
pub use step::{Step, take_step};
pub use stepped::{StepError, Stepped};
