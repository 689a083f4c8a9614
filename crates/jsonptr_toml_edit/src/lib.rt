//! Edits of a TOML document in its text: one edit, one result.
//!
//! ```rust
//! let text = "# The size\nsize = 3 # as ever\n";
//! let edit = TomlEdit::Assign(Pointer::parse("/size")?, RawTomlValue::parse(alloc, "0x05")?);
//! let new = edit_toml(alloc, text, &edit)?.in_place().ok_or("an edit in place")?;
//! assert_eq!(rt; new.as_str(), "# The size\nsize = 0x05 # as ever\n");
//! ```
//!
//! - [`TomlEdit`] is what to do: assign a value with its own text or one that has none, delete a value, or
//!   rename a member of a table.
//! - [`edit_toml`] makes the edit in a text. One [`TomlEdit`] serves many texts.
//! - [`Edited`] is the new text. [`Edited::in_place`] returns it only if the comments and the layout of the
//!   old text stay.
//! - [`TomlEditError`] is why an edit is not possible.
//! - [`laws`] states that an edit of a text has at most one error.
//!
//! [`edit_toml`] makes two promises. *Meaning*: the new text reads as the document that the call on
//! documents makes of the document that the old text reads as. *Bytes*, in place: one piece of the text
//! changes, or of a renaming texts of the key.
//!
//! - A value that has a text, as after an equals sign, is replaced by a text: all else stays, also the
//!   comments beside it.
//! - A table or an array of tables is replaced with the headers and dotted keys that make it. All
//!   that is above the first and below the last of these stays.
//! - A pair, a member or an element is cut out with its line or a comma, and with no comments but those
//!   before that comma, on its line, and, if no key follows, directly above. Which comments go with a
//!   table that has headers is tested.
//! - What is put in is one member or element, with at most one comma.
//! - A value that comes with its text has that text, byte for byte, or headers and dotted keys make it.
//! - A text of a key that is renamed becomes one of the new key, and nothing else changes. That these are
//!   the texts that name the member is tested.
//!
//! In the examples `rt` is the runtime that `main` and each test receive, and `alloc` is
//! `rt.alloc()`, the allocator.
#![tactic(auto)]

mod add;
mod alone;
mod assign;
mod assign_given;
mod cut_out;
mod delete;
mod edit;
mod edit_error;
mod given;
mod given_plan;
mod inline;
mod inline_child;
mod items;
mod keys;
pub mod laws;
mod lines;
mod made;
mod mention;
mod open;
mod outline;
mod pair;
mod piece;
mod plan;
mod raw_value;
mod read_back;
mod remove;
mod rename;
mod rename_document;
mod replace;
mod run;
mod same_toml;
mod skip;
mod span;
mod text;

pub use edit::TomlEdit;
pub use edit_error::TomlEditError;
pub use jsonptr_text_edit::Edited;
pub use jsonptr_text_step::RenameError;
pub use raw_value::{RawTomlError, RawTomlValue};
pub use text::edit_toml;
