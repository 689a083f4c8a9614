//! Parts of a text: where they are, how a text is cut and put together, and the white space between them.
//!
//! - [`span`]: two offsets, and the text between them.
//! - [`child`]: a member or an element, and where its value ends.
//! - [`cut`]: a text in three parts, and a text with another part in the middle.
//! - [`piece`]: a text that brings a child.
//! - [`spacing`]: white space, commas and colons.
//! - [`buffers`]: memory for reading texts.
//! - [`laws`]: what it is to replace a part of a text.
//!
//! The crates of edits in JSON, in JSON with comments and in TOML use it.
#![tactic(auto)]

pub mod buffers;
pub mod child;
pub mod cut;
pub mod laws;
pub mod piece;
pub mod spacing;
pub mod span;
