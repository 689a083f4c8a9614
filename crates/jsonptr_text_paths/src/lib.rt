//! A JSON or TOML document as lines, one for each node, and a JSON document from such lines.
//!
//! - [`walk`]: the pointers of all nodes of a document, in order.
//! - [`listing`]: the lines of a document.
//! - [`text_listing`]: the lines of the document of a JSON text.
//! - [`toml_listing`]: the lines of a TOML document.
//! - [`build`]: the document that lines build.
//!
//! A line is a JSON Pointer (RFC 6901), a tab, and a JSON text without white space (RFC 8259):
//!
//! ```text
//! {"a":[1,true],"b":{}}        Leaves        AllNodes
//!
//!                                            ⟶{}
//!                                            /a⟶[]
//!                              /a/0⟶1        /a/0⟶1
//!                              /a/1⟶true     /a/1⟶true
//!                              /b⟶{}         /b⟶{}
//! ```
//!
//! An array or object with children has its line as an empty one, so each value is printed once, and
//! lines of all nodes can be read back one by one. Each line has its whole pointer.
#![tactic(auto)]

pub mod build;
pub mod laws;
pub mod listing;
pub mod text_listing;
pub mod toml_listing;
mod toml_walk;
pub mod walk;
