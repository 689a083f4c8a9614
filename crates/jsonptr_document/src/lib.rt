//! Documents one level at a time, independently of the crate of their values, and the step from a
//! value to the child that a reference token names (RFC 6901, section 4).
#![tactic(auto)]

pub mod child;
pub mod child_ref;
pub mod document;
pub mod document_mut;
mod json;
pub mod laws;
mod toml_value;
