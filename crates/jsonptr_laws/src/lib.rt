//! Laws of the calls of `jsonptr`: each result is unique, and comparisons and edits are those of
//! the lists of tokens. Each law is the contract of a function that does nothing.
//!
//! - [`assign`] and [`resolve`]: each document, pointer and value have exactly one result or
//!   exactly one error. Writing back the value that was found leaves the document unchanged.
//! - [`comparison`]: pointers are compared and hashed as their texts are.
//! - [`edits`]: a pop undoes a push at the same end.
//! - [`parts`]: each part of a pointer, each list of labels, and each report that is drawn, is
//!   unique.
#![tactic(auto)]

pub mod assign;
pub mod comparison;
pub mod edits;
pub mod parts;
pub mod resolve;
