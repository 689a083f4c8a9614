//! Shows, by reading two JSON texts side by side, that the new one is the old one with one change.
//!
//! - [`check`]: whether a text is another one with one change.
//! - [`change`]: what changes: a value is replaced, a child comes, a member gets another name.
//! - [`lead`]: whether selectors lead to a value in a text.
//! - [`one_child`]: whether a part of a text is one child, with at most one comma and white space beside it.
//! - [`member`]: a text that is cut around the name of a member.
//! - [`token`]: whether two tokens are the same.
//! - [`laws`]: what may be beside a child.
//!
//! This crate knows no JSON Pointers. `jsonptr_text_step` edits at pointers with it.
#![tactic(auto)]

mod added;
mod appended;
pub mod change;
pub mod check;
mod check_error;
pub mod laws;
pub mod lead;
pub mod member;
pub mod one_child;
mod renamed;
mod same;
pub mod token;
mod wanted;
