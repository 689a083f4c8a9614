//! Finds one value in JSON text in a single pass, without reading the rest into a tree.
//!
//! This crate knows no JSON Pointers: a search follows [`Selector`](selector::Selector)s.
//! `jsonptr_text_resolve` resolves pointers with it.
#![tactic(auto)]

pub mod decide;
pub mod find;
mod number;
pub mod outcome;
pub mod read;
pub mod scalar;
pub mod selector;
pub mod skip;
