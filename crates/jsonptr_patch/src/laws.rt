//! Laws of patches (RFC 6902). Each law is the contract of a function that does nothing.
//!
//! - [`apart`]: operations that change different members of the same objects commute.
//! - [`comparison`]: how strict tests and numerical ones are related.
//! - [`equality`]: which values a strict test calls equal.
//! - [`insert`]: insertion into an array.
//! - [`inverse`]: what takes operations back.
//! - [`operation`]: each operation has exactly one outcome, with each comparison.
//! - [`patch`]: so has each list of operations, and how lists follow one another.

pub mod apart;
pub mod comparison;
pub mod equality;
pub mod insert;
pub mod inverse;
pub mod operation;
pub mod patch;
