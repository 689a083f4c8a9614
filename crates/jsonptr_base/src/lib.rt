//! Faults, reference tokens and array indices (RFC 6901, sections 3 and 4): the parts of `jsonptr`
//! that need neither pointers nor documents.
//!
//! The crate `jsonptr` re-exports `index`, `token`, the type `Fault` and the laws.
#![tactic(auto)]

pub mod fault;
pub mod index;
pub mod laws;
pub mod number;
pub mod token;

pub use jsonptr_diagnostic::diagnostic;
