//! Reports of errors, with labels on the texts that they are about.
//!
//! The crate `jsonptr` re-exports the module `diagnostic`.
#![tactic(auto)]

pub mod diagnostic;
pub mod laws;
pub mod rendering;
