//! The texts and the grammar of RFC 6901 (sections 3 and 4), and where a text first leaves it.
//!
//! Contains definitions and laws, and no code that runs. A law states what the definitions imply.
#![tactic(auto)]

pub mod first_fault;
pub mod grammar;
pub mod text;
