//! Documents as maps from paths to nodes, following tokens in them, and writing where the tokens
//! lead (RFC 6901, section 4).
//!
//! Contains definitions and laws, and no code that runs. A law states what the definitions imply.
#![tactic(auto)]

pub mod documents;
pub mod following;
pub mod json;
pub mod toml_value;
pub mod writing;
