//! The command line of `jsonptr_run`: from its words and its input to one line or an error.
//!
//! - [`run`]: one run of the program. It calls the modules below in the order of its stages.
//! - [`arguments`]: the words of the command line.
//! - [`json_text`]: reading and printing JSON texts.
//! - [`fault`]: the errors and the exit status.
//! - [`laws`]: the output is unique.
#![tactic(auto)]

pub mod arguments;
pub mod fault;
pub mod json_text;
pub mod laws;
mod operations;
pub mod run;
