//! What is true of a JSON value without pointers.
//!
//! This crate reads a value from a text, returns its type and its length, and says whether it nests
//! deeper than so many levels, and when two numbers are the same. It prints, copies and drops a value that
//! nests deep. TOML values that nest deep are dropped here too.
//!
//! `serde_json` prints, clones and drops a value by recursion, so a value that nests deep overflows
//! the stack. [`to_string`], [`copy`] and [`discard`] take only the first 32 levels by recursion, and a
//! loop takes those below.
#![tactic(auto)]

mod clone;
mod depth;
mod drop;
mod extend;
mod frame;
mod from_text;
mod json_nested;
mod number;
mod parsed;
mod partial;
mod print;
mod same;
mod toml_nested;
mod tree;
mod types;

pub use clone::copy;
pub use depth::{MAX_DEPTH, depth_law, nests_within};
pub use drop::{Nested, discard};
pub use from_text::{ReadError, if_json, read};
pub use parsed::{json_parsed_law, toml_parsed_law};
pub use print::to_string;
pub use same::{is_same_float, is_same_number};
pub use types::{NodeType, length, node_type};
