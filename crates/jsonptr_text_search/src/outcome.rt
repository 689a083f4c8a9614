//! What a search in JSON text returns.

use serde_json::Value;

/// The kind of a value.
#[derive(Clone, Copy, Debug, Drop, PartialEq, Eq)]
pub enum Kind {
    /// Neither an array nor an object.
    Scalar,
    /// An array of this length.
    Array(usize),
    /// An object.
    Object,
}

/// Where selectors lead in a value.
#[derive(Drop)]
pub enum Outcome {
    /// To this value.
    Found(Value),
    /// To a value without the child that the next selector selects.
    Stopped {
        /// The number of selectors that are left, with that one.
        left: usize,
        /// The kind of the value.
        kind: Kind,
    },
}
