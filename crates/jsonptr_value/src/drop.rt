//! Dropping a value.

use crate::depth::RECURSION_LEVELS;

/// A value whose arrays and objects may nest deep.
pub trait Nested: Drop {
    /// Drops the value, by recursion down to so many levels and by a loop below them.
    fn discard_within(self, levels: usize);
}

/// Drops the value.
///
/// The loop needs no memory. Time is linear in the value, but below 32 levels each member of an
/// object takes a logarithm of their number. The first 32 levels take the stack, by recursion.
pub fn discard<V: Nested>(value: V) {
    value.discard_within(RECURSION_LEVELS);
}
