//! How a test compares numbers.

/// How a test compares numbers (RFC 6902, section 4.6).
///
/// Everything else it compares in the same way: strings and booleans by their content, arrays by
/// their elements, and objects by their members, in whatever order.
#[derive(Debug, Clone, Copy, PartialEq, Eq)]
pub enum Comparison {
    /// Two integers are equal if they are the same. A test fails if one of its two values contains a
    /// float.
    Strict,
    /// Two numbers are equal if they have the same value, as the RFC has it: `1` and `1.0` are, and
    /// so are `0` and `-0.0`. Nothing is rounded, so 2^53 + 1 and the float 2^53 differ.
    Numeric,
}
