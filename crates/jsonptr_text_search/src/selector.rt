//! The children that a search follows.

/// Selects a child of a value: the member with this key if the value is an object, and the element
/// at this index if it is an array.
#[derive(Debug, Drop)]
pub struct Selector {
    /// The key of a member.
    pub key: String,
    /// The index of an element, or `None` if the selector selects no element.
    pub index: Option<usize>,
}
