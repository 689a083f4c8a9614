//! What changes in a document that is edited.

use jsonptr_text_search::selector::Selector;

/// What changes in the value at a location. It owns the JSON texts that it names.
#[derive(Debug, Drop)]
pub enum Change {
    /// Replaces the value, whose text is `old`, by the one whose text is `new`.
    Replace {
        /// The text of the value before.
        old: String,
        /// The text of the value after.
        new: String,
    },
    /// Adds a member to an object.
    Add(ChildValue),
    /// Inserts an element into an array, before the one at its index or after the last one.
    Insert(ChildValue),
    /// Adds an element after the last one of an array. Its selector has the index of the new element.
    Append(ChildValue),
    /// Gives a member of an object another key. The member keeps its place and its value.
    Rename(Renaming),
}

/// A child that is added to an array or an object.
#[derive(Debug, Drop)]
pub struct ChildValue {
    /// Selects the child in the new value. An element is inserted before the one at this index.
    pub selector: Selector,
    /// The position of a new member among all members in the longer text, from 0.
    pub position: usize,
    /// The JSON text of the child.
    pub value: String,
}

/// The keys of a member of an object before and after a change. It is the only member with the first key,
/// and no member has the second one before.
#[derive(Debug, Drop)]
pub struct Renaming {
    /// The key of the member before.
    pub from: String,
    /// Its key after.
    pub to: String,
}

/// A change, and the way to the value that it changes.
#[derive(Clone, Copy, Debug)]
pub struct ChangeAt<'a> {
    /// The selectors that lead to the value.
    pub selectors: &'a [Selector],
    /// The position, among all children, of each child on the way. Of members with the same key it
    /// is that of the last one.
    pub positions: &'a [usize],
    /// The change.
    pub change: &'a Change,
}
