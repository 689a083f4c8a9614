//! What an edit did to a text.

use jsonptr_text_piece::child::Child;
use jsonptr_text_piece::piece::Piece;
use jsonptr_text_piece::span::Span;

/// A text after an edit, and what the edit did to the text before. It owns both.
#[derive(Debug, Drop)]
pub struct Made {
    /// The text after the edit.
    pub text: String,
    /// What the edit did. A hint: no contract says that it is right.
    pub plan: Plan,
}

/// What an edit did to a text. All offsets are in bytes of the text before the edit.
#[derive(Debug, Drop)]
pub enum Plan {
    /// The text is unchanged.
    Unchanged,
    /// A value was replaced.
    Replaced(ReplacedValue),
    /// A child was put into an array or an object.
    Added(AddedChild),
    /// A child was cut out of an array or an object.
    Removed(RemovedChild),
    /// A member was renamed.
    Renamed(RenamedMember),
}

/// A value that was replaced.
#[derive(Debug, Drop)]
pub struct ReplacedValue {
    /// Where the value was.
    pub value: Span,
    /// How many tokens of the pointer lead to it. The others lead no further.
    pub depth: usize,
    /// The text of the new value.
    pub piece: String,
}

/// A child that was put into an array or an object.
#[derive(Debug, Drop)]
pub struct AddedChild {
    /// Where the array or object was.
    pub container: Span,
    /// Its children before the edit.
    pub children: Vec<Child>,
    /// The position of the child among all children, after the edit.
    pub position: usize,
    /// What came into the text.
    pub piece: Piece,
}

/// A child that was cut out of an array or an object.
#[derive(Debug, Drop)]
pub struct RemovedChild {
    /// Where the array or object was.
    pub container: Span,
    /// Its children before the edit.
    pub children: Vec<Child>,
    /// The position of the child among them.
    pub position: usize,
    /// Its key, if it was a member.
    pub key: Option<String>,
    /// How many members before it had the same key. They were cut out too.
    pub others: usize,
}

/// The name of a member that was replaced.
#[derive(Debug, Drop)]
pub struct RenamedMember {
    /// Where the name was.
    pub name: Span,
    /// The text of the new name.
    pub piece: String,
}
