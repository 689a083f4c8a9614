//! What an edit does to a text. These are hints: no contract says that they are right.

use jsonptr::PointerBuf;
use jsonptr_text_piece::span::Span;

/// The keys at which a piece of a text holds a value.
#[derive(Debug, Drop)]
pub enum Keys {
    /// The piece is a value alone.
    None,
    /// The piece is pairs and headers.
    Some(PointerBuf),
}

/// A member or an element within a piece of a text.
#[derive(Debug, Drop)]
pub struct TomlChild {
    /// Where it is in the piece, without the comma beside it.
    pub span: Span,
    /// The keys that it is at.
    pub keys: Keys,
}

/// The text of a value that is replaced.
#[derive(Debug, Drop)]
pub struct ReplacementPlan {
    /// What is replaced.
    pub span: Span,
    /// The new text.
    pub piece: String,
    /// What makes the old value, if headers or dotted keys do.
    pub items: Option<ReplacedItems>,
}

/// Headers and pairs that are replaced.
#[derive(Debug, Drop)]
pub struct ReplacedItems {
    /// The keys at which they hold the old value.
    pub old_keys: PointerBuf,
    /// The keys at which the new ones hold the new value.
    pub new_keys: PointerBuf,
    /// The last one.
    pub last: LastItem,
}

/// The last header or pair of a piece of a text.
#[derive(Clone, Copy, Debug)]
pub struct LastItem {
    /// The offset in the piece at which its line begins.
    pub line: usize,
    /// Where it is in its line.
    pub span: Span,
}

/// The text of a member or an element that is added.
#[derive(Debug, Drop)]
pub struct AdditionPlan {
    /// White space and comments that stay, and come between the parts of the new text.
    pub span: Span,
    /// The first part of the new text.
    pub lead: String,
    /// The second part of the new text.
    pub rest: String,
    /// The child in the new text.
    pub child: TomlChild,
}

/// The text of a member or an element that is cut out.
#[derive(Debug, Drop)]
pub struct RemovalPlan {
    /// What is cut out.
    pub span: Span,
    /// The child in it.
    pub child: RemovedChild,
    /// The text of the table or array that is left, if nothing else mentions it.
    pub left: Option<EmptiedParent>,
}

/// A member or an element that is cut out.
#[derive(Debug, Drop)]
pub enum RemovedChild {
    /// Where its pair, or its text, is in the piece.
    Text(Span),
    /// The keys at which the headers and pairs of the piece hold it.
    Items(PointerBuf),
}

/// The text of a table or array that becomes empty.
#[derive(Debug, Drop)]
pub struct EmptiedParent {
    /// The text.
    pub piece: String,
    /// The keys that it is at.
    pub keys: Keys,
    /// Whether it is an array.
    pub is_array: bool,
}
