//! A text that brings a child.

use crate::child::Child;
use crate::span::Span;

/// A text that brings a child into an array or an object. It owns the text.
#[derive(Debug, Drop)]
pub struct Piece {
    /// What it replaces: white space, or nothing.
    pub span: Span,
    /// The text: the child, with a comma and white space beside it.
    pub text: String,
    /// Where the child is in that text.
    pub child: Child,
}
