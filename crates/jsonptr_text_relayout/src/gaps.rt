//! What is around the children of an array or an object.

use crate::tree::{TreeChild, TreeNode};
use jsonptr_text_layout::layout::breaks;
use jsonptr_text_piece::span::slice;

/// The text around the children of an array or an object that has some.
#[derive(Clone, Copy, Debug)]
pub struct Gaps<'t> {
    /// Between the bracket and the first child.
    pub open: &'t str,
    /// Between two children, with the comma: that of the last two, or of the two before if it has
    /// fewer line breaks. `None` if there is one child.
    pub between: Option<&'t str>,
    /// After the comma between two children, if it has no line break.
    pub comma: Option<&'t str>,
    /// Between the last child and the bracket.
    pub close: &'t str,
}

impl<'t> Gaps<'t> {
    /// Returns the gaps of an array or an object, or `None` if it has no children.
    pub fn of(text: &'t str, node: &TreeNode) -> Option<Gaps<'t>> {
        let (first, last) = (node.children.first()?, node.children.last()?);
        let from = node.span.from.saturating_add(1);
        let to = node.span.to.saturating_sub(1);
        let open = slice(text, from, first.from);
        let close = slice(text, last.node.span.to, to);
        let between = between(text, &node.children);
        let comma = between.and_then(after_comma);
        Some(Gaps {
            open,
            between,
            comma,
            close,
        })
    }
}

/// Returns what is between two children: the last two, or the two before if there are fewer line
/// breaks.
fn between<'t>(text: &'t str, children: &[TreeChild]) -> Option<&'t str> {
    let count = children.len();
    let last = before(text, children, count.checked_sub(1)?)?;
    match before(text, children, count.saturating_sub(2)) {
        Some(other) if breaks(other) < breaks(last) => Some(other),
        _ => Some(last),
    }
}

/// Returns what is between the child at the position and the one before it, or `None` if it is the
/// first one.
pub fn before<'t>(text: &'t str, children: &[TreeChild], position: usize) -> Option<&'t str> {
    let other = children.get(position.checked_sub(1)?)?;
    let child = children.get(position)?;
    Some(slice(text, other.node.span.to, child.from))
}

/// Returns what is after the comma, if it has no line break.
fn after_comma(gap: &str) -> Option<&str> {
    let at = gap.find(',')?;
    let after = gap.get(at.saturating_add(1)..)?;
    if after.contains('\n') {
        None
    } else {
        Some(after)
    }
}

/// Returns what is between the key of the last member and its value, or `None` if there is no
/// member.
pub fn colon_of<'t>(text: &'t str, node: &TreeNode) -> Option<&'t str> {
    let member = node.children.last()?;
    let field = slice(text, member.from, member.node.span.from);
    field.get(field.rfind('"')?.saturating_add(1)..)
}

/// Returns the key of a member, with its quotation marks, or an empty text for an element.
pub fn key_of<'t>(text: &'t str, child: &TreeChild) -> &'t str {
    let field = slice(text, child.from, child.node.span.from);
    match field.rfind('"') {
        Some(at) => field.get(..at.saturating_add(1)).unwrap_or(""),
        None => "",
    }
}

/// Returns the white space after the last line break, or `None` if there is none.
pub fn indent_after(gap: &str) -> Option<&str> {
    let at = gap.rfind('\n')?;
    let line = gap.get(at.saturating_add(1)..)?;
    let len = line.len() - line.trim_start().len();
    line.get(..len)
}
