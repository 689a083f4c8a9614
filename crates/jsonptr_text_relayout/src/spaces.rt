//! The white space of a document, as its author writes it.

use crate::gaps::{Gaps, colon_of, indent_after};
use crate::tree::TreeNode;

/// The white space around values.
#[derive(Clone, Copy, Debug)]
pub struct Style<'t> {
    /// The line break.
    pub newline: &'t str,
    /// By what each level is indented.
    pub unit: &'t str,
    /// After a comma, on one line.
    pub comma: &'t str,
    /// Between a key and its value.
    pub colon: &'t str,
    /// Inside the brackets of an array on one line.
    pub bracket: &'t str,
    /// Inside the braces of an object on one line.
    pub brace: &'t str,
}

impl<'t> Style<'t> {
    /// Returns the style of a text, as far as it can be seen from the whole of it.
    pub fn of(text: &'t str) -> Style<'t> {
        Style {
            newline: if text.contains("\r\n") { "\r\n" } else { "\n" },
            unit: "  ",
            comma: if is_tight(text) { "" } else { " " },
            colon: if text.contains("\":") && !text.contains("\": ") {
                ":"
            } else {
                ": "
            },
            bracket: "",
            brace: "",
        }
    }

    /// Returns the style of the children of an array or an object, which is on a line with this
    /// indentation. Its own layout counts more than that around it.
    pub fn inside(self, text: &'t str, node: &TreeNode, indent: &str) -> Style<'t> {
        let mut style = self.like(text, node);
        if let Some(unit) = unit_of(text, node, indent) {
            style.unit = unit;
        }
        style
    }

    /// Returns the style with the white space that the array or the object has.
    pub fn like(self, text: &'t str, node: &TreeNode) -> Style<'t> {
        let Some(gaps) = Gaps::of(text, node) else {
            return self;
        };
        let mut style = self;
        style.colon = colon_of(text, node).unwrap_or(self.colon);
        if !gaps.open.contains('\n') {
            style.set_pad(text, node, gaps.open);
            style.comma = gaps.comma.unwrap_or(self.comma);
        }
        style
    }

    /// Takes over the white space inside the brackets of an array or an object on one line.
    fn set_pad(&mut self, text: &str, node: &TreeNode, open: &'t str) {
        if text.as_bytes().get(node.span.from) == Some(&b'{') {
            self.brace = open;
        } else {
            self.bracket = open;
        }
    }
}

/// Returns whether a text on one line has no space after its commas, or after its colons if it has no
/// comma.
fn is_tight(text: &str) -> bool {
    if text.contains('\n') {
        false
    } else if text.contains(',') {
        !text.contains(", ")
    } else {
        !text.contains(": ")
    }
}

/// Returns by what the children of an array or an object are indented, or `None` if they are on its
/// line.
fn unit_of<'t>(text: &'t str, node: &TreeNode, indent: &str) -> Option<&'t str> {
    let gaps = Gaps::of(text, node)?;
    let unit = indent_after(gaps.open)?.strip_prefix(indent)?;
    if unit.is_empty() { None } else { Some(unit) }
}
