//! Laying out a value that the old document does not have.

use crate::gaps::{Gaps, key_of};
use crate::given::GivenValue;
use crate::lay::{At, Layer, closing, opening};
use crate::tree::{NodeKind, TreeChild, TreeNode};
use jsonptr_text_piece::span::slice;
use std::alloc::AllocError;

/// How many members of a model are looked at for one with a key.
const MOST_MEMBERS: usize = 64;

impl<'t> Layer<'t> {
    /// Appends a value that the old document does not have at this location. A model is a value of the
    /// old document that shows how such values are laid out.
    ///
    /// # Errors
    ///
    /// [`AllocError`] if an allocation fails.
    #[cycle(fresh)]
    pub fn fresh(
        &mut self,
        new: GivenValue<'_>,
        model: Option<&TreeNode>,
        at: At<'_>,
        depth: usize,
    ) -> Result<(), AllocError> {
        let new = match self.given.get(&new.node.hash) {
            Some(given) => *given,
            None => new,
        };
        if depth == 0 {
            return Ok(());
        }
        if new.node.children.is_empty() {
            return self.push_leaf(new);
        }
        let at = at.like(self.old, model);
        if at.is_spread {
            self.fresh_lines(new, model, at, depth - 1)
        } else {
            self.fresh_line(new, model, at, depth - 1)
        }
    }

    /// Appends an array or an object with each child on a line of its own.
    #[cycle(fresh)]
    fn fresh_lines(
        &mut self,
        new: GivenValue<'_>,
        model: Option<&TreeNode>,
        at: At<'_>,
        depth: usize,
    ) -> Result<(), AllocError> {
        let mut indent = String::from_str(self.alloc, at.indent)?;
        indent.push_str(at.style.unit)?;
        let inner = At {
            indent: indent.as_str(),
            ..at
        };
        let mut is_first = true;
        self.out.push(opening(new.node.kind))?;
        for child in &new.node.children {
            if !is_first {
                self.out.push(',')?;
            }
            self.out.push_str(at.style.newline)?;
            self.out.push_str(inner.indent)?;
            self.push_key(new.text, child, at.style.colon)?;
            let part = GivenValue {
                text: new.text,
                node: &child.node,
            };
            self.fresh(part, child_of_model(model, child), inner, depth)?;
            is_first = false;
        }
        self.out.push_str(at.style.newline)?;
        self.out.push_str(at.indent)?;
        self.out.push(closing(new.node.kind))
    }

    /// Appends an array or an object on one line.
    #[cycle(fresh)]
    fn fresh_line(
        &mut self,
        new: GivenValue<'_>,
        model: Option<&TreeNode>,
        at: At<'_>,
        depth: usize,
    ) -> Result<(), AllocError> {
        let pad = match new.node.kind {
            NodeKind::Object => at.style.brace,
            _ => at.style.bracket,
        };
        let mut is_first = true;
        self.out.push(opening(new.node.kind))?;
        self.out.push_str(pad)?;
        for child in &new.node.children {
            if !is_first {
                self.out.push(',')?;
                self.out.push_str(at.style.comma)?;
            }
            self.push_key(new.text, child, at.style.colon)?;
            let part = GivenValue {
                text: new.text,
                node: &child.node,
            };
            self.fresh(part, child_of_model(model, child), at, depth)?;
            is_first = false;
        }
        self.out.push_str(pad)?;
        self.out.push(closing(new.node.kind))
    }

    /// Appends a value without children.
    fn push_leaf(&mut self, new: GivenValue<'_>) -> Result<(), AllocError> {
        match new.node.kind {
            NodeKind::Scalar => {
                let span = new.node.span;
                self.out.push_str(slice(new.text, span.from, span.to))
            }
            NodeKind::Array => self.out.push_str("[]"),
            NodeKind::Object => self.out.push_str("{}"),
        }
    }

    /// Appends the key of a member and what is after it, or nothing for an element.
    ///
    /// # Errors
    ///
    /// [`AllocError`] if an allocation fails.
    pub fn push_key(
        &mut self,
        text: &str,
        child: &TreeChild,
        colon: &str,
    ) -> Result<(), AllocError> {
        let key = key_of(text, child);
        if key.is_empty() {
            return Ok(());
        }
        self.out.push_str(key)?;
        self.out.push_str(colon)
    }
}

impl<'a> At<'a> {
    /// Returns the location with the layout of a model.
    fn like(self, text: &'a str, model: Option<&TreeNode>) -> At<'a> {
        let Some(node) = model else {
            return self;
        };
        let Some(gaps) = Gaps::of(text, node) else {
            return self;
        };
        At {
            style: self.style.like(text, node),
            is_spread: self.is_spread && gaps.open.contains('\n'),
            ..self
        }
    }
}

/// Returns the child of a model that shows how the child of a new value is laid out: the member with
/// its key, or the first element. Returns `None` if there is none of its kind with children.
fn child_of_model<'m>(model: Option<&'m TreeNode>, child: &TreeChild) -> Option<&'m TreeNode> {
    let members = model?.children.iter().take(MOST_MEMBERS);
    for member in members {
        let node = &member.node;
        if member.key == child.key && node.kind == child.node.kind && !node.children.is_empty() {
            return Some(node);
        }
    }
    None
}
