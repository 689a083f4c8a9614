//! Going over an old and a new document side by side.

use crate::align::{Step, align};
use crate::gaps::{Gaps, before, indent_after};
use crate::given::{Given, GivenValue};
use crate::spaces::Style;
use crate::tree::{NodeKind, TreeNode};
use jsonptr_text_piece::span::slice;
use std::alloc::{AllocError, Global};

/// How many siblings of a new child are looked at for one like it.
const MOST_SIBLINGS: usize = 8;

/// A text that is being made of an old one.
#[derive(Debug, Drop)]
pub struct Layer<'t> {
    /// The allocator.
    pub alloc: Global,
    /// The old text.
    pub old: &'t str,
    /// Texts of new values.
    pub given: Given<'t>,
    /// The new text so far.
    pub out: String,
}

/// Where a value is laid out.
#[derive(Clone, Copy, Debug)]
pub struct At<'a> {
    /// The indentation of its line.
    pub indent: &'a str,
    /// The white space around it.
    pub style: Style<'a>,
    /// Whether the children of its parent are on lines of their own.
    pub is_spread: bool,
}

/// An array or an object while its children are laid out.
#[derive(Drop)]
struct Frame<'a> {
    text: &'a str,
    old: &'a TreeNode,
    new: GivenValue<'a>,
    gaps: Gaps<'a>,
    at: At<'a>,
}

/// How far the children of an array or an object are laid out.
#[derive(Drop)]
struct Row<'a> {
    /// Whether there is none yet.
    is_empty: bool,
    /// What was before a child that is gone, if it had a line break.
    gone: &'a str,
}

/// What comes before a child: a comma and white space.
#[derive(Clone, Copy)]
struct Lead<'a> {
    comma: &'a str,
    gap: &'a str,
}

impl<'t> Layer<'t> {
    /// Appends the new value in the layout of the old one.
    ///
    /// # Errors
    ///
    /// [`AllocError`] if an allocation fails.
    #[cycle(lay)]
    pub fn lay(
        &mut self,
        old: &TreeNode,
        new: GivenValue<'_>,
        at: At<'_>,
        depth: usize,
    ) -> Result<(), AllocError> {
        if old.hash == new.node.hash {
            return self
                .out
                .push_str(slice(self.old, old.span.from, old.span.to));
        }
        if depth == 0 {
            return Ok(());
        }
        if old.kind != new.node.kind || old.children.is_empty() || new.node.children.is_empty() {
            return self.fresh(new, None, at, depth);
        }
        self.lay_children(old, new, at, depth - 1)
    }

    /// Appends an array or an object with children in the layout of an old one with children.
    #[cycle(lay)]
    fn lay_children(
        &mut self,
        old: &TreeNode,
        new: GivenValue<'_>,
        at: At<'_>,
        depth: usize,
    ) -> Result<(), AllocError> {
        let Some(gaps) = Gaps::of(self.old, old) else {
            return Ok(());
        };
        let steps = align(self.alloc, old, new.node)?;
        let at = At {
            indent: indent_after(gaps.open).unwrap_or(at.indent),
            style: at.style.inside(self.old, old, at.indent),
            is_spread: gaps.open.contains('\n'),
        };
        let frame = Frame {
            text: self.old,
            old,
            new,
            gaps,
            at,
        };
        let mut row = Row {
            is_empty: true,
            gone: "",
        };
        self.out.push(opening(old.kind))?;
        for step in &steps {
            self.lay_child(&frame, &mut row, *step, depth)?;
        }
        self.out.push_str(gaps.close)?;
        self.out.push(closing(old.kind))
    }

    /// Appends a child, or nothing for one that is gone.
    #[cycle(lay)]
    fn lay_child<'a>(
        &mut self,
        frame: &Frame<'a>,
        row: &mut Row<'a>,
        step: Step,
        depth: usize,
    ) -> Result<(), AllocError> {
        match step {
            Step::Keep(position, other) => self.keep_child(frame, row, (position, other), depth),
            Step::Remove(position) => {
                row.remove(before(frame.text, &frame.old.children, position));
                Ok(())
            }
            Step::Add(position) => self.add_child(frame, row, position, depth),
        }
    }

    /// Appends a child of the old array or object with its new value.
    #[cycle(lay)]
    fn keep_child<'a>(
        &mut self,
        frame: &Frame<'a>,
        row: &mut Row<'a>,
        positions: (usize, usize),
        depth: usize,
    ) -> Result<(), AllocError> {
        let (old, new) = (&frame.old.children, &frame.new.node.children);
        let (Some(child), Some(other)) = (old.get(positions.0), new.get(positions.1)) else {
            return Ok(());
        };
        let lead = row.next(frame, Some(positions.0));
        let field = slice(self.old, child.from, child.node.span.from);
        self.out.push_str(lead.comma)?;
        self.out.push_str(lead.gap)?;
        self.out.push_str(field)?;
        let piece = GivenValue {
            text: frame.new.text,
            node: &other.node,
        };
        self.lay(&child.node, piece, frame.at.on_line(lead.gap), depth)
    }

    /// Appends a child that the old array or object does not have.
    fn add_child<'a>(
        &mut self,
        frame: &Frame<'a>,
        row: &mut Row<'a>,
        position: usize,
        depth: usize,
    ) -> Result<(), AllocError> {
        let Some(child) = frame.new.node.children.get(position) else {
            return Ok(());
        };
        let lead = row.next(frame, None);
        self.out.push_str(lead.comma)?;
        self.out.push_str(lead.gap)?;
        let piece = GivenValue {
            text: frame.new.text,
            node: &child.node,
        };
        self.push_key(piece.text, child, frame.at.style.colon)?;
        let model = sibling_like(frame.old, child.node.kind);
        self.fresh(piece, model, frame.at.on_line(lead.gap), depth)
    }
}

impl<'a> At<'a> {
    /// Returns the location of a child after this gap.
    fn on_line(self, gap: &'a str) -> At<'a> {
        At {
            indent: indent_after(gap).unwrap_or(self.indent),
            ..self
        }
    }
}

impl<'a> Row<'a> {
    /// Returns what comes before the next child. An old child, at the position, keeps what is before it
    /// if it is not the first one, and takes over the line break before a child that is gone.
    fn next(&mut self, frame: &Frame<'a>, position: Option<usize>) -> Lead<'a> {
        let gone = self.gone;
        let is_first = self.is_empty;
        self.is_empty = false;
        self.gone = "";
        if is_first {
            return Lead {
                comma: "",
                gap: frame.gaps.open,
            };
        }
        match position.and_then(|at| before(frame.text, &frame.old.children, at)) {
            Some(own) if gone.is_empty() || own.contains('\n') => Lead {
                comma: "",
                gap: own,
            },
            Some(_) => Lead {
                comma: "",
                gap: gone,
            },
            None => new_lead(frame),
        }
    }

    /// Notes that a child is gone, and what was before it.
    fn remove(&mut self, before: Option<&'a str>) {
        if let Some(gap) = before {
            if self.gone.is_empty() && gap.contains('\n') {
                self.gone = gap;
            }
        }
    }
}

/// Returns what comes before a child that had nothing before it: what is between its siblings.
fn new_lead<'a>(frame: &Frame<'a>) -> Lead<'a> {
    match frame.gaps.between {
        Some(gap) => Lead { comma: "", gap },
        None => Lead {
            comma: ",",
            gap: if frame.at.is_spread {
                frame.gaps.open
            } else {
                frame.at.style.comma
            },
        },
    }
}

/// Returns one of the last children that is an array or an object of this kind and has children.
fn sibling_like(parent: &TreeNode, kind: NodeKind) -> Option<&TreeNode> {
    let children = parent.children.iter().rev().take(MOST_SIBLINGS);
    for child in children {
        if child.node.kind == kind && !child.node.children.is_empty() {
            return Some(&child.node);
        }
    }
    None
}

/// Returns the opening bracket of an array or an object.
pub fn opening(kind: NodeKind) -> char {
    match kind {
        NodeKind::Object => '{',
        _ => '[',
    }
}

/// Returns the closing bracket of an array or an object.
pub fn closing(kind: NodeKind) -> char {
    match kind {
        NodeKind::Object => '}',
        _ => ']',
    }
}
