//! What goes with a child that is removed from a text with comments. These are hints: no contract says
//! that they are right.

use crate::change::Comma;
use crate::gap::{Gap, end_before, gap_of};
use crate::texts::Texts;
use jsonptr_text_layout::layout::{self, Container};
use jsonptr_text_piece::span::{Span, slice};

/// A child, and what is around it.
#[derive(Clone, Copy, Debug)]
struct Around<'t> {
    /// The text with comments.
    text: &'t str,
    /// The child.
    child: Span,
    /// From the end of the child before it, or the opening bracket, to the next child, or the closing
    /// bracket.
    all: Span,
    /// What is before it.
    before: Gap,
    /// What is after it.
    after: Gap,
    /// Whether it is the first child.
    is_first: bool,
    /// Whether it is the last child.
    is_last: bool,
}

/// What goes from a text with comments.
#[derive(Clone, Copy, Debug)]
pub struct CutChild {
    /// A comma that goes, too.
    pub comma: Comma,
    /// The child, and what goes with it.
    pub span: Span,
    /// What stays of that: comments between the line of the child and a comma after it. Those between the child
    /// and this go.
    pub kept: Span,
}

/// Returns what is removed with the child at the position, or `None` if that is not clear.
pub fn removal(texts: Texts<'_>, container: Container<'_>, position: usize) -> Option<CutChild> {
    let children = container.children;
    let child = children.get(position)?.span;
    let from = end_before(container, position);
    let to = match children.get(position.saturating_add(1)) {
        Some(next) => next.span.from,
        None => container.span.to.saturating_sub(1),
    };
    let around = Around {
        text: texts.text,
        child,
        all: Span { from, to },
        before: gap_of(texts.text, from, child.from),
        after: gap_of(texts.text, child.to, to),
        is_first: position == 0,
        is_last: position.saturating_add(1) == children.len(),
    };
    if around.is_plain() {
        return around.alone(layout::removal(container, position)?);
    }
    around.removal()
}

impl<'t> Around<'t> {
    /// Returns whether there is no comment beside the child, and no trailing comma after it.
    fn is_plain(&self) -> bool {
        let is_trailing = self.is_last && self.after.comma.is_some();
        self.before.comments_end.is_none() && self.after.comments_end.is_none() && !is_trailing
    }

    /// Returns the removal of the span, without a comma elsewhere.
    fn alone(&self, span: Span) -> Option<CutChild> {
        Some(self.whole(Comma::Same, span))
    }

    /// Returns the removal of the whole span, and of the comma. The comments on the line of the child, after it,
    /// go with it.
    fn whole(&self, comma: Comma, span: Span) -> CutChild {
        let end = self.after.tail.min(span.to);
        let kept = Span { from: end, to: end };
        CutChild { comma, span, kept }
    }

    /// Returns what is removed.
    fn removal(&self) -> Option<CutChild> {
        if self.is_first && self.is_last && self.owns_all() {
            return self.alone(self.all);
        }
        if let Some(comma) = self.later_comma() {
            return self.before_later_comma(comma);
        }
        if self.after.ends_line {
            if let Some(start) = self.line_start(self.child.from) {
                return self.line(start);
            }
            if let Some(comma) = self.last_comma() {
                return self.alone(self.line_from(self.comma_start(comma)));
            }
        }
        if self.is_last {
            self.last()
        } else {
            self.not_last()
        }
    }

    /// Returns the offset of the comma after the child, if the child is not the last one and the comma is
    /// on a later line.
    fn later_comma(&self) -> Option<usize> {
        let comma = self.after.comma?;
        if self.is_last || comma < self.after.tail {
            None
        } else {
            Some(comma)
        }
    }

    /// Returns the removal of a child whose comma is on a later line. The comma before the child goes
    /// instead. If there is none, what is between the line of the child and its comma stays, if that has
    /// comments.
    fn before_later_comma(&self, comma: usize) -> Option<CutChild> {
        if self.is_first {
            return self.first_before(comma);
        }
        if let Some(before) = self.comma_beside() {
            return self.alone(self.line_from(self.comma_start(before)));
        }
        let taken = Comma::Taken(self.before.comma?);
        let start = self.line_start(self.child.from);
        let from = start.unwrap_or(self.space_start());
        Some(self.whole(taken, self.line_from(from)))
    }

    /// Returns the removal of the first child, and of the comma at the offset, which is on a later line.
    fn first_before(&self, comma: usize) -> Option<CutChild> {
        let span = Span {
            from: self.child.from,
            to: self.next_after(comma),
        };
        let kept = Span {
            from: self.line_end(),
            to: comma,
        };
        if slice(self.text, kept.from, kept.to).trim().is_empty() {
            return self.alone(span);
        }
        let start = self.line_start(self.child.from);
        let span = Span {
            from: start.unwrap_or(self.space_start()),
            to: span.to,
        };
        let comma = Comma::Same;
        Some(CutChild { comma, span, kept })
    }

    /// Returns the offset of the comma before the child, if only white space is between them.
    fn comma_beside(&self) -> Option<usize> {
        let comma = self.before.comma?;
        let between = slice(self.text, comma.saturating_add(1), self.child.from);
        if between.trim().is_empty() {
            Some(comma)
        } else {
            None
        }
    }

    /// Returns the offset of the comma that begins the line of the last child, if the list has no
    /// trailing comma.
    fn last_comma(&self) -> Option<usize> {
        if !self.is_last || self.after.comma.is_some() {
            return None;
        }
        let comma = self.comma_beside()?;
        self.line_start(comma)?;
        Some(comma)
    }

    /// Returns the offset of the line break before the comma, if only white space is between them, and else
    /// that of the white space before the comma.
    fn comma_start(&self, comma: usize) -> usize {
        match self.line_start(comma) {
            Some(start) => start,
            None => comma.saturating_sub(self.space(comma).len()),
        }
    }

    /// Returns the span from the offset to the end of the line of the child.
    fn line_from(&self, from: usize) -> Span {
        Span {
            from,
            to: self.line_end(),
        }
    }

    /// Returns the offset of what follows the comma after the child and white space.
    fn next_after(&self, comma: usize) -> usize {
        let after = comma.saturating_add(1);
        let rest = slice(self.text, after, self.all.to);
        let space = rest.len().saturating_sub(rest.trim_start().len());
        after.saturating_add(space)
    }

    /// Returns whether each comment around the child is on its line, after it.
    fn owns_all(&self) -> bool {
        let is_last_comment = match self.after.comments_end {
            Some(end) => end <= self.after.tail,
            None => true,
        };
        self.before.comments_end.is_none() && is_last_comment
    }

    /// Returns the removal of the line of the child, which begins at the offset.
    fn line(&self, start: usize) -> Option<CutChild> {
        let span = self.line_from(start);
        if !self.is_last || self.is_first || self.after.comma.is_some() {
            return self.alone(span);
        }
        Some(self.whole(Comma::Taken(self.before.comma?), span))
    }

    /// Returns the removal of the last child, which shares a line with others.
    fn last(&self) -> Option<CutChild> {
        let to = self.after.tail;
        let from = self.space_start();
        if self.is_first || self.after.comma.is_some() {
            return self.alone(Span { from, to });
        }
        if self.before.comments_end.is_none() {
            let from = self.all.from;
            return self.alone(Span { from, to });
        }
        let comma = Comma::Taken(self.before.comma?);
        Some(self.whole(comma, Span { from, to }))
    }

    /// Returns the removal of a child that is not the last one, and shares a line with others.
    fn not_last(&self) -> Option<CutChild> {
        let comma = self.after.comma?;
        if self.after.ends_line {
            return self.alone(self.line_from(self.space_start()));
        }
        self.alone(Span {
            from: self.child.from,
            to: self.next_after(comma),
        })
    }

    /// Returns the offset of the line break before the offset, if only white space is between them.
    fn line_start(&self, offset: usize) -> Option<usize> {
        let space = self.space(offset);
        let at = space.rfind('\n')?;
        let is_pair = slice(space, 0, at).ends_with('\r');
        let start = offset.saturating_sub(space.len()).saturating_add(at);
        Some(if is_pair {
            start.saturating_sub(1)
        } else {
            start
        })
    }

    /// Returns the offset of the line break after the child and what is on its line.
    fn line_end(&self) -> usize {
        let rest = slice(self.text, self.after.tail, self.all.to);
        let space = rest.find(['\n', '\r']).unwrap_or(0);
        self.after.tail.saturating_add(space)
    }

    /// Returns the white space before the offset, which is not after the child.
    fn space(&self, offset: usize) -> &'t str {
        let before = slice(self.text, self.all.from, offset);
        slice(before, before.trim_end().len(), before.len())
    }

    /// Returns the offset of the white space before the child, or of the child if that has a line break.
    fn space_start(&self) -> usize {
        let space = self.space(self.child.from);
        if space.contains('\n') {
            self.child.from
        } else {
            self.child.from.saturating_sub(space.len())
        }
    }
}
