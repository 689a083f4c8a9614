//! What an edit did to a text without comments, as a change of the text with them. These are hints: no contract
//! says that they are right.

use crate::add::addition;
use crate::change::{Change, Comma, Kind};
use crate::child::CommentedChild;
use crate::remove::removal;
use crate::texts::Texts;
use jsonptr_text_layout::layout::Container;
use jsonptr_text_piece::span::slice;
use jsonptr_text_step::plan::{AddedChild, Plan, RemovedChild, ReplacedValue};
use std::alloc::{AllocError, Global};

/// Returns the change of the text with comments that does what was done to the text without them, or `None` if
/// that is not clear.
///
/// # Errors
///
/// [`AllocError`] if an allocation fails.
pub fn adjusted(alloc: Global, texts: Texts<'_>, plan: Plan) -> Result<Option<Change>, AllocError> {
    match plan {
        // A renaming changes a name alone: see `rename.rt`.
        Plan::Unchanged | Plan::Renamed(_) => Ok(None),
        Plan::Replaced(replaced) => Ok(Some(replacing(replaced))),
        Plan::Added(added) => Ok(Some(adding(alloc, texts, &added)?)),
        Plan::Removed(removed) => removing(alloc, texts, removed),
    }
}

/// Returns the change that replaces a value.
fn replacing(replaced: ReplacedValue) -> Change {
    let ReplacedValue {
        value,
        depth,
        piece,
    } = replaced;
    Change {
        comma: Comma::Same,
        replaced: value,
        kind: Kind::Value(depth),
        piece,
    }
}

/// Returns the change that adds a child.
fn adding(alloc: Global, texts: Texts<'_>, added: &AddedChild) -> Result<Change, AllocError> {
    let container = Container {
        text: texts.bare,
        span: added.container,
        children: added.children.as_slice(),
    };
    addition(alloc, texts, container, added.position, &added.piece)
}

/// Returns the change that removes a child, or `None` if others with its key went with it.
fn removing(
    alloc: Global,
    texts: Texts<'_>,
    removed: RemovedChild,
) -> Result<Option<Change>, AllocError> {
    if removed.others > 0 {
        return Ok(None);
    }
    let RemovedChild {
        container,
        children,
        position,
        key,
        ..
    } = removed;
    let there = Container {
        text: texts.bare,
        span: container,
        children: children.as_slice(),
    };
    let Some(child) = there.children.get(position) else {
        return Ok(None);
    };
    let Some(removal) = removal(texts, there, position) else {
        return Ok(None);
    };
    let kept = removal.kept;
    Ok(Some(Change {
        comma: removal.comma,
        replaced: removal.span,
        kind: Kind::Child(CommentedChild {
            at: *child,
            key,
            kept,
        }),
        piece: String::from_str(alloc, slice(texts.text, kept.from, kept.to))?,
    }))
}
