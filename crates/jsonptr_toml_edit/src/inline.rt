//! The elements of arrays and the members of inline tables. These are hints: no contract says that they
//! are right.
use crate::keys::{KeyEnd, KeyPath, follow, is_index};
use crate::skip::{keys_end, value_end};
use crate::span::{skip_blanks, skip_filler};
use jsonptr_text_piece::span::Span;
use std::alloc::{AllocError, Global};
use toml_parser::text::byte_at;

/// An element of an array, or a member of an inline table.
#[derive(Clone, Copy, Debug)]
pub struct InlineChild {
    /// Its number.
    pub index: usize,
    /// All of it.
    pub whole: Span,
    /// Its dotted key, or an empty span.
    pub key: Span,
    /// Its value.
    pub value: Span,
    /// The offset after the comma that follows it.
    pub comma: Option<usize>,
}

/// An array or an inline table that tokens lead to.
#[derive(Debug, Drop)]
pub struct InlineContainer {
    /// Its text.
    pub span: Span,
    /// Its children.
    pub children: Vec<InlineChild>,
    /// How many tokens lead to it.
    pub count: usize,
    /// The child that the tokens lead to, if they lead to one.
    pub found: Option<FoundChild>,
}

/// A child that tokens lead to.
#[derive(Clone, Copy, Debug)]
pub struct FoundChild {
    /// The child.
    pub child: InlineChild,
    /// How many tokens lead to it.
    pub count: usize,
}

/// Returns the children of the array or inline table at the span.
///
/// # Errors
///
/// [`AllocError`] if an allocation fails.
pub fn children_of(alloc: Global, text: &str, span: Span) -> Result<Vec<InlineChild>, AllocError> {
    let is_table = byte_at(text, span.from) == b'{';
    let mut children = Vec::new(alloc);
    let mut at = span.from.saturating_add(1);
    for _child in span.from..span.to {
        at = skip_filler(text, at);
        if at.saturating_add(1) >= span.to {
            break;
        }
        let child = child_at(text, at, is_table, children.len());
        at = child.comma.unwrap_or(child.whole.to);
        children.push(child)?;
        if child.comma.is_none() {
            break;
        }
    }
    Ok(children)
}

/// Returns the child that begins at the offset.
fn child_at(text: &str, at: usize, is_member: bool, index: usize) -> InlineChild {
    let to = if is_member { keys_end(text, at) } else { at };
    let from = if is_member {
        skip_blanks(text, skip_blanks(text, to).saturating_add(1))
    } else {
        at
    };
    let end = value_end(text, from);
    let next = skip_filler(text, end);
    let comma = if byte_at(text, next) == b',' {
        Some(next.saturating_add(1))
    } else {
        None
    };
    InlineChild {
        index,
        whole: Span { from: at, to: end },
        key: Span { from: at, to },
        value: Span { from, to: end },
        comma,
    }
}

/// Returns the child that the next tokens lead to.
fn find_child(
    alloc: Global,
    text: &str,
    children: &Vec<InlineChild>,
    path: &KeyPath,
    count: usize,
) -> Result<Option<FoundChild>, AllocError> {
    for child in children.iter() {
        if let Some(count) = follow_child(alloc, text, child, path, count)? {
            return Ok(Some(FoundChild {
                child: *child,
                count,
            }));
        }
    }
    Ok(None)
}

/// Returns how many tokens lead to the child, if they lead there.
fn follow_child(
    alloc: Global,
    text: &str,
    child: &InlineChild,
    path: &KeyPath,
    count: usize,
) -> Result<Option<usize>, AllocError> {
    if child.key.from == child.key.to {
        return Ok(match path.tokens.get(count) {
            Some(token) if is_index(token.as_str(), child.index) => Some(count.saturating_add(1)),
            _ => None,
        });
    }
    let reach = follow(alloc, text, child.key, path, count)?;
    Ok(if reach.ending == KeyEnd::Whole {
        Some(reach.count)
    } else {
        None
    })
}

/// Returns the array or inline table at the span, to which so many tokens lead.
fn container_at(
    alloc: Global,
    text: &str,
    span: Span,
    path: &KeyPath,
    count: usize,
) -> Result<InlineContainer, AllocError> {
    let children = children_of(alloc, text, span)?;
    let found = find_child(alloc, text, &children, path, count)?;
    Ok(InlineContainer {
        span,
        children,
        count,
        found,
    })
}

/// Returns the innermost array or inline table that the tokens lead to in the value at the span, to
/// which so many tokens lead. Returns `None` if the value is neither.
///
/// # Errors
///
/// [`AllocError`] if an allocation fails.
pub fn container_of(
    alloc: Global,
    text: &str,
    value: Span,
    path: &KeyPath,
    count: usize,
) -> Result<Option<InlineContainer>, AllocError> {
    let mut here = None;
    let mut span = value;
    let mut reached = count;
    for _token in count..=path.tokens.len() {
        let first = byte_at(text, span.from);
        if first != b'[' && first != b'{' {
            break;
        }
        let container = container_at(alloc, text, span, path, reached)?;
        let found = container.found;
        here = Some(container);
        match found {
            Some(found) if found.count < path.tokens.len() => {
                span = found.child.value;
                reached = found.count;
            }
            _ => break,
        }
    }
    Ok(here)
}
