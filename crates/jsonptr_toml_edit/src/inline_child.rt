//! Where an element of an array or a member of an inline table is put in. These are hints: no contract
//! says that they are right.
use crate::inline::{InlineChild, InlineContainer, container_of};
use crate::keys::push_keys;
use crate::outline::{Outline, Role};
use crate::plan::{AdditionPlan, Keys, TomlChild};
use crate::span::{
    ends_line, is_comment_line, is_tight, line_end, line_start, newline_of, skip_blanks, slice,
};
use jsonptr_text_piece::span::Span;
use std::alloc::{AllocError, Global};
use toml::Value;
use toml_parser::text::byte_at;

/// A child that is added. It owns the texts.
#[derive(Debug, Drop)]
struct Added {
    /// What stays between the two texts.
    span: Span,
    /// The text before that.
    lead: String,
    /// The text after that, up to the child.
    gap: String,
    /// The text after the child.
    tail: &'static str,
}

/// Returns how a child is added to the array or inline table that so many tokens lead to.
///
/// # Errors
///
/// [`AllocError`] if an allocation fails.
pub fn add_child(
    alloc: Global,
    text: &str,
    outline: &Outline,
    count: usize,
    value: &Value,
) -> Result<Option<AdditionPlan>, AllocError> {
    let Some(container) = innermost(alloc, text, outline)? else {
        return Ok(None);
    };
    let is_member = byte_at(text, container.span.from) == b'{';
    let is_element = container.count == count && count.saturating_add(1) == outline.count();
    if container.found.is_some() || !(is_member || is_element) {
        return Ok(None);
    }
    let mut child = String::new(alloc);
    let mut keys = Keys::None;
    if is_member {
        push_keys(
            alloc,
            &mut child,
            &outline.path.tokens,
            container.count,
            outline.count(),
        )?;
        child.push_str(equals_in(text, &container))?;
        keys = Keys::Some(outline.last_keys(alloc, container.count)?);
    }
    child.push_str(value.to_string(alloc)?.as_str())?;
    let added = match container.children.last() {
        Some(last) => after_child(alloc, text, &container, last)?,
        None => first_child(alloc, text, container.span, is_member)?,
    };
    Ok(Some(addition_of(added, child.as_str(), keys)?))
}

/// Returns the equals sign of the last member, with the white space that is usual there.
fn equals_in(text: &str, container: &InlineContainer) -> &'static str {
    match container.children.last() {
        Some(last) if is_tight(text, last.key, last.value) => "=",
        _ => " = ",
    }
}

/// Returns the innermost array or inline table that the tokens lead to.
fn innermost(
    alloc: Global,
    text: &str,
    outline: &Outline,
) -> Result<Option<InlineContainer>, AllocError> {
    let Some(index) = outline.first_with(Role::Through) else {
        return Ok(None);
    };
    match (outline.items.get(index), outline.traces.get(index)) {
        (Some(item), Some(trace)) => {
            container_of(alloc, text, item.value, &outline.path, trace.shared)
        }
        _ => Ok(None),
    }
}

/// Returns the addition of the child, at the keys.
fn addition_of(added: Added, child: &str, keys: Keys) -> Result<AdditionPlan, AllocError> {
    let kept = added.span.to.saturating_sub(added.span.from);
    let before = added.lead.len().saturating_add(kept);
    let from = before.saturating_add(added.gap.len());
    let mut rest = added.gap;
    rest.push_str(child)?;
    rest.push_str(added.tail)?;
    Ok(AdditionPlan {
        span: added.span,
        lead: added.lead,
        rest,
        child: TomlChild {
            span: Span {
                from,
                to: from.saturating_add(child.len()),
            },
            keys,
        },
    })
}

/// Returns the first child of an array or inline table: on a line of its own, if the brackets are on
/// several lines.
fn first_child(
    alloc: Global,
    text: &str,
    container: Span,
    is_member: bool,
) -> Result<Added, AllocError> {
    let after = container.from.saturating_add(1);
    let is_closed = byte_at(text, after) == b'}';
    let is_blank = skip_blanks(text, after) > after;
    if !is_member && ends_line(text, after) {
        let at = line_end(text, after);
        let line = line_start(text, container.from);
        let indent = Span {
            from: line,
            to: skip_blanks(text, line),
        };
        let mut gap = String::from_str(alloc, newline_of(text))?;
        gap.push_str(slice(text, indent))?;
        gap.push_str("    ")?;
        return Ok(Added {
            span: Span { from: at, to: at },
            lead: String::new(alloc),
            gap,
            tail: ",",
        });
    }
    Ok(Added {
        span: Span {
            from: after,
            to: after,
        },
        lead: String::new(alloc),
        gap: String::from_str(alloc, if is_member || is_blank { " " } else { "" })?,
        tail: if is_member && is_closed { " " } else { "" },
    })
}

/// Returns a child after another one: on a line of its own, if that has one, or on the same line.
fn after_child(
    alloc: Global,
    text: &str,
    container: &InlineContainer,
    last: &InlineChild,
) -> Result<Added, AllocError> {
    let line = line_start(text, last.whole.from);
    let after = last.comma.unwrap_or(last.whole.to);
    let is_own_line = line > container.span.from && skip_blanks(text, line) == last.whole.from;
    if !is_own_line || !ends_line(text, after) {
        return beside_child(alloc, text, container, last);
    }
    let mut gap = String::from_str(alloc, newline_of(text))?;
    let indent = Span {
        from: line,
        to: last.whole.from,
    };
    gap.push_str(slice(text, indent))?;
    let end = line_end(text, after);
    let (from, to) = if last.comma.is_some() {
        (end, end)
    } else if is_comment_line(text, after) {
        (after, end)
    } else {
        (after, after)
    };
    Ok(Added {
        span: Span { from, to },
        lead: String::from_str(alloc, if last.comma.is_some() { "" } else { "," })?,
        gap,
        tail: if last.comma.is_some() { "," } else { "" },
    })
}

/// Returns a child on the line of another one.
fn beside_child(
    alloc: Global,
    text: &str,
    container: &InlineContainer,
    last: &InlineChild,
) -> Result<Added, AllocError> {
    let at = last.comma.unwrap_or(last.whole.to);
    let mut gap = String::from_str(alloc, if last.comma.is_some() { "" } else { "," })?;
    gap.push_str(space_before(text, container, last))?;
    Ok(Added {
        span: Span { from: at, to: at },
        lead: String::new(alloc),
        gap,
        tail: if last.comma.is_some() { "," } else { "" },
    })
}

/// Returns the white space before the child, after a comma on the same line. Returns a space where no
/// comma is there.
fn space_before<'t>(text: &'t str, container: &InlineContainer, child: &InlineChild) -> &'t str {
    let Some(before) = child.index.checked_sub(1) else {
        return " ";
    };
    match container.children.get(before).and_then(|it| it.comma) {
        Some(comma) if skip_blanks(text, comma) == child.whole.from => slice(
            text,
            Span {
                from: comma,
                to: child.whole.from,
            },
        ),
        _ => " ",
    }
}
