//! Where a text names a member of a table. These are hints: no contract says that they are right.
use crate::inline::{InlineChild, children_of};
use crate::items::{ItemKind, TomlItem, items_of};
use crate::keys::{KeyEnd, KeyPath, Reach, enter_element, is_index, key_path_of, step};
use crate::skip::{after_dot, key_end};
use crate::span::slice;
use jsonptr::Pointer;
use jsonptr_text_piece::span::Span;
use std::alloc::{AllocError, Global};
use toml_parser::text::byte_at;

/// How far a dotted key leads.
#[derive(Clone, Copy, Debug)]
struct Lead {
    /// How far.
    reach: Reach,
    /// The part of it that is the last token.
    part: Option<Span>,
}

/// Returns where the text names the member that the pointer resolves to, in order: in each header and
/// each dotted key that leads to it or through it.
///
/// # Errors
///
/// [`AllocError`] if an allocation fails.
pub fn mentions_of(
    alloc: Global,
    text: &str,
    pointer: Pointer<'_>,
) -> Result<Vec<Span>, AllocError> {
    let mut path = key_path_of(alloc, pointer)?;
    let items = items_of(alloc, text)?;
    let mut parts = Vec::new(alloc);
    let mut above = Reach {
        count: 0,
        ending: KeyEnd::Whole,
    };
    for item in &items {
        if item.kind != ItemKind::Pair {
            above = enter_header(alloc, text, item, &mut path, &mut parts)?;
        } else if above.ending == KeyEnd::Whole {
            let lead = lead_of(alloc, text, item.key, &path, above.count)?;
            add_part(&mut parts, lead.part)?;
            if lead.reach.ending == KeyEnd::Whole {
                enter_value(alloc, text, item.value, &path, lead.reach.count, &mut parts)?;
            }
        }
    }
    Ok(parts)
}

/// Adds the part, if there is one.
fn add_part(parts: &mut Vec<Span>, part: Option<Span>) -> Result<(), AllocError> {
    if let Some(part) = part {
        parts.push(part)?;
    }
    Ok(())
}

/// Returns how far the keys below the header lead, and adds the part of it that names the member. Counts
/// the table if it is one of an array.
fn enter_header(
    alloc: Global,
    text: &str,
    item: &TomlItem,
    path: &mut KeyPath,
    parts: &mut Vec<Span>,
) -> Result<Reach, AllocError> {
    let lead = lead_of(alloc, text, item.key, path, 0)?;
    add_part(parts, lead.part)?;
    if lead.reach.ending != KeyEnd::Whole {
        return Ok(lead.reach);
    }
    if item.kind == ItemKind::Element {
        if let Some(tables) = path.counts.get_mut(lead.reach.count) {
            *tables = tables.saturating_add(1);
        }
    }
    Ok(enter_element(path, lead.reach.count))
}

/// Returns how far the dotted key leads along the tokens, from the first ones on that lead to it.
fn lead_of(
    alloc: Global,
    text: &str,
    key: Span,
    path: &KeyPath,
    from: usize,
) -> Result<Lead, AllocError> {
    let mut lead = Lead {
        reach: Reach {
            count: from,
            ending: KeyEnd::Whole,
        },
        part: None,
    };
    let mut next = key.from;
    for _key in key.from..=key.to {
        let part = Span {
            from: next,
            to: key_end(text, next),
        };
        lead.reach = step(alloc, slice(text, part), path, lead.reach.count)?;
        if lead.reach.ending != KeyEnd::Whole {
            break;
        }
        if lead.reach.count == path.tokens.len() {
            lead.part = Some(part);
            break;
        }
        match after_dot(text, part.to) {
            Some(at) => next = at,
            None => break,
        }
    }
    Ok(lead)
}

/// Adds where the value at the span, to which so many tokens lead, names the member: in inline tables.
fn enter_value(
    alloc: Global,
    text: &str,
    value: Span,
    path: &KeyPath,
    count: usize,
    parts: &mut Vec<Span>,
) -> Result<(), AllocError> {
    let mut span = value;
    let mut reached = count;
    for _token in count..path.tokens.len() {
        let first = byte_at(text, span.from);
        if first != b'[' && first != b'{' {
            break;
        }
        let children = children_of(alloc, text, span)?;
        let mut inner = None;
        for child in children.iter() {
            let lead = lead_of_child(alloc, text, child, path, reached)?;
            add_part(parts, lead.part)?;
            if lead.reach.ending == KeyEnd::Whole && lead.reach.count < path.tokens.len() {
                inner = Some((child.value, lead.reach.count));
            }
        }
        match inner {
            Some((value, count)) => {
                span = value;
                reached = count;
            }
            None => break,
        }
    }
    Ok(())
}

/// Returns how far the key or the index of the child leads along the tokens.
fn lead_of_child(
    alloc: Global,
    text: &str,
    child: &InlineChild,
    path: &KeyPath,
    count: usize,
) -> Result<Lead, AllocError> {
    if child.key.from < child.key.to {
        return lead_of(alloc, text, child.key, path, count);
    }
    let reach = match path.tokens.get(count) {
        Some(token) if is_index(token.as_str(), child.index) => Reach {
            count: count.saturating_add(1),
            ending: KeyEnd::Whole,
        },
        _ => Reach {
            count,
            ending: KeyEnd::Beside,
        },
    };
    Ok(Lead { reach, part: None })
}
