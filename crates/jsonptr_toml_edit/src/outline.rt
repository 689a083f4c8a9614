//! How the headers and pairs of a text lie beside the tokens of a pointer. These are hints: no contract
//! says that they are right.
use crate::items::{ItemKind, TomlItem, items_of};
use crate::keys::{KeyEnd, KeyPath, enter_element, follow, key_path_of, pointer_of, push_token};
use crate::span::{skip_blanks, slice};
use jsonptr::{Pointer, PointerBuf};
use jsonptr_text_piece::span::Span;
use std::alloc::{AllocError, Global};

/// How an item lies beside the tokens.
#[derive(Clone, Copy, Debug, PartialEq, Eq)]
pub enum Role {
    /// It leads elsewhere.
    Outside,
    /// It is the header of a table that the tokens lead through.
    Above,
    /// It is the pair whose value the tokens lead into.
    Through,
    /// It is the pair whose value the tokens lead to.
    Exact,
    /// It is in the table or array that the tokens lead to.
    Inside,
}

/// How an item lies beside the tokens.
#[derive(Clone, Copy, Debug)]
pub struct Trace {
    /// How it lies.
    pub role: Role,
    /// How many tokens lead to the table of a pair, if they lead there.
    pub table: Option<usize>,
    /// How many tokens its keys lead along, with those of the header.
    pub shared: usize,
}

/// Some items, one after another.
#[derive(Clone, Copy, Debug)]
pub struct ItemRun {
    /// The number of the first one.
    pub first: usize,
    /// The number of the last one.
    pub last: usize,
}

/// The items of a text, and how each lies beside the tokens.
#[derive(Debug, Drop)]
pub struct Outline {
    /// The tokens.
    pub path: KeyPath,
    /// The items.
    pub items: Vec<TomlItem>,
    /// How each of them lies.
    pub traces: Vec<Trace>,
}

/// Returns the outline of the text for the pointer.
///
/// # Errors
///
/// [`AllocError`] if an allocation fails.
pub fn outline_of(alloc: Global, text: &str, pointer: Pointer<'_>) -> Result<Outline, AllocError> {
    let mut path = key_path_of(alloc, pointer)?;
    let items = items_of(alloc, text)?;
    let mut traces = Vec::with_capacity(alloc, items.len())?;
    let mut header = Trace {
        role: Role::Above,
        table: None,
        shared: 0,
    };
    for item in &items {
        let trace = if item.kind == ItemKind::Pair {
            trace_pair(alloc, text, item, &path, header)?
        } else {
            header = trace_header(alloc, text, item, &mut path)?;
            header
        };
        traces.push(trace)?;
    }
    Ok(Outline {
        path,
        items,
        traces,
    })
}

/// Returns how a pair lies, below a header.
fn trace_pair(
    alloc: Global,
    text: &str,
    item: &TomlItem,
    path: &KeyPath,
    header: Trace,
) -> Result<Trace, AllocError> {
    if header.role != Role::Above {
        return Ok(header);
    }
    let reach = follow(alloc, text, item.key, path, header.shared)?;
    let role = match reach.ending {
        KeyEnd::Whole if reach.count == path.tokens.len() => Role::Exact,
        KeyEnd::Whole => Role::Through,
        KeyEnd::Deeper => Role::Inside,
        KeyEnd::Beside => Role::Outside,
    };
    Ok(Trace {
        role,
        table: Some(header.shared),
        shared: reach.count,
    })
}

/// Returns how a header lies. Counts the table if it is one of an array.
fn trace_header(
    alloc: Global,
    text: &str,
    item: &TomlItem,
    path: &mut KeyPath,
) -> Result<Trace, AllocError> {
    let mut reach = follow(alloc, text, item.key, path, 0)?;
    if reach.ending == KeyEnd::Whole {
        if item.kind == ItemKind::Element {
            if let Some(tables) = path.counts.get_mut(reach.count) {
                *tables = tables.saturating_add(1);
            }
        }
        reach = enter_element(path, reach.count);
    }
    let role = match reach.ending {
        KeyEnd::Whole if reach.count < path.tokens.len() => Role::Above,
        KeyEnd::Beside => Role::Outside,
        _ => Role::Inside,
    };
    Ok(Trace {
        role,
        table: None,
        shared: reach.count,
    })
}

impl Outline {
    /// Returns how many tokens there are.
    pub fn count(&self) -> usize {
        self.path.tokens.len()
    }

    /// Returns how many tokens lead to the table of the item.
    pub fn table_of(&self, index: usize) -> usize {
        match self.traces.get(index) {
            Some(trace) => trace.table.unwrap_or(0),
            None => 0,
        }
    }

    /// Returns the first item with the role.
    pub fn first_with(&self, role: Role) -> Option<usize> {
        self.traces.iter().position(|trace| trace.role == role)
    }

    /// Returns the numbers of the first and the last item in the value that the tokens lead to, if there
    /// are such items and no others are between them.
    pub fn run(&self) -> Option<ItemRun> {
        let first = self.first_with(Role::Inside)?;
        let mut last = first;
        for (index, trace) in self.traces.iter().enumerate() {
            if trace.role == Role::Inside {
                if index > last.saturating_add(1) {
                    return None;
                }
                last = index;
            }
        }
        Some(ItemRun { first, last })
    }

    /// Returns the last item that leads along at least so many tokens.
    pub fn last_sharing(&self, count: usize) -> Option<usize> {
        self.traces.iter().rposition(|trace| trace.shared >= count)
    }

    /// Returns whether an item that is not between the two numbers leads along at least so many tokens.
    pub fn is_mentioned(&self, count: usize, run: ItemRun) -> bool {
        self.traces.iter().enumerate().any(|(index, trace)| {
            trace.shared >= count && (index < run.first || index > run.last)
        })
    }

    /// Returns whether the table that so many tokens lead to has a header.
    pub fn has_header(&self, count: usize) -> bool {
        self.traces
            .iter()
            .any(|trace| trace.role == Role::Above && trace.shared == count)
    }

    /// Returns how many tokens lead to the table with a header that the last of so many tokens is a key in,
    /// or 0 if it has none.
    pub fn table_above(&self, count: usize) -> usize {
        let above = count.saturating_sub(1);
        if self.has_header(above) { above } else { 0 }
    }

    /// Returns whether the token is an index of an array of tables.
    pub fn is_element(&self, index: usize) -> bool {
        self.path.counts.get(index).copied().unwrap_or(0) > 0
    }

    /// Returns the keys that lead along the first tokens in headers: an index of an array of tables is left out,
    /// and is `-` at the end.
    ///
    /// # Errors
    ///
    /// [`AllocError`] if an allocation fails.
    pub fn header_keys(&self, alloc: Global, count: usize) -> Result<PointerBuf, AllocError> {
        let mut keys = PointerBuf::new(alloc);
        for (index, token) in self.path.tokens.iter().take(count).enumerate() {
            if !self.is_element(index) {
                push_token(alloc, &mut keys, token.as_str())?;
            } else if index.saturating_add(1) == count {
                push_token(alloc, &mut keys, "-")?;
            }
        }
        Ok(keys)
    }

    /// Returns a pointer of the tokens from the number on.
    ///
    /// # Errors
    ///
    /// [`AllocError`] if an allocation fails.
    pub fn last_keys(&self, alloc: Global, from: usize) -> Result<PointerBuf, AllocError> {
        self.keys_between(alloc, from, self.count())
    }

    /// Returns a pointer of the tokens between the two numbers.
    ///
    /// # Errors
    ///
    /// [`AllocError`] if an allocation fails.
    pub fn keys_between(
        &self,
        alloc: Global,
        from: usize,
        to: usize,
    ) -> Result<PointerBuf, AllocError> {
        pointer_of(alloc, &self.path.tokens, from, to)
    }
}

/// Returns the white space before an item on its line.
pub fn indent_of<'t>(text: &'t str, item: &TomlItem) -> &'t str {
    let indent = Span {
        from: item.line,
        to: skip_blanks(text, item.line),
    };
    slice(text, indent)
}
