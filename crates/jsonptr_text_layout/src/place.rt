//! Where a value and its children are in a text. These are hints: no contract says that they are
//! right, and the check of an edit (`jsonptr_text_check`) judges what is made of them.
ghost use Rattle.std.specs.Prelude.{◌<◌, length, OnOk};

use json::{Reader, Scratch, Token};
use jsonptr_text_piece::buffers::Buffers;
use jsonptr_text_piece::child::{Child, end_of_value};
use jsonptr_text_piece::spacing::is_space;
use jsonptr_text_piece::span::Span;
use jsonptr_text_search::scalar::is_scalar;
use jsonptr_text_search::selector::Selector;
use jsonptr_value::{MAX_DEPTH, ReadError, if_json};
use std::alloc::{AllocError, Global};

/// Where selectors lead in a text.
#[derive(Debug, Drop)]
pub struct Place {
    /// The value that the last selector that was followed leads to.
    pub value: Span,
    /// The array or object that the last selector leads to a child of.
    pub container: Span,
    /// How many selectors were followed.
    pub depth: usize,
    /// The position, among all children, of each child on the way.
    pub positions: Vec<usize>,
    /// The positions of all children that the last selector selects. Members can have the same key.
    pub duplicates: Vec<usize>,
}

/// Returns where the selectors lead in the text, as far as they do, or `None` if the text is not JSON.
///
/// # Errors
///
/// [`AllocError`] if an allocation fails.
///
/// # Examples
///
/// ```rust
/// let mut buffers = Buffers::new(alloc);
/// let selectors = vec![in alloc; Selector { key: String::new(alloc), index: Some(1) }]?;
/// let place = place_of(&mut buffers, "[1, 2.0]", &selectors)?.ok_or("a place")?;
/// assert_eq!(rt; (place.value.from, place.value.to, place.depth), (4, 7, 1));
/// ```
pub fn place_of(
    buffers: &mut Buffers,
    text: &str,
    selectors: &[Selector],
) -> Result<Option<Place>, AllocError> {
    let alloc = buffers.alloc;
    if_json(locate(alloc, &mut buffers.old, text, selectors))
}

/// Returns where all of the selectors lead in the text, or `None` if they lead to no value or the text is
/// not JSON.
///
/// # Errors
///
/// [`AllocError`] if an allocation fails.
pub fn place_at(
    buffers: &mut Buffers,
    text: &str,
    selectors: &[Selector],
) -> Result<Option<Place>, AllocError> {
    let Some(place) = place_of(buffers, text, selectors)? else {
        return Ok(None);
    };
    if place.depth == selectors.len() {
        Ok(Some(place))
    } else {
        Ok(None)
    }
}

/// Returns where the children of the array or object at the span are, or `None` if it is neither.
///
/// # Errors
///
/// [`AllocError`] if an allocation fails.
///
/// # Examples
///
/// ```rust
/// let mut buffers = Buffers::new(alloc);
/// let whole = Span { from: 0, to: 8 };
/// let children = children_of(&mut buffers, r#"{"a": 1}"#, whole)?.ok_or("an object")?;
/// assert_eq!(rt; (children[0].span.from, children[0].span.to, children[0].value), (1, 7, 6));
/// ```
pub fn children_of(
    buffers: &mut Buffers,
    text: &str,
    span: Span,
) -> Result<Option<Vec<Child>>, AllocError> {
    let alloc = buffers.alloc;
    if_json(children(alloc, &mut buffers.old, text, span))
}

/// Returns where the selectors lead in the text, as far as they do.
///
/// # Errors
///
/// [`ReadError::NotJson`] if the text is not JSON, and [`ReadError::Memory`] if an allocation fails.
fn locate(
    alloc: Global,
    scratch: &mut Scratch,
    text: &str,
    selectors: &[Selector],
) -> Result<Place, ReadError> {
    let all = Span { from: 0, to: 0 };
    let mut search = Search {
        text,
        reader: Reader::new(text, scratch)?,
        place: Place {
            value: all,
            container: all,
            depth: 0,
            positions: Vec::new(alloc),
            duplicates: Vec::new(alloc),
        },
    };
    find(&mut search, MAX_DEPTH, selectors, 0)?;
    Ok(search.place)
}

/// A search for the value that selectors lead to.
#[derive(Drop)]
struct Search<'t> {
    /// The whole text.
    text: &'t str,
    /// What is left of the text.
    reader: Reader<'t>,
    /// What was found so far.
    place: Place,
}

/// Follows the selectors in the next value, of which `level` were followed before.
#[cycle(find)]
fn find(
    search: &mut Search<'_>,
    depth: usize,
    selectors: &[Selector],
    level: usize,
) -> Result<(), ReadError>
    ensures shorter { OnOk result (length search.new.reader < length search.old.reader) }
{
    let from = search.reader.offset();
    let Some((selector, rest)) = selectors.split_first() else {
        search.reader.skip_value(depth)?;
        search.place.value = search.span_from(from);
        search.place.depth = level;
        return Ok(());
    };
    let Some(token) = search.reader.next() else {
        return Err(ReadError::NotJson);
    };
    let entered = match token {
        Token::BeginArray => {
            if depth == 0 {
                return Err(ReadError::NotJson);
            }
            find_element(search, depth - 1, selector, rest, level)?
        }
        Token::BeginObject => {
            if depth == 0 {
                return Err(ReadError::NotJson);
            }
            find_member(search, depth - 1, selector, rest, level)?
        }
        _ => {
            if !is_scalar(token) {
                return Err(ReadError::NotJson);
            }
            false
        }
    };
    if !entered {
        search.place.value = search.span_from(from);
        search.place.depth = level;
    } else if rest.is_empty() {
        search.place.container = search.span_from(from);
    }
    Ok(())
}

impl<'t> Search<'t> {
    /// Returns where the value is that begins at the offset and was read last.
    fn span_from(&self, from: usize) -> Span {
        let to = end_of_value(self.text.as_bytes(), self.reader.offset());
        Span { from, to }
    }
}

/// Follows the selector and the others in the elements of an array. Returns whether there is such
/// an element.
#[cycle(find)]
fn find_element(
    search: &mut Search<'_>,
    depth: usize,
    selector: &Selector,
    rest: &[Selector],
    level: usize,
) -> Result<bool, ReadError>
    ensures shorter { OnOk result (length search.new.reader < length search.old.reader) }
{
    let mut entered = false;
    let mut count = 0usize;
    'elements: while !search.reader.take_end_array() {
        if selector.index == Some(count) {
            note(&mut search.place, level, count, rest.is_empty())?;
            find(search, depth, rest, level.saturating_add(1))?;
            entered = true;
        } else {
            search.reader.skip_value(depth)?;
        }
        count = count.saturating_add(1);
    }
    Ok(entered)
}

/// Follows the selector and the others in the members of an object, in the last one with the key.
/// Returns whether there is such a member.
#[cycle(find)]
fn find_member(
    search: &mut Search<'_>,
    depth: usize,
    selector: &Selector,
    rest: &[Selector],
    level: usize,
) -> Result<bool, ReadError>
    ensures shorter { OnOk result (length search.new.reader < length search.old.reader) }
{
    let mut entered = false;
    let mut count = 0usize;
    'members: while let Some(name) = search.reader.next_key()? {
        if name == selector.key.as_str() {
            note(&mut search.place, level, count, rest.is_empty())?;
            find(search, depth, rest, level.saturating_add(1))?;
            entered = true;
        } else {
            search.reader.skip_value(depth)?;
        }
        count = count.saturating_add(1);
    }
    Ok(entered)
}

/// Returns where the children of the array or object at the span are.
///
/// # Errors
///
/// [`ReadError::NotJson`] if it is not an array or an object, and [`ReadError::Memory`] if an
/// allocation fails.
fn children(
    alloc: Global,
    scratch: &mut Scratch,
    text: &str,
    span: Span,
) -> Result<Vec<Child>, ReadError> {
    let container = text.get(span.from..span.to).unwrap_or("");
    let mut reader = Reader::new(container, scratch)?;
    match reader.next() {
        Some(Token::BeginArray) => elements(alloc, &mut reader, text, span.from),
        Some(Token::BeginObject) => members(alloc, &mut reader, text, span.from),
        _ => Err(ReadError::NotJson),
    }
}

/// Returns where the elements of an array are. The reader's text begins at `base`.
fn elements(
    alloc: Global,
    reader: &mut Reader<'_>,
    text: &str,
    base: usize,
) -> Result<Vec<Child>, ReadError> {
    let mut children = Vec::new(alloc);
    'elements: while !reader.take_end_array() {
        let from = base.saturating_add(reader.offset());
        reader.skip_value(MAX_DEPTH)?;
        let to = end_of_value(text.as_bytes(), base.saturating_add(reader.offset()));
        let value = from;
        append(
            &mut children,
            Child {
                span: Span { from, to },
                value,
            },
        )?;
    }
    Ok(children)
}

/// Returns where the members of an object are. The reader's text begins at `base`.
fn members(
    alloc: Global,
    reader: &mut Reader<'_>,
    text: &str,
    base: usize,
) -> Result<Vec<Child>, ReadError> {
    let mut children = Vec::new(alloc);
    let mut from = base.saturating_add(reader.offset());
    'members: while let Some(_) = reader.next_key()? {
        let value = base.saturating_add(reader.offset());
        reader.skip_value(MAX_DEPTH)?;
        let to = end_of_value(text.as_bytes(), base.saturating_add(reader.offset()));
        append(
            &mut children,
            Child {
                span: Span { from, to },
                value,
            },
        )?;
        from = base.saturating_add(reader.offset());
    }
    Ok(children)
}

/// Notes that the selector of this level selects the child at the position: it replaces what was
/// noted of an earlier child.
fn note(place: &mut Place, level: usize, position: usize, last: bool) -> Result<(), AllocError> {
    place.positions.truncate(level);
    place.positions.push(position)?;
    if last {
        place.duplicates.push(position)?;
    } else {
        place.duplicates.clear();
    }
    Ok(())
}

/// Appends a child.
fn append(children: &mut Vec<Child>, child: Child) -> Result<(), AllocError> {
    children.push(child)?;
    Ok(())
}
