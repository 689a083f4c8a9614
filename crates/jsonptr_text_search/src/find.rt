//! Searching a text for one value.
ghost use Rattle.std.specs.Prelude.{◌≡◌, ◌<◌, ◌≤◌, ◌^◌, ◌↔◌, length, Some, Err, MatchOption, IfOk, OnOk, IsTrue};
ghost use Rattle.serde_json.specs.Data.{Data, Items, Members};
ghost use Rattle.serde_json.specs.Find.{get_member};
ghost use Rattle.serde_json.specs.Read.{max_depth, read as spec_read};
ghost use Rattle.jsonptr_text_search.specs.Reading.{ReadsTokens, Unreadable, ReadsItems, UnreadableItems, ReadsMembers, UnreadableMembers};
ghost use Rattle.jsonptr_text_search.specs.Search.{choices, items_count, element, IsOutcome, IsChildOutcome, Visits};
ghost use Rattle.jsonptr_text_search.specs.declared.outcome.Outcome.TheVariants.{Stopped};

use crate::decide::is_text;
use crate::outcome::{Kind, Outcome};
use crate::read::read;
use crate::scalar::is_scalar;
use crate::selector::Selector;
use crate::skip::skip;
use json::{Reader, Scratch, Token};
use jsonptr_value::{MAX_DEPTH, ReadError};
use std::alloc::Global;

/// Follows the selectors in the JSON value that the text contains.
///
/// Reads the whole text once. Allocates for the value that is found, and as much as the text is long
/// if the scratch has less, to unescape strings.
/// Of a repeated key the last member counts. Without selectors it is `Value::from_str`.
///
/// # Errors
///
/// [`ReadError::NotJson`] if `serde_json` does not read the text, and [`ReadError::Memory`] if an
/// allocation fails.
///
/// # Examples
///
/// ```rust
/// let selectors = vec![in alloc; Selector { key: String::from_str(alloc, "a")?, index: None }]?;
/// let found = find_in_text(alloc, r#"{"a": [1, 2]}"#, &selectors)?;
/// assert!(rt; matches!(found, Outcome::Found(Value::Array(_))));
/// let stopped = find_in_text(alloc, "[1, 2]", &selectors)?;
/// assert!(rt; matches!(stopped, Outcome::Stopped { left: 1, kind: Kind::Array(2) }));
/// ```
pub fn find_in_text(alloc: Global, text: &str, selectors: &[Selector]) -> Result<Outcome, ReadError>
    ensures found { IfOk result (λ o. (d : Data) × (spec_read text.now ≡ Some d)
        × IsOutcome d (choices selectors.now) o) }
    ensures refused { result ≡ Err ReadError.NotJson → spec_read text.now ≡ None }
{
    let mut scratch = Scratch::new(alloc);
    find_in_text_with(alloc, &mut scratch, text, selectors)
}

/// Follows the selectors in the JSON value that the text contains, as [`find_in_text`] does, in a
/// scratch of the caller.
///
/// The scratch is that of any earlier call, also of one that failed. It keeps its memory. So a
/// search in a text of at most the same length allocates only for the value that is found.
///
/// # Errors
///
/// As [`find_in_text`].
///
/// # Examples
///
/// ```rust
/// let mut scratch = Scratch::new(alloc);
/// for text in ["1", "2"] {
///     let found = find_in_text_with(alloc, &mut scratch, text, &[])?;
///     assert!(rt; matches!(found, Outcome::Found(Value::Number(_))));
/// }
/// ```
pub fn find_in_text_with(
    alloc: Global,
    scratch: &mut Scratch,
    text: &str,
    selectors: &[Selector],
) -> Result<Outcome, ReadError>
    ensures found { IfOk result (λ o. (d : Data) × (spec_read text.now ≡ Some d)
        × IsOutcome d (choices selectors.now) o) }
    ensures refused { result ≡ Err ReadError.NotJson → spec_read text.now ≡ None }
{
    let mut reader = Reader::new(text, scratch)?;
    let outcome = find(alloc, &mut reader, MAX_DEPTH, selectors)?;
    if reader.next().is_some() {
        return Err(ReadError::NotJson);
    }
    Ok(outcome)
}

/// Follows the selectors in the next value, and passes over all of it.
///
/// # Errors
///
/// As [`find_in_text`].
#[cycle(find)]
fn find(
    alloc: Global,
    reader: &mut Reader<'_>,
    depth: usize,
    selectors: &[Selector],
) -> Result<Outcome, ReadError>
    requires few { length reader.old < 2 ^ 64 }
    requires shallow { depth ≤ max_depth }
    ensures found { IfOk result (λ o. (d : Data) × ReadsTokens depth reader.old d reader.new
        × IsOutcome d (choices selectors.now) o) }
    ensures shorter { OnOk result (length reader.new < length reader.old) }
    ensures refused { result ≡ Err ReadError.NotJson → Unreadable depth reader.old }
{
    let Some((selector, rest)) = selectors.split_first() else {
        return Ok(Outcome::Found(read(alloc, reader, depth)?));
    };
    let left = selectors.len();
    let Some(token) = reader.next() else {
        return Err(ReadError::NotJson);
    };
    match token {
        Token::BeginArray => {
            if depth == 0 {
                return Err(ReadError::NotJson);
            }
            let (found, len) = find_element(alloc, reader, depth - 1, selector.index, rest)?;
            Ok(or_stopped(found, left, Kind::Array(len)))
        }
        Token::BeginObject => {
            if depth == 0 {
                return Err(ReadError::NotJson);
            }
            let found = find_member(alloc, reader, depth - 1, selector.key.as_str(), rest)?;
            Ok(or_stopped(found, left, Kind::Object))
        }
        _ => if is_scalar(token) {
            Ok(stopped_at_scalar(left))
        } else {
            Err(ReadError::NotJson)
        },
    }
}

/// Returns the outcome of a search that ends at a scalar.
fn stopped_at_scalar(left: usize) -> Outcome
    ensures { result ≡ Stopped left Kind.Scalar }
{
    Outcome::Stopped {
        left,
        kind: Kind::Scalar,
    }
}

/// Returns the outcome in the child, or the one of a value that lacks the child.
fn or_stopped(found: Option<Outcome>, left: usize, kind: Kind) -> Outcome
    ensures { MatchOption found (result ≡ Stopped left kind) (λ o. result ≡ o) }
{
    match found {
        Some(outcome) => outcome,
        None => Outcome::Stopped { left, kind },
    }
}

/// A child of an array or an object, and what to do with it.
#[derive(Clone, Copy, Debug)]
struct Child<'s> {
    /// Whether to follow the selectors in it, and not to pass over it.
    wanted: bool,
    /// The selectors.
    selectors: &'s [Selector],
}

/// Follows the selectors in the element at the index, and returns the length of the array too.
///
/// # Errors
///
/// As [`find_in_text`].
#[cycle(find)]
fn find_element(
    alloc: Global,
    reader: &mut Reader<'_>,
    depth: usize,
    index: Option<usize>,
    selectors: &[Selector],
) -> Result<(Option<Outcome>, usize), ReadError>
    requires few { length reader.old < 2 ^ 64 }
    requires shallow { depth ≤ max_depth }
    ensures found { IfOk result (λ r. (ds : Items) × ReadsItems depth reader.old ds reader.new
        × (r.1 ≡ items_count ds) × IsChildOutcome (element index ds) (choices selectors.now) r.0) }
    ensures shorter { OnOk result (length reader.new < length reader.old) }
    ensures refused { result ≡ Err ReadError.NotJson → UnreadableItems depth reader.old }
{
    let mut found = None;
    let mut len = 0;
    'elements: while !reader.take_end_array() {
        let wanted = is_at(len, index);
        let child = Child { wanted, selectors };
        found = visit(alloc, reader, depth, child, found)?;
        len += 1;
    }
    Ok((found, len))
}

/// Follows the selectors in the last member with the key.
///
/// # Errors
///
/// As [`find_in_text`].
#[cycle(find)]
fn find_member(
    alloc: Global,
    reader: &mut Reader<'_>,
    depth: usize,
    key: &str,
    selectors: &[Selector],
) -> Result<Option<Outcome>, ReadError>
    requires few { length reader.old < 2 ^ 64 }
    requires shallow { depth ≤ max_depth }
    ensures found { IfOk result (λ r. (ms : Members) × ReadsMembers depth reader.old ms reader.new
        × IsChildOutcome (get_member key.now ms) (choices selectors.now) r) }
    ensures shorter { OnOk result (length reader.new < length reader.old) }
    ensures refused { result ≡ Err ReadError.NotJson → UnreadableMembers depth reader.old }
{
    let mut found = None;
    'members: while let Some(name) = reader.next_key()? {
        let wanted = is_text(name, key);
        let child = Child { wanted, selectors };
        found = visit(alloc, reader, depth, child, found)?;
    }
    Ok(found)
}

/// Follows the selectors in the next value if it is wanted, and passes over it if it is not.
///
/// # Errors
///
/// As [`find_in_text`].
#[cycle(find)]
fn visit(
    alloc: Global,
    reader: &mut Reader<'_>,
    depth: usize,
    child: Child<'_>,
    found: Option<Outcome>,
) -> Result<Option<Outcome>, ReadError>
    requires few { length reader.old < 2 ^ 64 }
    requires shallow { depth ≤ max_depth }
    ensures found { IfOk result (λ r. (d : Data) × ReadsTokens depth reader.old d reader.new
        × Visits child.entry.wanted d (choices child.entry.selectors.now) found r) }
    ensures shorter { OnOk result (length reader.new < length reader.old) }
    ensures refused { result ≡ Err ReadError.NotJson → Unreadable depth reader.old }
{
    if child.wanted {
        let outcome = find(alloc, reader, depth, child.selectors)?;
        Ok(Some(outcome))
    } else {
        skip(reader, depth)?;
        Ok(found)
    }
}

/// Returns whether the count is the index.
fn is_at(count: usize, index: Option<usize>) -> bool
    ensures { IsTrue result ↔ (index ≡ Some count) }
{
    match index {
        Some(at) => at == count,
        None => false,
    }
}
