//! A new document in the layout of an old text.
ghost use Rattle.std.specs.Prelude.{◌≡◌, Some, IfOk, IfErr, IfSome, option_map, string_bytes};
ghost use Rattle.serde_json.specs.Data.{Data};
ghost use Rattle.serde_json.specs.Read.{read};
ghost use Rattle.serde_json.specs.View.{view};
ghost use Rattle.jsonptr.specs.Json.{nodes};
ghost use Rattle.jsonptr_text_relayout.specs.Relaying.{text_of_relaid, ReadsAs, KeepsLayout, IsRelayoutError, IsRelayoutTextError};

use crate::given::{GivenValue, given_values};
use crate::lay::{At, Layer};
use crate::relaid::{Relaid, RelayoutError, RelayoutTextError};
use crate::spaces::Style;
use crate::tree::{TreeNode, read_tree};
use jsonptr_patch_diff::are_same;
use jsonptr_text_piece::buffers::Buffers;
use jsonptr_value::{MAX_DEPTH, if_json, nests_within};
use serde_json::Value;
use std::alloc::{AllocError, Global};

/// Returns the text of the document `new` in the layout of the text `old`.
///
/// Numbers, strings and the order of members are those of `old` where a value is the same, and those of
/// a printed value where it is new. Two floats are the same if they have the same bits.
///
/// Takes time in proportion to both documents, and a logarithm of the longest array and object. `buffers` keep
/// their memory from text to text.
///
/// # Errors
///
/// - [`RelayoutError::NotJson`] if `serde_json` does not read the old text.
/// - [`RelayoutError::TooDeep`] if the new document nests deeper than 127.
/// - [`RelayoutError::Memory`] if an allocation fails.
///
/// # Examples
///
/// ```rust
/// let mut buffers = Buffers::new(alloc);
/// let new = json!(in alloc; {"a": [1, 2, 3]})?;
/// let relaid = relayout(&mut buffers, r#"{ "a": [1.0, 2] }"#, &new)?;
/// assert_eq!(rt; relaid.as_str(), r#"{ "a": [1, 2, 3] }"#);
/// ```
pub fn relayout(buffers: &mut Buffers, old: &str, new: &Value) -> Result<Relaid, RelayoutError>
    ensures reads { IfOk result (λ r. ReadsAs (text_of_relaid r) (nodes (view new.now))) }
    ensures kept { ReadsAs old.now (nodes (view new.now)) → IfOk result (KeepsLayout old.now) }
    ensures refused { IfErr result (IsRelayoutError old.now (view new.now)) }
{
    relayout_with_texts(buffers, old, new, &[])
}

/// Returns the text of the document `new` in the layout of the text `old`, as [`relayout`] does. A value
/// that is new and the same as a value in one of the texts `given` keeps its text: its numbers, its
/// strings and the order of its members.
///
/// A text that is not JSON counts for nothing.
///
/// # Errors
///
/// Those of [`relayout`].
///
/// # Examples
///
/// ```rust
/// let mut buffers = Buffers::new(alloc);
/// let new = json!(in alloc; {"price": 1.1})?;
/// let relaid = relayout_with_texts(&mut buffers, "{}", &new, &["1.10"])?;
/// assert_eq!(rt; relaid.as_str(), r#"{"price": 1.10}"#);
/// ```
pub fn relayout_with_texts(
    buffers: &mut Buffers,
    old: &str,
    new: &Value,
    given: &[&str],
) -> Result<Relaid, RelayoutError>
    ensures reads { IfOk result (λ r. ReadsAs (text_of_relaid r) (nodes (view new.now))) }
    ensures kept { ReadsAs old.now (nodes (view new.now)) → IfOk result (KeepsLayout old.now) }
    ensures refused { IfErr result (IsRelayoutError old.now (view new.now)) }
{
    let alloc = buffers.alloc;
    let Some(document) = read_document(alloc, old)? else {
        return Err(RelayoutError::NotJson);
    };
    if are_same(&document, new) {
        return Ok(Relaid::Kept(String::from_str(alloc, old)?));
    }
    if !nests_within(new, MAX_DEPTH) {
        return Err(RelayoutError::TooDeep);
    }
    let printed = new.to_string(alloc)?;
    match laid_out(buffers, old, new, printed.as_str(), given)? {
        Some(text) => Ok(Relaid::Kept(text)),
        None => Ok(Relaid::Rewritten(printed)),
    }
}

/// Returns the document of the text `new` in the layout of the text `old`, as [`relayout`] does. A value
/// that is new keeps its text, except the white space around its tokens.
///
/// # Errors
///
/// - [`RelayoutTextError::OldNotJson`] if `serde_json` does not read the old text, and
///   [`RelayoutTextError::NewNotJson`] if it reads that and not the new one.
/// - [`RelayoutTextError::Memory`] if an allocation fails.
///
/// # Examples
///
/// ```rust
/// let mut buffers = Buffers::new(alloc);
/// let relaid = relayout_text(&mut buffers, "[1.0, 2]", "[\n  1,\n  2,\n  3.10\n]\n")?;
/// assert_eq!(rt; relaid.as_str(), "[1, 2, 3.10]");
/// ```
pub fn relayout_text(
    buffers: &mut Buffers,
    old: &str,
    new: &str,
) -> Result<Relaid, RelayoutTextError>
    ensures reads { IfOk result (λ r. (d : Data) × (read new.now ≡ Some d) × ReadsAs (text_of_relaid r) (nodes d)) }
    ensures kept { (d : Data) → read new.now ≡ Some d → ReadsAs old.now (nodes d) → IfOk result (KeepsLayout old.now) }
    ensures refused { IfErr result (IsRelayoutTextError old.now new.now) }
{
    let alloc = buffers.alloc;
    let Some(document) = read_document(alloc, old)? else {
        return Err(RelayoutTextError::OldNotJson);
    };
    let Some(value) = read_document(alloc, new)? else {
        return Err(RelayoutTextError::NewNotJson);
    };
    if are_same(&document, &value) {
        return Ok(Relaid::Kept(String::from_str(alloc, old)?));
    }
    match laid_out(buffers, old, &value, new, &[])? {
        Some(text) => Ok(Relaid::Kept(text)),
        None => Ok(Relaid::Rewritten(String::from_str(alloc, new)?)),
    }
}

/// Reads the document that the text is, or returns `None` if `serde_json` does not read it.
///
/// # Errors
///
/// [`AllocError`] if an allocation fails.
fn read_document(alloc: Global, text: &str) -> Result<Option<Value>, AllocError>
    ensures { IfOk result (λ o. option_map view o ≡ read text.now) }
{
    if_json(jsonptr_value::read(alloc, text))
}

/// Returns the text of the document `new`, which `printed` is a text of, in the layout of the text `old`.
/// Returns `None` if the text that was made is not one.
///
/// # Errors
///
/// [`AllocError`] if an allocation fails.
fn laid_out(
    buffers: &mut Buffers,
    old: &str,
    new: &Value,
    printed: &str,
    given: &[&str],
) -> Result<Option<String>, AllocError>
    ensures { IfOk result (λ o. IfSome o (λ s. ReadsAs (string_bytes s) (nodes (view new.now)))) }
{
    let Some(candidate) = candidate(buffers, old, printed, given)? else {
        return Ok(None);
    };
    match read_document(buffers.alloc, candidate.as_str())? {
        Some(document) => if are_same(&document, new) {
            Ok(Some(candidate))
        } else {
            Ok(None)
        },
        None => Ok(None),
    }
}

/// Makes a text of the document that `printed` is a text of, in the layout of the text `old`. Whether it
/// is one has to be seen by reading it.
///
/// # Errors
///
/// [`AllocError`] if an allocation fails.
fn candidate(
    buffers: &mut Buffers,
    old: &str,
    printed: &str,
    given: &[&str],
) -> Result<Option<String>, AllocError> {
    let Some(from) = tree_of(buffers, old)? else {
        return Ok(None);
    };
    let Some(to) = tree_of(buffers, printed)? else {
        return Ok(None);
    };
    let given_trees = trees_of(buffers, given)?;
    let trees = Trees {
        from,
        to,
        given: given_trees,
    };
    Ok(Some(relaid_text(buffers.alloc, old, printed, given, &trees)?))
}

/// The trees of texts.
#[derive(Drop)]
struct Trees {
    /// Of the old text.
    from: TreeNode,
    /// Of the new text.
    to: TreeNode,
    /// Of the given texts, where they are JSON.
    given: Vec<Option<TreeNode>>,
}

/// Makes the text: what is around the old document, and the new document.
fn relaid_text<'t>(
    alloc: Global,
    old: &'t str,
    printed: &'t str,
    given: &'t [&'t str],
    trees: &'t Trees,
) -> Result<String, AllocError> {
    let span = trees.from.span;
    let mut layer = Layer {
        alloc,
        old,
        given: given_values(alloc, given, &trees.given)?,
        out: String::from_str(alloc, old.get(..span.from).unwrap_or(""))?,
    };
    let at = At {
        indent: "",
        style: Style::of(old),
        is_spread: old.trim_end().contains('\n'),
    };
    let to = GivenValue {
        text: printed,
        node: &trees.to,
    };
    layer.lay(&trees.from, to, at, MAX_DEPTH + 1)?;
    layer.out.push_str(old.get(span.to..).unwrap_or(""))?;
    Ok(layer.out)
}

/// Reads the text, or returns `None` if it is not JSON.
fn tree_of(buffers: &mut Buffers, text: &str) -> Result<Option<TreeNode>, AllocError> {
    if_json(read_tree(buffers, text))
}

/// Reads each of the texts.
fn trees_of(buffers: &mut Buffers, texts: &[&str]) -> Result<Vec<Option<TreeNode>>, AllocError> {
    let mut trees = Vec::new(buffers.alloc);
    for text in texts {
        trees.push(tree_of(buffers, text)?)?;
    }
    Ok(trees)
}
