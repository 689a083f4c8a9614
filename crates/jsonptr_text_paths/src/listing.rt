//! The lines of a JSON document.
ghost use Rattle.std.specs.Prelude.{◌≡◌, ◌↔◌, ◌++◌, IfOk, IsTrue, string_bytes};
ghost use Rattle.json.specs.Print.{quoted};
ghost use Rattle.serde_json.specs.View.{view};
ghost use Rattle.jsonptr.specs.Pointer.{tokens, text_of};
ghost use Rattle.jsonptr.specs.Text.{Text, text};
ghost use Rattle.jsonptr_text_paths.specs.PrivateListing.{IsLine};
ghost use Rattle.jsonptr_value.specs.JsonText.{IsCompact};
ghost use Rattle.jsonptr_text_paths.specs.Listing.{emptied, IsLeaf, HasNoControl, IsField, IsLineOf, IsShown, Lists};

use crate::walk::{Visitor, visit_nodes};
use jsonptr::Pointer;
use serde_json::{Map, Value};
use std::alloc::{AllocError, Global};

/// Which nodes of a document get a line.
///
/// # Examples
///
/// ```rust
/// let document = Value::from_str(alloc, r#"{"a": [1]}"#)?;
/// let leaves = list(alloc, &document, Listed::Leaves)?;
/// assert_eq!(rt; leaves.as_str(), "/a/0\t1\n");
/// let nodes = list(alloc, &document, Listed::AllNodes)?;
/// assert_eq!(rt; nodes.as_str(), "\t{}\n/a\t[]\n/a/0\t1\n");
/// ```
#[derive(Clone, Copy, Debug, PartialEq, Eq)]
pub enum Listed {
    /// The leaves: scalars, empty arrays and empty objects.
    Leaves,
    /// All nodes.
    AllNodes,
}

/// Returns the lines of the document, one for each node or for each leaf, in document order.
///
/// A line is the pointer of the node, a tab, the JSON text of its value without white space, and a
/// line break. The value of an array or object is printed without its elements or members. A node
/// comes before those below it, elements come in their order, and members by the bytes of their
/// keys.
///
/// A pointer with a control character, which is a byte below 32, is printed as a JSON string. So a
/// line has one tab, and a line break at its end only. Every other pointer starts with `/` or is
/// empty.
///
/// Takes time linear in the length of the lines of all nodes, and logarithmic time for each object above a node.
///
/// # Errors
///
/// [`AllocError`] if an allocation fails.
///
/// # Examples
///
/// ```rust
/// let document = Value::from_str(alloc, r#"{"a/b": null, "c\td": {}}"#)?;
/// let lines = list(alloc, &document, Listed::Leaves)?;
/// assert_eq!(rt; lines.as_str(), "/a~1b\tnull\n\"/c\\td\"\t{}\n");
/// ```
pub fn list(alloc: Global, document: &Value, which: Listed) -> Result<String, AllocError>
    ensures { IfOk result (λ s. Lists which (view document.now) (string_bytes s)) }
{
    let mut lister = Lister {
        alloc,
        which,
        out: String::new(alloc),
    };
    visit_nodes(alloc, document, Pointer::root(), &mut lister)?;
    let Lister {
        alloc: _,
        which: _,
        out,
    } = lister;
    Ok(out)
}

/// A visitor that appends the line of each node that is listed.
#[derive(Drop)]
pub(crate) struct Lister {
    pub alloc: Global,
    pub which: Listed,
    pub out: String,
}

impl Visitor<Value> for Lister {
    ghost visits = { λ s ts v t. (t.which ≡ s.which) × ((one : Text)
        × IsShown s.which (text ts) (view v) one
        × (string_bytes t.out ≡ string_bytes s.out ++ one)) };

    fn visit(&mut self, pointer: Pointer<'_>, value: &Value) -> Result<(), AllocError> {
        push_shown(self.alloc, &mut self.out, pointer, value, self.which)
    }
}

/// Appends the line of the value, if it is listed.
fn push_shown(
    alloc: Global,
    out: &mut String,
    pointer: Pointer<'_>,
    value: &Value,
    which: Listed,
) -> Result<(), AllocError>
    ensures { IfOk result (λ _. (one : Text)
        × IsShown which (text (tokens pointer.entry)) (view value.now) one
        × (string_bytes out.new ≡ string_bytes out.old ++ one)) }
{
    match which {
        Listed::AllNodes => push_value(alloc, out, pointer, value),
        Listed::Leaves => {
            if is_leaf(value) {
                push_value(alloc, out, pointer, value)
            } else {
                Ok(())
            }
        }
    }
}

/// Returns whether the value is a scalar, an empty array or an empty object.
fn is_leaf(value: &Value) -> bool
    ensures { IsTrue result ↔ IsLeaf (view value.now) }
{
    match value {
        Value::Array(elements) => elements.is_empty(),
        Value::Object(members) => members.is_empty(),
        Value::Null | Value::Bool(_) | Value::Number(_) | Value::String(_) => true,
    }
}

/// Appends the line of the value at the pointer.
pub(crate) fn push_value(
    alloc: Global,
    out: &mut String,
    pointer: Pointer<'_>,
    value: &Value,
) -> Result<(), AllocError>
    ensures { IfOk result (λ _. (one : Text)
        × IsLineOf (text (tokens pointer.entry)) (view value.now) one
        × (string_bytes out.new ≡ string_bytes out.old ++ one)) }
{
    let short = short_text(alloc, value)?;
    push_line(alloc, out, pointer, short.as_str())
}

/// Appends a line: the pointer, a tab, the text of a value, and a line break.
pub(crate) fn push_line(
    alloc: Global,
    out: &mut String,
    pointer: Pointer<'_>,
    short: &str,
) -> Result<(), AllocError>
    ensures { IfOk result (λ _. (one : Text)
        × IsLine (text (tokens pointer.entry)) short.now one
        × (string_bytes out.new ≡ string_bytes out.old ++ one)) }
{
    push_field(alloc, out, pointer.as_str())?;
    out.push('\t')?;
    out.push_str(short)?;
    out.push('\n')?;
    Ok(())
}

/// Appends the text of a pointer, as a JSON string if it has a control character.
fn push_field(alloc: Global, out: &mut String, pointer: &str) -> Result<(), AllocError>
    ensures { IfOk result (λ _. (field : Text) × IsField pointer.now field
        × (string_bytes out.new ≡ string_bytes out.old ++ field)) }
{
    if is_plain(pointer.as_bytes()) {
        out.push_str(pointer)?;
    } else {
        let quoted = quoted_text(alloc, pointer)?;
        out.push_str(quoted.as_str())?;
    }
    Ok(())
}

/// Returns the JSON string of a text.
pub(crate) fn quoted_text(alloc: Global, text: &str) -> Result<String, AllocError>
    ensures { IfOk result (λ s. string_bytes s ≡ quoted text.now) }
{
    Value::String(String::from_str(alloc, text)?).to_string(alloc)
}

/// Returns whether no byte is that of a control character.
fn is_plain(bytes: &[u8]) -> bool
    ensures { IsTrue result ↔ HasNoControl bytes.now }
{
    bytes.iter().all(|byte| *byte >= 32)
}

/// Returns the JSON text of the value without its elements or members.
fn short_text(alloc: Global, value: &Value) -> Result<String, AllocError>
    ensures { IfOk result (λ s. IsCompact (emptied (view value.now)) (string_bytes s)) }
{
    match value {
        Value::Array(_) => Value::Array(Vec::new(alloc)).to_string(alloc),
        Value::Object(_) => Value::Object(Map::new(alloc)).to_string(alloc),
        Value::Null | Value::Bool(_) | Value::Number(_) | Value::String(_) => {
            value.to_string(alloc)
        }
    }
}
