//! The lines of a TOML document.
ghost use Rattle.std.specs.Prelude.{◌≡◌, ◌↔◌, ◌++◌, false, IfOk, IsTrue, string_bytes};
ghost use Rattle.toml.specs.Text.{IsValueText};
ghost use Rattle.toml.specs.View.{view};
ghost use Rattle.jsonptr.specs.Pointer.{tokens};
ghost use Rattle.jsonptr.specs.Text.{Text, text};
ghost use Rattle.jsonptr_io.specs.Lines.{IsOneLine};
ghost use Rattle.jsonptr_text_paths.specs.TomlListing.{emptied_toml, IsTomlLeaf, IsShortToml, IsTomlLineOf, IsTomlShown, ListsToml};

use crate::listing::{Listed, push_line, quoted_text};
use crate::toml_walk::visit_nodes;
use crate::walk::Visitor;
use jsonptr::Pointer;
use std::alloc::{AllocError, Global};
use std::fmt::{Display, Formatter};
use toml::{Table, Value};

/// Returns the lines of the document, one for each node or for each leaf, in document order.
///
/// They are as those of a JSON document ([`list`](crate::listing::list)), but the value is printed as
/// TOML: a date-time, `inf` and `1.0` as a document has them. A string whose TOML text takes several
/// lines is printed as a JSON string.
///
/// Takes time linear in the length of the lines of all nodes, and logarithmic time for each table above a node.
///
/// # Errors
///
/// [`AllocError`] if an allocation fails.
///
/// # Examples
///
/// ```rust
/// let document = toml::Value::from_str(alloc, "{ day = 2024-05-01, b = [1.0, 'x'] }")?;
/// let lines = list_toml(alloc, &document, Listed::Leaves)?;
/// assert_eq!(rt; lines.as_str(), "/b/0\t1.0\n/b/1\t\"x\"\n/day\t2024-05-01\n");
/// ```
pub fn list_toml(alloc: Global, document: &Value, which: Listed) -> Result<String, AllocError>
    ensures { IfOk result (λ s. ListsToml which (view document.now) (string_bytes s)) }
{
    let mut lister = Lister {
        alloc,
        which,
        out: String::new(alloc),
    };
    visit_nodes(alloc, document, Pointer::root(), &mut lister)?;
    let Lister {
        alloc: _,
        which: _,
        out,
    } = lister;
    Ok(out)
}

/// A visitor that appends the line of each node that is listed.
#[derive(Drop)]
struct Lister {
    alloc: Global,
    which: Listed,
    out: String,
}

impl Visitor<Value> for Lister {
    ghost visits = { λ s ts v t. (t.which ≡ s.which) × ((one : Text)
        × IsTomlShown s.which (text ts) (view v) one
        × (string_bytes t.out ≡ string_bytes s.out ++ one)) };

    fn visit(&mut self, pointer: Pointer<'_>, value: &Value) -> Result<(), AllocError> {
        push_shown(self.alloc, &mut self.out, pointer, value, self.which)
    }
}

/// Appends the line of the value, if it is listed.
fn push_shown(
    alloc: Global,
    out: &mut String,
    pointer: Pointer<'_>,
    value: &Value,
    which: Listed,
) -> Result<(), AllocError>
    ensures { IfOk result (λ _. (one : Text)
        × IsTomlShown which (text (tokens pointer.entry)) (view value.now) one
        × (string_bytes out.new ≡ string_bytes out.old ++ one)) }
{
    match which {
        Listed::AllNodes => push_value(alloc, out, pointer, value),
        Listed::Leaves => {
            if is_leaf(value) {
                push_value(alloc, out, pointer, value)
            } else {
                Ok(())
            }
        }
    }
}

/// Returns whether the value is a scalar, an empty array or an empty table.
fn is_leaf(value: &Value) -> bool
    ensures { IsTrue result ↔ IsTomlLeaf (view value.now) }
{
    match value {
        Value::Array(elements) => elements.is_empty(),
        Value::Table(members) => members.is_empty(),
        Value::String(_)
        | Value::Integer(_)
        | Value::Float(_)
        | Value::Boolean(_)
        | Value::Datetime(_) => true,
    }
}

/// Appends the line of the value at the pointer.
fn push_value(
    alloc: Global,
    out: &mut String,
    pointer: Pointer<'_>,
    value: &Value,
) -> Result<(), AllocError>
    ensures { IfOk result (λ _. (one : Text)
        × IsTomlLineOf (text (tokens pointer.entry)) (view value.now) one
        × (string_bytes out.new ≡ string_bytes out.old ++ one)) }
{
    let short = short_text(alloc, value)?;
    push_line(alloc, out, pointer, short.as_str())
}

/// Returns the text of the value without its elements or members, on one line.
fn short_text(alloc: Global, value: &Value) -> Result<String, AllocError>
    ensures { IfOk result (λ s. IsShortToml (view value.now) (string_bytes s)) }
{
    match value {
        Value::String(string) => {
            let text = value_text(alloc, value)?;
            if is_one_line(text.as_bytes()) {
                Ok(text)
            } else {
                quoted_text(alloc, string.as_str())
            }
        }
        Value::Array(_) => value_text(alloc, &Value::Array(Vec::new(alloc))),
        Value::Table(_) => value_text(alloc, &Value::Table(Table::new(alloc))),
        Value::Integer(_) | Value::Float(_) | Value::Boolean(_) | Value::Datetime(_) => {
            value_text(alloc, value)
        }
    }
}

/// Returns whether no byte is a line feed.
fn is_one_line(bytes: &[u8]) -> bool
    ensures { IsTrue result ↔ IsOneLine bytes.now }
{
    bytes.iter().all(|byte| *byte != b'\n')
}

/// Returns the TOML text of the value.
fn value_text(alloc: Global, value: &Value) -> Result<String, AllocError>
    ensures { IfOk result (λ s. IsValueText false (view value.now) (string_bytes s)) }
{
    let mut f = Formatter::new(String::new(alloc));
    match value.fmt(&mut f) {
        Ok(()) => Ok(f.into_inner()),
        Err(_) => Err(AllocError),
    }
}
