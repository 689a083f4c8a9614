//! The text of a value.
ghost use Rattle.std.specs.Prelude.{◌≡◌, ◌≤◌, Some, false, IfOk, string_bytes, OnOk};
ghost use Rattle.json.specs.Print.{print};
ghost use Rattle.json.specs.Lex.{tokens};
ghost use Rattle.serde_json.specs.Data.{depth};
ghost use Rattle.serde_json.specs.Read.{read, max_depth};
ghost use Rattle.serde_json.specs.View.{view};
ghost use Rattle.serde_json.specs.Written.{has_float, compact_text, IsInOrder, WritesValue};
ghost use Rattle.jsonptr_value.specs.PrivateFrames.{WritesElements, WritesMembersLeft};

use crate::depth::RECURSION_LEVELS;
use crate::frame::write_deep;
use crate::number::write_number;
use json::Writer;
use serde_json::Value;
use std::alloc::{AllocError, Global};
use std::collections::btree_map::Iter;

/// Returns the JSON text of the value, without spaces: `compact_text` of `serde_json` if the value
/// contains no float. A float is printed with digits that read back as it.
///
/// Takes time linear in the value. The first 32 levels take the stack, by recursion.
///
/// # Errors
///
/// [`AllocError`] if the allocation for the text fails, or for an entry of each array and object
/// that is open below the first 32 levels.
pub fn to_string(alloc: Global, value: &Value) -> Result<String, AllocError>
    ensures text { IfOk result (λ s. has_float (view value.now) ≡ false
        → string_bytes s ≡ compact_text (view value.now)) }
    ensures compact { IfOk result (λ s. string_bytes s ≡ print (tokens (string_bytes s))) }
    ensures order { IfOk result (λ s. IsInOrder (string_bytes s) (view value.now)) }
    ensures reads_back { IfOk result (λ s. depth (view value.now) ≤ max_depth
        → read (string_bytes s) ≡ Some (view value.now)) }
{
    let mut out = Writer::new(Vec::with_capacity(alloc, 128)?);
    write(alloc, value, RECURSION_LEVELS, &mut out)?;
    // SAFETY: the writer's bytes are UTF-8, which the prover checks.
    Ok(unsafe { String::from_utf8_unchecked(out.into_inner()) })
}

/// Writes the value, by recursion down to so many levels and by a loop below them.
#[cycle(write)]
fn write(alloc: Global, value: &Value, levels: usize, out: &mut Writer) -> Result<(), AllocError>
    ensures written { OnOk result (WritesValue (view value.now) out.old.tokens out.new.tokens) }
    ensures before { out.new.before ≡ out.old.before }
{
    if levels == 0 {
        return write_deep(alloc, value, out);
    }
    match value {
        Value::Null => out.null(),
        Value::Bool(b) => out.boolean(*b),
        Value::Number(number) => write_number(number, out),
        Value::String(text) => out.string(text.as_str()),
        Value::Array(elements) => {
            out.begin_array()?;
            write_elements(alloc, elements.as_slice(), levels - 1, out)
        }
        Value::Object(members) => {
            out.begin_object()?;
            write_members(alloc, members.iter(), levels - 1, out)
        }
    }
}

/// Writes a value. Writing a number or a string here saves a call of `write`.
#[cycle(write)]
#[inline(always)]
fn write_child(
    alloc: Global,
    value: &Value,
    levels: usize,
    out: &mut Writer,
) -> Result<(), AllocError>
    ensures written { OnOk result (WritesValue (view value.now) out.old.tokens out.new.tokens) }
    ensures before { out.new.before ≡ out.old.before }
{
    match value {
        Value::Number(number) => write_number(number, out),
        Value::String(text) => out.string(text.as_str()),
        _ => write(alloc, value, levels, out),
    }
}

/// Writes the elements and the closing bracket.
#[cycle(write)]
fn write_elements(
    alloc: Global,
    elements: &[Value],
    levels: usize,
    out: &mut Writer,
) -> Result<(), AllocError>
    ensures written { OnOk result (WritesElements elements.now out.old.tokens out.new.tokens) }
    ensures before { out.new.before ≡ out.old.before }
{
    for element in elements {
        write_child(alloc, element, levels, out)?;
    }
    out.end_array()
}

/// Writes the members and the closing bracket.
#[cycle(write)]
fn write_members(
    alloc: Global,
    members: Iter<'_, String, Value>,
    levels: usize,
    out: &mut Writer,
) -> Result<(), AllocError>
    ensures written { OnOk result (WritesMembersLeft members.entry out.old.tokens out.new.tokens) }
    ensures before { out.new.before ≡ out.old.before }
{
    for (key, member) in members {
        out.key(key.as_str())?;
        write_child(alloc, member, levels, out)?;
    }
    out.end_object()
}
