//! Writes a value by a loop. A stack holds the arrays and objects that are open.
ghost use Rattle.std.specs.Prelude.{◌≡◌, ◌+◌, ◌<◌, List, ◌++◌, ◌∷◌, [], OnOk};
ghost use Rattle.json.specs.Token.{Token as SpecToken};
ghost use Rattle.serde_json.specs.View.{view};
ghost use Rattle.serde_json.specs.Written.{WritesValue};
ghost use Rattle.jsonptr_value.specs.PrivateFrames.{WritesElements, WritesMembersLeft, WritesFrame, WritesStack, frame_length, stack_length};
ghost use Rattle.jsonptr_value.specs.Lengths.{elements_length, members_length, token_count};

use crate::number::write_number;
use json::Writer;
use serde_json::Value;
use std::alloc::{AllocError, Global};
use std::collections::btree_map::Iter;

/// What is left of an array or object that is open, up to its closing bracket.
#[derive(Drop)]
pub(crate) enum Frame<'v> {
    Elements(&'v [Value]),
    Members(Iter<'v, String, Value>),
}

/// Writes the value by a loop, with a stack of its open arrays and objects.
pub(crate) fn write_deep(alloc: Global, value: &Value, out: &mut Writer) -> Result<(), AllocError>
    ensures written { OnOk result (WritesValue (view value.now) out.old.tokens out.new.tokens) }
    ensures before { out.new.before ≡ out.old.before }
{
    let mut stack = Vec::new(alloc);
    begin(value, &mut stack, out)?;
    while let Some(frame) = stack.pop() {
        step(frame, &mut stack, out)?;
    }
    Ok(())
}

/// Writes a scalar, or the opening bracket of an array or object, whose children are then left on
/// the stack.
fn begin<'v>(
    value: &'v Value,
    stack: &mut Vec<Frame<'v>>,
    out: &mut Writer,
) -> Result<(), AllocError>
    ensures written { OnOk result ((end : List SpecToken)
        → WritesStack stack.new.items out.new.tokens end
        → (middle : List SpecToken)
        × WritesValue (view value.now) out.old.tokens middle
        × WritesStack stack.old.items middle end) }
    ensures smaller { OnOk result
        (stack_length stack.new.items < stack_length stack.old.items + token_count (view value.now)) }
    ensures before { out.new.before ≡ out.old.before }
{
    match value {
        Value::Null => out.null(),
        Value::Bool(b) => out.boolean(*b),
        Value::Number(number) => write_number(number, out),
        Value::String(text) => out.string(text.as_str()),
        Value::Array(elements) => {
            out.begin_array()?;
            stack.push(Frame::Elements(elements.as_slice()))?;
            Ok(())
        }
        Value::Object(members) => {
            out.begin_object()?;
            stack.push(Frame::Members(members.iter()))?;
            Ok(())
        }
    }
}

/// Writes the next child of the array or object, as `begin` does, or its closing bracket.
fn step<'v>(
    frame: Frame<'v>,
    stack: &mut Vec<Frame<'v>>,
    out: &mut Writer,
) -> Result<(), AllocError>
    ensures written { OnOk result ((end : List SpecToken)
        → WritesStack stack.new.items out.new.tokens end
        → (middle : List SpecToken)
        × WritesFrame frame.entry out.old.tokens middle
        × WritesStack stack.old.items middle end) }
    ensures smaller { OnOk result
        (stack_length stack.new.items < stack_length stack.old.items + frame_length frame.entry) }
    ensures before { out.new.before ≡ out.old.before }
{
    match frame {
        Frame::Elements(elements) => step_elements(elements, stack, out),
        Frame::Members(members) => step_members(members, stack, out),
    }
}

/// Writes the next element, as `begin` does, or the closing bracket.
fn step_elements<'v>(
    elements: &'v [Value],
    stack: &mut Vec<Frame<'v>>,
    out: &mut Writer,
) -> Result<(), AllocError>
    ensures written { OnOk result ((end : List SpecToken)
        → WritesStack stack.new.items out.new.tokens end
        → (middle : List SpecToken)
        × WritesElements elements.now out.old.tokens middle
        × WritesStack stack.old.items middle end) }
    ensures smaller { OnOk result
        (stack_length stack.new.items < stack_length stack.old.items + elements_length elements.now) }
    ensures before { out.new.before ≡ out.old.before }
{
    let Some((element, rest)) = elements.split_first() else {
        return out.end_array();
    };
    stack.push(Frame::Elements(rest))?;
    begin(element, stack, out)
}

/// Writes the next member, its value as `begin` does, or the closing bracket.
fn step_members<'v>(
    mut members: Iter<'v, String, Value>,
    stack: &mut Vec<Frame<'v>>,
    out: &mut Writer,
) -> Result<(), AllocError>
    ensures written { OnOk result ((end : List SpecToken)
        → WritesStack stack.new.items out.new.tokens end
        → (middle : List SpecToken)
        × WritesMembersLeft members.entry out.old.tokens middle
        × WritesStack stack.old.items middle end) }
    ensures smaller { OnOk result
        (stack_length stack.new.items < stack_length stack.old.items + members_length members.entry) }
    ensures before { out.new.before ≡ out.old.before }
{
    let Some((key, member)) = members.next() else {
        return out.end_object();
    };
    stack.push(Frame::Members(members))?;
    out.key(key.as_str())?;
    begin(member, stack, out)
}
