//! A walk over all nodes of a TOML document.
ghost use Rattle.std.specs.Prelude.{IfOk};
ghost use Rattle.toml.specs.declared.value.Value.{Array, Table};
ghost use Rattle.jsonptr.specs.Pointer.{tokens};
ghost use Rattle.jsonptr_text_paths.specs.PrivateWalking.{WalksNodes, AnyPath, NotRoot, content_of_toml};

use crate::walk::Visitor;
use jsonptr::tree::toml_value::toml_law;
use jsonptr::{Pointer, Token};
use std::alloc::{AllocError, Global};
use std::borrow::CowStr;
use toml::{Table, Value};

/// Visits all nodes of the value at `pointer`, in document order.
///
/// Holds no more memory than the visitor, and a pointer for each level of the value.
#[cycle(toml_walk)]
pub(crate) fn visit_nodes<T: Visitor<Value>>(
    alloc: Global,
    value: &Value,
    pointer: Pointer<'_>,
    visitor: &mut T,
) -> Result<(), AllocError>
    ensures { IfOk result (λ _. WalksNodes content_of_toml T.visits value.now AnyPath
        (tokens pointer.entry) visitor.old visitor.new) }
{
    toml_law();
    visitor.visit(pointer, value)?;
    match value {
        Value::String(_) => Ok(()),
        Value::Integer(_) => Ok(()),
        Value::Float(_) => Ok(()),
        Value::Boolean(_) => Ok(()),
        Value::Datetime(_) => Ok(()),
        Value::Array(elements) => visit_elements(alloc, elements, pointer, visitor),
        Value::Table(members) => visit_members(alloc, members, pointer, visitor),
    }
}

/// Visits all nodes below an array.
#[cycle(toml_walk)]
fn visit_elements<T: Visitor<Value>>(
    alloc: Global,
    elements: &Vec<Value>,
    pointer: Pointer<'_>,
    visitor: &mut T,
) -> Result<(), AllocError>
    ensures { IfOk result (λ _. WalksNodes content_of_toml T.visits (Array elements.now) NotRoot
        (tokens pointer.entry) visitor.old visitor.new) }
{
    toml_law();
    for (index, element) in elements.iter().enumerate() {
        let token = Token::from_number(alloc, index)?;
        let child = pointer.with_trailing_token(alloc, token)?;
        visit_nodes(alloc, element, child.as_ptr(), visitor)?;
    }
    Ok(())
}

/// Visits all nodes below a table.
#[cycle(toml_walk)]
fn visit_members<T: Visitor<Value>>(
    alloc: Global,
    members: &Table,
    pointer: Pointer<'_>,
    visitor: &mut T,
) -> Result<(), AllocError>
    ensures { IfOk result (λ _. WalksNodes content_of_toml T.visits (Table members.now) NotRoot
        (tokens pointer.entry) visitor.old visitor.new) }
{
    toml_law();
    for (key, member) in members.iter() {
        let token = Token::new(alloc, CowStr::Borrowed(key.as_str()))?;
        let child = pointer.with_trailing_token(alloc, token)?;
        visit_nodes(alloc, member, child.as_ptr(), visitor)?;
    }
    Ok(())
}
