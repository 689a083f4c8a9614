//! A walk over all nodes of a JSON document (RFC 6901, section 4).
ghost use Rattle.std.specs.Prelude.{◌≡◌, IfOk, List, [], ◌∷◌, ◌++◌};
ghost use Rattle.serde_json.specs.View.{view};
ghost use Rattle.serde_json.specs.declared.value.Value.{Array, Object};
ghost use Rattle.jsonptr.specs.Json.{nodes};
ghost use Rattle.jsonptr.specs.Pointer.{tokens};
ghost use Rattle.jsonptr.specs.Text.{Text};
ghost use Rattle.jsonptr_text_paths.specs.Walking.{IsWalk};
ghost use Rattle.jsonptr_text_paths.specs.PrivateWalking.{WalksNodes, AnyPath, NotRoot, content_of};

use jsonptr::tree::json::json_law;
use jsonptr::{Pointer, PointerBuf, Token};
use serde_json::{Map, Value};
use std::alloc::{AllocError, Global};
use std::borrow::CowStr;

/// What is done at each node of a walk.
pub(crate) trait Visitor<V> {
    // `visits s ts v t`: visiting the value `v` at the tokens `ts` turns the visitor `s` into `t`
    ghost visits: { Self → List Text → V → Self → Type 0 };

    /// Visits the value at the pointer.
    fn visit(&mut self, pointer: Pointer<'_>, value: &V) -> Result<(), AllocError>
        ensures { IfOk result (λ _. visits self.old (tokens pointer.entry) value.now self.new) };
}

/// A visitor that collects the pointers.
#[derive(Drop)]
struct Collector {
    alloc: Global,
    found: Vec<PointerBuf>,
}

impl Visitor<Value> for Collector {
    ghost visits = { λ s ts v t. t.found.items ≡ s.found.items ++ ts ∷ [] };

    fn visit(&mut self, pointer: Pointer<'_>, _value: &Value) -> Result<(), AllocError> {
        let found = pointer.to_buf(self.alloc)?;
        self.found.push(found)?;
        Ok(())
    }
}

/// Returns the pointers of all nodes of the document, each once, in document order. A node comes
/// before those below it, elements come in their order, and members by the bytes of their keys.
///
/// # Errors
///
/// [`AllocError`] if an allocation fails.
///
/// # Examples
///
/// ```rust
/// let document = Value::from_str(alloc, r#"{"a": [1]}"#)?;
/// let found = pointers(alloc, &document)?;
/// assert_eq!(rt; found.len(), 3);
/// assert_eq!(rt; found[2].as_ptr().as_str(), "/a/0");
/// ```
pub fn pointers(alloc: Global, document: &Value) -> Result<Vec<PointerBuf>, AllocError>
    ensures { IfOk result (λ found. IsWalk (nodes (view document.now)) found.items) }
{
    let mut collector = Collector {
        alloc,
        found: Vec::new(alloc),
    };
    visit_nodes(alloc, document, Pointer::root(), &mut collector)?;
    let Collector { alloc: _, found } = collector;
    Ok(found)
}

/// Visits all nodes of the value at `pointer`, in document order.
///
/// Holds no more memory than the visitor, and a pointer for each level of the value.
#[cycle(walk)]
pub(crate) fn visit_nodes<T: Visitor<Value>>(
    alloc: Global,
    value: &Value,
    pointer: Pointer<'_>,
    visitor: &mut T,
) -> Result<(), AllocError>
    ensures { IfOk result (λ _. WalksNodes content_of T.visits value.now AnyPath
        (tokens pointer.entry) visitor.old visitor.new) }
{
    json_law();
    visitor.visit(pointer, value)?;
    match value {
        Value::Null => Ok(()),
        Value::Bool(_) => Ok(()),
        Value::Number(_) => Ok(()),
        Value::String(_) => Ok(()),
        Value::Array(elements) => visit_elements(alloc, elements, pointer, visitor),
        Value::Object(members) => visit_members(alloc, members, pointer, visitor),
    }
}

/// Visits all nodes below an array.
#[cycle(walk)]
fn visit_elements<T: Visitor<Value>>(
    alloc: Global,
    elements: &Vec<Value>,
    pointer: Pointer<'_>,
    visitor: &mut T,
) -> Result<(), AllocError>
    ensures { IfOk result (λ _. WalksNodes content_of T.visits (Array elements.now) NotRoot
        (tokens pointer.entry) visitor.old visitor.new) }
{
    json_law();
    for (index, element) in elements.iter().enumerate() {
        let token = Token::from_number(alloc, index)?;
        let child = pointer.with_trailing_token(alloc, token)?;
        visit_nodes(alloc, element, child.as_ptr(), visitor)?;
    }
    Ok(())
}

/// Visits all nodes below an object.
#[cycle(walk)]
fn visit_members<T: Visitor<Value>>(
    alloc: Global,
    members: &Map<String, Value>,
    pointer: Pointer<'_>,
    visitor: &mut T,
) -> Result<(), AllocError>
    ensures { IfOk result (λ _. WalksNodes content_of T.visits (Object members.now) NotRoot
        (tokens pointer.entry) visitor.old visitor.new) }
{
    json_law();
    for (key, member) in members.iter() {
        let token = Token::new(alloc, CowStr::Borrowed(key.as_str()))?;
        let child = pointer.with_trailing_token(alloc, token)?;
        visit_nodes(alloc, member, child.as_ptr(), visitor)?;
    }
    Ok(())
}
