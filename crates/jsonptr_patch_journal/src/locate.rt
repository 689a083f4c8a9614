//! The location of the node that a pointer resolves to.
ghost use Rattle.std.specs.Prelude.{⊤, IfOk};
ghost use Rattle.serde_json.specs.View.{view};
ghost use Rattle.jsonptr.specs.Delete.{NamesNothing};
ghost use Rattle.jsonptr.specs.Fault.{IfRefused, ForRefused, IsRefusedAnd};
ghost use Rattle.jsonptr.specs.Pointer.{tokens};
ghost use Rattle.jsonptr.specs.Resolve.{Refuses};
ghost use Rattle.jsonptr.specs.Text.{HasNoTilde, text};
ghost use Rattle.jsonptr.specs.Json.{nodes};
ghost use Rattle.jsonptr_patch_journal.specs.Locating.{Locates};
ghost use Rattle.jsonptr_patch_journal.specs.PrivateLocating.{IsLocated, IsChildOf, IsIndexOf};

use crate::location::{Location, LocationStep};
use jsonptr::{Fault, Pointer, Token, resolve};
use jsonptr_document::document::{Document, Node};
use serde_json::Value;
use std::alloc::{AllocError, Global};

/// A node of a document and its location.
#[derive(Drop)]
pub struct LocatedNode<'v> {
    /// The location.
    pub location: Location,
    /// The node.
    pub node: &'v Value,
}

/// A child of a node.
#[derive(Drop)]
struct Child<'v> {
    /// The step to the child.
    step: LocationStep,
    /// The child.
    node: &'v Value,
}

/// Returns the node that the pointer resolves to, and its location.
///
/// Allocates the list of steps, and each key on the way. At the root it needs no allocation. Takes
/// constant time for each array on the way, and logarithmic time for each object.
///
/// # Errors
///
/// [`Fault::Refused`] if the pointer does not resolve to a value, and [`Fault::Memory`] if an
/// allocation fails.
///
/// # Examples
///
/// ```rust
/// let document = json!(in alloc; {"tags": ["draft"]})?;
/// let found = locate(alloc, &document, Pointer::parse("/tags/0")?)?;
/// assert_eq!(rt; found.node.as_str(), Some("draft"));
/// assert_eq!(rt; found.location.steps.len(), 2);
/// ```
pub fn locate<'v>(
    alloc: Global,
    document: &'v Value,
    pointer: Pointer<'_>,
) -> Result<LocatedNode<'v>, Fault<resolve::Error>>
    ensures located { IfOk result (Locates (view document.now) (tokens pointer.entry)) }
    ensures refused { IfRefused result (Refuses (nodes (view document.now)) (tokens pointer.entry)) }
{
    match find(alloc, document, pointer)? {
        Some(located) => Ok(located),
        None => Err(resolve_error(alloc, document, pointer)),
    }
}

/// Returns the node that the pointer resolves to, and its location, or `None` if the pointer does
/// not resolve to a value.
///
/// # Errors
///
/// [`AllocError`] if an allocation fails.
fn find<'v>(
    alloc: Global,
    document: &'v Value,
    pointer: Pointer<'_>,
) -> Result<Option<LocatedNode<'v>>, AllocError>
    ensures { IfOk result (IsLocated (view document.now) (tokens pointer.entry)) }
{
    let mut steps = Vec::with_capacity(alloc, pointer.count())?;
    let mut node = document;
    let mut rest = pointer;
    while let Some((token, after)) = rest.split_front() {
        let Some(child) = named_child(alloc, node, &token)? else {
            return Ok(None);
        };
        steps.push(child.step)?;
        node = child.node;
        rest = after;
    }
    Ok(Some(LocatedNode {
        location: Location { steps },
        node,
    }))
}

/// Returns the child that the token names, or `None` if it names none.
///
/// # Errors
///
/// [`AllocError`] if the allocation for its key fails.
fn named_child<'v>(
    alloc: Global,
    node: &'v Value,
    token: &Token<'_>,
) -> Result<Option<Child<'v>>, AllocError>
    ensures { IfOk result (IsChildOf (view node.now) token.now) }
{
    match node.node() {
        Node::Leaf => Ok(None),
        Node::Array(elements) => match index_in(token, elements.len()) {
            Some(index) => Ok(Some(Child {
                step: LocationStep::Index(index),
                node: &elements[index],
            })),
            None => Ok(None),
        },
        Node::Object(members) => {
            let key = token.decoded(alloc)?;
            match members.get(key.as_str()) {
                Some(node) => Ok(Some(Child {
                    step: LocationStep::Key(key.into_owned(alloc)?),
                    node,
                })),
                None => Ok(None),
            }
        }
    }
}

/// Returns the index that the token has in an array of this length, or `None` if it is not the index
/// of an element.
pub(crate) fn index_in(token: &Token<'_>, length: usize) -> Option<usize>
    ensures { IsIndexOf length token.now result }
{
    match token.to_index() {
        Ok(index) => match index.for_len(length) {
            Ok(index) => Some(index),
            Err(_) => None,
        },
        Err(_) => None,
    }
}

/// Returns the error of a pointer that does not resolve to a value.
///
/// # Conditions
///
/// The pointer does not resolve to a value.
pub fn resolve_error(alloc: Global, document: &Value, pointer: Pointer<'_>) -> Fault<resolve::Error>
    requires { NamesNothing (nodes (view document.now)) (tokens pointer) }
    ensures refused { ForRefused result
        (Refuses (nodes (view document.now)) (tokens pointer.entry)) }
    ensures no_memory { HasNoTilde (text (tokens pointer.entry))
        → IsRefusedAnd result (λ _. ⊤) }
{
    match pointer.resolve(alloc, document) {
        Ok(_) => unreachable!(),
        Err(fault) => fault,
    }
}
