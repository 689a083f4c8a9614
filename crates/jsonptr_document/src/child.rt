//! One step into a document: the child that a reference token names (RFC 6901, section 4).
ghost use Rattle.std.specs.Prelude.{◌<◌, IfOk, IfErr};
ghost use Rattle.jsonptr_grammar.specs.Text.{HasNoTilde, esc};
ghost use Rattle.jsonptr_base.specs.Fault.{IfRefused, HasMemory};
ghost use Rattle.jsonptr_document.specs.Child.{FindsChild, RefusesChild};
ghost use Rattle.jsonptr_document.specs.ChildRef.{IsIndexIn};
ghost use Rattle.jsonptr_document.specs.Private.{LacksElement};
ghost use Rattle.jsonptr_document.specs.declared.child.ChildError.{ChildError};

use crate::document::{Document, Node};
use jsonptr_base::fault::Fault;
use jsonptr_base::index::{OutOfBoundsError, ParseIndexError};
use jsonptr_base::token::Token;
use std::alloc::Global;

/// Why a token names no child of a node.
#[derive(Debug, PartialEq, Eq, Drop)]
pub enum ChildError {
    /// The node is an array, and the token is not an array index.
    BadIndex(ParseIndexError),
    /// The node is an array, and it has no element at the index of the token. The index of `-` is
    /// after the last element, so it is always out of bounds.
    OutOfBounds(OutOfBoundsError),
    /// The node is an object, and none of its members has the decoded token as its key.
    NotFound,
    /// The node is neither an array nor an object, so it has no children.
    Unreachable,
}

/// Returns the child that a token names: the member with the decoded token as its key, or the
/// element at the index of the token (RFC 6901, section 4).
///
/// Allocates only to decode a token that contains a `~`, and frees that before it returns. The
/// lookup takes constant time in an array and logarithmic time in an object.
///
/// # Errors
///
/// - [`Fault::Refused`] if the token names no child.
/// - [`Fault::Memory`] if the allocation for the decoded token fails.
pub fn child<'v, D: Document>(
    alloc: Global,
    at: &'v D,
    token: &Token<'_>,
) -> Result<&'v D, Fault<ChildError>>
    ensures found { IfOk result (λ e.
        FindsChild (D.nodes at.now) (D.stands_at at.now) token.now e.now) }
    ensures refused { IfRefused result (RefusesChild (D.nodes at.now) token.now) }
    ensures no_memory { HasNoTilde (esc token.now) → HasMemory result }
{
    match at.node() {
        Node::Leaf => Err(Fault::Refused(ChildError::Unreachable)),
        Node::Array(elements) => match index_in(token, elements.len()) {
            Ok(index) => Ok(&elements[index]),
            Err(cause) => Err(Fault::Refused(cause)),
        },
        Node::Object(members) => {
            let key = token.decoded(alloc)?;
            members
                .get(key.as_str())
                .ok_or(Fault::Refused(ChildError::NotFound))
        }
    }
}

/// Returns the index that the token has in an array of `length` elements.
///
/// # Errors
///
/// [`ChildError`] if the token is not an index, or if its index is not less than `length`.
#[tactic(auto, using(crate::proofs::ChildLemmas::beyond_place))]
pub(crate) fn index_in(token: &Token<'_>, length: usize) -> Result<usize, ChildError>
    ensures index { IfOk result (IsIndexIn length token.now) }
    ensures no_index { IfErr result (LacksElement length token.now) }
{
    match token.to_index() {
        Ok(index) => index.for_len(length).map_err(ChildError::OutOfBounds),
        Err(source) => Err(ChildError::BadIndex(source)),
    }
}
