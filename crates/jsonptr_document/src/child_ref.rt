//! Which child of a document a token names, for a step down to write there.
ghost use Rattle.std.specs.Prelude.{IsOk, IfOk};
ghost use Rattle.jsonptr_grammar.specs.Text.{HasNoTilde, esc};
ghost use Rattle.jsonptr_document.specs.ChildRef.{IsChildRef};

use crate::child::{ChildError, index_in};
use crate::document::{Document, Node};
use jsonptr_base::token::Token;
use std::alloc::{AllocError, Global};
use std::borrow::CowStr;

/// Which child of a node a token names.
#[derive(Drop)]
pub enum ChildRef<'t> {
    /// The element at this index, which exists.
    Element(usize),
    /// The member with this key, which need not exist.
    Member(CowStr<'t>),
    /// No child, and why.
    Missing(ChildError),
}

/// Returns which child a token names, without a search for its key among the members of an object.
///
/// Allocates only to decode a token that contains a `~`.
///
/// # Errors
///
/// [`AllocError`] if the allocation for the decoded token fails.
pub fn locate_child<'t, D: Document>(
    alloc: Global,
    at: &D,
    token: &'t Token<'_>,
) -> Result<ChildRef<'t>, AllocError>
    ensures child { IfOk result (IsChildRef (D.nodes at.now) token.now) }
    ensures no_memory { HasNoTilde (esc token.now) → IsOk result }
{
    match at.node() {
        Node::Leaf => Ok(ChildRef::Missing(ChildError::Unreachable)),
        Node::Array(elements) => match index_in(token, elements.len()) {
            Ok(index) => Ok(ChildRef::Element(index)),
            Err(cause) => Ok(ChildRef::Missing(cause)),
        },
        Node::Object(_) => Ok(ChildRef::Member(token.decoded(alloc)?)),
    }
}
