//! Removing the value that the tokens of a pointer name.
ghost use Rattle.std.specs.Prelude.{[], ◌∷◌, ◌++◌, IsOk, IfOk, OnErr, MatchOption};
ghost use Rattle.jsonptr_grammar.specs.Text.{HasNoTilde, text};
ghost use Rattle.jsonptr_tree.specs.Removing.{Deletes};
ghost use Rattle.jsonptr_syntax.specs.PointerText.{tokens};
ghost use Rattle.jsonptr_walk.specs.Follow.{NamesNothing};

use crate::descend::{Descend, DescendArgs};
use jsonptr_base::fault::Fault;
use jsonptr_base::token::Token;
use jsonptr_document::child_ref::locate_child;
use jsonptr_document::document_mut::DocumentMut;
use jsonptr_syntax::pointer_text::PointerText;
use std::alloc::{AllocError, Global};

/// Removes the value that the tokens of `route` name and returns it, or `None` if they name none.
///
/// - A member is removed from its object.
/// - An element is removed from its array, and each later element moves to the index before its
///   own.
/// - Removing the root leaves a [blank](DocumentMut::blank) document.
/// - `None` leaves the document unchanged.
///
/// Allocates only to decode a token that contains a `~`, and frees that before it returns.
///
/// # Errors
///
/// [`AllocError`] if the allocation for a decoded token fails. The document is unchanged.
pub fn remove<D: Descend>(
    alloc: Global,
    document: &mut D,
    route: PointerText<'_>,
) -> Result<Option<D::Node>, AllocError>
    ensures deleted { IfOk result (λ _.
        Deletes (D.Document.nodes document.old) (tokens route.entry)
        D.Node.DocumentMut.blank_map (D.Document.nodes document.new)) }
    ensures sorted { IfOk result (λ _.
        D.Document.has_sorted_keys document.old → D.Document.has_sorted_keys document.new) }
    ensures found { IfOk result (λ r. MatchOption r
        (NamesNothing (D.Document.nodes document.old) (tokens route.entry)
        × D.is_same document.old document.new)
        (D.finds document.old (tokens route.entry))) }
    ensures unchanged { OnErr result (D.is_same document.old document.new) }
    ensures no_memory { HasNoTilde (text (tokens route.entry)) → IsOk result }
{
    match route.split_back() {
        None => Ok(Some(document.take(alloc))),
        Some((parent, token)) => remove_child(alloc, document, parent, &token),
    }
}

/// Removes the child `token` of the node that the tokens of `parent` name, and returns it if it
/// exists.
///
/// # Errors
///
/// [`AllocError`] if the allocation for a decoded token fails. The document is unchanged.
fn remove_child<D: Descend>(
    alloc: Global,
    document: &mut D,
    parent: PointerText<'_>,
    token: &Token<'_>,
) -> Result<Option<D::Node>, AllocError>
    ensures deleted { IfOk result (λ _.
        Deletes (D.Document.nodes document.old) (tokens parent.entry ++ token.now ∷ [])
        D.Node.DocumentMut.blank_map (D.Document.nodes document.new)) }
    ensures sorted { IfOk result (λ _.
        D.Document.has_sorted_keys document.old → D.Document.has_sorted_keys document.new) }
    ensures found { IfOk result (λ r. MatchOption r
        (NamesNothing (D.Document.nodes document.old) (tokens parent.entry ++ token.now ∷ [])
        × D.is_same document.old document.new)
        (D.finds document.old (tokens parent.entry ++ token.now ∷ []))) }
    ensures unchanged { OnErr result (D.is_same document.old document.new) }
    ensures no_memory { HasNoTilde (text (tokens parent.entry ++ token.now ∷ []))
        → IsOk result }
{
    let args = DescendArgs {
        alloc,
        route: parent,
    };
    match document.descend(&args) {
        Ok(node) => {
            // a member need not exist; `remove` returns `None` then
            let child = locate_child(alloc, &*node, token)?;
            Ok(node.remove(&child))
        }
        Err(Fault::Refused(_)) => Ok(None),
        Err(Fault::Memory(error)) => Err(error),
    }
}
