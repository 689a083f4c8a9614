//! Assigning a value where the tokens of a pointer lead, with path expansion: the containers that
//! the document lacks on the way are made (RFC 6901, section 4).
ghost use Rattle.std.specs.Prelude.{◌≡◌, ◌≢◌, ℕ, ◌<◌, [], ◌∷◌, Some, IsTrue, Ok, IfOk, IfErr, OnErr, option_map, string_bytes};
ghost use Rattle.jsonptr_grammar.specs.Text.{Text, HasNoTilde, text, dec};
ghost use Rattle.jsonptr_tree.specs.Node.{key, an_array};
ghost use Rattle.jsonptr_tree.specs.Following.{LacksStep};
ghost use Rattle.jsonptr_tree.specs.Put.{put};
ghost use Rattle.jsonptr_tree.specs.Expansion.{expanded, is_append_index};
ghost use Rattle.jsonptr_tree.specs.Assigning.{Assigns};
ghost use Rattle.jsonptr_base.specs.Fault.{IfRefused, HasMemory};
ghost use Rattle.jsonptr_document.specs.Writing.{IsObject, Pushes};
ghost use Rattle.jsonptr_syntax.specs.PointerText.{tokens};
ghost use Rattle.jsonptr_walk.specs.Follow.{IsFollowError};
ghost use Rattle.jsonptr_walk.specs.Putting.{AssignsValue, IsPutError, NeedsNothing};
ghost use Rattle.jsonptr_walk.specs.PrivatePutting.{StopsThere, HasNoIndex, IsPutErrorAfter, IsPutErrorBelow};

use crate::descend::{Descend, DescendArgs, token_at};
use crate::follow_error::FollowError;
use jsonptr_base::fault::Fault;
use jsonptr_base::index::{OutOfBoundsError, ParseIndexError};
use jsonptr_base::token::Token;
use jsonptr_document::document::Node;
use jsonptr_document::document_mut::DocumentMut;
use jsonptr_syntax::pointer_text::PointerText;
use std::alloc::{AllocError, Global};
use std::mem;

/// Why no value can be stored at a token in an array.
#[derive(Debug, Drop)]
pub enum IndexError {
    /// The token is not an array index.
    BadIndex(ParseIndexError),
    /// The index of the token is greater than the length of the array.
    OutOfBounds(OutOfBoundsError),
}

/// The error of an assignment: the token is not an index at which this array can be extended.
#[derive(Debug, Drop)]
pub struct PutError {
    /// The number of tokens before the one at fault.
    pub position: usize,
    /// The offset of the `/` before the token at fault, in bytes.
    pub offset: usize,
    /// Why the value cannot be stored there.
    pub cause: IndexError,
}

/// Where following a pointer stops.
#[derive(Drop)]
struct Stop<'p> {
    /// The tokens before the one that names no child, for the position of an error.
    front: PointerText<'p>,
    /// The token that names no child.
    token: Token<'p>,
    /// The tokens after it.
    rest: PointerText<'p>,
}

/// Assigns `value` where the tokens of `route` lead, and returns the value that it replaces, if
/// any.
///
/// | Following the tokens                             | Effect                             |
/// | ------------------------------------------------ | ---------------------------------- |
/// | finds a value                                    | replaces it                        |
/// | stops at an object                               | adds a member under the next token |
/// | stops at an array, and `-` or its length is next | appends an element                 |
/// | stops at a scalar                                | replaces the scalar                |
///
/// In the last three cases the tokens that are left expand the value. From the last to the first,
/// `-` and `0` put it into a new array, and any other token into a new object. Replacing the
/// value that the tokens find needs no allocation if they contain no `~`.
///
/// # Errors
///
/// - [`Fault::Refused`] if following stops at an array before any other token.
/// - [`Fault::Memory`] if an allocation fails.
///
/// The document is unchanged in both cases, and `value` is dropped.
pub fn put<D: Descend>(
    alloc: Global,
    document: &mut D,
    route: PointerText<'_>,
    value: D::Node,
) -> Result<Option<D::Node>, Fault<PutError>>
    ensures assigned { IfOk result (λ r.
        AssignsValue (D.Document.nodes document.old) (tokens route.entry)
        (D.Node.Document.nodes value) (D.Document.nodes document.new)
        D.Node.Document.nodes (D.finds document.old) r) }
    ensures sorted { IfOk result (λ _. D.Node.Document.has_sorted_keys value
        → D.Document.has_sorted_keys document.old → D.Document.has_sorted_keys document.new) }
    ensures refused { IfRefused result
        (IsPutError (D.Document.nodes document.old) (tokens route.entry)) }
    ensures unchanged { OnErr result (D.is_same document.old document.new) }
    ensures no_memory { NeedsNothing (D.Document.nodes document.old) (tokens route.entry)
        → HasMemory result }
{
    let args = DescendArgs { alloc, route };
    let mut value = value;
    match swap_at(document, &args, &mut value) {
        Ok(()) => Ok(Some(value)),
        Err(Fault::Refused(stop)) => put_missing(alloc, document, route, stop.offset, value),
        Err(Fault::Memory(error)) => {
            D::Node::discard(value);
            Err(Fault::Memory(error))
        }
    }
}

/// Swaps `value` with the value that the tokens name.
///
/// # Errors
///
/// Those of [`Descend::descend`]. The document and `value` are unchanged.
fn swap_at<D: Descend>(
    document: &mut D,
    args: &DescendArgs<'_>,
    value: &mut D::Node,
) -> Result<(), Fault<FollowError>>
    ensures swapped { IfOk result (λ _.
        AssignsValue (D.Document.nodes document.old) (tokens args.now.route)
        (D.Node.Document.nodes value.old) (D.Document.nodes document.new)
        D.Node.Document.nodes (D.finds document.old) (Some value.new)) }
    ensures sorted { IfOk result (λ _. D.Node.Document.has_sorted_keys value.old
        → D.Document.has_sorted_keys document.old → D.Document.has_sorted_keys document.new) }
    ensures refused { IfRefused result
        (IsFollowError (D.Document.nodes document.old) (tokens args.now.route)) }
    ensures unchanged { OnErr result (D.Document.stands_at document.old [] document.new
        × (value.new ≡ value.old)) }
    ensures no_memory { HasNoTilde (text (tokens args.now.route)) → HasMemory result }
{
    let node = document.descend(args)?;
    mem::swap(node, value);
    Ok(())
}

/// Assigns `value` where the tokens lead, if following them stops before the token at `offset`.
///
/// # Errors
///
/// Those of [`put_child`]. The document is unchanged, and `value` is dropped.
///
/// # Conditions
///
/// Following the tokens stops before the token at `offset`.
fn put_missing<D: Descend>(
    alloc: Global,
    document: &mut D,
    route: PointerText<'_>,
    offset: usize,
    value: D::Node,
) -> Result<Option<D::Node>, Fault<PutError>>
    requires { StopsThere (D.Document.nodes document.old) (tokens route) offset }
    ensures assigned { IfOk result (λ r.
        AssignsValue (D.Document.nodes document.old) (tokens route.entry)
        (D.Node.Document.nodes value) (D.Document.nodes document.new)
        D.Node.Document.nodes (D.finds document.old) r) }
    ensures sorted { IfOk result (λ _. D.Node.Document.has_sorted_keys value
        → D.Document.has_sorted_keys document.old → D.Document.has_sorted_keys document.new) }
    ensures refused { IfRefused result
        (IsPutError (D.Document.nodes document.old) (tokens route.entry)) }
    ensures unchanged { OnErr result (D.is_same document.old document.new) }
    ensures no_memory { NeedsNothing (D.Document.nodes document.old) (tokens route.entry)
        → HasMemory result }
{
    let Some((front, token, rest)) = token_at(route, offset) else {
        unreachable!();
    };
    let stop = Stop { front, token, rest };
    let args = DescendArgs {
        alloc,
        route: front,
    };
    match document.descend(&args) {
        Ok(node) => put_child(alloc, node, &stop, value),
        Err(Fault::Refused(_)) => unreachable!(),
        Err(Fault::Memory(error)) => {
            D::Node::discard(value);
            Err(Fault::Memory(error))
        }
    }
}

/// Assigns `value` below `node`, at which following stops, and returns the value that it replaces.
///
/// Adds a member to an object, appends to an array, or replaces a leaf by the expanded value.
/// Returns `Some` only if `node` was a leaf.
///
/// # Errors
///
/// - [`Fault::Refused`] if `node` is an array and the token is neither `-` nor its length.
/// - [`Fault::Memory`] if an allocation fails.
///
/// `node` is unchanged in both cases, and `value` is dropped.
///
/// # Conditions
///
/// `node` has no child that the token names.
fn put_child<N: DocumentMut>(
    alloc: Global,
    node: &mut N,
    stop: &Stop<'_>,
    value: N,
) -> Result<Option<N>, Fault<PutError>>
    requires { LacksStep (N.Document.nodes node.old) [] stop.now.token }
    ensures assigned { IfOk result (λ r.
        Assigns (N.Document.nodes node.old) (stop.now.token ∷ tokens stop.now.rest)
        (N.Document.nodes value) (N.Document.nodes node.new)
        (option_map N.Document.nodes r)) }
    ensures sorted { IfOk result (λ _. N.Document.has_sorted_keys value
        → N.Document.has_sorted_keys node.old → N.Document.has_sorted_keys node.new) }
    ensures refused { IfRefused result
        (IsPutErrorBelow (N.Document.nodes node.old) (tokens stop.now.front) stop.now.token) }
    ensures returned { (e : N) → result ≡ Ok (Some e) → e ≡ node.old }
    ensures unchanged { OnErr result (N.Document.stands_at node.old [] node.new) }
    ensures no_memory { (len : ℕ) → N.Document.nodes node.old [] ≡ Some (an_array len)
        → HasNoIndex len stop.now.token → HasMemory result }
{
    match node.node() {
        Node::Leaf => {
            let leaf = replace_leaf(alloc, node, &stop.token, stop.rest, value)?;
            Ok(Some(leaf))
        }
        Node::Object(_) => {
            insert_member(alloc, node, &stop.token, stop.rest, value)?;
            Ok(None)
        }
        Node::Array(elements) => {
            let length = elements.len();
            push_element(alloc, node, length, stop, value)?;
            Ok(None)
        }
    }
}

/// Replaces `node`, a leaf, by `value` expanded by `token` and `rest`, and returns the leaf.
///
/// # Errors
///
/// [`AllocError`] if an allocation fails. `node` is unchanged, and `value` is dropped.
fn replace_leaf<N: DocumentMut>(
    alloc: Global,
    node: &mut N,
    token: &Token<'_>,
    rest: PointerText<'_>,
    value: N,
) -> Result<N, AllocError>
    ensures replaced { IfOk result (λ _.
        N.Document.nodes node.new
        ≡ expanded (token.now ∷ tokens rest.entry) (N.Document.nodes value)) }
    ensures sorted { IfOk result (λ _.
        N.Document.has_sorted_keys value → N.Document.has_sorted_keys node.new) }
    ensures returned { IfOk result (λ leaf. leaf ≡ node.old) }
    ensures unchanged { OnErr result (N.Document.stands_at node.old [] node.new) }
{
    let below = expand(alloc, rest, value)?;
    let expanded = expand_one(alloc, token, below)?;
    Ok(mem::replace(node, expanded))
}

/// Inserts a member into `node`, an object: under the key `token`, `value` expanded by `rest`.
///
/// # Errors
///
/// [`AllocError`] if an allocation fails. `node` is unchanged, and `value` is dropped.
///
/// # Conditions
///
/// `node` is an object.
fn insert_member<N: DocumentMut>(
    alloc: Global,
    node: &mut N,
    token: &Token<'_>,
    rest: PointerText<'_>,
    value: N,
) -> Result<(), AllocError>
    requires { IsObject (N.Document.nodes node.old) }
    ensures inserted { IfOk result (λ _.
        N.Document.nodes node.new
        ≡ put (N.Document.nodes node.old) (key token.now ∷ [])
        (expanded (tokens rest.entry) (N.Document.nodes value))) }
    ensures sorted { IfOk result (λ _. N.Document.has_sorted_keys value
        → N.Document.has_sorted_keys node.old → N.Document.has_sorted_keys node.new) }
    ensures unchanged { OnErr result (N.Document.stands_at node.old [] node.new) }
{
    match key_of(alloc, token) {
        Ok(key) => {
            let expanded = expand(alloc, rest, value)?;
            node.insert(key, expanded)
        }
        Err(error) => {
            N::discard(value);
            Err(error)
        }
    }
}

/// Appends `value`, expanded by the tokens that are left, to `node`, an array of `length` elements.
///
/// # Errors
///
/// Those of [`check_append_index`] as [`Fault::Refused`], and [`Fault::Memory`] if an allocation
/// fails. `node` is unchanged, and `value` is dropped.
///
/// # Conditions
///
/// `node` is an array of `length` elements, and the token names none of them.
fn push_element<N: DocumentMut>(
    alloc: Global,
    node: &mut N,
    length: usize,
    stop: &Stop<'_>,
    value: N,
) -> Result<(), Fault<PutError>>
    requires array { N.Document.nodes node.old [] ≡ Some (an_array length) }
    requires lacks { (i : ℕ) → i < length → stop.now.token ≢ dec i }
    ensures end { IfOk result (λ _. IsTrue (is_append_index length stop.now.token)) }
    ensures pushed { IfOk result (λ _.
        Pushes (N.Document.nodes node.old) (expanded (tokens stop.now.rest) (N.Document.nodes value))
        (N.Document.nodes node.new)) }
    ensures sorted { IfOk result (λ _. N.Document.has_sorted_keys value
        → N.Document.has_sorted_keys node.old → N.Document.has_sorted_keys node.new) }
    ensures refused { IfRefused result (IsPutErrorAfter (tokens stop.now.front) length stop.now.token) }
    ensures unchanged { OnErr result (N.Document.stands_at node.old [] node.new) }
    ensures no_memory { HasNoIndex length stop.now.token → HasMemory result }
{
    if let Err(error) = check_append_index(stop.front, &stop.token, length) {
        N::discard(value);
        return Err(Fault::Refused(error));
    }
    let expanded = expand(alloc, stop.rest, value)?;
    node.push(expanded)?;
    Ok(())
}

/// Checks that `token` is `-` or `length`, the index after the last element of an array.
///
/// `front` are the tokens before it, for the position of an error.
///
/// # Errors
///
/// [`PutError`] if the token is not an index, or if its index is greater than `length`.
///
/// # Conditions
///
/// `token` is not the decimal text of a number less than `length`.
fn check_append_index(
    front: PointerText<'_>,
    token: &Token<'_>,
    length: usize,
) -> Result<(), PutError>
    requires { (i : ℕ) → i < length → token.now ≢ dec i }
    ensures end { IfOk result (λ _. IsTrue (is_append_index length token.now)) }
    ensures refused { IfErr result (IsPutErrorAfter (tokens front.entry) length token.now) }
{
    match token.to_index() {
        Ok(index) => match index.for_len_incl(length) {
            Ok(_) => Ok(()),
            Err(source) => Err(PutError {
                position: front.count(),
                offset: front.len(),
                cause: IndexError::OutOfBounds(source),
            }),
        },
        Err(source) => Err(PutError {
            position: front.count(),
            offset: front.len(),
            cause: IndexError::BadIndex(source),
        }),
    }
}

/// Returns `value`, expanded by the tokens of `route`, from the last to the first.
///
/// # Errors
///
/// [`AllocError`] if an allocation fails. `value` is dropped.
fn expand<N: DocumentMut>(alloc: Global, route: PointerText<'_>, value: N) -> Result<N, AllocError>
    ensures map { IfOk result (λ r.
        N.Document.nodes r ≡ expanded (tokens route.entry) (N.Document.nodes value)) }
    ensures sorted { IfOk result (λ r.
        N.Document.has_sorted_keys value → N.Document.has_sorted_keys r) }
{
    let mut expanded = value;
    let mut left = route;
    while let Some((front, token)) = left.split_back() {
        expanded = expand_one(alloc, &token, expanded)?;
        left = front;
    }
    Ok(expanded)
}

/// Returns a container of `value` alone: an array if `token` is `-` or `0`, and otherwise an
/// object.
///
/// # Errors
///
/// [`AllocError`] if an allocation fails. `value` is dropped.
fn expand_one<N: DocumentMut>(alloc: Global, token: &Token<'_>, value: N) -> Result<N, AllocError>
    ensures map { IfOk result (λ r.
        N.Document.nodes r ≡ expanded (token.now ∷ []) (N.Document.nodes value)) }
    ensures sorted { IfOk result (λ r.
        N.Document.has_sorted_keys value → N.Document.has_sorted_keys r) }
{
    if creates_array(token) {
        return N::array_of(alloc, value);
    }
    match key_of(alloc, token) {
        Ok(key) => N::object_of(alloc, key, value),
        Err(error) => {
            N::discard(value);
            Err(error)
        }
    }
}

/// Returns the key that the token names: its decoded text.
///
/// # Errors
///
/// [`AllocError`] if the allocation fails.
pub fn key_of(alloc: Global, token: &Token<'_>) -> Result<String, AllocError>
    ensures { IfOk result (λ key. string_bytes key ≡ token.now) }
{
    token.decoded(alloc)?.into_owned(alloc)
}

/// Returns whether path expansion makes an array for the token: whether it is `-` or `0`.
#[tactic(auto, using(crate::proofs::AssignLemmas::begins_some, crate::proofs::AssignLemmas::begins_none))]
fn creates_array(token: &Token<'_>) -> bool
    ensures { result ≡ is_append_index 0 token.now }
{
    match token.to_index() {
        Ok(index) => index.for_len_incl(0).is_ok(),
        Err(_) => false,
    }
}
