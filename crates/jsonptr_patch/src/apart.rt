//! Whether two patches are apart: then they can be applied in either order.
ghost use Rattle.std.specs.Prelude.{◌≡◌, ◌↔◌, ◌∷◌, List, [], IfOk, IsTrue, MatchOption};
ghost use Rattle.serde_json.specs.View.{view};
ghost use Rattle.jsonptr.specs.Json.{nodes};
ghost use Rattle.jsonptr.specs.Pointer.{tokens};
ghost use Rattle.jsonptr.specs.Text.{Text};
ghost use Rattle.jsonptr_patch.specs.Apart.{Diverges, AllDiverge, pointers, all_pointers, PatchesAreApart};
ghost use Rattle.jsonptr_patch.specs.PrivateLater.{Forks, IsObjectAt};

use crate::operation::Operation;
use jsonptr::{Fault, Pointer};
use jsonptr_document::document::{Document, Node};
use serde_json::Value;
use std::alloc::{AllocError, Global};

/// Returns whether two patches are apart at the document: each pointer of one diverges from each
/// pointer of the other at an object of the document.
///
/// Two pointers diverge at an object if they begin with the same tokens, these resolve to an object,
/// and the next tokens differ. So the two patches change different members of the same objects. Then
/// their result is the same in either order, and neither can make the other one fail
/// ([`laws::apart`](crate::laws::apart)).
///
/// Each pointer is compared with each pointer of the other patch.
///
/// ```rust
/// let document = json!(in alloc; {"author": {"name": "A"}, "tags": []})?;
/// let name = PointerBuf::from_text(alloc, "/author/name")?;
/// let mail = PointerBuf::from_text(alloc, "/author/mail")?;
/// let value = json!(in alloc; "a@example.org")?;
/// let hers = vec![in alloc; Operation::Remove { path: name }]?;
/// let his = vec![in alloc; Operation::Add { path: mail, value }]?;
/// assert!(rt; are_apart(alloc, &document, &hers, &his)?);
/// assert!(rt; !are_apart(alloc, &document, &his, &his)?);
/// ```
///
/// # Errors
///
/// [`AllocError`] if an allocation fails.
pub fn are_apart(
    alloc: Global,
    document: &Value,
    left: &[Operation],
    right: &[Operation],
) -> Result<bool, AllocError>
    ensures { IfOk result (λ apart.
        IsTrue apart ↔ PatchesAreApart (nodes (view document.now)) left.now right.now) }
{
    for operation in left {
        if !is_apart_from_each(alloc, document, operation, right)? {
            return Ok(false);
        }
    }
    Ok(true)
}

/// Returns whether an operation is apart from each of the others.
///
/// # Errors
///
/// [`AllocError`] if an allocation fails.
fn is_apart_from_each(
    alloc: Global,
    document: &Value,
    operation: &Operation,
    others: &[Operation],
) -> Result<bool, AllocError>
    ensures { IfOk result (λ apart. IsTrue apart
        ↔ AllDiverge (nodes (view document.now)) (pointers operation.now) (all_pointers others.now)) }
{
    match operation {
        Operation::Add { path, .. } => diverges_from_each(alloc, document, path.as_ptr(), others),
        Operation::Remove { path } => diverges_from_each(alloc, document, path.as_ptr(), others),
        Operation::Replace { path, .. } => diverges_from_each(
            alloc,
            document,
            path.as_ptr(),
            others,
        ),
        Operation::Move { from, path } => {
            both_diverge_from_each(alloc, document, from.as_ptr(), path.as_ptr(), others)
        }
        Operation::Copy { from, path } => {
            both_diverge_from_each(alloc, document, from.as_ptr(), path.as_ptr(), others)
        }
        Operation::Test { path, .. } => diverges_from_each(alloc, document, path.as_ptr(), others),
    }
}

/// Returns whether both pointers diverge from each pointer of the operations.
///
/// # Errors
///
/// [`AllocError`] if an allocation fails.
fn both_diverge_from_each(
    alloc: Global,
    document: &Value,
    from: Pointer<'_>,
    path: Pointer<'_>,
    others: &[Operation],
) -> Result<bool, AllocError>
    ensures { IfOk result (λ apart. IsTrue apart ↔ AllDiverge (nodes (view document.now))
        (tokens from.entry ∷ tokens path.entry ∷ []) (all_pointers others.now)) }
{
    if !diverges_from_each(alloc, document, from, others)? {
        return Ok(false);
    }
    diverges_from_each(alloc, document, path, others)
}

/// Returns whether the pointer diverges from each pointer of the operations.
///
/// # Errors
///
/// [`AllocError`] if an allocation fails.
fn diverges_from_each(
    alloc: Global,
    document: &Value,
    pointer: Pointer<'_>,
    others: &[Operation],
) -> Result<bool, AllocError>
    ensures { IfOk result (λ apart. IsTrue apart
        ↔ AllDiverge (nodes (view document.now)) (tokens pointer.entry ∷ []) (all_pointers others.now)) }
{
    for other in others {
        if !diverges_from_one(alloc, document, pointer, other)? {
            return Ok(false);
        }
    }
    Ok(true)
}

/// Returns whether the pointer diverges from each pointer of the operation.
///
/// # Errors
///
/// [`AllocError`] if an allocation fails.
fn diverges_from_one(
    alloc: Global,
    document: &Value,
    pointer: Pointer<'_>,
    other: &Operation,
) -> Result<bool, AllocError>
    ensures { IfOk result (λ apart. IsTrue apart
        ↔ AllDiverge (nodes (view document.now)) (tokens pointer.entry ∷ []) (pointers other.now)) }
{
    match other {
        Operation::Add { path, .. } => diverge(alloc, document, pointer, path.as_ptr()),
        Operation::Remove { path } => diverge(alloc, document, pointer, path.as_ptr()),
        Operation::Replace { path, .. } => diverge(alloc, document, pointer, path.as_ptr()),
        Operation::Move { from, path } => {
            diverges_from_both(alloc, document, pointer, from.as_ptr(), path.as_ptr())
        }
        Operation::Copy { from, path } => {
            diverges_from_both(alloc, document, pointer, from.as_ptr(), path.as_ptr())
        }
        Operation::Test { path, .. } => diverge(alloc, document, pointer, path.as_ptr()),
    }
}

/// Returns whether the pointer diverges from the two others.
///
/// # Errors
///
/// [`AllocError`] if an allocation fails.
fn diverges_from_both(
    alloc: Global,
    document: &Value,
    pointer: Pointer<'_>,
    from: Pointer<'_>,
    path: Pointer<'_>,
) -> Result<bool, AllocError>
    ensures { IfOk result (λ apart. IsTrue apart ↔ AllDiverge (nodes (view document.now))
        (tokens pointer.entry ∷ []) (tokens from.entry ∷ tokens path.entry ∷ [])) }
{
    if !diverge(alloc, document, pointer, from)? {
        return Ok(false);
    }
    diverge(alloc, document, pointer, path)
}

/// Returns whether the two pointers diverge at an object of the document.
///
/// # Errors
///
/// [`AllocError`] if an allocation fails.
pub fn diverge(
    alloc: Global,
    document: &Value,
    left: Pointer<'_>,
    right: Pointer<'_>,
) -> Result<bool, AllocError>
    ensures { IfOk result (λ apart. IsTrue apart ↔ AllDiverge (nodes (view document.now))
        (tokens left.entry ∷ []) (tokens right.entry ∷ [])) }
{
    match fork(left, right) {
        Some(common) => resolves_to_object(alloc, document, common),
        None => Ok(false),
    }
}

/// Returns the prefix at whose end two pointers diverge, or `None` if one is a prefix of the other.
pub fn fork<'a>(left: Pointer<'a>, right: Pointer<'_>) -> Option<Pointer<'a>>
    ensures { MatchOption result
        ((front : List Text) → Forks (tokens left.entry) (tokens right.entry) front → ⊥)
        (λ common. Forks (tokens left.entry) (tokens right.entry) (tokens common)) }
{
    let common = left.intersection(right);
    let rest = left.strip_prefix(common)?;
    let (x, _) = rest.split_front()?;
    let other = right.strip_prefix(common)?;
    let (y, _) = other.split_front()?;
    if x == y {
        return None;
    }
    Some(common)
}

/// Returns whether the pointer resolves to an object.
///
/// # Errors
///
/// [`AllocError`] if an allocation fails.
pub fn resolves_to_object(
    alloc: Global,
    document: &Value,
    pointer: Pointer<'_>,
) -> Result<bool, AllocError>
    ensures { IfOk result (λ is.
        IsTrue is ↔ IsObjectAt (nodes (view document.now)) (tokens pointer.entry)) }
{
    match pointer.resolve(alloc, document) {
        Ok(value) => match value.node() {
            Node::Object(_) => Ok(true),
            Node::Array(_) => Ok(false),
            Node::Leaf => Ok(false),
        },
        Err(Fault::Refused(_)) => Ok(false),
        Err(Fault::Memory(error)) => Err(error),
    }
}
