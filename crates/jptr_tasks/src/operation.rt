//! A move and a copy of a value, as patches of one operation (RFC 6902, section 4), and the error of one operation.
ghost use Rattle.std.specs.Prelude.{◌≡◌, ◌↔◌, ◌∷◌, [], IsTrue, OnOk, IfOk, IfErr, MatchOption};
ghost use Rattle.jsonptr.specs.Pointer.{tokens};
ghost use Rattle.serde_json.specs.View.{view};
ghost use Rattle.jsonptr_patch.specs.Operating.{IsProperPrefix};
ghost use Rattle.jsonptr_patch.specs.declared.operation.Operation.TheVariants.{Move, Copy, Remove};
ghost use Rattle.jsonptr_text_resolve.specs.InText.{FindsInText};
ghost use Rattle.jsonptr_text_value.specs.Operations.{operations_in};
ghost use Rattle.jptr_tasks.specs.PrivateTransfers.{HasNoSibling};
ghost use Rattle.jptr_tasks.specs.Transfers.{IsMoveError, MovesOnlyChild, AreSiblings, IsFound, HoldsOne, IsOwnError, tokens_at_fault};
ghost use Rattle.jptr_tasks.specs.declared.operation.MoveError.TheVariants as moves;

use crate::task_error::TaskError;
use jsonptr::index::Index;
use jsonptr::{Pointer, Token};
use jsonptr_patch::{FailedOperation, Operation, PatchError, PatchPointer, is_proper_prefix};
use jsonptr_text_edit::PatchText;
use jsonptr_text_resolve::{InTextError, resolve_in_text};
use jsonptr_value::{NodeType, length, node_type};
use serde_json::Value;
use std::alloc::{AllocError, Global};

/// Why there is no patch that moves a value.
#[derive(Debug, Drop)]
pub enum MoveError {
    /// The pointer of the value is a proper prefix of the pointer to which it is moved. Such a move fails in
    /// every document (RFC 6902, section 4.4).
    IntoSelf,
    /// An allocation failed.
    Memory(AllocError),
}

impl From<AllocError> for MoveError {
    ghost from_gives = { λ error move_error. move_error ≡ moves.Memory error };

    fn from(error: AllocError) -> MoveError {
        MoveError::Memory(error)
    }
}

/// Returns the patch that moves the value at `from` to `path`: one operation `move`.
///
/// # Errors
///
/// - [`MoveError::IntoSelf`] if `from` is a proper prefix of `path`.
/// - [`MoveError::Memory`] if an allocation fails.
///
/// # Examples
///
/// ```rust
/// let patch = move_patch(alloc, Pointer::parse("/a")?, Pointer::parse("/b")?).ok().ok_or("a patch")?;
/// let text = r#"[{"from":"/a","op":"move","path":"/b"}]"#;
/// assert_eq!(rt; patch.document.to_string(alloc)?.as_str(), text);
/// let below = move_patch(alloc, Pointer::parse("/a")?, Pointer::parse("/a/b")?);
/// assert!(rt; matches!(below, Err(MoveError::IntoSelf)));
/// ```
pub fn move_patch(
    alloc: Global,
    from: Pointer<'_>,
    path: Pointer<'_>,
) -> Result<PatchText, MoveError>
    ensures moves { IfOk result (λ p. operations_in p.operations.items
        ≡ Move (tokens from.entry) (tokens path.entry) ∷ []) }
    ensures apart { OnOk result (IsProperPrefix (tokens from.entry) (tokens path.entry) → ⊥) }
    ensures refused { IfErr result (IsMoveError (tokens from.entry) (tokens path.entry)) }
{
    if is_proper_prefix(from, path) {
        return Err(MoveError::IntoSelf);
    }
    Ok(patch_of_move(alloc, from, path)?)
}

/// Returns the patch of the one operation `move`.
fn patch_of_move(
    alloc: Global,
    from: Pointer<'_>,
    path: Pointer<'_>,
) -> Result<PatchText, AllocError>
    ensures { IfOk result (λ p. operations_in p.operations.items
        ≡ Move (tokens from.entry) (tokens path.entry) ∷ []) }
{
    let (from, path) = (from.to_buf(alloc)?, path.to_buf(alloc)?);
    let operations = vec![in alloc; Operation::Move { from, path }]?;
    PatchText::from_operations(alloc, operations)
}

/// Returns the patch that copies the value at `from` to `path`: one operation `copy`.
///
/// # Errors
///
/// [`AllocError`] if an allocation fails.
///
/// # Examples
///
/// ```rust
/// let patch = copy_patch(alloc, Pointer::parse("/a")?, Pointer::parse("/a/b")?)?;
/// let text = r#"[{"from":"/a","op":"copy","path":"/a/b"}]"#;
/// assert_eq!(rt; patch.document.to_string(alloc)?.as_str(), text);
/// ```
pub fn copy_patch(
    alloc: Global,
    from: Pointer<'_>,
    path: Pointer<'_>,
) -> Result<PatchText, AllocError>
    ensures { IfOk result (λ p. operations_in p.operations.items
        ≡ Copy (tokens from.entry) (tokens path.entry) ∷ []) }
{
    let (from, path) = (from.to_buf(alloc)?, path.to_buf(alloc)?);
    let operations = vec![in alloc; Operation::Copy { from, path }]?;
    PatchText::from_operations(alloc, operations)
}

/// Returns the patch that copies the value at `from` to `path`, and then removes it at `from`: the operations
/// `copy` and `remove`.
///
/// For a value that is moved to another key of its object, or to the end of its array, this is what the move
/// does. While the copy is made the value is still there, so that the text shows how a child is laid out.
///
/// # Errors
///
/// [`AllocError`] if an allocation fails.
///
/// # Examples
///
/// ```rust
/// let patch = copy_and_remove_patch(alloc, Pointer::parse("/0")?, Pointer::parse("/-")?)?;
/// let text = r#"[{"from":"/0","op":"copy","path":"/-"},{"op":"remove","path":"/0"}]"#;
/// assert_eq!(rt; patch.document.to_string(alloc)?.as_str(), text);
/// ```
pub fn copy_and_remove_patch(
    alloc: Global,
    from: Pointer<'_>,
    path: Pointer<'_>,
) -> Result<PatchText, AllocError>
    ensures { IfOk result (λ p. operations_in p.operations.items
        ≡ Copy (tokens from.entry) (tokens path.entry) ∷ Remove (tokens from.entry) ∷ []) }
{
    let copy = Operation::Copy {
        from: from.to_buf(alloc)?,
        path: path.to_buf(alloc)?,
    };
    let remove = Operation::Remove {
        path: from.to_buf(alloc)?,
    };
    let operations = vec![in alloc; copy, remove]?;
    PatchText::from_operations(alloc, operations)
}

/// Returns whether the value at `from` is the only child of an array or an object in the text of a document, and
/// `path` is another place for it there: a key of the object, or the end of the array.
///
/// It is `false` in a text that is not JSON.
///
/// # Errors
///
/// [`AllocError`] if an allocation fails.
///
/// # Examples
///
/// ```rust
/// let (first, end) = (Pointer::parse("/a/0")?, Pointer::parse("/a/-")?);
/// assert!(rt; moves_only_child(alloc, r#"{"a": [1]}"#, first, end)?);
/// assert!(rt; !moves_only_child(alloc, r#"{"a": [1, 2]}"#, first, end)?);
/// ```
pub fn moves_only_child(
    alloc: Global,
    text: &str,
    from: Pointer<'_>,
    path: Pointer<'_>,
) -> Result<bool, AllocError>
    ensures { IfOk result (λ moves. IsTrue moves
        ↔ MovesOnlyChild text.now (tokens from.entry) (tokens path.entry)) }
{
    let Some((parent, last)) = siblings(from, path) else {
        return Ok(false);
    };
    let Some(_found) = value_at(alloc, text, from)? else {
        return Ok(false);
    };
    match value_at(alloc, text, parent)? {
        Some(value) => Ok(holds_one(&value, last)),
        None => Ok(false),
    }
}

/// Returns the parent of both pointers, and the last token of `path`. Returns `None` if they do not have the
/// same parent.
fn siblings<'a>(from: Pointer<'a>, path: Pointer<'a>) -> Option<(Pointer<'a>, Token<'a>)>
    ensures { MatchOption result
        (HasNoSibling (tokens from.entry) (tokens path.entry))
        (λ r. AreSiblings (tokens from.entry) (tokens path.entry) (tokens r.0) r.1) }
{
    let parent = from.parent()?;
    let rest = path.strip_prefix(parent)?;
    let (between, last) = rest.split_back()?;
    if between.is_root() {
        Some((parent, last))
    } else {
        None
    }
}

/// Returns the value that the pointer resolves to in the text of a document. Returns `None` if there is none, or
/// if the text is not JSON.
fn value_at(alloc: Global, text: &str, pointer: Pointer<'_>) -> Result<Option<Value>, AllocError>
    ensures { IfOk result (λ o. MatchOption o
        (IsFound text.now (tokens pointer.entry) → ⊥)
        (λ v. FindsInText text.now (tokens pointer.entry) (view v))) }
{
    match resolve_in_text(alloc, text, pointer) {
        Ok(value) => Ok(Some(value)),
        Err(InTextError::NotJson) => Ok(None),
        Err(InTextError::Resolve(_error)) => Ok(None),
        Err(InTextError::Memory(error)) => Err(error),
    }
}

/// Returns whether the value is an array or an object with one child, and the token is another place for this
/// child: a key of the object, or the end of the array.
fn holds_one(value: &Value, token: Token<'_>) -> bool
    ensures { IsTrue result ↔ HoldsOne (view value.now) token.entry }
{
    if !matches!(length(value), Some(1)) {
        return false;
    }
    match node_type(value) {
        NodeType::Object => true,
        NodeType::Array => is_end(token),
        _ => false,
    }
}

/// Returns whether the token is `-`, the end of an array.
fn is_end(token: Token<'_>) -> bool
    ensures { IsTrue result ↔ (token.entry ≡ 45 ∷ []) }
{
    match token.to_index() {
        Ok(Index::Next) => true,
        Ok(Index::Num(_index)) => false,
        Err(_error) => false,
    }
}

/// Returns the error of a patch of one operation without the number of the operation: that of the pointer, if one
/// is at fault.
///
/// # Examples
///
/// ```rust
/// let mut document = json!(in alloc; {"a": 1})?;
/// let remove = Operation::Remove { path: PointerBuf::from_text(alloc, "/b")? };
/// let patch = vec![in alloc; remove]?;
/// let applied = apply_naming_pointer(alloc, &mut document, patch, Comparison::Numeric);
/// let failed = applied.err().ok_or("an error")?.refused()?;
/// assert!(rt; matches!(own_error(failed), TaskError::Resolve(_)));
/// ```
pub fn own_error(failed: FailedOperation) -> TaskError
    ensures { IsOwnError failed result }
{
    let pointer = failed.pointer;
    match failed.error {
        PatchError::NoTarget { cause, .. } => TaskError::Resolve(cause),
        PatchError::BadPlace { cause, .. } => TaskError::Assign(cause),
        error => TaskError::PatchFailed(FailedOperation { error, pointer }),
    }
}

/// Returns the pointer that the error of an operation is about: `from` if that is at fault, or else `path`.
pub fn pointer_at_fault<'a>(
    failed: &FailedOperation,
    from: Pointer<'a>,
    path: Pointer<'a>,
) -> Pointer<'a>
    ensures { tokens result ≡ tokens_at_fault failed.now (tokens from.entry) (tokens path.entry) }
{
    match failed.pointer {
        Some(PatchPointer::From) => from,
        Some(PatchPointer::Path) | None => path,
    }
}
