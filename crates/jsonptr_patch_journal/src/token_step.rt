//! Steps along the tokens of a pointer, without an allocation.
ghost use Rattle.std.specs.Prelude.{◌≡◌, ℕ, List, [], ◌∷◌, Some, IfOk, IfErr, MatchOption};
ghost use Rattle.std.specs.Borrow.{sem};
ghost use Rattle.serde_json.specs.contracts.value.Value.{the_row};
ghost use Rattle.jsonptr.specs.Text.{Text};
ghost use Rattle.jsonptr.specs.Content.{map_of};
ghost use Rattle.jsonptr.specs.Node.{an_array};
ghost use Rattle.jsonptr.specs.Pointer.{tokens};
ghost use Rattle.jsonptr_document.specs.ChildRef.{IsIndexIn};
ghost use Rattle.jsonptr_walk.specs.PrivateDescend.{Begins};
ghost use Rattle.jsonptr_patch_journal.specs.Location.{contents_of};
ghost use Rattle.jsonptr_patch_journal.specs.PrivateTokenStep.{IsTokenAt, IsElementIn, MovesByToken, IsLostAtToken, LendsTokenMove};

use crate::locate::index_in;
use jsonptr::{Pointer, PointerBuf, Token};
use jsonptr_document::document::{Document, Node};
use jsonptr_walk::descend::StepResult;
use serde_json::Value;

/// A pointer leads to no node of a document.
#[derive(Debug, Drop)]
pub struct TokenError {
    /// The offset of the first token that names no child.
    pub offset: usize,
}

/// Returns the token at the offset and the offset after it, or `None` after the last token.
fn token_at<'p>(pointer: Pointer<'p>, offset: usize) -> Option<(Token<'p>, usize)>
    ensures { MatchOption result
        ((front left : List Text) → Begins (tokens pointer.entry) offset front left → left ≡ [])
        (λ r. IsTokenAt (tokens pointer.entry) offset r.0 r.1) }
{
    match pointer.split_at_offset(offset) {
        None => None,
        Some((_front, rest)) => match rest.split_front() {
            None => None,
            Some((token, after)) => Some((token, pointer.as_str().len() - after.as_str().len())),
        },
    }
}

/// Returns the index that the token has in an array, or `None` if the value is not an array with it.
fn element_in(at: &Value, token: &Token<'_>) -> Option<usize>
    ensures { MatchOption result
        ((i : ℕ) → IsElementIn (contents_of at.now) token.now i → ⊥)
        (IsElementIn (contents_of at.now) token.now) }
{
    match at.node() {
        Node::Array(elements) => index_in(token, elements.len()),
        Node::Object(_) => None,
        Node::Leaf => None,
    }
}

/// Returns the child that the token at the offset names, or the value itself after the last token.
///
/// The pointer has no `~`. Needs no allocation.
///
/// # Errors
///
/// [`TokenError`] with the offset, if the token there names no child. The value is unchanged.
pub fn token_step<'v>(
    at: &'v mut Value,
    pointer: &PointerBuf,
    offset: usize,
) -> Result<StepResult<'v, Value>, TokenError>
    ensures* writes_back { sem 𝓛 (LendsTokenMove the_row (λ v. v) at.entry pointer.now offset result) }
    ensures value { IfOk result (λ r.
        MovesByToken pointer.now offset r.down at.old r.next r.node.now)
        × IfErr result (λ e. (e.offset ≡ offset) × IsLostAtToken pointer.now offset at.old) }
{
    let Some((token, next)) = token_at(pointer.as_ptr(), offset) else {
        return Ok(StepResult {
            node: at,
            next: offset,
            down: false,
        });
    };
    match element_in(&*at, &token) {
        Some(index) => match at.as_array_mut() {
            Some(elements) => {
                let node = &mut elements[index];
                Ok(StepResult {
                    node,
                    next,
                    down: true,
                })
            }
            None => unreachable!(),
        },
        None => match at.as_object_mut() {
            Some(members) => match members.get_mut(token.encoded()) {
                Some(node) => Ok(StepResult {
                    node,
                    next,
                    down: true,
                }),
                None => Err(TokenError { offset }),
            },
            None => Err(TokenError { offset }),
        },
    }
}
