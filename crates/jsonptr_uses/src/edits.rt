//! Edits of a pointer that undo each other.
ghost use Rattle.std.specs.Prelude.{◌≡◌, ◌⊎◌, ◌∷◌, ◌++◌, [], Some, IfOk, OnErr};

use jsonptr::{PointerBuf, Token};
use std::alloc::AllocError;

/// Appends a token and removes it again. Returns the token, and restores the pointer.
///
/// # Errors
///
/// [`AllocError`] if an allocation fails.
pub fn pushed_and_popped_back(
    pointer: &mut PointerBuf,
    token: Token<'_>,
) -> Result<Option<Token<'static>>, AllocError>
    ensures popped { IfOk result (λ popped. popped ≡ Some token.entry) }
    ensures restored { IfOk result (λ _. pointer.new ≡ pointer.old) }
    ensures left { OnErr result
        ((pointer.new ≡ pointer.old) ⊎ (pointer.new ≡ pointer.old ++ token.entry ∷ [])) }
{
    pointer.push_back(token)?;
    pointer.pop_back()
}

/// Inserts a token before all others and removes it again. Returns the token, and restores the
/// pointer.
///
/// # Errors
///
/// [`AllocError`] if an allocation fails.
pub fn pushed_and_popped_front(
    pointer: &mut PointerBuf,
    token: Token<'_>,
) -> Result<Option<Token<'static>>, AllocError>
    ensures popped { IfOk result (λ popped. popped ≡ Some token.entry) }
    ensures restored { IfOk result (λ _. pointer.new ≡ pointer.old) }
    ensures left { OnErr result
        ((pointer.new ≡ pointer.old) ⊎ (pointer.new ≡ token.entry ∷ pointer.old)) }
{
    pointer.push_front(token)?;
    pointer.pop_front()
}
