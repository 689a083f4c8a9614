//! Results that are copied to a buffer of the caller.
ghost use Rattle.std.specs.Prelude.{◌≡◌, ◌≤◌, MatchResult, take, length};
ghost use Rattle.jsonptr_c_calls.specs.Failures.{LacksRoom};

use crate::call_error::CallError;

/// Copies a text to the start of the buffer, and returns its length.
///
/// # Errors
///
/// [`CallError::NoRoom`] if the buffer is shorter than the text. It is unchanged.
pub fn copy_to(text: &[u8], out: &mut [u8]) -> Result<usize, CallError>
    ensures copied { MatchResult result
        (λ n. (n ≡ length text.now) × (n ≤ length out.new) × (take n out.new ≡ text.now))
        (λ e. LacksRoom (length text.now) (length out.old) e × (out.new ≡ out.old)) }
{
    if text.len() > out.len() {
        return Err(CallError::NoRoom { needed: text.len() });
    }
    out[..text.len()].copy_from_slice(text);
    Ok(text.len())
}
