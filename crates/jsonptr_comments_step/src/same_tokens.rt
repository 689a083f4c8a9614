//! Texts with the same tokens.
ghost use Rattle.std.specs.Prelude.{◌≡◌, IfOk, IsTrue};
ghost use Rattle.json.specs.Lex.{tokens};

use json::Reader;
use jsonptr_text_check::token::is_same;
use jsonptr_text_piece::buffers::Buffers;
use std::alloc::AllocError;

/// Returns whether the texts have the same tokens.
///
/// # Errors
///
/// [`AllocError`] if an allocation fails.
pub fn have_same_tokens(buffers: &mut Buffers, text: &str, other: &str) -> Result<bool, AllocError>
    ensures { IfOk result (λ b. IsTrue b → tokens text.now ≡ tokens other.now) }
{
    let mut one = Reader::new(text, &mut buffers.old)?;
    let mut two = Reader::new(other, &mut buffers.new)?;
    Ok(agree(&mut one, &mut two))
}

/// Returns whether both readers have the same tokens left.
fn agree(one: &mut Reader<'_>, two: &mut Reader<'_>) -> bool
    ensures { IsTrue result → one.old ≡ two.old }
{
    while let Some(token) = one.next() {
        let Some(twin) = two.next() else {
            return false;
        };
        if !is_same(token, twin) {
            return false;
        }
    }
    two.next().is_none()
}
