//! Whether a text is JSON.
ghost use Rattle.std.specs.Prelude.{◌≡◌, Some, None, false, IfOk, IsTrue};
ghost use Rattle.serde_json.specs.Data.{Data};
ghost use Rattle.serde_json.specs.Read.{read};

use json::{Invalid, Reader, Scratch};
use jsonptr_text_search::skip::skip;
use jsonptr_value::MAX_DEPTH;
use std::alloc::AllocError;

/// Returns whether `serde_json` reads the text as a document.
///
/// Reads the text once, and builds nothing of the document. Allocates as much as the text is long if
/// the scratch has less, to unescape strings. The scratch is that of any earlier call, also of one that
/// failed.
///
/// # Errors
///
/// [`AllocError`] if an allocation fails.
///
/// # Examples
///
/// ```rust
/// let mut scratch = Scratch::new(alloc);
/// assert_eq!(rt; is_document(&mut scratch, " {\"a\": [1.0]}\n")?, true);
/// assert_eq!(rt; is_document(&mut scratch, "{\"a\": [1.0]} 2")?, false);
/// ```
pub fn is_document(scratch: &mut Scratch, text: &str) -> Result<bool, AllocError>
    ensures yes { IfOk result (λ b. IsTrue b → (d : Data) × (read text.now ≡ Some d)) }
    ensures no { IfOk result (λ b. b ≡ false → read text.now ≡ None) }
{
    let mut reader = Reader::new(text, scratch)?;
    match skip(&mut reader, MAX_DEPTH) {
        Ok(()) => Ok(reader.next().is_none()),
        Err(Invalid) => Ok(false),
    }
}
