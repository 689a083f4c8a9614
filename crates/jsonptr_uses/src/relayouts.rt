//! A document that another program changed, in its old layout.
ghost use Rattle.std.specs.Prelude.{◌≡◌, IfOk, IfErr, Some, string_bytes};
ghost use Rattle.serde_json.specs.Data.{Data};
ghost use Rattle.serde_json.specs.Read.{read};
ghost use Rattle.jsonptr.specs.Json.{nodes};
ghost use Rattle.jsonptr_text_relayout.specs.Relaying.{ReadsAs, IsRelayoutTextError};

use jsonptr_text_relayout::{Buffers, Relaid, RelayoutTextError, relayout_text};

/// Returns the text of a file after another program printed its document anew, in the layout that
/// the file had.
///
/// # Errors
///
/// Those of [`relayout_text`].
pub fn restored(
    buffers: &mut Buffers,
    file: &str,
    printed: &str,
) -> Result<String, RelayoutTextError>
    ensures reads { IfOk result (λ s. (d : Data) × (read printed.now ≡ Some d)
        × ReadsAs (string_bytes s) (nodes d)) }
    ensures refused { IfErr result (IsRelayoutTextError file.now printed.now) }
{
    match relayout_text(buffers, file, printed)? {
        Relaid::Kept(text) => Ok(text),
        Relaid::Rewritten(text) => Ok(text),
    }
}
