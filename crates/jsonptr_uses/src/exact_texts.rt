//! A document that is printed with sorted members, if no number loses digits.
ghost use Rattle.std.specs.Prelude.{◌≡◌, Some, IfOk, IfErr, string_bytes};
ghost use Rattle.serde_json.specs.Data.{Data};
ghost use Rattle.serde_json.specs.Read.{read};
ghost use Rattle.serde_json.specs.Written.{IsInOrder};
ghost use Rattle.jsonptr_text_digits.specs.Digits.{KeepsDigits};
ghost use Rattle.jsonptr_text_digits.specs.Exact.{IsExactError};

use jsonptr_text_digits::{ExactError, read_exactly};
use jsonptr_value::to_string;
use std::alloc::Global;

/// Returns the document of the text without white space, and with sorted members.
///
/// # Errors
///
/// [`ExactError::Lost`] if a number of the text loses digits, [`ExactError::NotJson`] if the text is not
/// JSON, and [`ExactError::Memory`] if an allocation fails.
pub fn sort_exactly(alloc: Global, text: &str) -> Result<String, ExactError>
    ensures sorted { IfOk result (λ s.
        (d : Data) × (read text.now ≡ Some d) × IsInOrder (string_bytes s) d) }
    ensures digits { IfOk result (λ _. KeepsDigits text.now) }
    ensures refused { IfErr result (IsExactError text.now) }
{
    let document = read_exactly(alloc, text)?;
    Ok(to_string(alloc, &document)?)
}
