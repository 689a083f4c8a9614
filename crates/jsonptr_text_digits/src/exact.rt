//! Documents that are read with all their digits.
ghost use Rattle.std.specs.Prelude.{◌≡◌, Some, IfOk, IfErr};
ghost use Rattle.serde_json.specs.Read.{read};
ghost use Rattle.serde_json.specs.View.{view};
ghost use Rattle.jsonptr_text_digits.specs.Digits.{KeepsDigits};
ghost use Rattle.jsonptr_text_digits.specs.Exact.{IsExactError, exact_of_read};
ghost use Rattle.jsonptr_text_digits.specs.declared.exact.ExactError.TheVariants.{Memory};

use crate::lost::Lost;
use crate::search::find_lost;
use jsonptr_value::ReadError;
use serde_json::Value;
use std::alloc::{AllocError, Global};
use thiserror::Error;

/// Why a document was not read with all its digits.
#[derive(Debug, Drop, Error)]
pub enum ExactError {
    /// `serde_json` does not read the text.
    #[error("text is not JSON")]
    NotJson,
    /// A number of the text loses digits.
    #[error("{0}")]
    Lost(Lost),
    /// An allocation failed.
    #[error("out of memory")]
    Memory(AllocError),
}

impl From<AllocError> for ExactError {
    ghost from_gives = { λ error fault. fault ≡ Memory error };

    fn from(error: AllocError) -> ExactError {
        ExactError::Memory(error)
    }
}

impl From<ReadError> for ExactError {
    ghost from_gives = { λ error fault. fault ≡ exact_of_read error };

    fn from(error: ReadError) -> ExactError {
        match error {
            ReadError::NotJson => ExactError::NotJson,
            ReadError::Memory(error) => ExactError::Memory(error),
        }
    }
}

/// Reads a document, each number of which keeps its decimal value.
///
/// # Errors
///
/// - [`ExactError::NotJson`] if `serde_json` does not read the text.
/// - [`ExactError::Lost`] if a number of the text loses digits.
/// - [`ExactError::Memory`] if an allocation fails.
///
/// # Examples
///
/// ```rust
/// let document = read_exactly(alloc, "[1.10, 1e5]")?;
/// assert_eq!(rt; document.to_string(alloc)?.as_str(), "[1.1,100000.0]");
/// let long = read_exactly(alloc, "[3.14159265358979323846]");
/// let message = format!(in alloc; "{}", long.err().ok_or("an error")?)?;
/// assert_eq!(rt; message.as_str(), "the number at /0 loses digits");
/// ```
pub fn read_exactly(alloc: Global, text: &str) -> Result<Value, ExactError>
    ensures read { IfOk result (λ v. read text.now ≡ Some (view v)) }
    ensures digits { IfOk result (λ _. KeepsDigits text.now) }
    ensures refused { IfErr result (IsExactError text.now) }
{
    let value = jsonptr_value::read(alloc, text)?;
    match find_lost(alloc, text)? {
        Some(lost) => Err(ExactError::Lost(lost)),
        None => Ok(value),
    }
}
