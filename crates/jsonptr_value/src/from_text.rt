//! Reading a JSON value from a text.
ghost use Rattle.std.specs.Prelude.{◌≡◌, ◌≢◌, ◌≤◌, [], Some, None, Ok, Err, IfOk, IfErr, MatchOption};
ghost use Rattle.serde_json.specs.Data.{depth};
ghost use Rattle.serde_json.specs.Read.{max_depth, read as spec_read};
ghost use Rattle.serde_json.specs.View.{view};
ghost use Rattle.jsonptr_tree.specs.Json.{HasSortedKeys};
ghost use Rattle.jsonptr_value.specs.Reading.{IsReadError};
ghost use Rattle.jsonptr_value.specs.declared.from_text.ReadError.TheVariants.{NotJson, Memory};

use json::Invalid;
use serde_json::Value;
use std::alloc::{AllocError, AllocFailed, Global};
use thiserror::Error;

/// Why a text is not read as a JSON value.
#[derive(Clone, Copy, Debug, Drop, PartialEq, Eq, Error)]
pub enum ReadError {
    /// `serde_json` does not read the text.
    #[error("text is not JSON")]
    NotJson,
    /// An allocation failed.
    #[error("out of memory")]
    Memory(AllocError),
}

impl From<Invalid> for ReadError {
    ghost use Rattle.std.specs.Prelude.{◌≡◌};
    ghost use Rattle.jsonptr_value.specs.declared.from_text.ReadError.TheVariants.{NotJson};

    ghost from_gives = { λ _ error. error ≡ NotJson };

    fn from(_invalid: Invalid) -> ReadError {
        ReadError::NotJson
    }
}

impl From<AllocError> for ReadError {
    ghost use Rattle.std.specs.Prelude.{◌≡◌};
    ghost use Rattle.jsonptr_value.specs.declared.from_text.ReadError.TheVariants.{Memory};

    ghost from_gives = { λ error fault. fault ≡ Memory error };

    fn from(error: AllocError) -> ReadError {
        ReadError::Memory(error)
    }
}

impl<T: Drop> From<AllocFailed<T>> for ReadError {
    ghost use Rattle.std.specs.Prelude.{◌≡◌, alloc_error};
    ghost use Rattle.jsonptr_value.specs.declared.from_text.ReadError.TheVariants.{Memory};

    ghost from_gives = { λ _ error. error ≡ Memory alloc_error };

    fn from(_failed: AllocFailed<T>) -> ReadError {
        ReadError::Memory(AllocError)
    }
}

/// Reads the JSON value that the text is, as `Value::from_str` does. The keys of each of its objects
/// are sorted.
///
/// # Errors
///
/// [`ReadError::NotJson`] if `serde_json` does not read the text, and [`ReadError::Memory`] if an
/// allocation fails.
///
/// # Examples
///
/// ```rust
/// let value = jsonptr_value::read(alloc, "[1, 2]")?;
/// assert_eq!(rt; value.as_array().map(Vec::len), Some(2));
/// let error = jsonptr_value::read(alloc, "[1, 2").err();
/// assert_eq!(rt; error, Some(jsonptr_value::ReadError::NotJson));
/// ```
pub fn read(alloc: Global, text: &str) -> Result<Value, ReadError>
    ensures value { IfOk result (λ v. spec_read text.now ≡ Some (view v)) }
    ensures sorted { IfOk result (λ v. HasSortedKeys (view v)) }
    ensures depth { IfOk result (λ v. depth (view v) ≤ max_depth) }
    ensures refused { IfErr result (IsReadError text.now) }
    // An empty text needs no allocation.
    ensures no_memory { IfErr result (λ error. error ≢ NotJson → text.now ≢ []) }
{
    match Value::from_str(alloc, text) {
        Ok(value) => Ok(value),
        Err(error) if error.is_memory() => Err(ReadError::Memory(AllocError)),
        Err(_) => Err(ReadError::NotJson),
    }
}

/// Returns what was read, or `None` if the text is not JSON.
///
/// # Errors
///
/// [`AllocError`] if an allocation failed.
///
/// # Examples
///
/// ```rust
/// let value = if_json(jsonptr_value::read(alloc, "[1, 2]"))?;
/// assert_eq!(rt; value.and_then(|value| value.as_array().map(Vec::len)), Some(2));
/// assert!(rt; if_json(jsonptr_value::read(alloc, "[1, 2"))?.is_none());
/// ```
pub fn if_json<T: Drop>(read: Result<T, ReadError>) -> Result<Option<T>, AllocError>
    ensures json { IfOk result (λ o. MatchOption o (read ≡ Err NotJson) (λ value. read ≡ Ok value)) }
    ensures refused { IfErr result (λ error. read ≡ Err (Memory error)) }
{
    match read {
        Ok(value) => Ok(Some(value)),
        Err(ReadError::NotJson) => Ok(None),
        Err(ReadError::Memory(error)) => Err(error),
    }
}
