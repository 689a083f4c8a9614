//! The text of a TOML value.
ghost use Rattle.std.specs.Prelude.{◌≡◌, Some, IfOk, IfErr, string_bytes};
ghost use Rattle.toml.specs.View.{view};
ghost use Rattle.toml.specs.Parse.{parse_value};
ghost use Rattle.jsonptr_toml_edit.specs.RawValue.{IsRawTomlError};

use std::alloc::{AllocError, Global};
use thiserror::Error;
use toml::Value;

/// Why a text is not read as a TOML value.
#[derive(Debug, Drop, Error)]
pub enum RawTomlError {
    /// The text is not a TOML value, or white space or a comment is beside the value.
    #[error("text is not a TOML value")]
    NotAValue,
    /// An allocation failed.
    #[error("out of memory")]
    Memory(AllocError),
}

impl From<AllocError> for RawTomlError {
    ghost use Rattle.jsonptr_toml_edit.specs.declared.raw_value.RawTomlError.TheVariants.{Memory};

    ghost from_gives = { λ error fault. fault ≡ Memory error };

    fn from(error: AllocError) -> RawTomlError {
        RawTomlError::Memory(error)
    }
}

/// The text of a TOML value, as its author wrote it, and the value. It owns both.
///
/// The text has each number with its base, its underscores and its digits, each string with its
/// quotes, and the members of inline tables in their order. An edit with a raw value puts this text
/// into a document, where an edit with a [`Value`] prints the value: with sorted keys, `0xFF` as
/// `255`, and `1.10` as `1.1`.
#[derive(Debug, Drop)]
pub struct RawTomlValue {
    /// The text.
    pub text: String,
    /// What it is read as.
    pub value: Value,
    ghost reads: { ∥ parse_value (string_bytes text) ≡ Some (view value) ∥₁ },
}

impl RawTomlValue {
    /// Reads the text of a TOML value, such as `0xFF`, and not of a document. Copies it.
    ///
    /// # Errors
    ///
    /// - [`RawTomlError::NotAValue`] if the text is not a TOML value.
    /// - [`RawTomlError::Memory`] if an allocation fails.
    ///
    /// # Examples
    ///
    /// ```rust
    /// let mode = RawTomlValue::parse(alloc, "0o755")?;
    /// assert_eq!(rt; mode.text.as_str(), "0o755");
    /// assert_eq!(rt; mode.value.to_string(alloc)?.as_str(), "493");
    /// assert!(rt; RawTomlValue::parse(alloc, "0o755 # mode").is_err());
    /// ```
    pub fn parse(alloc: Global, text: &str) -> Result<RawTomlValue, RawTomlError>
        ensures same { IfOk result (λ r. string_bytes r.text ≡ text.now) }
        ensures value { IfOk result (λ r. parse_value text.now ≡ Some (view r.value)) }
        ensures refused { IfErr result (IsRawTomlError text.now) }
    {
        let copy = String::from_str(alloc, text)?;
        match Value::from_str(alloc, copy.as_str()) {
            Ok(value) => Ok(RawTomlValue { text: copy, value }),
            Err(error) if error.is_memory() => Err(RawTomlError::Memory(AllocError)),
            Err(_) => Err(RawTomlError::NotAValue),
        }
    }
}
