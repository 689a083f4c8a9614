//! Pairs of a key and a value.
ghost use Rattle.std.specs.Prelude.{◌≡◌, [], ◌∷◌, Some, IsTrue, IfOk, IfSome};
ghost use Rattle.toml.specs.Data.{Data};
ghost use Rattle.toml.specs.View.{view};
ghost use Rattle.toml.specs.Parse.{key_equals};
ghost use Rattle.toml_parser.specs.Reading.{key_view};
ghost use Rattle.jsonptr.specs.Text.{Text};
ghost use Rattle.jsonptr.specs.Pointer.{tokens};
ghost use Rattle.jsonptr_toml_edit.specs.Bytes.{IsTomlPair};

use crate::read_back::is_text_of;
use jsonptr::Pointer;
use std::alloc::{AllocError, Global};
use toml::Value;
use toml_parser::text::{first, skip, skip_ws};
use toml_parser::{Key, ParseError, dotted_key};

/// Returns the key at the start of the text, and what follows the equals sign after it.
fn key_of(alloc: Global, text: &str) -> Result<Option<(Key, &str)>, AllocError>
    ensures { IfOk result (λ o. IfSome o
        (λ r. key_equals text.now ≡ Some (key_view r.0, r.1.now))) }
{
    let (key, rest) = match dotted_key(alloc, text) {
        Ok(read) => read,
        Err(ParseError::OutOfMemory) => return Err(AllocError),
        Err(_) => return Ok(None),
    };
    if first(rest) != b'=' {
        return Ok(None);
    }
    Ok(Some((key, skip_ws(skip(rest, 1)))))
}

/// Returns whether the text is a key that ends in the last token of the pointer, an equals sign and a
/// text of the value.
///
/// # Errors
///
/// [`AllocError`] if an allocation fails.
pub fn is_pair(
    alloc: Global,
    text: &str,
    pointer: Pointer<'_>,
    value: &Value,
) -> Result<bool, AllocError>
    ensures { IfOk result (λ is. IsTrue is
        → IsTomlPair (tokens pointer.entry) (view value.now) text.now) }
{
    let Some((_front, last)) = pointer.split_back() else {
        return Ok(false);
    };
    let Some((key, rest)) = key_of(alloc, text)? else {
        return Ok(false);
    };
    let token = last.decoded(alloc)?;
    if key.last.as_str() != token.as_str() {
        return Ok(false);
    }
    is_text_of(alloc, rest, value)
}

/// Returns whether the text is a key, an equals sign and a text of a value.
///
/// # Errors
///
/// [`AllocError`] if an allocation fails.
pub fn is_some_pair(alloc: Global, text: &str) -> Result<bool, AllocError>
    ensures { IfOk result (λ is. IsTrue is
        → (x : Text) × (y : Data) × IsTomlPair (x ∷ []) y text.now) }
{
    let Some((_key, rest)) = key_of(alloc, text)? else {
        return Ok(false);
    };
    match Value::from_str(alloc, rest) {
        Ok(_value) => Ok(true),
        Err(error) if error.is_memory() => Err(AllocError),
        Err(_) => Ok(false),
    }
}
