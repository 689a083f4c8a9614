//! The JSON text of a value that an edit brings.
ghost use Rattle.std.specs.Prelude.{◌≡◌, Some, IfOk, IfSome, string_bytes};
ghost use Rattle.serde_json.specs.Read.{read};
ghost use Rattle.serde_json.specs.View.{view};

use jsonptr_text_layout::value_text::{ValueText, text_of_value};
use jsonptr_value::{MAX_DEPTH, nests_within};
use serde_json::Value;
use std::alloc::{AllocError, Global};

/// Returns the text of the value, or `None` if the value nests too deep to be read.
///
/// # Errors
///
/// [`AllocError`] if an allocation fails.
pub fn value_text(alloc: Global, value: &Value) -> Result<Option<ValueText>, AllocError>
    ensures { IfOk result (λ text. IfSome text
        (λ t. read (string_bytes t.flat) ≡ Some (view value.now))) }
{
    if !nests_within(value, MAX_DEPTH) {
        return Ok(None);
    }
    Ok(Some(text_of_value(alloc, value)?))
}
