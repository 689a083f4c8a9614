//! Lines of a text.
ghost use Rattle.std.specs.Prelude.{◌≡◌, IsTrue, IfOk};
ghost use Rattle.jsonptr_toml_edit.specs.Bytes as words;
ghost use Rattle.jsonptr_toml_edit.specs.Bytes.{IsLine, IsRestOfLine, HasNoBlankLine};

use crate::alone::is_filler;
use std::alloc::{AllocError, Global};
use toml_parser::bytes::is_bare;
use toml_parser::starts_string;
use toml_parser::text::{first, skip_ws};

/// Returns whether no line feed is in the text, except at its end.
pub fn is_line(text: &str) -> bool
    ensures { IsTrue result → IsLine text.now }
{
    let bytes = text.as_bytes();
    for (index, byte) in bytes.iter().enumerate() {
        if *byte == b'\n' && index + 1 < bytes.len() {
            return false;
        }
    }
    true
}

/// Returns whether each line of the text has a `#`, except the last one if no line feed ends it.
pub fn has_no_blank_line(text: &str) -> bool
    ensures { IsTrue result → HasNoBlankLine text.now }
{
    let bytes = text.as_bytes();
    let mut hash = None;
    for (index, byte) in bytes.iter().enumerate() {
        if *byte == b'#' {
            hash = Some(index);
        } else if *byte == b'\n' {
            if hash.is_none() {
                return false;
            }
            hash = None;
        }
    }
    true
}

/// Returns whether the text is white space, a comment, and at most the end of the line.
///
/// # Errors
///
/// [`AllocError`] if an allocation fails.
pub fn is_rest_of_line(alloc: Global, text: &str) -> Result<bool, AllocError>
    ensures { IfOk result (λ is. IsTrue is → IsRestOfLine text.now) }
{
    Ok(is_line(text) && is_filler(alloc, text)?)
}

/// Returns whether a key is at the start of the text, after spaces and tabs.
pub fn starts_key(text: &str) -> bool
    ensures { result ≡ words.starts_key text.now }
{
    let next = skip_ws(text);
    is_bare(first(next)) || starts_string(next)
}
