//! A byte order mark at the start of a text.
ghost use Rattle.std.specs.Prelude.{◌≡◌, ◌++◌, IfOk, string_bytes};
ghost use Rattle.jsonptr_c_calls.specs.Marks.{IsMark};

use std::alloc::{AllocError, Global};

/// The byte order mark of UTF-8.
const MARK: &str = "\u{feff}";

/// A text in two parts.
#[derive(Clone, Copy)]
pub struct MarkedText<'t> {
    /// Its byte order mark, or an empty text.
    pub mark: &'t str,
    /// What is after it.
    pub body: &'t str,
}

/// Returns the parts of a text.
pub fn parts_of(text: &str) -> MarkedText<'_>
    ensures parts { text.now ≡ result.mark.now ++ result.body.now }
    ensures mark { IsMark result.mark.now }
{
    match text.strip_prefix(MARK) {
        Some(body) => MarkedText { mark: MARK, body },
        None => MarkedText {
            mark: "",
            body: text,
        },
    }
}

/// Returns the mark and the text in one text. Needs no allocation if the mark is empty.
///
/// # Errors
///
/// [`AllocError`] if an allocation fails.
pub fn with_mark(alloc: Global, mark: &str, body: String) -> Result<String, AllocError>
    ensures { IfOk result (λ s. string_bytes s ≡ mark.now ++ string_bytes body) }
{
    if mark.is_empty() {
        return Ok(body);
    }
    let mut whole = String::from_str(alloc, mark)?;
    whole.push_str(body.as_str())?;
    Ok(whole)
}
