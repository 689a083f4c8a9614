//! Listing the nodes of the document of a TOML text.
ghost use Rattle.std.specs.Prelude.{IfOk, IfErr, string_bytes};
ghost use Rattle.jsonptr_toml.specs.InToml.{ListsInToml, IsReadTomlError};

use crate::document::read_toml;
use crate::error::ReadTomlError;
use jsonptr_text_paths::listing::Listed;
use jsonptr_text_paths::toml_listing::list_toml;
use std::alloc::Global;

/// Returns the lines for the nodes of the document that the text contains, as `list_toml` of
/// `jsonptr_text_paths` does.
///
/// # Errors
///
/// - [`ReadTomlError::NotToml`] if the text is not TOML.
/// - [`ReadTomlError::DocumentTooDeep`] if the values of the document nest deeper than 80.
/// - [`ReadTomlError::Memory`] if an allocation fails.
///
/// # Examples
///
/// ```rust
/// let lines = list_in_toml(alloc, "[server]\nport = 80\n", Listed::AllNodes)?;
/// assert_eq!(rt; lines.as_str(), "\t{}\n/server\t{}\n/server/port\t80\n");
/// ```
pub fn list_in_toml(alloc: Global, text: &str, which: Listed) -> Result<String, ReadTomlError>
    ensures listed { IfOk result (λ s. ListsInToml which text.now (string_bytes s)) }
    ensures refused { IfErr result (IsReadTomlError text.now) }
{
    let document = read_toml(alloc, text)?;
    Ok(list_toml(alloc, &document, which)?)
}
