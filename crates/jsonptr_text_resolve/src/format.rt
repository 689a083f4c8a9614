//! The tokens of a JSON text, laid out anew.
ghost use Rattle.std.specs.Prelude.{◌≡◌, ℕ, List, [], ◌∷◌, ◌++◌, false, IfOk, IfErr, OnOk, IsTrue, string_bytes};
ghost use Rattle.json.specs.Token.{Token as SpecToken};
ghost use Rattle.json.specs.Lex.{tokens};
ghost use Rattle.json.specs.Reads.{token_of};
ghost use Rattle.json.specs.Print.{print, IsPrintable};
ghost use Rattle.json.specs.Layout.{pretty as pretty_text};
ghost use Rattle.jsonptr_text_resolve.specs.Format.{IsFormatted, laid_out};
ghost use Rattle.jsonptr_value.specs.Reading.{IsReadError};
ghost use Rattle.jsonptr_text_resolve.specs.PrivateFormat.{HasBad, IsWritten};

use crate::document::is_document;
use json::{Pretty, Reader, Scratch, Token, Writer};
use jsonptr_value::ReadError;
use std::alloc::{AllocError, Global};

/// How the tokens of a text are laid out.
#[derive(Clone, Copy, Debug, Drop, PartialEq, Eq)]
pub enum Format {
    /// Without white space.
    Compact,
    /// A line for each member and element, indented by two spaces for each level.
    Pretty,
}

/// Returns the JSON text with its tokens laid out anew.
///
/// The tokens are unchanged, one for one: the members in their order, repeated ones too, and the
/// text of each number. Only the escapes of strings are written in their shortest form. So the result
/// is read as the same document. A number is only tested for its range. Nothing of the document is
/// built.
///
/// The scratch is that of any earlier call, also of one that failed.
///
/// # Errors
///
/// - [`ReadError::NotJson`] if `serde_json` does not read the text.
/// - [`ReadError::Memory`] if an allocation fails.
///
/// # Examples
///
/// ```rust
/// let mut scratch = Scratch::new(alloc);
/// let text = "{\"b\": 1.10, \"a\": [ ]}\n";
/// let compact = format_text(alloc, &mut scratch, text, Format::Compact)?;
/// assert_eq!(rt; compact.as_str(), r#"{"b":1.10,"a":[]}"#);
/// let pretty = format_text(alloc, &mut scratch, text, Format::Pretty)?;
/// assert_eq!(rt; pretty.as_str(), "{\n  \"b\": 1.10,\n  \"a\": []\n}");
/// ```
pub fn format_text(
    alloc: Global,
    scratch: &mut Scratch,
    text: &str,
    format: Format,
) -> Result<String, ReadError>
    ensures formatted { IfOk result (λ s. IsFormatted format text.now (string_bytes s)) }
    ensures refused { IfErr result (IsReadError text.now) }
{
    let is_json = is_document(scratch, text)?;
    if !is_json {
        return Err(ReadError::NotJson);
    }
    match lay_out(alloc, scratch, text, format)? {
        Some(text) => Ok(text),
        None => Err(ReadError::NotJson),
    }
}

/// Returns the tokens of the text in this format, or `None` if one is bad.
fn lay_out(
    alloc: Global,
    scratch: &mut Scratch,
    text: &str,
    format: Format,
) -> Result<Option<String>, AllocError>
    ensures { IfOk result (λ o. IsWritten (laid_out format) (tokens text.now) o) }
{
    let mut reader = Reader::new(text, scratch)?;
    match format {
        Format::Compact => compact(alloc, &mut reader),
        Format::Pretty => pretty(alloc, &mut reader),
    }
}

/// Returns the text of the tokens that are left without white space, or `None` if one is bad.
fn compact(alloc: Global, reader: &mut Reader<'_>) -> Result<Option<String>, AllocError>
    ensures { IfOk result (λ o. IsWritten print reader.old o) }
{
    let mut out = Writer::new(Vec::new(alloc));
    if !copy(reader, &mut out)? {
        return Ok(None);
    }
    // SAFETY: the writer's bytes are UTF-8, which the prover checks.
    Ok(Some(unsafe { String::from_utf8_unchecked(out.into_inner()) }))
}

/// Returns the text of the tokens that are left on lines, or `None` if one is bad.
fn pretty(alloc: Global, reader: &mut Reader<'_>) -> Result<Option<String>, AllocError>
    ensures { IfOk result (λ o. IsWritten pretty_text reader.old o) }
{
    let mut out = Pretty::new(alloc);
    if !copy(reader, &mut out)? {
        return Ok(None);
    }
    // SAFETY: the writer's bytes are UTF-8, which the prover checks.
    Ok(Some(unsafe { String::from_utf8_unchecked(out.into_inner()) }))
}

/// What writes tokens.
trait TokenSink: Sized + Drop {
    // the tokens that are written
    ghost written: { Self → List SpecToken };

    // what was there before them
    ghost before: { Self → List ℕ };

    /// Writes a token.
    fn write(&mut self, token: Token<'_>) -> Result<(), AllocError>
        requires { IsPrintable (token_of token) }
        ensures written { OnOk result (written self.new ≡ written self.old ++ token_of token.entry ∷ []) }
        ensures before { before self.new ≡ before self.old };
}

impl TokenSink for Writer {
    ghost written = { λ w. w.tokens };

    ghost before = { λ w. w.before };

    fn write(&mut self, token: Token<'_>) -> Result<(), AllocError> {
        self.token(token)
    }
}

impl TokenSink for Pretty {
    ghost written = { λ w. w };

    ghost before = { λ _. [] };

    fn write(&mut self, token: Token<'_>) -> Result<(), AllocError> {
        self.token(token)
    }
}

/// Writes the tokens that are left. Returns `false` at a bad one.
fn copy<W: TokenSink>(reader: &mut Reader<'_>, out: &mut W) -> Result<bool, AllocError>
    ensures copied { IfOk result (λ whole. IsTrue whole
        → W.written out.new ≡ W.written out.old ++ reader.old) }
    ensures bad { IfOk result (λ whole. whole ≡ false → HasBad reader.old) }
    ensures before { W.before out.new ≡ W.before out.old }
{
    while let Some(token) = reader.next() {
        if matches!(token, Token::Bad) {
            return Ok(false);
        }
        out.write(token)?;
    }
    Ok(true)
}
