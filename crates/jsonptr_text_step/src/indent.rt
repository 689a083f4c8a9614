//! The tokens of a JSON text on lines, with an indentation of the caller's.
ghost use Rattle.std.specs.Prelude.{◌≡◌, IfOk, IfErr, IfSome, string_bytes};
ghost use Rattle.json.specs.Lex.{tokens as lexed};
ghost use Rattle.jsonptr_text_step.specs.Indenting.{IsIndented, IsIndentError, indent_of_read};

use jsonptr_text_check::one_child::is_value_of;
use jsonptr_text_piece::buffers::Buffers;
use jsonptr_text_piece::spacing::are_blank;
use jsonptr_text_resolve::{Format, format_text};
use jsonptr_value::ReadError;
use std::alloc::{AllocError, Global};
use thiserror::Error;

/// Why a text is not laid out.
#[derive(Debug, Drop, Error)]
pub enum IndentError {
    /// The text is not JSON.
    #[error("text is not JSON")]
    NotJson,
    /// The indentation is not white space of JSON: spaces, tabs and line breaks.
    #[error("indentation is not white space")]
    NotWhiteSpace,
    /// An allocation failed.
    #[error("out of memory")]
    Memory(AllocError),
}

impl From<ReadError> for IndentError {
    ghost from_gives = { λ error fault. fault ≡ indent_of_read error };

    fn from(error: ReadError) -> IndentError {
        match error {
            ReadError::NotJson => IndentError::NotJson,
            ReadError::Memory(error) => IndentError::Memory(error),
        }
    }
}

/// Returns the JSON text with a line for each member and element, indented by `indent` for each level.
///
/// The tokens are unchanged, one for one: the members in their order, repeated ones too, and the
/// text of each number. Only the escapes of strings are written in their shortest form.
///
/// # Errors
///
/// - [`IndentError::NotJson`] if `serde_json` does not read the text.
/// - [`IndentError::NotWhiteSpace`] if the indentation is not white space, and a line has one: that a
///   line has one is tested.
/// - [`IndentError::Memory`] if an allocation fails.
///
/// # Examples
///
/// ```rust
/// let mut buffers = Buffers::new(alloc);
/// let lines = indent_text(&mut buffers, "{\"b\": 1.10, \"a\": [ 2 ]}", "\t")?;
/// assert_eq!(rt; lines.as_str(), "{\n\t\"b\": 1.10,\n\t\"a\": [\n\t\t2\n\t]\n}");
/// ```
pub fn indent_text(buffers: &mut Buffers, text: &str, indent: &str) -> Result<String, IndentError>
    ensures indented { IfOk result (λ s. IsIndented text.now (string_bytes s)) }
    ensures refused { IfErr result (IsIndentError text.now indent.now) }
{
    let lines = format_text(buffers.alloc, &mut buffers.old, text, Format::Pretty)?;
    match reindented(buffers, lines.as_str(), indent) {
        Ok(Some(new)) => Ok(new),
        // White space changes no token, so this arm is for the proof alone.
        Ok(None) if are_blank(indent.as_bytes()) => Ok(lines),
        Ok(None) => Err(IndentError::NotWhiteSpace),
        Err(error) => Err(IndentError::Memory(error)),
    }
}

/// Returns the text, which is indented by two spaces, with another indentation. Returns `None` if its
/// tokens would change.
fn reindented(
    buffers: &mut Buffers,
    lines: &str,
    indent: &str,
) -> Result<Option<String>, AllocError>
    ensures { IfOk result (λ o. IfSome o
        (λ s. lexed (string_bytes s) ≡ lexed lines.now)) }
{
    let alloc = buffers.alloc;
    let new = with_indent(alloc, lines, indent)?;
    if is_value_of(buffers, new.as_str(), lines)? {
        Ok(Some(new))
    } else {
        Ok(None)
    }
}

/// Returns the text with `indent` for each two spaces that a line begins with.
fn with_indent(alloc: Global, lines: &str, indent: &str) -> Result<String, AllocError> {
    let mut new = String::new(alloc);
    let mut is_first = true;
    for line in lines.split('\n') {
        if !is_first {
            new.push('\n')?;
        }
        is_first = false;
        push_line(&mut new, line, indent)?;
    }
    Ok(new)
}

/// Appends the line with `indent` for each two spaces that it begins with.
fn push_line(new: &mut String, line: &str, indent: &str) -> Result<(), AllocError> {
    let mut rest = line;
    'levels: while let Some(inner) = rest.strip_prefix("  ") {
        new.push_str(indent)?;
        rest = inner;
    }
    new.push_str(rest)?;
    Ok(())
}
