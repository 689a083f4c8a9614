//! Where the values of a patch are in the text of its document. These are hints: no contract says that
//! they are right.
ghost use Rattle.std.specs.Prelude.{◌<◌, length, OnOk};

use json::{Reader, Token};
use jsonptr_text_piece::child::end_of_value;
use jsonptr_text_piece::span::Span;
use jsonptr_text_resolve::Scratch;
use jsonptr_value::{MAX_DEPTH, ReadError, if_json};
use std::alloc::{AllocError, Global};

/// Returns where the value of the last member `value` is, for each operation of the patch document that
/// the text is. The span is empty if the operation has no such member.
///
/// Reads the text once. Returns no spans if it is not an array of objects.
///
/// # Errors
///
/// [`AllocError`] if an allocation fails.
pub fn value_spans(
    alloc: Global,
    scratch: &mut Scratch,
    text: &str,
) -> Result<Vec<Span>, AllocError> {
    match if_json(spans_in(alloc, scratch, text))? {
        Some(spans) => Ok(spans),
        None => Ok(Vec::new(alloc)),
    }
}

/// Returns where the values are, as [`value_spans`] does.
///
/// # Errors
///
/// [`ReadError::NotJson`] if the text is not an array of objects, and [`ReadError::Memory`] if an
/// allocation fails.
fn spans_in(alloc: Global, scratch: &mut Scratch, text: &str) -> Result<Vec<Span>, ReadError> {
    let mut reader = Reader::new(text, scratch)?;
    let Some(Token::BeginArray) = reader.next() else {
        return Err(ReadError::NotJson);
    };
    let mut spans = Vec::new(alloc);
    'operations: while !reader.take_end_array() {
        let span = next_span(&mut reader, text)?;
        spans.push(span)?;
    }
    Ok(spans)
}

/// Passes over the next value, which is an object. Returns where the value of its last member `value` is,
/// or an empty span.
///
/// # Errors
///
/// [`ReadError::NotJson`] if it is not an object.
fn next_span(reader: &mut Reader<'_>, text: &str) -> Result<Span, ReadError>
    ensures shorter { OnOk result (length reader.new < length reader.old) }
{
    let Some(Token::BeginObject) = reader.next() else {
        return Err(ReadError::NotJson);
    };
    let mut span = Span { from: 0, to: 0 };
    'members: while let Some(name) = reader.next_key()? {
        let is_value = name == "value";
        let from = reader.offset();
        reader.skip_value(MAX_DEPTH)?;
        if is_value {
            let to = end_of_value(text.as_bytes(), reader.offset());
            span = Span { from, to };
        }
    }
    Ok(span)
}
