//! Where the first number that is not kept is.

use crate::kept::is_kept;
use json::{Reader, Scratch, Token};
use jsonptr::PointerBuf;
use jsonptr_text_resolve::path::Path;
use std::alloc::{AllocError, Global};

/// A number of a text.
#[derive(Drop)]
pub(crate) struct Found {
    pub(crate) pointer: PointerBuf,
    /// The offset of its first byte.
    pub(crate) offset: usize,
}

/// Returns a pointer and an offset for the first number of the text that is not kept. The caller checks
/// both.
pub(crate) fn path_of_first_lost(alloc: Global, text: &str) -> Result<Option<Found>, AllocError> {
    let mut scratch = Scratch::new(alloc);
    let mut reader = Reader::new(text, &mut scratch)?;
    let mut path = Path::new(alloc);
    let mut offset = reader.offset();
    while let Some(token) = reader.next() {
        path.enter(alloc, token)?;
        if is_lost(token) {
            let pointer = path.into_pointer();
            return Ok(Some(Found { pointer, offset }));
        }
        path.leave(alloc, token)?;
        offset = reader.offset();
    }
    Ok(None)
}

/// Returns whether the token is a number that is not kept.
fn is_lost(token: Token<'_>) -> bool {
    match token {
        Token::Number(number) => !is_kept(number),
        _ => false,
    }
}
