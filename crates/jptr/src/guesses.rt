//! Containers whose type lines guess: an index above 0 is no sign of an object.

use crate::program_error::ProgramError;
use crate::shown::shown;
use jptr_tasks::exit_status::NOT_MADE;
use jsonptr::index::Index;
use std::alloc::{AllocError, Global};
use std::collections::BTreeMap;

/// The containers that lines go through or have as their values, by the texts of their pointers: whether the
/// container is the value of a line.
type Known = BTreeMap<String, bool>;

/// Fails if a line makes an object of what may be an array: if the first token below a container is an
/// index above 0, and no line has the container as its value. The lines build a document.
pub fn check_guesses(alloc: Global, name: &str, text: &str) -> Result<(), ProgramError> {
    let mut known = BTreeMap::new(alloc);
    let mut number: usize = 0;
    for line in text.split('\n') {
        number = number.saturating_add(1);
        if let Some(guess) = guess_in(alloc, line, &mut known)? {
            let message = message(alloc, number, guess);
            return Err(ProgramError::of_message(alloc, NOT_MADE, name, message));
        }
    }
    Ok(())
}

/// A container that would be an object since its first token is an index.
#[derive(Clone, Copy)]
struct Guess<'l> {
    /// The text of its pointer.
    above: &'l str,
    /// The index.
    index: usize,
}

/// Returns the container whose type the line guesses by an index above 0, if there is one, and adds what is
/// known after the line.
fn guess_in<'l>(
    alloc: Global,
    line: &'l str,
    known: &mut Known,
) -> Result<Option<Guess<'l>>, AllocError> {
    let Some((pointer, value)) = line.split_once('\t') else {
        return Ok(None);
    };
    // A pointer with a control character is a JSON string, and no token of it is looked at.
    let pointer = if pointer.starts_with('/') {
        pointer
    } else {
        ""
    };
    let guess = guess_on_way(alloc, pointer, known)?;
    if value.starts_with('{') || value.starts_with('[') {
        add(alloc, known, pointer, true)?;
    }
    add(alloc, known, "", false)?;
    Ok(guess)
}

/// Returns the container on the way of the pointer whose type is guessed by an index above 0, if there is
/// one, and adds those that are not known.
fn guess_on_way<'l>(
    alloc: Global,
    pointer: &'l str,
    known: &mut Known,
) -> Result<Option<Guess<'l>>, AllocError> {
    let mut is_given = false;
    for (slash, byte) in pointer.as_bytes().iter().enumerate() {
        if *byte == b'/' {
            let above = pointer.get(..slash).unwrap_or("");
            let found = known.get(above).copied();
            is_given = is_given || found == Some(true);
            let index = index_after(pointer, slash);
            if found.is_none() && !is_given && index > 0 {
                return Ok(Some(Guess { above, index }));
            }
            add(alloc, known, above, false)?;
        }
    }
    Ok(None)
}

/// Adds the container with this pointer. One that is the value of a line stays so.
fn add(alloc: Global, known: &mut Known, pointer: &str, is_given: bool) -> Result<(), AllocError> {
    if is_given || !known.contains_key(pointer) {
        drop(known.insert(String::from_str(alloc, pointer)?, is_given)?);
    }
    Ok(())
}

/// Returns the index that the token after the slash is, or 0 if it is none.
fn index_after(pointer: &str, slash: usize) -> usize {
    let rest = pointer.get(slash.saturating_add(1)..).unwrap_or("");
    let token = match rest.split_once('/') {
        Some((token, _rest)) => token,
        None => rest,
    };
    match token.parse::<Index>() {
        Ok(Index::Num(index)) => index,
        _ => 0,
    }
}

/// Returns what is said of a line that guesses the type of a container.
fn message(alloc: Global, number: usize, guess: Guess<'_>) -> Result<String, AllocError> {
    let (above, index) = (shown(alloc, guess.above)?, guess.index);
    let at = if guess.above.is_empty() { "" } else { " at " };
    format!(in alloc;
        "line {number}: no element is before {index} in an array{at}{above}; lines of paths --all tell an object"
    )
}
