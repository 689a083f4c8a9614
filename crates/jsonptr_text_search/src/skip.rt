//! Passing over one value of a text.
ghost use Rattle.std.specs.Prelude.{◌≡◌, ◌<◌, length, OnOk, IsErr};
ghost use Rattle.serde_json.specs.Data.{Data, Items, Members};
ghost use Rattle.jsonptr_text_search.specs.Reading.{ReadsTokens, Unreadable, ReadsItems, UnreadableItems, ReadsMembers, UnreadableMembers};

use crate::scalar::is_scalar;
use json::{Invalid, Reader, Token};

/// Passes over the next value, which may nest `depth` deep.
///
/// # Errors
///
/// [`Invalid`] if `serde_json` does not read the value.
///
/// # Examples
///
/// ```rust
/// let mut scratch = Scratch::new(alloc);
/// let mut reader = Reader::new("[[1], 2]", &mut scratch)?;
/// assert!(rt; reader.next().is_some());
/// assert!(rt; skip::skip(&mut reader, 1).is_ok());
/// assert_eq!(rt; read::read(alloc, &mut reader, 0)?.as_u64(), Some(2));
/// ```
#[cycle(skip)]
#[inline(always)]
pub fn skip(reader: &mut Reader<'_>, depth: usize) -> Result<(), Invalid>
    ensures passed { OnOk result ((d : Data) × ReadsTokens depth reader.old d reader.new) }
    ensures shorter { OnOk result (length reader.new < length reader.old) }
    ensures refused { IsErr result → Unreadable depth reader.old }
{
    let Some(token) = reader.next() else {
        return Err(Invalid);
    };
    match token {
        Token::BeginArray => {
            if depth == 0 {
                return Err(Invalid);
            }
            skip_elements(reader, depth - 1)?;
            Ok(())
        }
        Token::BeginObject => {
            if depth == 0 {
                return Err(Invalid);
            }
            skip_members(reader, depth - 1)?;
            Ok(())
        }
        _ => if is_scalar(token) {
            Ok(())
        } else {
            Err(Invalid)
        },
    }
}

/// Passes over the rest of an array, and its closing bracket.
///
/// # Errors
///
/// As [`skip`].
#[cycle(skip)]
#[inline(never)]
fn skip_elements(reader: &mut Reader<'_>, depth: usize) -> Result<(), Invalid>
    ensures passed { OnOk result ((ds : Items) × ReadsItems depth reader.old ds reader.new) }
    ensures shorter { OnOk result (length reader.new < length reader.old) }
    ensures refused { IsErr result → UnreadableItems depth reader.old }
{
    'elements: while !reader.take_end_array() {
        skip(reader, depth)?;
    }
    Ok(())
}

/// Passes over the rest of an object, and its closing brace.
///
/// # Errors
///
/// As [`skip`].
#[cycle(skip)]
#[inline(never)]
fn skip_members(reader: &mut Reader<'_>, depth: usize) -> Result<(), Invalid>
    ensures passed { OnOk result ((ms : Members) × ReadsMembers depth reader.old ms reader.new) }
    ensures shorter { OnOk result (length reader.new < length reader.old) }
    ensures refused { IsErr result → UnreadableMembers depth reader.old }
{
    'members: while let Some(_) = reader.next_key()? {
        skip(reader, depth)?;
    }
    Ok(())
}
