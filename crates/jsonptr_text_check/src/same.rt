//! Reading the same value in two texts.
ghost use Rattle.std.specs.Prelude.{◌≡◌, ◌<◌, ◌∷◌, ◌++◌, length, Some, OnOk, IfOk};
ghost use Rattle.json.specs.Json.{read_key};
ghost use Rattle.json.specs.Lex.{tokens};
ghost use Rattle.json.specs.Reads.{token_of};
ghost use Rattle.serde_json.specs.Data.{Data, Items, Members};
ghost use Rattle.serde_json.specs.Read.{read};
ghost use Rattle.jsonptr_text_search.specs.Reading.{ReadsTokens, ReadsItems, ReadsMembers};
ghost use Rattle.jsonptr_text_check.specs.Alike.{AreAlike};

use crate::check_error::CheckError;
use crate::token::is_same;
use json::{Invalid, Reader, Scratch, Token};
use jsonptr_text_search::scalar::is_scalar;
use jsonptr_value::MAX_DEPTH;

/// Two texts that are read side by side.
#[derive(Drop)]
pub struct Readers<'a> {
    /// The text before a change, or the shorter one.
    pub one: Reader<'a>,
    /// The text after the change, or the longer one.
    pub two: Reader<'a>,
}

/// Passes over the next value of both readers, which has the same tokens in both.
///
/// # Errors
///
/// [`Invalid`] if the values differ, or if one of them nests too deep or is not JSON.
#[cycle(same)]
#[inline(always)]
pub fn same(
    one: &mut Reader<'_>,
    two: &mut Reader<'_>,
    one_depth: usize,
    two_depth: usize,
) -> Result<(), Invalid>
    ensures passed { OnOk result ((d : Data) × ReadsTokens one_depth one.old d one.new
        × ReadsTokens two_depth two.old d two.new) }
    ensures alike { OnOk result (AreAlike one.old one.new two.old two.new) }
    ensures one_shorter { OnOk result (length one.new < length one.old) }
    ensures two_shorter { OnOk result (length two.new < length two.old) }
{
    let token = same_token(one, two)?;
    match token {
        Token::BeginArray => {
            if one_depth == 0 || two_depth == 0 {
                return Err(Invalid);
            }
            same_elements(one, two, one_depth - 1, two_depth - 1)?;
            Ok(())
        }
        Token::BeginObject => {
            if one_depth == 0 || two_depth == 0 {
                return Err(Invalid);
            }
            same_members(one, two, one_depth - 1, two_depth - 1)?;
            Ok(())
        }
        _ => if is_scalar(token) {
            Ok(())
        } else {
            Err(Invalid)
        },
    }
}

/// Passes over the rest of an array and its closing bracket, which have the same tokens in both.
///
/// # Errors
///
/// As [`same`].
#[cycle(same)]
#[inline(never)]
fn same_elements(
    one: &mut Reader<'_>,
    two: &mut Reader<'_>,
    one_depth: usize,
    two_depth: usize,
) -> Result<(), Invalid>
    ensures passed { OnOk result ((ds : Items) × ReadsItems one_depth one.old ds one.new
        × ReadsItems two_depth two.old ds two.new) }
    ensures alike { OnOk result (AreAlike one.old one.new two.old two.new) }
    ensures one_shorter { OnOk result (length one.new < length one.old) }
    ensures two_shorter { OnOk result (length two.new < length two.old) }
{
    'elements: while !one.take_end_array() {
        if two.take_end_array() {
            return Err(Invalid);
        }
        same(one, two, one_depth, two_depth)?;
    }
    if !two.take_end_array() {
        return Err(Invalid);
    }
    Ok(())
}

/// Passes over the rest of an object and its closing brace, which have the same tokens in both.
///
/// # Errors
///
/// As [`same`].
#[cycle(same)]
#[inline(never)]
fn same_members(
    one: &mut Reader<'_>,
    two: &mut Reader<'_>,
    one_depth: usize,
    two_depth: usize,
) -> Result<(), Invalid>
    ensures passed { OnOk result ((ms : Members) × ReadsMembers one_depth one.old ms one.new
        × ReadsMembers two_depth two.old ms two.new) }
    ensures alike { OnOk result (AreAlike one.old one.new two.old two.new) }
    ensures one_shorter { OnOk result (length one.new < length one.old) }
    ensures two_shorter { OnOk result (length two.new < length two.old) }
{
    'members: while let Some(name) = one.next_key()? {
        same_key(two, name)?;
        same(one, two, one_depth, two_depth)?;
    }
    if two.next_key()?.is_some() {
        return Err(Invalid);
    }
    Ok(())
}

/// Passes over the next value, which has the same tokens as the text.
///
/// # Errors
///
/// [`CheckError::Mismatch`] if the text is not that value, and [`CheckError::Memory`] if an
/// allocation fails.
pub fn same_text(
    scratch: &mut Scratch,
    reader: &mut Reader<'_>,
    depth: usize,
    text: &str,
) -> Result<(), CheckError>
    ensures passed { OnOk result ((d : Data) × (read text.now ≡ Some d)
        × ReadsTokens depth reader.old d reader.new) }
    ensures same { OnOk result (reader.old ≡ tokens text.now ++ reader.new) }
    ensures shorter { OnOk result (length reader.new < length reader.old) }
{
    let mut value = Reader::new(text, scratch)?;
    same(&mut value, reader, MAX_DEPTH, depth)?;
    if value.next().is_some() {
        return Err(CheckError::Mismatch);
    }
    Ok(())
}

/// Reads the next token of both, which is the same.
///
/// # Errors
///
/// [`Invalid`] if it is not the same, or if there is none.
#[inline(always)]
pub fn same_token<'a>(one: &mut Reader<'a>, two: &mut Reader<'_>) -> Result<Token<'a>, Invalid>
    ensures one { IfOk result (λ t. one.old ≡ token_of t ∷ one.new) }
    ensures two { IfOk result (λ t. two.old ≡ token_of t ∷ two.new) }
{
    let token = one.next().ok_or(Invalid)?;
    let twin = two.next().ok_or(Invalid)?;
    if is_same(token, twin) {
        Ok(token)
    } else {
        Err(Invalid)
    }
}

/// Reads the next key, which is this one.
///
/// # Errors
///
/// [`Invalid`] if the object ends, or if the key is another one.
#[inline(always)]
pub fn same_key(reader: &mut Reader<'_>, key: &str) -> Result<(), Invalid>
    ensures { OnOk result (read_key reader.old ≡ Some (Some key.now, reader.new)) }
{
    let name = reader.next_key()?.ok_or(Invalid)?;
    if name == key { Ok(()) } else { Err(Invalid) }
}
