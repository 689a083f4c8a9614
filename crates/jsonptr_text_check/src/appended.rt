//! Reading an array beside the same array with one element more at its end.
ghost use Rattle.std.specs.Prelude.{◌≡◌, ◌<◌, length, Some, OnOk, string_bytes};
ghost use Rattle.serde_json.specs.Data.{Data, Items};
ghost use Rattle.serde_json.specs.Read.{read};
ghost use Rattle.jsonptr_text_search.specs.Reading.{ReadsTokens, ReadsItems};
ghost use Rattle.jsonptr_text_search.specs.Search.{choice_of, items_count};
ghost use Rattle.jsonptr_text_check.specs.Editing.{AppendsElement, InsertsItem};

use crate::change::ChildValue;
use crate::check_error::CheckError;
use crate::same::{Readers, same, same_text, same_token};
use crate::wanted::is_at;
use json::{Scratch, Token};

/// Passes over the next value of both. The longer one is an array with one element more at its end.
///
/// # Errors
///
/// [`CheckError::Mismatch`] if the values do not differ so, and [`CheckError::Memory`] if an
/// allocation fails.
pub fn check_appended_element(
    scratch: &mut Scratch,
    readers: &mut Readers<'_>,
    depth: usize,
    child: &ChildValue,
) -> Result<(), CheckError>
    ensures passed { OnOk result ((d d2 e : Data) × ReadsTokens depth readers.old.one d readers.new.one
        × ReadsTokens depth readers.old.two d2 readers.new.two × (read (string_bytes child.now.value) ≡ Some e)
        × AppendsElement (choice_of child.now.selector) e d d2) }
    ensures one_shorter { OnOk result (length readers.new.one < length readers.old.one) }
    ensures two_shorter { OnOk result (length readers.new.two < length readers.old.two) }
{
    let token = same_token(&mut readers.one, &mut readers.two)?;
    if depth == 0 {
        return Err(CheckError::Mismatch);
    }
    match token {
        Token::BeginArray => {
            let index = child.selector.index.ok_or(CheckError::Mismatch)?;
            append_element(scratch, readers, depth - 1, index, child.value.as_str())?;
            Ok(())
        }
        _ => Err(CheckError::Mismatch),
    }
}

/// Passes over the rest of an array in both. The longer one has one element more, the last, at the
/// index.
///
/// # Errors
///
/// As [`check_appended_element`].
fn append_element(
    scratch: &mut Scratch,
    readers: &mut Readers<'_>,
    depth: usize,
    index: usize,
    json: &str,
) -> Result<(), CheckError>
    ensures passed { OnOk result ((ds ds2 : Items) × (e : Data)
        × ReadsItems depth readers.old.one ds readers.new.one × ReadsItems depth readers.old.two ds2 readers.new.two
        × (read json.now ≡ Some e) × (index ≡ items_count ds) × InsertsItem index e ds ds2) }
    ensures one_shorter { OnOk result (length readers.new.one < length readers.old.one) }
    ensures two_shorter { OnOk result (length readers.new.two < length readers.old.two) }
{
    let mut count = 0;
    'elements: while !readers.one.take_end_array() {
        if readers.two.take_end_array() || count == usize::MAX {
            return Err(CheckError::Mismatch);
        }
        same(&mut readers.one, &mut readers.two, depth, depth)?;
        count += 1;
    }
    if readers.two.take_end_array() || !is_at(count, index) {
        return Err(CheckError::Mismatch);
    }
    same_text(scratch, &mut readers.two, depth, json)?;
    if !readers.two.take_end_array() {
        return Err(CheckError::Mismatch);
    }
    Ok(())
}
