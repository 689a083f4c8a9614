//! Reading a value beside the same value with one child more.
ghost use Rattle.std.specs.Prelude.{◌≡◌, ◌<◌, ◌≤◌, length, Some, OnOk, string_bytes};
ghost use Rattle.serde_json.specs.Data.{Data, Items, Members};
ghost use Rattle.serde_json.specs.Read.{read};
ghost use Rattle.jsonptr_text_search.specs.Reading.{ReadsTokens, ReadsItems, ReadsMembers};
ghost use Rattle.jsonptr_text_search.specs.Search.{choice_of};
ghost use Rattle.jsonptr_text_check.specs.Editing.{AddsElement, AddsChosenMember, InsertsItem, InsertsMember};
ghost use Rattle.jsonptr_text_check.specs.PrivateEditing.{AddsItemIf, AddsMemberIf};

use crate::change::ChildValue;
use crate::check_error::CheckError;
use crate::same::{Readers, same, same_key, same_text, same_token};
use crate::wanted::{FoundMember, Wanted, is_at, is_either, may_follow};
use json::{Scratch, Token};
use jsonptr_text_search::decide::is_text;
use jsonptr_text_search::skip::skip;

/// Passes over the next value of both. The longer one is an object with one member more.
///
/// # Errors
///
/// [`CheckError::Mismatch`] if the values do not differ so, and [`CheckError::Memory`] if an
/// allocation fails.
pub fn check_added_member(
    scratch: &mut Scratch,
    readers: &mut Readers<'_>,
    depth: usize,
    child: &ChildValue,
) -> Result<(), CheckError>
    ensures passed { OnOk result ((d d2 e : Data) × ReadsTokens depth readers.old.one d readers.new.one
        × ReadsTokens depth readers.old.two d2 readers.new.two × (read (string_bytes child.now.value) ≡ Some e)
        × AddsChosenMember (choice_of child.now.selector) e d d2) }
    ensures one_shorter { OnOk result (length readers.new.one < length readers.old.one) }
    ensures two_shorter { OnOk result (length readers.new.two < length readers.old.two) }
{
    let token = same_token(&mut readers.one, &mut readers.two)?;
    if depth == 0 {
        return Err(CheckError::Mismatch);
    }
    match token {
        Token::BeginObject => {
            let member = Wanted {
                key: child.selector.key.as_str(),
                position: child.position,
            };
            add_member(scratch, readers, depth - 1, member, child.value.as_str())?;
            Ok(())
        }
        _ => Err(CheckError::Mismatch),
    }
}

/// Passes over the next value of both. The longer one is an array with one element more.
///
/// # Errors
///
/// As [`check_added_member`].
pub fn check_inserted_element(
    scratch: &mut Scratch,
    readers: &mut Readers<'_>,
    depth: usize,
    child: &ChildValue,
) -> Result<(), CheckError>
    ensures passed { OnOk result ((d d2 e : Data) × ReadsTokens depth readers.old.one d readers.new.one
        × ReadsTokens depth readers.old.two d2 readers.new.two × (read (string_bytes child.now.value) ≡ Some e)
        × AddsElement (choice_of child.now.selector) e d d2) }
    ensures one_shorter { OnOk result (length readers.new.one < length readers.old.one) }
    ensures two_shorter { OnOk result (length readers.new.two < length readers.old.two) }
{
    let token = same_token(&mut readers.one, &mut readers.two)?;
    if depth == 0 {
        return Err(CheckError::Mismatch);
    }
    match token {
        Token::BeginArray => {
            let index = child.selector.index.ok_or(CheckError::Mismatch)?;
            add_element(scratch, readers, depth - 1, index, child.value.as_str())?;
            Ok(())
        }
        _ => Err(CheckError::Mismatch),
    }
}

/// Passes over the rest of an array in both. The longer one has one element more, at the index.
///
/// # Errors
///
/// As [`check_added_member`].
fn add_element(
    scratch: &mut Scratch,
    readers: &mut Readers<'_>,
    depth: usize,
    index: usize,
    json: &str,
) -> Result<(), CheckError>
    ensures passed { OnOk result ((ds ds2 : Items) × (e : Data)
        × ReadsItems depth readers.old.one ds readers.new.one × ReadsItems depth readers.old.two ds2 readers.new.two
        × (read json.now ≡ Some e) × InsertsItem index e ds ds2) }
    ensures one_shorter { OnOk result (length readers.new.one < length readers.old.one) }
    ensures two_shorter { OnOk result (length readers.new.two < length readers.old.two) }
{
    let mut count = 0;
    let mut is_done = false;
    'elements: while !readers.two.take_end_array() {
        if count == usize::MAX {
            return Err(CheckError::Mismatch);
        }
        let wanted = is_at(count, index);
        visit_element(scratch, readers, depth, wanted, json)?;
        is_done = is_either(is_done, wanted);
        count += 1;
    }
    if !readers.one.take_end_array() || !is_done {
        return Err(CheckError::Mismatch);
    }
    Ok(())
}

/// Passes over the next element of the longer one: the new one if it is wanted, and one that both
/// have if it is not.
///
/// # Errors
///
/// As [`check_added_member`].
fn visit_element(
    scratch: &mut Scratch,
    readers: &mut Readers<'_>,
    depth: usize,
    wanted: bool,
    json: &str,
) -> Result<(), CheckError>
    ensures passed { OnOk result ((d : Data) × ReadsTokens depth readers.old.two d readers.new.two
        × AddsItemIf wanted json.now depth readers.old.one d readers.new.one) }
    ensures two_shorter { OnOk result (length readers.new.two < length readers.old.two) }
    ensures one_shorter { OnOk result (length readers.new.one ≤ length readers.old.one) }
{
    if wanted {
        same_text(scratch, &mut readers.two, depth, json)
    } else {
        if readers.one.take_end_array() {
            return Err(CheckError::Mismatch);
        }
        same(&mut readers.one, &mut readers.two, depth, depth)?;
        Ok(())
    }
}

/// Passes over the rest of an object in both. The longer one has one member more, with the key and
/// at the position, and perhaps others with that key before it. The shorter one does not have the
/// key.
///
/// # Errors
///
/// As [`check_added_member`].
fn add_member(
    scratch: &mut Scratch,
    readers: &mut Readers<'_>,
    depth: usize,
    member: Wanted<'_>,
    json: &str,
) -> Result<(), CheckError>
    ensures passed { OnOk result ((ms ms2 : Members) × (e : Data)
        × ReadsMembers depth readers.old.one ms readers.new.one × ReadsMembers depth readers.old.two ms2 readers.new.two
        × (read json.now ≡ Some e) × InsertsMember member.entry.key.now e ms ms2) }
    ensures one_shorter { OnOk result (length readers.new.one < length readers.old.one) }
    ensures two_shorter { OnOk result (length readers.new.two < length readers.old.two) }
{
    let mut count = 0usize;
    let mut is_done = false;
    'members: while let Some(name) = readers.two.next_key()? {
        let wanted = is_at(count, member.position);
        let named = is_text(name, member.key);
        if !may_follow(is_done, wanted, named) {
            return Err(CheckError::Mismatch);
        }
        let found = FoundMember {
            name,
            wanted,
            named,
        };
        visit_member(scratch, readers, depth, found, json)?;
        is_done = is_either(is_done, wanted);
        count = count.saturating_add(1);
    }
    if readers.one.next_key()?.is_some() || !is_done {
        return Err(CheckError::Mismatch);
    }
    Ok(())
}

/// Passes over the value of the next member of the longer one: the new one if it is wanted, one that
/// the new one replaces if it has the key, and else one that both have.
///
/// # Errors
///
/// As [`check_added_member`].
fn visit_member(
    scratch: &mut Scratch,
    readers: &mut Readers<'_>,
    depth: usize,
    found: FoundMember<'_>,
    json: &str,
) -> Result<(), CheckError>
    ensures passed { OnOk result ((d : Data) × ReadsTokens depth readers.old.two d readers.new.two
        × AddsMemberIf found.entry.wanted found.entry.named json.now depth found.entry.name.now readers.old.one d readers.new.one) }
    ensures two_shorter { OnOk result (length readers.new.two < length readers.old.two) }
    ensures one_shorter { OnOk result (length readers.new.one ≤ length readers.old.one) }
{
    if found.wanted {
        same_text(scratch, &mut readers.two, depth, json)
    } else if found.named {
        skip(&mut readers.two, depth)?;
        Ok(())
    } else {
        same_key(&mut readers.one, found.name)?;
        same(&mut readers.one, &mut readers.two, depth, depth)?;
        Ok(())
    }
}
