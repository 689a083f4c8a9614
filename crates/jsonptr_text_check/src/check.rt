//! Reading two texts side by side, which differ by one change.
ghost use Rattle.std.specs.Prelude.{◌<◌, length, OnOk, IfOk, IsTrue};
ghost use Rattle.serde_json.specs.Data.{Data, Items, Members};
ghost use Rattle.jsonptr_text_search.specs.Reading.{ReadsTokens, ReadsItems, ReadsMembers};
ghost use Rattle.jsonptr_text_search.specs.Search.{choices};
ghost use Rattle.jsonptr_text_check.specs.Editing.{OnlyItemDiffers, OnlyMemberDiffers, ChangesAt, Makes, IsEdited};
ghost use Rattle.jsonptr_text_check.specs.PrivateEditing.{ChangesIf};

use crate::added::{check_added_member, check_inserted_element};
use crate::appended::check_appended_element;
use crate::change::{Change, ChangeAt};
use crate::check_error::CheckError;
use crate::renamed::check_renamed_member;
use crate::same::{Readers, same, same_key, same_text, same_token};
use crate::wanted::{Wanted, is_at, is_either, may_follow};
use json::{Reader, Scratch, Token};
use jsonptr_text_piece::buffers::Buffers;
use jsonptr_text_search::decide::is_text;
use jsonptr_value::MAX_DEPTH;
use std::alloc::AllocError;

/// Returns whether the new text reads as the old one with the change of the value that the selectors
/// lead to.
///
/// Reads both texts once, side by side. If the position of a member is not that of the last one with its
/// key, the result is `false`. The position of an element is not looked at.
///
/// # Errors
///
/// [`AllocError`] if there is no memory for the unescaped strings of a text.
pub fn is_edited(
    buffers: &mut Buffers,
    old: &str,
    new: &str,
    at: ChangeAt<'_>,
) -> Result<bool, AllocError>
    ensures { IfOk result (λ b. IsTrue b
        → IsEdited old.now new.now (choices at.entry.selectors.now) at.entry.change.now) }
{
    match check(buffers, old, new, at) {
        Ok(()) => Ok(true),
        Err(CheckError::Mismatch) => Ok(false),
        Err(CheckError::Memory(error)) => Err(error),
    }
}

/// Reads both texts, which differ by the change.
///
/// # Errors
///
/// [`CheckError::Mismatch`] if they do not, and [`CheckError::Memory`] if an allocation fails.
fn check(buffers: &mut Buffers, old: &str, new: &str, at: ChangeAt<'_>) -> Result<(), CheckError>
    ensures { OnOk result (IsEdited old.now new.now (choices at.entry.selectors.now) at.entry.change.now) }
{
    let one = Reader::new(old, &mut buffers.old)?;
    let two = Reader::new(new, &mut buffers.new)?;
    let mut readers = Readers { one, two };
    check_change(&mut buffers.value, &mut readers, MAX_DEPTH, at)?;
    if readers.one.next().is_some() || readers.two.next().is_some() {
        return Err(CheckError::Mismatch);
    }
    Ok(())
}

/// Passes over the next value of both, which differ by the change below the selectors.
///
/// # Errors
///
/// As [`check`].
#[cycle(check_change)]
fn check_change(
    scratch: &mut Scratch,
    readers: &mut Readers<'_>,
    depth: usize,
    at: ChangeAt<'_>,
) -> Result<(), CheckError>
    ensures passed { OnOk result ((d d2 : Data) × ReadsTokens depth readers.old.one d readers.new.one
        × ReadsTokens depth readers.old.two d2 readers.new.two
        × ChangesAt (choices at.entry.selectors.now) (Makes at.entry.change.now) d d2) }
    ensures one_shorter { OnOk result (length readers.new.one < length readers.old.one) }
    ensures two_shorter { OnOk result (length readers.new.two < length readers.old.two) }
{
    let Some((selector, selectors)) = at.selectors.split_first() else {
        return make(scratch, readers, depth, at.change);
    };
    let Some((position, positions)) = at.positions.split_first() else {
        return Err(CheckError::Mismatch);
    };
    let rest = ChangeAt {
        selectors,
        positions,
        change: at.change,
    };
    let token = same_token(&mut readers.one, &mut readers.two)?;
    if depth == 0 {
        return Err(CheckError::Mismatch);
    }
    match token {
        Token::BeginArray => {
            let index = selector.index.ok_or(CheckError::Mismatch)?;
            change_element(scratch, readers, depth - 1, index, rest)?;
            Ok(())
        }
        Token::BeginObject => {
            let key = selector.key.as_str();
            let member = Wanted {
                key,
                position: *position,
            };
            change_member(scratch, readers, depth - 1, member, rest)?;
            Ok(())
        }
        _ => Err(CheckError::Mismatch),
    }
}

/// Passes over the next value of both, of which the change makes the new one.
///
/// # Errors
///
/// As [`check`].
fn make(
    scratch: &mut Scratch,
    readers: &mut Readers<'_>,
    depth: usize,
    change: &Change,
) -> Result<(), CheckError>
    ensures passed { OnOk result ((d d2 : Data) × ReadsTokens depth readers.old.one d readers.new.one
        × ReadsTokens depth readers.old.two d2 readers.new.two × Makes change.now d d2) }
    ensures one_shorter { OnOk result (length readers.new.one < length readers.old.one) }
    ensures two_shorter { OnOk result (length readers.new.two < length readers.old.two) }
{
    match change {
        Change::Replace {
            old: before,
            new: after,
        } => {
            same_text(scratch, &mut readers.one, depth, before.as_str())?;
            same_text(scratch, &mut readers.two, depth, after.as_str())?;
            Ok(())
        }
        Change::Add(child) => check_added_member(scratch, readers, depth, child),
        Change::Insert(child) => check_inserted_element(scratch, readers, depth, child),
        Change::Append(child) => check_appended_element(scratch, readers, depth, child),
        Change::Rename(renaming) => check_renamed_member(readers, depth, renaming),
    }
}

/// Passes over the rest of an array in both, which differ by the change below the selectors in the
/// element at the index.
///
/// # Errors
///
/// As [`check`].
#[cycle(check_change)]
fn change_element(
    scratch: &mut Scratch,
    readers: &mut Readers<'_>,
    depth: usize,
    index: usize,
    at: ChangeAt<'_>,
) -> Result<(), CheckError>
    ensures passed { OnOk result ((ds ds2 : Items) × (e e2 : Data)
        × ReadsItems depth readers.old.one ds readers.new.one
        × ReadsItems depth readers.old.two ds2 readers.new.two
        × OnlyItemDiffers index e e2 ds ds2
        × ChangesAt (choices at.entry.selectors.now) (Makes at.entry.change.now) e e2) }
    ensures one_shorter { OnOk result (length readers.new.one < length readers.old.one) }
    ensures two_shorter { OnOk result (length readers.new.two < length readers.old.two) }
{
    let mut count = 0;
    let mut is_done = false;
    'elements: while !readers.one.take_end_array() {
        if readers.two.take_end_array() || count == usize::MAX {
            return Err(CheckError::Mismatch);
        }
        let wanted = is_at(count, index);
        visit(scratch, readers, depth, wanted, at)?;
        is_done = is_either(is_done, wanted);
        count += 1;
    }
    if !readers.two.take_end_array() || !is_done {
        return Err(CheckError::Mismatch);
    }
    Ok(())
}

/// Passes over the rest of an object in both, which differ by the change below the selectors in the
/// last member with the key, which is the one at the position.
///
/// # Errors
///
/// As [`check`].
#[cycle(check_change)]
fn change_member(
    scratch: &mut Scratch,
    readers: &mut Readers<'_>,
    depth: usize,
    member: Wanted<'_>,
    at: ChangeAt<'_>,
) -> Result<(), CheckError>
    ensures passed { OnOk result ((ms ms2 : Members) × (e e2 : Data)
        × ReadsMembers depth readers.old.one ms readers.new.one
        × ReadsMembers depth readers.old.two ms2 readers.new.two
        × OnlyMemberDiffers member.entry.key.now e e2 ms ms2
        × ChangesAt (choices at.entry.selectors.now) (Makes at.entry.change.now) e e2) }
    ensures one_shorter { OnOk result (length readers.new.one < length readers.old.one) }
    ensures two_shorter { OnOk result (length readers.new.two < length readers.old.two) }
{
    let mut count = 0usize;
    let mut is_done = false;
    'members: while let Some(name) = readers.one.next_key()? {
        same_key(&mut readers.two, name)?;
        let wanted = is_at(count, member.position);
        let named = is_text(name, member.key);
        if !may_follow(is_done, wanted, named) {
            return Err(CheckError::Mismatch);
        }
        visit(scratch, readers, depth, wanted, at)?;
        is_done = is_either(is_done, wanted);
        count = count.saturating_add(1);
    }
    if readers.two.next_key()?.is_some() || !is_done {
        return Err(CheckError::Mismatch);
    }
    Ok(())
}

/// Passes over the next value of both, which differ by the change if it is wanted, and not at all if
/// it is not.
///
/// # Errors
///
/// As [`check`].
#[cycle(check_change)]
fn visit(
    scratch: &mut Scratch,
    readers: &mut Readers<'_>,
    depth: usize,
    wanted: bool,
    at: ChangeAt<'_>,
) -> Result<(), CheckError>
    ensures passed { OnOk result ((d d2 : Data) × ReadsTokens depth readers.old.one d readers.new.one
        × ReadsTokens depth readers.old.two d2 readers.new.two
        × ChangesIf wanted (choices at.entry.selectors.now) at.entry.change.now d d2) }
    ensures one_shorter { OnOk result (length readers.new.one < length readers.old.one) }
    ensures two_shorter { OnOk result (length readers.new.two < length readers.old.two) }
{
    if wanted {
        check_change(scratch, readers, depth, at)
    } else {
        same(&mut readers.one, &mut readers.two, depth, depth)?;
        Ok(())
    }
}
