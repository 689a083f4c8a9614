//! Reading an object beside the same object with one member under another key.
ghost use Rattle.std.specs.Prelude.{◌≡◌, ◌<◌, length, OnOk, IsTrue, string_bytes};
ghost use Rattle.serde_json.specs.Data.{Data, Members};
ghost use Rattle.jsonptr_text_search.specs.Reading.{ReadsTokens, ReadsMembers};
ghost use Rattle.jsonptr_text_check.specs.Editing.{RenamesMember, RenamesKey};
ghost use Rattle.jsonptr_text_check.specs.PrivateRenaming.{MayPass, IsKeyAfter};

use crate::change::Renaming;
use crate::check_error::CheckError;
use crate::same::{Readers, same, same_key, same_token};
use crate::wanted::is_either;
use json::Token;
use jsonptr_text_search::decide::is_text;

/// Passes over the next value of both, an object. In the new one, one member has another key.
///
/// # Errors
///
/// [`CheckError::Mismatch`] if the values do not differ so, if the member is not the only one with its
/// key before, or if another one has the key after.
pub fn check_renamed_member(
    readers: &mut Readers<'_>,
    depth: usize,
    renaming: &Renaming,
) -> Result<(), CheckError>
    ensures passed { OnOk result ((d d2 : Data) × ReadsTokens depth readers.old.one d readers.new.one
        × ReadsTokens depth readers.old.two d2 readers.new.two
        × RenamesMember (string_bytes renaming.now.from) (string_bytes renaming.now.to) d d2) }
    ensures one_shorter { OnOk result (length readers.new.one < length readers.old.one) }
    ensures two_shorter { OnOk result (length readers.new.two < length readers.old.two) }
{
    let token = same_token(&mut readers.one, &mut readers.two)?;
    if depth == 0 {
        return Err(CheckError::Mismatch);
    }
    match token {
        Token::BeginObject => {
            let from = renaming.from.as_str();
            let to = renaming.to.as_str();
            rename_member(readers, depth - 1, from, to)?;
            Ok(())
        }
        _ => Err(CheckError::Mismatch),
    }
}

/// Passes over the rest of an object in both. The only member with the key `from` has the key `to` in the
/// new one, and no member has it in the old one.
///
/// # Errors
///
/// As [`check_renamed_member`].
fn rename_member(
    readers: &mut Readers<'_>,
    depth: usize,
    from: &str,
    to: &str,
) -> Result<(), CheckError>
    ensures passed { OnOk result ((ms ms2 : Members) × (e : Data)
        × ReadsMembers depth readers.old.one ms readers.new.one × ReadsMembers depth readers.old.two ms2 readers.new.two
        × RenamesKey from.now to.now e ms ms2) }
    ensures one_shorter { OnOk result (length readers.new.one < length readers.old.one) }
    ensures two_shorter { OnOk result (length readers.new.two < length readers.old.two) }
{
    let mut is_done = false;
    'members: while let Some(name) = readers.one.next_key()? {
        let named = is_text(name, from);
        let taken = is_text(name, to);
        if !may_pass(is_done, named, taken) {
            return Err(CheckError::Mismatch);
        }
        same_key(&mut readers.two, key_after(named, name, to))?;
        same(&mut readers.one, &mut readers.two, depth, depth)?;
        is_done = is_either(is_done, named);
    }
    if readers.two.next_key()?.is_some() || !is_done {
        return Err(CheckError::Mismatch);
    }
    Ok(())
}

/// Returns whether a member may be passed over: it does not have the new key, and not the old one if an
/// earlier member had that.
fn may_pass(is_done: bool, named: bool, taken: bool) -> bool
    ensures { IsTrue result → MayPass is_done named taken }
{
    !taken && !(is_done && named)
}

/// Returns the key of a member after the change: `to` if it has the old key, and its name if not.
fn key_after<'a>(named: bool, name: &'a str, to: &'a str) -> &'a str
    ensures { IsKeyAfter named name.now to.now result.now }
{
    if named { to } else { name }
}
