//! Renaming a member of a table in a text.
ghost use Rattle.std.specs.Prelude.{◌≡◌, ℕ, IsTrue, IfOk, IfErr, IfSome, string_bytes};
ghost use Rattle.jsonptr.specs.Pointer.{tokens};
ghost use Rattle.jsonptr_text_step.specs.Bytes.{KeepsBytes};
ghost use Rattle.jsonptr_text_step.specs.EditInText.{edited_text};
ghost use Rattle.jsonptr_toml_edit.specs.EditInToml.{IsPrinted};
ghost use Rattle.jsonptr_toml_edit.specs.Renaming as words;
ghost use Rattle.jsonptr_toml_edit.specs.Renaming.{RenamesInToml, RenamesAndPrintsToml, RenamesTomlBytes, RenamesKey, RenamesKeys, IsKeyText, EndsInNoSpace, IsBetweenKeys, IsRenameInTomlError};

use crate::assign::choose;
use crate::keys::key_text;
use crate::mention::mentions_of;
use crate::rename_document::{is_same_text, renamed_document};
use jsonptr::Pointer;
use jsonptr_text_piece::cut::{Cut, cut_at, splice};
use jsonptr_text_piece::span::Span;
use jsonptr_text_step::{RenameError, Stepped};
use jsonptr_toml::EditTomlError;
use std::alloc::{AllocError, Global};
use toml_parser::bytes::{is_bare, is_ws};
use toml_parser::text::{byte_at, first};
use toml_parser::{ParseError, dotted_key};

/// Renames the member of a table that the pointer resolves to, in the document that the text contains.
///
/// # Errors
///
/// Those of [`edit_toml`](crate::edit_toml) for a renaming.
pub fn rename_in_toml(
    alloc: Global,
    text: &str,
    pointer: Pointer<'_>,
    key: &str,
) -> Result<Stepped, EditTomlError<RenameError>>
    ensures renamed { IfOk result
        (λ e. RenamesInToml text.now (tokens pointer.entry) key.now (edited_text e)) }
    ensures bytes { IfOk result
        (KeepsBytes (RenamesTomlBytes text.now (tokens pointer.entry) key.now)) }
    ensures printed { IfOk result
        (IsPrinted (RenamesAndPrintsToml text.now (tokens pointer.entry) key.now)) }
    ensures refused { IfErr result (IsRenameInTomlError text.now (tokens pointer.entry) key.now) }
{
    let document = renamed_document(alloc, text, pointer, key)?;
    let candidate = candidate_of(alloc, text, pointer, key)?;
    Ok(choose(alloc, candidate, document)?)
}

/// Returns the text with the key replaced wherever it names the member.
fn candidate_of(
    alloc: Global,
    text: &str,
    pointer: Pointer<'_>,
    key: &str,
) -> Result<Option<String>, AllocError>
    ensures { IfOk result (λ new. IfSome new
        (λ s. RenamesTomlBytes text.now (tokens pointer.entry) key.now (string_bytes s))) }
{
    let Some((_front, last)) = pointer.split_back() else {
        return Ok(None);
    };
    let old_key = last.decoded(alloc)?;
    if is_same_text(key, old_key.as_str()) {
        return Ok(Some(String::from_str(alloc, text)?));
    }
    let name = key_text(alloc, key)?;
    let parts = mentions_of(alloc, text, pointer)?;
    let renaming = KeyRenaming {
        from: old_key.as_str(),
        to: key,
        name: name.as_str(),
    };
    put_names(alloc, text, &parts, &renaming)
}

/// A key that becomes another one.
#[derive(Clone, Copy, Debug)]
struct KeyRenaming<'k> {
    /// The key.
    from: &'k str,
    /// The other key.
    to: &'k str,
    /// The text of the other key.
    name: &'k str,
}

/// Returns the text with the keys at the spans replaced, from the last to the first.
fn put_names(
    alloc: Global,
    text: &str,
    parts: &Vec<Span>,
    renaming: &KeyRenaming<'_>,
) -> Result<Option<String>, AllocError>
    ensures { IfOk result (λ new. IfSome new (λ s. (n : ℕ)
        × RenamesKeys n renaming.now.from.now renaming.now.to.now text.now (string_bytes s))) }
{
    let mut current = String::from_str(alloc, text)?;
    'names: for part in parts.iter().rev() {
        let Some(next) = put_name(alloc, current.as_str(), *part, renaming)? else {
            return Ok(None);
        };
        current = next;
    }
    Ok(Some(current))
}

/// Returns the text with the key at the span replaced, if it is the one that is renamed.
fn put_name(
    alloc: Global,
    text: &str,
    part: Span,
    renaming: &KeyRenaming<'_>,
) -> Result<Option<String>, AllocError>
    ensures { IfOk result (λ new. IfSome new (λ s. RenamesKey renaming.now.from.now
        renaming.now.to.now text.now (string_bytes s))) }
{
    let Some(cut) = cut_at(text, part.from, part.to) else {
        return Ok(None);
    };
    if is_renamed(alloc, &cut, renaming)? {
        Ok(Some(splice(alloc, &cut, renaming.name)?))
    } else {
        Ok(None)
    }
}

/// Returns whether the key that is cut out is the one that is renamed, and whole, and its new text one of
/// the new key.
fn is_renamed(alloc: Global, cut: &Cut<'_>, renaming: &KeyRenaming<'_>) -> Result<bool, AllocError>
    ensures was { IfOk result (λ b. IsTrue b → IsKeyText renaming.now.from.now cut.now.middle.now) }
    ensures is { IfOk result (λ b. IsTrue b
        → IsKeyText renaming.now.to.now renaming.now.name.now) }
    ensures whole { IfOk result (λ b. IsTrue b
        → IsBetweenKeys cut.now.before.now cut.now.after.now) }
{
    Ok(
        is_between_keys(cut.before, cut.after)
            && is_key_text(alloc, cut.middle, renaming.from)?
            && is_key_text(alloc, renaming.name, renaming.to)?,
    )
}

/// Returns whether neither text has a byte of a key beside what is between them.
fn is_between_keys(before: &str, after: &str) -> bool
    ensures { IsTrue result → IsBetweenKeys before.now after.now }
{
    let last = byte_at(before, before.len().saturating_sub(1));
    !is_key_byte(last) && !is_key_byte(first(after))
}

/// Returns whether the byte is one of a bare key, or a quotation mark of a key.
fn is_key_byte(byte: u8) -> bool
    ensures { result ≡ words.is_key_byte byte }
{
    is_bare(byte) || (byte == b'"' || byte == b'\'')
}

/// Returns whether the text is one of the key.
///
/// # Errors
///
/// [`AllocError`] if an allocation fails.
fn is_key_text(alloc: Global, text: &str, key: &str) -> Result<bool, AllocError>
    ensures { IfOk result (λ is. IsTrue is → IsKeyText key.now text.now) }
{
    let (read, rest) = match dotted_key(alloc, text) {
        Ok(read) => read,
        Err(ParseError::OutOfMemory) => return Err(AllocError),
        Err(_) => return Ok(false),
    };
    if !read.path.is_empty() {
        return Ok(false);
    }
    if !rest.is_empty() {
        return Ok(false);
    }
    if read.last.as_str() != key {
        return Ok(false);
    }
    Ok(ends_in_no_space(text))
}

/// Returns whether the last byte of the text is not a space or a tab.
fn ends_in_no_space(text: &str) -> bool
    ensures { IsTrue result → EndsInNoSpace text.now }
{
    !is_ws(byte_at(text, text.len().saturating_sub(1)))
}
