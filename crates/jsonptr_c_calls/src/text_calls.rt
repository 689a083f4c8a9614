//! Texts in a handle.
ghost use Rattle.std.specs.Prelude.{◌≡◌, ◌≤◌, false, IfErr, IfOk, IfSome, IsUtf8, MatchOption, OnErr, OnOk, length, string_bytes, take, ⊤};
ghost use Rattle.jsonptr_c_calls.specs.OpenTexts.{Deletes, IsNotOpened, ReadsAs, Renames};
ghost use Rattle.jsonptr_c_calls.specs.Relayouts.{IsNotRelaidIn, Relays};
ghost use Rattle.jsonptr_c_calls.specs.TextCalls.{AssignsText, FindsNothing, IsNotAssignedIn, IsNotCopied, IsNotDeletedIn, IsNotPatchedIn, IsNotRenamedIn, Makes, PatchesText, part};
ghost use Rattle.jsonptr_c_calls.specs.TextHandle.{ChangesText, FailsOnText, HoldsTextWith, IsVacant, KeepsText};
ghost use Rattle.jsonptr_c_calls.specs.TextReads.{IsBareText, IsNotLocatedIn, IsNotPointedAtIn, IsNotStripped, LocatesIn, PointsAtIn};

use crate::buffer::copy_to;
use crate::call_error::{Argument, CallError};
use crate::change::Change;
use crate::given::{read_patch, read_value};
use crate::locations::TextSpan;
use crate::open_text::OpenText;
use crate::pointers::text_of;
use crate::text_format::TextFormat;
use crate::text_handle::TextHandle;
use crate::{text_edits, text_reads};
use std::alloc::{AllocError, Global};

/// Opens a text in the handle. A text that it holds is freed.
///
/// # Errors
///
/// Those of [`OpenText::open`]. The handle is unchanged.
///
/// # Examples
///
/// ```rust
/// let mut text = TextHandle::empty();
/// let settings = b"{\n  \"size\": 3, // px\n}\n";
/// assert!(rt; text_calls::open(alloc, &mut text, TextFormat::Commented, settings).is_ok());
/// let change = text_calls::assign(alloc, &mut text, b"/size", b"4.0", false);
/// let change = change.ok().ok_or("an edit")?;
/// assert_eq!(rt; (change.start, change.old_end, change.new_end), (12, 13, 15));
/// let mut out = [0u8; 8];
/// assert_eq!(rt; text_calls::copy(alloc, &mut text, 12, 22, &mut out).ok(), None);
/// assert_eq!(rt; text_calls::copy(alloc, &mut text, 12, 16, &mut out).ok(), Some(4));
/// assert!(rt; out.starts_with(b"4.0,"));
/// text_calls::free(alloc, &mut text);
/// ```
pub fn open(
    alloc: Global,
    text: &mut TextHandle,
    format: TextFormat,
    bytes: &[u8],
) -> Result<(), CallError>
    ensures opened { OnOk result (HoldsTextWith text.new
        (λ t. (string_bytes t.text ≡ bytes.now) × (t.format ≡ format))) }
    ensures reads { OnOk result (ReadsAs format bytes.now) }
    ensures utf8 { OnOk result (IsUtf8 bytes.now) }
    ensures refused { IfErr result (IsNotOpened format bytes.now) }
    ensures unchanged { OnErr result (text.new ≡ text.old) }
{
    let Ok(opened) = Box::new(alloc, OpenText::open(alloc, format, bytes)?) else {
        return Err(CallError::Memory(AllocError));
    };
    free(alloc, text);
    text.put(opened);
    Ok(())
}

/// Frees the text that the handle holds, if any.
pub fn free(alloc: Global, text: &mut TextHandle)
    ensures { IsVacant text.new }
{
    let _freed = text.take(alloc);
}

/// Assigns the value that the bytes are the text of at the location that the pointer identifies, by
/// [`text_edits::assign`]. Returns which bytes of the text are replaced.
///
/// # Errors
///
/// - [`CallError::NotUtf8`] and [`CallError::NotJson`] for the value, which is read first.
/// - [`CallError::NoDocument`] if the handle holds no text.
/// - Those of [`text_edits::assign`].
///
/// The text is unchanged.
///
/// # Examples
///
/// ```rust
/// let mut text = TextHandle::empty();
/// assert!(rt; text_calls::open(alloc, &mut text, TextFormat::Json, b"[1.10, 2]").is_ok());
/// assert!(rt; text_calls::assign(alloc, &mut text, b"/-", b"3.30", false).is_ok());
/// let mut out = [0u8; 15];
/// assert_eq!(rt; text_calls::copy(alloc, &mut text, 0, usize::MAX, &mut out).ok(), Some(15));
/// assert_eq!(rt; out, *b"[1.10, 2, 3.30]");
/// text_calls::free(alloc, &mut text);
/// ```
///
/// In TOML the value is written as TOML writes it:
///
/// ```rust
/// let mut text = TextHandle::empty();
/// let toml = b"size = 3 # px\n";
/// assert!(rt; text_calls::open(alloc, &mut text, TextFormat::Toml, toml).is_ok());
/// let unit = text_calls::assign(alloc, &mut text, b"/unit", b"{\"name\": \"px\"}", false);
/// assert!(rt; unit.is_ok());
/// let mut out = [0u8; 34];
/// assert_eq!(rt; text_calls::copy(alloc, &mut text, 0, usize::MAX, &mut out).ok(), Some(34));
/// assert!(rt; out.starts_with(b"size = 3 # px\n\n[unit]\nname = \"px\"\n"));
/// let none = text_calls::assign(alloc, &mut text, b"/unit", b"[null]", false);
/// assert!(rt; matches!(none, Err(CallError::NotTomlValue)));
/// text_calls::free(alloc, &mut text);
/// ```
pub fn assign(
    alloc: Global,
    text: &mut TextHandle,
    pointer: &[u8],
    value: &[u8],
    may_reformat: bool,
) -> Result<Change, CallError>
    ensures edited { IfOk result
        (λ change. Makes (AssignsText pointer.now value.now) text.old change text.new) }
    ensures allowed { may_reformat ≡ false → IfOk result (λ change. change.is_reformatted ≡ false) }
    ensures pointer_utf8 { OnOk result (IsUtf8 pointer.now) }
    ensures value_utf8 { OnOk result (IsUtf8 value.now) }
    ensures refused { IfErr result (IsNotAssignedIn may_reformat value.now text.old pointer.now) }
    ensures unchanged { OnErr result (KeepsText text.old text.new) }
{
    let raw = read_value(alloc, value)?;
    let Some(mut opened) = text.take(alloc) else {
        return Err(CallError::NoDocument);
    };
    let outcome = text_edits::assign(&mut opened, pointer, raw, may_reformat);
    text.put(opened);
    outcome
}

/// Deletes the value that the pointer resolves to, by [`text_edits::delete`]. Returns which bytes of the text
/// are removed, or `None` if there is no value.
///
/// # Errors
///
/// [`CallError::NoDocument`] if the handle holds no text, and those of [`text_edits::delete`]. The text is
/// unchanged.
///
/// # Examples
///
/// ```rust
/// let mut text = TextHandle::empty();
/// let list = b"[1, /* two */ 2,]";
/// assert!(rt; text_calls::open(alloc, &mut text, TextFormat::Commented, list).is_ok());
/// let deleted = text_calls::delete(alloc, &mut text, b"/0", false);
/// assert!(rt; deleted.ok().ok_or("an edit")?.is_some());
/// let nothing = text_calls::delete(alloc, &mut text, b"/5", false);
/// assert!(rt; nothing.ok().ok_or("no error")?.is_none());
/// text_calls::free(alloc, &mut text);
/// ```
pub fn delete(
    alloc: Global,
    text: &mut TextHandle,
    pointer: &[u8],
    may_reformat: bool,
) -> Result<Option<Change>, CallError>
    ensures edited { IfOk result
        (λ o. IfSome o (λ change. Makes (Deletes pointer.now) text.old change text.new)) }
    ensures allowed { may_reformat ≡ false
        → IfOk result (λ o. IfSome o (λ change. change.is_reformatted ≡ false)) }
    ensures nothing { IfOk result
        (λ o. MatchOption o (FindsNothing (Deletes pointer.now) text.old text.new) (λ _. ⊤)) }
    ensures utf8 { OnOk result (IsUtf8 pointer.now) }
    ensures refused { IfErr result (IsNotDeletedIn may_reformat text.old pointer.now) }
    ensures unchanged { OnErr result (KeepsText text.old text.new) }
{
    let Some(mut opened) = text.take(alloc) else {
        return Err(CallError::NoDocument);
    };
    let outcome = text_edits::delete(&mut opened, pointer, may_reformat);
    text.put(opened);
    outcome
}

/// Renames the member of an object that the pointer resolves to, by [`text_edits::rename`]. Returns which bytes
/// of the text are replaced.
///
/// # Errors
///
/// - [`CallError::NotUtf8`] for the key.
/// - [`CallError::NoDocument`] if the handle holds no text.
/// - Those of [`text_edits::rename`].
///
/// The text is unchanged.
///
/// # Examples
///
/// ```rust
/// let mut text = TextHandle::empty();
/// let size = b"{\"size\" /* px */: 3}";
/// assert!(rt; text_calls::open(alloc, &mut text, TextFormat::Commented, size).is_ok());
/// let change = text_calls::rename(alloc, &mut text, b"/size", b"width", false);
/// let change = change.ok().ok_or("an edit")?;
/// assert_eq!(rt; (change.start, change.old_end, change.new_end), (2, 6, 7));
/// text_calls::free(alloc, &mut text);
/// ```
pub fn rename(
    alloc: Global,
    text: &mut TextHandle,
    pointer: &[u8],
    key: &[u8],
    may_reformat: bool,
) -> Result<Change, CallError>
    ensures edited { IfOk result
        (λ change. Makes (Renames pointer.now key.now) text.old change text.new) }
    ensures allowed { may_reformat ≡ false → IfOk result (λ change. change.is_reformatted ≡ false) }
    ensures pointer_utf8 { OnOk result (IsUtf8 pointer.now) }
    ensures key_utf8 { OnOk result (IsUtf8 key.now) }
    ensures refused { IfErr result (IsNotRenamedIn may_reformat key.now text.old pointer.now) }
    ensures unchanged { OnErr result (KeepsText text.old text.new) }
{
    let key = text_of(Argument::Token, key)?;
    let Some(mut opened) = text.take(alloc) else {
        return Err(CallError::NoDocument);
    };
    let outcome = text_edits::rename(&mut opened, pointer, key, may_reformat);
    text.put(opened);
    outcome
}

/// Applies the patch document that the bytes are the text of, whole or not at all, by
/// [`text_edits::patch`]. Returns which bytes of the text are replaced.
///
/// # Errors
///
/// - Those of [`read_patch`], for the patch, which is read first.
/// - [`CallError::NoDocument`] if the handle holds no text.
/// - Those of [`text_edits::patch`].
///
/// The text is unchanged.
///
/// # Examples
///
/// ```rust
/// let mut text = TextHandle::empty();
/// assert!(rt; text_calls::open(alloc, &mut text, TextFormat::Json, b"[ 1.0, 2.0 ]").is_ok());
/// let remove = b"[{\"op\": \"remove\", \"path\": \"/0\"}]";
/// assert!(rt; text_calls::patch(alloc, &mut text, remove, false).is_ok());
/// let mut out = [0u8; 7];
/// assert_eq!(rt; text_calls::copy(alloc, &mut text, 0, usize::MAX, &mut out).ok(), Some(7));
/// assert_eq!(rt; out, *b"[ 2.0 ]");
/// text_calls::free(alloc, &mut text);
/// ```
pub fn patch(
    alloc: Global,
    text: &mut TextHandle,
    patch: &[u8],
    may_reformat: bool,
) -> Result<Change, CallError>
    ensures edited { IfOk result (λ change. Makes (PatchesText patch.now) text.old change text.new) }
    ensures allowed { may_reformat ≡ false → IfOk result (λ change. change.is_reformatted ≡ false) }
    ensures utf8 { OnOk result (IsUtf8 patch.now) }
    ensures refused { IfErr result (IsNotPatchedIn may_reformat patch.now text.old) }
    ensures unchanged { OnErr result (KeepsText text.old text.new) }
{
    let given = read_patch(alloc, patch)?;
    let Some(mut opened) = text.take(alloc) else {
        return Err(CallError::NoDocument);
    };
    let outcome = text_edits::patch(&mut opened, given, may_reformat);
    text.put(opened);
    outcome
}

/// Makes the document of the JSON text that the bytes are in the text, in the layout that it has, by
/// [`OpenText::relayout`]. Returns which bytes of the text are replaced.
///
/// # Errors
///
/// - [`CallError::NotUtf8`] for the new text.
/// - [`CallError::NoDocument`] if the handle holds no text.
/// - Those of [`OpenText::relayout`].
///
/// The text is unchanged.
///
/// # Examples
///
/// ```rust
/// let mut text = TextHandle::empty();
/// let sizes = b"{ \"sizes\": [1.00, 2] }";
/// assert!(rt; text_calls::open(alloc, &mut text, TextFormat::Json, sizes).is_ok());
/// let new = b"{\"name\":\"a\",\"sizes\":[1.0]}";
/// assert!(rt; text_calls::relayout(alloc, &mut text, new, false).is_ok());
/// let mut out = [0u8; 32];
/// assert_eq!(rt; text_calls::copy(alloc, &mut text, 0, usize::MAX, &mut out).ok(), Some(32));
/// assert_eq!(rt; out, *b"{ \"sizes\": [1.00], \"name\": \"a\" }");
/// text_calls::free(alloc, &mut text);
/// ```
pub fn relayout(
    alloc: Global,
    text: &mut TextHandle,
    new: &[u8],
    may_reformat: bool,
) -> Result<Change, CallError>
    ensures relaid { IfOk result (λ change. Relays new.now text.old change text.new) }
    ensures allowed { may_reformat ≡ false → IfOk result (λ change. change.is_reformatted ≡ false) }
    ensures utf8 { OnOk result (IsUtf8 new.now) }
    ensures refused { IfErr result (IsNotRelaidIn may_reformat new.now text.old) }
    ensures unchanged { OnErr result (KeepsText text.old text.new) }
{
    let given = text_of(Argument::Text, new)?;
    let Some(mut opened) = text.take(alloc) else {
        return Err(CallError::NoDocument);
    };
    let outcome = opened.relayout(given, may_reformat);
    text.put(opened);
    outcome
}

/// Copies the bytes of the text from one offset up to another one to the buffer, as far as it has them, and
/// returns their number. Needs no allocation.
///
/// # Errors
///
/// - [`CallError::NoDocument`] if the handle holds no text.
/// - [`CallError::NoRoom`] if the buffer is shorter.
///
/// The buffer is unchanged.
pub fn copy(
    alloc: Global,
    text: &mut TextHandle,
    start: usize,
    end: usize,
    out: &mut [u8],
) -> Result<usize, CallError>
    ensures copied { IfOk result (λ n. HoldsTextWith text.old
        (λ t. take n out.new ≡ part start end (string_bytes t.text))) }
    ensures fits { IfOk result (λ n. n ≤ length out.new) }
    ensures refused { IfErr result (IsNotCopied start end text.old (length out.old)) }
    ensures output_unchanged { OnErr result (out.new ≡ out.old) }
    ensures unchanged { KeepsText text.old text.new }
{
    let Some(opened) = text.take(alloc) else {
        return Err(CallError::NoDocument);
    };
    let copied = copy_to(part_of(opened.text.as_str(), start, end), out);
    text.put(opened);
    copied
}

/// Replaces the comments and trailing commas of the text by spaces, by [`text_reads::remove_comments`]. Its
/// format is then JSON.
///
/// # Errors
///
/// [`CallError::NoDocument`] if the handle holds no text, and those of [`text_reads::remove_comments`]. The text
/// is unchanged.
pub fn remove_comments(alloc: Global, text: &mut TextHandle) -> Result<(), CallError>
    ensures removed { OnOk result (ChangesText text.old IsBareText text.new) }
    ensures refused { IfErr result (λ e. FailsOnText text.old (λ t. IsNotStripped t e) e) }
    ensures unchanged { OnErr result (KeepsText text.old text.new) }
{
    let Some(mut opened) = text.take(alloc) else {
        return Err(CallError::NoDocument);
    };
    let outcome = text_reads::remove_comments(alloc, &mut opened);
    text.put(opened);
    outcome
}

/// Returns where the value that the pointer resolves to is in the text, by [`text_reads::locate`].
///
/// # Errors
///
/// [`CallError::NoDocument`] if the handle holds no text, and those of [`text_reads::locate`].
pub fn locate(alloc: Global, text: &mut TextHandle, pointer: &[u8]) -> Result<TextSpan, CallError>
    ensures located { IfOk result
        (λ s. HoldsTextWith text.old (λ t. LocatesIn t pointer.now s.start s.end)) }
    ensures utf8 { OnOk result (IsUtf8 pointer.now) }
    ensures refused { IfErr result
        (λ e. FailsOnText text.old (λ t. IsNotLocatedIn t pointer.now e) e) }
    ensures unchanged { KeepsText text.old text.new }
{
    let Some(opened) = text.take(alloc) else {
        return Err(CallError::NoDocument);
    };
    let span = text_reads::locate(alloc, &opened, pointer);
    text.put(opened);
    span
}

/// Copies the pointer of a value that contains the byte at the offset to the buffer, and returns its length, by
/// [`text_reads::pointer_at`].
///
/// # Errors
///
/// [`CallError::NoDocument`] if the handle holds no text, and those of [`text_reads::pointer_at`]. The buffer is
/// unchanged.
pub fn pointer_at(
    alloc: Global,
    text: &mut TextHandle,
    offset: usize,
    out: &mut [u8],
) -> Result<usize, CallError>
    ensures pointed { IfOk result
        (λ n. HoldsTextWith text.old (λ t. PointsAtIn t offset (take n out.new))) }
    ensures fits { IfOk result (λ n. n ≤ length out.new) }
    ensures refused { IfErr result
        (λ e. FailsOnText text.old (λ t. IsNotPointedAtIn t offset (length out.old) e) e) }
    ensures output_unchanged { OnErr result (out.new ≡ out.old) }
    ensures unchanged { KeepsText text.old text.new }
{
    let Some(opened) = text.take(alloc) else {
        return Err(CallError::NoDocument);
    };
    let copied = text_reads::pointer_at(alloc, &opened, offset, out);
    text.put(opened);
    copied
}

/// Returns the bytes of the text from one offset up to another one, as far as it has them.
fn part_of(text: &str, start: usize, end: usize) -> &[u8]
    ensures { result.now ≡ part start end text.now }
{
    let bytes = text.as_bytes();
    let end = end.min(bytes.len());
    &bytes[start.min(end)..end]
}
