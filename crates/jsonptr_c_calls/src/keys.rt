//! The keys of an object in a document in a handle, one after another in ascending order.
ghost use Rattle.std.specs.Prelude.{◌≡◌, ◌≤◌, IfErr, IfNone, IfOk, IfSome, IsUtf8, MatchOption, OnErr, OnOk, length, string_bytes};
ghost use Rattle.serde_json.specs.Data.{object};
ghost use Rattle.serde_json.specs.View.{members_view, view};
ghost use Rattle.jsonptr_c_calls.specs.Failures.{FailsOnHandle};
ghost use Rattle.jsonptr_c_calls.specs.Handle.{Keeps};
ghost use Rattle.jsonptr_c_calls.specs.Keys.{CopiesFirstKey, CopiesNextKey, HasNoKey, HasNoNextKey, IsFirstKey, IsNextKey, IsNoFirstKey, IsNoNextKey, IsNoObject, LacksNextKey};
ghost use Rattle.jsonptr_c_calls.specs.Values.{FindsAtPointer, HoldsWith};

use crate::buffer::copy_to;
use crate::call_error::{Argument, CallError};
use crate::handle::Handle;
use crate::pointers::text_of;
use crate::values::find;
use serde_json::{Map, Value};
use std::alloc::Global;
use std::ops::Bound;

/// Copies the least key of the object that the pointer resolves to to the buffer, and returns its
/// length in bytes, or `None` if the object has no member. Keys are compared by their bytes.
///
/// This takes time in proportion to the logarithm of the number of members.
///
/// # Errors
///
/// - [`CallError::NoDocument`], and those of [`find`].
/// - [`CallError::OtherType`] if the value is not an object.
/// - [`CallError::NoRoom`] if the buffer is shorter than the key.
///
/// The buffer is unchanged, also if there is no key.
///
/// # Examples
///
/// ```rust
/// let mut document = Handle::empty();
/// assert!(rt; documents::parse(alloc, &mut document, b"{\"b\": 1, \"a/\": 2}").is_ok());
/// let mut out = [0u8; 2];
/// assert_eq!(rt; first_key(alloc, &mut document, b"", &mut out).ok(), Some(Some(2)));
/// assert_eq!(rt; out, *b"a/");
/// let number = first_key(alloc, &mut document, b"/b", &mut out);
/// assert!(rt; matches!(number, Err(CallError::OtherType)));
/// documents::free(alloc, &mut document);
/// ```
pub fn first_key(
    alloc: Global,
    document: &mut Handle,
    pointer: &[u8],
    out: &mut [u8],
) -> Result<Option<usize>, CallError>
    ensures key { IfOk result (λ found.
        HoldsWith document.old (λ v. CopiesFirstKey (view v) pointer.now found out.new)) }
    ensures fits { IfOk result (λ found. IfSome found (λ n. n ≤ length out.new)) }
    ensures none_unchanged { IfOk result (λ found. IfNone found (out.new ≡ out.old)) }
    ensures utf8 { OnOk result (IsUtf8 pointer.now) }
    ensures refused { IfErr result (λ e.
        FailsOnHandle document.old (λ v. IsNoFirstKey (view v) pointer.now (length out.old) e) e) }
    ensures output_unchanged { OnErr result (out.new ≡ out.old) }
    ensures unchanged { Keeps document.old document.new }
{
    let Some(value) = document.take(alloc) else {
        return Err(CallError::NoDocument);
    };
    let found = copy_first(alloc, &value, pointer, out);
    document.put(value);
    found
}

/// Copies the least key that is greater than `key`, of the object that the pointer resolves to, to
/// the buffer, and returns its length in bytes, or `None` if there is none. Keys are compared by
/// their bytes, and `key` need not be one of the object.
///
/// So [`first_key`], and then this call with each key that it returns, visit each key of the object
/// once, in ascending order. Each call takes time in proportion to the logarithm of the number of
/// members.
///
/// # Errors
///
/// - [`CallError::NotUtf8`] for `key`, which is read first.
/// - [`CallError::Memory`] if an allocation fails.
/// - [`CallError::NoDocument`], and those of [`find`].
/// - [`CallError::OtherType`] if the value is not an object.
/// - [`CallError::NoRoom`] if the buffer is shorter than the key that is copied.
///
/// The buffer is unchanged, also if there is no key.
///
/// # Examples
///
/// ```rust
/// let mut document = Handle::empty();
/// assert!(rt; documents::parse(alloc, &mut document, b"{\"b\": 1, \"a\": 2}").is_ok());
/// let mut out = [0u8; 1];
/// assert_eq!(rt; next_key(alloc, &mut document, b"", b"a", &mut out).ok(), Some(Some(1)));
/// assert_eq!(rt; out, *b"b");
/// assert_eq!(rt; next_key(alloc, &mut document, b"", b"b", &mut out).ok(), Some(None));
/// documents::free(alloc, &mut document);
/// ```
pub fn next_key(
    alloc: Global,
    document: &mut Handle,
    pointer: &[u8],
    key: &[u8],
    out: &mut [u8],
) -> Result<Option<usize>, CallError>
    ensures key { IfOk result (λ found.
        HoldsWith document.old (λ v. CopiesNextKey (view v) pointer.now key.now found out.new)) }
    ensures fits { IfOk result (λ found. IfSome found (λ n. n ≤ length out.new)) }
    ensures none_unchanged { IfOk result (λ found. IfNone found (out.new ≡ out.old)) }
    ensures pointer_utf8 { OnOk result (IsUtf8 pointer.now) }
    ensures key_utf8 { OnOk result (IsUtf8 key.now) }
    ensures refused { IfErr result
        (IsNoNextKey document.old pointer.now key.now (length out.old)) }
    ensures output_unchanged { OnErr result (out.new ≡ out.old) }
    ensures unchanged { Keeps document.old document.new }
{
    let after = String::from_str(alloc, text_of(Argument::Token, key)?)?;
    let Some(value) = document.take(alloc) else {
        return Err(CallError::NoDocument);
    };
    let found = copy_next(alloc, &value, pointer, &after, out);
    document.put(value);
    found
}

/// Copies the least key of the object that the pointer resolves to to the buffer, and returns its
/// length, or `None` if the object has no member.
///
/// # Errors
///
/// Those of [`members_at`], and [`CallError::NoRoom`] if the buffer is shorter than the key. The
/// buffer is unchanged.
fn copy_first(
    alloc: Global,
    document: &Value,
    pointer: &[u8],
    out: &mut [u8],
) -> Result<Option<usize>, CallError>
    ensures key { IfOk result (λ found.
        CopiesFirstKey (view document.now) pointer.now found out.new) }
    ensures fits { IfOk result (λ found. IfSome found (λ n. n ≤ length out.new)) }
    ensures none_unchanged { IfOk result (λ found. IfNone found (out.new ≡ out.old)) }
    ensures utf8 { OnOk result (IsUtf8 pointer.now) }
    ensures refused { IfErr result (IsNoFirstKey (view document.now) pointer.now (length out.old)) }
    ensures output_unchanged { OnErr result (out.new ≡ out.old) }
{
    match first_of(members_at(alloc, document, pointer)?) {
        Some(key) => Ok(Some(copy_to(key.as_bytes(), out)?)),
        None => Ok(None),
    }
}

/// Copies the least key after the other one, of the object that the pointer resolves to, to the
/// buffer, and returns its length, or `None` if there is none.
///
/// # Errors
///
/// Those of [`members_at`], and [`CallError::NoRoom`] if the buffer is shorter than the key. The
/// buffer is unchanged.
fn copy_next(
    alloc: Global,
    document: &Value,
    pointer: &[u8],
    key: &String,
    out: &mut [u8],
) -> Result<Option<usize>, CallError>
    ensures key { IfOk result (λ found.
        CopiesNextKey (view document.now) pointer.now (string_bytes key.now) found out.new) }
    ensures fits { IfOk result (λ found. IfSome found (λ n. n ≤ length out.new)) }
    ensures none_unchanged { IfOk result (λ found. IfNone found (out.new ≡ out.old)) }
    ensures utf8 { OnOk result (IsUtf8 pointer.now) }
    ensures refused { IfErr result
        (LacksNextKey (view document.now) pointer.now (string_bytes key.now) (length out.old)) }
    ensures output_unchanged { OnErr result (out.new ≡ out.old) }
{
    match next_of(members_at(alloc, document, pointer)?, key) {
        Some(next) => Ok(Some(copy_to(next.as_bytes(), out)?)),
        None => Ok(None),
    }
}

/// Returns the members of the object that the pointer resolves to.
///
/// # Errors
///
/// Those of [`find`], and [`CallError::OtherType`] if the value is not an object.
fn members_at<'v>(
    alloc: Global,
    document: &'v Value,
    pointer: &[u8],
) -> Result<&'v Map<String, Value>, CallError>
    ensures found { IfOk result (λ members. FindsAtPointer (view document.now) pointer.now
        (object (members_view members.now.entries))) }
    ensures utf8 { OnOk result (IsUtf8 pointer.now) }
    ensures refused { IfErr result (IsNoObject (view document.now) pointer.now) }
{
    match find(alloc, document, pointer)?.as_object() {
        Some(members) => Ok(members),
        None => Err(CallError::OtherType),
    }
}

/// Returns the least key of the members, or `None` if there is none.
fn first_of(members: &Map<String, Value>) -> Option<&str>
    ensures { MatchOption result (HasNoKey (object (members_view members.now.entries)))
        (λ key. IsFirstKey (object (members_view members.now.entries)) key.now) }
{
    match members.first_key_value() {
        Some((key, _value)) => Some(key.as_str()),
        None => None,
    }
}

/// Returns the least key of the members that is greater than the other one, or `None` if there is
/// none.
fn next_of<'m>(members: &'m Map<String, Value>, key: &String) -> Option<&'m str>
    ensures { MatchOption result
        (HasNoNextKey (object (members_view members.now.entries)) (string_bytes key.now))
        (λ next. IsNextKey (object (members_view members.now.entries))
        (string_bytes key.now) next.now) }
{
    let mut after = members.range((Bound::Excluded(key), Bound::Unbounded));
    match after.next() {
        Some((next, _value)) => Some(next.as_str()),
        None => None,
    }
}
