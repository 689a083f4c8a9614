//! JSON Pointers (RFC 6901) as bytes.
ghost use Rattle.std.specs.Prelude.{◌≡◌, ◌≤◌, IfErr, IfOk, IsUtf8, OnErr, OnOk, take, length as list_length};
ghost use Rattle.jsonptr.specs.Pointer.{tokens};
ghost use Rattle.jsonptr.specs.Text.{text, esc};
ghost use Rattle.jsonptr_c_calls.specs.Failures.{IsNotUtf8, IsNoPointer, IsNoToken, IsNotEscaped, IsNotExtended, IsNotPushed, IsNotPopped};
ghost use Rattle.jsonptr_c_calls.specs.Pointers.{HasTokens, HasCount, HasToken, Extends, Shortens};

use crate::buffer::copy_to;
use crate::call_error::{Argument, CallError};
use jsonptr::{Pointer, PointerBuf, Token};
use simdutf8::compat::from_utf8;
use std::alloc::Global;
use std::borrow::CowStr;

/// Returns the text that the bytes of an argument are.
///
/// # Errors
///
/// [`CallError::NotUtf8`] if they are not UTF-8.
pub fn text_of(argument: Argument, bytes: &[u8]) -> Result<&str, CallError>
    ensures text { IfOk result (λ s. s.now ≡ bytes.now) }
    ensures utf8 { OnOk result (IsUtf8 bytes.now) }
    ensures refused { IfErr result (IsNotUtf8 argument bytes.now) }
{
    match from_utf8(bytes) {
        Ok(text) => Ok(text),
        Err(error) => Err(CallError::NotUtf8 {
            argument,
            offset: error.valid_up_to(),
        }),
    }
}

/// Returns the pointer that the bytes are the text of.
///
/// # Errors
///
/// [`CallError::NotUtf8`] and [`CallError::NotPointer`].
///
/// # Examples
///
/// ```rust
/// assert_eq!(rt; pointers::parse(b"/a~1b/0").ok().map(|pointer| pointer.count()), Some(2));
/// assert!(rt; matches!(pointers::parse(b"a"), Err(CallError::NotPointer(_))));
/// ```
pub fn parse(pointer: &[u8]) -> Result<Pointer<'_>, CallError>
    ensures pointer { IfOk result (λ p. HasTokens pointer.now (tokens p)) }
    ensures utf8 { OnOk result (IsUtf8 pointer.now) }
    ensures refused { IfErr result (IsNoPointer pointer.now) }
{
    match Pointer::parse(text_of(Argument::Pointer, pointer)?) {
        Ok(pointer) => Ok(pointer),
        Err(error) => Err(CallError::NotPointer(error)),
    }
}

/// Returns the number of tokens of the pointer.
///
/// # Errors
///
/// Those of [`parse`].
///
/// # Examples
///
/// ```rust
/// assert_eq!(rt; count(b"").ok(), Some(0));
/// assert_eq!(rt; count(b"/a~1b/0").ok(), Some(2));
/// assert!(rt; matches!(count(b"/\xff"), Err(CallError::NotUtf8 { offset: 1, .. })));
/// ```
pub fn count(pointer: &[u8]) -> Result<usize, CallError>
    ensures count { IfOk result (λ n. HasCount pointer.now n) }
    ensures utf8 { OnOk result (IsUtf8 pointer.now) }
    ensures refused { IfErr result (IsNoPointer pointer.now) }
{
    Ok(parse(pointer)?.count())
}

/// Copies the decoded token at the position to the buffer, and returns its length.
///
/// # Errors
///
/// - Those of [`parse`].
/// - [`CallError::NoToken`] if the pointer has no token there.
/// - [`CallError::NoRoom`] if the buffer is shorter than the token.
/// - [`CallError::Memory`] if an allocation fails. Only a token that contains `~` needs one.
///
/// # Examples
///
/// ```rust
/// let mut out = [0u8; 8];
/// assert_eq!(rt; token(alloc, b"/a~1b/0", 0, &mut out).ok(), Some(3));
/// assert!(rt; out.starts_with(b"a/b"));
/// assert!(rt; matches!(token(alloc, b"/a", 1, &mut out), Err(CallError::NoToken)));
/// ```
pub fn token(
    alloc: Global,
    pointer: &[u8],
    position: usize,
    out: &mut [u8],
) -> Result<usize, CallError>
    ensures token { IfOk result (λ n. HasToken pointer.now position (take n out.new)) }
    ensures fits { IfOk result (λ n. n ≤ list_length out.new) }
    ensures utf8 { OnOk result (IsUtf8 pointer.now) }
    ensures refused { IfErr result (IsNoToken pointer.now position (list_length out.old)) }
    ensures output_unchanged { OnErr result (out.new ≡ out.old) }
{
    let Some(token) = parse(pointer)?.get(position) else {
        return Err(CallError::NoToken);
    };
    copy_to(token.decoded(alloc)?.as_str().as_bytes(), out)
}

/// Copies the escaped text of a token to the buffer, and returns its length: `~` becomes `~0`, and
/// `/` becomes `~1` (RFC 6901, section 3).
///
/// # Errors
///
/// - [`CallError::NotUtf8`] if the bytes are not UTF-8.
/// - [`CallError::NoRoom`] if the buffer is shorter than the escaped text.
/// - [`CallError::Memory`] if an allocation fails. Only a token that contains `~` or `/` needs one.
///
/// # Examples
///
/// ```rust
/// let mut out = [0u8; 8];
/// assert_eq!(rt; escape(alloc, b"a/b", &mut out).ok(), Some(4));
/// assert!(rt; out.starts_with(b"a~1b"));
/// ```
pub fn escape(alloc: Global, token: &[u8], out: &mut [u8]) -> Result<usize, CallError>
    ensures escaped { IfOk result (λ n. take n out.new ≡ esc token.now) }
    ensures fits { IfOk result (λ n. n ≤ list_length out.new) }
    ensures utf8 { OnOk result (IsUtf8 token.now) }
    ensures refused { IfErr result (IsNotEscaped token.now (list_length out.old)) }
    ensures output_unchanged { OnErr result (out.new ≡ out.old) }
{
    let token = Token::new(alloc, CowStr::Borrowed(text_of(Argument::Token, token)?))?;
    copy_to(token.encoded().as_bytes(), out)
}

/// Appends a token to the pointer in the first `length` bytes of the buffer, and returns the length
/// of the longer pointer.
///
/// # Errors
///
/// - Those of [`parse`], for the pointer and for the token, which must be UTF-8.
/// - [`CallError::NoRoom`] if the buffer is shorter than the pointer or than the longer one.
/// - [`CallError::Memory`] if an allocation fails.
///
/// # Examples
///
/// ```rust
/// let mut buffer = *b"/a......";
/// assert_eq!(rt; push(alloc, &mut buffer, 2, b"b/c").ok(), Some(7));
/// assert!(rt; buffer.starts_with(b"/a/b~1c"));
/// let full = push(alloc, &mut buffer, 7, b"d");
/// assert!(rt; matches!(full, Err(CallError::NoRoom { needed: 9 })));
/// ```
pub fn push(
    alloc: Global,
    buffer: &mut [u8],
    length: usize,
    token: &[u8],
) -> Result<usize, CallError>
    ensures pushed { IfOk result (λ n.
        Extends (take length buffer.old) token.now (take n buffer.new)) }
    ensures fits { IfOk result (λ n. n ≤ list_length buffer.new) }
    ensures within { OnOk result (length ≤ list_length buffer.old) }
    ensures pointer_utf8 { OnOk result (IsUtf8 (take length buffer.old)) }
    ensures token_utf8 { OnOk result (IsUtf8 token.now) }
    ensures refused { IfErr result
        (IsNotPushed length buffer.old token.now) }
    ensures unchanged { OnErr result (buffer.new ≡ buffer.old) }
{
    let Some(pointer) = buffer.get(..length) else {
        return Err(CallError::NoRoom { needed: length });
    };
    match extended(alloc, pointer, token) {
        Ok(longer) => copy_to(longer.as_ptr().as_str().as_bytes(), buffer),
        Err(call_error) => Err(call_error),
    }
}

/// Returns the pointer with one more token.
///
/// # Errors
///
/// Those of [`push`], except that of a short buffer.
fn extended(alloc: Global, pointer: &[u8], token: &[u8]) -> Result<PointerBuf, CallError>
    ensures pushed { IfOk result (λ p. Extends pointer.now token.now (text p)) }
    ensures pointer_utf8 { OnOk result (IsUtf8 pointer.now) }
    ensures token_utf8 { OnOk result (IsUtf8 token.now) }
    ensures refused { IfErr result (IsNotExtended pointer.now token.now) }
{
    let pointer = parse(pointer)?;
    let token = Token::new(alloc, CowStr::Borrowed(text_of(Argument::Token, token)?))?;
    Ok(pointer.with_trailing_token(alloc, token)?)
}

/// Returns the length of the pointer without its last token, in bytes.
///
/// # Errors
///
/// Those of [`parse`], and [`CallError::NoToken`] if the pointer is the root.
///
/// # Examples
///
/// ```rust
/// assert_eq!(rt; pop(b"/a/b").ok(), Some(2));
/// assert!(rt; matches!(pop(b""), Err(CallError::NoToken)));
/// ```
pub fn pop(pointer: &[u8]) -> Result<usize, CallError>
    ensures popped { IfOk result (Shortens pointer.now) }
    ensures utf8 { OnOk result (IsUtf8 pointer.now) }
    ensures refused { IfErr result (IsNotPopped pointer.now) }
{
    match parse(pointer)?.parent() {
        Some(parent) => Ok(parent.as_str().len()),
        None => Err(CallError::NoToken),
    }
}
