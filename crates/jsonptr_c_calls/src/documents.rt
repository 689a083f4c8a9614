//! Documents in a handle.
ghost use Rattle.std.specs.Prelude.{◌≡◌, ◌≤◌, ◌⊎◌, IfErr, IfOk, IsUtf8, OnErr, OnOk, Some, length, take};
ghost use Rattle.serde_json.specs.Read.{read as read_text};
ghost use Rattle.serde_json.specs.View.{view};
ghost use Rattle.serde_json.specs.declared.value.Value.{Value as JsonValue};
ghost use Rattle.jsonptr_c_calls.specs.Handle.{Holds, IsEmpty, Keeps};
ghost use Rattle.jsonptr_c_calls.specs.Depths.{IsBounded, IsParsed};
ghost use Rattle.jsonptr_text_digits.specs.Digits.{KeepsDigits};
ghost use Rattle.jsonptr_c_calls.specs.Exactness.{IsNotParsedExactly};
ghost use Rattle.jsonptr_c_calls.specs.Editing.{AssignsAtPointer, DeletesAtPointer, IsNotDeleted, IsTextNotAssigned};
ghost use Rattle.jsonptr_c_calls.specs.Failures.{FailsOnHandle, IsNotParsed, IsNotPrinted, IsNotRead, LacksRoom, Unfound};
ghost use Rattle.jsonptr_c_calls.specs.Nodes.{FindsNode};
ghost use Rattle.jsonptr_c_calls.specs.Patches.{AppliesText, AppliesWithInverse, IsDiffText, IsNotAppliedWithInverse, IsNotApplied, IsNotCompared, IsNotPatchText};
ghost use Rattle.jsonptr_c_calls.specs.Setters.{AssignsInHandle, IsValueNotAssigned};
ghost use Rattle.jsonptr_c_calls.specs.Values.{Changes, FindsTextOf, FindsString, HoldsWith, ReadsInto};

use crate::call_error::CallError;
use crate::handle::Handle;
use crate::node::NodeInfo;
use crate::patches::Patched;
use crate::read::{read, read_exactly};
use crate::{edit, patches, values};
use jsonptr_text_resolve::Format;
use serde_json::Value;
use std::alloc::{AllocError, Global};

/// Reads a JSON text into the handle. A document that it holds is freed.
///
/// # Errors
///
/// - [`CallError::NotUtf8`] and [`CallError::NotJson`].
/// - [`CallError::Memory`] if an allocation fails.
///
/// The handle is unchanged.
///
/// # Examples
///
/// ```rust
/// let mut document = Handle::empty();
/// assert!(rt; documents::parse(alloc, &mut document, b"[1, 2]").is_ok());
/// let node = documents::node(alloc, &mut document, b"").ok().ok_or("a value")?;
/// assert_eq!(rt; (node.node_type, node.length), (ARRAY, 2));
/// documents::free(alloc, &mut document);
/// ```
pub fn parse(alloc: Global, document: &mut Handle, text: &[u8]) -> Result<(), CallError>
    ensures read { IfOk result (λ _. ReadsInto text.now document.new) }
    ensures bounded { IfOk result (λ _. HoldsWith document.new (λ v. IsBounded (view v))) }
    ensures utf8 { OnOk result (IsUtf8 text.now) }
    ensures refused { IfErr result (IsNotParsed text.now) }
    ensures unchanged { OnErr result (document.new ≡ document.old) }
{
    let Ok(value) = Box::new(alloc, read(alloc, text)?) else {
        return Err(CallError::Memory(AllocError));
    };
    free(alloc, document);
    document.put(value);
    Ok(())
}

/// Reads a JSON text into the handle, if each number of it keeps its digits. A document that it holds
/// is freed.
///
/// # Errors
///
/// - [`CallError::NotUtf8`] and [`CallError::NotJson`].
/// - [`CallError::NotExact`] with the first number that loses digits.
/// - [`CallError::Memory`] if an allocation fails.
///
/// The handle is unchanged.
///
/// # Examples
///
/// ```rust
/// let mut document = Handle::empty();
/// let lost = parse_exactly(alloc, &mut document, b"[1e-400]");
/// assert!(rt; matches!(lost, Err(CallError::NotExact(_))));
/// assert!(rt; parse_exactly(alloc, &mut document, b"[1.10]").is_ok());
/// documents::free(alloc, &mut document);
/// ```
pub fn parse_exactly(alloc: Global, document: &mut Handle, text: &[u8]) -> Result<(), CallError>
    ensures read { IfOk result (λ _. ReadsInto text.now document.new) }
    ensures digits { OnOk result (KeepsDigits text.now) }
    ensures bounded { IfOk result (λ _. HoldsWith document.new (λ v. IsBounded (view v))) }
    ensures utf8 { OnOk result (IsUtf8 text.now) }
    ensures refused { IfErr result (IsNotParsedExactly text.now) }
    ensures unchanged { OnErr result (document.new ≡ document.old) }
{
    let Ok(value) = Box::new(alloc, read_exactly(alloc, text)?) else {
        return Err(CallError::Memory(AllocError));
    };
    free(alloc, document);
    document.put(value);
    Ok(())
}

/// Frees the document that the handle holds, if any.
pub fn free(alloc: Global, document: &mut Handle)
    ensures { IsEmpty document.new }
{
    let _freed = document.take(alloc);
}

/// Copies the JSON text of the value that the pointer resolves to to the buffer, and returns its
/// length.
///
/// # Errors
///
/// [`CallError::NoDocument`], and those of [`values::get`]. The buffer is unchanged.
///
/// # Examples
///
/// ```rust
/// let mut document = Handle::empty();
/// assert!(rt; documents::parse(alloc, &mut document, b"{\"a\": [1, 2]}").is_ok());
/// let mut out = [0u8; 8];
/// let printed = documents::get(alloc, &mut document, b"/a", Format::Compact, &mut out);
/// assert_eq!(rt; printed.ok(), Some(5));
/// assert!(rt; out.starts_with(b"[1,2]"));
/// documents::free(alloc, &mut document);
/// ```
pub fn get(
    alloc: Global,
    document: &mut Handle,
    pointer: &[u8],
    format: Format,
    out: &mut [u8],
) -> Result<usize, CallError>
    ensures printed { IfOk result (λ n.
        HoldsWith document.old (λ v. FindsTextOf format (view v) pointer.now (take n out.new))) }
    ensures fits { IfOk result (λ n. n ≤ length out.new) }
    ensures utf8 { OnOk result (IsUtf8 pointer.now) }
    ensures refused { IfErr result (λ e.
        FailsOnHandle document.old (λ v. IsNotPrinted format (view v) pointer.now (length out.old) e) e) }
    ensures output_unchanged { OnErr result (out.new ≡ out.old) }
    ensures unchanged { Keeps document.old document.new }
{
    let Some(value) = document.take(alloc) else {
        return Err(CallError::NoDocument);
    };
    let printed = values::get(alloc, &value, pointer, format, out);
    document.put(value);
    printed
}

/// Copies the string that the pointer resolves to to the buffer, and returns its length in bytes.
///
/// # Errors
///
/// [`CallError::NoDocument`], and those of [`values::string`]. The buffer is unchanged.
///
/// # Examples
///
/// ```rust
/// let mut document = Handle::empty();
/// assert!(rt; documents::parse(alloc, &mut document, b"[\"n\\u00e9\"]").is_ok());
/// let mut out = [0u8; 8];
/// assert_eq!(rt; documents::string(alloc, &mut document, b"/0", &mut out).ok(), Some(3));
/// let array = documents::string(alloc, &mut document, b"", &mut out);
/// assert!(rt; matches!(array, Err(CallError::OtherType)));
/// documents::free(alloc, &mut document);
/// ```
pub fn string(
    alloc: Global,
    document: &mut Handle,
    pointer: &[u8],
    out: &mut [u8],
) -> Result<usize, CallError>
    ensures string { IfOk result (λ n.
        HoldsWith document.old (λ v. FindsString (view v) pointer.now (take n out.new))) }
    ensures fits { IfOk result (λ n. n ≤ length out.new) }
    ensures utf8 { OnOk result (IsUtf8 pointer.now) }
    ensures refused { IfErr result (λ e.
        FailsOnHandle document.old (λ v. IsNotRead (view v) pointer.now (length out.old) e) e) }
    ensures output_unchanged { OnErr result (out.new ≡ out.old) }
    ensures unchanged { Keeps document.old document.new }
{
    let Some(value) = document.take(alloc) else {
        return Err(CallError::NoDocument);
    };
    let copied = values::string(alloc, &value, pointer, out);
    document.put(value);
    copied
}

/// Returns what the value is that the pointer resolves to.
///
/// # Errors
///
/// [`CallError::NoDocument`], and those of [`values::find`].
///
/// # Examples
///
/// ```rust
/// let mut document = Handle::empty();
/// assert!(rt; documents::parse(alloc, &mut document, b"[-7]").is_ok());
/// let node = documents::node(alloc, &mut document, b"/0").ok().ok_or("a value")?;
/// assert_eq!(rt; (node.node_type, node.integer), (NUMBER, -7));
/// assert!(rt; documents::node(alloc, &mut document, b"/1").is_err());
/// documents::free(alloc, &mut document);
/// ```
pub fn node(alloc: Global, document: &mut Handle, pointer: &[u8]) -> Result<NodeInfo, CallError>
    ensures described { IfOk result (λ node.
        HoldsWith document.old (λ v. FindsNode (view v) pointer.now node)) }
    ensures utf8 { OnOk result (IsUtf8 pointer.now) }
    ensures refused { IfErr result (λ e.
        FailsOnHandle document.old (λ v. Unfound (view v) pointer.now e) e) }
    ensures unchanged { Keeps document.old document.new }
{
    let Some(value) = document.take(alloc) else {
        return Err(CallError::NoDocument);
    };
    let node = NodeInfo::at(alloc, &value, pointer);
    document.put(value);
    node
}

/// Assigns the value that the text is at the location that the pointer identifies, by
/// [`assign_value`].
///
/// # Errors
///
/// - [`CallError::NotUtf8`] and [`CallError::NotJson`] for the text, which is read first.
/// - Those of [`assign_value`].
///
/// The document is unchanged.
///
/// # Examples
///
/// ```rust
/// let mut document = Handle::empty();
/// assert!(rt; documents::parse(alloc, &mut document, b"{}").is_ok());
/// assert!(rt; documents::assign(alloc, &mut document, b"/a/0", b"5").is_ok());
/// let mut out = [0u8; 9];
/// let printed = documents::get(alloc, &mut document, b"", Format::Compact, &mut out);
/// assert_eq!(rt; printed.ok(), Some(9));
/// assert_eq!(rt; out, *b"{\"a\":[5]}");
/// documents::free(alloc, &mut document);
/// ```
pub fn assign(
    alloc: Global,
    document: &mut Handle,
    pointer: &[u8],
    text: &[u8],
) -> Result<(), CallError>
    ensures assigned { IfOk result (λ _. (v : JsonValue) × (read_text text.now ≡ Some (view v))
        × Changes document.old (λ d n. AssignsAtPointer d pointer.now (view v) n) document.new) }
    ensures bounded { IfOk result (λ _.
        Changes document.old (λ d n. IsBounded d → IsBounded n) document.new) }
    ensures pointer_utf8 { OnOk result (IsUtf8 pointer.now) }
    ensures text_utf8 { OnOk result (IsUtf8 text.now) }
    ensures refused { IfErr result (IsTextNotAssigned text.now document.old pointer.now) }
    ensures unchanged { OnErr result (Keeps document.old document.new) }
{
    assign_value(alloc, document, pointer, read(alloc, text)?)
}

/// Assigns the value at the location that the pointer identifies, by [`edit::assign`].
///
/// # Errors
///
/// [`CallError::NoDocument`], and those of [`edit::assign`]. The document is unchanged.
///
/// # Examples
///
/// ```rust
/// let mut document = Handle::empty();
/// assert!(rt; documents::parse(alloc, &mut document, b"{}").is_ok());
/// let value = Value::from_str(alloc, "[1, 2]")?;
/// assert!(rt; documents::assign_value(alloc, &mut document, b"/a", value).is_ok());
/// let node = documents::node(alloc, &mut document, b"/a").ok().ok_or("a value")?;
/// assert_eq!(rt; (node.node_type, node.length), (ARRAY, 2));
/// documents::free(alloc, &mut document);
/// ```
pub fn assign_value(
    alloc: Global,
    document: &mut Handle,
    pointer: &[u8],
    value: Value,
) -> Result<(), CallError>
    ensures assigned { OnOk result
        (AssignsInHandle document.old pointer.now (view value) document.new) }
    ensures bounded { IfOk result (λ _. IsParsed (view value)
        → Changes document.old (λ d n. IsBounded d → IsBounded n) document.new) }
    ensures utf8 { OnOk result (IsUtf8 pointer.now) }
    ensures refused { IfErr result (IsValueNotAssigned document.old pointer.now) }
    ensures unchanged { OnErr result (Keeps document.old document.new) }
{
    let Some(mut root) = document.take(alloc) else {
        return Err(CallError::NoDocument);
    };
    let outcome = edit::assign(alloc, &mut root, pointer, value);
    document.put(root);
    outcome
}

/// Removes the value that the pointer resolves to, and returns whether there was one, by
/// [`edit::delete`].
///
/// # Errors
///
/// [`CallError::NoDocument`], and those of [`edit::delete`]. The document is unchanged.
///
/// # Examples
///
/// ```rust
/// let mut document = Handle::empty();
/// assert!(rt; documents::parse(alloc, &mut document, b"[1, 2]").is_ok());
/// assert_eq!(rt; documents::delete(alloc, &mut document, b"/1").ok(), Some(true));
/// assert_eq!(rt; documents::delete(alloc, &mut document, b"/1").ok(), Some(false));
/// documents::free(alloc, &mut document);
/// ```
pub fn delete(alloc: Global, document: &mut Handle, pointer: &[u8]) -> Result<bool, CallError>
    ensures deleted { IfOk result (λ found.
        Changes document.old (λ d n. DeletesAtPointer d pointer.now found n) document.new) }
    ensures bounded { IfOk result (λ _.
        Changes document.old (λ d n. IsBounded d → IsBounded n) document.new) }
    ensures utf8 { OnOk result (IsUtf8 pointer.now) }
    ensures refused { IfErr result (λ e.
        FailsOnHandle document.old (λ v. IsNotDeleted pointer.now e) e) }
    ensures unchanged { OnErr result (Keeps document.old document.new) }
{
    let Some(mut value) = document.take(alloc) else {
        return Err(CallError::NoDocument);
    };
    let outcome = edit::delete(alloc, &mut value, pointer);
    document.put(value);
    outcome
}

/// Applies the patch document that the text is, whole or not at all, by [`patches::apply_all`].
///
/// # Errors
///
/// - Those of [`patches::read_patch_text`], for the text, which is read first.
/// - [`CallError::NoDocument`], and those of [`patches::apply_all`].
///
/// The document is unchanged.
///
/// # Examples
///
/// ```rust
/// let mut document = Handle::empty();
/// assert!(rt; documents::parse(alloc, &mut document, b"[1, 2]").is_ok());
/// let text = b"[{\"op\": \"remove\", \"path\": \"/0\"}]";
/// assert!(rt; documents::patch(alloc, &mut document, text).is_ok());
/// let mut out = [0u8; 3];
/// let printed = documents::get(alloc, &mut document, b"", Format::Compact, &mut out);
/// assert_eq!(rt; (printed.ok(), out), (Some(3), *b"[2]"));
/// documents::free(alloc, &mut document);
/// ```
pub fn patch(alloc: Global, document: &mut Handle, text: &[u8]) -> Result<(), CallError>
    ensures applied { IfOk result (λ _.
        Changes document.old (λ d n. AppliesText text.now d n) document.new) }
    ensures bounded { IfOk result (λ _.
        Changes document.old (λ d n. IsBounded d → IsBounded n) document.new) }
    ensures utf8 { OnOk result (IsUtf8 text.now) }
    ensures refused { IfErr result (λ e.
        IsNotPatchText text.now e ⊎ IsNotApplied text.now document.old e) }
    ensures unchanged { OnErr result (Keeps document.old document.new) }
{
    let operations = patches::read_patch_text(alloc, text)?;
    let Some(mut value) = document.take(alloc) else {
        return Err(CallError::NoDocument);
    };
    let outcome = patches::apply_all(alloc, &mut value, operations);
    document.put(value);
    outcome
}

/// Applies the patch document that the text is, whole or not at all, and copies the text of a patch
/// document that takes it back to the buffer. Returns the length of that text. It is always read
/// again, and its operations turn the new document into the old one.
///
/// The document is copied first, so this takes time in proportion to it. So the change is made only
/// once that text is in the buffer, and needs no memory.
///
/// # Errors
///
/// - Those of [`patch`].
/// - [`CallError::InverseTooDeep`] if the patch document that takes it back nests deeper than 127.
/// - [`CallError::NoRoom`] if the buffer is shorter than its text.
///
/// The document and the buffer are unchanged.
///
/// # Examples
///
/// ```rust
/// let mut document = Handle::empty();
/// assert!(rt; documents::parse(alloc, &mut document, b"[1, 2]").is_ok());
/// let (text, mut out) = (b"[{\"op\": \"remove\", \"path\": \"/0\"}]", [0u8; 64]);
/// let copied = patch_with_inverse(alloc, &mut document, text, Format::Compact, &mut out);
/// let inverse = out.get(..copied.ok().ok_or("a patch")?).unwrap_or(b"");
/// assert!(rt; documents::patch(alloc, &mut document, inverse).is_ok());
/// documents::free(alloc, &mut document);
/// ```
pub fn patch_with_inverse(
    alloc: Global,
    document: &mut Handle,
    text: &[u8],
    format: Format,
    out: &mut [u8],
) -> Result<usize, CallError>
    ensures applied { IfOk result (λ n. Changes document.old
        (λ d m. AppliesWithInverse format text.now d m (take n out.new)) document.new) }
    ensures bounded { IfOk result (λ _.
        Changes document.old (λ d n. IsBounded d → IsBounded n) document.new) }
    ensures fits { IfOk result (λ n. n ≤ length out.new) }
    ensures utf8 { OnOk result (IsUtf8 text.now) }
    ensures refused { IfErr result (λ e. IsNotPatchText text.now e
        ⊎ IsNotAppliedWithInverse format text.now document.old (length out.old) e) }
    ensures output_unchanged { OnErr result (out.new ≡ out.old) }
    ensures unchanged { OnErr result (Keeps document.old document.new) }
{
    let operations = patches::read_patch_text(alloc, text)?;
    let Some(value) = document.take(alloc) else {
        return Err(CallError::NoDocument);
    };
    match patches::patched_copy(alloc, &value, operations, format) {
        Ok(made) => put_patched(document, value, made, out),
        Err(call_error) => {
            document.put(value);
            Err(call_error)
        }
    }
}

/// Copies the text that takes a patch back to the buffer, and puts the document after the patch into
/// the handle. Returns the length of the text.
///
/// # Errors
///
/// [`CallError::NoRoom`] if the buffer is shorter than the text. It is unchanged, and the old document
/// is put into the handle.
fn put_patched(
    document: &mut Handle,
    old: Box<Value, Global>,
    made: Patched,
    out: &mut [u8],
) -> Result<usize, CallError>
    requires { IsEmpty document.old }
    ensures copied { IfOk result (λ n. take n out.new ≡ made.inverse.items) }
    ensures replaced { OnOk result (Holds document.new made.document) }
    ensures fits { IfOk result (λ n. n ≤ length out.new) }
    ensures refused { IfErr result (LacksRoom (length made.inverse.items) (length out.old)) }
    ensures output_unchanged { OnErr result (out.new ≡ out.old) }
    ensures unchanged { OnErr result (Holds document.new old.value) }
{
    let mut value = old;
    let outcome = patches::write_patched(&mut value, made, out);
    document.put(value);
    outcome
}

/// Copies a patch document that turns the document `old` into `new` to the buffer, and returns its
/// length, by [`patches::diff_text`].
///
/// # Errors
///
/// - [`CallError::NoDocument`] if one of the handles holds no document.
/// - [`CallError::NoRoom`] if the buffer is shorter than the text.
/// - [`CallError::Memory`] if an allocation fails.
///
/// The buffer is unchanged.
///
/// # Examples
///
/// ```rust
/// let (mut old, mut new) = (Handle::empty(), Handle::empty());
/// assert!(rt; documents::parse(alloc, &mut old, b"[1]").is_ok());
/// assert!(rt; documents::parse(alloc, &mut new, b"[1, 2]").is_ok());
/// let mut out = [0u8; 64];
/// assert!(rt; documents::diff(alloc, &mut old, &mut new, Format::Compact, &mut out).is_ok());
/// assert!(rt; out.starts_with(b"[{\"op\":\"add\""));
/// free(alloc, &mut old);
/// free(alloc, &mut new);
/// ```
pub fn diff(
    alloc: Global,
    old: &mut Handle,
    new: &mut Handle,
    format: Format,
    out: &mut [u8],
) -> Result<usize, CallError>
    ensures differing { IfOk result (λ n. HoldsWith old.old (λ v.
        HoldsWith new.old (λ w. IsDiffText format (view v) (view w) (take n out.new)))) }
    ensures fits { IfOk result (λ n. n ≤ length out.new) }
    ensures refused { IfErr result (λ e. FailsOnHandle old.old
        (λ v. FailsOnHandle new.old
        (λ w. IsNotCompared format (view v) (view w) (length out.old) e) e) e) }
    ensures output_unchanged { OnErr result (out.new ≡ out.old) }
    ensures old_unchanged { Keeps old.old old.new }
    ensures new_unchanged { Keeps new.old new.new }
{
    let Some(value) = old.take(alloc) else {
        return Err(CallError::NoDocument);
    };
    let written = diff_with(alloc, &value, new, format, out);
    old.put(value);
    written
}

/// Copies a patch document that turns a document into the one in the handle to the buffer, and
/// returns its length.
///
/// # Errors
///
/// Those of [`diff`].
fn diff_with(
    alloc: Global,
    old: &Value,
    new: &mut Handle,
    format: Format,
    out: &mut [u8],
) -> Result<usize, CallError>
    ensures differing { IfOk result (λ n.
        HoldsWith new.old (λ w. IsDiffText format (view old.now) (view w) (take n out.new))) }
    ensures fits { IfOk result (λ n. n ≤ length out.new) }
    ensures refused { IfErr result (λ e.
        FailsOnHandle new.old
        (λ w. IsNotCompared format (view old.now) (view w) (length out.old) e) e) }
    ensures output_unchanged { OnErr result (out.new ≡ out.old) }
    ensures new_unchanged { Keeps new.old new.new }
{
    let Some(value) = new.take(alloc) else {
        return Err(CallError::NoDocument);
    };
    let written = patches::diff_text(alloc, old, &value, format, out);
    new.put(value);
    written
}
