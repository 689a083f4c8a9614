//! The value that a pointer resolves to in the text of a document: its type, its length, its keys, and
//! whether it equals another value.
ghost use Rattle.std.specs.Prelude.{◌≡◌, map, length, MatchOption, IfOk, IfErr, chars, string_bytes};
ghost use Rattle.serde_json.specs.View.{view};
ghost use Rattle.jsonptr.specs.Pointer.{tokens};
ghost use Rattle.jsonptr_text_resolve.specs.InText.{FindsInText};
ghost use Rattle.jptr_tasks.specs.Nodes.{HasType, ValueHasLength, HasKeysAt, ListsKeys, IsNoObject, Tests, FailsToFind, FailsToListKeys};
ghost use Rattle.jptr_tasks.specs.PrivateNodes.{ListsRest};

use crate::task_error::TaskError;
use json::{Reader, Scratch, Token};
use jsonptr::Pointer;
use jsonptr_patch::{Comparison, is_equal};
use jsonptr_text_resolve::resolve_in_text;
use jsonptr_text_search::skip::skip;
use jsonptr_text_step::{Buffers, locate};
use jsonptr_value::{MAX_DEPTH, NodeType, ReadError, if_json, length, node_type};
use serde_json::Value;
use std::alloc::Global;

/// Returns the type of the value that the pointer resolves to in the text of a document.
///
/// # Errors
///
/// - [`TaskError::NotJson`] if the text is not JSON.
/// - [`TaskError::Resolve`] if the pointer does not resolve to a value.
/// - [`TaskError::Memory`] if an allocation fails.
///
/// # Examples
///
/// ```rust
/// let found = type_in_text(alloc, r#"{"a": [1.0]}"#, Pointer::parse("/a/0")?)?;
/// assert_eq!(rt; found, NodeType::Number);
/// ```
pub fn type_in_text(alloc: Global, text: &str, pointer: Pointer<'_>) -> Result<NodeType, TaskError>
    ensures found { IfOk result (HasType text.now (tokens pointer.entry)) }
    ensures refused { IfErr result (FailsToFind text.now (tokens pointer.entry)) }
{
    let value = found_value(alloc, text, pointer)?;
    Ok(node_type(&value))
}

/// Returns the length of the value that the pointer resolves to in the text of a document: the number
/// of the elements of an array, of the members of an object, or of the characters of a string. Returns
/// `None` for any other value.
///
/// A repeated key counts once.
///
/// # Errors
///
/// Those of [`type_in_text`].
///
/// # Examples
///
/// ```rust
/// let text = r#"{"a": "né", "b": 1, "a": [true]}"#;
/// assert_eq!(rt; length_in_text(alloc, text, Pointer::root())?, Some(2));
/// assert_eq!(rt; length_in_text(alloc, text, Pointer::parse("/b")?)?, None);
/// ```
pub fn length_in_text(
    alloc: Global,
    text: &str,
    pointer: Pointer<'_>,
) -> Result<Option<usize>, TaskError>
    ensures found { IfOk result (ValueHasLength text.now (tokens pointer.entry)) }
    ensures refused { IfErr result (FailsToFind text.now (tokens pointer.entry)) }
{
    let value = found_value(alloc, text, pointer)?;
    Ok(length(&value))
}

/// Returns the keys of the object that the pointer resolves to in the text of a document, one for each
/// member, in the order of its text. Returns `None` for any other value.
///
/// The keys are decoded. A repeated key comes as often as it is written. No document is built.
///
/// # Errors
///
/// - Those of [`type_in_text`].
/// - [`TaskError::NotLocated`] if the check of where the text of the value is fails. No text is known
///   for which it does.
///
/// # Examples
///
/// ```rust
/// let text = r#"{"b": {"z": 1, "a/b": {"c": 2}}}"#;
/// let keys = keys_in_text(alloc, text, Pointer::parse("/b")?)?.ok_or("an object")?;
/// assert_eq!(rt; (keys.len(), keys[0].as_str(), keys[1].as_str()), (2, "z", "a/b"));
/// assert!(rt; keys_in_text(alloc, text, Pointer::parse("/b/z")?)?.is_none());
/// ```
pub fn keys_in_text(
    alloc: Global,
    text: &str,
    pointer: Pointer<'_>,
) -> Result<Option<Vec<String>>, TaskError>
    ensures found { IfOk result (HasKeysAt text.now (tokens pointer.entry)) }
    ensures refused { IfErr result (FailsToListKeys text.now (tokens pointer.entry)) }
{
    let mut buffers = Buffers::new(alloc);
    let located = locate(&mut buffers, text, pointer)?;
    match if_json(keys_of(alloc, located.value))? {
        Some(keys) => Ok(keys),
        None => Err(TaskError::NotLocated),
    }
}

/// Returns whether the value that the pointer resolves to in the text of a document equals the other
/// value, as a `test` of a patch has it (RFC 6902, section 4.6): numbers are compared by their values.
///
/// # Errors
///
/// Those of [`type_in_text`].
///
/// # Examples
///
/// ```rust
/// let text = r#"{"a": [1.0, 2]}"#;
/// let value = Value::from_str(alloc, "[1, 2e0]")?;
/// assert_eq!(rt; equals_in_text(alloc, text, Pointer::parse("/a")?, &value)?, true);
/// let other = Value::from_str(alloc, "\"1\"")?;
/// assert_eq!(rt; equals_in_text(alloc, text, Pointer::parse("/a/0")?, &other)?, false);
/// ```
pub fn equals_in_text(
    alloc: Global,
    text: &str,
    pointer: Pointer<'_>,
    value: &Value,
) -> Result<bool, TaskError>
    ensures found { IfOk result (Tests text.now (tokens pointer.entry) (view value.now)) }
    ensures refused { IfErr result (FailsToFind text.now (tokens pointer.entry)) }
{
    let found = found_value(alloc, text, pointer)?;
    Ok(is_equal(&found, value, Comparison::Numeric))
}

/// Returns the value that the pointer resolves to in the text of a document.
fn found_value(alloc: Global, text: &str, pointer: Pointer<'_>) -> Result<Value, TaskError>
    ensures found { IfOk result (λ v. FindsInText text.now (tokens pointer.entry) (view v)) }
    ensures refused { IfErr result (FailsToFind text.now (tokens pointer.entry)) }
{
    Ok(resolve_in_text(alloc, text, pointer)?)
}

/// Returns the keys of the members of the object that the text is, or `None` if it is not an object.
fn keys_of(alloc: Global, text: &str) -> Result<Option<Vec<String>>, ReadError>
    ensures { IfOk result (λ found. MatchOption found (IsNoObject text.now)
        (λ v. ListsKeys text.now (map string_bytes v.items))) }
{
    let mut scratch = Scratch::new(alloc);
    let mut reader = Reader::new(text, &mut scratch)?;
    match reader.next() {
        Some(Token::BeginObject) => {
            let keys = read_keys(alloc, &mut reader)?;
            Ok(Some(keys))
        }
        _ => Ok(None),
    }
}

/// Reads the rest of an object, and returns the keys of its members.
fn read_keys(alloc: Global, reader: &mut Reader<'_>) -> Result<Vec<String>, ReadError>
    ensures { IfOk result (λ v. ListsRest reader.old (map string_bytes v.items)) }
{
    let mut keys = Vec::new(alloc);
    'members: while let Some(name) = reader.next_key()? {
        let key = String::from_str(alloc, name)?;
        skip(reader, MAX_DEPTH - 1)?;
        keys.push(key)?;
    }
    Ok(keys)
}
