//! Whether a piece of a text reads, alone, as one value.
ghost use Rattle.std.specs.Prelude.{◌≡◌, ◌++◌, IsTrue, IfOk, string_bytes};
ghost use Rattle.toml.specs.Data.{table, no_members};
ghost use Rattle.toml.specs.View.{view};
ghost use Rattle.jsonptr.specs.Pointer.{tokens};
ghost use Rattle.jsonptr_toml_edit.specs.Bytes.{IsFiller, IsComma, HaveOneTomlComma, EndsAs, HoldsAlone, AreItemsOf, IsAlone, IsOneTomlChild};

use crate::plan::{Keys, TomlChild};
use crate::read_back::{is_document_of, is_text_of};
use jsonptr::{Assign, Fault, Pointer};
use jsonptr_text_piece::cut::cut_at;
use std::alloc::{AllocError, Global};
use toml::{Table, Value};
use toml_parser::text::skip_blank;

/// Returns an empty table.
pub fn empty_table(alloc: Global) -> Value
    ensures { view result ≡ table no_members }
{
    Value::Table(Table::new(alloc))
}

/// Returns whether the text is white space, line breaks and comments alone.
///
/// # Errors
///
/// [`AllocError`] if an allocation fails.
pub fn is_filler(alloc: Global, text: &str) -> Result<bool, AllocError>
    ensures { IfOk result (λ is. IsTrue is → IsFiller text.now) }
{
    let empty = empty_table(alloc);
    is_document_of(alloc, text, &empty)
}

/// Returns whether the text is a comma with white space, line breaks and comments around it.
pub fn is_comma(alloc: Global, text: &str) -> Result<bool, AllocError>
    ensures { IfOk result (λ is. IsTrue is → IsComma text.now) }
{
    let from = text.len().saturating_sub(skip_blank(text, true).len());
    let Some(cut) = cut_at(text, from, from.saturating_add(1)) else {
        return Ok(false);
    };
    if cut.middle != "," || !is_filler(alloc, cut.before)? {
        return Ok(false);
    }
    is_filler(alloc, cut.after)
}

/// Returns whether both texts are white space, line breaks and comments, and at most one of them has a
/// comma.
fn have_one_toml_comma(alloc: Global, lead: &str, trail: &str) -> Result<bool, AllocError>
    ensures { IfOk result (λ have. IsTrue have → HaveOneTomlComma lead.now trail.now) }
{
    if !is_filler(alloc, lead)? {
        return Ok(is_comma(alloc, lead)? && is_filler(alloc, trail)?);
    }
    Ok(is_filler(alloc, trail)? || is_comma(alloc, trail)?)
}

/// Returns whether both pointers are the root, or the keys end in the last token of the pointer or in
/// `-`.
pub fn ends_as(pointer: Pointer<'_>, keys: Pointer<'_>) -> bool
    ensures { IsTrue result → EndsAs (tokens pointer.entry) (tokens keys.entry) }
{
    match (pointer.split_back(), keys.split_back()) {
        (Some((_front, last)), Some((_back, key))) => key == last || key.is_next(),
        (None, None) => true,
        _ => false,
    }
}

/// Returns whether the text holds the value at the keys, and nothing else.
///
/// # Errors
///
/// [`AllocError`] if an allocation fails.
pub fn holds(
    alloc: Global,
    text: &str,
    keys: Pointer<'_>,
    value: &Value,
) -> Result<bool, AllocError>
    ensures { IfOk result (λ holds. IsTrue holds → HoldsAlone (tokens keys.entry) (view value.now) text.now) }
{
    let mut want = empty_table(alloc);
    let value = value.clone()?;
    match want.assign(alloc, keys, value) {
        Ok(_) => is_document_of(alloc, text, &want),
        Err(Fault::Refused(_)) => Ok(false),
        Err(Fault::Memory(error)) => Err(error),
    }
}

/// Returns whether the text is pairs and headers that hold the value at the keys, and nothing else, and
/// the keys end as the pointer does.
///
/// # Errors
///
/// [`AllocError`] if an allocation fails.
pub fn are_items_of(
    alloc: Global,
    text: &str,
    pointer: Pointer<'_>,
    keys: Pointer<'_>,
    value: &Value,
) -> Result<bool, AllocError>
    ensures { IfOk result (λ are. IsTrue are
        → AreItemsOf (tokens pointer.entry) (view value.now) text.now) }
{
    Ok(ends_as(pointer, keys) && holds(alloc, text, keys, value)?)
}

/// Returns whether the text is one of the value, or, if there are keys, holds the value at them and
/// nothing else.
///
/// # Errors
///
/// [`AllocError`] if an allocation fails.
pub fn is_alone(
    alloc: Global,
    text: &str,
    pointer: Pointer<'_>,
    keys: &Keys,
    value: &Value,
) -> Result<bool, AllocError>
    ensures { IfOk result (λ is. IsTrue is
        → IsAlone (tokens pointer.entry) (view value.now) text.now) }
{
    match keys {
        Keys::None => is_text_of(alloc, text, value),
        Keys::Some(keys) => are_items_of(alloc, text, pointer, keys.as_ptr(), value),
    }
}

/// Returns whether the text is one member or element with the value, with at most one comma and white
/// space, line breaks and comments beside it.
///
/// # Errors
///
/// [`AllocError`] if an allocation fails.
pub fn is_one_toml_child(
    alloc: Global,
    text: &str,
    pointer: Pointer<'_>,
    child: &TomlChild,
    value: &Value,
) -> Result<bool, AllocError>
    ensures { IfOk result (λ is. IsTrue is
        → IsOneTomlChild (tokens pointer.entry) (view value.now) text.now) }
{
    let Some(cut) = cut_at(text, child.span.from, child.span.to) else {
        return Ok(false);
    };
    if !is_alone(alloc, cut.middle, pointer, &child.keys, value)? {
        return Ok(false);
    }
    have_one_toml_comma(alloc, cut.before, cut.after)
}

/// Returns the three texts, one after the other.
///
/// # Errors
///
/// [`AllocError`] if an allocation fails.
pub fn joined(alloc: Global, lead: &str, middle: &str, rest: &str) -> Result<String, AllocError>
    ensures { IfOk result (λ s. string_bytes s ≡ lead.now ++ (middle.now ++ rest.now)) }
{
    let mut piece = String::new(alloc);
    piece.push_str(lead)?;
    piece.push_str(middle)?;
    piece.push_str(rest)?;
    Ok(piece)
}
