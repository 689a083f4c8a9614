//! Edits of an open TOML text.
ghost use Rattle.std.specs.Prelude.{◌≡◌, ◌≤◌, ◌⊎◌, IfErr, IfOk, IfSome, MatchOption, None, OnOk, Some, length, ⊤};
ghost use Rattle.toml.specs.Data.{Data as TomlData};
ghost use Rattle.toml.specs.View.{view as toml_view};
ghost use Rattle.jsonptr_text_edit.specs.Edited.{IfInPlace, text_of as edited_text};
ghost use Rattle.jsonptr_text_value.specs.Raw.{value_of_raw};
ghost use Rattle.jsonptr_toml.specs.InToml.{ReadsAsToml};
ghost use Rattle.jsonptr_toml_edit.specs.declared.edit_error.TomlEditError.TheVariants.{NotThere};
ghost use Rattle.jsonptr_c_calls.specs.Failures.{IsOutOfMemory};
ghost use Rattle.jsonptr_c_calls.specs.OpenTexts.{BytesIn, EditsIn, FailsIn, IsNoTomlEdit, IsNotToml, IsTomlEditOf, LacksEditIn, ReportsTomlEdit};
ghost use Rattle.jsonptr_c_calls.specs.TomlValues.{toml_value_of};
ghost use Rattle.jsonptr_c_calls.specs.declared.call_error.CallError.TheVariants.{NotTomlValue};
ghost use Rattle.jsonptr_c_calls.specs.declared.text_format.TextFormat.TheVariants.{Toml};

use crate::call_error::CallError;
use crate::toml_value::toml_value_of;
use jsonptr_text_edit::{Edit, Edited};
use jsonptr_text_value::RawValue;
use jsonptr_toml::ReadTomlError;
use jsonptr_toml::document::read_toml;
use jsonptr_toml_edit::{TomlEdit, TomlEditError, edit_toml};
use jsonptr_value::{discard, if_json, read};
use std::alloc::{AllocError, Global};
use toml::{Value, table_from_str};

/// Returns an error if the text is not that of a TOML document, with an offset in a text that has some bytes
/// before it.
///
/// # Errors
///
/// - [`CallError::NotToml`] if the text is not TOML.
/// - [`CallError::TomlTooDeep`] if its values nest deeper than 80.
/// - [`CallError::Memory`] if an allocation fails.
pub fn check_toml(alloc: Global, text: &str, skipped: usize) -> Result<(), CallError>
    ensures reads { OnOk result ((d : TomlData) × ReadsAsToml text.now d) }
    ensures refused { IfErr result (λ e. IsOutOfMemory e ⊎ IsNotToml text.now e) }
{
    match read_toml(alloc, text) {
        Ok(_document) => Ok(()),
        Err(ReadTomlError::NotToml) => Err(CallError::NotToml {
            offset: stop(alloc, text)?.saturating_add(skipped),
        }),
        Err(ReadTomlError::DocumentTooDeep) => Err(CallError::TomlTooDeep),
        Err(ReadTomlError::Memory(error)) => Err(CallError::Memory(error)),
    }
}

/// Returns the offset of the first byte that is at fault, or the length of the text if it is TOML.
///
/// # Errors
///
/// If an allocation fails.
fn stop(alloc: Global, text: &str) -> Result<usize, AllocError>
    ensures { IfOk result (λ offset. offset ≤ length text.now) }
{
    match table_from_str(alloc, text) {
        Ok(table) => {
            discard(Value::Table(table));
            Ok(text.len())
        }
        Err(error) => match error.span() {
            Some(span) => Ok(span.start.min(text.len())),
            None => Err(AllocError),
        },
    }
}

/// Makes the edit in a TOML text without a byte order mark, and returns the new one. Returns `None` if the edit
/// deletes a value that is not there.
///
/// # Errors
///
/// Those of [`OpenText::edit`](crate::open_text::OpenText::edit) on TOML, except [`CallError::NotInPlace`].
pub fn edit_in_toml(alloc: Global, text: &str, edit: &Edit<'_>) -> Result<Option<Edited>, CallError>
    ensures edited { IfOk result
        (λ o. IfSome o (λ e. EditsIn Toml text.now edit.now (edited_text e))) }
    ensures bytes { IfOk result (λ o. IfSome o (IfInPlace (BytesIn Toml text.now edit.now))) }
    ensures nothing { IfOk result
        (λ o. MatchOption o (LacksEditIn Toml text.now edit.now) (λ _. ⊤)) }
    ensures refused { IfErr result (FailsIn Toml text.now edit.now) }
{
    let made = toml_edit_of(alloc, edit)?;
    match edit_toml(alloc, text, &made) {
        Ok(edited) => Ok(Some(edited)),
        Err(error) => failed(alloc, text, error),
    }
}

/// Returns the edit of a TOML text that asks for the same.
///
/// # Errors
///
/// - [`CallError::NotTomlValue`] if the value that is assigned is null or an integer that TOML has not, or
///   contains one.
/// - [`CallError::OtherFormat`] if the edit is a patch.
/// - [`CallError::Memory`] if an allocation fails.
fn toml_edit_of<'a>(alloc: Global, edit: &Edit<'a>) -> Result<TomlEdit<'a>, CallError>
    ensures made { IfOk result (IsTomlEditOf edit.now) }
    ensures refused { IfErr result (λ e. IsOutOfMemory e ⊎ IsNoTomlEdit edit.now e) }
{
    match edit {
        Edit::Assign(pointer, raw) => Ok(TomlEdit::AssignValue(*pointer, value_of(alloc, raw)?)),
        Edit::Delete(pointer) => Ok(TomlEdit::Delete(*pointer)),
        Edit::Rename(pointer, key) => Ok(TomlEdit::Rename(*pointer, *key)),
        Edit::Patch(_) => Err(CallError::OtherFormat),
    }
}

/// Returns the TOML value that the JSON value is.
///
/// # Errors
///
/// [`CallError::NotTomlValue`], and [`CallError::Memory`] if an allocation fails.
fn value_of(alloc: Global, raw: &RawValue) -> Result<Value, CallError>
    ensures value { IfOk result (λ v. toml_value_of (value_of_raw raw.now) ≡ Some (toml_view v)) }
    ensures refused { IfErr result (λ e. IsOutOfMemory e
        ⊎ ((toml_value_of (value_of_raw raw.now) ≡ None) × (e ≡ NotTomlValue))) }
{
    let Some(json) = if_json(read(alloc, raw.printed.flat.as_str()))? else {
        return Err(CallError::NotTomlValue);
    };
    match toml_value_of(alloc, &json)? {
        Some(value) => Ok(value),
        None => Err(CallError::NotTomlValue),
    }
}

/// Returns the error of a call whose edit fails, and `None` if it deletes a value that is not there.
///
/// # Errors
///
/// Those of [`edit_in_toml`].
fn failed(alloc: Global, text: &str, error: TomlEditError) -> Result<Option<Edited>, CallError>
    ensures nothing { IfOk result (λ o. (o ≡ None) × (error ≡ NotThere)) }
    ensures refused { IfErr result (ReportsTomlEdit error) }
{
    match error {
        TomlEditError::NotToml => Err(CallError::NotToml {
            offset: stop(alloc, text)?,
        }),
        TomlEditError::DocumentTooDeep | TomlEditError::TooDeep => Err(CallError::TomlTooDeep),
        TomlEditError::Assign(error) => Err(CallError::Assign(error)),
        TomlEditError::NotThere => Ok(None),
        TomlEditError::Rename(error) => Err(CallError::NotRenamed(error)),
        TomlEditError::NoText => Err(CallError::NoTomlText),
        TomlEditError::Memory(error) => Err(CallError::Memory(error)),
    }
}
