//! One operation of a patch in a text with comments (RFC 6902, section 4).
ghost use Rattle.std.specs.Prelude.{◌≡◌, Option, Some, IfOk, IfSome, string_bytes};
ghost use Rattle.serde_json.specs.Data.{Data};
ghost use Rattle.serde_json.specs.Read.{read};
ghost use Rattle.jsonptr.specs.Pointer.{tokens};
ghost use Rattle.jsonptr_comments.specs.Comments.{IsWithoutComments};
ghost use Rattle.jsonptr_patch.specs.declared.operation.Operation.TheVariants.{Add, Remove, Replace, Move, Copy};
ghost use Rattle.jsonptr_text_resolve.specs.InText.{FindsInText};
ghost use Rattle.jsonptr_text_value.specs.Raw.{value_of_raw};
ghost use Rattle.jsonptr_text_value.specs.Fitting.{IsRawTextOf};
ghost use Rattle.jsonptr_comments_step.specs.PrivateStepping.{IsStepped, IsOperated};

use crate::step::take_commented_step;
use crate::texts::{Texts, TextsBuf};
use crate::value::find_value;
use jsonptr::Pointer;
use jsonptr_patch::{Operation, is_proper_prefix};
use jsonptr_text_piece::buffers::Buffers;
use jsonptr_text_resolve::{Format, Scratch, format_text};
use jsonptr_text_step::{Located, RawOperation, RawValue, Step, passes};
use jsonptr_value::{ReadError, if_json};
use serde_json::Value;
use std::alloc::{AllocError, Global};

/// Applies the operation to the text with comments. Returns `None` if that is not possible, and for each error of
/// the operation.
///
/// # Errors
///
/// [`AllocError`] if an allocation fails.
pub fn operate(
    buffers: &mut Buffers,
    texts: TextsBuf,
    operation: &RawOperation,
) -> Result<Option<TextsBuf>, AllocError>
    requires { IsWithoutComments (string_bytes texts.text) (string_bytes texts.bare) }
    ensures { IfOk result (λ made. IfSome made (λ new. IsOperated (string_bytes texts.text)
        (string_bytes texts.bare) operation.now.operation operation.now.raw
        (string_bytes new.text) (string_bytes new.bare))) }
{
    let old = Texts {
        text: texts.text.as_str(),
        bare: texts.bare.as_str(),
    };
    let raw = &operation.raw;
    match &operation.operation {
        Operation::Add { path, value } => {
            let given = Given { value, raw };
            add_given(buffers, old, path.as_ptr(), given)
        }
        Operation::Remove { path } => remove_value(buffers, old, path.as_ptr()),
        Operation::Replace { path, value } => {
            let given = Given { value, raw };
            replace_given(buffers, old, path.as_ptr(), given)
        }
        Operation::Copy { from, path } => copy_value(buffers, old, from.as_ptr(), path.as_ptr()),
        Operation::Move { from, path } => move_value(buffers, old, from.as_ptr(), path.as_ptr()),
        Operation::Test { path, value } => {
            if passes(buffers, old.bare, path.as_ptr(), value)? {
                Ok(Some(texts))
            } else {
                Ok(None)
            }
        }
    }
}

/// A value that an operation brings.
#[derive(Clone, Copy, Debug)]
struct Given<'a> {
    /// The value.
    value: &'a Value,
    /// Its own text, if there is one.
    raw: &'a Option<RawValue>,
}

/// Adds the value at the pointer, with its own text if there is one.
fn add_given(
    buffers: &mut Buffers,
    texts: Texts<'_>,
    pointer: Pointer<'_>,
    given: Given<'_>,
) -> Result<Option<TextsBuf>, AllocError>
    requires texts { IsWithoutComments texts.text.now texts.bare.now }
    requires given { IsRawTextOf given.value.now given.raw.now }
    ensures { IfOk result (λ made. IfSome made (λ new. IsOperated texts.entry.text.now
        texts.entry.bare.now (Add (tokens pointer.entry) given.entry.value.now) given.entry.raw.now
        (string_bytes new.text) (string_bytes new.bare))) }
{
    match given.raw {
        Some(raw) => {
            let step = Step::Add(pointer, &raw.printed);
            take_commented_step(buffers, texts, step)
        }
        None => {
            let Some(raw) = RawValue::from_value(buffers.alloc, given.value)? else {
                return Ok(None);
            };
            let step = Step::Add(pointer, &raw.printed);
            take_commented_step(buffers, texts, step)
        }
    }
}

/// Replaces the value at the pointer, by the own text of the other value if there is one.
fn replace_given(
    buffers: &mut Buffers,
    texts: Texts<'_>,
    pointer: Pointer<'_>,
    given: Given<'_>,
) -> Result<Option<TextsBuf>, AllocError>
    requires texts { IsWithoutComments texts.text.now texts.bare.now }
    requires given { IsRawTextOf given.value.now given.raw.now }
    ensures { IfOk result (λ made. IfSome made (λ new. IsOperated texts.entry.text.now
        texts.entry.bare.now (Replace (tokens pointer.entry) given.entry.value.now) given.entry.raw.now
        (string_bytes new.text) (string_bytes new.bare))) }
{
    match given.raw {
        Some(raw) => {
            let step = Step::Replace(pointer, &raw.printed);
            take_commented_step(buffers, texts, step)
        }
        None => {
            let Some(raw) = RawValue::from_value(buffers.alloc, given.value)? else {
                return Ok(None);
            };
            let step = Step::Replace(pointer, &raw.printed);
            take_commented_step(buffers, texts, step)
        }
    }
}

/// Removes the value at the pointer.
fn remove_value(
    buffers: &mut Buffers,
    texts: Texts<'_>,
    pointer: Pointer<'_>,
) -> Result<Option<TextsBuf>, AllocError>
    requires { IsWithoutComments texts.text.now texts.bare.now }
    ensures { (raw : Option RawValue) → IfOk result (λ made. IfSome made (λ new. IsOperated
        texts.entry.text.now texts.entry.bare.now (Remove (tokens pointer.entry)) raw
        (string_bytes new.text) (string_bytes new.bare))) }
{
    take_commented_step(buffers, texts, Step::Delete(pointer))
}

/// Adds the value at one pointer, without its comments, at another one.
fn copy_value(
    buffers: &mut Buffers,
    texts: Texts<'_>,
    from: Pointer<'_>,
    path: Pointer<'_>,
) -> Result<Option<TextsBuf>, AllocError>
    requires { IsWithoutComments texts.text.now texts.bare.now }
    ensures { (raw : Option RawValue) → IfOk result (λ made. IfSome made (λ new. IsOperated
        texts.entry.text.now texts.entry.bare.now (Copy (tokens from.entry) (tokens path.entry)) raw
        (string_bytes new.text) (string_bytes new.bare))) }
{
    let Some(value) = value_at(buffers, texts, from)? else {
        return Ok(None);
    };
    take_commented_step(buffers, texts, Step::Add(path, &value.printed))
}

/// Removes the value at one pointer, and adds it at another one. Returns `None` also if a comment goes
/// with it.
fn move_value(
    buffers: &mut Buffers,
    texts: Texts<'_>,
    from: Pointer<'_>,
    path: Pointer<'_>,
) -> Result<Option<TextsBuf>, AllocError>
    requires { IsWithoutComments texts.text.now texts.bare.now }
    ensures { (raw : Option RawValue) → IfOk result (λ made. IfSome made (λ new. IsOperated
        texts.entry.text.now texts.entry.bare.now (Move (tokens from.entry) (tokens path.entry)) raw
        (string_bytes new.text) (string_bytes new.bare))) }
{
    if is_proper_prefix(from, path) {
        return Ok(None);
    }
    let Some(value) = value_at(buffers, texts, from)? else {
        return Ok(None);
    };
    let Some(left) = take_commented_step(buffers, texts, Step::Delete(from))? else {
        return Ok(None);
    };
    let rest = Texts {
        text: left.text.as_str(),
        bare: left.bare.as_str(),
    };
    if comment_length(texts) != comment_length(rest) {
        return Ok(None);
    }
    take_commented_step(buffers, rest, Step::Add(path, &value.printed))
}

/// Returns the value that the pointer resolves to, with its own text. Returns `None` if there is no such value.
///
/// # Errors
///
/// [`AllocError`] if an allocation fails.
fn value_at(
    buffers: &mut Buffers,
    texts: Texts<'_>,
    pointer: Pointer<'_>,
) -> Result<Option<RawValue>, AllocError>
    ensures { IfOk result (λ found. IfSome found (λ raw.
        FindsInText texts.entry.bare.now (tokens pointer.entry) (value_of_raw raw))) }
{
    let Some(located) = find_value(buffers, texts.bare, pointer)? else {
        return Ok(None);
    };
    if_json(own_value(buffers.alloc, texts.text, located))
}

/// Returns the value with its own text: as it is written, or without white space if it has comments in
/// the text.
fn own_value(alloc: Global, text: &str, located: Located<'_>) -> Result<RawValue, ReadError>
    ensures { IfOk result (λ raw. (v : Data) → read located.entry.value.now ≡ Some v
        → v ≡ value_of_raw raw) }
{
    let from = located.before.len();
    let to = from.saturating_add(located.value.len());
    match text.get(from..to) {
        Some(written) if written == located.value => return RawValue::parse(alloc, located.value),
        _ => {}
    }
    let mut scratch = Scratch::new(alloc);
    let flat = format_text(alloc, &mut scratch, located.value, Format::Compact)?;
    RawValue::parse(alloc, flat.as_str())
}

/// Returns how many bytes of the text are those of comments, white space and commas in them aside.
fn comment_length(texts: Texts<'_>) -> usize {
    let mut length: usize = 0;
    for (byte, left) in texts.text.as_bytes().iter().zip(texts.bare.as_bytes()) {
        if byte != left && *byte != b',' {
            length = length.saturating_add(1);
        }
    }
    length
}
