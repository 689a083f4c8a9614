//! Values of documents in handles, and of texts, as a program in C asks for them.
ghost use Rattle.std.specs.Prelude.{◌≡◌, ◌↔◌, Some, IfOk, IfErr, IsTrue, List, MatchOption, length, take};
ghost use Rattle.serde_json.specs.Data.{Data};
ghost use Rattle.serde_json.specs.Read.{read};
ghost use Rattle.serde_json.specs.View.{view};
ghost use Rattle.jsonptr.specs.Text.{Text};
ghost use Rattle.jsonptr.specs.declared.resolve.Error.{Error};
ghost use Rattle.jsonptr_text_resolve.specs.InText.{FindsInText};
ghost use Rattle.jsonptr_text_check.specs.Child.{IsValueText};
ghost use Rattle.jsonptr_text_step.specs.Locating.{IsOutside};
ghost use Rattle.jsonptr_c_calls.specs.InTexts.{FindsTextIn, IsNotPrintedFrom};
ghost use Rattle.jsonptr_value.specs.NodeTypes.{type_of};
ghost use Rattle.jsonptr_value.specs.declared.types.NodeType.TheVariants.{String as a_string};
ghost use Rattle.jsonptr_c_calls.specs.Locations.{IsNotLocated, IsNotPointedAt, PointsAt};
ghost use Rattle.jsonptr_c_calls.specs.Patches.{IsDiffText};
ghost use Rattle.jsonptr_c_calls.specs.Pointers.{HasTokens};
ghost use Rattle.jsonptr_c_calls.specs.Values.{FindsAtPointer, FindsString, HoldsWith};
ghost use Rattle.jsonptr_c_calls.specs.declared.call_error.CallError.TheVariants.{Resolve};
ghost use Rattle.jsonptr_text_resolve.specs.declared.format.Format.TheVariants.{Compact};

use jsonptr_c_calls::call_error::CallError;
use jsonptr_c_calls::handle::Handle;
use jsonptr_c_calls::node::STRING;
use jsonptr_c_calls::{documents, locations, texts};
use jsonptr_text_resolve::Format;
use std::alloc::Global;

/// Copies the string that the pointer resolves to in a JSON text to the buffer, and returns its
/// length.
///
/// # Errors
///
/// Those of `documents::parse` and `documents::string`.
pub fn string_in(
    alloc: Global,
    text: &[u8],
    pointer: &[u8],
    out: &mut [u8],
) -> Result<usize, CallError>
    ensures { IfOk result (λ n. (d : Data) × (read text.now ≡ Some d)
        × FindsString d pointer.now (take n out.new)) }
{
    let mut document = Handle::empty();
    documents::parse(alloc, &mut document, text)?;
    let copied = documents::string(alloc, &mut document, pointer, out);
    documents::free(alloc, &mut document);
    copied
}

/// Returns whether the value that the pointer resolves to is a string.
///
/// # Errors
///
/// Those of `documents::node`.
pub fn is_string(alloc: Global, document: &mut Handle, pointer: &[u8]) -> Result<bool, CallError>
    ensures { IfOk result (λ is. HoldsWith document.old (λ v. (e : Data)
        × FindsAtPointer (view v) pointer.now e × (IsTrue is ↔ (type_of e ≡ a_string)))) }
{
    let node = documents::node(alloc, document, pointer)?;
    Ok(node.node_type == STRING)
}

/// Copies the patch that turns the document of one text into that of the other to the buffer, and
/// returns the length of its text.
///
/// # Errors
///
/// Those of `documents::parse` and `documents::diff`.
pub fn changes_between(
    alloc: Global,
    old: &[u8],
    new: &[u8],
    out: &mut [u8],
) -> Result<usize, CallError>
    ensures { IfOk result (λ n. (d m : Data) × (read old.now ≡ Some d) × (read new.now ≡ Some m)
        × IsDiffText Compact d m (take n out.new)) }
{
    let mut first = Handle::empty();
    let mut second = Handle::empty();
    documents::parse(alloc, &mut first, old)?;
    let copied = changes_to(alloc, &mut first, &mut second, new, out);
    documents::free(alloc, &mut first);
    documents::free(alloc, &mut second);
    copied
}

/// Parses the text into the second handle, and copies the patch that turns the first document into it
/// to the buffer.
///
/// # Errors
///
/// Those of `documents::parse` and `documents::diff`.
fn changes_to(
    alloc: Global,
    first: &mut Handle,
    second: &mut Handle,
    text: &[u8],
    out: &mut [u8],
) -> Result<usize, CallError>
    ensures { IfOk result (λ n. HoldsWith first.old (λ v. (m : Data) × (read text.now ≡ Some m)
        × IsDiffText Compact (view v) m (take n out.new))) }
{
    documents::parse(alloc, second, text)?;
    documents::diff(alloc, first, second, Format::Compact, out)
}

/// Copies the JSON text of the value that the pointer resolves to in a text to the buffer, and returns
/// its length. Returns `None` if the pointer resolves to nothing.
///
/// # Errors
///
/// Those of `texts::resolve`, except [`CallError::Resolve`].
pub fn field_in(
    alloc: Global,
    text: &[u8],
    pointer: &[u8],
    out: &mut [u8],
) -> Result<Option<usize>, CallError>
    ensures found { IfOk result (λ found. MatchOption found
        ((e : Error) × IsNotPrintedFrom Compact text.now pointer.now (length out.old) (Resolve e))
        (λ n. FindsTextIn Compact text.now pointer.now (take n out.new))) }
    ensures refused { IfErr result
        (IsNotPrintedFrom Compact text.now pointer.now (length out.old)) }
{
    match texts::resolve(alloc, text, pointer, Format::Compact, out) {
        Ok(copied) => Ok(Some(copied)),
        Err(CallError::Resolve(_error)) => Ok(None),
        Err(call_error) => Err(call_error),
    }
}

/// Returns the bytes of the value that the pointer resolves to in a JSON text, as they are written.
///
/// # Errors
///
/// Those of `locations::locate`.
pub fn bytes_in<'t>(alloc: Global, text: &'t [u8], pointer: &[u8]) -> Result<&'t [u8], CallError>
    ensures found { IfOk result (λ piece. (ts : List Text) × (v : Data) × HasTokens pointer.now ts
        × FindsInText text.now ts v × IsValueText v piece.now) }
    ensures refused { IfErr result (IsNotLocated text.now pointer.now) }
{
    let span = locations::locate(alloc, text, pointer)?;
    Ok(&text[span.start..span.end])
}

/// Copies the pointer of the value at the offset in a JSON text to the buffer, and returns its length.
/// Returns `None` if no value is there.
///
/// # Errors
///
/// Those of `locations::pointer_at`, except [`CallError::NoValue`].
pub fn pointer_under(
    alloc: Global,
    text: &[u8],
    offset: usize,
    out: &mut [u8],
) -> Result<Option<usize>, CallError>
    ensures located { IfOk result (λ found. MatchOption found (IsOutside text.now offset)
        (λ n. PointsAt text.now offset (take n out.new))) }
    ensures refused { IfErr result (IsNotPointedAt text.now offset (length out.old)) }
{
    match locations::pointer_at(alloc, text, offset, out) {
        Ok(copied) => Ok(Some(copied)),
        Err(CallError::NoValue { .. }) => Ok(None),
        Err(call_error) => Err(call_error),
    }
}
