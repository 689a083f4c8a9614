//! A document in a handle, as a program in C uses it.
ghost use Rattle.std.specs.Prelude.{◌≡◌, Some, IfOk, take};
ghost use Rattle.serde_json.specs.Data.{Data};
ghost use Rattle.serde_json.specs.Read.{read};
ghost use Rattle.serde_json.specs.View.{view};
ghost use Rattle.jsonptr_c_calls.specs.Patches.{AppliesText};
ghost use Rattle.jsonptr_text_resolve.specs.declared.format.Format.TheVariants.{Compact};
ghost use Rattle.jsonptr_c_calls.specs.Values.{HoldsWith, FindsTextOf};

use jsonptr_c_calls::call_error::CallError;
use jsonptr_c_calls::documents;
use jsonptr_c_calls::handle::Handle;
use jsonptr_text_resolve::Format;
use std::alloc::Global;

/// Applies a patch document to a JSON text, copies the value that the pointer resolves to in the new
/// document to the buffer, and returns the length of its text.
///
/// # Errors
///
/// Those of `documents::parse`, `documents::patch` and `documents::get`.
pub fn value_after_patch(
    alloc: Global,
    text: &[u8],
    operations: &[u8],
    pointer: &[u8],
    out: &mut [u8],
) -> Result<usize, CallError>
    ensures { IfOk result (λ n. (d m : Data) × (read text.now ≡ Some d)
        × AppliesText operations.now d m × FindsTextOf Compact m pointer.now (take n out.new)) }
{
    let mut document = Handle::empty();
    documents::parse(alloc, &mut document, text)?;
    let copied = patched_value(alloc, &mut document, operations, pointer, out);
    documents::free(alloc, &mut document);
    copied
}

/// Applies a patch document to the document in the handle, copies the value that the pointer resolves
/// to to the buffer, and returns the length of its text.
///
/// # Errors
///
/// Those of `documents::patch` and `documents::get`.
fn patched_value(
    alloc: Global,
    document: &mut Handle,
    operations: &[u8],
    pointer: &[u8],
    out: &mut [u8],
) -> Result<usize, CallError>
    ensures { IfOk result (λ n. HoldsWith document.old (λ v. (m : Data)
        × AppliesText operations.now (view v) m × FindsTextOf Compact m pointer.now (take n out.new))) }
{
    documents::patch(alloc, document, operations)?;
    documents::get(alloc, document, pointer, Format::Compact, out)
}
