//! References inside a JSON document. A reference is an object whose member `$ref` is the fragment of
//! a pointer, as `#/a%20b` (RFC 6901, section 6). It represents the value of that pointer in the same
//! document.
ghost use Rattle.std.specs.Prelude.{◌≡◌, ◌≤◌, ℕ, IfOk, option_map};
ghost use Rattle.serde_json.specs.View.{view};
ghost use Rattle.jsonptr.specs.Fault.{IfRefused};
ghost use Rattle.jsonptr.specs.Json.{nodes, FindsValue};
ghost use Rattle.jsonptr.specs.Pointer.{tokens};
ghost use Rattle.jsonptr.specs.Resolve.{Refuses};
ghost use Rattle.jsonptr.specs.declared.resolve.Error.{Error};
ghost use Rattle.jsonptr_uses.specs.References.{if_hash, reference_of, EndsAt, RefusesReference};
ghost use Rattle.jsonptr_fragment.specs.Fragment.{IsFragmentOf};
ghost use Rattle.jsonptr_fragment.specs.FragmentError.{IsFragmentErrorOf};
ghost use Rattle.jsonptr_fragment.specs.declared.error.FragmentError.{FragmentError};
ghost use Rattle.jsonptr_uses.specs.declared.references.ReferenceError.TheVariants.{NotAPointer, Missing};

use jsonptr::{Fault, Pointer, PointerBuf, resolve};
use jsonptr_fragment::{FragmentError, from_fragment};
use serde_json::Value;
use std::alloc::Global;

/// Why a pointer does not lead to a value through references.
#[derive(Debug, Drop)]
pub enum ReferenceError {
    /// The text of a reference begins with `#` and is not the fragment of a pointer.
    NotAPointer(FragmentError),
    /// The pointer, or that of a reference, does not resolve in the document.
    Missing(resolve::Error),
    /// There are more references than allowed, as in a cycle.
    TooLong,
}

/// Returns the value that the pointer leads to. While that is a reference, follows its pointer, at
/// most `steps` times.
///
/// An object with other members beside `$ref` is a reference, too, and these are ignored. An object
/// whose `$ref` is not a text, or whose text does not begin with `#`, is not a reference, and is
/// returned unchanged.
///
/// `#/a%20b` refers to the member `a b`, and `#/a~1b` to the member `a/b`.
///
/// # Errors
///
/// [`Fault::Refused`] with a [`ReferenceError`], and [`Fault::Memory`] if an allocation fails.
pub fn resolve_reference<'v>(
    alloc: Global,
    document: &'v Value,
    pointer: Pointer<'_>,
    steps: usize,
) -> Result<&'v Value, Fault<ReferenceError>>
    ensures found { IfOk result (λ value. (n : ℕ) × (n ≤ steps)
        × EndsAt (view document.now) (tokens pointer.entry) n (view value.now)) }
    ensures refused { IfRefused result
        (RefusesReference (view document.now) (tokens pointer.entry) steps) }
{
    let mut current = pointer.to_buf(alloc)?;
    for _turn in 0..steps {
        let value = find(alloc, document, current.as_ptr())?;
        match reference(value) {
            Some(text) => match pointer_of(alloc, text) {
                Ok(next) => current = next,
                Err(fault) => return Err(fault),
            },
            None => return Ok(value),
        }
    }
    let value = find(alloc, document, current.as_ptr())?;
    match reference(value) {
        Some(_text) => Err(Fault::Refused(ReferenceError::TooLong)),
        None => Ok(value),
    }
}

/// Returns the pointer of the text of a reference.
fn pointer_of(alloc: Global, text: &str) -> Result<PointerBuf, Fault<ReferenceError>>
    ensures found { IfOk result (IsFragmentOf text.now) }
    ensures refused { IfRefused result (λ e. (cause : FragmentError)
        × (e ≡ NotAPointer cause)
        × IsFragmentErrorOf text.now cause) }
{
    from_fragment(alloc, text).map_err(|fault| fault.map(ReferenceError::NotAPointer))
}

/// Returns the text of the reference, if the value is one.
fn reference(value: &Value) -> Option<&str>
    ensures { option_map (λ s. s.now) result ≡ reference_of (view value.now) }
{
    let member = value.get("$ref")?;
    let text = member.as_str()?;
    with_hash(text)
}

/// Returns the text, if it begins with `#`.
fn with_hash(text: &str) -> Option<&str>
    ensures { option_map (λ s. s.now) result ≡ if_hash text.now }
{
    match text.strip_prefix('#') {
        Some(_rest) => Some(text),
        None => None,
    }
}

/// Returns the value that the pointer resolves to.
fn find<'v>(
    alloc: Global,
    document: &'v Value,
    pointer: Pointer<'_>,
) -> Result<&'v Value, Fault<ReferenceError>>
    ensures found { IfOk result (λ value.
        FindsValue (view document.now) (tokens pointer.entry) (view value.now)) }
    ensures refused { IfRefused result (λ e. (cause : Error)
        × (e ≡ Missing cause)
        × Refuses (nodes (view document.now)) (tokens pointer.entry) cause) }
{
    pointer
        .resolve(alloc, document)
        .map_err(|fault| fault.map(ReferenceError::Missing))
}
