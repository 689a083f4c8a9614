//! A look-up by a pointer that has a table of its slashes.
ghost use Rattle.std.specs.Prelude.{◌≡◌, ◌⊎◌, ◌∷◌, ◌++◌, [], IfOk, OnErr};
ghost use Rattle.serde_json.specs.View.{view};
ghost use Rattle.jsonptr.specs.Fault.{IfRefused, IsRefused};
ghost use Rattle.jsonptr.specs.Json.{nodes, FindsValue};
ghost use Rattle.jsonptr.specs.Resolve.{Refuses};

use jsonptr::{Fault, Token, resolve};
use jsonptr_tabled::TabledPointer;
use serde_json::Value;
use std::alloc::Global;

/// Appends a token to a pointer with a table, and returns the value that the longer pointer
/// resolves to in the document.
///
/// # Errors
///
/// [`Fault::Refused`] if there is no such value, and [`Fault::Memory`] if an allocation fails. The
/// pointer then has the token, or is unchanged because there was no memory for it.
pub fn pushed_and_resolved<'v>(
    alloc: Global,
    pointer: &mut TabledPointer,
    token: Token<'_>,
    document: &'v Value,
) -> Result<&'v Value, Fault<resolve::Error>>
    ensures found { IfOk result (λ value.
        FindsValue (view document.now) (pointer.old ++ token.entry ∷ []) (view value.now)) }
    ensures pushed { IfOk result (λ _. pointer.new ≡ pointer.old ++ token.entry ∷ []) }
    ensures refused { IfRefused result
        (Refuses (nodes (view document.now)) (pointer.old ++ token.entry ∷ [])) }
    ensures refused_pushed { IsRefused result → pointer.new ≡ pointer.old ++ token.entry ∷ [] }
    ensures left { OnErr result
        ((pointer.new ≡ pointer.old) ⊎ (pointer.new ≡ pointer.old ++ token.entry ∷ [])) }
{
    pointer.push_back(token)?;
    pointer.as_ptr().resolve(alloc, document)
}
