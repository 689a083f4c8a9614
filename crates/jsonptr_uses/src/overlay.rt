//! A document type of one's own: a value laid over another one.
ghost use Rattle.std.specs.Prelude.{◌≡◌, IfOk};
ghost use Rattle.serde_json.specs.View.{view};
ghost use Rattle.jsonptr.specs.Fault.{IfRefused};
ghost use Rattle.jsonptr.specs.Json.{HasSortedKeys};
ghost use Rattle.jsonptr.specs.Pointer.{tokens};
ghost use Rattle.jsonptr.specs.Text.{HasNoTilde, text};
ghost use Rattle.jsonptr_uses.specs.Overlay.{FindsInLayers, RefusesIn};

use jsonptr::{Assign, Delete, Fault, Pointer, Resolve, assign, resolve};
use serde_json::Value;
use std::alloc::{AllocError, Global};

/// Two JSON documents that are read as one. A value that a pointer resolves to in the upper one
/// hides the one in the lower one.
#[derive(Drop)]
pub struct Overlay {
    upper: Value,
    lower: Value,
}

impl Overlay {
    /// Lays the first document over the second, and owns both.
    pub fn new(upper: Value, lower: Value) -> Overlay
        ensures upper { view result.upper ≡ view upper }
        ensures lower { view result.lower ≡ view lower }
    {
        Overlay { upper, lower }
    }
}

/// Makes an [`Overlay`] a document that [`Pointer::resolve`] takes.
impl Resolve for Overlay {
    type Value = Value;

    type Error = resolve::Error;

    ghost finds = { λ o ts value. FindsInLayers (view o.upper) (view o.lower) ts (view value) };

    ghost refuses = { λ o ts e. RefusesIn (view o.upper) (view o.lower) ts e };

    ghost needs_no_memory = { λ o ts. HasNoTilde (text ts) };

    fn resolve(&self, alloc: Global, ptr: Pointer<'_>) -> Result<&Value, Fault<resolve::Error>> {
        match ptr.resolve(alloc, &self.upper) {
            Ok(value) => Ok(value),
            Err(fault) => {
                fault.refused()?;
                ptr.resolve(alloc, &self.lower)
            }
        }
    }
}

/// Assigns to the upper document. The lower one is unchanged.
impl Assign for Overlay {
    type Value = Value;

    type Error = assign::Error;

    ghost assigns = { λ o ts value m was.
        ⟦<Value as Assign>⟧.assigns o.upper ts value m.upper was × (m.lower ≡ o.lower) };

    ghost refuses = { λ o ts e. ⟦<Value as Assign>⟧.refuses o.upper ts e };

    ghost needs_no_memory = { λ o ts. ⟦<Value as Assign>⟧.needs_no_memory o.upper ts };

    ghost is_same = { λ o m. ⟦<Value as Assign>⟧.is_same o.upper m.upper × (m.lower ≡ o.lower) };

    ghost has_sorted_keys = { λ o. HasSortedKeys (view o.upper) × HasSortedKeys (view o.lower) };

    ghost value_in_order = { λ value. HasSortedKeys (view value) };

    fn assign(
        &mut self,
        alloc: Global,
        ptr: Pointer<'_>,
        value: Value,
    ) -> Result<Option<Value>, Fault<assign::Error>> {
        self.upper.assign(alloc, ptr, value)
    }
}

/// Deletes from the upper document. The lower one is unchanged, and its value at the pointer
/// becomes visible.
impl Delete for Overlay {
    type Value = Value;

    ghost finds = { λ o ts value. ⟦<Value as Delete>⟧.finds o.upper ts value };

    ghost lacks = { λ o ts. ⟦<Value as Delete>⟧.lacks o.upper ts };

    ghost deletes = { λ o ts m.
        ⟦<Value as Delete>⟧.deletes o.upper ts m.upper × (m.lower ≡ o.lower) };

    ghost is_same = { λ o m. ⟦<Value as Delete>⟧.is_same o.upper m.upper × (m.lower ≡ o.lower) };

    ghost needs_no_memory = { λ o ts. ⟦<Value as Delete>⟧.needs_no_memory o.upper ts };

    ghost has_sorted_keys = { λ o. HasSortedKeys (view o.upper) × HasSortedKeys (view o.lower) };

    fn delete(&mut self, alloc: Global, ptr: Pointer<'_>) -> Result<Option<Value>, AllocError> {
        self.upper.delete(alloc, ptr)
    }
}

/// Resolves a pointer in an overlay by the pointer's own call. The contract is that of [`Overlay`].
///
/// # Errors
///
/// Those of [`Pointer::resolve`].
pub fn found_in<'o>(
    alloc: Global,
    overlay: &'o Overlay,
    pointer: Pointer<'_>,
) -> Result<&'o Value, Fault<resolve::Error>>
    ensures found { IfOk result (λ value.
        FindsInLayers (view overlay.now.upper) (view overlay.now.lower) (tokens pointer.entry)
        (view value.now)) }
    ensures refused { IfRefused result
        (RefusesIn (view overlay.now.upper) (view overlay.now.lower) (tokens pointer.entry)) }
{
    pointer.resolve(alloc, overlay)
}
