//! A search for a child of the value that a pointer identifies.
//!
//! It shows whether there is such a value, and passes over it.
ghost use Rattle.std.specs.Prelude.{◌≡◌, ◌<◌, ◌^◌, ℕ, List, [], ◌∷◌, ◌++◌, IfOk, MatchOption};
ghost use Rattle.serde_json.specs.Data.{Data};
ghost use Rattle.jsonptr.specs.Pointer.{tokens};
ghost use Rattle.jsonptr.specs.Resolve.{Refuses};
ghost use Rattle.jsonptr.specs.Json.{nodes, FindsValue};
ghost use Rattle.jsonptr_text_search.specs.Search.{Choice, choices, Stops};
ghost use Rattle.jsonptr_text_search.specs.declared.outcome.Kind.TheVariants.{Array};
ghost use Rattle.jsonptr_text_resolve.specs.Selecting.{AreChoicesOf};
ghost use Rattle.jsonptr_text_resolve.specs.PrivateSelectors.{HasChild};

use crate::error_at::error_at;
use crate::selectors::selectors_of;
use jsonptr::Pointer;
use jsonptr::resolve::Error;
use jsonptr_text_search::outcome::Kind;
use jsonptr_text_search::selector::Selector;
use std::alloc::{AllocError, Global};

/// Returns a selector for each token of the pointer, and one more.
///
/// # Errors
///
/// [`AllocError`] if an allocation fails.
pub fn selectors_with_child(
    alloc: Global,
    pointer: Pointer<'_>,
) -> Result<Vec<Selector>, AllocError>
    ensures { IfOk result (λ v. HasChild (tokens pointer.entry) (choices v.items)) }
{
    let mut selectors = selectors_of(alloc, pointer)?;
    let child = Selector {
        key: String::new(alloc),
        index: None,
    };
    selectors.push(child)?;
    Ok(selectors)
}

/// Returns the error of a search that stopped before the last selector, which is the child's, or
/// `None` if only that one is left.
pub fn error_above_child(pointer: Pointer<'_>, left: usize, kind: Kind) -> Option<Error>
    ensures { (d : Data) (cs : List Choice)
        → HasChild (tokens pointer.entry) cs
        → ((len : ℕ) → kind ≡ Array len → len < 2 ^ 64)
        → Stops d cs left kind
        → MatchOption result ((v : Data) × FindsValue d (tokens pointer.entry) v)
        (λ e. Refuses (nodes d) (tokens pointer.entry) e) }
{
    if left == 1 {
        None
    } else {
        Some(error_at(pointer, left.saturating_sub(1), kind))
    }
}
