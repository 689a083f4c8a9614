//! The arguments of the program.
ghost use Rattle.std.specs.Prelude.{◌≡◌, drop, IfOk};
ghost use Rattle.std.specs.Vec.Iter.{into_iter_items};

use std::alloc::{AllocError, Global};
use std::vec::IntoIter;

/// Returns the arguments after the program's own name, in their order.
///
/// # Errors
///
/// [`AllocError`] if the list cannot be allocated.
pub fn words_after_name(alloc: Global, args: IntoIter<String>) -> Result<Vec<String>, AllocError>
    ensures { IfOk result (λ words. words.items ≡ drop 1 (into_iter_items args)) }
{
    let mut rest = args;
    let mut words = Vec::with_capacity(alloc, rest.len())?;
    let Some(_name) = rest.next() else {
        return Ok(words);
    };
    for word in rest {
        words.push(word)?;
    }
    Ok(words)
}
