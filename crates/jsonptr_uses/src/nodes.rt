//! The nodes of a document, counted, and read back from their lines.
ghost use Rattle.std.specs.Prelude.{◌≡◌, ◌≤◌, ℕ, List, length, IfOk, Err};
ghost use Rattle.serde_json.specs.Data.{depth};
ghost use Rattle.serde_json.specs.Read.{max_depth};
ghost use Rattle.serde_json.specs.View.{view};
ghost use Rattle.jsonptr.specs.Json.{nodes, HasSortedKeys};
ghost use Rattle.jsonptr.specs.Text.{Text};
ghost use Rattle.jsonptr_text_paths.specs.Walking.{IsWalk};
ghost use Rattle.jsonptr_text_paths.specs.declared.build.LineError.{LineError};
ghost use Rattle.jsonptr_text_paths.specs.declared.build.BuildError.TheVariants.{Line};

use jsonptr_text_paths::build::{BuildError, build};
use jsonptr_text_paths::laws::round_trip_law;
use jsonptr_text_paths::listing::{Listed, list};
use jsonptr_text_paths::walk::pointers;
use serde_json::Value;
use std::alloc::{AllocError, Global};

/// Returns the number of nodes of the document.
///
/// # Errors
///
/// [`AllocError`] if an allocation fails.
pub fn count_nodes(alloc: Global, document: &Value) -> Result<usize, AllocError>
    ensures { IfOk result (λ n. (lists : List (List Text))
        × IsWalk (nodes (view document.now)) lists × (n ≡ length lists)) }
{
    let found = pointers(alloc, document)?;
    Ok(found.as_slice().len())
}

/// Returns the document that the lines of all nodes of a document build. It is the same document,
/// if its keys are sorted, as those of each document that is read are.
///
/// # Errors
///
/// [`BuildError::Memory`] if an allocation fails. [`BuildError::Line`] comes only from a document that
/// nests deeper than 127.
pub fn rebuilt(alloc: Global, document: &Value) -> Result<Value, BuildError>
    ensures same { IfOk result (λ v. HasSortedKeys (view document.now)
        → view v ≡ view document.now) }
    ensures no_line { (number : ℕ) (e : LineError) → depth (view document.now) ≤ max_depth
        → result ≡ Err (Line number e) → ⊥ }
{
    round_trip_law();
    match list(alloc, document, Listed::AllNodes) {
        Ok(lines) => build(alloc, lines.as_str()),
        Err(error) => Err(BuildError::Memory(error)),
    }
}
