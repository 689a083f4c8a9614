//! A checker of JSON documents: which members they must have, given by pointers, and of which
//! types.
ghost use Rattle.std.specs.Prelude.{◌≡◌, ◌↔◌, [], All, IsTrue, IfOk};
ghost use Rattle.serde_json.specs.View.{view};
ghost use Rattle.jsonptr_uses.specs.Checking.{IsMet, AreFailing};

use jsonptr::Pointer;
use jsonptr_value::{NodeType, node_type};
use serde_json::Value;
use std::alloc::{AllocError, Global};

/// What a document must have: a value of this type at the location of the pointer.
#[derive(Clone, Copy, Debug)]
pub struct Required<'a> {
    /// The location of the value.
    pub pointer: Pointer<'a>,
    /// The type of the value.
    pub kind: NodeType,
}

/// Returns the requirements that the document does not meet, in the order of the list. A
/// requirement fails if the value does not exist or has another type.
///
/// # Errors
///
/// [`AllocError`] if an allocation fails.
pub fn violations<'a>(
    alloc: Global,
    document: &Value,
    required: &[Required<'a>],
) -> Result<Vec<Required<'a>>, AllocError>
    ensures violated { IfOk result (λ failing.
        AreFailing (IsMet (view document.now)) required.now failing.items) }
    ensures none { IfOk result (λ failing.
        (failing.items ≡ []) ↔ All (IsMet (view document.now)) required.now) }
{
    let mut failing = Vec::new(alloc);
    for requirement in required {
        if !is_met(alloc, document, requirement)? {
            failing.push(*requirement)?;
        }
    }
    Ok(failing)
}

/// Returns whether the document meets the requirement.
fn is_met(alloc: Global, document: &Value, requirement: &Required<'_>) -> Result<bool, AllocError>
    ensures { IfOk result (λ met. IsTrue met ↔ IsMet (view document.now) requirement.now) }
{
    match requirement.pointer.resolve(alloc, document) {
        Ok(value) => Ok(node_type(value) == requirement.kind),
        Err(fault) => {
            fault.refused()?;
            Ok(false)
        }
    }
}
