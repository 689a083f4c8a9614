//! Whether an assignment creates containers.
ghost use Rattle.std.specs.Prelude.{◌≡◌, OnOk, IfOk, IfErr};
ghost use Rattle.jsonptr.specs.Pointer.{tokens};
ghost use Rattle.jptr_tasks.specs.Expanding.{HasParent, IsExpansionError, of_parent_error};
ghost use Rattle.jptr_tasks.specs.Nodes.{HasType};
ghost use Rattle.jptr_tasks.specs.PrivateExpanding.{IsParentError};

use jsonptr::{Pointer, resolve};
use jsonptr_text_resolve::{InTextError, resolve_in_text};
use jsonptr_value::{NodeType, node_type};
use std::alloc::{AllocError, Global};

/// Why a value is not assigned at a pointer, if an assignment may create no container.
#[derive(Debug, Drop)]
pub enum ExpansionError {
    /// The text is not JSON.
    NotJson,
    /// The parent of the pointer resolves to nothing. An assignment would create it.
    NoParent(resolve::Error),
    /// The parent of the pointer resolves to a scalar of this type. An assignment would replace it by a
    /// container.
    Scalar(NodeType),
    /// An allocation failed.
    Memory(AllocError),
}

impl From<InTextError> for ExpansionError {
    ghost from_gives = { λ error expansion_error. expansion_error ≡ of_parent_error error };

    fn from(error: InTextError) -> ExpansionError {
        match error {
            InTextError::NotJson => ExpansionError::NotJson,
            InTextError::Resolve(error) => ExpansionError::NoParent(error),
            InTextError::Memory(error) => ExpansionError::Memory(error),
        }
    }
}

/// Checks that an assignment at the pointer in the text of a document creates no container, and replaces no
/// scalar by one.
///
/// So it is if the parent of the pointer resolves to an array or an object. The last token is not looked at:
/// `-` and the key of a new member pass. The root has no parent, and passes in any text.
///
/// # Errors
///
/// - [`ExpansionError::NotJson`] if the text is not JSON.
/// - [`ExpansionError::NoParent`] if the parent of the pointer resolves to nothing.
/// - [`ExpansionError::Scalar`] if it resolves to a scalar.
/// - [`ExpansionError::Memory`] if an allocation fails.
///
/// # Examples
///
/// ```rust
/// let text = r#"{"a": "x", "b": []}"#;
/// check_expansion(alloc, text, Pointer::parse("/c")?).ok().ok_or("a member")?;
/// check_expansion(alloc, text, Pointer::parse("/b/-")?).ok().ok_or("an element")?;
/// let scalar = check_expansion(alloc, text, Pointer::parse("/a/c")?);
/// assert!(rt; matches!(scalar, Err(ExpansionError::Scalar(NodeType::String))));
/// let missing = check_expansion(alloc, text, Pointer::parse("/c/d")?);
/// assert!(rt; matches!(missing, Err(ExpansionError::NoParent(_))));
/// ```
pub fn check_expansion(
    alloc: Global,
    text: &str,
    pointer: Pointer<'_>,
) -> Result<(), ExpansionError>
    ensures allowed { OnOk result (HasParent text.now (tokens pointer.entry)) }
    ensures refused { IfErr result (IsExpansionError text.now (tokens pointer.entry)) }
{
    let Some(parent) = pointer.parent() else {
        return Ok(());
    };
    match parent_type(alloc, text, parent)? {
        NodeType::Array | NodeType::Object => Ok(()),
        scalar => Err(ExpansionError::Scalar(scalar)),
    }
}

/// Returns the type of the value that the parent of a pointer resolves to in the text of a document.
fn parent_type(alloc: Global, text: &str, parent: Pointer<'_>) -> Result<NodeType, ExpansionError>
    ensures found { IfOk result (HasType text.now (tokens parent.entry)) }
    ensures refused { IfErr result (IsParentError text.now (tokens parent.entry)) }
{
    let value = resolve_in_text(alloc, text, parent)?;
    Ok(node_type(&value))
}
