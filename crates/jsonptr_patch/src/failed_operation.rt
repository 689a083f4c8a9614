//! An operation that fails, and which of its pointers is at fault.
ghost use Rattle.std.specs.Prelude.{◌≡◌, Option};
ghost use Rattle.jsonptr_patch.specs.Failing.{failed, without_pointer};
ghost use Rattle.jsonptr_patch.specs.declared.failed_operation.PatchPointer.TheVariants as pointer;

use crate::operation::PatchError;
use jsonptr::Fault;
use thiserror::Error;

/// One of the two pointers of an operation.
#[derive(Clone, Copy, Debug, PartialEq, Eq, Drop)]
pub enum PatchPointer {
    /// The location that a value is moved or copied from: the member `from`.
    From,
    /// The target location: the member `path`.
    Path,
}

/// Why an operation of a patch fails, and which of its pointers is at fault. It displays the error.
///
/// A move and a copy have two pointers, and their [`PatchError::NoTarget`] does not say which of them
/// leads nowhere.
///
/// ```rust
/// let mut document = json!(in alloc; {"size": 3})?;
/// let from = PointerBuf::from_text(alloc, "/size")?;
/// let path = PointerBuf::from_text(alloc, "/sizes/-")?;
/// let patch = vec![in alloc; Operation::Move { from, path }]?;
/// let applied = apply_naming_pointer(alloc, &mut document, patch, Comparison::Numeric);
/// let failed = applied.err().ok_or("an error")?.refused()?;
/// assert!(rt; matches!(failed.error, PatchError::NoTarget { operation: 0, .. }));
/// assert_eq!(rt; failed.pointer, Some(PatchPointer::Path));
/// ```
#[derive(Clone, Debug, PartialEq, Eq, Drop, Error)]
#[error("{error}")]
pub struct FailedOperation {
    /// Why the operation fails.
    pub error: PatchError,
    /// The pointer that [`PatchError::NoTarget`] and [`PatchError::BadPlace`] are about. The other errors are
    /// about none.
    pub pointer: Option<PatchPointer>,
}

impl FailedOperation {
    /// Returns the failure of an operation whose target location is at fault.
    pub(crate) fn at_path(error: PatchError) -> FailedOperation
        ensures { result ≡ failed error (Option.Some pointer.Path) }
    {
        FailedOperation {
            error,
            pointer: Some(PatchPointer::Path),
        }
    }

    /// Returns the failure of an operation, at none of its pointers.
    pub(crate) fn at_no_pointer(error: PatchError) -> FailedOperation
        ensures { result ≡ failed error Option.None }
    {
        FailedOperation {
            error,
            pointer: None,
        }
    }
}

/// Drops the pointer at fault.
pub(crate) fn without_pointer(fault: Fault<FailedOperation>) -> Fault<PatchError>
    ensures { result ≡ without_pointer fault }
{
    fault.map(|failed| failed.error)
}
