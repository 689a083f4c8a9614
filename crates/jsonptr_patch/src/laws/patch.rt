//! Lists of operations (RFC 6902, section 5).
ghost use Rattle.std.specs.Prelude.{◌≡◌, ◌⊎◌, ◌↔◌, List, ◌∷◌, ◌++◌, All, IsTrue, IsSome, Some, length};
ghost use Rattle.jsonptr.specs.Following.{Finds};
ghost use Rattle.jsonptr.specs.Node.{NodeMap};
ghost use Rattle.jsonptr.specs.Resolve.{Refuses};
ghost use Rattle.jsonptr.specs.Text.{Text};
ghost use Rattle.jsonptr.specs.declared.resolve.Error.{Error as ResolveError};
ghost use Rattle.jsonptr.specs.Documents.{IsDocument};
ghost use Rattle.jsonptr_patch.specs.Failing.{source_of, HasCause};
ghost use Rattle.jsonptr_patch.specs.Patching.{Patches, PatchesBy, FailsBy, RefusesPatch, RefusesPatchBy};
ghost use Rattle.jsonptr_patch.specs.declared.comparison.Comparison.{Comparison};
ghost use Rattle.jsonptr_patch.specs.declared.failed_operation.FailedOperation.{FailedOperation};
ghost use Rattle.jsonptr_patch.specs.declared.failed_operation.PatchPointer.TheVariants as pointer;
ghost use Rattle.jsonptr_patch.specs.declared.operation.Operation.{Operation};
ghost use Rattle.jsonptr_patch.specs.declared.operation.PatchError.{PatchError};
ghost use Rattle.jsonptr_patch.specs.declared.operation.PatchError.TheVariants.{NoTarget};
ghost use Rattle.jsonptr_patch.specs.Operations.{IsOperation};

use crate::PatchError;
use crate::laws::operation::{comparing_operation_law, operation_law};

/// States that in each document each list of operations either makes exactly one map, which is a
/// document's again, or fails with exactly one error. To apply one list after another is to apply
/// both.
pub fn patch_law()
    ensures some { (n : NodeMap) (os : List Operation) → IsDocument n → All IsOperation os
        → ((m : NodeMap) × Patches n os m) ⊎ ((e : PatchError) × RefusesPatch n os e) }
    ensures not_both { (n m : NodeMap) (os : List Operation) (e : PatchError)
        → IsDocument n → Patches n os m → RefusesPatch n os e → ⊥ }
    ensures one_map { (n m l : NodeMap) (os : List Operation)
        → IsDocument n → Patches n os m → Patches n os l → m ≡ l }
    ensures one_error { (n : NodeMap) (os : List Operation) (e f : PatchError)
        → IsDocument n → RefusesPatch n os e → RefusesPatch n os f → e ≡ f }
    ensures document { (n m : NodeMap) (os : List Operation)
        → IsDocument n → Patches n os m → IsDocument m }
    ensures after { (n m : NodeMap) (os ps : List Operation)
        → Patches n (os ++ ps) m ↔ ((l : NodeMap) × Patches n os l × Patches l ps m) }
{
    operation_law();
}

/// States the same of each comparison of the tests: in each document each list of operations has
/// exactly one outcome, and the pointer at fault of an operation that fails is unique too. To apply one list
/// after another is to apply both.
pub fn comparing_patch_law()
    ensures some { (c : Comparison) (n : NodeMap) (os : List Operation)
        → IsDocument n → All IsOperation os
        → ((m : NodeMap) × PatchesBy c n os m) ⊎ ((e : PatchError) × RefusesPatchBy c n os e) }
    ensures not_both { (c : Comparison) (n m : NodeMap) (os : List Operation) (e : PatchError)
        → IsDocument n → PatchesBy c n os m → RefusesPatchBy c n os e → ⊥ }
    ensures one_map { (c : Comparison) (n m l : NodeMap) (os : List Operation)
        → IsDocument n → PatchesBy c n os m → PatchesBy c n os l → m ≡ l }
    ensures one_error { (c : Comparison) (n : NodeMap) (os : List Operation) (e f : PatchError)
        → IsDocument n → RefusesPatchBy c n os e → RefusesPatchBy c n os f → e ≡ f }
    ensures failure_not_both { (c : Comparison) (n m : NodeMap) (os : List Operation) (f : FailedOperation)
        → IsDocument n → PatchesBy c n os m → FailsBy c n os f → ⊥ }
    ensures one_failure { (c : Comparison) (n : NodeMap) (os : List Operation) (f g : FailedOperation)
        → IsDocument n → FailsBy c n os f → FailsBy c n os g → f ≡ g }
    ensures document { (c : Comparison) (n m : NodeMap) (os : List Operation)
        → IsDocument n → PatchesBy c n os m → IsDocument m }
    ensures after { (c : Comparison) (n m : NodeMap) (os ps : List Operation)
        → PatchesBy c n (os ++ ps) m ↔ ((l : NodeMap) × PatchesBy c n os l × PatchesBy c l ps m) }
{
    comparing_operation_law();
}

/// States what it means that a pointer is at fault.
///
/// - If it is `from`, the operation has such a pointer, and that does not resolve in what the operations
///   before it leave.
/// - If it is `path`, and the operation has a pointer `from` too, then `from` resolves.
/// - An error that has a cause is that of one of the two pointers, and another error is that of none.
pub fn blame_law()
    ensures from { (c : Comparison) (n : NodeMap) (os : List Operation) (f : FailedOperation)
        → FailsBy c n os f → f.pointer ≡ Some pointer.From
        → (done rest : List Operation) × (o : Operation) × (left : NodeMap) × (from : List Text)
        × (cause : ResolveError) × (os ≡ done ++ o ∷ rest) × PatchesBy c n done left
        × (source_of o ≡ Some from) × Refuses left from cause × (f.error ≡ NoTarget (length done) cause) }
    ensures path { (c : Comparison) (n : NodeMap) (os : List Operation) (f : FailedOperation)
        → FailsBy c n os f → f.pointer ≡ Some pointer.Path
        → (done rest : List Operation) × (o : Operation) × (left : NodeMap)
        × (os ≡ done ++ o ∷ rest) × PatchesBy c n done left
        × ((from : List Text) → source_of o ≡ Some from → (v : NodeMap) × Finds left from v) }
    ensures cause { (c : Comparison) (n : NodeMap) (os : List Operation) (f : FailedOperation)
        → FailsBy c n os f → HasCause f.error ↔ IsSome f.pointer }
{}

/// Two errors of a patch are equal exactly if they are the same error with the same fields.
pub fn patch_error_law()
    ensures { (e f : PatchError) → IsTrue (⟦<PatchError as PartialEq>⟧.eq e f) ↔ (e ≡ f) }
{}
