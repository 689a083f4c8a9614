//! One operation (RFC 6902, section 4).
ghost use Rattle.std.specs.Prelude.{◌≡◌, ◌⊎◌, ℕ, List};
ghost use Rattle.serde_json.specs.Data.{null};
ghost use Rattle.serde_json.specs.View.{view};
ghost use Rattle.serde_json.specs.declared.value.Value.{Value};
ghost use Rattle.jsonptr.specs.Following.{Finds};
ghost use Rattle.jsonptr.specs.Json.{nodes};
ghost use Rattle.jsonptr.specs.Node.{NodeMap, IsTree};
ghost use Rattle.jsonptr.specs.Removing.{Deletes};
ghost use Rattle.jsonptr.specs.Text.{Text};
ghost use Rattle.jsonptr.specs.Documents.{IsDocument};
ghost use Rattle.jsonptr_patch.specs.Operating.{IsProperPrefix, Applies, AppliesBy, RestoresAt, RefusesOperation, RefusesOperationBy};
ghost use Rattle.jsonptr_patch.specs.declared.comparison.Comparison.{Comparison};
ghost use Rattle.jsonptr_patch.specs.declared.failed_operation.FailedOperation.{FailedOperation};
ghost use Rattle.jsonptr_patch.specs.declared.operation.Operation.{Operation};
ghost use Rattle.jsonptr_patch.specs.declared.operation.Operation.TheVariants as operation;
ghost use Rattle.jsonptr_patch.specs.Operations.{IsOperation};

use jsonptr_laws::assign::assign_law;
use jsonptr_laws::resolve::resolve_law;

/// States that in each document each operation either makes exactly one map, which is a document's
/// again, or fails with exactly one error, which is unique in all its fields, at exactly one of its pointers
/// or at none.
pub fn operation_law()
    ensures some { (n : NodeMap) (k : ℕ) (o : Operation) → IsDocument n → IsOperation o
        → ((m : NodeMap) × Applies n o m) ⊎ ((e : FailedOperation) × RefusesOperation n k o e) }
    ensures not_both { (n m : NodeMap) (k : ℕ) (o : Operation) (e : FailedOperation)
        → IsTree n → Applies n o m → RefusesOperation n k o e → ⊥ }
    ensures one_map { (n m l : NodeMap) (o : Operation)
        → IsTree n → Applies n o m → Applies n o l → m ≡ l }
    ensures one_error { (n : NodeMap) (k : ℕ) (o : Operation) (e f : FailedOperation)
        → IsTree n → RefusesOperation n k o e → RefusesOperation n k o f → e ≡ f }
    ensures document { (n m : NodeMap) (o : Operation)
        → IsDocument n → Applies n o m → IsDocument m }
{
    resolve_law();
    assign_law();
}

/// States the same of each comparison of the tests: in each document each operation has exactly one
/// outcome.
pub fn comparing_operation_law()
    ensures some { (c : Comparison) (n : NodeMap) (k : ℕ) (o : Operation)
        → IsDocument n → IsOperation o
        → ((m : NodeMap) × AppliesBy c n o m) ⊎ ((e : FailedOperation) × RefusesOperationBy c n k o e) }
    ensures not_both { (c : Comparison) (n m : NodeMap) (k : ℕ) (o : Operation) (e : FailedOperation)
        → IsTree n → AppliesBy c n o m → RefusesOperationBy c n k o e → ⊥ }
    ensures one_map { (c : Comparison) (n m l : NodeMap) (o : Operation)
        → IsTree n → AppliesBy c n o m → AppliesBy c n o l → m ≡ l }
    ensures one_error { (c : Comparison) (n : NodeMap) (k : ℕ) (o : Operation) (e f : FailedOperation)
        → IsTree n → RefusesOperationBy c n k o e → RefusesOperationBy c n k o f → e ≡ f }
    ensures document { (c : Comparison) (n m : NodeMap) (o : Operation)
        → IsDocument n → AppliesBy c n o m → IsDocument m }
{
    resolve_law();
    assign_law();
}

/// States that a move is a removal, and then an addition of the removed value to the map that is
/// left.
pub fn move_law()
    ensures parts { (n m : NodeMap) (from path : List Text) (value : Value)
        → Applies n (operation.Move from path) m
        → Finds n from (nodes (view value))
        → (left : NodeMap) × Applies n (operation.Remove from) left
        × Applies left (operation.Add path value) m }
    ensures whole { (n left m : NodeMap) (from path : List Text) (value : Value)
        → (IsProperPrefix from path → ⊥)
        → Finds n from (nodes (view value))
        → Applies n (operation.Remove from) left
        → Applies left (operation.Add path value) m
        → Applies n (operation.Move from path) m }
{}

/// States that a copy is an addition of the value at its source.
pub fn copy_law()
    ensures parts { (n m : NodeMap) (from path : List Text) (value : Value)
        → Applies n (operation.Copy from path) m
        → Finds n from (nodes (view value))
        → Applies n (operation.Add path value) m }
    ensures whole { (n m : NodeMap) (from path : List Text) (value : Value)
        → Finds n from (nodes (view value))
        → Applies n (operation.Add path value) m
        → Applies n (operation.Copy from path) m }
{}

/// States that adding what a deletion removed restores the map. The operation that adds it at its
/// tokens turns the map that the deletion left into the old one.
pub fn restoring_law()
    ensures { (n m : NodeMap) (tokens : List Text) (o : Operation)
        → RestoresAt n tokens o
        → Deletes n tokens (nodes null) m
        → Applies m o n }
{}
