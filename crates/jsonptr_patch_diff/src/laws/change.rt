//! Which operations the difference of two documents has.
ghost use Rattle.std.specs.Prelude.{◌≡◌, List, ◌∷◌, ◌++◌, IsSome};
ghost use Rattle.serde_json.specs.Data.{Data};
ghost use Rattle.jsonptr.specs.Json.{nodes};
ghost use Rattle.serde_json.specs.declared.value.Value.{Value};
ghost use Rattle.jsonptr.specs.Node.{NodeMap, Path, sub, Names};
ghost use Rattle.jsonptr.specs.Text.{Text};
ghost use Rattle.jsonptr_patch.specs.Operating.{Applies};
ghost use Rattle.jsonptr_patch.specs.Patching.{Patches};
ghost use Rattle.jsonptr_patch.specs.declared.operation.Operation.{Operation};
ghost use Rattle.jsonptr_patch.specs.declared.operation.Operation.TheVariants.{Replace};
ghost use Rattle.jsonptr_patch_diff.specs.Diff.{AreOfOneKind, IsChange, IsStepTo, StepsTo, keys, operation_path};

/// States where the changes of one document into another are, as [`diff`](crate::diff) returns them.
///
/// - A document has no change into itself.
/// - A value that both documents have at the same keys is changed nowhere: no pointer leads to it or
///   below it.
/// - A value that is an object or an array in one of them alone is changed as a whole: no pointer
///   leads below it.
pub fn change_law()
    ensures same { (d : Data) (o : Operation) → IsChange (nodes d) (nodes d) o → ⊥ }
    ensures unchanged { (n m : NodeMap) (o : Operation) (front rest : List Text)
        → IsSome (n (keys front)) → sub n (keys front) ≡ sub m (keys front)
        → IsChange n m o → operation_path o ≡ front ++ rest → ⊥ }
    ensures whole { (n m : NodeMap) (o : Operation) (front rest : List Text) (x : Text)
        → IsSome (n (keys front)) → (AreOfOneKind (n (keys front)) (m (keys front)) → ⊥)
        → IsChange n m o → operation_path o ≡ front ++ x ∷ rest → ⊥ }
{}

/// States what the steps of one document to another do, as [`diff`](crate::diff) returns them.
///
/// - Steps are a patch: in order they make the last document of the first.
/// - An object is not replaced where the other document has an object, nor an array where it has an array.
/// - The next operation does not replace again what was replaced.
pub fn step_law()
    ensures applied { (m n k : NodeMap) (os : List Operation) → StepsTo m n os k → Patches n os k }
    ensures followed { (m n : NodeMap) (path : List Text) (value : Value) (w : Path)
        → IsStepTo m n (Replace path value) → Names n path w → AreOfOneKind (n w) (m w) → ⊥ }
    ensures once { (m n next : NodeMap) (path : List Text) (first second : Value)
        → IsStepTo m n (Replace path first) → Applies n (Replace path first) next
        → IsStepTo m next (Replace path second) → ⊥ }
{}
