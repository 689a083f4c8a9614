//! Operations that change different members of the same objects commute.
ghost use Rattle.std.specs.Prelude.{◌↔◌, ℕ, List, ◌++◌};
ghost use Rattle.jsonptr.specs.Node.{NodeMap};
ghost use Rattle.jsonptr.specs.Text.{Text};
ghost use Rattle.jsonptr_patch.specs.Operating.{Applies, RefusesOperation};
ghost use Rattle.jsonptr_patch.specs.Patching.{Patches};
ghost use Rattle.jsonptr_patch.specs.declared.failed_operation.FailedOperation.{FailedOperation};
ghost use Rattle.jsonptr_patch.specs.declared.operation.Operation.{Operation};
ghost use Rattle.jsonptr_patch.specs.Apart.{Diverges, AreApart, PatchesAreApart};

/// States that two operations that are apart can be applied in either order.
///
/// - What one order makes, the other order makes too. So it is for two patches that are apart.
/// - If both apply to one document, each applies after the other one.
/// - If one fails, then after the other one it fails with the same error.
/// - They are still apart after one of them, and so are they in the other order.
pub fn apart_law()
    ensures operations { (n m : NodeMap) (o p : Operation) → AreApart n o p
        → ((l : NodeMap) × Applies n o l × Applies l p m)
        ↔ ((l : NodeMap) × Applies n p l × Applies l o m) }
    ensures both { (n a b : NodeMap) (o p : Operation) → AreApart n o p
        → Applies n o a → Applies n p b → (m : NodeMap) × Applies a p m × Applies b o m }
    ensures refused { (n m : NodeMap) (k : ℕ) (o p : Operation) (e : FailedOperation) → AreApart n o p
        → Applies n p m → RefusesOperation n k o e → RefusesOperation m k o e }
    ensures patches { (n m : NodeMap) (os ps : List Operation) → PatchesAreApart n os ps
        → Patches n (os ++ ps) m ↔ Patches n (ps ++ os) m }
    ensures kept { (n m : NodeMap) (o p : Operation)
        → AreApart n o p → Applies n o m → AreApart m o p }
    ensures turned { (n : NodeMap) (xs ys : List Text) → Diverges n xs ys → Diverges n ys xs }
{}
