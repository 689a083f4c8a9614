//! What takes operations back.
ghost use Rattle.std.specs.Prelude.{List, All};
ghost use Rattle.jsonptr.specs.Documents.{IsDocument};
ghost use Rattle.jsonptr.specs.Node.{NodeMap};
ghost use Rattle.jsonptr_patch.specs.Inverse.{TakesBack, TakesAllBackBy, AreAlike, IsOfBefore};
ghost use Rattle.jsonptr_patch.specs.Operating.{AppliesBy};
ghost use Rattle.jsonptr_patch.specs.Patching.{Patches, PatchesBy};
ghost use Rattle.jsonptr_patch.specs.declared.comparison.Comparison.{Comparison};
ghost use Rattle.jsonptr_patch.specs.declared.operation.Operation.{Operation};

/// States what the operations do that take back an operation, or a list of operations, and that they are
/// determined.
///
/// - They turn the document after it into the one before it, however its tests compare.
/// - What takes a list back is the same each time, except for the order of the members in its values.
/// - Each of its values is at its pointer in the document before an operation, or in what a move has left of
///   that document. It has no tests.
pub fn inverse_law()
    ensures operation { (c : Comparison) (n m : NodeMap) (o : Operation) (back : List Operation)
        → IsDocument n → AppliesBy c n o m → TakesBack n o back → Patches m back n }
    ensures patch { (c : Comparison) (n m : NodeMap) (os back : List Operation)
        → IsDocument n → PatchesBy c n os m → TakesAllBackBy c n os back → Patches m back n }
    ensures same { (c : Comparison) (n : NodeMap) (os back others : List Operation)
        → IsDocument n → TakesAllBackBy c n os back → TakesAllBackBy c n os others
        → AreAlike back others }
    ensures values { (c : Comparison) (n : NodeMap) (os back : List Operation)
        → TakesAllBackBy c n os back → All (IsOfBefore c n os) back }
{}
