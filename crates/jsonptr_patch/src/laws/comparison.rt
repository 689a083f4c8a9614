//! How the two comparisons of a test are related (RFC 6902, section 4.6).
ghost use Rattle.std.specs.Prelude.{◌≡◌, ◌↔◌, ℕ, ℤ, List, T, Some, Float};
ghost use Rattle.std.specs.Float.Ieee;
ghost use Rattle.serde_json.specs.Data.{Num, float, number};
ghost use Rattle.serde_json.specs.Find.{as_integer};
ghost use Rattle.jsonptr.specs.Json.{nodes};
ghost use Rattle.jsonptr.specs.Node.{NodeMap};
ghost use Rattle.jsonptr_patch.specs.Patching.{Patches, PatchesBy, RefusesPatch, RefusesPatchBy};
ghost use Rattle.jsonptr_patch.specs.Testing.{NumericallyEqual, IsEqual, IsEqualBy, HasFloat};
ghost use Rattle.jsonptr_patch.specs.declared.comparison.Comparison.TheVariants.{Numeric};
ghost use Rattle.jsonptr_patch.specs.declared.operation.Operation.{Operation};
ghost use Rattle.jsonptr_patch.specs.declared.operation.PatchError.{PatchError};
ghost use Rattle.jsonptr_patch.specs.declared.operation.PatchError.TheVariants.{TestFloat};

/// States how the two comparisons of a test are related.
///
/// - What is equal strictly is equal numerically. Two values without a float are equal strictly if they
///   are numerically.
/// - Two integers are numerically equal if they are the same, and two floats if IEEE 754 calls them
///   equal.
/// - A patch that can be applied with strict tests makes the same document with numerical ones.
/// - A patch that fails with strict tests, and not because of a float, fails with the same error.
pub fn test_comparison_law()
    ensures strict { (n m : NodeMap) → IsEqual n m → IsEqualBy Numeric n m }
    ensures plain { (n m : NodeMap) → (HasFloat n → ⊥) → (HasFloat m → ⊥)
        → IsEqualBy Numeric n m → IsEqual n m }
    ensures numbers { (a b : Num)
        → IsEqualBy Numeric (nodes (number a)) (nodes (number b)) ↔ NumericallyEqual a b }
    ensures integers { (a b : Num) (z w : ℤ) → as_integer a ≡ Some z → as_integer b ≡ Some w
        → NumericallyEqual a b ↔ (z ≡ w) }
    ensures floats { (x y : Float) → NumericallyEqual (float x) (float y) ↔ T (Ieee.eq x y) }
    ensures symmetric { (a b : Num) → NumericallyEqual a b → NumericallyEqual b a }
    ensures transitive { (a b c : Num)
        → NumericallyEqual a b → NumericallyEqual b c → NumericallyEqual a c }
    ensures patches { (n m : NodeMap) (os : List Operation)
        → Patches n os m → PatchesBy Numeric n os m }
    ensures refused { (n : NodeMap) (os : List Operation) (e : PatchError)
        → RefusesPatch n os e → ((k : ℕ) → e ≡ TestFloat k → ⊥) → RefusesPatchBy Numeric n os e }
{}
