//! Which values a test calls equal (RFC 6902, section 4.6).
ghost use Rattle.std.specs.Prelude.{◌≡◌, ℕ, ℤ, [], ◌∷◌, Bool, Some, None};
ghost use Rattle.serde_json.specs.Data.{Num, Data, null, boolean, number, string};
ghost use Rattle.serde_json.specs.Find.{as_integer};
ghost use Rattle.jsonptr.specs.Text.{Text};
ghost use Rattle.jsonptr.specs.Node.{Step, Path, an_object, an_array, NodeMap, sub};
ghost use Rattle.jsonptr.specs.Json.{nodes};
ghost use Rattle.jsonptr_patch.specs.Testing.{IsEqual, HasFloat};

/// States which values a test calls equal.
///
/// - Equality is symmetric and transitive, and equal values have the same paths and equal parts.
/// - A value that contains a float is equal to none, itself included. Every other value is equal to
///   itself.
/// - Only an array of the same length is equal to an array, and only an object to an object. They
///   are equal if everything one step below is.
/// - Only `null` is equal to `null`, and only the same boolean or string to a boolean or a string.
/// - The numbers that are equal to a number are those that are the same integer, however each is
///   stored.
pub fn equality_law()
    ensures symmetric { (n m : NodeMap) → IsEqual n m → IsEqual m n }
    ensures transitive { (n m l : NodeMap) → IsEqual n m → IsEqual m l → IsEqual n l }
    ensures paths { (n m : NodeMap) (w : Path) → IsEqual n m → n w ≡ None → m w ≡ None }
    ensures parts { (n m : NodeMap) (w : Path) → IsEqual n m → IsEqual (sub n w) (sub m w) }
    ensures no_float { (n m : NodeMap) → HasFloat n → IsEqual n m → ⊥ }
    ensures itself { (d : Data) → (HasFloat (nodes d) → ⊥) → IsEqual (nodes d) (nodes d) }
    ensures array { (n m : NodeMap) (len : ℕ)
        → IsEqual n m → n [] ≡ Some (an_array len) → m [] ≡ Some (an_array len) }
    ensures object { (n m : NodeMap)
        → IsEqual n m → n [] ≡ Some an_object → m [] ≡ Some an_object }
    ensures arrays { (n m : NodeMap) (len : ℕ)
        → n [] ≡ Some (an_array len) → m [] ≡ Some (an_array len)
        → ((s : Step) → IsEqual (sub n (s ∷ [])) (sub m (s ∷ [])))
        → IsEqual n m }
    ensures objects { (n m : NodeMap)
        → n [] ≡ Some an_object → m [] ≡ Some an_object
        → ((s : Step) → IsEqual (sub n (s ∷ [])) (sub m (s ∷ [])))
        → IsEqual n m }
    ensures null { (d : Data) → IsEqual (nodes null) (nodes d) → d ≡ null }
    ensures truth { (b : Bool) (d : Data)
        → IsEqual (nodes (boolean b)) (nodes d) → d ≡ boolean b }
    ensures text { (s : Text) (d : Data)
        → IsEqual (nodes (string s)) (nodes d) → d ≡ string s }
    ensures number { (a : Num) (d : Data) → IsEqual (nodes (number a)) (nodes d)
        → (b : Num) × (z : ℤ) × (d ≡ number b) × (as_integer a ≡ Some z) × (as_integer b ≡ Some z) }
    ensures same_number { (a b : Num) (z : ℤ) → as_integer a ≡ Some z → as_integer b ≡ Some z
        → IsEqual (nodes (number a)) (nodes (number b)) }
{}
