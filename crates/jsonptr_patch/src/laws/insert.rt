//! Insertion in an array (RFC 6902, section 4.1).
ghost use Rattle.std.specs.Prelude.{◌≡◌, ℕ, suc, ◌<◌, ◌≤◌, [], ◌∷◌, Some};
ghost use Rattle.jsonptr.specs.Node.{place, an_array, NodeMap, sub, IsTree, IsListed};
ghost use Rattle.jsonptr.specs.Removing.{without_place};
ghost use Rattle.jsonptr_patch.specs.Inserting.{with_place};

/// States what an insertion makes of the map of an array. It has one more element, and the new one
/// is at the index. Each earlier element is unchanged, and each later one moves up by one, with
/// everything below it. The result is a document if the two maps are, and finite if they are.
/// Insertion and deletion at one index are inverse.
pub fn insertion_law()
    ensures longer { (i len : ℕ) (v n : NodeMap)
        → n [] ≡ Some (an_array len)
        → with_place i v n [] ≡ Some (an_array (suc len)) }
    ensures there { (i : ℕ) (v n : NodeMap) → sub (with_place i v n) (place i ∷ []) ≡ v }
    ensures earlier { (i j : ℕ) (v n : NodeMap)
        → j < i
        → sub (with_place i v n) (place j ∷ []) ≡ sub n (place j ∷ []) }
    ensures later { (i j : ℕ) (v n : NodeMap)
        → i ≤ j
        → sub (with_place i v n) (place (suc j) ∷ []) ≡ sub n (place j ∷ []) }
    ensures tree { (n : NodeMap) (i len : ℕ) (v : NodeMap)
        → IsTree n
        → n [] ≡ Some (an_array len)
        → i ≤ len
        → IsTree v
        → IsTree (with_place i v n) }
    ensures finite { (i : ℕ) (v n : NodeMap)
        → IsListed n
        → IsListed v
        → IsListed (with_place i v n) }
    ensures taken_out { (n : NodeMap) (i len : ℕ) (v : NodeMap)
        → n [] ≡ Some (an_array len)
        → without_place i (with_place i v n) ≡ n }
    ensures put_back { (n : NodeMap) (i len : ℕ)
        → n [] ≡ Some (an_array len)
        → i < len
        → with_place i (sub n (place i ∷ [])) (without_place i n) ≡ n }
{}
