//! Laws of writing into a document: what is put, assigned and deleted where tokens lead.

ghost use Rattle.std.specs.Prelude.{◌≡◌, ◌≢◌, codes, ℕ, suc, ◌-◌, ◌<◌, ◌≤◌, ◌↔◌, ◌⊎◌, List, [], ◌∷◌, ◌++◌, Option, Some, None, IsSome, IsTrue};
ghost use Rattle.jsonptr_grammar.specs.Text.{Text, dec};
ghost use Rattle.jsonptr_tree.specs.Node.{Step, key, place, Path, Scalar, an_object, an_array, a_leaf, NodeMap, sub, Names, MayHave, IsTree, IsListed};
ghost use Rattle.jsonptr_tree.specs.Following.{Finds, StopsAt};
ghost use Rattle.jsonptr_tree.specs.Put.{GoesThrough, put};
ghost use Rattle.jsonptr_tree.specs.Landing.{Lands, LandsNowhere};
ghost use Rattle.jsonptr_tree.specs.Expansion.{is_append_index, expanded, LacksDash};
ghost use Rattle.jsonptr_tree.specs.Assigning.{with_room, Assigns};
ghost use Rattle.jsonptr_tree.specs.Removing.{Deletes};

/// `put n w v` agrees with `v` below `w` and with `n` elsewhere, and it is the only such map.
///
/// Putting back the subtree at a path changes nothing, and the last of two puts at one path wins. A
/// put below a path is a put in the subtree there. Tokens that named the path find the new subtree.
/// A put at a node of a document makes a document, and a put of a finite map into a finite one is
/// finite.
pub fn put_law()
    ensures whole { (n : NodeMap) (w : Path) (v m : NodeMap)
        → m ≡ put n w v
        ↔ (((p : Path) → m (w ++ p) ≡ v p) × ((p : Path) → (GoesThrough p w → ⊥) → m p ≡ n p)) }
    ensures read { (n : NodeMap) (w : Path) (v : NodeMap) → sub (put n w v) w ≡ v }
    ensures same { (n : NodeMap) (w : Path) → put n w (sub n w) ≡ n }
    ensures twice { (n : NodeMap) (w : Path) (v u : NodeMap) → put (put n w v) w u ≡ put n w u }
    ensures below { (n : NodeMap) (w u : Path) (v : NodeMap)
        → put n (w ++ u) v ≡ put n w (put (sub n w) u v) }
    ensures finds { (n : NodeMap) (tokens : List Text) (w : Path) (v : NodeMap)
        → Names n tokens w
        → IsSome (v [])
        → Finds (put n w v) tokens v }
    ensures tree { (n : NodeMap) (w : Path) (v : NodeMap)
        → IsTree n
        → IsSome (n w)
        → IsTree v
        → IsTree (put n w v) }
    ensures finite { (n : NodeMap) (w : Path) (v : NodeMap)
        → IsListed n
        → IsListed v
        → IsListed (put n w v) }
{}

/// The map that tokens expand a value to: `-` and `0` make an array of one element, and any other
/// token makes an object of one member under that token.
///
/// Each container holds what the later tokens make, and without tokens the value is unchanged. The
/// expansion of a document is a document, and that of a finite map is finite. Tokens without `-`
/// find the value in it.
pub fn expansion_law()
    ensures nothing { (v : NodeMap) → expanded [] v ≡ v }
    ensures array { (x : Text) (rest : List Text) (v : NodeMap)
        → (x ≡ codes "-") ⊎ (x ≡ codes "0")
        → (expanded (x ∷ rest) v [] ≡ Some (an_array 1))
        × (sub (expanded (x ∷ rest) v) (place 0 ∷ []) ≡ expanded rest v) }
    ensures object { (x : Text) (rest : List Text) (v : NodeMap)
        → x ≢ codes "-"
        → x ≢ codes "0"
        → (expanded (x ∷ rest) v [] ≡ Some an_object)
        × (sub (expanded (x ∷ rest) v) (key x ∷ []) ≡ expanded rest v)
        × ((k : Text) → k ≢ x → expanded (x ∷ rest) v (key k ∷ []) ≡ None) }
    ensures tree { (tokens : List Text) (v : NodeMap) → IsTree v → IsTree (expanded tokens v) }
    ensures finite { (tokens : List Text) (v : NodeMap) → IsListed v → IsListed (expanded tokens v) }
    ensures finds { (tokens : List Text) (v : NodeMap)
        → LacksDash tokens
        → IsSome (v [])
        → Finds (expanded tokens v) tokens v }
{}

/// In a document, an assignment at a list of tokens either stores its value at one path or fails.
///
/// The path and the tokens that are left to expand are unique. It fails exactly if following stops
/// at an array, before a token that is neither `-` nor the decimal text of a number up to the
/// array's length.
pub fn landing_law()
    ensures lands { (n : NodeMap) (tokens : List Text)
        → IsTree n
        → ((p : Path) × (left : List Text) × Lands n tokens p left)
        ⊎ ((position offset len : ℕ) × (x : Text) × LandsNowhere n tokens position offset len x) }
    ensures not_both { (n : NodeMap) (tokens : List Text) (position offset len : ℕ) (x : Text)
        (p : Path) (left : List Text)
        → Lands n tokens p left
        → LandsNowhere n tokens position offset len x
        → ⊥ }
    ensures one_place { (n : NodeMap) (tokens : List Text) (p q : Path) (left more : List Text)
        → Lands n tokens p left
        → Lands n tokens q more
        → (p ≡ q) × (left ≡ more) }
    ensures named { (n : NodeMap) (tokens : List Text) (w : Path)
        → Names n tokens w
        → Lands n tokens w [] }
{}

/// The map after an assignment: it is unique if the value lands, and there is none otherwise.
///
/// At the landing path is the expanded value, which tokens without `-` find. Nodes that are neither
/// above nor below that path keep their tokens and their subtree. A node above it keeps its label,
/// except an array to which the value is appended: its length is higher by one. The result is a
/// document if both maps are, and finite if both are.
pub fn assigning_law()
    ensures made { (n : NodeMap) (tokens : List Text) (v : NodeMap)
        → IsTree n
        → ((m : NodeMap) × (old : Option NodeMap) × Assigns n tokens v m old)
        ⊎ ((position offset len : ℕ) × (x : Text) × LandsNowhere n tokens position offset len x) }
    ensures not_both { (n : NodeMap) (tokens : List Text) (v m : NodeMap) (old : Option NodeMap)
        (position offset len : ℕ) (x : Text)
        → Assigns n tokens v m old
        → LandsNowhere n tokens position offset len x
        → ⊥ }
    ensures one_map { (n : NodeMap) (tokens : List Text) (v m k : NodeMap)
        (old was : Option NodeMap)
        → Assigns n tokens v m old
        → Assigns n tokens v k was
        → (m ≡ k) × (old ≡ was) }
    ensures there { (n : NodeMap) (tokens : List Text) (v m : NodeMap) (old : Option NodeMap)
        (r : Assigns n tokens v m old)
        → sub m r.path ≡ expanded r.left v }
    ensures finds { (n : NodeMap) (tokens : List Text) (v m : NodeMap) (old : Option NodeMap)
        → Assigns n tokens v m old
        → LacksDash tokens
        → IsSome (v [])
        → Finds m tokens v }
    ensures others { (n : NodeMap) (tokens : List Text) (v m : NodeMap) (old : Option NodeMap)
        (r : Assigns n tokens v m old) (others : List Text) (q : Path)
        → Names n others q
        → (GoesThrough r.path q → ⊥)
        → (GoesThrough q r.path → ⊥)
        → Names m others q × (sub m q ≡ sub n q) }
    ensures way { (n : NodeMap) (tokens : List Text) (v m : NodeMap) (old : Option NodeMap)
        (r : Assigns n tokens v m old) (w : Path) (s : Step) (u : Path)
        → r.path ≡ w ++ s ∷ u
        → MayHave (n w) s
        → m w ≡ n w }
    ensures longer { (n : NodeMap) (tokens : List Text) (v m : NodeMap) (old : Option NodeMap)
        (r : Assigns n tokens v m old) (w : Path) (len : ℕ)
        → r.path ≡ w ++ place len ∷ []
        → n w ≡ Some (an_array len)
        → m w ≡ Some (an_array (suc len)) }
    ensures tree { (n : NodeMap) (tokens : List Text) (v m : NodeMap) (old : Option NodeMap)
        → IsTree n
        → IsTree v
        → Assigns n tokens v m old
        → IsTree m }
    ensures finite { (n : NodeMap) (tokens : List Text) (v m : NodeMap) (old : Option NodeMap)
        → IsListed n
        → IsListed v
        → Assigns n tokens v m old
        → IsListed m }
{}

/// The map after an assignment, case by case.
///
/// | Following the tokens                      | Effect                                        |
/// | ----------------------------------------- | --------------------------------------------- |
/// | finds a node                              | the value replaces it                         |
/// | stops at a scalar                         | the expansion of the other tokens replaces it |
/// | stops at an object                        | a new member, under the next token            |
/// | stops at an array before its append index | a new last element                            |
pub fn assigning_cases_law()
    ensures named { (n : NodeMap) (tokens : List Text) (v m : NodeMap) (old : Option NodeMap)
        (w : Path)
        → Names n tokens w
        → Assigns n tokens v m old
        ↔ ((m ≡ put n w v) × (old ≡ Some (sub n w))) }
    ensures scalar { (n : NodeMap) (tokens front : List Text) (x : Text) (rest : List Text)
        (v m : NodeMap) (old : Option NodeMap) (w : Path) (a : Scalar)
        → StopsAt n tokens front w (x ∷ rest)
        → n w ≡ Some (a_leaf a)
        → Assigns n tokens v m old
        ↔ ((m ≡ put n w (expanded (x ∷ rest) v)) × (old ≡ Some (sub n w))) }
    ensures member { (n : NodeMap) (tokens front : List Text) (x : Text) (rest : List Text)
        (v m : NodeMap) (old : Option NodeMap) (w : Path)
        → StopsAt n tokens front w (x ∷ rest)
        → n w ≡ Some an_object
        → Assigns n tokens v m old
        ↔ ((m ≡ put n (w ++ key x ∷ []) (expanded rest v)) × (old ≡ None)) }
    ensures element { (n : NodeMap) (tokens front : List Text) (x : Text) (rest : List Text)
        (v m : NodeMap) (old : Option NodeMap) (w : Path) (len : ℕ)
        → IsTree n
        → StopsAt n tokens front w (x ∷ rest)
        → n w ≡ Some (an_array len)
        → IsTrue (is_append_index len x)
        → Assigns n tokens v m old
        ↔ ((m ≡ put (with_room n (w ++ place len ∷ [])) (w ++ place len ∷ []) (expanded rest v))
        × (old ≡ None)) }
{}

/// The map after a deletion is unique.
///
/// Deleting a member removes the paths through it: its tokens name nothing afterwards, and all
/// others are unchanged. Deleting an element moves each later element to the index before its own.
/// Nothing outside the array changes. A deletion in a document leaves a document, and a finite map
/// stays finite.
pub fn deleting_law()
    ensures made { (n blank : NodeMap) (tokens : List Text)
        → IsTree n
        → (m : NodeMap) × Deletes n tokens blank m }
    ensures one_map { (n blank : NodeMap) (tokens : List Text) (m k : NodeMap)
        → IsTree n
        → Deletes n tokens blank m
        → Deletes n tokens blank k
        → m ≡ k }
    ensures member { (n blank : NodeMap) (tokens : List Text) (m : NodeMap) (w : Path) (k : Text)
        (p : Path)
        → Deletes n tokens blank m
        → Names n tokens (w ++ key k ∷ [])
        → m (w ++ key k ∷ p) ≡ None }
    ensures forgotten { (n blank : NodeMap) (tokens : List Text) (m : NodeMap) (w : Path) (k : Text)
        (p : Path)
        → Deletes n tokens blank m
        → Names n tokens (w ++ key k ∷ [])
        → Names m tokens p
        → ⊥ }
    ensures members { (n blank : NodeMap) (tokens : List Text) (m : NodeMap) (w : Path) (k : Text)
        (p : Path)
        → Deletes n tokens blank m
        → Names n tokens (w ++ key k ∷ [])
        → (GoesThrough p (w ++ key k ∷ []) → ⊥)
        → m p ≡ n p }
    ensures shorter { (n blank : NodeMap) (tokens : List Text) (m : NodeMap) (w : Path)
        (i len : ℕ)
        → Deletes n tokens blank m
        → Names n tokens (w ++ place i ∷ [])
        → n w ≡ Some (an_array len)
        → m w ≡ Some (an_array (len - 1)) }
    ensures earlier { (n blank : NodeMap) (tokens : List Text) (m : NodeMap) (w : Path) (i j : ℕ)
        → Deletes n tokens blank m
        → Names n tokens (w ++ place i ∷ [])
        → j < i
        → sub m (w ++ place j ∷ []) ≡ sub n (w ++ place j ∷ []) }
    ensures later { (n blank : NodeMap) (tokens : List Text) (m : NodeMap) (w : Path) (i j : ℕ)
        → Deletes n tokens blank m
        → Names n tokens (w ++ place i ∷ [])
        → i ≤ j
        → sub m (w ++ place j ∷ []) ≡ sub n (w ++ place (suc j) ∷ []) }
    ensures elsewhere { (n blank : NodeMap) (tokens : List Text) (m : NodeMap) (w : Path) (i : ℕ)
        (p : Path)
        → Deletes n tokens blank m
        → Names n tokens (w ++ place i ∷ [])
        → (GoesThrough p w → ⊥)
        → m p ≡ n p }
    ensures found_lower { (n blank : NodeMap) (tokens : List Text) (m k : NodeMap) (w : Path)
        (i j : ℕ) (front rest : List Text)
        → Deletes n tokens blank m
        → Names n tokens (w ++ place i ∷ [])
        → Names n front w
        → i ≤ j
        → Finds n (front ++ dec (suc j) ∷ rest) k
        → Finds m (front ++ dec j ∷ rest) k }
    ensures found_before { (n blank : NodeMap) (tokens : List Text) (m k : NodeMap) (w : Path)
        (i j : ℕ) (front rest : List Text)
        → Deletes n tokens blank m
        → Names n tokens (w ++ place i ∷ [])
        → Names n front w
        → j < i
        → Finds n (front ++ dec j ∷ rest) k
        → Finds m (front ++ dec j ∷ rest) k }
    ensures found_beside { (n blank : NodeMap) (tokens : List Text) (m : NodeMap) (w : Path)
        (k : Text)
        → Deletes n tokens blank m
        → Names n tokens (w ++ key k ∷ [])
        → (others : List Text) (q : Path)
        → Names n others q
        → (GoesThrough q (w ++ key k ∷ []) → ⊥)
        → Names m others q × ((GoesThrough (w ++ key k ∷ []) q → ⊥) → sub m q ≡ sub n q) }
    ensures found_elsewhere { (n blank : NodeMap) (tokens : List Text) (m : NodeMap) (w : Path)
        (i : ℕ)
        → Deletes n tokens blank m
        → Names n tokens (w ++ place i ∷ [])
        → (others : List Text) (q : Path)
        → Names n others q
        → (GoesThrough q w → ⊥)
        → Names m others q × ((GoesThrough w q → ⊥) → sub m q ≡ sub n q) }
    ensures tree { (n blank : NodeMap) (tokens : List Text) (m : NodeMap)
        → IsTree n
        → IsTree blank
        → Deletes n tokens blank m
        → IsTree m }
    ensures finite { (n blank : NodeMap) (tokens : List Text) (m : NodeMap)
        → IsTree n
        → IsListed n
        → IsListed blank
        → Deletes n tokens blank m
        → IsListed m }
{}

/// How to undo an assignment.
///
/// Exactly one list of tokens names the landing path afterwards. If the assignment replaced a node,
/// putting that back restores the old map. Otherwise deleting at those tokens restores it.
pub fn undoing_law()
    ensures named { (n : NodeMap) (tokens : List Text) (v m : NodeMap) (old : Option NodeMap)
        → IsTree n
        → IsTree v
        → (r : Assigns n tokens v m old)
        → (landing : List Text) × Names m landing r.path
        × ((others : List Text) → Names m others r.path → others ≡ landing) }
    ensures replaced { (n : NodeMap) (tokens : List Text) (v m old : NodeMap)
        → IsTree n
        → (r : Assigns n tokens v m (Some old))
        → put m r.path old ≡ n }
    ensures new { (n : NodeMap) (tokens : List Text) (v m : NodeMap)
        → IsTree n
        → (r : Assigns n tokens v m None)
        → (landing : List Text) (blank k : NodeMap)
        → Names m landing r.path
        → Deletes m landing blank k
        → k ≡ n }
{}
