//! Laws of following tokens into a document (RFC 6901, section 4).

ghost use Rattle.std.specs.Prelude.{◌≡◌, ℕ, ◌<◌, ◌↔◌, ◌⊎◌, List, [], ◌∷◌, ◌++◌, IsSome};
ghost use Rattle.jsonptr_grammar.specs.Text.{Text, dec};
ghost use Rattle.jsonptr_tree.specs.Node.{key, Path, Label, an_object, an_array, NodeMap, Names, IsNaming, PairsOff, IsTree};
ghost use Rattle.jsonptr_tree.specs.Following.{Finds, StopsAt, LacksStep, StopsBefore};

/// Each reference token selects one child of the value that the tokens before it select (RFC 6901,
/// section 4).
///
/// A list of tokens names a path exactly if three things hold. There is one token for each step,
/// the path is in the document, and each token selects the step at its position. One list names at
/// most one path, and at most one list names a path. In a document the lists that find a node and
/// the paths are in bijection.
pub fn naming_law()
    ensures whole { (n : NodeMap) (xs : List Text) (w : Path) → Names n xs w ↔ IsNaming n xs w }
    ensures one_path { (n : NodeMap) (xs : List Text) (w v : Path)
        → Names n xs w
        → Names n xs v
        → w ≡ v }
    ensures one_list { (n : NodeMap) (xs ys : List Text) (w : Path)
        → Names n xs w
        → Names n ys w
        → xs ≡ ys }
    ensures some_list { (n : NodeMap)
        → IsTree n
        → (w : Path)
        → IsSome (n w)
        → (xs : List Text) × Names n xs w }
    ensures one_each { (n : NodeMap)
        → IsTree n
        → PairsOff n (λ xs. (m : NodeMap) × Finds n xs m) (λ w. IsSome (n w)) }
{}

/// Evaluation goes from token to token, and stops before a token that selects no child (RFC 6901,
/// section 4).
///
/// The tokens before that one name a path, and it names no child of the node there. It is the only
/// such token. In a document each list of tokens either names a path or is stopped before one of
/// its tokens. At an array, such a token is not the decimal text of an index of it. At an object it
/// is not a key.
pub fn following_law()
    ensures stop { (n : NodeMap) (tokens front : List Text) (x : Text) (rest : List Text)
        (w : Path)
        → StopsAt n tokens front w (x ∷ rest)
        ↔ ((tokens ≡ front ++ x ∷ rest) × Names n front w × LacksStep n w x) }
    ensures one_stop { (n : NodeMap) (tokens f g : List Text) (w v : Path) (r q : List Text)
        → StopsAt n tokens f w r
        → StopsAt n tokens g v q
        → (f ≡ g) × (w ≡ v) × (r ≡ q) }
    ensures one_fault { (n : NodeMap) (tokens : List Text) (p q o u : ℕ) (l m : Label)
        (x y : Text)
        → StopsBefore n tokens p o l x
        → StopsBefore n tokens q u m y
        → (p ≡ q) × (o ≡ u) × (l ≡ m) × (x ≡ y) }
    ensures one_find { (n : NodeMap) (tokens : List Text) (m k : NodeMap)
        → Finds n tokens m
        → Finds n tokens k
        → m ≡ k }
    ensures ends { (n : NodeMap) (tokens : List Text)
        → IsTree n
        → ((w : Path) × Names n tokens w)
        ⊎ ((p o : ℕ) × (l : Label) × (x : Text) × StopsBefore n tokens p o l x) }
    ensures not_both { (n : NodeMap) (tokens : List Text) (m : NodeMap) (p o : ℕ) (l : Label)
        (x : Text)
        → Finds n tokens m
        → StopsBefore n tokens p o l x
        → ⊥ }
    ensures at_object { (n : NodeMap) (tokens : List Text) (p o : ℕ) (x : Text)
        (r : StopsBefore n tokens p o an_object x)
        → IsSome (n (r.path ++ key x ∷ []))
        → ⊥ }
    ensures at_array { (n : NodeMap) (tokens : List Text) (p o len i : ℕ) (x : Text)
        → IsTree n
        → StopsBefore n tokens p o (an_array len) x
        → i < len
        → x ≡ dec i
        → ⊥ }
{}
