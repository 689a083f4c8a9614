//! Laws of tabled pointers.
ghost use Rattle.std.specs.Prelude.{◌≡◌, ◌↔◌, List, ◌∷◌, ◌++◌, IsTrue};
ghost use Rattle.std.specs.Hash as fed;
ghost use Rattle.std.specs.Cmp.Lexicographic.{slice_cmp};
ghost use Rattle.std.specs.Ordering.{nat_cmp};
ghost use Rattle.std.specs.declared.cmp.Ordering.TheVariants.{Less, Equal};
ghost use Rattle.jsonptr.specs.Text.{Text, text};

use crate::TabledPointer;
use std::hash::Hash;

/// States how tabled pointers are compared and hashed. They are equal exactly if they have the same
/// tokens, and are ordered as their texts are by bytes. Only equal ones compare as equal, and a
/// pointer is less than one that continues after its tokens. A tabled pointer has the hash of its
/// text.
pub fn tabled_comparison_law()
    ensures equal { (ts us : List Text)
        → IsTrue (⟦<TabledPointer as PartialEq>⟧.eq ts us) ↔ (ts ≡ us) }
    ensures order { (ts us : List Text)
        → ⟦<TabledPointer as Ord>⟧.cmp ts us ≡ slice_cmp nat_cmp (text ts) (text us) }
    ensures tie { (ts us : List Text) → (⟦<TabledPointer as Ord>⟧.cmp ts us ≡ Equal) ↔ (ts ≡ us) }
    ensures front { (ts rest : List Text) (t : Text)
        → ⟦<TabledPointer as Ord>⟧.cmp ts (ts ++ t ∷ rest) ≡ Less }
    ensures hash { (ts : List Text) → ⟦<TabledPointer as Hash>⟧.hash_input ts ≡ fed.str (text ts) }
{}
