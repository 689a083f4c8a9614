//! Comparisons and hashes of pointers: those of their texts by bytes, and so of their lists of
//! tokens.
ghost use Rattle.std.specs.Prelude.{◌≡◌, ◌↔◌, List, ◌∷◌, ◌++◌, IsTrue};
ghost use Rattle.std.specs.Hash as fed;
ghost use Rattle.std.specs.Cmp.Lexicographic.{slice_cmp};
ghost use Rattle.std.specs.Ordering.{nat_cmp};
ghost use Rattle.std.specs.declared.cmp.Ordering.TheVariants.{Less, Equal};
ghost use Rattle.jsonptr.specs.Text.{Text, text};
ghost use Rattle.jsonptr.specs.Pointer.{tokens, text_of};
ghost use Rattle.jsonptr.specs.declared.pointer.Pointer.{Pointer};

use jsonptr::{Pointer, PointerBuf};
use std::hash::Hash;

/// States how pointers are compared and hashed. They are equal exactly if they have the same
/// tokens, and are ordered as their texts are by bytes. Only equal ones compare as equal, and a
/// pointer is less than one that continues after its tokens. A pointer has the hash of its text.
pub fn comparison_law()
    ensures equal { (p q : Pointer)
        → IsTrue (⟦<Pointer<'static> as PartialEq>⟧.eq p q) ↔ (tokens p ≡ tokens q) }
    ensures order { (p q : Pointer)
        → ⟦<Pointer<'static> as Ord>⟧.cmp p q ≡ slice_cmp nat_cmp (text_of p) (text_of q) }
    ensures tie { (p q : Pointer)
        → (⟦<Pointer<'static> as Ord>⟧.cmp p q ≡ Equal) ↔ (tokens p ≡ tokens q) }
    ensures front { (p q : Pointer) (t : Text) (rest : List Text)
        → tokens q ≡ tokens p ++ t ∷ rest → ⟦<Pointer<'static> as Ord>⟧.cmp p q ≡ Less }
    ensures hash { (p : Pointer)
        → ⟦<Pointer<'static> as Hash>⟧.hash_input p ≡ fed.str (text_of p) }
{}

/// States that pointers that own their text are compared and hashed as borrowed ones are
/// ([`comparison_law`]).
pub fn owned_comparison_law()
    ensures equal { (ts us : List Text)
        → IsTrue (⟦<PointerBuf as PartialEq>⟧.eq ts us) ↔ (ts ≡ us) }
    ensures order { (ts us : List Text)
        → ⟦<PointerBuf as Ord>⟧.cmp ts us ≡ slice_cmp nat_cmp (text ts) (text us) }
    ensures tie { (ts us : List Text) → (⟦<PointerBuf as Ord>⟧.cmp ts us ≡ Equal) ↔ (ts ≡ us) }
    ensures front { (ts rest : List Text) (t : Text)
        → ⟦<PointerBuf as Ord>⟧.cmp ts (ts ++ t ∷ rest) ≡ Less }
    ensures hash { (ts : List Text) → ⟦<PointerBuf as Hash>⟧.hash_input ts ≡ fed.str (text ts) }
{}
