//! Laws of decimal values. Each law is the contract of a function that does nothing.
ghost use Rattle.std.specs.Prelude.{ℕ, List, codes};
ghost use Rattle.jsonptr_text_digits.specs.Decimal.{HaveSameValue};

/// Having the same decimal value is an equivalence of texts. The texts `1`, `1.0` and `10e-1` have it,
/// and `1.1` and `-1` have others. Zero has two, with and without a minus sign.
pub fn value_law()
    ensures reflexive { (raw : List ℕ) → HaveSameValue raw raw }
    ensures symmetric { (raw other : List ℕ) → HaveSameValue raw other → HaveSameValue other raw }
    ensures transitive { (raw middle other : List ℕ)
        → HaveSameValue raw middle → HaveSameValue middle other → HaveSameValue raw other }
    ensures point { HaveSameValue (codes "1") (codes "1.0") }
    ensures exponent { HaveSameValue (codes "1") (codes "10e-1") }
    ensures fraction { HaveSameValue (codes "1") (codes "1.1") → ⊥ }
    ensures sign { HaveSameValue (codes "1") (codes "-1") → ⊥ }
    ensures zero { HaveSameValue (codes "0") (codes "-0") → ⊥ }
{}
