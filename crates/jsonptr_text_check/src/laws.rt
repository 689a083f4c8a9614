//! A law of what is beside a child. It is the contract of a function that does nothing.
ghost use Rattle.std.specs.Prelude.{◌↔◌, ◌⊎◌, ℕ, List, ◌++◌};
ghost use Rattle.jsonptr_text_check.specs.Child.{HaveOneComma};
ghost use Rattle.jsonptr_text_piece.specs.Spacing.{IsBlank, IsSpaced};

/// States that what is beside a child is white space with at most one comma.
pub fn comma_law()
    ensures { (lead trail : List ℕ) → HaveOneComma lead trail
        ↔ (IsBlank (lead ++ trail) ⊎ IsSpaced 44 (lead ++ trail)) }
{}
