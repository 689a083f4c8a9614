//! Edits of an owned pointer that undo each other.
ghost use Rattle.std.specs.Prelude.{◌≡◌, List, Some};
ghost use Rattle.jsonptr.specs.Text.{Text};
ghost use Rattle.jsonptr.specs.Ends.{PushesFront, PushesBack, PopsFront, PopsBack};

/// States that a pop after a push at the same end returns the pushed token and restores the list.
pub fn end_law()
    ensures front { (old middle new : List Text) (t u : Text)
        → PushesFront old t middle → PopsFront middle (Some u) new → (u ≡ t) × (new ≡ old) }
    ensures back { (old middle new : List Text) (t u : Text)
        → PushesBack old t middle → PopsBack middle (Some u) new → (u ≡ t) × (new ≡ old) }
{}
