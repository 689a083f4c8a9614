//! Laws of faults: where a text leaves the grammar.

ghost use Rattle.std.specs.Prelude.{◌≡◌, ℕ, ◌⊎◌};
ghost use Rattle.jsonptr_grammar.specs.Text.{Text};
ghost use Rattle.jsonptr_grammar.specs.Grammar.{IsToken, IsPointer};
ghost use Rattle.jsonptr_grammar.specs.FirstFault.{IsTokenFault, LacksSlash, IsTildeFault};

/// Each text either is a reference token (RFC 6901, section 3) or has a first fault, and never
/// both. The fault is at one offset.
pub fn token_fault_law()
    ensures fault { (s : Text) → IsToken s ⊎ ((o : ℕ) × IsTokenFault s o) }
    ensures excludes { (s : Text) (o : ℕ) → IsToken s → IsTokenFault s o → ⊥ }
    ensures one { (s : Text) (o u : ℕ) → IsTokenFault s o → IsTokenFault s u → o ≡ u }
{}

/// Each text is a JSON Pointer (RFC 6901, section 3), or lacks its first `/`, or contains a `~`
/// that is not followed by `0` or `1`. These cases exclude each other. The first such `~` is at one
/// offset, and so is the last `/` before it.
pub fn pointer_fault_law()
    ensures fault { (s : Text)
        → IsPointer s ⊎ (LacksSlash s ⊎ ((p : ℕ) × (o : ℕ) × IsTildeFault s p o)) }
    ensures no_lack { (s : Text) → IsPointer s → LacksSlash s → ⊥ }
    ensures no_tilde { (s : Text) (p o : ℕ) → IsPointer s → IsTildeFault s p o → ⊥ }
    ensures apart { (s : Text) (p o : ℕ) → LacksSlash s → IsTildeFault s p o → ⊥ }
    ensures one { (s : Text) (p o q u : ℕ) → IsTildeFault s p o → IsTildeFault s q u
        → (p ≡ q) × (o ≡ u) }
{}
