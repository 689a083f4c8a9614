//! Laws of lines. Each law is the contract of a function that does nothing.
//!
//! - [`whole`]: lines as a whole text, and one after another.
ghost use Rattle.std.specs.Prelude.{◌≡◌, ℕ, List};
ghost use Rattle.jsonptr_io.specs.Lines.{AreLines};

pub mod whole;

/// States that each input is exactly one list of lines.
pub fn lines_law()
    ensures some { (bytes : List ℕ) → (ls : List (List ℕ)) × AreLines bytes ls }
    ensures one { (bytes : List ℕ) (ls ks : List (List ℕ))
        → AreLines bytes ls → AreLines bytes ks → ls ≡ ks }
{}
