//! Laws of pieces of a text. Each law is the contract of a function that does nothing.
ghost use Rattle.std.specs.Prelude.{◌≡◌, ◌≢◌, ◌↔◌, ◌+◌, ℕ, List, [], ◌++◌, length, take, drop};
ghost use Rattle.jsonptr_text_piece.specs.Spacing.{IsBlank, IsTrimmed, Splices};

/// States what it is to replace a piece of a text, by the bytes of both texts.
///
/// Up to some offset both texts have the same bytes. There the old text has the old piece, and the new
/// text the new one. After these pieces both have the same bytes again.
pub fn splice_law()
    ensures { (old new middle piece : List ℕ) → Splices old new middle piece
        ↔ ((n : ℕ) × (take n new ≡ take n old)
        × (drop n old ≡ middle ++ drop (n + length middle) old)
        × (drop n new ≡ piece ++ drop (n + length piece) new)
        × (drop (n + length piece) new ≡ drop (n + length middle) old)) }
{}

/// States that a text without white space around it is in a text in one way, if all else there is
/// white space.
pub fn trimmed_law()
    ensures { (before one after lead other trail : List ℕ)
        → IsBlank before → IsBlank after → IsTrimmed one → one ≢ []
        → IsBlank lead → IsBlank trail → IsTrimmed other → other ≢ []
        → before ++ (one ++ after) ≡ lead ++ (other ++ trail)
        → (before ≡ lead) × (one ≡ other) × (after ≡ trail) }
{}
