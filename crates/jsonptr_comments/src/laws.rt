//! Laws of texts without comments. Each law is the contract of a function that does nothing.
ghost use Rattle.std.specs.Prelude.{◌≡◌, ◌⊎◌, ◌↔◌, List, [], ℕ, false, length, Some};
ghost use Rattle.json.specs.Json.{Json, document};
ghost use Rattle.serde_json.specs.Data.{Data};
ghost use Rattle.serde_json.specs.Read.{read};
ghost use Rattle.jsonptr_comments.specs.Comments.{Piece, Pieces, IsWithoutComments, IsUnterminated, IsPlain, IsBare};

/// States that a text is exactly one sequence of pieces, or has a block comment that is not closed, at
/// exactly one offset.
pub fn pieces_law()
    ensures unique { (text : List ℕ) (ps qs : List Piece)
        → Pieces text ps [] → Pieces text qs [] → ps ≡ qs }
    ensures total { (text : List ℕ)
        → ((ps : List Piece) × Pieces text ps []) ⊎ ((n : ℕ) × IsUnterminated text n) }
    ensures not_both { (text : List ℕ) (ps : List Piece) (n : ℕ)
        → Pieces text ps [] → IsUnterminated text n → ⊥ }
    ensures one_offset { (text : List ℕ) (m n : ℕ)
        → IsUnterminated text m → IsUnterminated text n → m ≡ n }
{}

/// States that a text has one text without comments.
pub fn function_law()
    ensures { (text new other : List ℕ)
        → IsWithoutComments text new → IsWithoutComments text other → new ≡ other }
{}

/// States that what a [`CommentedText`](crate::CommentedText) says of its two texts is that the second one is the
/// first one without comments.
pub fn bare_law()
    ensures { (text bare : List ℕ) → (IsBare text bare ↔ IsWithoutComments text bare) }
{}

/// States that the text without comments is as long as the text.
pub fn length_law()
    ensures { (text new : List ℕ) → IsWithoutComments text new → length new ≡ length text }
{}

/// States that exactly the texts without comments and trailing commas are unchanged.
pub fn unchanged_law()
    ensures { (text new : List ℕ) → IsWithoutComments text new → ((new ≡ text) ↔ IsPlain text) }
{}

/// States that a text without comments and trailing commas is its own text without comments.
pub fn plain_law()
    ensures { (text : List ℕ) → IsPlain text → IsWithoutComments text text }
{}

/// States that a text without comments has none: to take them out again changes nothing.
pub fn twice_law()
    ensures { (text new newer : List ℕ)
        → IsWithoutComments text new → IsWithoutComments new newer → newer ≡ new }
{}

/// States that a text which `json` or `serde_json` reads has no comment and no trailing comma, so that
/// it is unchanged.
pub fn json_text_law()
    ensures json { (text : List ℕ) (j : Json) → document text ≡ Some j → IsPlain text }
    ensures read { (text : List ℕ) (d : Data) → read text ≡ Some d → IsPlain text }
{}
