//! Laws of the grammar: the texts of its rules are those of tokens and of lists of tokens.

ghost use Rattle.std.specs.Prelude.{◌≡◌, ◌↔◌, ℕ, ◌≢◌, ◌⊎◌, List, [], ◌∷◌, ◌++◌, All, slice_index};
ghost use Rattle.jsonptr_grammar.specs.Text.{Text, esc, unesc, text, tokens_of};
ghost use Rattle.jsonptr_grammar.specs.Grammar.{IsToken, IsPointer};

/// The reference tokens of RFC 6901, section 3, are exactly the encoded texts, each of one decoded
/// text. Decoding undoes encoding, and encoding undoes decoding a token.
pub fn token_law()
    ensures token { (t : Text) → IsToken t ↔ ((s : Text) × (esc s ≡ t)) }
    ensures one { (s t : Text) → esc s ≡ esc t → s ≡ t }
    ensures decoded { (s : Text) → unesc (esc s) ≡ s }
    ensures encoded { (t : Text) → IsToken t → esc (unesc t) ≡ t }
    ensures no_slash { (t : Text) → IsToken t → All (λ b. b ≢ 47) t }
{}

/// The JSON Pointers of RFC 6901, section 3, are exactly the texts of lists of tokens, each of one
/// list. Reading the tokens of a text and writing the text of tokens undo each other.
pub fn pointer_law()
    ensures pointer { (s : Text) → IsPointer s ↔ ((ts : List Text) × (text ts ≡ s)) }
    ensures one { (ts us : List Text) → text ts ≡ text us → ts ≡ us }
    ensures tokens { (ts : List Text) → tokens_of (text ts) ≡ ts }
    ensures texts { (s : Text) → IsPointer s → text (tokens_of s) ≡ s }
    ensures append { (ts us : List Text) → text (ts ++ us) ≡ text ts ++ text us }
    ensures root { (s : Text) → IsPointer s → (s ≡ []) ⊎ (slice_index s 0 ≡ 47) }
{}
