//! Laws of the two texts of a token, and of decimal texts.

ghost use Rattle.std.specs.Prelude.{◌≡◌, ◌↔◌, ℕ, map, ◌<◌, ◌≤◌, ◌*◌, ◌^◌, ◌≢◌, ◌⊎◌, List, [], ◌∷◌, ◌++◌, length, slice_index, All, IsUtf8, chars, encode_utf8_all, decimal};
ghost use Rattle.std.specs.Str.Parse.{AllDigits, digits_value};
ghost use Rattle.jsonptr_grammar.specs.Text.{Text, esc, unesc, text, tokens_of, dec};
ghost use Rattle.jsonptr_grammar.specs.Grammar.{IsToken, IsPointer};

/// The escape sequences of RFC 6901, section 3: decoding undoes encoding, and no two texts have the
/// same encoded text. Encoding respects concatenation, and it writes one or two bytes for each
/// byte.
pub fn escape_law()
    ensures decoded { (s : Text) → unesc (esc s) ≡ s }
    ensures one { (s t : Text) → esc s ≡ esc t → s ≡ t }
    ensures append { (s t : Text) → esc (s ++ t) ≡ esc s ++ esc t }
    ensures longer { (s : Text) → length s ≤ length (esc s) }
    ensures twice { (s : Text) → length (esc s) ≤ 2 * length s }
{}

/// RFC 6901, section 3, is about characters, and the definitions here are about bytes. Both agree.
///
/// Encoding commutes with UTF-8, and so does writing the text of a list of tokens. Bytes are in the
/// grammar exactly if their characters are. An encoded text is UTF-8 exactly if its decoded text
/// is, and each has the characters of the other, encoded or decoded. The tokens of a pointer in
/// UTF-8 are UTF-8.
pub fn characters_law()
    ensures bytes { (cs : List ℕ) → esc (encode_utf8_all cs) ≡ encode_utf8_all (esc cs) }
    ensures text_bytes { (ts : List (List ℕ))
        → text (map encode_utf8_all ts) ≡ encode_utf8_all (text ts) }
    ensures token { (cs : List ℕ) → IsToken (encode_utf8_all cs) ↔ IsToken cs }
    ensures pointer { (cs : List ℕ) → IsPointer (encode_utf8_all cs) ↔ IsPointer cs }
    ensures encoded { (s : Text) → IsUtf8 (esc s) ↔ IsUtf8 s }
    ensures decoded { (t : Text) → IsToken t → IsUtf8 t → IsUtf8 (unesc t) }
    ensures characters { (s : Text) → IsUtf8 s → chars (esc s) ≡ esc (chars s) }
    ensures decoded_characters { (t : Text) → IsToken t → IsUtf8 t
        → chars (unesc t) ≡ unesc (chars t) }
    ensures tokens { (s : Text) → IsPointer s → IsUtf8 s → All IsUtf8 (tokens_of s) }
{}

/// The array indices of RFC 6901, section 4: the decimal text of a number.
///
/// It has digits only, and no leading zero unless it is `0`. Each number has one such text, and
/// each text of that form is that of a number. It contains no escape sequence. For a number of 64
/// bits it is what `{n}` prints.
pub fn decimal_law()
    ensures digits { (n : ℕ) → AllDigits 10 (dec n) }
    ensures some { (n : ℕ) → 0 < length (dec n) }
    ensures leading { (n : ℕ) → slice_index (dec n) 0 ≡ 48 → (n ≡ 0) × (length (dec n) ≡ 1) }
    ensures value { (n : ℕ) → digits_value 10 (dec n) ≡ n }
    ensures one { (i j : ℕ) → dec i ≡ dec j → i ≡ j }
    ensures each { (s : Text) → AllDigits 10 s → 0 < length s
        → (slice_index s 0 ≢ 48) ⊎ (s ≡ 48 ∷ []) → s ≡ dec (digits_value 10 s) }
    ensures plain { (n : ℕ) → esc (dec n) ≡ dec n }
    ensures printed { (n : ℕ) → n < 2 ^ 64 → dec n ≡ decimal n }
{}
