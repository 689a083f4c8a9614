//! Laws of tokens and indices.
ghost use Rattle.std.specs.Prelude.{◌≡◌, ◌⊎◌, ◌↔◌, ◌<◌, ◌^◌, ◌∷◌, ◌++◌, ℕ, IsTrue, IsUtf8, Result};
ghost use Rattle.std.specs.Hash as fed;
ghost use Rattle.std.specs.Ordering.{nat_cmp};
ghost use Rattle.std.specs.Cmp.Lexicographic.{slice_cmp};
ghost use Rattle.std.specs.declared.cmp.Ordering.TheVariants.{Less, Equal, Greater};
ghost use Rattle.jsonptr_grammar.specs.Text.{Text, esc};
ghost use Rattle.jsonptr_grammar.specs.Grammar.{IsToken};
ghost use Rattle.jsonptr_base.specs.Index.{IsWithin, IsWithinOrNext, Reads, index_text};
ghost use Rattle.jsonptr_base.specs.Token.{IsEncodingErrorOf};
ghost use Rattle.jsonptr_base.specs.declared.index.Index.{Index};
ghost use Rattle.jsonptr_base.specs.declared.index.Index.TheVariants.{Num, Next};
ghost use Rattle.jsonptr_base.specs.declared.index.IntegerCause.{IntegerCause};
ghost use Rattle.jsonptr_base.specs.declared.index.OutOfBoundsError.{OutOfBoundsError};
ghost use Rattle.jsonptr_base.specs.declared.index.ParseIndexError.{ParseIndexError};
ghost use Rattle.jsonptr_base.specs.declared.token.EncodingError.{EncodingError};
ghost use Rattle.jsonptr_base.specs.declared.token.InvalidEncoding.{InvalidEncoding};

use crate::index::{Index, IntegerCause, InvalidCharacterError, OutOfBoundsError, ParseIndexError};
use crate::token::{EncodingError, InvalidEncoding, Token};
use std::hash::Hash;

/// Each text either is a reference token (RFC 6901, section 3) or has a first fault, and never
/// both. The first fault fixes all fields of the error.
pub fn encoding_law()
    ensures some { (t : Text) → IsToken t ⊎ ((e : EncodingError) × IsEncodingErrorOf t e) }
    ensures not_both { (t : Text) (e : EncodingError) → IsToken t → IsEncodingErrorOf t e → ⊥ }
    ensures one { (t : Text) (e f : EncodingError)
        → IsEncodingErrorOf t e → IsEncodingErrorOf t f → e ≡ f }
{}

/// Tokens are equal exactly if their decoded texts are. Their order is that of their encoded texts
/// by bytes, in which only equal tokens tie, and their hash is that of their encoded text.
///
/// A token is less than one whose decoded text continues after it. The encoded text then continues
/// as well, since each byte is encoded by itself.
pub fn token_order_law()
    ensures tie { (s t : Text) → (⟦<Token<'static> as Ord>⟧.cmp s t ≡ Equal) ↔ (s ≡ t) }
    ensures equal { (s t : Text) → IsTrue (⟦<Token<'static> as PartialEq>⟧.eq s t) ↔ (s ≡ t) }
    ensures order { (s t : Text)
        → ⟦<Token<'static> as Ord>⟧.cmp s t ≡ slice_cmp nat_cmp (esc s) (esc t) }
    ensures front { (s rest : Text) (b : ℕ)
        → ⟦<Token<'static> as Ord>⟧.cmp s (s ++ b ∷ rest) ≡ Less }
    ensures hash { (s : Text) → ⟦<Token<'static> as Hash>⟧.hash_input s ≡ fed.str (esc s) }
{}

/// Reading a text as an array index (RFC 6901, section 4) is a function of the text.
///
/// Each text reads as exactly one index or exactly one error. The encoded text of a token reads as
/// its decoded text does. The text of an index is the only text that reads as it.
pub fn index_law()
    ensures one { (s : Text) (r q : Result Index ParseIndexError) → Reads s r → Reads s q → r ≡ q }
    ensures some { (s : Text) → IsUtf8 s → (r : Result Index ParseIndexError) × Reads s r }
    ensures escape { (s : Text) → IsUtf8 s
        → (r : Result Index ParseIndexError) → Reads s r ↔ Reads (esc s) r }
    ensures shown { (s : Text) (index : Index) → Reads s (Ok index) → index_text index ≡ s }
    ensures read_number { (n : ℕ) → n < 2 ^ 64 → Reads (index_text (Num n)) (Ok (Num n)) }
    ensures read_next { Reads (index_text Next) (Ok Next) }
{}

/// Indices are ordered by number, and each number is less than [`Index::Next`].
pub fn index_order_law()
    ensures numbers { (i j : ℕ) → ⟦<Index as Ord>⟧.cmp (Num i) (Num j) ≡ nat_cmp i j }
    ensures before_next { (i : ℕ) → ⟦<Index as Ord>⟧.cmp (Num i) Next ≡ Less }
    ensures next { (i : ℕ) → ⟦<Index as Ord>⟧.cmp Next (Num i) ≡ Greater }
    ensures tie { (i j : Index) → (⟦<Index as Ord>⟧.cmp i j ≡ Equal) ↔ (i ≡ j) }
    ensures equal { (i j : Index) → IsTrue (⟦<Index as PartialEq>⟧.eq i j) ↔ (i ≡ j) }
{}

/// For each index and length, [`Index::for_len`] and [`Index::for_len_incl`] have exactly one
/// result.
pub fn bounds_law()
    ensures within { (index : Index) (len : ℕ)
        → (r : Result ℕ OutOfBoundsError) × IsWithin index len r }
    ensures one_within { (index : Index) (len : ℕ) (r q : Result ℕ OutOfBoundsError)
        → IsWithin index len r → IsWithin index len q → r ≡ q }
    ensures or_next { (index : Index) (len : ℕ)
        → (r : Result ℕ OutOfBoundsError) × IsWithinOrNext index len r }
    ensures one_or_next { (index : Index) (len : ℕ) (r q : Result ℕ OutOfBoundsError)
        → IsWithinOrNext index len r → IsWithinOrNext index len q → r ≡ q }
{}

/// Two errors of a token's text are equal exactly if they have the same offset and the same cause.
pub fn encoding_error_law()
    ensures error { (e f : EncodingError) → IsTrue (⟦<EncodingError as PartialEq>⟧.eq e f)
        ↔ (e ≡ f) }
    ensures cause { (e f : InvalidEncoding) → IsTrue (⟦<InvalidEncoding as PartialEq>⟧.eq e f)
        ↔ (e ≡ f) }
{}

/// Two errors of an index are equal exactly if they are the same error with the same fields.
pub fn index_error_law()
    ensures bounds { (e f : OutOfBoundsError)
        → IsTrue (⟦<OutOfBoundsError as PartialEq>⟧.eq e f) ↔ (e ≡ f) }
    ensures parse { (e f : ParseIndexError) → IsTrue (⟦<ParseIndexError as PartialEq>⟧.eq e f)
        ↔ (e ≡ f) }
    ensures cause { (e f : IntegerCause) → IsTrue (⟦<IntegerCause as PartialEq>⟧.eq e f) ↔ (e ≡ f) }
    ensures character { (e f : ℕ) → IsTrue (⟦<InvalidCharacterError as PartialEq>⟧.eq e f)
        ↔ (e ≡ f) }
{}
