//! Laws of parse errors.
ghost use Rattle.std.specs.Prelude.{◌≡◌, ◌≢◌, ◌⊎◌, ◌↔◌, ◌+◌, ◌<◌, ◌∷◌, length, All, IsTrue};
ghost use Rattle.jsonptr_grammar.specs.Text.{Text};
ghost use Rattle.jsonptr_grammar.specs.Grammar.{IsPointer};
ghost use Rattle.jsonptr_base.specs.Token.{IsEncodingErrorOf};
ghost use Rattle.jsonptr_base.specs.declared.token.EncodingError.{EncodingError};
ghost use Rattle.jsonptr_syntax.specs.ParseError.{IsParseErrorOf, pointer_offset_of, source_offset_of};
ghost use Rattle.jsonptr_syntax.specs.declared.parse_error.ParseError.{ParseError};
ghost use Rattle.jsonptr_syntax.specs.declared.parse_error.ParseError.TheVariants.{InvalidEncoding};

use crate::parse_error::ParseError;

/// Each text either is a pointer (RFC 6901, section 3) or has a first fault, and never both. The
/// first fault fixes all fields of the error, and its offset is within the text.
pub fn parse_law()
    ensures some { (s : Text) → IsPointer s ⊎ ((e : ParseError) × IsParseErrorOf s e) }
    ensures not_both { (s : Text) (e : ParseError) → IsPointer s → IsParseErrorOf s e → ⊥ }
    ensures one { (s : Text) (e f : ParseError)
        → IsParseErrorOf s e → IsParseErrorOf s f → e ≡ f }
    ensures inside { (s : Text) (e : ParseError) → IsParseErrorOf s e
        → pointer_offset_of e + source_offset_of e < length s }
{}

/// For a text without `/`, the error of
/// [`Token::from_encoded`](jsonptr_base::token::Token::from_encoded) is the `source` of the error
/// of the pointer that consists of a `/` and that text.
pub fn source_law()
    ensures { (t : Text) (e : EncodingError) → All (λ b. b ≢ 47) t → IsEncodingErrorOf t e
        → IsParseErrorOf (47 ∷ t) (InvalidEncoding 0 e) }
{}

/// Two parse errors are equal exactly if they are the same error with the same fields.
pub fn parse_error_law()
    ensures { (e f : ParseError) → IsTrue (⟦<ParseError as PartialEq>⟧.eq e f) ↔ (e ≡ f) }
{}
