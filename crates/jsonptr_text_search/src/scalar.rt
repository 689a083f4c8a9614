//! The tokens that are whole values.
ghost use Rattle.std.specs.Prelude.{◌≡◌, is_some};
ghost use Rattle.serde_json.specs.Read.{number_of};
ghost use Rattle.json.specs.Reads.{token_of};
ghost use Rattle.jsonptr_text_search.specs.PrivateReading.{scalar_of};

use crate::number::parse_number;
use json::Token;

/// Returns whether the token is a whole value that `serde_json` reads.
///
/// # Examples
///
/// ```rust
/// let mut scratch = Scratch::new(alloc);
/// let mut reader = Reader::new("[null, 1e999]", &mut scratch)?;
/// for expected in [false, true, false] {
///     assert_eq!(rt; reader.next().map(|token| is_scalar(token)), Some(expected));
/// }
/// ```
#[tactic(auto, using(crate::proofs::ReadingLemmas::mapped_is_some))]
#[inline(always)]
pub fn is_scalar(token: Token<'_>) -> bool
    ensures { result ≡ is_some (scalar_of (token_of token.entry)) }
{
    match token {
        Token::String(_) => true,
        Token::Number(text) => is_in_range(text),
        Token::Bool(_) => true,
        Token::Null => true,
        Token::BeginObject => false,
        Token::EndObject => false,
        Token::BeginArray => false,
        Token::EndArray => false,
        Token::Key(_) => false,
        Token::Bad => false,
    }
}

/// Returns whether `serde_json` reads this number: as an integer of 64 bits or a finite float.
fn is_in_range(number: &str) -> bool
    ensures { result ≡ is_some (number_of number.now) }
{
    parse_number(number).is_some()
}
