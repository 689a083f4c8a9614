//! Tokens that are equal.
ghost use Rattle.std.specs.Prelude.{◌≡◌, IsTrue};
ghost use Rattle.json.specs.Reads.{token_of};

use json::Token;

/// Returns whether the tokens are equal.
#[inline(always)]
pub fn is_same(token: Token<'_>, twin: Token<'_>) -> bool
    ensures { IsTrue result → token_of twin.entry ≡ token_of token.entry }
{
    match (token, twin) {
        (Token::Key(text), Token::Key(other)) => text == other,
        (Token::String(text), Token::String(other)) => text == other,
        (Token::Number(text), Token::Number(other)) => text == other,
        (Token::Bool(value), Token::Bool(other)) => value == other,
        (Token::BeginObject, Token::BeginObject) => true,
        (Token::EndObject, Token::EndObject) => true,
        (Token::BeginArray, Token::BeginArray) => true,
        (Token::EndArray, Token::EndArray) => true,
        (Token::Null, Token::Null) => true,
        _ => false,
    }
}
