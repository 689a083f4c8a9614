//! Calls on tokens, on indices, and on texts that become one.
use crate::out::Out;
use crate::words::Words;
use jsonptr::index::{Index, IntegerCause, OutOfBoundsError, ParseIndexError};
use jsonptr::token::Number;
use jsonptr::{PointerBuf, Token};
use std::str::FromStr;

/// Makes a call that borrows a token.
pub fn read(out: &mut Out<'_>, call: &str, token: &Token<'_>) {
    match call {
        "encoded" => out.said(token.encoded()),
        "decoded" => out.result(token.decoded(out.alloc())),
        "to_owned" => out.made(token.to_owned(out.alloc())),
        "to_index" => out.result(token.to_index()),
        "Index::try_from" => out.result(Index::try_from(token)),
        "is_next" => out.said(token.is_next()),
        "display" => out.said(token),
        "index" => index(out, &token.to_index()),
        _ => out.unknown(),
    }
}

/// Compares two tokens.
pub fn compare(out: &mut Out<'_>, call: &str, token: &Token<'_>, other: &Token<'_>) {
    match call {
        "==" => out.said(token == other),
        "cmp" => out.order(token.cmp(other)),
        _ => out.unknown(),
    }
}

/// Makes a call that takes a token.
pub fn take(out: &mut Out<'_>, call: &str, token: Token<'_>) {
    match call {
        "into_encoded" => out.said(token.into_encoded()),
        "into_owned" => out.made(token.into_owned(out.alloc())),
        "clone" => out.made(token.clone()),
        "Index::try_from" => out.result(Index::try_from(token)),
        "PointerBuf::from_token" => out.result(PointerBuf::from_token(out.alloc(), token)),
        _ => out.unknown(),
    }
}

/// Writes an index as a field: the kind of index, or of error.
pub fn index(out: &mut Out<'_>, index: &Result<Index, ParseIndexError>) {
    match index {
        Ok(Index::Num(number)) => {
            out.show("Num(");
            out.show(number);
            out.show(")");
        }
        Ok(Index::Next) => out.show("Next"),
        Err(error) => cause(out, error),
    }
}

/// Writes why a text is not an index.
pub fn cause(out: &mut Out<'_>, error: &ParseIndexError) {
    match error {
        ParseIndexError::InvalidInteger(IntegerCause::Empty) => out.show("Empty"),
        ParseIndexError::InvalidInteger(IntegerCause::Overflow) => out.show("Overflow"),
        ParseIndexError::LeadingZeros => out.show("LeadingZeros"),
        ParseIndexError::InvalidCharacter(error) => {
            out.show("InvalidCharacter(");
            out.show(error.offset());
            out.show(")");
        }
    }
}

/// Makes the token of a number, whose type the first word names before a colon.
pub fn number(out: &mut Out<'_>, mut words: Words<'_>) {
    let (kind, digits) = words.next().split_once(':').unwrap_or(("", ""));
    match kind {
        "i8" => token_of::<i8>(out, digits),
        "i16" => token_of::<i16>(out, digits),
        "i32" => token_of::<i32>(out, digits),
        "i64" => token_of::<i64>(out, digits),
        "i128" => token_of::<i128>(out, digits),
        "isize" => token_of::<isize>(out, digits),
        _ => unsigned(out, kind, digits),
    }
}

/// Makes the token of a number of an unsigned type.
fn unsigned(out: &mut Out<'_>, kind: &str, digits: &str) {
    match kind {
        "u8" => token_of::<u8>(out, digits),
        "u16" => token_of::<u16>(out, digits),
        "u32" => token_of::<u32>(out, digits),
        "u64" => token_of::<u64>(out, digits),
        "u128" => token_of::<u128>(out, digits),
        "usize" => token_of::<usize>(out, digits),
        _ => pointer_of(out, digits),
    }
}

/// Makes the token of a number of some type.
fn token_of<N: Number + FromStr>(out: &mut Out<'_>, digits: &str)
where
    N::Err: Drop,
{
    let Some(number) = digits.parse::<N>().ok() else {
        return out.unknown();
    };
    out.begin();
    out.made(Token::from_number(out.alloc(), number))
}

/// Makes the pointer whose one token is a number.
fn pointer_of(out: &mut Out<'_>, digits: &str) {
    match digits.parse() {
        Ok(number) => {
            out.begin();
            out.result(PointerBuf::from_usize(out.alloc(), number))
        }
        Err(_) => out.unknown(),
    }
}

/// Makes a call on the index that the first word is, and a length.
pub fn bounds(out: &mut Out<'_>, call: &str, mut words: Words<'_>) {
    if let Ok(index) = words.next().parse::<Index>() {
        match words.number() {
            Some(length) => within(out, call, index, length),
            None => out.unknown(),
        }
    }
}

/// Makes a call on an index and a length.
fn within(out: &mut Out<'_>, call: &str, index: Index, length: usize) {
    out.begin();
    match call {
        "for_len" => place(out, index.for_len(length)),
        "for_len_incl" => place(out, index.for_len_incl(length)),
        "for_len_unchecked" => out.said(index.for_len_unchecked(length)),
        _ => out.unknown(),
    }
}

/// Writes an index within bounds, or the error, in a field after its numbers.
fn place(out: &mut Out<'_>, place: Result<usize, OutOfBoundsError>) {
    if let (false, Err(OutOfBoundsError { index, length })) = (out.is_case(), &place) {
        out.show("OutOfBounds(");
        out.show(index);
        out.show(",");
        out.show(length);
        out.show(") ");
    }
    out.result(place)
}
