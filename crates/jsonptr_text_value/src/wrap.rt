//! Path expansion of a value in its text.
ghost use Rattle.std.specs.Prelude.{◌≡◌, ◌∷◌, ◌++◌, [], IfOk, IfSome, IsTrue, string_bytes};
ghost use Rattle.json.specs.Lex.{tokens as lexed};
ghost use Rattle.json.specs.Token.{begin_object, end_object, begin_array, end_array, key as a_key};
ghost use Rattle.jsonptr.specs.Pointer.{tokens};
ghost use Rattle.jsonptr_text_value.specs.Wrapping.{wrapped};
ghost use Rattle.jsonptr.specs.Expansion.{is_append_index};

use json::{Reader, Scratch, Token as JsonToken, Writer};
use jsonptr::{Pointer, Token};
use std::alloc::{AllocError, Global};

/// Returns the text expanded by the tokens of the pointer: within an array for each token `-` or `0`,
/// and within an object for each other one. Returns `None` if the text is not JSON.
///
/// The tokens of the text are unchanged, one for one. Each token of the pointer takes one more copy.
///
/// # Errors
///
/// [`AllocError`] if an allocation fails.
pub fn expanded(
    alloc: Global,
    scratch: &mut Scratch,
    text: &str,
    pointer: Pointer<'_>,
) -> Result<Option<String>, AllocError>
    ensures { IfOk result (λ o. IfSome o
        (λ s. lexed (string_bytes s) ≡ wrapped (tokens pointer.entry) (lexed text.now))) }
{
    let mut left = pointer;
    let mut current = String::from_str(alloc, text)?;
    'tokens: while let Some((front, token)) = left.split_back() {
        let Some(outer) = wrap(alloc, scratch, current.as_str(), &token)? else {
            return Ok(None);
        };
        current = outer;
        left = front;
    }
    Ok(Some(current))
}

/// Returns the text within an array or an object, whose only child the token names.
fn wrap(
    alloc: Global,
    scratch: &mut Scratch,
    text: &str,
    token: &Token<'_>,
) -> Result<Option<String>, AllocError>
    ensures { IfOk result (λ o. IfSome o
        (λ s. lexed (string_bytes s) ≡ wrapped (token.now ∷ []) (lexed text.now))) }
{
    let key = token.decoded(alloc)?;
    let mut reader = Reader::new(text, scratch)?;
    let mut out = Writer::new(Vec::new(alloc));
    let is_whole = if creates_array(&key) {
        write_array(&mut reader, &mut out)?
    } else {
        write_object(&mut reader, &mut out, &key)?
    };
    if !is_whole {
        return Ok(None);
    }
    // SAFETY: the writer's bytes are UTF-8, which the prover checks.
    Ok(Some(unsafe { String::from_utf8_unchecked(out.into_inner()) }))
}

/// Returns whether the token makes an array.
fn creates_array(token: &str) -> bool
    ensures { result ≡ is_append_index 0 token.now }
{
    token == "-" || token == "0"
}

/// Writes the tokens that are left as an element. Returns `false` at a bad one.
fn write_array(reader: &mut Reader<'_>, out: &mut Writer) -> Result<bool, AllocError>
    ensures written { IfOk result (λ b. IsTrue b → out.new.tokens
        ≡ out.old.tokens ++ begin_array ∷ (reader.old ++ end_array ∷ [])) }
    ensures before { out.new.before ≡ out.old.before }
{
    out.begin_array()?;
    let is_whole = copy(reader, out)?;
    out.end_array()?;
    Ok(is_whole)
}

/// Writes the tokens that are left as a member with the key. Returns `false` at a bad one.
fn write_object(reader: &mut Reader<'_>, out: &mut Writer, key: &str) -> Result<bool, AllocError>
    ensures written { IfOk result (λ b. IsTrue b → out.new.tokens
        ≡ out.old.tokens ++ begin_object ∷ a_key key.now ∷ (reader.old ++ end_object ∷ [])) }
    ensures before { out.new.before ≡ out.old.before }
{
    out.begin_object()?;
    out.key(key)?;
    let is_whole = copy(reader, out)?;
    out.end_object()?;
    Ok(is_whole)
}

/// Writes the tokens that are left. Returns `false` at a bad one.
fn copy(reader: &mut Reader<'_>, out: &mut Writer) -> Result<bool, AllocError>
    ensures copied { IfOk result (λ b. IsTrue b → out.new.tokens ≡ out.old.tokens ++ reader.old) }
    ensures before { out.new.before ≡ out.old.before }
{
    while let Some(token) = reader.next() {
        if matches!(token, JsonToken::Bad) {
            return Ok(false);
        }
        out.token(token)?;
    }
    Ok(true)
}
