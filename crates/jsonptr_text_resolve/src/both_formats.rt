//! The tokens of a text in both formats.
ghost use Rattle.std.specs.Prelude.{◌≡◌, ◌++◌, None, false, IfOk, IfSome, IsTrue, string_bytes};
ghost use Rattle.serde_json.specs.Read.{read};
ghost use Rattle.jsonptr_text_resolve.specs.Format.{HasTokensOf};
ghost use Rattle.jsonptr_text_resolve.specs.PrivateFormat.{HasBad};
ghost use Rattle.jsonptr_text_resolve.specs.declared.format.Format.TheVariants.{Compact, Pretty as Lines};

use json::{Pretty, Reader, Scratch, Token, Writer};
use std::alloc::{AllocError, Global};

/// The tokens of a text, in each [`Format`](crate::Format).
#[derive(Debug, Drop)]
pub struct BothFormats {
    /// In [`Format::Compact`](crate::Format::Compact).
    pub compact: String,
    /// In [`Format::Pretty`](crate::Format::Pretty).
    pub pretty: String,
}

/// Returns the tokens of the text in both formats, or `None` if one of them is bad.
///
/// Both are those of [`format_text`](crate::format_text), if the text is JSON. Reads the text once, and
/// does not see whether it is JSON, unless a token is bad: [`is_document`](crate::is_document) does.
///
/// The scratch is that of any earlier call, also of one that failed.
///
/// # Errors
///
/// [`AllocError`] if an allocation fails.
///
/// # Examples
///
/// ```rust
/// let mut scratch = Scratch::new(alloc);
/// let both = format_both(alloc, &mut scratch, "{\"b\": 1.10}\n")?.ok_or("tokens")?;
/// assert_eq!(rt; both.compact.as_str(), "{\"b\":1.10}");
/// assert_eq!(rt; both.pretty.as_str(), "{\n  \"b\": 1.10\n}");
/// assert!(rt; format_both(alloc, &mut scratch, "{\"b\": x}")?.is_none());
/// ```
pub fn format_both(
    alloc: Global,
    scratch: &mut Scratch,
    text: &str,
) -> Result<Option<BothFormats>, AllocError>
    ensures compact { IfOk result (λ o. IfSome o
        (λ both. HasTokensOf Compact text.now (string_bytes both.compact))) }
    ensures pretty { IfOk result (λ o. IfSome o
        (λ both. HasTokensOf Lines text.now (string_bytes both.pretty))) }
    ensures refused { IfOk result (λ o. o ≡ None → read text.now ≡ None) }
{
    let mut reader = Reader::new(text, scratch)?;
    let mut compact = Writer::new(Vec::new(alloc));
    let mut pretty = Pretty::new(alloc);
    let whole = copy_to_both(&mut reader, &mut compact, &mut pretty)?;
    if !whole {
        return Ok(None);
    }
    // SAFETY: the bytes of both writers are UTF-8, which the prover checks.
    let compact = unsafe { String::from_utf8_unchecked(compact.into_inner()) };
    // SAFETY: the same.
    let pretty = unsafe { String::from_utf8_unchecked(pretty.into_inner()) };
    Ok(Some(BothFormats { compact, pretty }))
}

/// Writes the tokens that are left to both writers. Returns `false` at a bad one.
fn copy_to_both(
    reader: &mut Reader<'_>,
    compact: &mut Writer,
    pretty: &mut Pretty,
) -> Result<bool, AllocError>
    ensures compact { IfOk result (λ whole. IsTrue whole
        → compact.new.tokens ≡ compact.old.tokens ++ reader.old) }
    ensures pretty { IfOk result (λ whole. IsTrue whole → pretty.new ≡ pretty.old ++ reader.old) }
    ensures bad { IfOk result (λ whole. whole ≡ false → HasBad reader.old) }
    ensures before { compact.new.before ≡ compact.old.before }
{
    while let Some(token) = reader.next() {
        if matches!(token, Token::Bad) {
            return Ok(false);
        }
        compact.token(token)?;
        pretty.token(token)?;
    }
    Ok(true)
}
