//! The text of one child of an array or an object.
ghost use Rattle.std.specs.Prelude.{◌≡◌, ◌++◌, Some, OnOk, IfOk, IfSome, IsTrue, option_map};
ghost use Rattle.json.specs.Lex.{tokens};
ghost use Rattle.serde_json.specs.Data.{Data, string};
ghost use Rattle.serde_json.specs.Read.{read};
ghost use Rattle.jsonptr_text_check.specs.Alike.{HasTokensIf};
ghost use Rattle.jsonptr_text_check.specs.Child.{IsValueText, HaveOneComma, IsOneChild, IsReadAs};
ghost use Rattle.jsonptr_text_check.specs.PrivateChild.{IsNameIf, IsCutChild};

use crate::check_error::CheckError;
use crate::same::same_text;
use json::{Reader, Scratch, Token};
use jsonptr_text_piece::buffers::Buffers;
use jsonptr_text_piece::child::{Child, trimmed_end};
use jsonptr_text_piece::cut::cut_at;
use jsonptr_text_piece::spacing::{is_blank, is_colon, is_comma, is_trimmed};
use jsonptr_text_search::decide::is_text;
use jsonptr_text_search::skip::skip;
use jsonptr_value::MAX_DEPTH;
use std::alloc::AllocError;

/// A text of one child of an array or an object, in its parts. It borrows the text.
#[derive(Clone, Copy, Debug, Drop)]
pub struct ChildText<'t> {
    /// What is before the child: white space, and perhaps a comma.
    pub lead: &'t str,
    /// The name of a member, and the colon with white space around it. It is empty for an element.
    pub name: &'t str,
    /// The text of the value.
    pub value: &'t str,
    /// What is after the child: white space, and perhaps a comma.
    pub trail: &'t str,
}

/// Returns the parts of the text, or `None` if it is not that of one child, with at most one comma and white
/// space beside it. A member has the key. If a value is given, which is JSON text, that of the child has the
/// same tokens. `child` says where the child is in the text.
///
/// # Errors
///
/// [`AllocError`] if there is no memory for the unescaped strings of a text.
///
/// # Examples
///
/// ```rust
/// let mut buffers = Buffers::new(alloc);
/// let child = Child { span: Span { from: 2, to: 9 }, value: 8 };
/// let parts = one_child(&mut buffers, ", \"a\" : 1", child, Some("a"), None)?.ok_or("a child")?;
/// assert_eq!(rt; (parts.name, parts.value, parts.trail), ("\"a\" : ", "1", ""));
/// ```
pub fn one_child<'t>(
    buffers: &mut Buffers,
    text: &'t str,
    child: Child,
    key: Option<&str>,
    json: Option<&str>,
) -> Result<Option<ChildText<'t>>, AllocError>
    ensures whole { IfOk result (λ found. IfSome found (λ parts. text.entry.now
        ≡ parts.lead.now ++ (parts.name.now ++ (parts.value.now ++ parts.trail.now)))) }
    ensures child { IfOk result (λ found. IfSome found (λ parts. (e : Data)
        × IsReadAs (option_map (λ v. v.now) json.entry) e
        × IsCutChild (option_map (λ k. k.now) key.entry) e text.entry.now parts.value.now parts.trail.now)) }
    ensures same { IfOk result (λ found. IfSome found (λ parts.
        HasTokensIf (option_map (λ v. v.now) json.entry) parts.value.now)) }
{
    let Some(parts) = cut_at(text, child.span.from, child.span.to) else {
        return Ok(None);
    };
    if !have_one_comma(parts.before, parts.after) {
        return Ok(None);
    }
    let from = child.value.saturating_sub(child.span.from);
    let Some(child) = named_value(&mut buffers.old, parts.middle, from, key)? else {
        return Ok(None);
    };
    if !is_value(buffers, child.value, json)? {
        return Ok(None);
    }
    Ok(Some(ChildText {
        lead: parts.before,
        name: child.name,
        value: child.value,
        trail: parts.after,
    }))
}

/// Returns whether the text is that of one child, as [`one_child`] does.
///
/// # Errors
///
/// [`AllocError`] if there is no memory for the unescaped strings of a text.
pub fn is_one_child(
    buffers: &mut Buffers,
    text: &str,
    child: Child,
    key: Option<&str>,
    json: Option<&str>,
) -> Result<bool, AllocError>
    ensures { IfOk result (λ b. IsTrue b → (e : Data)
        × IsReadAs (option_map (λ v. v.now) json.entry) e
        × IsOneChild (option_map (λ k. k.now) key.entry) e text.now) }
{
    match one_child(buffers, text, child, key, json)? {
        Some(_) => Ok(true),
        None => Ok(false),
    }
}

/// Returns whether both texts are white space, except for at most one comma in one of them.
///
/// # Examples
///
/// ```rust
/// assert!(rt; have_one_comma(" ", ", ") && !have_one_comma(",", ","));
/// ```
pub fn have_one_comma(lead: &str, trail: &str) -> bool
    ensures { IsTrue result → HaveOneComma lead.now trail.now }
{
    if is_blank(lead) {
        is_blank(trail) || is_comma(trail)
    } else {
        is_comma(lead) && is_blank(trail)
    }
}

/// A child without what is beside it. It borrows the text.
#[derive(Clone, Copy, Debug, Drop)]
struct NamedValue<'t> {
    /// The name of a member, and the colon with white space around it.
    name: &'t str,
    /// The text of the value.
    value: &'t str,
}

/// Returns the text cut before its value, which begins at the offset, or `None` if the name before it is not
/// that of a member with the key. Without a key all of it is the value.
fn named_value<'t>(
    scratch: &mut Scratch,
    text: &'t str,
    from: usize,
    key: Option<&str>,
) -> Result<Option<NamedValue<'t>>, AllocError>
    ensures whole { IfOk result (λ found. IfSome found
        (λ child. text.entry.now ≡ child.name.now ++ child.value.now)) }
    ensures named { IfOk result (λ found. IfSome found
        (λ child. IsNameIf (option_map (λ k. k.now) key.entry) child.name.now)) }
{
    let Some(key) = key else {
        return Ok(Some(NamedValue {
            name: "",
            value: text,
        }));
    };
    let Some((name, value)) = text.split_at_checked(from) else {
        return Ok(None);
    };
    if is_member_name(scratch, name, key)? {
        Ok(Some(NamedValue { name, value }))
    } else {
        Ok(None)
    }
}

/// Returns whether the text is the name of a member with the key, and a colon with white space around it.
fn is_member_name(scratch: &mut Scratch, text: &str, key: &str) -> Result<bool, AllocError>
    ensures { IfOk result (λ b. IsTrue b → IsNameIf (Some key.now) text.now) }
{
    let bytes = text.as_bytes();
    let colon = trimmed_end(bytes, text.len()).saturating_sub(1);
    let Some((name, rest)) = text.split_at_checked(trimmed_end(bytes, colon)) else {
        return Ok(false);
    };
    Ok(is_colon(rest) && is_name(scratch, name, key)?)
}

/// Returns whether the text is a string with this content, without white space around it.
///
/// # Errors
///
/// [`AllocError`] if there is no memory for the unescaped string.
///
/// # Examples
///
/// ```rust
/// let mut scratch = Scratch::new(alloc);
/// assert!(rt; is_name(&mut scratch, r#""\u0061""#, "a")?);
/// assert!(rt; !is_name(&mut scratch, r#" "a""#, "a")?);
/// ```
pub fn is_name(scratch: &mut Scratch, text: &str, key: &str) -> Result<bool, AllocError>
    ensures { IfOk result (λ b. IsTrue b → IsValueText (string key.now) text.now) }
{
    Ok(is_string(scratch, text, key)? && is_trimmed(text))
}

/// Returns whether the text is a string with this content.
fn is_string(scratch: &mut Scratch, text: &str, content: &str) -> Result<bool, AllocError>
    ensures { IfOk result (λ b. IsTrue b → read text.now ≡ Some (string content.now)) }
{
    let mut reader = Reader::new(text, scratch)?;
    let Some(Token::String(found)) = reader.next() else {
        return Ok(false);
    };
    if reader.next().is_some() {
        return Ok(false);
    }
    Ok(is_text(found, content))
}

/// Returns whether the text is that of a value, without white space around it: of the value of the
/// other text, if one is given.
fn is_value(buffers: &mut Buffers, text: &str, json: Option<&str>) -> Result<bool, AllocError>
    ensures value { IfOk result (λ b. IsTrue b → (e : Data)
        × IsReadAs (option_map (λ v. v.now) json.entry) e × IsValueText e text.now) }
    ensures same { IfOk result
        (λ b. IsTrue b → HasTokensIf (option_map (λ v. v.now) json.entry) text.now) }
{
    match json {
        Some(json) => is_value_of(buffers, text, json),
        None => is_some_value(&mut buffers.old, text),
    }
}

/// Returns whether the text is that of a value, without white space around it.
fn is_some_value(scratch: &mut Scratch, text: &str) -> Result<bool, AllocError>
    ensures { IfOk result (λ b. IsTrue b → (e : Data) × IsValueText e text.now) }
{
    match pass(scratch, text) {
        Ok(()) => Ok(is_trimmed(text)),
        Err(CheckError::Mismatch) => Ok(false),
        Err(CheckError::Memory(error)) => Err(error),
    }
}

/// Returns whether the text has the same tokens as the other one, which is that of a value, and no
/// white space around them.
///
/// # Errors
///
/// [`AllocError`] if there is no memory for the unescaped strings of a text.
///
/// # Examples
///
/// ```rust
/// let mut buffers = Buffers::new(alloc);
/// assert!(rt; is_value_of(&mut buffers, "[1,2]", "[1, 2]")?);
/// assert!(rt; !is_value_of(&mut buffers, " 1", "1")? && !is_value_of(&mut buffers, "1.0", "1")?);
/// ```
pub fn is_value_of(buffers: &mut Buffers, text: &str, other: &str) -> Result<bool, AllocError>
    ensures value { IfOk result (λ b. IsTrue b → (e : Data) × (read other.now ≡ Some e)
        × IsValueText e text.now) }
    ensures same { IfOk result (λ b. IsTrue b → tokens text.now ≡ tokens other.now) }
{
    match pass_both(buffers, text, other) {
        Ok(()) => Ok(is_trimmed(text)),
        Err(CheckError::Mismatch) => Ok(false),
        Err(CheckError::Memory(error)) => Err(error),
    }
}

/// Passes over the value that the text is.
///
/// # Errors
///
/// [`CheckError::Mismatch`] if `serde_json` does not read the text, and [`CheckError::Memory`] if
/// an allocation fails.
fn pass(scratch: &mut Scratch, text: &str) -> Result<(), CheckError>
    ensures { OnOk result ((d : Data) × (read text.now ≡ Some d)) }
{
    let mut reader = Reader::new(text, scratch)?;
    skip(&mut reader, MAX_DEPTH)?;
    if reader.next().is_some() {
        return Err(CheckError::Mismatch);
    }
    Ok(())
}

/// Passes over the value that both texts are.
///
/// # Errors
///
/// As [`pass`], and [`CheckError::Mismatch`] if the texts are not of one value.
fn pass_both(buffers: &mut Buffers, text: &str, other: &str) -> Result<(), CheckError>
    ensures read { OnOk result ((d : Data) × (read text.now ≡ Some d) × (read other.now ≡ Some d)) }
    ensures same { OnOk result (tokens text.now ≡ tokens other.now) }
{
    let mut reader = Reader::new(text, &mut buffers.old)?;
    same_text(&mut buffers.value, &mut reader, MAX_DEPTH, other)?;
    if reader.next().is_some() {
        return Err(CheckError::Mismatch);
    }
    Ok(())
}
