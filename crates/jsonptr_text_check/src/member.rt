//! The name and the value of a member in the text of a document.
ghost use Rattle.std.specs.Prelude.{◌≡◌, ◌++◌, IfOk, IfSome};
ghost use Rattle.serde_json.specs.Data.{string};
ghost use Rattle.jsonptr_text_check.specs.Child.{IsValueText};
ghost use Rattle.jsonptr_text_piece.specs.Spacing.{IsSpaced, IsTrimmed};

use crate::one_child::is_name;
use jsonptr_text_piece::buffers::Buffers;
use jsonptr_text_piece::child::{Child, trimmed_end};
use jsonptr_text_piece::cut::{Cut, cut_at};
use jsonptr_text_piece::spacing::{is_colon, is_trimmed};
use std::alloc::AllocError;

/// A member of an object in a text, which is cut before and after its name. It borrows the text.
#[derive(Clone, Copy, Debug, Drop)]
pub struct MemberText<'t> {
    /// The text, cut before and after the name.
    pub cut: Cut<'t>,
    /// The colon after the name, with white space around it.
    pub colon: &'t str,
    /// What is after the colon: the value, and what is after it.
    pub tail: &'t str,
    /// The text of the value.
    pub value: &'t str,
    /// What is after the value.
    pub after: &'t str,
    ghost named: { cut.after.now ≡ colon.now ++ tail.now },
    ghost valued: { tail.now ≡ value.now ++ after.now },
}

/// Returns the text cut around the name of the member. Returns `None` if there is no name with this key, if
/// no colon is after it, or if there is white space around the value. `child` says where the member is.
///
/// What the value is, is not looked at.
///
/// # Errors
///
/// [`AllocError`] if there is no memory for the unescaped name.
///
/// # Examples
///
/// ```rust
/// let mut buffers = Buffers::new(alloc);
/// let child = Child { span: Span { from: 2, to: 9 }, value: 8 };
/// let found = member_in(&mut buffers, "{ \"a\" : 1 }", child, "a")?;
/// let member = found.ok_or("a member")?;
/// assert_eq!(rt; (member.cut.middle, member.colon, member.value), ("\"a\"", " : ", "1"));
/// assert!(rt; member_in(&mut buffers, "{ \"a\" : 1 }", child, "b")?.is_none());
/// ```
pub fn member_in<'t>(
    buffers: &mut Buffers,
    text: &'t str,
    child: Child,
    key: &str,
) -> Result<Option<MemberText<'t>>, AllocError>
    ensures text { IfOk result (λ found. IfSome found (λ m. m.cut.text.now ≡ text.entry.now)) }
    ensures named { IfOk result (λ found. IfSome found (λ m. IsValueText (string key.now) m.cut.middle.now)) }
    ensures spaced { IfOk result (λ found. IfSome found (λ m. IsSpaced 58 m.colon.now)) }
    ensures trimmed { IfOk result (λ found. IfSome found (λ m. IsTrimmed m.value.now)) }
{
    let Some(member) = cut_member(text, child) else {
        return Ok(None);
    };
    if !is_colon(member.colon) || !is_trimmed(member.value) {
        return Ok(None);
    }
    if is_name(&mut buffers.old, member.cut.middle, key)? {
        Ok(Some(member))
    } else {
        Ok(None)
    }
}

/// Returns the text cut where the parts of the member seem to be.
fn cut_member(text: &str, child: Child) -> Option<MemberText<'_>>
    ensures { IfSome result (λ m. m.cut.text.now ≡ text.entry.now) }
{
    let bytes = text.as_bytes();
    let end = trimmed_end(bytes, trimmed_end(bytes, child.value).saturating_sub(1));
    let cut = cut_at(text, child.span.from, end)?;
    let (colon, tail) = cut.after.split_at_checked(child.value.saturating_sub(end))?;
    let (value, after) = tail.split_at_checked(child.span.to.saturating_sub(child.value))?;
    Some(MemberText {
        cut,
        colon,
        tail,
        value,
        after,
    })
}
