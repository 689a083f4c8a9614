//! The members that are read of an operation object (RFC 6902, section 4).
ghost use Rattle.std.specs.Prelude.{MatchResult};
ghost use Rattle.serde_json.specs.View.{view};
ghost use Rattle.jsonptr.specs.Pointer.{tokens};
ghost use Rattle.jsonptr_patch_document.specs.Object.{HasText, HasPointer, HasValue, LacksNamedMember, LacksText, LacksPointer};

use crate::error::PatchDocumentError;
use crate::member::{Member, name};
use jsonptr::Pointer;
use serde_json::Value;

/// Returns the string that is a member of the operation with this number.
///
/// # Errors
///
/// [`PatchDocumentError::MissingMember`] and [`PatchDocumentError::NotString`].
pub fn text_at(entry: &Value, operation: usize, member: Member) -> Result<&str, PatchDocumentError>
    ensures { MatchResult result
        (λ text. HasText (view entry.now) member text.now)
        (LacksText (view entry.now) member operation) }
{
    let Some(value) = entry.get(name(member)) else {
        return Err(PatchDocumentError::MissingMember { operation, member });
    };
    match value.as_str() {
        Some(text) => Ok(text),
        None => Err(PatchDocumentError::NotString { operation, member }),
    }
}

/// Returns the pointer that is a member of the operation with this number.
///
/// # Errors
///
/// Those of [`text_at`], and [`PatchDocumentError::NotPointer`].
pub fn pointer_at(
    entry: &Value,
    operation: usize,
    member: Member,
) -> Result<Pointer<'_>, PatchDocumentError>
    ensures { MatchResult result
        (λ pointer. HasPointer (view entry.now) member (tokens pointer))
        (LacksPointer (view entry.now) member operation) }
{
    match Pointer::parse(text_at(entry, operation, member)?) {
        Ok(pointer) => Ok(pointer),
        Err(cause) => Err(PatchDocumentError::NotPointer {
            operation,
            member,
            cause,
        }),
    }
}

/// Returns the member `value` of the operation with this number.
///
/// # Errors
///
/// [`PatchDocumentError::MissingMember`].
pub fn value_at(entry: &Value, operation: usize) -> Result<&Value, PatchDocumentError>
    ensures { MatchResult result
        (λ value. HasValue (view entry.now) value.now)
        (LacksNamedMember (view entry.now) Member.Value operation) }
{
    match entry.get("value") {
        Some(value) => Ok(value),
        None => Err(PatchDocumentError::MissingMember {
            operation,
            member: Member::Value,
        }),
    }
}
