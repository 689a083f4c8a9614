//! Appends to the copy of an array or object.
ghost use Rattle.std.specs.Prelude.{◌≡◌, ◌++◌, ◌∷◌, [], IfOk, string_bytes};
ghost use Rattle.serde_json.specs.Data.{put};
ghost use Rattle.serde_json.specs.View.{view, members_view};

use crate::drop::discard;
use serde_json::{Map, Value};
use std::alloc::AllocError;

/// Returns the elements with one more.
///
/// # Errors
///
/// [`AllocError`] if the allocation fails. The elements and `element` are discarded.
pub(crate) fn with_element(elements: Vec<Value>, element: Value) -> Result<Vec<Value>, AllocError>
    ensures { IfOk result (λ v. v.items ≡ elements.items ++ element ∷ []) }
{
    let mut elements = elements;
    match elements.push(element) {
        Ok(()) => Ok(elements),
        Err(failed) => {
            discard(failed.value);
            discard(Value::Array(elements));
            Err(AllocError)
        }
    }
}

/// Returns the members with one more, whose key is copied.
///
/// # Errors
///
/// [`AllocError`] if an allocation fails. The members and `member` are discarded.
pub(crate) fn with_member(
    members: Map<String, Value>,
    key: &String,
    member: Value,
) -> Result<Map<String, Value>, AllocError>
    ensures { IfOk result (λ m. members_view m.entries
        ≡ put (string_bytes key.now) (view member) (members_view members.entries)) }
{
    let mut members = members;
    let Ok(name) = key.clone() else {
        discard(member);
        discard(Value::Object(members));
        return Err(AllocError);
    };
    match members.insert(name, member) {
        Ok(_) => Ok(members),
        Err(failed) => {
            let (_name, member) = failed.value;
            discard(member);
            discard(Value::Object(members));
            Err(AllocError)
        }
    }
}
