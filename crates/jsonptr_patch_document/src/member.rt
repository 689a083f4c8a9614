//! The members of an operation object (RFC 6902, section 4).
ghost use Rattle.std.specs.Prelude.{◌≡◌, Some};
ghost use Rattle.jsonptr_patch_document.specs.Object.{member_key};

use std::fmt;

/// A member of an operation object that RFC 6902 defines. It displays as its key.
///
/// ```rust
/// assert_eq!(rt; Member::From.to_string(alloc)?.as_str(), "from");
/// ```
#[derive(Clone, Copy, Debug, PartialEq, Eq)]
pub enum Member {
    /// The member `op`: the name of the operation.
    Op,
    /// The member `path`: the target location.
    Path,
    /// The member `from` of a `move` and of a `copy`.
    From,
    /// The member `value` of an `add`, of a `replace` and of a `test`.
    Value,
}

/// Returns the key of the member.
pub fn name(member: Member) -> &'static str
    ensures { result.now ≡ member_key member }
{
    match member {
        Member::Op => "op",
        Member::Path => "path",
        Member::From => "from",
        Member::Value => "value",
    }
}

impl fmt::Display for Member {
    ghost output = { λ member. Some (member_key member) };

    fn fmt<W: fmt::Write>(&self, f: &mut fmt::Formatter<W>) -> fmt::Result {
        f.write_str(name(*self))
    }
}
