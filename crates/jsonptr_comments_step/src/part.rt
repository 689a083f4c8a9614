//! Parts of a text that are whole pieces: strings, comments, and other bytes.
ghost use Rattle.std.specs.Prelude.{◌≡◌, drop, IfSome, IsTrue};
ghost use Rattle.jsonptr_comments_step.specs.PrivateChecking.{IsSpan, IsRun, IsOneRun, IsComma};

use jsonptr_comments::piece::{Allowed, are_pieces, common_pieces};

/// A part of a text, between two offsets. It borrows the text.
#[derive(Clone, Copy, Debug)]
pub struct Part<'t> {
    /// The whole text.
    pub text: &'t str,
    /// The offset of its first byte.
    pub from: usize,
    /// The offset after its last byte.
    pub to: usize,
}

/// Returns the text from the part on, or `None` if the offsets are not in order, or not in the text.
fn from_part(part: Part<'_>) -> Option<&[u8]>
    ensures rest { IfSome result (λ rest. rest.now ≡ drop part.entry.from part.entry.text.now) }
    ensures span { IfSome result (λ rest. IsSpan part.entry.text.now part.entry.from part.entry.to) }
{
    let bytes = part.text.as_bytes();
    if part.from > part.to || part.to > bytes.len() {
        return None;
    }
    Some(&bytes[part.from..])
}

/// Returns whether the part is whole pieces, each of them one of those that are allowed.
pub fn is_run(part: Part<'_>, allowed: Allowed) -> bool
    ensures { IsTrue result → IsRun allowed part.entry.text.now part.entry.from part.entry.to }
{
    let Some(rest) = from_part(part) else {
        return false;
    };
    are_pieces(rest, part.to - part.from, allowed)
}

/// Returns whether both parts are whole pieces, and the same ones.
pub fn is_one_run(one: Part<'_>, two: Part<'_>) -> bool
    ensures { IsTrue result → IsOneRun one.entry.text.now one.entry.from one.entry.to
        two.entry.text.now two.entry.from two.entry.to }
{
    let Some(rest) = from_part(one) else {
        return false;
    };
    let Some(other) = from_part(two) else {
        return false;
    };
    let length = one.to - one.from;
    if two.to - two.from != length {
        return false;
    }
    common_pieces(rest, other, length)
}

/// Returns whether the part is a comma, or empty.
pub fn is_comma_or_none(part: Part<'_>) -> bool
    ensures { IsTrue result → IsComma part.entry.text.now part.entry.from part.entry.to }
{
    let Some(rest) = from_part(part) else {
        return false;
    };
    if part.from == part.to {
        return true;
    }
    if part.to - part.from != 1 {
        return false;
    }
    rest[0] == b','
}
