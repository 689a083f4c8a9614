//! Where following a pointer stops.
ghost use Rattle.std.specs.Prelude.{◌≡◌, length};
ghost use Rattle.jsonptr_syntax.specs.PointerText.{tokens};

use jsonptr_document::child::ChildError;
use jsonptr_syntax::pointer_text::PointerText;

/// Where following a pointer stops: before a token that names no child of the node there.
///
/// ```text
/// /window/sizes/7        the array `sizes` has 2 elements
///              ↑
///              13        position 2, offset 13
/// ```
#[derive(Debug, Drop)]
pub struct FollowError {
    /// The number of tokens before the one at fault.
    pub position: usize,
    /// The offset of the `/` before the token at fault, in bytes.
    pub offset: usize,
    /// Why the token names no child.
    pub cause: ChildError,
}

/// Returns the error of the token after `front`, which names no child because of `cause`.
///
/// `offset` is that of the `/` before the token.
pub fn stop_at(front: PointerText<'_>, offset: usize, cause: ChildError) -> FollowError
    ensures position { result.position ≡ length (tokens front.entry) }
    ensures offset { result.offset ≡ offset }
    ensures cause { result.cause ≡ cause }
{
    FollowError {
        position: front.count(),
        offset,
        cause,
    }
}
