//! The error of a search that stopped.
ghost use Rattle.std.specs.Prelude.{◌≡◌, ◌<◌, ◌^◌, ℕ};
ghost use Rattle.serde_json.specs.Data.{Data};
ghost use Rattle.jsonptr.specs.Pointer.{tokens};
ghost use Rattle.jsonptr.specs.Resolve.{Refuses};
ghost use Rattle.jsonptr.specs.Json.{nodes};
ghost use Rattle.jsonptr_text_resolve.specs.Selecting.{StopsLeft};

use jsonptr::Pointer;
use jsonptr::resolve::Error;
use jsonptr_text_search::outcome::Kind;

/// Returns the error of an evaluation that stopped with this many tokens left, at a value of this
/// kind.
pub fn error_at(pointer: Pointer<'_>, left: usize, kind: Kind) -> Error
    ensures { (d : Data) → StopsLeft d (tokens pointer.entry) left kind
        → Refuses (nodes d) (tokens pointer.entry) result }
{
    let count = pointer.count();
    let position = count.saturating_sub(left);
    let Some((front, rest)) = pointer.split_at(position) else {
        unreachable!()
    };
    let offset = front.as_str().len();
    let Some((token, _)) = rest.split_front() else {
        return Error::NotFound { position, offset };
    };
    match kind {
        Kind::Scalar => Error::Unreachable { position, offset },
        Kind::Object => Error::NotFound { position, offset },
        Kind::Array(length) => match token.to_index() {
            Err(source) => Error::FailedToParseIndex {
                position,
                offset,
                source,
            },
            Ok(index) => match index.for_len(length) {
                Err(source) => Error::OutOfBounds {
                    position,
                    offset,
                    source,
                },
                Ok(_) => Error::NotFound { position, offset },
            },
        },
    }
}
