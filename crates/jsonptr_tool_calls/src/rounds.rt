//! One edit, made again and again, for `tools/bench/edits.py`.
use crate::out::Out;
use crate::text_edits::{Request, change, edit};
use crate::toml_edits;
use crate::words::Words;
use jsonptr_text_edit::Buffers;
use serde_json::Value;

/// Makes an edit so many times, and writes how long the new texts are in all: the way, the name of
/// the edit, the pointer, the argument, and how many times.
pub fn run(out: &mut Out<'_>, text: &str, mut words: Words<'_>) {
    let way = words.next();
    let request = Request {
        command: words.next(),
        text,
        pointer: words.next(),
        argument: words.next(),
    };
    let Some(count) = words.number() else {
        return out.unknown();
    };
    let mut buffers = Buffers::new(out.alloc());
    let mut sum = 0usize;
    for _ in 0..count {
        match len(out, &mut buffers, way, request) {
            Some(len) => sum = sum.wrapping_add(len),
            None => return out.unknown(),
        }
    }
    out.line(sum)
}

/// Makes the edit, and returns how long the new text is. The way `text` uses these buffers, and
/// `own` makes some for the edit alone. The way `toml` edits a TOML text.
fn len(out: &mut Out<'_>, buffers: &mut Buffers, way: &str, request: Request<'_>) -> Option<usize> {
    match way {
        "text" => Some(edit(out, buffers, request)?.len()),
        "own" => own_len(out, request),
        "toml" => Some(toml_edits::edit(out, request)?.as_str().len()),
        "document" => Some(change(out, request)?.to_string(out.alloc()).ok()?.len()),
        _ => match Value::from_str(out.alloc(), request.text).ok()? {
            Value::Array(_) | Value::Object(_) => Some(1),
            _ => Some(0),
        },
    }
}

/// Makes the edit in buffers of its own, and returns how long the new text is. They are large locals,
/// which each call clears.
#[inline(never)]
fn own_len(out: &mut Out<'_>, request: Request<'_>) -> Option<usize> {
    let mut buffers = Buffers::new(out.alloc());
    Some(edit(out, &mut buffers, request)?.len())
}
