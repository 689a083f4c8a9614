//! Documents in the layout of an older text.
use crate::out::Out;
use crate::words::Words;
use jsonptr_text_relayout::{Buffers, Relaid, relayout_text};

/// Lays a document out, and writes the kind of the result and the text.
pub fn request(out: &mut Out<'_>, buffers: &mut Buffers, mut words: Words<'_>) {
    let old = words.next();
    let new = words.next();
    match relayout_text(buffers, old, new) {
        Ok(Relaid::Kept(text)) => {
            out.field("kind", "kept");
            out.field("detail", text)
        }
        Ok(Relaid::Rewritten(text)) => {
            out.field("kind", "printed");
            out.field("detail", text)
        }
        Err(error) => {
            out.field("kind", "refused");
            out.field("detail", error)
        }
    }
}
