//! Texts with comments: the same texts without them, and edits in them.
use crate::out::Out;
use crate::text_edits::{Request, edit_of};
use crate::words::Words;
use jsonptr::Fault;
use jsonptr_comments::without_comments;
use jsonptr_comments_edit::{
    Buffers, CommentError, CommentedText, EditError, Edited, edit_commented,
};
use std::borrow::CowStr;

/// Reads past the comments of a text, or makes an edit in it. Writes the kind of the result, and the new
/// text or the error.
pub fn request(out: &mut Out<'_>, buffers: &mut Buffers, mut words: Words<'_>) {
    let mut request = Request {
        command: words.next(),
        text: words.next(),
        pointer: words.next(),
        argument: words.next(),
    };
    match request.command {
        "read past" => return read_past(out, request.text),
        "patch" | "rename" => {}
        _ if request.argument.is_empty() => request.command = "delete",
        _ => request.command = "assign",
    }
    edit(out, buffers, request)
}

/// Reads past the comments of a text.
fn read_past(out: &mut Out<'_>, text: &str) {
    match without_comments(out.alloc(), text) {
        Ok(CowStr::Borrowed(same)) => {
            out.field("kind", "same");
            out.field("detail", same)
        }
        Ok(CowStr::Owned(new)) => {
            out.field("kind", "copy");
            out.field("detail", new)
        }
        Err(Fault::Refused(error)) => not_closed(out, error),
        Err(Fault::Memory(_)) => out.memory(),
    }
}

/// Makes an edit in a text.
fn edit(out: &mut Out<'_>, buffers: &mut Buffers, request: Request<'_>) {
    let alloc = out.alloc();
    let Some(edit) = edit_of(alloc, request) else {
        return out.unknown();
    };
    match CommentedText::read(alloc, request.text) {
        Ok(text) => said(out, edit_commented(buffers, &text, &edit)),
        Err(Fault::Refused(error)) => not_closed(out, error),
        Err(Fault::Memory(_)) => out.memory(),
    }
}

/// Writes that a comment is not closed.
fn not_closed(out: &mut Out<'_>, error: CommentError) {
    out.field("kind", "not closed");
    out.field("detail", error.offset)
}

/// Writes the result of an edit.
fn said(out: &mut Out<'_>, made: Result<Edited, EditError>) {
    match made {
        Ok(Edited::InPlace(new)) => {
            out.field("kind", "in place");
            out.field("detail", new)
        }
        Ok(Edited::Reprinted(_new)) => out.field("kind", "not in place"),
        Err(EditError::NotThere) => out.field("kind", "none"),
        Err(EditError::Memory(_)) => out.memory(),
        Err(error) => {
            out.field("kind", "failed");
            out.field("detail", error)
        }
    }
}
