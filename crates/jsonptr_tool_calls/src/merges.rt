//! Merges of documents: merge patches, and merges of two changed copies.
use crate::out::Out;
use crate::words::Words;
use jsonptr::Fault;
use jsonptr_merge::{
    Conflict, MergePatchError, Merged, make_merge_patch, merge, merge_patch, merge_patched,
};
use serde_json::Value;

/// Makes a merge of the documents that are given, and writes the kind of the result, and the document, the
/// pointer of the error, or the conflicts.
pub fn request(out: &mut Out<'_>, mut words: Words<'_>) {
    let command = words.next();
    let Ok(first) = Value::from_str(out.alloc(), words.next()) else {
        return out.unknown();
    };
    let Ok(second) = Value::from_str(out.alloc(), words.next()) else {
        return out.unknown();
    };
    match command {
        "patch" => patch(out, first, &second),
        "make" => make(out, &first, &second),
        _ => match Value::from_str(out.alloc(), words.next()) {
            Ok(third) => three(out, &first, &second, &third),
            Err(_) => out.unknown(),
        },
    }
}

/// Applies a merge patch to a copy of the document, and in place.
fn patch(out: &mut Out<'_>, mut document: Value, patch: &Value) {
    let alloc = out.alloc();
    match merge_patched(alloc, &document, patch) {
        Ok(made) => made_as(out, &made),
        Err(fault) => failed(out, fault),
    }
    match merge_patch(alloc, &mut document, patch) {
        Ok(()) => out.field("again", document),
        Err(fault) => failed(out, fault),
    }
}

/// Makes a merge patch.
fn make(out: &mut Out<'_>, old: &Value, new: &Value) {
    match make_merge_patch(out.alloc(), old, new) {
        Ok(made) => made_as(out, &made),
        Err(Fault::Refused(MergePatchError::NullMember { path })) => {
            out.field("kind", "null");
            out.field("detail", path)
        }
        Err(fault) => failed(out, fault),
    }
}

/// Merges two changed copies of a document.
fn three(out: &mut Out<'_>, base: &Value, ours: &Value, theirs: &Value) {
    match merge(out.alloc(), base, ours, theirs) {
        Ok(Merged::Document(made)) => made_as(out, &made),
        Ok(Merged::Conflicts(conflicts)) => {
            out.field("kind", "conflicts");
            out.name("detail");
            for conflict in &conflicts {
                listed(out, conflict);
            }
        }
        Err(fault) => failed(out, fault),
    }
}

/// Writes the document that was made.
fn made_as(out: &mut Out<'_>, document: &Value) {
    out.field("kind", "made");
    out.field("detail", document)
}

/// Writes a conflict: its pointer, and the three values.
fn listed(out: &mut Out<'_>, conflict: &Conflict) {
    out.item(&conflict.path);
    for side in [&conflict.base, &conflict.ours, &conflict.theirs] {
        match side {
            Some(value) => out.item(value),
            None => out.item("none"),
        }
    }
}

/// Writes that a document nests too deep, or that an allocation failed.
fn failed<E: Drop>(out: &mut Out<'_>, fault: Fault<E>) {
    match fault {
        Fault::Refused(_) => out.field("kind", "too deep"),
        Fault::Memory(_) => out.memory(),
    }
}
