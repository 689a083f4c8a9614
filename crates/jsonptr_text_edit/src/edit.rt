//! What to do with a document in its text.

use jsonptr::Pointer;
use jsonptr_text_value::{PatchText, RawValue};

/// What to do with a document in its text. It owns its values, each with its own text, and borrows its
/// pointer and its key.
#[derive(Debug, Drop)]
pub enum Edit<'a> {
    /// Assigns the value at the pointer, as [`Assign::assign`](jsonptr::assign::Assign) does, with path
    /// expansion.
    ///
    /// A value that is there is replaced. A new member or element is put after the last one, with the white
    /// space that its siblings have. Of members with the same key the last one counts.
    Assign(Pointer<'a>, RawValue),
    /// Deletes the value that the pointer resolves to, as [`Delete::delete`](jsonptr::delete::Delete) does.
    ///
    /// A member or an element is cut out with its comma and the white space that belongs to it. Of several
    /// members with the same key each is cut out. Deleting the root leaves `null`.
    Delete(Pointer<'a>),
    /// Renames the member of an object that the pointer resolves to: it has the key afterwards. The document
    /// becomes what the operation `move` makes of it, from the pointer to the same object with the new key
    /// (RFC 6902, section 4.4).
    ///
    /// The member keeps its place among the others. The key is not escaped as in a pointer.
    Rename(Pointer<'a>, &'a str),
    /// Applies the operations of the patch in order, all of them or none (RFC 6902, section 5). A `test`
    /// compares numbers by their values.
    ///
    /// Each operation changes the text that the one before left. An element is added before the one at its
    /// index. A value that is moved or copied keeps the form of its numbers and strings, and the order of its
    /// members.
    Patch(PatchText),
}
