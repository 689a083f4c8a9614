//! What to do with a TOML document in its text.

use crate::raw_value::RawTomlValue;
use jsonptr::Pointer;
use toml::Value;

/// What to do with a TOML document in its text. It owns its values, and borrows its pointer and its key.
#[derive(Debug, Drop)]
pub enum TomlEdit<'a> {
    /// Assigns the value with its own text at the pointer, as [`Assign::assign`](jsonptr::assign::Assign)
    /// does, with path expansion.
    ///
    /// In place, the value has its own text afterwards, byte for byte, except in two cases. In these, headers
    /// and pairs hold it:
    ///
    /// - It is a table or an array of tables, and headers or dotted keys make the old value.
    /// - It is added to an array that has `[[..]]` headers.
    Assign(Pointer<'a>, RawTomlValue),
    /// Assigns a value that has no text at the pointer, with path expansion. The value is printed, and put
    /// where its siblings are, in the form that they have: a table or an array of tables has headers if
    /// theirs have headers, and dotted keys if theirs have dotted keys.
    AssignValue(Pointer<'a>, Value),
    /// Deletes the value that the pointer resolves to, as [`Delete::delete`](jsonptr::delete::Delete) does.
    /// Deleting the root leaves an empty document.
    ///
    /// A key goes with its line and the comment on it, and with one above it if no key follows. A table goes
    /// with its header, its lines and the comment above it, and an element with its comma or its line.
    Delete(Pointer<'a>),
    /// Renames the member of a table that the pointer resolves to: it has the key afterwards.
    ///
    /// Its key changes in each header and each dotted key that names it: `[a.b]` and `[a.c]` both name `a`.
    /// The new key is bare if it can be, and quoted if not. It is not escaped as in a pointer. If the member
    /// has the key already, the text is unchanged.
    Rename(Pointer<'a>, &'a str),
}
