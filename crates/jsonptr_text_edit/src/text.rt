//! Editing a text.
ghost use Rattle.std.specs.Prelude.{IfOk, IfErr};
ghost use Rattle.jsonptr_text_step.specs.OneLine.{StaysOneLine};
ghost use Rattle.jsonptr_text_edit.specs.Edited.{text_of, IfInPlace};
ghost use Rattle.jsonptr_text_edit.specs.Edits.{EditsText, EditBytes};
ghost use Rattle.jsonptr_text_edit.specs.Errors.{IsEditError};

use crate::edit::Edit;
use crate::edit_error::EditError;
use crate::edited::Edited;
use crate::made::make;
use crate::reprint::on_one_line;
use jsonptr_text_piece::buffers::Buffers;

/// Makes the edit in the document that the text contains, and returns the new text.
///
/// The edit is made in place: all bytes of the text stay, except those of the value that is replaced, of the
/// child that is added or removed, or of the name of the member that is renamed. A value that the edit brings has
/// the tokens of its own text there, one for one.
///
/// The new text is read side by side with the old one before it is returned. If that fails, or if a text of
/// one line would have more lines, the document is read, changed and printed, once, and the result is
/// [`Edited::Reprinted`]. Two cases are known: a member that is renamed in an object with several members
/// of its old key, and a patch that makes the document deeper than 127 and then less deep again.
///
/// Reads the old text and the new one two to five times each, for each operation of a patch, and allocates
/// for both texts, for their unescaped strings and for the values. `buffers` keep their memory from text to
/// text. No call minds what an earlier one left, also after an error.
///
/// # Errors
///
/// - [`EditError::NotJson`] if `serde_json` does not read the text. So it is for one with a byte order mark.
/// - [`EditError::Assign`] with the error of `assign`, if no value can be assigned at the pointer.
/// - [`EditError::NotThere`] if the pointer of a deletion resolves to nothing.
/// - [`EditError::Rename`] with [`RenameError::NotThere`](crate::RenameError::NotThere) if the pointer resolves
///   to nothing, [`NotAMember`](crate::RenameError::NotAMember) if it resolves to the root or to an element
///   of an array, and [`KeyTaken`](crate::RenameError::KeyTaken) if another member of the object has the key.
/// - [`EditError::Patch`] if an operation of the patch fails: why, and which of its pointers is at fault.
/// - [`EditError::TooDeep`] if the new document of an assignment or of a patch nests deeper than 127.
/// - [`EditError::Memory`] if an allocation fails.
///
/// # Examples
///
/// ```rust
/// let mut buffers = Buffers::new(alloc);
/// let path = Pointer::parse("/goods/-")?;
/// let edit = Edit::Assign(path, RawValue::parse(alloc, r#"{"price": 1.10}"#)?);
/// let edited = edit_text(&mut buffers, "{\"goods\": []}", &edit)?;
/// let new = edited.in_place().ok_or("an edit in place")?;
/// assert_eq!(rt; new.as_str(), "{\"goods\": [{\"price\": 1.10}]}");
/// ```
///
/// One edit serves many texts:
///
/// ```rust
/// let mut buffers = Buffers::new(alloc);
/// let given = r#"[{"op": "move", "from": "/b", "path": "/a/0"}]"#;
/// let edit = Edit::Patch(PatchText::of(alloc, given, Value::from_str(alloc, given)?)?);
/// for (text, want) in [
///     ("{\"a\": [], \"b\": 1.0}", "{\"a\": [1.0]}"),
///     ("{\"a\": [ 2 ],\n \"b\": 1e5}\n", "{\"a\": [ 1e5, 2 ]}\n"),
/// ] {
///     let edited = edit_text(&mut buffers, text, &edit)?;
///     assert!(rt; edited.in_place().is_some_and(|new| new.as_str() == want));
/// }
/// let nothing = edit_text(&mut buffers, "{\"a\": []}", &edit);
/// assert!(rt; matches!(nothing, Err(EditError::Patch(_))));
/// ```
pub fn edit_text(buffers: &mut Buffers, text: &str, edit: &Edit<'_>) -> Result<Edited, EditError>
    ensures edited { IfOk result (λ e. EditsText text.now edit.now (text_of e)) }
    ensures bytes { IfOk result (IfInPlace (EditBytes text.now edit.now)) }
    ensures one_line { IfOk result (IfInPlace (StaysOneLine text.now)) }
    ensures refused { IfErr result (IsEditError text.now edit.now) }
{
    let made = make(buffers, text, edit)?;
    Ok(on_one_line(buffers.alloc, text, made)?)
}
