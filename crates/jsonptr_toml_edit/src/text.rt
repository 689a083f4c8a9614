//! Editing a TOML text.
ghost use Rattle.std.specs.Prelude.{IfOk, IfErr};
ghost use Rattle.jsonptr_text_edit.specs.Edited.{text_of, IfInPlace};
ghost use Rattle.jsonptr_toml_edit.specs.TomlEdits.{EditsToml, TomlEditBytes, EditsAndPrintsToml, IfReprinted};
ghost use Rattle.jsonptr_toml_edit.specs.TomlEditErrors.{IsTomlEditError};

use crate::edit::TomlEdit;
use crate::edit_error::TomlEditError;
use crate::made::make;
use jsonptr_text_edit::Edited;
use jsonptr_text_step as text_step;
use std::alloc::Global;

/// Makes the edit in the document that the TOML text contains, and returns the new text. A document that
/// is reprinted has none of its comments and none of its layout.
///
/// The edit is made in place if that is possible. Then one piece of the text changes, or each text of the
/// key that is renamed, and all other bytes stay. The new text is read before it is returned. If an edit in
/// place is not possible, the document is printed, and the result is [`Edited::Reprinted`].
///
/// The clause states which comments go with a key, a member of an inline table or an element that is
/// deleted. Which go with a table that has headers is tested.
///
/// Reads the old and the new text once each, and the new one once more if a value has its own text. Scans
/// the old text once or twice more, and allocates for both documents and a copy of the value. The stack is
/// in proportion to the depth of the value.
///
/// # Errors
///
/// - [`TomlEditError::NotToml`] if the text is not TOML.
/// - [`TomlEditError::DocumentTooDeep`] if the values of the document nest deeper than 80.
/// - [`TomlEditError::Assign`] with the error of `assign`, if no value can be assigned at the pointer.
/// - [`TomlEditError::NotThere`] if the pointer of a deletion resolves to nothing.
/// - [`TomlEditError::Rename`] with [`RenameError::NotThere`](crate::RenameError::NotThere) if the pointer
///   resolves to nothing, [`NotAMember`](crate::RenameError::NotAMember) if it resolves to the root or to an
///   element of an array, and [`KeyTaken`](crate::RenameError::KeyTaken) if another member of the table has
///   the key.
/// - [`TomlEditError::TooDeep`] if the pointer of an assignment has more than 81 tokens, or if the values of
///   the new document nest deeper than 80.
/// - [`TomlEditError::NoText`] if the new document is not a table, or has a date-time that TOML has no text
///   for.
/// - [`TomlEditError::Memory`] if an allocation fails.
///
/// The clause also allows [`TomlEditError::TooDeep`] and [`TomlEditError::NoText`] of a deletion and of a
/// renaming. No document is known that has them.
///
/// # Examples
///
/// A value keeps its own text, and the comment beside it stays:
///
/// ```rust
/// let text = "[server]\nport = 80 # as ever\n";
/// let port = RawTomlValue::parse(alloc, "0x1F90")?;
/// let edit = TomlEdit::Assign(Pointer::parse("/server/port")?, port);
/// let new = edit_toml(alloc, text, &edit)?.in_place().ok_or("an edit in place")?;
/// assert_eq!(rt; new.as_str(), "[server]\nport = 0x1F90 # as ever\n");
/// ```
///
/// A table that has no text of its own is laid out as its siblings are:
///
/// ```rust
/// let text = "[server]\nport = 80\n";
/// let table = toml::Value::from_str(alloc, "{ on = true }")?;
/// let edit = TomlEdit::AssignValue(Pointer::parse("/tls")?, table);
/// let new = edit_toml(alloc, text, &edit)?.in_place().ok_or("an edit in place")?;
/// assert_eq!(rt; new.as_str(), "[server]\nport = 80\n\n[tls]\non = true\n");
/// ```
///
/// A key is deleted with its line:
///
/// ```rust
/// let text = "# The server\nport = 80 # as ever\nname = 'a'\n";
/// let edit = TomlEdit::Delete(Pointer::parse("/port")?);
/// let new = edit_toml(alloc, text, &edit)?.in_place().ok_or("an edit in place")?;
/// assert_eq!(rt; new.as_str(), "# The server\nname = 'a'\n");
/// let again = edit_toml(alloc, new.as_str(), &edit);
/// assert!(rt; matches!(again, Err(TomlEditError::NotThere)));
/// ```
///
/// A member is renamed wherever a key names it:
///
/// ```rust
/// let text = "[server] # ours\nport = 80\n\n[server.tls]\non = true\n";
/// let edit = TomlEdit::Rename(Pointer::parse("/server")?, "web host");
/// let new = edit_toml(alloc, text, &edit)?.in_place().ok_or("an edit in place")?;
/// let want = "[\"web host\"] # ours\nport = 80\n\n[\"web host\".tls]\non = true\n";
/// assert_eq!(rt; new.as_str(), want);
/// ```
pub fn edit_toml(alloc: Global, text: &str, edit: &TomlEdit<'_>) -> Result<Edited, TomlEditError>
    ensures edited { IfOk result (λ e. EditsToml text.now edit.now (text_of e)) }
    ensures bytes { IfOk result (IfInPlace (TomlEditBytes text.now edit.now)) }
    ensures printed { IfOk result (IfReprinted (EditsAndPrintsToml text.now edit.now)) }
    ensures refused { IfErr result (IsTomlEditError text.now edit.now) }
{
    match make(alloc, text, edit) {
        Ok(text_step::Stepped::InPlace(new)) => Ok(Edited::InPlace(new)),
        Ok(text_step::Stepped::Rewritten(new)) => Ok(Edited::Reprinted(new)),
        Err(error) => Err(error),
    }
}
