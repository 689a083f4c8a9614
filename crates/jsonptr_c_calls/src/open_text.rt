//! A text that is edited many times.
ghost use Rattle.std.specs.Prelude.{◌≡◌, ◌⊎◌, not, false, IfErr, IfOk, IfSome, IsUtf8, MatchOption, None, OnErr, OnOk, Some, string_bytes, ⊤};
ghost use Rattle.serde_json.specs.Data.{Data};
ghost use Rattle.serde_json.specs.Read.{read};
ghost use Rattle.jsonptr_text_edit.specs.Edited.{IfInPlace, text_of as edited_text};
ghost use Rattle.jsonptr_text_edit.specs.declared.edit_error.EditError.TheVariants.{NotThere};
ghost use Rattle.jsonptr_c_calls.specs.Changing.{IsChange, IsSmallest};
ghost use Rattle.jsonptr_c_calls.specs.Failures.{IsOutOfMemory};
ghost use Rattle.jsonptr_c_calls.specs.Relayouts.{IsLaidOut, IsNotLaidOut, IsNotRelaid, IsRelaid, is_kept};
ghost use Rattle.jsonptr_c_calls.specs.declared.call_error.CallError.TheVariants.{NotInPlace};
ghost use Rattle.jsonptr_c_calls.specs.OpenTexts.{BytesIn, EditsIn, FailsIn, FailsToEdit, FailsToRead, IsEdited, IsMade, IsNotEdited, IsNotJson, IsNotOpened, IsSame, KeepsLine, LacksEdit, LacksEditIn, LacksIn, ReadsAs, ReportsEdit};

use crate::call_error::{Argument, CallError};
use crate::change::Change;
use crate::mark::{parts_of, with_mark};
use crate::pointers::text_of;
use crate::read::stop;
use crate::text_format::TextFormat;
use crate::toml_edits::{check_toml, edit_in_toml};
use jsonptr::Fault;
use jsonptr_comments_edit::{Buffers, CommentedText, Edit, EditError, Edited, edit_commented};
use jsonptr_text_edit::edit_text;
use jsonptr_text_relayout::{Relaid, RelayoutTextError, relayout_text};
use jsonptr_text_resolve::is_document;
use std::alloc::Global;

/// A text that is edited many times, with its memory. It is that of a document, and may begin with a byte
/// order mark.
#[derive(Drop)]
pub struct OpenText {
    /// The text.
    pub text: String,
    /// Its format.
    pub format: TextFormat,
    /// The memory of its edits.
    pub buffers: Buffers,
}

/// A text that an edit makes.
#[derive(Drop)]
struct MadeText {
    /// The text.
    text: String,
    /// Whether the edit is made in place.
    is_in_place: bool,
}

impl OpenText {
    /// Opens the text that the bytes are.
    ///
    /// # Errors
    ///
    /// - [`CallError::NotUtf8`].
    /// - [`CallError::OpenComment`] if a block comment is not closed.
    /// - [`CallError::NotJson`] if the text, without its comments, is not JSON.
    /// - [`CallError::NotToml`] if a text is opened as TOML and is not, and [`CallError::TomlTooDeep`] if its
    ///   values nest deeper than 80.
    /// - [`CallError::Memory`] if an allocation fails.
    ///
    /// # Examples
    ///
    /// ```rust
    /// let text = OpenText::open(alloc, TextFormat::Commented, b"[1, /* two */ 2,]").ok();
    /// assert_eq!(rt; text.ok_or("a text")?.text.as_str(), "[1, /* two */ 2,]");
    /// let json = OpenText::open(alloc, TextFormat::Json, b"[1, /* two */ 2,]");
    /// assert!(rt; matches!(json, Err(CallError::NotJson { offset: 4 })));
    /// ```
    pub fn open(alloc: Global, format: TextFormat, bytes: &[u8]) -> Result<OpenText, CallError>
        ensures text { IfOk result (λ t. string_bytes t.text ≡ bytes.now) }
        ensures format { IfOk result (λ t. t.format ≡ format) }
        ensures reads { OnOk result (ReadsAs format bytes.now) }
        ensures utf8 { OnOk result (IsUtf8 bytes.now) }
        ensures refused { IfErr result (IsNotOpened format bytes.now) }
    {
        let text = text_of(Argument::Text, bytes)?;
        let mut buffers = Buffers::new(alloc);
        check(&mut buffers, format, text)?;
        Ok(OpenText {
            text: String::from_str(alloc, text)?,
            format,
            buffers,
        })
    }

    /// Makes the edit in the text, and returns what it changed: in place, or else, if `may_reformat`, in the
    /// document, which is printed anew without comments. Returns `None` if the edit deletes a value that is
    /// not there. Then the text is unchanged.
    ///
    /// # Errors
    ///
    /// - Those of the edit: [`CallError::Assign`], [`CallError::NotRenamed`], [`CallError::PatchFailed`],
    ///   [`CallError::TextTooDeep`].
    /// - On TOML [`CallError::OtherFormat`] for a patch, [`CallError::NotTomlValue`] if the value is null or an
    ///   integer beyond 64 bits, or contains one, [`CallError::NoTomlText`] if the document would not be a
    ///   table, and [`CallError::TomlTooDeep`] if its values would nest deeper than 80.
    /// - [`CallError::NotInPlace`] if the edit is possible, but not in place, without `may_reformat`.
    /// - [`CallError::NotJson`], [`CallError::OpenComment`] and [`CallError::NotToml`] never come for a text
    ///   that [`open`](OpenText::open) has returned.
    /// - [`CallError::Memory`] if an allocation fails.
    ///
    /// The text is unchanged.
    pub fn edit(&mut self, edit: &Edit<'_>, may_reformat: bool) -> Result<Option<Change>, CallError>
        ensures edited { IfOk result (λ o. IfSome o (λ change. IsEdited self.old edit.now self.new change)) }
        ensures allowed { may_reformat ≡ false
            → IfOk result (λ o. IfSome o (λ change. change.is_reformatted ≡ false)) }
        ensures nothing { IfOk result (λ o. MatchOption o
            (LacksEdit self.old edit.now × IsSame self.old self.new) (λ _. ⊤)) }
        ensures unchanged { OnErr result (IsSame self.old self.new) }
        ensures refused { IfErr result (IsNotEdited may_reformat self.old edit.now) }
    {
        let Some(made) = make(&mut self.buffers, self.format, self.text.as_str(), edit)? else {
            return Ok(None);
        };
        match self.put(made, may_reformat) {
            Ok(change) => Ok(Some(change)),
            Err(error) => Err(error),
        }
    }

    /// Makes the document of the new text in this text, in the layout that it has, and returns what changed.
    /// A text that already reads as that document is unchanged.
    ///
    /// # Errors
    ///
    /// - [`CallError::OtherFormat`] if the text is not JSON without comments.
    /// - [`CallError::NotJson`] if the new text is not JSON.
    /// - [`CallError::NotInPlace`] if the new document cannot be laid out so, without `may_reformat`, with
    ///   which the text becomes the new one.
    /// - [`CallError::Memory`] if an allocation fails.
    ///
    /// The text is unchanged.
    pub fn relayout(&mut self, new: &str, may_reformat: bool) -> Result<Change, CallError>
        ensures relaid { IfOk result (IsRelaid self.old new.now self.new) }
        ensures allowed { may_reformat ≡ false
            → IfOk result (λ change. change.is_reformatted ≡ false) }
        ensures unchanged { OnErr result (IsSame self.old self.new) }
        ensures refused { IfErr result (IsNotRelaid may_reformat self.old new.now) }
    {
        let TextFormat::Json = self.format else {
            return Err(CallError::OtherFormat);
        };
        let made = lay_out(&mut self.buffers, self.text.as_str(), new)?;
        self.put(made, may_reformat)
    }

    /// Takes a new text, and returns what it changes.
    ///
    /// # Errors
    ///
    /// [`CallError::NotInPlace`] if the text is not made in place, without `may_reformat`. The text is
    /// unchanged.
    fn put(&mut self, made: MadeText, may_reformat: bool) -> Result<Change, CallError>
        ensures text { OnOk result (self.new.text ≡ made.text) }
        ensures format { self.new.format ≡ self.old.format }
        ensures change { IfOk result (λ change.
            IsChange (string_bytes self.old.text) (string_bytes made.text) change
            × IsSmallest (string_bytes self.old.text) (string_bytes made.text) change) }
        ensures reformatted { IfOk result (λ change. change.is_reformatted ≡ not made.is_in_place) }
        ensures allowed { may_reformat ≡ false
            → IfOk result (λ change. change.is_reformatted ≡ false) }
        ensures unchanged { OnErr result (IsSame self.old self.new) }
        ensures refused { IfErr result
            (λ e. (may_reformat ≡ false) × (made.is_in_place ≡ false) × (e ≡ NotInPlace)) }
    {
        if !made.is_in_place && !may_reformat {
            return Err(CallError::NotInPlace);
        }
        let change = Change::between(self.text.as_str(), made.text.as_str(), !made.is_in_place);
        self.text = made.text;
        Ok(change)
    }
}

/// Returns an error if the text is not that of a document in the format.
///
/// # Errors
///
/// Those of [`OpenText::open`].
fn check(buffers: &mut Buffers, format: TextFormat, text: &str) -> Result<(), CallError>
    ensures reads { OnOk result (ReadsAs format text.now) }
    ensures refused { IfErr result (FailsToRead format text.now) }
{
    let parts = parts_of(text);
    let skipped = parts.mark.len();
    match format {
        TextFormat::Json => check_json(buffers, parts.body, skipped),
        TextFormat::Commented => match CommentedText::read(buffers.alloc, parts.body) {
            Ok(read) => check_json(buffers, read.bare.as_str(), skipped),
            Err(Fault::Refused(error)) => Err(CallError::OpenComment {
                offset: error.offset.saturating_add(skipped),
            }),
            Err(Fault::Memory(error)) => Err(CallError::Memory(error)),
        },
        TextFormat::Toml => check_toml(buffers.alloc, parts.body, skipped),
    }
}

/// Returns an error if the text is not JSON, with an offset in a text that has some bytes before it.
///
/// # Errors
///
/// [`CallError::NotJson`], and [`CallError::Memory`] if an allocation fails.
fn check_json(buffers: &mut Buffers, text: &str, skipped: usize) -> Result<(), CallError>
    ensures reads { OnOk result ((d : Data) × (read text.now ≡ Some d)) }
    ensures refused { IfErr result (λ e. IsOutOfMemory e ⊎ IsNotJson text.now e) }
{
    if is_document(&mut buffers.old, text)? {
        return Ok(());
    }
    Err(CallError::NotJson {
        offset: stop(buffers.alloc, text)?.saturating_add(skipped),
    })
}

/// Makes the edit in the text, and returns the new one. Returns `None` if the edit deletes a value that is not
/// there.
///
/// # Errors
///
/// Those of [`OpenText::edit`], except [`CallError::NotInPlace`].
fn make(
    buffers: &mut Buffers,
    format: TextFormat,
    text: &str,
    edit: &Edit<'_>,
) -> Result<Option<MadeText>, CallError>
    ensures made { IfOk result (λ o. IfSome o (λ made.
        IsMade format text.now edit.now (string_bytes made.text) made.is_in_place)) }
    ensures nothing { IfOk result (λ o. MatchOption o (LacksIn format text.now edit.now) (λ _. ⊤)) }
    ensures refused { IfErr result (FailsToEdit format text.now edit.now) }
{
    let parts = parts_of(text);
    let Some(edited) = make_in(buffers, format, parts.body, edit)? else {
        return Ok(None);
    };
    let is_in_place = edited.is_in_place();
    let text = with_mark(buffers.alloc, parts.mark, edited.or_reprinted())?;
    Ok(Some(MadeText { text, is_in_place }))
}

/// Makes the edit in a text without a byte order mark, and returns the new one. Returns `None` if the edit
/// deletes a value that is not there.
///
/// # Errors
///
/// Those of [`make`].
fn make_in(
    buffers: &mut Buffers,
    format: TextFormat,
    body: &str,
    edit: &Edit<'_>,
) -> Result<Option<Edited>, CallError>
    ensures edited { IfOk result
        (λ o. IfSome o (λ e. EditsIn format body.now edit.now (edited_text e))) }
    ensures bytes { IfOk result
        (λ o. IfSome o (IfInPlace (BytesIn format body.now edit.now))) }
    ensures lines { IfOk result (λ o. IfSome o (IfInPlace (KeepsLine format body.now))) }
    ensures nothing { IfOk result
        (λ o. MatchOption o (LacksEditIn format body.now edit.now) (λ _. ⊤)) }
    ensures refused { IfErr result (FailsIn format body.now edit.now) }
{
    let alloc = buffers.alloc;
    match format {
        TextFormat::Json => match edit_text(buffers, body, edit) {
            Ok(edited) => Ok(Some(edited)),
            Err(error) => failed(alloc, body, error),
        },
        TextFormat::Commented => match CommentedText::read(alloc, body) {
            Ok(read) => match edit_commented(buffers, &read, edit) {
                Ok(edited) => Ok(Some(edited)),
                Err(error) => failed(alloc, read.bare.as_str(), error),
            },
            Err(Fault::Refused(error)) => Err(CallError::OpenComment {
                offset: error.offset,
            }),
            Err(Fault::Memory(error)) => Err(CallError::Memory(error)),
        },
        TextFormat::Toml => edit_in_toml(alloc, body, edit),
    }
}

/// Returns the text of the document of the new text, in the layout of this text, with its byte order mark.
///
/// # Errors
///
/// [`CallError::NotJson`], and [`CallError::Memory`] if an allocation fails.
fn lay_out(buffers: &mut Buffers, text: &str, new: &str) -> Result<MadeText, CallError>
    ensures made { IfOk result
        (λ made. IsLaidOut text.now new.now (string_bytes made.text) made.is_in_place) }
    ensures refused { IfErr result (IsNotLaidOut text.now new.now) }
{
    let alloc = buffers.alloc;
    let parts = parts_of(text);
    let relaid = match relayout_text(buffers, parts.body, new) {
        Ok(relaid) => relaid,
        Err(RelayoutTextError::OldNotJson) => return Err(CallError::NotJson {
            offset: stop(alloc, parts.body)?,
        }),
        Err(RelayoutTextError::NewNotJson) => return Err(CallError::NotJson {
            offset: stop(alloc, new)?,
        }),
        Err(RelayoutTextError::Memory(error)) => return Err(CallError::Memory(error)),
    };
    let is_in_place = is_kept(&relaid);
    let text = with_mark(alloc, parts.mark, relaid.into_string())?;
    Ok(MadeText { text, is_in_place })
}

/// Returns whether the text is in the layout of the old one.
fn is_kept(relaid: &Relaid) -> bool
    ensures { result ≡ is_kept relaid.now }
{
    matches!(relaid, Relaid::Kept(_))
}

/// Returns the error of a call whose edit fails, and `None` if it deletes a value that is not there. `json` is
/// the text without its comments.
///
/// # Errors
///
/// Those of [`make`].
fn failed(alloc: Global, json: &str, error: EditError) -> Result<Option<Edited>, CallError>
    ensures nothing { IfOk result (λ o. (o ≡ None) × (error ≡ NotThere)) }
    ensures refused { IfErr result (ReportsEdit error) }
{
    match error {
        EditError::NotJson => Err(CallError::NotJson {
            offset: stop(alloc, json)?,
        }),
        EditError::Assign(error) => Err(CallError::Assign(error)),
        EditError::NotThere => Ok(None),
        EditError::Rename(error) => Err(CallError::NotRenamed(error)),
        EditError::Patch(error) => Err(CallError::PatchFailed(error)),
        EditError::TooDeep => Err(CallError::TextTooDeep),
        EditError::Memory(error) => Err(CallError::Memory(error)),
    }
}
