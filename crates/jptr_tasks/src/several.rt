//! Several edits of a document, one after another: all of them, or none.
ghost use Rattle.std.specs.Prelude.{◌≡◌, ◌↔◌, ◌∷◌, ◌++◌, [], IsTrue, false, IfOk, IfErr, MatchOption, OnOk, string_bytes};
ghost use Rattle.std.specs.Cow.{cow_str_bytes};
ghost use Rattle.jsonptr_text_digits.specs.Digits.{KeepsDigits};
ghost use Rattle.jsonptr_text_edit.specs.Edited.{text_of, is_in_place, IfInPlace};
ghost use Rattle.jsonptr_text_edit.specs.Edits.{EditsText, EditBytes};
ghost use Rattle.jsonptr_text_step.specs.OneLine.{StaysOneLine};
ghost use Rattle.jptr_tasks.specs.Reprinting.{KeepsGivenDigits};
ghost use Rattle.jptr_tasks.specs.PrivateSeveral.{IsPassedOverIn, IsMadeError, IsEditFault, IsOutOfMemory};
ghost use Rattle.jptr_tasks.specs.Several.{MakesEach, MakesEdit, StopsEach, IsFailedEdit, SkipsEdit, ChangesText, MakesText, MakesWithComments, IsPassedOver, IsStepError, IsBareError, IsCommentedStepError, IsTextError, IsAllowed, ExpandsBy, ChecksDigits, of_exact_error};
ghost use Rattle.jptr_tasks.specs.declared.several.StepError.TheVariants as step;

use crate::expansion::{ExpansionError, check_expansion};
use crate::reprint::{DigitLoss, ExactError, edit_exactly};
use crate::task_error::TaskError;
use jsonptr::Fault;
use jsonptr_comments::{CommentError, CommentedText};
use jsonptr_comments_edit::edit_commented;
use jsonptr_text_edit::{Buffers, Edit, EditError, Edited, edit_text};
use std::alloc::Global;

/// How edits are made one after another.
#[derive(Clone, Copy, Debug)]
pub struct EditRules {
    /// Whether an assignment may create containers, and replace scalars by them.
    pub expands: bool,
    /// Whether a deletion is passed over if its pointer resolves to nothing.
    pub skips_missing: bool,
    /// Whether the document may be printed anew if an edit cannot be made in place.
    pub reprints: bool,
    /// Whether numbers may lose digits in a document that is printed anew.
    pub is_lossy: bool,
    /// Whether the text may have comments and trailing commas. While it has some, it is not printed anew.
    pub has_comments: bool,
}

/// Why one of several edits is not made.
#[derive(Debug, Drop)]
pub enum StepError {
    /// A block comment of the text is not closed.
    Comment(CommentError),
    /// It would create a container, or replace a scalar by one, and the rules do not allow that.
    Expands(ExpansionError),
    /// It is not possible, or not in place.
    Edit(TaskError),
    /// It is possible, but not in place, and in a document that is printed anew a number would lose digits.
    Loses(DigitLoss),
}

/// The first of several edits that is not made.
#[derive(Debug, Drop)]
pub struct FailedEdit {
    /// Its index among the edits. It counts from 0.
    pub index: usize,
    /// The text after the edits before it.
    pub before: String,
    /// Why it is not made.
    pub error: StepError,
}

impl From<ExpansionError> for StepError {
    ghost from_gives = { λ error step_error. step_error ≡ step.Expands error };

    fn from(error: ExpansionError) -> StepError {
        StepError::Expands(error)
    }
}

impl From<ExactError> for StepError {
    ghost from_gives = { λ error step_error. step_error ≡ of_exact_error error };

    fn from(error: ExactError) -> StepError {
        match error {
            ExactError::Edit(error) => StepError::Edit(TaskError::from(error)),
            ExactError::Loses(loss) => StepError::Loses(loss),
        }
    }
}

/// Makes the edits in the text, one after another, each in the text that the one before left.
///
/// Each is made in place, or else in the document, which is printed anew with a line break after it, if the rules
/// allow that.
///
/// # Errors
///
/// The first edit that is not made: its index, the text before it, and why. What the edits before it changed is in
/// that text alone.
///
/// # Examples
///
/// ```rust
/// let mut buffers = Buffers::new(alloc);
/// let rules = EditRules {
///     expands: false,
///     skips_missing: true,
///     reprints: false,
///     is_lossy: false,
///     has_comments: false,
/// };
/// let first = Edit::Assign(Pointer::parse("/a")?, RawValue::parse(alloc, "1.0")?);
/// let edits = vec![in alloc; first, Edit::Delete(Pointer::parse("/b")?)]?;
/// let text = String::from_str(alloc, "{\"a\": 2}\n")?;
/// let new = edit_each(&mut buffers, text, edits.as_slice(), rules).ok().ok_or("a text")?;
/// assert_eq!(rt; new.as_str(), "{\"a\": 1.0}\n");
/// let rules = EditRules { skips_missing: false, ..rules };
/// let failed = edit_each(&mut buffers, new, edits.as_slice(), rules).err().ok_or("an error")?;
/// assert_eq!(rt; failed.index, 1);
/// assert!(rt; matches!(failed.error, StepError::Edit(TaskError::NotThere)));
/// ```
pub fn edit_each(
    buffers: &mut Buffers,
    text: String,
    edits: &[Edit<'_>],
    rules: EditRules,
) -> Result<String, FailedEdit>
    ensures edited { IfOk result (λ s. MakesEach rules (string_bytes text) edits.now (string_bytes s)) }
    ensures refused { IfErr result (StopsEach rules (string_bytes text) edits.now) }
{
    let mut new = text;
    'edits: for (index, edit) in edits.iter().enumerate() {
        new = edit_next(buffers, new, index, edit, rules)?;
    }
    Ok(new)
}

/// Makes the edit with this index in the text, and returns the new text: the same, if the edit is passed over.
fn edit_next(
    buffers: &mut Buffers,
    before: String,
    index: usize,
    edit: &Edit<'_>,
    rules: EditRules,
) -> Result<String, FailedEdit>
    ensures edited { IfOk result (λ s. MakesEdit rules (string_bytes before) edit.now (string_bytes s)) }
    ensures refused { IfErr result (IsFailedEdit rules (string_bytes before) index edit.now) }
{
    match edit_once(buffers, before.as_str(), edit, rules) {
        Ok(Some(new)) => Ok(new),
        Ok(None) => Ok(before),
        Err(error) => Err(FailedEdit {
            index,
            before,
            error,
        }),
    }
}

/// Makes the edit in the text, which may have comments if the rules say so. Returns `None` if it is passed over.
fn edit_once(
    buffers: &mut Buffers,
    text: &str,
    edit: &Edit<'_>,
    rules: EditRules,
) -> Result<Option<String>, StepError>
    ensures edited { IfOk result (λ o. MatchOption o
        (SkipsEdit rules text.now edit.now)
        (λ s. ChangesText rules text.now edit.now (string_bytes s))) }
    ensures refused { IfErr result (IsStepError rules text.now edit.now) }
{
    if !rules.has_comments {
        return edit_bare(buffers, text, edit, rules);
    }
    let commented = match CommentedText::read(buffers.alloc, text) {
        Ok(commented) => commented,
        Err(Fault::Refused(error)) => return Err(StepError::Comment(error)),
        Err(Fault::Memory(error)) => return Err(StepError::Edit(TaskError::Memory(error))),
    };
    if is_same(commented.bare.as_str(), text) {
        edit_bare(buffers, text, edit, rules)
    } else {
        edit_with_comments(buffers, &commented, edit, rules)
    }
}

/// Returns whether the texts are equal.
fn is_same(text: &str, other: &str) -> bool
    ensures { IsTrue result ↔ (text.now ≡ other.now) }
{
    text == other
}

/// Makes the edit in the text, which has no comments. Returns `None` if it is passed over.
fn edit_bare(
    buffers: &mut Buffers,
    text: &str,
    edit: &Edit<'_>,
    rules: EditRules,
) -> Result<Option<String>, StepError>
    ensures allowed { OnOk result (IsAllowed rules text.now edit.now) }
    ensures edited { IfOk result (λ o. MatchOption o
        (IsPassedOver rules text.now edit.now)
        (λ s. MakesText rules text.now edit.now (string_bytes s))) }
    ensures refused { IfErr result (IsBareError rules text.now edit.now) }
{
    check_edit(buffers.alloc, text, edit, rules)?;
    match new_text(buffers, text, edit, rules) {
        Ok(new) => Ok(Some(new)),
        Err(StepError::Edit(TaskError::NotThere)) if rules.skips_missing => Ok(None),
        Err(error) => Err(error),
    }
}

/// Makes the edit in the text with comments. Returns `None` if it is passed over.
fn edit_with_comments(
    buffers: &mut Buffers,
    text: &CommentedText<'_>,
    edit: &Edit<'_>,
    rules: EditRules,
) -> Result<Option<String>, StepError>
    ensures allowed { OnOk result (IsAllowed rules (cow_str_bytes text.now.bare) edit.now) }
    ensures edited { IfOk result (λ o. MatchOption o
        (IsPassedOverIn rules text.now.text.now edit.now)
        (λ s. MakesWithComments text.now.text.now edit.now (string_bytes s))) }
    ensures refused { IfErr result
        (IsCommentedStepError rules text.now.text.now (cow_str_bytes text.now.bare) edit.now) }
{
    check_edit(buffers.alloc, text.bare.as_str(), edit, rules)?;
    match edit_commented(buffers, text, edit) {
        Ok(Edited::InPlace(new)) => Ok(Some(new)),
        Ok(Edited::Reprinted(_new)) => Err(StepError::Edit(TaskError::NotInPlace)),
        Err(EditError::NotThere) if rules.skips_missing => Ok(None),
        Err(error) => Err(StepError::Edit(TaskError::from(error))),
    }
}

/// Checks that the rules allow the edit: that it creates no container, and replaces no scalar by one, if it is an
/// assignment and the rules ask that.
fn check_edit(
    alloc: Global,
    text: &str,
    edit: &Edit<'_>,
    rules: EditRules,
) -> Result<(), ExpansionError>
    ensures allowed { OnOk result (IsAllowed rules text.now edit.now) }
    ensures refused { IfErr result (λ e. (rules.expands ≡ false) × ExpandsBy text.now edit.now e) }
{
    match edit {
        Edit::Assign(pointer, _raw) if !rules.expands => check_expansion(alloc, text, *pointer),
        _ => Ok(()),
    }
}

/// Returns the text after the edit, with a line break if the document is printed anew.
fn new_text(
    buffers: &mut Buffers,
    text: &str,
    edit: &Edit<'_>,
    rules: EditRules,
) -> Result<String, StepError>
    ensures edited { IfOk result (λ s. MakesText rules text.now edit.now (string_bytes s)) }
    ensures refused { IfErr result (IsTextError rules text.now edit.now) }
{
    match make(buffers, text, edit, rules)? {
        Edited::InPlace(new) => Ok(new),
        Edited::Reprinted(new) => {
            if !rules.reprints {
                return Err(StepError::Edit(TaskError::NotInPlace));
            }
            with_break(new)
        }
    }
}

/// Returns the text with a line break after it.
fn with_break(text: String) -> Result<String, StepError>
    ensures broken { IfOk result (λ s. string_bytes s ≡ string_bytes text ++ 10 ∷ []) }
    ensures refused { IfErr result IsOutOfMemory }
{
    let mut text = text;
    match text.push('\n') {
        Ok(()) => Ok(text),
        Err(error) => Err(StepError::Edit(TaskError::Memory(error))),
    }
}

/// Makes the edit in the text, in place or in the document. No number may lose digits in a document that is printed
/// anew, unless the rules allow that.
fn make(
    buffers: &mut Buffers,
    text: &str,
    edit: &Edit<'_>,
    rules: EditRules,
) -> Result<Edited, StepError>
    ensures edited { IfOk result (λ e. EditsText text.now edit.now (text_of e)) }
    ensures bytes { IfOk result (IfInPlace (EditBytes text.now edit.now)) }
    ensures one_line { IfOk result (IfInPlace (StaysOneLine text.now)) }
    ensures digits { IfOk result (λ e. is_in_place e ≡ false → ChecksDigits rules
        → KeepsDigits text.now × KeepsGivenDigits edit.now) }
    ensures refused { IfErr result (IsMadeError rules text.now edit.now) }
{
    if rules.reprints && !rules.is_lossy {
        Ok(edit_exactly(buffers, text, edit)?)
    } else {
        edit_freely(buffers, text, edit)
    }
}

/// Makes the edit in the text, in place or in the document.
fn edit_freely(buffers: &mut Buffers, text: &str, edit: &Edit<'_>) -> Result<Edited, StepError>
    ensures edited { IfOk result (λ e. EditsText text.now edit.now (text_of e)) }
    ensures bytes { IfOk result (IfInPlace (EditBytes text.now edit.now)) }
    ensures one_line { IfOk result (IfInPlace (StaysOneLine text.now)) }
    ensures refused { IfErr result (IsEditFault text.now edit.now) }
{
    match edit_text(buffers, text, edit) {
        Ok(edited) => Ok(edited),
        Err(error) => Err(StepError::Edit(TaskError::from(error))),
    }
}
