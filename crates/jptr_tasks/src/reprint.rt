//! An edit of a text that is made in place, or else in a document that is printed anew, if no digit is lost.
ghost use Rattle.std.specs.Prelude.{◌≡◌, false, All, IfOk, IfErr, MatchOption};
ghost use Rattle.jsonptr_text_digits.specs.Digits.{KeepsDigits};
ghost use Rattle.jsonptr_text_step.specs.OneLine.{StaysOneLine};
ghost use Rattle.jsonptr_text_edit.specs.Edited.{text_of, is_in_place, IfInPlace};
ghost use Rattle.jsonptr_text_edit.specs.Edits.{EditsText, EditBytes};
ghost use Rattle.jptr_tasks.specs.Reprinting.{KeepsGiven, KeepsGivenDigits, LosesDigits, LosesAt, LosesGiven, LosesIn, IsExactError};
ghost use Rattle.jptr_tasks.specs.declared.reprint.ExactError.TheVariants as exact;

use jsonptr_text_digits::{Lost, find_lost};
use jsonptr_text_edit::{Buffers, Edit, EditError, Edited, RawOperation, edit_text};
use std::alloc::{AllocError, Global};

/// The first number that would lose digits in a document that is printed anew, and what it is in.
#[derive(Debug, Drop)]
pub enum DigitLoss {
    /// In the document.
    Document(Lost),
    /// In the value that is assigned.
    Value(Lost),
    /// In the value of the patch's operation at this index. It counts from 0.
    Operation(usize, Lost),
}

/// Why an edit is not made, if no number may lose digits.
#[derive(Debug, Drop)]
pub enum ExactError {
    /// The edit is not possible.
    Edit(EditError),
    /// The edit is possible, but not in place, and in a document that is printed anew a number would lose
    /// digits.
    Loses(DigitLoss),
}

impl From<EditError> for ExactError {
    ghost from_gives = { λ error exact_error. exact_error ≡ exact.Edit error };

    fn from(error: EditError) -> ExactError {
        ExactError::Edit(error)
    }
}

/// Makes the edit in the text, once: in place, or in the document, which is printed anew. It is printed only if
/// each number of the text, and of the values that the edit brings, keeps its decimal value.
///
/// Costs what [`edit_text`] does. Where the document is printed, also reads the text and these values once.
///
/// # Errors
///
/// - [`ExactError::Edit`] with the error of [`edit_text`].
/// - [`ExactError::Loses`] if the document would have to be printed, and a number would lose digits: the first
///   one of the text, or else of the values.
///
/// # Examples
///
/// ```rust
/// let mut buffers = Buffers::new(alloc);
/// let edit = Edit::Rename(Pointer::parse("/a")?, "b");
/// let edited = edit_exactly(&mut buffers, "{\"a\": 1.50, \"a\": 2}", &edit)?;
/// assert_eq!(rt; edited.or_reprinted().as_str(), "{\"b\":2}");
/// let lost = edit_exactly(&mut buffers, "{\"a\": 18446744073709551616, \"a\": 2}", &edit);
/// assert!(rt; matches!(lost, Err(ExactError::Loses(DigitLoss::Document(_)))));
/// ```
pub fn edit_exactly(
    buffers: &mut Buffers,
    text: &str,
    edit: &Edit<'_>,
) -> Result<Edited, ExactError>
    ensures edited { IfOk result (λ e. EditsText text.now edit.now (text_of e)) }
    ensures bytes { IfOk result (IfInPlace (EditBytes text.now edit.now)) }
    ensures one_line { IfOk result (IfInPlace (StaysOneLine text.now)) }
    ensures digits { IfOk result (λ e. is_in_place e ≡ false
        → KeepsDigits text.now × KeepsGivenDigits edit.now) }
    ensures refused { IfErr result (IsExactError text.now edit.now) }
{
    let edited = edit_text(buffers, text, edit)?;
    if edited.is_in_place() {
        return Ok(edited);
    }
    match first_loss(buffers.alloc, text, edit) {
        Ok(None) => Ok(edited),
        Ok(Some(loss)) => Err(ExactError::Loses(loss)),
        Err(error) => Err(ExactError::Edit(EditError::Memory(error))),
    }
}

/// Returns the first number that loses digits in the text, or else in a value that the edit brings.
///
/// # Errors
///
/// [`AllocError`] if an allocation fails.
fn first_loss(alloc: Global, text: &str, edit: &Edit<'_>) -> Result<Option<DigitLoss>, AllocError>
    ensures { IfOk result (λ o. MatchOption o (KeepsDigits text.now × KeepsGivenDigits edit.now)
        (LosesDigits text.now edit.now)) }
{
    match find_lost(alloc, text)? {
        Some(lost) => Ok(Some(DigitLoss::Document(lost))),
        None => given_loss(alloc, edit),
    }
}

/// Returns the first number that loses digits in a value that the edit brings.
///
/// # Errors
///
/// [`AllocError`] if an allocation fails.
fn given_loss(alloc: Global, edit: &Edit<'_>) -> Result<Option<DigitLoss>, AllocError>
    ensures { IfOk result (λ o. MatchOption o (KeepsGivenDigits edit.now) (LosesGiven edit.now)) }
{
    match edit {
        Edit::Assign(_pointer, raw) => match find_lost(alloc, raw.printed.flat.as_str())? {
            Some(lost) => Ok(Some(DigitLoss::Value(lost))),
            None => Ok(None),
        },
        Edit::Patch(patch) => match loss_of_operations(alloc, patch.operations.as_slice())? {
            Some((index, lost)) => Ok(Some(DigitLoss::Operation(index, lost))),
            None => Ok(None),
        },
        Edit::Delete(_pointer) => Ok(None),
        Edit::Rename(_pointer, _key) => Ok(None),
    }
}

/// Returns the first number that loses digits in the values of the operations, and the index of its operation.
///
/// # Errors
///
/// [`AllocError`] if an allocation fails.
fn loss_of_operations(
    alloc: Global,
    operations: &[RawOperation],
) -> Result<Option<(usize, Lost)>, AllocError>
    ensures { IfOk result (λ o. MatchOption o (All KeepsGiven operations.now)
        (λ found. LosesAt operations.now found.0 found.1)) }
{
    'operations: for (index, operation) in operations.iter().enumerate() {
        if let Some(lost) = loss_of_operation(alloc, operation)? {
            return Ok(Some((index, lost)));
        }
    }
    Ok(None)
}

/// Returns the first number that loses digits in the value of the operation, if it has a text.
///
/// # Errors
///
/// [`AllocError`] if an allocation fails.
fn loss_of_operation(alloc: Global, operation: &RawOperation) -> Result<Option<Lost>, AllocError>
    ensures { IfOk result (λ o. MatchOption o (KeepsGiven operation.now) (LosesIn operation.now)) }
{
    match &operation.raw {
        Some(raw) => find_lost(alloc, raw.printed.flat.as_str()),
        None => Ok(None),
    }
}
