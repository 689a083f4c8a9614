//! The one edit of a text that all others are made of.
ghost use Rattle.std.specs.Prelude.{IfOk, IfSome, string_bytes};
ghost use Rattle.jsonptr_text_step.specs.Steps.{StepsText, StepBytes};

use crate::add::add_at;
use crate::assign::assign_at;
use crate::delete::cut_out;
use crate::plan::Made;
use crate::rename::rename_at;
use crate::replace::replace_at;
use jsonptr::Pointer;
use jsonptr_text_layout::value_text::ValueText;
use jsonptr_text_piece::buffers::Buffers;
use jsonptr_text_value::RawValue;
use std::alloc::AllocError;

/// One edit of a text. It borrows what it names.
#[derive(Clone, Copy, Debug)]
pub enum Step<'a> {
    /// Assigns the value at the pointer, as [`assign_in_text`](crate::assign_in_text) does.
    Assign(Pointer<'a>, &'a RawValue),
    /// Deletes the value at the pointer, as [`delete_in_text`](crate::delete_in_text) does.
    Delete(Pointer<'a>),
    /// Adds the value of the text at the pointer, as the operation `add` does (RFC 6902, section 4.1).
    Add(Pointer<'a>, &'a ValueText),
    /// Replaces the value at the pointer by that of the text, as the operation `replace` does (RFC 6902,
    /// section 4.3).
    Replace(Pointer<'a>, &'a ValueText),
    /// Renames the member at the pointer, as [`rename_in_text`](crate::rename_in_text) does.
    Rename(Pointer<'a>, &'a str),
}

/// Makes the edit in the text. Returns `None` where the document would have to be printed anew, and for each
/// error of the edit but a failed allocation.
///
/// The result says what the edit did, so that a crate above can do the same in a text with comments.
///
/// # Errors
///
/// [`AllocError`] if an allocation fails.
///
/// # Examples
///
/// ```rust
/// let mut buffers = Buffers::new(alloc);
/// let step = Step::Delete(Pointer::parse("/0")?);
/// let made = take_step(&mut buffers, "[1.0, 2]", step)?.ok_or("an edit")?;
/// assert_eq!(rt; made.text.as_str(), "[2]");
/// assert!(rt; take_step(&mut buffers, "[]", step)?.is_none());
/// ```
pub fn take_step(
    buffers: &mut Buffers,
    text: &str,
    step: Step<'_>,
) -> Result<Option<Made>, AllocError>
    ensures stepped { IfOk result (λ o. IfSome o
        (λ made. StepsText text.now step.entry (string_bytes made.text))) }
    ensures bytes { IfOk result (λ o. IfSome o
        (λ made. StepBytes text.now step.entry (string_bytes made.text))) }
{
    match step {
        Step::Assign(pointer, raw) => assign_at(buffers, text, pointer, raw),
        Step::Delete(pointer) => cut_out(buffers, text, pointer),
        Step::Add(pointer, printed) => add_at(buffers, text, pointer, printed),
        Step::Replace(pointer, printed) => replace_at(buffers, text, pointer, printed),
        Step::Rename(pointer, key) => rename_at(buffers, text, pointer, key),
    }
}
