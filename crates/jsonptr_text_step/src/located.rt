//! Where a value is in a text.
ghost use Rattle.std.specs.Prelude.{◌≡◌, IfOk, IfErr, IfSome};
ghost use Rattle.jsonptr.specs.Pointer.{tokens};
ghost use Rattle.jsonptr_text_step.specs.Locating.{IsLocated, IsLocateError, locate_of_in_text};
ghost use Rattle.jsonptr_text_step.specs.declared.located.LocateError.TheVariants.{Memory};

use crate::front::{Target, leads_after};
use jsonptr::{Pointer, resolve};
use jsonptr_text_layout::place::place_at;
use jsonptr_text_piece::buffers::Buffers;
use jsonptr_text_piece::cut::{Cut, cut_at};
use jsonptr_text_piece::spacing::is_trimmed;
use jsonptr_text_resolve::selectors::selectors_of;
use jsonptr_text_resolve::{InTextError, resolve_in_text_with};
use std::alloc::AllocError;
use thiserror::Error;

/// A text that is cut before and after one of its values.
#[derive(Clone, Copy, Debug, Drop)]
pub struct Located<'t> {
    /// What is before the value. Its length is the offset of the value, in bytes.
    pub before: &'t str,
    /// The text of the value, without white space around it.
    pub value: &'t str,
    /// What is after the value.
    pub after: &'t str,
}

/// Why the text of a value is not found.
#[derive(Debug, Drop, Error)]
pub enum LocateError {
    /// `serde_json` does not read the text.
    #[error("text is not JSON")]
    NotJson,
    /// The text is a document in which the pointer does not resolve to a value.
    #[error(transparent)]
    Resolve(resolve::Error),
    /// The value is there, but the check of its offsets failed. No text is known for which it does.
    #[error("value cannot be located in the text")]
    NotLocated,
    /// An allocation failed.
    #[error("out of memory")]
    Memory(AllocError),
}

impl From<InTextError> for LocateError {
    ghost from_gives = { λ error fault. fault ≡ locate_of_in_text error };

    fn from(error: InTextError) -> LocateError {
        match error {
            InTextError::NotJson => LocateError::NotJson,
            InTextError::Resolve(error) => LocateError::Resolve(error),
            InTextError::Memory(error) => LocateError::Memory(error),
        }
    }
}

impl From<AllocError> for LocateError {
    ghost from_gives = { λ error fault. fault ≡ Memory error };

    fn from(error: AllocError) -> LocateError {
        LocateError::Memory(error)
    }
}

/// Returns where the value that the pointer resolves to is in the JSON text.
///
/// The result borrows the text: it is the text in three parts, and the second is the text of that
/// value, with its members in their order, its numbers and escapes as they are written, and the white
/// space within it. Of a repeated key the last member counts.
///
/// Reads the text twice, and what follows `before` once more. Builds no document. `buffers` keep their memory
/// from text to text. No call minds what an earlier one left, also after an error.
///
/// # Errors
///
/// - [`LocateError::NotJson`] if `serde_json` does not read the text.
/// - [`LocateError::Resolve`] if the pointer does not resolve to a value.
/// - [`LocateError::NotLocated`] if the check of the offsets fails.
/// - [`LocateError::Memory`] if an allocation fails.
///
/// # Examples
///
/// ```rust
/// let mut buffers = Buffers::new(alloc);
/// let text = r#"{"b": [1.0, 1e5], "a": {}}"#;
/// let located = locate(&mut buffers, text, Pointer::parse("/b")?)?;
/// assert_eq!(rt; (located.before.len(), located.value), (6, "[1.0, 1e5]"));
/// let all = locate(&mut buffers, " [1]\n", Pointer::root())?;
/// assert_eq!(rt; all.value, "[1]");
/// ```
pub fn locate<'t>(
    buffers: &mut Buffers,
    text: &'t str,
    pointer: Pointer<'_>,
) -> Result<Located<'t>, LocateError>
    ensures located { IfOk result (λ l. IsLocated text.now (tokens pointer.entry)
        l.before.now l.value.now l.after.now) }
    ensures refused { IfErr result (IsLocateError text.now (tokens pointer.entry)) }
{
    match cut_around(buffers, text, pointer) {
        Ok(Some(cut)) => Ok(Located {
            before: cut.before,
            value: cut.middle,
            after: cut.after,
        }),
        Ok(None) => match resolve_in_text_with(buffers.alloc, &mut buffers.old, text, pointer) {
            Ok(_value) => Err(LocateError::NotLocated),
            Err(error) => Err(LocateError::from(error)),
        },
        Err(error) => Err(LocateError::Memory(error)),
    }
}

/// Returns the text cut around the value, or `None` if it is not found.
fn cut_around<'t>(
    buffers: &mut Buffers,
    text: &'t str,
    pointer: Pointer<'_>,
) -> Result<Option<Cut<'t>>, AllocError>
    ensures { IfOk result (λ found. IfSome found (λ c. IsLocated text.now (tokens pointer.entry)
        c.before.now c.middle.now c.after.now)) }
{
    let alloc = buffers.alloc;
    let selectors = selectors_of(alloc, pointer)?;
    let Some(place) = place_at(buffers, text, &selectors)? else {
        return Ok(None);
    };
    let Some(cut) = cut_at(text, place.value.from, place.value.to) else {
        return Ok(None);
    };
    let target = Target {
        selectors: &selectors,
        positions: &place.positions,
        value: cut.middle,
    };
    if is_trimmed(cut.middle) && leads_after(buffers, text, cut.before, target)? {
        Ok(Some(cut))
    } else {
        Ok(None)
    }
}
