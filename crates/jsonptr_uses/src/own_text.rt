//! The text of a value as somebody wrote it, for a message, and where it is, for an editor.
ghost use Rattle.std.specs.Prelude.{◌≡◌, IfOk, IfErr, length, string_bytes};
ghost use Rattle.jsonptr.specs.Pointer.{tokens};
ghost use Rattle.jsonptr.specs.Text.{Text};
ghost use Rattle.jsonptr_text_resolve.specs.Format.{IsFormatted};
ghost use Rattle.jsonptr_text_resolve.specs.declared.format.Format.TheVariants.{Compact};
ghost use Rattle.jsonptr_text_step.specs.Locating.{IsLocated, IsLocateError};

use jsonptr::Pointer;
use jsonptr_text_edit::{Buffers, LocateError, locate};
use jsonptr_text_resolve::{Format, format_text};
use jsonptr_value::ReadError;

/// Returns the offset, in bytes, at which the value that the pointer resolves to begins.
///
/// # Errors
///
/// Those of [`locate`].
pub fn offset_of(
    buffers: &mut Buffers,
    text: &str,
    pointer: Pointer<'_>,
) -> Result<usize, LocateError>
    ensures offset { IfOk result (λ at. (before piece after : Text)
        × IsLocated text.now (tokens pointer.entry) before piece after × (at ≡ length before)) }
    ensures refused { IfErr result (IsLocateError text.now (tokens pointer.entry)) }
{
    let located = locate(buffers, text, pointer)?;
    Ok(located.before.len())
}

/// Returns the text of the value that the pointer resolves to on one line, with its members in their
/// order and its numbers as they are written.
///
/// # Errors
///
/// Those of [`locate`].
pub fn on_one_line(
    buffers: &mut Buffers,
    text: &str,
    pointer: Pointer<'_>,
) -> Result<String, LocateError>
    ensures shown { IfOk result (λ s. (before piece after : Text)
        × IsLocated text.now (tokens pointer.entry) before piece after
        × IsFormatted Compact piece (string_bytes s)) }
    ensures refused { IfErr result (IsLocateError text.now (tokens pointer.entry)) }
{
    let located = locate(buffers, text, pointer)?;
    match format_text(
        buffers.alloc,
        &mut buffers.old,
        located.value,
        Format::Compact,
    ) {
        Ok(line) => Ok(line),
        Err(ReadError::NotJson) => Err(LocateError::NotJson),
        Err(ReadError::Memory(error)) => Err(LocateError::Memory(error)),
    }
}
