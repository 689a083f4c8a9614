//! A program over a reader and a writer.
ghost use Rattle.std.specs.Prelude.{IfOk, IfErr, string_bytes};
ghost use Rattle.std.specs.Io.KnownBytes.{Appends};
ghost use Rattle.jsonptr.specs.Json.{nodes};
ghost use Rattle.jsonptr.specs.Pointer.{tokens};
ghost use Rattle.jsonptr.specs.Text.{Text};
ghost use Rattle.jsonptr_text_step.specs.Bytes.{AssignsBytes};
ghost use Rattle.jsonptr_text_value.specs.Raw.{value_of_raw};
ghost use Rattle.jsonptr_text_step.specs.Giving.{AssignsGiven};
ghost use Rattle.jsonptr_text_step.specs.EditInText.{AssignsInText};
ghost use Rattle.jsonptr_io.specs.Streams.{ForInput};
ghost use Rattle.jptr_tasks.specs.Documents.{StopsDocument};
ghost use Rattle.jptr_tasks.specs.declared.layout.Layout.TheVariants.{Kept};
ghost use Rattle.jptr_tasks.specs.declared.task.Task.TheVariants as task;
ghost use Rattle.jsonptr_text_edit.specs.declared.edit.Edit.TheVariants.{Assign};

use jptr_tasks::document::run_document;
use jptr_tasks::layout::Layout;
use jptr_tasks::task::Task;
use jptr_tasks::task_error::TaskError;
use jsonptr::Pointer;
use jsonptr_text_edit::{Edit, RawValue};
use std::alloc::Global;
use std::io;

/// Reads a document, and writes it with the value assigned at the pointer. Only the bytes of the
/// assignment change.
///
/// # Errors
///
/// Those of [`run_document`].
pub fn set_in_stream<R: io::Read, W: io::Write>(
    alloc: Global,
    pointer: Pointer<'_>,
    raw: RawValue,
    input: &mut R,
    output: &mut W,
) -> Result<(), TaskError>
    ensures assigned { IfOk result (λ _. ForInput (R.remaining input.old) (λ bytes. (out : Text)
        × AssignsInText bytes (tokens pointer.entry) (nodes (value_of_raw raw)) out
        × AssignsBytes bytes (tokens pointer.entry) (value_of_raw raw) out
        × AssignsGiven bytes (tokens pointer.entry) raw out
        × Appends (W.contents output.old) (W.contents output.new) out)) }
    ensures refused { IfErr result (StopsDocument (task.Edit (Assign pointer.entry raw)) Kept
        (R.remaining input.old) (W.contents output.old) (W.contents output.new)) }
{
    let task = Task::Edit(Edit::Assign(pointer, raw));
    let mut bytes = Vec::new(alloc);
    run_document(&task, Layout::Kept, input, &mut bytes, output)
}
