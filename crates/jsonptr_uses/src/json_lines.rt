//! A stream with a document on each line, and a document as lines of pointers and values.
ghost use Rattle.std.specs.Prelude.{◌≡◌, ◌≢◌, ◌∷◌, ◌++◌, [], List, Some, IfOk, IfErr, IsTrue, IsFalse, Err, ℕ};
ghost use Rattle.std.specs.Io.KnownBytes.{Appends};
ghost use Rattle.serde_json.specs.Data.{Data};
ghost use Rattle.serde_json.specs.Read.{read};
ghost use Rattle.jsonptr.specs.Pointer.{tokens};
ghost use Rattle.jsonptr.specs.Text.{Text};
ghost use Rattle.jsonptr_text_value.specs.Raw.{value_of_raw};
ghost use Rattle.jsonptr_io.specs.Lines.{AreLines};
ghost use Rattle.jsonptr_io.specs.Streams.{ForInput};
ghost use Rattle.jsonptr_text_paths.specs.Listing.{Lists};
ghost use Rattle.jsonptr_text_paths.specs.declared.listing.Listed.TheVariants.{Leaves};
ghost use Rattle.jsonptr_text_paths.specs.declared.build.LineError.{LineError};
ghost use Rattle.jptr_tasks.specs.Layouts.{ReadsBack};
ghost use Rattle.jptr_tasks.specs.LineResults.{StopsRun};
ghost use Rattle.jptr_tasks.specs.declared.task_error.TaskError.TheVariants.{BadLine};
ghost use Rattle.jptr_tasks.specs.declared.layout.Layout.TheVariants.{Compact};
ghost use Rattle.jsonptr_uses.specs.JsonLines.{TagsEach};

use jptr_tasks::laws::paths_law;
use jptr_tasks::layout::Layout;
use jptr_tasks::line::LineTask;
use jptr_tasks::lines::{Ended, run_lines};
use jptr_tasks::paths::{run_build, run_list};
use jptr_tasks::task::Task;
use jptr_tasks::task_error::TaskError;
use jsonptr::Pointer;
use jsonptr_text_edit::{Edit, RawValue};
use jsonptr_text_paths::listing::Listed;
use jsonptr_text_paths::text_listing::list_in_text;
use jsonptr_value::ReadError;
use std::alloc::Global;
use std::io;

/// A value for each line of a log, and where it is assigned.
#[derive(Debug, Drop)]
pub struct Tag<'a> {
    /// Where.
    pub pointer: Pointer<'a>,
    /// The value.
    pub raw: RawValue,
}

/// Assigns the tag in the document on each line, as a log is tagged with its source.
/// Returns whether each line has a result. If not, the others are on `errors`, with their numbers.
///
/// # Errors
///
/// Those of [`run_lines`].
pub fn tag_each_line<R: io::BufRead, W: io::Write, E: io::Write>(
    alloc: Global,
    tag: Tag<'_>,
    input: &mut R,
    output: &mut W,
    errors: &mut E,
) -> Result<bool, TaskError>
    ensures tagged { IfOk result (λ all. IsTrue all → ForInput (R.remaining input.old)
        (λ bytes. (ls : List Text) × (out : Text) × AreLines bytes ls
        × TagsEach (tokens tag.entry.pointer) (value_of_raw tag.entry.raw) ls out
        × Appends (W.contents output.old) (W.contents output.new) out)) }
    ensures reported { IfOk result (λ all. IsFalse all → (report : Text) × (report ≢ [])
        × Appends (E.contents errors.old) (E.contents errors.new) report) }
    ensures refused { IfErr result StopsRun }
{
    let run = LineTask {
        task: Task::Edit(Edit::Assign(tag.pointer, tag.raw)),
        layout: Layout::Kept,
        fallback: None,
        name: String::from_str(alloc, "log")?,
        is_strict: false,
    };
    match run_lines(alloc, &run, input, output, errors)? {
        Ended::Fine => Ok(true),
        Ended::WithErrors | Ended::Stopped => Ok(false),
    }
}

/// Reads a document, lists its nodes as lines, and writes the document that these lines build, in one
/// line. So a document is stored as lines between two programs.
///
/// # Errors
///
/// Those of [`run_list`] and [`run_build`], except that no line is at fault.
pub fn copy_through_lines<R: io::Read, W: io::Write>(
    alloc: Global,
    input: &mut R,
    output: &mut W,
) -> Result<(), TaskError>
    ensures copied { IfOk result (λ _. ForInput (R.remaining input.old)
        (λ bytes. (d : Data) × (shown : Text)
        × (read bytes ≡ Some d) × ReadsBack Compact d shown
        × Appends (W.contents output.old) (W.contents output.new) (shown ++ 10 ∷ []))) }
    ensures no_line { (number : ℕ) (e : LineError) → result ≡ Err (BadLine number e) → ⊥ }
{
    paths_law();
    let mut bytes = Vec::new(alloc);
    let mut lines = Vec::new(alloc);
    run_list(Listed::AllNodes, input, &mut bytes, &mut lines)?;
    let mut stored = lines.as_slice();
    run_build(alloc, Layout::Compact, &mut stored, output)
}

/// Returns whether the leaves of the document of the text are these lines, as a test of a JSON file
/// asks.
///
/// # Errors
///
/// Those of [`list_in_text`].
pub fn has_leaves(alloc: Global, text: &str, lines: &str) -> Result<bool, ReadError>
    ensures leaves { IfOk result (λ same. IsTrue same
        → (d : Data) × (read text.now ≡ Some d) × Lists Leaves d lines.now) }
{
    let listed = list_in_text(alloc, text, Listed::Leaves)?;
    Ok(listed.as_str() == lines)
}
