//! A task on one document.
ghost use Rattle.std.specs.Prelude.{◌≡◌, ◌↔◌, IfOk, IfErr, IfSome, IsTrue, OnOk, string_bytes};
ghost use Rattle.std.specs.Io.KnownBytes.{Appends};
ghost use Rattle.jsonptr_io.specs.Streams.{AppendsPrefix};
ghost use Rattle.jptr_tasks.specs.Documents.{Prints, TaskFailsOn, PutsDocument, StopsDocument, EndsInBreak};
ghost use Rattle.jptr_tasks.specs.declared.task_error.TaskError.TheVariants.{Write};

use crate::layout::Layout;
use crate::result::result_in_text;
use crate::task::Task;
use crate::task_error::TaskError;
use jsonptr_io::input::read_into;
use jsonptr_io::write::write_and_flush;
use simdutf8::basic::from_utf8;
use std::alloc::Global;
use std::io;

/// Returns what is printed for the task on the bytes of a document.
///
/// A document that keeps the layout of its text is printed unchanged. Every other result gets a line
/// break at its end.
///
/// # Errors
///
/// Those of [`result_in_text`]. Bytes that are not UTF-8 are not JSON.
///
/// # Examples
///
/// ```rust
/// let task = Task::Edit(Edit::Delete(Pointer::parse("/b")?));
/// let new = document_result(alloc, b"{\"a\": 1, \"b\": 1}", &task, Layout::Kept)?;
/// assert_eq!(rt; new.as_str(), "{\"a\": 1}");
/// let compact = document_result(alloc, b"{\"a\": 1, \"b\": 1}", &task, Layout::Compact)?;
/// assert_eq!(rt; compact.as_str(), "{\"a\":1}\n");
/// ```
pub fn document_result(
    alloc: Global,
    bytes: &[u8],
    task: &Task<'_>,
    layout: Layout,
) -> Result<String, TaskError>
    ensures yielded { IfOk result (λ s. Prints task.now layout bytes.now (string_bytes s)) }
    ensures refused { IfErr result (TaskFailsOn task.now layout bytes.now) }
{
    match from_utf8(bytes) {
        Ok(text) => text_result(alloc, text, task, layout),
        Err(_) => Err(TaskError::NotJson),
    }
}

/// Returns what is printed for the task on the text of a document, as [`document_result`] does.
///
/// # Errors
///
/// Those of [`result_in_text`].
///
/// # Examples
///
/// ```rust
/// let task = Task::Get(Pointer::parse("/a")?, None);
/// let value = text_result(alloc, "{\"a\": [1, 2]}", &task, Layout::Kept)?;
/// assert_eq!(rt; value.as_str(), "[1, 2]\n");
/// ```
pub fn text_result(
    alloc: Global,
    text: &str,
    task: &Task<'_>,
    layout: Layout,
) -> Result<String, TaskError>
    ensures yielded { IfOk result (λ s. Prints task.now layout text.now (string_bytes s)) }
    ensures refused { IfErr result (TaskFailsOn task.now layout text.now) }
{
    let mut new = result_in_text(alloc, text, task, layout)?;
    if ends_in_break(task, layout) {
        new.push('\n')?;
    }
    Ok(new)
}

/// Returns whether the result of the task gets a line break.
fn ends_in_break(task: &Task<'_>, layout: Layout) -> bool
    ensures { IsTrue result ↔ EndsInBreak task.now layout }
{
    match task {
        Task::Get(_, _) => true,
        Task::Edit(_) => layout != Layout::Kept,
    }
}

/// Reads the input to its end, and writes the result of the task on its document.
///
/// The bytes of the input are left in `bytes`, so that the caller can say more about an error. What
/// `bytes` had before is removed. All memory is that of the allocator of `bytes`.
///
/// # Errors
///
/// - Those of [`document_result`]; nothing is written then.
/// - [`TaskError::Read`] if a read fails, and [`TaskError::Write`] if a write or the flush fails.
///
/// # Examples
///
/// ```rust
/// let task = Task::Get(Pointer::parse("/a")?, None);
/// let mut input = b"{\"a\": [1, 2]}".as_slice();
/// let mut output = Vec::new(alloc);
/// let mut bytes = Vec::new(alloc);
/// run_document(&task, Layout::Kept, &mut input, &mut bytes, &mut output)?;
/// assert_eq!(rt; output.as_slice(), b"[1, 2]\n".as_slice());
/// ```
pub fn run_document<R: io::Read, W: io::Write>(
    task: &Task<'_>,
    layout: Layout,
    input: &mut R,
    bytes: &mut Vec<u8>,
    output: &mut W,
) -> Result<(), TaskError>
    ensures written { IfOk result (λ _. PutsDocument task.now layout (R.remaining input.old)
        (W.contents output.old) (W.contents output.new)) }
    ensures refused { IfErr result (StopsDocument task.now layout (R.remaining input.old)
        (W.contents output.old) (W.contents output.new)) }
{
    read_into(input, bytes)?;
    let new = document_result(*bytes.allocator(), bytes, task, layout)?;
    put_all(output, new.as_str())
}

/// Writes all of the text, and flushes.
pub(crate) fn put_all<W: io::Write>(output: &mut W, text: &str) -> Result<(), TaskError>
    ensures written { OnOk result
        (Appends (W.contents output.old) (W.contents output.new) text.now) }
    ensures refused { IfErr result (λ e. (e ≡ Write)
        × AppendsPrefix (W.contents output.old) (W.contents output.new) text.now) }
{
    Ok(write_and_flush(output, text.as_bytes())?)
}
