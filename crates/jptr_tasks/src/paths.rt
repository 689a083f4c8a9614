//! A document as lines, one for each node, and a document from such lines.
ghost use Rattle.std.specs.Prelude.{IfOk, IfErr, string_bytes};
ghost use Rattle.jptr_tasks.specs.Paths.{ListsText, FailsToList, BuildsText, FailsToBuild, PutsText, StopsText};

use crate::document::put_all;
use crate::layout::{Layout, show};
use crate::task_error::TaskError;
use jsonptr_io::input::read_into;
use jsonptr_text_paths::build::build;
use jsonptr_text_paths::listing::Listed;
use jsonptr_text_paths::text_listing::list_in_text;
use simdutf8::basic::from_utf8;
use std::alloc::Global;
use std::io;

/// Returns the lines for the nodes of the document that the bytes are, as `list_in_text` of
/// `jsonptr_text_paths` does.
///
/// # Errors
///
/// [`TaskError::NotJson`] if the bytes are not JSON, and [`TaskError::Memory`] if an allocation fails.
///
/// # Examples
///
/// ```rust
/// let lines = listed_text(alloc, b"{\"a\": [1, 2]}", Listed::Leaves)?;
/// assert_eq!(rt; lines.as_str(), "/a/0\t1\n/a/1\t2\n");
/// ```
pub fn listed_text(alloc: Global, bytes: &[u8], which: Listed) -> Result<String, TaskError>
    ensures listed { IfOk result (λ s. ListsText which bytes.now (string_bytes s)) }
    ensures refused { IfErr result (FailsToList bytes.now) }
{
    let Ok(text) = from_utf8(bytes) else {
        return Err(TaskError::NotJson);
    };
    Ok(list_in_text(alloc, text, which)?)
}

/// Returns the text of the document that the lines build, in this layout and with a line break at
/// its end.
///
/// # Errors
///
/// - [`TaskError::NotUtf8`] if the bytes are not UTF-8.
/// - [`TaskError::BadLine`] if a line adds no value.
/// - [`TaskError::Memory`] if an allocation fails.
///
/// # Examples
///
/// ```rust
/// let document = built_text(alloc, b"/a/0\t1\n/a/1\t2\n", Layout::Compact)?;
/// assert_eq!(rt; document.as_str(), "{\"a\":[1,2]}\n");
/// ```
pub fn built_text(alloc: Global, bytes: &[u8], layout: Layout) -> Result<String, TaskError>
    ensures built { IfOk result (λ s. BuildsText layout bytes.now (string_bytes s)) }
    ensures refused { IfErr result (FailsToBuild bytes.now) }
{
    let Ok(text) = from_utf8(bytes) else {
        return Err(TaskError::NotUtf8);
    };
    let document = build(alloc, text)?;
    let mut new = show(alloc, &document, layout)?;
    new.push('\n')?;
    Ok(new)
}

/// Reads the input to its end, and writes the lines for the nodes of its document.
///
/// The bytes of the input are left in `bytes`, so that the caller can say more about an error. What
/// `bytes` had before is removed. All memory is that of the allocator of `bytes`.
///
/// # Errors
///
/// - Those of [`listed_text`]; nothing is written then.
/// - [`TaskError::Read`] if a read fails, and [`TaskError::Write`] if a write or the flush fails.
///
/// # Examples
///
/// ```rust
/// let mut input = b"[true]".as_slice();
/// let mut output = Vec::new(alloc);
/// let mut bytes = Vec::new(alloc);
/// run_list(Listed::AllNodes, &mut input, &mut bytes, &mut output)?;
/// assert_eq!(rt; output.as_slice(), b"\t[]\n/0\ttrue\n".as_slice());
/// ```
pub fn run_list<R: io::Read, W: io::Write>(
    which: Listed,
    input: &mut R,
    bytes: &mut Vec<u8>,
    output: &mut W,
) -> Result<(), TaskError>
    ensures written { IfOk result (λ _. PutsText (ListsText which) (R.remaining input.old)
        (W.contents output.old) (W.contents output.new)) }
    ensures refused { IfErr result (StopsText (ListsText which) FailsToList (R.remaining input.old)
        (W.contents output.old) (W.contents output.new)) }
{
    read_into(input, bytes)?;
    let lines = listed_text(*bytes.allocator(), bytes, which)?;
    put_all(output, lines.as_str())
}

/// Reads the input to its end, and writes the document that its lines build.
///
/// # Errors
///
/// - Those of [`built_text`]; nothing is written then.
/// - [`TaskError::Read`] if a read fails, and [`TaskError::Write`] if a write or the flush fails.
///
/// # Examples
///
/// ```rust
/// let mut input = b"\t[]\n/0\ttrue\n".as_slice();
/// let mut output = Vec::new(alloc);
/// run_build(alloc, Layout::Kept, &mut input, &mut output)?;
/// assert_eq!(rt; output.as_slice(), b"[true]\n".as_slice());
/// ```
pub fn run_build<R: io::Read, W: io::Write>(
    alloc: Global,
    layout: Layout,
    input: &mut R,
    output: &mut W,
) -> Result<(), TaskError>
    ensures written { IfOk result (λ _. PutsText (BuildsText layout) (R.remaining input.old)
        (W.contents output.old) (W.contents output.new)) }
    ensures refused { IfErr result (StopsText (BuildsText layout) FailsToBuild
        (R.remaining input.old) (W.contents output.old) (W.contents output.new)) }
{
    let mut bytes = Vec::new(alloc);
    read_into(input, &mut bytes)?;
    let document = built_text(alloc, &bytes, layout)?;
    put_all(output, document.as_str())
}
