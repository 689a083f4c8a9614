//! The result of a task on the text of a document.
ghost use Rattle.std.specs.Prelude.{IfOk, IfErr, string_bytes};
ghost use Rattle.jsonptr.specs.Pointer.{tokens};
ghost use Rattle.jptr_tasks.specs.Results.{Yields, Fails, Gets, FailsToGet};

use crate::edit::edit;
use crate::layout::{Layout, lay_out, show};
use crate::task::Task;
use crate::task_error::TaskError;
use jsonptr::Pointer;
use jsonptr_text_step::{Buffers, LocateError, locate};
use serde_json::Value;
use std::alloc::Global;

/// Returns the text that the task makes of the text of a document.
///
/// [`Task::Get`] returns the text of its value as it is written, and reads no document. [`Task::Edit`] makes
/// its edit in place, as [`edit_text`](jsonptr_text_edit::edit_text) does: only the bytes of the edit change,
/// and a text of one line stays one line. In another layout the new text is laid out as [`Layout`] says.
///
/// # Errors
///
/// - [`TaskError::NotJson`] if the text is not JSON.
/// - [`TaskError::Resolve`], [`TaskError::Assign`], [`TaskError::NotThere`] and [`TaskError::NotRenamed`] if
///   the pointer does not apply.
/// - [`TaskError::PatchFailed`] if an operation of the patch fails.
/// - [`TaskError::TooDeep`] if the new document nests deeper than 127.
/// - [`TaskError::NotInPlace`] if the edit is possible, but not in place. In a layout other than
///   [`Layout::Kept`] that is not an error.
/// - [`TaskError::NotLocated`] if the check of where the text of a value is fails. No text is known for
///   which it does.
/// - [`TaskError::Memory`] if an allocation fails.
///
/// # Examples
///
/// ```rust
/// let task = Task::Edit(Edit::Assign(Pointer::parse("/b")?, RawValue::parse(alloc, "2")?));
/// let new = result_in_text(alloc, "{\"a\": 1, \"b\": 1}", &task, Layout::Kept)?;
/// assert_eq!(rt; new.as_str(), "{\"a\": 1, \"b\": 2}");
/// let get = Task::Get(Pointer::parse("/c")?, Some(Value::Null));
/// let other = result_in_text(alloc, new.as_str(), &get, Layout::Kept)?;
/// assert_eq!(rt; other.as_str(), "null");
/// ```
pub fn result_in_text(
    alloc: Global,
    text: &str,
    task: &Task<'_>,
    layout: Layout,
) -> Result<String, TaskError>
    ensures yielded { IfOk result (λ s. Yields task.now layout text.now (string_bytes s)) }
    ensures refused { IfErr result (Fails task.now layout text.now) }
{
    let mut buffers = Buffers::new(alloc);
    result_in_text_with(alloc, &mut buffers, text, task, layout)
}

/// Returns the text that the task makes of the text of a document, as [`result_in_text`] does, in
/// buffers of the caller.
///
/// A caller with many texts keeps one [`Buffers`]. No call minds what an earlier one left in it, also
/// after an error.
///
/// # Errors
///
/// Those of [`result_in_text`].
///
/// # Examples
///
/// ```rust
/// let task = Task::Get(Pointer::parse("/b")?, Some(Value::Null));
/// let mut buffers = Buffers::new(alloc);
/// let text = "{\"a\": 1, \"b\": 2}";
/// let two = result_in_text_with(alloc, &mut buffers, text, &task, Layout::Kept)?;
/// let null = result_in_text_with(alloc, &mut buffers, "[]", &task, Layout::Kept)?;
/// assert_eq!(rt; (two.as_str(), null.as_str()), ("2", "null"));
/// ```
pub fn result_in_text_with(
    alloc: Global,
    buffers: &mut Buffers,
    text: &str,
    task: &Task<'_>,
    layout: Layout,
) -> Result<String, TaskError>
    ensures yielded { IfOk result (λ s. Yields task.now layout text.now (string_bytes s)) }
    ensures refused { IfErr result (Fails task.now layout text.now) }
{
    match task {
        Task::Get(pointer, fallback) => {
            let lookup = Lookup {
                text,
                pointer: *pointer,
            };
            get(alloc, buffers, lookup, fallback, layout)
        }
        Task::Edit(changes) => edit(buffers, text, changes, layout),
    }
}

/// A text, and a pointer to resolve in it.
#[derive(Clone, Copy)]
struct Lookup<'t> {
    text: &'t str,
    pointer: Pointer<'t>,
}

/// Returns the text of the value that the pointer resolves to in the text, or else that of the other
/// value, if there is one.
///
/// # Errors
///
/// Those of [`result_in_text`] for `Task::Get`.
fn get(
    alloc: Global,
    buffers: &mut Buffers,
    lookup: Lookup<'_>,
    fallback: &Option<Value>,
    layout: Layout,
) -> Result<String, TaskError>
    ensures found { IfOk result (λ s. Gets lookup.entry.text.now (tokens lookup.entry.pointer)
        fallback.now layout (string_bytes s)) }
    ensures refused { IfErr result
        (FailsToGet lookup.entry.text.now (tokens lookup.entry.pointer) fallback.now) }
{
    match locate(buffers, lookup.text, lookup.pointer) {
        Ok(located) => lay_out(alloc, &mut buffers.old, located.value, layout),
        Err(LocateError::NotLocated) => Err(TaskError::NotLocated),
        Err(LocateError::Resolve(error)) => match fallback {
            Some(value) => Ok(show(alloc, value, layout)?),
            None => Err(TaskError::Resolve(error)),
        },
        Err(LocateError::NotJson) => Err(TaskError::NotJson),
        Err(LocateError::Memory(error)) => Err(TaskError::Memory(error)),
    }
}
