//! A command of one's own on the text of a document.
ghost use Rattle.std.specs.Prelude.{IfOk, string_bytes};
ghost use Rattle.serde_json.specs.Data.{string};
ghost use Rattle.jsonptr.specs.Json.{nodes};
ghost use Rattle.jsonptr.specs.Pointer.{tokens};
ghost use Rattle.jsonptr_text_step.specs.EditInText.{AssignsInText};

use jptr_tasks::layout::Layout;
use jptr_tasks::result::result_in_text;
use jptr_tasks::task::Task;
use jptr_tasks::task_error::TaskError;
use jsonptr::Pointer;
use jsonptr_text_edit::{Edit, RawValue};
use serde_json::Value;
use std::alloc::Global;

/// Returns the text of the document with this string assigned at the pointer. The layout of the text
/// stays.
///
/// # Errors
///
/// Those of [`result_in_text`].
pub fn with_string(
    alloc: Global,
    text: &str,
    pointer: Pointer<'_>,
    value: &str,
) -> Result<String, TaskError>
    ensures { IfOk result (λ s. AssignsInText text.now (tokens pointer.entry)
        (nodes (string value.now)) (string_bytes s)) }
{
    let value = Value::String(String::from_str(alloc, value)?);
    let Some(value) = RawValue::from_value(alloc, &value)? else {
        return Err(TaskError::TooDeep);
    };
    let task = Task::Edit(Edit::Assign(pointer, value));
    result_in_text(alloc, text, &task, Layout::Kept)
}
