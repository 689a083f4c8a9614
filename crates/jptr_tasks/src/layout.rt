//! How a value is printed.
ghost use Rattle.std.specs.Prelude.{◌≡◌, Some, IfOk, IfErr, string_bytes};
ghost use Rattle.serde_json.specs.Read.{read};
ghost use Rattle.jsonptr_text_resolve.specs.Format.{IsFormatted};
ghost use Rattle.serde_json.specs.View.{view};
ghost use Rattle.jptr_tasks.specs.Layouts.{ShowsInLayout, Lays};
ghost use Rattle.jptr_tasks.specs.PrivateResults.{IsLayoutError};

use crate::task_error::TaskError;
use jsonptr_text_resolve::{Format, Scratch, format_text};
use serde_json::Value;
use std::alloc::{AllocError, Global};

/// How the result of a task is printed.
#[derive(Clone, Copy, Debug, PartialEq, Eq)]
pub enum Layout {
    /// The text, unchanged: members in their order, numbers and white space as they are written.
    Kept,
    /// Without white space. Members keep their order, and numbers their text.
    Compact,
    /// A line for each member and element, indented by two spaces for each level. Members keep their
    /// order, and numbers their text.
    Pretty,
    /// Without white space, and with sorted members. Numbers are read, and printed anew.
    Sorted,
    /// As [`Pretty`](Layout::Pretty), with sorted members. Numbers are read, and printed anew.
    SortedPretty,
    /// A string without its quotes and escapes, and the unchanged text of any other value.
    Raw,
}

/// Returns the text of a value that has no text of its own, in this layout, with no line break after
/// it.
///
/// # Errors
///
/// [`AllocError`] if there is no memory for the text.
///
/// # Examples
///
/// ```rust
/// let value = Value::from_str(alloc, r#"{"a": [1]}"#)?;
/// assert_eq!(rt; show(alloc, &value, Layout::Compact)?.as_str(), r#"{"a":[1]}"#);
/// let name = Value::from_str(alloc, r#""Ada""#)?;
/// assert_eq!(rt; show(alloc, &name, Layout::Raw)?.as_str(), "Ada");
/// ```
pub fn show(alloc: Global, value: &Value, layout: Layout) -> Result<String, AllocError>
    ensures { IfOk result (λ s. ShowsInLayout layout (view value.now) (string_bytes s)) }
{
    match layout {
        Layout::Kept | Layout::Compact | Layout::Sorted => value.to_string(alloc),
        Layout::Pretty | Layout::SortedPretty => value.to_string_pretty(alloc),
        Layout::Raw => show_raw(alloc, value),
    }
}

/// Returns the string that the value is, or the JSON text of another value.
fn show_raw(alloc: Global, value: &Value) -> Result<String, AllocError>
    ensures { IfOk result (λ s. ShowsInLayout Layout.Raw (view value.now) (string_bytes s)) }
{
    match value.as_str() {
        Some(text) => String::from_str(alloc, text),
        None => value.to_string(alloc),
    }
}

/// Returns the JSON text in this layout, as [`Layout`] says.
///
/// # Errors
///
/// [`TaskError::NotJson`] if the text is not JSON, and [`TaskError::Memory`] if an allocation fails.
pub(crate) fn lay_out(
    alloc: Global,
    scratch: &mut Scratch,
    text: &str,
    layout: Layout,
) -> Result<String, TaskError>
    ensures laid_out { IfOk result (λ s. Lays layout text.now (string_bytes s)) }
    ensures refused { IfErr result (IsLayoutError text.now) }
{
    match layout {
        Layout::Kept => Ok(String::from_str(alloc, text)?),
        Layout::Compact => formatted(alloc, scratch, text, Format::Compact),
        Layout::Pretty => formatted(alloc, scratch, text, Format::Pretty),
        Layout::Sorted => {
            let value = read_document(alloc, text)?;
            Ok(value.to_string(alloc)?)
        }
        Layout::SortedPretty => {
            let value = read_document(alloc, text)?;
            Ok(value.to_string_pretty(alloc)?)
        }
        Layout::Raw => {
            let value = read_document(alloc, text)?;
            Ok(String::from_str(alloc, value.as_str().unwrap_or(text))?)
        }
    }
}

/// Returns the JSON text with its tokens laid out anew.
fn formatted(
    alloc: Global,
    scratch: &mut Scratch,
    text: &str,
    format: Format,
) -> Result<String, TaskError>
    ensures formatted { IfOk result (λ s. IsFormatted format text.now (string_bytes s)) }
    ensures refused { IfErr result (IsLayoutError text.now) }
{
    Ok(format_text(alloc, scratch, text, format)?)
}

/// Reads the document that the text is.
///
/// # Errors
///
/// [`TaskError::NotJson`] if the text is not JSON, and [`TaskError::Memory`] if an allocation fails.
pub fn read_document(alloc: Global, text: &str) -> Result<Value, TaskError>
    ensures read { IfOk result (λ v. read text.now ≡ Some (view v)) }
    ensures refused { IfErr result (IsLayoutError text.now) }
{
    Ok(jsonptr_value::read(alloc, text)?)
}
