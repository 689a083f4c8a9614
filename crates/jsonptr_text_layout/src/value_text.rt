//! The text of a value, in two layouts. A contract says that it is read as that value.
ghost use Rattle.std.specs.Prelude.{◌≡◌, ◌≤◌, Some, IfOk, string_bytes};
ghost use Rattle.serde_json.specs.Data.{depth};
ghost use Rattle.serde_json.specs.Read.{read, max_depth};
ghost use Rattle.serde_json.specs.View.{view};

use serde_json::Value;
use std::alloc::{AllocError, Global};

/// The JSON text of a value, in two layouts. It owns both.
#[derive(Debug, Drop)]
pub struct ValueText {
    /// The text on one line.
    pub flat: String,
    /// The text over lines, if it has any. The lines are separated by `\n`, and the first has no
    /// indentation.
    pub lines: String,
}

/// Returns the text of a value.
///
/// # Errors
///
/// [`AllocError`] if an allocation fails.
///
/// # Examples
///
/// ```rust
/// let text = text_of_value(alloc, &Value::from_str(alloc, "[1,2]")?)?;
/// assert_eq!(rt; text.flat.as_str(), "[1,2]");
/// assert_eq!(rt; text.lines.as_str(), "[\n  1,\n  2\n]");
/// ```
pub fn text_of_value(alloc: Global, value: &Value) -> Result<ValueText, AllocError>
    ensures { IfOk result (λ text. depth (view value.now) ≤ max_depth
        → read (string_bytes text.flat) ≡ Some (view value.now)) }
{
    let flat = value.to_string(alloc)?;
    let lines = value.to_string_pretty(alloc)?;
    Ok(ValueText { flat, lines })
}
