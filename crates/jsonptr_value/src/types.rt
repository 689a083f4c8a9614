//! The type and the length of a JSON value.
ghost use Rattle.std.specs.Prelude.{◌≡◌, chars, length as list_length};
ghost use Rattle.serde_json.specs.View.{view};
ghost use Rattle.jsonptr_value.specs.NodeTypes.{length_of, type_name, type_of};

use serde_json::Value;

/// The type of a JSON value (RFC 8259, section 3).
#[derive(Clone, Copy, Debug, PartialEq, Eq)]
pub enum NodeType {
    /// `null`.
    Null,
    /// `true` or `false`.
    Boolean,
    /// A number.
    Number,
    /// A string.
    String,
    /// An array.
    Array,
    /// An object.
    Object,
}

impl NodeType {
    /// Returns the name of the type, in lower case.
    ///
    /// # Examples
    ///
    /// ```rust
    /// assert_eq!(rt; NodeType::Boolean.name(), "boolean");
    /// ```
    pub fn name(self) -> &'static str
        ensures { result.now ≡ type_name self }
    {
        match self {
            NodeType::Null => "null",
            NodeType::Boolean => "boolean",
            NodeType::Number => "number",
            NodeType::String => "string",
            NodeType::Array => "array",
            NodeType::Object => "object",
        }
    }
}

/// Returns the type of the value.
///
/// # Examples
///
/// ```rust
/// assert_eq!(rt; node_type(&Value::from_str(alloc, "[1]")?), NodeType::Array);
/// ```
pub fn node_type(value: &Value) -> NodeType
    ensures { result ≡ type_of (view value.now) }
{
    match value {
        Value::Null => NodeType::Null,
        Value::Bool(_) => NodeType::Boolean,
        Value::Number(_) => NodeType::Number,
        Value::String(_) => NodeType::String,
        Value::Array(_) => NodeType::Array,
        Value::Object(_) => NodeType::Object,
    }
}

/// Returns the number of elements or members of the value, or of the characters of a string: of its
/// Unicode scalar values. Returns `None` for any other value.
///
/// # Examples
///
/// ```rust
/// assert_eq!(rt; length(&Value::from_str(alloc, "[1, 2]")?), Some(2));
/// assert_eq!(rt; length(&Value::from_str(alloc, r#""n\u00e9""#)?), Some(2));
/// assert_eq!(rt; length(&Value::Null), None);
/// ```
pub fn length(value: &Value) -> Option<usize>
    ensures { result ≡ length_of (view value.now) }
{
    match value {
        Value::Null | Value::Bool(_) | Value::Number(_) => None,
        Value::String(text) => Some(characters(text.as_str())),
        Value::Array(elements) => Some(elements.len()),
        Value::Object(members) => Some(members.len()),
    }
}

/// Returns the number of characters of the text.
fn characters(text: &str) -> usize
    ensures { result ≡ list_length (chars text.now) }
{
    text.chars().count()
}
