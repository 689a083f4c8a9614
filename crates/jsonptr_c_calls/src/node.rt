//! What a value is: its type, its length, and the number in it.
ghost use Rattle.std.specs.Prelude.{◌≡◌, IfErr, IfOk, IsUtf8, OnOk};
ghost use Rattle.serde_json.specs.View.{view};
ghost use Rattle.jsonptr_value.specs.NodeTypes.{length_of, type_of};
ghost use Rattle.jsonptr_c_calls.specs.Failures.{Unfound};
ghost use Rattle.jsonptr_c_calls.specs.NodeTypes.{byte_length_of, length_or_zero, type_number};

use crate::call_error::CallError;
use crate::values::find;
use jsonptr_value::NodeType;
use serde_json::Value;
use std::alloc::Global;

/// The type of `null`.
pub const NULL: u32 = 0;

/// The type of `true` and `false`.
pub const BOOLEAN: u32 = 1;

/// The type of numbers.
pub const NUMBER: u32 = 2;

/// The type of strings.
pub const STRING: u32 = 3;

/// The type of arrays.
pub const ARRAY: u32 = 4;

/// The type of objects.
pub const OBJECT: u32 = 5;

/// What a value is.
#[repr(C)]
#[derive(Clone, Copy)]
pub struct NodeInfo {
    /// The type of the value, by its number, as of [`node_type`].
    pub node_type: u32,
    /// Whether the value is a number that `integer` contains.
    pub has_integer: bool,
    /// Whether the value is a number that `natural` contains.
    pub has_natural: bool,
    /// Whether the value is `true`.
    pub is_true: bool,
    /// The number, or 0 if it is not an integer of this range: `1.0` is none.
    pub integer: i64,
    /// The number, or 0 if it is not an integer of this range.
    pub natural: u64,
    /// The nearest number of this type, or 0 if the value is not a number.
    pub number: f64,
    /// The number of elements or members, or of the characters of a string; 0 for others.
    pub length: usize,
    /// The number of bytes of a string; 0 for others.
    pub byte_length: usize,
    /// Always 0.
    pub reserved: u64,
}

impl NodeInfo {
    ghost use Rattle.jsonptr_c_calls.specs.Nodes.{Describes, FindsNode};

    /// Returns what the value is.
    pub fn of(value: &Value) -> NodeInfo
        ensures { Describes (view value.now) result }
    {
        NodeInfo {
            node_type: node_type(value),
            has_integer: value.as_i64().is_some(),
            has_natural: value.as_u64().is_some(),
            is_true: value.as_bool().unwrap_or(false),
            integer: value.as_i64().unwrap_or(0),
            natural: value.as_u64().unwrap_or(0),
            number: value.as_f64().unwrap_or(0.0),
            length: length(value),
            byte_length: byte_length(value),
            reserved: 0,
        }
    }

    /// Returns what the value is that the pointer resolves to.
    ///
    /// # Errors
    ///
    /// Those of [`find`].
    pub fn at(alloc: Global, document: &Value, pointer: &[u8]) -> Result<NodeInfo, CallError>
        ensures described { IfOk result (FindsNode (view document.now) pointer.now) }
        ensures utf8 { OnOk result (IsUtf8 pointer.now) }
        ensures refused { IfErr result (Unfound (view document.now) pointer.now) }
    {
        Ok(NodeInfo::of(find(alloc, document, pointer)?))
    }
}

/// Returns the type of the value.
///
/// # Examples
///
/// ```rust
/// assert_eq!(rt; node::node_type(&Value::Null), NULL);
/// assert_eq!(rt; node::node_type(&Value::from_str(alloc, "[1]")?), ARRAY);
/// ```
pub fn node_type(value: &Value) -> u32
    ensures { result ≡ type_number (type_of (view value.now)) }
{
    match jsonptr_value::node_type(value) {
        NodeType::Null => NULL,
        NodeType::Boolean => BOOLEAN,
        NodeType::Number => NUMBER,
        NodeType::String => STRING,
        NodeType::Array => ARRAY,
        NodeType::Object => OBJECT,
    }
}

/// Returns the number of elements or members of the value, or of the characters of a string: of its
/// Unicode scalar values. Returns 0 for the others.
///
/// # Examples
///
/// ```rust
/// assert_eq!(rt; node::length(&Value::from_str(alloc, "[1, 2]")?), 2);
/// let text = Value::from_str(alloc, r#""n\u00e9""#)?;
/// assert_eq!(rt; (node::length(&text), byte_length(&text)), (2, 3));
/// ```
pub fn length(value: &Value) -> usize
    ensures { result ≡ length_or_zero (length_of (view value.now)) }
{
    match jsonptr_value::length(value) {
        Some(length) => length,
        None => 0,
    }
}

/// Returns the number of bytes of the value if it is a string, and else 0.
///
/// # Examples
///
/// ```rust
/// assert_eq!(rt; byte_length(&Value::from_str(alloc, r#""n\u00e9""#)?), 3);
/// assert_eq!(rt; byte_length(&Value::from_str(alloc, "[1, 2]")?), 0);
/// ```
pub fn byte_length(value: &Value) -> usize
    ensures { result ≡ byte_length_of (view value.now) }
{
    match value {
        Value::String(text) => text.len(),
        _ => 0,
    }
}
