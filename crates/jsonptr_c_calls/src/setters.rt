//! Assignments of a string, a number, a boolean or null in a document in a handle.
ghost use Rattle.std.specs.Prelude.{◌≡◌, IfErr, IfOk, IsTrue, IsUtf8, OnErr, OnOk};
ghost use Rattle.std.specs.Float.{float_is_finite};
ghost use Rattle.serde_json.specs.Data.{boolean as json_boolean, float, null as json_null, number as json_number, string as json_string, unsigned};
ghost use Rattle.serde_json.specs.Find.{of_integer};
ghost use Rattle.jsonptr_c_calls.specs.Depths.{IsBounded};
ghost use Rattle.jsonptr_c_calls.specs.Handle.{Keeps};
ghost use Rattle.jsonptr_c_calls.specs.Setters.{AssignsInHandle, IsNumberNotAssigned, IsStringNotAssigned, IsValueNotAssigned};
ghost use Rattle.jsonptr_c_calls.specs.Values.{Changes};

use crate::call_error::{Argument, CallError};
use crate::documents::assign_value;
use crate::handle::Handle;
use crate::pointers::text_of;
use serde_json::{Number, Value};
use std::alloc::Global;

/// Assigns the string at the location that the pointer identifies, by [`assign_value`]. It is
/// passed as its bytes, with no quotation marks and no escapes.
///
/// # Errors
///
/// - [`CallError::NotUtf8`] for the string, which is read first.
/// - [`CallError::Memory`] if an allocation fails.
/// - Those of [`assign_value`].
///
/// The document is unchanged.
///
/// # Examples
///
/// ```rust
/// let mut document = Handle::empty();
/// assert!(rt; documents::parse(alloc, &mut document, b"{}").is_ok());
/// assert!(rt; assign_string(alloc, &mut document, b"/a", b"\"b\"").is_ok());
/// let mut out = [0u8; 4];
/// assert_eq!(rt; documents::string(alloc, &mut document, b"/a", &mut out).ok(), Some(3));
/// assert!(rt; out.starts_with(b"\"b\""));
/// documents::free(alloc, &mut document);
/// ```
pub fn assign_string(
    alloc: Global,
    document: &mut Handle,
    pointer: &[u8],
    string: &[u8],
) -> Result<(), CallError>
    ensures assigned { OnOk result
        (AssignsInHandle document.old pointer.now (json_string string.now) document.new) }
    ensures bounded { IfOk result (λ _.
        Changes document.old (λ d n. IsBounded d → IsBounded n) document.new) }
    ensures pointer_utf8 { OnOk result (IsUtf8 pointer.now) }
    ensures string_utf8 { OnOk result (IsUtf8 string.now) }
    ensures refused { IfErr result (IsStringNotAssigned string.now document.old pointer.now) }
    ensures unchanged { OnErr result (Keeps document.old document.new) }
{
    let text = String::from_str(alloc, text_of(Argument::Text, string)?)?;
    assign_value(alloc, document, pointer, Value::String(text))
}

/// Assigns the integer at the location that the pointer identifies, by [`assign_value`].
///
/// # Errors
///
/// Those of [`assign_value`]. The document is unchanged.
///
/// # Examples
///
/// ```rust
/// let mut document = Handle::empty();
/// assert!(rt; documents::parse(alloc, &mut document, b"[]").is_ok());
/// assert!(rt; assign_integer(alloc, &mut document, b"/-", -7).is_ok());
/// let node = documents::node(alloc, &mut document, b"/0").ok().ok_or("a value")?;
/// assert_eq!(rt; (node.has_integer, node.integer), (true, -7));
/// documents::free(alloc, &mut document);
/// ```
pub fn assign_integer(
    alloc: Global,
    document: &mut Handle,
    pointer: &[u8],
    integer: i64,
) -> Result<(), CallError>
    ensures assigned { OnOk result
        (AssignsInHandle document.old pointer.now (json_number (of_integer integer)) document.new) }
    ensures bounded { IfOk result (λ _.
        Changes document.old (λ d n. IsBounded d → IsBounded n) document.new) }
    ensures utf8 { OnOk result (IsUtf8 pointer.now) }
    ensures refused { IfErr result (IsValueNotAssigned document.old pointer.now) }
    ensures unchanged { OnErr result (Keeps document.old document.new) }
{
    assign_value(alloc, document, pointer, Value::from(integer))
}

/// Assigns the natural number at the location that the pointer identifies, by [`assign_value`].
///
/// # Errors
///
/// Those of [`assign_value`]. The document is unchanged.
///
/// # Examples
///
/// ```rust
/// let mut document = Handle::empty();
/// assert!(rt; documents::parse(alloc, &mut document, b"{}").is_ok());
/// assert!(rt; assign_natural(alloc, &mut document, b"/a", u64::MAX).is_ok());
/// let node = documents::node(alloc, &mut document, b"/a").ok().ok_or("a value")?;
/// assert_eq!(rt; (node.has_integer, node.natural), (false, u64::MAX));
/// documents::free(alloc, &mut document);
/// ```
pub fn assign_natural(
    alloc: Global,
    document: &mut Handle,
    pointer: &[u8],
    natural: u64,
) -> Result<(), CallError>
    ensures assigned { OnOk result
        (AssignsInHandle document.old pointer.now (json_number (unsigned natural)) document.new) }
    ensures bounded { IfOk result (λ _.
        Changes document.old (λ d n. IsBounded d → IsBounded n) document.new) }
    ensures utf8 { OnOk result (IsUtf8 pointer.now) }
    ensures refused { IfErr result (IsValueNotAssigned document.old pointer.now) }
    ensures unchanged { OnErr result (Keeps document.old document.new) }
{
    assign_value(alloc, document, pointer, Value::from(natural))
}

/// Assigns the number at the location that the pointer identifies, by [`assign_value`]. It is a
/// number with a fraction in JSON, also if it is whole: 1 becomes `1.0`.
///
/// # Errors
///
/// - [`CallError::NotFinite`] if the number is NaN or infinite, which is tested first.
/// - Those of [`assign_value`].
///
/// The document is unchanged.
///
/// # Examples
///
/// ```rust
/// let mut document = Handle::empty();
/// assert!(rt; documents::parse(alloc, &mut document, b"{}").is_ok());
/// assert!(rt; assign_number(alloc, &mut document, b"/a", 1.5).is_ok());
/// let infinite = assign_number(alloc, &mut document, b"/a", f64::INFINITY);
/// assert!(rt; matches!(infinite, Err(CallError::NotFinite)));
/// let node = documents::node(alloc, &mut document, b"/a").ok().ok_or("a value")?;
/// assert_eq!(rt; node.number, 1.5);
/// documents::free(alloc, &mut document);
/// ```
pub fn assign_number(
    alloc: Global,
    document: &mut Handle,
    pointer: &[u8],
    number: f64,
) -> Result<(), CallError>
    ensures assigned { OnOk result
        (AssignsInHandle document.old pointer.now (json_number (float number)) document.new) }
    ensures bounded { IfOk result (λ _.
        Changes document.old (λ d n. IsBounded d → IsBounded n) document.new) }
    ensures finite { OnOk result (IsTrue (float_is_finite number)) }
    ensures utf8 { OnOk result (IsUtf8 pointer.now) }
    ensures refused { IfErr result (IsNumberNotAssigned number document.old pointer.now) }
    ensures unchanged { OnErr result (Keeps document.old document.new) }
{
    let Some(finite) = Number::from_f64(number) else {
        return Err(CallError::NotFinite);
    };
    assign_value(alloc, document, pointer, Value::Number(finite))
}

/// Assigns `true` or `false` at the location that the pointer identifies, by [`assign_value`].
///
/// # Errors
///
/// Those of [`assign_value`]. The document is unchanged.
///
/// # Examples
///
/// ```rust
/// let mut document = Handle::empty();
/// assert!(rt; documents::parse(alloc, &mut document, b"[1]").is_ok());
/// assert!(rt; assign_boolean(alloc, &mut document, b"/0", true).is_ok());
/// let node = documents::node(alloc, &mut document, b"/0").ok().ok_or("a value")?;
/// assert_eq!(rt; (node.node_type, node.is_true), (BOOLEAN, true));
/// documents::free(alloc, &mut document);
/// ```
pub fn assign_boolean(
    alloc: Global,
    document: &mut Handle,
    pointer: &[u8],
    boolean: bool,
) -> Result<(), CallError>
    ensures assigned { OnOk result
        (AssignsInHandle document.old pointer.now (json_boolean boolean) document.new) }
    ensures bounded { IfOk result (λ _.
        Changes document.old (λ d n. IsBounded d → IsBounded n) document.new) }
    ensures utf8 { OnOk result (IsUtf8 pointer.now) }
    ensures refused { IfErr result (IsValueNotAssigned document.old pointer.now) }
    ensures unchanged { OnErr result (Keeps document.old document.new) }
{
    assign_value(alloc, document, pointer, Value::Bool(boolean))
}

/// Assigns `null` at the location that the pointer identifies, by [`assign_value`].
///
/// # Errors
///
/// Those of [`assign_value`]. The document is unchanged.
///
/// # Examples
///
/// ```rust
/// let mut document = Handle::empty();
/// assert!(rt; documents::parse(alloc, &mut document, b"[1]").is_ok());
/// assert!(rt; assign_null(alloc, &mut document, b"/0").is_ok());
/// let node = documents::node(alloc, &mut document, b"/0").ok().ok_or("a value")?;
/// assert_eq!(rt; node.node_type, NULL);
/// documents::free(alloc, &mut document);
/// ```
pub fn assign_null(alloc: Global, document: &mut Handle, pointer: &[u8]) -> Result<(), CallError>
    ensures assigned { OnOk result
        (AssignsInHandle document.old pointer.now json_null document.new) }
    ensures bounded { IfOk result (λ _.
        Changes document.old (λ d n. IsBounded d → IsBounded n) document.new) }
    ensures utf8 { OnOk result (IsUtf8 pointer.now) }
    ensures refused { IfErr result (IsValueNotAssigned document.old pointer.now) }
    ensures unchanged { OnErr result (Keeps document.old document.new) }
{
    assign_value(alloc, document, pointer, Value::Null)
}
