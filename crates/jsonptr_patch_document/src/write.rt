//! Writing a patch document (RFC 6902, sections 3 and 4).
ghost use Rattle.std.specs.Prelude.{◌≡◌, ◌++◌, ◌∷◌, [], All, codes, IfOk};
ghost use Rattle.serde_json.specs.Data.{string, object, member, no_members};
ghost use Rattle.serde_json.specs.View.{view};
ghost use Rattle.jsonptr.specs.Json.{HasSortedKeys};
ghost use Rattle.jsonptr.specs.Text.{text};
ghost use Rattle.jsonptr_patch_document.specs.Writing.{object_with_value, object_with_from, written_object, document_of, ValueHasSortedKeys};

use jsonptr::PointerBuf;
use jsonptr_patch::Operation;
use serde_json::{Value, json};
use std::alloc::{AllocError, Global};

/// Returns the patch document of a list of operations (RFC 6902, sections 3 and 4): an array of
/// objects with the members that the operations require, and no other. The keys of these objects are
/// in ascending order. The values are copied.
///
/// [`read_patch`](crate::read_patch) reads the same operations from it.
///
/// # Errors
///
/// [`AllocError`] if an allocation fails.
///
/// # Examples
///
/// ```rust
/// let from = PointerBuf::from_text(alloc, "/draft/title")?;
/// let path = PointerBuf::from_text(alloc, "/title")?;
/// let document = write_patch(alloc, &vec![in alloc; Operation::Move { from, path }]?)?;
/// let written = r#"[{"from":"/draft/title","op":"move","path":"/title"}]"#;
/// assert_eq!(rt; document.to_string(alloc)?.as_str(), written);
/// ```
pub fn write_patch(alloc: Global, patch: &Vec<Operation>) -> Result<Value, AllocError>
    ensures document { IfOk result (λ document. view document ≡ document_of patch.now.items) }
    ensures sorted { IfOk result (λ document.
        All ValueHasSortedKeys patch.now.items → HasSortedKeys (view document)) }
{
    let mut objects = Vec::new(alloc);
    for operation in patch {
        append(&mut objects, write_operation(alloc, operation)?)?;
    }
    Ok(Value::Array(objects))
}

/// Appends an object to the document.
///
/// # Errors
///
/// [`AllocError`] if an allocation fails.
fn append(objects: &mut Vec<Value>, object: Value) -> Result<(), AllocError>
    ensures { IfOk result (λ _. objects.new.items ≡ objects.old.items ++ object ∷ []) }
{
    objects.push(object)?;
    Ok(())
}

/// Returns the object of an operation.
///
/// # Errors
///
/// [`AllocError`] if an allocation fails.
fn write_operation(alloc: Global, operation: &Operation) -> Result<Value, AllocError>
    ensures { IfOk result (λ object. view object ≡ written_object operation.now) }
{
    match operation {
        Operation::Add { path, value } => with_value(alloc, "add", path, value),
        Operation::Remove { path } => with_path(alloc, "remove", path),
        Operation::Replace { path, value } => with_value(alloc, "replace", path, value),
        Operation::Move { from, path } => with_from(alloc, "move", from, path),
        Operation::Copy { from, path } => with_from(alloc, "copy", from, path),
        Operation::Test { path, value } => with_value(alloc, "test", path, value),
    }
}

/// Returns the object with the members `op` and `path`.
fn with_path(alloc: Global, op: &str, path: &PointerBuf) -> Result<Value, AllocError>
    ensures { IfOk result (λ v. view v ≡ object (member (codes "op") (string op.now)
        (member (codes "path") (string (text path.now)) no_members))) }
{
    json!(in alloc; {"op": op, "path": path.as_ptr().as_str()})
}

/// Returns the object with the members `op`, `path` and `value`.
fn with_value(
    alloc: Global,
    op: &str,
    path: &PointerBuf,
    value: &Value,
) -> Result<Value, AllocError>
    ensures { IfOk result (λ v. view v ≡ object_with_value op.now path.now (view value.now)) }
{
    let value = jsonptr_value::copy(alloc, value)?;
    json!(in alloc; {"op": op, "path": path.as_ptr().as_str(), "value": value})
}

/// Returns the object with the members `from`, `op` and `path`.
fn with_from(
    alloc: Global,
    op: &str,
    from: &PointerBuf,
    path: &PointerBuf,
) -> Result<Value, AllocError>
    ensures { IfOk result (λ v. view v ≡ object_with_from op.now from.now path.now) }
{
    json!(in alloc; {"from": from.as_ptr().as_str(), "op": op, "path": path.as_ptr().as_str()})
}
