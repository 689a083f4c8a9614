//! Writing into documents, with separate clauses for each effect.
ghost use Rattle.std.specs.Prelude.{◌≡◌, IfOk, OnErr, MatchOption, option_map};
ghost use Rattle.serde_json.specs.Data.{null};
ghost use Rattle.serde_json.specs.View.{view};
ghost use Rattle.jsonptr.specs.Assign.{RefusesAssign};
ghost use Rattle.jsonptr.specs.Assigning.{Assigns};
ghost use Rattle.jsonptr.specs.Delete.{NamesNothing};
ghost use Rattle.jsonptr.specs.Fault.{IfRefused};
ghost use Rattle.jsonptr.specs.Json.{nodes, FindsValue, HasSortedKeys};
ghost use Rattle.jsonptr.specs.Pointer.{tokens};
ghost use Rattle.jsonptr.specs.Removing.{Deletes};
ghost use Rattle.jsonptr.specs.Resolve.{PutsAt, Refuses};
ghost use Rattle.jsonptr.specs.TomlValue.{nodes as toml_nodes, FindsValue as FindsTomlValue};
ghost use Rattle.toml.specs.View.{view as toml_view};

use jsonptr::{Fault, Pointer, ResolveMut, assign, resolve};
use serde_json::Value;
use std::alloc::{AllocError, Global};
use std::mem;

/// Replaces the value that a pointer resolves to in a document of any type, and returns the old
/// one.
///
/// # Errors
///
/// Those of [`ResolveMut::resolve_mut`]. The document is unchanged.
pub fn replace<D: ResolveMut>(
    alloc: Global,
    document: &mut D,
    pointer: Pointer<'_>,
    value: D::Value,
) -> Result<D::Value, Fault<D::Error>>
    ensures written { IfOk result (λ _.
        D.writes document.old (tokens pointer.entry) value document.new) }
    ensures found { IfOk result (λ old. D.finds document.old (tokens pointer.entry) old) }
    ensures refused { IfRefused result (D.refuses document.old (tokens pointer.entry)) }
    ensures unchanged { OnErr result (D.is_same document.old document.new) }
{
    let target = document.resolve_mut(alloc, pointer)?;
    Ok(mem::replace(target, value))
}

/// Replaces a value of a JSON document, as [`replace`] does. The document's map then has the map of
/// `value` at the path that the pointer evaluates to.
///
/// # Errors
///
/// Those of [`replace`].
pub fn replace_json(
    alloc: Global,
    document: &mut Value,
    pointer: Pointer<'_>,
    value: Value,
) -> Result<Value, Fault<resolve::Error>>
    ensures written { IfOk result (λ _.
        PutsAt (nodes (view document.old)) (tokens pointer.entry)
        (nodes (view value)) (nodes (view document.new))) }
    ensures found { IfOk result (λ old.
        FindsValue (view document.old) (tokens pointer.entry) (view old)) }
    ensures refused { IfRefused result
        (Refuses (nodes (view document.old)) (tokens pointer.entry)) }
    ensures unchanged { OnErr result (view document.new ≡ view document.old) }
{
    replace(alloc, document, pointer, value)
}

/// Replaces a value of a TOML document, as [`replace_json`] does in a JSON document.
///
/// # Errors
///
/// Those of [`replace`].
pub fn replace_toml(
    alloc: Global,
    document: &mut toml::Value,
    pointer: Pointer<'_>,
    value: toml::Value,
) -> Result<toml::Value, Fault<resolve::Error>>
    ensures written { IfOk result (λ _.
        PutsAt (toml_nodes (toml_view document.old)) (tokens pointer.entry)
        (toml_nodes (toml_view value)) (toml_nodes (toml_view document.new))) }
    ensures found { IfOk result (λ old.
        FindsTomlValue (toml_view document.old) (tokens pointer.entry) (toml_view old)) }
    ensures refused { IfRefused result
        (Refuses (toml_nodes (toml_view document.old)) (tokens pointer.entry)) }
    ensures unchanged { OnErr result (toml_view document.new ≡ toml_view document.old) }
{
    replace(alloc, document, pointer, value)
}

/// Assigns a value at a pointer in a JSON document, and returns the value that it replaced, if any.
/// The keys of the document's objects stay sorted.
///
/// # Errors
///
/// Those of [`Pointer::assign`]. The document is unchanged.
pub fn assign_json(
    alloc: Global,
    document: &mut Value,
    pointer: Pointer<'_>,
    value: Value,
) -> Result<Option<Value>, Fault<assign::Error>>
    ensures assigned { IfOk result (λ old.
        Assigns (nodes (view document.old)) (tokens pointer.entry) (nodes (view value))
        (nodes (view document.new)) (option_map (λ v. nodes (view v)) old)) }
    ensures sorted { IfOk result (λ _.
        HasSortedKeys (view value) → HasSortedKeys (view document.old)
        → HasSortedKeys (view document.new)) }
    ensures refused { IfRefused result
        (RefusesAssign (nodes (view document.old)) (tokens pointer.entry)) }
    ensures unchanged { OnErr result (view document.new ≡ view document.old) }
{
    pointer.assign(alloc, document, value)
}

/// Removes the value that a pointer resolves to from a JSON document, and returns it. Removing the
/// root leaves `null`.
///
/// # Errors
///
/// [`AllocError`] if an allocation fails. The document is unchanged.
pub fn delete_json(
    alloc: Global,
    document: &mut Value,
    pointer: Pointer<'_>,
) -> Result<Option<Value>, AllocError>
    ensures deleted { IfOk result (λ _.
        Deletes (nodes (view document.old)) (tokens pointer.entry)
        (nodes null) (nodes (view document.new))) }
    ensures found { IfOk result (λ r. MatchOption r
        (NamesNothing (nodes (view document.old)) (tokens pointer.entry)
        × (view document.new ≡ view document.old))
        (λ v. FindsValue (view document.old) (tokens pointer.entry) (view v))) }
    ensures unchanged { OnErr result (view document.new ≡ view document.old) }
{
    pointer.delete(alloc, document)
}
