//! Settings in layers, the highest first. A value in one layer hides the ones in the layers below
//! it.
ghost use Rattle.std.specs.Prelude.{◌≡◌, ◌⊎◌, List, All, IfOk, IsOk, OnErr, option_map};
ghost use Rattle.std.specs.Option.{option_copied};
ghost use Rattle.serde_json.specs.View.{view};
ghost use Rattle.jsonptr.specs.Text.{Text, HasNoTilde, text};
ghost use Rattle.jsonptr.specs.Node.{NodeMap};
ghost use Rattle.jsonptr.specs.Following.{Finds};
ghost use Rattle.jsonptr.specs.Expansion.{LacksDash};
ghost use Rattle.jsonptr.specs.Assign.{RefusesAssign};
ghost use Rattle.jsonptr.specs.Assigning.{Assigns};
ghost use Rattle.jsonptr.specs.Delete.{NamesNothing};
ghost use Rattle.jsonptr.specs.Fault.{IfRefused};
ghost use Rattle.jsonptr.specs.Json.{nodes, FindsValue, HasSortedKeys};
ghost use Rattle.jsonptr.specs.Pointer.{tokens};
ghost use Rattle.jsonptr_uses.specs.Settings.{IsAnswer, IsHighest, IsApart, IsLocationOf, IsSetAt};

use crate::writes::assign_json;
use jsonptr::tree::writing::put_law;
use jsonptr::{Fault, Pointer, Resolve, assign};
use serde_json::Value;
use std::alloc::{AllocError, Global};

/// Returns the value in the highest layer in which the pointer resolves, or `None` if it resolves
/// in none. The layers are documents of any type.
///
/// # Errors
///
/// [`AllocError`] if an allocation fails.
pub fn get<'v, D: Resolve>(
    alloc: Global,
    layers: &'v [D],
    pointer: Pointer<'_>,
) -> Result<Option<&'v D::Value>, AllocError>
where
    D::Error: Drop,
    ensures answer { IfOk result (λ answer. IsAnswer
        (λ layer v. D.finds layer (tokens pointer.entry) v)
        (λ layer. (e : D.Error) × D.refuses layer (tokens pointer.entry) e)
        layers.now (option_copied answer)) }
    ensures no_memory { All (λ layer. D.needs_no_memory layer (tokens pointer.entry)) layers.now
        → IsOk result }
{
    for layer in layers {
        match layer.resolve(alloc, pointer) {
            Ok(value) => return Ok(Some(value)),
            Err(fault) => {
                fault.refused()?;
            }
        }
    }
    Ok(None)
}

/// Returns the value that [`get`] returns, or `default` if the pointer resolves in no layer.
///
/// # Errors
///
/// [`AllocError`] if an allocation fails.
pub fn get_or<'v, D: Resolve>(
    alloc: Global,
    layers: &'v [D],
    pointer: Pointer<'_>,
    default: &'v D::Value,
) -> Result<&'v D::Value, AllocError>
where
    D::Error: Drop,
    ensures value { IfOk result (λ v.
        IsHighest (λ layer v. D.finds layer (tokens pointer.entry) v)
        (λ layer. (e : D.Error) × D.refuses layer (tokens pointer.entry) e)
        layers.now v.now
        ⊎ (All (λ layer. (e : D.Error) × D.refuses layer (tokens pointer.entry) e) layers.now
        × (v.now ≡ default.now))) }
    ensures no_memory { All (λ layer. D.needs_no_memory layer (tokens pointer.entry)) layers.now
        → IsOk result }
{
    match get(alloc, layers, pointer)? {
        Some(value) => Ok(value),
        None => Ok(default),
    }
}

/// Returns the value that [`get`] returns, from layers that are JSON documents.
///
/// # Errors
///
/// [`AllocError`] if an allocation fails.
pub fn get_json<'v>(
    alloc: Global,
    layers: &'v [Value],
    pointer: Pointer<'_>,
) -> Result<Option<&'v Value>, AllocError>
    ensures answer { IfOk result (λ answer. IsAnswer
        (λ layer v. FindsValue (view layer) (tokens pointer.entry) (view v))
        (λ layer. NamesNothing (nodes (view layer)) (tokens pointer.entry))
        layers.now (option_copied answer)) }
    ensures no_memory { HasNoTilde (text (tokens pointer.entry)) → IsOk result }
{
    get(alloc, layers, pointer)
}

/// Assigns a value at the pointer in the highest layer, a JSON document, and returns the value that
/// it replaced, if any.
///
/// Afterwards a list of tokens resolves to the value: the pointer's own, with the new index instead of
/// a `-` that refers to an array. Every list that is neither a prefix nor an extension of it resolves to
/// what it did before.
///
/// # Errors
///
/// Those of [`Pointer::assign`]. The document is unchanged.
pub fn set(
    alloc: Global,
    top: &mut Value,
    pointer: Pointer<'_>,
    value: Value,
) -> Result<Option<Value>, Fault<assign::Error>>
    ensures assigned { IfOk result (λ old.
        Assigns (nodes (view top.old)) (tokens pointer.entry) (nodes (view value))
        (nodes (view top.new)) (option_map (λ v. nodes (view v)) old)) }
    ensures found { IfOk result (λ _. LacksDash (tokens pointer.entry)
        → Finds (nodes (view top.new)) (tokens pointer.entry) (nodes (view value))) }
    ensures others { IfOk result (λ _. (others : List Text) (m : NodeMap)
        → IsApart others (tokens pointer.entry)
        → Finds (nodes (view top.old)) others m
        → Finds (nodes (view top.new)) others m) }
    ensures nothing { IfOk result (λ _. LacksDash (tokens pointer.entry) → (others : List Text)
        → IsApart others (tokens pointer.entry)
        → NamesNothing (nodes (view top.old)) others
        → NamesNothing (nodes (view top.new)) others) }
    ensures location { IfOk result (λ _.
        (location : List Text) × IsLocationOf (tokens pointer.entry) location
        × IsSetAt (nodes (view top.old)) location (nodes (view value)) (nodes (view top.new))) }
    ensures sorted { IfOk result (λ _.
        HasSortedKeys (view value) → HasSortedKeys (view top.old) → HasSortedKeys (view top.new)) }
    ensures refused { IfRefused result
        (RefusesAssign (nodes (view top.old)) (tokens pointer.entry)) }
    ensures unchanged { OnErr result (view top.new ≡ view top.old) }
{
    put_law();
    assign_json(alloc, top, pointer, value)
}
