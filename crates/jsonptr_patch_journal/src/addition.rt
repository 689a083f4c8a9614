//! Additions at a location of a document, and undoing them.
ghost use Rattle.std.specs.Prelude.{◌≡◌, ◌<◌, IfOk, IfErr, OnErr, Option, option_map, string_bytes};
ghost use Rattle.jsonptr.specs.Text.{HasNoTilde, text};
ghost use Rattle.jsonptr.specs.Content.{Content, content_at, map_of};
ghost use Rattle.jsonptr.specs.Delete.{NamesNothing};
ghost use Rattle.jsonptr_patch_journal.specs.Leading.{AtNamed};
ghost use Rattle.jsonptr_patch_journal.specs.Location.{path_of, contents_of};
ghost use Rattle.jsonptr_patch_journal.specs.Writing.{At};
ghost use Rattle.jsonptr_patch_journal.specs.Changes.{IsThere, HasAt, IsObjectContent, HasMember, HasAtLeast, HasElement, ReplacesContent, Writes, PutsMember, AddsMember, SetsMember, PutsElement, TakesMember, TakesElement};
ghost use Rattle.jsonptr_patch_journal.specs.Undoing.{CanAdd, AddsAt, IsAddition};

use crate::location::Location;
use crate::members;
use crate::node_mut::{NodeMut, array_mut, object_mut};
use jsonptr::PointerBuf;
use jsonptr_value::discard;
use serde_json::Value;
use std::alloc::{AllocFailed, Global};
use std::mem;

/// Where a value is added.
#[derive(Debug, Drop)]
pub enum Target {
    /// At the root of the document.
    Root,
    /// In an object, as the member with this key.
    Member {
        /// The location of the object.
        object: Location,
        /// The key.
        key: String,
    },
    /// In an array, before the element at this index, or after the last one.
    Element {
        /// The location of the array.
        array: Location,
        /// The index.
        index: usize,
    },
}

/// What undoes an addition.
#[derive(Debug, Drop)]
pub enum Addition {
    /// A node was replaced.
    Replaced {
        /// The location of the node.
        location: Location,
        /// The old node.
        old: Value,
    },
    /// A member was added to an object, or replaced.
    Member {
        /// The location of the object.
        object: Location,
        /// The key of the member.
        key: String,
        /// The old member, if there was one.
        old: Option<Value>,
    },
    /// An element was inserted into an array.
    Element {
        /// The location of the array.
        array: Location,
        /// The index of the element.
        index: usize,
    },
}

impl Addition {
    /// Drops the value that was replaced, if any, however deep it nests.
    pub fn discard(self) {
        match self {
            Addition::Replaced { location: _, old } => discard(old),
            Addition::Member {
                object: _,
                key: _,
                old,
            } => {
                if let Some(old) = old {
                    discard(old);
                }
            }
            Addition::Element { .. } => {}
        }
    }
}

/// Replaces the node at the location, and returns the old one.
///
/// Needs no allocation. A call with the old node undoes it.
///
/// # Conditions
///
/// The location is in the document.
///
/// # Examples
///
/// ```rust
/// let mut document = json!(in alloc; [3])?;
/// let first = locate(alloc, &document, Pointer::parse("/0")?)?.location;
/// let old = replace_node(&mut document, &first, json!(in alloc; 5)?);
/// assert_eq!(rt; old.as_u64(), Some(3));
/// assert_eq!(rt; document.to_string(alloc)?.as_str(), "[5]");
/// ```
pub fn replace_node<D: NodeMut>(document: &mut D, location: &Location, value: Value) -> Value
    requires { IsThere (path_of location.now) (D.contents document.old) }
    ensures { At (path_of location.now) (ReplacesContent (contents_of result) (contents_of value))
        (D.contents document.old) (D.contents document.new) }
{
    match document.node_mut(location) {
        Ok(node) => mem::replace(node, value),
        Err(_) => unreachable!(),
    }
}

/// Replaces the node to which the pointer leads, and returns the old one. The pointer has no `~`.
///
/// Needs no allocation.
///
/// # Errors
///
/// The value itself, if the pointer leads to no node. The document is unchanged.
///
/// # Conditions
///
/// The pointer has no `~`.
///
/// # Examples
///
/// ```rust
/// let mut document = json!(in alloc; [3])?;
/// let first = Pointer::parse("/0")?.to_buf(alloc)?;
/// let old = replace_at(&mut document, &first, json!(in alloc; 5)?).ok();
/// assert!(rt; old.is_some());
/// assert_eq!(rt; document.to_string(alloc)?.as_str(), "[5]");
/// ```
pub fn replace_at<D: NodeMut>(
    document: &mut D,
    pointer: &PointerBuf,
    value: Value,
) -> Result<Value, Value>
    requires { HasNoTilde (text pointer.now) }
    ensures replaced { IfOk result (λ old. AtNamed pointer.now
        (ReplacesContent (contents_of old) (contents_of value))
        (D.contents document.old) (D.contents document.new)) }
    ensures refused { OnErr result (NamesNothing (map_of (D.contents document.old)) pointer.now) }
    ensures unchanged { OnErr result (D.contents document.new ≡ D.contents document.old) }
    ensures returned { IfErr result (λ v. v ≡ value) }
{
    match document.token_mut(pointer) {
        Ok(node) => Ok(mem::replace(node, value)),
        Err(_error) => Err(value),
    }
}

/// Puts back the node that was replaced where the pointer leads.
pub(crate) fn restore<D: NodeMut>(document: &mut D, pointer: &PointerBuf, old: Value)
    requires plain { HasNoTilde (text pointer.now) }
    requires replaced { (c v : Content)
        × AtNamed pointer.now (ReplacesContent (contents_of old) v) c (D.contents document.old) }
    ensures { (c v : Content)
        → AtNamed pointer.now (ReplacesContent (contents_of old) v) c (D.contents document.old)
        → D.contents document.new ≡ c }
{
    match replace_at(document, pointer, old) {
        Ok(value) => discard(value),
        Err(_) => unreachable!(),
    }
}

/// Inserts a member into the object at the location, and returns the one that it replaces, if any.
///
/// # Errors
///
/// [`AllocFailed`] with the value, if an allocation fails. The document is unchanged.
#[inline(always)]
fn insert_member<D: NodeMut>(
    document: &mut D,
    object: &Location,
    key: String,
    value: Value,
) -> Result<Option<Value>, AllocFailed<Value>>
    requires { HasAt (path_of object.now) IsObjectContent (D.contents document.old) }
    ensures added { IfOk result (λ old. At (path_of object.now)
        (AddsMember (string_bytes key) (option_map contents_of old) (contents_of value))
        (D.contents document.old) (D.contents document.new)) }
    ensures unchanged { OnErr result (D.contents document.new ≡ D.contents document.old) }
    ensures returned { IfErr result (λ failed. failed.value ≡ value) }
{
    match object_mut(document, object) {
        Some(members) => members::insert(members, key, value),
        None => unreachable!(),
    }
}

/// Inserts an element into the array at the location.
///
/// # Errors
///
/// [`AllocFailed`] with the value, if an allocation fails. The document is unchanged.
fn insert_element<D: NodeMut>(
    document: &mut D,
    array: &Location,
    index: usize,
    value: Value,
) -> Result<(), AllocFailed<Value>>
    requires { HasAt (path_of array.now) (HasAtLeast index) (D.contents document.old) }
    ensures added { IfOk result (λ _. At (path_of array.now)
        (PutsElement index (contents_of value)) (D.contents document.old) (D.contents document.new)) }
    ensures unchanged { OnErr result (D.contents document.new ≡ D.contents document.old) }
    ensures returned { IfErr result (λ failed. failed.value ≡ value) }
{
    match array_mut(document, array) {
        Some(elements) => elements.insert(index, value),
        None => unreachable!(),
    }
}

/// Removes the member from the object at the location, and returns it. Nothing is recorded.
pub(crate) fn delete_member<D: NodeMut>(document: &mut D, object: &Location, key: &str) -> Value
    requires { HasAt (path_of object.now) (HasMember key.now) (D.contents document.old) }
    ensures { At (path_of object.now) (TakesMember key.now (contents_of result))
        (D.contents document.old) (D.contents document.new) }
{
    match object_mut(document, object) {
        Some(members) => members::remove(members, key),
        None => unreachable!(),
    }
}

/// Replaces the member of the object at the location, and returns the old one.
fn set_member<D: NodeMut>(document: &mut D, object: &Location, key: String, value: Value) -> Value
    requires { HasAt (path_of object.now) (HasMember (string_bytes key)) (D.contents document.old) }
    ensures { At (path_of object.now)
        (SetsMember (string_bytes key) (contents_of result) (contents_of value))
        (D.contents document.old) (D.contents document.new) }
{
    match object_mut(document, object) {
        Some(members) => members::set(members, key, value),
        None => unreachable!(),
    }
}

/// Removes the element from the array at the location, and returns it. Nothing is recorded.
pub(crate) fn delete_element<D: NodeMut>(document: &mut D, array: &Location, index: usize) -> Value
    requires { HasAt (path_of array.now) (HasElement index) (D.contents document.old) }
    ensures { At (path_of array.now) (TakesElement index (contents_of result))
        (D.contents document.old) (D.contents document.new) }
{
    match array_mut(document, array) {
        Some(elements) => elements.remove(index),
        None => unreachable!(),
    }
}

/// Adds a value at the target, as [`add`] does, and drops the one that it replaces, if any. Nothing
/// undoes it.
///
/// Costs what an insertion into the map or the vector costs.
///
/// # Errors
///
/// [`AllocFailed`] with the value, if an allocation fails. The document is unchanged.
///
/// # Conditions
///
/// The value can be added at the target.
///
/// # Examples
///
/// ```rust
/// let mut document = json!(in alloc; [3])?;
/// let array = Location::root(alloc);
/// let end = Target::Element { array, index: 1 };
/// add_last(alloc, &mut document, end, json!(in alloc; 5)?)?;
/// assert_eq!(rt; document.to_string(alloc)?.as_str(), "[3,5]");
/// ```
pub fn add_last<D: NodeMut>(
    alloc: Global,
    document: &mut D,
    target: Target,
    value: Value,
) -> Result<(), AllocFailed<Value>>
    requires { CanAdd target (D.contents document.old) }
    ensures added { IfOk result (λ _.
        AddsAt target (contents_of value) (D.contents document.old) (D.contents document.new)) }
    ensures unchanged { OnErr result (D.contents document.new ≡ D.contents document.old) }
    ensures returned { IfErr result (λ failed. failed.value ≡ value) }
{
    match target {
        Target::Root => {
            discard(replace_node(document, &Location::root(alloc), value));
            Ok(())
        }
        Target::Member { object, key } => {
            if let Some(old) = insert_member(document, &object, key, value)? {
                discard(old);
            }
            Ok(())
        }
        Target::Element { array, index } => insert_element(document, &array, index, value),
    }
}

/// Adds a value at the target, and returns what undoes that.
///
/// Clones the key of a member. Else it costs what [`add_last`] costs.
///
/// # Errors
///
/// [`AllocFailed`] with the value, if an allocation fails. The document is unchanged.
///
/// # Conditions
///
/// The value can be added at the target.
///
/// # Examples
///
/// ```rust
/// let mut document = json!(in alloc; {})?;
/// let key = "size".to_string(alloc)?;
/// let size = Target::Member { object: Location::root(alloc), key };
/// let addition = add(alloc, &mut document, size, json!(in alloc; 3)?)?;
/// assert_eq!(rt; document.to_string(alloc)?.as_str(), r#"{"size":3}"#);
/// undo_addition(&mut document, addition);
/// assert_eq!(rt; document.to_string(alloc)?.as_str(), "{}");
/// ```
#[inline(always)]
pub fn add<D: NodeMut>(
    alloc: Global,
    document: &mut D,
    target: Target,
    value: Value,
) -> Result<Addition, AllocFailed<Value>>
    requires { CanAdd target (D.contents document.old) }
    ensures added { IfOk result (λ _.
        AddsAt target (contents_of value) (D.contents document.old) (D.contents document.new)) }
    ensures undone { IfOk result (λ a.
        IsAddition a (contents_of value) (D.contents document.old) (D.contents document.new)) }
    ensures unchanged { OnErr result (D.contents document.new ≡ D.contents document.old) }
    ensures returned { IfErr result (λ failed. failed.value ≡ value) }
{
    match target {
        Target::Root => Ok(replace(document, Location::root(alloc), value)),
        Target::Member { object, key } => add_member(document, object, key, value),
        Target::Element { array, index } => {
            insert_element(document, &array, index, value)?;
            Ok(Addition::Element { array, index })
        }
    }
}

/// Adds a member to the object at the location, as [`add`] does.
///
/// # Errors
///
/// Those of [`add`].
#[inline(always)]
fn add_member<D: NodeMut>(
    document: &mut D,
    object: Location,
    key: String,
    value: Value,
) -> Result<Addition, AllocFailed<Value>>
    requires { HasAt (path_of object) IsObjectContent (D.contents document.old) }
    ensures added { IfOk result (λ _. At (path_of object)
        (PutsMember (string_bytes key) (contents_of value))
        (D.contents document.old) (D.contents document.new)) }
    ensures undone { IfOk result (λ a.
        IsAddition a (contents_of value) (D.contents document.old) (D.contents document.new)) }
    ensures unchanged { OnErr result (D.contents document.new ≡ D.contents document.old) }
    ensures returned { IfErr result (λ failed. failed.value ≡ value) }
{
    let Ok(copy) = key.clone() else {
        return Err(AllocFailed { value });
    };
    let old = insert_member(document, &object, copy, value)?;
    Ok(Addition::Member { object, key, old })
}

/// Replaces the node at the location, and returns what undoes that.
///
/// Needs no allocation.
///
/// # Conditions
///
/// The location is in the document.
///
/// # Examples
///
/// ```rust
/// let mut document = json!(in alloc; [3])?;
/// let first = locate(alloc, &document, Pointer::parse("/0")?)?.location;
/// let addition = replace(&mut document, first, json!(in alloc; 5)?);
/// assert_eq!(rt; document.to_string(alloc)?.as_str(), "[5]");
/// undo_addition(&mut document, addition);
/// assert_eq!(rt; document.to_string(alloc)?.as_str(), "[3]");
/// ```
pub fn replace<D: NodeMut>(document: &mut D, location: Location, value: Value) -> Addition
    requires { IsThere (path_of location) (D.contents document.old) }
    ensures replaced { At (path_of location) (Writes (contents_of value))
        (D.contents document.old) (D.contents document.new) }
    ensures undone { IsAddition result (contents_of value)
        (D.contents document.old) (D.contents document.new) }
{
    let old = replace_node(document, &location, value);
    Addition::Replaced { location, old }
}

/// Undoes an addition, and returns the value that was added.
///
/// Needs no allocation.
///
/// # Conditions
///
/// The addition led to this document.
///
/// # Examples
///
/// ```rust
/// let mut document = json!(in alloc; [3])?;
/// let first = locate(alloc, &document, Pointer::parse("/0")?)?.location;
/// let addition = replace(&mut document, first, json!(in alloc; 5)?);
/// assert_eq!(rt; undo_addition(&mut document, addition).as_u64(), Some(5));
/// ```
pub fn undo_addition<D: NodeMut>(document: &mut D, addition: Addition) -> Value
    requires { (v c : Content) × IsAddition addition v c (D.contents document.old) }
    ensures { (v c : Content) → IsAddition addition v c (D.contents document.old)
        → (D.contents document.new ≡ c) × (contents_of result ≡ v) }
{
    match addition {
        Addition::Replaced { location, old } => replace_node(document, &location, old),
        Addition::Member { object, key, old } => undo_member(document, &object, key, old),
        Addition::Element { array, index } => delete_element(document, &array, index),
    }
}

/// Undoes the addition of a member to the object at the location, and returns the member.
fn undo_member<D: NodeMut>(
    document: &mut D,
    object: &Location,
    key: String,
    old: Option<Value>,
) -> Value
    requires { (v c : Content) × At (path_of object.now)
        (AddsMember (string_bytes key) (option_map contents_of old) v) c (D.contents document.old) }
    ensures { (v c : Content) → At (path_of object.now)
        (AddsMember (string_bytes key) (option_map contents_of old) v) c (D.contents document.old)
        → (D.contents document.new ≡ c) × (contents_of result ≡ v) }
{
    match old {
        None => delete_member(document, object, key.as_str()),
        Some(old) => set_member(document, object, key, old),
    }
}
