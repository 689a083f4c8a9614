//! Removals at a location of a document, and undoing them.
ghost use Rattle.std.specs.Prelude.{◌≡◌, None, IfOk, OnErr, MatchOption, string_bytes};
ghost use Rattle.serde_json.specs.declared.value.Value.{Null};
ghost use Rattle.jsonptr.specs.Content.{Content, content_at};
ghost use Rattle.jsonptr_patch_journal.specs.Location.{path_of, contents_of};
ghost use Rattle.jsonptr_patch_journal.specs.Children.{members_of};
ghost use Rattle.jsonptr_patch_journal.specs.Writing.{At};
ghost use Rattle.jsonptr_patch_journal.specs.Changes.{IsThere, HasAt, HasMember, HasElement, TakesMember, TakesElement, TakesAt, ReplacesContent};
ghost use Rattle.jsonptr_patch_journal.specs.Rooms.{LeavesRoom, LeavesElementRoom};
ghost use Rattle.jsonptr_patch_journal.specs.Undoing.{IsRemoval};

use crate::addition::{
    Addition, delete_element, delete_member, replace_node, restore, undo_addition,
};
use crate::elements::put_back;
use crate::location::{Location, LocationStep};
use crate::members;
use crate::node_mut::{NodeMut, array_mut, object_mut};
use jsonptr::PointerBuf;
use serde_json::{Map, Value};
use std::alloc::{AllocError, Global};
use std::mem;

/// What undoes a removal, apart from the value.
#[derive(Debug, Drop)]
pub enum Removal {
    /// The root was removed, and `null` was left.
    Root,
    /// The node was replaced by `null`, and is removed later.
    Blank {
        /// The location of the node.
        location: Location,
    },
    /// The node to which the pointer leads was replaced by `null`, and is removed later. The pointer
    /// has no `~`.
    BlankAt {
        /// The pointer of the node.
        pointer: PointerBuf,
    },
    /// A member was removed from an object.
    Member {
        /// The location of the object.
        object: Location,
        /// The key of the member.
        key: String,
        /// A map with the keys of all members.
        room: Map<String, Value>,
    },
    /// An element was removed from an array.
    Element {
        /// The location of the array.
        array: Location,
        /// The index of the element.
        index: usize,
        /// An empty vector with room for all elements.
        room: Vec<Value>,
    },
}

/// A value that was removed, and what undoes that.
#[derive(Debug, Drop)]
pub struct Taken {
    /// The value.
    pub value: Value,
    /// What undoes the removal.
    pub removal: Removal,
}

/// Removes the node at the location, and returns it with what undoes that. Removing the root leaves
/// `null`.
///
/// For a member it clones the keys of the object, for an element it allocates room for the array.
///
/// # Errors
///
/// [`AllocError`] if an allocation fails. The document is unchanged.
///
/// # Conditions
///
/// The location is in the document.
///
/// # Examples
///
/// ```rust
/// let mut document = json!(in alloc; [3, 5])?;
/// let first = locate(alloc, &document, Pointer::parse("/0")?)?.location;
/// let Taken { value, removal } = remove(alloc, &mut document, first)?;
/// assert_eq!(rt; document.to_string(alloc)?.as_str(), "[5]");
/// undo_removal(alloc, &mut document, removal, value);
/// assert_eq!(rt; document.to_string(alloc)?.as_str(), "[3,5]");
/// ```
pub fn remove<D: NodeMut>(
    alloc: Global,
    document: &mut D,
    location: Location,
) -> Result<Taken, AllocError>
    requires { IsThere (path_of location) (D.contents document.old) }
    ensures taken { IfOk result (λ t. TakesAt (path_of location) (contents_of t.value)
        (D.contents document.old) (D.contents document.new)) }
    ensures undone { IfOk result (λ t. IsRemoval t.removal (contents_of t.value)
        (D.contents document.old) (D.contents document.new)) }
    ensures unchanged { OnErr result (D.contents document.new ≡ D.contents document.old) }
{
    match location.split_last() {
        None => {
            let value = replace_node(document, &Location::root(alloc), Value::Null);
            Ok(Taken {
                value,
                removal: Removal::Root,
            })
        }
        Some((parent, last)) => match last {
            LocationStep::Key(key) => remove_member(alloc, document, parent, key),
            LocationStep::Index(index) => remove_element(alloc, document, parent, index),
        },
    }
}

/// Removes the member from the object at the location, as [`remove`] does.
///
/// # Errors
///
/// Those of [`remove`].
fn remove_member<D: NodeMut>(
    alloc: Global,
    document: &mut D,
    object: Location,
    key: String,
) -> Result<Taken, AllocError>
    requires { HasAt (path_of object) (HasMember (string_bytes key)) (D.contents document.old) }
    ensures taken { IfOk result (λ t. At (path_of object)
        (TakesMember (string_bytes key) (contents_of t.value))
        (D.contents document.old) (D.contents document.new)) }
    ensures undone { IfOk result (λ t. IsRemoval t.removal (contents_of t.value)
        (D.contents document.old) (D.contents document.new)) }
    ensures unchanged { OnErr result (D.contents document.new ≡ D.contents document.old) }
{
    let Some(members) = object_mut(document, &object) else {
        unreachable!()
    };
    let room = members::room_for(alloc, &*members)?;
    let value = members::remove(members, key.as_str());
    Ok(Taken {
        value,
        removal: Removal::Member { object, key, room },
    })
}

/// Removes the element from the array at the location, as [`remove`] does.
///
/// # Errors
///
/// Those of [`remove`].
pub(crate) fn remove_element<D: NodeMut>(
    alloc: Global,
    document: &mut D,
    array: Location,
    index: usize,
) -> Result<Taken, AllocError>
    requires { HasAt (path_of array) (HasElement index) (D.contents document.old) }
    ensures taken { IfOk result (λ t. At (path_of array)
        (TakesElement index (contents_of t.value)) (D.contents document.old) (D.contents document.new)) }
    ensures undone { IfOk result (λ t. IsRemoval t.removal (contents_of t.value)
        (D.contents document.old) (D.contents document.new)) }
    ensures unchanged { OnErr result (D.contents document.new ≡ D.contents document.old) }
{
    let Some(elements) = array_mut(document, &array) else {
        unreachable!()
    };
    let room = Vec::with_capacity(alloc, elements.len())?;
    let value = elements.remove(index);
    Ok(Taken {
        value,
        removal: Removal::Element { array, index, room },
    })
}

/// Removes the node at the location, as [`remove`] does, and returns it. Nothing undoes it.
///
/// Needs no allocation.
///
/// # Conditions
///
/// The location is in the document.
///
/// # Examples
///
/// ```rust
/// let mut document = json!(in alloc; [3, 5])?;
/// let first = locate(alloc, &document, Pointer::parse("/0")?)?.location;
/// let value = remove_last(alloc, &mut document, first);
/// assert_eq!(rt; value.as_u64(), Some(3));
/// assert_eq!(rt; document.to_string(alloc)?.as_str(), "[5]");
/// ```
pub fn remove_last<D: NodeMut>(alloc: Global, document: &mut D, location: Location) -> Value
    requires { IsThere (path_of location) (D.contents document.old) }
    ensures { TakesAt (path_of location) (contents_of result)
        (D.contents document.old) (D.contents document.new) }
{
    match location.split_last() {
        None => replace_node(document, &Location::root(alloc), Value::Null),
        Some((parent, last)) => match last {
            LocationStep::Key(key) => delete_member(document, &parent, key.as_str()),
            LocationStep::Index(index) => delete_element(document, &parent, index),
        },
    }
}

/// Takes the value of the node at the location, and leaves `null` there. Returns `None` if the
/// location is not in the document, which is then unchanged.
///
/// [`Removal::Blank`] undoes it. The node is to be removed later, when nothing can fail any more.
/// Needs no allocation.
///
/// # Examples
///
/// ```rust
/// let mut document = json!(in alloc; [3, 5])?;
/// let location = locate(alloc, &document, Pointer::parse("/0")?)?.location;
/// let value = blank(&mut document, &location).ok_or("a value")?;
/// assert_eq!(rt; document.to_string(alloc)?.as_str(), "[null,5]");
/// undo_removal(alloc, &mut document, Removal::Blank { location }, value);
/// assert_eq!(rt; document.to_string(alloc)?.as_str(), "[3,5]");
/// ```
pub fn blank<D: NodeMut>(document: &mut D, location: &Location) -> Option<Value>
    ensures { MatchOption result
        ((content_at (path_of location.now) (D.contents document.old) ≡ None)
        × (D.contents document.new ≡ D.contents document.old))
        (λ value. At (path_of location.now) (ReplacesContent (contents_of value) (contents_of Null))
        (D.contents document.old) (D.contents document.new)) }
{
    match document.node_mut(location) {
        Ok(node) => Some(mem::replace(node, Value::Null)),
        Err(_) => None,
    }
}

/// Undoes a removal.
///
/// Needs no allocation. For a member it moves all members of the object, for an element all
/// elements of the array.
///
/// # Conditions
///
/// The removal of the value led to this document.
pub fn undo_removal<D: NodeMut>(alloc: Global, document: &mut D, removal: Removal, value: Value)
    requires { (c : Content) × IsRemoval removal (contents_of value) c (D.contents document.old) }
    ensures { (c : Content) → IsRemoval removal (contents_of value) c (D.contents document.old)
        → D.contents document.new ≡ c }
{
    match removal {
        Removal::Root => drop(replace_node(document, &Location::root(alloc), value)),
        Removal::Blank { location } => undo_blank(document, location, value),
        Removal::BlankAt { pointer } => restore(document, &pointer, value),
        Removal::Member { object, key, room } => undo_member(document, &object, key, value, room),
        Removal::Element { array, index, room } => undo_element(
            document, &array, index, value, room,
        ),
    }
}

/// Puts back the node that was replaced by `null`.
fn undo_blank<D: NodeMut>(document: &mut D, location: Location, value: Value)
    requires { (c : Content) × At (path_of location)
        (ReplacesContent (contents_of value) (contents_of Null)) c (D.contents document.old) }
    ensures { (c : Content) → At (path_of location)
        (ReplacesContent (contents_of value) (contents_of Null)) c (D.contents document.old)
        → D.contents document.new ≡ c }
{
    let replaced = Addition::Replaced {
        location,
        old: value,
    };
    drop(undo_addition(document, replaced));
}

/// Puts back the member that was removed from the object at the location.
fn undo_member<D: NodeMut>(
    document: &mut D,
    object: &Location,
    key: String,
    value: Value,
    room: Map<String, Value>,
)
    requires { (c : Content) × At (path_of object.now)
        (LeavesRoom (string_bytes key) (members_of room) (contents_of value))
        c (D.contents document.old) }
    ensures { (c : Content) → At (path_of object.now)
        (LeavesRoom (string_bytes key) (members_of room) (contents_of value))
        c (D.contents document.old) → D.contents document.new ≡ c }
{
    let mut room = room;
    drop(members::set(&mut room, key, value));
    match object_mut(document, object) {
        Some(members) => members::restore(members, room),
        None => unreachable!(),
    }
}

/// Puts back the element that was removed from the array at the location.
fn undo_element<D: NodeMut>(
    document: &mut D,
    array: &Location,
    index: usize,
    value: Value,
    room: Vec<Value>,
)
    requires { (c : Content) × At (path_of array.now)
        (LeavesElementRoom index room (contents_of value)) c (D.contents document.old) }
    ensures { (c : Content) → At (path_of array.now)
        (LeavesElementRoom index room (contents_of value)) c (D.contents document.old)
        → D.contents document.new ≡ c }
{
    match array_mut(document, array) {
        Some(elements) => put_back(elements, index, value, room),
        None => unreachable!(),
    }
}
