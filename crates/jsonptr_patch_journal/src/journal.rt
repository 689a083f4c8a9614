//! A journal of changes: what undoes them, the last one first.
ghost use Rattle.std.specs.Prelude.{◌≡◌, ◌<◌, [], IfOk, OnOk, OnErr, MatchOption, string_bytes};
ghost use Rattle.std.specs.Vec.{vec_capacity};
ghost use Rattle.serde_json.specs.declared.value.Value.{Null};
ghost use Rattle.jsonptr.specs.Content.{Content};
ghost use Rattle.jsonptr_patch_journal.specs.Location.{path_of, contents_of};
ghost use Rattle.jsonptr_patch_journal.specs.Children.{members_of};
ghost use Rattle.jsonptr_patch_journal.specs.Writing.{At};
ghost use Rattle.jsonptr_patch_journal.specs.Changes.{IsThere, HasAt, IsObjectContent, HasMember, HasElement, TakesMember, TakesElement, TakesAt, Writes};
ghost use Rattle.jsonptr_patch_journal.specs.Rooms.{LeavesMembers};
ghost use Rattle.jsonptr_patch_journal.specs.Undoing.{CanAdd, AddsAt, IsAddition, IsRemoval};
ghost use Rattle.jsonptr_patch_journal.specs.Journal.{IsEntryOf, Chain, Pages, Undone, HasRoom};

use crate::addition::{Addition, Target, add, replace, replace_node, restore, undo_addition};
use crate::location::{Location, LocationStep};
use crate::members;
use crate::node_mut::{NodeMut, object_mut};
use crate::removal::{Removal, Taken, remove_element, undo_removal};
use jsonptr::PointerBuf;
use jsonptr_value::discard;
use serde_json::{Map, Value};
use std::alloc::{AllocError, Global};
use std::mem;

/// What undoes one change.
#[derive(Debug, Drop)]
pub enum Entry {
    /// A value was added.
    Added(Addition),
    /// The value was removed.
    Removed(Removal, Value),
    /// A value was removed, and then added elsewhere.
    Moved(Removal, Addition),
    /// Members were removed from the object at the location. The map has them, and the keys of all
    /// other members.
    RemovedMembers(Location, Map<String, Value>),
    /// The node to which the pointer leads was replaced. The pointer has no `~`.
    Replaced(PointerBuf, Value),
}

/// The number of entries of a page. So a page has less than 1,024 bytes: the C library keeps such a block
/// for the next journal.
const PAGE: usize = 5;

/// What undoes a list of changes, in their order.
///
/// The entries are in pages of a few, so that none of them is moved when the journal grows.
#[derive(Debug, Drop)]
pub struct Journal {
    /// The pages before the last one.
    pub full: Vec<Vec<Entry>>,
    /// The entries of the last page.
    pub entries: Vec<Entry>,
}

impl Journal {
    /// Returns an empty journal. It does not allocate.
    pub fn new(alloc: Global) -> Journal
        ensures { (c : Content) → Undone result c c }
    {
        Journal {
            full: Vec::new(alloc),
            entries: Vec::new(alloc),
        }
    }

    /// Makes room for one more entry.
    ///
    /// # Errors
    ///
    /// [`AllocError`] if an allocation fails.
    pub fn reserve(&mut self, alloc: Global) -> Result<(), AllocError>
        ensures room { OnOk result (HasRoom self.new) }
        ensures undone { (c d : Content) → Undone self.old c d → Undone self.new c d }
    {
        if self.entries.len() < self.entries.capacity() {
            return Ok(());
        }
        if self.entries.is_empty() {
            return self.entries.reserve_exact(PAGE);
        }
        let page = Vec::with_capacity(alloc, PAGE)?;
        self.turn_to(page)
    }

    /// Begins an empty page.
    ///
    /// # Errors
    ///
    /// [`AllocError`] if an allocation fails.
    fn turn_to(&mut self, page: Vec<Entry>) -> Result<(), AllocError>
        requires empty { page.items ≡ [] }
        requires room { 0 < vec_capacity page }
        ensures room { OnOk result (HasRoom self.new) }
        ensures undone { (c d : Content) → Undone self.old c d → Undone self.new c d }
    {
        self.full.reserve(1)?;
        let filled = mem::replace(&mut self.entries, page);
        self.full.push_reserved(filled);
        Ok(())
    }

    /// Appends an entry. There is room for it.
    ///
    /// # Conditions
    ///
    /// The journal has room for an entry.
    pub fn push(&mut self, entry: Entry)
        requires { HasRoom self.old }
        ensures { (c b d : Content) → Undone self.old c b → IsEntryOf entry b d
            → Undone self.new c d }
    {
        self.entries.push_reserved(entry);
    }

    /// Adds a value at the target.
    ///
    /// # Errors
    ///
    /// [`AllocError`] if an allocation fails.
    ///
    /// # Conditions
    ///
    /// The value can be added at the target.
    ///
    /// # Examples
    ///
    /// ```rust
    /// let mut document = json!(in alloc; [3])?;
    /// let array = Location::root(alloc);
    /// let mut journal = Journal::new(alloc);
    /// let end = Target::Element { array, index: 1 };
    /// journal.add(alloc, &mut document, end, json!(in alloc; 5)?)?;
    /// assert_eq!(rt; document.to_string(alloc)?.as_str(), "[3,5]");
    /// ```
    pub fn add<D: NodeMut>(
        &mut self,
        alloc: Global,
        document: &mut D,
        target: Target,
        value: Value,
    ) -> Result<(), AllocError>
        requires { CanAdd target (D.contents document.old) }
        ensures added { IfOk result (λ _.
            AddsAt target (contents_of value) (D.contents document.old) (D.contents document.new)) }
        ensures undone { (c : Content) → Undone self.old c (D.contents document.old)
            → Undone self.new c (D.contents document.new) }
    {
        if let Err(error) = self.reserve(alloc) {
            discard(value);
            return Err(error);
        }
        match add(alloc, document, target, value) {
            Ok(addition) => {
                self.push(Entry::Added(addition));
                Ok(())
            }
            Err(failed) => {
                discard(failed.value);
                Err(AllocError)
            }
        }
    }

    /// Replaces the node at the location.
    ///
    /// # Errors
    ///
    /// [`AllocError`] if the allocation for the entry fails. The document is unchanged.
    ///
    /// # Conditions
    ///
    /// The location is in the document.
    ///
    /// # Examples
    ///
    /// ```rust
    /// let mut document = json!(in alloc; {"size": 3})?;
    /// let size = locate(alloc, &document, Pointer::parse("/size")?)?.location;
    /// let mut journal = Journal::new(alloc);
    /// journal.replace(alloc, &mut document, size, json!(in alloc; 5)?)?;
    /// assert_eq!(rt; document.to_string(alloc)?.as_str(), r#"{"size":5}"#);
    /// ```
    pub fn replace<D: NodeMut>(
        &mut self,
        alloc: Global,
        document: &mut D,
        location: Location,
        value: Value,
    ) -> Result<(), AllocError>
        requires { IsThere (path_of location) (D.contents document.old) }
        ensures replaced { IfOk result (λ _. At (path_of location) (Writes (contents_of value))
            (D.contents document.old) (D.contents document.new)) }
        ensures undone { (c : Content) → Undone self.old c (D.contents document.old)
            → Undone self.new c (D.contents document.new) }
    {
        if let Err(error) = self.reserve(alloc) {
            discard(value);
            return Err(error);
        }
        let addition = replace(document, location, value);
        self.push(Entry::Added(addition));
        Ok(())
    }

    /// Removes the node at the location. Removing the root leaves `null`.
    ///
    /// Members that are removed from one object one after another share their room: together they
    /// clone the keys of the object once.
    ///
    /// # Errors
    ///
    /// [`AllocError`] if an allocation fails.
    ///
    /// # Conditions
    ///
    /// The location is in the document, to which the entries of the journal led.
    ///
    /// # Examples
    ///
    /// ```rust
    /// let mut document = json!(in alloc; {"size": 3})?;
    /// let size = locate(alloc, &document, Pointer::parse("/size")?)?.location;
    /// let mut journal = Journal::new(alloc);
    /// journal.remove(alloc, &mut document, size)?;
    /// assert_eq!(rt; document.to_string(alloc)?.as_str(), "{}");
    /// ```
    pub fn remove<D: NodeMut>(
        &mut self,
        alloc: Global,
        document: &mut D,
        location: Location,
    ) -> Result<(), AllocError>
        requires there { IsThere (path_of location) (D.contents document.old) }
        requires undone { (c : Content) × Undone self.old c (D.contents document.old) }
        ensures removed { IfOk result (λ _. (v : Content) × TakesAt (path_of location) v
            (D.contents document.old) (D.contents document.new)) }
        ensures undone { (c : Content) → Undone self.old c (D.contents document.old)
            → Undone self.new c (D.contents document.new) }
    {
        match location.split_last() {
            None => self.remove_root(alloc, document),
            Some((parent, last)) => match last {
                LocationStep::Key(key) => self.remove_member(alloc, document, parent, key),
                LocationStep::Index(index) => self.remove_element(alloc, document, parent, index),
            },
        }
    }

    /// Removes the root, and leaves `null`.
    ///
    /// # Errors
    ///
    /// [`AllocError`] if the allocation for the entry fails.
    fn remove_root<D: NodeMut>(&mut self, alloc: Global, document: &mut D) -> Result<(), AllocError>
        ensures removed { IfOk result (λ _. D.contents document.new ≡ contents_of Null) }
        ensures undone { (c : Content) → Undone self.old c (D.contents document.old)
            → Undone self.new c (D.contents document.new) }
    {
        self.reserve(alloc)?;
        let value = replace_node(document, &Location::root(alloc), Value::Null);
        self.push(Entry::Removed(Removal::Root, value));
        Ok(())
    }

    /// Removes the element from the array at the location.
    ///
    /// # Errors
    ///
    /// [`AllocError`] if an allocation fails.
    fn remove_element<D: NodeMut>(
        &mut self,
        alloc: Global,
        document: &mut D,
        array: Location,
        index: usize,
    ) -> Result<(), AllocError>
        requires { HasAt (path_of array) (HasElement index) (D.contents document.old) }
        ensures removed { IfOk result (λ _. (v : Content) × At (path_of array)
            (TakesElement index v) (D.contents document.old) (D.contents document.new)) }
        ensures undone { (c : Content) → Undone self.old c (D.contents document.old)
            → Undone self.new c (D.contents document.new) }
    {
        self.reserve(alloc)?;
        let Taken { value, removal } = remove_element(alloc, document, array, index)?;
        self.push(Entry::Removed(removal, value));
        Ok(())
    }

    /// Removes the member from the object at the location.
    ///
    /// # Errors
    ///
    /// [`AllocError`] if an allocation fails.
    fn remove_member<D: NodeMut>(
        &mut self,
        alloc: Global,
        document: &mut D,
        object: Location,
        key: String,
    ) -> Result<(), AllocError>
        requires member { HasAt (path_of object) (HasMember (string_bytes key))
            (D.contents document.old) }
        requires undone { (c : Content) × Undone self.old c (D.contents document.old) }
        ensures removed { IfOk result (λ _. (v : Content) × At (path_of object)
            (TakesMember (string_bytes key) v) (D.contents document.old) (D.contents document.new)) }
        ensures undone { (c : Content) → Undone self.old c (D.contents document.old)
            → Undone self.new c (D.contents document.new) }
    {
        let mut room = self.room_for(alloc, document, &object)?;
        set_aside_at(document, &object, &mut room, key);
        self.push(Entry::RemovedMembers(object, room));
        Ok(())
    }

    /// Returns room for the members of the object at the location. If the last entry has such room,
    /// it is taken out of the journal.
    ///
    /// # Errors
    ///
    /// [`AllocError`] if an allocation fails.
    fn room_for<D: NodeMut>(
        &mut self,
        alloc: Global,
        document: &mut D,
        object: &Location,
    ) -> Result<Map<String, Value>, AllocError>
        requires { HasAt (path_of object.now) IsObjectContent (D.contents document.old) }
        ensures room { OnOk result (HasRoom self.new) }
        ensures unchanged { D.contents document.new ≡ D.contents document.old }
        ensures left { IfOk result (λ room. (c : Content) → Undone self.old c (D.contents document.old)
            → (b : Content) × Undone self.new c b
            × At (path_of object.now) (LeavesMembers (members_of room)) b (D.contents document.old)) }
        ensures undone { OnErr result ((c d : Content) → Undone self.old c d
            → Undone self.new c d) }
    {
        match self.pop_room(object) {
            Some(room) => Ok(room),
            None => {
                self.reserve(alloc)?;
                room_at(alloc, document, object)
            }
        }
    }

    /// Removes the last entry and returns its room, if it has room for the members of the object at
    /// the location.
    fn pop_room(&mut self, object: &Location) -> Option<Map<String, Value>>
        ensures { MatchOption result ((self.new.full.items ≡ self.old.full.items)
            × (self.new.entries.items ≡ self.old.entries.items))
            (λ room. HasRoom self.new × ((c d : Content) → Undone self.old c d
            → (b : Content) × Undone self.new c b
            × At (path_of object.now) (LeavesMembers (members_of room)) b d)) }
    {
        match self.entries.pop() {
            Some(Entry::RemovedMembers(location, room)) => {
                if location.is_same(object) {
                    return Some(room);
                }
                self.entries
                    .push_reserved(Entry::RemovedMembers(location, room));
                None
            }
            Some(entry) => {
                self.entries.push_reserved(entry);
                None
            }
            None => None,
        }
    }

    /// Drops the journal and the values in it, however deep they nest.
    pub fn discard(self) {
        let Journal { full, entries } = self;
        for page in full {
            discard_entries(page);
        }
        discard_entries(entries);
    }

    /// Undoes the changes, the last one first.
    ///
    /// Needs no allocation.
    ///
    /// # Conditions
    ///
    /// The entries of the journal led to this document.
    ///
    /// # Examples
    ///
    /// ```rust
    /// let mut document = json!(in alloc; {"size": 3})?;
    /// let size = locate(alloc, &document, Pointer::parse("/size")?)?.location;
    /// let mut journal = Journal::new(alloc);
    /// journal.remove(alloc, &mut document, size)?;
    /// journal.undo(alloc, &mut document);
    /// assert_eq!(rt; document.to_string(alloc)?.as_str(), r#"{"size":3}"#);
    /// ```
    pub fn undo<D: NodeMut>(self, alloc: Global, document: &mut D)
        requires { (c : Content) × Undone self c (D.contents document.old) }
        ensures { (c : Content) → Undone self c (D.contents document.old) → D.contents document.new ≡ c }
    {
        let Journal { full, entries } = self;
        undo_entries(alloc, document, entries);
        undo_pages(alloc, document, full);
    }
}

/// Drops the entries and the values in them, however deep they nest.
fn discard_entries(entries: Vec<Entry>) {
    for entry in entries {
        entry.discard();
    }
}

/// Undoes the changes of the pages, the last one first.
fn undo_pages<D: NodeMut>(alloc: Global, document: &mut D, pages: Vec<Vec<Entry>>)
    requires { (c : Content) × Pages pages.items c (D.contents document.old) }
    ensures { (c : Content) → Pages pages.items c (D.contents document.old) → D.contents document.new ≡ c }
{
    let mut pages = pages;
    while let Some(page) = pages.pop() {
        undo_entries(alloc, document, page);
    }
}

/// Undoes the changes of the entries, the last one first.
fn undo_entries<D: NodeMut>(alloc: Global, document: &mut D, entries: Vec<Entry>)
    requires { (c : Content) × Chain entries.items c (D.contents document.old) }
    ensures { (c : Content) → Chain entries.items c (D.contents document.old) → D.contents document.new ≡ c }
{
    let mut entries = entries;
    while let Some(entry) = entries.pop() {
        undo_entry(alloc, document, entry);
    }
}

impl Entry {
    /// Drops the values that the entry has, however deep they nest.
    pub fn discard(self) {
        match self {
            Entry::Added(addition) => addition.discard(),
            Entry::Removed(_removal, value) => discard(value),
            Entry::Moved(_removal, addition) => addition.discard(),
            Entry::RemovedMembers(_object, room) => discard(Value::Object(room)),
            Entry::Replaced(_path, old) => discard(old),
        }
    }
}

/// Undoes one change.
fn undo_entry<D: NodeMut>(alloc: Global, document: &mut D, entry: Entry)
    requires { (c : Content) × IsEntryOf entry c (D.contents document.old) }
    ensures { (c : Content) → IsEntryOf entry c (D.contents document.old) → D.contents document.new ≡ c }
{
    match entry {
        Entry::Added(addition) => discard(undo_addition(document, addition)),
        Entry::Removed(removal, value) => undo_removal(alloc, document, removal, value),
        Entry::Moved(removal, addition) => undo_move(alloc, document, removal, addition),
        Entry::RemovedMembers(object, room) => restore_members_at(document, &object, room),
        Entry::Replaced(path, old) => restore(document, &path, old),
    }
}

/// Undoes a move.
fn undo_move<D: NodeMut>(alloc: Global, document: &mut D, removal: Removal, addition: Addition)
    requires { (c v b : Content) × IsRemoval removal v c b
        × IsAddition addition v b (D.contents document.old) }
    ensures { (c v b : Content) → IsRemoval removal v c b
        → IsAddition addition v b (D.contents document.old) → D.contents document.new ≡ c }
{
    let value = undo_addition(document, addition);
    undo_removal(alloc, document, removal, value);
}

/// Returns room for the members of the object at the location.
///
/// # Errors
///
/// [`AllocError`] if an allocation fails.
fn room_at<D: NodeMut>(
    alloc: Global,
    document: &mut D,
    object: &Location,
) -> Result<Map<String, Value>, AllocError>
    requires { HasAt (path_of object.now) IsObjectContent (D.contents document.old) }
    ensures room { IfOk result (λ room. At (path_of object.now)
        (LeavesMembers (members_of room)) (D.contents document.old) (D.contents document.old)) }
    ensures unchanged { D.contents document.new ≡ D.contents document.old }
{
    match object_mut(document, object) {
        Some(members) => members::room_for(alloc, &*members),
        None => unreachable!(),
    }
}

/// Moves the member from the object at the location into the room.
fn set_aside_at<D: NodeMut>(
    document: &mut D,
    object: &Location,
    room: &mut Map<String, Value>,
    key: String,
)
    requires member { HasAt (path_of object.now) (HasMember (string_bytes key))
        (D.contents document.old) }
    requires room { (c : Content) × At (path_of object.now)
        (LeavesMembers (members_of room.old)) c (D.contents document.old) }
    ensures taken { (v : Content) × At (path_of object.now) (TakesMember (string_bytes key) v)
        (D.contents document.old) (D.contents document.new) }
    ensures room { (c : Content)
        → At (path_of object.now) (LeavesMembers (members_of room.old)) c (D.contents document.old)
        → At (path_of object.now) (LeavesMembers (members_of room.new)) c (D.contents document.new) }
{
    match object_mut(document, object) {
        Some(members) => {
            let value = members::remove(members, key.as_str());
            drop(members::set(room, key, value));
        }
        None => unreachable!(),
    }
}

/// Puts back the members that the room has into the object at the location.
fn restore_members_at<D: NodeMut>(document: &mut D, object: &Location, room: Map<String, Value>)
    requires { (c : Content) × At (path_of object.now)
        (LeavesMembers (members_of room)) c (D.contents document.old) }
    ensures { (c : Content) → At (path_of object.now)
        (LeavesMembers (members_of room)) c (D.contents document.old) → D.contents document.new ≡ c }
{
    match object_mut(document, object) {
        Some(members) => members::restore(members, room),
        None => unreachable!(),
    }
}
