//! Members of an object, and room for them, so that removed members can be put back without an
//! allocation.
ghost use Rattle.std.specs.Prelude.{◌≡◌, IfOk, IfErr, OnErr, Some, IsSome, option_map, string_bytes};
ghost use Rattle.serde_json.specs.declared.value.Value.{Null};
ghost use Rattle.jsonptr.specs.Content.{Members, get_member};
ghost use Rattle.jsonptr_patch_journal.specs.Location.{contents_of};
ghost use Rattle.jsonptr_patch_journal.specs.Children.{members_of, put_all, put_member, without_member, HasAll, IsRoom, KeysRise};

use serde_json::{Map, Value};
use std::alloc::{AllocError, AllocFailed, Global};
use std::collections::BTreeMap;

/// Inserts null under a key.
///
/// # Errors
///
/// [`AllocError`] if an allocation fails.
#[tactic(auto, using(crate::proofs::MembersLemmas::map_put))]
fn add_key(room: &mut Map<String, Value>, key: String) -> Result<(), AllocError>
    ensures { IfOk result (λ _. members_of room.new
        ≡ put_member (string_bytes key) (contents_of Null) (members_of room.old)) }
{
    room.insert(key, Value::Null)?;
    Ok(())
}

/// Replaces the value under a key that the room has.
pub(crate) fn set(room: &mut Map<String, Value>, key: String, value: Value) -> Value
    requires { IsSome (get_member (string_bytes key) (members_of room.old)) }
    ensures put { members_of room.new
        ≡ put_member (string_bytes key) (contents_of value) (members_of room.old) }
    ensures old { get_member (string_bytes key) (members_of room.old) ≡ Some (contents_of result) }
{
    match room.insert(key, value) {
        Ok(Some(old)) => old,
        Ok(None) => unreachable!(),
        Err(_) => unreachable!(),
    }
}

/// Returns room for the members: a map with their keys, each with null.
///
/// Clones each key.
///
/// # Errors
///
/// [`AllocError`] if an allocation fails.
pub(crate) fn room_for(
    alloc: Global,
    members: &Map<String, Value>,
) -> Result<Map<String, Value>, AllocError>
    ensures { IfOk result (λ room.
        IsRoom (members_of room) (members_of members.now) (members_of members.now)) }
{
    let mut room = BTreeMap::new(alloc);
    for (key, _value) in members.iter() {
        add_key(&mut room, key.clone()?)?;
    }
    Ok(room)
}

/// Moves all members into the room, which has their keys.
fn fill(room: &mut Map<String, Value>, members: &mut Map<String, Value>)
    requires { HasAll (members_of members.old) (members_of room.old) }
    ensures { members_of room.new ≡ put_all (members_of members.old) (members_of room.old) }
{
    while let Some((key, value)) = members.pop_first() {
        drop(set(room, key, value));
    }
}

/// Puts back the members that the room has.
pub(crate) fn restore(members: &mut Map<String, Value>, room: Map<String, Value>)
    requires { HasAll (members_of members.old) (members_of room) }
    ensures { members_of members.new ≡ put_all (members_of members.old) (members_of room) }
{
    let mut room = room;
    fill(&mut room, members);
    *members = room;
}

/// Inserts a member, and returns the one that it replaces, if any.
///
/// # Errors
///
/// [`AllocFailed`] with the value, if an allocation fails. The members are unchanged.
pub(crate) fn insert(
    members: &mut Map<String, Value>,
    key: String,
    value: Value,
) -> Result<Option<Value>, AllocFailed<Value>>
    ensures put { IfOk result (λ _. members_of members.new
        ≡ put_member (string_bytes key) (contents_of value) (members_of members.old)) }
    ensures old { IfOk result (λ old. get_member (string_bytes key) (members_of members.old)
        ≡ option_map contents_of old) }
    ensures rise { KeysRise (members_of members.old) }
    ensures unchanged { OnErr result (members_of members.new ≡ members_of members.old) }
    ensures returned { IfErr result (λ failed. failed.value ≡ value) }
{
    let _len = members.len();
    match members.insert(key, value) {
        Ok(old) => Ok(old),
        Err(failed) => Err(AllocFailed {
            value: failed.value.1,
        }),
    }
}

/// Removes the member under a key that is there.
pub(crate) fn remove(members: &mut Map<String, Value>, key: &str) -> Value
    requires { IsSome (get_member key.now (members_of members.old)) }
    ensures found { get_member key.now (members_of members.old) ≡ Some (contents_of result) }
    ensures removed { members_of members.new ≡ without_member key.now (members_of members.old) }
    ensures rise { KeysRise (members_of members.old) }
{
    let _len = members.len();
    match members.remove(key) {
        Some(value) => value,
        None => unreachable!(),
    }
}
