//! Inserting members into an object that is made.
ghost use Rattle.std.specs.Prelude.{◌≡◌, List, ℕ, Some, OnOk, IfOk, string_bytes};
ghost use Rattle.std.specs.BTreeMap.{get_by_text};
ghost use Rattle.std.specs.Map.{update};
ghost use Rattle.std.specs.Str.{bytes_eq};
ghost use Rattle.serde_json.specs.View.{view};
ghost use Rattle.jsonptr.specs.Json.{HasSortedKeys};
ghost use Rattle.jsonptr_merge.specs.Values.{SortedIn};
ghost use Rattle.jsonptr_merge.specs.PrivateObjects.{SortedObject, InsertsSome, HasKeysOf, HasKeysOfAll};

use jsonptr_value::discard;
use serde_json::{Map, Value};
use std::alloc::{AllocError, Global};

/// Inserts a member under a copy of the key.
///
/// # Errors
///
/// [`AllocError`] if an allocation fails.
pub fn insert_member(
    members: &mut Map<String, Value>,
    key: &String,
    member: Value,
) -> Result<(), AllocError>
    ensures inserts { OnOk result ((q : List ℕ) → get_by_text members.new q
        ≡ update bytes_eq (get_by_text members.old) (string_bytes key.now) (Some member) q) }
    ensures sorted { OnOk result (HasSortedKeys (view member)
        → SortedObject members.old → SortedObject members.new) }
{
    let Ok(name) = key.clone() else {
        discard(member);
        return Err(AllocError);
    };
    match members.insert(name, member) {
        Ok(_) => Ok(()),
        Err(failed) => {
            let (_name, member) = failed.value;
            discard(member);
            Err(AllocError)
        }
    }
}

/// Inserts the member, if it exists.
///
/// # Errors
///
/// [`AllocError`] if an allocation fails.
pub fn insert_some(
    members: &mut Map<String, Value>,
    key: &String,
    member: Option<Value>,
) -> Result<(), AllocError>
    ensures inserts { OnOk result
        (InsertsSome members.old members.new (string_bytes key.now) member) }
    ensures sorted { OnOk result (SortedIn member
        → SortedObject members.old → SortedObject members.new) }
{
    match member {
        Some(member) => insert_member(members, key, member),
        None => Ok(()),
    }
}

/// Returns an object with the keys of all three, each with `null`.
///
/// # Errors
///
/// [`AllocError`] if an allocation fails.
pub fn keys_of_all(
    alloc: Global,
    base: &Map<String, Value>,
    ours: &Map<String, Value>,
    theirs: &Map<String, Value>,
) -> Result<Map<String, Value>, AllocError>
    ensures { IfOk result (λ keys. HasKeysOfAll base.now ours.now theirs.now keys) }
{
    let mut keys = Map::new(alloc);
    add_keys(base, &mut keys)?;
    add_keys(ours, &mut keys)?;
    add_keys(theirs, &mut keys)?;
    Ok(keys)
}

/// Inserts `null` under each key of the object.
///
/// # Errors
///
/// [`AllocError`] if an allocation fails.
fn add_keys(members: &Map<String, Value>, keys: &mut Map<String, Value>) -> Result<(), AllocError>
    ensures { IfOk result (λ _. HasKeysOf members.now keys.old keys.new) }
{
    for (key, _member) in members.iter() {
        insert_member(keys, key, Value::Null)?;
    }
    Ok(())
}
