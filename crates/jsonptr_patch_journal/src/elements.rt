//! Elements of an array, and room for them, so that a removed element can be put back without an
//! allocation.
ghost use Rattle.std.specs.Prelude.{◌≡◌, ◌<◌, ◌≤◌, [], length};
ghost use Rattle.std.specs.List.{insert};
ghost use Rattle.std.specs.Vec.{vec_capacity};

/// Inserts an element at the index, with the room that it was removed with.
pub(crate) fn put_back<T: Drop>(elements: &mut Vec<T>, index: usize, value: T, room: Vec<T>)
    requires index { index ≤ length elements.old.items }
    requires room { (room.items ≡ []) × (length elements.old.items < vec_capacity room) }
    ensures { elements.new.items ≡ insert elements.old.items index value }
{
    let mut room = room;
    match room.append(elements) {
        Ok(()) => {}
        Err(_) => unreachable!(),
    }
    match room.insert(index, value) {
        Ok(()) => {}
        Err(_) => unreachable!(),
    }
    *elements = room;
}
