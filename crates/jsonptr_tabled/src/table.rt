//! A table of the byte offsets of a pointer's slashes, apart from the pointer.
ghost use Rattle.std.specs.Prelude.{◌≡◌, ◌+◌, ◌-◌, ◌<◌, ◌≤◌, [], ◌∷◌, ◌++◌, length, drop, take, vec_len, vec_capacity, IfOk};
ghost use Rattle.jsonptr.specs.Text.{text};
ghost use Rattle.jsonptr.specs.Pointer.{tokens};
ghost use Rattle.jsonptr_tabled.specs.Private.{offsets_up_to, moved_up, moved_down, CanMoveUp, CanMoveDown, CanMove, MovesOffsets};

use jsonptr::Pointer;
use std::alloc::AllocError;

/// How many offsets a full table makes room for at least, so that a short table is enlarged only
/// once.
const ROOM: usize = 32;

/// Makes room for one more offset. Does nothing if there is room.
///
/// # Errors
///
/// [`AllocError`] if an allocation fails. The offsets are unchanged.
#[inline(always)]
pub(crate) fn make_room(offsets: &mut Vec<usize>) -> Result<(), AllocError>
    ensures items { offsets.new.items ≡ offsets.old.items }
    ensures len { vec_len offsets.new ≡ vec_len offsets.old }
    ensures room { IfOk result (λ _. vec_len offsets.new < vec_capacity offsets.new) }
{
    if offsets.len() == offsets.capacity() {
        offsets.reserve(ROOM)?;
    }
    Ok(())
}

/// Appends the offsets of the slashes of `pointer`, whose text ends at `end`.
///
/// # Conditions
///
/// The text of `pointer` has at most `end` bytes, and the table has room for all of its slashes.
pub(crate) fn extend(offsets: &mut Vec<usize>, end: usize, pointer: Pointer<'_>)
    requires within { length (text (tokens pointer)) ≤ end }
    requires room { vec_len offsets.old + length (tokens pointer) ≤ vec_capacity offsets.old }
    ensures { offsets.new.items ≡ offsets.old.items ++ offsets_up_to end (tokens pointer.entry) }
{
    let mut rest = pointer;
    while let Some((_, after)) = rest.split_front() {
        offsets.push_reserved(end - rest.as_str().len());
        rest = after;
    }
}

/// Inserts the offset 0 before all others, and adds `by` to each of them.
///
/// # Conditions
///
/// The table has room for one more offset, and no sum overflows.
pub(crate) fn push_front(offsets: &mut Vec<usize>, by: usize)
    requires places { CanMoveUp offsets.old.items by }
    requires room { vec_len offsets.old < vec_capacity offsets.old }
    ensures { offsets.new.items ≡ 0 ∷ moved_up by offsets.old.items }
{
    offsets.push_reserved(0);
    shift_up(offsets, by);
}

/// Drops the last offset, adds `by` to each of the others, and inserts 0 before them.
///
/// # Conditions
///
/// There is an offset, and no sum overflows.
fn shift_up(offsets: &mut [usize], by: usize)
    requires some { 0 < length offsets.old }
    requires places { CanMoveUp (take (length offsets.old - 1) offsets.old) by }
    ensures { offsets.new ≡ 0 ∷ moved_up by (take (length offsets.old - 1) offsets.old) }
{
    let mut i = offsets.len() - 1;
    while 0 < i {
        offsets[i] = offsets[i - 1] + by;
        i -= 1;
    }
    offsets[0] = 0;
}

/// Removes the first offset, and subtracts `by` from each of the others.
///
/// # Conditions
///
/// Each offset after the first is at least `by`.
pub(crate) fn pop_front(offsets: &mut Vec<usize>, by: usize)
    requires { CanMoveDown offsets.old.items by }
    ensures { offsets.new.items ≡ moved_down by (drop 1 offsets.old.items) }
{
    shift_down(offsets, by);
    offsets.pop();
}

/// Writes each offset after the first, less `by`, one position earlier. The last offset is
/// unchanged.
///
/// # Conditions
///
/// Each offset after the first is at least `by`.
fn shift_down(offsets: &mut [usize], by: usize)
    requires { CanMoveDown offsets.old by }
    ensures len { length offsets.new ≡ length offsets.old }
    ensures moved { take (length offsets.old - 1) offsets.new
        ≡ moved_down by (drop 1 offsets.old) }
{
    for i in 1..offsets.len() {
        offsets[i - 1] = offsets[i] - by;
    }
}

/// Moves each offset from position `from` on, so that it keeps its distance from the end of the
/// text. The text had `before` bytes, and now has `after`.
///
/// # Conditions
///
/// Each offset that is moved is at most `before`, and its distance from `before` is at most
/// `after`.
pub(crate) fn move_offsets(offsets: &mut [usize], from: usize, before: usize, after: usize)
    requires { CanMove offsets.old from before after }
    ensures { MovesOffsets offsets.old offsets.new from before after }
{
    for i in from..offsets.len() {
        offsets[i] = after - (before - offsets[i]);
    }
}
