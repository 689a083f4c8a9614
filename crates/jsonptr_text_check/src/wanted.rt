//! What is decided at each child.
//!
//! Each test is a function, also one that is a single operator: a proof can name the result of a call,
//! and has its clause as a fact.
ghost use Rattle.std.specs.Prelude.{◌≡◌, ◌↔◌, ◌||◌, IsTrue};
ghost use Rattle.jsonptr_text_check.specs.PrivateEditing.{MayFollow};
ghost use Rattle.jsonptr_text_check.specs.PrivateLeading.{IsStep};

/// The member that a selector leads to.
#[derive(Clone, Copy, Debug)]
pub struct Wanted<'a> {
    /// Its key.
    pub key: &'a str,
    /// Its position among all members.
    pub position: usize,
}

/// A member that was found.
#[derive(Clone, Copy, Debug)]
pub struct FoundMember<'a> {
    /// Its name.
    pub name: &'a str,
    /// Whether it is the wanted one.
    pub wanted: bool,
    /// Whether it has the key of the wanted one.
    pub named: bool,
}

/// What is done with a child of an array or an object, on the way to a value.
#[derive(Clone, Copy, Debug)]
pub enum Step {
    /// It is before the child that leads to the value, and is passed over.
    Skip,
    /// It leads to the value.
    Enter,
    /// It is after that child, and is read in two texts.
    Follow,
}

/// Returns what is done with a child: whether it is the wanted one, after the wanted one was entered or not.
pub fn step_of(is_done: bool, wanted: bool) -> Step
    ensures { IsStep is_done wanted result }
{
    if is_done {
        Step::Follow
    } else if wanted {
        Step::Enter
    } else {
        Step::Skip
    }
}

/// Returns whether the count is this index.
pub fn is_at(count: usize, index: usize) -> bool
    ensures { IsTrue result ↔ (count ≡ index) }
{
    count == index
}

/// Returns whether a member may follow: the wanted one has the key, and no later one has it.
pub fn may_follow(is_done: bool, wanted: bool, named: bool) -> bool
    ensures { IsTrue result → MayFollow is_done wanted named }
{
    if wanted {
        named && !is_done
    } else {
        !(is_done && named)
    }
}

/// Returns whether one of the two is true.
pub fn is_either(one: bool, other: bool) -> bool
    ensures { result ≡ (one || other) }
{
    one || other
}
