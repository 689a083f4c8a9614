//! Which children of an old array or object become which children of a new one.

use crate::hash::by_key;
use crate::tree::{NodeKind, TreeChild, TreeNode};
use std::alloc::{AllocError, Global};
use std::collections::BTreeSet;

/// How many elements ahead two that are the same are searched for.
const LOOKAHEAD: usize = 32;

/// How many members of two objects are compared at most.
const MOST_MEMBERS: usize = 64;

/// What becomes of a child. Children are given by their positions.
#[derive(Clone, Copy, Debug, Drop, PartialEq, Eq)]
pub enum Step {
    /// The first one, of the old text, becomes the second one, of the new text.
    Keep(usize, usize),
    /// The old child goes.
    Remove(usize),
    /// The new child is added.
    Add(usize),
}

/// Returns what becomes of the children of an array or an object, in the order of the result.
///
/// # Errors
///
/// [`AllocError`] if an allocation fails.
pub fn align(alloc: Global, old: &TreeNode, new: &TreeNode) -> Result<Vec<Step>, AllocError> {
    match old.kind {
        NodeKind::Object => align_members(alloc, &old.children, &new.children),
        _ => align_elements(alloc, &old.children, &new.children),
    }
}

/// Members keep their order, and new ones come at the end. Of members with one key the last one
/// counts.
fn align_members(
    alloc: Global,
    old: &[TreeChild],
    new: &[TreeChild],
) -> Result<Vec<Step>, AllocError> {
    let known = by_key(alloc, old)?;
    let named = by_key(alloc, new)?;
    let mut steps = Vec::new(alloc);
    for (position, member) in old.iter().enumerate() {
        let is_last = known.get(&member.key) == Some(&position);
        let step = match named.get(&member.key) {
            Some(other) if is_last => Step::Keep(position, *other),
            _ => Step::Remove(position),
        };
        steps.push(step)?;
    }
    for (position, member) in new.iter().enumerate() {
        let is_last = named.get(&member.key) == Some(&position);
        if is_last && !known.contains_key(&member.key) {
            steps.push(Step::Add(position))?;
        }
    }
    Ok(steps)
}

/// Elements that are the same belong together, and those between them one by one.
fn align_elements(
    alloc: Global,
    old: &[TreeChild],
    new: &[TreeChild],
) -> Result<Vec<Step>, AllocError> {
    let olds = hashes(alloc, old)?;
    let news = hashes(alloc, new)?;
    let mut steps = Vec::new(alloc);
    let (mut left, mut right) = (old, new);
    'steps: while let (Some((first, after)), Some((other, rest))) = (
        left.split_first(),
        right.split_first(),
    ) {
        let known = (
            news.contains(&first.node.hash),
            olds.contains(&other.node.hash),
        );
        let (at, to) = (old.len() - left.len(), new.len() - right.len());
        match choose(left, right, known) {
            Choice::Keep => {
                steps.push(Step::Keep(at, to))?;
                left = after;
                right = rest;
            }
            Choice::Remove => {
                steps.push(Step::Remove(at))?;
                left = after;
            }
            Choice::Add => {
                steps.push(Step::Add(to))?;
                right = rest;
            }
        }
    }
    for position in old.len() - left.len()..old.len() {
        steps.push(Step::Remove(position))?;
    }
    for position in new.len() - right.len()..new.len() {
        steps.push(Step::Add(position))?;
    }
    Ok(steps)
}

/// What to do with the first elements of two lists.
#[derive(Clone, Copy, Debug, Drop, PartialEq, Eq)]
enum Choice {
    /// They belong together.
    Keep,
    /// The old one goes.
    Remove,
    /// The new one is added.
    Add,
}

/// Returns what to do with the first elements. `known` says whether the old one is in the new array,
/// and the new one in the old array.
fn choose(old: &[TreeChild], new: &[TreeChild], known: (bool, bool)) -> Choice {
    if is_same(old, 0, new, 0) {
        return Choice::Keep;
    }
    match known {
        (false, true) => Choice::Remove,
        (true, false) => Choice::Add,
        (true, true) => nearest(old, new),
        (false, false) => if is_alike(old, 0, new, 0) {
            Choice::Keep
        } else if is_alike(old, 0, new, 1) {
            Choice::Add
        } else if is_alike(old, 1, new, 0) {
            Choice::Remove
        } else {
            Choice::Keep
        },
    }
}

/// Returns what to do if both elements are in the other array: what brings the nearer one.
fn nearest(old: &[TreeChild], new: &[TreeChild]) -> Choice {
    for ahead in 1..LOOKAHEAD {
        if is_same(old, ahead, new, 0) {
            return Choice::Remove;
        }
        if is_same(old, 0, new, ahead) {
            return Choice::Add;
        }
    }
    Choice::Keep
}

/// Returns whether both lists have these elements, and they are the same.
fn is_same(old: &[TreeChild], position: usize, new: &[TreeChild], other: usize) -> bool {
    match (old.get(position), new.get(other)) {
        (Some(left), Some(right)) => left.node.hash == right.node.hash,
        _ => false,
    }
}

/// Returns whether both lists have these elements, and they are objects of which half of the members
/// are the same.
fn is_alike(old: &[TreeChild], position: usize, new: &[TreeChild], other: usize) -> bool {
    match (old.get(position), new.get(other)) {
        (Some(left), Some(right)) => {
            let (members, others) = (&left.node.children, &right.node.children);
            let most = members.len().max(others.len());
            left.node.kind == NodeKind::Object
                && right.node.kind == NodeKind::Object
                && most <= MOST_MEMBERS
                && most > 0
                && shared(members, others) >= most - most / 2
        }
        _ => false,
    }
}

/// Returns how many members of the first object are members of the other one too.
fn shared(members: &[TreeChild], others: &[TreeChild]) -> usize {
    members
        .iter()
        .filter(|member| has_member(others, member))
        .count()
}

/// Returns whether one of the members has this key and this value.
fn has_member(others: &[TreeChild], member: &TreeChild) -> bool {
    others.iter().any(|other| other.key == member.key && other.node.hash == member.node.hash)
}

/// Returns the hashes of the elements.
fn hashes(alloc: Global, elements: &[TreeChild]) -> Result<BTreeSet<u64>, AllocError> {
    let mut hashes = BTreeSet::new(alloc);
    for element in elements {
        hashes.insert(element.node.hash)?;
    }
    Ok(hashes)
}
