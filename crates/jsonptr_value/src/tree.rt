//! Dropping a tree by a loop that needs no memory.

use std::mem;

/// A tree of values: a leaf, or an array or object, whose elements or members are the children.
pub(crate) trait Tree: Drop {
    /// Returns a leaf.
    fn leaf() -> Self;

    /// Returns the number of children.
    fn len(&self) -> usize;

    /// Returns the first child.
    fn first_mut(&mut self) -> Option<&mut Self>;

    /// Returns the last child.
    fn last_mut(&mut self) -> Option<&mut Self>;

    /// Drops the last child, which is a leaf.
    fn pop(&mut self);
}

/// Drops the tree, without recursion and without an allocation.
///
/// Each turn takes the last child of `current`. A child without children is dropped. A child with
/// children becomes `current`, and the path back to the root goes over first children: the old
/// `current` becomes the first child of the new one, whose old first child takes its place.
///
/// ```text
/// [a, [b, c]]    current, whose last child is [b, c]
/// [[a, b], c]    rotated: [b, c] is current, with [a, b] for b
/// [[a, b]]       c is dropped
/// [a, b]         the only child becomes current
/// ```
///
/// A turn drops a node, or adds one to the path back, so a tree of `n` nodes takes at most `2n`
/// turns.
pub(crate) fn drop_tree<T: Tree>(root: T) {
    let mut current = root;
    for _turn in 0..u64::MAX {
        let Some(last) = current.last_mut() else {
            return;
        };
        let mut child = mem::replace(last, T::leaf());
        if child.len() == 0 {
            current.pop();
        } else if current.len() == 1 {
            current = child;
        } else {
            rotate(&mut child, current);
            current = child;
        }
    }
}

/// Makes `parent` the first child of `child`, and the old first child of `child` the last child of
/// `parent`.
fn rotate<T: Tree>(child: &mut T, parent: T) {
    let Some(first) = child.first_mut() else {
        return;
    };
    let grandchild = mem::replace(first, parent);
    if let Some(last) = first.last_mut() {
        *last = grandchild;
    }
}
