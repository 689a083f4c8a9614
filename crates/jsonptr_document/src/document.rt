//! What every document has: a node at its root, and documents below it.
ghost use Rattle.std.specs.Prelude.{◌≡◌, [], ◌∷◌, ◌++◌, IsSome};
ghost use Rattle.jsonptr_tree.specs.Node.{Step, Path, NodeMap, sub};

use std::collections::BTreeMap;

/// The node at the root of a document, with its children borrowed from the document.
#[derive(Drop)]
pub enum Node<'v, D> {
    /// A value that is neither an array nor an object.
    Leaf,
    /// An array, with its elements.
    Array(&'v Vec<D>),
    /// An object, with its members.
    Object(&'v BTreeMap<String, D>),
}

/// A value in which a pointer can be resolved, such as `serde_json::Value` and `toml::Value`.
///
/// Contracts see a document `d` as its map `nodes d`, from each path to the label of the node
/// there. `stands_at d w e` says that the document `e` is at the path `w` in `d`.
/// `has_sorted_keys d` says that each object in `d` has its keys in ascending order.
pub trait Document: Sized + Drop {
    ghost use Rattle.jsonptr_document.specs.Document.{Shows};

    // `nodes d` is the label at each path of the document `d`
    ghost nodes: { Self → NodeMap };

    // `stands_at d w e`: the document `e` is at the path `w` in `d`
    ghost stands_at: { Self → Path → Self → Type 0 };

    // `has_sorted_keys d`: each object in the document `d` has its keys in ascending order
    ghost has_sorted_keys: { Self → Type 0 };

    /// Returns the node at the root, with its children. Takes constant time and needs no
    /// allocation.
    fn node(&self) -> Node<'_, Self>
        ensures { Shows (nodes self.now) (stands_at self.now) result };

    // a document has a node at its root
    ghost has_root: { (d : Self) → IsSome (nodes d []) };

    // a document is at its own root
    ghost here: { (d : Self) → stands_at d [] d };

    // a child of a part of a document is in the document, one step below that part
    ghost below: { (d e f : Self) (w : Path) (s : Step)
        → stands_at d w e → stands_at e (s ∷ []) f → stands_at d (w ++ s ∷ []) f };

    // the map of a part of a document is the subtree of the document's map at that path
    ghost is_sub: { (d e : Self) (w : Path) → stands_at d w e → nodes e ≡ sub (nodes d) w };

    // a part of a document with sorted keys has sorted keys
    ghost part_has_sorted_keys: { (d e : Self) (w : Path) → stands_at d w e → has_sorted_keys d
        → has_sorted_keys e };
}
