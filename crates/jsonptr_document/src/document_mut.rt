//! What every document has that can be written: children to add, replace and remove, and the
//! containers that path expansion makes.
ghost use Rattle.std.specs.Prelude.{◌≡◌, IfOk, OnErr, MatchOption, [], ◌∷◌, Some, ℕ, List, string_bytes};
ghost use Rattle.jsonptr_tree.specs.Node.{key, place, an_object, an_array, NodeMap, IsTree};
ghost use Rattle.jsonptr_tree.specs.Put.{put};
ghost use Rattle.jsonptr_tree.specs.Expansion.{with_one};
ghost use Rattle.jsonptr_document.specs.Writing.{IsArray, IsObject, Pushes, Removes};

use crate::child_ref::ChildRef;
use crate::document::Document;
use std::alloc::{AllocError, Global};

/// A document in which the children of the root can be added, replaced and removed.
pub trait DocumentMut: Document {
    // the map of what remains after the root is removed
    ghost blank_map: { NodeMap };

    /// Returns what remains after the root is removed: `null` in JSON, and an empty table in TOML.
    /// Needs no allocation.
    fn blank(alloc: Global) -> Self
        ensures map { Self.nodes result ≡ blank_map }
        ensures sorted { Self.has_sorted_keys result };

    /// Drops a document, however deep it nests.
    fn discard(document: Self);

    /// Returns an array of one element.
    ///
    /// # Errors
    ///
    /// [`AllocError`] if the allocation for the array fails. The element is dropped.
    fn array_of(alloc: Global, element: Self) -> Result<Self, AllocError>
        ensures map { IfOk result (λ d.
            Self.nodes d ≡ with_one (an_array 1) (place 0) (Self.nodes element)) }
        ensures sorted { IfOk result (λ d. Self.has_sorted_keys element → Self.has_sorted_keys d) };

    /// Returns an object of one member.
    ///
    /// # Errors
    ///
    /// [`AllocError`] if the allocation for the object fails. The key and the value are dropped.
    fn object_of(alloc: Global, name: String, value: Self) -> Result<Self, AllocError>
        ensures map { IfOk result (λ d.
            Self.nodes d ≡ with_one an_object (key (string_bytes name)) (Self.nodes value)) }
        ensures sorted { IfOk result (λ d. Self.has_sorted_keys value → Self.has_sorted_keys d) };

    /// Appends an element to the array at the root.
    ///
    /// # Errors
    ///
    /// [`AllocError`] if an allocation fails. The array is unchanged, and the element is dropped.
    ///
    /// # Conditions
    ///
    /// The root is an array.
    fn push(&mut self, element: Self) -> Result<(), AllocError>
        requires { IsArray (Self.nodes self.old) }
        ensures pushed { IfOk result (λ _.
            Pushes (Self.nodes self.old) (Self.nodes element) (Self.nodes self.new)) }
        ensures sorted { IfOk result (λ _.
            Self.has_sorted_keys element → Self.has_sorted_keys self.old
            → Self.has_sorted_keys self.new) }
        ensures unchanged { OnErr result (Self.stands_at self.old [] self.new) };

    /// Inserts a member into the object at the root, and replaces the one with the same key, if
    /// any.
    ///
    /// # Errors
    ///
    /// [`AllocError`] if an allocation fails. The object is unchanged, and the key and the value
    /// are dropped.
    ///
    /// # Conditions
    ///
    /// The root is an object.
    fn insert(&mut self, name: String, value: Self) -> Result<(), AllocError>
        requires { IsObject (Self.nodes self.old) }
        ensures inserted { IfOk result (λ _.
            Self.nodes self.new
            ≡ put (Self.nodes self.old) (key (string_bytes name) ∷ []) (Self.nodes value)) }
        ensures sorted { IfOk result (λ _.
            Self.has_sorted_keys value → Self.has_sorted_keys self.old
            → Self.has_sorted_keys self.new) }
        ensures unchanged { OnErr result (Self.stands_at self.old [] self.new) };

    /// Removes a child of the root and returns it. Returns `None` and changes nothing if it does
    /// not exist.
    fn remove(&mut self, child: &ChildRef<'_>) -> Option<Self>
        ensures removed { Removes Self.nodes Self.stands_at self.old child.now self.new result }
        ensures sorted { Self.has_sorted_keys self.old → Self.has_sorted_keys self.new };

    // the map of a document is a tree
    ghost is_tree: { (d : Self) → IsTree (Self.nodes d) };
}
