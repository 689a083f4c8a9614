//! What a session does to its document.
ghost use Rattle.std.specs.Prelude.{◌≡◌, ⊤, IsOk, IfOk, IfSome, OnErr, MatchOption, option_map};
ghost use Rattle.jsonptr.specs.Node.{Path, NodeMap, Names, IsTree};
ghost use Rattle.jsonptr.specs.Following.{Finds};
ghost use Rattle.jsonptr.specs.Assigning.{Assigns};
ghost use Rattle.jsonptr.specs.Removing.{Deletes};
ghost use Rattle.jsonptr.specs.Fault.{IfRefused, HasMemory};
ghost use Rattle.jsonptr.specs.Pointer.{tokens};
ghost use Rattle.jsonptr.specs.Resolve.{Refuses, PutsAt};
ghost use Rattle.jsonptr.specs.Assign.{RefusesAssign, NeedsNothing};
ghost use Rattle.jsonptr.specs.Delete.{NamesNothing};
ghost use Rattle.jsonptr.specs.Text.{HasNoTilde, text};

use jsonptr::{Fault, Pointer, ResolveMut, assign, resolve};
use std::alloc::{AllocError, Global};
use std::mem;

/// A document that a session works on.
///
/// Contracts view it as its node map, `nodes`. The map `blank` is that of the document after the
/// root is removed. `is_same d e` means that `e` is `d` unchanged, and `has_sorted_keys d` that the
/// keys of each object in `d` are in ascending order.
pub trait SessionDocument: Sized + Drop {
    // the map of the document
    ghost nodes: { Self → NodeMap };

    // the map that is left after the root is removed
    ghost blank: { NodeMap };

    // the second document is the first, unchanged
    ghost is_same: { Self → Self → Type 0 };

    // the keys of each object of the document are in ascending order
    ghost has_sorted_keys: { Self → Type 0 };

    /// Checks that the pointer resolves to a value.
    ///
    /// # Errors
    ///
    /// [`Fault::Refused`] if it does not, and [`Fault::Memory`] if an allocation fails.
    fn find_at(&self, alloc: Global, pointer: Pointer<'_>) -> Result<(), Fault<resolve::Error>>
        ensures found { IfOk result (λ _.
            (w : Path) × Names (nodes self.now) (tokens pointer.entry) w) }
        ensures refused { IfRefused result (Refuses (nodes self.now) (tokens pointer.entry)) }
        ensures no_memory { HasNoTilde (text (tokens pointer.entry)) → HasMemory result };

    /// Returns a copy of the value that the pointer resolves to.
    ///
    /// # Errors
    ///
    /// [`Fault::Refused`] if the pointer does not resolve to a value, and [`Fault::Memory`] if an
    /// allocation fails.
    fn copy_at(&self, alloc: Global, pointer: Pointer<'_>) -> Result<Self, Fault<resolve::Error>>
        ensures found { IfOk result (λ v. Finds (nodes self.now) (tokens pointer.entry) (nodes v)) }
        ensures returned_sorted { IfOk result (λ v. has_sorted_keys self.now → has_sorted_keys v) }
        ensures refused { IfRefused result (Refuses (nodes self.now) (tokens pointer.entry)) }
        ensures no_memory { HasNoTilde (text (tokens pointer.entry))
            → NamesNothing (nodes self.now) (tokens pointer.entry) → HasMemory result };

    /// Swaps `value` with the value that the pointer resolves to.
    ///
    /// # Errors
    ///
    /// [`Fault::Refused`] if the pointer does not resolve to a value, and [`Fault::Memory`] if an
    /// allocation fails. The document and `value` are unchanged.
    fn swap_at(
        &mut self,
        alloc: Global,
        pointer: Pointer<'_>,
        value: &mut Self,
    ) -> Result<(), Fault<resolve::Error>>
        ensures found { IfOk result (λ _.
            Finds (nodes self.old) (tokens pointer.entry) (nodes value.new)) }
        ensures written { IfOk result (λ _.
            PutsAt (nodes self.old) (tokens pointer.entry) (nodes value.old) (nodes self.new)) }
        ensures sorted { IfOk result (λ _.
            has_sorted_keys value.old → has_sorted_keys self.old → has_sorted_keys self.new) }
        ensures returned_sorted { IfOk result (λ _.
            has_sorted_keys self.old → has_sorted_keys value.new) }
        ensures refused { IfRefused result (Refuses (nodes self.old) (tokens pointer.entry)) }
        ensures map_unchanged { OnErr result (nodes self.new ≡ nodes self.old) }
        ensures unchanged { OnErr result (is_same self.old self.new) }
        ensures value_unchanged { OnErr result (value.new ≡ value.old) }
        ensures no_memory { HasNoTilde (text (tokens pointer.entry)) → HasMemory result };

    /// Assigns a value at the pointer, and returns the value that it replaced, if any.
    ///
    /// # Errors
    ///
    /// [`Fault::Refused`] if no value can be assigned there, and [`Fault::Memory`] if an allocation
    /// fails. The document is unchanged.
    fn assign_at(
        &mut self,
        alloc: Global,
        pointer: Pointer<'_>,
        value: Self,
    ) -> Result<Option<Self>, Fault<assign::Error>>
        ensures assigned { IfOk result (λ r. Assigns (nodes self.old) (tokens pointer.entry)
            (nodes value) (nodes self.new) (option_map nodes r)) }
        ensures sorted { IfOk result (λ _.
            has_sorted_keys value → has_sorted_keys self.old → has_sorted_keys self.new) }
        ensures returned_sorted { IfOk result (λ r.
            IfSome r (λ v. has_sorted_keys self.old → has_sorted_keys v)) }
        ensures refused { IfRefused result (RefusesAssign (nodes self.old) (tokens pointer.entry)) }
        ensures map_unchanged { OnErr result (nodes self.new ≡ nodes self.old) }
        ensures unchanged { OnErr result (is_same self.old self.new) }
        ensures no_memory { NeedsNothing (nodes self.old) (tokens pointer.entry)
            → HasMemory result };

    /// Removes the value that the pointer resolves to, and returns it. Returns `None` if there is
    /// none.
    ///
    /// # Errors
    ///
    /// [`AllocError`] if an allocation fails. The document is unchanged.
    fn delete_at(&mut self, alloc: Global, pointer: Pointer<'_>) -> Result<Option<Self>, AllocError>
        ensures deleted { IfOk result (λ r. MatchOption r
            (NamesNothing (nodes self.old) (tokens pointer.entry)
            × (nodes self.new ≡ nodes self.old))
            (λ v. Finds (nodes self.old) (tokens pointer.entry) (nodes v)
            × Deletes (nodes self.old) (tokens pointer.entry) blank (nodes self.new))) }
        ensures sorted { IfOk result (λ _. has_sorted_keys self.old → has_sorted_keys self.new) }
        ensures returned_sorted { IfOk result (λ r.
            IfSome r (λ v. has_sorted_keys self.old → has_sorted_keys v)) }
        ensures missing { IfOk result (λ r. MatchOption r (is_same self.old self.new) (λ _. ⊤)) }
        ensures map_unchanged { OnErr result (nodes self.new ≡ nodes self.old) }
        ensures unchanged { OnErr result (is_same self.old self.new) }
        ensures no_memory { HasNoTilde (text (tokens pointer.entry)) → IsOk result };

    // the map of a document is a tree
    ghost is_tree: { (d : Self) → IsTree (nodes d) };

    // a document is the same as itself
    ghost same_self: { (d : Self) → is_same d d };

    // if `e` is the same document as `d`, and the keys of `d` are in ascending order, those of `e`
    // are
    ghost same_sorted: { (d e : Self) → is_same d e → has_sorted_keys d → has_sorted_keys e };
}

/// Swaps `value` with the value that a pointer resolves to in a document of any type.
///
/// # Errors
///
/// Those of [`ResolveMut::resolve_mut`]. The document and `value` are unchanged.
pub fn swap<D: ResolveMut>(
    alloc: Global,
    document: &mut D,
    pointer: Pointer<'_>,
    value: &mut D::Value,
) -> Result<(), Fault<D::Error>>
    ensures found { IfOk result (λ _. D.finds document.old (tokens pointer.entry) value.new) }
    ensures written { IfOk result (λ _.
        D.writes document.old (tokens pointer.entry) value.old document.new) }
    ensures refused { IfRefused result (D.refuses document.old (tokens pointer.entry)) }
    ensures unchanged { OnErr result (D.is_same document.old document.new) }
    ensures value_unchanged { OnErr result (value.new ≡ value.old) }
    ensures no_memory { D.needs_no_memory document.old (tokens pointer.entry) → HasMemory result }
{
    let node = document.resolve_mut(alloc, pointer)?;
    mem::swap(node, value);
    Ok(())
}
