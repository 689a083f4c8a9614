//! A box that is taken apart into its pointer and its allocator.
ghost use Rattle.std.specs.Prelude.{◌≡◌};
ghost use Rattle.std.specs.Box.Ownership.{box_owns};

use std::alloc::Allocator;
use std::marker::Model;

/// The pointer and the allocator of a box. The value at the pointer is still owned.
pub struct Apart<T, A: Allocator> {
    pub(crate) address: *mut T,
    pub(crate) allocator: A,
    pub(crate) ghost content: { T },
}

impl<T, A: Allocator> Model for Apart<T, A> {
    ghost also_owns = { λ x. box_owns (A.dealloc_token x.allocator) T.row x.address x.content };
}

impl<T: Drop, A: Allocator> Apart<T, A> {
    /// Takes the box apart.
    pub(crate) fn from_box(whole: Box<T, A>) -> Apart<T, A>
        ensures { result.content ≡ whole.value }
    {
        let (address, allocator) = Box::into_raw_with_allocator(whole);
        Apart { address, allocator }
    }

    /// Returns the box that was taken apart.
    pub(crate) fn into_box(self) -> Box<T, A>
        ensures { result.value ≡ self.content }
    {
        let Apart { address, allocator } = self;
        // SAFETY: both come from a box, which `from_box` took apart.
        unsafe { Box::from_raw(allocator, address) }
    }
}
