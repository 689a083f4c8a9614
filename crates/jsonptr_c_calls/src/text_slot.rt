//! The address of a text on the heap, as a pointer without a type.
ghost use Rattle.std.specs.Prelude.{◌≡◌, Option, Some, None};
ghost use Rattle.std.specs.Coded.{coded_option};
ghost use Rattle.jsonptr_c_calls.specs.declared.open_text.OpenText.{OpenText as Opened};
ghost use Rattle.jsonptr_c_calls.specs.contracts.open_text.OpenText.{the_row};
ghost use Rattle.jsonptr_c_calls.specs.TextSlot.{text_slot_owns};

use crate::apart::Apart;
use crate::open_text::OpenText;
use std::alloc::Global;
use std::marker::Model;
use std::ptr;

/// The address of a text that is owned, or null.
///
/// Dropping it does not free the text: take the text out first.
#[repr(C)]
#[derive(Drop)]
pub struct TextSlot {
    address: *mut u8,
    pub ghost content: { Option Opened } by { coded_option the_row.coded },
}

impl Model for TextSlot {
    ghost also_owns = { λ s. text_slot_owns s.address s.content };
}

impl TextSlot {
    /// Returns a slot that owns nothing.
    pub(crate) fn vacant() -> TextSlot
        ensures { result.content ≡ None }
    {
        TextSlot {
            address: ptr::null_mut(),
        }
    }

    /// Returns a slot that owns the text.
    pub(crate) fn holding(apart: Apart<OpenText, Global>) -> TextSlot
        ensures { result.content ≡ Some apart.content }
    {
        let Apart {
            address,
            allocator: _,
        } = apart;
        TextSlot {
            address: address.cast::<u8>(),
        }
    }

    /// Returns the text that the slot owns.
    pub(crate) fn into_apart(self, alloc: Global) -> Apart<OpenText, Global>
        requires { (v : Opened) × (self.content ≡ Some v) }
        ensures { self.content ≡ Some result.content }
    {
        let TextSlot { address } = self;
        Apart {
            address: address.cast::<OpenText>(),
            allocator: alloc,
        }
    }
}
