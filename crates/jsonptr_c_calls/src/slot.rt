//! The address of a document on the heap, as a pointer without a type.
ghost use Rattle.std.specs.Prelude.{◌≡◌, Option, Some, None};
ghost use Rattle.std.specs.Coded.{coded_option};
ghost use Rattle.serde_json.specs.declared.value.Value.{Value as JsonValue};
ghost use Rattle.serde_json.specs.contracts.value.Value.{the_row};
ghost use Rattle.jsonptr_c_calls.specs.Slot.{slot_owns};

use crate::apart::Apart;
use serde_json::Value;
use std::alloc::Global;
use std::marker::Model;
use std::ptr;

/// The address of a value that is owned, or null.
///
/// Dropping it does not free the value: take the value out first.
#[repr(C)]
#[derive(Drop)]
pub struct Slot {
    address: *mut u8,
    pub ghost content: { Option JsonValue } by { coded_option the_row.coded },
}

impl Model for Slot {
    ghost also_owns = { λ s. slot_owns s.address s.content };
}

impl Slot {
    /// Returns a slot that owns nothing.
    pub(crate) fn vacant() -> Slot
        ensures { result.content ≡ None }
    {
        Slot {
            address: ptr::null_mut(),
        }
    }

    /// Returns a slot that owns the value.
    pub(crate) fn holding(apart: Apart<Value, Global>) -> Slot
        ensures { result.content ≡ Some apart.content }
    {
        let Apart {
            address,
            allocator: _,
        } = apart;
        Slot {
            address: address.cast::<u8>(),
        }
    }

    /// Returns the value that the slot owns.
    pub(crate) fn into_apart(self, alloc: Global) -> Apart<Value, Global>
        requires { (v : JsonValue) × (self.content ≡ Some v) }
        ensures { self.content ≡ Some result.content }
    {
        let Slot { address } = self;
        Apart {
            address: address.cast::<Value>(),
            allocator: alloc,
        }
    }
}
