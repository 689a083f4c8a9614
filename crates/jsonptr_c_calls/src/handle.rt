//! The handle of a document.
ghost use Rattle.std.specs.Prelude.{◌≡◌, true, IsTrue, MatchOption, is_some};

use crate::apart::Apart;
use crate::slot::Slot;
use serde_json::Value;
use std::alloc::Global;
use std::mem;

/// A document, or none. In C it is a pointer and a `bool`, which is zeroed memory at first.
///
/// A handle that is dropped does not free its document: [`take`](Handle::take) that first.
#[repr(C)]
#[derive(Drop)]
pub struct Handle {
    slot: Slot,
    is_full: bool,
    ghost tied: { is_full ≡ true → IsTrue (is_some slot.content) },
}

impl Handle {
    ghost use Rattle.jsonptr_c_calls.specs.Handle.{Holds, IsEmpty};

    /// Returns a handle that holds no document.
    pub fn empty() -> Handle
        ensures { IsEmpty result }
    {
        Handle {
            slot: Slot::vacant(),
            is_full: false,
        }
    }

    /// Takes the document out of the handle, which is empty afterwards.
    pub fn take(&mut self, alloc: Global) -> Option<Box<Value, Global>>
        ensures taken { MatchOption result (IsEmpty self.old) (λ b. Holds self.old b.value) }
        ensures empty { IsEmpty self.new }
    {
        if self.is_full {
            self.is_full = false;
            let slot = mem::replace(&mut self.slot, Slot::vacant());
            Some(slot.into_apart(alloc).into_box())
        } else {
            None
        }
    }

    /// Puts a document into the handle, which is empty: [`take`](Handle::take) what is in it first.
    ///
    /// # Conditions
    ///
    /// The handle holds no document. One that it held would never be freed.
    pub fn put(&mut self, document: Box<Value, Global>)
        requires { IsEmpty self.old }
        ensures { Holds self.new document.value }
    {
        self.slot = Slot::holding(Apart::from_box(document));
        self.is_full = true;
    }
}
