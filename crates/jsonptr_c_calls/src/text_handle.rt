//! The handle of a text.
ghost use Rattle.std.specs.Prelude.{◌≡◌, true, IsTrue, MatchOption, is_some};

use crate::apart::Apart;
use crate::open_text::OpenText;
use crate::text_slot::TextSlot;
use std::alloc::Global;
use std::mem;

/// A text that is edited many times, or none. In C it is a pointer and a `bool`, which is zeroed memory at
/// first.
///
/// A handle that is dropped does not free its text: [`take`](TextHandle::take) that first.
#[repr(C)]
#[derive(Drop)]
pub struct TextHandle {
    slot: TextSlot,
    is_full: bool,
    ghost tied: { is_full ≡ true → IsTrue (is_some slot.content) },
}

impl TextHandle {
    ghost use Rattle.jsonptr_c_calls.specs.TextHandle.{HoldsText, IsVacant};

    /// Returns a handle that holds no text.
    pub fn empty() -> TextHandle
        ensures { IsVacant result }
    {
        TextHandle {
            slot: TextSlot::vacant(),
            is_full: false,
        }
    }

    /// Takes the text out of the handle, which is empty afterwards.
    pub fn take(&mut self, alloc: Global) -> Option<Box<OpenText, Global>>
        ensures taken { MatchOption result (IsVacant self.old) (λ b. HoldsText self.old b.value) }
        ensures empty { IsVacant self.new }
    {
        if self.is_full {
            self.is_full = false;
            let slot = mem::replace(&mut self.slot, TextSlot::vacant());
            Some(slot.into_apart(alloc).into_box())
        } else {
            None
        }
    }

    /// Puts a text into the handle, which is empty: [`take`](TextHandle::take) what is in it first.
    ///
    /// # Conditions
    ///
    /// The handle holds no text. One that it held would never be freed.
    pub fn put(&mut self, text: Box<OpenText, Global>)
        requires { IsVacant self.old }
        ensures { HoldsText self.new text.value }
    {
        self.slot = TextSlot::holding(Apart::from_box(text));
        self.is_full = true;
    }
}
