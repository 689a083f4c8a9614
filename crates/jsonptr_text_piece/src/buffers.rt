//! Memory for reading texts.

use json::Scratch;
use std::alloc::Global;

/// Memory for reading two texts side by side, and a third one beside them, and the allocator of what is
/// made of them. A caller that makes many edits keeps one and passes it to each.
///
/// Each part has room for the unescaped strings of a text, as much as the longest text so far, and an
/// index of 16 KiB, which `new` clears. No call minds what an earlier one left, also after an error.
#[derive(Drop)]
pub struct Buffers {
    /// The allocator.
    pub alloc: Global,
    /// For the text before an edit, and for each text that is read alone.
    pub old: Scratch,
    /// For the text after the edit.
    pub new: Scratch,
    /// For the text of a value that the edit brings or replaces.
    pub value: Scratch,
}

impl Buffers {
    /// Makes buffers that have allocated nothing yet.
    pub fn new(alloc: Global) -> Buffers {
        Buffers {
            alloc,
            old: Scratch::new(alloc),
            new: Scratch::new(alloc),
            value: Scratch::new(alloc),
        }
    }
}
