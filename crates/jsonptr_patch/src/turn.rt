//! What the operations of a patch are applied with, and what they leave.
ghost use Rattle.std.specs.Prelude.{◌≡◌, []};
ghost use Rattle.jsonptr.specs.Content.{Content};
ghost use Rattle.jsonptr_patch_journal.specs.Journal.{Undone};

use crate::comparison::Comparison;
use crate::later::Later;
use jsonptr_patch_journal::journal::Journal;
use std::alloc::Global;

/// What an operation is applied with.
#[derive(Clone, Copy)]
pub struct Turn {
    /// The allocator.
    pub alloc: Global,
    /// How a test compares numbers.
    pub comparison: Comparison,
    /// The number of the operation: its position in the patch, from 0.
    pub number: usize,
}

impl Turn {
    /// Returns the turn of the first operation.
    pub fn first(alloc: Global, comparison: Comparison) -> Turn
        ensures comparison { result.comparison ≡ comparison }
        ensures number { result.number ≡ 0 }
    {
        Turn {
            alloc,
            comparison,
            number: 0,
        }
    }
}

/// What the operations that were applied leave until the patch is applied whole.
#[derive(Debug, Drop)]
pub struct Run {
    /// What undoes them.
    pub journal: Journal,
    /// The nodes that are removed after all operations.
    pub later: Vec<Later>,
}

impl Run {
    /// Returns the run before the first operation. It does not allocate.
    pub fn new(alloc: Global) -> Run
        ensures journal { (c : Content) → Undone result.journal c c }
        ensures later { result.later.items ≡ [] }
    {
        Run {
            journal: Journal::new(alloc),
            later: Vec::new(alloc),
        }
    }
}
