//! Why two texts are not known to differ by a change.

use json::Invalid;
use std::alloc::AllocError;

/// Why two texts are not known to differ by a change.
#[derive(Clone, Copy, Debug, Drop, PartialEq, Eq)]
pub enum CheckError {
    /// They differ in another way, or one of them is not JSON.
    Mismatch,
    /// An allocation failed.
    Memory(AllocError),
}

impl From<Invalid> for CheckError {
    ghost use Rattle.std.specs.Prelude.{◌≡◌};
    ghost use Rattle.jsonptr_text_check.specs.declared.check_error.CheckError.TheVariants.{Mismatch};

    ghost from_gives = { λ _ error. error ≡ Mismatch };

    fn from(_invalid: Invalid) -> CheckError {
        CheckError::Mismatch
    }
}

impl From<AllocError> for CheckError {
    ghost use Rattle.std.specs.Prelude.{◌≡◌};
    ghost use Rattle.jsonptr_text_check.specs.declared.check_error.CheckError.TheVariants.{Memory};

    ghost from_gives = { λ error fault. fault ≡ Memory error };

    fn from(error: AllocError) -> CheckError {
        CheckError::Memory(error)
    }
}
