//! The outcome of a call, as C receives it: a status, and the record of an error.
ghost use Rattle.std.specs.Prelude.{◌≡◌, ◌≢◌};
ghost use Rattle.jsonptr_c_calls.specs.Outcomes.{IsLengthOf, Reports, ReportsLength};
ghost use Rattle.jsonptr_c_calls.specs.ErrorNumbers.{no_error};

use crate::call_error::CallError;
use crate::error_numbers::{ErrorRecord, OK};

/// Returns the status of a call that succeeds, and clears the record.
pub fn succeed(error: &mut ErrorRecord) -> u32
    ensures status { result ≡ 0 }
    ensures record { error.new ≡ no_error }
{
    *error = ErrorRecord::none();
    OK
}

/// Returns the status of a call with this pointer that fails, and writes the record of the error.
pub fn fail(call_error: &CallError, pointer: &[u8], error: &mut ErrorRecord) -> u32
    ensures reported { Reports call_error.now pointer.now result error.new }
    ensures status { result ≢ 0 }
{
    *error = ErrorRecord::of(call_error, pointer);
    error.status
}

/// Does what [`fail`] does, and writes the length that the result needs if the buffer is too short.
pub fn fail_with_length(
    call_error: &CallError,
    pointer: &[u8],
    length: &mut usize,
    error: &mut ErrorRecord,
) -> u32
    ensures reported { Reports call_error.now pointer.now result error.new }
    ensures status { result ≢ 0 }
    ensures reported_length { ReportsLength call_error.now length.old length.new }
    ensures length { IsLengthOf error.new length.old length.new }
{
    if let CallError::NoRoom { needed } = call_error {
        *length = *needed;
    }
    fail(call_error, pointer, error)
}
