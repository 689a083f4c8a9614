//! Messages of errors.
ghost use Rattle.std.specs.Prelude.{◌≡◌, ◌≢◌, ◌≤◌, [], take, length as list_length};
ghost use Rattle.jsonptr_c_calls.specs.Failures.{IsNotWritten};
ghost use Rattle.jsonptr_c_calls.specs.Messages.{message_of, message_room};
ghost use Rattle.jsonptr_c_calls.specs.Outcomes.{ReportsLength};
ghost use Rattle.jsonptr_c_calls.specs.ErrorNumbers.{status_number};
ghost use Rattle.jsonptr_c_calls.specs.declared.call_error.CallError.{CallError};

use jsonptr_c_calls::error_numbers::{ErrorRecord, OK};
use jsonptr_c_calls::message::message;
use jsonptr_c_calls::outcome::fail_with_length;
use std::alloc::Global;

/// Copies the message of the error to the buffer.
#[unsafe(no_mangle)]
pub extern "C" fn jsonptrcore_error_message(
    alloc: Global,
    error: &ErrorRecord,
    out: &mut [u8],
    length: &mut usize,
) -> u32
    ensures message { result ≡ 0 → take length.new out.new ≡ message_of error.now }
    ensures length { result ≡ 0 → length.new ≡ list_length (message_of error.now) }
    ensures short { list_length (message_of error.now) ≤ message_room }
    ensures refused { result ≢ 0 → (e : CallError) × (result ≡ status_number e)
        × IsNotWritten (message_of error.now) (list_length out.old) e
        × ReportsLength e length.old length.new }
    ensures output_unchanged { result ≢ 0 → out.new ≡ out.old }
{
    match message(alloc, error, out) {
        Ok(copied) => {
            *length = copied;
            OK
        }
        Err(call_error) => {
            let mut unused = ErrorRecord::none();
            fail_with_length(&call_error, b"", length, &mut unused)
        }
    }
}
