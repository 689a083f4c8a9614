//! The JSON that the program reads and writes.
ghost use Rattle.std.specs.Prelude.{◌≡◌, ◌≢◌, ◌≤◌, [], IfOk, IfErr, IfSome, OnErr, Some, option_map, string_bytes};
ghost use Rattle.std.specs.Io.KnownBytes.{IsAtEnd};
ghost use Rattle.serde_json.specs.Data.{depth};
ghost use Rattle.serde_json.specs.Read.{max_depth};
ghost use Rattle.serde_json.specs.View.{view};
ghost use Rattle.jsonptr_run_command.specs.JsonText.{json_of, IsJsonLine};
ghost use Rattle.jsonptr_io.specs.Streams.{ForInput};
ghost use Rattle.jsonptr_run_command.specs.Faults.{IsInputFault, RefusesValue};
ghost use Rattle.jsonptr_run_command.specs.Run.{IsPastInput};

use crate::fault::RunFault;
use jsonptr_io::input::read_all;
use jsonptr_value::{if_json, read, to_string};
use serde_json::Value;
use simdutf8::basic::from_utf8;
use std::alloc::{AllocError, Global};
use std::io::Read;

/// Parses bytes as one JSON text. Returns `None` if they are not one, or not UTF-8.
///
/// # Errors
///
/// [`AllocError`] if there is no memory for the value.
pub fn read_json(alloc: Global, bytes: &[u8]) -> Result<Option<Value>, AllocError>
    ensures value { IfOk result (λ v. json_of bytes.now ≡ option_map view v) }
    ensures depth { IfOk result (λ v. IfSome v (λ value. depth (view value) ≤ max_depth)) }
    // No bytes need no allocation.
    ensures no_memory { OnErr result (bytes.now ≢ []) }
{
    match from_utf8(bytes) {
        Ok(text) => if_json(read(alloc, text)),
        Err(_) => Ok(None),
    }
}

/// Parses a word as a JSON text.
///
/// # Errors
///
/// [`RunFault::ValueNotJson`] if it is not a JSON text, and [`RunFault::Memory`] if an allocation
/// fails.
pub fn read_value(alloc: Global, text: &str) -> Result<Value, RunFault>
    ensures value { IfOk result (λ v. json_of text.now ≡ Some (view v)) }
    ensures refused { IfErr result (RefusesValue text.now) }
{
    read_json(alloc, text.as_bytes())?.ok_or(RunFault::ValueNotJson)
}

/// Reads all of the input and parses it as one JSON text. The input is at its end after `Ok` and
/// after [`RunFault::InputNotJson`].
///
/// # Errors
///
/// [`RunFault::InputNotJson`] if it is not a JSON text, [`RunFault::Read`] if a read fails, and
/// [`RunFault::Memory`] if an allocation fails.
pub fn read_json_input<R: Read>(alloc: Global, input: &mut R) -> Result<Value, RunFault>
    ensures value { IfOk result
        (λ v. ForInput (R.remaining input.old) (λ bytes. json_of bytes ≡ Some (view v))) }
    ensures depth { IfOk result (λ v. depth (view v) ≤ max_depth) }
    ensures refused { IfErr result (IsInputFault (R.remaining input.old)) }
    ensures end { IsPastInput result → IsAtEnd (R.remaining input.new) }
{
    let bytes = read_all(alloc, input)?;
    read_json(alloc, &bytes)?.ok_or(RunFault::InputNotJson)
}

/// Returns the JSON text of a value, without spaces, and a newline.
///
/// # Errors
///
/// [`AllocError`] if there is no memory for the text.
pub fn json_line(alloc: Global, value: &Value) -> Result<String, AllocError>
    ensures { IfOk result (λ line. IsJsonLine (view value.now) (string_bytes line)) }
{
    let mut line = to_string(alloc, value)?;
    line.push('\n')?;
    Ok(line)
}
