//! The program, run in memory.
ghost use Rattle.std.specs.Prelude.{◌≡◌, Some, IfOk, IfErr, map, option_map, string_bytes};
ghost use Rattle.serde_json.specs.View.{view};
ghost use Rattle.jsonptr_run_command.specs.Run.{ForLine, ForRequest, HasValueOf, IsRefusedSo, NeedInput};

use jsonptr_run_command::fault::RunFault;
use jsonptr_run_command::run::{run_program, run_program_into};
use serde_json::Value;
use std::alloc::Global;

/// Returns the line that the program prints for the words and the input.
///
/// # Errors
///
/// Those of [`run_program`].
pub fn printed_line(alloc: Global, words: &[String], input: &[u8]) -> Result<Vec<u8>, RunFault>
    ensures line { IfOk result (λ out. ForLine (map string_bytes words.now) (Some input.now)
        (λ line. out.items ≡ line)) }
    ensures refused { IfErr result (IsRefusedSo (map string_bytes words.now) (Some input.now)) }
{
    let mut rest = input;
    let mut output = Vec::new(alloc);
    run_program(alloc, words, &mut rest, &mut output)?;
    Ok(output)
}

/// Returns the value that the program prints for the words and the input. Returns `None` if the
/// command needs no input.
///
/// # Errors
///
/// Those of [`run_program_into`].
pub fn printed_value(
    alloc: Global,
    words: &[String],
    input: &[u8],
) -> Result<Option<Value>, RunFault>
    ensures value { IfOk result (λ value. NeedInput (map string_bytes words.now)
        → ForRequest (map string_bytes words.now)
        (λ request. HasValueOf request input.now (option_map view value))) }
    ensures refused { IfErr result (IsRefusedSo (map string_bytes words.now) (Some input.now)) }
{
    let mut rest = input;
    let mut output = Vec::new(alloc);
    let mut value = None;
    run_program_into(alloc, words, &mut rest, &mut output, &mut value)?;
    Ok(value)
}
