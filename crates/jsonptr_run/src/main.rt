//! The program `jsonptr_run`: reads a pointer and a JSON document, and prints one line.
#![tactic(auto)]

use jsonptr_run_command::arguments::words_after_name;
use jsonptr_run_command::fault::{RunFault, exit_code};
use jsonptr_run_command::run::run_program_into;
use serde_json::Value;
use std::alloc::AllocError;
use std::io::ErrorKind;
use std::process::ExitCode;
use std::{env, mem};

fn main(rt: HostRuntime) -> ExitCode {
    let mut value = None;
    let outcome = run_on_streams(&rt, &mut value);
    if let Err(fault) = &outcome {
        // If standard error fails too, there is nowhere to report it.
        let _ = eprintln!(rt; "{fault}");
    }
    // The process ends here, and the system frees its memory at once. Dropping a document would take
    // about as long as parsing it, and would recurse as deep as it nests.
    mem::forget(value);
    exit_code(&outcome)
}

/// Runs the program on the standard streams, and leaves the value that it printed in `value`.
fn run_on_streams(rt: &HostRuntime, value: &mut Option<Value>) -> Result<(), RunFault> {
    let words = words(rt)?;
    run_program_into(
        rt.alloc(),
        words.as_slice(),
        &mut rt.stdin(),
        &mut rt.stdout(),
        value,
    )
}

/// Returns the words after the program's own name. Words that are not UTF-8 count as unknown ones.
fn words(rt: &HostRuntime) -> Result<Vec<String>, RunFault> {
    match env::args(rt) {
        Ok(args) => Ok(words_after_name(rt.alloc(), args)?),
        Err(error) if error.kind() == ErrorKind::OutOfMemory => Err(RunFault::Memory(AllocError)),
        Err(_) => Err(RunFault::Usage),
    }
}
