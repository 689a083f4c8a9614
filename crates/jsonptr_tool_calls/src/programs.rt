//! Runs of the program `jsonptr_run`, also on words too long for the arguments of a process.
use crate::out::Out;
use crate::words::Words;
use jsonptr_run_command::run::run_program;
use std::alloc::{AllocError, Global};
use std::str;

/// Runs the program on words, the last of which is its input, and writes the line that it prints,
/// or its error.
pub fn run(out: &mut Out<'_>, words: Words<'_>) {
    let Ok(mut arguments) = arguments(out.alloc(), words) else {
        return out.memory();
    };
    let Some(input) = arguments.pop() else {
        return out.unknown();
    };
    let mut printed = Vec::new(out.alloc());
    let mut input = input.as_bytes();
    out.begin();
    match run_program(out.alloc(), arguments.as_slice(), &mut input, &mut printed) {
        Ok(()) => match str::from_utf8(printed.as_slice()) {
            Ok(line) => out.said(line.trim_end()),
            Err(error) => out.said(error),
        },
        Err(fault) => out.said(fault),
    }
}

/// Returns each word as a text of its own.
fn arguments(alloc: Global, mut words: Words<'_>) -> Result<Vec<String>, AllocError> {
    let mut arguments = Vec::new(alloc);
    for _turn in 0..u64::MAX {
        if words.is_empty() {
            break;
        }
        arguments.push(String::from_str(alloc, words.next())?)?;
    }
    Ok(arguments)
}
