//! The program `jptr`: finds and changes values of JSON documents by JSON Pointers (RFC 6901).
//!
//! What is proved of the results of its commands is stated in `jptr_tasks` and the crates below it. Here
//! are the command line, the files, the standard streams and the texts of errors.
#![tactic(auto)]

mod changes;
mod colors;
mod command_line;
mod commands;
mod comments;
mod difference;
mod digits;
mod document;
mod drawn;
mod exact_difference;
mod exact_lines;
mod expansion;
mod generate;
mod guesses;
mod help;
mod in_place;
mod input;
mod inverse;
mod invocation;
mod locate;
mod long_patch;
mod lost_comment;
mod merge;
mod node;
mod operands;
mod operation;
mod output;
mod patch_file;
mod paths;
mod position;
mod program_error;
mod relayout;
mod report;
mod rows;
mod several;
mod shown;
mod style;
mod syntax;
mod task;
mod toml_file;
mod toml_json;
mod value_argument;
mod written;

use std::process::ExitCode;

/// Runs the program, prints its error if there is one, and returns the exit status.
fn main(rt: HostRuntime) -> ExitCode {
    match commands::run(&rt) {
        Ok(status) => ExitCode::from(status),
        Err(error) => {
            // If standard error fails too, there is nowhere to report it.
            let _ = eprint!(rt; "{error}");
            ExitCode::from(error.status())
        }
    }
}
