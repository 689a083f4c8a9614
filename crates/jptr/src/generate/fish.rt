//! The completions for fish.

use crate::command_line::argument::{Argument, Completion, Kind};
use crate::command_line::reader::Declared;
use crate::generate::bash::names;
use std::alloc::{AllocError, Global};

/// What is before the commands.
const HEAD: &str = "# Completions of jptr for fish.\n\ncomplete -c jptr -f\n";

/// Returns the completions of the program with these commands and flags.
pub fn completions(
    alloc: Global,
    commands: &[Declared],
    flags: &[Argument],
) -> Result<String, AllocError> {
    let mut text = String::from_str(alloc, HEAD)?;
    for flag in flags {
        if flag.is_of_program {
            push_flag(alloc, &mut text, "__fish_use_subcommand", flag)?;
        }
    }
    let names = names(alloc, commands, " ")?;
    text.push_str(format!(in alloc;
        "complete -c jptr -n '__fish_use_subcommand' -a help -d 'Print help'\ncomplete -c jptr -n '__fish_seen_subcommand_from help' -a '{names}'\n"
    )?.as_str())?;
    for command in commands {
        push_command(alloc, &mut text, command)?;
    }
    Ok(text)
}

/// Appends the completions of a command: its name, its flags, and files if an operand is one.
fn push_command(alloc: Global, text: &mut String, command: &Declared) -> Result<(), AllocError> {
    let name = command.head.name;
    let about = escaped(alloc, command.head.about)?;
    text.push_str(format!(in alloc;
        "\ncomplete -c jptr -n '__fish_use_subcommand' -a {name} -d '{about}'\n"
    )?.as_str())?;
    let condition = format!(in alloc; "__fish_seen_subcommand_from {name}")?;
    let mut takes_files = false;
    for argument in &command.arguments {
        if argument.is_flag() {
            push_flag(alloc, text, condition.as_str(), argument)?;
        } else {
            takes_files = takes_files || argument.completion == Completion::Files;
        }
    }
    if takes_files {
        text.push_str(format!(in alloc; "complete -c jptr -n '{condition}' -F\n")?.as_str())?;
    }
    text.push_str(format!(in alloc;
        "complete -c jptr -n '{condition}' -l help -d 'Print help'\n"
    )?.as_str())
}

/// Appends a flag, which is completed on this condition.
fn push_flag(
    alloc: Global,
    text: &mut String,
    condition: &str,
    flag: &Argument,
) -> Result<(), AllocError> {
    let name = flag.name;
    text.push_str(format!(in alloc; "complete -c jptr -n '{condition}'")?.as_str())?;
    if let Kind::Letter(letter) = flag.kind {
        text.push_str(format!(in alloc; " -s {letter}")?.as_str())?;
    }
    text.push_str(format!(in alloc; " -l {name}")?.as_str())?;
    push_value(alloc, text, flag)?;
    let help = escaped(alloc, flag.help)?;
    text.push_str(format!(in alloc; " -d '{help}'\n")?.as_str())
}

/// Appends how the value of a flag is completed, if it takes one.
fn push_value(alloc: Global, text: &mut String, flag: &Argument) -> Result<(), AllocError> {
    let Kind::Value(_) = flag.kind else {
        return Ok(());
    };
    match flag.completion {
        Completion::Nothing => text.push_str(" -x"),
        Completion::Files => text.push_str(" -r -F"),
        Completion::Words(words) => text.push_str(format!(in alloc; " -x -a '{words}'")?.as_str()),
    }
}

/// Returns a text as it is written between single quotes.
fn escaped(alloc: Global, help: &str) -> Result<String, AllocError> {
    let mut text = String::new(alloc);
    for character in help.chars() {
        if character == '\'' || character == '\\' {
            text.push('\\')?;
        }
        text.push(character)?;
    }
    Ok(text)
}
