//! The completions for bash.

use crate::command_line::argument::{Argument, Completion, Kind};
use crate::command_line::reader::Declared;
use std::alloc::{AllocError, Global};

/// What is before the names of the commands.
const HEAD: &str = r#"# Completions of jptr for bash.

_jptr() {
    local word=${COMP_WORDS[COMP_CWORD]} previous=${COMP_WORDS[COMP_CWORD - 1]} command= at
    for ((at = 1; at < COMP_CWORD; at++)); do
        case ${COMP_WORDS[at]} in
            "#;

/// What is between the names of the commands and the flags with values.
const OPERANDS: &str = r#")
                command=${COMP_WORDS[at]}
                break
                ;;
        esac
    done
    local operands=0
    for ((at++; at < COMP_CWORD; at++)); do
        case ${COMP_WORDS[at]} in
"#;

/// What is between the flags with values and the commands.
const WORDS: &str = r#"            -?*) ;;
            *) ((operands++)) ;;
        esac
    done
    # The operands before the first file: pointers, values and texts, which are not completed.
    local words before=0
    case $command in
"#;

/// What is between the commands and the values of flags.
const VALUES: &str = r#"    esac
    case $previous in
"#;

/// What is after the values of flags.
const TAIL: &str = r#"        *)
            if [[ -z $command || $word == -* ]]; then
                mapfile -t COMPREPLY < <(compgen -W "$words" -- "$word")
            elif ((operands < before)); then
                COMPREPLY=()
            else
                mapfile -t COMPREPLY < <(compgen -f -- "$word")
            fi
            ;;
    esac
}

complete -o filenames -F _jptr jptr
"#;

/// The number of operands before the first file, where no operand is one.
const NO_FILE: usize = 9;

/// Returns the completions of the program with these commands and flags.
pub fn completions(
    alloc: Global,
    commands: &[Declared],
    flags: &[Argument],
) -> Result<String, AllocError> {
    let mut text = String::from_str(alloc, HEAD)?;
    text.push_str(names(alloc, commands, " | ")?.as_str())?;
    text.push_str(OPERANDS)?;
    for flag in flags {
        push_skipped(alloc, &mut text, flag)?;
    }
    text.push_str(WORDS)?;
    for command in commands {
        push_command(alloc, &mut text, command)?;
    }
    push_program(alloc, &mut text, commands, flags)?;
    text.push_str(VALUES)?;
    for flag in flags {
        push_values(alloc, &mut text, flag)?;
    }
    text.push_str(TAIL)?;
    Ok(text)
}

/// Returns the names of the commands, with a text between them.
pub fn names(alloc: Global, commands: &[Declared], between: &str) -> Result<String, AllocError> {
    let mut text = String::new(alloc);
    for command in commands {
        if !text.is_empty() {
            text.push_str(between)?;
        }
        text.push_str(command.head.name)?;
    }
    Ok(text)
}

/// Appends the case that passes over the value of a flag, which may stand for an operand.
fn push_skipped(alloc: Global, text: &mut String, flag: &Argument) -> Result<(), AllocError> {
    let Kind::Value(_) = flag.kind else {
        return Ok(());
    };
    let name = flag.name;
    let step = if flag.is_operand {
        "at++, operands++"
    } else {
        "at++"
    };
    text.push_str(format!(in alloc; "            --{name}) (({step})) ;;\n")?.as_str())
}

/// Appends the case of a command: the operands before its first file, and its flags.
fn push_command(alloc: Global, text: &mut String, command: &Declared) -> Result<(), AllocError> {
    let name = command.head.name;
    let before = operands_before_file(command);
    text.push_str(format!(in alloc; "        {name}) before={before} words=\"")?.as_str())?;
    for argument in &command.arguments {
        push_flag(alloc, text, argument)?;
    }
    text.push_str("--help\" ;;\n")
}

/// Appends the flag and a space, if the argument is one.
fn push_flag(alloc: Global, text: &mut String, argument: &Argument) -> Result<(), AllocError> {
    if !argument.is_flag() {
        return Ok(());
    }
    let name = argument.name;
    text.push_str(format!(in alloc; "--{name} ")?.as_str())
}

/// Returns the number of operands of the command before the first that is a file.
fn operands_before_file(command: &Declared) -> usize {
    let mut before: usize = 0;
    for argument in &command.arguments {
        if !argument.is_flag() {
            if argument.completion == Completion::Files {
                return before;
            }
            before = before.saturating_add(1);
        }
    }
    NO_FILE
}

/// Appends the case of the program without a command.
fn push_program(
    alloc: Global,
    text: &mut String,
    commands: &[Declared],
    flags: &[Argument],
) -> Result<(), AllocError> {
    let names = names(alloc, commands, " ")?;
    text.push_str(format!(in alloc; "        *) words=\"{names} help")?.as_str())?;
    for flag in flags {
        if flag.is_of_program {
            let name = flag.name;
            text.push_str(format!(in alloc; " --{name}")?.as_str())?;
        }
    }
    text.push_str("\" ;;\n")
}

/// Appends the case of a word after a flag: the values of the flag, if it takes one.
fn push_values(alloc: Global, text: &mut String, flag: &Argument) -> Result<(), AllocError> {
    let Kind::Value(_) = flag.kind else {
        return Ok(());
    };
    let name = flag.name;
    let line = match flag.completion {
        Completion::Nothing => format!(in alloc; "        --{name}) COMPREPLY=() ;;\n")?,
        Completion::Files => format!(in alloc;
            "        --{name}) mapfile -t COMPREPLY < <(compgen -f -- \"$word\") ;;\n"
        )?,
        Completion::Words(words) => format!(in alloc;
            "        --{name}) mapfile -t COMPREPLY < <(compgen -W \"{words}\" -- \"$word\") ;;\n"
        )?,
    };
    text.push_str(line.as_str())
}
