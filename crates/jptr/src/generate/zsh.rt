//! The completions for zsh.

use crate::command_line::argument::{Argument, Completion, Kind};
use crate::command_line::reader::Declared;
use std::alloc::{AllocError, Global};

/// What is before the commands.
const HEAD: &str = r#"#compdef jptr
# Completions of jptr for zsh.

_jptr() {
    local context state line
    local -a commands
    commands=(
"#;

/// What is between the commands and the flags of the program.
const PROGRAM: &str = r#"        'help:Print help'
    )
    _arguments -C \
"#;

/// What is between the flags of the program and the arguments of the commands.
const ARGUMENTS: &str = r#"        '1:command:->command' '*::argument:->argument'
    case $state in
        command) _describe command commands ;;
        argument)
            case $line[1] in
                help) ((CURRENT == 2)) && _describe command commands ;;
"#;

/// What is after the arguments of the commands.
const TAIL: &str = r#"            esac
            ;;
    esac
}

_jptr "$@"
"#;

/// Returns the completions of the program with these commands and flags.
pub fn completions(
    alloc: Global,
    commands: &[Declared],
    flags: &[Argument],
) -> Result<String, AllocError> {
    let mut text = String::from_str(alloc, HEAD)?;
    for command in commands {
        let name = command.head.name;
        let about = escaped(alloc, command.head.about)?;
        text.push_str(format!(in alloc; "        '{name}:{about}'\n")?.as_str())?;
    }
    text.push_str(PROGRAM)?;
    for flag in flags {
        if flag.is_of_program {
            text.push_str("        ")?;
            push_flag(alloc, &mut text, flag, &[])?;
            text.push_str(" \\\n")?;
        }
    }
    text.push_str(ARGUMENTS)?;
    for command in commands {
        push_command(alloc, &mut text, command)?;
    }
    text.push_str(TAIL)?;
    Ok(text)
}

/// Appends the case of a command: its flags and its operands.
fn push_command(alloc: Global, text: &mut String, command: &Declared) -> Result<(), AllocError> {
    let name = command.head.name;
    text.push_str(format!(in alloc; "                {name})\n")?.as_str())?;
    text.push_str("                    _arguments \\\n")?;
    let arguments = command.arguments.as_slice();
    let has_other_operand = arguments.iter().any(|argument| argument.is_operand);
    let mut position: usize = 0;
    for argument in arguments {
        text.push_str("                        ")?;
        if argument.is_flag() {
            push_flag(alloc, text, argument, arguments)?;
        } else {
            position = position.saturating_add(1);
            let is_other = has_other_operand && position == 1;
            push_operand(alloc, text, argument, position, is_other)?;
        }
        text.push_str(" \\\n")?;
    }
    text.push_str("                        '--help[Print help]'\n                    ;;\n")
}

/// Appends a flag, which is one of these arguments of a command.
fn push_flag(
    alloc: Global,
    text: &mut String,
    flag: &Argument,
    arguments: &[Argument],
) -> Result<(), AllocError> {
    let name = flag.name;
    let excluded = exclusions(alloc, flag, arguments)?;
    text.push_str(format!(in alloc; "'{excluded}")?.as_str())?;
    match flag.kind {
        Kind::Letter(letter) => text.push_str(format!(in alloc;
            "'{{-{letter},--{name}}}'"
        )?.as_str())?,
        _ => text.push_str(format!(in alloc; "--{name}")?.as_str())?,
    }
    let help = escaped(alloc, flag.help)?;
    text.push_str(format!(in alloc; "[{help}]")?.as_str())?;
    push_value(alloc, text, flag)?;
    text.push('\'')
}

/// Appends the value that a flag takes, if it does.
fn push_value(alloc: Global, text: &mut String, flag: &Argument) -> Result<(), AllocError> {
    let Kind::Value(value) = flag.kind else {
        return Ok(());
    };
    text.push(':')?;
    push_name(text, value)?;
    let action = action_of(alloc, flag.completion)?;
    text.push_str(format!(in alloc; ":{action}")?.as_str())
}

/// Returns the arguments that do not go with the flag, and the flag if it has two names, in parentheses.
fn exclusions(
    alloc: Global,
    flag: &Argument,
    arguments: &[Argument],
) -> Result<String, AllocError> {
    let mut text = String::new(alloc);
    if let Kind::Letter(_) = flag.kind {
        push_excluded(alloc, &mut text, flag)?;
    }
    for other in arguments {
        if other.is_flag() && (flag.rules_out(other.name) || other.rules_out(flag.name)) {
            push_excluded(alloc, &mut text, other)?;
        }
    }
    if text.is_empty() {
        return Ok(text);
    }
    format!(in alloc; "({text})")
}

/// Appends the names of a flag.
fn push_excluded(alloc: Global, text: &mut String, flag: &Argument) -> Result<(), AllocError> {
    if !text.is_empty() {
        text.push(' ')?;
    }
    let name = flag.name;
    match flag.kind {
        Kind::Letter(letter) => text.push_str(format!(in alloc; "-{letter} --{name}")?.as_str()),
        _ => text.push_str(format!(in alloc; "--{name}")?.as_str()),
    }
}

/// Appends an operand at this position, from 1. Another one may be there if a flag stands for it.
fn push_operand(
    alloc: Global,
    text: &mut String,
    operand: &Argument,
    position: usize,
    is_other: bool,
) -> Result<(), AllocError> {
    match operand.kind {
        Kind::Several => text.push_str("'*:")?,
        _ => text.push_str(format!(in alloc; "'{position}:")?.as_str())?,
    }
    push_name(text, operand.name)?;
    let completion = if is_other {
        Completion::Files
    } else {
        operand.completion
    };
    let action = action_of(alloc, completion)?;
    text.push_str(format!(in alloc; ":{action}'")?.as_str())
}

/// Returns what completes a value.
fn action_of(alloc: Global, completion: Completion) -> Result<String, AllocError> {
    match completion {
        Completion::Nothing => String::from_str(alloc, "()"),
        Completion::Files => String::from_str(alloc, "_files"),
        Completion::Words(words) => format!(in alloc; "({words})"),
    }
}

/// Appends the name of a value, in which a colon has a backslash.
fn push_name(text: &mut String, name: &str) -> Result<(), AllocError> {
    for character in name.chars() {
        if character == ':' {
            text.push('\\')?;
        }
        text.push(character)?;
    }
    Ok(())
}

/// Returns a text as it is written between single quotes, and in brackets.
fn escaped(alloc: Global, help: &str) -> Result<String, AllocError> {
    let mut text = String::new(alloc);
    for character in help.chars() {
        match character {
            '\'' => text.push_str("'\\''")?,
            '[' => text.push_str("\\[")?,
            ']' => text.push_str("\\]")?,
            _ => text.push(character)?,
        }
    }
    Ok(text)
}
