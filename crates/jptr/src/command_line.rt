//! The command line: the table of the commands with their arguments, flags and helps, and its parse.

pub mod argument;
mod documents;
mod edits;
pub mod flags;
mod pointers;
pub mod reader;
mod values;

use crate::command_line::flags::generate_flag;
use crate::command_line::reader::{Chosen, Declared, Fragment, Table};
use crate::generate::Generated;
use crate::invocation::Invocation;
use crate::program_error::ProgramError;
use clap::error::ErrorKind;
use clap::{Command, Error};
use jptr_tasks::exit_status::USAGE;
use jsonptr::Fault;
use jsonptr_fragment::from_fragment;
use std::alloc::{AllocError, Global};

/// The version of the project, as in `crates/jsonptr/VERSION`.
pub const VERSION: &str = "0.4.0-dev";

/// What the words of a command line are.
#[derive(Drop)]
pub enum Parsed<'a> {
    /// They ask for this.
    Run(Invocation<'a>),
    /// They ask for the manual or completions.
    Generate(Generated),
    /// They ask for a help or the version, with this text.
    Print(String),
}

/// Returns the commands, in the order of the help.
pub fn commands(alloc: Global) -> Result<Vec<Declared>, AllocError> {
    let table = filled(alloc, Table::new(alloc, None, &[]))?;
    Ok(table.commands)
}

/// Returns the table with each command declared.
fn filled<'m, 'a>(alloc: Global, table: Table<'m, 'a>) -> Result<Table<'m, 'a>, AllocError> {
    let mut table = table;
    values::declare(alloc, &mut table)?;
    edits::declare(alloc, &mut table)?;
    documents::declare(alloc, &mut table)?;
    pointers::declare(alloc, &mut table)?;
    Ok(table)
}

/// The words of a command line, the first of which is the program's name.
#[derive(Clone, Copy)]
pub struct Words<'a> {
    /// The words.
    pub all: &'a [String],
    /// Those that are fragments of URIs.
    pub fragments: &'a [Fragment],
}

/// Returns the words that are fragments of URIs, with their pointers.
pub fn fragments(alloc: Global, words: &[String]) -> Result<Vec<Fragment>, AllocError> {
    let mut found = Vec::new(alloc);
    for word in words {
        if word.as_str().starts_with('#') {
            if let Some(fragment) = fragment(alloc, word)? {
                found.push(fragment)?;
            }
        }
    }
    Ok(found)
}

/// Returns the word with its pointer, if it is the fragment of one.
fn fragment(alloc: Global, word: &String) -> Result<Option<Fragment>, AllocError> {
    match from_fragment(alloc, word.as_str()) {
        Ok(pointer) => Ok(Some(Fragment {
            word: word.clone()?,
            pointer: String::from_str(alloc, pointer.as_ptr().as_str())?,
        })),
        Err(Fault::Refused(_)) => Ok(None),
        Err(Fault::Memory(error)) => Err(error),
    }
}

/// Parses the words of a command line. The program has these commands and this help.
pub fn parse<'a>(
    alloc: Global,
    commands: &[Declared],
    help: &'a str,
    words: Words<'a>,
) -> Result<Parsed<'a>, ProgramError> {
    match program(alloc, commands, help)?.try_get_matches_from(words.all) {
        Ok(matches) => match (matches.get_str(generate_flag().name), matches.subcommand()) {
            (None, Some((name, matches))) => read(alloc, Chosen { name, matches }, words),
            (Some(word), None) => made(alloc, word),
            (Some(_), Some(_)) => Err(generate_error(alloc, "goes with no command")),
            (None, None) => Err(ProgramError::of_usage(alloc, help)),
        },
        Err(error) => printed(alloc, &error),
    }
}

/// Returns what the word of `--generate` asks for.
fn made<'a>(alloc: Global, word: &str) -> Result<Parsed<'a>, ProgramError> {
    match Generated::named(word) {
        Some(kind) => Ok(Parsed::Generate(kind)),
        None => Err(generate_error(alloc, "needs man, bash, zsh or fish")),
    }
}

/// Returns the error of the flag `--generate`.
fn generate_error(alloc: Global, message: &str) -> ProgramError {
    ProgramError::new(alloc, USAGE, "--generate", message)
}

/// Reads the chosen command of these words.
fn read<'m, 'a>(
    alloc: Global,
    chosen: Chosen<'m, 'a>,
    words: Words<'a>,
) -> Result<Parsed<'a>, ProgramError> {
    let table = Table::new(alloc, Some(chosen), words.fragments);
    let Table { invocation, .. } = filled(alloc, table)?;
    match invocation {
        Some(invocation) => Ok(Parsed::Run(invocation)),
        None => Err(ProgramError::of_usage(alloc, chosen.name)),
    }
}

/// Returns the help or the version, or what is wrong with the command line.
fn printed<'a>(alloc: Global, error: &Error) -> Result<Parsed<'a>, ProgramError> {
    if error.kind() == ErrorKind::OutOfMemory {
        return Err(ProgramError::Memory);
    }
    let text = error.to_string(alloc)?;
    if error.use_stderr() {
        return Err(ProgramError::of_usage(alloc, text.as_str()));
    }
    Ok(Parsed::Print(text))
}

/// Returns the program with its commands, as the parser takes it.
fn program<'a>(
    alloc: Global,
    commands: &[Declared],
    help: &'a str,
) -> Result<Command<'a>, AllocError> {
    let mut program = Command::new(alloc, "jptr")
        .bin_name("jptr")?
        .version(VERSION)
        .override_help(help)
        .override_usage("jptr <COMMAND>")
        .arg_required_else_help(true)
        .arg(generate_flag().built(alloc)?)?;
    for command in commands {
        program = program.subcommand(built(alloc, command)?)?;
    }
    Ok(program)
}

/// Returns a command as the parser takes it.
fn built<'a>(alloc: Global, declared: &Declared) -> Result<Command<'a>, AllocError> {
    let head = declared.head;
    let mut command = Command::new(alloc, head.name)
        .about(head.about)
        .after_help(head.example);
    for argument in &declared.arguments {
        command = command.arg(argument.built(alloc)?)?;
    }
    Ok(command)
}
