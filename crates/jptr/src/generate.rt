//! What is made of the table of the commands: the manual, and the completions for shells.

pub mod bash;
mod fish;
mod manual;
mod zsh;

use crate::command_line::argument::Argument;
use crate::command_line::flags::{generate_flag, help_flag, version_flag};
use crate::command_line::reader::Declared;
use std::alloc::{AllocError, Global};
use std::collections::BTreeMap;

/// What is made.
#[derive(Clone, Copy)]
pub enum Generated {
    /// The manual.
    Manual,
    /// The completions for bash.
    Bash,
    /// The completions for zsh.
    Zsh,
    /// The completions for fish.
    Fish,
}

impl Generated {
    /// Returns what the word of `--generate` names.
    pub fn named(word: &str) -> Option<Generated> {
        match word {
            "man" => Some(Generated::Manual),
            "bash" => Some(Generated::Bash),
            "zsh" => Some(Generated::Zsh),
            "fish" => Some(Generated::Fish),
            _ => None,
        }
    }
}

/// Returns the text that is made of this version of the program, with these commands.
pub fn text_of(
    alloc: Global,
    kind: Generated,
    version: &str,
    commands: &[Declared],
) -> Result<String, AllocError> {
    let flags = flags_of(alloc, commands)?;
    match kind {
        Generated::Manual => manual::manual(alloc, version, commands, flags.as_slice()),
        Generated::Bash => bash::completions(alloc, commands, flags.as_slice()),
        Generated::Zsh => zsh::completions(alloc, commands, flags.as_slice()),
        Generated::Fish => fish::completions(alloc, commands, flags.as_slice()),
    }
}

/// Returns the flags of the program and of the commands, each once, in the order of their names.
fn flags_of(alloc: Global, commands: &[Declared]) -> Result<Vec<Argument>, AllocError> {
    let mut found = BTreeMap::new(alloc);
    for flag in [generate_flag(), help_flag(), version_flag()] {
        add_flag(alloc, &mut found, flag)?;
    }
    for command in commands {
        for argument in &command.arguments {
            add_flag(alloc, &mut found, *argument)?;
        }
    }
    let mut flags = Vec::new(alloc);
    for (_name, flag) in found.iter() {
        flags.push(*flag)?;
    }
    Ok(flags)
}

/// Adds the argument if it is a flag. One that the manual explains replaces another with its name.
fn add_flag(
    alloc: Global,
    found: &mut BTreeMap<String, Argument>,
    flag: Argument,
) -> Result<(), AllocError> {
    let is_new = flag.is_flag() && !found.contains_key(flag.name);
    if is_new || !flag.manual.is_empty() {
        let name = String::from_str(alloc, flag.name)?;
        drop(found.insert(name, flag)?);
    }
    Ok(())
}
