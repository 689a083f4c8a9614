//! Declaring and reading the arguments of the commands, which are one step: what declares an argument also
//! returns its value.

use crate::command_line::argument::Argument;
use crate::document::FileFormat;
use crate::invocation::{Command, Invocation, Options};
use clap::ArgMatches;
use std::alloc::{AllocError, Global};

/// What the helps say of a command.
#[derive(Clone, Copy)]
pub struct Entry {
    /// Its name.
    pub name: &'static str,
    /// The group that it is listed with.
    pub group: Group,
    /// What it does.
    pub about: &'static str,
    /// An example of it.
    pub example: &'static str,
    /// What the manual says of it.
    pub manual: &'static str,
}

/// A group of commands in the help.
#[derive(Clone, Copy, PartialEq, Eq)]
pub enum Group {
    /// Those that find values.
    Values,
    /// Those that edit.
    Edits,
    /// Those on whole documents.
    Documents,
    /// Those on pointers and tokens.
    Pointers,
}

/// A command as it is declared.
#[derive(Drop)]
pub struct Declared {
    /// What the helps say of it.
    pub head: Entry,
    /// Its arguments and flags, in the order of its help.
    pub arguments: Vec<Argument>,
}

/// A word of the command line that is the fragment of a URI (RFC 6901, section 6), and its pointer.
#[derive(Drop)]
pub struct Fragment {
    /// The word.
    pub word: String,
    /// The text of the pointer.
    pub pointer: String,
}

/// The command that was chosen, and the values of its arguments.
#[derive(Clone, Copy)]
pub struct Chosen<'m, 'a> {
    /// Its name.
    pub name: &'m str,
    /// The values.
    pub matches: &'m ArgMatches<'a>,
}

/// The commands that were declared, and what is read of the chosen one.
#[derive(Drop)]
pub struct Table<'m, 'a> {
    /// The commands, in the order of the help.
    pub commands: Vec<Declared>,
    /// What is read, once the chosen command is declared.
    pub invocation: Option<Invocation<'a>>,
    /// The chosen command, if one is read.
    chosen: Option<Chosen<'m, 'a>>,
    /// The words of the command line that are fragments of URIs.
    fragments: &'a [Fragment],
}

impl<'m, 'a> Table<'m, 'a> {
    /// Returns the table without commands.
    pub fn new(
        alloc: Global,
        chosen: Option<Chosen<'m, 'a>>,
        fragments: &'a [Fragment],
    ) -> Table<'m, 'a> {
        Table {
            commands: Vec::new(alloc),
            invocation: None,
            chosen,
            fragments,
        }
    }

    /// Begins the declaration of a command.
    pub fn begin(&self, alloc: Global, head: Entry) -> Reader<'m, 'a> {
        let matches = match self.chosen {
            Some(chosen) if chosen.name == head.name => Some(chosen.matches),
            _ => None,
        };
        Reader {
            alloc,
            head,
            matches,
            arguments: Vec::new(alloc),
            options: Options::new(),
            fragments: self.fragments,
        }
    }

    /// Ends the declaration of a command, which is this one with the values that were read.
    pub fn end(&mut self, reader: Reader<'m, 'a>, command: Command<'a>) -> Result<(), AllocError> {
        let Reader {
            head,
            matches,
            arguments,
            options,
            ..
        } = reader;
        let mut options = options;
        options.format = FileFormat::of(options.format_flag, options.file);
        if matches.is_some() {
            self.invocation = Some(Invocation { command, options });
        }
        self.commands.push(Declared { head, arguments })?;
        Ok(())
    }
}

/// Declares the arguments of a command, and reads their values if the command was chosen. Those of another
/// command are empty.
#[derive(Drop)]
pub struct Reader<'m, 'a> {
    /// The allocator.
    alloc: Global,
    /// What the helps say of the command.
    head: Entry,
    /// The values, if it was chosen.
    matches: Option<&'m ArgMatches<'a>>,
    /// The arguments that were declared.
    arguments: Vec<Argument>,
    /// What was read of the flags that several commands take.
    pub options: Options<'a>,
    /// The words of the command line that are fragments of URIs.
    fragments: &'a [Fragment],
}

impl<'m, 'a> Reader<'m, 'a> {
    /// Returns the value of an argument that has to be there.
    pub fn required(&mut self, argument: Argument) -> Result<&'a str, AllocError> {
        Ok(self.optional(argument)?.unwrap_or(""))
    }

    /// Returns the word as a pointer: the pointer of the fragment of a URI that it is, or else the word itself.
    pub fn as_pointer(&self, word: &'a str) -> &'a str {
        for fragment in self.fragments {
            if fragment.word.as_str() == word {
                return fragment.pointer.as_str();
            }
        }
        word
    }

    /// Returns the value of an argument, or of a flag.
    pub fn optional(&mut self, argument: Argument) -> Result<Option<&'a str>, AllocError> {
        self.arguments.push(argument)?;
        match self.matches {
            Some(matches) => Ok(matches.get_str(argument.name)),
            None => Ok(None),
        }
    }

    /// Returns the values of an argument that takes several.
    pub fn several(&mut self, argument: Argument) -> Result<Vec<&'a str>, AllocError> {
        self.arguments.push(argument)?;
        let mut words = Vec::new(self.alloc);
        let Some(matches) = self.matches else {
            return Ok(words);
        };
        for word in matches.get_strs(argument.name).unwrap_or(&[]) {
            words.push(*word)?;
        }
        Ok(words)
    }

    /// Returns whether a flag is there.
    pub fn flag(&mut self, argument: Argument) -> Result<bool, AllocError> {
        self.arguments.push(argument)?;
        match self.matches {
            Some(matches) => Ok(matches.get_flag(argument.name)),
            None => Ok(false),
        }
    }
}
