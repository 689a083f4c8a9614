//! An argument or a flag of a command.

use clap::{Arg, ArgAction};
use std::alloc::{AllocError, Global};

/// An argument or a flag of a command.
#[derive(Clone, Copy)]
pub struct Argument {
    /// Its name: that of the value, or that of the flag without its dashes.
    pub name: &'static str,
    /// What it is.
    pub kind: Kind,
    /// Its line in the help.
    pub help: &'static str,
    /// The words after a dash that it takes as its value.
    dashed: Dashed,
    /// The names of the arguments that it does not go with, with spaces between them.
    excludes: &'static str,
    /// The name of the argument that it needs.
    needs: Option<&'static str>,
    /// What completes its value.
    pub completion: Completion,
    /// What the manual says of it, or nothing.
    pub manual: &'static str,
    /// How the synopsis of the manual shows it, if not by its name.
    pub synopsis: &'static str,
    /// Whether its value stands for the first operand.
    pub is_operand: bool,
    /// Whether it is a flag of the program without a command.
    pub is_of_program: bool,
}

/// What completes a value.
#[derive(Clone, Copy, PartialEq, Eq)]
pub enum Completion {
    /// Nothing.
    Nothing,
    /// The names of files.
    Files,
    /// These words, with spaces between them.
    Words(&'static str),
}

/// What an argument is.
#[derive(Clone, Copy)]
pub enum Kind {
    /// A value that has to be there.
    Required,
    /// A value.
    Optional,
    /// One value or several.
    Several,
    /// A flag.
    Flag,
    /// A flag that also has this letter.
    Letter(char),
    /// A flag with a value, which has this name.
    Value(&'static str),
}

/// Words after a dash that are values.
#[derive(Clone, Copy)]
pub enum Dashed {
    /// None.
    Nothing,
    /// Negative numbers.
    Numbers,
    /// All words.
    Words,
}

impl Argument {
    /// Returns the argument with this name.
    pub fn new(name: &'static str, kind: Kind, help: &'static str) -> Argument {
        Argument {
            name,
            kind,
            help,
            dashed: Dashed::Nothing,
            excludes: "",
            needs: None,
            completion: Completion::Nothing,
            manual: "",
            synopsis: "",
            is_operand: false,
            is_of_program: false,
        }
    }

    /// Returns the argument, which takes these words after a dash.
    pub fn taking(self, dashed: Dashed) -> Argument {
        let mut argument = self;
        argument.dashed = dashed;
        argument
    }

    /// Returns the argument, which does not go with these, named with spaces between them.
    pub fn excluding(self, excludes: &'static str) -> Argument {
        let mut argument = self;
        argument.excludes = excludes;
        argument
    }

    /// Returns the argument, which needs this one.
    pub fn needing(self, needs: &'static str) -> Argument {
        let mut argument = self;
        argument.needs = Some(needs);
        argument
    }

    /// Returns the argument, whose value is completed so.
    pub fn completed_by(self, completion: Completion) -> Argument {
        let mut argument = self;
        argument.completion = completion;
        argument
    }

    /// Returns the argument, of which the manual says this.
    pub fn explained(self, manual: &'static str) -> Argument {
        let mut argument = self;
        argument.manual = manual;
        argument
    }

    /// Returns the argument, which the synopsis of the manual shows so.
    pub fn shown_as(self, synopsis: &'static str) -> Argument {
        let mut argument = self;
        argument.synopsis = synopsis;
        argument
    }

    /// Returns the flag, whose value stands for the first operand.
    pub fn as_operand(self) -> Argument {
        let mut argument = self;
        argument.is_operand = true;
        argument
    }

    /// Returns the flag, which is one of the program without a command.
    pub fn of_program(self) -> Argument {
        let mut argument = self;
        argument.is_of_program = true;
        argument
    }

    /// Returns whether it is a flag.
    pub fn is_flag(&self) -> bool {
        match self.kind {
            Kind::Flag | Kind::Letter(_) | Kind::Value(_) => true,
            Kind::Required | Kind::Optional | Kind::Several => false,
        }
    }

    /// Returns whether it does not go with the argument with this name.
    pub fn rules_out(&self, name: &str) -> bool {
        self.excludes.split(' ').any(|other| other == name)
    }

    /// Returns the argument as the command line takes it.
    pub fn built<'a>(&self, alloc: Global) -> Result<Arg<'a>, AllocError> {
        let arg = self.with_values(self.with_names(alloc)).help(self.help);
        self.with_needs(self.with_exclusions(arg)?)
    }

    /// Returns an argument with its names.
    fn with_names<'a>(&self, alloc: Global) -> Arg<'a> {
        let arg = Arg::new(alloc, self.name);
        match self.kind {
            Kind::Required => arg.required(true).value_name(self.name),
            Kind::Optional | Kind::Several => arg.value_name(self.name),
            Kind::Flag => arg.long(self.name),
            Kind::Letter(letter) => arg.short(letter).long(self.name),
            Kind::Value(value) => arg.long(self.name).value_name(value),
        }
    }

    /// Returns the argument with the values that it takes.
    fn with_values<'a>(&self, arg: Arg<'a>) -> Arg<'a> {
        let arg = match self.dashed {
            Dashed::Nothing => arg,
            Dashed::Numbers => arg.allow_negative_numbers(true),
            Dashed::Words => arg.allow_hyphen_values(true),
        };
        match self.kind {
            Kind::Required | Kind::Optional | Kind::Value(_) => arg.action(ArgAction::Set),
            Kind::Several => arg.num_args(1..).action(ArgAction::Append),
            Kind::Flag | Kind::Letter(_) => arg.action(ArgAction::SetTrue),
        }
    }

    /// Returns the argument with those that it does not go with.
    fn with_exclusions<'a>(&self, arg: Arg<'a>) -> Result<Arg<'a>, AllocError> {
        let mut arg = arg;
        for name in self.excludes.split(' ') {
            if !name.is_empty() {
                arg = arg.conflicts_with(name)?;
            }
        }
        Ok(arg)
    }

    /// Returns the argument with the one that it needs.
    fn with_needs<'a>(&self, arg: Arg<'a>) -> Result<Arg<'a>, AllocError> {
        match self.needs {
            Some(name) => arg.requires_arg(name),
            None => Ok(arg),
        }
    }
}
