//! The help of the program: its commands by their groups, with an example.

use crate::command_line::reader::{Declared, Group};
use std::alloc::{AllocError, Global};

/// The groups, in the order of the help.
const GROUPS: [Group; 4] = [
    Group::Values,
    Group::Edits,
    Group::Documents,
    Group::Pointers,
];

/// What the help of the program says before the commands.
const INTRODUCTION: &str =
    "Finds and changes values of JSON documents by JSON Pointers\n\nUsage: jptr <COMMAND>\n";

/// What the help of the program says after the commands.
const CLOSING: &str = "
Options:
  -h, --help     Print help
  -V, --version  Print version
      --generate man|bash|zsh|fish
                 Print the manual, or the completions for a shell

A pointer looks like /a/0, and '' is the whole document. It comes before FILE.
Example: jptr set /name '\"new\"' app.json --in-place
More: jptr help COMMAND, or jptr COMMAND --help
";

impl Group {
    /// Returns the title of the group.
    fn title(self) -> &'static str {
        match self {
            Group::Values => "Values",
            Group::Edits => "Edits",
            Group::Documents => "Documents",
            Group::Pointers => "Pointers",
        }
    }
}

/// Returns the help of the program with these commands: what it does, its commands by their groups, and an
/// example.
pub fn help(alloc: Global, commands: &[Declared]) -> Result<String, AllocError> {
    let mut text = String::from_str(alloc, INTRODUCTION)?;
    for group in GROUPS {
        push_group(alloc, &mut text, commands, group)?;
    }
    text.push_str(CLOSING)?;
    Ok(text)
}

/// Appends the title of a group, and a line for each of its commands.
fn push_group(
    alloc: Global,
    text: &mut String,
    commands: &[Declared],
    group: Group,
) -> Result<(), AllocError> {
    let title = group.title();
    text.push_str(format!(in alloc; "\n{title}:\n")?.as_str())?;
    for command in commands {
        if command.head.group == group {
            push_command(alloc, text, command.head.name, command.head.about)?;
        }
    }
    Ok(())
}

/// Appends the line of a command.
fn push_command(
    alloc: Global,
    text: &mut String,
    name: &str,
    about: &str,
) -> Result<(), AllocError> {
    text.push_str(format!(in alloc; "  {name:<11}  {about}\n")?.as_str())
}
