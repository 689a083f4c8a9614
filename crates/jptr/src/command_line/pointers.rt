//! The commands on pointers and tokens, with their arguments and flags.

use crate::command_line::argument::Dashed;
use crate::command_line::flags::{flag, pointer, required};
use crate::command_line::reader::{Entry, Group, Table};
use crate::invocation::Command;
use std::alloc::{AllocError, Global};

/// Declares the commands.
pub fn declare(alloc: Global, table: &mut Table<'_, '_>) -> Result<(), AllocError> {
    tokens(alloc, table)?;
    escape(alloc, table)?;
    unescape(alloc, table)
}

/// Returns what the helps say of a command of this group.
fn entry(
    name: &'static str,
    about: &'static str,
    example: &'static str,
    manual: &'static str,
) -> Entry {
    Entry {
        name,
        group: Group::Pointers,
        about,
        example,
        manual,
    }
}

/// What the manual says of `tokens`.
const TOKENS_MANUAL: &str = r#"Prints the tokens of the pointer, decoded, as a JSON array.
"#;

/// Declares `tokens`.
fn tokens(alloc: Global, table: &mut Table<'_, '_>) -> Result<(), AllocError> {
    let mut reader = table.begin(
        alloc,
        entry(
            "tokens",
            "Prints the tokens of the pointer, decoded, as a JSON array",
            "Example: jptr tokens /a~1b/0",
            TOKENS_MANUAL,
        ),
    );
    let pointer = reader.pointer(pointer())?;
    reader.raw(flag("raw", "Prints each token as a line, without quotes"))?;
    table.end(reader, Command::Tokens(pointer))
}

/// What the manual says of `escape`.
const ESCAPE_MANUAL: &str = r#"Prints the text as a token of a pointer, with
.Sq ~0
for
.Sq ~
and
.Sq ~1
for
.Sq / .
"#;

/// Declares `escape`.
fn escape(alloc: Global, table: &mut Table<'_, '_>) -> Result<(), AllocError> {
    let mut reader = table.begin(
        alloc,
        entry(
            "escape",
            "Prints the text as a token of a pointer, with ~0 for ~ and ~1 for /",
            "Example: jptr escape a/b",
            ESCAPE_MANUAL,
        ),
    );
    let text = reader.required(required("TEXT", "The text").taking(Dashed::Words))?;
    table.end(reader, Command::Escape(text))
}

/// What the manual says of `unescape`.
const UNESCAPE_MANUAL: &str = r#"Prints the text of a token of a pointer.
"#;

/// Declares `unescape`.
fn unescape(alloc: Global, table: &mut Table<'_, '_>) -> Result<(), AllocError> {
    let mut reader = table.begin(
        alloc,
        entry(
            "unescape",
            "Prints the text of a token of a pointer",
            "Example: jptr unescape a~1b",
            UNESCAPE_MANUAL,
        ),
    );
    let token = reader.required(required("TOKEN", "The token").taking(Dashed::Words))?;
    table.end(reader, Command::Unescape(token))
}
