//! The commands that find values, with their arguments and flags.

use crate::command_line::argument::{Argument, Dashed, Kind};
use crate::command_line::flags::{SORTED, file, flag, optional, pointer, toml_flag, value_word};
use crate::command_line::reader::{Entry, Group, Table};
use crate::invocation::{Command, Finding, Locating, Testing};
use std::alloc::{AllocError, Global};

/// Declares the commands.
pub fn declare(alloc: Global, table: &mut Table<'_, '_>) -> Result<(), AllocError> {
    get(alloc, table)?;
    keys(alloc, table)?;
    length(alloc, table)?;
    type_of(alloc, table)?;
    test(alloc, table)?;
    locate(alloc, table)
}

/// Returns what the helps say of a command of this group.
fn entry(
    name: &'static str,
    about: &'static str,
    example: &'static str,
    manual: &'static str,
) -> Entry {
    Entry {
        name,
        group: Group::Values,
        about,
        example,
        manual,
    }
}

/// What the manual says of `get`.
const GET_MANUAL: &str = r#"Prints the value that the pointer resolves to, as it is written.
"#;

/// What the manual says of `--default`.
const DEFAULT_MANUAL: &str = r#"Prints this value if the pointer resolves to none.
With
.Fl -lines
it is also printed for a line that is not JSON.
"#;

/// What the manual says of `--object`.
const OBJECT_MANUAL: &str = r#"With
.Cm get ,
prints one object, whose keys are the pointers.
On TOML it needs
.Fl -json .
"#;

/// What the manual says of `--raw`.
const RAW_MANUAL: &str =
    r#"Prints a string or a key without quotes and escapes, or each token as a line.
With
.Cm get ,
does not go with
.Fl -pretty ,
.Fl -indent
and
.Fl -sort-keys .
"#;

/// What the manual says of `--json`.
const JSON_MANUAL: &str = r#"Prints the values of a TOML document as JSON.
Dates and times are strings, and an infinite float, or one that is no number, is an error.
The flags for the layout of JSON then apply.
"#;

/// Declares `get`.
fn get(alloc: Global, table: &mut Table<'_, '_>) -> Result<(), AllocError> {
    let mut reader = table.begin(
        alloc,
        entry(
            "get",
            "Prints the value that the pointer resolves to, or those of several pointers",
            "Example: jptr get /sizes/1 app.json",
            GET_MANUAL,
        ),
    );
    let default = Argument::new(
        "default",
        Kind::Value("JSON"),
        "Prints this value if the pointer resolves to none",
    )
    .explained(DEFAULT_MANUAL);
    let object = flag("object", "Prints one object, with the pointers as its keys").explained(
        OBJECT_MANUAL,
    );
    let raw = flag("raw", "Prints a string without quotes").explained(RAW_MANUAL);
    let pointers = reader.pointers()?;
    let default = reader.optional(default.taking(Dashed::Numbers))?;
    let is_json = reader.flag(flag("json", "Prints JSON, also of a TOML document").explained(
        JSON_MANUAL,
    ))?;
    let is_object = reader.flag(object.excluding("raw"))?;
    reader.raw(raw.excluding("pretty indent sort-keys"))?;
    reader.toml(toml_flag())?;
    reader.order(SORTED)?;
    reader.lines()?;
    reader.comments_or_lines()?;
    let finding = Finding {
        pointers,
        default,
        is_object,
        is_json,
    };
    table.end(reader, Command::Get(finding))
}

/// What the manual says of `keys`.
const KEYS_MANUAL: &str =
    r#"Prints the keys of the object that the pointer resolves to, in the order of the text,
each once and on a line, as JSON strings.
"#;

/// Declares `keys`.
fn keys(alloc: Global, table: &mut Table<'_, '_>) -> Result<(), AllocError> {
    let mut reader = table.begin(
        alloc,
        entry(
            "keys",
            "Prints the keys of the object that the pointer resolves to, each on a line",
            "Example: jptr keys '' app.json",
            KEYS_MANUAL,
        ),
    );
    let pointer = reader.pointer(pointer())?;
    reader.file(file())?;
    reader.raw(flag("raw", "Prints each key without quotes"))?;
    reader.toml(toml_flag())?;
    reader.comments()?;
    table.end(reader, Command::Keys(pointer))
}

/// What the manual says of `length`.
const LENGTH_MANUAL: &str =
    r#"Prints the number of elements of an array, of members of an object, or of characters of a string.
"#;

/// Declares `length`.
fn length(alloc: Global, table: &mut Table<'_, '_>) -> Result<(), AllocError> {
    let mut reader = table.begin(
        alloc,
        entry(
            "length",
            "Prints the number of elements, members or characters of the value",
            "Example: jptr length /sizes app.json",
            LENGTH_MANUAL,
        ),
    );
    let pointer = reader.pointer(pointer())?;
    reader.file(file())?;
    reader.toml(toml_flag())?;
    reader.comments()?;
    table.end(reader, Command::Length(pointer))
}

/// What the manual says of `type`.
const TYPE_MANUAL: &str = r#"Prints the type of the value:
.Sq null ,
.Sq boolean ,
.Sq number ,
.Sq string ,
.Sq array
or
.Sq object .
"#;

/// Declares `type`.
fn type_of(alloc: Global, table: &mut Table<'_, '_>) -> Result<(), AllocError> {
    let mut reader = table.begin(
        alloc,
        entry(
            "type",
            "Prints the type of the value: null, boolean, number, string, array or object",
            "Example: jptr type /sizes app.json",
            TYPE_MANUAL,
        ),
    );
    let pointer = reader.pointer(pointer())?;
    reader.file(file())?;
    reader.toml(toml_flag())?;
    reader.comments()?;
    table.end(reader, Command::TypeOf(pointer))
}

/// What the manual says of `test`.
const TEST_MANUAL: &str = r#"Prints nothing.
The exit status is 0 if the pointer resolves to a value, and this equals
.Ar JSON
if that is given, and else 1.
An argument after
.Ar POINTER
that names a file and is no JSON text is
.Ar FILE .
Numbers are compared by their values, as RFC 6902 has it, so 1 and 1.0 are equal.
"#;

/// Declares `test`.
fn test(alloc: Global, table: &mut Table<'_, '_>) -> Result<(), AllocError> {
    let mut reader = table.begin(
        alloc,
        entry(
            "test",
            "Prints nothing. The exit status is 0 if the value is there, and equals JSON if that is given, and else 1",
            "Example: jptr test /sizes/1 5 app.json && echo equal",
            TEST_MANUAL,
        ),
    );
    let value = optional(
        "JSON",
        "The value to compare with, or @FILE for that of a file; a file whose name is no JSON is FILE",
    )
    .shown_as(".Op Ar JSON | Cm @ Ns Ar VALUEFILE\n");
    let string = flag(
        "string",
        "Takes JSON as a string, without quotes and escapes",
    );
    let pointer = reader.pointer(pointer())?;
    let word = reader.optional(value.taking(Dashed::Numbers))?;
    reader.file(file())?;
    let is_string = reader.flag(string.needing("JSON"))?;
    reader.toml(toml_flag())?;
    reader.comments()?;
    let value = match word {
        Some(text) => Some(value_word(text, is_string)),
        None => None,
    };
    table.end(reader, Command::Test(Testing { pointer, value }))
}

/// What the manual says of `locate`.
const LOCATE_MANUAL: &str = r#"Prints where the text of the value begins, as
.Ar FILE : Ns Ar LINE : Ns Ar COLUMN ,
without the file for standard input.
Columns count characters; both numbers begin at 1.
With
.Fl -at ,
prints the pointer of the innermost value whose text has the character at that position.
"#;

/// What the manual says of `--at`.
const AT_MANUAL: &str =
    r#"Prints the pointer of the innermost value whose text has the character at this position, which is
.Ar LINE : Ns Ar COLUMN ,
or that of the object if the character is in a key.
.Ar FILE
is then the only argument.
"#;

/// Declares `locate`.
fn locate(alloc: Global, table: &mut Table<'_, '_>) -> Result<(), AllocError> {
    let mut reader = table.begin(
        alloc,
        entry(
            "locate",
            "Prints where the value is that the pointer resolves to: the file, its line and its column",
            "Example: jptr locate /sizes/1 app.json",
            LOCATE_MANUAL,
        ),
    );
    let pointer = optional("POINTER", "The JSON Pointer (RFC 6901), as /a/0");
    let at = Argument::new(
        "at",
        Kind::Value("LINE:COLUMN"),
        "Prints the pointer of the innermost value at this position instead, of the object if that is a key; FILE is then the only argument",
    )
    .explained(AT_MANUAL)
    .as_operand();
    let first = reader.optional(pointer)?;
    reader.file(file())?;
    let position = reader.optional(at)?;
    reader.comments()?;
    let first = match (first, position) {
        (Some(word), None) => Some(reader.as_pointer(word)),
        (first, _) => first,
    };
    table.end(reader, Command::Locate(Locating { first, position }))
}
