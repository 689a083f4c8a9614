//! The commands that edit, with their arguments and flags.

use crate::command_line::argument::{Argument, Completion, Dashed, Kind};
use crate::command_line::flags::{
    SORTED, assignment, file, flag, in_place_flag, pointer, reformat_flag, required, string_flag,
    toml_flag, toml_reformat_flag, value,
};
use crate::command_line::reader::{Entry, Group, Reader, Table};
use crate::invocation::{Assigning, Assignment, Command, Deleting, Patching, Renaming, Transfer};
use std::alloc::{AllocError, Global};

/// Declares the commands.
pub fn declare(alloc: Global, table: &mut Table<'_, '_>) -> Result<(), AllocError> {
    set(alloc, table)?;
    delete(alloc, table)?;
    insert(alloc, table)?;
    move_value(alloc, table)?;
    copy_value(alloc, table)?;
    rename(alloc, table)?;
    patch(alloc, table)?;
    merge_patch(alloc, table)
}

/// Returns what the helps say of a command of this group.
fn entry(
    name: &'static str,
    about: &'static str,
    example: &'static str,
    manual: &'static str,
) -> Entry {
    Entry {
        name,
        group: Group::Edits,
        about,
        example,
        manual,
    }
}

/// What the manual says of `set`.
const SET_MANUAL: &str = r#"Prints the document with the value
.Ar JSON
assigned at the pointer.
Only one piece of the text changes.
A JSON value is put there as it is given, laid out as the document is.
A TOML value is put there as it is given, too,
except where headers or dotted keys make it, and with
.Fl -lossy ,
where it is printed anew.
.Cm @ Ns Ar VALUEFILE
is the value in that file, or in standard input for
.Sq @- .
The name of a file in place of a value, without
.Ar FILE ,
is an error.
Missing containers on the way are created, an array for a token 0 or
.Sq -
and an object for any other, and a scalar there is replaced by one.
"#;

/// What the manual says of `--no-expand`.
const NO_EXPAND_MANUAL: &str = r#"Fails if
.Cm set
would create a container on the way to the value, or replace a scalar there.
The last token is still added if it is missing;
to change only a value that is there, ask
.Cm test
first.
"#;

/// What the manual says of `--create`.
const CREATE_MANUAL: &str = r#"With
.Cm set ,
makes the document if
.Ar FILE
is missing; with
.Fl -in-place
the file is written.
One that is there is edited all the same.
"#;

/// Declares `set`.
fn set(alloc: Global, table: &mut Table<'_, '_>) -> Result<(), AllocError> {
    let mut reader = table.begin(
        alloc,
        entry(
            "set",
            "Prints the document with the value assigned at the pointer, or several values",
            "Example: jptr set /name '\"new\"' app.json --in-place",
            SET_MANUAL,
        ),
    );
    let more = Argument::new(
        "FILE",
        Kind::Several,
        "Further pairs of POINTER and JSON, and then the file; standard input if it is missing or -",
    )
    .completed_by(Completion::Files)
    .shown_as(".Op Ar POINTER JSON ...\n.Op Ar FILE\n");
    let no_expand = flag(
        "no-expand",
        "Creates no container on the way to the value, and replaces no scalar there",
    )
    .explained(NO_EXPAND_MANUAL);
    let create = flag("create", "Makes the document if FILE is missing").explained(CREATE_MANUAL);
    let pointer = reader.pointer(pointer())?;
    let value = reader.required(value())?;
    let mut words = reader.several(more.taking(Dashed::Numbers))?;
    if words.len() % 2 == 1 {
        reader.put_file(words.pop());
    }
    let is_string = reader.flag(string_flag())?;
    let expands = !reader.flag(no_expand.excluding("lines"))?;
    let creates = reader.flag(create.excluding("lines"))?;
    reader.toml(toml_flag())?;
    reader.reformat(toml_reformat_flag())?;
    reader.edits()?;
    reader.comments_or_lines()?;
    let first = assignment(pointer, value, is_string);
    let assigning = Assigning {
        assignments: assignments(alloc, &reader, first, words.as_slice())?,
        expands,
        creates,
    };
    table.end(reader, Command::Set(assigning))
}

/// Returns the first assignment, and one for each further pair of words.
fn assignments<'a>(
    alloc: Global,
    reader: &Reader<'_, 'a>,
    first: Assignment<'a>,
    words: &[&'a str],
) -> Result<Vec<Assignment<'a>>, AllocError> {
    let mut found = Vec::new(alloc);
    found.push(first)?;
    let mut before = None;
    for word in words {
        match before {
            Some(pointer) => {
                found.push(assignment(pointer, *word, first.value.is_string))?;
                before = None;
            }
            None => before = Some(reader.as_pointer(*word)),
        }
    }
    Ok(found)
}

/// What the manual says of `delete`.
const DELETE_MANUAL: &str = r#"Prints the document without the value that the pointer resolves to.
Only one piece of the text changes.
"#;

/// What the manual says of `--if-present`.
const IF_PRESENT_MANUAL: &str = r#"With
.Cm delete ,
passes over a pointer that leads to no value, which is an error without it.
Does not go with
.Fl -lines .
"#;

/// Declares `delete`.
fn delete(alloc: Global, table: &mut Table<'_, '_>) -> Result<(), AllocError> {
    let mut reader = table.begin(
        alloc,
        entry(
            "delete",
            "Prints the document without the value that the pointer resolves to, or without several",
            "Example: jptr delete /sizes/0 app.json",
            DELETE_MANUAL,
        ),
    );
    let if_present = flag(
        "if-present",
        "Leaves a document as it is where the pointer leads to no value",
    )
    .explained(IF_PRESENT_MANUAL);
    let pointers = reader.pointers()?;
    let skips_missing = reader.flag(if_present.excluding("lines"))?;
    reader.toml(toml_flag())?;
    reader.reformat(toml_reformat_flag())?;
    reader.edits()?;
    reader.comments_or_lines()?;
    let deleting = Deleting {
        pointers,
        skips_missing,
    };
    table.end(reader, Command::Delete(deleting))
}

/// What the manual says of `insert`.
const INSERT_MANUAL: &str =
    r#"Prints the document with the value inserted before the element at the pointer.
.Sq -
as the last token is the end of the array.
In an object the value is added, or replaces the member with that key.
The array or object must be there:
.Cm insert ,
.Cm move
and
.Cm copy
create none.
"#;

/// Declares `insert`.
fn insert(alloc: Global, table: &mut Table<'_, '_>) -> Result<(), AllocError> {
    let mut reader = table.begin(
        alloc,
        entry(
            "insert",
            "Prints the document with the value inserted before the element at the pointer, or added as a member",
            "Example: jptr insert /sizes/0 3 app.json",
            INSERT_MANUAL,
        ),
    );
    let pointer = reader.pointer(pointer())?;
    let value = reader.required(value())?;
    reader.file(file())?;
    let is_string = reader.flag(string_flag())?;
    reader.reformat(reformat_flag())?;
    reader.edits()?;
    reader.comments_or_lines()?;
    table.end(
        reader,
        Command::Insert(assignment(pointer, value, is_string)),
    )
}

/// What the manual says of `move`.
const MOVE_MANUAL: &str = r#"Prints the document with the value at
.Ar FROM
moved to the other pointer, as by
.Cm insert .
The value is taken out first, so an index counts without it.
One that is moved to its own pointer stays as it is.
"#;

/// Declares `move`.
fn move_value(alloc: Global, table: &mut Table<'_, '_>) -> Result<(), AllocError> {
    let mut reader = table.begin(
        alloc,
        entry(
            "move",
            "Prints the document with a value moved to another pointer",
            "Example: jptr move /name /title app.json",
            MOVE_MANUAL,
        ),
    );
    let help = "The pointer where it is put, as by insert; an index counts without the moved value";
    let transfer = transfer(&mut reader, help)?;
    table.end(reader, Command::Move(transfer))
}

/// What the manual says of `copy`.
const COPY_MANUAL: &str = r#"Prints the document with a copy of the value at
.Ar FROM
at the other pointer, as by
.Cm insert .
"#;

/// Declares `copy`.
fn copy_value(alloc: Global, table: &mut Table<'_, '_>) -> Result<(), AllocError> {
    let mut reader = table.begin(
        alloc,
        entry(
            "copy",
            "Prints the document with a copy of a value at another pointer",
            "Example: jptr copy /sizes/0 /sizes/- app.json",
            COPY_MANUAL,
        ),
    );
    let transfer = transfer(&mut reader, "The pointer where it is put, as by insert")?;
    table.end(reader, Command::Copy(transfer))
}

/// Reads what `move` or `copy` needs; the help is that of the second pointer.
fn transfer<'a>(
    reader: &mut Reader<'_, 'a>,
    help: &'static str,
) -> Result<Transfer<'a>, AllocError> {
    let from = reader.pointer(required("FROM", "The pointer of the value"))?;
    let path = reader.pointer(required("POINTER", help))?;
    reader.file(file())?;
    reader.reformat(reformat_flag())?;
    reader.edits()?;
    reader.comments_or_lines()?;
    Ok(Transfer { from, path })
}

/// What the manual says of `rename`.
const RENAME_MANUAL: &str = r#"Prints the document with the key
.Ar KEY
for the member at the pointer, which keeps its place.
It is an error if there is another member with that key.
"#;

/// Declares `rename`.
fn rename(alloc: Global, table: &mut Table<'_, '_>) -> Result<(), AllocError> {
    let mut reader = table.begin(
        alloc,
        entry(
            "rename",
            "Prints the document with another key for the member at the pointer",
            "Example: jptr rename /name title app.json",
            RENAME_MANUAL,
        ),
    );
    let key = required("KEY", "The new key, as it is");
    let pointer = reader.pointer(pointer())?;
    let key = reader.required(key.taking(Dashed::Words))?;
    reader.file(file())?;
    reader.toml(toml_flag())?;
    reader.comments()?;
    reader.reformat(toml_reformat_flag())?;
    reader.order(SORTED)?;
    reader.in_place(in_place_flag().excluding("lines"))?;
    table.end(reader, Command::Rename(Renaming { pointer, key }))
}

/// What the manual says of `patch`.
const PATCH_MANUAL: &str = r#"Applies the JSON Patch of
.Ar PATCHFILE ,
or of standard input if it is
.Sq - ,
as defined in RFC 6902, and prints the document.
Either all operations are applied, or none.
Errors count the operations from 0.
Each value keeps the order of its members and the text of its numbers.
"#;

/// What the manual says of `--check`.
const CHECK_MANUAL: &str =
    r#"Prints nothing: the exit status says whether the patch applies, or with
.Cm format
whether the document has the layout already.
Does not go with
.Fl -in-place ,
.Fl -inverse
and
.Fl -lines .
"#;

/// What the manual says of `--inverse`.
const INVERSE_MANUAL: &str = r#"Writes the JSON Patch that takes this one back to the file
.Ar UNDO ,
before the document is printed or changed.
After an error this file is what it was before.
"#;

/// Declares `patch`.
fn patch(alloc: Global, table: &mut Table<'_, '_>) -> Result<(), AllocError> {
    let mut reader = table.begin(
        alloc,
        entry(
            "patch",
            "Prints the document after a JSON Patch (RFC 6902); errors count its operations from 0",
            "Example: jptr patch patch.json app.json",
            PATCH_MANUAL,
        ),
    );
    let patch = required("PATCHFILE", "The patch document, or - for standard input").completed_by(
        Completion::Files,
    );
    let check = flag(
        "check",
        "Prints nothing: the exit status says whether the patch applies",
    )
    .explained(CHECK_MANUAL);
    let inverse = Argument::new(
        "inverse",
        Kind::Value("UNDO"),
        "Writes the patch that takes this one back to this file",
    )
    .completed_by(Completion::Files)
    .explained(INVERSE_MANUAL);
    let patch = reader.required(patch)?;
    reader.file(file())?;
    let is_check = reader.flag(check.excluding("in-place lines"))?;
    let undo = reader.optional(inverse.excluding("check lines"))?;
    reader.reformat(reformat_flag())?;
    reader.edits()?;
    reader.comments_or_lines()?;
    let patching = Patching {
        patch,
        is_check,
        undo,
    };
    table.end(reader, Command::Patch(patching))
}

/// What the manual says of `merge-patch`.
const MERGE_PATCH_MANUAL: &str = r#"Applies the JSON Merge Patch of
.Ar PATCHFILE ,
or of standard input if it is
.Sq - ,
as defined in RFC 7396, and prints the document.
A null removes a member, an object is merged, and any other value replaces the one of the document.
Only the members that change are edited in the text.
A member that has the value already stays as it is written, and numbers have the same value if they are the same double.
A number that loses digits is an error if the merge patch has it,
or if the merge patch has another decimal number for it that is the same double.
"#;

/// Declares `merge-patch`.
fn merge_patch(alloc: Global, table: &mut Table<'_, '_>) -> Result<(), AllocError> {
    let mut reader = table.begin(
        alloc,
        entry(
            "merge-patch",
            "Prints the document after a JSON Merge Patch (RFC 7396), which has the members that change",
            "Example: jptr merge-patch overlay.json app.json",
            MERGE_PATCH_MANUAL,
        ),
    );
    let patch = required("PATCHFILE", "The merge patch, or - for standard input").completed_by(
        Completion::Files,
    );
    let patch = reader.required(patch)?;
    reader.file(file())?;
    reader.reformat(reformat_flag())?;
    reader.order(SORTED)?;
    reader.in_place(in_place_flag())?;
    reader.comments()?;
    table.end(reader, Command::MergePatch(patch))
}
