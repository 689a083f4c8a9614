//! The commands on whole documents, with their arguments and flags.

use crate::command_line::argument::{Argument, Completion, Kind};
use crate::command_line::flags::{
    COLORS, SORTED, file, flag, in_place_flag, optional, reformat_flag, required,
};
use crate::command_line::reader::{Entry, Group, Table};
use crate::invocation::{Command, Comparing, Formatted, MergeSide, Merging};
use jsonptr_text_paths::listing::Listed;
use std::alloc::{AllocError, Global};

/// Declares the commands.
pub fn declare(alloc: Global, table: &mut Table<'_, '_>) -> Result<(), AllocError> {
    diff(alloc, table)?;
    merge(alloc, table)?;
    format(alloc, table)?;
    relayout(alloc, table)?;
    paths(alloc, table)?;
    from_paths(alloc, table)
}

/// Returns what the helps say of a command of this group.
fn entry(
    name: &'static str,
    about: &'static str,
    example: &'static str,
    manual: &'static str,
) -> Entry {
    Entry {
        name,
        group: Group::Documents,
        about,
        example,
        manual,
    }
}

/// What the manual says of `diff`.
const DIFF_MANUAL: &str = r#"Prints a JSON Patch, as defined in RFC 6902, that turns the document
.Ar OLD
into
.Ar NEW .
One of them can be
.Sq - ,
standard input.
Floats are compared by their bits, so 1 and 1.0 differ.
A number that loses digits is an error if it is in the patch, or is another decimal number in each document.
"#;

/// What the manual says of `--text`.
const TEXT_MANUAL: &str = r#"With
.Cm diff ,
prints a line for each change instead of a patch: its pointer, as
.Cm paths
prints it, and the values before and after it.
Does not go with
.Fl -pretty
and
.Fl -compact .
"#;

/// Declares `diff`.
fn diff(alloc: Global, table: &mut Table<'_, '_>) -> Result<(), AllocError> {
    let mut reader = table.begin(
        alloc,
        entry(
            "diff",
            "Prints a JSON Patch (RFC 6902) that turns one document into another. The exit status is 1 if they differ",
            "Example: jptr diff old.json new.json",
            DIFF_MANUAL,
        ),
    );
    let old = required("OLD", "The document before, or - for standard input").completed_by(
        Completion::Files,
    );
    let new = required("NEW", "The document after, or - for standard input").completed_by(
        Completion::Files,
    );
    let color = Argument::new(
        "color",
        Kind::Value("WHEN"),
        "Colours the lines of --text: always, never, or auto, on a terminal if NO_COLOR is empty or not set",
    )
    .completed_by(COLORS);
    let text = flag(
        "text",
        "Prints a line for each change instead: its pointer, and the values before and after it",
    )
    .explained(TEXT_MANUAL);
    let comparing = Comparing {
        old: reader.required(old)?,
        new: reader.required(new)?,
        is_text: reader.flag(text.excluding("pretty compact"))?,
    };
    reader.color(color.needing("text"))?;
    reader.comments()?;
    reader.layout()?;
    table.end(reader, Command::Diff(comparing))
}

/// What the manual says of `merge`.
const MERGE_MANUAL: &str = r#"Merges
.Ar OURS
and
.Ar THEIRS ,
two changed copies of the document
.Ar BASE ,
and prints the merge in the layout of
.Ar OURS .
What one of them changed is so, and what both changed alike.
Members of objects are merged one by one; an array is one value.
A value that differs in all three is a conflict:
each is shown on standard error with its pointer and the three values, nothing is printed, and the status is 1.
A member that is missing counts as a value, and is shown as
.Sq (none) .
An empty
.Ar BASE
counts as an object without members: git has such a file where both branches add one.
A number that loses digits is an error.
"#;

/// What the manual says of `--ours`.
const OURS_MANUAL: &str = r#"With
.Cm merge ,
takes the value of
.Ar OURS
at each conflict.
"#;

/// What the manual says of `--theirs`.
const THEIRS_MANUAL: &str = r#"With
.Cm merge ,
takes the value of
.Ar THEIRS
at each conflict.
"#;

/// What the manual says of `--git`.
const GIT_MANUAL: &str = r#"Merges for
.Xr git 1 :
writes the merge to
.Ar OURS ,
which stays as it is if there is a conflict,
and takes comments and trailing commas in all three files, whose names git makes.
The file has no marks of a conflict.
After
.Ql git config merge.jptr.driver \(aqjptr merge --git \&%O \&%A \&%B\(aq ,
a line
.Ql *.json merge=jptr
of
.Pa .gitattributes
has git merge such files so.
"#;

/// Declares `merge`.
fn merge(alloc: Global, table: &mut Table<'_, '_>) -> Result<(), AllocError> {
    let mut reader = table.begin(
        alloc,
        entry(
            "merge",
            "Prints the merge of two changed copies of a document. The exit status is 1 if there is a conflict",
            "Example: jptr merge base.json ours.json theirs.json",
            MERGE_MANUAL,
        ),
    );
    let base = required("BASE", "The document before, or - for standard input").completed_by(
        Completion::Files,
    );
    let ours = required("OURS", "The copy with the layout, or - for standard input").completed_by(
        Completion::Files,
    );
    let theirs = required("THEIRS", "The other copy, or - for standard input").completed_by(
        Completion::Files,
    );
    let take_ours = flag("ours", "Takes the value of OURS at each conflict").explained(OURS_MANUAL);
    let take_theirs = flag("theirs", "Takes the value of THEIRS at each conflict").explained(
        THEIRS_MANUAL,
    );
    let git = flag(
        "git",
        "Merges for git: writes the merge to OURS, and takes comments in all three files",
    )
    .explained(GIT_MANUAL);
    let in_place = Argument::new(
        "in-place",
        Kind::Letter('i'),
        "Changes OURS, and prints nothing",
    );
    let base = reader.required(base)?;
    reader.file(ours)?;
    let theirs = reader.required(theirs)?;
    let is_ours = reader.flag(take_ours.excluding("theirs"))?;
    let is_theirs = reader.flag(take_theirs)?;
    reader.reformat(reformat_flag())?;
    reader.order(SORTED)?;
    reader.in_place(in_place)?;
    reader.comments()?;
    reader.git(git)?;
    let side = if is_ours {
        Some(MergeSide::Ours)
    } else if is_theirs {
        Some(MergeSide::Theirs)
    } else {
        None
    };
    let merging = Merging { base, theirs, side };
    table.end(reader, Command::Merge(merging))
}

/// What the manual says of `format`.
const FORMAT_MANUAL: &str = r#"Prints the document with a line for each member and element,
or without white space with
.Fl -compact
or
.Fl -lines .
Members keep their order, and numbers their text.
"#;

/// Declares `format`.
fn format(alloc: Global, table: &mut Table<'_, '_>) -> Result<(), AllocError> {
    let mut reader = table.begin(
        alloc,
        entry(
            "format",
            "Prints the document with a line for each member and element",
            "Example: jptr format --indent 4 app.json",
            FORMAT_MANUAL,
        ),
    );
    let check = flag(
        "check",
        "Prints nothing: the exit status says whether the document has the layout already",
    );
    reader.file(file())?;
    let formatted = if reader.flag(check.excluding("in-place lines"))? {
        Formatted::Compared
    } else {
        Formatted::Put
    };
    reader.order("Sorts the members, and prints numbers anew")?;
    reader.in_place(in_place_flag().excluding("lines"))?;
    reader.lines()?;
    reader.comments_or_lines()?;
    table.end(reader, Command::Format(formatted))
}

/// What the manual says of `relayout`.
const RELAYOUT_MANUAL: &str = r#"Prints the document
.Ar NEW ,
or that of standard input, in the layout of
.Ar FILE .
A value that is the same keeps its characters.
A new one comes in the style of its siblings.
"#;

/// Declares `relayout`.
fn relayout(alloc: Global, table: &mut Table<'_, '_>) -> Result<(), AllocError> {
    let mut reader = table.begin(
        alloc,
        entry(
            "relayout",
            "Prints a new document in the layout of the file that it was made from",
            "Example: jptr relayout app.json new.json",
            RELAYOUT_MANUAL,
        ),
    );
    let old = required("FILE", "The file with the layout, or - for standard input").completed_by(
        Completion::Files,
    );
    let new = optional(
        "NEW",
        "The new document; standard input if it is missing or -",
    )
    .completed_by(Completion::Files);
    let reformat = flag(
        "reformat",
        "Takes a document as it is that cannot be laid out as the file",
    );
    reader.file(old)?;
    let new = reader.optional(new)?;
    reader.lossy()?;
    reader.reformat(reformat)?;
    reader.in_place(in_place_flag())?;
    reader.comments()?;
    table.end(reader, Command::Relayout(new))
}

/// What the manual says of `paths`.
const PATHS_MANUAL: &str =
    r#"Prints a line for each leaf of the document: its pointer, a tab, and its value
without white space.
A leaf is a string, number, boolean, null, empty array or empty object.
A pointer with a control character is printed as a JSON string,
and so is a string that TOML prints over several lines.
"#;

/// What the manual says of `--all`.
const ALL_MANUAL: &str = r#"Prints a line for each node.
The value of an array or object is printed without its elements or members.
"#;

/// Declares `paths`.
fn paths(alloc: Global, table: &mut Table<'_, '_>) -> Result<(), AllocError> {
    let mut reader = table.begin(
        alloc,
        entry(
            "paths",
            "Prints a line for each leaf: its pointer, a tab, and its value",
            "Example: jptr paths app.json | grep /sizes",
            PATHS_MANUAL,
        ),
    );
    let all = flag(
        "all",
        "Prints a line for each node, from which from-paths makes the document",
    )
    .explained(ALL_MANUAL);
    let toml = flag(
        "toml",
        "Takes TOML, as for a file whose name ends in .toml, and prints TOML values",
    );
    reader.file(file())?;
    let which = if reader.flag(all)? {
        Listed::AllNodes
    } else {
        Listed::Leaves
    };
    reader.toml(toml)?;
    reader.lossy()?;
    reader.comments()?;
    table.end(reader, Command::Paths(which))
}

/// What the manual says of `from-paths`.
const FROM_PATHS_MANUAL: &str =
    r#"Prints the document that such lines build: each value is assigned at its pointer,
in the order of the lines, and the document is null at first.
The token 0 creates an array.
Another index is an error if it would create a container,
and so is one past the end of an array.
"#;

/// Declares `from-paths`.
fn from_paths(alloc: Global, table: &mut Table<'_, '_>) -> Result<(), AllocError> {
    let mut reader = table.begin(
        alloc,
        entry(
            "from-paths",
            "Prints the document that lines of pointers, tabs and JSON values build",
            "Example: jptr paths --all app.json | jptr from-paths",
            FROM_PATHS_MANUAL,
        ),
    );
    reader.file(file())?;
    reader.layout()?;
    table.end(reader, Command::FromPaths)
}
