//! The manual, in the language mdoc.

use crate::command_line::argument::{Argument, Kind};
use crate::command_line::reader::Declared;
use std::alloc::{AllocError, Global};

/// The date of the manual.
const DATE: &str = "December 1, 2026";

/// What is before the synopsis.
const NAME: &str =
    ".Sh NAME\n.Nm jptr\n.Nd find and change values of JSON documents by JSON Pointers\n.Sh SYNOPSIS\n";

/// What is after the commands of the synopsis, and before the list of the commands.
const DESCRIPTION: &str = r#".Nm
.Fl -help | Fl -version
.Nm
.Fl -generate Cm man | bash | zsh | fish
.Sh DESCRIPTION
.Nm
reads a JSON document from
.Ar FILE ,
or from standard input if
.Ar FILE
is missing or
.Sq - .
.Ar POINTER
is a JSON Pointer, as defined in RFC 6901.
One that begins with
.Sq #
is the fragment of a URI, with its characters encoded as in section 6 there.
It names one value: no token stands for several.
The empty pointer is the whole document:
.Ql jptr keys \(aq\(aq app.json .
Its last token
.Sq -
is the position after the last element of an array, so
.Cm set
with /sizes/- appends.
.Pp
A document nests at most 127 deep, and a TOML document whose values nest deeper than 80 is not read.
Members of JSON keep their order and numbers their digits, except with
.Fl -sort-keys
and where values are read
.Pq Fl -lossy ;
.Cm paths
and
.Cm from-paths
sort the members.
A TOML value that is found is printed anew:
its keys sorted, whole numbers in decimal without underscores,
floats with the fewest digits that read back.
.Pp
.Cm get ,
.Cm set
and
.Cm delete
take several pointers,
.Cm set
each with its value.
They apply in order, and all of them do, or nothing is printed or changed.
.Cm get
and
.Cm delete
take the last of two or more words as
.Ar FILE ,
and
.Cm set
takes a word that is left after the pairs.
With
.Fl -lines ,
.Cm get
prints the values of a line with tabs between them, and an edit takes one pointer.
.Pp
Of a TOML document
.Cm keys ,
.Cm length ,
.Cm type ,
.Cm test
and
.Cm get Fl -json
read the JSON of it: its members in the order of their keys, and dates and times as strings.
.Pp
The commands are as follows:
.Bl -tag -width Ds
"#;

/// What is between the list of the commands and that of the options.
const OPTIONS: &str = ".El\n.Pp\nThe options are as follows:\n.Bl -tag -width Ds\n";

/// What is after the list of the options.
const TAIL: &str = r#".El
.Sh EXIT STATUS
.Bl -tag -width Ds -compact
.It 0
Done, also if nobody reads the output any more, as after
.Ql | head -1 .
.It 1
No:
.Cm test
finds another value or none, the documents of
.Cm diff
differ, those of
.Cm merge
have a conflict, or a patch does not apply.
A pointer leads to no value.
A value has no keys or no length.
A document is not laid out as
.Cm format
prints it.
No value is at a position.
.It 2
The command line is wrong.
An argument is not a pointer or a token.
.It 3
The input or an argument is not JSON or TOML.
A document is not a patch.
A line is not a pointer, a tab and JSON.
A number loses digits.
A float of TOML is no number of JSON.
.It 4
Out of memory.
.It 5
A file could not be read or written.
.It 6
An edit cannot be made: no value can be put at the pointer, or the text or its comments do not allow it.
A document cannot be laid out as wanted.
A document or a patch would nest too deep.
.It 7
With
.Fl -lines ,
some line is at fault.
.El
.Sh EXAMPLES
Print the second size of a document:
.Pp
.Dl $ jptr get /sizes/1 app.json
.Pp
Change a file:
.Pp
.Dl $ jptr set /name '\(dqnew\(dq' app.json -i
.Pp
Assign a plain string:
.Pp
.Dl $ jptr set --string /name \(aqnew app\(aq app.json -i
.Pp
Ask whether a value is there, in a document on standard input:
.Pp
.Dl $ jptr test /name < app.json
.Pp
Keep the leaves of one kind:
.Pp
.Dl $ jptr paths --all menu.json | grep -v /notes | jptr from-paths
.Pp
Change a file with comments:
.Pp
.Dl $ jptr set --comments /compilerOptions/strict true tsconfig.json -i
.Pp
Print a member of each line, on all processors:
.Pp
.Dl $ parallel --pipepart -k -a log.jsonl jptr get --lines /id
.Sh STANDARDS
RFC 6901 defines JSON Pointers, RFC 6902 JSON Patch, and RFC 8259 JSON.
"#;

/// Returns the manual of this version of the program, with these commands and flags.
pub fn manual(
    alloc: Global,
    version: &str,
    commands: &[Declared],
    flags: &[Argument],
) -> Result<String, AllocError> {
    let mut text = format!(in alloc; ".Dd {DATE}\n.Dt JPTR 1\n.Os jptr {version}\n")?;
    text.push_str(NAME)?;
    for command in commands {
        push_synopsis(alloc, &mut text, command)?;
    }
    text.push_str(DESCRIPTION)?;
    for command in commands {
        let (name, manual) = (command.head.name, command.head.manual);
        text.push_str(format!(in alloc; ".It Cm {name}\n{manual}")?.as_str())?;
    }
    text.push_str(OPTIONS)?;
    for flag in flags {
        push_option(alloc, &mut text, flag)?;
    }
    text.push_str(TAIL)?;
    Ok(text)
}

/// Appends the synopsis of a command: its flags, and then its operands.
fn push_synopsis(alloc: Global, text: &mut String, command: &Declared) -> Result<(), AllocError> {
    let name = command.head.name;
    text.push_str(format!(in alloc; ".Nm\n.Cm {name}\n")?.as_str())?;
    for argument in &command.arguments {
        if argument.is_flag() {
            text.push_str(".Op ")?;
            push_flag(alloc, text, argument, " | ")?;
        }
    }
    for argument in &command.arguments {
        push_operand(alloc, text, argument)?;
    }
    Ok(())
}

/// Appends the line of a flag, with a text between its two names.
fn push_flag(
    alloc: Global,
    text: &mut String,
    flag: &Argument,
    between: &str,
) -> Result<(), AllocError> {
    let name = flag.name;
    let line = match flag.kind {
        Kind::Letter(letter) => format!(in alloc; "Fl {letter}{between}Fl -{name}\n")?,
        Kind::Value(value) => format!(in alloc; "Fl -{name} Ar {value}\n")?,
        Kind::Flag | Kind::Required | Kind::Optional | Kind::Several => {
            format!(in alloc; "Fl -{name}\n")?
        }
    };
    text.push_str(line.as_str())
}

/// Appends the line of an operand, if the argument is one.
fn push_operand(alloc: Global, text: &mut String, operand: &Argument) -> Result<(), AllocError> {
    if operand.is_flag() {
        return Ok(());
    }
    if !operand.synopsis.is_empty() {
        return text.push_str(operand.synopsis);
    }
    let name = operand.name;
    let line = match operand.kind {
        Kind::Required => format!(in alloc; ".Ar {name}\n")?,
        _ => format!(in alloc; ".Op Ar {name}\n")?,
    };
    text.push_str(line.as_str())
}

/// Appends a flag to the list of the options, with what the manual says of it, or else its help.
fn push_option(alloc: Global, text: &mut String, flag: &Argument) -> Result<(), AllocError> {
    text.push_str(".It ")?;
    push_flag(alloc, text, flag, " , ")?;
    if flag.manual.is_empty() {
        let help = flag.help;
        return text.push_str(format!(in alloc; "{help}.\n")?.as_str());
    }
    text.push_str(flag.manual)
}
