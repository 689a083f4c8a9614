//! The arguments and flags that several commands take.

use crate::command_line::argument::{Argument, Completion, Dashed, Kind};
use crate::command_line::reader::Reader;
use crate::invocation::{Assignment, ColorWhen, FormatFlag, Indent, LineFlags, ValueWord};
use std::alloc::AllocError;

/// What `--sort-keys` does where a result keeps its layout otherwise.
pub const SORTED: &str =
    "Sorts the members, and prints numbers anew; without white space, or as --pretty does";

/// The most spaces by which a level can be indented.
const SPACES: &str = "                ";

/// What completes the value of `--color`.
pub const COLORS: Completion = Completion::Words("always never auto");

/// What the manual says of `--comments`.
const COMMENTS_MANUAL: &str =
    r#"Takes the document as JSON with comments and trailing commas, as is done for a file whose name ends in
.Sq .jsonc .
A value is printed without them.
An edit keeps them: those inside a value that is replaced or deleted go with it, and so do those after a deleted one on its line.
One above it stays.
Those between that line and a comma on a later one stay.
A value that is moved must have none of these: the error names the line and the column of the first one.
Where they cannot be kept, it fails with status 6.
Does not go with
.Fl -lines
and TOML.
"#;

/// What the manual says of `--reformat`.
const REFORMAT_MANUAL: &str =
    r#"Prints the document anew, without white space, if it cannot be edited in its text.
With
.Cm relayout ,
takes the new document as it is if it cannot be laid out as the file.
Does not apply to a document with comments.
On TOML, lets
.Fl -in-place
do so; without it, it is said on standard error that TOML is printed anew.
"#;

/// What the manual says of `--lossy`.
const LOSSY_MANUAL: &str = r#"Takes the nearest double for a number that would lose digits.
Without it, such a number is an error with status 3 where a result is printed from values that were read:
for
.Cm diff ,
.Cm relayout ,
.Cm paths
and
.Cm from-paths ,
and with
.Fl -inverse ,
.Fl -sort-keys
and
.Fl -default ,
for a TOML value that is given,
and where a document that cannot be edited in its text is printed anew.
With
.Fl -lines
its line is at fault.
With TOML it goes only with a value that is given, since reading TOML loses no digit.
"#;

/// What the manual says of `--pretty`.
const PRETTY_MANUAL: &str =
    r#"Prints a line for each member and element of the value, or of the whole document.
Does not go with TOML.
"#;

/// What the manual says of `--compact`.
const COMPACT_MANUAL: &str = r#"Prints the value, or the whole document, without white space.
Does not go with
.Fl -pretty ,
.Fl -indent
and TOML.
"#;

/// What the manual says of `--sort-keys`.
const SORT_KEYS_MANUAL: &str = r#"Sorts the members of each object, and prints numbers anew:
without white space, on lines with
.Fl -pretty
or
.Fl -indent ,
and with
.Cm format
as that does without the flag.
Does not go with TOML.
"#;

/// What the manual says of `--indent`.
const INDENT_MANUAL: &str = r#"Prints as
.Fl -pretty
does, and indents by
.Ar N
spaces for each level, 1 to 16, or by a tab if
.Ar N
is
.Sq tab .
Does not go with TOML.
"#;

/// What the manual says of `--color`.
const COLOR_MANUAL: &str = r#"Colours JSON that is printed, except with comments and with
.Fl -lines ,
and the lines of
.Fl -text :
.Cm always ,
.Cm never ,
or
.Cm auto ,
which does so on a terminal if the variable
.Ev NO_COLOR
is empty or not set.
With
.Cm diff
it needs
.Fl -text .
Does not go with TOML.
"#;

/// What the manual says of `--lines`.
const LINES_MANUAL: &str = r#"Takes each line of the input as a document.
Prints each result as a line, in the order of the input.
A blank line is passed over.
A line at fault is reported with its number, and the run goes on.
Does not go with
.Fl -pretty ,
.Fl -indent ,
.Fl -in-place ,
.Fl -reformat ,
.Fl -create ,
.Fl -no-expand ,
.Fl -comments ,
.Fl -check
and
.Fl -inverse .
"#;

/// What the manual says of `--strict`.
const STRICT_MANUAL: &str = r#"With
.Fl -lines ,
stops at the first line at fault.
"#;

/// What the manual says of `--line-buffered`.
const LINE_BUFFERED_MANUAL: &str = r#"With
.Fl -lines ,
prints each result at once, as is done on a terminal.
"#;

/// What the manual says of `--in-place`.
const IN_PLACE_MANUAL: &str = r#"Changes the file, and prints nothing.
The text is written to a new file beside it, which is then renamed over it.
So the file is the old or the new document at any moment.
A symbolic link is followed.
The mode stays, and owner and group if they can be set; a group that cannot be set gets no rights.
Access control lists, extended attributes and hard links go.
After a crash a file
.Pa FILE.jptr-0
may be left beside it.
A file that is a mount point cannot be replaced: the status is 5.
If somebody else changes the file meanwhile, nothing is written, and the status is 5:
the inode, the size, the time of modification and the time of change are compared.
"#;

/// What the manual says of `--string`.
const STRING_MANUAL: &str = r#"Takes each value of
.Cm set ,
.Cm insert
or
.Cm test
as a string, without quotes and escapes.
A
.Cm @
at its start has no meaning then.
A value that may begin with a dash, as that of a variable, needs
.Fl -
before the pointer.
"#;

/// What the manual says of `--toml`.
const TOML_MANUAL: &str = r#"Takes the document as TOML, as is done for a file whose name ends in
.Sq .toml .
Values are then printed and given as TOML.
A document is changed in its text.
One that cannot be is printed anew, without its comments and layout.
"#;

/// What the manual says of `--help`.
const HELP_MANUAL: &str = r#"Prints the help of the program or of a command.
"#;

/// What the manual says of `--version`.
const VERSION_MANUAL: &str = r#"Prints the version.
"#;

impl<'a> Reader<'_, 'a> {
    /// Takes this word as the file, if there is one.
    pub fn put_file(&mut self, word: Option<&'a str>) {
        self.options.file = word;
    }

    /// Reads the file of the document.
    pub fn file(&mut self, argument: Argument) -> Result<(), AllocError> {
        self.options.file = self.optional(argument)?;
        Ok(())
    }

    /// Reads a pointer.
    pub fn pointer(&mut self, argument: Argument) -> Result<&'a str, AllocError> {
        let word = self.required(argument)?;
        Ok(self.as_pointer(word))
    }

    /// Reads a pointer, further ones, and then the file, which has to be there after several.
    pub fn pointers(&mut self) -> Result<Vec<&'a str>, AllocError> {
        let first = self.pointer(pointer())?;
        let mut words = self.several(files())?;
        self.options.file = words.pop();
        let mut pointers = Vec::new(*words.allocator());
        pointers.push(first)?;
        for word in &words {
            pointers.push(self.as_pointer(*word))?;
        }
        Ok(pointers)
    }

    /// Reads `--raw`.
    pub fn raw(&mut self, argument: Argument) -> Result<(), AllocError> {
        self.options.layout.is_raw = self.flag(argument)?;
        Ok(())
    }

    /// Reads `--toml`.
    pub fn toml(&mut self, argument: Argument) -> Result<(), AllocError> {
        if self.flag(argument.excluding("comments"))? {
            self.options.format_flag = FormatFlag::Toml;
        }
        Ok(())
    }

    /// Reads `--comments`.
    pub fn comments(&mut self) -> Result<(), AllocError> {
        self.comments_as(comments_flag())
    }

    /// Reads `--comments` of a command that takes lines.
    pub fn comments_or_lines(&mut self) -> Result<(), AllocError> {
        self.comments_as(comments_flag().excluding("lines"))
    }

    /// Reads the flag for JSON with comments.
    fn comments_as(&mut self, argument: Argument) -> Result<(), AllocError> {
        if self.flag(argument)? {
            self.options.format_flag = FormatFlag::Comments;
        }
        Ok(())
    }

    /// Reads `--reformat`.
    pub fn reformat(&mut self, argument: Argument) -> Result<(), AllocError> {
        self.options.reformats = self.flag(argument)?;
        Ok(())
    }

    /// Reads `--lossy`.
    pub fn lossy(&mut self) -> Result<(), AllocError> {
        self.options.is_lossy = self.flag(lossy_flag())?;
        Ok(())
    }

    /// Reads the flags for the layout.
    pub fn layout(&mut self) -> Result<(), AllocError> {
        let pretty = flag("pretty", "Prints a line for each member and element").explained(
            PRETTY_MANUAL,
        );
        let compact = flag("compact", "Prints without white space").explained(COMPACT_MANUAL);
        self.options.layout.is_pretty = self.flag(pretty.excluding("compact"))?;
        self.options.layout.is_compact = self.flag(compact)?;
        self.lossy()
    }

    /// Reads the flags for the layout of a text, for the order of its members with this help, and for
    /// colours.
    pub fn order(&mut self, sorted: &'static str) -> Result<(), AllocError> {
        self.layout()?;
        self.color(color_flag())?;
        self.options.layout.sorts_keys = self.flag(flag("sort-keys", sorted).explained(
            SORT_KEYS_MANUAL,
        ))?;
        let indent = Argument::new(
            "indent",
            Kind::Value("N"),
            "Prints as --pretty does, and indents by N spaces, 1 to 16, or by tab",
        )
        .completed_by(Completion::Words("2 4 8 tab"))
        .explained(INDENT_MANUAL);
        if let Some(word) = self.optional(indent.excluding("compact"))? {
            self.options.layout.indent = indent_of(word);
        }
        Ok(())
    }

    /// Reads `--color`.
    pub fn color(&mut self, argument: Argument) -> Result<(), AllocError> {
        if let Some(word) = self.optional(argument)? {
            self.options.color = Some(color_of(word));
        }
        Ok(())
    }

    /// Reads the flags for one document a line.
    pub fn lines(&mut self) -> Result<(), AllocError> {
        let lines = flag(
            "lines",
            "Takes each line as a document, and prints each result as a line",
        )
        .explained(LINES_MANUAL);
        let strict = flag("strict", "Stops at the first line at fault; needs --lines").explained(
            STRICT_MANUAL,
        );
        let buffered = flag("line-buffered", "Prints each result at once; needs --lines").explained(
            LINE_BUFFERED_MANUAL,
        );
        let takes_lines = self.flag(lines.excluding("pretty indent"))?;
        let is_strict = self.flag(strict.needing("lines"))?;
        let is_buffered = self.flag(buffered.needing("lines"))?;
        if takes_lines {
            self.options.lines = Some(LineFlags {
                is_strict,
                is_buffered,
            });
        }
        Ok(())
    }

    /// Reads `--in-place`.
    pub fn in_place(&mut self, argument: Argument) -> Result<(), AllocError> {
        self.options.is_in_place = self.flag(argument)?;
        Ok(())
    }

    /// Reads the flag for git: the file is changed, and may have comments.
    pub fn git(&mut self, argument: Argument) -> Result<(), AllocError> {
        if self.flag(argument)? {
            self.options.is_in_place = true;
            self.options.format_flag = FormatFlag::Comments;
        }
        Ok(())
    }

    /// Reads the flags of a command that edits, or lays out, and takes lines.
    pub fn edits(&mut self) -> Result<(), AllocError> {
        self.order(SORTED)?;
        self.in_place(in_place_flag().excluding("lines"))?;
        self.lines()
    }
}

/// Returns the indentation that the word of `--indent` is: a tab, or spaces.
fn indent_of(word: &str) -> Indent {
    if word == "tab" {
        return Indent::By("\t");
    }
    let count = word.parse::<usize>().unwrap_or(0);
    match SPACES.get(..count) {
        Some(spaces) if count > 0 => Indent::By(spaces),
        _ => Indent::Wrong,
    }
}

/// Returns what the word of `--color` is.
fn color_of(word: &str) -> ColorWhen {
    match word {
        "always" => ColorWhen::Always,
        "never" => ColorWhen::Never,
        "auto" => ColorWhen::Terminal,
        _ => ColorWhen::Wrong,
    }
}

/// Returns an argument that has to be there.
pub fn required(name: &'static str, help: &'static str) -> Argument {
    Argument::new(name, Kind::Required, help)
}

/// Returns an argument that may be there.
pub fn optional(name: &'static str, help: &'static str) -> Argument {
    Argument::new(name, Kind::Optional, help)
}

/// Returns a flag.
pub fn flag(name: &'static str, help: &'static str) -> Argument {
    Argument::new(name, Kind::Flag, help)
}

/// Returns the argument for the pointer.
pub fn pointer() -> Argument {
    required("POINTER", "The JSON Pointer (RFC 6901), as /a/0")
}

/// Returns the argument for the file.
pub fn file() -> Argument {
    optional("FILE", "The file; standard input if it is missing or -").completed_by(
        Completion::Files,
    )
}

/// Returns the argument for further pointers and the file.
fn files() -> Argument {
    Argument::new(
        "FILE",
        Kind::Several,
        "Further pointers, and then the file, which must be there after them; standard input if it is missing or -",
    )
    .completed_by(Completion::Files)
    .shown_as(".Op Oo Ar POINTER ... Oc Ar FILE\n")
}

/// Returns the argument for the value.
pub fn value() -> Argument {
    let help =
        "The value, or @FILE for that of a file, @- of standard input; for TOML a TOML value";
    required("JSON", help)
        .taking(Dashed::Numbers)
        .shown_as(".Ar JSON | Cm @ Ns Ar VALUEFILE\n")
}

/// Returns the flag for a value that is a string.
pub fn string_flag() -> Argument {
    flag(
        "string",
        "Takes the value as a string, without quotes and escapes, also after @",
    )
    .explained(STRING_MANUAL)
}

/// Returns the flag for TOML.
pub fn toml_flag() -> Argument {
    flag("toml", "Takes TOML, as for a file whose name ends in .toml").explained(TOML_MANUAL)
}

/// Returns the flag for JSON with comments.
fn comments_flag() -> Argument {
    flag(
        "comments",
        "Takes JSON with comments and trailing commas, as for a file whose name ends in .jsonc",
    )
    .explained(COMMENTS_MANUAL)
}

/// Returns the flag that allows a document to lose its layout.
pub fn reformat_flag() -> Argument {
    flag(
        "reformat",
        "Prints a document anew that has no comments and cannot be edited in its text",
    )
    .excluding("lines")
}

/// Returns the flag that allows a document to lose its layout, of a command that takes TOML too.
pub fn toml_reformat_flag() -> Argument {
    let help =
        "Prints a document anew that has no comments and cannot be edited in its text; on TOML, lets --in-place do so";
    flag("reformat", help)
        .excluding("lines")
        .explained(REFORMAT_MANUAL)
}

/// Returns the flag that allows numbers to lose digits.
fn lossy_flag() -> Argument {
    flag(
        "lossy",
        "Takes the nearest double for a number that loses digits",
    )
    .explained(LOSSY_MANUAL)
}

/// Returns the flag for colours.
fn color_flag() -> Argument {
    Argument::new(
        "color",
        Kind::Value("WHEN"),
        "Colours what is printed: always, never, or auto, on a terminal if NO_COLOR is empty or not set",
    )
    .completed_by(COLORS)
    .explained(COLOR_MANUAL)
}

/// Returns the flag for changing the file.
pub fn in_place_flag() -> Argument {
    let help = "Changes the file, and prints nothing";
    Argument::new("in-place", Kind::Letter('i'), help)
        .needing("FILE")
        .explained(IN_PLACE_MANUAL)
}

/// What the manual says of `--generate`.
const GENERATE_MANUAL: &str = r#"Prints this manual
.Pq Cm man ,
or the completions for
.Cm bash ,
.Cm zsh
or
.Cm fish .
Goes with no command.
"#;

/// Returns the flag for the manual and the completions.
pub fn generate_flag() -> Argument {
    Argument::new(
        "generate",
        Kind::Value("KIND"),
        "Print the manual or completions: man, bash, zsh or fish",
    )
    .completed_by(Completion::Words("man bash zsh fish"))
    .explained(GENERATE_MANUAL)
    .of_program()
}

/// Returns the flag for the help, which the parser adds.
pub fn help_flag() -> Argument {
    Argument::new("help", Kind::Letter('h'), "Print help")
        .explained(HELP_MANUAL)
        .of_program()
}

/// Returns the flag for the version, which the parser adds.
pub fn version_flag() -> Argument {
    Argument::new("version", Kind::Letter('V'), "Print version")
        .explained(VERSION_MANUAL)
        .of_program()
}

/// Returns a value that is read, with the flag of its string.
pub fn value_word<'a>(text: &'a str, is_string: bool) -> ValueWord<'a> {
    ValueWord { text, is_string }
}

/// Returns a pointer with the value that is put there.
pub fn assignment<'a>(pointer: &'a str, text: &'a str, is_string: bool) -> Assignment<'a> {
    Assignment {
        pointer,
        value: value_word(text, is_string),
    }
}
