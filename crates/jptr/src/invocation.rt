//! What the command line asks for: a command with what it needs, and the flags that several commands take.

use crate::document::FileFormat;
use jsonptr_text_paths::listing::Listed;

/// What the command line asks for.
#[derive(Drop)]
pub struct Invocation<'a> {
    /// The command.
    pub command: Command<'a>,
    /// The flags that several commands take, and the file of the document.
    pub options: Options<'a>,
}

/// A command, with its own arguments and flags.
#[derive(Drop)]
pub enum Command<'a> {
    /// Prints a value, or several.
    Get(Finding<'a>),
    /// Prints the keys of the value at this pointer.
    Keys(&'a str),
    /// Prints the length of the value at this pointer.
    Length(&'a str),
    /// Prints the type of the value at this pointer.
    TypeOf(&'a str),
    /// Says by the status whether a value is there.
    Test(Testing<'a>),
    /// Prints where a value is, or which value is at a position.
    Locate(Locating<'a>),
    /// Assigns a value, or several.
    Set(Assigning<'a>),
    /// Deletes a value, or several.
    Delete(Deleting<'a>),
    /// Inserts the value.
    Insert(Assignment<'a>),
    /// Moves a value.
    Move(Transfer<'a>),
    /// Copies a value.
    Copy(Transfer<'a>),
    /// Renames a member.
    Rename(Renaming<'a>),
    /// Applies a patch document.
    Patch(Patching<'a>),
    /// Applies this merge patch.
    MergePatch(&'a str),
    /// Merges two changed copies of a document.
    Merge(Merging<'a>),
    /// Compares two documents.
    Diff(Comparing<'a>),
    /// Lays a document out anew.
    Format(Formatted),
    /// Lays this new document out as the file is; standard input if there is none.
    Relayout(Option<&'a str>),
    /// Prints a line for each node, or for each leaf.
    Paths(Listed),
    /// Prints the document that lines build.
    FromPaths,
    /// Prints the tokens of this pointer.
    Tokens(&'a str),
    /// Prints this text as a token.
    Escape(&'a str),
    /// Prints the text of this token.
    Unescape(&'a str),
}

/// What `get` needs.
#[derive(Drop)]
pub struct Finding<'a> {
    /// The pointers, at least one.
    pub pointers: Vec<&'a str>,
    /// What is printed for a pointer that resolves to no value.
    pub default: Option<&'a str>,
    /// Whether one object is printed, with the pointers as its keys.
    pub is_object: bool,
    /// Whether the values are printed as JSON, also of a TOML document.
    pub is_json: bool,
}

/// What `test` needs.
#[derive(Clone, Copy)]
pub struct Testing<'a> {
    /// The pointer.
    pub pointer: &'a str,
    /// The value to compare with, or the file.
    pub value: Option<ValueWord<'a>>,
}

/// What `locate` needs.
#[derive(Clone, Copy)]
pub struct Locating<'a> {
    /// The pointer, or with a position the file.
    pub first: Option<&'a str>,
    /// The position, if its value is looked for.
    pub position: Option<&'a str>,
}

/// A word that is a value.
#[derive(Clone, Copy)]
pub struct ValueWord<'a> {
    /// The word.
    pub text: &'a str,
    /// Whether the value is a string, and the word its text.
    pub is_string: bool,
}

/// A pointer, and the value that is put there.
#[derive(Clone, Copy)]
pub struct Assignment<'a> {
    /// The pointer.
    pub pointer: &'a str,
    /// The value.
    pub value: ValueWord<'a>,
}

/// What `set` needs.
#[derive(Drop)]
pub struct Assigning<'a> {
    /// The pointers and values, at least one pair.
    pub assignments: Vec<Assignment<'a>>,
    /// Whether containers are created on the way to a value, and scalars replaced by them.
    pub expands: bool,
    /// Whether the document is made if its file is missing.
    pub creates: bool,
}

/// What `delete` needs.
#[derive(Drop)]
pub struct Deleting<'a> {
    /// The pointers, at least one.
    pub pointers: Vec<&'a str>,
    /// Whether a pointer that leads to no value is passed over.
    pub skips_missing: bool,
}

/// What becomes of a document that is laid out anew.
#[derive(Clone, Copy, PartialEq, Eq)]
pub enum Formatted {
    /// It is printed, or written to the file.
    Put,
    /// It is compared with the text of the document.
    Compared,
}

/// What `move` and `copy` need.
#[derive(Clone, Copy)]
pub struct Transfer<'a> {
    /// The pointer of the value.
    pub from: &'a str,
    /// The pointer where it is put.
    pub path: &'a str,
}

/// What `rename` needs.
#[derive(Clone, Copy)]
pub struct Renaming<'a> {
    /// The pointer of the member.
    pub pointer: &'a str,
    /// Its new key.
    pub key: &'a str,
}

/// What `patch` needs.
#[derive(Clone, Copy)]
pub struct Patching<'a> {
    /// The patch document.
    pub patch: &'a str,
    /// Whether nothing is printed.
    pub is_check: bool,
    /// The file for the patch that takes this one back.
    pub undo: Option<&'a str>,
}

/// What `merge` needs. The first copy is the file of the document.
#[derive(Clone, Copy)]
pub struct Merging<'a> {
    /// The document that both copies were made of.
    pub base: &'a str,
    /// The second copy.
    pub theirs: &'a str,
    /// Which copy decides conflicts, if one does.
    pub side: Option<MergeSide>,
}

/// Which copy decides conflicts.
#[derive(Clone, Copy, PartialEq, Eq)]
pub enum MergeSide {
    /// The first copy.
    Ours,
    /// The second copy.
    Theirs,
}

/// What `diff` needs.
#[derive(Clone, Copy)]
pub struct Comparing<'a> {
    /// The document before.
    pub old: &'a str,
    /// The document after.
    pub new: &'a str,
    /// Whether a line is printed for each change.
    pub is_text: bool,
}

/// The flags that several commands take, and the file of the document.
#[derive(Clone, Copy)]
pub struct Options<'a> {
    /// The file of the document; standard input if there is none.
    pub file: Option<&'a str>,
    /// The format of the document.
    pub format: FileFormat,
    /// What the flags say of the format of a document.
    pub format_flag: FormatFlag,
    /// What the flags say of the layout of what is printed.
    pub layout: LayoutFlags,
    /// When what is printed has colours, if a flag says so.
    pub color: Option<ColorWhen>,
    /// How each line is taken as a document, if it is.
    pub lines: Option<LineFlags>,
    /// Whether the file is changed, and nothing printed.
    pub is_in_place: bool,
    /// Whether a document is printed anew that cannot be edited in its text.
    pub reformats: bool,
    /// Whether numbers may lose digits.
    pub is_lossy: bool,
}

/// What the flags say of the format of a document.
#[derive(Clone, Copy, PartialEq, Eq)]
pub enum FormatFlag {
    /// Nothing: the name of the file has it.
    ByName,
    /// It is JSON with comments.
    Comments,
    /// It is TOML.
    Toml,
}

/// What the flags say of the layout of what is printed.
#[derive(Clone, Copy)]
pub struct LayoutFlags {
    /// Whether strings are printed without quotes.
    pub is_raw: bool,
    /// Whether there is a line for each member and element.
    pub is_pretty: bool,
    /// Whether there is no white space.
    pub is_compact: bool,
    /// Whether the members are sorted.
    pub sorts_keys: bool,
    /// The indentation of a level.
    pub indent: Indent,
}

/// The indentation of a level.
#[derive(Clone, Copy, PartialEq, Eq)]
pub enum Indent {
    /// No flag says it.
    Plain,
    /// This text.
    By(&'static str),
    /// The flag has a word that is none.
    Wrong,
}

/// When what is printed has colours.
#[derive(Clone, Copy, PartialEq, Eq)]
pub enum ColorWhen {
    /// Always.
    Always,
    /// Never.
    Never,
    /// On a terminal.
    Terminal,
    /// The flag has a word that is none of these.
    Wrong,
}

/// How each line is taken as a document.
#[derive(Clone, Copy)]
pub struct LineFlags {
    /// Whether the run ends at the first line at fault.
    pub is_strict: bool,
    /// Whether each result is printed at once.
    pub is_buffered: bool,
}

impl<'a> Options<'a> {
    /// Returns the options of a command line without flags and file.
    pub fn new() -> Options<'a> {
        Options {
            file: None,
            format: FileFormat::Json,
            format_flag: FormatFlag::ByName,
            layout: LayoutFlags {
                is_raw: false,
                is_pretty: false,
                is_compact: false,
                sorts_keys: false,
                indent: Indent::Plain,
            },
            color: None,
            lines: None,
            is_in_place: false,
            reformats: false,
            is_lossy: false,
        }
    }
}
