//! The document that a command reads: from standard input or a file, which may be changed in place.

use crate::colors::{are_colored, colored_json};
use crate::comments::{BothTexts, bare, other_layout};
use crate::drawn::fault_of_patch;
use crate::in_place::{EditedFile, open_file, replace_text};
use crate::input::{is_standard, name_of, read_input, text_in, value_in};
use crate::invocation::{FormatFlag, Options};
use crate::operands::{is_commented_name, is_toml_name};
use crate::output::print_text;
use crate::program_error::ProgramError;
use crate::task::document_error;
use crate::toml_file;
use crate::toml_json::json_of;
use crate::written::Written;
use jptr_tasks::exit_status::USAGE;
use jptr_tasks::task_error::TaskError;
use jsonptr_text_paths::listing::Listed;
use serde_json::Value;
use simdutf8::basic::from_utf8;
use std::alloc::{AllocError, Global};
use std::fs;
use std::io::ErrorKind;

/// The byte order mark of UTF-8.
const MARK: &str = "\u{feff}";

/// The format of a document.
#[derive(Clone, Copy, PartialEq, Eq)]
pub enum FileFormat {
    /// JSON.
    Json,
    /// JSON with comments and trailing commas.
    Commented,
    /// TOML.
    Toml,
}

impl FileFormat {
    /// Returns the format of the document in this file: by the flag, or by its name.
    pub fn of(flag: FormatFlag, file: Option<&str>) -> FileFormat {
        if is_toml_name(file) || flag == FormatFlag::Toml {
            FileFormat::Toml
        } else if is_commented_name(file) || flag == FormatFlag::Comments {
            FileFormat::Commented
        } else {
            FileFormat::Json
        }
    }
}

/// The document that a command reads.
#[derive(Drop)]
pub struct Document<'a> {
    /// Its name in errors.
    pub name: &'a str,
    /// What it contains.
    content: Content,
    /// Whether it starts with a byte order mark.
    pub has_mark: bool,
    /// Its file, if that is changed in place.
    pub target: Option<EditedFile>,
    /// What happens to it if its file is missing.
    pub missing: Option<Missing>,
    /// Whether what is printed of it has colours, if that is JSON.
    is_colored: bool,
}

/// What a document contains.
#[derive(Drop)]
enum Content {
    /// JSON without comments and trailing commas: its bytes, without a byte order mark at their start.
    Json(Vec<u8>),
    /// JSON with them: its text, and the same with spaces instead of them.
    Commented {
        /// Its text.
        whole: String,
        /// The text with spaces.
        bare: String,
    },
    /// TOML: its bytes.
    Toml(Vec<u8>),
}

/// What happens to a document whose file is missing.
#[derive(Clone, Copy, PartialEq, Eq)]
pub enum Missing {
    /// It is printed.
    Printed,
    /// It is written to the file.
    Written,
}

impl<'a> Document<'a> {
    /// Reads the document of the command. Opens its file for a change if the flag `--in-place` is there.
    pub fn open(rt: &HostRuntime, options: &Options<'a>) -> Result<Document<'a>, ProgramError> {
        let format = options.format;
        if options.is_in_place {
            return Document::open_target(rt, format, options.file);
        }
        let mut source = Document::read_as(rt, format, options.file)?;
        source.is_colored = are_colored(rt, options.color)?;
        Ok(source)
    }

    /// Reads the document of a command that puts a value into it, or `creates` it if its file is missing.
    pub fn open_to_set(
        rt: &HostRuntime,
        options: &Options<'a>,
        creates: bool,
    ) -> Result<Document<'a>, ProgramError> {
        if !creates {
            return Document::open(rt, options);
        }
        let Some(missing) = missing_file(rt, options)? else {
            return Document::open(rt, options);
        };
        let format = options.format;
        let bytes = empty_document(rt.alloc(), format)?;
        let mut source = Document::of(rt.alloc(), name_of(options.file), format, bytes)?;
        source.missing = Some(missing);
        Ok(source)
    }

    /// Reads the document of a command that reads its JSON, also if it is TOML.
    pub fn open_json(
        rt: &HostRuntime,
        options: &Options<'a>,
    ) -> Result<Document<'a>, ProgramError> {
        if options.format == FileFormat::Toml {
            toml_file::check_json_flags(rt.alloc(), options)?;
        }
        Document::open(rt, options)?.as_json(rt.alloc())
    }

    /// Reads a document that is JSON, or the lines that build one. It is not changed in place.
    pub fn read(rt: &HostRuntime, file: Option<&'a str>) -> Result<Document<'a>, ProgramError> {
        Document::read_as(rt, FileFormat::Json, file)
    }

    /// Reads a document of this format, which is not changed in place.
    pub fn read_as(
        rt: &HostRuntime,
        format: FileFormat,
        file: Option<&'a str>,
    ) -> Result<Document<'a>, ProgramError> {
        Document::of(rt.alloc(), name_of(file), format, read_input(rt, file)?)
    }

    /// Returns the document with this name and these bytes.
    pub fn of(
        alloc: Global,
        name: &'a str,
        format: FileFormat,
        bytes: Vec<u8>,
    ) -> Result<Document<'a>, ProgramError> {
        let (bytes, has_mark) = match format {
            FileFormat::Json | FileFormat::Commented => without_mark(alloc, bytes)?,
            FileFormat::Toml => (bytes, false),
        };
        let content = match format {
            FileFormat::Json => Content::Json(bytes),
            FileFormat::Commented => commented(alloc, name, bytes)?,
            FileFormat::Toml => Content::Toml(bytes),
        };
        Ok(Document {
            name,
            content,
            has_mark,
            target: None,
            missing: None,
            is_colored: false,
        })
    }

    /// Reads a document of this format, and opens its file for a change.
    fn open_target(
        rt: &HostRuntime,
        format: FileFormat,
        file: Option<&'a str>,
    ) -> Result<Document<'a>, ProgramError> {
        if is_standard(file) {
            return Err(ProgramError::new(rt.alloc(), USAGE, "--in-place", "needs a file"));
        }
        let name = name_of(file);
        let (target, bytes) = open_file(rt, name)?;
        let mut source = Document::of(rt.alloc(), name, format, bytes)?;
        source.target = Some(target);
        Ok(source)
    }

    /// Returns its format. JSON that has no comments and no trailing commas is plain.
    pub fn format(&self) -> FileFormat {
        match &self.content {
            Content::Json(_) => FileFormat::Json,
            Content::Commented { .. } => FileFormat::Commented,
            Content::Toml(_) => FileFormat::Toml,
        }
    }

    /// Returns it as JSON.
    pub fn as_json(self, alloc: Global) -> Result<Document<'a>, ProgramError> {
        if self.format() != FileFormat::Toml {
            return Ok(self);
        }
        let lines = toml_file::lines_of(alloc, Listed::AllNodes, &self)?;
        let json = json_of(alloc, self.name, lines.as_str())?;
        let mut document = Document::of(alloc, self.name, FileFormat::Json, json.into_bytes())?;
        document.is_colored = self.is_colored;
        Ok(document)
    }

    /// Fails if it has comments, which the command would lose.
    pub fn check_bare(&self, alloc: Global) -> Result<(), ProgramError> {
        if self.has_comments() {
            Err(other_layout(alloc, self.name))
        } else {
            Ok(())
        }
    }

    /// Returns whether it has comments or trailing commas.
    pub fn has_comments(&self) -> bool {
        self.format() == FileFormat::Commented
    }

    /// Returns its texts, if it has comments or trailing commas.
    pub fn both_texts(&self) -> Option<BothTexts<'_>> {
        match &self.content {
            Content::Commented { whole, bare } => Some(BothTexts {
                whole: whole.as_str(),
                bare: bare.as_str(),
            }),
            Content::Json(_) | Content::Toml(_) => None,
        }
    }

    /// Returns its bytes, which in JSON have spaces instead of comments and trailing commas.
    pub fn as_bytes(&self) -> &[u8] {
        match &self.content {
            Content::Commented { bare, .. } => bare.as_bytes(),
            Content::Json(bytes) | Content::Toml(bytes) => bytes.as_slice(),
        }
    }

    /// Returns its text, with its comments.
    pub fn whole_text(&self, alloc: Global) -> Result<String, ProgramError> {
        match &self.content {
            Content::Commented { whole, .. } => Ok(whole.clone()?),
            Content::Json(_) | Content::Toml(_) => Ok(String::from_str(alloc, self.text(alloc)?)?),
        }
    }

    /// Returns its text, which in JSON has spaces instead of comments.
    pub fn text(&self, alloc: Global) -> Result<&str, ProgramError> {
        match &self.content {
            Content::Commented { bare, .. } => Ok(bare.as_str()),
            Content::Json(bytes) => text_in(alloc, self.name, bytes),
            Content::Toml(bytes) => match from_utf8(bytes) {
                Ok(text) => Ok(text),
                Err(_) => Err(self.error(alloc, "", TaskError::NotUtf8)),
            },
        }
    }

    /// Returns the JSON value that it is.
    pub fn value(&self, alloc: Global) -> Result<Value, ProgramError> {
        value_in(alloc, self.name, self.as_bytes())
    }

    /// Returns the error of a task that failed on it, at this pointer.
    pub fn error(&self, alloc: Global, pointer: &str, error: TaskError) -> ProgramError {
        document_error(alloc, self.name, self.as_bytes(), pointer, error)
    }

    /// Returns the error of a patch document that failed on it, with what is at fault.
    pub fn patch_error(&self, alloc: Global, patch: &Value, error: TaskError) -> ProgramError {
        let drawing = fault_of_patch(alloc, self.as_bytes(), patch, &error);
        self.error(alloc, "", error).with_drawing(drawing)
    }

    /// Prints the new document, or replaces the text of the file by it unless that is the same. A file
    /// that is missing is created. A byte order mark stays.
    pub fn put(&self, rt: &HostRuntime, new: &str) -> Result<(), ProgramError> {
        if self.target.is_some() && self.is_its_text(new) {
            return Ok(());
        }
        if !self.has_mark {
            return self.put_text(rt, new);
        }
        let mut marked = String::from_str(rt.alloc(), MARK)?;
        marked.push_str(new)?;
        self.put_text(rt, marked.as_str())
    }

    /// Returns whether the text is its own, apart from a byte order mark.
    pub fn is_its_text(&self, text: &str) -> bool {
        match &self.content {
            Content::Commented { whole, .. } => text == whole.as_str(),
            Content::Json(bytes) | Content::Toml(bytes) => text.as_bytes() == bytes.as_slice(),
        }
    }

    /// Prints a text that is made of it, with colours if it is JSON without comments.
    pub fn print(&self, rt: &HostRuntime, new: &str) -> Result<(), ProgramError> {
        if self.is_colored && self.format() == FileFormat::Json {
            print_text(rt, colored_json(rt.alloc(), new)?.as_str())
        } else {
            print_text(rt, new)
        }
    }

    /// Prints the whole text, or replaces the text of the file by it.
    fn put_text(&self, rt: &HostRuntime, new: &str) -> Result<(), ProgramError> {
        if self.missing == Some(Missing::Written) {
            Written::write(rt, self.name, new)?.keep(rt);
            return Ok(());
        }
        match &self.target {
            None => self.print(rt, new),
            Some(target) => replace_text(rt, self.name, target, new),
        }
    }
}

/// Returns the bytes without a byte order mark at their start, and whether there was one.
fn without_mark(alloc: Global, bytes: Vec<u8>) -> Result<(Vec<u8>, bool), AllocError> {
    if !bytes.starts_with(MARK.as_bytes()) {
        return Ok((bytes, false));
    }
    let mut rest = Vec::new(alloc);
    rest.extend_from_slice(bytes.get(MARK.len()..).unwrap_or(&[]))?;
    Ok((rest, true))
}

/// Returns what the bytes of a document with this name contain, which may have comments.
fn commented(alloc: Global, name: &str, bytes: Vec<u8>) -> Result<Content, ProgramError> {
    match String::from_utf8(bytes) {
        Ok(whole) => match bare(alloc, name, whole.as_str())? {
            Some(bare) => Ok(Content::Commented { whole, bare }),
            None => Ok(Content::Json(whole.into_bytes())),
        },
        Err(error) => Ok(Content::Json(error.into_bytes())),
    }
}

/// Returns the text without a byte order mark at its start.
pub fn past_mark(text: &str) -> &str {
    text.strip_prefix(MARK).unwrap_or(text)
}

/// Returns what happens to the document if its file is missing and is to be created.
fn missing_file(rt: &HostRuntime, options: &Options<'_>) -> Result<Option<Missing>, ProgramError> {
    if is_standard(options.file) {
        return Err(ProgramError::new(rt.alloc(), USAGE, "--create", "needs a file"));
    }
    match fs::symlink_metadata(rt, name_of(options.file)) {
        Err(error) if error.kind() == ErrorKind::NotFound => {
            Ok(Some(if options.is_in_place {
                Missing::Written
            } else {
                Missing::Printed
            }))
        }
        _ => Ok(None),
    }
}

/// Returns the bytes of a document that is made: null, or an empty table.
fn empty_document(alloc: Global, format: FileFormat) -> Result<Vec<u8>, AllocError> {
    let mut bytes = Vec::new(alloc);
    match format {
        FileFormat::Json | FileFormat::Commented => bytes.extend_from_slice(b"null\n")?,
        FileFormat::Toml => {}
    }
    Ok(bytes)
}
