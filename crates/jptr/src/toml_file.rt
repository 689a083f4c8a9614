//! Commands on TOML documents. A document is edited in its text, or printed anew.

use crate::document::Document;
use crate::expansion::check_toml_expansion;
use crate::invocation::{Assigning, Deleting, Finding, FormatFlag, Indent, Options};
use crate::operands::pointer_of;
use crate::output::print_text;
use crate::position::Position;
use crate::program_error::ProgramError;
use crate::several::check_values;
use crate::shown::shown;
use crate::syntax::row_at;
use crate::value_argument::{ValueArgument, toml_default};
use jptr_tasks::exit_status::{BAD_INPUT, NOT_MADE, USAGE};
use jptr_tasks::task_error::TaskError;
use jsonptr::Pointer;
use jsonptr_text_edit::RenameError;
use jsonptr_text_paths::listing::Listed;
use jsonptr_toml::{InTomlError, PrintTomlError, ReadTomlError, list_in_toml, resolve_in_toml};
use jsonptr_toml_edit::{Edited, RawTomlError, RawTomlValue, TomlEdit, TomlEditError, edit_toml};
use simdutf8::basic::from_utf8;
use std::alloc::{AllocError, Global};
use toml::table_from_str;

/// What is said of a flag that does nothing on TOML.
const FOR_JSON: &str = "is for JSON, and the document is TOML";

/// An edit of a TOML document.
#[derive(Drop)]
enum TomlChange<'a> {
    /// Assigns the value at the pointer, with its own text if it has one.
    Assign(Pointer<'a>, toml::Value, Option<RawTomlValue>),
    /// Deletes the value at the pointer.
    Delete(Pointer<'a>),
    /// Renames the member at the pointer.
    Rename(Pointer<'a>, &'a str),
}

/// How edits of a TOML document are made.
#[derive(Clone, Copy)]
struct TomlRules {
    /// Whether arrays and tables are created on the way to a value, and scalars replaced by them.
    expands: bool,
    /// Whether a value that is not there is no error.
    skips_missing: bool,
    /// Whether the document may be printed anew in its file.
    reformats: bool,
}

/// Prints the values that the pointers resolve to, or the value of `--default`, as TOML.
pub fn get(
    rt: &HostRuntime,
    options: &Options<'_>,
    finding: &Finding<'_>,
) -> Result<u8, ProgramError> {
    let alloc = rt.alloc();
    let mut pointers = Vec::new(alloc);
    for text in &finding.pointers {
        pointers.push(pointer_of(alloc, *text)?)?;
    }
    check_flags(alloc, options, finding.default.is_some())?;
    if finding.is_object {
        let message = "is an object of JSON: use --json, too";
        return Err(ProgramError::new(alloc, USAGE, "--object", message));
    }
    let source = Document::open(rt, options)?;
    let mut text = String::new(alloc);
    for pointer in pointers {
        let value = value_at(alloc, &source, pointer, finding.default, options.is_lossy)?;
        match value.as_str() {
            Some(string) if options.layout.is_raw => text.push_str(string)?,
            _ => text.push_str(value.to_string(alloc)?.as_str())?,
        }
        text.push('\n')?;
    }
    print_text(rt, text.as_str())?;
    Ok(0)
}

/// Returns the value that the pointer resolves to, or the value of `--default`.
fn value_at(
    alloc: Global,
    source: &Document<'_>,
    pointer: Pointer<'_>,
    default: Option<&str>,
    is_lossy: bool,
) -> Result<toml::Value, ProgramError> {
    match resolve_in_toml(alloc, source.text(alloc)?, pointer) {
        Ok(value) => Ok(value),
        Err(InTomlError::Resolve(error)) => match toml_default(alloc, default, is_lossy)? {
            Some(other) => Ok(other),
            None => Err(source.error(alloc, pointer.as_str(), TaskError::Resolve(error))),
        },
        Err(error) => Err(resolve_error(alloc, source, pointer, error)),
    }
}

/// Assigns a value, or several.
pub fn set(
    rt: &HostRuntime,
    options: &Options<'_>,
    assigning: &Assigning<'_>,
) -> Result<u8, ProgramError> {
    let alloc = rt.alloc();
    let mut pointers = Vec::new(alloc);
    for assignment in &assigning.assignments {
        pointers.push(pointer_of(alloc, assignment.pointer)?)?;
    }
    check_flags(alloc, options, true)?;
    check_values(alloc, assigning.assignments.as_slice())?;
    let mut changes = Vec::new(alloc);
    for (pointer, assignment) in pointers.iter().zip(assigning.assignments.iter()) {
        let given = ValueArgument::read(rt, assignment.value, options.file)?;
        let raw = own_text(alloc, &given, options.is_lossy)?;
        let value = given.toml(alloc, options.is_lossy)?;
        changes.push(TomlChange::Assign(*pointer, value, raw))?;
    }
    let rules = TomlRules {
        expands: assigning.expands,
        skips_missing: false,
        reformats: options.reformats,
    };
    let source = Document::open_to_set(rt, options, assigning.creates)?;
    edit_each(rt, &source, changes, rules)
}

/// Deletes a value, or several.
pub fn delete(
    rt: &HostRuntime,
    options: &Options<'_>,
    deleting: &Deleting<'_>,
) -> Result<u8, ProgramError> {
    let alloc = rt.alloc();
    let mut changes = Vec::new(alloc);
    for text in &deleting.pointers {
        changes.push(TomlChange::Delete(pointer_of(alloc, *text)?))?;
    }
    check_flags(alloc, options, false)?;
    let rules = TomlRules {
        expands: true,
        skips_missing: deleting.skips_missing,
        reformats: options.reformats,
    };
    edit_each(rt, &Document::open(rt, options)?, changes, rules)
}

/// Renames the member at the pointer.
pub fn rename(
    rt: &HostRuntime,
    options: &Options<'_>,
    pointer: Pointer<'_>,
    key: &str,
) -> Result<u8, ProgramError> {
    let alloc = rt.alloc();
    check_flags(alloc, options, false)?;
    let mut changes = Vec::new(alloc);
    changes.push(TomlChange::Rename(pointer, key))?;
    let rules = TomlRules {
        expands: true,
        skips_missing: false,
        reformats: options.reformats,
    };
    edit_each(rt, &Document::open(rt, options)?, changes, rules)
}

/// Makes the edits one after another, and prints the document, or replaces the text of the file by it.
fn edit_each(
    rt: &HostRuntime,
    source: &Document<'_>,
    changes: Vec<TomlChange<'_>>,
    rules: TomlRules,
) -> Result<u8, ProgramError> {
    let alloc = rt.alloc();
    let mut text = String::from_str(alloc, source.text(alloc)?)?;
    let mut is_in_place = true;
    for change in changes {
        if let Some(edited) = edited_by(alloc, source, text.as_str(), change, rules)? {
            is_in_place = is_in_place && edited.is_in_place();
            text = edited.or_reprinted();
        }
    }
    put(rt, source, text.as_str(), rules.reformats, is_in_place)
}

/// Returns this text of the document after the edit, or `None` if it passes over a value that is missing.
fn edited_by(
    alloc: Global,
    source: &Document<'_>,
    text: &str,
    change: TomlChange<'_>,
    rules: TomlRules,
) -> Result<Option<Edited>, ProgramError> {
    let (pointer, edited) = match change {
        TomlChange::Assign(pointer, value, raw) => {
            if !rules.expands {
                check_toml_expansion(alloc, source, text, pointer)?;
            }
            (pointer, assigned(alloc, text, pointer, value, raw))
        }
        TomlChange::Delete(pointer) => (
            pointer,
            edit_toml(alloc, text, &TomlEdit::Delete(pointer)),
        ),
        TomlChange::Rename(pointer, key) => (
            pointer,
            edit_toml(alloc, text, &TomlEdit::Rename(pointer, key)),
        ),
    };
    match edited {
        Ok(edited) => Ok(Some(edited)),
        Err(TomlEditError::NotThere) if rules.skips_missing => Ok(None),
        Err(TomlEditError::Rename(error)) => Err(not_renamed(alloc, source, pointer, error)?),
        Err(error) => Err(edit_error(alloc, source, pointer, error)),
    }
}

/// Returns why the member is not renamed.
fn not_renamed(
    alloc: Global,
    source: &Document<'_>,
    pointer: Pointer<'_>,
    error: RenameError,
) -> Result<ProgramError, ProgramError> {
    let message = match error {
        RenameError::NotThere => return missing(alloc, source, pointer),
        RenameError::NotAMember => "not a key of a table",
        RenameError::KeyTaken => "there is a member with this key",
    };
    Ok(ProgramError::new(alloc, NOT_MADE, source.name, message))
}

/// Returns the error of a pointer that resolves to nothing.
fn missing(
    alloc: Global,
    source: &Document<'_>,
    pointer: Pointer<'_>,
) -> Result<ProgramError, ProgramError> {
    match resolve_in_toml(alloc, source.text(alloc)?, pointer) {
        Ok(_value) => Ok(source.error(alloc, pointer.as_str(), TaskError::NotThere)),
        Err(error) => Ok(resolve_error(alloc, source, pointer, error)),
    }
}

/// Returns the value with its own text. Returns `None` for a string that is the unchanged argument, and if
/// digits may be lost.
fn own_text(
    alloc: Global,
    given: &ValueArgument<'_>,
    is_lossy: bool,
) -> Result<Option<RawTomlValue>, ProgramError> {
    let text = match given {
        ValueArgument::String(_) => return Ok(None),
        ValueArgument::Text(_, text) => text.as_str(),
        ValueArgument::FileName(text) => text,
    };
    if is_lossy {
        return Ok(None);
    }
    match RawTomlValue::parse(alloc, text) {
        Ok(raw) => Ok(Some(raw)),
        Err(RawTomlError::NotAValue) => Ok(None),
        Err(RawTomlError::Memory(_)) => Err(ProgramError::Memory),
    }
}

/// Returns the text after an assignment. The value keeps its own text, except where headers or dotted keys
/// make it, as they make its siblings: both edits are made, and the lengths of their texts tell which it is.
fn assigned(
    alloc: Global,
    text: &str,
    pointer: Pointer<'_>,
    value: toml::Value,
    raw: Option<RawTomlValue>,
) -> Result<Edited, TomlEditError> {
    let Some(raw) = raw else {
        return edit_toml(alloc, text, &TomlEdit::AssignValue(pointer, value));
    };
    let (own, printed) = (raw.text.len(), value.to_string(alloc)?.len());
    let laid_out = edit_toml(alloc, text, &TomlEdit::AssignValue(pointer, value))?;
    let kept = edit_toml(alloc, text, &TomlEdit::Assign(pointer, raw))?;
    match (laid_out, kept) {
        (Edited::InPlace(laid_out), Edited::InPlace(kept)) => {
            // Headers and dotted keys would add bytes of their own.
            let is_there = laid_out.len().saturating_add(own) == kept.len().saturating_add(printed);
            Ok(Edited::InPlace(if is_there { kept } else { laid_out }))
        }
        (laid_out, _) => Ok(laid_out),
    }
}

/// Returns a line for each leaf of a document, or for each node.
pub fn lines_of(
    alloc: Global,
    which: Listed,
    source: &Document<'_>,
) -> Result<String, ProgramError> {
    match list_in_toml(alloc, source.text(alloc)?, which) {
        Ok(lines) => Ok(lines),
        Err(error) => Err(read_error(alloc, source, error)),
    }
}

/// Prints the document with the text after its edits, or replaces the text of the file by it. If it is
/// printed anew, says so; in its file that is done only if it `reformats`.
fn put(
    rt: &HostRuntime,
    source: &Document<'_>,
    text: &str,
    reformats: bool,
    is_in_place: bool,
) -> Result<u8, ProgramError> {
    if !is_in_place {
        if source.target.is_some() && !reformats {
            return Err(source.error(rt.alloc(), "", TaskError::NotInPlace));
        }
        let shown = shown(rt.alloc(), source.name)?;
        let _ = eprintln!(rt; "jptr: {shown}: printed anew, without its comments and layout");
    }
    source.put(rt, text)?;
    Ok(0)
}

/// Fails if a flag is there that does nothing on TOML. The flag `--lossy` is for a value that is given.
pub fn check_flags(
    alloc: Global,
    options: &Options<'_>,
    has_value: bool,
) -> Result<(), ProgramError> {
    check_lines(alloc, options)?;
    if let Some(flag) = json_flag(options) {
        return Err(ProgramError::new(alloc, USAGE, flag, FOR_JSON));
    }
    if options.is_lossy && !has_value {
        let message = "does nothing here: reading TOML loses no digit";
        return Err(ProgramError::new(alloc, USAGE, "--lossy", message));
    }
    Ok(())
}

/// Fails if a flag is there that does nothing on a TOML document that is taken as JSON.
pub fn check_json_flags(alloc: Global, options: &Options<'_>) -> Result<(), ProgramError> {
    check_lines(alloc, options)?;
    if options.format_flag == FormatFlag::Comments {
        return Err(ProgramError::new(alloc, USAGE, "--comments", FOR_JSON));
    }
    Ok(())
}

/// Fails if each line would be a TOML document.
fn check_lines(alloc: Global, options: &Options<'_>) -> Result<(), ProgramError> {
    if options.lines.is_some() {
        return Err(ProgramError::new(alloc, USAGE, "--lines", "a line is no TOML document"));
    }
    Ok(())
}

/// Returns a flag that is there and says nothing about a TOML document, or about how one is printed.
fn json_flag(options: &Options<'_>) -> Option<&'static str> {
    let layout = options.layout;
    if layout.is_pretty {
        Some("--pretty")
    } else if layout.is_compact {
        Some("--compact")
    } else if layout.sorts_keys {
        Some("--sort-keys")
    } else if options.format_flag == FormatFlag::Comments {
        Some("--comments")
    } else if layout.indent != Indent::Plain {
        Some("--indent")
    } else if options.color.is_some() {
        Some("--color")
    } else {
        None
    }
}

/// Returns the error of a text that is not read.
fn read_error(alloc: Global, source: &Document<'_>, error: ReadTomlError) -> ProgramError {
    let message = match error {
        ReadTomlError::NotToml => not_toml(alloc, from_utf8(source.as_bytes()).unwrap_or("")),
        ReadTomlError::DocumentTooDeep => error.to_string(alloc),
        ReadTomlError::Memory(_) => return ProgramError::Memory,
    };
    ProgramError::of_message(alloc, BAD_INPUT, source.name, message)
}

/// Returns the error of a new document that is not printed.
fn print_error(alloc: Global, source: &Document<'_>, error: PrintTomlError) -> ProgramError {
    match error {
        PrintTomlError::TooDeep | PrintTomlError::NoText => {
            ProgramError::of_message(alloc, NOT_MADE, source.name, error.to_string(alloc))
        }
        PrintTomlError::Memory(_) => ProgramError::Memory,
    }
}

/// Returns the error of a pointer that is not resolved. If the pointer is at fault, it is below it.
pub fn resolve_error(
    alloc: Global,
    source: &Document<'_>,
    pointer: Pointer<'_>,
    error: InTomlError,
) -> ProgramError {
    match error {
        InTomlError::NotToml => read_error(alloc, source, ReadTomlError::NotToml),
        InTomlError::DocumentTooDeep => read_error(alloc, source, ReadTomlError::DocumentTooDeep),
        InTomlError::Resolve(error) => {
            source.error(alloc, pointer.as_str(), TaskError::Resolve(error))
        }
        InTomlError::Memory(_) => ProgramError::Memory,
    }
}

/// Returns the error of an edit. If the pointer is at fault, it is below it.
fn edit_error(
    alloc: Global,
    source: &Document<'_>,
    pointer: Pointer<'_>,
    error: TomlEditError,
) -> ProgramError {
    let fault = match error {
        TomlEditError::NotToml => return read_error(alloc, source, ReadTomlError::NotToml),
        TomlEditError::DocumentTooDeep => {
            return read_error(alloc, source, ReadTomlError::DocumentTooDeep);
        }
        TomlEditError::TooDeep => return print_error(alloc, source, PrintTomlError::TooDeep),
        TomlEditError::NoText => return print_error(alloc, source, PrintTomlError::NoText),
        TomlEditError::Memory(_) => return ProgramError::Memory,
        TomlEditError::Assign(error) => TaskError::Assign(error),
        TomlEditError::NotThere => TaskError::NotThere,
        TomlEditError::Rename(error) => TaskError::NotRenamed(error),
    };
    source.error(alloc, pointer.as_str(), fault)
}

/// Returns why the text is not TOML: the line and the column, and below them that line and a caret.
fn not_toml(alloc: Global, text: &str) -> Result<String, AllocError> {
    match table_from_str(alloc, text) {
        Err(error) if error.is_memory() => Err(AllocError),
        Err(error) => {
            let start = error.span().map_or(0, |span| span.start);
            let Position { line, column } = Position::at(text, start);
            let message = shown(alloc, error.message())?;
            let row = row_at(alloc, text, start)?;
            format!(in alloc; "text is not TOML: {message} at line {line} column {column}\n{row}")
        }
        Ok(_) => String::from_str(alloc, "text is not TOML"),
    }
}
