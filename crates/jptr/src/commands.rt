//! The commands.

use crate::command_line::{Parsed, VERSION, Words, commands, fragments, parse};
use crate::difference::diff;
use crate::document::{Document, FileFormat};
use crate::help::help;
use crate::input::is_standard;
use crate::inverse::patch_with_inverse;
use crate::invocation::{
    Assigning, Command, Deleting, Finding, Formatted, Invocation, Options, Patching,
};
use crate::locate::locate;
use crate::long_patch::patch_long;
use crate::merge::{merge, merge_patch};
use crate::node::{Property, print_node, test};
use crate::operands::{check_json, check_last_word, is_toml_name, pointer_of};
use crate::operation::{copy_value, insert, move_value, rename};
use crate::output::{print_line, print_text};
use crate::patch_file::PatchFile;
use crate::paths::{from_paths, paths};
use crate::program_error::ProgramError;
use crate::relayout::relayout;
use crate::several::{assignment_of, delete_each, get_each, get_rows, get_task, set_each};
use crate::style::{OutputStyle, style_of};
use crate::task::{checked, on_source, run_styled, run_task, source_result};
use crate::{generate, toml_file};
use jptr_tasks::exit_status::{NO, USAGE};
use jptr_tasks::layout::{Layout, show};
use jptr_tasks::long_patch::is_long;
use jptr_tasks::task::Task;
use jsonptr::{Pointer, Token};
use jsonptr_text_edit::Edit;
use serde_json::Value;
use std::alloc::{AllocError, Global};
use std::borrow::CowStr;
use std::{env, io};

/// Runs the program, and returns its exit status.
pub fn run(rt: &HostRuntime) -> Result<u8, ProgramError> {
    let alloc = rt.alloc();
    let words = words(rt)?;
    let commands = commands(alloc)?;
    let help = help(alloc, commands.as_slice())?;
    let fragments = fragments(alloc, words.as_slice())?;
    let words = Words {
        all: words.as_slice(),
        fragments: fragments.as_slice(),
    };
    match parse(alloc, commands.as_slice(), help.as_str(), words)? {
        Parsed::Run(Invocation { command, options }) => run_command(rt, command, &options),
        Parsed::Generate(kind) => {
            let text = generate::text_of(alloc, kind, VERSION, commands.as_slice())?;
            print_text(rt, text.as_str())?;
            Ok(0)
        }
        Parsed::Print(text) => {
            print_text(rt, text.as_str())?;
            Ok(0)
        }
    }
}

/// Returns the words of the command line, of which the first is the program's name.
fn words(rt: &HostRuntime) -> Result<Vec<String>, ProgramError> {
    match env::args(rt) {
        Ok(args) => Ok(args.collect(rt.alloc())?),
        Err(error) if error.kind() == io::ErrorKind::OutOfMemory => Err(ProgramError::Memory),
        Err(_) => {
            let message = "an argument is not UTF-8";
            Err(ProgramError::new(rt.alloc(), USAGE, "command line", message))
        }
    }
}

/// Runs the command.
fn run_command(
    rt: &HostRuntime,
    command: Command<'_>,
    options: &Options<'_>,
) -> Result<u8, ProgramError> {
    match command {
        Command::Get(finding) => get(rt, options, &finding),
        Command::Keys(pointer) => print_node(rt, options, pointer, Property::Keys),
        Command::Length(pointer) => print_node(rt, options, pointer, Property::Length),
        Command::TypeOf(pointer) => print_node(rt, options, pointer, Property::Type),
        Command::Test(testing) => test(rt, options, testing),
        Command::Locate(locating) => locate(rt, options, locating),
        Command::Set(assigning) => set(rt, options, &assigning),
        Command::Delete(deleting) => delete(rt, options, &deleting),
        Command::Insert(assignment) => insert(rt, options, assignment),
        Command::Move(transfer) => move_value(rt, options, transfer),
        Command::Copy(transfer) => copy_value(rt, options, transfer),
        Command::Rename(renaming) => rename(rt, options, renaming),
        Command::Patch(patching) => patch(rt, options, patching),
        Command::MergePatch(patch) => merge_patch(rt, options, patch),
        Command::Merge(merging) => merge(rt, options, merging),
        Command::Diff(comparing) => diff(rt, options, comparing),
        Command::Format(formatted) => format(rt, options, formatted),
        Command::Relayout(new) => relayout(rt, options, new),
        Command::Paths(which) => paths(rt, options, which),
        Command::FromPaths => from_paths(rt, options),
        Command::Tokens(pointer) => tokens(rt, pointer, options.layout.is_raw),
        Command::Escape(text) => escape(rt, text),
        Command::Unescape(token) => unescape(rt, token),
    }
}

/// Finds a value, or several.
fn get(rt: &HostRuntime, options: &Options<'_>, finding: &Finding<'_>) -> Result<u8, ProgramError> {
    let [first, more @ ..] = finding.pointers.as_slice() else {
        return Ok(USAGE);
    };
    check_last_word(rt, options.file, *first)?;
    let is_toml = options.format == FileFormat::Toml;
    if is_toml && !finding.is_json {
        return toml_file::get(rt, options, finding);
    }
    if is_toml || !more.is_empty() || finding.is_object {
        return get_several(rt, options, finding);
    }
    let task = get_task(rt.alloc(), *first, finding.default, options.is_lossy)?;
    run_task(rt, options, task)
}

/// Finds values, of a document or of each line.
fn get_several(
    rt: &HostRuntime,
    options: &Options<'_>,
    finding: &Finding<'_>,
) -> Result<u8, ProgramError> {
    match options.lines {
        Some(flags) if options.format != FileFormat::Toml => get_rows(rt, options, finding, flags),
        _ => get_each(rt, options, finding),
    }
}

/// Assigns a value, or several.
fn set(
    rt: &HostRuntime,
    options: &Options<'_>,
    assigning: &Assigning<'_>,
) -> Result<u8, ProgramError> {
    if options.format == FileFormat::Toml {
        return toml_file::set(rt, options, assigning);
    }
    match assigning.assignments.as_slice() {
        [only] if assigning.expands && !assigning.creates => {
            let edit = assignment_of(rt, options.file, *only)?;
            run_task(rt, options, Task::Edit(edit))
        }
        _ => set_each(rt, options, assigning),
    }
}

/// Deletes a value, or several.
fn delete(
    rt: &HostRuntime,
    options: &Options<'_>,
    deleting: &Deleting<'_>,
) -> Result<u8, ProgramError> {
    let [first, more @ ..] = deleting.pointers.as_slice() else {
        return Ok(USAGE);
    };
    check_last_word(rt, options.file, *first)?;
    if options.format == FileFormat::Toml {
        return toml_file::delete(rt, options, deleting);
    }
    if !more.is_empty() || deleting.skips_missing {
        return delete_each(rt, options, deleting);
    }
    let pointer = pointer_of(rt.alloc(), *first)?;
    run_task(rt, options, Task::Edit(Edit::Delete(pointer)))
}

/// Applies a patch document.
fn patch(
    rt: &HostRuntime,
    options: &Options<'_>,
    patching: Patching<'_>,
) -> Result<u8, ProgramError> {
    let alloc = rt.alloc();
    if is_standard(Some(patching.patch)) && is_standard(options.file) {
        let message = "standard input cannot be the patch and the document";
        return Err(ProgramError::new(alloc, USAGE, "PATCHFILE", message));
    }
    if is_toml_name(options.file) {
        return Err(ProgramError::new(
            alloc,
            USAGE,
            "patch",
            "takes JSON, not TOML: use set and delete",
        ));
    }
    let patch = PatchFile::read(rt, patching.patch)?;
    if let Some(undo) = patching.undo {
        return patch_with_inverse(rt, options, patch.into_raw(alloc)?, undo);
    }
    if is_long(&patch.patch.operations) && options.lines.is_none() {
        return patch_long(rt, options, patch, patching.is_check);
    }
    let task = Task::Edit(Edit::Patch(patch.into_raw(alloc)?));
    let style = style_of(alloc, options)?;
    if patching.is_check {
        return checked(alloc, &Document::open(rt, options)?, &task);
    }
    run_styled(rt, options, task, style)
}

/// Lays a document out anew, or says by the status whether it is laid out so.
fn format(
    rt: &HostRuntime,
    options: &Options<'_>,
    formatted: Formatted,
) -> Result<u8, ProgramError> {
    let alloc = rt.alloc();
    check_json(alloc, "format", options.file)?;
    let mut style = style_of(alloc, options)?;
    style.layout = format_layout(options, style.layout);
    let task = Task::Get(Pointer::root(), None);
    let is_compared = formatted == Formatted::Compared;
    if !is_compared && (options.format != FileFormat::Commented || options.lines.is_some()) {
        return run_styled(rt, options, task, style);
    }
    let source = Document::open(rt, options)?;
    source.check_bare(alloc)?;
    if is_compared {
        return compare_format(alloc, &source, &task, style);
    }
    on_source(rt, &source, &task, style)
}

/// Fails if the result of the task is another text than that of the document.
fn compare_format(
    alloc: Global,
    source: &Document<'_>,
    task: &Task<'_>,
    style: OutputStyle,
) -> Result<u8, ProgramError> {
    if source.is_its_text(source_result(alloc, source, task, style)?.as_str()) {
        return Ok(0);
    }
    let message = "not laid out as format prints it";
    Err(ProgramError::new(alloc, NO, source.name, message))
}

/// Returns how a document is laid out anew: on lines, if no flag says otherwise.
fn format_layout(options: &Options<'_>, layout: Layout) -> Layout {
    let is_flat = options.lines.is_some() || options.layout.is_compact;
    match layout {
        Layout::Kept => if is_flat {
            Layout::Compact
        } else {
            Layout::Pretty
        },
        Layout::Sorted => if is_flat {
            Layout::Sorted
        } else {
            Layout::SortedPretty
        },
        layout => layout,
    }
}

/// Prints the tokens of a pointer.
fn tokens(rt: &HostRuntime, pointer: &str, is_raw: bool) -> Result<u8, ProgramError> {
    let alloc = rt.alloc();
    let pointer = pointer_of(alloc, pointer)?;
    let texts = decoded_tokens(alloc, pointer)?;
    if is_raw {
        print_text(rt, raw_lines(alloc, texts.as_slice())?.as_str())?;
        Ok(0)
    } else {
        print_line(
            rt,
            show(alloc, &Value::Array(texts), Layout::Compact)?.as_str(),
        )
    }
}

/// Returns the tokens of the pointer, decoded.
fn decoded_tokens(alloc: Global, pointer: Pointer<'_>) -> Result<Vec<Value>, AllocError> {
    let mut texts = Vec::new(alloc);
    for token in pointer.tokens() {
        let text = token.decoded(alloc)?.into_owned(alloc)?;
        texts.push(Value::String(text))?;
    }
    Ok(texts)
}

/// Returns a line for each string, without quotes.
fn raw_lines(alloc: Global, texts: &[Value]) -> Result<String, AllocError> {
    let mut lines = String::new(alloc);
    for text in texts {
        lines.push_str(show(alloc, text, Layout::Raw)?.as_str())?;
        lines.push('\n')?;
    }
    Ok(lines)
}

/// Prints a text as a token.
fn escape(rt: &HostRuntime, text: &str) -> Result<u8, ProgramError> {
    let token = Token::new(rt.alloc(), CowStr::Borrowed(text))?;
    print_line(rt, token.encoded())
}

/// Prints the text of a token.
fn unescape(rt: &HostRuntime, text: &str) -> Result<u8, ProgramError> {
    let alloc = rt.alloc();
    match Token::from_encoded(CowStr::Borrowed(text)) {
        Ok(token) => {
            let decoded = token.decoded(alloc)?.into_owned(alloc)?;
            print_line(rt, decoded.as_str())
        }
        Err(error) => Err(ProgramError::of_token(alloc, text, error)),
    }
}
