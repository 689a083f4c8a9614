//! The commands `merge-patch` (RFC 7396) and `merge`, which merges two changed copies of a document.

use crate::changes::{shown_pointer, shown_value};
use crate::digits::check_text;
use crate::document::{Document, FileFormat};
use crate::exact_difference::check_merge_patch;
use crate::input::is_standard;
use crate::invocation::{MergeSide, Merging, Options};
use crate::operands::check_json;
use crate::program_error::ProgramError;
use crate::style::style_of;
use crate::task::on_source;
use jptr_tasks::exit_status::{BAD_INPUT, NO, NOT_MADE, USAGE};
use jptr_tasks::merge::{MergeEdit, merge_edit, merge_patch_edit};
use jptr_tasks::task::Task;
use jsonptr::assign::Assign;
use jsonptr::delete::Delete;
use jsonptr::{Fault, Pointer};
use jsonptr_merge::{Conflict, TooDeep};
use jsonptr_text_edit::{Edit, PatchText};
use jsonptr_value::copy;
use serde_json::Value;
use std::alloc::{AllocError, Global};

/// What is shown for a member that does not exist.
const NOTHING: &str = "(none)";

/// Applies a merge patch to the document, in its text.
pub fn merge_patch(
    rt: &HostRuntime,
    options: &Options<'_>,
    patch: &str,
) -> Result<u8, ProgramError> {
    let alloc = rt.alloc();
    check_json(alloc, "merge-patch", options.file)?;
    if is_standard(Some(patch)) && is_standard(options.file) {
        let message = "standard input cannot be the merge patch and the document";
        return Err(ProgramError::new(alloc, USAGE, "PATCHFILE", message));
    }
    let patch = Document::read(rt, Some(patch))?;
    let source = Document::open(rt, options)?;
    let changes = patch.value(alloc)?;
    check_digits(alloc, options, &patch)?;
    let document = source.value(alloc)?;
    let edit = match merge_patch_edit(alloc, &document, &changes, patch.text(alloc)?) {
        Ok(edit) => edit,
        Err(error) => return Err(too_deep(alloc, patch.name, error)),
    };
    if !options.is_lossy {
        let made = edit.document.to_string(alloc)?;
        check_merge_patch(alloc, &source, &changes, made.as_str())?;
    }
    put(rt, options, &source, edit)
}

/// Merges two changed copies of a document, in the text of the first one.
pub fn merge(
    rt: &HostRuntime,
    options: &Options<'_>,
    merging: Merging<'_>,
) -> Result<u8, ProgramError> {
    let alloc = rt.alloc();
    check_inputs(alloc, options, merging)?;
    let ours = Document::open(rt, options)?;
    let base = read_base(rt, options, merging.base)?;
    let theirs = read_side(rt, options, merging.theirs)?;
    let mut sides = Sides {
        base: base.value(alloc)?,
        ours: ours.value(alloc)?,
        theirs: theirs.value(alloc)?,
    };
    check_digits(alloc, options, &base)?;
    check_digits(alloc, options, &ours)?;
    check_digits(alloc, options, &theirs)?;
    let text = theirs.text(alloc)?;
    let mut made = edit_of(alloc, &sides, ours.name, text)?;
    if let (MergeEdit::Conflicts(conflicts), Some(side)) = (&made, merging.side) {
        decide(alloc, &mut sides.base, conflicts.as_slice(), side)?;
        made = edit_of(alloc, &sides, ours.name, text)?;
    }
    match made {
        MergeEdit::Patch(edit) => put(rt, options, &ours, edit),
        MergeEdit::Conflicts(conflicts) => Err(conflict_error(
            alloc,
            ours.name,
            conflicts.as_slice(),
        )),
    }
}

/// The values of the three documents of a merge.
#[derive(Drop)]
struct Sides {
    /// The document that both copies were made of.
    base: Value,
    /// The first copy.
    ours: Value,
    /// The second copy.
    theirs: Value,
}

/// Fails if a document is TOML by its name, or if standard input would be two of them.
fn check_inputs(
    alloc: Global,
    options: &Options<'_>,
    merging: Merging<'_>,
) -> Result<(), ProgramError> {
    let mut standard: usize = 0;
    for file in [Some(merging.base), options.file, Some(merging.theirs)] {
        check_json(alloc, "merge", file)?;
        if is_standard(file) {
            standard = standard.saturating_add(1);
        }
    }
    if standard > 1 {
        let message = "standard input cannot be two of the documents";
        return Err(ProgramError::new(alloc, USAGE, "merge", message));
    }
    Ok(())
}

/// Reads the base. An empty one counts as an object without members: git has such a base of a file that both
/// branches add.
fn read_base<'a>(
    rt: &HostRuntime,
    options: &Options<'_>,
    file: &'a str,
) -> Result<Document<'a>, ProgramError> {
    let base = read_side(rt, options, file)?;
    if !base.as_bytes().trim_ascii().is_empty() {
        return Ok(base);
    }
    let mut bytes = Vec::new(rt.alloc());
    bytes.extend_from_slice(b"{}")?;
    Document::of(rt.alloc(), base.name, FileFormat::Json, bytes)
}

/// Reads the base, or the second copy.
fn read_side<'a>(
    rt: &HostRuntime,
    options: &Options<'_>,
    file: &'a str,
) -> Result<Document<'a>, ProgramError> {
    let format = FileFormat::of(options.format_flag, Some(file));
    Document::read_as(rt, format, Some(file))
}

/// Fails if a number of the document loses digits as it is read, unless it may.
fn check_digits(
    alloc: Global,
    options: &Options<'_>,
    document: &Document<'_>,
) -> Result<(), ProgramError> {
    if options.is_lossy {
        return Ok(());
    }
    check_text(alloc, document.name, document.text(alloc)?)
}

/// Returns the edit of the first copy that merges the second one, whose text this is.
fn edit_of(
    alloc: Global,
    sides: &Sides,
    name: &str,
    text: &str,
) -> Result<MergeEdit, ProgramError> {
    match merge_edit(alloc, &sides.base, &sides.ours, &sides.theirs, text) {
        Ok(made) => Ok(made),
        Err(error) => Err(too_deep(alloc, name, error)),
    }
}

/// Returns the error of documents that are not merged.
fn too_deep(alloc: Global, name: &str, error: Fault<TooDeep>) -> ProgramError {
    match error {
        Fault::Refused(error) => {
            ProgramError::of_message(alloc, BAD_INPUT, name, error.to_string(alloc))
        }
        Fault::Memory(_) => ProgramError::Memory,
    }
}

/// Decides the conflicts for this side: gives the base what the other one has there, so that only this side has
/// changed it.
fn decide(
    alloc: Global,
    base: &mut Value,
    conflicts: &[Conflict],
    side: MergeSide,
) -> Result<(), ProgramError> {
    for conflict in conflicts {
        let other = match side {
            MergeSide::Ours => &conflict.theirs,
            MergeSide::Theirs => &conflict.ours,
        };
        put_at(alloc, base, conflict, other)?;
    }
    Ok(())
}

/// Puts a copy of the value at the path of the conflict, or deletes what is there.
fn put_at(
    alloc: Global,
    base: &mut Value,
    conflict: &Conflict,
    value: &Option<Value>,
) -> Result<(), ProgramError> {
    let path = conflict.path.as_ptr();
    match value {
        Some(value) => {
            let value = copy(alloc, value)?;
            assign_at(alloc, base, path, value)
        }
        None => {
            let _old = base.delete(alloc, path)?;
            Ok(())
        }
    }
}

/// Assigns the value at the path of a conflict, to which objects lead.
fn assign_at(
    alloc: Global,
    base: &mut Value,
    path: Pointer<'_>,
    value: Value,
) -> Result<(), ProgramError> {
    match base.assign(alloc, path, value) {
        Ok(_old) => Ok(()),
        Err(Fault::Memory(_error)) => Err(ProgramError::Memory),
        Err(Fault::Refused(error)) => Err(ProgramError::of_message(
            alloc,
            NOT_MADE,
            "merge",
            error.to_string(alloc),
        )),
    }
}

/// Prints the document after the patch, or replaces the text of the file by it.
fn put(
    rt: &HostRuntime,
    options: &Options<'_>,
    source: &Document<'_>,
    edit: PatchText,
) -> Result<u8, ProgramError> {
    let style = style_of(rt.alloc(), options)?;
    on_source(rt, source, &Task::Edit(Edit::Patch(edit)), style)
}

/// Returns the error of a merge with these conflicts, which are shown.
fn conflict_error(alloc: Global, name: &str, conflicts: &[Conflict]) -> ProgramError {
    let message = match conflicts.len() {
        1 => format!(in alloc; "1 conflict: --ours and --theirs decide it"),
        count => format!(in alloc; "{count} conflicts: --ours and --theirs decide them"),
    };
    let error = ProgramError::of_message(alloc, NO, name, message);
    match drawn_conflicts(alloc, conflicts) {
        Ok(lines) => error.with_drawing(Ok(Some(lines))),
        Err(_) => ProgramError::Memory,
    }
}

/// Returns four lines for each conflict: its path, and the three values.
fn drawn_conflicts(alloc: Global, conflicts: &[Conflict]) -> Result<String, AllocError> {
    let mut lines = String::new(alloc);
    for conflict in conflicts {
        let path = shown_pointer(alloc, &conflict.path)?;
        let base = shown_side(alloc, &conflict.base)?;
        let ours = shown_side(alloc, &conflict.ours)?;
        let theirs = shown_side(alloc, &conflict.theirs)?;
        let drawn = format!(in alloc;
            "{path}\n  base    {base}\n  ours    {ours}\n  theirs  {theirs}"
        )?;
        if !lines.is_empty() {
            lines.push('\n')?;
        }
        lines.push_str(drawn.as_str())?;
    }
    Ok(lines)
}

/// Returns how the value of one side is shown.
fn shown_side(alloc: Global, side: &Option<Value>) -> Result<String, AllocError> {
    match side {
        Some(value) => shown_value(alloc, value),
        None => String::from_str(alloc, NOTHING),
    }
}
