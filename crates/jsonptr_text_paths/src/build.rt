//! The JSON document that lines build.
ghost use Rattle.std.specs.Prelude.{◌≡◌, ◌≢◌, ◌<◌, ◌≤◌, ◌↔◌, [], All, IsTrue, MatchOption, Some, None, IfOk, IfErr, string_bytes};
ghost use Rattle.serde_json.specs.Data.{string, depth};
ghost use Rattle.serde_json.specs.Read.{read, max_depth};
ghost use Rattle.serde_json.specs.View.{view};
ghost use Rattle.jsonptr.specs.Fault.{IfRefused};
ghost use Rattle.jsonptr.specs.Json.{nodes, HasSortedKeys};
ghost use Rattle.jsonptr.specs.Pointer.{tokens};
ghost use Rattle.jsonptr.specs.Text.{Text, text};
ghost use Rattle.jsonptr.specs.Grammar.{IsPointer};
ghost use Rattle.jsonptr_text_paths.specs.Building.{CutsAt, ReadsField, FitsDepth, AssignsLine, Builds, IsLineError, StopsBuilding};
ghost use Rattle.jsonptr_value.specs.Nesting.{NestsWithin};
ghost use Rattle.jsonptr_text_paths.specs.PrivateBuilding.{IsFirstLine, of_line};
ghost use Rattle.jsonptr_text_paths.specs.declared.build.LineError.TheVariants.{NotPointer, NotJson};

use jsonptr::{Fault, Pointer, PointerBuf, assign};
use jsonptr_io::laws::lines_law;
use jsonptr_value::{MAX_DEPTH, ReadError, depth_law, if_json, nests_within};
use serde_json::Value;
use std::alloc::{AllocError, Global};
use thiserror::Error;

/// Why a line adds no value to a document. Its text is one line.
#[derive(Debug, Drop, Error)]
pub enum LineError {
    /// The line has no tab.
    #[error("no tab after the pointer")]
    NoTab,
    /// What is before the tab is neither a pointer nor a JSON string of one.
    #[error("not a pointer")]
    NotPointer,
    /// What is after the tab is not a JSON text.
    #[error("not JSON after the tab")]
    NotJson,
    /// The tokens of the pointer and the levels of the value are more than 127 together. The document
    /// would nest deeper than that.
    #[error("document would nest deeper than {}", MAX_DEPTH)]
    TooDeep,
    /// No value can be assigned at the pointer.
    #[error(transparent)]
    Assign(assign::Error),
}

/// Why lines build no document. Its text is one line.
#[derive(Debug, Drop, Error)]
pub enum BuildError {
    /// The line with this number, from 1, adds no value.
    #[error("line {0}: {1}")]
    Line(usize, LineError),
    /// An allocation failed.
    #[error("out of memory")]
    Memory(AllocError),
}

/// Returns the document that the lines build: the value of each line is assigned at its pointer, in
/// order, and the document is `null` at first.
///
/// A line is a pointer or a JSON string of one, a tab, and a JSON text. What is missing on the way to
/// a value is created, as `assign` does: `0` and `-` create an array, and every other
/// token an object. The lines of [`Listed::AllNodes`](crate::listing::Listed) name the kind of each
/// container before what is in it, so no kind has to be guessed. They build the document that they
/// list again ([`round_trip_law`](crate::laws::round_trip_law)). A text without lines is `null`.
///
/// The members of each object are in the order of their keys.
///
/// # Errors
///
/// - [`BuildError::Line`] with the number of the first line that adds no value, and the first of its
///   faults in the order of [`LineError`]. No line makes the document nest deeper than 127, so its
///   text can be read.
/// - [`BuildError::Memory`] if an allocation fails.
///
/// # Examples
///
/// ```rust
/// let document = build(alloc, "\t{}\n/a\t[]\n/a/0\t1\n/0\ttrue\n")?;
/// assert_eq!(rt; document.to_string(alloc)?.as_str(), r#"{"0":true,"a":[1]}"#);
/// let guessed = build(alloc, "/0\ttrue\n")?;
/// assert_eq!(rt; guessed.to_string(alloc)?.as_str(), "[true]");
/// let error = build(alloc, "/a\t1\nb\t2\n").err().ok_or("an error")?;
/// assert_eq!(rt; error.to_string(alloc)?.as_str(), "line 2: not a pointer");
/// ```
pub fn build(alloc: Global, text: &str) -> Result<Value, BuildError>
    ensures built { IfOk result (λ v. Builds text.now (nodes (view v))) }
    ensures sorted { IfOk result (λ v. HasSortedKeys (view v)) }
    ensures readable { IfOk result (λ v. depth (view v) ≤ max_depth) }
    ensures refused { IfErr result (StopsBuilding text.now) }
{
    depth_law();
    lines_law();
    let mut document = Value::Null;
    let mut rest = text;
    let mut number = 0;
    while !rest.is_empty() {
        let (line, later) = first_line(rest);
        number += 1;
        match assign_line(alloc, &mut document, line) {
            Ok(()) => rest = later,
            Err(fault) => return Err(at_line(number, fault)),
        }
    }
    Ok(document)
}

/// Returns the error of the line with this number.
fn at_line(number: usize, fault: Fault<LineError>) -> BuildError
    ensures { result ≡ of_line number fault }
{
    match fault {
        Fault::Refused(error) => BuildError::Line(number, error),
        Fault::Memory(error) => BuildError::Memory(error),
    }
}

/// Returns the first line, and what is after it.
fn first_line<'a>(text: &'a str) -> (&'a str, &'a str)
    ensures { IsFirstLine text.now result.0.now result.1.now }
{
    match cut(text, '\n') {
        Some(parts) => parts,
        None => (text, ""),
    }
}

/// Returns what is before and after the first character `at`, which is ASCII.
fn cut<'a>(text: &'a str, at: char) -> Option<(&'a str, &'a str)>
    requires { at < 128 }
    ensures { MatchOption result (All (λ b. b ≢ at) text.now)
        (λ parts. CutsAt at text.now parts.0.now parts.1.now) }
{
    text.split_once(at)
}

/// Assigns the value of the line at its pointer.
fn assign_line(alloc: Global, document: &mut Value, line: &str) -> Result<(), Fault<LineError>>
    ensures assigned { IfOk result (λ _. AssignsLine (nodes (view document.old)) line.now
        (nodes (view document.new))) }
    ensures sorted { IfOk result (λ _. HasSortedKeys (view document.old)
        → HasSortedKeys (view document.new)) }
    ensures readable { IfOk result (λ _. NestsWithin max_depth (nodes (view document.old))
        → NestsWithin max_depth (nodes (view document.new))) }
    ensures refused { IfRefused result (IsLineError (nodes (view document.old)) line.now) }
{
    let Some((field, json)) = cut(line, '\t') else {
        return Err(Fault::Refused(LineError::NoTab));
    };
    let pointer = pointer_of(alloc, field)?;
    let value = value_of(alloc, json)?;
    if !fits(pointer.as_ptr(), &value) {
        return Err(Fault::Refused(LineError::TooDeep));
    }
    match pointer.as_ptr().assign(alloc, document, value) {
        Ok(_) => Ok(()),
        Err(Fault::Refused(error)) => Err(Fault::Refused(LineError::Assign(error))),
        Err(Fault::Memory(error)) => Err(Fault::Memory(error)),
    }
}

/// Returns whether the tokens of the pointer and the levels of the value are at most 127 together.
fn fits(pointer: Pointer<'_>, value: &Value) -> bool
    ensures { IsTrue result ↔ FitsDepth (tokens pointer.entry) (view value.now) }
{
    let count = pointer.count();
    count <= MAX_DEPTH && nests_within(value, MAX_DEPTH - count)
}

/// Reads a pointer, or a JSON string of one.
fn pointer_of(alloc: Global, field: &str) -> Result<PointerBuf, Fault<LineError>>
    ensures pointer { IfOk result (ReadsField field.now) }
    ensures refused { IfRefused result
        (λ e. (e ≡ NotPointer) × ((ts : _) → ReadsField field.now ts → ⊥)) }
{
    match plain_pointer(alloc, field)? {
        Some(pointer) => Ok(pointer),
        None => match quoted_pointer(alloc, field)? {
            Some(pointer) => Ok(pointer),
            None => Err(Fault::Refused(LineError::NotPointer)),
        },
    }
}

/// Reads a pointer.
fn plain_pointer(alloc: Global, field: &str) -> Result<Option<PointerBuf>, AllocError>
    ensures { IfOk result (λ found. MatchOption found (IsPointer field.now → ⊥)
        (λ ts. text ts ≡ field.now)) }
{
    match Pointer::parse(field) {
        Ok(pointer) => Ok(Some(pointer.to_buf(alloc)?)),
        Err(_) => Ok(None),
    }
}

/// Reads a JSON string of a pointer.
fn quoted_pointer(alloc: Global, field: &str) -> Result<Option<PointerBuf>, AllocError>
    ensures { IfOk result (λ found. MatchOption found
        ((t : Text) → read field.now ≡ Some (string t) → IsPointer t → ⊥)
        (λ ts. read field.now ≡ Some (string (text ts)))) }
{
    let Some(value) = if_json(jsonptr_value::read(alloc, field))? else {
        return Ok(None);
    };
    match value.as_str() {
        Some(text) => plain_pointer(alloc, text),
        None => Ok(None),
    }
}

/// Reads a JSON text.
fn value_of(alloc: Global, json: &str) -> Result<Value, Fault<LineError>>
    ensures value { IfOk result (λ v. read json.now ≡ Some (view v)) }
    ensures sorted { IfOk result (λ v. HasSortedKeys (view v)) }
    ensures refused { IfRefused result (λ e. (e ≡ NotJson) × (read json.now ≡ None)) }
{
    match jsonptr_value::read(alloc, json) {
        Ok(value) => Ok(value),
        Err(ReadError::NotJson) => Err(Fault::Refused(LineError::NotJson)),
        Err(ReadError::Memory(error)) => Err(Fault::Memory(error)),
    }
}
