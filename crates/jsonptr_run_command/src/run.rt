//! One run of the program.
ghost use Rattle.std.specs.Prelude.{◌≡◌, ◌≢◌, ◌⊎◌, ◌∷◌, [], Result, map, option_map, Some, Ok, Err, OnOk, OnErr, IfOk, IfErr, IsErrOf, alloc_error, string_bytes};
ghost use Rattle.std.specs.Io.KnownBytes.{Appends, IsAtEnd};
ghost use Rattle.serde_json.specs.Data.{string};
ghost use Rattle.serde_json.specs.View.{view};
ghost use Rattle.jsonptr.specs.Text.{text};
ghost use Rattle.jsonptr.specs.Index.{Reads};
ghost use Rattle.jsonptr.specs.Types.Index.TheVariants.{Num};
ghost use Rattle.jsonptr.specs.Pointer.{tokens};
ghost use Rattle.jsonptr_run_command.specs.JsonText.{json_of, IsJsonLine};
ghost use Rattle.jsonptr_io.specs.Streams.{AppendsPrefix, ForInput};
ghost use Rattle.jsonptr_run_command.specs.declared.fault.RunFault.{RunFault};
ghost use Rattle.jsonptr_run_command.specs.declared.fault.RunFault.TheVariants.{Memory};
ghost use Rattle.jsonptr_run_command.specs.Private.{request_of, asked_by, Changes, ComesBeforeDocument, IsFaultOf, IsLineOf, RefusesCommand, RefusesPosition};
ghost use Rattle.jsonptr_run_command.specs.Operations.{data_of};
ghost use Rattle.jsonptr_run_command.specs.Run.{AskFor, Asks, AssignsAt, DeletesAt, ForLine, ForRequest, HasValueOf, IsOperationFault, IsRunOutcome, IsPastInput, IsRefusedSo, IsRequestFault, IsWordsMemory, LeavesValue, NeedInput, NeedNoInput, NeedsInput, PatchesOrFails, Resolves, SplitsInTwo, resolving, texts_value};

use crate::fault::RunFault;
use crate::json_text::{json_line, read_json_input, read_value};
use crate::operations::read_operations;
use jsonptr::Pointer;
use jsonptr::index::Index;
use jsonptr_io::input::read_all;
use jsonptr_io::write::write_and_flush;
use jsonptr_patch::{Operation, apply};
use jsonptr_text_resolve::resolve_in_slice;
use jsonptr_value::discard;
use serde_json::Value;
use std::alloc::{AllocError, Global};
use std::io::{Read, Write};

/// What the words ask for, as far as it is known without the input.
#[derive(Debug, Drop)]
pub enum Request<'w> {
    /// Lists the tokens of the pointer, decoded.
    Tokens(Pointer<'w>),
    /// Splits the pointer at the position, in tokens.
    Split(Pointer<'w>, usize),
    /// Finds the value that the pointer resolves to, in the text of the input.
    Resolve(Pointer<'w>),
    /// Changes the document in the input.
    Change(Change<'w>),
}

/// A change of a document.
#[derive(Debug, Drop)]
pub enum Change<'w> {
    /// Assigns the value at the pointer.
    Assign(Pointer<'w>, Value),
    /// Deletes the value that the pointer resolves to.
    Delete(Pointer<'w>),
    /// Applies the operations in order.
    Patch(Vec<Operation>),
}

/// Runs the program: prints one line for the words, which are those after the program's own name.
///
/// The line has the value that the pointer resolves to, the tokens of the pointer, the two parts of
/// its text, or the document after an assignment, a deletion or a patch. A run has these stages,
/// and fails at the first one with an error:
///
/// 1. the words, and in them the position to split at;
/// 2. all pointers, from left to right;
/// 3. all values;
/// 4. the input, read to its end as one JSON text;
/// 5. the operation;
/// 6. the line.
///
/// A command that needs no input does not read it, and no command reads it after an error in its
/// words. A command that needs the input has read it to its end after `Ok`, and after an error of
/// the input's JSON, of the operation or of a write. Nothing is written before the whole line is
/// known.
///
/// `resolve` finds the value in the text of the input, and reads no document.
///
/// At the end the value that was printed is dropped, so that a process can run the program many
/// times. That takes time. [`run_program_into`] passes the value to its caller instead.
///
/// Beyond the 127 levels that a text can have, the stack that a run needs does not grow with the depth of
/// the document, except for a `test` of a patch.
///
/// # Errors
///
/// The error of the first stage that fails; [`RunFault::Memory`] at any stage if an allocation
/// fails.
pub fn run_program<R: Read, W: Write>(
    alloc: Global,
    words: &[String],
    input: &mut R,
    output: &mut W,
) -> Result<(), RunFault>
    ensures line { OnOk result (ForLine (map string_bytes words.now) (R.remaining input.old)
        (Appends (W.contents output.old) (W.contents output.new))) }
    ensures refused { IfErr result
        (IsRefusedSo (map string_bytes words.now) (R.remaining input.old)) }
    ensures prefix { IsErrOf result RunFault.Write
        → ForLine (map string_bytes words.now) (R.remaining input.old)
        (AppendsPrefix (W.contents output.old) (W.contents output.new)) }
    ensures output_unchanged { IfErr result (λ e. e ≢ RunFault.Write → output.new ≡ output.old) }
    ensures input_unchanged { NeedNoInput (map string_bytes words.now) → input.new ≡ input.old }
    ensures end { NeedInput (map string_bytes words.now)
        → IsPastInput result
        → IsAtEnd (R.remaining input.new) }
{
    let mut value = None;
    let outcome = run_program_into(alloc, words, input, output, &mut value);
    if let Some(value) = value {
        discard(value);
    }
    outcome
}

/// Runs the program as [`run_program`] does, and leaves the value that it printed in `value`.
///
/// After `Ok` of a command that needs the input, and after a failed write, `value` has that value:
/// the one that the pointer resolves to, or the document after the command. After an error of an
/// assignment, a deletion or a patch it has the document of the input, and after any other error it is
/// unchanged. After a failed allocation it is one of these. A command that needs no input leaves
/// `value` unchanged. What `value` had before is dropped.
///
/// A program that ends anyway can forget the value: dropping a document of some megabytes takes
/// about as long as parsing it, and the system frees its memory at once.
///
/// # Errors
///
/// Those of [`run_program`].
pub fn run_program_into<R: Read, W: Write>(
    alloc: Global,
    words: &[String],
    input: &mut R,
    output: &mut W,
    value: &mut Option<Value>,
) -> Result<(), RunFault>
    ensures line { OnOk result (ForLine (map string_bytes words.now) (R.remaining input.old)
        (Appends (W.contents output.old) (W.contents output.new))) }
    ensures refused { IfErr result
        (IsRefusedSo (map string_bytes words.now) (R.remaining input.old)) }
    ensures prefix { IsErrOf result RunFault.Write
        → ForLine (map string_bytes words.now) (R.remaining input.old)
        (AppendsPrefix (W.contents output.old) (W.contents output.new)) }
    ensures output_unchanged { IfErr result (λ e. e ≢ RunFault.Write → output.new ≡ output.old) }
    ensures input_unchanged { NeedNoInput (map string_bytes words.now) → input.new ≡ input.old }
    ensures end { NeedInput (map string_bytes words.now)
        → IsPastInput result
        → IsAtEnd (R.remaining input.new) }
    ensures value { NeedInput (map string_bytes words.now)
        → OnOk result (ForRequest (map string_bytes words.now)
        (λ request. ForInput (R.remaining input.old)
        (λ bytes. HasValueOf request bytes (option_map view value.new)))) }
    ensures value_written { IsErrOf result RunFault.Write
        → ForRequest (map string_bytes words.now)
        (λ request. NeedsInput request → ForInput (R.remaining input.old)
        (λ bytes. HasValueOf request bytes (option_map view value.new))) }
    ensures left { IfErr result (LeavesValue (R.remaining input.old)
        (λ bytes. ForRequest (map string_bytes words.now)
        (λ request. HasValueOf request bytes (option_map view value.new)))
        (option_map view value.old) (option_map view value.new)) }
    ensures unchanged { NeedNoInput (map string_bytes words.now) → value.new ≡ value.old }
{
    let request = read_request(alloc, words)?;
    let line = line_of(alloc, request, input, value)?;
    write_and_flush(output, line.as_bytes())?;
    Ok(())
}

/// Parses the words.
fn read_request(alloc: Global, words: &[String]) -> Result<Request<'_>, RunFault>
    ensures asked { IfOk result (λ r. Asks (map string_bytes words.now) (Ok (request_of r))) }
    ensures refused { IfErr result (λ e. Asks (map string_bytes words.now) (Err e)
        ⊎ IsWordsMemory (map string_bytes words.now) e) }
{
    let Some((command, rest)) = words.split_first() else {
        return Err(RunFault::Usage);
    };
    match command.as_str() {
        "patch" => {
            let patch = read_operations(alloc, rest)?;
            Ok(Request::Change(Change::Patch(patch)))
        }
        command => read_command(alloc, command, rest),
    }
}

/// Parses the words of a command other than `patch`. Each such command takes one pointer.
fn read_command<'w>(
    alloc: Global,
    command: &str,
    rest: &'w [String],
) -> Result<Request<'w>, RunFault>
    ensures asked { IfOk result
        (λ r. AskFor (command.now ∷ map string_bytes rest.now) (request_of r)) }
    ensures refused { IfErr result (RefusesCommand (command.now ∷ map string_bytes rest.now)) }
{
    match rest {
        [pointer] => read_two(command, pointer.as_str()),
        [pointer, third] => read_three(alloc, command, pointer.as_str(), third.as_str()),
        _ => Err(RunFault::Usage),
    }
}

/// Parses the words of a command that takes only a pointer.
fn read_two<'w>(command: &str, pointer: &'w str) -> Result<Request<'w>, RunFault>
    ensures asked { IfOk result (λ r. AskFor (command.now ∷ pointer.now ∷ []) (request_of r)) }
    ensures refused { IfErr result (RefusesCommand (command.now ∷ pointer.now ∷ [])) }
{
    match command {
        "resolve" => Ok(Request::Resolve(Pointer::parse(pointer)?)),
        "tokens" => Ok(Request::Tokens(Pointer::parse(pointer)?)),
        "delete" => Ok(Request::Change(Change::Delete(Pointer::parse(pointer)?))),
        _ => Err(RunFault::Usage),
    }
}

/// Parses the words of a command that takes a pointer and one more argument.
fn read_three<'w>(
    alloc: Global,
    command: &str,
    pointer: &'w str,
    third: &str,
) -> Result<Request<'w>, RunFault>
    ensures asked { IfOk result
        (λ r. AskFor (command.now ∷ pointer.now ∷ third.now ∷ []) (request_of r)) }
    ensures refused { IfErr result (RefusesCommand (command.now ∷ pointer.now ∷ third.now ∷ [])) }
{
    match command {
        "assign" => {
            let pointer = Pointer::parse(pointer)?;
            let value = read_value(alloc, third)?;
            Ok(Request::Change(Change::Assign(pointer, value)))
        }
        "split" => {
            let position = read_position(third)?;
            Ok(Request::Split(Pointer::parse(pointer)?, position))
        }
        _ => Err(RunFault::Usage),
    }
}

/// Parses the position to split at, which must be a decimal number.
fn read_position(word: &str) -> Result<usize, RunFault>
    ensures position { IfOk result (λ n. Reads word.now (Ok (Num n))) }
    ensures refused { IfErr result (RefusesPosition word.now) }
{
    match word.parse() {
        Ok(Index::Num(position)) => Ok(position),
        Ok(Index::Next) => Err(RunFault::Usage),
        Err(_) => Err(RunFault::Usage),
    }
}

/// Returns the line for a request, and leaves the value of the line in `value`. Reads the input only
/// if the request needs it, and finds the value of a pointer in its text.
fn line_of<R: Read>(
    alloc: Global,
    request: Request<'_>,
    input: &mut R,
    value: &mut Option<Value>,
) -> Result<String, RunFault>
    ensures line { IfOk result (λ line. ForInput (R.remaining input.old)
        (λ bytes. IsLineOf (IsRunOutcome (request_of request.entry) bytes) (string_bytes line))) }
    ensures refused { IfErr result
        (IsRequestFault (request_of request.entry) (R.remaining input.old)) }
    ensures input_unchanged { (NeedsInput (request_of request.entry) → ⊥) → input.new ≡ input.old }
    ensures end { NeedsInput (request_of request.entry)
        → IsPastInput result
        → IsAtEnd (R.remaining input.new) }
    ensures value { NeedsInput (request_of request.entry)
        → OnOk result (ForInput (R.remaining input.old)
        (λ bytes. HasValueOf (request_of request.entry) bytes (option_map view value.new))) }
    ensures left { IfErr result (LeavesValue (R.remaining input.old)
        (λ bytes. HasValueOf (request_of request.entry) bytes (option_map view value.new))
        (option_map view value.old) (option_map view value.new)) }
    ensures unchanged { (NeedsInput (request_of request.entry) → ⊥) → value.new ≡ value.old }
{
    match request {
        Request::Tokens(pointer) => Ok(tokens_line(alloc, pointer)?),
        Request::Split(pointer, position) => split_line(alloc, pointer, position),
        Request::Resolve(pointer) => found_line(alloc, pointer, input, value),
        Request::Change(change) => document_line(alloc, change, input, value),
    }
}

/// Reads the input, and returns the line of the value that the pointer resolves to in its text.
/// Leaves that value in `value`.
fn found_line<R: Read>(
    alloc: Global,
    pointer: Pointer<'_>,
    input: &mut R,
    value: &mut Option<Value>,
) -> Result<String, RunFault>
    ensures line { IfOk result (λ line. ForInput (R.remaining input.old)
        (λ bytes. IsLineOf (IsRunOutcome (resolving (tokens pointer.entry)) bytes) (string_bytes line))) }
    ensures refused { IfErr result
        (IsRequestFault (resolving (tokens pointer.entry)) (R.remaining input.old)) }
    ensures end { IsPastInput result → IsAtEnd (R.remaining input.new) }
    ensures value { OnOk result (ForInput (R.remaining input.old)
        (λ bytes. HasValueOf (resolving (tokens pointer.entry)) bytes (option_map view value.new))) }
    ensures unchanged { OnErr result (value.new ≡ value.old) }
{
    let bytes = read_all(alloc, input)?;
    line_in_bytes(alloc, &bytes, pointer, value)
}

/// Returns the line of the value that the pointer resolves to in the bytes of a JSON text. Leaves
/// that value in `value`.
fn line_in_bytes(
    alloc: Global,
    bytes: &[u8],
    pointer: Pointer<'_>,
    value: &mut Option<Value>,
) -> Result<String, RunFault>
    ensures line { IfOk result (λ line.
        IsLineOf (IsRunOutcome (resolving (tokens pointer.entry)) bytes.now) (string_bytes line)) }
    ensures refused { IfErr result (IsFaultOf (IsRunOutcome (resolving (tokens pointer.entry)) bytes.now)) }
    ensures value { OnOk result
        (HasValueOf (resolving (tokens pointer.entry)) bytes.now (option_map view value.new)) }
    ensures unchanged { OnErr result (value.new ≡ value.old) }
{
    let found = resolve_in_slice(alloc, bytes, pointer)?;
    let line = json_line(alloc, &found)?;
    *value = Some(found);
    Ok(line)
}

/// Reads the input, changes its document, and returns the line of the document. Leaves the document
/// in `value`.
fn document_line<R: Read>(
    alloc: Global,
    change: Change<'_>,
    input: &mut R,
    value: &mut Option<Value>,
) -> Result<String, RunFault>
    ensures line { IfOk result (λ line. ForInput (R.remaining input.old)
        (λ bytes. IsLineOf (IsRunOutcome (asked_by change.entry) bytes) (string_bytes line))) }
    ensures refused { IfErr result (IsRequestFault (asked_by change.entry) (R.remaining input.old)) }
    ensures end { IsPastInput result → IsAtEnd (R.remaining input.new) }
    ensures value { OnOk result (ForInput (R.remaining input.old)
        (λ bytes. HasValueOf (asked_by change.entry) bytes (option_map view value.new))) }
    ensures document { IfErr result (λ e. IsOperationFault e → ForInput (R.remaining input.old)
        (λ bytes. option_map view value.new ≡ json_of bytes)) }
    ensures unchanged { IfErr result (λ e. ComesBeforeDocument e → value.new ≡ value.old) }
    ensures left { IfErr result (λ e. e ≡ Memory alloc_error → (value.new ≡ value.old)
        ⊎ ForInput (R.remaining input.old)
        (λ bytes. (option_map view value.new ≡ json_of bytes)
        ⊎ HasValueOf (asked_by change.entry) bytes (option_map view value.new))) }
{
    let mut document = read_json_input(alloc, input)?;
    let line = changed_line(alloc, &mut document, change);
    *value = Some(document);
    line
}

/// Changes the document, and returns its line.
fn changed_line(alloc: Global, document: &mut Value, change: Change<'_>) -> Result<String, RunFault>
    ensures line { IfOk result
        (λ line. IsLineOf (Changes change.entry (view document.old)) (string_bytes line)) }
    ensures refused { IfErr result (IsFaultOf (Changes change.entry (view document.old))) }
    ensures changed { OnOk result
        (Changes change.entry (view document.old) (Ok (view document.new))) }
    ensures either { (view document.new ≡ view document.old)
        ⊎ Changes change.entry (view document.old) (Ok (view document.new)) }
    ensures unchanged { IfErr result
        (λ e. IsOperationFault e → view document.new ≡ view document.old) }
{
    match change {
        Change::Assign(pointer, value) => line_with(alloc, document, pointer, value),
        Change::Delete(pointer) => line_without(alloc, document, pointer),
        Change::Patch(patch) => line_after(alloc, document, patch),
    }
}

/// Assigns `value` in the document, and returns the line of the document.
fn line_with(
    alloc: Global,
    document: &mut Value,
    pointer: Pointer<'_>,
    value: Value,
) -> Result<String, RunFault>
    ensures line { IfOk result (λ line.
        IsLineOf (AssignsAt (view document.old) (tokens pointer.entry) (view value))
        (string_bytes line)) }
    ensures refused { IfErr result
        (IsFaultOf (AssignsAt (view document.old) (tokens pointer.entry) (view value))) }
    ensures changed { OnOk result
        (AssignsAt (view document.old) (tokens pointer.entry) (view value) (Ok (view document.new))) }
    ensures either { (view document.new ≡ view document.old)
        ⊎ AssignsAt (view document.old) (tokens pointer.entry) (view value) (Ok (view document.new)) }
    ensures unchanged { IfErr result
        (λ e. IsOperationFault e → view document.new ≡ view document.old) }
{
    pointer.assign(alloc, document, value)?;
    Ok(json_line(alloc, document)?)
}

/// Deletes a value of the document, and returns the line of the document.
fn line_without(
    alloc: Global,
    document: &mut Value,
    pointer: Pointer<'_>,
) -> Result<String, RunFault>
    ensures line { IfOk result (λ line.
        IsLineOf (DeletesAt (view document.old) (tokens pointer.entry)) (string_bytes line)) }
    ensures refused { IfErr result (IsFaultOf (DeletesAt (view document.old) (tokens pointer.entry))) }
    ensures changed { OnOk result
        (DeletesAt (view document.old) (tokens pointer.entry) (Ok (view document.new))) }
    ensures either { (view document.new ≡ view document.old)
        ⊎ DeletesAt (view document.old) (tokens pointer.entry) (Ok (view document.new)) }
    ensures unchanged { IfErr result
        (λ e. IsOperationFault e → view document.new ≡ view document.old) }
{
    if pointer.delete(alloc, document)?.is_none() {
        return Err(RunFault::NotThere);
    }
    Ok(json_line(alloc, document)?)
}

/// Applies the patch to the document, and returns the line of the document.
fn line_after(
    alloc: Global,
    document: &mut Value,
    patch: Vec<Operation>,
) -> Result<String, RunFault>
    ensures line { IfOk result (λ line.
        IsLineOf (PatchesOrFails (view document.old) (map data_of patch.items)) (string_bytes line)) }
    ensures refused { IfErr result
        (IsFaultOf (PatchesOrFails (view document.old) (map data_of patch.items))) }
    ensures changed { OnOk result
        (PatchesOrFails (view document.old) (map data_of patch.items) (Ok (view document.new))) }
    ensures either { (view document.new ≡ view document.old)
        ⊎ PatchesOrFails (view document.old) (map data_of patch.items) (Ok (view document.new)) }
    ensures unchanged { IfErr result
        (λ e. IsOperationFault e → view document.new ≡ view document.old) }
{
    apply(alloc, document, patch)?;
    Ok(json_line(alloc, document)?)
}

/// Returns the line of the two parts of the pointer's text, as a JSON array. The first part has
/// `position` tokens.
fn split_line(alloc: Global, pointer: Pointer<'_>, position: usize) -> Result<String, RunFault>
    ensures line { IfOk result
        (λ line. IsLineOf (SplitsInTwo (tokens pointer.entry) position) (string_bytes line)) }
    ensures refused { IfErr result (IsFaultOf (SplitsInTwo (tokens pointer.entry) position)) }
{
    let Some((front, rest)) = pointer.split_at(position) else {
        let count = pointer.count();
        return Err(RunFault::BadSplit { position, count });
    };
    Ok(texts_line(alloc, front, rest)?)
}

/// Returns the line of the texts of two pointers, as a JSON array.
fn texts_line(alloc: Global, front: Pointer<'_>, rest: Pointer<'_>) -> Result<String, AllocError>
    ensures { IfOk result (λ line. IsJsonLine
        (texts_value (text (tokens front.entry) ∷ text (tokens rest.entry) ∷ []))
        (string_bytes line)) }
{
    let mut parts = Vec::new(alloc);
    parts.push(front.to_json_value(alloc)?)?;
    parts.push(rest.to_json_value(alloc)?)?;
    json_line(alloc, &Value::Array(parts))
}

/// Returns the line of the pointer's decoded tokens, as a JSON array.
fn tokens_line(alloc: Global, pointer: Pointer<'_>) -> Result<String, AllocError>
    ensures { IfOk result
        (λ line. IsJsonLine (texts_value (tokens pointer.entry)) (string_bytes line)) }
{
    let texts = token_texts(alloc, pointer)?;
    json_line(alloc, &Value::Array(texts))
}

/// Returns the pointer's decoded tokens as JSON strings.
fn token_texts(alloc: Global, pointer: Pointer<'_>) -> Result<Vec<Value>, AllocError>
    ensures { IfOk result (λ v. map view v.items ≡ map string (tokens pointer.entry)) }
{
    let mut texts = Vec::new(alloc);
    for token in pointer.tokens() {
        let text = token.decoded(alloc)?.into_owned(alloc)?;
        texts.push(Value::String(text))?;
    }
    Ok(texts)
}
