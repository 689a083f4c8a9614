//! The operations of a patch, from the words of the command line.
ghost use Rattle.std.specs.Prelude.{◌≡◌, ◌⊎◌, ◌∷◌, [], All, List, IfOk, IfErr, map, option_map, string_bytes, alloc_error};
ghost use Rattle.jsonptr.specs.Grammar.{IsPointer};
ghost use Rattle.jsonptr.specs.Text.{text};
ghost use Rattle.jsonptr_run_command.specs.Operations as specs;
ghost use Rattle.jsonptr_run_command.specs.Operations.{AreOperationsOf, IsOperationOf, data_of, words_of, pointers_of, values_of, operation_pointers, operation_values};
ghost use Rattle.jsonptr_run_command.specs.PrivateOperations.{texts_of, with_two, cut_of, IsFirstFault, RefusesWords, RefusesOneOf, RefusesOperations};
ghost use Rattle.jsonptr_run_command.specs.declared.fault.RunFault.TheVariants.{Memory};

use crate::fault::RunFault;
use crate::json_text::read_value;
use jsonptr::{ParseError, Pointer, PointerBuf};
use jsonptr_patch::Operation;
use std::alloc::{AllocError, Global};

/// An operation as words: the texts of its pointers, and the JSON text of its value.
#[derive(Debug, Drop)]
pub enum OperationWords<'w> {
    /// `add POINTER VALUE`.
    Add(&'w str, &'w str),
    /// `remove POINTER`.
    Remove(&'w str),
    /// `replace POINTER VALUE`.
    Replace(&'w str, &'w str),
    /// `move FROM POINTER`.
    Move(&'w str, &'w str),
    /// `copy FROM POINTER`.
    Copy(&'w str, &'w str),
    /// `test POINTER VALUE`.
    Test(&'w str, &'w str),
}

/// Parses the words as operations. Each operation takes exactly as many words as it has arguments,
/// after its name.
///
/// # Errors
///
/// In this order:
///
/// - [`RunFault::Usage`] if the words are not operations;
/// - [`RunFault::BadPointer`] for the first pointer that is not valid;
/// - [`RunFault::ValueNotJson`] if a value is not a JSON text.
///
/// [`RunFault::Memory`] if an allocation fails.
pub fn read_operations(alloc: Global, words: &[String]) -> Result<Vec<Operation>, RunFault>
    ensures operations { IfOk result (λ patch. (operations : List specs.OperationWords)
        × (map string_bytes words.now ≡ words_of operations)
        × AreOperationsOf operations (map data_of patch.items)) }
    ensures refused { IfErr result (RefusesOperations (map string_bytes words.now)) }
{
    let operations = split_words(alloc, words)?;
    check_pointers(&operations)?;
    to_operations(alloc, operations)
}

/// Splits the words into operations.
///
/// # Errors
///
/// [`RunFault::Usage`] if the words are not operations, and [`RunFault::Memory`] if an allocation
/// fails.
fn split_words(alloc: Global, words: &[String]) -> Result<Vec<OperationWords<'_>>, RunFault>
    ensures operations { IfOk result
        (λ operations. map string_bytes words.now ≡ words_of (map texts_of operations.items)) }
    ensures refused { IfErr result
        (λ e. RefusesWords (map string_bytes words.now) e ⊎ (e ≡ Memory alloc_error)) }
{
    let mut operations = Vec::new(alloc);
    let mut rest = words;
    while !rest.is_empty() {
        let Some((operation, left)) = cut(rest) else {
            return Err(RunFault::Usage);
        };
        operations.push(operation).map_err(AllocError::from)?;
        rest = left;
    }
    Ok(operations)
}

/// Returns the first operation of the words, and the words after it. Returns `None` if the words do
/// not begin with a known operation, or are too few for it.
fn cut(words: &[String]) -> Option<(OperationWords<'_>, &[String])>
    ensures { cut_of (map string_bytes words.now)
        ≡ option_map (λ found. (texts_of found.0, map string_bytes found.1.now)) result }
{
    match words {
        [name, pointer, rest @ ..] if name.as_str() == "remove" => {
            Some((OperationWords::Remove(pointer.as_str()), rest))
        }
        [name, first, second, rest @ ..] => {
            let operation = operation_with_two(name.as_str(), first.as_str(), second.as_str())?;
            Some((operation, rest))
        }
        _ => None,
    }
}

/// Returns the operation with this name and two arguments.
fn operation_with_two<'w>(name: &str, first: &'w str, second: &'w str) -> Option<OperationWords<'w>>
    ensures { with_two name.now first.now second.now ≡ option_map texts_of result }
{
    match name {
        "add" => Some(OperationWords::Add(first, second)),
        "replace" => Some(OperationWords::Replace(first, second)),
        "move" => Some(OperationWords::Move(first, second)),
        "copy" => Some(OperationWords::Copy(first, second)),
        "test" => Some(OperationWords::Test(first, second)),
        _ => None,
    }
}

/// Checks all pointers, from left to right.
///
/// # Errors
///
/// The error of the first one that is not valid.
fn check_pointers(operations: &[OperationWords<'_>]) -> Result<(), ParseError>
    ensures pointers { IfOk result (λ _. All IsPointer (pointers_of (map texts_of operations.now))) }
    ensures refused { IfErr result (IsFirstFault (pointers_of (map texts_of operations.now))) }
{
    for words in operations {
        check_pointers_in(words)?;
    }
    Ok(())
}

/// Checks the pointers of one operation, from left to right.
fn check_pointers_in(words: &OperationWords<'_>) -> Result<(), ParseError>
    ensures pointers { IfOk result (λ _. All IsPointer (operation_pointers (texts_of words.now))) }
    ensures refused { IfErr result (IsFirstFault (operation_pointers (texts_of words.now))) }
{
    match words {
        OperationWords::Add(pointer, _) => check_one(pointer),
        OperationWords::Remove(pointer) => check_one(pointer),
        OperationWords::Replace(pointer, _) => check_one(pointer),
        OperationWords::Move(from, pointer) => check_two(from, pointer),
        OperationWords::Copy(from, pointer) => check_two(from, pointer),
        OperationWords::Test(pointer, _) => check_one(pointer),
    }
}

/// Checks one pointer.
fn check_one(pointer: &str) -> Result<(), ParseError>
    ensures pointers { IfOk result (λ _. All IsPointer (pointer.now ∷ [])) }
    ensures refused { IfErr result (IsFirstFault (pointer.now ∷ [])) }
{
    Pointer::parse(pointer)?;
    Ok(())
}

/// Checks two pointers, from left to right.
fn check_two(from: &str, pointer: &str) -> Result<(), ParseError>
    ensures pointers { IfOk result (λ _. All IsPointer (from.now ∷ pointer.now ∷ [])) }
    ensures refused { IfErr result (IsFirstFault (from.now ∷ pointer.now ∷ [])) }
{
    Pointer::parse(from)?;
    Pointer::parse(pointer)?;
    Ok(())
}

/// Converts the words of operations to operations.
///
/// # Conditions
///
/// The texts of all pointers are valid.
///
/// # Errors
///
/// [`RunFault::ValueNotJson`] if a value is not a JSON text, and [`RunFault::Memory`] if an
/// allocation fails.
fn to_operations(
    alloc: Global,
    operations: Vec<OperationWords<'_>>,
) -> Result<Vec<Operation>, RunFault>
    requires { All IsPointer (pointers_of (map texts_of operations.items)) }
    ensures operations { IfOk result
        (λ patch. AreOperationsOf (map texts_of operations.entry.items) (map data_of patch.items)) }
    ensures refused { IfErr result (λ e.
        RefusesOneOf (values_of (map texts_of operations.entry.items)) e ⊎ (e ≡ Memory alloc_error)) }
{
    let mut patch = Vec::new(alloc);
    for words in operations {
        let operation = to_operation(alloc, words)?;
        patch.push(operation).map_err(AllocError::from)?;
    }
    Ok(patch)
}

/// Converts the words of one operation to the operation, as [`to_operations`] does.
fn to_operation(alloc: Global, words: OperationWords<'_>) -> Result<Operation, RunFault>
    requires { All IsPointer (operation_pointers (texts_of words)) }
    ensures operation { IfOk result
        (λ operation. IsOperationOf (texts_of words.entry) (data_of operation)) }
    ensures refused { IfErr result (λ e.
        RefusesOneOf (operation_values (texts_of words.entry)) e ⊎ (e ≡ Memory alloc_error)) }
{
    Ok(match words {
        OperationWords::Add(pointer, value) => Operation::Add {
            path: to_pointer(alloc, pointer)?,
            value: read_value(alloc, value)?,
        },
        OperationWords::Remove(pointer) => Operation::Remove {
            path: to_pointer(alloc, pointer)?,
        },
        OperationWords::Replace(pointer, value) => Operation::Replace {
            path: to_pointer(alloc, pointer)?,
            value: read_value(alloc, value)?,
        },
        OperationWords::Move(from, pointer) => Operation::Move {
            from: to_pointer(alloc, from)?,
            path: to_pointer(alloc, pointer)?,
        },
        OperationWords::Copy(from, pointer) => Operation::Copy {
            from: to_pointer(alloc, from)?,
            path: to_pointer(alloc, pointer)?,
        },
        OperationWords::Test(pointer, value) => Operation::Test {
            path: to_pointer(alloc, pointer)?,
            value: read_value(alloc, value)?,
        },
    })
}

/// Copies a text to an owned pointer.
///
/// # Conditions
///
/// The text is a valid JSON Pointer.
///
/// # Errors
///
/// [`AllocError`] if an allocation fails.
fn to_pointer(alloc: Global, pointer: &str) -> Result<PointerBuf, AllocError>
    requires { IsPointer pointer.now }
    ensures { IfOk result (λ owned. text owned ≡ pointer.now) }
{
    Pointer::new_unchecked(pointer).to_buf(alloc)
}
