//! The texts of the values of a patch.
ghost use Rattle.std.specs.Prelude.{◌≡◌, ◌∷◌, ◌++◌, [], Some, None, false, All, IfOk, IfSome, IsTrue, string_bytes};
ghost use Rattle.json.specs.Lex.{tokens as lexed};
ghost use Rattle.serde_json.specs.View.{view};
ghost use Rattle.jsonptr_text_check.specs.Alike.{HoldsTokens};
ghost use Rattle.jsonptr_text_value.specs.Raw.{value_of_raw};
ghost use Rattle.jsonptr_text_value.specs.Fitting.{HasFittingText, brings_value};
ghost use Rattle.jsonptr_text_value.specs.Operations.{operations_in, IsGivenIn};

use crate::own_text::is_read_as;
use crate::raw_operation::RawOperation;
use crate::raw_value::RawValue;
use crate::spans::value_spans;
use jsonptr_patch::Operation;
use jsonptr_text_piece::buffers::Buffers;
use jsonptr_text_piece::cut::cut_at;
use jsonptr_text_piece::spacing::is_trimmed;
use jsonptr_text_piece::span::Span;
use jsonptr_text_resolve::Scratch;
use jsonptr_value::if_json;
use serde_json::Value;
use std::alloc::{AllocError, Global};

/// Returns the operations, each with the text of its value in the text of the patch document that they
/// were read from. Returns `None` if such a text is not found.
///
/// Each `add` and each `replace` gets a text. It has its members in their order, and its numbers as
/// they are written. It comes from the last member `value` of the object of the operation, and is read
/// as exactly the value of the operation. No patch document is known with a text that is not found.
///
/// Takes time linear in the text. Reads the text once, and then each value, which is also printed. A
/// value whose text is not the one that is printed, as `1.10`, is read and printed once more. For
/// escapes that would not be printed it is read once more.
///
/// # Errors
///
/// [`AllocError`] if an allocation fails.
///
/// # Examples
///
/// ```rust
/// let document = "[{\"op\": \"add\", \"path\": \"/-\", \"value\": {\"b\": 1.10, \"a\": 1e5}}]";
/// let patch = read_patch(alloc, &Value::from_str(alloc, document)?)?;
/// let mut buffers = Buffers::new(alloc);
/// let patch = raw_operations(alloc, &mut buffers, document, patch)?.ok_or("a text")?;
/// let new = apply_in_text(&mut buffers, "[]", &patch)?.ok_or("an edit in place")?;
/// assert_eq!(rt; new.as_str(), "[{\"b\":1.10,\"a\":1e5}]");
/// ```
pub fn raw_operations(
    alloc: Global,
    buffers: &mut Buffers,
    text: &str,
    operations: Vec<Operation>,
) -> Result<Option<Vec<RawOperation>>, AllocError>
    ensures same { IfOk result (λ found. IfSome found
        (λ raw_operations. operations_in raw_operations.items ≡ operations.items)) }
    ensures texts { IfOk result (λ found. IfSome found
        (λ raw_operations. All (IsGivenIn text.now) raw_operations.items)) }
{
    let spans = value_spans(alloc, &mut buffers.old, text)?;
    let mut raw_operations = Vec::new(alloc);
    let mut index = 0usize;
    for operation in operations {
        let span = span_at(&spans, index);
        let Some(operation) = with_own(alloc, &mut buffers.value, text, span, operation)? else {
            return Ok(None);
        };
        append(&mut raw_operations, operation)?;
        index = index.saturating_add(1);
    }
    Ok(Some(raw_operations))
}

/// Returns the operation with the text at the span, or `None` if it needs one and that is not one of its
/// value.
fn with_own(
    alloc: Global,
    scratch: &mut Scratch,
    text: &str,
    span: Span,
    operation: Operation,
) -> Result<Option<RawOperation>, AllocError>
    ensures operation { IfOk result (λ o. IfSome o (λ made. made.operation ≡ operation)) }
    ensures given { IfOk result (λ o. IfSome o (IsGivenIn text.now)) }
{
    let Some(own) = own_text(alloc, scratch, text, span, &operation)? else {
        return Ok(bare(operation));
    };
    let raw = Some(own);
    Ok(Some(RawOperation { operation, raw }))
}

/// Returns the operation, or `None` if it puts a value of its own into a document.
fn bare(operation: Operation) -> Option<RawOperation>
    ensures operation { IfSome result (λ made. made.operation ≡ operation) }
    ensures bare { IfSome result (λ made. brings_value operation ≡ false) }
{
    if brings(&operation) {
        None
    } else {
        Some(RawOperation::new(operation))
    }
}

/// Returns whether the operation puts a value of its own into a document.
fn brings(operation: &Operation) -> bool
    ensures { result ≡ brings_value operation.now }
{
    match operation {
        Operation::Add { path: _, value: _ } => true,
        Operation::Remove { path: _ } => false,
        Operation::Replace { path: _, value: _ } => true,
        Operation::Move { from: _, path: _ } => false,
        Operation::Copy { from: _, path: _ } => false,
        Operation::Test { path: _, value: _ } => false,
    }
}

/// Returns the span at the index, or an empty one.
fn span_at(spans: &[Span], index: usize) -> Span {
    match spans.get(index) {
        Some(span) => *span,
        None => Span { from: 0, to: 0 },
    }
}

/// Returns the text at the span, if it is one for the operation.
fn own_text(
    alloc: Global,
    scratch: &mut Scratch,
    text: &str,
    span: Span,
    operation: &Operation,
) -> Result<Option<RawValue>, AllocError>
    ensures fits { IfOk result (HasFittingText operation.now) }
    ensures found { IfOk result (λ found. IfSome found
        (λ raw. HoldsTokens (string_bytes raw.printed.flat) text.now)) }
{
    let Some(cut) = cut_at(text, span.from, span.to) else {
        return Ok(None);
    };
    if cut.middle.is_empty() || !is_trimmed(cut.middle) {
        return Ok(None);
    }
    text_for(alloc, scratch, cut.middle, operation)
}

/// Returns the text, if it is read as the value of the operation. If the operation has no value, each JSON
/// text is one for it.
fn text_for(
    alloc: Global,
    scratch: &mut Scratch,
    text: &str,
    operation: &Operation,
) -> Result<Option<RawValue>, AllocError>
    ensures fits { IfOk result (HasFittingText operation.now) }
    ensures same { IfOk result (λ found. IfSome found
        (λ raw. lexed (string_bytes raw.printed.flat) ≡ lexed text.now)) }
{
    match operation {
        Operation::Add { path: _, value } => RawValue::of_value_in(alloc, scratch, text, value),
        Operation::Remove { path: _ } => raw_text(alloc, text),
        Operation::Replace { path: _, value } => RawValue::of_value_in(alloc, scratch, text, value),
        Operation::Move { from: _, path: _ } => raw_text(alloc, text),
        Operation::Copy { from: _, path: _ } => raw_text(alloc, text),
        Operation::Test { path: _, value } => RawValue::of_value_in(alloc, scratch, text, value),
    }
}

/// Returns the text, if it is JSON.
fn raw_text(alloc: Global, text: &str) -> Result<Option<RawValue>, AllocError>
    ensures { IfOk result (λ found. IfSome found
        (λ raw. lexed (string_bytes raw.printed.flat) ≡ lexed text.now)) }
{
    if_json(RawValue::parse(alloc, text))
}

/// Returns the operations without texts, so that their values are printed.
///
/// # Errors
///
/// [`AllocError`] if an allocation fails.
///
/// # Examples
///
/// ```rust
/// let remove = Operation::Remove { path: PointerBuf::from_text(alloc, "/a")? };
/// let operations = without_texts(alloc, vec![in alloc; remove]?)?;
/// assert!(rt; operations.len() == 1 && operations[0].raw.is_none());
/// ```
pub fn without_texts(
    alloc: Global,
    operations: Vec<Operation>,
) -> Result<Vec<RawOperation>, AllocError>
    ensures { IfOk result (λ raw_operations. operations_in raw_operations.items ≡ operations.items) }
{
    let mut raw_operations = Vec::new(alloc);
    for operation in operations {
        append(&mut raw_operations, RawOperation::new(operation))?;
    }
    Ok(raw_operations)
}

/// Returns the operations alone.
///
/// # Errors
///
/// [`AllocError`] if an allocation fails.
pub fn plain_operations(
    alloc: Global,
    raw_operations: Vec<RawOperation>,
) -> Result<Vec<Operation>, AllocError>
    ensures { IfOk result (λ operations. operations.items ≡ operations_in raw_operations.items) }
{
    let mut operations = Vec::new(alloc);
    for operation in raw_operations {
        operations.push(operation.operation)?;
    }
    Ok(operations)
}

/// Appends an operation. A function of its own, so that the proof of the loop can name it.
fn append(operations: &mut Vec<RawOperation>, operation: RawOperation) -> Result<(), AllocError>
    ensures { IfOk result (λ _. operations.new.items ≡ operations.old.items ++ operation ∷ []) }
{
    operations.push(operation)?;
    Ok(())
}

impl RawOperation {
    /// Returns the operation with no text, so that its value is printed.
    ///
    /// # Examples
    ///
    /// ```rust
    /// let remove = Operation::Remove { path: PointerBuf::from_text(alloc, "/a")? };
    /// assert!(rt; RawOperation::new(remove).raw.is_none());
    /// ```
    pub fn new(operation: Operation) -> RawOperation
        ensures operation { result.operation ≡ operation }
        ensures text { result.raw ≡ None }
    {
        let raw = None;
        RawOperation { operation, raw }
    }

    /// Returns the operation with the text of its value, or `None` if the text is not read as exactly
    /// that value (that it is `None` only then is tested). Only the text of an `add` and of a `replace`
    /// is looked at.
    ///
    /// # Errors
    ///
    /// [`AllocError`] if an allocation fails.
    ///
    /// # Examples
    ///
    /// ```rust
    /// let path = PointerBuf::from_text(alloc, "/price")?;
    /// let add = Operation::Add { path, value: json!(in alloc; 1.1)? };
    /// let own = RawValue::parse(alloc, "1.10")?;
    /// assert!(rt; RawOperation::with_text(alloc, add, own)?.is_some());
    /// ```
    pub fn with_text(
        alloc: Global,
        operation: Operation,
        raw: RawValue,
    ) -> Result<Option<RawOperation>, AllocError>
        ensures operation { IfOk result (λ o. IfSome o (λ made. made.operation ≡ operation)) }
        ensures text { IfOk result (λ o. IfSome o (λ made. made.raw ≡ Some raw)) }
    {
        if !fits(alloc, &operation, &raw)? {
            return Ok(None);
        }
        let raw = Some(raw);
        Ok(Some(RawOperation { operation, raw }))
    }
}

/// Returns whether the text is read as the value that the operation puts into a document, if it puts one
/// there.
fn fits(alloc: Global, operation: &Operation, raw: &RawValue) -> Result<bool, AllocError>
    ensures { IfOk result (λ b. IsTrue b → HasFittingText operation.now (Some raw.now)) }
{
    match operation {
        Operation::Add { path: _, value } => is_text_of(alloc, raw, value),
        Operation::Remove { path: _ } => Ok(true),
        Operation::Replace { path: _, value } => is_text_of(alloc, raw, value),
        Operation::Move { from: _, path: _ } => Ok(true),
        Operation::Copy { from: _, path: _ } => Ok(true),
        Operation::Test { path: _, value: _ } => Ok(true),
    }
}

/// Returns whether the text is read as the value.
fn is_text_of(alloc: Global, raw: &RawValue, value: &Value) -> Result<bool, AllocError>
    ensures { IfOk result (λ b. IsTrue b → value_of_raw raw.now ≡ view value.now) }
{
    is_read_as(alloc, raw.printed.flat.as_str(), value)
}
