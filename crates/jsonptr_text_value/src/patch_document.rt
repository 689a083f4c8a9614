//! Reading a patch document, and making one.
ghost use Rattle.std.specs.Prelude.{◌≡◌, ◌∷◌, [], All, IfOk, IfErr, IfSome};
ghost use Rattle.serde_json.specs.View.{view};
ghost use Rattle.jsonptr.specs.Pointer.{tokens};
ghost use Rattle.jsonptr_patch_document.specs.Document.{IsPatch};
ghost use Rattle.jsonptr_patch_document.specs.Writing.{document_of};
ghost use Rattle.jsonptr_text_value.specs.Additions.{IsAddition, FailsToAdd};
ghost use Rattle.jsonptr_text_value.specs.Operations.{operations_in, IsGivenIn};
ghost use Rattle.jsonptr_text_value.specs.Patches.{FailsToReadOperations, FailsToReadPatch};
ghost use Rattle.jsonptr_text_value.specs.PrivateAdditions.{IsAlone};

use crate::failed_patch::FailedPatch;
use crate::operations::{raw_operations, without_texts};
use crate::patch_text::PatchText;
use crate::patch_text_error::PatchTextError;
use crate::plain_patch::PlainPatch;
use crate::raw_operation::RawOperation;
use crate::raw_value::RawValue;
use jsonptr::{Fault, Pointer};
use jsonptr_patch::Operation;
use jsonptr_patch_document::laws::writing_law;
use jsonptr_patch_document::{read_patch, write_patch};
use jsonptr_text_piece::buffers::Buffers;
use jsonptr_value::{MAX_DEPTH, nests_within};
use serde_json::Value;
use std::alloc::{AllocError, Global};

impl PlainPatch {
    /// Reads the operations of a patch document.
    ///
    /// # Errors
    ///
    /// [`PatchTextError::NotPatch`] if the document is not a patch, and [`PatchTextError::Memory`] if an allocation
    /// fails. The document comes with the error.
    ///
    /// # Examples
    ///
    /// ```rust
    /// let document = json!(in alloc; [{"op": "remove", "path": "/a"}])?;
    /// let patch = PlainPatch::of(alloc, document).ok().ok_or("a patch")?;
    /// assert_eq!(rt; patch.operations.len(), 1);
    /// ```
    pub fn of(alloc: Global, document: Value) -> Result<PlainPatch, FailedPatch<PatchTextError>>
        ensures document { IfOk result (λ p. p.document ≡ document) }
        ensures refused { IfErr result (λ e.
            (e.document ≡ document) × FailsToReadOperations (view document) e.error) }
    {
        match operations_of(alloc, &document) {
            Ok(operations) => Ok(PlainPatch {
                document,
                operations,
            }),
            Err(error) => Err(FailedPatch { document, error }),
        }
    }

    /// Returns the patch, each operation with the text of its value in `given`, the text of the document.
    /// No operation is read again.
    ///
    /// # Errors
    ///
    /// Those of [`PatchText::of`] for a document that is a patch.
    ///
    /// # Examples
    ///
    /// ```rust
    /// let given = r#"[{"op": "add", "path": "", "value": 1.10}]"#;
    /// let plain = PlainPatch::of(alloc, Value::from_str(alloc, given)?).ok().ok_or("a patch")?;
    /// let patch = plain.with_texts(alloc, given)?;
    /// let raw = patch.operations[0].raw.as_ref().ok_or("a text")?;
    /// assert_eq!(rt; raw.printed.flat.as_str(), "1.10");
    /// ```
    pub fn with_texts(self, alloc: Global, given: &str) -> Result<PatchText, PatchTextError>
        ensures document { IfOk result (λ p. p.document ≡ self.document) }
        ensures texts { IfOk result (λ p. All (IsGivenIn given.now) p.operations.items) }
        ensures refused { IfErr result (FailsToReadPatch (view self.document)) }
    {
        with_texts(alloc, given, self.document, self.operations)
    }
}

impl PatchText {
    /// Returns the patch of the document, each operation with the text of its value in `given`, the text of
    /// the document.
    ///
    /// # Errors
    ///
    /// - [`PatchTextError::NotPatch`] if the document is not a patch.
    /// - [`PatchTextError::NotLocated`] if the text of a value is not found in `given`. That is not known to
    ///   happen in a text that is read as the document.
    /// - [`PatchTextError::Memory`] if an allocation fails.
    ///
    /// # Examples
    ///
    /// ```rust
    /// let given = r#"[{"op": "add", "path": "/b", "value": {"z": 1.10, "y": 1e5}}]"#;
    /// let patch = PatchText::of(alloc, given, Value::from_str(alloc, given)?)?;
    /// let raw = patch.operations[0].raw.as_ref().ok_or("a text")?;
    /// assert_eq!(rt; raw.printed.flat.as_str(), r#"{"z":1.10,"y":1e5}"#);
    /// ```
    pub fn of(alloc: Global, given: &str, document: Value) -> Result<PatchText, PatchTextError>
        ensures document { IfOk result (λ p. p.document ≡ document) }
        ensures texts { IfOk result (λ p. All (IsGivenIn given.now) p.operations.items) }
        ensures refused { IfErr result (FailsToReadPatch (view document)) }
    {
        let operations = operations_of(alloc, &document)?;
        with_texts(alloc, given, document, operations)
    }

    /// Returns the patch of the operations, without texts of their values, so that these are printed.
    ///
    /// # Errors
    ///
    /// [`AllocError`] if an allocation fails.
    ///
    /// # Examples
    ///
    /// ```rust
    /// let remove = Operation::Remove { path: PointerBuf::from_text(alloc, "/a")? };
    /// let patch = PatchText::from_operations(alloc, vec![in alloc; remove]?)?;
    /// let text = r#"[{"op":"remove","path":"/a"}]"#;
    /// assert_eq!(rt; patch.document.to_string(alloc)?.as_str(), text);
    /// ```
    pub fn from_operations(
        alloc: Global,
        operations: Vec<Operation>,
    ) -> Result<PatchText, AllocError>
        ensures operations { IfOk result
            (λ p. operations_in p.operations.items ≡ operations.items) }
        ensures document { IfOk result (λ p. view p.document ≡ document_of operations.items) }
    {
        writing_law();
        let document = write_patch(alloc, &operations)?;
        let operations = without_texts(alloc, operations)?;
        Ok(PatchText {
            document,
            operations,
        })
    }

    /// Returns the patch that adds the value at the pointer: one operation `add`, with the value's own text.
    ///
    /// # Errors
    ///
    /// - [`PatchTextError::TooDeep`] if the patch document nests deeper than 127. The value is two levels
    ///   deeper in it.
    /// - [`PatchTextError::NotLocated`] if the text is not read as the value. No text is known that is not.
    /// - [`PatchTextError::Memory`] if an allocation fails.
    ///
    /// # Examples
    ///
    /// ```rust
    /// let value = RawValue::parse(alloc, "1.10")?;
    /// let patch = PatchText::from_addition(alloc, Pointer::parse("/0")?, value)?;
    /// let text = r#"[{"op":"add","path":"/0","value":1.1}]"#;
    /// assert_eq!(rt; patch.document.to_string(alloc)?.as_str(), text);
    /// ```
    pub fn from_addition(
        alloc: Global,
        path: Pointer<'_>,
        raw: RawValue,
    ) -> Result<PatchText, PatchTextError>
        ensures addition { IfOk result (IsAddition (tokens path.entry) raw) }
        ensures refused { IfErr result (FailsToAdd raw) }
    {
        let value = raw.to_value(alloc)?;
        if !nests_within(&value, MAX_DEPTH - 2) {
            return Err(PatchTextError::TooDeep);
        }
        let path = path.to_buf(alloc)?;
        let patch = alone(alloc, Operation::Add { path, value }, raw)?;
        match patch {
            Some(patch) => Ok(patch),
            None => Err(PatchTextError::NotLocated),
        }
    }
}

/// Returns the operations of the patch document.
///
/// # Errors
///
/// [`PatchTextError::NotPatch`] if it is not a patch, and [`PatchTextError::Memory`] if an allocation fails.
fn operations_of(alloc: Global, patch: &Value) -> Result<Vec<Operation>, PatchTextError>
    ensures patch { IfOk result (λ v. IsPatch (view patch.now) v.items) }
    ensures refused { IfErr result (FailsToReadOperations (view patch.now)) }
{
    match read_patch(alloc, patch) {
        Ok(operations) => Ok(operations),
        Err(Fault::Refused(error)) => Err(PatchTextError::NotPatch(error)),
        Err(Fault::Memory(error)) => Err(PatchTextError::Memory(error)),
    }
}

/// Returns the patch of the document, which has these operations, with the texts of their values in
/// `given`, the text of the document.
fn with_texts(
    alloc: Global,
    given: &str,
    document: Value,
    operations: Vec<Operation>,
) -> Result<PatchText, PatchTextError>
    requires { IsPatch (view document) operations.items }
    ensures document { IfOk result (λ p. p.document ≡ document) }
    ensures texts { IfOk result (λ p. All (IsGivenIn given.now) p.operations.items) }
    ensures refused { IfErr result (FailsToReadPatch (view document)) }
{
    let mut buffers = Buffers::new(alloc);
    let found = raw_operations(alloc, &mut buffers, given, operations)?;
    match found {
        Some(operations) => Ok(PatchText {
            document,
            operations,
        }),
        None => Err(PatchTextError::NotLocated),
    }
}

/// Returns the patch of the operation, with the text of its value. Returns `None` if the text is not read
/// as the value.
///
/// # Errors
///
/// [`AllocError`] if an allocation fails.
fn alone(
    alloc: Global,
    operation: Operation,
    raw: RawValue,
) -> Result<Option<PatchText>, AllocError>
    ensures { IfOk result (λ o. IfSome o (IsAlone operation raw)) }
{
    let (document, operation) = written(alloc, operation)?;
    let Some(operation) = RawOperation::with_text(alloc, operation, raw)? else {
        return Ok(None);
    };
    let operations = vec![in alloc; operation]?;
    Ok(Some(PatchText {
        document,
        operations,
    }))
}

/// Returns the patch document of the operation, and the operation.
///
/// # Errors
///
/// [`AllocError`] if an allocation fails.
fn written(alloc: Global, operation: Operation) -> Result<(Value, Operation), AllocError>
    ensures operation { IfOk result (λ p. p.1 ≡ operation) }
    ensures document { IfOk result (λ p. IsPatch (view p.0) (operation ∷ [])) }
{
    writing_law();
    let mut operations = vec![in alloc; operation]?;
    let document = write_patch(alloc, &operations)?;
    match operations.pop() {
        Some(operation) => Ok((document, operation)),
        None => unreachable!(),
    }
}
