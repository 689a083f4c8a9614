//! An operation that is borrowed from its document. Reading it needs no allocation.
ghost use Rattle.std.specs.Prelude.{◌≡◌, MatchResult, IfOk};
ghost use Rattle.serde_json.specs.View.{view};
ghost use Rattle.jsonptr_patch_document.specs.Object.{IsOperationObject, IsNoOperationObject};
ghost use Rattle.jsonptr_patch_document.specs.PrivateParts.{operation_of};
ghost use Rattle.jsonptr_patch_document.specs.Same.{IsSameOperation};

use crate::entry::{pointer_at, text_at, value_at};
use crate::error::PatchDocumentError;
use crate::member::Member;
use jsonptr::Pointer;
use jsonptr_patch::Operation;
use serde_json::Value;
use std::alloc::{AllocError, Global};

/// The parts of an operation, borrowed from its document.
#[derive(Clone, Copy)]
pub enum Parts<'a> {
    Add {
        path: Pointer<'a>,
        value: &'a Value,
    },
    Remove {
        path: Pointer<'a>,
    },
    Replace {
        path: Pointer<'a>,
        value: &'a Value,
    },
    Move {
        from: Pointer<'a>,
        path: Pointer<'a>,
    },
    Copy {
        from: Pointer<'a>,
        path: Pointer<'a>,
    },
    Test {
        path: Pointer<'a>,
        value: &'a Value,
    },
}

/// Returns the parts of the operation with this number.
///
/// # Errors
///
/// The first reason why `entry` is not an operation.
pub fn parts_of(entry: &Value, operation: usize) -> Result<Parts<'_>, PatchDocumentError>
    ensures { MatchResult result
        (λ parts. IsOperationObject (view entry.now) (operation_of parts))
        (IsNoOperationObject (view entry.now) operation) }
{
    if !entry.is_object() {
        return Err(PatchDocumentError::NotObject { operation });
    }
    match text_at(entry, operation, Member::Op)? {
        "add" => {
            let path = pointer_at(entry, operation, Member::Path)?;
            let value = value_at(entry, operation)?;
            Ok(Parts::Add { path, value })
        }
        "remove" => {
            let path = pointer_at(entry, operation, Member::Path)?;
            Ok(Parts::Remove { path })
        }
        "replace" => {
            let path = pointer_at(entry, operation, Member::Path)?;
            let value = value_at(entry, operation)?;
            Ok(Parts::Replace { path, value })
        }
        "move" => {
            let path = pointer_at(entry, operation, Member::Path)?;
            let from = pointer_at(entry, operation, Member::From)?;
            Ok(Parts::Move { from, path })
        }
        "copy" => {
            let path = pointer_at(entry, operation, Member::Path)?;
            let from = pointer_at(entry, operation, Member::From)?;
            Ok(Parts::Copy { from, path })
        }
        "test" => {
            let path = pointer_at(entry, operation, Member::Path)?;
            let value = value_at(entry, operation)?;
            Ok(Parts::Test { path, value })
        }
        _ => Err(PatchDocumentError::UnknownOp { operation }),
    }
}

impl<'a> Parts<'a> {
    /// Returns the operation, with copies of its pointers and of its value.
    ///
    /// # Errors
    ///
    /// [`AllocError`] if an allocation fails.
    pub fn to_operation(self, alloc: Global) -> Result<Operation, AllocError>
        ensures { IfOk result (IsSameOperation (operation_of self.entry)) }
    {
        match self {
            Parts::Add { path, value } => {
                let path = path.to_buf(alloc)?;
                let value = jsonptr_value::copy(alloc, value)?;
                Ok(Operation::Add { path, value })
            }
            Parts::Remove { path } => {
                let path = path.to_buf(alloc)?;
                Ok(Operation::Remove { path })
            }
            Parts::Replace { path, value } => {
                let path = path.to_buf(alloc)?;
                let value = jsonptr_value::copy(alloc, value)?;
                Ok(Operation::Replace { path, value })
            }
            Parts::Move { from, path } => {
                let from = from.to_buf(alloc)?;
                let path = path.to_buf(alloc)?;
                Ok(Operation::Move { from, path })
            }
            Parts::Copy { from, path } => {
                let from = from.to_buf(alloc)?;
                let path = path.to_buf(alloc)?;
                Ok(Operation::Copy { from, path })
            }
            Parts::Test { path, value } => {
                let path = path.to_buf(alloc)?;
                let value = jsonptr_value::copy(alloc, value)?;
                Ok(Operation::Test { path, value })
            }
        }
    }
}
