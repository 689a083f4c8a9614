//! What the commands of a program do with the text of a JSON document, and with a document on each
//! line of an input.
//!
//! - [`task`]: what to do with a document: find a value, or make an edit.
//! - [`layout`]: how the result is printed.
//! - [`result`]: the result of a task on one text.
//! - [`difference`]: the patch document that turns one document into another.
//! - [`inverse`]: the inverse of a patch document.
//! - [`merge`]: merge patches, and the merge of two changed copies, as edits.
//! - [`document`]: a task on one document, from a reader to a writer.
//! - [`line`]: a task on one line, and [`lines`]: on each line of an input.
//! - [`node`]: the type, the length and the keys of a value, and whether it equals another one.
//! - [`paths`]: a document as lines of pointers and values, and a document from such lines.
//! - [`patch`]: the operations of a patch document, and [`long_patch`]: applying one of many operations.
//! - [`operation`]: a move and a copy as patches, and the error of one operation.
//! - [`expansion`]: whether an assignment creates containers.
//! - [`several`]: several edits, one after another.
//! - [`reprint`]: an edit, in place or in a document that is printed anew, if no digit is lost.
//! - [`replacement`]: replacing the text of a file, whatever moment the system stops at.
//! - [`task_error`]: the errors, and the exit status of each.
//! - [`exit_status`]: what each exit status means.
//! - [`laws`]: lines, differences and inverses as texts, inputs that are cut, that each input has one
//!   error, what an assignment creates, and what a copy and a removal make.
#![tactic(auto)]

pub mod difference;
pub mod document;
mod edit;
pub mod exit_status;
pub mod expansion;
pub mod inverse;
pub mod laws;
pub mod layout;
pub mod line;
pub mod lines;
pub mod long_patch;
pub mod merge;
pub mod node;
pub mod operation;
pub mod patch;
pub mod paths;
pub mod replacement;
pub mod reprint;
pub mod result;
pub mod several;
pub mod task;
pub mod task_error;
