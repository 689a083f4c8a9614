//! An operation of a patch, and the text of its value.
ghost use Rattle.jsonptr_text_value.specs.Fitting.{HasFittingText};
ghost use Rattle.jsonptr_text_value.specs.PrivateFitting.{Fits-prop};

use crate::raw_value::RawValue;
use jsonptr_patch::Operation;

/// An operation of a patch, with the text of its value as the author of the patch wrote it.
///
/// Where the operation puts its value into a text, the text of the value is what is put there, laid out
/// as the document is. If there is none, the value is printed. A test reads no text.
#[derive(Debug, Drop)]
pub struct RawOperation {
    /// The operation.
    pub operation: Operation,
    /// The text of the value of an `add` or of a `replace`. It is read as exactly that value.
    pub raw: Option<RawValue>,
    pub ghost fits: { HasFittingText operation raw } by { Fits-prop operation raw },
}
