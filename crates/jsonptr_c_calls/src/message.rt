//! The messages of errors, from their numbers.
ghost use Rattle.std.specs.Prelude.{◌≡◌, ◌≤◌, IfErr, IfOk, OnErr, Some, take, length as list_length};
ghost use Rattle.jsonptr_c_calls.specs.Failures.{IsNotWritten};
ghost use Rattle.jsonptr_c_calls.specs.Messages.{fault_message, document_message, fixed_message, fragment_fault, member_name, message_of, message_room};

use crate::buffer::copy_to;
use crate::call_error::CallError;
use crate::error_numbers::*;
use crate::laws::message_law;
use std::alloc::Global;
use std::fmt;

/// Copies the message of the error to the buffer, and returns its length, which is at most 200 bytes
/// of each record.
///
/// # Errors
///
/// [`CallError::NoRoom`] if the buffer is shorter than the message, and [`CallError::Memory`] if an
/// allocation fails. The buffer is unchanged.
///
/// # Examples
///
/// ```rust
/// let error = ErrorRecord::of(&CallError::NoDocument, b"");
/// let mut out = [0u8; 40];
/// assert_eq!(rt; message::message(alloc, &error, &mut out).ok(), Some(28));
/// assert!(rt; out.starts_with(b"the handle holds no document"));
/// ```
pub fn message(alloc: Global, error: &ErrorRecord, out: &mut [u8]) -> Result<usize, CallError>
    ensures message { IfOk result (λ n. take n out.new ≡ message_of error.now) }
    ensures length { IfOk result (λ n. n ≡ list_length (message_of error.now)) }
    ensures short { list_length (message_of error.now) ≤ message_room }
    ensures refused { IfErr result (IsNotWritten (message_of error.now) (list_length out.old)) }
    ensures output_unchanged { OnErr result (out.new ≡ out.old) }
{
    message_law();
    let (_operation, _slash, _offset) = (error.operation, error.slash, error.offset);
    copy_to(error.to_string(alloc)?.as_str().as_bytes(), out)
}

impl fmt::Display for ErrorRecord {
    ghost output = { λ error. Some (message_of error) };

    fn fmt<W: fmt::Write>(&self, f: &mut fmt::Formatter<W>) -> fmt::Result {
        match self.status {
            NOT_POINTER | NOT_FOUND | NOT_ASSIGNED | NOT_RENAMED => write!(f, "{}", Cause(*self)),
            NOT_PATCH => write!(
                f,
                "not a JSON Patch document: {}",
                PatchDocumentCause(*self)
            ),
            PATCH_FAILED => {
                let operation = self.operation;
                write!(f, "patch failed at operation {operation}: {}", Cause(*self))
            }
            NOT_FRAGMENT => write!(
                f,
                "not a URI fragment of a JSON Pointer: {}",
                FragmentCause(*self)
            ),
            NOT_EXACT => {
                let offset = self.offset;
                write!(f, "the number at offset {offset} loses digits")
            }
            NO_VALUE => {
                let offset = self.offset;
                write!(f, "no value is at offset {offset}")
            }
            TOO_DEEP if self.kind == KIND_INVERSE_TOO_DEEP => {
                f.write_str("the inverse of the patch would nest deeper than 127")
            }
            TOO_DEEP if self.kind == KIND_TEXT_TOO_DEEP => {
                f.write_str("the text would nest deeper than 127")
            }
            TOO_DEEP if self.kind == KIND_TOML_TOO_DEEP => {
                f.write_str("values of the TOML document nest, or would nest, deeper than 80")
            }
            NOT_TOML_VALUE if self.kind == KIND_NO_TOML_TEXT => {
                f.write_str("the document would have no TOML text")
            }
            NOT_JSON if self.kind == KIND_OPEN_COMMENT => f.write_str("comment is not closed"),
            status => f.write_str(fixed_message(status)),
        }
    }
}

/// Returns the message of a status that has only one.
fn fixed_message(status: u32) -> &'static str
    ensures { result.now ≡ fixed_message status }
{
    match status {
        OK => "no error",
        NO_MEMORY => "out of memory",
        NO_ROOM => "the buffer is too short",
        BAD_ARGUMENT => {
            "an argument is NULL, too long, not finite or passed twice, or a flag is unknown"
        }
        NO_DOCUMENT => "the handle holds no document",
        NOT_UTF8 => "text is not UTF-8",
        NOT_JSON => "text is not JSON",
        NO_TOKEN => "the pointer has no such token",
        OTHER_TYPE => "the value is of another type",
        NOT_LOCATED => "value cannot be located in the text",
        TOO_DEEP => "the document could nest deeper than 10,127",
        NOT_IN_PLACE => "the edit is possible, but not in place",
        NOT_TOML => "text is not TOML",
        NOT_TOML_VALUE => "the value is null or an integer that TOML has not, or contains one",
        OTHER_FORMAT => "the call does not work on texts of this format",
        _ => "unknown status",
    }
}

/// What is at fault with a pointer or with an operation.
#[derive(Clone, Copy)]
struct Cause(ErrorRecord);

impl fmt::Display for Cause {
    ghost output = { λ cause. Some (fault_message cause.0.kind cause.0.slash) };

    fn fmt<W: fmt::Write>(&self, f: &mut fmt::Formatter<W>) -> fmt::Result {
        let slash = self.0.slash;
        match self.0.kind {
            KIND_NO_LEADING_SLASH => f.write_str(
                "json pointer failed to parse; does not start with a slash ('/') and is not empty",
            ),
            KIND_BAD_ESCAPE => write!(
                f,
                "json pointer failed to parse; the first token in the partial-pointer starting at offset {slash} is malformed"
            ),
            KIND_NOT_AN_INDEX => write!(
                f,
                "resolve failed: json pointer token at offset {slash} failed to parse as an index"
            ),
            KIND_OUT_OF_BOUNDS => write!(
                f,
                "resolve failed: json pointer token at offset {slash} is out of bounds"
            ),
            KIND_NO_MEMBER => write!(
                f,
                "resolve failed: json pointer token at {slash} was not found in value"
            ),
            KIND_NO_CHILDREN => write!(
                f,
                "resolve failed: json pointer token at {slash} is unreachable (previous token resolved to a scalar or null value)"
            ),
            KIND_NOT_A_NEW_INDEX => write!(
                f,
                "assign failed: json pointer token at offset {slash} failed to parse as an array index"
            ),
            KIND_INDEX_ABOVE_LENGTH => write!(
                f,
                "assign failed: json pointer token at offset {slash} is out of bounds"
            ),
            KIND_MOVE_INTO_SELF => f.write_str("from is a proper prefix of path"),
            KIND_TEST_FLOAT => f.write_str("a float cannot be tested"),
            KIND_TEST_FAILED => f.write_str("test failed"),
            KIND_NOTHING_THERE => f.write_str("rename failed: pointer resolves to nothing"),
            KIND_NOT_A_MEMBER => f.write_str("rename failed: value is not a member of an object"),
            KIND_KEY_TAKEN => f.write_str("rename failed: another member has the key"),
            _ => f.write_str("unknown kind"),
        }
    }
}

/// Why a document is not a patch.
#[derive(Clone, Copy)]
struct PatchDocumentCause(ErrorRecord);

impl fmt::Display for PatchDocumentCause {
    ghost output = { λ cause. Some (document_message cause.0) };

    fn fmt<W: fmt::Write>(&self, f: &mut fmt::Formatter<W>) -> fmt::Result {
        let operation = self.0.operation;
        let member = member_name(self.0.member);
        match self.0.kind {
            KIND_NOT_AN_ARRAY => f.write_str("not an array"),
            KIND_NOT_AN_OBJECT => write!(f, "operation {operation} is not an object"),
            KIND_NO_SUCH_MEMBER => write!(f, "operation {operation} has no member `{member}`"),
            KIND_NOT_A_STRING => {
                write!(
                    f,
                    "member `{member}` of operation {operation} is not a string"
                )
            }
            KIND_UNKNOWN_OP => {
                write!(
                    f,
                    "member `op` of operation {operation} is not an operation"
                )
            }
            KIND_NO_LEADING_SLASH | KIND_BAD_ESCAPE => write!(
                f,
                "member `{member}` of operation {operation}: {}",
                Cause(self.0)
            ),
            _ => f.write_str("unknown kind"),
        }
    }
}

/// Why a text is not the fragment of a pointer.
#[derive(Clone, Copy)]
struct FragmentCause(ErrorRecord);

impl fmt::Display for FragmentCause {
    ghost output = { λ cause. Some (fragment_fault cause.0) };

    fn fmt<W: fmt::Write>(&self, f: &mut fmt::Formatter<W>) -> fmt::Result {
        let offset = self.0.offset;
        match self.0.kind {
            KIND_NO_HASH => f.write_str("does not start with `#`"),
            KIND_BAD_BYTE => { write!(f, "a byte that must be percent-encoded at byte {offset}") }
            KIND_BAD_PERCENT => { write!(f, "`%` without two hexadecimal digits at byte {offset}") }
            KIND_ENCODED_NOT_UTF8 => write!(f, "not UTF-8 at byte {offset}"),
            KIND_NO_LEADING_SLASH | KIND_BAD_ESCAPE => {
                write!(f, "{}, at byte {offset}", Cause(self.0))
            }
            _ => f.write_str("unknown kind"),
        }
    }
}

/// Returns the key of a member of an operation.
fn member_name(member: u32) -> &'static str
    ensures { result.now ≡ member_name member }
{
    match member {
        MEMBER_OP => "op",
        MEMBER_PATH => "path",
        MEMBER_FROM => "from",
        _ => "value",
    }
}
