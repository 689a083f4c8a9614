//! An error as numbers, by which C knows it: a row for each error. The numbers never change, and
//! `tools/c/jsonptr.h` defines the same ones.
ghost use Rattle.std.specs.Prelude.{◌≡◌, ◌==◌, ◌+◌, not, count_by, drop, take};
ghost use Rattle.std.specs.List.{prefix_len};
ghost use Rattle.jsonptr_c_calls.specs.ErrorNumbers.{argument_number, assign_row, at_token, escape_length, fault_number, fields_of, fragment_row, member_number, no_error, of_kind, of_operation, parse_row, patch_document_row, patch_row, pointer_row, record_of, rename_kind, resolve_row, row, slashes_before, status_number, token_length};

use crate::call_error::{Argument, CallError};
use jsonptr::{ParseError, assign, resolve};
use jsonptr_fragment::FragmentError;
use jsonptr_patch::{PatchError, PatchPointer};
use jsonptr_patch_document::{Member, PatchDocumentError};
use jsonptr_text_edit::RenameError;

/// The status of a call that succeeds.
pub const OK: u32 = 0;
/// An allocation failed.
pub const NO_MEMORY: u32 = 1;
/// The buffer is shorter than the result.
pub const NO_ROOM: u32 = 2;
/// An argument cannot be used: a number is not finite. The layer in C, which checks arguments, has
/// other cases.
pub const BAD_ARGUMENT: u32 = 3;
/// The handle holds no document.
pub const NO_DOCUMENT: u32 = 4;
/// A text is not UTF-8.
pub const NOT_UTF8: u32 = 5;
/// A text is not JSON.
pub const NOT_JSON: u32 = 6;
/// A text is not a pointer.
pub const NOT_POINTER: u32 = 7;
/// The pointer has no token at the position.
pub const NO_TOKEN: u32 = 8;
/// The pointer does not resolve to a value.
pub const NOT_FOUND: u32 = 9;
/// The value is not of the type that the call reads.
pub const OTHER_TYPE: u32 = 10;
/// The pointer leads to an array that has no such index.
pub const NOT_ASSIGNED: u32 = 11;
/// The document is not a patch.
pub const NOT_PATCH: u32 = 12;
/// An operation of the patch fails.
pub const PATCH_FAILED: u32 = 13;
/// The document could nest too deep.
pub const TOO_DEEP: u32 = 14;
/// A number of a text loses digits.
pub const NOT_EXACT: u32 = 15;
/// The value is in the text, but its bytes are not found.
pub const NOT_LOCATED: u32 = 16;
/// No value of the text is at the offset.
pub const NO_VALUE: u32 = 17;
/// The edit is possible, but not in place.
pub const NOT_IN_PLACE: u32 = 18;
/// A text is not TOML.
pub const NOT_TOML: u32 = 19;
/// A value is none of TOML, or a document would have no TOML text.
pub const NOT_TOML_VALUE: u32 = 20;
/// The member cannot be renamed so.
pub const NOT_RENAMED: u32 = 21;
/// The call does not work on texts of this format.
pub const OTHER_FORMAT: u32 = 22;
/// A text is not the fragment of a pointer.
pub const NOT_FRAGMENT: u32 = 23;

/// A pointer is not empty and does not start with a slash.
pub const KIND_NO_LEADING_SLASH: u32 = 1;
/// A `~` is followed by neither `0` nor `1`.
pub const KIND_BAD_ESCAPE: u32 = 2;
/// The value is an array, and the token is not an index.
pub const KIND_NOT_AN_INDEX: u32 = 3;
/// The array has no element there.
pub const KIND_OUT_OF_BOUNDS: u32 = 4;
/// The object has no such key.
pub const KIND_NO_MEMBER: u32 = 5;
/// The value is neither an object nor an array.
pub const KIND_NO_CHILDREN: u32 = 6;
/// The token is neither an index nor `-`.
pub const KIND_NOT_A_NEW_INDEX: u32 = 7;
/// The index is greater than the length of the array.
pub const KIND_INDEX_ABOVE_LENGTH: u32 = 8;
/// `from` is a proper prefix of `path`.
pub const KIND_MOVE_INTO_SELF: u32 = 9;
/// A value of a strict test contains a float. The calls of this library make no such tests.
pub const KIND_TEST_FLOAT: u32 = 10;
/// The values of a test differ.
pub const KIND_TEST_FAILED: u32 = 11;
/// The patch is not an array.
pub const KIND_NOT_AN_ARRAY: u32 = 12;
/// An operation is not an object.
pub const KIND_NOT_AN_OBJECT: u32 = 13;
/// An operation lacks a member.
pub const KIND_NO_SUCH_MEMBER: u32 = 14;
/// A member is not a string.
pub const KIND_NOT_A_STRING: u32 = 15;
/// `op` is not the name of an operation.
pub const KIND_UNKNOWN_OP: u32 = 16;
/// The patch that takes a patch back would nest deeper than a text that is read.
pub const KIND_INVERSE_TOO_DEEP: u32 = 17;
/// A block comment is not closed.
pub const KIND_OPEN_COMMENT: u32 = 18;
/// The text would nest deeper than one that is read.
pub const KIND_TEXT_TOO_DEEP: u32 = 19;
/// The pointer resolves to nothing.
pub const KIND_NOTHING_THERE: u32 = 20;
/// The pointer resolves to the root or to an element of an array.
pub const KIND_NOT_A_MEMBER: u32 = 21;
/// Another member of the object has the key.
pub const KIND_KEY_TAKEN: u32 = 22;
/// The values of a TOML document nest, or would nest, deeper than those that are read.
pub const KIND_TOML_TOO_DEEP: u32 = 23;
/// The TOML document would have no text, as one that is not a table.
pub const KIND_NO_TOML_TEXT: u32 = 24;
/// The fragment does not start with `#`.
pub const KIND_NO_HASH: u32 = 25;
/// A byte of the fragment must be percent-encoded.
pub const KIND_BAD_BYTE: u32 = 26;
/// A `%` of the fragment is not followed by two hexadecimal digits.
pub const KIND_BAD_PERCENT: u32 = 27;
/// The bytes that the fragment encodes are not UTF-8.
pub const KIND_ENCODED_NOT_UTF8: u32 = 28;

/// The member `op` of an operation.
pub const MEMBER_OP: u32 = 1;
/// The member `path` of an operation.
pub const MEMBER_PATH: u32 = 2;
/// The member `from` of an operation.
pub const MEMBER_FROM: u32 = 3;
/// The member `value` of an operation.
pub const MEMBER_VALUE: u32 = 4;
/// The pointer of the call.
pub const ARGUMENT_POINTER: u32 = 5;
/// The token of the call.
pub const ARGUMENT_TOKEN: u32 = 6;
/// The JSON text of the call, or its fragment.
pub const ARGUMENT_TEXT: u32 = 7;

/// The error of a call. Each field that an error does not have is 0. It displays the message of the
/// error.
#[repr(C)]
#[derive(Clone, Copy)]
pub struct ErrorRecord {
    /// The status of the call.
    pub status: u32,
    /// What is at fault, more exactly.
    pub kind: u32,
    /// The member of a patch document, or the argument of the call, at fault.
    pub member: u32,
    /// Always 0.
    pub reserved: u32,
    /// The position of the operation of a patch, from 0.
    pub operation: u64,
    /// The position of the token at fault, from 0.
    pub position: u64,
    /// The offset of the slash before that token, in bytes. Of a fragment it is the offset in the text
    /// that the fragment encodes.
    pub slash: u64,
    /// The offset of the first byte at fault.
    pub offset: u64,
    /// The number of bytes at fault, or 0 if it is not known. Of a buffer that is too short it is
    /// the length that is needed.
    pub length: u64,
    /// Always 0.
    pub reserved_2: u64,
    /// Always 0.
    pub reserved_3: u64,
}

impl ErrorRecord {
    /// Returns the record of no error.
    pub fn none() -> ErrorRecord
        ensures { result ≡ no_error }
    {
        ErrorRecord {
            status: OK,
            kind: 0,
            member: 0,
            reserved: 0,
            operation: 0,
            position: 0,
            slash: 0,
            offset: 0,
            length: 0,
            reserved_2: 0,
            reserved_3: 0,
        }
    }

    /// Returns the record of an error of a call with this pointer.
    pub fn of(call_error: &CallError, pointer: &[u8]) -> ErrorRecord
        ensures { result ≡ record_of call_error.now pointer.now }
    {
        ErrorRecord {
            status: status_number(call_error),
            ..fields_of(call_error, pointer)
        }
    }
}

/// Returns the status of a call that fails with the error.
fn status_number(call_error: &CallError) -> u32
    ensures { result ≡ status_number call_error.now }
{
    match call_error {
        CallError::Memory(_) => NO_MEMORY,
        CallError::NoRoom { .. } => NO_ROOM,
        CallError::NoDocument => NO_DOCUMENT,
        CallError::NotUtf8 { .. } => NOT_UTF8,
        CallError::NotJson { .. } => NOT_JSON,
        CallError::NotExact(_) => NOT_EXACT,
        CallError::NotPointer(_) => NOT_POINTER,
        CallError::NoToken => NO_TOKEN,
        CallError::Resolve(_) => NOT_FOUND,
        CallError::NotLocated => NOT_LOCATED,
        CallError::NoValue { .. } => NO_VALUE,
        CallError::OtherType => OTHER_TYPE,
        CallError::NotFinite => BAD_ARGUMENT,
        CallError::Assign(_) => NOT_ASSIGNED,
        CallError::NotPatch(_) => NOT_PATCH,
        CallError::PatchFailed(_) => PATCH_FAILED,
        CallError::TooDeep
        | CallError::InverseTooDeep
        | CallError::TextTooDeep
        | CallError::TomlTooDeep => TOO_DEEP,
        CallError::NotRenamed(_) => NOT_RENAMED,
        CallError::OpenComment { .. } => NOT_JSON,
        CallError::NotInPlace => NOT_IN_PLACE,
        CallError::NotToml { .. } => NOT_TOML,
        CallError::NotTomlValue | CallError::NoTomlText => NOT_TOML_VALUE,
        CallError::OtherFormat => OTHER_FORMAT,
        CallError::NotFragment(_) => NOT_FRAGMENT,
    }
}

/// Returns the record of an error of a call with this pointer, without its status.
fn fields_of(call_error: &CallError, pointer: &[u8]) -> ErrorRecord
    ensures { result ≡ fields_of call_error.now pointer.now }
{
    match call_error {
        CallError::NoRoom { needed } => ErrorRecord {
            length: *needed as u64,
            ..ErrorRecord::none()
        },
        CallError::NotUtf8 { argument, offset } => ErrorRecord {
            member: argument_number(*argument),
            ..at_offset(*offset)
        },
        CallError::NotJson { offset }
        | CallError::NoValue { offset }
        | CallError::NotToml { offset } => at_offset(*offset),
        CallError::NotExact(lost) => ErrorRecord {
            length: lost.length as u64,
            ..at_offset(lost.offset.unwrap_or(0))
        },
        CallError::NotPointer(error) => pointer_row(error, pointer),
        CallError::Resolve(error) => ErrorRecord {
            length: token_length(pointer, error.offset()) as u64,
            ..resolve_row(error)
        },
        CallError::Assign(error) => ErrorRecord {
            length: token_length(pointer, error.offset()) as u64,
            ..assign_row(error)
        },
        CallError::NotPatch(error) => patch_document_row(error),
        CallError::PatchFailed(failed) => { patch_row(&failed.error, fault_number(failed.pointer)) }
        CallError::InverseTooDeep => of_kind(KIND_INVERSE_TOO_DEEP),
        CallError::TextTooDeep => of_kind(KIND_TEXT_TOO_DEEP),
        CallError::TomlTooDeep => of_kind(KIND_TOML_TOO_DEEP),
        CallError::NoTomlText => of_kind(KIND_NO_TOML_TEXT),
        CallError::NotRenamed(error) => of_kind(rename_kind(*error)),
        CallError::OpenComment { offset } => ErrorRecord {
            kind: KIND_OPEN_COMMENT,
            ..at_offset(*offset)
        },
        CallError::NotFragment(error) => fragment_row(error),
        CallError::Memory(_)
        | CallError::NoDocument
        | CallError::NoToken
        | CallError::NotLocated
        | CallError::OtherType
        | CallError::NotFinite
        | CallError::TooDeep
        | CallError::NotInPlace
        | CallError::NotTomlValue
        | CallError::OtherFormat => ErrorRecord::none(),
    }
}

/// Returns the record of an error that has only an offset.
fn at_offset(offset: usize) -> ErrorRecord
    ensures { result ≡ row 0 0 0 0 0 0 offset 0 }
{
    ErrorRecord {
        offset: offset as u64,
        ..ErrorRecord::none()
    }
}

/// Returns the row of a text that is not the fragment of a pointer. Its offset is that in the
/// fragment, and its slash that in the text which the fragment encodes.
fn fragment_row(error: &FragmentError) -> ErrorRecord
    ensures { result ≡ fragment_row error.now }
{
    match error {
        FragmentError::NoHash => of_kind(KIND_NO_HASH),
        FragmentError::BadByte { offset } => ErrorRecord {
            kind: KIND_BAD_BYTE,
            ..at_offset(*offset)
        },
        FragmentError::BadEscape { offset } => ErrorRecord {
            kind: KIND_BAD_PERCENT,
            ..at_offset(*offset)
        },
        FragmentError::NotUtf8 { offset } => ErrorRecord {
            kind: KIND_ENCODED_NOT_UTF8,
            ..at_offset(*offset)
        },
        FragmentError::NotPointer { offset, cause } => ErrorRecord {
            offset: *offset as u64,
            ..parse_row(cause)
        },
    }
}

/// Returns the kind of an error of a renaming.
fn rename_kind(error: RenameError) -> u32
    ensures { result ≡ rename_kind error }
{
    match error {
        RenameError::NotThere => KIND_NOTHING_THERE,
        RenameError::NotAMember => KIND_NOT_A_MEMBER,
        RenameError::KeyTaken => KIND_KEY_TAKEN,
    }
}

/// Returns the number of the argument.
fn argument_number(argument: Argument) -> u32
    ensures { result ≡ argument_number argument }
{
    match argument {
        Argument::Pointer => ARGUMENT_POINTER,
        Argument::Token => ARGUMENT_TOKEN,
        Argument::Text => ARGUMENT_TEXT,
    }
}

/// Returns the record of an error that has only a kind.
fn of_kind(kind: u32) -> ErrorRecord
    ensures { result ≡ of_kind kind }
{
    ErrorRecord {
        kind,
        ..ErrorRecord::none()
    }
}

/// Returns the record of an error of an operation, or of one of its members.
fn of_operation(kind: u32, member: u32, operation: usize) -> ErrorRecord
    ensures { result ≡ of_operation kind member operation }
{
    ErrorRecord {
        kind,
        member,
        operation: operation as u64,
        ..ErrorRecord::none()
    }
}

/// Returns the record of an error of the token after the slash at an offset.
fn at_token(kind: u32, position: usize, slash: usize) -> ErrorRecord
    ensures { result ≡ at_token kind position slash }
{
    ErrorRecord {
        kind,
        position: position as u64,
        slash: slash as u64,
        offset: slash.saturating_add(1) as u64,
        ..ErrorRecord::none()
    }
}

/// Returns the row of a token that selects no value.
fn resolve_row(error: &resolve::Error) -> ErrorRecord
    ensures { result ≡ resolve_row error.now }
{
    match error {
        resolve::Error::FailedToParseIndex {
            position,
            offset,
            ..
        } => at_token(KIND_NOT_AN_INDEX, *position, *offset),
        resolve::Error::OutOfBounds {
            position,
            offset,
            ..
        } => at_token(KIND_OUT_OF_BOUNDS, *position, *offset),
        resolve::Error::NotFound { position, offset } => {
            at_token(KIND_NO_MEMBER, *position, *offset)
        }
        resolve::Error::Unreachable { position, offset } => {
            at_token(KIND_NO_CHILDREN, *position, *offset)
        }
    }
}

/// Returns the row of a token at which no value can be assigned.
fn assign_row(error: &assign::Error) -> ErrorRecord
    ensures { result ≡ assign_row error.now }
{
    match error {
        assign::Error::FailedToParseIndex {
            position,
            offset,
            ..
        } => at_token(KIND_NOT_A_NEW_INDEX, *position, *offset),
        assign::Error::OutOfBounds {
            position,
            offset,
            ..
        } => at_token(KIND_INDEX_ABOVE_LENGTH, *position, *offset),
    }
}

/// Returns the row of an operation that fails, with the number of the member at fault.
fn patch_row(error: &PatchError, member: u32) -> ErrorRecord
    ensures { result ≡ patch_row error.now member }
{
    match error {
        PatchError::NoTarget { operation, cause } => ErrorRecord {
            member,
            operation: *operation as u64,
            ..resolve_row(cause)
        },
        PatchError::BadPlace { operation, cause } => ErrorRecord {
            member,
            operation: *operation as u64,
            ..assign_row(cause)
        },
        PatchError::MoveIntoSelf { operation } => {
            of_operation(KIND_MOVE_INTO_SELF, member, *operation)
        }
        PatchError::TestFloat { operation } => of_operation(KIND_TEST_FLOAT, member, *operation),
        PatchError::TestFailed { operation } => of_operation(KIND_TEST_FAILED, member, *operation),
    }
}

/// Returns the number of the member with the pointer at fault, or 0 if none is.
fn fault_number(pointer: Option<PatchPointer>) -> u32
    ensures { result ≡ fault_number pointer }
{
    match pointer {
        Some(PatchPointer::From) => MEMBER_FROM,
        Some(PatchPointer::Path) => MEMBER_PATH,
        None => 0,
    }
}

/// Returns the row of a document that is not a patch.
fn patch_document_row(error: &PatchDocumentError) -> ErrorRecord
    ensures { result ≡ patch_document_row error.now }
{
    match error {
        PatchDocumentError::NotArray => of_kind(KIND_NOT_AN_ARRAY),
        PatchDocumentError::NotObject { operation } => {
            of_operation(KIND_NOT_AN_OBJECT, 0, *operation)
        }
        PatchDocumentError::MissingMember { operation, member } => {
            of_operation(KIND_NO_SUCH_MEMBER, member_number(*member), *operation)
        }
        PatchDocumentError::NotString { operation, member } => {
            of_operation(KIND_NOT_A_STRING, member_number(*member), *operation)
        }
        PatchDocumentError::UnknownOp { operation } => {
            of_operation(KIND_UNKNOWN_OP, MEMBER_OP, *operation)
        }
        PatchDocumentError::NotPointer {
            operation,
            member,
            cause,
        } => ErrorRecord {
            member: member_number(*member),
            operation: *operation as u64,
            ..parse_row(cause)
        },
    }
}

/// Returns the number of the member.
fn member_number(member: Member) -> u32
    ensures { result ≡ member_number member }
{
    match member {
        Member::Op => MEMBER_OP,
        Member::Path => MEMBER_PATH,
        Member::From => MEMBER_FROM,
        Member::Value => MEMBER_VALUE,
    }
}

/// Returns the row of a text that is not a pointer, as far as it is known without the text.
fn parse_row(error: &ParseError) -> ErrorRecord
    ensures { result ≡ parse_row error.now }
{
    match error {
        ParseError::NoLeadingSlash => of_kind(KIND_NO_LEADING_SLASH),
        ParseError::InvalidEncoding { offset, source } => ErrorRecord {
            kind: KIND_BAD_ESCAPE,
            slash: *offset as u64,
            offset: offset.saturating_add(source.offset) as u64,
            ..ErrorRecord::none()
        },
    }
}

/// Returns the row of the bytes that are not a pointer.
fn pointer_row(error: &ParseError, bytes: &[u8]) -> ErrorRecord
    ensures { result ≡ pointer_row error.now bytes.now }
{
    match error {
        ParseError::NoLeadingSlash => parse_row(error),
        ParseError::InvalidEncoding { offset, source } => ErrorRecord {
            position: slashes_before(bytes, *offset) as u64,
            length: escape_length(bytes, offset.saturating_add(source.offset)) as u64,
            ..parse_row(error)
        },
    }
}

/// Returns the length of what is left of an escape that begins at the offset: 2, or 1 at the end.
fn escape_length(bytes: &[u8], tilde: usize) -> usize
    ensures { result ≡ escape_length bytes.now tilde }
{
    bytes.len().saturating_sub(tilde).min(2)
}

/// Returns the number of slashes before the offset.
#[tactic(auto, using(std::proofs::lemmas::List::take_min))]
fn slashes_before(pointer: &[u8], offset: usize) -> usize
    ensures { result ≡ slashes_before pointer.now offset }
{
    slashes(&pointer[..offset.min(pointer.len())])
}

/// Returns the number of slashes.
fn slashes(bytes: &[u8]) -> usize
    ensures { result ≡ count_by (λ b. b == 47) bytes.now }
{
    bytes.iter().filter(|byte| **byte == b'/').count()
}

/// Returns the length of the encoded token after the slash at an offset.
fn token_length(pointer: &[u8], slash: usize) -> usize
    ensures { result ≡ token_length pointer.now slash }
{
    length_before_slash(pointer.get(slash.saturating_add(1)..).unwrap_or(b""))
}

/// Returns how many bytes there are before the first slash.
fn length_before_slash(bytes: &[u8]) -> usize
    ensures { result ≡ prefix_len (λ b. not (b == 47)) bytes.now }
{
    bytes.iter().take_while(|byte| **byte != b'/').count()
}
