//! The exit statuses of the program. It ends with 0 if all went well.

/// The answer is no, or nothing is there: a pointer leads to no value, a patch does not apply, or two values
/// or documents differ.
pub const NO: u8 = 1;
/// The command line is wrong, also by an argument that is not a pointer or a token.
pub const USAGE: u8 = 2;
/// A text is not UTF-8, JSON or TOML, a document is not a patch, a line is not a pointer, a tab and JSON, or a
/// number loses digits.
pub const BAD_INPUT: u8 = 3;
/// An allocation failed.
pub const MEMORY: u8 = 4;
/// A read or a write failed.
pub const FILE: u8 = 5;
/// An edit, a layout or a patch cannot be made.
pub const NOT_MADE: u8 = 6;
/// With one document a line, a line is at fault.
pub const BAD_LINE: u8 = 7;
