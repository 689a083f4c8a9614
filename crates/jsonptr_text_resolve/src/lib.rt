//! Resolves a JSON Pointer ([RFC 6901](https://www.rfc-editor.org/rfc/rfc6901)) in the text of a
//! JSON document, without reading the document into a `Value`.
//!
//! ```rust
//! let text = r#"{"name": "Ada", "sizes": [3, 5]}"#;
//! let size = resolve_in_text(alloc, text, Pointer::parse("/sizes/1")?)?;
//! assert_eq!(rt; size.as_u64(), Some(5));
//! let third = Pointer::parse("/sizes/2")?;
//! assert_eq!(rt; exists_in_text(alloc, text, third)?, false);
//! ```
//!
//! The result is the one of `Value::from_str` and then [`Pointer::resolve`](jsonptr::Pointer):
//!
//! - the same value: of a repeated key the last member counts;
//! - the same [`resolve::Error`](jsonptr::resolve::Error), with its position, offset and cause;
//! - the same texts are not JSON: those that nest deeper than 127, that contain a number out of
//!   range or a lone surrogate, or that go on after the value.
//!
//! A text that is not JSON is reported as that, even if the damage is after the value.
//!
//! [`format_text`] lays the tokens of a text out anew, without reading a document either, and
//! [`is_document`] returns whether a text is JSON.
//!
//! # Cost
//!
//! One pass over the text, and two of [`format_text`]. Memory for the text's strings, unescaped, and for the value that is
//! found. The stack is in proportion to the depth that is read, at most 127.
//!
//! To resolve in many short texts keep one [`Scratch`], and pass it to the calls that end in `_with`:
//! it keeps its memory from text to text.
//!
//! In the examples `rt` is the runtime that `main` and each test receive, and `alloc` is
//! `rt.alloc()`, the allocator.
#![tactic(auto)]

mod both_formats;
mod document;
mod error_at;
mod format;
pub mod laws;
pub mod path;
mod resolve;
pub mod selectors;
mod with_child;

pub use both_formats::{BothFormats, format_both};
pub use document::is_document;
pub use format::{Format, format_text};
pub use json::Scratch;
pub use jsonptr_value::ReadError;
pub use resolve::{
    InTextError, exists_in_text, exists_in_text_with, resolve_in_slice, resolve_in_slice_with,
    resolve_in_text, resolve_in_text_with,
};
