//! JSON text with comments and trailing commas, as in `tsconfig.json` and in the settings of editors.
//!
//! [`without_comments`] returns the same text with spaces instead of them. It has the same length, so
//! every call on JSON text can read it, and each offset in it is one of the old text.
//!
//! ```rust
//! let text = "{ // size\n  \"size\": 3, /* px */\n}";
//! let json = without_comments(alloc, text)?;
//! assert_eq!(rt; json.as_str(), "{        \n  \"size\": 3          \n}");
//! ```
//!
//! A [`CommentedText`] keeps both texts, so that the comments of a text are looked for once.
//!
//! The module [`piece`] cuts a text into strings, comments and other bytes.
//!
//! In the examples `rt` is the runtime that `main` and each test receive, and `alloc` is
//! `rt.alloc()`, the allocator.
#![tactic(auto)]

mod back;
mod commented_text;
mod comments;
mod error;
pub mod laws;
pub mod piece;
mod scan;
mod step;

pub use commented_text::CommentedText;
pub use comments::without_comments;
pub use error::CommentError;
