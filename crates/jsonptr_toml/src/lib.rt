//! Finds, changes and lists values in the text of a TOML document. The document is read, and printed
//! anew after a change: its comments and its layout are not kept.
//!
//! ```rust
//! let text = "# The size\nsize = 3\n";
//! let size = Pointer::parse("/size")?;
//! assert_eq!(rt; resolve_in_toml(alloc, text, size)?.as_integer(), Some(3));
//! let new = assign_and_print_toml(alloc, text, size, 5.into())?;
//! assert_eq!(rt; new.as_str(), "size = 5\n");
//! let lines = list_in_toml(alloc, text, Listed::Leaves)?;
//! assert_eq!(rt; lines.as_str(), "/size\t3\n");
//! ```
//!
//! In the examples `rt` is the runtime that `main` and each test receive, and `alloc` is
//! `rt.alloc()`, the allocator.
#![tactic(auto)]

mod change;
pub mod depth;
pub mod document;
mod error;
mod listing;

pub use change::{assign_and_print_toml, delete_and_print_toml, resolve_in_toml};
pub use error::{EditTomlError, InTomlError, PrintTomlError, ReadTomlError};
pub use listing::list_in_toml;
