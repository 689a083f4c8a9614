//! JSON Pointers in the fragment of a URI (RFC 6901, section 6).
//!
//! ```rust
//! let pointer = Pointer::parse("/c%d/ü")?;
//! let fragment = to_fragment(alloc, pointer)?;
//! assert_eq!(rt; fragment.as_str(), "#/c%25d/%C3%BC");
//! let read = from_fragment(alloc, fragment.as_str())?;
//! assert_eq!(rt; read.as_ptr(), pointer);
//! ```
//!
//! In the examples `rt` is the runtime that `main` and each test receive, and `alloc` is
//! `rt.alloc()`, the allocator.
//!
//! - [`to_fragment`] writes the fragment of a pointer.
//! - [`from_fragment`] reads the pointer of a fragment.
//! - [`FragmentError`] says why a text is not the fragment of a pointer.
//! - [`laws`] states that reading what was written gives the pointer.
#![tactic(auto)]

mod error;
pub mod laws;
mod read;
mod set;
mod units;
mod write;

pub use error::FragmentError;
pub use read::from_fragment;
pub use write::to_fragment;
