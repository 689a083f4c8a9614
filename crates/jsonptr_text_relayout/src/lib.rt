//! Prints a JSON document in the layout of an older text of it.
//!
//! ```rust
//! let mut buffers = Buffers::new(alloc);
//! let old = "{\n    \"name\": \"app\",\n    \"sizes\": [1.0, 5]\n}\n";
//! let new = json!(in alloc; {"name": "app", "sizes": [1.0, 7], "draft": true})?;
//! let relaid = relayout(&mut buffers, old, &new)?;
//! let text = "{\n    \"name\": \"app\",\n    \"sizes\": [1.0, 7],\n    \"draft\": true\n}\n";
//! assert_eq!(rt; relaid.as_str(), text);
//! ```
//!
//! - [`relayout`] takes the new document as a value, [`relayout_text`] as a text, whose numbers and
//!   strings stay as they are written.
//! - [`relayout_with_texts`] takes a value, and texts of values that are new in it.
//!
//! A value that is the same in both documents keeps its bytes. An array or an object that changed
//! keeps what is around its children. A child that is gone takes its comma along; the white space
//! after the bracket stays, and a line break if a kept child without one follows. A new child comes
//! in the style of its siblings. Any other new value is laid out as the document is.
//!
//! What the result reads as is proved, since the result is read again. Which bytes it keeps is tested,
//! except that a text that already reads as the new document is unchanged.
//!
//! In the examples `rt` is the runtime that `main` and each test receive, and `alloc` is
//! `rt.alloc()`, the allocator.
#![tactic(auto)]

mod align;
mod fresh;
mod gaps;
mod given;
mod hash;
mod lay;
mod relaid;
mod relayouts;
mod spaces;
mod tree;

pub use jsonptr_text_piece::buffers::Buffers;
pub use relaid::{Relaid, RelayoutError, RelayoutTextError};
pub use relayouts::{relayout, relayout_text, relayout_with_texts};
