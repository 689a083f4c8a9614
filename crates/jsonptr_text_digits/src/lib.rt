//! Numbers of a JSON text whose digits are lost when a document is read and printed.
//!
//! `serde_json` keeps whole numbers of 64 bits, and every other number as the nearest double. It
//! prints a double with as few digits as read back. So `0.1`, `1.10` and `1e5` keep their decimal
//! values, and `12345678901234567890123` and `3.14159265358979323846` do not.
//!
//! ```rust
//! assert_eq!(rt; is_kept("1.10"), true);
//! assert_eq!(rt; is_kept("3.14159265358979323846"), false);
//! let text = r#"{"id": 12345678901234567890123}"#;
//! let Err(ExactError::Lost(lost)) = read_exactly(alloc, text) else {
//!     return Err("a document".into());
//! };
//! assert_eq!(rt; format!(in alloc; "{lost}")?.as_str(), "the number at /id loses digits");
//! ```
//!
//! In the examples `rt` is the runtime that `main` and each test receive, and `alloc` is
//! `rt.alloc()`, the allocator.
#![tactic(auto)]

mod digits;
mod exact;
mod first_lost;
mod kept;
pub mod laws;
mod lost;
mod normal;
mod search;

pub use exact::{ExactError, read_exactly};
pub use kept::is_kept;
pub use lost::Lost;
pub use search::find_lost;
