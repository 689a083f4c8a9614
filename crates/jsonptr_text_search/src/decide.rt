//! What is decided at each member.
//!
//! The test is a function, though it is a single operator: a proof can name the result of a call,
//! and has its clause as a fact.
ghost use Rattle.std.specs.Prelude.{◌≡◌, ◌↔◌, IsTrue};

/// Returns whether the texts are equal.
///
/// # Examples
///
/// ```rust
/// assert!(rt; is_text("a", "a") && !is_text("a", "b"));
/// ```
pub fn is_text(text: &str, other: &str) -> bool
    ensures { IsTrue result ↔ (text.now ≡ other.now) }
{
    text == other
}
