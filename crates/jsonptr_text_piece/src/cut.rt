//! A text that is cut at two offsets, and a text with the piece between them replaced.
ghost use Rattle.std.specs.Prelude.{◌≡◌, ℕ, List, ◌++◌, IfOk, IfSome, string_bytes};

use std::alloc::{AllocError, Global};

/// A text that is cut at two offsets. It borrows the text.
#[derive(Clone, Copy, Debug, Drop)]
pub struct Cut<'t> {
    /// The whole text.
    pub text: &'t str,
    /// What is before the first offset.
    pub before: &'t str,
    /// What is between the two offsets.
    pub middle: &'t str,
    /// What is after the second offset.
    pub after: &'t str,
    ghost whole: { text.now ≡ before.now ++ (middle.now ++ after.now) },
}

/// Cuts the text at the two offsets. Returns `None` if they are not in order, or not between
/// characters.
///
/// # Examples
///
/// ```rust
/// let cut = cut_at("[1, 2]", 1, 2).ok_or("a cut")?;
/// assert_eq!(rt; (cut.before, cut.middle, cut.after), ("[", "1", ", 2]"));
/// assert!(rt; cut_at("[1]", 2, 1).is_none());
/// ```
pub fn cut_at(text: &str, from: usize, to: usize) -> Option<Cut<'_>>
    ensures { IfSome result (λ c. c.text.now ≡ text.now) }
{
    let length = to.checked_sub(from)?;
    let (before, rest) = text.split_at_checked(from)?;
    let (middle, after) = rest.split_at_checked(length)?;
    Some(Cut {
        text,
        before,
        middle,
        after,
    })
}

/// Returns what is after `front` in the text, which begins with it. Returns `None` if the text is shorter.
///
/// Looks at the length of `front` alone.
///
/// # Examples
///
/// ```rust
/// assert_eq!(rt; after_front("[1, 2]", "[1").ok_or("a text")?, ", 2]");
/// ```
pub fn after_front<'t>(text: &'t str, front: &str) -> Option<&'t str>
    ensures { (rest : List ℕ) → text.now ≡ front.now ++ rest → IfSome result (λ t. t.now ≡ rest) }
{
    let (_, rest) = text.split_at_checked(front.len())?;
    Some(rest)
}

/// Returns the text with `piece` instead of what is between the two offsets.
///
/// # Errors
///
/// [`AllocError`] if there is no memory for the new text.
///
/// # Examples
///
/// ```rust
/// let cut = cut_at("[1, 2]", 1, 2).ok_or("a cut")?;
/// assert_eq!(rt; splice(alloc, &cut, "true")?.as_str(), "[true, 2]");
/// ```
pub fn splice(alloc: Global, cut: &Cut<'_>, piece: &str) -> Result<String, AllocError>
    ensures { IfOk result
        (λ new. string_bytes new ≡ cut.now.before.now ++ (piece.now ++ cut.now.after.now)) }
{
    let mut new = String::new(alloc);
    new.push_str(cut.before)?;
    new.push_str(piece)?;
    new.push_str(cut.after)?;
    Ok(new)
}
