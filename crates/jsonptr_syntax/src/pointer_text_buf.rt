//! A pointer's text that is owned and edited in place. A failed call leaves it unchanged.
ghost use Rattle.std.specs.Prelude.{◌≡◌, ◌≢◌, ◌<◌, ◌≤◌, [], ◌∷◌, ◌++◌, length, slice_get, slice_set, string_bytes, IsOk, IfOk, IfErr, MatchOption};
ghost use Rattle.jsonptr_grammar.specs.Text.{text};
ghost use Rattle.jsonptr_grammar.specs.Grammar.{IsPointer};
ghost use Rattle.jsonptr_syntax.specs.PointerText.{tokens, text_of};

use crate::pointer_text::PointerText;
use jsonptr_base::token::Token;
use std::alloc::{AllocError, Global};
use std::fmt;
use std::marker::Model;

/// An owned text that is a JSON Pointer (RFC 6901, section 3).
///
/// Contracts see it as the list of its decoded tokens; its text is the text of that list.
#[derive(Drop)]
pub struct PointerTextBuf {
    inner: String,
}

impl Model for PointerTextBuf {
    ghost use Rattle.std.specs.Prelude.{◌≡◌, ℕ, List, string_bytes};
    ghost use Rattle.jsonptr_grammar.specs.Text.{text, tokens_of};

    ghost Value = { List (List ℕ) };

    ghost view = { λ p. tokens_of (string_bytes p.inner) };

    ghost invariant = { λ p. text (tokens_of (string_bytes p.inner)) ≡ string_bytes p.inner };
}

impl PointerTextBuf {
    ghost use Rattle.jsonptr_syntax.specs.Ends.{PushesFront, PushesBack, PopsFront, PopsBack};

    /// Returns the text of the root pointer. Needs no allocation.
    pub fn new(alloc: Global) -> PointerTextBuf
        ensures { result ≡ [] }
    {
        PointerTextBuf {
            inner: String::new(alloc),
        }
    }

    /// Returns the text of the root pointer, with room for `capacity` bytes.
    ///
    /// # Errors
    ///
    /// [`AllocError`] if the allocation of that room fails.
    pub fn with_capacity(alloc: Global, capacity: usize) -> Result<PointerTextBuf, AllocError>
        ensures { IfOk result (λ p. p ≡ []) }
    {
        Ok(PointerTextBuf {
            inner: String::with_capacity(alloc, capacity)?,
        })
    }

    /// Wraps a text that is known to be a pointer, without checking it.
    ///
    /// # Conditions
    ///
    /// `s` is a pointer (RFC 6901, section 3).
    pub fn new_unchecked(s: String) -> PointerTextBuf
        requires { IsPointer (string_bytes s) }
        ensures { text result ≡ string_bytes s }
    {
        PointerTextBuf { inner: s }
    }

    /// Borrows the text.
    pub fn as_text(&self) -> PointerText<'_>
        ensures tokens { tokens result ≡ self.now }
        ensures text { text_of result ≡ text self.now }
    {
        PointerText::new(self.inner.as_str())
    }

    /// Returns the allocator of the text.
    pub fn allocator(&self) -> Global {
        *self.inner.allocator()
    }

    /// Makes it the root pointer: removes all tokens, and keeps the capacity.
    pub fn clear(&mut self)
        ensures { self.new ≡ [] }
    {
        self.inner.clear();
    }

    /// Inserts a token before the others.
    ///
    /// # Errors
    ///
    /// [`AllocError`] if the text has no room and the allocation of more fails.
    #[inline(always)]
    pub fn push_front(&mut self, token: &Token<'_>) -> Result<(), AllocError>
        ensures pushed { IfOk result (λ _. PushesFront self.old token.now self.new) }
        ensures unchanged { IfErr result (λ _. self.new ≡ self.old) }
    {
        insert_segment(&mut self.inner, token.encoded())?;
        Ok(())
    }

    /// Appends a token.
    ///
    /// # Errors
    ///
    /// [`AllocError`] if the text has no room and the allocation of more fails.
    #[inline(always)]
    pub fn push_back(&mut self, token: &Token<'_>) -> Result<(), AllocError>
        ensures pushed { IfOk result (λ _. PushesBack self.old token.now self.new) }
        ensures unchanged { IfErr result (λ _. self.new ≡ self.old) }
    {
        push_segment(&mut self.inner, token.encoded())?;
        Ok(())
    }

    /// Appends the tokens of another text.
    ///
    /// # Errors
    ///
    /// [`AllocError`] if the text has no room and the allocation of more fails.
    pub fn append(&mut self, other: PointerText<'_>) -> Result<(), AllocError>
        ensures joined { IfOk result (λ _. self.new ≡ self.old ++ tokens other.entry) }
        ensures unchanged { IfErr result (λ _. self.new ≡ self.old) }
    {
        self.inner.push_str(other.as_str())?;
        Ok(())
    }

    /// Removes the first token and returns it, or `None` at the root. Moves the rest of the text
    /// in place.
    ///
    /// # Errors
    ///
    /// [`AllocError`] if the allocation of the token fails. The root needs none.
    pub fn pop_front(&mut self) -> Result<Option<Token<'static>>, AllocError>
        ensures popped { IfOk result (λ r. PopsFront self.old r self.new) }
        ensures unchanged { IfErr result (λ _. self.new ≡ self.old) }
        ensures no_memory { self.old ≡ [] → IsOk result }
    {
        let Some((first, rest)) = PointerText::new(self.inner.as_str()).split_front() else {
            return Ok(None);
        };
        let first = first.into_owned(*self.inner.allocator())?;
        let end = self.inner.len() - rest.len();
        self.inner.replace_range(..end, "").unwrap();
        Ok(Some(first))
    }

    /// Removes the last token and returns it, or `None` at the root.
    ///
    /// # Errors
    ///
    /// [`AllocError`] if the allocation of the token fails. The root needs none.
    pub fn pop_back(&mut self) -> Result<Option<Token<'static>>, AllocError>
        ensures popped { IfOk result (λ r. PopsBack self.old r self.new) }
        ensures unchanged { IfErr result (λ _. self.new ≡ self.old) }
        ensures no_memory { self.old ≡ [] → IsOk result }
    {
        let Some((front, last)) = PointerText::new(self.inner.as_str()).split_back() else {
            return Ok(None);
        };
        let last = last.into_owned(*self.inner.allocator())?;
        let end = front.len();
        self.inner.truncate(end);
        Ok(Some(last))
    }

    /// Replaces the token at `index` and returns the old one, or `None` if there is no such token.
    ///
    /// # Errors
    ///
    /// [`AllocError`] if the allocation of the old token or of a longer text fails. `None` needs
    /// none.
    pub fn replace(
        &mut self,
        index: usize,
        token: &Token<'_>,
    ) -> Result<Option<Token<'static>>, AllocError>
        ensures old { IfOk result (λ old. old ≡ slice_get self.old index) }
        ensures replaced { IfOk result (λ old. MatchOption old
            ((length self.old ≤ index) × (self.new ≡ self.old))
            (λ _. (index < length self.old) × (self.new ≡ slice_set self.old index token.now))) }
        ensures unchanged { IfErr result (λ _. self.new ≡ self.old) }
        ensures no_memory { length self.old ≤ index → IsOk result }
    {
        let around = split_around(PointerText::new(self.inner.as_str()), index);
        let Some((front, old, rest)) = around else {
            return Ok(None);
        };
        let old = old.into_owned(*self.inner.allocator())?;
        let start = front.len() + 1;
        let end = self.inner.len() - rest.len();
        self.inner.replace_range(start..end, token.encoded())?;
        Ok(Some(old))
    }
}

/// Prints the text, as a string is printed.
impl fmt::Debug for PointerTextBuf {
    fn fmt<W: fmt::Write>(&self, f: &mut fmt::Formatter<W>) -> fmt::Result {
        self.inner.fmt(f)
    }
}

/// Splits a text around the token at `index`: the tokens before it, that token, and the tokens
/// after it. Returns `None` if there is no such token.
fn split_around<'a>(
    pointer: PointerText<'a>,
    index: usize,
) -> Option<(PointerText<'a>, Token<'a>, PointerText<'a>)>
    ensures { MatchOption result
        (length (tokens pointer.entry) ≤ index)
        (λ r. (tokens pointer.entry ≡ tokens r.0 ++ r.1 ∷ tokens r.2)
        × (length (tokens r.0) ≡ index)) }
{
    let (front, rest) = pointer.split_at_count(index)?;
    let (token, rest) = rest.split_front()?;
    Some((front, token, rest))
}

/// Inserts a slash and a token's text before a text. A text without room is written to a new
/// allocation, so that nothing is moved twice.
fn insert_segment(text: &mut String, token: &str) -> Result<(), AllocError>
    ensures inserted { IfOk result
        (λ _. string_bytes text.new ≡ 47 ∷ token.now ++ string_bytes text.old) }
    ensures unchanged { IfErr result (λ _. string_bytes text.new ≡ string_bytes text.old) }
{
    let segment = token.len().checked_add(1).ok_or(AllocError)?;
    let len = text.len().checked_add(segment).ok_or(AllocError)?;
    if len <= text.capacity() {
        text.insert_str(0, token).unwrap();
        text.insert(0, '/').unwrap();
        return Ok(());
    }
    let capacity = len.max(text.capacity().saturating_mul(2));
    let mut longer = String::with_capacity(*text.allocator(), capacity)?;
    longer.push('/').unwrap();
    longer.push_str(token).unwrap();
    longer.push_str(text.as_str()).unwrap();
    *text = longer;
    Ok(())
}

/// Appends a slash and a token's text to a text. If there is no room for the token, the slash is
/// removed again.
#[inline(always)]
fn push_segment(text: &mut String, token: &str) -> Result<(), AllocError>
    ensures pushed { IfOk result
        (λ _. string_bytes text.new ≡ string_bytes text.old ++ 47 ∷ token.now) }
    ensures unchanged { IfErr result (λ _. string_bytes text.new ≡ string_bytes text.old) }
{
    let len = text.len();
    text.push('/')?;
    if let Err(error) = text.push_str(token) {
        text.truncate(len);
        return Err(error);
    }
    Ok(())
}
