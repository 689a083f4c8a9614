//! The edits of an owned pointer, with or without a table.
ghost use Rattle.std.specs.Prelude.{◌≡◌, ◌↔◌, ◌≤◌, List, [], ◌++◌, length, string_bytes, IsOk, IfOk, IfErr};
ghost use Rattle.jsonptr.specs.Text.{Text, text};
ghost use Rattle.jsonptr.specs.Grammar.{IsPointer};
ghost use Rattle.jsonptr.specs.Fault.{IfRefused, IsRefused};
ghost use Rattle.jsonptr.specs.Report.{original_of, subject_of};
ghost use Rattle.jsonptr.specs.ParseError.{IsParseErrorOf};
ghost use Rattle.jsonptr.specs.Ends.{PushesFront, PushesBack, PopsFront, PopsBack};
ghost use Rattle.jsonptr.specs.Pointer.{tokens};
ghost use Rattle.jsonptr.specs.PointerBuf.{Replaces, RefusesReplace};

use crate::TabledPointer;
use jsonptr::{Fault, Pointer, PointerBuf, ReplaceError, RichParseError, Token};
use std::alloc::AllocError;

/// A JSON Pointer that owns its text and can be edited: a [`PointerBuf`], or a [`TabledPointer`]
/// with its table.
///
/// Contracts view it as the list of its decoded tokens, `list`. After an error, a failed allocation
/// included, the list is unchanged.
///
/// ```rust
/// let mut plain = PointerBuf::from_text(alloc, "/lines")?;
/// let mut tabled = TabledPointer::from_plain(alloc, plain.clone()?)?;
/// EditPointer::push_back(&mut plain, Token::from_number(alloc, 7)?)?;
/// EditPointer::push_back(&mut tabled, Token::from_number(alloc, 7)?)?;
/// assert_eq!(rt; EditPointer::as_ptr(&tabled), EditPointer::as_ptr(&plain));
/// ```
pub trait EditPointer {
    // the decoded tokens, in order
    ghost list: { Self → List Text };

    /// Returns a view of the pointer, which borrows its text.
    fn as_ptr(&self) -> Pointer<'_>
        ensures { tokens result ≡ list self.now };

    /// Replaces the pointer by the one with the text `s`. Keeps `s` as its text, without a copy.
    ///
    /// ```rust
    /// let mut pointer = PointerBuf::from_text(alloc, "/lines")?;
    /// let changed = pointer.set_text(String::from_str(alloc, "lines/7")?);
    /// let report = changed.err().ok_or("an error")?.refused()?;
    /// assert_eq!(rt; report.subject().as_str(), "lines/7");
    /// assert_eq!(rt; pointer.as_ptr().as_str(), "/lines");
    /// ```
    ///
    /// # Errors
    ///
    /// [`Fault::Refused`] if `s` is not a valid JSON Pointer (RFC 6901, section 3). The
    /// [`RichParseError`] in it has the first error and `s` itself. [`Fault::Memory`] if an
    /// allocation fails; `s` is then dropped.
    fn set_text(&mut self, s: String) -> Result<(), Fault<RichParseError>>
        ensures text { IfOk result (λ _. text (list self.new) ≡ string_bytes s) }
        ensures not_pointer { IsRefused result ↔ (IsPointer (string_bytes s) → ⊥) }
        ensures refused { IfRefused result
            (λ report. IsParseErrorOf (string_bytes s) (original_of report)) }
        ensures subject { IfRefused result (λ report. subject_of report ≡ s) }
        ensures unchanged { IfErr result (λ _. list self.new ≡ list self.old) };

    /// Inserts a token before all others.
    ///
    /// ```rust
    /// let mut pointer = PointerBuf::from_text(alloc, "/text")?;
    /// EditPointer::push_front(&mut pointer, Token::from_number(alloc, 7)?)?;
    /// assert_eq!(rt; pointer.as_ptr().as_str(), "/7/text");
    /// ```
    ///
    /// # Errors
    ///
    /// [`AllocError`] if an allocation fails.
    fn push_front(&mut self, token: Token<'_>) -> Result<(), AllocError>
        ensures pushed { IfOk result
            (λ _. PushesFront (list self.old) token.entry (list self.new)) }
        ensures unchanged { IfErr result (λ _. list self.new ≡ list self.old) };

    /// Appends a token.
    ///
    /// ```rust
    /// let mut pointer = PointerBuf::from_text(alloc, "/lines")?;
    /// EditPointer::push_back(&mut pointer, Token::from_number(alloc, 7)?)?;
    /// assert_eq!(rt; pointer.as_ptr().as_str(), "/lines/7");
    /// ```
    ///
    /// # Errors
    ///
    /// [`AllocError`] if an allocation fails.
    fn push_back(&mut self, token: Token<'_>) -> Result<(), AllocError>
        ensures pushed { IfOk result (λ _. PushesBack (list self.old) token.entry (list self.new)) }
        ensures unchanged { IfErr result (λ _. list self.new ≡ list self.old) };

    /// Removes the first token and returns it, or returns `None` at the root. The token owns its
    /// text.
    ///
    /// ```rust
    /// let mut pointer = PointerBuf::from_text(alloc, "/7/text")?;
    /// let first = EditPointer::pop_front(&mut pointer)?;
    /// assert_eq!(rt; first, Some(Token::from_number(alloc, 7)?));
    /// assert_eq!(rt; pointer.as_ptr().as_str(), "/text");
    /// ```
    ///
    /// # Errors
    ///
    /// [`AllocError`] if there is no memory for the token. The root needs no allocation.
    fn pop_front(&mut self) -> Result<Option<Token<'static>>, AllocError>
        ensures popped { IfOk result (λ r. PopsFront (list self.old) r (list self.new)) }
        ensures unchanged { IfErr result (λ _. list self.new ≡ list self.old) }
        ensures no_memory { list self.old ≡ [] → IsOk result };

    /// Removes the last token and returns it, or returns `None` at the root. The token owns its
    /// text.
    ///
    /// ```rust
    /// let mut pointer = PointerBuf::from_text(alloc, "/7")?;
    /// let last = EditPointer::pop_back(&mut pointer)?;
    /// assert_eq!(rt; last, Some(Token::from_number(alloc, 7)?));
    /// assert_eq!(rt; EditPointer::pop_back(&mut pointer)?, None);
    /// ```
    ///
    /// # Errors
    ///
    /// [`AllocError`] if there is no memory for the token. The root needs no allocation.
    fn pop_back(&mut self) -> Result<Option<Token<'static>>, AllocError>
        ensures popped { IfOk result (λ r. PopsBack (list self.old) r (list self.new)) }
        ensures unchanged { IfErr result (λ _. list self.new ≡ list self.old) }
        ensures no_memory { list self.old ≡ [] → IsOk result };

    /// Replaces the token at position `index`, and returns the old one. Never returns `Ok(None)`.
    ///
    /// ```rust
    /// let mut pointer = PointerBuf::from_text(alloc, "/lines/7")?;
    /// let old = EditPointer::replace(&mut pointer, 1, Token::from_number(alloc, 8)?)?;
    /// assert_eq!(rt; old, Some(Token::from_number(alloc, 7)?));
    /// assert_eq!(rt; pointer.as_ptr().as_str(), "/lines/8");
    /// ```
    ///
    /// # Errors
    ///
    /// [`Fault::Refused`] with a [`ReplaceError`] if `index` is not less than the number of tokens.
    /// This is checked before anything is allocated. [`Fault::Memory`] if an allocation fails.
    fn replace(
        &mut self,
        index: usize,
        token: Token<'_>,
    ) -> Result<Option<Token<'static>>, Fault<ReplaceError>>
        ensures replaced { IfOk result
            (λ old. Replaces (list self.old) index token.entry old (list self.new)) }
        ensures refused { IfRefused result (RefusesReplace (list self.old) index) }
        ensures past { IsRefused result ↔ (length (list self.old) ≤ index) }
        ensures unchanged { IfErr result (λ _. list self.new ≡ list self.old) };

    /// Appends the tokens of another pointer.
    ///
    /// ```rust
    /// let mut pointer = PointerBuf::from_text(alloc, "/lines")?;
    /// EditPointer::append(&mut pointer, Pointer::parse("/7/text")?)?;
    /// assert_eq!(rt; pointer.as_ptr().as_str(), "/lines/7/text");
    /// ```
    ///
    /// # Errors
    ///
    /// [`AllocError`] if an allocation fails.
    fn append(&mut self, other: Pointer<'_>) -> Result<(), AllocError>
        ensures joined { IfOk result (λ _. list self.new ≡ list self.old ++ tokens other.entry) }
        ensures unchanged { IfErr result (λ _. list self.new ≡ list self.old) };

    /// Removes all tokens. The pointer is then the root.
    ///
    /// ```rust
    /// let mut pointer = PointerBuf::from_text(alloc, "/lines/7")?;
    /// EditPointer::clear(&mut pointer);
    /// assert!(rt; pointer.as_ptr().is_root());
    /// ```
    fn clear(&mut self)
        ensures { list self.new ≡ [] };
}

impl EditPointer for PointerBuf {
    ghost list = { λ p. p };

    fn as_ptr(&self) -> Pointer<'_> {
        PointerBuf::as_ptr(self)
    }

    fn set_text(&mut self, s: String) -> Result<(), Fault<RichParseError>> {
        match PointerBuf::parse(s) {
            Ok(parsed) => {
                *self = parsed;
                Ok(())
            }
            Err(report) => Err(Fault::Refused(report)),
        }
    }

    fn push_front(&mut self, token: Token<'_>) -> Result<(), AllocError> {
        PointerBuf::push_front(self, token)
    }

    fn push_back(&mut self, token: Token<'_>) -> Result<(), AllocError> {
        PointerBuf::push_back(self, token)
    }

    fn pop_front(&mut self) -> Result<Option<Token<'static>>, AllocError> {
        PointerBuf::pop_front(self)
    }

    fn pop_back(&mut self) -> Result<Option<Token<'static>>, AllocError> {
        PointerBuf::pop_back(self)
    }

    fn replace(
        &mut self,
        index: usize,
        token: Token<'_>,
    ) -> Result<Option<Token<'static>>, Fault<ReplaceError>> {
        PointerBuf::replace(self, index, token)
    }

    fn append(&mut self, other: Pointer<'_>) -> Result<(), AllocError> {
        PointerBuf::append(self, other)?;
        Ok(())
    }

    fn clear(&mut self) {
        PointerBuf::clear(self);
    }
}

impl EditPointer for TabledPointer {
    ghost list = { λ p. p };

    fn as_ptr(&self) -> Pointer<'_> {
        TabledPointer::as_ptr(self)
    }

    fn set_text(&mut self, s: String) -> Result<(), Fault<RichParseError>> {
        match TabledPointer::parse(self.allocator(), s) {
            Ok(parsed) => {
                *self = parsed;
                Ok(())
            }
            Err(fault) => Err(fault),
        }
    }

    fn push_front(&mut self, token: Token<'_>) -> Result<(), AllocError> {
        TabledPointer::push_front(self, token)
    }

    fn push_back(&mut self, token: Token<'_>) -> Result<(), AllocError> {
        TabledPointer::push_back(self, token)
    }

    fn pop_front(&mut self) -> Result<Option<Token<'static>>, AllocError> {
        TabledPointer::pop_front(self)
    }

    fn pop_back(&mut self) -> Result<Option<Token<'static>>, AllocError> {
        TabledPointer::pop_back(self)
    }

    fn replace(
        &mut self,
        index: usize,
        token: Token<'_>,
    ) -> Result<Option<Token<'static>>, Fault<ReplaceError>> {
        TabledPointer::replace(self, index, token)
    }

    fn append(&mut self, other: Pointer<'_>) -> Result<(), AllocError> {
        TabledPointer::append(self, other)
    }

    fn clear(&mut self) {
        TabledPointer::clear(self);
    }
}
