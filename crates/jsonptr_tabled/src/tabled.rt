//! Pointers that own their text and a table of its slashes.
ghost use Rattle.std.specs.Prelude.{◌≡◌, ◌↔◌, ◌≤◌, refl, List, [], ◌++◌, length, slice_index, string_bytes, Some, IsSome, IsTrue, IsOk, IfOk, IfErr};
ghost use Rattle.std.proofs.Common.{rules};
ghost use Rattle.std.specs.Hash as fed;
ghost use Rattle.std.specs.Ordering.{nat_cmp};
ghost use Rattle.std.specs.Str.{bytes_eq};
ghost use Rattle.std.specs.Cmp;
ghost use Rattle.std.specs.Cmp.{on_equiv, on_per, on_po, on_total};
ghost use Rattle.std.specs.Cmp.Lexicographic.{slice_cmp, nat_list_eq_equiv, nat_list_cmp_total, texts_po, texts_ties};
ghost use Rattle.std.specs.Cmp.Rules.{hashing};
ghost use Rattle.jsonptr.specs.Text.{text};
ghost use Rattle.jsonptr.specs.Grammar.{IsPointer};
ghost use Rattle.jsonptr.specs.Fault.{IfRefused, IsRefused};
ghost use Rattle.jsonptr.specs.Report.{original_of, subject_of};
ghost use Rattle.jsonptr.specs.ParseError.{IsParseErrorOf};
ghost use Rattle.jsonptr.specs.Ends.{IsFirstOf, IsLastOf, PushesFront, PushesBack, PopsFront, PopsBack};
ghost use Rattle.jsonptr.specs.Pointer.{tokens, text_of, IsParentOf, IsSplitAt, IsSplitOf};
ghost use Rattle.jsonptr.specs.PointerBuf.{Replaces, RefusesReplace};
ghost use Rattle.jsonptr.specs.Slashes.{slash_offsets};

use crate::table;
use jsonptr::{Fault, Pointer, PointerBuf, PointerIndex, ReplaceError, RichParseError, Token};
use std::alloc::{AllocError, Global};
use std::cmp::Ordering;
use std::fmt;
use std::hash::{Hash, Hasher};
use std::marker::Model;

/// A JSON Pointer that owns its text and a table of the byte offsets of all slashes in it. It is a
/// [`PointerBuf`] whose reading calls look positions up in the table.
///
/// Contracts view it as the list of its decoded tokens. Its text is the text of that list.
///
/// | Calls | Time |
/// | --- | --- |
/// | `new`, `into_plain`, `as_ptr`, `offsets`, `count`, `clear` | constant |
/// | `front`, `back`, `parent`, `get`, `split_at`, `split_at_offset` | constant |
/// | `parse`, `from_plain`, `clone`, comparisons, `hash` | linear in the length of the pointer |
/// | `push_back`, `append`, `pop_back` | linear in the length of what is appended or removed; linear in the pointer where the text or the table grows |
/// | `push_front`, `pop_front`, `replace` | linear in the length of the pointer |
///
/// ```rust
/// let plain = PointerBuf::from_text(alloc, "/files/src~1lib.rt/7")?;
/// let pointer = TabledPointer::from_plain(alloc, plain)?;
/// assert_eq!(rt; pointer.offsets(), [0, 6, 18].as_slice());
/// assert_eq!(rt; pointer.get(2), Some(Token::from_number(alloc, 7)?));
/// ```
#[derive(Debug, Drop)]
pub struct TabledPointer {
    plain: PointerBuf,
    offsets: Vec<usize>,
}

impl Model for TabledPointer {
    ghost use Rattle.std.specs.Prelude.{◌≡◌, ℕ, List};
    ghost use Rattle.jsonptr.specs.Slashes.{slash_offsets};

    ghost Value = { List (List ℕ) };

    ghost view = { λ p. p.plain };

    ghost invariant = { λ p. p.offsets.items ≡ slash_offsets p.plain };
}

impl TabledPointer {
    /// Returns the pointer without tokens, which refers to the whole document. Allocates nothing.
    ///
    /// ```rust
    /// let root = TabledPointer::new(alloc);
    /// assert!(rt; root.as_ptr().is_root());
    /// assert_eq!(rt; root.count(), 0);
    /// ```
    pub fn new(alloc: Global) -> TabledPointer
        ensures { result ≡ [] }
    {
        TabledPointer {
            plain: PointerBuf::new(alloc),
            offsets: Vec::new(alloc),
        }
    }

    /// Parses a pointer that keeps `s` as its text. Takes time linear in its length, and allocates
    /// the table.
    ///
    /// ```rust
    /// let text = String::from_str(alloc, "/lines/~7")?;
    /// let parsed = TabledPointer::parse(alloc, text);
    /// let report = parsed.err().ok_or("an error")?.refused()?;
    /// assert_eq!(rt; report.original().pointer_offset(), 6);
    /// assert_eq!(rt; report.subject().as_str(), "/lines/~7");
    /// ```
    ///
    /// # Errors
    ///
    /// [`Fault::Refused`] if `s` is not a valid JSON Pointer (RFC 6901, section 3). The
    /// [`RichParseError`] in it has the first error and `s` itself. [`Fault::Memory`] if there is
    /// no memory for the table; `s` is then dropped.
    pub fn parse(alloc: Global, s: String) -> Result<TabledPointer, Fault<RichParseError>>
        ensures text { IfOk result (λ p. text p ≡ string_bytes s) }
        ensures not_pointer { IsRefused result ↔ (IsPointer (string_bytes s) → ⊥) }
        ensures refused { IfRefused result
            (λ report. IsParseErrorOf (string_bytes s) (original_of report)) }
        ensures subject { IfRefused result (λ report. subject_of report ≡ s) }
    {
        match PointerBuf::parse(s) {
            Ok(plain) => Ok(TabledPointer::from_plain(alloc, plain)?),
            Err(report) => Err(Fault::Refused(report)),
        }
    }

    /// Converts a pointer without a table to one with a table. Keeps its text, and allocates the
    /// table in one pass over it.
    ///
    /// ```rust
    /// let plain = PointerBuf::from_text(alloc, "/lines/7")?;
    /// let pointer = TabledPointer::from_plain(alloc, plain)?;
    /// assert_eq!(rt; pointer.offsets(), [0, 6].as_slice());
    /// ```
    ///
    /// # Errors
    ///
    /// [`AllocError`] if there is no memory for the table. The pointer is then dropped.
    pub fn from_plain(alloc: Global, plain: PointerBuf) -> Result<TabledPointer, AllocError>
        ensures { IfOk result (λ p. p ≡ plain) }
    {
        let mut offsets = Vec::with_capacity(alloc, plain.as_ptr().count())?;
        table::extend(&mut offsets, len_of(&plain), plain.as_ptr());
        Ok(TabledPointer { plain, offsets })
    }

    /// Converts the pointer to one without a table. Keeps its text, allocates nothing, and takes
    /// constant time.
    ///
    /// ```rust
    /// let mut pointer = TabledPointer::new(alloc);
    /// pointer.push_back(Token::from_number(alloc, 7)?)?;
    /// assert_eq!(rt; pointer.into_plain(), PointerBuf::from_usize(alloc, 7)?);
    /// ```
    pub fn into_plain(self) -> PointerBuf
        ensures { result ≡ self }
    {
        let TabledPointer { plain, offsets: _ } = self;
        plain
    }

    /// Returns a view of the pointer, which borrows its text.
    pub fn as_ptr(&self) -> Pointer<'_>
        ensures tokens { tokens result ≡ self.now }
        ensures text { text_of result ≡ text self.now }
    {
        self.plain.as_ptr()
    }

    /// Returns the table: the byte offsets of all slashes in the text, in ascending order. Each is
    /// the offset at which a token's slash is.
    ///
    /// ```text
    /// text     /lines/7/text
    ///          ^     ^ ^
    /// offsets  0     6 8
    /// ```
    pub fn offsets(&self) -> &[usize]
        ensures { result.now ≡ slash_offsets self.now }
    {
        self.offsets.as_slice()
    }

    /// Returns the number of tokens, which is the length of the table.
    pub fn count(&self) -> usize
        ensures { result ≡ length self.now }
    {
        self.offsets().len()
    }

    /// Returns the first token, or `None` at the root.
    pub fn front(&self) -> Option<Token<'_>>
        ensures { IsFirstOf self.now result }
    {
        self.get(0)
    }

    /// Returns the last token, or `None` at the root.
    pub fn back(&self) -> Option<Token<'_>>
        ensures { IsLastOf self.now result }
    {
        let last = self.count().checked_sub(1)?;
        self.get(last)
    }

    /// Returns the pointer of all tokens except the last, or `None` at the root. Borrows from this
    /// pointer's text.
    ///
    /// ```rust
    /// let plain = PointerBuf::from_text(alloc, "/lines/7")?;
    /// let pointer = TabledPointer::from_plain(alloc, plain)?;
    /// assert_eq!(rt; pointer.parent(), Some(Pointer::parse("/lines")?));
    /// ```
    pub fn parent(&self) -> Option<Pointer<'_>>
        ensures { IsParentOf self.now result }
    {
        let last = self.count().checked_sub(1)?;
        self.get(..last)
    }

    /// Splits the pointer before the slash at byte `offset` of its text. Returns `None` if there is
    /// no slash at that offset. Reads only that byte, and not the table.
    ///
    /// ```text
    /// /lines/7/text
    ///       ^ offset 6
    /// "/lines"  "/7/text"
    /// ```
    ///
    /// ```rust
    /// let plain = PointerBuf::from_text(alloc, "/lines/7/text")?;
    /// let pointer = TabledPointer::from_plain(alloc, plain)?;
    /// let (front, rest) = pointer.split_at_offset(6).ok_or("a slash")?;
    /// assert_eq!(rt; (front.as_str(), rest.as_str()), ("/lines", "/7/text"));
    /// assert_eq!(rt; pointer.split_at_offset(7), None);
    /// ```
    pub fn split_at_offset(&self, offset: usize) -> Option<(Pointer<'_>, Pointer<'_>)>
        ensures slash { IsSome result ↔ (slice_index (text self.now) offset ≡ 47) }
        ensures split { IsSplitOf self.now offset result }
    {
        self.as_ptr().split_at_offset(offset)
    }

    /// Splits the pointer after its first `position` tokens. Returns `None` if it has fewer. Looks
    /// the offset up in the table.
    ///
    /// ```rust
    /// let plain = PointerBuf::from_text(alloc, "/lines/7/text")?;
    /// let pointer = TabledPointer::from_plain(alloc, plain)?;
    /// let (front, rest) = pointer.split_at(2).ok_or("two tokens")?;
    /// assert_eq!(rt; (front.as_str(), rest.as_str()), ("/lines/7", "/text"));
    /// assert_eq!(rt; pointer.split_at(4), None);
    /// ```
    pub fn split_at(&self, position: usize) -> Option<(Pointer<'_>, Pointer<'_>)>
        ensures { IsSplitAt self.now position result }
    {
        match self.offsets().get(position) {
            Some(offset) => self.as_ptr().split_at_offset(*offset),
            None if position == self.count() => Some((self.as_ptr(), Pointer::root())),
            None => None,
        }
    }

    /// Returns the token at a position, or the pointer of the tokens in a range of positions. The
    /// first token is at position 0. Returns `None` if the pointer does not have all of these
    /// positions. A range with a start requires a token at that start.
    ///
    /// ```rust
    /// let plain = PointerBuf::from_text(alloc, "/lines/7/text")?;
    /// let pointer = TabledPointer::from_plain(alloc, plain)?;
    /// assert_eq!(rt; pointer.get(1), Some(Token::from_number(alloc, 7)?));
    /// assert_eq!(rt; pointer.get(1..), Some(Pointer::parse("/7/text")?));
    /// assert_eq!(rt; pointer.get(3), None);
    /// ```
    pub fn get<'a, I: PointerIndex<'a>>(&'a self, index: I) -> Option<I::Output>
        ensures { I.gives index self.now result }
    {
        index.get_tabled(self.as_ptr(), self.offsets())
    }

    /// Inserts a token before all others. Moves the text and every offset.
    ///
    /// ```rust
    /// let plain = PointerBuf::from_text(alloc, "/text")?;
    /// let mut pointer = TabledPointer::from_plain(alloc, plain)?;
    /// pointer.push_front(Token::from_number(alloc, 7)?)?;
    /// assert_eq!(rt; pointer.as_ptr().as_str(), "/7/text");
    /// assert_eq!(rt; pointer.offsets(), [0, 2].as_slice());
    /// ```
    ///
    /// # Errors
    ///
    /// [`AllocError`] if the text or the table has no room and an allocation fails. The pointer is
    /// unchanged.
    #[inline(always)]
    pub fn push_front(&mut self, token: Token<'_>) -> Result<(), AllocError>
        ensures pushed { IfOk result (λ _. PushesFront self.old token.entry self.new) }
        ensures unchanged { IfErr result (λ _. self.new ≡ self.old) }
    {
        table::make_room(&mut self.offsets)?;
        let before = len_of(&self.plain);
        self.plain.push_front(token)?;
        table::push_front(&mut self.offsets, len_of(&self.plain) - before);
        Ok(())
    }

    /// Appends a token. Takes time linear in its length, except where the text or the table is moved
    /// to a larger allocation.
    ///
    /// ```rust
    /// let mut pointer = TabledPointer::new(alloc);
    /// pointer.push_back(Token::from_number(alloc, 7)?)?;
    /// pointer.push_back(Token::from_number(alloc, 0)?)?;
    /// assert_eq!(rt; pointer.as_ptr().as_str(), "/7/0");
    /// assert_eq!(rt; pointer.offsets(), [0, 2].as_slice());
    /// ```
    ///
    /// # Errors
    ///
    /// [`AllocError`] if the text or the table has no room and an allocation fails. The pointer is
    /// unchanged.
    #[inline(always)]
    pub fn push_back(&mut self, token: Token<'_>) -> Result<(), AllocError>
        ensures pushed { IfOk result (λ _. PushesBack self.old token.entry self.new) }
        ensures unchanged { IfErr result (λ _. self.new ≡ self.old) }
    {
        table::make_room(&mut self.offsets)?;
        let before = len_of(&self.plain);
        self.plain.push_back(token)?;
        self.offsets.push_reserved(before);
        Ok(())
    }

    /// Removes the first token and returns it, or returns `None` at the root. The token owns its
    /// text. The rest of the text and the offsets move down in place.
    ///
    /// ```rust
    /// let plain = PointerBuf::from_text(alloc, "/7/text/0")?;
    /// let mut pointer = TabledPointer::from_plain(alloc, plain)?;
    /// assert_eq!(rt; pointer.pop_front()?, Some(Token::from_number(alloc, 7)?));
    /// assert_eq!(rt; pointer.as_ptr().as_str(), "/text/0");
    /// assert_eq!(rt; pointer.offsets(), [0, 5].as_slice());
    /// ```
    ///
    /// # Errors
    ///
    /// [`AllocError`] if there is no memory for the token. The pointer is unchanged. The root needs
    /// no allocation.
    #[inline(always)]
    pub fn pop_front(&mut self) -> Result<Option<Token<'static>>, AllocError>
        ensures popped { IfOk result (λ r. PopsFront self.old r self.new) }
        ensures unchanged { IfErr result (λ _. self.new ≡ self.old) }
        ensures no_memory { self.old ≡ [] → IsOk result }
    {
        let before = len_of(&self.plain);
        let first = self.plain.pop_front()?;
        table::pop_front(&mut self.offsets, before - len_of(&self.plain));
        Ok(first)
    }

    /// Removes the last token and returns it, or returns `None` at the root. The token owns its
    /// text, so the call takes time linear in the length of the token.
    ///
    /// ```rust
    /// let plain = PointerBuf::from_text(alloc, "/7")?;
    /// let mut pointer = TabledPointer::from_plain(alloc, plain)?;
    /// assert_eq!(rt; pointer.pop_back()?, Some(Token::from_number(alloc, 7)?));
    /// assert_eq!(rt; pointer.pop_back()?, None);
    /// ```
    ///
    /// # Errors
    ///
    /// [`AllocError`] if there is no memory for the token. The pointer is unchanged. The root needs
    /// no allocation.
    #[inline(always)]
    pub fn pop_back(&mut self) -> Result<Option<Token<'static>>, AllocError>
        ensures popped { IfOk result (λ r. PopsBack self.old r self.new) }
        ensures unchanged { IfErr result (λ _. self.new ≡ self.old) }
        ensures no_memory { self.old ≡ [] → IsOk result }
    {
        let last = self.plain.pop_back()?;
        self.offsets.pop();
        Ok(last)
    }

    /// Replaces the token at position `index`, and returns the old one. Never returns `Ok(None)`.
    /// The first token is at position 0. Moves the text and the offsets after the token.
    ///
    /// ```rust
    /// let plain = PointerBuf::from_text(alloc, "/lines/7/text")?;
    /// let mut pointer = TabledPointer::from_plain(alloc, plain)?;
    /// let old = pointer.replace(1, Token::from_number(alloc, 10)?)?;
    /// assert_eq!(rt; old, Some(Token::from_number(alloc, 7)?));
    /// assert_eq!(rt; pointer.offsets(), [0, 6, 9].as_slice());
    /// ```
    ///
    /// # Errors
    ///
    /// [`Fault::Refused`] with a [`ReplaceError`] if `index` is not less than the number of tokens.
    /// This is checked before anything is allocated. [`Fault::Memory`] if there is no memory for
    /// the old token or for a longer text. The pointer is unchanged.
    pub fn replace(
        &mut self,
        index: usize,
        token: Token<'_>,
    ) -> Result<Option<Token<'static>>, Fault<ReplaceError>>
        ensures replaced { IfOk result (λ old. Replaces self.old index token.entry old self.new) }
        ensures refused { IfRefused result (RefusesReplace self.old index) }
        ensures past { IsRefused result ↔ (length self.old ≤ index) }
        ensures unchanged { IfErr result (λ _. self.new ≡ self.old) }
    {
        let before = len_of(&self.plain);
        let old = self.plain.replace(index, token)?;
        table::move_offsets(&mut self.offsets, index + 1, before, len_of(&self.plain));
        Ok(old)
    }

    /// Appends the tokens of another pointer, in time linear in its length, except where the text or
    /// the table is moved to a larger allocation.
    ///
    /// ```rust
    /// let plain = PointerBuf::from_text(alloc, "/lines")?;
    /// let mut pointer = TabledPointer::from_plain(alloc, plain)?;
    /// pointer.append(Pointer::parse("/7/text")?)?;
    /// assert_eq!(rt; pointer.as_ptr().as_str(), "/lines/7/text");
    /// assert_eq!(rt; pointer.offsets(), [0, 6, 8].as_slice());
    /// ```
    ///
    /// # Errors
    ///
    /// [`AllocError`] if the text or the table has no room and an allocation fails. The pointer is
    /// unchanged.
    pub fn append(&mut self, other: Pointer<'_>) -> Result<(), AllocError>
        ensures joined { IfOk result (λ _. self.new ≡ self.old ++ tokens other.entry) }
        ensures unchanged { IfErr result (λ _. self.new ≡ self.old) }
    {
        self.offsets.reserve(other.count())?;
        join(&mut self.plain, other)?;
        table::extend(&mut self.offsets, len_of(&self.plain), other);
        Ok(())
    }

    /// Removes all tokens. The pointer is then the root, and keeps the room of its text and its
    /// table.
    ///
    /// ```rust
    /// let mut pointer = TabledPointer::new(alloc);
    /// pointer.push_back(Token::from_number(alloc, 7)?)?;
    /// pointer.clear();
    /// assert!(rt; pointer.as_ptr().is_root() && pointer.offsets().is_empty());
    /// ```
    pub fn clear(&mut self)
        ensures { self.new ≡ [] }
    {
        self.plain.clear();
        self.offsets.clear();
    }

    /// Returns the allocator of the table.
    pub(crate) fn allocator(&self) -> Global {
        *self.offsets.allocator()
    }
}

/// Appends the tokens of another pointer to a plain one.
fn join(plain: &mut PointerBuf, other: Pointer<'_>) -> Result<(), AllocError>
    ensures joined { IfOk result (λ _. plain.new ≡ plain.old ++ tokens other.entry) }
    ensures unchanged { IfErr result (λ _. plain.new ≡ plain.old) }
{
    plain.append(other)?;
    Ok(())
}

/// Returns the length of a pointer's text, in bytes.
fn len_of(plain: &PointerBuf) -> usize
    ensures { result ≡ length (text plain.now) }
{
    plain.as_ptr().as_str().len()
}

impl Clone for TabledPointer {
    ghost is_clone = { λ p copy. copy ≡ p };

    fn clone(&self) -> Result<TabledPointer, AllocError> {
        let plain = self.plain.clone()?;
        let offsets = self.offsets.clone()?;
        Ok(TabledPointer { plain, offsets })
    }
}

/// Compares the texts, which are equal exactly if the lists of tokens are.
impl PartialEq for TabledPointer {
    ghost eq = { λ p q. bytes_eq (text p) (text q) };

    ghost laws = { on_per text (Cmp.partial_equiv_from_equiv nat_list_eq_equiv) };

    fn eq(&self, other: &TabledPointer) -> bool
        ensures value { result ≡ bytes_eq (text self.now) (text other.now) }
        ensures tokens { IsTrue result ↔ (self.now ≡ other.now) }
    {
        self.plain == other.plain
    }
}

impl Eq for TabledPointer {
    ghost laws = { on_equiv text nat_list_eq_equiv };
}

impl PartialOrd for TabledPointer {
    ghost partial_cmp = { λ p q. Some (slice_cmp nat_cmp (text p) (text q)) };

    ghost laws = { on_po text texts_po };

    fn partial_cmp(&self, other: &TabledPointer) -> Option<Ordering> {
        Some(self.cmp(other))
    }
}

/// Compares the texts by their bytes.
impl Ord for TabledPointer {
    ghost cmp = { λ p q. slice_cmp nat_cmp (text p) (text q) };

    ghost total = { on_total text nat_list_cmp_total };

    ghost matches_partial_cmp = { λ p q. refl };

    ghost matches_eq = { λ p q. texts_ties (text p) (text q) };

    fn cmp(&self, other: &TabledPointer) -> Ordering {
        self.plain.cmp(&other.plain)
    }
}

impl Hash for TabledPointer {
    ghost hash_input = { λ p. fed.str (text p) };

    ghost respects_eq = { Prim.search (hashing, rules) };

    fn hash<H: Hasher>(&self, state: &mut H) {
        self.plain.hash(state);
    }
}

/// Writes the text. Allocates nothing.
impl fmt::Display for TabledPointer {
    ghost output = { λ p. Some (text p) };

    fn fmt<W: fmt::Write>(&self, f: &mut fmt::Formatter<W>) -> fmt::Result {
        f.write_str(self.plain.as_ptr().as_str())
    }
}
