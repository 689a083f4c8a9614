//! Reports drawn as lines of text.
ghost use Rattle.std.specs.Prelude.{◌≡◌, ◌+◌, ◌<◌, ◌∷◌, length, replicate, chars, string_bytes, encode_utf8_all, IfOk, OnOk};
ghost use Rattle.std.specs.Char.{len_utf8};
ghost use Rattle.std.specs.List.{flat_map};
ghost use Rattle.jsonptr_diagnostic.specs.Report.{original_of, subject_of};
ghost use Rattle.jsonptr_diagnostic.specs.Rendering.{is_unprintable, shown_for, shown, columns, column, carets, label_line, drawn, IsRendered};
ghost use Rattle.jsonptr_diagnostic.specs.PrivateRendering.{AppendsCharacters, is_in_part};

use crate::diagnostic::{Diagnostic, Label, Report};
use std::alloc::{AllocError, Global};
use std::convert::AsStr;

impl<T: Diagnostic> Report<T>
where
    T::Subject: AsStr,
{
    /// Draws the report as text: the subject on the first line, and a line for each label below it.
    ///
    /// ```text
    /// /size/~x
    ///       ^^ '~' must be followed by '0' or '1'
    /// ```
    ///
    /// The line of a label has spaces up to its span, a caret below each character of the span, a
    /// space and the message. Labels keep their order. Lines are separated by a line feed, and the
    /// last line ends without one.
    ///
    /// - A character is marked as a whole if one of its bytes is in the span.
    /// - A span that contains no byte of the text has one caret. If it starts at the end of the
    ///   text or past it, the caret is right after the text.
    /// - A character that could move the cursor is shown by its code, in the subject and in the
    ///   message. Those are control characters, and characters that end a line or embed a
    ///   direction. So the output has exactly one line for the subject and one for each label.
    /// - Every other character counts as one column, so that wide and combining characters shift
    ///   the carets on a terminal.
    ///
    /// With a tab after the `a`, and a label on that tab:
    ///
    /// ```text
    /// a\u{9}b
    ///  ^^^^^ not printable
    /// ```
    ///
    /// # Errors
    ///
    /// [`AllocError`] if an allocation for the labels or for the output fails.
    ///
    /// # Examples
    ///
    /// ```rust
    /// let text = String::from_str(alloc, "width")?;
    /// let report = PointerBuf::parse(text).err().ok_or("a report")?;
    /// let drawn = "width\n^ must start with a slash ('/')";
    /// assert_eq!(rt; report.render(alloc)?.as_str(), drawn);
    /// ```
    pub fn render(&self, alloc: Global) -> Result<String, AllocError>
        ensures { IfOk result (λ text. IsRendered
            (T.labels_gives (original_of self.now) (subject_of self.now))
            (T.Subject.text (subject_of self.now))
            (string_bytes text)) }
    {
        let text = self.subject().as_str();
        match self.original().labels(alloc, self.subject())? {
            Some(labels) => draw(alloc, text, labels.as_slice()),
            None => draw(alloc, text, &[]),
        }
    }
}

/// Returns a text as it is shown, and a line for each of the labels below it.
fn draw(alloc: Global, text: &str, labels: &[Label]) -> Result<String, AllocError>
    ensures { IfOk result
        (λ out. string_bytes out ≡ encode_utf8_all (drawn (chars text.now) labels.now)) }
{
    let mut out = String::new(alloc);
    push_text(&mut out, text)?;
    push_labels(&mut out, text, labels)?;
    Ok(out)
}

/// Appends a line feed and the label's line, for each label on `text`.
fn push_labels(out: &mut String, text: &str, labels: &[Label]) -> Result<(), AllocError>
    ensures { OnOk result (AppendsCharacters
        (flat_map (λ m. 10 ∷ label_line (chars text.now) m) labels.now)
        (string_bytes out.old)
        (string_bytes out.new)) }
{
    for label in labels {
        out.push('\n')?;
        push_label(out, text, label)?;
    }
    Ok(())
}

/// Appends the line of a label on `text`.
fn push_label(out: &mut String, text: &str, label: &Label) -> Result<(), AllocError>
    ensures { OnOk result (AppendsCharacters
        (label_line (chars text.now) label.now)
        (string_bytes out.old)
        (string_bytes out.new)) }
{
    let offset = label.offset();
    push_marks(out, ' ', text, Part::Before(offset))?;
    push_carets(out, text, offset, label.len())?;
    out.push(' ')?;
    push_text(out, label.text())
}

/// Appends the carets below a span of `text`: at least one.
fn push_carets(out: &mut String, text: &str, offset: usize, len: usize) -> Result<(), AllocError>
    ensures { OnOk result (AppendsCharacters
        (replicate (carets offset len (chars text.now)) 94)
        (string_bytes out.old)
        (string_bytes out.new)) }
{
    let len_before = out.len();
    push_marks(out, '^', text, Part::Under(offset, len))?;
    if out.len() == len_before {
        out.push('^')?;
    }
    Ok(())
}

/// A part of a text, by the offsets of its characters.
#[derive(Clone, Copy)]
enum Part {
    /// The characters that end at this offset or before it.
    Before(usize),
    /// The characters with a byte in the span of this offset and length.
    Under(usize, usize),
}

/// Returns whether a character with these start and end offsets is in the part.
fn is_in_part(part: Part, begin: usize, end: usize) -> bool
    ensures { result ≡ is_in_part part begin end }
{
    match part {
        Part::Before(offset) => end <= offset,
        Part::Under(offset, len) => begin.max(offset) < end.min(offset.saturating_add(len)),
    }
}

/// Appends `mark` for each column of a part of `text`.
fn push_marks(out: &mut String, mark: char, text: &str, part: Part) -> Result<(), AllocError>
    ensures { OnOk result (AppendsCharacters
        (replicate (columns (is_in_part part) 0 (chars text.now)) mark)
        (string_bytes out.old)
        (string_bytes out.new)) }
{
    for (begin, c) in text.char_indices() {
        if is_in_part(part, begin, begin + c.len_utf8()) {
            push_mark(out, mark, c)?;
        }
    }
    Ok(())
}

/// Appends `mark` for each column of a character.
fn push_mark(out: &mut String, mark: char, c: char) -> Result<(), AllocError>
    ensures { OnOk result (AppendsCharacters
        (replicate (length (shown_for c)) mark)
        (string_bytes out.old)
        (string_bytes out.new)) }
{
    if !is_unprintable(c) {
        return out.push(mark);
    }
    for _ in c.escape_unicode() {
        out.push(mark)?;
    }
    Ok(())
}

/// Appends a text as it is shown.
fn push_text(out: &mut String, text: &str) -> Result<(), AllocError>
    ensures { OnOk result (AppendsCharacters
        (shown (chars text.now))
        (string_bytes out.old)
        (string_bytes out.new)) }
{
    for c in text.chars() {
        push_shown(out, c)?;
    }
    Ok(())
}

/// Appends a character as it is shown.
fn push_shown(out: &mut String, c: char) -> Result<(), AllocError>
    ensures { OnOk result (AppendsCharacters
        (shown_for c)
        (string_bytes out.old)
        (string_bytes out.new)) }
{
    if !is_unprintable(c) {
        return out.push(c);
    }
    for shown in c.escape_unicode() {
        out.push(shown)?;
    }
    Ok(())
}

/// Returns whether a character is shown by its code: a control character, or one that ends a line
/// or embeds a direction.
fn is_unprintable(c: char) -> bool
    ensures { result ≡ is_unprintable c }
{
    c.is_control() || matches!(c, '\u{2028}'..='\u{202e}' | '\u{2066}'..='\u{2069}')
}
