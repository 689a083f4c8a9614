//! Whether a text stays one line.
ghost use Rattle.std.specs.Prelude.{◌≡◌, false, IsTrue};
ghost use Rattle.jsonptr_io.specs.Lines.{IsOneLine};
ghost use Rattle.jsonptr_text_step.specs.OneLine.{StaysOneLine};

use memchr::memchr;

/// Returns whether the new text has no line feed, unless the old one has one too.
pub fn stays_one_line(old: &str, new: &str) -> bool
    ensures { IsTrue result → StaysOneLine old.now new.now }
{
    has_line_feed(old) || !has_line_feed(new)
}

/// Returns whether the text contains a line feed.
fn has_line_feed(text: &str) -> bool
    ensures some { IsTrue result → IsOneLine text.now → ⊥ }
    ensures none { result ≡ false → IsOneLine text.now }
{
    memchr(b'\n', text.as_bytes()).is_some()
}
