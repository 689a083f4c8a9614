//! White space of JSON texts (RFC 8259, section 2).
ghost use Rattle.std.specs.Prelude.{◌≡◌, ℕ, false, Some, IsTrue, option_copied};
ghost use Rattle.json.specs.Word.{is_space as is_json_space};
ghost use Rattle.jsonptr_text_piece.specs.Spacing.{IsBlank, IsSpaced, IsTrimmed};

/// Returns whether the byte is white space.
///
/// # Examples
///
/// ```rust
/// assert!(rt; is_space(b'\n') && !is_space(b','));
/// ```
pub fn is_space(byte: u8) -> bool
    ensures { result ≡ is_json_space byte }
{
    matches!(byte, b' ' | b'\t' | b'\n' | b'\r')
}

/// Returns whether the text is white space alone.
///
/// # Examples
///
/// ```rust
/// assert!(rt; is_blank("") && is_blank(" \t\r\n") && !is_blank(" ,"));
/// ```
pub fn is_blank(text: &str) -> bool
    ensures { IsTrue result → IsBlank text.now }
{
    are_blank(text.as_bytes())
}

/// Returns whether the bytes are white space alone.
///
/// # Examples
///
/// ```rust
/// assert!(rt; are_blank(b" \t") && !are_blank(b" ,"));
/// ```
pub fn are_blank(bytes: &[u8]) -> bool
    ensures blank { IsTrue result → IsBlank bytes.now }
    ensures filled { result ≡ false → IsBlank bytes.now → ⊥ }
{
    bytes.iter().all(|byte| is_space(*byte))
}

/// Returns whether the text is a comma with white space around it.
///
/// # Examples
///
/// ```rust
/// assert!(rt; is_comma(" ,\n") && !is_comma(" ") && !is_comma(",,"));
/// ```
pub fn is_comma(text: &str) -> bool
    ensures { IsTrue result → IsSpaced 44 text.now }
{
    match text.split_once(',') {
        Some((before, after)) => is_blank(before) && is_blank(after),
        None => false,
    }
}

/// Returns whether the text is a colon with white space around it.
///
/// # Examples
///
/// ```rust
/// assert!(rt; is_colon(" : ") && !is_colon(" "));
/// ```
pub fn is_colon(text: &str) -> bool
    ensures { IsTrue result → IsSpaced 58 text.now }
{
    match text.split_once(':') {
        Some((before, after)) => is_blank(before) && is_blank(after),
        None => false,
    }
}

/// Returns whether the text neither begins nor ends with white space.
///
/// # Examples
///
/// ```rust
/// assert!(rt; is_trimmed("[ 1 ]") && !is_trimmed(" 1"));
/// ```
pub fn is_trimmed(text: &str) -> bool
    ensures { IsTrue result → IsTrimmed text.now }
{
    let bytes = text.as_bytes();
    !is_space_at(bytes.first()) && !is_space_at(bytes.last())
}

/// Returns whether there is a byte, and it is white space.
fn is_space_at(byte: Option<&u8>) -> bool
    ensures { (b : ℕ) → option_copied byte.entry ≡ Some b → result ≡ is_json_space b }
{
    match byte {
        Some(byte) => is_space(*byte),
        None => false,
    }
}
