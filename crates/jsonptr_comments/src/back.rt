//! The comma before a closing bracket.
ghost use Rattle.std.specs.Prelude.{◌≡◌, ◌==◌, ◌||◌, ◌<◌, ◌≤◌, Bool, Option, ℕ, length, IfSome};
ghost use Rattle.json.specs.Word.{is_space as is_json_space};
ghost use Rattle.jsonptr_comments.specs.PrivateStepping.{Back, IsSolidEnd};

/// Returns the offset of the comma that is the last byte before `at` except white space, if a value ends
/// before it.
pub(crate) fn trailing_comma(text: &[u8], at: usize) -> Option<usize>
    requires { at ≤ length text.now }
    ensures { (value : Bool) (comma : Option ℕ) → Back text.now at value comma → result ≡ comma }
{
    let end = solid_end(text, at);
    if end == 0 || text[end - 1] != b',' {
        return None;
    }
    let before = solid_end(text, end - 1);
    if before == 0 || is_opening(text[before - 1]) {
        return None;
    }
    Some(end - 1)
}

/// Returns the offset after the last byte before `at` except white space, or 0 if there is none.
fn solid_end(text: &[u8], at: usize) -> usize
    requires { at ≤ length text.now }
    ensures { IsSolidEnd text.now at result }
{
    let mut end = at;
    while end > 0 && is_space(text[end - 1]) {
        end -= 1;
    }
    end
}

/// Returns whether the byte is white space.
pub(crate) fn is_space(byte: u8) -> bool
    ensures { result ≡ is_json_space byte }
{
    matches!(byte, b' ' | b'\t' | b'\n' | b'\r')
}

/// Returns whether no value ends at the byte: it is a comma, a colon or an opening bracket.
fn is_opening(byte: u8) -> bool
    ensures { result ≡ ((byte == 44) || (byte == 58) || (byte == 91) || (byte == 123)) }
{
    matches!(byte, b',' | b':' | b'[' | b'{')
}
