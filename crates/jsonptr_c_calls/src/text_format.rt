//! The formats of a text that is edited.
ghost use Rattle.std.specs.Prelude.{◌≡◌};
ghost use Rattle.jsonptr_c_calls.specs.TextCalls.{text_format_of};

/// The number of [`TextFormat::Commented`].
pub const JSONC: u32 = 1;
/// The number of [`TextFormat::Toml`].
pub const TOML: u32 = 2;

/// The format of a text.
#[derive(Clone, Copy, Debug)]
pub enum TextFormat {
    /// JSON.
    Json,
    /// JSON with comments and trailing commas.
    Commented,
    /// TOML.
    Toml,
}

/// Returns the format with this number, which is 0 of [`TextFormat::Json`]. The numbers never change.
pub fn text_format_of(number: u32) -> TextFormat
    ensures { result ≡ text_format_of number }
{
    match number {
        JSONC => TextFormat::Commented,
        TOML => TextFormat::Toml,
        _ => TextFormat::Json,
    }
}
