//! The text of a value.
ghost use Rattle.std.specs.Prelude.{◌≡◌, true, is_some, string_bytes};
ghost use Rattle.serde_json.specs.Read.{read};

use jsonptr_text_layout::value_text::ValueText;

/// The text of a JSON value, as its author wrote it. It owns the text.
///
/// The text has the members in their order, repeated ones too, and each number as it is written. An
/// edit with a raw value puts this text into a document, laid out as the document is, where an edit
/// with a [`Value`](serde_json::Value) prints the value: with sorted keys, and `1.10` as `1.1`.
#[derive(Debug, Drop)]
pub struct RawValue {
    /// The text, on one line and over lines.
    pub printed: ValueText,
    ghost is_json: { is_some (read (string_bytes printed.flat)) ≡ true },
}
