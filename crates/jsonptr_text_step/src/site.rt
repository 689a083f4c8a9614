//! A value in a text, which an edit changes.

use jsonptr::Pointer;
use jsonptr_text_layout::place::Place;
use jsonptr_text_piece::span::slice;

/// A value in a text, which an edit changes.
#[derive(Clone, Copy, Debug)]
pub struct Site<'t> {
    /// The whole text.
    pub text: &'t str,
    /// The pointer that resolves to the value, or to its parent if the edit names the child by a token.
    pub pointer: Pointer<'t>,
    /// Where the value is. A hint.
    pub place: &'t Place,
}

impl<'t> Site<'t> {
    /// Returns the text of the value.
    pub fn slice(&self) -> &'t str {
        slice(self.text, self.place.value.from, self.place.value.to)
    }
}
