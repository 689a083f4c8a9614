//! A text with comments, and the same text without them.
ghost use Rattle.std.specs.Cow.{cow_str_bytes};
ghost use Rattle.jsonptr_comments.specs.Comments.{IsWithoutComments};

use jsonptr_comments::CommentedText;
use jsonptr_comments::laws::bare_law;

/// A text with comments, and the same text without them. It borrows both.
#[derive(Clone, Copy, Debug)]
pub struct Texts<'t> {
    /// The text with comments.
    pub text: &'t str,
    /// The text without comments. It has the same length.
    pub bare: &'t str,
}

/// A text with comments, and the same text without them. It owns both.
#[derive(Debug, Drop)]
pub struct TextsBuf {
    /// The text with comments.
    pub text: String,
    /// The text without comments. It has the same length.
    pub bare: String,
}

/// States that what the text keeps is the text without its comments.
pub fn has_bare(text: &CommentedText<'_>)
    ensures { IsWithoutComments text.now.text.now (cow_str_bytes text.now.bare) }
{
    bare_law();
}
