//! A text with comments, and the same text without them.
ghost use Rattle.std.specs.Prelude.{◌≡◌, IfOk, IfErr, IsOk};
ghost use Rattle.std.specs.Cow.{cow_str_bytes};
ghost use Rattle.std.proofs.Props.{props};
ghost use Rattle.jsonptr_comments.specs.Comments.{IsPlain, IsWithoutComments, IsBare};
ghost use Rattle.jsonptr_comments.specs.Faults.{IsCommentFault};

use crate::comments::without_comments;
use crate::error::CommentError;
use jsonptr_base::fault::Fault;
use std::alloc::Global;
use std::borrow::CowStr;

/// A text with comments, and the same text without them. It borrows the text, and the other one too if the
/// text has no comments.
///
/// A caller that reads and edits one text keeps this, so that its comments are looked for once.
#[derive(Debug, Drop)]
pub struct CommentedText<'t> {
    /// The text.
    pub text: &'t str,
    /// The text with spaces instead of its comments and trailing commas.
    pub bare: CowStr<'t>,
    pub ghost is_bare: { IsBare text.now (cow_str_bytes bare) } by { Prim.hlevel props },
}

impl<'t> CommentedText<'t> {
    /// Takes the comments out of the text, as [`without_comments`] does.
    ///
    /// # Errors
    ///
    /// - [`Fault::Refused`] if a block comment is not closed.
    /// - [`Fault::Memory`] if an allocation fails.
    ///
    /// # Examples
    ///
    /// ```rust
    /// let settings = CommentedText::read(alloc, "{\"size\": 3, /* px */}")?;
    /// assert_eq!(rt; settings.bare.as_str(), "{\"size\": 3          }");
    /// assert_eq!(rt; settings.text, "{\"size\": 3, /* px */}");
    /// ```
    pub fn read(alloc: Global, text: &'t str) -> Result<CommentedText<'t>, Fault<CommentError>>
        ensures same { IfOk result (λ read. read.text.now ≡ text.now) }
        ensures without { IfOk result (λ read. IsWithoutComments text.now (cow_str_bytes read.bare)) }
        ensures no_memory { IsPlain text.now → IsOk result }
        ensures refused { IfErr result (IsCommentFault text.now) }
    {
        let bare = without_comments(alloc, text)?;
        Ok(CommentedText { text, bare })
    }
}
