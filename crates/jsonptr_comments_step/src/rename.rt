//! Renaming a member of an object in a text with comments.
ghost use Rattle.std.specs.Prelude.{◌≡◌, ◌⊎◌, IfOk, IfSome, string_bytes};
ghost use Rattle.jsonptr.specs.Pointer.{tokens};
ghost use Rattle.jsonptr_comments.specs.Comments.{IsWithoutComments};
ghost use Rattle.jsonptr_text_step.specs.Renaming.{RenamesInText, RenamesBytes};
ghost use Rattle.jsonptr_comments_step.specs.EditWithComments.{Becomes, EditsAs};
ghost use Rattle.jsonptr_comments_step.specs.Edits.{IsRenaming};
ghost use Rattle.jsonptr_comments_step.specs.PrivateStepping.{IsRenamedAs};

use crate::draft::Draft;
use crate::name::is_renaming;
use crate::same_tokens::have_same_tokens;
use crate::step::bare_of;
use crate::texts::{Texts, has_bare};
use jsonptr::Pointer;
use jsonptr_comments::CommentedText;
use jsonptr_text_piece::buffers::Buffers;
use jsonptr_text_piece::cut::{cut_at, splice};
use jsonptr_text_piece::span::Span;
use jsonptr_text_step::plan::{Made, Plan, RenamedMember};
use jsonptr_text_step::{Step, take_step};
use std::alloc::AllocError;

/// Renames the member of an object that the pointer resolves to, in the document that the text with comments
/// contains. Returns `None` if the new name cannot be put where the old one is, as where the object has several
/// members with the old key, and if the member cannot have the key.
///
/// Only the name of the member changes: the member keeps its place among the others, its value and its white
/// space, and all comments stay where they are. If it has the key already, the text is unchanged.
///
/// Takes the comments out of the result once, and reads both new texts without comments once, beside what
/// [`take_step`] reads. Also finds the value, as [`locate`](jsonptr_text_step::locate) does.
///
/// # Errors
///
/// [`AllocError`] if an allocation fails.
///
/// # Examples
///
/// ```rust
/// let mut buffers = Buffers::new(alloc);
/// let text = "{\n  \"size\" /* px */: 3, // of the box\n  \"name\": \"app\",\n}\n";
/// let read = CommentedText::read(alloc, text)?;
/// let path = Pointer::parse("/size")?;
/// let new = rename_with_comments(&mut buffers, &read, path, "width")?;
/// let want = "{\n  \"width\" /* px */: 3, // of the box\n  \"name\": \"app\",\n}\n";
/// assert_eq!(rt; new.ok_or("an edit in place")?.as_str(), want);
/// assert!(rt; rename_with_comments(&mut buffers, &read, path, "name")?.is_none());
/// ```
pub fn rename_with_comments(
    buffers: &mut Buffers,
    text: &CommentedText<'_>,
    pointer: Pointer<'_>,
    key: &str,
) -> Result<Option<String>, AllocError>
    ensures renamed { IfOk result (λ o. IfSome o (λ s. Becomes
        (λ old new. RenamesInText old (tokens pointer.entry) key.now new) text.now.text.now (string_bytes s))) }
    ensures bytes { IfOk result (λ o. IfSome o (λ s. EditsAs
        (λ old new. RenamesBytes old (tokens pointer.entry) key.now new) text.now.text.now (string_bytes s))) }
    ensures pieces { IfOk result (λ o. IfSome o (λ s. (string_bytes s ≡ text.now.text.now)
        ⊎ IsRenaming text.now.text.now (tokens pointer.entry) (string_bytes s))) }
{
    has_bare(text);
    let texts = Texts {
        text: text.text,
        bare: text.bare.as_str(),
    };
    renamed(buffers, texts, pointer, key)
}

/// Gives the member the key: in the text without comments, and then in the text with them. Returns `None` if one
/// of the two is not possible where it is.
///
/// # Errors
///
/// [`AllocError`] if an allocation fails.
fn renamed(
    buffers: &mut Buffers,
    texts: Texts<'_>,
    pointer: Pointer<'_>,
    key: &str,
) -> Result<Option<String>, AllocError>
    requires { IsWithoutComments texts.text.now texts.bare.now }
    ensures renamed { IfOk result (λ made. IfSome made (λ s. Becomes
        (λ old new. RenamesInText old (tokens pointer.entry) key.now new) texts.entry.text.now (string_bytes s))) }
    ensures bytes { IfOk result (λ made. IfSome made (λ s. EditsAs
        (λ old new. RenamesBytes old (tokens pointer.entry) key.now new) texts.entry.text.now (string_bytes s))) }
    ensures pieces { IfOk result (λ made. IfSome made (λ s. (string_bytes s ≡ texts.entry.text.now)
        ⊎ IsRenaming texts.entry.text.now (tokens pointer.entry) (string_bytes s))) }
{
    let Some(made) = take_step(buffers, texts.bare, Step::Rename(pointer, key))? else {
        return Ok(None);
    };
    let Made { text: new, plan } = made;
    put(buffers, texts, pointer, new.as_str(), plan)
}

/// Does in the text with comments what was done in the text without them, which became `new`. Returns `None` if
/// that is not the renaming of a member, or if the new text has not the same tokens.
///
/// # Errors
///
/// [`AllocError`] if an allocation fails.
fn put(
    buffers: &mut Buffers,
    texts: Texts<'_>,
    pointer: Pointer<'_>,
    new: &str,
    plan: Plan,
) -> Result<Option<String>, AllocError>
    requires { IsWithoutComments texts.text.now texts.bare.now }
    ensures { IfOk result (λ made. IfSome made (λ s. IsRenamedAs new.now texts.entry.text.now
        (tokens pointer.entry) (string_bytes s))) }
{
    let Some(made) = spliced(buffers, texts, pointer, plan)? else {
        return Ok(None);
    };
    let Some(bare) = bare_of(buffers.alloc, made.as_str())? else {
        return Ok(None);
    };
    if have_same_tokens(buffers, bare.as_str(), new)? {
        Ok(Some(made))
    } else {
        Ok(None)
    }
}

/// Returns the text with comments with the name replaced that the plan replaces, or as it is if the plan changes
/// nothing. Returns `None` for any other plan, and if that is not the name of the member.
///
/// # Errors
///
/// [`AllocError`] if an allocation fails.
fn spliced(
    buffers: &mut Buffers,
    texts: Texts<'_>,
    pointer: Pointer<'_>,
    plan: Plan,
) -> Result<Option<String>, AllocError>
    requires { IsWithoutComments texts.text.now texts.bare.now }
    ensures { IfOk result (λ made. IfSome made (λ s. (string_bytes s ≡ texts.entry.text.now)
        ⊎ IsRenaming texts.entry.text.now (tokens pointer.entry) (string_bytes s))) }
{
    match plan {
        Plan::Unchanged => Ok(Some(String::from_str(buffers.alloc, texts.text)?)),
        Plan::Renamed(renamed) => with_name(buffers, texts, pointer, &renamed),
        _ => Ok(None),
    }
}

/// Returns the text with comments with the name replaced. Returns `None` if what is replaced is not the name of the
/// member to whose value the pointer leads.
///
/// # Errors
///
/// [`AllocError`] if an allocation fails.
fn with_name(
    buffers: &mut Buffers,
    texts: Texts<'_>,
    pointer: Pointer<'_>,
    renamed: &RenamedMember,
) -> Result<Option<String>, AllocError>
    requires { IsWithoutComments texts.text.now texts.bare.now }
    ensures { IfOk result (λ made. IfSome made (λ s.
        IsRenaming texts.entry.text.now (tokens pointer.entry) (string_bytes s))) }
{
    let Span { from, to } = renamed.name;
    let Some(cut) = cut_at(texts.text, from, to) else {
        return Ok(None);
    };
    let made = splice(buffers.alloc, &cut, renamed.piece.as_str())?;
    let draft = Draft {
        text: texts.text,
        bare: texts.bare,
        made: made.as_str(),
        pointer,
        comma: Span { from, to: from },
        added: Span { from, to: from },
        replaced: renamed.name,
        new: Span {
            from,
            to: from.saturating_add(renamed.piece.len()),
        },
    };
    if is_renaming(buffers, &draft)? {
        Ok(Some(made))
    } else {
        Ok(None)
    }
}
