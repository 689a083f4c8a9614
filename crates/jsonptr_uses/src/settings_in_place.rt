//! Several settings of a text that people keep under version control, each set in place or not at all.
ghost use Rattle.std.specs.Prelude.{◌≡◌, ◌∷◌, ◌++◌, [], IfOk, IfErr, string_bytes};
ghost use Rattle.jsonptr_text_step.specs.OneLine.{StaysOneLine};
ghost use Rattle.jsonptr_text_edit.specs.Errors.{IsEditError};
ghost use Rattle.jsonptr_uses.specs.SettingsInPlace.{AreSet, IsNext, StopsAt};

use jsonptr_text_edit::{Buffers, Edit, EditError, edit_text};
use std::alloc::AllocError;

/// A text with new settings.
#[derive(Debug, Drop)]
pub struct Settings {
    /// The text. Its layout is the old one.
    pub text: String,
    /// Of each edit whether it is made. The others would have lost the layout.
    pub is_set: Vec<bool>,
}

/// Makes the edits in the text, one after the other. An edit that cannot be made in place is left out.
///
/// # Errors
///
/// That of the first edit that is not possible.
pub fn set_in_place(
    buffers: &mut Buffers,
    text: String,
    edits: &[Edit<'_>],
) -> Result<Settings, EditError>
    ensures set { IfOk result (λ s.
        AreSet (string_bytes text) edits.now s.is_set.items (string_bytes s.text)) }
    ensures one_line { IfOk result (λ s. StaysOneLine (string_bytes text) (string_bytes s.text)) }
    ensures refused { IfErr result (StopsAt (string_bytes text) edits.now) }
{
    let is_set = Vec::new(buffers.alloc);
    let mut settings = Settings { text, is_set };
    'edits: for edit in edits {
        settings = set_next(buffers, settings, edit)?;
    }
    Ok(settings)
}

/// Makes the edit in place, or leaves it out.
///
/// # Errors
///
/// That of the edit, if it is not possible.
fn set_next(
    buffers: &mut Buffers,
    settings: Settings,
    edit: &Edit<'_>,
) -> Result<Settings, EditError>
    ensures set { IfOk result (λ s. IsNext (string_bytes settings.text) settings.is_set.items
        edit.now s.is_set.items (string_bytes s.text)) }
    ensures refused { IfErr result (IsEditError (string_bytes settings.text) edit.now) }
{
    let Settings { text, is_set } = settings;
    let edited = edit_text(buffers, text.as_str(), edit)?;
    let all = with(is_set, edited.is_in_place())?;
    Ok(Settings {
        text: edited.in_place().unwrap_or(text),
        is_set: all,
    })
}

/// Returns the answers with one more.
fn with(answers: Vec<bool>, answer: bool) -> Result<Vec<bool>, AllocError>
    ensures { IfOk result (λ all. all.items ≡ answers.items ++ answer ∷ []) }
{
    let mut all = answers;
    all.push(answer)?;
    Ok(all)
}
