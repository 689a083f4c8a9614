//! A text of one line stays one line, or its document is printed anew.
ghost use Rattle.std.specs.Prelude.{◌≡◌, Some, IfOk, string_bytes};
ghost use Rattle.serde_json.specs.Data.{Data};
ghost use Rattle.serde_json.specs.Read.{read};
ghost use Rattle.jsonptr_text_step.specs.EditInText.{edited_text};
ghost use Rattle.jsonptr_text_step.specs.OneLine.{StaysOneLine};
ghost use Rattle.jsonptr_text_edit.specs.Edited.{text_of, IfInPlace};
ghost use Rattle.jsonptr_text_edit.specs.PrivateKept.{IsMadeAs};

use crate::edited::Edited;
use jsonptr_text_step as text_step;
use jsonptr_text_step::stays_one_line;
use jsonptr_value::ReadError;
use std::alloc::{AllocError, Global};

/// Returns the edited text. If it was made in place and breaks a text of one line, its document is printed
/// anew.
///
/// # Errors
///
/// [`AllocError`] if an allocation fails.
pub fn on_one_line(
    alloc: Global,
    text: &str,
    made: text_step::Stepped,
) -> Result<Edited, AllocError>
    requires { (d : Data) × (read (edited_text made) ≡ Some d) }
    ensures reads { IfOk result (λ e. read (text_of e) ≡ read (edited_text made)) }
    ensures in_place { IfOk result (IsMadeAs made) }
    ensures one_line { IfOk result (IfInPlace (StaysOneLine text.now)) }
{
    match made {
        text_step::Stepped::InPlace(new) => if stays_one_line(text, new.as_str()) {
            Ok(Edited::InPlace(new))
        } else {
            Ok(Edited::Reprinted(printed(alloc, new.as_str())?))
        },
        text_step::Stepped::Rewritten(new) => Ok(Edited::Reprinted(new)),
    }
}

/// Reads the text and prints its document.
///
/// # Errors
///
/// [`AllocError`] if an allocation fails.
fn printed(alloc: Global, text: &str) -> Result<String, AllocError>
    requires { (d : Data) × (read text.now ≡ Some d) }
    ensures { IfOk result (λ s. read (string_bytes s) ≡ read text.now) }
{
    match jsonptr_value::read(alloc, text) {
        Ok(document) => document.to_string(alloc),
        Err(ReadError::NotJson) => unreachable!(),
        Err(ReadError::Memory(error)) => Err(error),
    }
}
