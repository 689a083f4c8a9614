//! What goes with a member or an element that is cut out.
ghost use Rattle.std.specs.Prelude.{◌≡◌, [], ◌⊎◌, Some, IsTrue, IfOk};
ghost use Rattle.toml.specs.View.{view};
ghost use Rattle.toml.specs.Parse.{parse_value};
ghost use Rattle.jsonptr.specs.Pointer.{tokens};
ghost use Rattle.jsonptr_toml_edit.specs.Bytes.{IsTomlPair, IsCommaInLine, GoesAbove, GoAlong, CutsText, MakeAlone};

use crate::alone::{is_comma, is_filler};
use crate::lines::{has_no_blank_line, is_rest_of_line, starts_key};
use crate::open::make_alone;
use crate::pair::is_pair;
use crate::plan::RemovedChild;
use crate::read_back::is_text_of;
use jsonptr::Pointer;
use jsonptr_text_piece::cut::{Cut, cut_at};
use jsonptr_text_piece::span::Span;
use std::alloc::{AllocError, Global};
use toml::Value;
use toml_parser::text::{skip_blank, skip_ws};

/// Returns whether the piece that is cut is one member or element with the value, and what may go with
/// it.
///
/// # Errors
///
/// [`AllocError`] if an allocation fails.
pub fn is_one_removed(
    alloc: Global,
    cut: &Cut<'_>,
    pointer: Pointer<'_>,
    child: &RemovedChild,
    value: &Value,
) -> Result<bool, AllocError>
    ensures { IfOk result (λ is. IsTrue is
        → CutsText (tokens pointer.entry) (view value.now) cut.now.middle.now cut.now.after.now
        ⊎ MakeAlone (tokens pointer.entry) (view value.now) cut.now.middle.now) }
{
    match child {
        RemovedChild::Text(span) => cuts_text(alloc, cut, pointer, *span, value),
        RemovedChild::Items(keys) => {
            make_alone(alloc, cut.middle, pointer, keys.as_ptr(), value)
        }
    }
}

/// Returns whether the piece that is cut has, at the span, the text or the pair of the value, and beside
/// it only what may go along.
fn cuts_text(
    alloc: Global,
    cut: &Cut<'_>,
    pointer: Pointer<'_>,
    span: Span,
    value: &Value,
) -> Result<bool, AllocError>
    ensures { IfOk result (λ cuts. IsTrue cuts
        → CutsText (tokens pointer.entry) (view value.now) cut.now.middle.now cut.now.after.now) }
{
    let Some(inner) = cut_at(cut.middle, span.from, span.to) else {
        return Ok(false);
    };
    if !is_own_text(alloc, inner.middle, pointer, value)? {
        return Ok(false);
    }
    go_along(alloc, inner.before, inner.after, cut.after)
}

/// Returns whether the text is one of the value, or the pair of the value.
fn is_own_text(
    alloc: Global,
    text: &str,
    pointer: Pointer<'_>,
    value: &Value,
) -> Result<bool, AllocError>
    ensures { IfOk result (λ is. IsTrue is → (parse_value text.now ≡ Some (view value.now))
        ⊎ IsTomlPair (tokens pointer.entry) (view value.now) text.now) }
{
    Ok(is_text_of(alloc, text, value)? || is_pair(alloc, text, pointer, value)?)
}

/// Returns whether both texts may go with what is between them, if `after` comes next.
fn go_along(alloc: Global, lead: &str, trail: &str, after: &str) -> Result<bool, AllocError>
    ensures { IfOk result (λ go. IsTrue go → GoAlong lead.now trail.now after.now) }
{
    if is_comma(alloc, lead)? {
        return is_rest_of_line(alloc, trail);
    }
    if !goes_above(alloc, lead, after)? {
        return Ok(false);
    }
    Ok(is_rest_of_line(alloc, trail)? || is_comma_in_line(alloc, trail)?)
}

/// Returns whether the text is spaces and tabs, or also comments in the lines directly above, if no key
/// comes next.
fn goes_above(alloc: Global, lead: &str, after: &str) -> Result<bool, AllocError>
    ensures { IfOk result (λ goes. IsTrue goes → GoesAbove lead.now after.now) }
{
    if skip_ws(lead).is_empty() {
        return Ok(true);
    }
    Ok(has_no_blank_line(lead) && !starts_key(after) && is_filler(alloc, lead)?)
}

/// Returns whether the text is a comma with white space, line breaks and comments around it, of which
/// those after it are on its line.
fn is_comma_in_line(alloc: Global, text: &str) -> Result<bool, AllocError>
    ensures { IfOk result (λ is. IsTrue is → IsCommaInLine text.now) }
{
    let from = text.len().saturating_sub(skip_blank(text, true).len());
    let Some(cut) = cut_at(text, from, from.saturating_add(1)) else {
        return Ok(false);
    };
    if cut.middle != "," || !is_filler(alloc, cut.before)? {
        return Ok(false);
    }
    is_rest_of_line(alloc, cut.after)
}
