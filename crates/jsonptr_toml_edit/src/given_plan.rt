//! Where the text of a raw value is put. These are hints: no contract says that they are right.
use crate::add::plan_addition;
use crate::alone::joined;
use crate::piece::has_headers;
use crate::plan::{AdditionPlan, Keys, ReplacementPlan, TomlChild};
use crate::raw_value::RawTomlValue;
use crate::replace::plan_replacement;
use jsonptr::{Pointer, PointerBuf};
use jsonptr_text_piece::cut::{cut_at, splice};
use jsonptr_text_piece::span::Span;
use std::alloc::{AllocError, Global};
use toml::Value;

/// How a raw value is in the new text.
#[derive(Debug, Drop)]
pub enum GivenForm {
    /// Its text is there.
    Text(Span),
    /// Headers and dotted keys make the value.
    Headers(GivenHeaders),
}

/// Headers and pairs that are put in.
#[derive(Debug, Drop)]
pub struct GivenHeaders {
    /// What they replace.
    pub span: Span,
    /// The new text.
    pub piece: String,
    /// The keys at which they hold the value.
    pub keys: PointerBuf,
}

/// The text of a value that a raw value replaces.
#[derive(Debug, Drop)]
pub struct GivenReplacement {
    /// What changes.
    pub plan: ReplacementPlan,
    /// How the raw value is in the new text.
    pub form: GivenForm,
}

/// The text of a member or an element with a raw value.
#[derive(Debug, Drop)]
pub struct GivenAddition {
    /// What changes.
    pub plan: AdditionPlan,
    /// How the raw value is in the new text.
    pub form: GivenForm,
}

/// Returns how the text of the value that the pointer resolves to is replaced by that of the raw value.
///
/// # Errors
///
/// [`AllocError`] if an allocation fails.
pub fn plan_given_replacement(
    alloc: Global,
    text: &str,
    pointer: Pointer<'_>,
    raw: &RawTomlValue,
) -> Result<Option<GivenReplacement>, AllocError> {
    let value = &raw.value;
    let Some(plan) = plan_replacement(alloc, text, pointer, value)? else {
        return Ok(None);
    };
    match &plan.items {
        Some(items) if value.is_table() || has_headers(value) => {
            let headers = GivenHeaders {
                span: plan.span,
                piece: plan.piece.clone()?,
                keys: items.new_keys.as_ptr().to_buf(alloc)?,
            };
            Ok(Some(GivenReplacement {
                plan,
                form: GivenForm::Headers(headers),
            }))
        }
        _ => replace_by_text(alloc, text, pointer, raw),
    }
}

/// Returns how the text of the value, or what makes it, is replaced by a text that has that of the raw
/// value.
fn replace_by_text(
    alloc: Global,
    text: &str,
    pointer: Pointer<'_>,
    raw: &RawTomlValue,
) -> Result<Option<GivenReplacement>, AllocError> {
    let Some(plan) = plan_replacement(alloc, text, pointer, &stand_in(alloc))? else {
        return Ok(None);
    };
    let Some(given) = with_text(alloc, plan.piece.as_str(), raw)? else {
        return Ok(None);
    };
    Ok(Some(GivenReplacement {
        form: GivenForm::Text(moved(given.span, plan.span.from)),
        plan: ReplacementPlan {
            span: plan.span,
            piece: given.piece,
            items: plan.items,
        },
    }))
}

/// Returns how a member or an element with the raw value is put in at the pointer, which does not
/// resolve.
///
/// # Errors
///
/// [`AllocError`] if an allocation fails.
pub fn plan_given_addition(
    alloc: Global,
    text: &str,
    document: &Value,
    pointer: Pointer<'_>,
    raw: &RawTomlValue,
) -> Result<Option<GivenAddition>, AllocError> {
    match plan_addition(alloc, text, document, pointer, &stand_in(alloc))? {
        Some(plan) => add_text(alloc, plan, raw),
        None => add_headers(alloc, text, document, pointer, &raw.value),
    }
}

/// Returns how a text that has that of the raw value is put in, instead of the stand-in.
fn add_text(
    alloc: Global,
    plan: AdditionPlan,
    raw: &RawTomlValue,
) -> Result<Option<GivenAddition>, AllocError> {
    let Some(given) = with_text(alloc, plan.rest.as_str(), raw)? else {
        return Ok(None);
    };
    let kept = plan.span.to.saturating_sub(plan.span.from);
    let before = plan.lead.len().saturating_add(kept);
    let longer = given.piece.len().saturating_sub(plan.rest.len());
    let shorter = plan.rest.len().saturating_sub(given.piece.len());
    let child = TomlChild {
        span: Span {
            from: plan.child.span.from,
            to: plan
                .child
                .span
                .to
                .saturating_add(longer)
                .saturating_sub(shorter),
        },
        keys: plan.child.keys,
    };
    Ok(Some(GivenAddition {
        form: GivenForm::Text(moved(given.span, plan.span.from.saturating_add(before))),
        plan: AdditionPlan {
            span: plan.span,
            lead: plan.lead,
            rest: given.piece,
            child,
        },
    }))
}

/// Returns how headers and pairs that make the value are put in, as an element of an array of tables.
fn add_headers(
    alloc: Global,
    text: &str,
    document: &Value,
    pointer: Pointer<'_>,
    value: &Value,
) -> Result<Option<GivenAddition>, AllocError> {
    let Some(plan) = plan_addition(alloc, text, document, pointer, value)? else {
        return Ok(None);
    };
    let Some(cut) = cut_at(text, plan.span.from, plan.span.to) else {
        return Ok(None);
    };
    let keys = match &plan.child.keys {
        Keys::Some(keys) => keys.as_ptr().to_buf(alloc)?,
        Keys::None => return Ok(None),
    };
    let headers = GivenHeaders {
        span: plan.span,
        piece: joined(alloc, plan.lead.as_str(), cut.middle, plan.rest.as_str())?,
        keys,
    };
    Ok(Some(GivenAddition {
        plan,
        form: GivenForm::Headers(headers),
    }))
}

/// Returns a value that is put in first, and whose text is replaced.
fn stand_in(alloc: Global) -> Value {
    Value::String(String::new(alloc))
}

/// A text that has the text of a raw value.
#[derive(Debug, Drop)]
struct GivenPiece {
    /// The text.
    piece: String,
    /// Where that of the raw value is in it.
    span: Span,
}

/// Returns the text with the text of the raw value instead of the stand-in, which is the last value
/// in it.
fn with_text(
    alloc: Global,
    piece: &str,
    raw: &RawTomlValue,
) -> Result<Option<GivenPiece>, AllocError> {
    let stand = stand_in(alloc).to_string(alloc)?;
    let Some(from) = piece.rfind(stand.as_str()) else {
        return Ok(None);
    };
    let Some(cut) = cut_at(piece, from, from.saturating_add(stand.len())) else {
        return Ok(None);
    };
    Ok(Some(GivenPiece {
        piece: splice(alloc, &cut, raw.text.as_str())?,
        span: Span {
            from,
            to: from.saturating_add(raw.text.len()),
        },
    }))
}

/// Returns the span, so much further on.
fn moved(span: Span, by: usize) -> Span {
    Span {
        from: span.from.saturating_add(by),
        to: span.to.saturating_add(by),
    }
}
