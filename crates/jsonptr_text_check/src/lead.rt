//! The check that selectors lead to a value in a text.
ghost use Rattle.std.specs.Prelude.{◌<◌, length, OnOk, IfOk, IsTrue};
ghost use Rattle.serde_json.specs.Data.{Data, Items, Members};
ghost use Rattle.serde_json.specs.Find.{get_member, get_item};
ghost use Rattle.jsonptr_text_search.specs.Reading.{ReadsTokens, ReadsItems, ReadsMembers};
ghost use Rattle.jsonptr_text_search.specs.Search.{choices};
ghost use Rattle.jsonptr_text_check.specs.Leading.{LeadsToText, LeadsInText, BeginsAt};
ghost use Rattle.jsonptr_text_check.specs.PrivateLeading.{LeadsIf, ChildLeads, Placed, PlacedIf, KeyIf, PlacesElement, EndsMember};

use crate::check_error::CheckError;
use crate::same::{Readers, same, same_key, same_text};
use crate::wanted::{Step, Wanted, is_at, is_either, may_follow, step_of};
use json::{Invalid, Reader, Scratch, Token};
use jsonptr_text_piece::buffers::Buffers;
use jsonptr_text_search::decide::is_text;
use jsonptr_text_search::selector::Selector;
use jsonptr_text_search::skip::skip;
use jsonptr_value::MAX_DEPTH;
use std::alloc::AllocError;

/// The way to a value in a text, and a text of the value.
#[derive(Clone, Copy, Debug)]
pub struct ValueAt<'a> {
    /// The selectors that lead to the value.
    pub selectors: &'a [Selector],
    /// The position, among all children, of each child on the way. Of members with the same key it
    /// is that of the last one.
    pub positions: &'a [usize],
    /// A JSON text of the value.
    pub value: &'a str,
    /// What is left of the text where the value begins.
    pub tail: &'a str,
}

/// Returns whether the selectors of the target lead to its value in the text, where its tail begins.
///
/// Reads the text once, the tail beside it, and the value twice. Builds no document. The positions are those
/// that [`is_edited`](crate::check::is_edited) looks at. The tokens of the value must be those of the text
/// there, one for one, and so must those of the tail.
///
/// # Errors
///
/// [`AllocError`] if there is no memory for the unescaped strings of a text.
///
/// # Examples
///
/// ```rust
/// let mut buffers = Buffers::new(alloc);
/// let selectors = vec![in alloc; Selector { key: String::new(alloc), index: Some(1) }]?;
/// let mut target = ValueAt { selectors: &selectors, positions: &[1], value: "5", tail: "5]" };
/// assert!(rt; leads_to(&mut buffers, "[15, 5]", target)?);
/// target.tail = "5, 5]";
/// assert!(rt; !leads_to(&mut buffers, "[15, 5]", target)?);
/// ```
pub fn leads_to(buffers: &mut Buffers, text: &str, target: ValueAt<'_>) -> Result<bool, AllocError>
    ensures leads { IfOk result (λ b. IsTrue b
        → LeadsInText text.now (choices target.entry.selectors.now) target.entry.value.now) }
    ensures begins { IfOk result (λ b. IsTrue b → BeginsAt (choices target.entry.selectors.now) text.now
        target.entry.value.now target.entry.tail.now) }
{
    match check(buffers, text, target) {
        Ok(()) => Ok(true),
        Err(CheckError::Mismatch) => Ok(false),
        Err(CheckError::Memory(error)) => Err(error),
    }
}

/// Reads the text, in which the selectors lead to the value, and the tail beside it.
///
/// # Errors
///
/// [`CheckError::Mismatch`] if they do not, and [`CheckError::Memory`] if an allocation fails.
fn check(buffers: &mut Buffers, text: &str, target: ValueAt<'_>) -> Result<(), CheckError>
    ensures leads { OnOk result
        (LeadsInText text.now (choices target.entry.selectors.now) target.entry.value.now) }
    ensures begins { OnOk result (BeginsAt (choices target.entry.selectors.now) text.now
        target.entry.value.now target.entry.tail.now) }
{
    let one = Reader::new(text, &mut buffers.old)?;
    let two = Reader::new(target.tail, &mut buffers.new)?;
    let mut readers = Readers { one, two };
    pass(&mut buffers.value, &mut readers, MAX_DEPTH, target)?;
    if readers.one.next().is_some() || readers.two.next().is_some() {
        return Err(CheckError::Mismatch);
    }
    Ok(())
}

/// Passes over the next value of the text, in which the selectors lead to the target, and over what the tail
/// has of it.
///
/// # Errors
///
/// As [`check`].
#[cycle(pass)]
fn pass(
    scratch: &mut Scratch,
    readers: &mut Readers<'_>,
    depth: usize,
    target: ValueAt<'_>,
) -> Result<(), CheckError>
    ensures passed { OnOk result ((d : Data) × ReadsTokens depth readers.old.one d readers.new.one
        × LeadsToText (choices target.entry.selectors.now) target.entry.value.now d) }
    ensures placed { OnOk result (Placed (choices target.entry.selectors.now) target.entry.value.now
        readers.old.one readers.new.one readers.old.two readers.new.two) }
    ensures shorter { OnOk result (length readers.new.one < length readers.old.one) }
{
    let Some((selector, selectors)) = target.selectors.split_first() else {
        same_text(scratch, &mut readers.one, depth, target.value)?;
        same_text(scratch, &mut readers.two, depth, target.value)?;
        return Ok(());
    };
    let Some((position, positions)) = target.positions.split_first() else {
        return Err(CheckError::Mismatch);
    };
    let rest = ValueAt {
        selectors,
        positions,
        value: target.value,
        tail: target.tail,
    };
    let Some(token) = readers.one.next() else {
        return Err(CheckError::Mismatch);
    };
    if depth == 0 {
        return Err(CheckError::Mismatch);
    }
    match token {
        Token::BeginArray => {
            let index = selector.index.ok_or(CheckError::Mismatch)?;
            pass_element(scratch, readers, depth - 1, index, rest)?;
            Ok(())
        }
        Token::BeginObject => {
            let key = selector.key.as_str();
            let wanted = Wanted {
                key,
                position: *position,
            };
            pass_member(scratch, readers, depth - 1, wanted, rest)?;
            Ok(())
        }
        _ => Err(CheckError::Mismatch),
    }
}

/// Passes over the rest of an array, in whose element at the index the selectors lead to the target.
///
/// # Errors
///
/// As [`check`].
#[cycle(pass)]
fn pass_element(
    scratch: &mut Scratch,
    readers: &mut Readers<'_>,
    depth: usize,
    index: usize,
    target: ValueAt<'_>,
) -> Result<(), CheckError>
    ensures passed { OnOk result ((ds : Items) × ReadsItems depth readers.old.one ds readers.new.one
        × ChildLeads (get_item index ds) (choices target.entry.selectors.now) target.entry.value.now) }
    ensures placed { OnOk result (PlacesElement index (choices target.entry.selectors.now)
        target.entry.value.now readers.old.one readers.new.one readers.old.two readers.new.two) }
    ensures shorter { OnOk result (length readers.new.one < length readers.old.one) }
{
    let mut count = 0;
    let mut is_done = false;
    'elements: while !readers.one.take_end_array() {
        if count == usize::MAX {
            return Err(CheckError::Mismatch);
        }
        let wanted = is_at(count, index);
        let step = step_of(is_done, wanted);
        visit(scratch, readers, depth, step, target)?;
        is_done = is_either(is_done, wanted);
        count += 1;
    }
    if !is_done || !readers.two.take_end_array() {
        return Err(CheckError::Mismatch);
    }
    Ok(())
}

/// Passes over the rest of an object, in whose last member with the key the selectors lead to the
/// target. It is the one at the position.
///
/// # Errors
///
/// As [`check`].
#[cycle(pass)]
fn pass_member(
    scratch: &mut Scratch,
    readers: &mut Readers<'_>,
    depth: usize,
    member: Wanted<'_>,
    target: ValueAt<'_>,
) -> Result<(), CheckError>
    ensures passed { OnOk result ((ms : Members) × ReadsMembers depth readers.old.one ms readers.new.one
        × ChildLeads (get_member member.entry.key.now ms) (choices target.entry.selectors.now)
        target.entry.value.now) }
    ensures placed { OnOk result (EndsMember member.entry.key.now (choices target.entry.selectors.now)
        target.entry.value.now readers.old.one readers.new.one readers.old.two readers.new.two) }
    ensures shorter { OnOk result (length readers.new.one < length readers.old.one) }
{
    let mut count = 0usize;
    let mut is_done = false;
    'members: while let Some(name) = readers.one.next_key()? {
        let wanted = is_at(count, member.position);
        let named = is_text(name, member.key);
        if !may_follow(is_done, wanted, named) {
            return Err(CheckError::Mismatch);
        }
        key_if(&mut readers.two, is_done, name)?;
        let step = step_of(is_done, wanted);
        visit(scratch, readers, depth, step, target)?;
        is_done = is_either(is_done, wanted);
        count = count.saturating_add(1);
    }
    if !is_done || readers.two.next_key()?.is_some() {
        return Err(CheckError::Mismatch);
    }
    Ok(())
}

/// Reads the key in the tail, if the tail has been reached.
///
/// # Errors
///
/// [`Invalid`] if another key is there, or none.
fn key_if(reader: &mut Reader<'_>, is_done: bool, key: &str) -> Result<(), Invalid>
    ensures { OnOk result (KeyIf is_done key.now reader.old reader.new) }
{
    if is_done {
        same_key(reader, key)
    } else {
        Ok(())
    }
}

/// Passes over the next value of the text. If it is entered, the selectors lead from it to the target. If it
/// is after that, it is in the tail too.
///
/// # Errors
///
/// As [`check`].
#[cycle(pass)]
fn visit(
    scratch: &mut Scratch,
    readers: &mut Readers<'_>,
    depth: usize,
    step: Step,
    target: ValueAt<'_>,
) -> Result<(), CheckError>
    ensures passed { OnOk result ((d : Data) × ReadsTokens depth readers.old.one d readers.new.one
        × LeadsIf step (choices target.entry.selectors.now) target.entry.value.now d) }
    ensures placed { OnOk result (PlacedIf step (choices target.entry.selectors.now)
        target.entry.value.now readers.old.one readers.new.one readers.old.two readers.new.two) }
    ensures shorter { OnOk result (length readers.new.one < length readers.old.one) }
{
    match step {
        Step::Skip => {
            skip(&mut readers.one, depth)?;
            Ok(())
        }
        Step::Enter => pass(scratch, readers, depth, target),
        Step::Follow => {
            same(&mut readers.one, &mut readers.two, depth, depth)?;
            Ok(())
        }
    }
}
