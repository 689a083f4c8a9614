//! The calls of a session, one after the other.
ghost use Rattle.std.specs.Prelude.{◌≡◌, All, IfOk, OnErr, map, string_bytes};
ghost use Rattle.jsonptr.specs.Pointer.{tokens};
ghost use Rattle.jsonptr_session.specs.Machine.{State, IsStep, Runs};
ghost use Rattle.jsonptr_session.specs.Machine as machine;
ghost use Rattle.jsonptr_session.specs.Session.{command_of, answer_of};
ghost use Rattle.jsonptr_session.specs.Order.{CallHas, ReplyHas};
ghost use Rattle.jsonptr_session.specs.PrivateTurn.{answered, StepsOnNodes, StepsOnTokens};

use crate::document::SessionDocument;
use crate::session::{Call, Reply};
use jsonptr::{Fault, Pointer, PointerBuf, ReplaceError, Token};
use jsonptr_tabled::EditPointer;
use std::alloc::{AllocError, Global};
use std::borrow::CowStr;

/// Makes the calls in order, and returns one reply for each.
///
/// # Errors
///
/// [`AllocError`] if there is no memory for the list of replies. No call is then made.
pub fn run<P: EditPointer, D: SessionDocument>(
    alloc: Global,
    pointer: &mut P,
    document: &mut D,
    calls: Vec<Call<D>>,
) -> Result<Vec<Reply<D>>, AllocError>
    ensures runs { IfOk result (λ replies. Runs D.blank
        (record { tokens = P.list pointer.old; nodes = D.nodes document.old })
        (map (command_of D.nodes) calls.items) (map (answer_of D.nodes) replies.items)
        (record { tokens = P.list pointer.new; nodes = D.nodes document.new })) }
    ensures sorted { IfOk result (λ _.
        All (CallHas D.has_sorted_keys) calls.items → D.has_sorted_keys document.old
        → D.has_sorted_keys document.new) }
    ensures returned_sorted { IfOk result (λ replies.
        All (CallHas D.has_sorted_keys) calls.items → D.has_sorted_keys document.old
        → All (ReplyHas D.has_sorted_keys) replies.items) }
    ensures unchanged { OnErr result ((pointer.new ≡ pointer.old) × (document.new ≡ document.old)) }
{
    let mut replies = Vec::with_capacity(alloc, calls.len())?;
    for call in calls {
        let reply = turn(alloc, pointer, document, call);
        replies.push(reply).unwrap();
    }
    Ok(replies)
}

/// Makes one call. Replies [`Reply::Memory`] if an allocation fails.
fn turn<P: EditPointer, D: SessionDocument>(
    alloc: Global,
    pointer: &mut P,
    document: &mut D,
    call: Call<D>,
) -> Reply<D>
    ensures steps { IsStep D.blank
        (record { tokens = P.list pointer.old; nodes = D.nodes document.old })
        (command_of D.nodes call) (answer_of D.nodes result)
        (record { tokens = P.list pointer.new; nodes = D.nodes document.new }) }
    ensures sorted { CallHas D.has_sorted_keys call → D.has_sorted_keys document.old
        → D.has_sorted_keys document.new }
    ensures returned_sorted { D.has_sorted_keys document.old → ReplyHas D.has_sorted_keys result }
{
    match answer(alloc, pointer, document, call) {
        Ok(reply) => reply,
        Err(error) => Reply::Memory(error),
    }
}

/// Makes one call.
///
/// # Errors
///
/// [`AllocError`] if an allocation fails. The pointer and the document are unchanged.
fn answer<P: EditPointer, D: SessionDocument>(
    alloc: Global,
    pointer: &mut P,
    document: &mut D,
    call: Call<D>,
) -> Result<Reply<D>, AllocError>
    ensures steps { IsStep D.blank
        (record { tokens = P.list pointer.old; nodes = D.nodes document.old })
        (command_of D.nodes call) (answered D.nodes result)
        (record { tokens = P.list pointer.new; nodes = D.nodes document.new }) }
    ensures sorted { CallHas D.has_sorted_keys call → D.has_sorted_keys document.old
        → D.has_sorted_keys document.new }
    ensures returned_sorted { IfOk result (λ reply.
        D.has_sorted_keys document.old → ReplyHas D.has_sorted_keys reply) }
{
    match call {
        Call::Parse(text) => parse(pointer, text),
        Call::PushBack(text) => push_back(alloc, pointer, text),
        Call::PushFront(text) => push_front(alloc, pointer, text),
        Call::PopBack => pop_back(pointer),
        Call::PopFront => pop_front(pointer),
        Call::Replace(index, text) => replace(alloc, pointer, index, text),
        Call::Append(other) => append(pointer, other),
        Call::Clear => clear(pointer),
        Call::Resolve => resolve(alloc, document, pointer.as_ptr()),
        Call::Write(value) => write(alloc, document, pointer.as_ptr(), value),
        Call::Assign(value) => assign(alloc, document, pointer.as_ptr(), value),
        Call::Delete => delete(alloc, document, pointer.as_ptr()),
    }
}

/// Makes the call `Call::Parse`.
fn parse<P: EditPointer, D: SessionDocument>(
    pointer: &mut P,
    text: String,
) -> Result<Reply<D>, AllocError>
    ensures steps { StepsOnTokens D.blank (P.list pointer.old) (machine.parse (string_bytes text))
        (answered D.nodes result) (P.list pointer.new) }
    ensures returned_sorted { IfOk result (ReplyHas D.has_sorted_keys) }
{
    match pointer.set_text(text) {
        Ok(()) => Ok(Reply::Done),
        Err(Fault::Refused(report)) => Ok(Reply::BadPointer(report)),
        Err(Fault::Memory(error)) => Err(error),
    }
}

/// Makes the call `Call::PushBack`.
fn push_back<P: EditPointer, D: SessionDocument>(
    alloc: Global,
    pointer: &mut P,
    text: String,
) -> Result<Reply<D>, AllocError>
    ensures steps { StepsOnTokens D.blank (P.list pointer.old)
        (machine.push_back (string_bytes text)) (answered D.nodes result) (P.list pointer.new) }
    ensures returned_sorted { IfOk result (ReplyHas D.has_sorted_keys) }
{
    pointer.push_back(Token::new(alloc, CowStr::Owned(text))?)?;
    Ok(Reply::Done)
}

/// Makes the call `Call::PushFront`.
fn push_front<P: EditPointer, D: SessionDocument>(
    alloc: Global,
    pointer: &mut P,
    text: String,
) -> Result<Reply<D>, AllocError>
    ensures steps { StepsOnTokens D.blank (P.list pointer.old)
        (machine.push_front (string_bytes text)) (answered D.nodes result) (P.list pointer.new) }
    ensures returned_sorted { IfOk result (ReplyHas D.has_sorted_keys) }
{
    pointer.push_front(Token::new(alloc, CowStr::Owned(text))?)?;
    Ok(Reply::Done)
}

/// Makes the call `Call::PopBack`.
fn pop_back<P: EditPointer, D: SessionDocument>(pointer: &mut P) -> Result<Reply<D>, AllocError>
    ensures steps { StepsOnTokens D.blank (P.list pointer.old) machine.pop_back
        (answered D.nodes result) (P.list pointer.new) }
    ensures returned_sorted { IfOk result (ReplyHas D.has_sorted_keys) }
{
    Ok(Reply::Token(pointer.pop_back()?))
}

/// Makes the call `Call::PopFront`.
fn pop_front<P: EditPointer, D: SessionDocument>(pointer: &mut P) -> Result<Reply<D>, AllocError>
    ensures steps { StepsOnTokens D.blank (P.list pointer.old) machine.pop_front
        (answered D.nodes result) (P.list pointer.new) }
    ensures returned_sorted { IfOk result (ReplyHas D.has_sorted_keys) }
{
    Ok(Reply::Token(pointer.pop_front()?))
}

/// Makes the call `Call::Replace`. Tests the position before it makes the token.
fn replace<P: EditPointer, D: SessionDocument>(
    alloc: Global,
    pointer: &mut P,
    index: usize,
    text: String,
) -> Result<Reply<D>, AllocError>
    ensures steps { StepsOnTokens D.blank (P.list pointer.old)
        (machine.replace index (string_bytes text)) (answered D.nodes result) (P.list pointer.new) }
    ensures returned_sorted { IfOk result (ReplyHas D.has_sorted_keys) }
{
    let count = pointer.as_ptr().count();
    if count <= index {
        return Ok(Reply::BadPosition(ReplaceError { index, count }));
    }
    match pointer.replace(index, Token::new(alloc, CowStr::Owned(text))?) {
        Ok(old) => Ok(Reply::Token(old)),
        Err(fault) => Ok(Reply::BadPosition(fault.refused()?)),
    }
}

/// Makes the call `Call::Append`.
fn append<P: EditPointer, D: SessionDocument>(
    pointer: &mut P,
    other: PointerBuf,
) -> Result<Reply<D>, AllocError>
    ensures steps { StepsOnTokens D.blank (P.list pointer.old) (machine.append other)
        (answered D.nodes result) (P.list pointer.new) }
    ensures returned_sorted { IfOk result (ReplyHas D.has_sorted_keys) }
{
    pointer.append(other.as_ptr())?;
    Ok(Reply::Done)
}

/// Makes the call `Call::Clear`. Needs no allocation.
fn clear<P: EditPointer, D: SessionDocument>(pointer: &mut P) -> Result<Reply<D>, AllocError>
    ensures steps { StepsOnTokens D.blank (P.list pointer.old) machine.clear
        (answered D.nodes result) (P.list pointer.new) }
    ensures returned_sorted { IfOk result (ReplyHas D.has_sorted_keys) }
{
    pointer.clear();
    Ok(Reply::Done)
}

/// Makes the call `Call::Resolve`.
fn resolve<D: SessionDocument>(
    alloc: Global,
    document: &D,
    pointer: Pointer<'_>,
) -> Result<Reply<D>, AllocError>
    ensures steps { StepsOnNodes D.blank (tokens pointer.entry) (D.nodes document.now)
        machine.resolve (answered D.nodes result) (D.nodes document.now) }
    ensures returned_sorted { IfOk result (λ reply.
        D.has_sorted_keys document.now → ReplyHas D.has_sorted_keys reply) }
{
    match document.copy_at(alloc, pointer) {
        Ok(value) => Ok(Reply::Value(value)),
        Err(fault) => Ok(Reply::NoValue(fault.refused()?)),
    }
}

/// Makes the call `Call::Write`.
fn write<D: SessionDocument>(
    alloc: Global,
    document: &mut D,
    pointer: Pointer<'_>,
    value: D,
) -> Result<Reply<D>, AllocError>
    ensures steps { StepsOnNodes D.blank (tokens pointer.entry) (D.nodes document.old)
        (machine.write (D.nodes value)) (answered D.nodes result) (D.nodes document.new) }
    ensures sorted { D.has_sorted_keys value → D.has_sorted_keys document.old
        → D.has_sorted_keys document.new }
    ensures returned_sorted { IfOk result (λ reply.
        D.has_sorted_keys document.old → ReplyHas D.has_sorted_keys reply) }
{
    let mut value = value;
    match document.swap_at(alloc, pointer, &mut value) {
        Ok(()) => Ok(Reply::Value(value)),
        Err(fault) => Ok(Reply::NoValue(fault.refused()?)),
    }
}

/// Makes the call `Call::Assign`.
fn assign<D: SessionDocument>(
    alloc: Global,
    document: &mut D,
    pointer: Pointer<'_>,
    value: D,
) -> Result<Reply<D>, AllocError>
    ensures steps { StepsOnNodes D.blank (tokens pointer.entry) (D.nodes document.old)
        (machine.assign (D.nodes value)) (answered D.nodes result) (D.nodes document.new) }
    ensures sorted { D.has_sorted_keys value → D.has_sorted_keys document.old
        → D.has_sorted_keys document.new }
    ensures returned_sorted { IfOk result (λ reply.
        D.has_sorted_keys document.old → ReplyHas D.has_sorted_keys reply) }
{
    match document.assign_at(alloc, pointer, value) {
        Ok(old) => Ok(Reply::Assigned(old)),
        Err(fault) => Ok(Reply::BadPlace(fault.refused()?)),
    }
}

/// Makes the call `Call::Delete`.
fn delete<D: SessionDocument>(
    alloc: Global,
    document: &mut D,
    pointer: Pointer<'_>,
) -> Result<Reply<D>, AllocError>
    ensures steps { StepsOnNodes D.blank (tokens pointer.entry) (D.nodes document.old)
        machine.delete (answered D.nodes result) (D.nodes document.new) }
    ensures sorted { D.has_sorted_keys document.old → D.has_sorted_keys document.new }
    ensures returned_sorted { IfOk result (λ reply.
        D.has_sorted_keys document.old → ReplyHas D.has_sorted_keys reply) }
{
    Ok(Reply::Deleted(document.delete_at(alloc, pointer)?))
}
