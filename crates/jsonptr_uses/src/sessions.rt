//! Sessions whose document and values are JSON texts.
ghost use Rattle.std.specs.Prelude.{◌≡◌, All, IsSome, None, Some, IfOk, IsErrOf, OnErr, map};
ghost use Rattle.serde_json.specs.Data.{Data};
ghost use Rattle.serde_json.specs.Read.{read as read_text};
ghost use Rattle.serde_json.specs.View.{view};
ghost use Rattle.jsonptr.specs.Documents.{json_map, json_blank, JsonHasSortedKeys};
ghost use Rattle.jsonptr.specs.Json.{nodes, HasSortedKeys};
ghost use Rattle.jsonptr_session.specs.Machine.{State, Runs};
ghost use Rattle.jsonptr_session.specs.Session.{command_of, answer_of};
ghost use Rattle.jsonptr_session.specs.Order.{CallHas, ReplyHas};
ghost use Rattle.jsonptr_uses.specs.Sessions.{text_map, string_map, IsJsonString};
ghost use Rattle.jsonptr_uses.specs.declared.sessions.TextError.{TextError};

use jsonptr::PointerBuf;
use jsonptr::tree::json::json_map_law;
use jsonptr_session::laws::kinds_law;
use jsonptr_session::{Call, Reply, run_json};
use jsonptr_value::ReadError;
use serde_json::Value;
use std::alloc::{AllocError, Global};

/// Why a session on texts is not run.
#[derive(Debug, Drop)]
pub enum TextError {
    /// The document or the value of a call is not a JSON text.
    NotJson,
    /// An allocation failed.
    Memory(AllocError),
}

impl From<AllocError> for TextError {
    ghost from_gives = { λ error fault. fault ≡ TextError.Memory error };

    fn from(error: AllocError) -> TextError {
        TextError::Memory(error)
    }
}

/// The document after a session, and one reply for each call.
#[derive(Debug, Drop)]
pub struct SessionResult {
    /// The document.
    pub document: Value,
    /// The replies, in the order of the calls.
    pub replies: Vec<Reply<Value>>,
}

/// Reads a document from a JSON text, and makes the calls on it and on the pointer. The values of
/// the calls are JSON texts, too.
///
/// The keys of the new document are sorted, since everything is parsed. So its map determines it:
/// every value with sorted keys and the same map is the document.
///
/// # Errors
///
/// [`TextError::NotJson`] if the document or the value of a call is not a JSON text, and
/// [`TextError::Memory`] if there is no memory for the values or for the list of replies. No call
/// is then made.
pub fn run_texts(
    alloc: Global,
    pointer: &mut PointerBuf,
    document: &str,
    calls: &[Call<String>],
) -> Result<SessionResult, TextError>
    ensures read { IfOk result (λ _.
        IsSome (read_text document.now) × All (CallHas IsJsonString) calls.now) }
    ensures runs { IfOk result (λ outcome. Runs json_blank
        (record { tokens = pointer.old; nodes = text_map document.now })
        (map (command_of string_map) calls.now) (map (answer_of json_map) outcome.replies.items)
        (record { tokens = pointer.new; nodes = json_map outcome.document })) }
    ensures sorted { IfOk result (λ outcome. JsonHasSortedKeys outcome.document) }
    ensures returned_sorted { IfOk result (λ outcome.
        All (ReplyHas JsonHasSortedKeys) outcome.replies.items) }
    ensures one_value { IfOk result (λ outcome. (d : Data)
        → HasSortedKeys d → nodes d ≡ json_map outcome.document → d ≡ view outcome.document) }
    ensures not_json { IsErrOf result TextError.NotJson
        → IsSome (read_text document.now) → All (CallHas IsJsonString) calls.now → ⊥ }
    ensures unchanged { OnErr result (pointer.new ≡ pointer.old) }
{
    json_map_law();
    let mut document = read_value(alloc, document)?;
    let calls = read_calls(alloc, calls)?;
    let replies = run_json(alloc, pointer, &mut document, calls)?;
    Ok(SessionResult { document, replies })
}

/// Makes the same calls on two copies of a document, each with a pointer of its own.
///
/// If the pointers are equal and no allocation fails, the pointers are equal afterwards, and so are
/// the replies and the documents.
///
/// # Errors
///
/// Those of [`run_texts`]. The second pointer is unchanged.
pub fn run_on_copies(
    alloc: Global,
    first: &mut PointerBuf,
    second: &mut PointerBuf,
    document: &str,
    calls: &[Call<String>],
) -> Result<(SessionResult, SessionResult), TextError>
    ensures pointers { IfOk result (λ both. first.old ≡ second.old
        → All IsSome (map (answer_of json_map) both.0.replies.items)
        → All IsSome (map (answer_of json_map) both.1.replies.items)
        → first.new ≡ second.new) }
    ensures replies { IfOk result (λ both. first.old ≡ second.old
        → All IsSome (map (answer_of json_map) both.0.replies.items)
        → All IsSome (map (answer_of json_map) both.1.replies.items)
        → map (answer_of json_map) both.0.replies.items
        ≡ map (answer_of json_map) both.1.replies.items) }
    ensures documents { IfOk result (λ both. first.old ≡ second.old
        → All IsSome (map (answer_of json_map) both.0.replies.items)
        → All IsSome (map (answer_of json_map) both.1.replies.items)
        → view both.0.document ≡ view both.1.document) }
    ensures unchanged { OnErr result (second.new ≡ second.old) }
{
    kinds_law::<PointerBuf, PointerBuf>();
    let one = run_texts(alloc, first, document, calls)?;
    let other = run_texts(alloc, second, document, calls)?;
    Ok((one, other))
}

/// Reads the values of the calls from their JSON texts.
fn read_calls(alloc: Global, calls: &[Call<String>]) -> Result<Vec<Call<Value>>, TextError>
    ensures read { IfOk result (λ _. All (CallHas IsJsonString) calls.now) }
    ensures commands { IfOk result (λ made.
        map (command_of json_map) made.items ≡ map (command_of string_map) calls.now) }
    ensures sorted { IfOk result (λ made. All (CallHas JsonHasSortedKeys) made.items) }
    ensures not_json { IsErrOf result TextError.NotJson → All (CallHas IsJsonString) calls.now → ⊥ }
{
    let mut made = Vec::new(alloc);
    for call in calls {
        let one = read_call(alloc, call)?;
        made.push(one).map_err(AllocError::from)?;
    }
    Ok(made)
}

/// Reads the value of a call from its JSON text, and copies its other arguments.
fn read_call(alloc: Global, call: &Call<String>) -> Result<Call<Value>, TextError>
    ensures read { IfOk result (λ _. CallHas IsJsonString call.now) }
    ensures command { IfOk result (λ made.
        command_of json_map made ≡ command_of string_map call.now) }
    ensures sorted { IfOk result (λ made. CallHas JsonHasSortedKeys made) }
    ensures not_json { IsErrOf result TextError.NotJson → CallHas IsJsonString call.now → ⊥ }
{
    match call {
        Call::Parse(text) => Ok(Call::Parse(text.clone()?)),
        Call::PushBack(text) => Ok(Call::PushBack(text.clone()?)),
        Call::PushFront(text) => Ok(Call::PushFront(text.clone()?)),
        Call::PopBack => Ok(Call::PopBack),
        Call::PopFront => Ok(Call::PopFront),
        Call::Replace(index, text) => Ok(Call::Replace(*index, text.clone()?)),
        Call::Append(other) => Ok(Call::Append(other.as_ptr().to_buf(alloc)?)),
        Call::Clear => Ok(Call::Clear),
        Call::Resolve => Ok(Call::Resolve),
        Call::Write(text) => Ok(Call::Write(read_value(alloc, text.as_str())?)),
        Call::Assign(text) => Ok(Call::Assign(read_value(alloc, text.as_str())?)),
        Call::Delete => Ok(Call::Delete),
    }
}

/// Reads a value from a JSON text. Its keys are sorted.
fn read_value(alloc: Global, text: &str) -> Result<Value, TextError>
    ensures read { IfOk result (λ value. read_text text.now ≡ Some (view value)) }
    ensures sorted { IfOk result (λ value. JsonHasSortedKeys value) }
    ensures not_json { IsErrOf result TextError.NotJson → read_text text.now ≡ None }
{
    match jsonptr_value::read(alloc, text) {
        Ok(value) => Ok(value),
        Err(ReadError::NotJson) => Err(TextError::NotJson),
        Err(ReadError::Memory(error)) => Err(TextError::Memory(error)),
    }
}
