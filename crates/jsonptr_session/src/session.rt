//! Calls on a pointer and a document, and their replies.
//!
//! | Call | Replies | Needs no allocation |
//! |---|---|---|
//! | `Parse` | `Done`, `BadPointer` | if the text is not a pointer |
//! | `PushBack`, `PushFront`, `Append` | `Done` | |
//! | `PopBack`, `PopFront` | `Token` | at the root |
//! | `Replace` | `Token`, `BadPosition` | if there is no token at the position |
//! | `Clear` | `Done` | always |
//! | `Resolve` | `Value`, `NoValue` | without `~`, if the pointer does not resolve |
//! | `Write` | `Value`, `NoValue` | without `~` |
//! | `Assign` | `Assigned`, `BadPlace` | without `~`, if the pointer resolves or on `BadPlace` |
//! | `Delete` | `Deleted` | without `~` |
//!
//! If an allocation fails, the reply is `Memory`. A call that needs no allocation never replies
//! `Memory`. "Without `~`" refers to the text of the pointer.
//!
//! Each call costs what the method of the same name costs, and `Resolve` also a copy of the value.
//! The arguments are moved, and the document is changed in place.
ghost use Rattle.std.specs.Prelude.{◌≡◌, All, IfOk, OnErr, map};
ghost use Rattle.jsonptr_session.specs.Machine.{State, Runs};
ghost use Rattle.jsonptr_session.specs.Session.{command_of, answer_of};
ghost use Rattle.jsonptr_session.specs.Order.{CallHas, ReplyHas};
ghost use Rattle.jsonptr.specs.Documents.{json_map, json_blank, JsonHasSortedKeys, toml_map, toml_blank, TomlHasSortedKeys};

use crate::turn::run;
use jsonptr::{PointerBuf, ReplaceError, RichParseError, Token, assign, resolve};
use jsonptr_tabled::EditPointer;
use std::alloc::{AllocError, Global};

/// A call of a session. It owns its arguments. `V` is the type of the document and of its values.
///
/// ```rust
/// let mut pointer = PointerBuf::from_text(alloc, "/sizes/-")?;
/// let mut document = json!(in alloc; {"sizes": [3]})?;
/// let calls = vec![in alloc; Call::Assign(Value::from(5)), Call::PopBack, Call::Delete]?;
/// run_json(alloc, &mut pointer, &mut document, calls)?;
/// assert_eq!(rt; document.to_string(alloc)?.as_str(), "{}");
/// ```
#[derive(Debug, Drop)]
pub enum Call<V> {
    /// Replaces the pointer by the one with this text (RFC 6901, section 3).
    Parse(String),
    /// Appends the token of a decoded text to the pointer.
    PushBack(String),
    /// Inserts the token of a decoded text before all others.
    PushFront(String),
    /// Removes the last token of the pointer.
    PopBack,
    /// Removes the first token of the pointer.
    PopFront,
    /// Replaces the token at this position by the token of a decoded text. The first token is at
    /// position 0.
    Replace(usize, String),
    /// Appends the tokens of another pointer.
    Append(PointerBuf),
    /// Removes all tokens, so that the pointer is the root.
    Clear,
    /// Copies the value that the pointer resolves to.
    Resolve,
    /// Replaces the value that the pointer resolves to.
    Write(V),
    /// Assigns a value at the pointer, with [path expansion](jsonptr::assign).
    Assign(V),
    /// Removes the value that the pointer resolves to.
    Delete,
}

/// The reply to a call.
///
/// ```rust
/// let mut pointer = PointerBuf::from_text(alloc, "/depth")?;
/// let mut document = json!(in alloc; {"size": 3})?;
/// let calls = vec![in alloc; Call::Resolve, Call::PopBack]?;
/// let replies = run_json(alloc, &mut pointer, &mut document, calls)?;
/// let replies = replies.as_slice();
/// assert!(rt; matches!(replies, [Reply::NoValue(_), Reply::Token(Some(_))]));
/// ```
#[derive(Debug, Drop)]
pub enum Reply<V> {
    /// `Parse`, a push, `Append` or `Clear` changed the pointer.
    Done,
    /// The text of `Parse` is not a valid pointer. Contains the first error and the text. The
    /// pointer is unchanged.
    BadPointer(RichParseError),
    /// The token that a pop removed, which is `None` at the root, or the token that `Replace`
    /// replaced.
    Token(Option<Token<'static>>),
    /// The pointer has no token at the position of `Replace`. The pointer is unchanged.
    BadPosition(ReplaceError),
    /// The copy that `Resolve` made, or the value that `Write` replaced.
    Value(V),
    /// The pointer of `Resolve` or `Write` does not resolve to a value. The document is unchanged.
    NoValue(resolve::Error),
    /// The value that `Assign` replaced, or `None` if the location is new.
    Assigned(Option<V>),
    /// No value can be assigned at the pointer. The document is unchanged.
    BadPlace(assign::Error),
    /// The value that `Delete` removed. `None` if the pointer does not resolve to a value; the
    /// document is then unchanged.
    Deleted(Option<V>),
    /// An allocation failed. The pointer and the document are unchanged. The [module page](self)
    /// has the calls that never reply this.
    Memory(AllocError),
}

/// Makes the calls in order on a pointer and a JSON document, and returns one reply for each. An
/// error, a failed allocation included, becomes the reply of its call, and the run continues with
/// the next one.
///
/// Deleting the root leaves `null`. If the keys of each object are in ascending order in the
/// document and in the values of the calls, they are so in the new document and in the replies.
/// Parsed documents have such keys.
///
/// ```rust
/// let mut pointer = PointerBuf::from_text(alloc, "/size")?;
/// let mut document = json!(in alloc; {"size": 3})?;
/// let calls = vec![in alloc; Call::Write(Value::from(4)), Call::Clear]?;
/// let replies = run_json(alloc, &mut pointer, &mut document, calls)?;
/// assert!(rt; matches!(replies.as_slice(), [Reply::Value(_), Reply::Done]));
/// assert_eq!(rt; document.to_string(alloc)?.as_str(), r#"{"size":4}"#);
/// ```
///
/// # Errors
///
/// [`AllocError`] if there is no memory for the list of replies, which is allocated first. No call
/// is then made, and all calls are dropped.
pub fn run_json(
    alloc: Global,
    ptr: &mut PointerBuf,
    doc: &mut serde_json::Value,
    calls: Vec<Call<serde_json::Value>>,
) -> Result<Vec<Reply<serde_json::Value>>, AllocError>
    ensures runs { IfOk result (λ replies. Runs json_blank
        (record { tokens = ptr.old; nodes = json_map doc.old })
        (map (command_of json_map) calls.items) (map (answer_of json_map) replies.items)
        (record { tokens = ptr.new; nodes = json_map doc.new })) }
    ensures sorted { IfOk result (λ _. All (CallHas JsonHasSortedKeys) calls.items
        → JsonHasSortedKeys doc.old → JsonHasSortedKeys doc.new) }
    ensures returned_sorted { IfOk result (λ replies. All (CallHas JsonHasSortedKeys) calls.items
        → JsonHasSortedKeys doc.old → All (ReplyHas JsonHasSortedKeys) replies.items) }
    ensures unchanged { OnErr result ((ptr.new ≡ ptr.old) × (doc.new ≡ doc.old)) }
{
    run_json_with(alloc, ptr, doc, calls)
}

/// Makes the calls as [`run_json`] does, on either kind of owned pointer.
///
/// ```rust
/// let mut pointer = TabledPointer::new(alloc);
/// let mut document = json!(in alloc; [3, 5])?;
/// let calls = vec![in alloc; Call::PushBack(String::from_str(alloc, "0")?), Call::Delete]?;
/// run_json_with(alloc, &mut pointer, &mut document, calls)?;
/// assert_eq!(rt; pointer.count(), 1);
/// assert_eq!(rt; document.to_string(alloc)?.as_str(), "[5]");
/// ```
///
/// # Errors
///
/// [`AllocError`] if there is no memory for the list of replies, which is allocated first. No call
/// is then made, and all calls are dropped.
pub fn run_json_with<P: EditPointer>(
    alloc: Global,
    ptr: &mut P,
    doc: &mut serde_json::Value,
    calls: Vec<Call<serde_json::Value>>,
) -> Result<Vec<Reply<serde_json::Value>>, AllocError>
    ensures runs { IfOk result (λ replies. Runs json_blank
        (record { tokens = P.list ptr.old; nodes = json_map doc.old })
        (map (command_of json_map) calls.items) (map (answer_of json_map) replies.items)
        (record { tokens = P.list ptr.new; nodes = json_map doc.new })) }
    ensures sorted { IfOk result (λ _. All (CallHas JsonHasSortedKeys) calls.items
        → JsonHasSortedKeys doc.old → JsonHasSortedKeys doc.new) }
    ensures returned_sorted { IfOk result (λ replies. All (CallHas JsonHasSortedKeys) calls.items
        → JsonHasSortedKeys doc.old → All (ReplyHas JsonHasSortedKeys) replies.items) }
    ensures unchanged { OnErr result ((ptr.new ≡ ptr.old) × (doc.new ≡ doc.old)) }
{
    run(alloc, ptr, doc, calls)
}

/// Makes the calls as [`run_json`] does, on a pointer and a TOML document. Deleting the root leaves
/// an empty table.
///
/// ```rust
/// let mut pointer = PointerBuf::from_text(alloc, "/sizes/-")?;
/// let mut document = toml::Value::from_str(alloc, "{ sizes = [3] }")?;
/// let calls = vec![in alloc; Call::Assign(toml::Value::Integer(5))]?;
/// run_toml(alloc, &mut pointer, &mut document, calls)?;
/// assert_eq!(rt; document.to_string(alloc)?.as_str(), "{ sizes = [3, 5] }");
/// ```
///
/// # Errors
///
/// [`AllocError`] if there is no memory for the list of replies, which is allocated first. No call
/// is then made, and all calls are dropped.
pub fn run_toml(
    alloc: Global,
    ptr: &mut PointerBuf,
    doc: &mut toml::Value,
    calls: Vec<Call<toml::Value>>,
) -> Result<Vec<Reply<toml::Value>>, AllocError>
    ensures runs { IfOk result (λ replies. Runs toml_blank
        (record { tokens = ptr.old; nodes = toml_map doc.old })
        (map (command_of toml_map) calls.items) (map (answer_of toml_map) replies.items)
        (record { tokens = ptr.new; nodes = toml_map doc.new })) }
    ensures sorted { IfOk result (λ _. All (CallHas TomlHasSortedKeys) calls.items
        → TomlHasSortedKeys doc.old → TomlHasSortedKeys doc.new) }
    ensures returned_sorted { IfOk result (λ replies. All (CallHas TomlHasSortedKeys) calls.items
        → TomlHasSortedKeys doc.old → All (ReplyHas TomlHasSortedKeys) replies.items) }
    ensures unchanged { OnErr result ((ptr.new ≡ ptr.old) × (doc.new ≡ doc.old)) }
{
    run_toml_with(alloc, ptr, doc, calls)
}

/// Makes the calls as [`run_toml`] does, on either kind of owned pointer.
///
/// ```rust
/// let mut pointer = TabledPointer::new(alloc);
/// let mut document = toml::Value::from_str(alloc, "{ size = 3 }")?;
/// let calls = vec![in alloc; Call::Delete]?;
/// run_toml_with(alloc, &mut pointer, &mut document, calls)?;
/// assert_eq!(rt; document.to_string(alloc)?.as_str(), "{}");
/// ```
///
/// # Errors
///
/// [`AllocError`] if there is no memory for the list of replies, which is allocated first. No call
/// is then made, and all calls are dropped.
pub fn run_toml_with<P: EditPointer>(
    alloc: Global,
    ptr: &mut P,
    doc: &mut toml::Value,
    calls: Vec<Call<toml::Value>>,
) -> Result<Vec<Reply<toml::Value>>, AllocError>
    ensures runs { IfOk result (λ replies. Runs toml_blank
        (record { tokens = P.list ptr.old; nodes = toml_map doc.old })
        (map (command_of toml_map) calls.items) (map (answer_of toml_map) replies.items)
        (record { tokens = P.list ptr.new; nodes = toml_map doc.new })) }
    ensures sorted { IfOk result (λ _. All (CallHas TomlHasSortedKeys) calls.items
        → TomlHasSortedKeys doc.old → TomlHasSortedKeys doc.new) }
    ensures returned_sorted { IfOk result (λ replies. All (CallHas TomlHasSortedKeys) calls.items
        → TomlHasSortedKeys doc.old → All (ReplyHas TomlHasSortedKeys) replies.items) }
    ensures unchanged { OnErr result ((ptr.new ≡ ptr.old) × (doc.new ≡ doc.old)) }
{
    run(alloc, ptr, doc, calls)
}
