//! The lines of the document of a JSON text.
ghost use Rattle.std.specs.Prelude.{◌≡◌, ◌<◌, ◌^◌, List, [], ◌∷◌, ◌-◌, length, Some, None, Err, IfOk, IfErr, OnOk, string_bytes};
ghost use Rattle.serde_json.specs.Data.{Data, Items, array, item, no_items};
ghost use Rattle.serde_json.specs.Read.{max_depth, read as spec_read};
ghost use Rattle.serde_json.specs.View.{view};
ghost use Rattle.serde_json.specs.declared.value.Value.{Value};
ghost use Rattle.jsonptr.specs.Text.{dec};
ghost use Rattle.jsonptr_text_search.specs.Reading.{ReadsTokens, Unreadable, ReadsItems, UnreadableItems};
ghost use Rattle.jsonptr_text_search.specs.PrivateReading.{with_items_before};
ghost use Rattle.jsonptr_value.specs.Reading.{IsReadError};
ghost use Rattle.jsonptr_value.specs.declared.from_text.ReadError.TheVariants.{NotJson};
ghost use Rattle.jsonptr_text_paths.specs.Listing.{IsShown, Lists};
ghost use Rattle.jsonptr_text_paths.specs.PrivateElements.{VisitsElements};
ghost use Rattle.jsonptr_text_paths.specs.PrivateWalking.{WalksNodes, AnyPath, content_of};

use crate::listing::{Listed, Lister, list, push_value};
use crate::walk::{Visitor, visit_nodes};
use json::{Reader, Scratch, Token};
use jsonptr::{Pointer, PointerBuf};
use jsonptr_text_search::read::read;
use jsonptr_value::{MAX_DEPTH, ReadError};
use serde_json::Value;
use std::alloc::{AllocError, Global};

/// Returns the lines of the document that the text contains, as [`list`] does.
///
/// The elements of an array at the root are read one by one, so the document is not held. Of any
/// other document it is.
///
/// # Errors
///
/// [`ReadError::NotJson`] if `serde_json` does not read the text, and [`ReadError::Memory`] if an
/// allocation fails.
///
/// # Examples
///
/// ```rust
/// let lines = list_in_text(alloc, "[{\"a\": 1}, []]", Listed::Leaves)?;
/// assert_eq!(rt; lines.as_str(), "/0/a\t1\n/1\t[]\n");
/// ```
pub fn list_in_text(alloc: Global, text: &str, which: Listed) -> Result<String, ReadError>
    ensures listed { IfOk result (λ s. (d : Data) × (spec_read text.now ≡ Some d)
        × Lists which d (string_bytes s)) }
    ensures refused { IfErr result (IsReadError text.now) }
{
    let mut scratch = Scratch::new(alloc);
    let mut reader = Reader::new(text, &mut scratch)?;
    match reader.next() {
        Some(Token::BeginArray) => {
            let lines = list_elements(alloc, &mut reader, which)?;
            match reader.next() {
                None => Ok(lines),
                Some(_) => Err(ReadError::NotJson),
            }
        }
        _ => list_value(alloc, text, which),
    }
}

/// Returns the lines of the document that the text contains, which is read as a whole.
fn list_value(alloc: Global, text: &str, which: Listed) -> Result<String, ReadError>
    ensures listed { IfOk result (λ s. (d : Data) × (spec_read text.now ≡ Some d)
        × Lists which d (string_bytes s)) }
    ensures refused { IfErr result (IsReadError text.now) }
{
    let document = jsonptr_value::read(alloc, text)?;
    Ok(list(alloc, &document, which)?)
}

/// Returns the lines of an array that is the document, and reads the rest of it.
fn list_elements(alloc: Global, reader: &mut Reader<'_>, which: Listed) -> Result<String, ReadError>
    requires few { length reader.old < 2 ^ 64 }
    ensures listed { IfOk result (λ s. (ds : Items) × ReadsItems (max_depth - 1) reader.old ds reader.new
        × Lists which (array ds) (string_bytes s)) }
    ensures refused { result ≡ Err NotJson → UnreadableItems (max_depth - 1) reader.old }
{
    let mut lister = Lister {
        alloc,
        which,
        out: root_line(alloc, which)?,
    };
    let len = visit_elements(alloc, reader, &mut lister)?;
    if len == 0 {
        let lines = list(alloc, &Value::Array(Vec::new(alloc)), which)?;
        return Ok(lines);
    }
    let Lister {
        alloc: _,
        which: _,
        out,
    } = lister;
    Ok(out)
}

/// Returns what is printed for an array at the root that is not empty.
fn root_line(alloc: Global, which: Listed) -> Result<String, AllocError>
    ensures { IfOk result (λ s. (d : Data) (ds : Items)
        → IsShown which [] (array (item d ds)) (string_bytes s)) }
{
    let mut out = String::new(alloc);
    match which {
        Listed::AllNodes => {
            push_value(
                alloc,
                &mut out,
                Pointer::root(),
                &Value::Array(Vec::new(alloc)),
            )?;
        }
        Listed::Leaves => {}
    }
    Ok(out)
}

/// Reads the rest of an array that is the document, and visits the nodes of its elements. Returns its
/// length.
fn visit_elements<T: Visitor<Value>>(
    alloc: Global,
    reader: &mut Reader<'_>,
    visitor: &mut T,
) -> Result<usize, ReadError>
    requires few { length reader.old < 2 ^ 64 }
    ensures listed { IfOk result (λ len. (ds : List Data)
        × ReadsItems (max_depth - 1) reader.old (with_items_before ds no_items) reader.new
        × (len ≡ length ds)
        × VisitsElements T.visits ds visitor.old visitor.new) }
    ensures refused { result ≡ Err NotJson → UnreadableItems (max_depth - 1) reader.old }
{
    let mut len = 0;
    'elements: while !reader.take_end_array() {
        visit_next(alloc, reader, len, visitor)?;
        len += 1;
    }
    Ok(len)
}

/// Reads the element at the index `at`, and visits its nodes.
fn visit_next<T: Visitor<Value>>(
    alloc: Global,
    reader: &mut Reader<'_>,
    at: usize,
    visitor: &mut T,
) -> Result<(), ReadError>
    ensures listed { IfOk result (λ _. (v : Value) × ReadsTokens (max_depth - 1) reader.old (view v) reader.new
        × WalksNodes content_of T.visits v AnyPath (dec at ∷ []) visitor.old visitor.new) }
    ensures shorter { OnOk result (length reader.new < length reader.old) }
    ensures refused { result ≡ Err NotJson → Unreadable (max_depth - 1) reader.old }
{
    let element = read(alloc, reader, MAX_DEPTH - 1)?;
    let child = PointerBuf::from_usize(alloc, at)?;
    visit_nodes(alloc, &element, child.as_ptr(), visitor)?;
    Ok(())
}
