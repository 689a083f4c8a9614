//! Where each value of a JSON text is, and what it is.
ghost use Rattle.std.specs.Prelude.{◌<◌, ◌≤◌, length, OnOk};

use crate::hash;
use json::{Reader, Token};
use jsonptr_text_piece::buffers::Buffers;
use jsonptr_text_piece::child::end_of_value;
use jsonptr_text_piece::span::Span;
use jsonptr_value::{MAX_DEPTH, ReadError};
use std::alloc::Global;

/// The kind of a value.
#[derive(Clone, Copy, Debug, Drop, PartialEq, Eq)]
pub enum NodeKind {
    /// Neither an array nor an object.
    Scalar,
    /// An array.
    Array,
    /// An object.
    Object,
}

/// A value of a text.
#[cycle(tree)]
#[derive(Debug, Drop)]
pub struct TreeNode {
    /// Where the value is.
    pub span: Span,
    /// Its kind.
    pub kind: NodeKind,
    /// Its hash.
    pub hash: u64,
    /// Its elements or members, in the order of the text.
    pub children: Vec<TreeChild>,
}

/// An element or a member.
#[cycle(tree)]
#[derive(Debug, Drop)]
pub struct TreeChild {
    /// The hash of the key of a member, and 0 for an element.
    pub key: u64,
    /// Where the child begins: a member with its key.
    pub from: usize,
    /// The value.
    pub node: TreeNode,
}

/// What a value consists of.
#[derive(Drop)]
struct Parts {
    kind: NodeKind,
    hash: u64,
    children: Vec<TreeChild>,
}

/// Reads the text of a document.
///
/// # Errors
///
/// [`ReadError::NotJson`] if the text is not JSON, and [`ReadError::Memory`] if an allocation fails.
pub fn read_tree(buffers: &mut Buffers, text: &str) -> Result<TreeNode, ReadError> {
    let alloc = buffers.alloc;
    let mut reader = Reader::new(text, &mut buffers.old)?;
    let node = read_node(alloc, text, &mut reader, MAX_DEPTH)?;
    match reader.next() {
        None => Ok(node),
        Some(_) => Err(ReadError::NotJson),
    }
}

/// Reads the next value, which nests at most this deep.
#[cycle(read)]
fn read_node(
    alloc: Global,
    text: &str,
    reader: &mut Reader<'_>,
    depth: usize,
) -> Result<TreeNode, ReadError>
    ensures shorter { OnOk result (length reader.new < length reader.old) }
{
    let from = reader.offset();
    let Some(token) = reader.next() else {
        return Err(ReadError::NotJson);
    };
    let parts = read_parts(alloc, text, reader, token, depth)?;
    let to = end_of_value(text.as_bytes(), reader.offset());
    Ok(TreeNode {
        span: Span { from, to },
        kind: parts.kind,
        hash: parts.hash,
        children: parts.children,
    })
}

/// Reads the rest of the value that begins with the token.
#[cycle(read)]
fn read_parts(
    alloc: Global,
    text: &str,
    reader: &mut Reader<'_>,
    token: Token<'_>,
    depth: usize,
) -> Result<Parts, ReadError>
    ensures shorter { OnOk result (length reader.new ≤ length reader.old) }
{
    match token {
        Token::BeginArray => {
            if depth == 0 {
                return Err(ReadError::NotJson);
            }
            let children = read_elements(alloc, text, reader, depth - 1)?;
            Ok(Parts {
                kind: NodeKind::Array,
                hash: hash::of_array(&children),
                children,
            })
        }
        Token::BeginObject => {
            if depth == 0 {
                return Err(ReadError::NotJson);
            }
            let children = read_members(alloc, text, reader, depth - 1)?;
            Ok(Parts {
                kind: NodeKind::Object,
                hash: hash::of_object(alloc, &children)?,
                children,
            })
        }
        token => match hash::of_scalar(token) {
            Some(hash) => Ok(Parts {
                kind: NodeKind::Scalar,
                hash,
                children: Vec::new(alloc),
            }),
            None => Err(ReadError::NotJson),
        },
    }
}

/// Reads the rest of an array.
#[cycle(read)]
fn read_elements(
    alloc: Global,
    text: &str,
    reader: &mut Reader<'_>,
    depth: usize,
) -> Result<Vec<TreeChild>, ReadError>
    ensures shorter { OnOk result (length reader.new ≤ length reader.old) }
{
    let mut children = Vec::new(alloc);
    'elements: while !reader.take_end_array() {
        let node = read_node(alloc, text, reader, depth)?;
        let from = node.span.from;
        children.push(TreeChild { key: 0, from, node })?;
    }
    Ok(children)
}

/// Reads the rest of an object.
#[cycle(read)]
fn read_members(
    alloc: Global,
    text: &str,
    reader: &mut Reader<'_>,
    depth: usize,
) -> Result<Vec<TreeChild>, ReadError>
    ensures shorter { OnOk result (length reader.new ≤ length reader.old) }
{
    let mut children = Vec::new(alloc);
    let mut from = reader.offset();
    'members: while let Some(name) = reader.next_key()? {
        let key = hash::of_text(name);
        let node = read_node(alloc, text, reader, depth)?;
        children.push(TreeChild { key, from, node })?;
        from = reader.offset();
    }
    Ok(children)
}
