//! Texts of values that are new in a document.

use crate::tree::TreeNode;
use jsonptr_value::MAX_DEPTH;
use std::alloc::{AllocError, Global};
use std::collections::BTreeMap;

/// A value, and the text that it is in.
#[derive(Clone, Copy, Debug)]
pub struct GivenValue<'t> {
    /// The text.
    pub text: &'t str,
    /// The value.
    pub node: &'t TreeNode,
}

/// Values by their hashes.
pub type Given<'t> = BTreeMap<u64, GivenValue<'t>>;

/// Returns the values of the texts, and all values in them. Each text has its tree at the same position,
/// unless it is not JSON.
///
/// # Errors
///
/// [`AllocError`] if an allocation fails.
pub fn given_values<'t>(
    alloc: Global,
    texts: &'t [&'t str],
    trees: &'t [Option<TreeNode>],
) -> Result<Given<'t>, AllocError> {
    let mut given = BTreeMap::new(alloc);
    for (text, tree) in texts.iter().zip(trees.iter()) {
        if let Some(node) = tree {
            gather(&mut given, GivenValue { text: *text, node }, MAX_DEPTH)?;
        }
    }
    Ok(given)
}

/// Adds a value, and all values in it down to this depth.
fn gather<'t>(
    given: &mut Given<'t>,
    piece: GivenValue<'t>,
    depth: usize,
) -> Result<(), AllocError> {
    given.insert(piece.node.hash, piece)?;
    if depth == 0 {
        return Ok(());
    }
    for child in &piece.node.children {
        let node = &child.node;
        gather(
            given,
            GivenValue {
                text: piece.text,
                node,
            },
            depth - 1,
        )?;
    }
    Ok(())
}
