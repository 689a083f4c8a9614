//! Going to a location of a document, without an allocation.
ghost use Rattle.std.specs.Prelude.{◌≡◌, ⊤, Option, Some, None, IfOk, IfErr, OnErr, IsOk, IsSome, MatchOption};
ghost use Rattle.std.specs.Borrow.{sem, follows_so, name_if_ok, LendsSo};
ghost use Rattle.serde_json.specs.Rows.{list_row, map_row};
ghost use Rattle.serde_json.specs.contracts.value.Value.{the_row};
ghost use Rattle.jsonptr.specs.Text.{HasNoTilde, text};
ghost use Rattle.jsonptr.specs.Node.{Path, Names};
ghost use Rattle.jsonptr.specs.Content.{Content, content_at, map_of, FindsContent};
ghost use Rattle.jsonptr_patch_journal.specs.Location.{path_of, contents_of, LeadsNowhereAt};
ghost use Rattle.jsonptr_patch_journal.specs.Children.{array_of, object_of};
ghost use Rattle.jsonptr_patch_journal.specs.Changes.{HasAt, IsObjectContent, IsArrayContent};
ghost use Rattle.jsonptr_patch_journal.specs.PrivateNodeMut.{MovesTo, IsLost, LendsMove};
ghost use Rattle.jsonptr_patch_journal.specs.Leading.{StopsAtOffset};
ghost use Rattle.jsonptr_patch_journal.specs.Writing.{write_at};

use crate::location::{Location, LocationStep};
use crate::token_step::{TokenError, token_step};
use jsonptr::PointerBuf;
use jsonptr_walk::descend::StepResult;
use serde_json::{Map, Value};

/// A location is not in the document.
#[derive(Debug, Drop)]
pub struct NodeError {
    /// The position of the first step that leads nowhere.
    pub position: usize,
}

/// A document that returns mutable references to its nodes by their locations.
pub trait NodeMut: Sized {
    // what a document contains
    ghost contents: { Self → Content };

    /// Returns a mutable reference to the node at the location.
    ///
    /// Needs no allocation. Takes constant time for each array on the way, and logarithmic time for
    /// each object.
    ///
    /// # Errors
    ///
    /// [`NodeError`] with the first step that leads nowhere, if the location is not in the document,
    /// which is unchanged.
    fn node_mut(&mut self, location: &Location) -> Result<&mut Value, NodeError>
        ensures* writes_back { sem 𝓛 (follows_so Self.row the_row self.entry.ghost_name
            (name_if_ok (λ v. v.ghost_name) result)
            (λ w n. IsOk result → contents n
            ≡ write_at (path_of location.now) (contents_of w) (contents self.old))
            (λ n. OnErr result (contents n ≡ contents self.old))) }
        ensures value { IfOk result (λ v.
            content_at (path_of location.now) (contents self.old) ≡ Some (contents_of v.now))
            × OnErr result (content_at (path_of location.now) (contents self.old) ≡ None)
            × IfErr result (λ e.
            LeadsNowhereAt (path_of location.now) (contents self.old) e.position) };

    /// Returns a mutable reference to the node that the pointer leads to. The pointer has no `~`: its
    /// tokens are not decoded.
    ///
    /// Needs no allocation. Takes constant time for each array on the way, and logarithmic time for
    /// each object.
    ///
    /// # Errors
    ///
    /// [`TokenError`] with the first token that names no child, if the pointer leads to no node. The
    /// document is unchanged.
    fn token_mut(&mut self, pointer: &PointerBuf) -> Result<&mut Value, TokenError>
        ensures* writes_back { sem 𝓛 (follows_so Self.row the_row self.entry.ghost_name
            (name_if_ok (λ v. v.ghost_name) result)
            (λ w n. IsOk result → HasNoTilde (text pointer.now) → (p : Path)
            → Names (map_of (contents self.old)) pointer.now p
            → contents n ≡ write_at p (contents_of w) (contents self.old))
            (λ n. OnErr result (HasNoTilde (text pointer.now)
            → contents n ≡ contents self.old))) }
        ensures value { IfOk result (λ v. HasNoTilde (text pointer.now)
            → FindsContent (contents self.old) pointer.now (contents_of v.now))
            × IfErr result (λ e. HasNoTilde (text pointer.now)
            → StopsAtOffset (map_of (contents self.old)) pointer.now e.offset) };
}

/// Returns the child at the step at position `i`, or the value itself if the location has no such step.
fn step<'v>(
    at: &'v mut Value,
    location: &Location,
    i: usize,
) -> Result<StepResult<'v, Value>, NodeError>
    ensures* writes_back { sem 𝓛
        (LendsMove the_row (λ v. v) at.entry (path_of location.now) i result) }
    ensures value { IfOk result (λ r.
        MovesTo (path_of location.now) i r.down at.old r.next r.node.now)
        × IfErr result (λ e. (e.position ≡ i) × IsLost (path_of location.now) i at.old) }
{
    if i >= location.steps.len() {
        return Ok(StepResult {
            node: at,
            next: i,
            down: false,
        });
    }
    let next = i + 1;
    match &location.steps[i] {
        LocationStep::Index(index) => match at.as_array_mut() {
            Some(elements) => {
                if *index < elements.len() {
                    let node = &mut elements[*index];
                    Ok(StepResult {
                        node,
                        next,
                        down: true,
                    })
                } else {
                    Err(NodeError { position: i })
                }
            }
            None => Err(NodeError { position: i }),
        },
        LocationStep::Key(key) => match at.as_object_mut() {
            Some(members) => match members.get_mut(key.as_str()) {
                Some(node) => Ok(StepResult {
                    node,
                    next,
                    down: true,
                }),
                None => Err(NodeError { position: i }),
            },
            None => Err(NodeError { position: i }),
        },
    }
}

impl NodeMut for Value {
    ghost use Rattle.jsonptr_patch_journal.specs.Location.{contents_of};

    ghost contents = { contents_of };

    fn node_mut(&mut self, location: &Location) -> Result<&mut Value, NodeError> {
        let mut at = self;
        let mut i = 0;
        loop {
            match step(at, location, i) {
                Ok(moved) => {
                    let StepResult { node, next, down } = moved;
                    if !down {
                        return Ok(node);
                    }
                    at = node;
                    i = next;
                }
                Err(error) => return Err(error),
            }
        }
    }

    fn token_mut(&mut self, pointer: &PointerBuf) -> Result<&mut Value, TokenError> {
        let mut at = self;
        let mut offset = 0;
        loop {
            match token_step(at, pointer, offset) {
                Ok(moved) => {
                    let StepResult { node, next, down } = moved;
                    if !down {
                        return Ok(node);
                    }
                    at = node;
                    offset = next;
                }
                Err(error) => return Err(error),
            }
        }
    }
}

/// Returns the members of the object at the location, or `None` if no object is there.
pub(crate) fn object_mut<'d, D: NodeMut>(
    document: &'d mut D,
    location: &Location,
) -> Option<&'d mut Map<String, Value>>
    ensures* writes_back { sem 𝓛 (LendsSo D.row map_row document.entry result
        (λ n m. IsSome result → D.contents n
        ≡ write_at (path_of location.now) (object_of m) (D.contents document.old))
        (λ n. ⊤)) }
    ensures value { MatchOption result
        (HasAt (path_of location.now) IsObjectContent (D.contents document.old) → ⊥)
        (λ m. content_at (path_of location.now) (D.contents document.old)
        ≡ Some (object_of m.now)) }
{
    match document.node_mut(location) {
        Ok(node) => node.as_object_mut(),
        Err(_) => None,
    }
}

/// Returns the elements of the array at the location, or `None` if no array is there.
pub(crate) fn array_mut<'d, D: NodeMut>(
    document: &'d mut D,
    location: &Location,
) -> Option<&'d mut Vec<Value>>
    ensures* writes_back { sem 𝓛 (LendsSo D.row list_row document.entry result
        (λ n vs. IsSome result → D.contents n
        ≡ write_at (path_of location.now) (array_of vs) (D.contents document.old))
        (λ n. ⊤)) }
    ensures value { MatchOption result
        (HasAt (path_of location.now) IsArrayContent (D.contents document.old) → ⊥)
        (λ vs. content_at (path_of location.now) (D.contents document.old)
        ≡ Some (array_of vs.now)) }
{
    match document.node_mut(location) {
        Ok(node) => node.as_array_mut(),
        Err(_) => None,
    }
}
