//! The location of a node as decoded steps.
ghost use Rattle.std.specs.Prelude.{◌≡◌, ◌↔◌, [], ◌∷◌, ◌++◌, IsTrue, MatchOption};
ghost use Rattle.jsonptr_patch_journal.specs.Location.{path_step, path_of};

use std::alloc::Global;

/// One step from a node to a child.
#[derive(Debug, Drop, PartialEq, Eq)]
pub enum LocationStep {
    /// To the member with this key.
    Key(String),
    /// To the element at this index.
    Index(usize),
}

/// The steps from the root of a document to one of its nodes.
///
/// A location has no tokens to decode and no indices to parse. So going there again needs no
/// allocation.
#[derive(Debug, Drop)]
pub struct Location {
    /// The steps, from the root on.
    pub steps: Vec<LocationStep>,
}

impl Location {
    /// Returns the location of the root. It does not allocate.
    pub fn root(alloc: Global) -> Location
        ensures { path_of result ≡ [] }
    {
        Location {
            steps: Vec::new(alloc),
        }
    }

    /// Splits the location into that of the parent and the last step, or returns `None` for the
    /// root.
    ///
    /// # Examples
    ///
    /// ```rust
    /// let document = json!(in alloc; [[3]])?;
    /// let located = locate(alloc, &document, Pointer::parse("/0/0")?)?;
    /// let (parent, last) = located.location.split_last().ok_or("not the root")?;
    /// assert_eq!(rt; parent.steps.len(), 1);
    /// assert_eq!(rt; last, LocationStep::Index(0));
    /// ```
    pub fn split_last(self) -> Option<(Location, LocationStep)>
        ensures { MatchOption result (path_of self ≡ [])
            (λ r. path_of self ≡ path_of r.0 ++ path_step r.1 ∷ []) }
    {
        let mut steps = self.steps;
        let last = steps.pop()?;
        Some((Location { steps }, last))
    }

    /// Returns whether the two locations are equal.
    ///
    /// # Examples
    ///
    /// ```rust
    /// let document = json!(in alloc; [3])?;
    /// let root = Location::root(alloc);
    /// assert!(rt; locate(alloc, &document, Pointer::root())?.location.is_same(&root));
    /// assert!(rt; !locate(alloc, &document, Pointer::parse("/0")?)?.location.is_same(&root));
    /// ```
    pub fn is_same(&self, other: &Location) -> bool
        ensures { IsTrue result ↔ (path_of self.now ≡ path_of other.now) }
    {
        self.steps == other.steps
    }
}
