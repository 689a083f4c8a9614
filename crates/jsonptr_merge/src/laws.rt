//! Laws of merges. Each law is the contract of a function that does nothing.
ghost use Rattle.std.specs.Prelude.{◌≡◌, ◌≢◌, ◌∷◌, [], Some, None, List};
ghost use Rattle.jsonptr.specs.Text.{Text};
ghost use Rattle.jsonptr.specs.Node.{key, Path, Label, an_object, NodeMap, sub};
ghost use Rattle.jsonptr_merge.specs.Values.{no_value};
ghost use Rattle.jsonptr_merge.specs.MergePatch.{null_label, patched};
ghost use Rattle.jsonptr_merge.specs.Making.{IsNewNull};
ghost use Rattle.jsonptr_merge.specs.Merge.{IsConflict, IsMerge, HasNoConflict};

/// States that `patched` is MergePatch of RFC 7396, section 2.
pub fn merge_patch_law()
    ensures replaces { (n p : NodeMap) → p [] ≢ Some an_object → patched n p ≡ p }
    ensures object { (n p : NodeMap) → p [] ≡ Some an_object → patched n p [] ≡ Some an_object }
    ensures absent { (n p : NodeMap) (k : Text) → p [] ≡ Some an_object → p (key k ∷ []) ≡ None
        → sub (patched n p) (key k ∷ []) ≡ sub n (key k ∷ []) }
    ensures null { (n p : NodeMap) (k : Text) → p [] ≡ Some an_object
        → p (key k ∷ []) ≡ Some null_label
        → sub (patched n p) (key k ∷ []) ≡ no_value }
    ensures member { (n p : NodeMap) (k : Text) (l : Label) → p [] ≡ Some an_object
        → p (key k ∷ []) ≡ Some l → l ≢ null_label
        → sub (patched n p) (key k ∷ []) ≡ patched (sub n (key k ∷ [])) (sub p (key k ∷ [])) }
{}

/// States that a member that is newly `null` rules out a merge patch. So
/// [`make_merge_patch`](crate::make_merge_patch) fails with
/// [`NullMember`](crate::MergePatchError::NullMember) only if there is none.
pub fn making_law()
    ensures { (old new p : NodeMap) (ts : List Text)
        → IsNewNull old new ts → patched old p ≡ new → ⊥ }
{}

/// States what holds of three-way merges: at most one document is the merge, the copies may be
/// exchanged, and a copy that is the base leaves the other one.
pub fn merge_law()
    ensures symmetric { (b o t m : NodeMap) → IsMerge b o t m → IsMerge b t o m }
    ensures same_conflicts { (b o t : NodeMap) (w : Path)
        → IsConflict b o t w → IsConflict b t o w }
    ensures theirs_alone { (b t m : NodeMap) → IsMerge b b t m → m ≡ t }
    ensures ours_alone { (b o m : NodeMap) → IsMerge b o b m → m ≡ o }
    ensures agreed { (b x m : NodeMap) → IsMerge b x x m → m ≡ x }
    ensures one_merge { (b o t m l : NodeMap)
        → HasNoConflict b o t → IsMerge b o t m → IsMerge b o t l → (w : Path) → m w ≢ l w → ⊥ }
    ensures no_conflict_theirs { (b t : NodeMap) → HasNoConflict b b t }
    ensures no_conflict_ours { (b o : NodeMap) → HasNoConflict b o b }
    ensures no_conflict_agreed { (b x : NodeMap) → HasNoConflict b x x }
{}
