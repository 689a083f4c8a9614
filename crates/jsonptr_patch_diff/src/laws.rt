//! Laws of differences. Each law is the contract of a function that does nothing.
//!
//! - [`change`]: where the changes of one document into another are.
ghost use Rattle.std.specs.Prelude.{◌≡◌, List};
ghost use Rattle.serde_json.specs.Data.{Data};
ghost use Rattle.jsonptr.specs.Json.{nodes, HasSortedKeys};
ghost use Rattle.jsonptr_patch.specs.Patching.{Patches, RefusesPatch};
ghost use Rattle.jsonptr_patch.specs.declared.operation.Operation.{Operation};
ghost use Rattle.jsonptr_patch.specs.declared.operation.PatchError.{PatchError};

pub mod change;

use jsonptr_patch::laws::patch::patch_law;

/// States what [`apply`](jsonptr_patch::apply) does with a patch that turns a document into another
/// one, as [`diff`](crate::diff) returns it. It never fails except for a failed allocation, and the
/// document that it makes has the node map of the other one. If the keys of each object are in
/// ascending order in both, it is the other one.
pub fn difference_law()
    ensures applied { (old new made : Data) (patch : List Operation)
        → Patches (nodes old) patch (nodes new) → Patches (nodes old) patch (nodes made)
        → nodes made ≡ nodes new }
    ensures same { (old new made : Data) (patch : List Operation)
        → Patches (nodes old) patch (nodes new) → Patches (nodes old) patch (nodes made)
        → HasSortedKeys new → HasSortedKeys made → made ≡ new }
    ensures never_refused { (old new : Data) (patch : List Operation) (e : PatchError)
        → Patches (nodes old) patch (nodes new) → RefusesPatch (nodes old) patch e → ⊥ }
{
    patch_law();
}
