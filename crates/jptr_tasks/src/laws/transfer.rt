//! What a copy and a removal make of a document.
ghost use Rattle.std.specs.Prelude.{◌≡◌, ◌≢◌, List, [], ◌∷◌, Some};
ghost use Rattle.serde_json.specs.Data.{Data};
ghost use Rattle.serde_json.specs.Read.{read};
ghost use Rattle.jsonptr.specs.Text.{Text};
ghost use Rattle.jsonptr.specs.Json.{nodes};
ghost use Rattle.jsonptr.specs.Node.{NodeMap};
ghost use Rattle.jsonptr_patch.specs.Patching.{PatchesBy};
ghost use Rattle.jsonptr_patch.specs.declared.comparison.Comparison.TheVariants.{Numeric};
ghost use Rattle.jsonptr_patch.specs.declared.operation.Operation.TheVariants.{Copy, Move, Remove};
ghost use Rattle.jptr_tasks.specs.Transfers.{MovesOnlyChild};

/// States that to copy the only child of an array or an object to another place in it, and then to remove it, makes
/// the document that the move makes.
pub fn transfer_law()
    ensures { (text : Text) (d : Data) (m : NodeMap) (fs ps : List Text) → read text ≡ Some d → fs ≢ ps
        → MovesOnlyChild text fs ps
        → PatchesBy Numeric (nodes d) (Copy fs ps ∷ Remove fs ∷ []) m
        → PatchesBy Numeric (nodes d) (Move fs ps ∷ []) m }
{}
