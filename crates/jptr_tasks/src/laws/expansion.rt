//! What an assignment creates.
ghost use Rattle.std.specs.Prelude.{◌≡◌, List, [], Option, Some};
ghost use Rattle.serde_json.specs.Data.{Data};
ghost use Rattle.serde_json.specs.Read.{read};
ghost use Rattle.jsonptr.specs.Text.{Text};
ghost use Rattle.jsonptr.specs.Assigning.{Assigns};
ghost use Rattle.jsonptr.specs.Json.{nodes};
ghost use Rattle.jsonptr.specs.Node.{NodeMap};
ghost use Rattle.jptr_tasks.specs.Expanding.{HasParent, IsExpansionError, IsOutOfMemory};
ghost use Rattle.jptr_tasks.specs.declared.expansion.ExpansionError.{ExpansionError};

/// States that an assignment which passes [`check_expansion`](crate::expansion::check_expansion) stores the value as
/// it is (`plain`), and that one which does not pass stores it with containers around it (`expanded`). So the check
/// passes exactly the assignments that create no container, and replace no scalar by one.
pub fn expansion_law()
    ensures plain { (text : Text) (d : Data) (ts : List Text) (v m : NodeMap) (old : Option NodeMap)
        → read text ≡ Some d → HasParent text ts → (a : Assigns (nodes d) ts v m old) → a.left ≡ [] }
    ensures expanded { (text : Text) (d : Data) (ts : List Text) (e : ExpansionError) (v m : NodeMap)
        (old : Option NodeMap)
        → read text ≡ Some d → IsExpansionError text ts e → (IsOutOfMemory e → ⊥)
        → (a : Assigns (nodes d) ts v m old) → a.left ≡ [] → ⊥ }
    ensures not_both { (text : Text) (ts : List Text) (e : ExpansionError)
        → HasParent text ts → IsExpansionError text ts e → IsOutOfMemory e }
{}
