//! Assigning a value at a pointer (RFC 6901, section 4).
ghost use Rattle.std.specs.Prelude.{◌≡◌, ◌⊎◌, List, Option, All, IsUtf8};
ghost use Rattle.jsonptr.specs.Text.{Text};
ghost use Rattle.jsonptr.specs.Node.{NodeMap, IsTree};
ghost use Rattle.jsonptr.specs.Assigning.{Assigns};
ghost use Rattle.jsonptr.specs.Pointer.{tokens};
ghost use Rattle.jsonptr.specs.Assign.{RefusesAssign};
ghost use Rattle.jsonptr.specs.declared.assign.Error.{Error};

use crate::resolve::tokens_law;
use jsonptr::Pointer;
use jsonptr::laws::index_law;

/// States that assigning a value at a list of tokens in a document has exactly one result: one map
/// and the value that was replaced, if any, or one error. The error is unique in all its fields.
/// The tokens are UTF-8, as those of every pointer are ([`tokens_law`]).
pub fn assign_law()
    ensures some { (n : NodeMap) (tokens : List Text) (v : NodeMap) → IsTree n → All IsUtf8 tokens
        → ((m : NodeMap) × (old : Option NodeMap) × Assigns n tokens v m old)
        ⊎ ((e : Error) × RefusesAssign n tokens e) }
    ensures not_both { (n : NodeMap) (tokens : List Text) (v m : NodeMap) (old : Option NodeMap)
        (e : Error)
        → Assigns n tokens v m old → RefusesAssign n tokens e → ⊥ }
    ensures one_made { (n : NodeMap) (tokens : List Text) (v m k : NodeMap)
        (old was : Option NodeMap)
        → Assigns n tokens v m old → Assigns n tokens v k was → (m ≡ k) × (old ≡ was) }
    ensures one { (n : NodeMap) (tokens : List Text) (e f : Error)
        → RefusesAssign n tokens e → RefusesAssign n tokens f → e ≡ f }
{
    index_law();
}

/// States that assigning a value at a pointer in a document either makes a map or fails.
pub fn pointer_assign_law(ptr: Pointer<'_>)
    ensures { (n : NodeMap) (v : NodeMap) → IsTree n
        → ((m : NodeMap) × (old : Option NodeMap) × Assigns n (tokens ptr.entry) v m old)
        ⊎ ((e : Error) × RefusesAssign n (tokens ptr.entry) e) }
{
    assign_law();
    tokens_law(ptr);
}
