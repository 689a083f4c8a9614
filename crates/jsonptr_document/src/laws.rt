//! The law of one step down.
ghost use Rattle.std.specs.Prelude.{◌≡◌, ◌⊎◌, [], ◌∷◌, IsSome, IsUtf8};
ghost use Rattle.jsonptr_grammar.specs.Text.{Text};
ghost use Rattle.jsonptr_tree.specs.Node.{Step, Label, NodeMap, NamesStep, IsTree};
ghost use Rattle.jsonptr_document.specs.Child.{IsChildError, RefusesChild};
ghost use Rattle.jsonptr_document.specs.declared.child.ChildError.{ChildError};

use jsonptr_base::laws::index_law;

/// In a document, each token in UTF-8 either names a child of the root or has an error, and never
/// both. The label and the token determine the error.
pub fn child_law()
    ensures some { (n : NodeMap) (x : Text) → IsTree n → IsUtf8 x
        → ((s : Step) × NamesStep (n []) x s × IsSome (n (s ∷ [])))
        ⊎ ((e : ChildError) × RefusesChild n x e) }
    ensures not_both { (n : NodeMap) (x : Text) (s : Step) (e : ChildError)
        → NamesStep (n []) x s → IsSome (n (s ∷ [])) → RefusesChild n x e → ⊥ }
    ensures one { (label : Label) (x : Text) (e f : ChildError)
        → IsChildError label x e → IsChildError label x f → e ≡ f }
{
    index_law();
}
