//! Laws of texts, tokens, indices and components, for proofs about callers.
//!
//! A law is a function that does nothing when it runs. The clauses of its contract are facts from
//! where it is called. The laws of the operations on pointers and documents are in the crate
//! `jsonptr_laws`.
ghost use Rattle.std.specs.Prelude.{◌≡◌, ◌↔◌, IsTrue};
ghost use Rattle.std.specs.Cmp.Lexicographic.{slice_cmp};
ghost use Rattle.std.specs.Ordering.{nat_cmp};
ghost use Rattle.std.specs.declared.cmp.Ordering.TheVariants.{Less, Equal, Greater};
ghost use Rattle.jsonptr_grammar.specs.Text.{Text, esc};
ghost use Rattle.jsonptr.specs.declared.assign.Error.{Error as AssignError};
ghost use Rattle.jsonptr.specs.declared.component.Component.{Component};
ghost use Rattle.jsonptr.specs.declared.component.Component.TheVariants as variant;
ghost use Rattle.jsonptr.specs.declared.pointer.buf.ReplaceError.{ReplaceError};
ghost use Rattle.jsonptr.specs.declared.resolve.Error.{Error as ResolveError};

use crate::component::Component;
use crate::pointer::ReplaceError;
use crate::{assign, resolve};
pub use jsonptr_base::laws::{
    bounds_law, encoding_error_law, encoding_law, index_error_law, index_law, index_order_law,
    token_order_law,
};
pub use jsonptr_syntax::laws::{parse_error_law, parse_law, source_law};

/// States the order of components: the root is less than every token, and tokens have their own
/// order. Two components compare as equal exactly if they are equal.
pub fn component_law()
    ensures root { (t : Text)
        → ⟦<Component<'static> as Ord>⟧.cmp variant.Root (variant.Token t) ≡ Less }
    ensures after_root { (t : Text)
        → ⟦<Component<'static> as Ord>⟧.cmp (variant.Token t) variant.Root ≡ Greater }
    ensures tokens { (s t : Text)
        → ⟦<Component<'static> as Ord>⟧.cmp (variant.Token s) (variant.Token t)
        ≡ slice_cmp nat_cmp (esc s) (esc t) }
    ensures tie { (c d : Component) → (⟦<Component<'static> as Ord>⟧.cmp c d ≡ Equal) ↔ (c ≡ d) }
    ensures equal { (c d : Component)
        → IsTrue (⟦<Component<'static> as PartialEq>⟧.eq c d) ↔ (c ≡ d) }
{
    token_order_law();
}

/// Two errors of a call on a pointer are equal exactly if they are the same error with the same
/// fields.
pub fn error_law()
    ensures resolve { (e f : ResolveError) → IsTrue (⟦<resolve::Error as PartialEq>⟧.eq e f)
        ↔ (e ≡ f) }
    ensures assign { (e f : AssignError) → IsTrue (⟦<assign::Error as PartialEq>⟧.eq e f)
        ↔ (e ≡ f) }
    ensures replace { (e f : ReplaceError) → IsTrue (⟦<ReplaceError as PartialEq>⟧.eq e f)
        ↔ (e ≡ f) }
{}
