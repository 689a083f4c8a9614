//! Laws of what the program prints.
ghost use Rattle.std.specs.Prelude.{◌≡◌, ◌++◌, ◌∷◌, [], ℕ, List, Result, Ok, Err, false};
ghost use Rattle.serde_json.specs.Data.{Data};
ghost use Rattle.serde_json.specs.Written.{has_float, compact_text};
ghost use Rattle.jsonptr.specs.Text.{Text};
ghost use Rattle.jsonptr_run_command.specs.JsonText.{IsJsonLine};
ghost use Rattle.jsonptr_run_command.specs.Run.{AskFor, Asks, IsRunOutcome, Request, listing, resolving, splitting, texts_value};
ghost use Rattle.jsonptr_run_command.specs.declared.fault.RunFault.{RunFault};

use jsonptr::laws::parse_law;
use jsonptr::tree::json::{json_law, json_map_law};
use jsonptr::tree::writing::deleting_law;
use jsonptr_laws::assign::assign_law;
use jsonptr_laws::resolve::resolve_law;
use jsonptr_patch::laws::patch::patch_law;

/// States that the output of [`crate::run::run_program`] is unique.
///
/// - Words ask for one thing or fail with one error.
/// - A request has one value or one error on an input, and never both.
/// - A value has one line, except for the digits of its floats. Lists of texts contain no floats.
/// - The keys of each parsed object are in ascending order, and an assignment, a deletion and a
///   patch keep them so. A map with such keys belongs to one value.
pub fn program_law()
    ensures asks { (words : List Text) (r q : Result Request RunFault)
        → Asks words r
        → Asks words q
        → r ≡ q }
    ensures resolves { (ts : List Text) (bytes : List ℕ) (r q : Result Data RunFault)
        → IsRunOutcome (resolving ts) bytes r
        → IsRunOutcome (resolving ts) bytes q
        → r ≡ q }
    ensures lists { (ts : List Text) (bytes : List ℕ) (r q : Result Data RunFault)
        → IsRunOutcome (listing ts) bytes r
        → IsRunOutcome (listing ts) bytes q
        → r ≡ q }
    ensures splits { (ts : List Text) (n : ℕ) (bytes : List ℕ) (r q : Result Data RunFault)
        → IsRunOutcome (splitting ts n) bytes r
        → IsRunOutcome (splitting ts n) bytes q
        → r ≡ q }
    ensures not_both { (request : Request) (bytes : List ℕ) (value : Data) (e : RunFault)
        → IsRunOutcome request bytes (Ok value)
        → IsRunOutcome request bytes (Err e)
        → ⊥ }
    ensures one_fault { (request : Request) (bytes : List ℕ) (e f : RunFault)
        → IsRunOutcome request bytes (Err e)
        → IsRunOutcome request bytes (Err f)
        → e ≡ f }
    ensures one_value { (words : List Text) (request : Request) (bytes : List ℕ)
        (value other : Data)
        → AskFor words request
        → IsRunOutcome request bytes (Ok value)
        → IsRunOutcome request bytes (Ok other)
        → value ≡ other }
    ensures line { (value : Data) (line other : Text)
        → has_float value ≡ false
        → IsJsonLine value line
        → IsJsonLine value other
        → line ≡ other }
    ensures texts { (ts : List Text) (line : Text)
        → IsJsonLine (texts_value ts) line
        → line ≡ compact_text (texts_value ts) ++ 10 ∷ [] }
{
    parse_law();
    resolve_law();
    assign_law();
    deleting_law();
    json_law();
    json_map_law();
    patch_law();
}
