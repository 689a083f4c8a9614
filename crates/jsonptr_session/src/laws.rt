//! Laws of the machine that every session is a run of.
ghost use Rattle.std.specs.Prelude.{◌≡◌, ◌↔◌, List, ◌∷◌, ◌++◌, length, map, Option, Some, None, IsSome, All};
ghost use Rattle.jsonptr.specs.Text.{Text, text};
ghost use Rattle.jsonptr.specs.Grammar.{IsPointer};
ghost use Rattle.jsonptr.specs.Node.{Path, NodeMap, Names, sub, IsTree};
ghost use Rattle.jsonptr.specs.Documents.{IsDocument};
ghost use Rattle.jsonptr.specs.Types.ParseError.{ParseError};
ghost use Rattle.jsonptr.specs.declared.pointer.buf.ReplaceError.{ReplaceError};
ghost use Rattle.jsonptr.specs.declared.resolve.Error.{Error as ResolveError};
ghost use Rattle.jsonptr.specs.declared.assign.Error.{Error as AssignError};
ghost use Rattle.jsonptr_session.specs.Machine.{State, Command, parse, resolve, Answer, done, bad_pointer, bad_position, value, no_value, bad_place, deleted, Transition, NeedsNoMemory, Runs};
ghost use Rattle.jsonptr_session.specs.Session.{command_of};
ghost use Rattle.jsonptr_session.specs.States.{IsState, IsCommand};

use crate::session::Call;
use jsonptr::laws::parse_law;
use jsonptr_laws::assign::assign_law;
use jsonptr_laws::resolve::{resolve_law, tokens_law};
use jsonptr_tabled::EditPointer;

/// States that in each state of a session each command has an answer and a next state, which is one
/// of a session. In every state the answer and the next state are unique.
pub fn machine_law()
    ensures some { (blank : NodeMap) (old : State) (c : Command) → IsState old → IsCommand c
        → (a : Answer) × (new : State) × Transition blank old c a new }
    ensures one { (blank : NodeMap) (old new next : State) (c : Command) (a b : Answer)
        → Transition blank old c a new → Transition blank old c b next → (a ≡ b) × (new ≡ next) }
    ensures state { (blank : NodeMap) (old new : State) (c : Command) (a : Answer)
        → IsDocument blank → IsState old → IsCommand c → Transition blank old c a new
        → IsState new }
{
    parse_law();
    resolve_law();
    assign_law();
}

/// States that an error leaves the machine's state unchanged. These are the errors:
///
/// - a text is not a pointer;
/// - a position is not less than the number of tokens;
/// - the tokens do not resolve to a value;
/// - no value can be assigned at the tokens;
/// - there is no value to delete.
pub fn refusal_law()
    ensures bad_pointer { (blank : NodeMap) (old new : State) (c : Command) (e : ParseError)
        (s : Text)
        → Transition blank old c (bad_pointer e s) new → new ≡ old }
    ensures bad_position { (blank : NodeMap) (old new : State) (c : Command) (e : ReplaceError)
        → Transition blank old c (bad_position e) new → new ≡ old }
    ensures no_value { (blank : NodeMap) (old new : State) (c : Command) (e : ResolveError)
        → Transition blank old c (no_value e) new → new ≡ old }
    ensures bad_place { (blank : NodeMap) (old new : State) (c : Command) (e : AssignError)
        → Transition blank old c (bad_place e) new → new ≡ old }
    ensures nothing_deleted { (blank : NodeMap) (old new : State) (c : Command)
        → Transition blank old c (deleted None) new → new ≡ old }
{}

/// States that the machine parses a text exactly if the text is in the grammar (RFC 6901, section
/// 3), and otherwise returns an error. The tokens are then the only list that has this text.
pub fn text_law()
    ensures taken { (blank : NodeMap) (old : State) (s : Text)
        → ((new : State) × Transition blank old (parse s) done new) ↔ IsPointer s }
    ensures refused { (blank : NodeMap) (old : State) (s : Text)
        → ((e : ParseError) × (new : State) × Transition blank old (parse s) (bad_pointer e s) new)
        ↔ (IsPointer s → ⊥) }
    ensures one_list { (blank : NodeMap) (old new : State) (s : Text) (ts : List Text)
        → Transition blank old (parse s) done new → text ts ≡ s → new.tokens ≡ ts }
{
    parse_law();
}

/// States that each node of the machine's document has exactly one list of tokens, and that
/// resolving that list finds the node's map (RFC 6901, section 4). In the document of a Rust value
/// it is the list of a pointer ([`jsonptr_laws::resolve::one_pointer_law`]).
pub fn node_law()
    ensures { (blank : NodeMap) (old : State) → IsTree old.nodes
        → (w : Path) → IsSome (old.nodes w)
        → (ts : List Text)
        × Names old.nodes ts w
        × Transition blank (record old { tokens = ts }) resolve
        (value (sub old.nodes w)) (record old { tokens = ts })
        × ((us : List Text) → Names old.nodes us w → us ≡ ts) }
{}

/// States that each list of commands has exactly one run without allocation failures. A run has as
/// many answers as commands. Its last state is one of a session if the first is. A run may continue
/// another one.
///
/// A command that ran out of memory is one that needs memory in the state that the commands before
/// it lead to. It may be left out.
pub fn run_law()
    ensures some { (blank : NodeMap) (old : State) (cs : List Command)
        → IsDocument blank → IsState old → All IsCommand cs
        → (answers : List Answer) × (new : State)
        × Runs blank old cs (map (λ a. Some a) answers) new }
    ensures one { (blank : NodeMap) (old new next : State) (cs : List Command)
        (answers others : List Answer)
        → Runs blank old cs (map (λ a. Some a) answers) new
        → Runs blank old cs (map (λ a. Some a) others) next
        → (answers ≡ others) × (new ≡ next) }
    ensures each { (blank : NodeMap) (old new : State) (cs : List Command)
        (answers : List (Option Answer))
        → Runs blank old cs answers new → length answers ≡ length cs }
    ensures state { (blank : NodeMap) (old new : State) (cs : List Command)
        (answers : List (Option Answer))
        → IsDocument blank → IsState old → All IsCommand cs → Runs blank old cs answers new
        → IsState new }
    ensures after { (blank : NodeMap) (old middle new : State) (cs ds : List Command)
        (answers others : List (Option Answer))
        → Runs blank old cs answers middle → Runs blank middle ds others new
        → Runs blank old (cs ++ ds) (answers ++ others) new }
    ensures needed { (blank : NodeMap) (old new : State) (cs ds : List Command) (c : Command)
        (answers others : List (Option Answer))
        → length answers ≡ length cs
        → Runs blank old (cs ++ c ∷ ds) (answers ++ None ∷ others) new
        → (middle : State) × Runs blank old cs answers middle
        × (NeedsNoMemory middle c → ⊥) × Runs blank middle ds others new }
    ensures left_out { (blank : NodeMap) (old new : State) (cs ds : List Command) (c : Command)
        (answers others : List (Option Answer))
        → length answers ≡ length cs
        → Runs blank old (cs ++ c ∷ ds) (answers ++ None ∷ others) new
        → Runs blank old (cs ++ ds) (answers ++ others) new }
{
    machine_law();
}

/// States that two runs of the same commands from the same state, both without allocation failures,
/// have the same answers and the same last state. They may work on different kinds of pointer.
pub fn kinds_law<P: EditPointer, Q: EditPointer>()
    ensures { (blank n m k : NodeMap) (p end : P) (q last : Q) (cs : List Command)
        (answers others : List (Option Answer))
        → P.list p ≡ Q.list q → All IsSome answers → All IsSome others
        → Runs blank (record { tokens = P.list p; nodes = n }) cs answers
        (record { tokens = P.list end; nodes = m })
        → Runs blank (record { tokens = Q.list q; nodes = n }) cs others
        (record { tokens = Q.list last; nodes = k })
        → (answers ≡ others) × (P.list end ≡ Q.list last) × (m ≡ k) }
{
    machine_law();
}

/// States that the tokens of a pointer of either kind and the map of a document are a state of a
/// session.
pub fn state_law<P: EditPointer>(ptr: &P)
    ensures { (n : NodeMap) → IsDocument n
        → IsState (record { tokens = P.list ptr.now; nodes = n }) }
{
    tokens_law(ptr.as_ptr());
}

/// States that each call is read as a command of a session.
///
/// # Conditions
///
/// `nodes v` is the map of a document, for each value `v`.
pub fn call_law<V>(call: &Call<V>)
    ghost nodes: { V → NodeMap }
    requires { (v : V) → IsDocument (nodes v) }
    ensures { IsCommand (command_of nodes call.now) }
{
    match call {
        Call::Parse(text) | Call::PushBack(text) | Call::PushFront(text) | Call::Replace(_, text) =>
            {
                text.as_str();
            }
        Call::Append(other) => tokens_law(other.as_ptr()),
        Call::Write(_) => {}
        Call::Assign(_) => {}
        Call::PopBack | Call::PopFront | Call::Clear | Call::Resolve | Call::Delete => {}
    }
}
